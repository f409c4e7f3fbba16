//! Lists of ranges of instructions.

ghost use Rattle.std.specs.Prelude.{◌≡◌, ℕ, List, ◌++◌, ◌∷◌, [], OnOk, OnErr, IsOk, IsSome, IsNone, ◌↔◌, ◌<◌, length, option_to_list};
ghost use Rattle.std.specs.declared.ops.Range.{Range};
ghost use Rattle.lol_stack.specs.WithRange.{with_range};

use lol_instructions::AddressRange;
use std::alloc::{AllocError, Global};
use std::marker::Model;
use std::{mem, slice};

/// A list of ranges of instructions, which takes no memory while it has one range at most. (lol_html has a `Vec`.)
#[derive(Drop)]
pub struct AddressRanges {
    ranges: Ranges,
}

#[derive(Drop)]
enum Ranges {
    None,
    One(AddressRange),
    // Never empty.
    Many(Vec<AddressRange>),
}

impl Model for AddressRanges {
    ghost use Rattle.std.specs.Prelude.{List, ℕ};
    ghost use Rattle.std.specs.declared.ops.Range.{Range};

    ghost Value = { List (Range ℕ) };

    ghost use Rattle.lol_stack.specs.RangesOf.{ranges_of, IsFilled};

    ghost view = { λ r. ranges_of r.ranges };

    ghost invariant = { λ r. IsFilled r.ranges };
}

impl AddressRanges {
    /// The empty list.
    pub fn new() -> Self
        ensures { result ≡ [] }
    {
        AddressRanges {
            ranges: Ranges::None,
        }
    }

    /// The ranges, in the order in which they were added.
    #[inline]
    pub fn as_slice(&self) -> &[AddressRange]
        ensures { result.now ≡ self.now }
    {
        match &self.ranges {
            Ranges::None => &[],
            Ranges::One(range) => slice::from_ref(range),
            Ranges::Many(ranges) => ranges.as_slice(),
        }
    }

    /// Adds a range at the end. The first takes no memory.
    pub fn push(&mut self, alloc: Global, range: AddressRange) -> Result<(), AllocError>
        ensures ok { OnOk result (self.new ≡ self.old ++ range ∷ []) }
        ensures no_memory { self.old ≡ [] → IsOk result }
        ensures err { OnErr result (self.new ≡ self.old) }
    {
        match &mut self.ranges {
            Ranges::None => self.ranges = Ranges::One(range),
            Ranges::One(first) => {
                let mut ranges = Vec::with_capacity(alloc, 4)?;
                ranges.push_reserved(mem::replace(first, 0..0));
                ranges.push_reserved(range);
                self.ranges = Ranges::Many(ranges);
            }
            Ranges::Many(ranges) => ranges.push(range)?,
        }
        Ok(())
    }

    /// Adds a range at the end, if it is there.
    pub(crate) fn extend(
        &mut self,
        alloc: Global,
        range: &Option<AddressRange>,
    ) -> Result<(), AllocError>
        ensures ok { OnOk result (self.new ≡ with_range self.old range.now) }
        ensures no_memory { IsNone range.now → IsOk result }
        ensures err { OnErr result (self.new ≡ self.old) }
    {
        match range {
            Some(range) => self.push(alloc, range.start..range.end),
            None => Ok(()),
        }
    }

    /// Takes off what `extend` added.
    pub(crate) fn shrink(&mut self, range: &Option<AddressRange>)
        ensures { (ranges : List (Range ℕ)) → self.old ≡ with_range ranges range.now → self.new ≡ ranges }
    {
        if let Some(_) = range {
            self.pop();
        }
    }

    /// Takes the last range off.
    pub fn pop(&mut self) -> Option<AddressRange>
        ensures items { self.old ≡ self.new ++ option_to_list result }
        ensures some { IsSome result ↔ (0 < length self.old) }
    {
        match mem::replace(&mut self.ranges, Ranges::None) {
            Ranges::None => None,
            Ranges::One(range) => Some(range),
            Ranges::Many(mut ranges) => {
                let last = ranges.pop();
                if !ranges.is_empty() {
                    self.ranges = Ranges::Many(ranges);
                }
                last
            }
        }
    }
}
