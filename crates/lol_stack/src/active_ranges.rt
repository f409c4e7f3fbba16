//! Ranges that hold for all elements inside the open ones.

ghost use Rattle.std.specs.Prelude.{◌≡◌, ℕ, ◌+◌, ◌≤◌, length, filter, take, nat_lt, vec_len, vec_capacity, IfOk, OnOk, OnErr, []};
ghost use Rattle.lol_stack.specs.Active.{activated, is_range_active};
ghost use Rattle.lol_stack.specs.Spans.{HasSpans};

use lol_instructions::AddressRange;
use std::alloc::{AllocError, Global};
use std::collections::BTreeSet;
use std::marker::Model;

/// The ranges of an element that has no more of them are looked up one by one; for more a set is made, which so few wouldn't repay.
const FEW: usize = 128;

/// The distinct hereditary ranges of the open elements, in the order in which they first came, each with the depth of the first element
/// that has it.
#[derive(Drop)]
pub(crate) struct ActiveRanges {
    ranges: Vec<(AddressRange, usize)>,
    alloc: Global,
}

impl Model for ActiveRanges {
    ghost use Rattle.std.specs.Prelude.{List, ℕ};
    ghost use Rattle.std.specs.declared.ops.Range.{Range};

    ghost Value = { List (Range ℕ × ℕ) };

    ghost view = { λ a. a.ranges.items };
}

impl ActiveRanges {
    pub(crate) fn new(alloc: Global) -> Self
        ensures { result ≡ [] }
    {
        ActiveRanges {
            ranges: Vec::new(alloc),
            alloc,
        }
    }

    pub(crate) fn as_slice(&self) -> &[(AddressRange, usize)]
        ensures { result.now ≡ self.now }
    {
        self.ranges.as_slice()
    }

    pub(crate) fn len(&self) -> usize
        ensures { result ≡ length self.now }
    {
        self.ranges.len()
    }

    /// Adds those of an element's ranges that aren't there yet, with its depth: all of them, or refused none. It walks the active ranges
    /// once for each range; of an element with many it puts all into a set, which is dropped again.
    pub(crate) fn activate(
        &mut self,
        ranges: &[AddressRange],
        depth: usize,
    ) -> Result<(), AllocError>
        ensures ok { OnOk result (self.new ≡ activated self.old depth ranges.now) }
        ensures err { OnErr result (self.new ≡ self.old) }
    {
        self.ranges.reserve(ranges.len())?;
        if ranges.len() <= FEW {
            add_missing(&mut self.ranges, ranges, depth);
            return Ok(());
        }
        let mut known = spans_of(self.alloc, &self.ranges)?;
        let len = self.ranges.len();
        let added = add_unknown(&mut self.ranges, &mut known, ranges, depth);
        if added.is_err() {
            self.ranges.truncate(len);
        }
        added
    }

    /// Drops all but the first `len` ranges.
    pub(crate) fn truncate(&mut self, len: usize)
        ensures { self.new ≡ take len self.old }
    {
        self.ranges.truncate(len);
    }

    /// Drops the ranges of the elements from `depth` on.
    pub(crate) fn cut(&mut self, depth: usize)
        ensures { self.new ≡ filter (λ a. nat_lt a.1 depth) self.old }
    {
        self.ranges.retain(move |active| active.1 < depth);
    }
}

fn add_missing(active: &mut Vec<(AddressRange, usize)>, ranges: &[AddressRange], depth: usize)
    requires { vec_len active.old + length ranges.now ≤ vec_capacity active.old }
    ensures { active.new.items ≡ activated active.old.items depth ranges.now }
{
    for range in ranges {
        if !contains(active, range) {
            active.push_reserved((range.start..range.end, depth));
        }
    }
}

fn contains(active: &[(AddressRange, usize)], range: &AddressRange) -> bool
    ensures { result ≡ is_range_active active.now range.now }
{
    active.iter().any(|(other, _)| other.start == range.start && other.end == range.end)
}

/// The set of the active ranges.
fn spans_of(
    alloc: Global,
    active: &[(AddressRange, usize)],
) -> Result<BTreeSet<(usize, usize)>, AllocError>
    ensures { IfOk result (λ known. HasSpans known active.now) }
{
    let mut known = BTreeSet::new(alloc);
    for (range, _) in active {
        known.insert((range.start, range.end))?;
    }
    Ok(known)
}

/// Adds ranges that aren't in the set of the active ones.
fn add_unknown(
    active: &mut Vec<(AddressRange, usize)>,
    known: &mut BTreeSet<(usize, usize)>,
    ranges: &[AddressRange],
    depth: usize,
) -> Result<(), AllocError>
    requires room { vec_len active.old + length ranges.now ≤ vec_capacity active.old }
    requires spans { HasSpans known.old active.old.items }
    ensures ok { OnOk result (active.new.items ≡ activated active.old.items depth ranges.now) }
    ensures kept { take (length active.old.items) active.new.items ≡ active.old.items }
{
    for range in ranges {
        let span = (range.start, range.end);
        if known.insert(span)? {
            active.push_reserved((span.0..span.1, depth));
        }
    }
    Ok(())
}
