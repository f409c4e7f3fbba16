//! Reasons as C gets them.

ghost use Rattle.std.specs.Prelude.{◌≡◌, ◌∷◌, [], ◌++◌, List, IfOk, OnOk, length, map, reverse};
ghost use Rattle.lol_reasons.specs.Explanations as shown;
ghost use Rattle.lol_reasons.specs.Numbered.{reason_shown};
ghost use Rattle.zugrenja_c.specs.Reasons.{HasReasons, lines_of_reasons};

use lol_matcher::Reason;
use lol_script::push_reason;
use std::alloc::{AllocError, Global};

/// A reason: the text, the item of its list, and the id that the text was added under; and where its numbers stand among those of all
/// reasons.
#[repr(C)]
#[derive(Clone, Copy)]
pub struct ReasonPlace {
    /// The number of the text, in the order of adding, from 0.
    pub text: usize,
    /// The number of the item in the list, from 0.
    pub item: usize,
    pub numbers_start: usize,
    /// How many numbers there are: one for each compound before the last.
    pub numbers_len: usize,
    /// The id that the text was added under.
    pub id: u32,
}

/// Reasons, and the numbers of their start tags, reason after reason, each time the outermost first.
#[derive(Drop)]
pub(crate) struct ReasonTable {
    pub(crate) places: Vec<ReasonPlace>,
    pub(crate) numbers: Vec<usize>,
}

impl ReasonTable {
    /// The table of reasons.
    pub(crate) fn of(alloc: Global, told: &[Reason]) -> Result<ReasonTable, AllocError>
        ensures { IfOk result (λ table. HasReasons (map reason_shown told.now) table) }
    {
        let mut table = ReasonTable {
            places: Vec::new(alloc),
            numbers: Vec::new(alloc),
        };
        for reason in told {
            table.add(reason)?;
        }
        Ok(table)
    }

    /// Adds a reason.
    fn add(&mut self, reason: &Reason) -> Result<(), AllocError>
        ensures { OnOk result ((reasons : List shown.Reason) → HasReasons reasons self.old
            → HasReasons (reasons ++ reason_shown reason.now ∷ []) self.new) }
    {
        self.places.push(ReasonPlace {
            text: reason.item.text,
            item: reason.item.item,
            numbers_start: self.numbers.len(),
            numbers_len: reason.witness.len(),
            id: reason.item.id,
        })?;
        add_outermost_first(&mut self.numbers, &reason.witness)?;
        Ok(())
    }
}

/// Adds numbers, the last of them first.
fn add_outermost_first(numbers: &mut Vec<usize>, witness: &[usize]) -> Result<(), AllocError>
    ensures { OnOk result (numbers.new.items ≡ numbers.old.items ++ reverse witness.now) }
{
    let start = numbers.len();
    numbers.extend_from_slice(witness)?;
    numbers[start..].reverse();
    Ok(())
}

/// Reasons as lines.
pub(crate) fn lines_of(alloc: Global, told: &[Reason]) -> Result<Vec<u8>, AllocError>
    ensures { IfOk result (λ lines. lines.items ≡ lines_of_reasons (map reason_shown told.now)) }
{
    let mut lines = Vec::new(alloc);
    for reason in told {
        push_reason(&mut lines, reason.item.text as u128, reason)?;
    }
    Ok(lines)
}
