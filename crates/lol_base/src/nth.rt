//! An+B: which of an element's siblings it may be.

ghost use Rattle.std.specs.Prelude.{◌≡◌, ◌↔◌, IsTrue};
ghost use Rattle.lol_base.specs.Progression.{Has, IsWhole, has_index};

use std::marker::Model;

/// The indices `step * n + offset` for each whole `n` at least 0 (CSS Syntax 3, section 6), counted from 1.
#[derive(Debug, Clone, Copy, PartialEq, Eq)]
pub struct NthChild {
    step: i32,
    offset: i32,
}

impl Model for NthChild {
    ghost use Rattle.lol_base.specs.Progression.{Progression};

    ghost Value = { Progression };

    ghost view = { λ p. record { step = p.step; offset = p.offset } };

    ghost inverse = { λ p. record { step = p.step; offset = p.offset } };
}

impl NthChild {
    /// `step` is A, and `offset` is B.
    pub fn new(step: i32, offset: i32) -> NthChild
        ensures { result ≡ record { step = step; offset = offset } }
    {
        NthChild { step, offset }
    }

    /// The step, `A` of `An+B`.
    pub fn step(self) -> i32
        ensures { result ≡ self.step }
    {
        self.step
    }

    /// The offset, `B` of `An+B`.
    pub fn offset(self) -> i32
        ensures { result ≡ self.offset }
    {
        self.offset
    }

    /// Whether some whole `n` at least 0 has `index = step * n + offset`, in numbers that don't wrap.
    pub fn has_index(self, index: i32) -> bool
        ensures member { IsTrue result ↔ Has self index }
        ensures computed { result ≡ has_index self index }
    {
        is_whole(
            i64::from(self.step),
            i64::from(index) - i64::from(self.offset),
        )
    }
}

/// Whether a distance is `step * n` for some whole `n` at least 0.
fn is_whole(step: i64, distance: i64) -> bool
    ensures { IsTrue result ↔ IsWhole step distance }
{
    if distance == 0 {
        return true;
    }
    if step == 0 || (distance > 0) != (step > 0) {
        return false;
    }
    distance.unsigned_abs() % step.unsigned_abs() == 0
}
