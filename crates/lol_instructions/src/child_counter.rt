//! Counts of children.

ghost use Rattle.std.specs.Prelude.{◌≡◌, ◌<◌, ◌≤◌, ◌+◌, ◌↔◌, IsTrue, pos, ◌≤ℤ◌};
ghost use Rattle.lol_base.specs.Progression.{Has, has_index};
ghost use Rattle.lol_instructions.specs.Counters.{full_count};

use lol_base::NthChild;
use std::marker::Model;

/// How many start tags were counted, from 0 to `i32::MAX` (lol_html's `ChildCounter`).
#[derive(Drop)]
pub struct ChildCounter {
    cumulative: i32,
}

impl Model for ChildCounter {
    ghost use Rattle.std.specs.Prelude.{ℕ, ◌≡◌, pos};
    ghost use Rattle.lol_instructions.specs.Counters.{number_of};

    ghost Value = { ℕ };

    ghost view = { λ c. number_of c.cumulative };

    ghost invariant = { λ c. c.cumulative ≡ pos (number_of c.cumulative) };
}

impl ChildCounter {
    /// The counter that has counted one.
    pub fn new_and_inc() -> Self
        ensures { result ≡ 1 }
    {
        ChildCounter { cumulative: 1 }
    }

    /// The counter that has counted so many. (Not in lol_html.)
    pub fn at(count: i32) -> Self
        requires { pos 0 ≤ℤ count }
        ensures { pos result ≡ count }
    {
        ChildCounter { cumulative: count }
    }

    /// Counts one more. A full counter takes no more: see `is_full`.
    pub fn inc(&mut self)
        requires { self.old < full_count }
        ensures { self.new ≡ self.old + 1 }
    {
        self.cumulative += 1;
    }

    /// Whether the child that was counted last is the An+Bth one.
    pub fn is_nth(&self, nth: NthChild) -> bool
        ensures member { IsTrue result ↔ Has nth (pos self.now) }
        ensures computed { result ≡ has_index nth (pos self.now) }
    {
        nth.has_index(self.cumulative)
    }

    /// Whether the counter stands at `i32::MAX`, the greatest number. (Not in lol_html.)
    pub fn is_full(&self) -> bool
        ensures full { IsTrue result ↔ (self.now ≡ full_count) }
        ensures bound { self.now ≤ full_count }
    {
        self.cumulative == i32::MAX
    }
}

impl Default for ChildCounter {
    ghost is_default = { λ c. c ≡ 0 };

    /// The counter that has counted nothing.
    fn default() -> Self {
        ChildCounter { cumulative: 0 }
    }
}
