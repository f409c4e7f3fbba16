//! What a reader has read. It takes no memory, and its calls do nothing at run time.

ghost use Rattle.std.specs.Prelude.{◌≡◌, ◌++◌, [], List, ℕ};
ghost use Rattle.std.specs.Borrow.{ftrue};
ghost use Rattle.std.specs.Coded.{codes};
ghost use Rattle.lol_page.specs.Parts.{part_of};

use std::marker::Model;

/// The bytes that a reader has read.
#[derive(Drop)]
pub(crate) struct Past {
    pub(crate) ghost read: { List ℕ } by { Prim.hlevel codes },
}

impl Model for Past {
    ghost also_owns = { λ _. ftrue };
}

/// What it reads next.
#[derive(Clone, Copy, Drop)]
pub(crate) enum Part<'a> {
    Bytes(&'a [u8]),
}

impl Past {
    pub(crate) fn new(_part: &Part<'_>) -> Past
        ensures { result.read ≡ part_of _part.now }
    {
        Past {}
    }

    #[inline(always)]
    pub(crate) fn then(&self, _part: &Part<'_>) -> Past
        ensures { result.read ≡ self.now.read ++ part_of _part.now }
    {
        Past {}
    }
}
