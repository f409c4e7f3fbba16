//! The state that the rules of the grammar share.

ghost use Rattle.std.specs.Prelude.{◌≡◌};
ghost use Rattle.lol_css.specs.Tokens.{tokens_of};

use crate::syntax::reader::{Nesting, Reader};
use std::alloc::Global;

/// What is open where a rule reads.
#[derive(Clone, Copy)]
pub(crate) struct Context {
    /// What is open innermost.
    pub nesting: Nesting,
    /// How many more of `:not`, `:is` and `:where` may be opened, one inside the other.
    pub depth_left: u32,
}

/// The tokens that are left, and the allocator of what is kept.
#[derive(Drop)]
pub(crate) struct Parser<'a> {
    pub reader: Reader<'a>,
    pub alloc: Global,
}

impl<'a> Parser<'a> {
    /// A parser of a text that is preprocessed.
    pub(crate) fn new(alloc: Global, points: &'a [char]) -> Parser<'a>
        ensures { result.reader ≡ tokens_of points.now }
    {
        Parser {
            reader: Reader::new(points),
            alloc,
        }
    }
}
