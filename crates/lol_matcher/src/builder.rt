//! Selectors and settings, before the first tag.

use crate::error::AddError;
use crate::matcher::Matcher;
use crate::reading::add_text;
use lol_memory::MatchId;
use lol_program::Ast;
use std::alloc::{AllocError, Global};

/// Selectors and settings, of which a matcher is made (`build`). What is set before `build` counts.
#[derive(Drop)]
pub struct MatcherBuilder {
    pub(crate) alloc: Global,
    /// The selectors so far: another tree may take its place. One with rows (`Ast::with_rows_from(ROWS_PAY_FROM)`) spares the nodes that a
    /// tag's name, id, classes and attributes rule out: for hundreds of selectors and more. It answers the same, and tries fewer nodes.
    pub ast: Ast,
    /// The most bytes that open elements may be charged for. There is no bound until one is set.
    pub max_memory: usize,
    /// The bytes that each open element is charged for: 64 until others are set. 0 counts as 1.
    ///
    /// The charge is for room: at least 128 bytes and 8 elements, and twice as much each time it is filled. It never falls.
    pub element_bytes: usize,
    /// Whether the two void names of Edge Side Includes, `esi:include` and `esi:comment`, are void. At first they aren't.
    pub enable_esi_tags: bool,
}

impl MatcherBuilder {
    ghost use Rattle.std.specs.Prelude.{◌≡◌, IfErr, IfOk, OnOk, max};
    ghost use Rattle.lol_instructions.specs.Tries.{names_counted, attributes_counted};
    ghost use Rattle.lol_program.specs.Asts.{is_with_rows};
    ghost use Rattle.lol_matcher.specs.Building.{Adds, Refuses, started_with};

    /// Adds the selectors of a text, a list of them with commas, under an id. Several texts may have one id.
    ///
    /// # Errors
    /// Why the text isn't accepted and where, or `Memory`. Then the matcher answers as if the text had not been given.
    pub fn add(&mut self, id: MatchId, text: &str) -> Result<(), AddError>
        ensures added { OnOk result (Adds id text.now self.old.ast self.new.ast) }
        ensures refused { IfErr result (λ error. Refuses id text.now error self.old.ast self.new.ast) }
        ensures rows { is_with_rows self.new.ast ≡ is_with_rows self.old.ast }
        ensures rest { self.new ≡ record self.old { ast = self.new.ast } }
    {
        add_text(self.alloc, &mut self.ast, id, text)
    }

    /// The matcher, before the first tag. Each open element may have a value of the type `T`. It is refused only where memory is.
    pub fn build<T: Drop>(self) -> Result<Matcher<T>, AllocError>
        ensures told { IfOk result (λ matcher. matcher ≡ started_with
            self.ast self.max_memory (max self.element_bytes 1) self.enable_esi_tags matcher.tries) }
        ensures tries { IfOk result (λ matcher.
            (names_counted matcher.tries ≡ 0) × (attributes_counted matcher.tries ≡ 0)) }
    {
        let MatcherBuilder {
            alloc,
            ast,
            max_memory,
            element_bytes,
            enable_esi_tags,
        } = self;
        Matcher::new(
            alloc,
            ast,
            max_memory,
            element_bytes.max(1),
            enable_esi_tags,
        )
    }
}
