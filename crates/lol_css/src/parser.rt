//! Reading selectors, and where they are refused.

ghost use Rattle.std.specs.Prelude.{◌≡◌, ◌⊎◌, Ok, Err, IfOk, IfErr};
ghost use Rattle.lol_css.specs.Accepting.{accept};
ghost use Rattle.lol_css.specs.Locating.{error_location};
ghost use Rattle.lol_css.specs.TreeViews.{list_of};
ghost use Rattle.lol_css.specs.declared.error.SelectorError.TheVariants.{Memory};

use crate::error::{ErrorLocation, SelectorError};
use crate::selector::SelectorList;
use crate::selectors::parser::{Context, Parser};
use crate::selectors::refusals::refused_item;
use crate::syntax::places::{point_offset, points_before};
use crate::syntax::points::preprocessed;
use crate::syntax::reader::Nesting;
use std::alloc::{AllocError, Global};

/// What is open where the outermost list is read.
pub(crate) const OUTERMOST: Context = Context {
    nesting: Nesting::Outside,
    depth_left: 128,
};

/// The parser of selectors, as lol_html's `selectors_vm::SelectorsParser`.
pub struct SelectorsParser;

impl SelectorsParser {
    /// The selector that a text stands for: a list of one item or more.
    ///
    /// # Errors
    ///
    /// The one cause for which the text is refused, or `Memory` where the allocator is out of memory.
    pub fn parse(alloc: Global, text: &str) -> Result<SelectorList, SelectorError>
        ensures ok { IfOk result (λ selector. accept text.now ≡ Ok (list_of selector)) }
        ensures err { IfErr result (λ cause. (cause ≡ Memory) ⊎ (accept text.now ≡ Err cause)) }
    {
        let points = preprocessed(alloc, text)?;
        let mut parser = Parser::new(alloc, points.as_slice());
        match parser.list(OUTERMOST)? {
            Ok(list) => Ok(list),
            Err(refusal) => Err(refusal.cause),
        }
    }
}

/// A parsed selector, as lol_html's `selectors_vm::Selector`.
#[derive(Debug, Drop)]
pub struct Selector {
    list: SelectorList,
}

impl std::marker::Model for Selector {
    ghost use Rattle.lol_css.specs.declared.selector.SelectorList.{SelectorList};
    ghost use Rattle.lol_css.specs.contracts.selector.SelectorList as contracts;
    ghost use Rattle.std.specs.Coded.{codes};

    ghost Value = { SelectorList };

    ghost coded = { Prim.hlevel (codes, contracts.the_row.coded) };

    ghost view = { λ s. s.list };
}

impl Selector {
    /// The selector that a text stands for, as `SelectorsParser::parse` reads it.
    ///
    /// # Errors
    ///
    /// The cause for which the text is refused, as `SelectorsParser::parse` tells it.
    pub fn from_str(alloc: Global, text: &str) -> Result<Selector, SelectorError>
        ensures ok { IfOk result (λ selector. accept text.now ≡ Ok (list_of selector)) }
        ensures err { IfErr result (λ cause. (cause ≡ Memory) ⊎ (accept text.now ≡ Err cause)) }
    {
        Ok(Selector {
            list: SelectorsParser::parse(alloc, text)?,
        })
    }

    /// Where `from_str` refuses a text: the item of the outermost list, and the byte offset; nothing where the text is accepted.
    ///
    /// Where a token can't stand where it does, the offset is the token's, or the text's length at the end. Where the whole list is read
    /// and a part or a step of it is refused then, it is that of the step's sign, or of the compound after white space, of the name of a
    /// pseudo-class, or of the `*` in `[*|a]`.
    /// Tokens are those of CSS Syntax 3, section 4.
    ///
    /// The text is read as by `from_str`, and walked over a few times more: call it only for a text that is refused.
    ///
    /// # Errors
    ///
    /// `AllocError` where the allocator is out of memory.
    pub fn locate_error(alloc: Global, text: &str) -> Result<Option<ErrorLocation>, AllocError>
        ensures located { IfOk result (λ location. location ≡ error_location text.now) }
    {
        let points = preprocessed(alloc, text)?;
        let Some(refused) = refused_item(alloc, points.as_slice())? else {
            return Ok(None);
        };
        let before = points_before(points.as_slice(), refused.token);
        Ok(Some(ErrorLocation {
            item: refused.number,
            offset: point_offset(text, before),
        }))
    }

    /// The items of the selector.
    pub fn list(&self) -> &SelectorList
        ensures { result.now ≡ self.now }
    {
        &self.list
    }
}
