//! Items: the steps between compounds, and one compound more (Selectors 4, section 16).

ghost use Rattle.std.specs.Prelude.{◌≡◌, OnOk};
ghost use Rattle.std.specs.Option.{option_map};
ghost use Rattle.lol_css.specs.Rules.{giving};
ghost use Rattle.lol_css.specs.Reading.{next_step};
ghost use Rattle.lol_css.specs.Accepting.{judged_step};
ghost use Rattle.lol_css.specs.Judging as judging;
ghost use Rattle.lol_css.specs.Views.{Reads, nesting_of, is_inside, judgement, step_judgement};
ghost use Rattle.lol_css.specs.TreeViews.{compound_of, item_of, list_of};

use crate::error::{Read, SelectorError};
use crate::selector::{Combinator, ComplexSelector, Compound, SelectorList};
use crate::selectors::judged::{Judged, Refusal};
use crate::selectors::parser::Parser;
use crate::syntax::reader::Nesting;
use crate::syntax::tokens::Token;
use std::alloc::{AllocError, Global};

impl<'a> Parser<'a> {
    /// The step after a compound; nothing where the item ends.
    #[tactic(auto, unfolding(crate::specs::Reading::next_step, crate::specs::Reading::step))]
    pub(crate) fn next_step(&mut self, nesting: Nesting) -> Read<Option<Judged<'a, Combinator>>>
        ensures { Reads (option_map step_judgement) result self.new.reader
            (giving (option_map (judged_step (is_inside nesting)))
            (next_step (nesting_of nesting) self.old.reader)) }
    {
        let after_space = matches!(self.reader.peek(), Some(Token::Space));
        self.reader.skip_space();
        if self.reader.is_at_stop(nesting) {
            return Ok(None);
        }
        let left = self.reader.rest();
        let step = match self.reader.peek() {
            Some(Token::Delim('>')) => Some(Ok(Combinator::Child)),
            Some(Token::Delim('+')) => Some(Err(SelectorError::UnsupportedCombinator('+'))),
            Some(Token::Delim('~')) => Some(Err(SelectorError::UnsupportedCombinator('~'))),
            _ => None,
        };
        if step.is_some() {
            self.reader.advance();
            self.reader.skip_space();
        } else if !after_space {
            return Err(SelectorError::UnexpectedToken);
        }
        let step = match nesting {
            Nesting::InFunction => Err(SelectorError::UnsupportedPseudoClassOrElement),
            _ => step.unwrap_or(Ok(Combinator::Descendant)),
        };
        Ok(Some(step.map_err(|cause| Refusal { cause, left })))
    }
}

#[tactic(auto, using(crate::proofs::TreeRows::row_starts))]
pub(crate) fn alone<'a>(alloc: Global, first: Judged<'a, Compound>) -> Judged<'a, ComplexSelector>
    ensures { judgement item_of result ≡ judging.alone (judgement compound_of first.entry) }
{
    first.map(|first| ComplexSelector {
        first,
        rest: Vec::new(alloc),
    })
}

/// Adds a compound to an item: the compound is judged first, and then the step.
#[tactic(auto, using(crate::proofs::TreeRows::push_steps))]
pub(crate) fn add_compound<'a>(
    item: &mut Judged<'a, ComplexSelector>,
    step: Judged<'a, Combinator>,
    compound: Judged<'a, Compound>,
) -> Result<(), AllocError>
    ensures { OnOk result (judgement item_of item.new
        ≡ judging.with_compound (judgement item_of item.old) (step_judgement step.entry)
        (judgement compound_of compound.entry)) }
{
    match (compound, step) {
        (Ok(compound), Ok(combinator)) => {
            if let Ok(item) = item {
                item.rest.push((combinator, compound))?;
            }
        }
        (Err(refusal), _) | (_, Err(refusal)) => *item = Err(refusal),
    }
    Ok(())
}

#[tactic(auto, using(crate::proofs::TreeRows::push_steps))]
// Called, its arguments would make each step of a recursion take more of the stack.
#[inline(always)]
pub(crate) fn add_item<'a>(
    list: &mut Judged<'a, SelectorList>,
    item: Judged<'a, ComplexSelector>,
) -> Result<(), AllocError>
    ensures { OnOk result (judgement list_of list.new
        ≡ judging.with_item (judgement list_of list.old) (judgement item_of item.entry)) }
{
    if let Ok(kept) = list {
        match item {
            Ok(item) => kept.items.push(item)?,
            Err(refusal) => *list = Err(refusal),
        }
    }
    Ok(())
}
