//! Which item of the outermost list is refused, and from which token on.

ghost use Rattle.std.specs.Prelude.{◌≡◌, IfOk};
ghost use Rattle.std.specs.Option.{option_map};
ghost use Rattle.lol_css.specs.Points.{◌or◌};
ghost use Rattle.lol_css.specs.Tokens.{tokens_of};
ghost use Rattle.lol_css.specs.Locating.{refused_token};
ghost use Rattle.lol_css.specs.Views.{judgement, judged_item_in, read_of, left_of, numbers, late_place};
ghost use Rattle.lol_css.specs.TreeViews.{item_of};

use crate::error::SelectorError;
use crate::parser::OUTERMOST;
use crate::selector::ComplexSelector;
use crate::selectors::judged::Judged;
use crate::selectors::parser::{Context, Parser};
use crate::syntax::reader::Nesting;
use crate::syntax::tokens::count_tokens;
use std::alloc::{AllocError, Global};

/// An item of the outermost list that is refused.
#[derive(Drop)]
pub(crate) struct RefusedItem {
    /// How many items stand before it.
    pub number: usize,
    /// How many tokens of the text stand before the first that is refused.
    pub token: usize,
}

impl<'a> Parser<'a> {
    /// An item; nothing where it is refused as it is read, which leaves the reader at the first token that is refused.
    fn item_if_read(
        &mut self,
        context: Context,
    ) -> Result<Option<Judged<'a, ComplexSelector>>, AllocError>
        ensures read { IfOk result (λ found. option_map (judgement item_of) found
            ≡ read_of (judged_item_in context self.old.reader)) }
        ensures left { IfOk result (λ _. self.new.reader ≡ left_of (judged_item_in context self.old.reader)) }
    {
        match self.item(context) {
            Ok(item) => Ok(Some(item)),
            Err(SelectorError::Memory) => Err(AllocError),
            Err(_) => Ok(None),
        }
    }
}

/// The first item that is refused late: the one that was found, or this one, which has this number, of a text of so many tokens.
fn first_late(
    found: Option<RefusedItem>,
    item: &Judged<'_, ComplexSelector>,
    number: usize,
    all: usize,
) -> Option<RefusedItem>
    ensures { option_map numbers result
        ≡ (option_map numbers found or late_place number all (judgement item_of item.now)) }
{
    match (found, item) {
        (None, Err(refusal)) => Some(RefusedItem {
            number,
            token: all.saturating_sub(count_tokens(refusal.left)),
        }),
        (found, _) => found,
    }
}

/// The item that is refused of a text that is preprocessed: the first that is refused as it is read, or else the first that is refused late.
pub(crate) fn refused_item(
    alloc: Global,
    points: &[char],
) -> Result<Option<RefusedItem>, AllocError>
    ensures { IfOk result (λ found. option_map numbers found ≡ refused_token (tokens_of points.now)) }
{
    let mut parser = Parser::new(alloc, points);
    let all = parser.reader.count();
    let mut number = 0;
    let mut late = None;
    'items: loop {
        let Some(item) = parser.item_if_read(OUTERMOST)? else {
            let token = all.saturating_sub(parser.reader.count());
            return Ok(Some(RefusedItem { number, token }));
        };
        late = first_late(late, &item, number, all);
        if parser.reader.is_at_end(Nesting::Outside) {
            return Ok(late);
        }
        parser.reader.advance();
        number += 1;
    }
}
