//! Selectors whose items are told apart in a report.

ghost use Rattle.std.specs.Prelude.{◌≡◌, ◌<◌, ◌+◌, false, List, [], ◌∷◌, ◌++◌, length, IfOk, IsErrOf, OnOk, OnErr};
ghost use Rattle.lol_css.specs.TreeViews.{list_of};
ghost use Rattle.lol_program.specs.Asts.{is_with_rows};
ghost use Rattle.lol_reasons.specs.Explanations.{Added, added_by};
ghost use Rattle.lol_reasons.specs.Numbered.{HoldsItems, added_by_text, item_added, text_shown, texts_in};

use crate::error::NumberingError;
use crate::explainer::{Explainer, ItemOfText};
use lol_css::{ComplexSelector, Selector};
use lol_memory::MatchId;
use lol_program::Ast;
use std::alloc::{AllocError, Global};

/// A selector, and the id that it was added under.
#[derive(Drop)]
pub(crate) struct Text {
    pub id: MatchId,
    pub selector: Selector,
}

/// Selectors under ids, whose reports can be explained. Several may have one id.
#[derive(Drop)]
pub struct Texts {
    alloc: Global,
    texts: Vec<Text>,
}

/// The items of texts, each under an id of its own: its number in the order of adding, from 0.
#[derive(Drop)]
pub struct Numbering {
    /// The selectors of a machine whose reports tell which items match.
    pub ast: Ast,
    /// What explains those reports.
    pub explainer: Explainer,
}

impl Texts {
    /// No selectors. It takes no memory.
    pub fn new(alloc: Global) -> Self
        ensures { texts_in result ≡ [] }
    {
        Texts {
            alloc,
            texts: Vec::new(alloc),
        }
    }

    /// Adds a selector under an id. It is refused where memory is.
    pub fn add(&mut self, id: MatchId, selector: Selector) -> Result<(), AllocError>
        ensures added { OnOk result
            (texts_in self.new ≡ texts_in self.old ++ record { id = id; items = list_of selector } ∷ []) }
        ensures refused { OnErr result (texts_in self.new ≡ texts_in self.old) }
    {
        self.texts.push(Text { id, selector })?;
        Ok(())
    }

    /// The items of all texts, each under its number, in a tree without rows. The texts stay as they are, so after an error it may be asked for again.
    ///
    /// # Errors
    /// `TooManyItems` if there are more items than ids, or `Memory`.
    pub fn number_items(&self) -> Result<Numbering, NumberingError>
        ensures numbered { IfOk result (λ numbering. HoldsItems (added_by (texts_in self.now)) numbering) }
        ensures rows { IfOk result (λ numbering. is_with_rows numbering.ast ≡ false) }
        ensures too_many { IsErrOf result NumberingError.TooManyItems
            → u32.MAX + 1 < length (added_by (texts_in self.now)) }
    {
        let mut numbering = Numbering::new(self.alloc);
        for (number, text) in self.texts.iter().enumerate() {
            numbering.add_text(number, text)?;
        }
        Ok(numbering)
    }
}

impl Numbering {
    fn new(alloc: Global) -> Self
        ensures holds { HoldsItems [] result }
        ensures rows { is_with_rows result.ast ≡ false }
    {
        Numbering {
            ast: Ast::new(alloc),
            explainer: Explainer::new(alloc),
        }
    }

    /// Adds each item of a text.
    fn add_text(&mut self, number: usize, text: &Text) -> Result<(), NumberingError>
        ensures added { OnOk result ((added : List Added) → HoldsItems added self.old
            → HoldsItems (added ++ added_by_text number (text_shown text.now)) self.new) }
        ensures rows { is_with_rows self.new.ast ≡ is_with_rows self.old.ast }
        ensures too_many { IsErrOf result NumberingError.TooManyItems → (added : List Added) → HoldsItems added self.old
            → u32.MAX + 1 < length (added ++ added_by_text number (text_shown text.now)) }
    {
        for (item_number, item) in text.selector.list().items.iter().enumerate() {
            let named = ItemOfText {
                id: text.id,
                text: number,
                item: item_number,
            };
            self.add_item(named, item)?;
        }
        Ok(())
    }

    fn add_item(&mut self, named: ItemOfText, item: &ComplexSelector) -> Result<(), NumberingError>
        ensures added { OnOk result ((added : List Added) → HoldsItems added self.old
            → HoldsItems (added ++ item_added named item.now ∷ []) self.new) }
        ensures rows { is_with_rows self.new.ast ≡ is_with_rows self.old.ast }
        ensures too_many { IsErrOf result NumberingError.TooManyItems
            → (added : List Added) → HoldsItems added self.old → u32.MAX < length added }
    {
        let Some(own_id) = self.explainer.next_id() else {
            return Err(NumberingError::TooManyItems);
        };
        self.ast.add_item(item, own_id)?;
        self.explainer.add(named)?;
        Ok(())
    }
}
