//! The `select` lines of a script, kept until it is known whether reasons are shown.

ghost use Rattle.std.specs.Prelude.{◌≡◌, ◌++◌, ◌∷◌, [], List, IfOk, IfSome, OnOk, Ok, map};
ghost use Rattle.lol_css.specs.Accepting.{accept};
ghost use Rattle.lol_css.specs.TreeViews.{list_of};
ghost use Rattle.lol_program.specs.Asts.{is_with_rows};
ghost use Rattle.lol_reasons.specs.Explanations.{added_by};
ghost use Rattle.lol_reasons.specs.Numbered.{HoldsItems, texts_in as read_texts};
ghost use Rattle.lol_script.specs.Scripts as scripts;
ghost use Rattle.lol_script.specs.Scripts.{texts_in};
ghost use Rattle.lol_script.specs.SelectLines as lines;
ghost use Rattle.lol_script.specs.SelectLines.{HoldsKept, KeepsLines, text_accepted, text_read};

use crate::lines::text_of;
use crate::settings::with_rows_if;
use lol_css::Selector;
use lol_matcher::{Numbering, Texts};
use std::alloc::{AllocError, Global};

/// The number of a `select` line, its id, and how many bytes its text has.
#[derive(Clone, Copy)]
struct KeptLine {
    number: u128,
    id: u32,
    len: usize,
}

/// The `select` lines so far. Their texts stand one after another.
#[derive(Drop)]
pub struct SelectLines {
    lines: Vec<KeptLine>,
    texts: Vec<u8>,
}

impl SelectLines {
    /// No lines. It takes no memory.
    pub fn new(alloc: Global) -> Self
        ensures { HoldsKept result [] }
    {
        SelectLines {
            lines: Vec::new(alloc),
            texts: Vec::new(alloc),
        }
    }

    pub fn push(&mut self, number: u128, id: u32, text: &str) -> Result<(), AllocError>
        ensures { OnOk result ((kept : List lines.KeptLine) → HoldsKept self.old kept
            → HoldsKept self.new (kept ++ record { number = number; id = id; text = text.now } ∷ [])) }
    {
        self.texts.extend_from_slice(text.as_bytes())?;
        self.lines.push(KeptLine {
            number,
            id,
            len: text.len(),
        })?;
        Ok(())
    }

    pub fn numbers(&self, alloc: Global) -> Result<Vec<u128>, AllocError>
        ensures { IfOk result (λ numbers. numbers.items ≡ map (λ line. line.number) self.now.lines.items) }
    {
        let mut numbers = Vec::new(alloc);
        for line in &self.lines {
            numbers.push(line.number)?;
        }
        Ok(numbers)
    }

    /// The selectors of the lines, under their ids. Each text is read again.
    pub fn read(&self, alloc: Global) -> Result<Texts, AllocError>
        ensures { IfOk result (λ read. (kept : List lines.KeptLine) → HoldsKept self.now kept
            → map text_read kept ≡ map text_accepted (read_texts read)) }
    {
        let mut read = Texts::new(alloc);
        let mut rest = self.texts.as_slice();
        for line in &self.lines {
            let (text, after) = rest.split_at(line.len.min(rest.len()));
            read.add(line.id, selector_of(alloc, text)?)?;
            rest = after;
        }
        Ok(read)
    }

    /// The items of the lines' selectors, each under a number of its own, in a tree with rows or without.
    pub fn number_items(&self, alloc: Global, has_rows: bool) -> Result<Numbering, AllocError>
        ensures { IfOk result (λ numbering. (s : scripts.Script) → KeepsLines self.now s.selects
            → HoldsItems (added_by (texts_in s)) numbering × (is_with_rows numbering.ast ≡ has_rows)) }
    {
        let Ok(numbering) = self.read(alloc)?.number_items() else {
            return Err(AllocError);
        };
        let ast = with_rows_if(numbering.ast, has_rows);
        Ok(Numbering {
            ast,
            explainer: numbering.explainer,
        })
    }
}

/// The selector of a text that was read before.
fn selector_of(alloc: Global, bytes: &[u8]) -> Result<Selector, AllocError>
    ensures { IfOk result (λ selector. accept bytes.now ≡ Ok (list_of selector)) }
{
    let Some(text) = text_of(bytes) else {
        return Err(AllocError);
    };
    match Selector::from_str(alloc, text) {
        Ok(selector) => Ok(selector),
        Err(_) => Err(AllocError),
    }
}
