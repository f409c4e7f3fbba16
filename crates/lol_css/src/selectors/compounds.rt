//! Compounds: what they begin with, and one part more (Selectors 4, section 3.1).

ghost use Rattle.std.specs.Prelude.{◌≡◌, Ok, IfOk, OnOk};
ghost use Rattle.std.specs.Option.{option_map};
ghost use Rattle.lol_css.specs.Trees as trees;
ghost use Rattle.lol_css.specs.Rules.{giving};
ghost use Rattle.lol_css.specs.Reading.{class_name, after_bar, type_part};
ghost use Rattle.lol_css.specs.Accepting.{judged_compound};
ghost use Rattle.lol_css.specs.Judging as judging;
ghost use Rattle.lol_css.specs.Judging.{is_empty};
ghost use Rattle.lol_css.specs.Views.{ReadsUnlessMemory, nesting_of, judgement};
ghost use Rattle.lol_css.specs.TreeViews.{part_of, compound_of};

use crate::error::{Read, SelectorError};
use crate::selector::{Compound, SimpleSelector};
use crate::selectors::judged::Judged;
use crate::selectors::parser::Parser;
use crate::syntax::reader::Nesting;
use crate::syntax::tokens::Token;
use std::alloc::{AllocError, Global};

impl Parser<'_> {
    #[tactic(auto, unfolding(crate::specs::Reading::class_name))]
    pub(crate) fn class_name(&mut self, nesting: Nesting) -> Read<SimpleSelector>
        ensures { ReadsUnlessMemory part_of result self.new.reader
            (giving trees.Plain (class_name (nesting_of nesting) self.old.reader)) }
    {
        if self.reader.is_at_stop(nesting) {
            return Err(SelectorError::UnexpectedEnd);
        }
        let name = self
            .reader
            .expect_name(nesting, SelectorError::InvalidClassName)?;
        Ok(SimpleSelector::Class(name.to_text(self.alloc)?))
    }

    /// A name or `*`, directly after a bar, added to what stands before it; nothing where the item ends.
    #[tactic(auto, unfolding(crate::specs::Reading::after_bar), using(crate::proofs::TreeRows::push_steps))]
    fn after_bar(&mut self, nesting: Nesting, mut compound: Compound) -> Read<Option<Compound>>
        ensures { ReadsUnlessMemory (option_map compound_of) result self.new.reader
            (giving (option_map (λ part. trees.With (compound_of compound) part))
            (giving (option_map trees.Plain) (after_bar (nesting_of nesting) self.old.reader))) }
    {
        if self.reader.is_at_stop(nesting) {
            return Ok(None);
        }
        let name = match self.reader.peek() {
            Some(Token::Ident(name)) => SimpleSelector::LocalName(name.to_text(self.alloc)?),
            Some(Token::Delim('*')) => SimpleSelector::ExplicitUniversalType,
            _ => return Err(SelectorError::UnexpectedToken),
        };
        self.reader.advance();
        compound.parts.push(name)?;
        Ok(Some(compound))
    }

    /// A compound that begins with its type part, where one stands; nothing where a bar ends the item.
    #[tactic(auto, unfolding(crate::specs::Reading::type_part, crate::specs::Accepting::judged_compound, crate::specs::Accepting::judged_part))]
    pub(crate) fn type_part(&mut self, nesting: Nesting) -> Read<Option<Compound>>
        ensures { ReadsUnlessMemory (option_map (λ start. Ok (compound_of start))) result self.new.reader
            (giving (option_map judged_compound) (type_part (nesting_of nesting) self.old.reader)) }
    {
        match self.reader.peek() {
            Some(Token::Ident(name)) => {
                self.reader.advance();
                if self.reader.is_at_delim('|') {
                    return Err(SelectorError::NamespacedSelector);
                }
                let name = SimpleSelector::LocalName(name.to_text(self.alloc)?);
                Ok(Some(single(self.alloc, name)?))
            }
            Some(Token::Delim('*')) => {
                self.reader.advance();
                if !self.reader.is_at_delim('|') {
                    return Ok(Some(single(self.alloc, SimpleSelector::ExplicitUniversalType)?));
                }
                self.reader.advance();
                self.after_bar(
                    nesting,
                    Compound {
                        parts: Vec::new(self.alloc),
                    },
                )
            }
            Some(Token::Delim('|')) => {
                self.reader.advance();
                let bar = single(self.alloc, SimpleSelector::ExplicitNoNamespace)?;
                self.after_bar(nesting, bar)
            }
            _ => Ok(Some(Compound {
                parts: Vec::new(self.alloc),
            })),
        }
    }
}

#[tactic(auto, using(crate::proofs::TreeRows::row_starts))]
fn single(alloc: Global, part: SimpleSelector) -> Result<Compound, AllocError>
    ensures { IfOk result (λ compound. compound_of compound ≡ trees.With trees.Nothing (part_of part)) }
{
    let mut parts = Vec::new(alloc);
    parts.push(part)?;
    Ok(Compound { parts })
}

#[tactic(auto, using(crate::proofs::TreeRows::push_steps))]
pub(crate) fn add_part<'a>(
    compound: &mut Judged<'a, Compound>,
    part: Judged<'a, SimpleSelector>,
) -> Result<(), AllocError>
    ensures { OnOk result (judgement compound_of compound.new
        ≡ judging.with_part (judgement compound_of compound.old) (judgement part_of part.entry)) }
{
    if let Ok(kept) = compound {
        match part {
            Ok(part) => kept.parts.push(part)?,
            Err(refusal) => *compound = Err(refusal),
        }
    }
    Ok(())
}

pub(crate) fn reads_nothing(parts: &Judged<'_, Compound>) -> bool
    ensures { result ≡ is_empty (judgement compound_of parts.now) }
{
    match parts {
        Ok(compound) => compound.parts.as_slice().is_empty(),
        Err(_) => false,
    }
}
