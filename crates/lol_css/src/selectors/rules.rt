//! The grammar of compounds, items and lists (Selectors 4, sections 3, 4 and 18.1).

ghost use Rattle.std.specs.Prelude.{◌≡◌, Ok};
ghost use Rattle.std.specs.Option.{option_map};
ghost use Rattle.lol_css.specs.Drafts as drafts;
ghost use Rattle.lol_css.specs.Rules.{giving};
ghost use Rattle.lol_css.specs.Reading.{pseudo, part, compound, list, inner_list};
ghost use Rattle.lol_css.specs.Accepting.{judged_part, judged_compound, judged};
ghost use Rattle.lol_css.specs.Judging.{judged_parts};
ghost use Rattle.lol_css.specs.Views.{ReadsUnlessMemory, nesting_of, is_inside, judgement, judged_item_in};
ghost use Rattle.lol_css.specs.TreeViews.{part_of, compound_of, item_of, list_of};

use crate::error::{Read, SelectorError};
use crate::selector::{ComplexSelector, Compound, SelectorList, SimpleSelector};
use crate::selectors::attributes::attribute;
use crate::selectors::compounds::{add_part, reads_nothing};
use crate::selectors::items::{add_compound, add_item, alone};
use crate::selectors::judged::Judged;
use crate::selectors::logical::LogicalCombination;
use crate::selectors::parser::{Context, Parser};
use crate::selectors::pseudo_classes::{function_part, ident_part};
use crate::syntax::reader::Nesting;
use crate::syntax::tokens::Token;

/// How many compounds one item has at most after its first.
const MAX_FURTHER: u32 = 1023;

impl<'a> Parser<'a> {
    /// A part of a compound; nothing where the next token begins none.
    #[tactic(auto, unfolding(crate::specs::Reading::part, crate::specs::Accepting::judged_part))]
    #[cycle(rules)]
    fn part(&mut self, context: Context) -> Read<Option<Judged<'a, SimpleSelector>>>
        ensures { ReadsUnlessMemory (option_map (judgement part_of)) result self.new.reader
            (giving (option_map judged_part)
            (part (inner_list context.depth_left) (nesting_of context.nesting) self.old.reader)) }
    {
        match self.reader.peek() {
            Some(Token::Hash(name, true)) => {
                self.reader.advance();
                Ok(Some(Ok(SimpleSelector::ID(name.to_text(self.alloc)?))))
            }
            Some(Token::Delim('.')) => {
                self.reader.advance();
                Ok(Some(Ok(self.class_name(context.nesting)?)))
            }
            Some(Token::Delim('[')) => {
                self.reader.advance();
                Ok(Some(attribute(self.alloc, &mut self.reader)?))
            }
            Some(Token::Delim(':')) => {
                self.reader.advance();
                Ok(Some(self.pseudo(context)?))
            }
            _ => Ok(None),
        }
    }

    /// A pseudo-class, after its colon.
    #[tactic(auto, unfolding(crate::specs::Reading::pseudo))]
    #[cycle(rules)]
    fn pseudo(&mut self, context: Context) -> Read<Judged<'a, SimpleSelector>>
        ensures { ReadsUnlessMemory (judgement part_of) result self.new.reader
            (giving judged_part
            (pseudo (inner_list context.depth_left) (nesting_of context.nesting) self.old.reader)) }
    {
        if self.reader.is_at_stop(context.nesting) {
            return Err(SelectorError::UnexpectedEnd);
        }
        match self.reader.peek() {
            Some(Token::Ident(name)) => {
                let part = ident_part(name, &self.reader)?;
                self.reader.advance();
                Ok(part)
            }
            Some(Token::Function(name)) => match LogicalCombination::from_name(name) {
                Some(combination) => {
                    self.reader.advance();
                    self.logical_part(context, combination)
                }
                None => function_part(name, &mut self.reader),
            },
            Some(Token::Delim(':')) => {
                self.reader.advance();
                if self.reader.is_at_stop(context.nesting) {
                    return Err(SelectorError::UnexpectedEnd);
                }
                Err(SelectorError::UnsupportedPseudoClassOrElement)
            }
            _ => Err(SelectorError::UnsupportedPseudoClassOrElement),
        }
    }

    /// A logical combination, after its parenthesis.
    #[tactic(auto, unfolding(crate::specs::Accepting::judged_part))]
    #[cycle(rules)]
    fn logical_part(
        &mut self,
        context: Context,
        combination: LogicalCombination,
    ) -> Read<Judged<'a, SimpleSelector>>
        ensures { ReadsUnlessMemory (judgement part_of) result self.new.reader
            (giving judged_part
            (giving (drafts.Logical combination) (inner_list context.depth_left self.old.reader))) }
    {
        if context.depth_left == 0 {
            return Err(SelectorError::UnsupportedSyntax);
        }
        let inner = Context {
            nesting: Nesting::InFunction,
            depth_left: context.depth_left - 1,
        };
        match self.list(inner)? {
            Ok(list) => Ok(Ok(combination.of(list))),
            Err(refusal) => Ok(Err(refusal)),
        }
    }

    /// The parts of a compound after those that it begins with.
    #[cycle(rules)]
    fn more_parts(&mut self, context: Context, start: Compound) -> Read<Judged<'a, Compound>>
        ensures { ReadsUnlessMemory (judgement compound_of) result self.new.reader
            (judged_parts (inner_list context.depth_left) (nesting_of context.nesting)
            (Ok (compound_of start)) self.old.reader) }
    {
        let mut parts = Ok(start);
        'parts: while let Some(found) = self.part(context)? {
            add_part(&mut parts, found)?;
        }
        Ok(parts)
    }

    /// A compound; one that reads nothing is refused with the cause `empty`.
    #[cycle(rules)]
    fn compound(&mut self, context: Context, empty: SelectorError) -> Read<Judged<'a, Compound>>
        ensures { ReadsUnlessMemory (judgement compound_of) result self.new.reader
            (giving judged_compound (compound (inner_list context.depth_left)
            (nesting_of context.nesting) empty self.old.reader)) }
    {
        let Some(start) = self.type_part(context.nesting)? else {
            return Err(empty);
        };
        let parts = self.more_parts(context, start)?;
        if reads_nothing(&parts) {
            return Err(empty);
        }
        Ok(parts)
    }

    /// An item: compounds, each a step from the one before it.
    #[cycle(rules)]
    // Called, it would make each step of a recursion take more of the stack.
    #[inline(always)]
    pub(crate) fn item(&mut self, context: Context) -> Read<Judged<'a, ComplexSelector>>
        ensures { ReadsUnlessMemory (judgement item_of) result self.new.reader
            (judged_item_in context self.old.reader) }
    {
        self.reader.skip_space();
        let first = self.compound(context, SelectorError::EmptySelector)?;
        let mut item = alone(self.alloc, first);
        let mut left = MAX_FURTHER;
        'steps: while let Some(step) = self.next_step(context.nesting)? {
            if left == 0 {
                return Err(SelectorError::UnsupportedSyntax);
            }
            let next = self.compound(context, SelectorError::DanglingCombinator)?;
            add_compound(&mut item, step, next)?;
            left -= 1;
        }
        Ok(item)
    }

    /// A list of items separated by commas, and its end.
    #[cycle(rules)]
    pub(crate) fn list(&mut self, context: Context) -> Read<Judged<'a, SelectorList>>
        ensures { ReadsUnlessMemory (judgement list_of) result self.new.reader
            (giving (judged (is_inside context.nesting))
            (list (inner_list context.depth_left) (nesting_of context.nesting) self.old.reader)) }
    {
        let mut list = Ok(SelectorList {
            items: Vec::new(self.alloc),
        });
        'items: loop {
            let item = self.item(context)?;
            add_item(&mut list, item)?;
            let at_end = self.reader.is_at_end(context.nesting);
            self.reader.advance();
            if at_end {
                return Ok(list);
            }
        }
    }
}
