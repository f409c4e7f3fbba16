//! Reasons of a machine's reports.

ghost use Rattle.std.specs.Prelude.{◌≡◌, ◌++◌, ◌∷◌, [], ◌<◌, Bool, true, None, List, IfOk, IfSome, OnOk, length, map, slice_get};
ghost use Rattle.std.specs.Option.{option_map};
ghost use Rattle.lol_base.specs.StartTags.{StartTag};
ghost use Rattle.lol_instructions.specs.Tests.{Element};
ghost use Rattle.lol_program.specs.Paths.{Path, Selectors};
ghost use Rattle.lol_program.specs.Programs.{IsAt};
ghost use Rattle.lol_program.specs.ProgramViews.{program_shown};
ghost use Rattle.lol_machine.specs.Answers.{document};
ghost use Rattle.lol_machine.specs.Documents.{element_of};
ghost use Rattle.lol_machine.specs.Events.{Event};
ghost use Rattle.lol_machine.specs.Matching.{matches};
ghost use Rattle.lol_machine.specs.Machines.{items_shown};
ghost use Rattle.lol_reasons.specs.Explanations.{Added, Text, added_by, reason_of, reasons};
ghost use Rattle.lol_reasons.specs.Matched.{IsAround};
ghost use Rattle.lol_reasons.specs.MachinesShow.{HasReported};
ghost use Rattle.lol_reasons.specs.Numbered.{HasItemsOf, HasMatchedItems, KnowsItemsOf, item_shown, items_of, reason_shown};

use crate::laws::machines_show_around;
use crate::node_table::NodeTable;
use lol_machine::SelectorMatchingVm;
use lol_memory::MatchId;
use lol_program::Program;
use lol_stack::StackItem;
use std::alloc::{AllocError, Global};

/// An item of a text's list: the id that the text was added under, the text's number in the order of adding, and the item's in its list,
/// both from 0.
#[derive(Debug, Clone, Copy, PartialEq, Eq)]
pub struct ItemOfText {
    pub id: MatchId,
    pub text: usize,
    pub item: usize,
}

/// Why an id is reported: an item that matches, and the numbers of the start tags whose elements its compounds are passed by, the last
/// compound's first.
#[derive(Debug, Drop)]
pub struct Reason {
    pub item: ItemOfText,
    pub witness: Vec<usize>,
}

/// Explains the reports of a machine whose selectors are the items of texts, each under its number (`Texts::number_items`).
#[derive(Drop)]
pub struct Explainer {
    alloc: Global,
    items: Vec<ItemOfText>,
    nodes: NodeTable,
}

impl Explainer {
    pub(crate) fn new(alloc: Global) -> Self
        ensures { KnowsItemsOf [] result }
    {
        Explainer {
            alloc,
            items: Vec::new(alloc),
            nodes: NodeTable::new(alloc),
        }
    }

    /// The id of the next item, unless all are given.
    pub(crate) fn next_id(&self) -> Option<MatchId>
        ensures next { IfSome result (λ id. id ≡ length (items_of self.now)) }
        ensures none { result ≡ None → u32.MAX < length (items_of self.now) }
    {
        MatchId::try_from(self.items.len()).ok()
    }

    /// Adds an item. It is refused where memory is.
    pub(crate) fn add(&mut self, item: ItemOfText) -> Result<(), AllocError>
        ensures { OnOk result (items_of self.new ≡ items_of self.old ++ item_shown item ∷ []) }
    {
        self.items.push(item)?;
        Ok(())
    }

    /// The item under a number, if there is one.
    pub fn item(&self, number: MatchId) -> Option<ItemOfText>
        ensures { option_map item_shown result ≡ slice_get (items_of self.now) number }
    {
        self.items.get(number as usize).copied()
    }

    /// Makes a table of a machine's program, with which `reasons` looks at one instruction for each compound. Without it, or with that of
    /// another program, `reasons` gives the same, but looks at each of them.
    ///
    /// # Errors
    /// Out of memory. Then it is as it was.
    pub fn index(&mut self, program: &Program) -> Result<(), AllocError>
        ensures { items_of self.new ≡ items_of self.old }
    {
        self.nodes = NodeTable::of(self.alloc, program, self.items.len())?;
        Ok(())
    }

    /// The reasons for the start tag that a machine was told of last of all, and reported: one for each item that matches, in the order of
    /// adding.
    ///
    /// `matched` are the ids that the machine reported, ascending: the numbers of items. `number` is that of the start tag, and `numbers`
    /// are those of the elements around its element, the outermost first. The element itself isn't read, so it may be void.
    ///
    /// # Errors
    /// Out of memory. Nothing is changed, so it may be asked for again.
    pub fn reasons<E>(
        &self,
        vm: &SelectorMatchingVm<E>,
        matched: &[MatchId],
        number: usize,
        numbers: &[usize],
    ) -> Result<Vec<Reason>, AllocError>
        ensures { IfOk result (λ told.
            (texts : List Text) (s : Selectors) (esi : Bool) (events : List Event) (tag : StartTag)
            → KnowsItemsOf texts self.now → HasItemsOf texts s
            → HasReported s esi events tag vm.now matched.now number numbers.now
            → map reason_shown told.items ≡ reasons (added_by texts)
            (element_of (document s esi events) tag) (document s esi events).open_elements) }
    {
        machines_show_around::<E>();
        let open = vm.open_items();
        let outer = &open[..numbers.len().min(open.len())];
        self.reasons_inside(vm.program(), matched, number, outer, numbers)
    }

    /// The same for an element inside these ones.
    fn reasons_inside<E>(
        &self,
        program: &Program,
        matched: &[MatchId],
        number: usize,
        outer: &[StackItem<'static, E>],
        numbers: &[usize],
    ) -> Result<Vec<Reason>, AllocError>
        ensures { IfOk result (λ told.
            (texts : List Text) (s : Selectors) (paths : List Path) (e : Element) (around : List Element)
            → HasMatchedItems texts self.now s matched.now e around
            → IsAround s paths (program_shown program.now) (items_shown outer.now) numbers.now around
            → number ≡ e.number → map reason_shown told.items ≡ reasons (added_by texts) e around) }
    {
        let mut told = Vec::new(self.alloc);
        for own_id in matched {
            if let Some(reason) = self.reason(program, *own_id, number, outer, numbers)? {
                told.push(reason)?;
            }
        }
        Ok(told)
    }

    /// The reason by the item under an id, if there is one.
    fn reason<E>(
        &self,
        program: &Program,
        own_id: MatchId,
        number: usize,
        outer: &[StackItem<'static, E>],
        numbers: &[usize],
    ) -> Result<Option<Reason>, AllocError>
        ensures { IfOk result (λ found.
            (texts : List Text) (s : Selectors) (paths : List Path) (e : Element) (around : List Element) (a : Added)
            → KnowsItemsOf texts self.now → HasItemsOf texts s
            → IsAround s paths (program_shown program.now) (items_shown outer.now) numbers.now around
            → number ≡ e.number → IsAt (added_by texts) own_id a → matches a.path e around ≡ true
            → reason_of e around a ≡ option_map reason_shown found) }
    {
        let Some(item) = self.items.get(own_id as usize) else {
            return Ok(None);
        };
        let Some(witness) = self
            .nodes
            .witness_under(program, own_id, number, outer, numbers)?
        else {
            return Ok(None);
        };
        Ok(Some(Reason {
            item: *item,
            witness,
        }))
    }
}
