//! Which open elements a node's path was matched by, as the machine's program and its open elements tell.

ghost use Rattle.std.specs.Prelude.{ℕ, ◌≡◌, true, List, Some, IfOk, IfSome, ◌<◌, ◌↔◌, IsSome, length};
ghost use Rattle.std.specs.Option.{option_map};
ghost use Rattle.lol_memory.specs.Ids.{ascending};
ghost use Rattle.lol_instructions.specs.Tests.{Element};
ghost use Rattle.lol_program.specs.Paths.{Path, Selectors};
ghost use Rattle.lol_program.specs.ProgramViews.{program_shown};
ghost use Rattle.lol_machine.specs.Matching.{matches};
ghost use Rattle.lol_machine.specs.Machines.{items_shown};
ghost use Rattle.lol_reasons.specs.Matched.{HasMatched, IsAlone, IsAround};
ghost use Rattle.lol_reasons.specs.Climbing.{has_number, has_address, have_address, is_within, nearest_giving, node_above_from, node_with_from, reached_by};
ghost use Rattle.lol_reasons.specs.Witnesses.{innermost_witness};

use crate::node_table::NodeTable;
use lol_css::Combinator;
use lol_instructions::{AddressRange, Instruction};
use lol_memory::{DenseHashSet, MatchId};
use lol_program::Program;
use lol_stack::StackItem;
use std::alloc::{AllocError, Global};

/// What a node stands under: the address of the node that is one compound shorter, and the step from it.
#[derive(Clone, Copy)]
pub(crate) struct NodeAbove {
    pub address: usize,
    pub step: Combinator,
}

/// The innermost witness of the path of a node that matched an element: the numbers of the start tags whose elements the path's compounds
/// are passed by, the last compound's first.
///
/// `address` is the node's in the program, `number` the element's start tag, `outer` are the open elements around it, the outermost first, and
/// `numbers` theirs, as many. Only their ranges are read, so the element itself needn't be open.
///
/// It looks at each instruction of the program for each compound, and at most once at each range of the open elements. An `Explainer` with a
/// table looks at one.
///
/// # Errors
/// Out of memory.
pub fn witness_of<E>(
    alloc: Global,
    program: &Program,
    address: usize,
    number: usize,
    outer: &[StackItem<'static, E>],
    numbers: &[usize],
) -> Result<Vec<usize>, AllocError>
    ensures { IfOk result (λ witness.
        (s : Selectors) (paths : List Path) (path : Path) (e : Element) (around : List Element)
        → HasMatched s paths (program_shown program.now) address path (items_shown outer.now) numbers.now e around
        → number ≡ e.number → innermost_witness path e around ≡ Some witness.items) }
{
    NodeTable::new(alloc).witness_of(program, address, number, outer, numbers)
}

/// The same for an id that one path alone was added under.
///
/// Where each item of each selector is added under an id of its own, the ids of a report are the items that match, and their witnesses are
/// the reasons of the report.
pub fn witness_under<E>(
    alloc: Global,
    program: &Program,
    id: MatchId,
    number: usize,
    outer: &[StackItem<'static, E>],
    numbers: &[usize],
) -> Result<Option<Vec<usize>>, AllocError>
    ensures { IfOk result (λ found.
        (s : Selectors) (paths : List Path) (path : Path) (e : Element) (around : List Element)
        → IsAround s paths (program_shown program.now) (items_shown outer.now) numbers.now around → IsAlone s path id
        → matches path e around ≡ true → number ≡ e.number
        → innermost_witness path e around ≡ option_map (λ witness. witness.items) found) }
{
    NodeTable::new(alloc).witness_under(program, id, number, outer, numbers)
}

/// The address of the first node that has an id.
pub(crate) fn node_with(instructions: &[Instruction], id: MatchId) -> Option<usize>
    ensures { result ≡ node_with_from 0 instructions.now id }
{
    for (address, instruction) in instructions.iter().enumerate() {
        if has_id(&instruction.associated_branch.matched_ids, id) {
            return Some(address);
        }
    }
    None
}

pub(crate) fn has_id(ids: &DenseHashSet, id: MatchId) -> bool
    ensures { result ≡ has_number (ascending ids.now) id }
{
    ids.iter().any(|other| other == id)
}

/// What the node at a address stands under, if it isn't a root.
pub(crate) fn node_above(instructions: &[Instruction], address: usize) -> Option<NodeAbove>
    ensures { result ≡ node_above_from 0 instructions.now address }
{
    for (front, instruction) in instructions.iter().enumerate() {
        let branch = &instruction.associated_branch;
        if is_in(&branch.jumps, address) {
            return Some(NodeAbove {
                address: front,
                step: Combinator::Child,
            });
        }
        if is_in(&branch.hereditary_jumps, address) {
            return Some(NodeAbove {
                address: front,
                step: Combinator::Descendant,
            });
        }
    }
    None
}

pub(crate) fn is_in(range: &Option<AddressRange>, address: usize) -> bool
    ensures { result ≡ has_address range.now address }
{
    match range {
        Some(range) => range.start <= address && address < range.end,
        None => false,
    }
}

/// How many elements are around the one that the step to a node leads to.
pub(crate) fn element_reached<E>(
    step: Combinator,
    address: usize,
    outer: &[StackItem<'static, E>],
) -> Option<usize>
    ensures value { result ≡ reached_by step address (items_shown outer.now) }
    ensures within { IfSome result (λ at. at < length outer.now) }
{
    match step {
        Combinator::Child => outer.len().checked_sub(1),
        Combinator::Descendant => nearest_element(address, outer),
    }
}

/// How many elements are around the nearest one that gives a range with the address to all inside it.
fn nearest_element<E>(address: usize, outer: &[StackItem<'static, E>]) -> Option<usize>
    ensures value { result ≡ nearest_giving address (items_shown outer.now) }
    ensures within { IfSome result (λ at. at < length outer.now) }
{
    let mut left = outer.len();
    while left > 0 {
        left -= 1;
        if are_with(outer[left].hereditary_jumps.as_slice(), address) {
            return Some(left);
        }
    }
    None
}

fn are_with(ranges: &[AddressRange], address: usize) -> bool
    ensures { result ≡ have_address ranges.now address }
{
    ranges
        .iter()
        .any(|range| range.start <= address && address < range.end)
}
