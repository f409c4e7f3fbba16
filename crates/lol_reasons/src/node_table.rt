//! What the nodes of a program stand under, found once for many witnesses.

ghost use Rattle.std.specs.Prelude.{ℕ, ◌≡◌, true, List, Some, IfOk, IfSome, length};
ghost use Rattle.std.specs.Option.{option_map};
ghost use Rattle.lol_instructions.specs.Tests.{Element};
ghost use Rattle.lol_memory.specs.Ids.{ascending};
ghost use Rattle.lol_program.specs.Paths.{Path, Selectors};
ghost use Rattle.lol_program.specs.Programs.{AreClosed, IsAt, IsProgramOf};
ghost use Rattle.lol_program.specs.ProgramViews.{program_shown};
ghost use Rattle.lol_machine.specs.Matching.{matches};
ghost use Rattle.lol_machine.specs.Machines.{items_shown};
ghost use Rattle.lol_reasons.specs.Climbing.{StandsUnder, has_number, has_address, range_in};
ghost use Rattle.lol_reasons.specs.Matched.{HasMatched, IsAlone, IsAround};
ghost use Rattle.lol_reasons.specs.Witnesses.{innermost_witness};

use crate::witness::{NodeAbove, element_reached, has_id, is_in, node_above, node_with};
use lol_css::Combinator;
use lol_instructions::{AddressRange, Instruction};
use lol_memory::MatchId;
use lol_program::Program;
use lol_stack::StackItem;
use std::alloc::{AllocError, Global};

/// For each address of a program what its node stands under, and for each id the address of its node. An entry is tried against the program
/// that it is read for, and looked for there if it doesn't hold: so an empty table, or another program's, answers the same, but slowly.
#[derive(Drop)]
pub(crate) struct NodeTable {
    alloc: Global,
    above: Vec<Option<NodeAbove>>,
    addresses: Vec<usize>,
}

impl NodeTable {
    /// A table with no entry. It takes no memory.
    pub(crate) fn new(alloc: Global) -> Self {
        NodeTable {
            alloc,
            above: Vec::new(alloc),
            addresses: Vec::new(alloc),
        }
    }

    /// The table of a program whose ids are below a number.
    pub(crate) fn of(alloc: Global, program: &Program, ids: usize) -> Result<Self, AllocError> {
        let mut above = vec![in alloc; None; program.instructions.len()]?;
        let mut addresses = vec![in alloc; 0; ids]?;
        for (address, instruction) in program.instructions.iter().enumerate() {
            note_under(&mut above, instruction, address);
            note_ids(&mut addresses, instruction, address);
        }
        Ok(NodeTable {
            alloc,
            above,
            addresses,
        })
    }

    /// See `witness_of` of this crate.
    pub(crate) fn witness_of<E>(
        &self,
        program: &Program,
        address: usize,
        number: usize,
        outer: &[StackItem<'static, E>],
        numbers: &[usize],
    ) -> Result<Vec<usize>, AllocError>
        ensures { IfOk result (λ witness.
            (s : Selectors) (paths : List Path) (path : Path) (e : Element) (around : List Element)
            → HasMatched s paths (program_shown program.now) address path (items_shown outer.now) numbers.now e around
            → number ≡ e.number → innermost_witness path e around ≡ Some witness.items) }
    {
        let mut witness = vec![in self.alloc; number]?;
        if numbers.len() != outer.len() {
            return Ok(witness);
        }
        let mut node = address;
        let mut left = outer.len();
        while let Some(above) = self.node_above(program, node) {
            let Some(at) = element_reached(above.step, node, &outer[..left]) else {
                return Ok(witness);
            };
            let reached = numbers[at];
            witness.push(reached)?;
            node = above.address;
            left = at;
        }
        Ok(witness)
    }

    /// See `witness_under` of this crate.
    pub(crate) fn witness_under<E>(
        &self,
        program: &Program,
        id: MatchId,
        number: usize,
        outer: &[StackItem<'static, E>],
        numbers: &[usize],
    ) -> Result<Option<Vec<usize>>, AllocError>
        ensures { IfOk result (λ found.
            (s : Selectors) (paths : List Path) (path : Path) (e : Element) (around : List Element)
            → IsAround s paths (program_shown program.now) (items_shown outer.now) numbers.now around
            → IsAlone s path id → matches path e around ≡ true → number ≡ e.number
            → innermost_witness path e around ≡ option_map (λ witness. witness.items) found) }
    {
        let Some(address) = self.node_with(program, id) else {
            return Ok(None);
        };
        Ok(Some(self.witness_of(program, address, number, outer, numbers)?))
    }

    /// What the node at a address stands under, if it isn't a root.
    fn node_above(&self, program: &Program, address: usize) -> Option<NodeAbove>
        ensures { (s : Selectors) (paths : List Path) (path : Path)
            → AreClosed s → IsProgramOf s paths (program_shown program.now) → IsAt paths address path
            → StandsUnder paths path result }
    {
        let roots = &program.entry_points;
        if roots.start <= address && address < roots.end {
            return None;
        }
        match self.above.get(address) {
            Some(Some(above)) if leads_to(program, above, address) => Some(*above),
            _ => node_above(&program.instructions, address),
        }
    }

    /// The address of the node that has an id, if one has it.
    fn node_with(&self, program: &Program, id: MatchId) -> Option<usize>
        ensures { (s : Selectors) (paths : List Path) (path : Path)
            → AreClosed s → IsProgramOf s paths (program_shown program.now) → IsAlone s path id
            → (address : ℕ) × (result ≡ Some address) × IsAt paths address path }
    {
        match self.addresses.get(id as usize) {
            Some(address) if stands_at(program, id, *address) => Some(*address),
            _ => node_with(&program.instructions, id),
        }
    }
}

/// Notes for each node under one what it stands under.
fn note_under(above: &mut [Option<NodeAbove>], instruction: &Instruction, address: usize) {
    let branch = &instruction.associated_branch;
    let by_child = NodeAbove {
        address,
        step: Combinator::Child,
    };
    note_range(above, &branch.jumps, by_child);
    let by_descendant = NodeAbove {
        address,
        step: Combinator::Descendant,
    };
    note_range(above, &branch.hereditary_jumps, by_descendant);
}

fn note_range(above: &mut [Option<NodeAbove>], range: &Option<AddressRange>, node: NodeAbove) {
    let Some(range) = range else {
        return;
    };
    for address in range.start..range.end {
        if let Some(entry) = above.get_mut(address) {
            *entry = Some(node);
        }
    }
}

/// Notes for each id of a node where it stands.
fn note_ids(addresses: &mut [usize], instruction: &Instruction, address: usize) {
    for id in instruction.associated_branch.matched_ids.iter() {
        if let Some(entry) = addresses.get_mut(id as usize) {
            *entry = address;
        }
    }
}

/// Whether a node gives a range with a address by a step.
fn leads_to(program: &Program, above: &NodeAbove, address: usize) -> bool
    ensures { result ≡ true → (i : Instruction) × IsAt program.now.instructions.items above.now.address i
        × (has_address (range_in above.now.step i) address ≡ true) }
{
    match program.instructions.get(above.address) {
        Some(instruction) => is_in(range_of(above.step, instruction), address),
        None => false,
    }
}

fn range_of(step: Combinator, instruction: &Instruction) -> &Option<AddressRange>
    ensures { result.now ≡ range_in step instruction.now }
{
    match step {
        Combinator::Child => &instruction.associated_branch.jumps,
        Combinator::Descendant => &instruction.associated_branch.hereditary_jumps,
    }
}

/// Whether the node at a address has an id.
fn stands_at(program: &Program, id: MatchId, address: usize) -> bool
    ensures { result ≡ true → (i : Instruction) × IsAt program.now.instructions.items address i
        × (has_number (ascending i.associated_branch.matched_ids) id ≡ true) }
{
    match program.instructions.get(address) {
        Some(instruction) => has_id(&instruction.associated_branch.matched_ids, id),
        None => false,
    }
}
