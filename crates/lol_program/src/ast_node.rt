//! The nodes of the tree of selectors, and how a path is added to them.

ghost use Rattle.std.specs.Prelude.{ℕ, ◌≡◌, ◌+◌, Some, IfOk, OnOk, OnErr, IsOk, IfSome, IfNone, [], ◌∷◌, map};
ghost use Rattle.lol_program.specs.Predicates.{tests_of};
ghost use Rattle.lol_program.specs.Views.{node_of, linked, forest_of, tests_of_compound, steps_of};
ghost use Rattle.lol_program.specs.Forest.{size, SiblingsDiffer};
ghost use Rattle.lol_program.specs.Indexed.{IsIndexed, KeepsKeys};
ghost use Rattle.lol_program.specs.Growth.{fresh, Adds, AddsFirst, StandsWith, StandsUnder};
ghost use Rattle.lol_program.specs.IdsForNodes.{id_in, Fits, IsReserved};
ghost use Rattle.lol_program.specs.Indices.{HasIndex, IsNowhere};

use crate::node_id::IdForNode;
use crate::node_index::NodeIndex;
use crate::node_key::add_step;
use crate::predicate::Predicate;
use lol_css::{Combinator, Compound};
use lol_memory::{DenseHashSet, MatchId};
use std::alloc::{AllocError, Global};
use std::hash::DefaultHasher;

/// A compound of the selectors that begin alike up to it (lol_html's `AstNode`).
#[derive(Debug, Drop, PartialEq, Eq)]
pub struct AstNode {
    /// The tests of the compound.
    pub predicate: Predicate,
    /// The compounds that are a child step further.
    pub children: Vec<AstNode>,
    /// The compounds that are a descendant step further.
    pub descendants: Vec<AstNode>,
    /// The ids of the selectors that end here.
    pub match_ids: DenseHashSet,
}

/// A node without ids, with nothing under it.
fn fresh_node(alloc: Global, predicate: Predicate) -> AstNode
    ensures { node_of result ≡ fresh (tests_of predicate) }
{
    AstNode {
        predicate,
        children: Vec::new(alloc),
        descendants: Vec::new(alloc),
        match_ids: DenseHashSet::new(alloc),
    }
}

/// The index of the node with the tests of a compound, in a list. It is made last where there is none.
// Inlined, it would make each step of a recursion take more of the stack.
#[inline(never)]
fn index_for(
    node_index: &mut NodeIndex,
    nodes: &mut Vec<AstNode>,
    list: &DefaultHasher,
    compound: &Compound,
) -> Result<usize, AllocError>
    requires indexed { IsIndexed node_index.old list.now (forest_of nodes.old.items) }
    requires differ { SiblingsDiffer (forest_of nodes.old.items) }
    ensures index { IfOk result
        (HasIndex (tests_of_compound compound.now) (map node_of nodes.old.items) (map node_of nodes.new.items)) }
    ensures no_memory { OnErr result (IsNowhere (tests_of_compound compound.now) (map node_of nodes.old.items)) }
    ensures unchanged { OnErr result (nodes.new.items ≡ nodes.old.items) }
    ensures count { node_index.new.node_count + size (forest_of nodes.old.items)
        ≡ node_index.old.node_count + size (forest_of nodes.new.items) }
    ensures indexed { IsIndexed node_index.new list.now (forest_of nodes.new.items) }
    ensures keeps { KeepsKeys node_index.old node_index.new }
{
    if let Some(index) = node_index.index_of(nodes, list, compound) {
        return Ok(index);
    }
    let Some(more) = node_index.node_count.checked_add(1) else {
        return Err(AllocError);
    };
    let index = nodes.len();
    let predicate = Predicate::from_compound(node_index.alloc, compound)?;
    node_index.insert(list, index, compound)?;
    nodes.push(fresh_node(node_index.alloc, predicate))?;
    node_index.node_count = more;
    Ok(index)
}

/// Makes the nodes of an item that aren't there, in the list where it begins, and gives its last node an id or none. `list` goes down
/// with it.
pub(crate) fn add_path(
    node_index: &mut NodeIndex,
    nodes: &mut Vec<AstNode>,
    list: &mut DefaultHasher,
    first: &Compound,
    rest: &[(Combinator, Compound)],
    id: IdForNode,
) -> Result<(), AllocError>
    requires indexed { IsIndexed node_index.old list.old (forest_of nodes.old.items) }
    requires differ { SiblingsDiffer (forest_of nodes.old.items) }
    requires fits { IsReserved id
        → StandsWith (Fits id) (tests_of_compound first.now) (steps_of rest.now) (forest_of nodes.old.items) }
    ensures added { OnOk result (Adds (id_in id) (tests_of_compound first.now) (steps_of rest.now)
        (forest_of nodes.old.items) (forest_of nodes.new.items)) }
    ensures partly { OnErr result ((k : ℕ)
        × AddsFirst k (tests_of_compound first.now) (steps_of rest.now)
        (forest_of nodes.old.items) (forest_of nodes.new.items)) }
    ensures no_memory { StandsWith (Fits id) (tests_of_compound first.now) (steps_of rest.now)
        (forest_of nodes.old.items) → IsOk result }
    ensures count { node_index.new.node_count + size (forest_of nodes.old.items)
        ≡ node_index.old.node_count + size (forest_of nodes.new.items) }
    ensures indexed { IsIndexed node_index.new list.old (forest_of nodes.new.items) }
    ensures keeps { KeepsKeys node_index.old node_index.new }
{
    let index = index_for(node_index, nodes, list, first)?;
    let node = &mut nodes[index];
    match rest.split_first() {
        None => id.add_to(&mut node.match_ids),
        Some(((combinator, compound), rest)) => {
            add_step(list, index, *combinator);
            match combinator {
                Combinator::Child => add_path(
                    node_index,
                    &mut node.children,
                    list,
                    compound,
                    rest,
                    id,
                ),
                Combinator::Descendant => {
                    add_path(node_index, &mut node.descendants, list, compound, rest, id)
                }
            }
        }
    }
}

/// An id for the last node of a path that stands in the list where it begins, with memory of its own where the node has no room. `list`
/// goes down with it.
pub(crate) fn reserve_id(
    node_index: &NodeIndex,
    nodes: &[AstNode],
    list: &mut DefaultHasher,
    first: &Compound,
    rest: &[(Combinator, Compound)],
    id: MatchId,
) -> Result<IdForNode, AllocError>
    requires indexed { IsIndexed node_index.now list.old (forest_of nodes.now) }
    requires differ { SiblingsDiffer (forest_of nodes.now) }
    requires stands { StandsUnder (tests_of_compound first.now) (steps_of rest.now) (forest_of nodes.now) }
    ensures given { IfOk result (λ reserved. id_in reserved ≡ Some id) }
    ensures fits { IfOk result (λ reserved.
        StandsWith (Fits reserved) (tests_of_compound first.now) (steps_of rest.now) (forest_of nodes.now)) }
{
    let Some(index) = node_index.index_of(nodes, list, first) else {
        unreachable!();
    };
    let node = &nodes[index];
    match rest.split_first() {
        None => IdForNode::reserve(&node.match_ids, id),
        Some(((combinator, compound), rest)) => {
            add_step(list, index, *combinator);
            let under = match combinator {
                Combinator::Child => &node.children,
                Combinator::Descendant => &node.descendants,
            };
            reserve_id(node_index, under, list, compound, rest, id)
        }
    }
}
