//! The plain matcher's list of the tree's nodes, and which of them match.

ghost use Rattle.std.specs.Prelude.{◌≡◌, ◌++◌, ◌≤◌, IfOk, OnOk, [], ◌∷◌, map, length};
ghost use Rattle.lol_memory.specs.Ids.{ascending};
ghost use Rattle.lol_program.specs.Views.{node_of, linked, forest_of};
ghost use Rattle.lol_machine.specs.Answers as answers;
ghost use Rattle.lol_machine.specs.Matching.{matches, left_matches, step_reaches};
ghost use Rattle.lol_vectors.specs.PlainElements.{element_shown};
ghost use Rattle.lol_vectors.specs.PlainNodes.{path_shown, path_to, node_shown, nodes_listed, pairs_of};

use crate::plain_element::{PlainElement, predicate_passes};
use lol_css::Combinator;
use lol_memory::DenseHashSet;
use lol_program::{AstNode, Predicate};
use std::alloc::{AllocError, Global};

/// A compound on the way down the tree, and how it stands to the one above it. (A root stands under nothing.)
#[derive(Clone, Copy)]
pub(crate) struct Step<'t> {
    pub combinator: Combinator,
    pub predicate: &'t Predicate,
}

/// A node of the tree: the way to it, its own step first, and the ids of the selectors that end there.
#[derive(Drop)]
pub(crate) struct PlainNode<'t> {
    pub path: Vec<Step<'t>>,
    pub ids: &'t DenseHashSet,
}

/// Lists these nodes of the tree and those under them, each before those under it.
#[cycle(listing)]
pub(crate) fn list_nodes<'t>(
    alloc: Global,
    nodes: &'t [AstNode],
    combinator: Combinator,
    above: &[Step<'t>],
    listed: &mut Vec<PlainNode<'t>>,
) -> Result<(), AllocError>
    ensures { OnOk result (map node_shown listed.new.items ≡ map node_shown listed.old.items
        ++ nodes_listed (path_to above.now combinator) (forest_of nodes.now)) }
{
    for node in nodes {
        list_node(alloc, node, combinator, above, listed)?;
    }
    Ok(())
}

/// Lists a node, and then the nodes under it.
#[cycle(listing)]
fn list_node<'t>(
    alloc: Global,
    node: &'t AstNode,
    combinator: Combinator,
    above: &[Step<'t>],
    listed: &mut Vec<PlainNode<'t>>,
) -> Result<(), AllocError>
    ensures { OnOk result (map node_shown listed.new.items ≡ map node_shown listed.old.items
        ++ nodes_listed (path_to above.now combinator) (linked (node_of node.now ∷ []))) }
{
    let step = Step {
        combinator,
        predicate: &node.predicate,
    };
    let path = under(alloc, step, above)?;
    listed.push(PlainNode {
        path: under(alloc, step, above)?,
        ids: &node.match_ids,
    })?;
    list_nodes(alloc, &node.children, Combinator::Child, &path, listed)?;
    list_nodes(
        alloc,
        &node.descendants,
        Combinator::Descendant,
        &path,
        listed,
    )
}

/// A step and those above it.
fn under<'t>(alloc: Global, step: Step<'t>, above: &[Step<'t>]) -> Result<Vec<Step<'t>>, AllocError>
    ensures { IfOk result (λ path. path.items ≡ step.entry ∷ above.now) }
{
    let mut path = Vec::new(alloc);
    path.push(step)?;
    path.extend_from_slice(above)?;
    Ok(path)
}

/// Whether a path matches an element inside these ones, the innermost first.
#[cycle(matching)]
fn path_matches(
    alloc: Global,
    path: &[Step<'_>],
    element: &PlainElement<'_>,
    outer: &[PlainElement<'_>],
) -> Result<bool, AllocError>
    ensures { IfOk result (λ found. found ≡ matches (path_shown path.now) (element_shown element.now)
        (map element_shown outer.now)) }
{
    let Some((last, _)) = path.split_first() else {
        return Ok(true);
    };
    if !predicate_passes(alloc, last.predicate, element)? {
        return Ok(false);
    }
    left_part_matches(alloc, path, outer)
}

/// Whether what stands left of a path's last compound matches, for an element inside these ones.
#[cycle(matching)]
pub(crate) fn left_part_matches(
    alloc: Global,
    path: &[Step<'_>],
    outer: &[PlainElement<'_>],
) -> Result<bool, AllocError>
    ensures { IfOk result (λ found. found ≡ left_matches (path_shown path.now) (map element_shown outer.now)) }
{
    let Some((last, front)) = path.split_first() else {
        return Ok(true);
    };
    if front.is_empty() {
        return Ok(true);
    }
    step_is_reached(alloc, front, last.combinator, outer)
}

/// Whether the parent matches what stands left of a step, or for a descendant step some ancestor.
#[cycle(matching)]
fn step_is_reached(
    alloc: Global,
    front: &[Step<'_>],
    combinator: Combinator,
    outer: &[PlainElement<'_>],
) -> Result<bool, AllocError>
    ensures { IfOk result (λ found. found ≡ step_reaches combinator (matches (path_shown front.now))
        (map element_shown outer.now)) }
{
    let Some((nearest, around)) = outer.split_first() else {
        return Ok(false);
    };
    if path_matches(alloc, front, nearest, around)? {
        return Ok(true);
    }
    match combinator {
        Combinator::Child => Ok(false),
        Combinator::Descendant => step_is_reached(alloc, front, combinator, around),
    }
}

/// The ids of the nodes that match an element.
pub(crate) fn matching_ids(
    alloc: Global,
    nodes: &[PlainNode<'_>],
    element: &PlainElement<'_>,
    outer: &[PlainElement<'_>],
) -> Result<DenseHashSet, AllocError>
    ensures { IfOk result (λ ids. ascending ids
        ≡ answers.matching_ids (pairs_of nodes.now) (element_shown element.now) (map element_shown outer.now)) }
{
    let mut ids = DenseHashSet::new(alloc);
    for node in nodes {
        if path_matches(alloc, &node.path, element, outer)? {
            ids.union(node.ids)?;
        }
    }
    Ok(ids)
}
