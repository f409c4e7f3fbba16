//! How many nodes are tried for an element.

ghost use Rattle.std.specs.Prelude.{◌≡◌, ◌&&◌, IfOk, map, count_by};
ghost use Rattle.lol_instructions.specs.Compounds.{is_open};
ghost use Rattle.lol_instructions.specs.Compounds as compounds;
ghost use Rattle.lol_program.specs.Paths.{last_compound};
ghost use Rattle.lol_machine.specs.Matching.{left_matches};
ghost use Rattle.lol_vectors.specs.PlainElements.{element_shown};
ghost use Rattle.lol_vectors.specs.PlainNodes.{path_shown, paths_of};
ghost use Rattle.lol_vectors.specs.PlainTries.{is_tried_in, is_tried_open_in};

use crate::plain_element::{PlainElement, by_names};
use crate::plain_nodes::{PlainNode, Step, left_part_matches};
use lol_program::NameValue;
use std::alloc::{AllocError, Global};

/// How many nodes are tried for an element inside these ones, and how many of them by attributes too.
pub(crate) fn counted_tries(
    alloc: Global,
    nodes: &[PlainNode<'_>],
    element: &PlainElement<'_>,
    outer: &[PlainElement<'_>],
) -> Result<(usize, usize), AllocError>
    ensures names { IfOk result (λ tries. tries.0
        ≡ count_by (is_tried_in (map element_shown outer.now)) (paths_of nodes.now)) }
    ensures attributes { IfOk result (λ tries. tries.1
        ≡ count_by (is_tried_open_in (element_shown element.now) (map element_shown outer.now))
        (paths_of nodes.now)) }
{
    let mut names = 0;
    let mut attributes = 0;
    for node in nodes {
        if is_tried(alloc, &node.path, outer)? {
            names += 1;
        }
        if is_tried_open(alloc, &node.path, element, outer)? {
            attributes += 1;
        }
    }
    Ok((names, attributes))
}

fn is_tried(
    alloc: Global,
    path: &[Step<'_>],
    outer: &[PlainElement<'_>],
) -> Result<bool, AllocError>
    ensures { IfOk result (λ tried. tried ≡ is_tried_in (map element_shown outer.now) (path_shown path.now)) }
{
    left_part_matches(alloc, path, outer)
}

fn is_tried_open(
    alloc: Global,
    path: &[Step<'_>],
    element: &PlainElement<'_>,
    outer: &[PlainElement<'_>],
) -> Result<bool, AllocError>
    ensures { IfOk result (λ is. is ≡ is_tried_open_in (element_shown element.now)
        (map element_shown outer.now) (path_shown path.now)) }
{
    let Some((last, _)) = path.split_first() else {
        return Ok(false);
    };
    if !is_tried(alloc, path, outer)? {
        return Ok(false);
    }
    Ok(by_names(last.predicate, element) == NameValue::Open)
}
