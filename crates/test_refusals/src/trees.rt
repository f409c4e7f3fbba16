//! Selectors under ids: each request for memory can be refused.

use crate::lists::has;
use crate::outcome::{Met, Stop, TURNS, expect};
use crate::runs::{matches_in_turn, start};
use lol_vm::{Ast, AstNode, Attributes, Selector, SelectorError, TagEvent};
use std::alloc::Global;

/// A selector that was read; its memory is the scenario's own.
pub(crate) fn read(alloc: Global, text: &str) -> Result<Selector, Stop> {
    match Selector::from_str(alloc, text) {
        Ok(selector) => Ok(selector),
        Err(SelectorError::Memory) => Err(Stop::Own),
        Err(_) => Err(Stop::Wrong),
    }
}

/// The selectors of two texts, under 0 and 1.
pub(crate) fn two(alloc: Global, first: &str, second: &str) -> Result<Ast, Stop> {
    let mut ast = Ast::new(alloc);
    add_both(alloc, &mut ast, first, second)?;
    Ok(ast)
}

fn add_both(alloc: Global, ast: &mut Ast, first: &str, second: &str) -> Result<(), Stop> {
    add(alloc, ast, first, 0)?;
    add(alloc, ast, second, 1)
}

/// Adds the selector of a text under an id; its memory is the scenario's own.
pub(crate) fn add(alloc: Global, ast: &mut Ast, text: &str, match_id: u32) -> Result<(), Stop> {
    let selector = read(alloc, text)?;
    match ast.add_selector(&selector, match_id) {
        Ok(()) => Ok(()),
        Err(_) => Err(Stop::Own),
    }
}

/// Whether a node has exactly this id, and nothing under it.
fn is_leaf(node: &AstNode, match_id: u32) -> bool {
    has(&node.match_ids, &[match_id]) && node.children.is_empty() && node.descendants.is_empty()
}

/// The root `#foo`, if it is one node without ids and descendants.
fn foo(ast: &Ast) -> Option<&AstNode> {
    match ast.root() {
        [foo] if foo.match_ids.iter().next().is_none() && foo.descendants.is_empty() => Some(foo),
        _ => None,
    }
}

/// Whether the pairs are those of the first text alone: nodes of the second have no ids.
fn are_first_pairs(ast: &Ast) -> bool {
    let Some(foo) = foo(ast) else {
        return false;
    };
    let (Some(div), Some(span)) = (foo.children.first(), foo.children.get(1)) else {
        return false;
    };
    is_leaf(div, 0)
        && is_leaf(span, 0)
        && foo.children[2..]
            .iter()
            .all(|node| has(&node.match_ids, &[]))
        && ast.cumulative_node_count() == foo.children.len() + 1
}

fn are_all_pairs(ast: &Ast) -> bool {
    let Some(foo) = foo(ast) else {
        return false;
    };
    let [div, span, first_class, second_class] = foo.children.as_slice() else {
        return false;
    };
    is_leaf(div, 0)
        && is_leaf(span, 0)
        && is_leaf(first_class, 1)
        && is_leaf(second_class, 1)
        && ast.cumulative_node_count() == 5
}

pub(crate) fn add_selector(alloc: Global) -> Result<Met, Stop> {
    let mut ast = Ast::new(alloc);
    let met = add_both_in_turn(alloc, &mut ast)?;
    matches_children_of_foo(alloc, ast)?;
    Ok(met)
}

fn add_both_in_turn(alloc: Global, ast: &mut Ast) -> Result<Met, Stop> {
    add(alloc, ast, "#foo > div, #foo > span", 0)?;
    let second = read(alloc, "#foo > .c1, #foo > .c2")?;
    add_in_turn(ast, &second)
}

fn add_in_turn(ast: &mut Ast, second: &Selector) -> Result<Met, Stop> {
    for met in TURNS {
        if ast.add_selector(second, 1).is_ok() {
            return met.if_holds(are_all_pairs(ast));
        }
        expect(are_first_pairs(ast))?;
    }
    Err(Stop::Wrong)
}

/// Stops where the reports aren't those of both texts: `#foo` with a `div.c1` and a `p.c2` inside.
fn matches_children_of_foo(alloc: Global, ast: Ast) -> Result<(), Stop> {
    let foo = attribute(alloc, b"id", b"foo")?;
    let first = attribute(alloc, b"class", b"c1")?;
    let second = attribute(alloc, b"class", b"c2")?;
    matches_with(alloc, ast, &foo, &first, &second)
}

fn matches_with<'i>(
    alloc: Global,
    ast: Ast,
    foo: &'i Attributes,
    first: &'i Attributes,
    second: &'i Attributes,
) -> Result<(), Stop> {
    let section = start(b"section", foo);
    let div = start(b"div", first);
    let p = start(b"p", second);
    let events = [section, div, TagEvent::End { name: b"div" }, p];
    let wanted: [(&[u32], bool); 4] = [(&[], true), (&[0, 1], true), (&[1], false), (&[1], true)];
    matches_in_turn(alloc, ast, &events, &wanted)
}

/// One attribute; its memory is the scenario's own.
pub(crate) fn attribute(alloc: Global, name: &[u8], value: &[u8]) -> Result<Attributes, Stop> {
    let mut attributes = Attributes::new(alloc);
    match attributes.push(name, Some(value)) {
        Ok(()) => Ok(attributes),
        Err(_) => Err(Stop::Own),
    }
}

/// `.a p` refused under 0, then `p` under 1: a start tag `p` reports 1 alone, and asks exactly if the node `.a` stands.
pub(crate) fn add_selector_refused(alloc: Global) -> Result<Met, Stop> {
    let mut ast = Ast::new(alloc);
    let met = add_in_spite(alloc, &mut ast)?;
    reports_second(alloc, ast, met)
}

/// Adds the second selector in spite of a refusal of the first.
fn add_in_spite(alloc: Global, ast: &mut Ast) -> Result<Met, Stop> {
    let first = read(alloc, ".a p")?;
    let second = read(alloc, "p")?;
    let met = match ast.add_selector(&first, 0) {
        Ok(()) => Met::Nothing,
        Err(_) => Met::Refusal,
    };
    match ast.add_selector(&second, 1) {
        Ok(()) => Ok(met),
        Err(_) => Err(Stop::Own),
    }
}

fn reports_second(alloc: Global, ast: Ast, met: Met) -> Result<Met, Stop> {
    let stands = ast.root().len() == 2;
    if !stands && met == Met::Nothing {
        return Err(Stop::Wrong);
    }
    let none = Attributes::new(alloc);
    let events = [start(b"p", &none)];
    matches_in_turn(alloc, ast, &events, &[(&[1], stands)])?;
    Ok(met)
}
