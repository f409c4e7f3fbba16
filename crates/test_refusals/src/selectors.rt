//! Reading selectors: each request for memory can be refused.

use crate::outcome::{Met, Stop, TURNS, exactly, expect};
use lol_vm::{
    Condition, CssString, OnTagNameExpr, Selector, SelectorError, SelectorList, SimpleSelector,
};
use std::alloc::{AllocError, Global};

const TEXT: &str = "div.foo#bar:not([baz])";

/// Whether a list is that of the text.
fn is_of_text(list: &SelectorList) -> bool {
    let [item] = list.items.as_slice() else {
        return false;
    };
    let [
        SimpleSelector::LocalName(name),
        SimpleSelector::Class(class),
        SimpleSelector::ID(id),
        SimpleSelector::Negation(inner),
    ] = item.first.parts.as_slice()
    else {
        return false;
    };
    item.rest.is_empty()
        && name.as_str() == "div"
        && class.as_str() == "foo"
        && id.as_str() == "bar"
        && is_of_baz(inner)
}

/// Whether a list is that of `[baz]`.
fn is_of_baz(list: &SelectorList) -> bool {
    let [item] = list.items.as_slice() else {
        return false;
    };
    let [SimpleSelector::AttributeExists { name }] = item.first.parts.as_slice() else {
        return false;
    };
    item.rest.is_empty() && name.as_str() == "baz"
}

/// Reads the text: whether there was memory.
pub(crate) fn from_str(alloc: Global) -> Result<bool, Stop> {
    match Selector::from_str(alloc, TEXT) {
        Ok(selector) => exactly(is_of_text(selector.list())),
        Err(SelectorError::Memory) => Ok(false),
        Err(_) => Err(Stop::Wrong),
    }
}

/// Makes a text: whether there was memory.
pub(crate) fn css_string(alloc: Global) -> Result<bool, Stop> {
    match CssString::new(alloc, "div") {
        Ok(text) => exactly(text.as_str() == "div"),
        Err(_) => Ok(false),
    }
}

pub(crate) fn to_boxed_slice(alloc: Global) -> Result<Met, Stop> {
    let text = CssString::new(alloc, "div")?;
    copy_in_turn(alloc, &text)
}

fn copy_in_turn(alloc: Global, text: &CssString) -> Result<Met, Stop> {
    for met in TURNS {
        if let Ok(is_div) = copies_div(alloc, text) {
            return met.if_holds(is_div);
        }
        expect(text.as_str() == "div")?;
    }
    Err(Stop::Wrong)
}

fn copies_div(alloc: Global, text: &CssString) -> Result<bool, AllocError> {
    let copy = text.to_boxed_slice(alloc)?;
    Ok(copy.as_str() == "div")
}

pub(crate) fn from_simple(alloc: Global) -> Result<Met, Stop> {
    let part = SimpleSelector::LocalName(CssString::new(alloc, "div")?);
    from_simple_in_turn(alloc, &part)
}

fn from_simple_in_turn(alloc: Global, part: &SimpleSelector) -> Result<Met, Stop> {
    for met in TURNS {
        if let Ok(is_div) = tells_name_div(alloc, part) {
            return met.if_holds(is_div);
        }
    }
    Err(Stop::Wrong)
}

fn tells_name_div(alloc: Global, part: &SimpleSelector) -> Result<bool, AllocError> {
    let condition = Condition::from_simple(alloc, part)?;
    Ok(is_name_div(&condition))
}

fn is_name_div(condition: &Option<Condition>) -> bool {
    match condition {
        Some(Condition::OnTagName(OnTagNameExpr::LocalName(name))) => name.as_str() == "div",
        _ => false,
    }
}
