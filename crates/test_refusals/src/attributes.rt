//! Attributes that are built from names and values: each request for memory can be refused.

use crate::outcome::{Met, Stop, TURNS, expect};
use crate::trees::attribute;
use lol_vm::{AttributeOutline, Attributes, Range};
use std::alloc::Global;

/// A value for which there is no room yet.
const LONG: &[u8] = &[b'x'; 100];

fn stands_at(input: &[u8], range: Range, bytes: &[u8]) -> bool {
    input
        .get(range.start..range.end)
        .is_some_and(|found| found == bytes)
}

fn is_class(input: &[u8], outline: &AttributeOutline, value: &[u8]) -> bool {
    let has_value = outline
        .value
        .is_some_and(|range| stands_at(input, range, value));
    stands_at(input, outline.name, b"class") && has_value
}

/// Whether these are classes with the long value.
fn are_long(input: &[u8], outlines: &[AttributeOutline]) -> bool {
    for outline in outlines {
        if !is_class(input, outline, LONG) {
            return false;
        }
    }
    true
}

/// Whether these are classes: the first has the value `a`, and after it come so many with the long one.
fn are_classes(attributes: &Attributes, longs: usize) -> bool {
    let info = attributes.aux_info(false);
    let input = info.input.as_slice();
    match info.attr_buffer.as_slice() {
        [first, rest @ ..] => {
            rest.len() == longs && is_class(input, first, b"a") && are_long(input, rest)
        }
        [] => false,
    }
}

/// Adds four attributes to one; refused, those before stand.
pub(crate) fn attributes_push(alloc: Global) -> Result<Met, Stop> {
    let mut attributes = attribute(alloc, b"class", b"a")?;
    push_all(&mut attributes)
}

fn push_all(attributes: &mut Attributes) -> Result<Met, Stop> {
    let mut met = Met::Nothing;
    for longs in 0..4usize {
        met = met.and(push_in_turn(attributes, longs)?);
        expect(are_classes(attributes, longs.saturating_add(1)))?;
    }
    Ok(met)
}

/// Adds a long value after so many, again after a refusal.
fn push_in_turn(attributes: &mut Attributes, longs: usize) -> Result<Met, Stop> {
    for met in TURNS {
        if attributes.push(b"class", Some(LONG)).is_ok() {
            return Ok(met);
        }
        expect(are_classes(attributes, longs))?;
    }
    Err(Stop::Wrong)
}
