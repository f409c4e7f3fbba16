//! The tags of a script.

ghost use Rattle.std.specs.Prelude.{◌≡◌, ◌≤◌, true, IfOk, OnOk, All, length, map, position, slice_range};
ghost use Rattle.std.specs.List.{list_all, slice_split};
ghost use Rattle.lol_base.specs.StartTags.{attribute_of, OutlineIsInside, RangesAreInside};
ghost use Rattle.lol_matcher.specs.Noted.{handed};
ghost use Rattle.lol_script.specs.Script.{is_equals, is_named, is_tab, attribute_at};
ghost use Rattle.lol_script.specs.Lines.{AreOutlinesOf, fields_of, start_tag_of};

use crate::lines::{StartLine, byte_offset, has_name};
use lol_base::{AttributeBuffer, AttributeOutline, AuxStartTagInfo, Bytes, Range};
use std::alloc::AllocError;

/// The outline of the attribute that stands from `start` up to `end`.
fn outline_of(text: &[u8], start: usize, end: usize) -> AttributeOutline
    requires order { start ≤ end }
    requires end { end ≤ length text.now }
    ensures attribute { attribute_of text.now result ≡ attribute_at (slice_range text.now start end) }
    ensures inside { OutlineIsInside text.now result }
{
    let raw_range = Range { start, end };
    match byte_offset(b'=', &text[start..end]) {
        Some(offset) => AttributeOutline {
            name: Range {
                start,
                end: start + offset,
            },
            value: Some(Range {
                start: start + offset + 1,
                end,
            }),
            raw_range,
        },
        None => AttributeOutline {
            name: raw_range,
            value: None,
            raw_range,
        },
    }
}

/// Writes the outlines of attributes that are separated by TAB over those that are there. Returns whether each has a name.
fn fill_outlines(outlines: &mut AttributeBuffer, text: &[u8]) -> Result<bool, AllocError>
    ensures named { IfOk result (λ named.
        named ≡ list_all is_named (map attribute_at (slice_split is_tab text.now))) }
    ensures attributes { OnOk result
        (map (attribute_of text.now) outlines.new.items ≡ map attribute_at (slice_split is_tab text.now)) }
    ensures inside { OnOk result (All (OutlineIsInside text.now) outlines.new.items) }
{
    outlines.clear();
    let mut named = true;
    let mut start = 0;
    while let Some(offset) = byte_offset(b'\t', &text[start..]) {
        named &= has_name(&text[start..start + offset]);
        outlines.push(outline_of(text, start, start + offset))?;
        start += offset + 1;
    }
    named &= has_name(&text[start..]);
    outlines.push(outline_of(text, start, text.len()))?;
    Ok(named)
}

#[inline(always)]
pub fn cut_attributes(
    attributes: Option<&[u8]>,
    outlines: &mut AttributeBuffer,
) -> Result<bool, AllocError>
    ensures named { IfOk result (λ named.
        named ≡ list_all is_named (map attribute_at (fields_of attributes.entry))) }
    ensures outlines { OnOk result (AreOutlinesOf attributes.entry outlines.new.items) }
{
    match attributes {
        Some(text) => fill_outlines(outlines, text),
        None => {
            outlines.clear();
            Ok(true)
        }
    }
}

/// The attributes of a start line, as they are handed over.
#[inline(always)]
pub fn handed_over<'l: 't, 't>(
    line: &StartLine<'l>,
    outlines: &'t AttributeBuffer,
) -> AuxStartTagInfo<'t>
    requires { AreOutlinesOf line.now.attributes outlines.now.items }
    ensures handed { line.now.finish ≡ true
        → handed line.now.name.now line.now.ns result ≡ start_tag_of line.now }
    ensures inside { RangesAreInside result }
{
    AuxStartTagInfo {
        input: Bytes::new(line.attributes.unwrap_or(b"")),
        attr_buffer: outlines,
        self_closing: line.self_closing,
    }
}
