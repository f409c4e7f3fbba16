//! Tags as texts, for tests to compare. A tag or an attribute that is read twice, or not at all, is seen here.

ghost use Rattle.std.specs.Prelude.{◌<◌};

use lol_base::{AttributeBuffer, AttributeOutline, Range};
use lol_tags::{FeedError, Tag, TagReader, push_outlines};
use std::alloc::{AllocError, Global};

fn push_lowercase(bytes: &[u8], out: &mut Vec<u8>) -> Result<(), AllocError> {
    for b in bytes {
        out.push(b.to_ascii_lowercase())?;
    }
    Ok(())
}

fn at(bytes: &[u8], range: Range) -> &[u8] {
    bytes.get(range.start..range.end).unwrap_or(b"?")
}

fn push_attribute(
    tag: &[u8],
    outline: &AttributeOutline,
    out: &mut Vec<u8>,
) -> Result<(), AllocError> {
    out.push(b' ')?;
    push_lowercase(at(tag, outline.name), out)?;
    out.extend_from_slice(b"=\"")?;
    if let Some(value) = outline.value {
        out.extend_from_slice(at(tag, value))?;
    }
    out.push(b'"')?;
    Ok(())
}

fn push_attributes(
    tag: &[u8],
    name_end: usize,
    outlines: &mut AttributeBuffer,
    out: &mut Vec<u8>,
) -> Result<(), AllocError> {
    outlines.clear();
    push_outlines(tag, name_end, outlines)?;
    for outline in outlines.iter() {
        push_attribute(tag, outline, out)?;
    }
    Ok(())
}

/// Writes a tag: its name in lower case, and if it is a start tag its attributes and a `/` if it closes itself.
fn push_tag(
    text: &[u8],
    tag: &Tag,
    outlines: &mut AttributeBuffer,
    out: &mut Vec<u8>,
) -> Result<(), AllocError> {
    let Some(bytes) = text.get(tag.start as usize..tag.end as usize) else {
        return Ok(());
    };
    let name_end = tag.name_end.saturating_sub(tag.start) as usize;
    if tag.is_end {
        out.extend_from_slice(b"</")?;
        push_lowercase(bytes.get(2..name_end).unwrap_or(b"?"), out)?;
    } else {
        out.push(b'<')?;
        push_lowercase(bytes.get(1..name_end).unwrap_or(b"?"), out)?;
        push_attributes(bytes, name_end, outlines, out)?;
        if tag.self_closing {
            out.push(b'/')?;
        }
    }
    out.push(b'>')?;
    Ok(())
}

/// Tags of a text as a text, with a `$` between two.
pub(crate) fn written(alloc: Global, text: &[u8], tags: &[Tag]) -> Result<Vec<u8>, AllocError> {
    let mut out = Vec::new(alloc);
    let mut outlines = Vec::new(alloc);
    for (place, tag) in tags.iter().enumerate() {
        if place > 0 {
            out.push(b'$')?;
        }
        push_tag(text, tag, &mut outlines, &mut out)?;
    }
    Ok(out)
}

/// The tags of a text that comes in chunks of some bytes.
pub(crate) fn fed(alloc: Global, text: &[u8], chunk: usize) -> Result<Vec<Tag>, FeedError>
    requires { 0 < chunk }
{
    let mut reader = TagReader::new(true);
    let mut tags = Vec::new(alloc);
    for part in text.chunks(chunk) {
        reader.feed(part, &mut tags)?;
    }
    Ok(tags)
}

/// The same, one by one.
pub(crate) fn read_one_by_one(alloc: Global, text: &[u8]) -> Result<Vec<Tag>, AllocError> {
    let mut reader = TagReader::new(true);
    let mut tags = Vec::new(alloc);
    let mut at = 0;
    for _ in 0..=text.len() {
        let Ok(read) = reader.next(text.get(at..).unwrap_or(b"")) else {
            return Ok(tags);
        };
        at = (reader.place() as usize).min(text.len());
        let Some(tag) = read.tag else {
            return Ok(tags);
        };
        tags.push(tag)?;
    }
    Ok(tags)
}
