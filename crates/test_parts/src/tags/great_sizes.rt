//! Each call once at a great size: a call that gives up as if memory were out is seen here.

use lol_base::AttributeBuffer;
use lol_tags::{Tag, TagReader, push_outlines};
use std::alloc::{AllocError, Global};
use std::process::Abort;
use std::test::Fail;

const MANY: usize = 100_000;

fn repeated(alloc: Global, first: &[u8], part: &[u8], last: &[u8]) -> Result<Vec<u8>, AllocError> {
    let mut text = Vec::new(alloc);
    text.extend_from_slice(first)?;
    for _ in 0..MANY {
        text.extend_from_slice(part)?;
    }
    text.extend_from_slice(last)?;
    Ok(text)
}

fn expect_tags(rt: &impl Abort, text: &[u8], tags: &mut Vec<Tag>) -> Result<(), Fail> {
    let mut reader = TagReader::new(false);
    assert_eq!(rt; reader.feed(text, tags), Ok(()));
    assert_eq!(rt; tags.len(), MANY);
    assert_eq!(rt; reader.place(), text.len() as u64);
    assert_eq!(rt;
        reader.unfinished(),
        Some(text.len().saturating_sub(1) as u64)
    );
    Ok(())
}

#[test]
fn read_many_tags(rt: HostRuntime) -> Result<(), Fail> {
    let text = repeated(rt.alloc(), b"", b"text <a href='b'>", b"<")?;
    let mut tags = Vec::new(rt.alloc());
    expect_tags(&rt, &text, &mut tags)
}

fn expect_one(rt: &impl Abort, text: &[u8]) -> Result<(), Fail> {
    let mut reader = TagReader::new(false);
    reader.set_foreign(true);
    let read = reader
        .next(text)
        .map(|read| (read.taken, read.tag.is_some()));
    assert_eq!(rt; read, Ok((text.len(), true)));
    Ok(())
}

#[test]
fn read_a_long_section(rt: HostRuntime) -> Result<(), Fail> {
    let text = repeated(rt.alloc(), b"<![CDATA[", b"<a>", b"]]><b>")?;
    expect_one(&rt, &text)
}

fn expect_outlines(
    rt: &impl Abort,
    tag: &[u8],
    outlines: &mut AttributeBuffer,
) -> Result<(), Fail> {
    push_outlines(tag, 2, outlines)?;
    assert_eq!(rt; outlines.len(), MANY);
    Ok(())
}

#[test]
fn outline_many_attributes(rt: HostRuntime) -> Result<(), Fail> {
    let tag = repeated(rt.alloc(), b"<a", b" b='c'", b">")?;
    let mut outlines = Vec::new(rt.alloc());
    expect_outlines(&rt, &tag, &mut outlines)
}
