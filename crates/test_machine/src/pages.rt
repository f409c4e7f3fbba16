//! Pages, cut in each place, up to the limit of a tag and past it.

ghost use Rattle.std.specs.Prelude.{◌<◌};

use lol_base::Namespace;
use lol_page::{PageReadError, PageReader, PageSettings, PlacedTag};
use std::alloc::{AllocError, Global};
use std::test::Fail;

const PAGE: &[u8] =
    b"<p a='<'>\n<svg><style>\r\n <g/></style><desc><xmp><q></xmp><br></desc></svg><p><xmp><q></xmp>";

const TAGS: &[u8] =
    b"1:1h<p a='<'>$2:1s<svg>$2:6s<style>$3:2s<g/>$3:6e</style>$3:14s<desc>$3:20h<xmp>$3:28e</xmp>$3:34h<br>$3:38e</desc>$3:45e</svg>$3:51h<p>$3:54h<xmp>$3:62e</xmp>$";

pub(crate) const AS_WRITTEN: PageSettings = PageSettings {
    scripting: false,
    decoded: false,
    max_tag_bytes: 100,
    strict: false,
};

pub(crate) fn push_number(number: u64, out: &mut Vec<u8>) -> Result<(), AllocError> {
    if number >= 10 {
        out.push(b'0' + (number / 10 % 10) as u8)?;
    }
    out.push(b'0' + (number % 10) as u8)?;
    Ok(())
}

fn push_tag(text: &[u8], placed: &PlacedTag, out: &mut Vec<u8>) -> Result<(), AllocError> {
    push_number(placed.line, out)?;
    out.push(b':')?;
    push_number(placed.column, out)?;
    out.push(match placed.namespace {
        Some(Namespace::Html) => b'h',
        Some(Namespace::Svg) => b's',
        Some(Namespace::MathML) => b'm',
        None => b'e',
    })?;
    out.extend_from_slice(text)?;
    out.push(b'$')?;
    Ok(())
}

fn push_chunk(
    reader: &mut PageReader,
    chunk: &[u8],
    out: &mut Vec<u8>,
) -> Result<(), PageReadError> {
    let mut rest = chunk;
    for _ in 0..=chunk.len() {
        let read = reader.next(rest)?;
        rest = &rest[read.taken..];
        let Some(placed) = read.tag else {
            return Ok(());
        };
        if push_tag(reader.text(), &placed, out).is_err() {
            return Err(PageReadError::Memory);
        }
    }
    Ok(())
}

fn tags_in_chunks(alloc: Global, size: usize) -> Result<Vec<u8>, PageReadError>
    requires { 0 < size }
{
    let mut reader = PageReader::new(alloc, AS_WRITTEN);
    let mut out = Vec::new(alloc);
    for chunk in PAGE.chunks(size) {
        push_chunk(&mut reader, chunk, &mut out)?;
    }
    Ok(out)
}

#[test]
fn cut_in_each_place(rt: HostRuntime) -> Result<(), Fail> {
    for size in 1..100usize {
        let tags = tags_in_chunks(rt.alloc(), size);
        assert!(rt; tags.is_ok_and(|tags| tags.as_slice() == TAGS));
    }
    Ok(())
}

fn at_most(max_tag_bytes: u64) -> PageSettings {
    PageSettings {
        max_tag_bytes,
        ..AS_WRITTEN
    }
}

// The length of a tag of nine bytes that comes in three chunks.
fn nine_bytes(reader: &mut PageReader) -> Result<Option<u64>, PageReadError> {
    reader.next(b"<")?;
    reader.next(b"q a='")?;
    let read = reader.next(b"b'><i>")?;
    Ok(
        read.tag
            .map(|placed| placed.tag.end.saturating_sub(placed.tag.start)),
    )
}

#[test]
fn limit_of_a_tag(rt: HostRuntime) -> Result<(), Fail> {
    let mut reader = PageReader::new(rt.alloc(), at_most(9));
    assert_eq!(rt; nine_bytes(&mut reader), Ok(Some(9)));
    let mut reader = PageReader::new(rt.alloc(), at_most(8));
    assert_eq!(rt; nine_bytes(&mut reader), Err(PageReadError::TagTooLong));
    assert_eq!(rt; nine_bytes(&mut reader), Err(PageReadError::Failed));
    Ok(())
}

// The length of a tag that `select` makes ambiguous.
fn length_in_select(reader: &mut PageReader) -> Result<Option<u64>, PageReadError> {
    reader.next(b"<select>")?;
    reader.next(b"<xm")?;
    let read = reader.next(b"p>")?;
    Ok(
        read.tag
            .map(|placed| placed.tag.end.saturating_sub(placed.tag.start)),
    )
}

#[test]
fn ambiguous_tag(rt: HostRuntime) -> Result<(), Fail> {
    let mut reader = PageReader::new(rt.alloc(), AS_WRITTEN);
    assert_eq!(rt; length_in_select(&mut reader), Ok(Some(5)));
    let settings = PageSettings {
        strict: true,
        ..AS_WRITTEN
    };
    let mut reader = PageReader::new(rt.alloc(), settings);
    assert_eq!(rt;
        length_in_select(&mut reader),
        Err(PageReadError::Ambiguous)
    );
    assert_eq!(rt; length_in_select(&mut reader), Err(PageReadError::Failed));
    Ok(())
}

const DEEP: usize = 20_000;

// End tags of names that aren't open, and of one that is shielded, inside many elements: each costs no walk.
#[test]
fn end_tags_that_close_nothing(rt: HostRuntime) -> Result<(), Fail> {
    let mut page = Vec::new(rt.alloc());
    page.extend_from_slice(b"<div><svg><desc>")?;
    for _ in 0..DEEP {
        page.extend_from_slice(b"<b>")?;
    }
    for _ in 0..DEEP {
        page.extend_from_slice(b"</x></div>")?;
    }
    let mut reader = PageReader::new(rt.alloc(), AS_WRITTEN);
    let mut out = Vec::new(rt.alloc());
    assert_eq!(rt; push_chunk(&mut reader, &page, &mut out), Ok(()));
    Ok(())
}
