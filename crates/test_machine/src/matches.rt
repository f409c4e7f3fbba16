//! What matches in a page, cut in each place.

ghost use Rattle.std.specs.Prelude.{◌<◌};

use crate::pages::{AS_WRITTEN, push_number};
use lol_matcher::{MatchInfo, Matcher};
use lol_page::{Page, PageError, PageSettings, PlacedTag};
use std::alloc::{AllocError, Global};
use std::test::Fail;

const PAGE: &[u8] =
    b"<main>\n<a href=x>1</a><a>2</a>\n<svg><a href=y/></svg><!--<a href=z>--><textarea><a href=w></textarea></main><a href=v>";

const MATCHES: &[u8] = b"2:1 0 2;2:16 2;3:6 0 1 2;3:78 2;";

// Links as wikis write them, and one with a name that is left before `=`.
const CODED: &[u8] =
    b"<a href=\"/w/?title=A&amp;action=edit\" title='Edit &quot;A&quot;'>edit</a>\n<a href=/w/?a&copy=1>";

fn matcher_of_links(alloc: Global) -> Option<Matcher> {
    let mut builder = Matcher::builder(alloc);
    builder.add(0, "main a[href]").ok()?;
    builder.add(1, "svg a").ok()?;
    builder.add(2, "a").ok()?;
    builder.build().ok()
}

fn push_match(
    placed: &PlacedTag,
    matches: &[MatchInfo],
    out: &mut Vec<u8>,
) -> Result<(), AllocError> {
    push_number(placed.line, out)?;
    out.push(b':')?;
    push_number(placed.column, out)?;
    for info in matches {
        out.push(b' ')?;
        push_number(info.match_id as u64, out)?;
    }
    out.push(b';')?;
    Ok(())
}

fn push_matches(page: &mut Page, chunk: &[u8], out: &mut Vec<u8>) -> Result<(), PageError> {
    let mut rest = chunk;
    for _ in 0..=chunk.len() {
        let read = page.next_match(rest)?;
        rest = &rest[read.taken..];
        let Some(placed) = read.tag else {
            return Ok(());
        };
        if push_match(&placed, page.matches(), out).is_err() {
            return Err(PageError::Memory);
        }
    }
    Ok(())
}

fn matcher_of_coded(alloc: Global) -> Option<Matcher> {
    let mut builder = Matcher::builder(alloc);
    builder.add(0, "[href$='?title=A&action=edit']").ok()?;
    builder.add(1, "[title='Edit \"A\"']").ok()?;
    builder.add(2, "[href*='&amp;']").ok()?;
    builder.add(3, "[href$='a&copy=1']").ok()?;
    builder.build().ok()
}

fn matches_in_chunks(
    alloc: Global,
    matcher: Option<Matcher>,
    settings: PageSettings,
    text: &[u8],
    size: usize,
) -> Option<Vec<u8>>
    requires { 0 < size }
{
    let mut page = Page::new(alloc, matcher?, settings);
    let mut out = Vec::new(alloc);
    for chunk in text.chunks(size) {
        push_matches(&mut page, chunk, &mut out).ok()?;
    }
    Some(out)
}

#[test]
fn links_of_a_page(rt: HostRuntime) -> Result<(), Fail> {
    for size in 1..40usize {
        let matcher = matcher_of_links(rt.alloc());
        let matches = matches_in_chunks(rt.alloc(), matcher, AS_WRITTEN, PAGE, size);
        assert!(rt; matches.is_some_and(|matches| matches.as_slice() == MATCHES));
    }
    Ok(())
}

#[test]
fn coded_links(rt: HostRuntime) -> Result<(), Fail> {
    let decoded = PageSettings {
        decoded: true,
        ..AS_WRITTEN
    };
    for size in 1..40usize {
        let matcher = matcher_of_coded(rt.alloc());
        let matches = matches_in_chunks(rt.alloc(), matcher, decoded, CODED, size);
        assert!(rt;
            matches.is_some_and(|matches| matches.as_slice() == b"1:1 0 1;2:1 3;".as_slice())
        );
        let matcher = matcher_of_coded(rt.alloc());
        let matches = matches_in_chunks(rt.alloc(), matcher, AS_WRITTEN, CODED, size);
        assert!(rt;
            matches.is_some_and(|matches| matches.as_slice() == b"1:1 2;2:1 3;".as_slice())
        );
    }
    Ok(())
}
