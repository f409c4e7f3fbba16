//! What the end tags of a page close, cut in each place, and how deep its start tags stand.

ghost use Rattle.std.specs.Prelude.{◌<◌};

use crate::pages::{AS_WRITTEN, push_number};
use lol_matcher::{Matcher, OpenElement};
use lol_page::{Page, PageError};
use std::alloc::Global;
use std::test::Fail;

const PAGE: &[u8] = b"<ul><li>1<li><b>2</ul><img><p>3</b></p>4</ul><i><u";

// The depth of each start tag, with `+` if its element is open; of each end tag the depths of the elements that it closes, and `;`.
const DEPTHS: &[u8] = b"0+1+2+3+0123;0-0+;0;;0+";

/// What is written of a page.
#[derive(Drop)]
struct Written {
    text: Vec<u8>,
}

impl Written {
    fn close(&mut self, element: OpenElement<u64>) {
        let OpenElement {
            value,
            number: _,
            matched_ids: _,
        } = element;
        if let Some(depth) = value {
            let _ = push_number(depth, &mut self.text);
        }
    }

    fn add(&mut self, byte: u8) {
        let _ = self.text.push(byte);
    }
}

fn start(page: &mut Page<u64>, written: &mut Written) {
    let depth = page.depth() as u64;
    let _ = push_number(depth, &mut written.text);
    if page.has_opened() {
        let _ = page.replace_value(Some(depth));
        written.add(b'+');
    } else {
        written.add(b'-');
    }
}

fn push_tags(page: &mut Page<u64>, chunk: &[u8], written: &mut Written) -> Result<(), PageError> {
    let mut rest = chunk;
    for _ in 0..=chunk.len() {
        let read = page.next_tag(rest, &mut |element| written.close(element))?;
        rest = &rest[read.taken..];
        let Some(placed) = read.tag else {
            return Ok(());
        };
        if placed.tag.is_end {
            written.add(b';');
        } else {
            start(page, written);
        }
    }
    Ok(())
}

/// The depths, if one element is open at the end.
fn depths_in_chunks(alloc: Global, size: usize) -> Option<Vec<u8>>
    requires { 0 < size }
{
    let matcher = Matcher::builder(alloc).build::<u64>().ok()?;
    let mut page = Page::new(alloc, matcher, AS_WRITTEN);
    let mut written = Written {
        text: Vec::new(alloc),
    };
    for chunk in PAGE.chunks(size) {
        push_tags(&mut page, chunk, &mut written).ok()?;
    }
    let matcher = page.into_matcher();
    let mut open = matcher.open_elements();
    (open.next()?.value == Some(0) && open.next().is_none()).then_some(written.text)
}

#[test]
fn depths_of_a_page(rt: HostRuntime) -> Result<(), Fail> {
    for size in 1..30usize {
        let depths = depths_in_chunks(rt.alloc(), size);
        assert!(rt; depths.is_some_and(|depths| depths.as_slice() == DEPTHS));
    }
    Ok(())
}
