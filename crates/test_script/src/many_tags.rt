//! Whole runs of many tags. A run that refuses the tag of some number meets its contract.

ghost use Rattle.std.specs.Prelude.{All, IfOk};
ghost use Rattle.lol_vm.specs.TagEvents.{HasRangesInside};

use lol_base::Attributes;
use lol_vm::{
    Ast, Namespace, SelectorError, SharedMemoryLimiter, TagEvent, TagReport, match_each_event,
    match_events,
};
use std::alloc::{AllocError, Global};
use test_kit::selectors;

/// How many tags there are.
const TAGS: usize = 20_000;

/// How many bytes an open element is charged for, and the most bytes.
const ITEM_BYTES: usize = 64;

const MOST: usize = 10_000_000;

/// The selectors that are looked for.
const SELECTORS: [(&str, u32); 3] = [("div > p", 3), ("br", 40), ("div", 7)];

/// The tag of a place: over and over a `div` with a `p` and in it a `br`, and the end of the `div`.
fn event<'e>(place: usize, none: &'e Attributes) -> TagEvent<'e>
    ensures { HasRangesInside result }
{
    match place % 4 {
        0 => start_tag(b"div", none),
        1 => start_tag(b"p", none),
        2 => start_tag(b"BR", none),
        _ => TagEvent::End { name: b"div" },
    }
}

/// A start tag of HTML without attributes.
fn start_tag<'e>(name: &'static [u8], none: &'e Attributes) -> TagEvent<'e>
    ensures { HasRangesInside result }
{
    TagEvent::Start {
        name,
        ns: Namespace::Html,
        aux_info: none.aux_info(false),
        finish: true,
    }
}

fn events<'e>(alloc: Global, none: &'e Attributes) -> Result<Vec<TagEvent<'e>>, AllocError>
    ensures { IfOk result (λ events. All HasRangesInside events.items) }
{
    let mut events = Vec::new(alloc);
    for place in 0..TAGS {
        events.push(event(place, none))?;
    }
    Ok(events)
}

// Each call stands in a function that promises nothing, so that what compares its answers carries nothing along.

fn matched(alloc: Global, ast: Ast, events: &[TagEvent<'_>]) -> Option<Vec<TagReport>>
    requires { All HasRangesInside events.now }
{
    let mut limiter = SharedMemoryLimiter::new(MOST);
    match_events(alloc, ast, ITEM_BYTES, false, events, &mut limiter).ok()
}

fn handed_out(alloc: Global, ast: Ast, events: &[TagEvent<'_>], count: &mut usize) -> bool
    requires { All HasRangesInside events.now }
{
    let mut limiter = SharedMemoryLimiter::new(MOST);
    let mut handler = |_report: TagReport| {
        *count = count.saturating_add(1);
    };
    match_each_event(
        alloc,
        ast,
        ITEM_BYTES,
        false,
        events,
        &mut limiter,
        &mut handler,
    )
    .is_ok()
}

fn are_matched(alloc: Global, events: &[TagEvent<'_>]) -> Result<bool, SelectorError>
    requires { All HasRangesInside events.now }
{
    let reports = matched(alloc, selectors(alloc, &SELECTORS)?, events);
    Ok(reports.is_some_and(|reports| reports.len() == TAGS))
}

fn are_handed_out(alloc: Global, events: &[TagEvent<'_>]) -> Result<bool, SelectorError>
    requires { All HasRangesInside events.now }
{
    let mut count = 0;
    let answered = handed_out(alloc, selectors(alloc, &SELECTORS)?, events, &mut count);
    Ok(answered && count == TAGS)
}

/// 20,000 tags, whose reports are kept, and handed out.
#[test]
fn runs_are_of_many_tags(rt: HostRuntime) {
    let none = Attributes::new(rt.alloc());
    let events = events(rt.alloc(), &none).expect(&rt, "memory");
    assert!(rt; are_matched(rt.alloc(), &events) == Ok(true));
    assert!(rt; are_handed_out(rt.alloc(), &events) == Ok(true));
}
