//! What the machine answers to tags as words: what the rows beside this file are told with.

ghost use Rattle.std.specs.Prelude.{All};
ghost use Rattle.lol_vm.specs.TagEvents.{HasRangesInside};

use crate::tag_words::events_of;
use lol_base::Attributes;
use lol_vm::{
    Ast, MatchInfo, RunStop, SharedMemoryLimiter, TagEvent, TagReport, match_each_event,
    match_events,
};
use std::alloc::{AllocError, Global};
use std::process::Abort;
use std::test::Fail;
use test_kit::{TagWord, attributes_of, selectors, words_of};

/// What the machine answers to tags, with the names of ESI or without, and ample memory.
pub(crate) fn reports(
    alloc: Global,
    texts: &[(&str, u32)],
    enable_esi_tags: bool,
    tags: &str,
) -> Result<Vec<TagReport>, Fail> {
    let words = words_of(alloc, tags)?;
    reports_of_tags(alloc, texts, enable_esi_tags, &words)
}

/// The same for tags that are no words.
pub(crate) fn reports_of_tags(
    alloc: Global,
    texts: &[(&str, u32)],
    enable_esi_tags: bool,
    tags: &[TagWord<'_>],
) -> Result<Vec<TagReport>, Fail> {
    let attributes = attributes_of(alloc, tags)?;
    let ast = selectors(alloc, texts)?;
    let events = events_of(alloc, tags, &attributes)?;
    reports_of_events(alloc, ast, enable_esi_tags, &events)
}

/// The same for events.
pub(crate) fn reports_of_events(
    alloc: Global,
    ast: Ast,
    enable_esi_tags: bool,
    events: &[TagEvent<'_>],
) -> Result<Vec<TagReport>, Fail>
    requires { All HasRangesInside events.now }
{
    let mut limiter = SharedMemoryLimiter::new(1_000_000);
    match match_events(alloc, ast, 64, enable_esi_tags, events, &mut limiter) {
        Ok(reports) if limiter.current_usage() == 0 => Ok(reports),
        Ok(_) => Err(Fail::from("some bytes are still in use")),
        Err(_) => Err(Fail::from("the run was refused")),
    }
}

/// Where a run of so many nested `d` under `*` stops, with items of 64 bytes, this maximum, and so many bytes in use before.
pub(crate) fn stop_of(
    rt: &impl Abort,
    alloc: Global,
    maximum: usize,
    usage: usize,
    depth: usize,
) -> Result<Option<RunStop>, Fail> {
    let words = vec![in alloc; TagWord::of("d"); depth]?;
    let attributes = attributes_of(alloc, &words)?;
    let mut limiter = SharedMemoryLimiter::new(maximum);
    assert!(rt; limiter.increase_usage(usage).is_ok());
    let stop = stop_of_tags(alloc, &words, &attributes, &mut limiter)?;
    assert!(rt; limiter.current_usage() == usage);
    Ok(stop)
}

fn stop_of_tags(
    alloc: Global,
    tags: &[TagWord<'_>],
    attributes: &[Attributes],
    limiter: &mut SharedMemoryLimiter,
) -> Result<Option<RunStop>, Fail> {
    let ast = selectors(alloc, &[("*", 0)])?;
    let events = events_of(alloc, tags, attributes)?;
    Ok(stop_of_events(alloc, ast, &events, limiter))
}

fn stop_of_events(
    alloc: Global,
    ast: Ast,
    events: &[TagEvent<'_>],
    limiter: &mut SharedMemoryLimiter,
) -> Option<RunStop>
    requires { All HasRangesInside events.now }
{
    let mut handler = |report: TagReport| drop(report);
    match_each_event(alloc, ast, 64, false, events, limiter, &mut handler).err()
}

/// A text for each comparison of an attribute with an operand.
pub(crate) fn texts_of(
    alloc: Global,
    name: &str,
    comparisons: &str,
    operand: &str,
) -> Result<Vec<String>, AllocError> {
    let mut texts = Vec::new(alloc);
    for compared in comparisons.split(',') {
        texts.push(text_of(alloc, name, compared, operand)?)?;
    }
    Ok(texts)
}

fn text_of(alloc: Global, name: &str, compared: &str, operand: &str) -> Result<String, AllocError> {
    format!(in alloc; "[{name}{compared}{operand}]")
}

/// These texts under the ids from 0.
pub(crate) fn numbered<'t>(
    alloc: Global,
    texts: &'t [String],
) -> Result<Vec<(&'t str, u32)>, AllocError> {
    let mut numbered = Vec::new(alloc);
    for (text, id) in texts.iter().zip(0..) {
        numbered.push((text.as_str(), id))?;
    }
    Ok(numbered)
}

/// Whether a report is of a start tag under these ids, with content or without, or of an end tag that closes these elements.
pub(crate) fn tells(report: &TagReport, numbers: &[usize], content: bool) -> bool {
    match report {
        TagReport::Started { matched, .. } => are_reported(matched, numbers, content),
        TagReport::Dropped => numbers.is_empty(),
        TagReport::Ended { closed } => closed.as_slice() == numbers,
    }
}

fn are_reported(infos: &[MatchInfo], ids: &[usize], content: bool) -> bool {
    if infos.len() != ids.len() {
        return false;
    }
    for (info, id) in infos.iter().zip(ids) {
        if info.match_id as usize != *id || info.with_content != content {
            return false;
        }
    }
    true
}

/// Whether the reports tell exactly these numbers, all with content.
pub(crate) fn are_told(told: &[TagReport], wanted: &[&[usize]]) -> bool {
    told.len() == wanted.len() && count_told(told, wanted) == wanted.len()
}

/// How many reports tell these numbers, from the first on, all with content.
pub(crate) fn count_told(told: &[TagReport], wanted: &[&[usize]]) -> usize {
    let mut count = 0usize;
    for (report, numbers) in told.iter().zip(wanted) {
        if !tells(report, numbers, true) {
            return count;
        }
        count = count.saturating_add(1);
    }
    count
}
