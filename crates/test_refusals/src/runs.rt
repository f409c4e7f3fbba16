//! Whole runs: each request for memory can be refused.

ghost use Rattle.std.specs.Prelude.{◌≡◌, All};
ghost use Rattle.lol_vm.specs.TagEvents.{HasRangesInside};

use crate::lists::are_ids;
use crate::outcome::{Met, Stop, expect};
use crate::trees::{add, two};
use lol_script::{Counted, RunFault, Status, run};
use lol_vm::{
    Ast, Attributes, Namespace, RunCause, RunRefusal, SharedMemoryLimiter, TagEvent, TagReport,
    match_events,
};
use std::alloc::{AllocError, Global};
use std::io;
use std::io::Write;

/// A start tag of HTML.
pub(crate) fn start<'i>(name: &'i [u8], attributes: &'i Attributes) -> TagEvent<'i>
    ensures { HasRangesInside result }
{
    TagEvent::Start {
        name,
        ns: Namespace::Html,
        aux_info: attributes.aux_info(false),
        finish: true,
    }
}

/// Whether a report is of these ids, asked for or not, or of these closed elements.
fn is_report(report: &TagReport, ids: &[u32], asked_for: bool) -> bool {
    match report {
        TagReport::Started { matched, asked, .. } => {
            *asked == asked_for && are_ids(matched, ids)
        }
        TagReport::Dropped => false,
        TagReport::Ended { closed } => are_places(closed, ids),
    }
}

fn are_places(closed: &[usize], places: &[u32]) -> bool {
    for (closed, place) in closed.iter().zip(places) {
        if *closed != *place as usize {
            return false;
        }
    }
    closed.len() == places.len()
}

/// Whether reports are a beginning of those that are wanted.
fn begin(reports: &[TagReport], wanted: &[(&[u32], bool)]) -> bool {
    for (report, (ids, asked)) in reports.iter().zip(wanted) {
        if !is_report(report, ids, *asked) {
            return false;
        }
    }
    reports.len() <= wanted.len()
}

/// Answers tags, and stops where the reports aren't those that are wanted. A refusal is the scenario's own.
pub(crate) fn matches_in_turn(
    alloc: Global,
    ast: Ast,
    events: &[TagEvent],
    wanted: &[(&[u32], bool)],
) -> Result<(), Stop>
    requires { All HasRangesInside events.now }
{
    match answered(alloc, ast, events, wanted)? {
        Met::Nothing => Ok(()),
        Met::Refusal => Err(Stop::Own),
    }
}

/// Answers tags over a limiter with some usage: whether memory was refused. Then the reports are a beginning.
fn answered(
    alloc: Global,
    ast: Ast,
    events: &[TagEvent],
    wanted: &[(&[u32], bool)],
) -> Result<Met, Stop>
    requires { All HasRangesInside events.now }
{
    let mut limiter = SharedMemoryLimiter::new(10_000);
    expect(limiter.increase_usage(100).is_ok())?;
    let answer = match_events(alloc, ast, 64, false, events, &mut limiter);
    if limiter.current_usage() == 100 {
        met_by(&answer, wanted)
    } else {
        Err(Stop::Wrong)
    }
}

fn met_by(
    answer: &Result<Vec<TagReport>, RunRefusal>,
    wanted: &[(&[u32], bool)],
) -> Result<Met, Stop> {
    match answer {
        Ok(reports) => {
            expect(begin(reports, wanted) && reports.len() == wanted.len())?;
            Ok(Met::Nothing)
        }
        Err(refusal) => {
            let is_memory = refusal.cause == RunCause::Memory;
            let is_whole = refusal.reports.len() == refusal.event;
            expect(is_memory && is_whole && begin(&refusal.reports, wanted))?;
            Ok(Met::Refusal)
        }
    }
}

/// Answers tags over the selectors of two texts: whether there was memory.
fn answered_by_two(
    alloc: Global,
    texts: (&str, &str),
    events: &[TagEvent],
    wanted: &[(&[u32], bool)],
) -> Result<bool, Stop>
    requires { All HasRangesInside events.now }
{
    let ast = two(alloc, texts.0, texts.1)?;
    Ok(answered(alloc, ast, events, wanted)? == Met::Nothing)
}

/// Three nested `div`, an end tag, and one more.
pub(crate) fn nested(alloc: Global) -> Result<bool, Stop> {
    let none = Attributes::new(alloc);
    let div = start(b"div", &none);
    let events = [div, div, div, TagEvent::End { name: b"div" }, div];
    let wanted: [(&[u32], bool); 5] = [
        (&[], false),
        (&[0], false),
        (&[0], false),
        (&[2], false),
        (&[0], false),
    ];
    answered_by_two(alloc, ("div div", "div > p"), &events, &wanted)
}

/// Children counted by type, and elements whose names are no hashes.
pub(crate) fn by_type(alloc: Global) -> Result<bool, Stop> {
    let none = Attributes::new(alloc);
    let item = start(b"x-item", &none);
    let end = TagEvent::End { name: b"X-Item" };
    let events = [start(b"ul", &none), item, end, item, item, end];
    let wanted: [(&[u32], bool); 6] = [
        (&[], false),
        (&[1], false),
        (&[1], false),
        (&[0, 1], false),
        (&[1], false),
        (&[4], false),
    ];
    answered_by_two(
        alloc,
        ("ul > X-item:nth-of-type(2)", "ul x-item"),
        &events,
        &wanted,
    )
}

/// The classes and the ids of one letter, each under its code, and a part of a value, in a tree with rows. A refusal is the scenario's own.
fn letters(alloc: Global) -> Result<Ast, Stop> {
    let mut ast = Ast::new(alloc);
    for sign in [b'.', b'#'] {
        add_letters(alloc, &mut ast, sign)?;
    }
    add(alloc, &mut ast, "[title$='text']", 7)?;
    Ok(ast.with_rows())
}

fn add_letters(alloc: Global, ast: &mut Ast, sign: u8) -> Result<(), Stop> {
    for letter in b'a'..b'{' {
        let text = [sign, letter];
        let Ok(text) = std::str::from_utf8(&text) else {
            return Err(Stop::Wrong);
        };
        add(alloc, ast, text, u32::from(letter))?;
    }
    Ok(())
}

/// The attributes of the tag of `with_rows`.
fn titled(alloc: Global) -> Result<Attributes, AllocError> {
    let mut attributes = Attributes::new(alloc);
    push_titled(&mut attributes)?;
    Ok(attributes)
}

fn push_titled(attributes: &mut Attributes) -> Result<(), AllocError> {
    attributes.push(b"class", Some(b"d c"))?;
    attributes.push(b"id", Some(b"z"))?;
    attributes.push(b"title", Some(b"a text"))
}

/// A tag whose keys are looked up among so many that a look at each would take longer. What is looked up needs memory, but the tag isn't
/// refused for it.
pub(crate) fn with_rows(alloc: Global) -> Result<bool, Stop> {
    let attributes = titled(alloc)?;
    let events = [start(b"p", &attributes), TagEvent::End { name: b"p" }];
    let wanted: [(&[u32], bool); 2] = [(&[7, 99, 100, 122], true), (&[0], false)];
    Ok(answered(alloc, letters(alloc)?, &events, &wanted)? == Met::Nothing)
}

/// Keeps the first 256 bytes, without memory.
#[derive(Drop)]
struct Page {
    bytes: [u8; 256],
    len: usize,
}

impl Page {
    fn text(&self) -> &[u8] {
        &self.bytes[..self.len.min(256)]
    }
}

impl Write for Page {
    fn write(&mut self, bytes: &[u8]) -> io::Result<usize> {
        for byte in bytes {
            if self.len < 256 {
                self.bytes[self.len] = *byte;
                self.len += 1;
            }
        }
        Ok(bytes.len())
    }

    fn flush(&mut self) -> io::Result<()> {
        Ok(())
    }
}

/// Runs a script: whether there was memory. If there was none, nothing is written.
fn written(
    alloc: Global,
    script: &[u8],
    wanted: Result<Status, RunFault>,
    text: &[u8],
) -> Result<bool, Stop> {
    let (outcome, page) = run_on_page(alloc, script)?;
    let had_memory = outcome != Err(RunFault::Memory);
    let is_right = if had_memory {
        outcome == wanted && page.text() == text
    } else {
        page.text().is_empty()
    };
    expect(is_right)?;
    Ok(had_memory)
}

/// How the run of a script ended, and what it wrote, with devices that don't fail.
fn run_on_page(alloc: Global, script: &[u8]) -> Result<(Result<Status, RunFault>, Page), Stop> {
    let mut reader = Counted::new(script);
    let mut writer = Counted::new(Page {
        bytes: [0; 256],
        len: 0,
    });
    let outcome = run(alloc, &mut reader, &mut writer);
    expect(reader.failures() == 0 && writer.failures() == 0)?;
    let _ = reader.into_inner();
    Ok((outcome, writer.into_inner()))
}

pub(crate) fn run_tags(alloc: Global) -> Result<bool, Stop> {
    written(
        alloc,
        b"tries\nselect\t0\t.a p\nselect\t1\tp\nstart\thtml\tdiv\tclass=a\nstart\thtml\tp\n",
        Ok(Status::Good),
        b"start\t-\tasked\ttries 2 1\nstart\t0,1\tasked\ttries 3 1\n",
    )
}

pub(crate) fn run_with_rows(alloc: Global) -> Result<bool, Stop> {
    written(
        alloc,
        b"rows\t0\ntries\nselect\t0\t.a p\nselect\t1\tp\nstart\thtml\tdiv\tclass=a\nstart\thtml\tp\n",
        Ok(Status::Good),
        b"start\t-\tasked\ttries 1 1\nstart\t0,1\tasked\ttries 2 0\n",
    )
}

pub(crate) fn run_of_a_bad_line(alloc: Global) -> Result<bool, Stop> {
    written(
        alloc,
        b"select\t0\t.a p\nstart\thtml\tdiv\nselect\t1\tp\n",
        Ok(Status::BadLine),
        b"bad line 3: form\n",
    )
}

pub(crate) fn run_past_the_limit(alloc: Global) -> Result<bool, Stop> {
    written(
        alloc,
        b"limit\t511\nselect\t40\t*\nstart\thtml\tbr\nstart\thtml\td\n",
        Ok(Status::Refused),
        b"start\t40/\nrefused limit\n",
    )
}

pub(crate) fn run_explained(alloc: Global) -> Result<bool, Stop> {
    written(
        alloc,
        b"explain\nselect\t7\tdiv p, p\nselect\t1\tp\nstart\thtml\tdiv\nstart\thtml\tp\n",
        Ok(Status::Good),
        b"start\t-\nstart\t1,7\nwhy\t7\t2\t0\t0,1\nwhy\t7\t2\t1\t1\nwhy\t1\t3\t0\t1\n",
    )
}
