//! What errors say, and how they are passed on as a caller's own: no contract says it.

use lol_matcher::{AddError, ErrorLocation, MatcherError};
use lol_vm::{
    AddChildError, Ast, Attributes, LocalName, MatchInfo, Namespace, RunCause, RunRefusal, RunStop,
    SelectorError, SelectorMatchingVm, SharedMemoryLimiter, TagEvent, TagReport, VmError,
    match_each_event,
};
use std::alloc::{AllocError, Global};
use std::fmt::Display;
use std::process::Abort;
use std::test::Fail;
use test_kit::{Numbered, selectors};
use thiserror::Error;

type Machine = SelectorMatchingVm<Numbered>;

/// A caller's own error.
#[derive(Debug, Drop, Error)]
enum PageError {
    #[error("out of memory")]
    Memory(#[from] AllocError),
    #[error("a page stopped: {0}")]
    Run(#[from] RunStop),
    #[error("a tag wasn't answered: {0}")]
    Tag(#[from] VmError<Numbered>),
    #[error("a selector wasn't read: {0}")]
    Selector(#[from] SelectorError),
}

/// Reads a page with a limit that its first element passes.
fn read_page(alloc: Global) -> Result<(), PageError> {
    let ast = selectors(alloc, &[("div", 0)])?;
    Ok(stop_of(alloc, ast)?)
}

/// A run over one `div`, with a limit that it passes.
fn stop_of(alloc: Global, ast: Ast) -> Result<(), RunStop> {
    let none = Attributes::new(alloc);
    let events = [TagEvent::Start {
        name: b"div",
        ns: Namespace::Html,
        aux_info: none.aux_info(false),
        finish: true,
    }];
    let mut limiter = SharedMemoryLimiter::new(63);
    let mut handler = |report: TagReport| drop(report);
    match_each_event(alloc, ast, 64, false, &events, &mut limiter, &mut handler)
}

fn machine(alloc: Global, text: &str) -> Result<Machine, SelectorError> {
    let ast = selectors(alloc, &[(text, 0)])?;
    Ok(SelectorMatchingVm::new(alloc, ast, 64, false)?)
}

/// Tells a machine of a start tag of HTML, and discards it.
fn answer(
    mut vm: Machine,
    limiter: &mut SharedMemoryLimiter,
    name: &[u8],
) -> Result<(), VmError<Numbered>> {
    let mut handler = |_info: MatchInfo| {};
    let name = LocalName::new(name);
    let answered = vm.exec_for_start_tag(name, Namespace::Html, limiter, &mut handler);
    vm.discard();
    answered
}

/// Tells a machine of a start tag whose attributes are asked for.
fn start_tag(alloc: Global) -> Result<(), PageError> {
    let vm = machine(alloc, "#a")?;
    let mut limiter = SharedMemoryLimiter::new(1000);
    Ok(answer(vm, &mut limiter, b"p")?)
}

fn says(rt: &impl Abort, alloc: Global, error: &impl Display, wanted: &str) -> Result<(), Fail> {
    let text = format!(in alloc; "{error}")?;
    assert!(rt; text.as_str() == wanted, "{wanted}");
    Ok(())
}

#[test]
fn are_passed_on(rt: HostRuntime) -> Result<(), Fail> {
    let alloc = rt.alloc();
    let wanted = "a page stopped: event 0 was refused: the memory limit would have been passed";
    refused_says(&rt, alloc, read_page(alloc), wanted)?;
    let wanted = "a tag wasn't answered: the start tag's attributes are asked for: it is answered \
                  by `finish_start_tag`";
    refused_says(&rt, alloc, start_tag(alloc), wanted)
}

/// What the error says of a page that was refused.
fn refused_says(
    rt: &impl Abort,
    alloc: Global,
    answer: Result<(), PageError>,
    wanted: &str,
) -> Result<(), Fail> {
    match answer {
        Ok(()) => {
            assert!(rt; false, "{wanted}");
            Ok(())
        }
        Err(error) => says(rt, alloc, &error, wanted),
    }
}

const MANY: &str = "an element has as many children as can be counted";

const FAILED: &str = "an earlier start tag was refused: no other is answered";

/// What an error of a machine says. It is dropped here, since it may hold a request.
fn machine_says(
    rt: &impl Abort,
    alloc: Global,
    error: VmError<Numbered>,
    wanted: &str,
) -> Result<(), Fail> {
    says(rt, alloc, &error, wanted)
}

/// What the errors of a matcher say.
const OF_MATCHERS: [(MatcherError, &str); 6] = [
    (
        MatcherError::MemoryLimitExceeded,
        "the memory limit would have been passed: too many elements are open at a time",
    ),
    (MatcherError::Memory, "out of memory"),
    (MatcherError::CounterFull, MANY),
    (MatcherError::Failed, FAILED),
    (
        MatcherError::NotAsked,
        "no start tag waits for its attributes",
    ),
    (
        MatcherError::OutsideInput,
        "the range of an attribute's name or value lies outside the input",
    ),
];

fn all_say<E: Display>(rt: &impl Abort, alloc: Global, rows: &[(E, &str)]) -> Result<(), Fail> {
    for (error, wanted) in rows {
        says(rt, alloc, error, wanted)?;
    }
    Ok(())
}

const DANGLING: AddError = AddError::Refused {
    cause: SelectorError::DanglingCombinator,
    location: ErrorLocation { item: 1, offset: 8 },
};

#[test]
fn say_why_a_matcher_refused(rt: HostRuntime) -> Result<(), Fail> {
    let wanted = "Dangling combinator in selector. (item 1, byte 8)";
    says(&rt, rt.alloc(), &DANGLING, wanted)?;
    all_say(&rt, rt.alloc(), &OF_MATCHERS)
}

#[test]
fn say_why_a_start_tag_was_refused(rt: HostRuntime) -> Result<(), Fail> {
    machine_says(&rt, rt.alloc(), VmError::CounterFull, MANY)?;
    machine_says(&rt, rt.alloc(), VmError::Failed, FAILED)?;
    says(&rt, rt.alloc(), &AddChildError::CounterFull, MANY)
}

#[test]
fn say_which_event_was_refused(rt: HostRuntime) -> Result<(), Fail> {
    let alloc = rt.alloc();
    let refusal = RunRefusal {
        reports: Vec::new(alloc),
        event: 7,
        cause: RunCause::CounterFull,
    };
    says(&rt, alloc, &RunCause::Memory, "out of memory")?;
    says(
        &rt,
        alloc,
        &refusal,
        "event 7 was refused: an element has as many children as can be counted",
    )
}
