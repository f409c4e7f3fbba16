//! A whole run.

ghost use Rattle.std.specs.Prelude.{◌≡◌, ◌≤◌, ◌<◌, ◌⊎◌, [], IfOk, OnOk, IfErr, None, map, true, length, take, All};
ghost use Rattle.lol_base.specs.StartTags.{RangesAreInside};
ghost use Rattle.lol_machine.specs.Answers.{answers};
ghost use Rattle.lol_machine.specs.Events.{Start, End};
ghost use Rattle.lol_machine.specs.Refusals.{refused};
ghost use Rattle.lol_machine.specs.Views.{selectors, tag_of};
ghost use Rattle.lol_matcher.specs.Refusing.{allowance};
ghost use Rattle.lol_vm.specs.Collecting.{Collects};
ghost use Rattle.lol_vm.specs.Handlers.{IsCalledWithAnswers};
ghost use Rattle.lol_vm.specs.RunRefusals.{allowance_of, IsRefusedAt, StopsBeforeLimit, StopsFor};
ghost use Rattle.lol_vm.specs.TagEvents.{HasRangesInside, event_of, answer_of};
ghost use Rattle.lol_vm.specs.ToldEvents.{AnswersOne, ForNew, ForTold, ForUnfinished, IsCauseOf, RefusesEvent, WasTold, reported_as};

use crate::collected::Collected;
use crate::events::{RunCause, RunRefusal, RunStop, TagEvent, TagReport};
use lol_base::{AuxStartTagInfo, Namespace};
use lol_machine::machine_laws::documents_are_ordered;
use lol_matcher::laws::calls_answer_alike;
use lol_matcher::{Matcher, MatcherError, OpenElement, Started};
use lol_memory::SharedMemoryLimiter;
use lol_program::Ast;
use std::alloc::{AllocError, Global};

fn refused(reports: Vec<TagReport>, event: usize, cause: RunCause) -> RunRefusal
    ensures { result ≡ record { reports = reports; event = event; cause = cause } }
{
    RunRefusal {
        reports,
        event,
        cause,
    }
}

/// The answers to a list of tags, over selectors. The limiter's usage at the end is as before.
///
/// Items of the open list are charged for `item_bytes` each. With `enable_esi_tags` the names of ESI are void.
///
/// # Errors
/// `MemoryLimitExceeded` and `CounterFull` with the first tag that is to be refused so, `Memory` where memory was refused, each with the
/// reports of the tags before. Memory is refused with no tag whose counter is full, nor with one whose charge passes the limit and that
/// is run without memory (`RunsWithoutMemory`), nor after such a tag. What is refused before the first tag has the number 0.
pub fn match_events(
    alloc: Global,
    ast: Ast,
    item_bytes: usize,
    enable_esi_tags: bool,
    events: &[TagEvent],
    limiter: &mut SharedMemoryLimiter,
) -> Result<Vec<TagReport>, RunRefusal>
    requires item_bytes { 1 ≤ item_bytes }
    requires ranges { All HasRangesInside events.now }
    ensures ok { IfOk result (λ reports.
        map answer_of reports.items ≡ answers (selectors ast) enable_esi_tags (map event_of events.now)) }
    ensures fits { OnOk result (refused
        (selectors ast) enable_esi_tags (allowance_of item_bytes limiter.old) (map event_of events.now) ≡ None) }
    ensures refused { IfErr result (λ refusal. map answer_of refusal.reports.items
        ≡ answers (selectors ast) enable_esi_tags (map event_of (take refusal.event events.now))) }
    ensures event { IfErr result (λ refusal. (refusal.event ≡ 0) ⊎ (refusal.event < length events.now)) }
    ensures cause { IfErr result (λ refusal. IsRefusedAt refusal (refused
        (selectors ast) enable_esi_tags (allowance_of item_bytes limiter.old) (map event_of events.now))) }
    ensures due { IfErr result (λ refusal.
        StopsBeforeLimit (selectors ast) enable_esi_tags (map event_of events.now) refusal.cause refusal.event
        (refused (selectors ast) enable_esi_tags (allowance_of item_bytes limiter.old) (map event_of events.now))) }
    ensures usage { limiter.new ≡ limiter.old }
{
    let Ok(mut collected) = Collected::with_capacity(alloc, events.len()) else {
        return Err(refused(Vec::new(alloc), 0, RunCause::Memory));
    };
    let mut handler = |report: TagReport|
        ensures { Collects collected.entry report collected.exit }
    {
        collected.keep(report);
    };
    let answered = match_each_event(
        alloc,
        ast,
        item_bytes,
        enable_esi_tags,
        events,
        limiter,
        &mut handler,
    );
    let Collected {
        items: reports,
        refused: is_short,
    } = collected;
    if is_short {
        return Err(refused(Vec::new(alloc), 0, RunCause::Memory));
    }
    match answered {
        Ok(()) => Ok(reports),
        Err(stop) => Err(refused(reports, stop.event, stop.cause)),
    }
}

/// Answers a list of tags as `match_events` does, and calls the handler with each report as it is made, in the order of the tags.
///
/// # Errors
/// As those of `match_events`. The handler was called with the reports of the tags before.
pub fn match_each_event<F: FnMut(TagReport)>(
    alloc: Global,
    ast: Ast,
    item_bytes: usize,
    enable_esi_tags: bool,
    events: &[TagEvent],
    limiter: &mut SharedMemoryLimiter,
    handler: &mut F,
) -> Result<(), RunStop>
    requires item_bytes { 1 ≤ item_bytes }
    requires ranges { All HasRangesInside events.now }
    requires callable { F.IsAlwaysCallable handler.old }
    ensures again { F.IsAlwaysCallable handler.new }
    ensures ok { OnOk result (IsCalledWithAnswers F.step
        (selectors ast) enable_esi_tags (map event_of events.now) handler.old handler.new) }
    ensures fits { OnOk result (refused
        (selectors ast) enable_esi_tags (allowance_of item_bytes limiter.old) (map event_of events.now) ≡ None) }
    ensures refused { IfErr result (λ stop. IsCalledWithAnswers F.step
        (selectors ast) enable_esi_tags (map event_of (take stop.event events.now)) handler.old handler.new) }
    ensures event { IfErr result (λ stop. (stop.event ≡ 0) ⊎ (stop.event < length events.now)) }
    ensures cause { IfErr result (λ stop. StopsFor stop.cause stop.event (refused
        (selectors ast) enable_esi_tags (allowance_of item_bytes limiter.old) (map event_of events.now))) }
    ensures due { IfErr result (λ stop.
        StopsBeforeLimit (selectors ast) enable_esi_tags (map event_of events.now) stop.cause stop.event
        (refused (selectors ast) enable_esi_tags (allowance_of item_bytes limiter.old) (map event_of events.now))) }
    ensures usage { limiter.new ≡ limiter.old }
{
    // What is counted so far is within the maximum.
    let _usage = limiter.current_usage();
    let remaining = limiter.remaining();
    match new_matcher(alloc, ast, item_bytes, enable_esi_tags, remaining) {
        Ok(mut matcher) => answer_events(alloc, &mut matcher, events, handler),
        Err(_) => Err(RunStop {
            event: 0,
            cause: RunCause::Memory,
        }),
    }
}

/// Answers events, up to the first that is refused.
fn answer_events<F: FnMut(TagReport)>(
    alloc: Global,
    matcher: &mut Matcher,
    events: &[TagEvent],
    handler: &mut F,
) -> Result<(), RunStop>
    requires ranges { All HasRangesInside events.now }
    requires callable { F.IsAlwaysCallable handler.old }
    ensures again { F.IsAlwaysCallable handler.new }
    ensures ok { OnOk result (ForNew matcher.old (λ ast esi a.
        IsCalledWithAnswers F.step (selectors ast) esi (map event_of events.now) handler.old handler.new)) }
    ensures fits { OnOk result (ForNew matcher.old (λ ast esi a.
        refused (selectors ast) esi a (map event_of events.now) ≡ None)) }
    ensures refused { IfErr result (λ stop. ForNew matcher.old (λ ast esi a. IsCalledWithAnswers F.step
        (selectors ast) esi (map event_of (take stop.event events.now)) handler.old handler.new)) }
    ensures event { IfErr result (λ stop. (stop.event ≡ 0) ⊎ (stop.event < length events.now)) }
    ensures cause { IfErr result (λ stop. ForNew matcher.old (λ ast esi a.
        StopsFor stop.cause stop.event (refused (selectors ast) esi a (map event_of events.now)))) }
    ensures due { IfErr result (λ stop. ForNew matcher.old (λ ast esi a.
        StopsBeforeLimit (selectors ast) esi (map event_of events.now) stop.cause stop.event
        (refused (selectors ast) esi a (map event_of events.now)))) }
{
    for (number, event) in events.iter().enumerate() {
        match answer_event(alloc, matcher, event) {
            Ok(report) => handler(report),
            Err(error) => {
                return Err(RunStop {
                    event: number,
                    cause: cause_of(error),
                });
            }
        }
    }
    Ok(())
}

/// A matcher that was told nothing, and may charge so many bytes.
fn new_matcher(
    alloc: Global,
    ast: Ast,
    item_bytes: usize,
    enable_esi_tags: bool,
    max_memory: usize,
) -> Result<Matcher, AllocError>
    requires { 1 ≤ item_bytes }
    ensures { IfOk result (λ matcher. WasTold ast enable_esi_tags (allowance item_bytes max_memory) [] matcher) }
{
    let mut builder = Matcher::builder(alloc);
    builder.ast = ast;
    builder.max_memory = max_memory;
    builder.element_bytes = item_bytes;
    builder.enable_esi_tags = enable_esi_tags;
    builder.build()
}

/// The cause that a run is stopped for where a matcher refuses a tag.
fn cause_of(error: MatcherError) -> RunCause
    ensures { IsCauseOf error result }
{
    match error {
        MatcherError::MemoryLimitExceeded => RunCause::MemoryLimitExceeded,
        MatcherError::CounterFull => RunCause::CounterFull,
        _ => RunCause::Memory,
    }
}

/// Answers one event.
fn answer_event(
    alloc: Global,
    matcher: &mut Matcher,
    event: &TagEvent,
) -> Result<TagReport, MatcherError>
    requires { HasRangesInside event.now }
    ensures answers { IfOk result (λ report. ForTold matcher.old (λ ast esi a events.
        AnswersOne ast esi a events (event_of event.now) report matcher.new)) }
    ensures refused { IfErr result (λ error. ForTold matcher.old (λ ast esi a events.
        RefusesEvent error ast esi a events (event_of event.now))) }
{
    match event {
        TagEvent::Start {
            name,
            ns,
            aux_info,
            finish,
        } => {
            if *finish {
                answer_start(alloc, matcher, name, *ns, *aux_info)
            } else {
                answer_unfinished(alloc, matcher, name, *ns)
            }
        }
        TagEvent::End { name } => answer_end(alloc, matcher, name),
    }
}

/// Answers a start tag, whose attributes are handed over.
fn answer_start(
    alloc: Global,
    matcher: &mut Matcher,
    name: &[u8],
    ns: Namespace,
    aux_info: AuxStartTagInfo<'_>,
) -> Result<TagReport, MatcherError>
    requires { RangesAreInside aux_info }
    ensures answers { IfOk result (λ report. ForTold matcher.old (λ ast esi a events.
        AnswersOne ast esi a events (Start (tag_of name.now ns aux_info.entry true)) report matcher.new)) }
    ensures refused { IfErr result (λ error. ForTold matcher.old (λ ast esi a events.
        RefusesEvent error ast esi a events (Start (tag_of name.now ns aux_info.entry true)))) }
{
    calls_answer_alike();
    match matcher.start_with(name, ns, aux_info) {
        Ok(asked) => report_of(alloc, matcher, asked),
        Err(error) => Err(error),
    }
}

/// Answers a start tag, whose attributes aren't handed over.
fn answer_unfinished(
    alloc: Global,
    matcher: &mut Matcher,
    name: &[u8],
    ns: Namespace,
) -> Result<TagReport, MatcherError>
    ensures answers { IfOk result (λ report. ForTold matcher.old (λ ast esi a events.
        ForUnfinished name.now ns (λ tag. AnswersOne ast esi a events (Start tag) report matcher.new))) }
    ensures refused { IfErr result (λ error. ForTold matcher.old (λ ast esi a events.
        ForUnfinished name.now ns (λ tag. RefusesEvent error ast esi a events (Start tag)))) }
{
    calls_answer_alike();
    match matcher.start(name, ns) {
        Ok(Started::Reported) => report_of(alloc, matcher, false),
        Ok(Started::NeedsAttributes) => Ok(TagReport::Dropped),
        Err(error) => Err(error),
    }
}

/// What the last start tag was reported under, and what was tried for it.
fn report_of(alloc: Global, matcher: &Matcher, asked: bool) -> Result<TagReport, MatcherError>
    ensures report { IfOk result (λ report. answer_of report ≡ reported_as asked matcher.now) }
    ensures memory { IfErr result (λ error. error ≡ MatcherError.Memory) }
{
    match matcher.matches().to_vec(alloc) {
        Ok(matched) => Ok(TagReport::Started {
            asked,
            matched,
            tries: matcher.machine().tries(),
        }),
        Err(_) => Err(MatcherError::Memory),
    }
}

/// Answers an end tag with the numbers of the elements that it closes, the outermost first.
fn answer_end(alloc: Global, matcher: &mut Matcher, name: &[u8]) -> Result<TagReport, MatcherError>
    ensures answers { IfOk result (λ report. ForTold matcher.old (λ ast esi a events.
        AnswersOne ast esi a events (End name.now) report matcher.new)) }
    ensures memory { IfErr result (λ error. error ≡ MatcherError.Memory) }
{
    documents_are_ordered();
    calls_answer_alike();
    let mut collected = Collected::new(alloc);
    let mut handler = |element: OpenElement<()>|
        ensures { Collects collected.entry element.number collected.exit }
    {
        collected.keep(element.number);
    };
    matcher.end_with(name, &mut handler);
    let Collected { items, refused } = collected;
    if refused {
        return Err(MatcherError::Memory);
    }
    Ok(TagReport::Ended { closed: items })
}
