//! What a machine answers to one tag.

ghost use Rattle.std.specs.Prelude.{◌≡◌, ◌++◌, ◌∷◌, [], List, Bool, true, None, OnOk, OnErr, IfOk, IfErr, drop, length, take, vec_capacity};
ghost use Rattle.lol_base.specs.StartTags.{StartTag, RangesAreInside};
ghost use Rattle.lol_instructions.specs.Tests.{Element};
ghost use Rattle.lol_memory.specs.Limiter.{Limiter};
ghost use Rattle.lol_program.specs.Paths.{Selectors};
ghost use Rattle.lol_stack.specs.Calls.{IsCalledAtEach};
ghost use Rattle.lol_matcher.specs.Keeping.{ForRequest, ForTag, KeepsOpen, KeepsRunning, NumbersOpened, Runs, Tells, IsCharged, IsToldAs, allowed, count_with, ids_of};
ghost use Rattle.lol_matcher.specs.Answering.{last_value, with_last_number, with_value};
ghost use Rattle.lol_matcher.specs.Refusing.{IsRefusedFor, refusal_after};
ghost use Rattle.lol_machine.specs.Events.{Event, End};
ghost use Rattle.lol_machine.specs.FreeTags.{AreFlat, RunsWithoutMemory};
ghost use Rattle.lol_machine.specs.ReportRoom.{HoldsEachReport, TakesInRoom};
ghost use Rattle.lol_machine.specs.Vms.{HasOpen, IsPending, IsTriedAtMost, data_in, open_after, slot_bytes, tries_in, NeedsRest};

use crate::error::MatcherError;
use crate::laws::{data_laws, run_laws};
use crate::open_element::OpenElement;
use lol_base::{AuxStartTagInfo, LocalName, Namespace};
use lol_machine::{AuxStartTagInfoRequest, SelectorMatchingVm, VmError};
use lol_memory::{MatchInfo, PushError, SharedMemoryLimiter};
use std::mem;

/// What is answered to a start tag.
#[derive(Drop)]
pub(crate) enum Answered<T> {
    /// It is reported, and its element was opened or not.
    Reported(bool),
    Asked(AuxStartTagInfoRequest<OpenElement<T>>),
}

/// Tells the machine of a start tag, and keeps what it is reported under: all of it, where the list has room for each report.
pub(crate) fn start_tag<T: Drop>(
    vm: &mut SelectorMatchingVm<OpenElement<T>>,
    limiter: &mut SharedMemoryLimiter,
    name: &[u8],
    ns: Namespace,
    number: usize,
    matches: &mut Vec<MatchInfo>,
) -> Result<Answered<T>, MatcherError>
    ensures told { IfOk result (λ answered. ForTag vm.old limiter.old name.now ns (λ s esi events tag.
        HoldsEachReport s (vec_capacity matches.old) → Tells s esi events tag number answered matches.new.items
        (allowed vm.old limiter.old) vm.old vm.new limiter.new)) }
    ensures room { IfOk result (λ answered. ForTag vm.old limiter.old name.now ns (λ s esi events tag.
        HoldsEachReport s (vec_capacity matches.old) → HoldsEachReport s (vec_capacity matches.new))) }
    ensures refused { IfErr result (λ error. ForTag vm.old limiter.old name.now ns (λ s esi events tag.
        IsRefusedFor error (RunsWithoutMemory s esi events tag)
        (refusal_after s esi (allowed vm.old limiter.old) events tag))) }
    ensures unchanged { OnErr result (data_in vm.new ≡ data_in vm.old) }
    ensures still_open { OnErr result (KeepsOpen vm.old vm.new) }
    ensures tried { ForTag vm.old limiter.old name.now ns (λ s esi events tag.
        IsTriedAtMost s esi events tag (tries_in vm.new)) }
    ensures charged { IsCharged vm.old limiter.old → IsCharged vm.new limiter.new }
    ensures bytes { slot_bytes vm.new ≡ slot_bytes vm.old }
    ensures maximum { limiter.new.maximum ≡ limiter.old.maximum }
{
    run_laws::<OpenElement<T>>();
    matches.clear();
    let open_before = vm.open_elements();
    let mut handler = |info: MatchInfo|
        ensures { TakesInRoom matches.entry.now info matches.exit.now }
    {
        if matches.len() < matches.capacity() {
            matches.push_reserved(info);
        }
    };
    match vm.exec_for_start_tag(LocalName::new(name), ns, limiter, &mut handler) {
        Ok(()) => Ok(Answered::Reported(number_opened(vm, open_before, number))),
        Err(VmError::InfoRequest(request)) => Ok(Answered::Asked(request)),
        Err(VmError::MemoryLimitExceeded(_)) => Err(MatcherError::MemoryLimitExceeded),
        Err(VmError::CounterFull) => Err(MatcherError::CounterFull),
        Err(VmError::Memory(_)) => Err(MatcherError::Memory),
        Err(VmError::Failed) => Err(MatcherError::Failed),
    }
}

/// Finishes a start tag with its attributes, and keeps what it is reported under: whether its element was opened.
pub(crate) fn finish_tag<T: Drop>(
    vm: &mut SelectorMatchingVm<OpenElement<T>>,
    limiter: &mut SharedMemoryLimiter,
    request: AuxStartTagInfoRequest<OpenElement<T>>,
    aux_info: AuxStartTagInfo<'_>,
    number: usize,
    matches: &mut Vec<MatchInfo>,
) -> Result<bool, MatcherError>
    requires { RangesAreInside aux_info }
    ensures told { IfOk result (λ opened. ForRequest vm.old limiter.old request aux_info.entry (λ s esi events tag.
        HoldsEachReport s (vec_capacity matches.old) → IsToldAs s esi events tag true number opened matches.new.items
        (allowed vm.old limiter.old) vm.old vm.new limiter.new)) }
    ensures room { OnOk result (ForRequest vm.old limiter.old request aux_info.entry (λ s esi events tag.
        HoldsEachReport s (vec_capacity matches.old) → HoldsEachReport s (vec_capacity matches.new))) }
    ensures refused { IfErr result (λ error. ForRequest vm.old limiter.old request aux_info.entry (λ s esi events tag.
        IsRefusedFor error (AreFlat s) (refusal_after s esi (allowed vm.old limiter.old) events tag))) }
    ensures unchanged { OnErr result (data_in vm.new ≡ data_in vm.old) }
    ensures still_open { OnErr result (KeepsOpen vm.old vm.new) }
    ensures tried { (s : Selectors) (esi : Bool) (events : List Event) (tag : StartTag)
        → IsPending ids_of s esi events tag vm.old request → NeedsRest s aux_info.entry tag
        → IsTriedAtMost s esi events tag (tries_in vm.new) }
    ensures charged { IsCharged vm.old limiter.old → IsCharged vm.new limiter.new }
    ensures bytes { slot_bytes vm.new ≡ slot_bytes vm.old }
    ensures maximum { limiter.new.maximum ≡ limiter.old.maximum }
{
    run_laws::<OpenElement<T>>();
    matches.clear();
    let open_before = vm.open_elements();
    let mut handler = |info: MatchInfo|
        ensures { TakesInRoom matches.entry.now info matches.exit.now }
    {
        if matches.len() < matches.capacity() {
            matches.push_reserved(info);
        }
    };
    match vm.finish_start_tag(request, aux_info, limiter, &mut handler) {
        Ok(()) => Ok(number_opened(vm, open_before, number)),
        Err(PushError::Limit(_)) => Err(MatcherError::MemoryLimitExceeded),
        Err(PushError::Memory(_)) => Err(MatcherError::Memory),
    }
}

/// Drops a request that waits: its tag is one of those that were told.
#[inline(always)]
pub(crate) fn drop_request<T: Drop>(
    request: &mut Option<AuxStartTagInfoRequest<OpenElement<T>>>,
    tags_told: &mut usize,
)
    ensures dropped { request.new ≡ None }
    ensures counted { tags_told.new ≡ count_with request.old tags_told.old }
{
    if request.is_some() {
        *request = None;
        *tags_told = tags_told.saturating_add(1);
    }
}

/// Numbers the last open element, if more elements are open than before, and leaves it without a value: whether they are.
pub(crate) fn number_opened<T: Drop>(
    vm: &mut SelectorMatchingVm<OpenElement<T>>,
    open_before: usize,
    number: usize,
) -> bool
    ensures { NumbersOpened open_before number result vm.old vm.new }
{
    if vm.open_elements() <= open_before {
        return false;
    }
    number_last(vm, number);
    true
}

/// Numbers the last open element, and leaves it without a value.
fn number_last<T: Drop>(vm: &mut SelectorMatchingVm<OpenElement<T>>, number: usize)
    ensures running { KeepsRunning vm.old vm.new }
    ensures changed { data_in vm.new ≡ with_last_number number (data_in vm.old) }
{
    data_laws::<OpenElement<T>>();
    if let Some(element) = vm.current_element_data_mut() {
        element.number = number;
        element.value = None;
    }
}

/// Changes the value of the last open element: the one that it had, or the new one where no element is open.
pub(crate) fn replace_value<T: Drop>(
    vm: &mut SelectorMatchingVm<OpenElement<T>>,
    value: Option<T>,
) -> Option<T>
    ensures running { KeepsRunning vm.old vm.new }
    ensures pending { (s : Selectors) (esi : Bool) (events : List Event) (tag : StartTag) (request : _)
        → IsPending ids_of s esi events tag vm.old request → IsPending ids_of s esi events tag vm.new request }
    ensures before { result ≡ last_value value (data_in vm.old) }
    ensures changed { data_in vm.new ≡ with_value value (data_in vm.old) }
{
    data_laws::<OpenElement<T>>();
    match vm.current_element_data_mut() {
        Some(element) => mem::replace(&mut element.value, value),
        None => value,
    }
}

/// Tells the machine of an end tag.
pub(crate) fn end_tag<T: Drop, F: FnMut(OpenElement<T>)>(
    vm: &mut SelectorMatchingVm<OpenElement<T>>,
    name: &[u8],
    handler: &mut F,
)
    requires { F.IsAlwaysCallable handler.old }
    ensures again { F.IsAlwaysCallable handler.new }
    ensures runs { (s : Selectors) (esi : Bool) (events : List Event) (limiter : Limiter)
        → Runs s esi events vm.old limiter → Runs s esi (events ++ End name.now ∷ []) vm.new limiter }
    ensures still_open { (elements : List Element) → HasOpen vm.old elements
        → HasOpen vm.new (open_after name.now elements) }
    ensures kept { (elements : List Element) → HasOpen vm.old elements
        → data_in vm.new ≡ take (length (open_after name.now elements)) (data_in vm.old) }
    ensures called { (elements : List Element) → HasOpen vm.old elements
        → IsCalledAtEach F.step handler.old (drop (length (open_after name.now elements))
        (data_in vm.old)) handler.new }
    ensures charged { (limiter : Limiter) → IsCharged vm.old limiter → IsCharged vm.new limiter }
    ensures bytes { slot_bytes vm.new ≡ slot_bytes vm.old }
    ensures tries { tries_in vm.new ≡ tries_in vm.old }
{
    run_laws::<OpenElement<T>>();
    vm.exec_for_end_tag(LocalName::new(name), handler);
}
