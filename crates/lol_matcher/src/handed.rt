//! What a machine answers to a start tag whose attributes are at hand.

ghost use Rattle.std.specs.Prelude.{◌≡◌, OnOk, OnErr, IfOk, IfErr, vec_capacity};
ghost use Rattle.lol_base.specs.StartTags.{RangesAreInside};
ghost use Rattle.lol_matcher.specs.Keeping.{ForHandedTag, ForTag, IsCharged, IsToldAs, allowed};
ghost use Rattle.lol_matcher.specs.Refusing.{IsRefusedFor, refusal_after};
ghost use Rattle.lol_machine.specs.Answers.{document};
ghost use Rattle.lol_machine.specs.FreeTags.{AreFlat};
ghost use Rattle.lol_machine.specs.ReportRoom.{HoldsEachReport, TakesInRoom};
ghost use Rattle.lol_machine.specs.Vms.{HasOpen, IsTriedAtMost, data_in, is_asked_for, slot_bytes, tries_in, NeedsRest};

use crate::error::MatcherError;
use crate::laws::run_laws;
use crate::open_element::OpenElement;
use crate::tags::number_opened;
use lol_base::{AuxStartTagInfo, LocalName, Namespace};
use lol_machine::{SelectorMatchingVm, VmError};
use lol_memory::{MatchInfo, SharedMemoryLimiter};

/// A start tag that was reported: whether its attributes were asked for, and whether its element was opened.
#[derive(Clone, Copy)]
pub(crate) struct HandedTag {
    pub asked: bool,
    pub opened: bool,
}

/// Tells the machine of a start tag whose attributes are at hand, and keeps what it is reported under.
pub(crate) fn hand_tag<T: Drop>(
    vm: &mut SelectorMatchingVm<OpenElement<T>>,
    limiter: &mut SharedMemoryLimiter,
    name: &[u8],
    ns: Namespace,
    aux_info: AuxStartTagInfo<'_>,
    number: usize,
    matches: &mut Vec<MatchInfo>,
) -> Result<HandedTag, MatcherError>
    requires { RangesAreInside aux_info }
    ensures told { IfOk result (λ handed.
        ForHandedTag vm.old limiter.old name.now ns aux_info.entry (λ s esi events tag.
        HoldsEachReport s (vec_capacity matches.old) → IsToldAs s esi events tag (is_asked_for s esi events tag)
        number handed.opened matches.new.items (allowed vm.old limiter.old) vm.old vm.new limiter.new)) }
    ensures asked { IfOk result (λ handed.
        ForHandedTag vm.old limiter.old name.now ns aux_info.entry (λ s esi events tag.
        handed.asked ≡ is_asked_for s esi events tag)) }
    ensures room { OnOk result (ForHandedTag vm.old limiter.old name.now ns aux_info.entry (λ s esi events tag.
        HoldsEachReport s (vec_capacity matches.old) → HoldsEachReport s (vec_capacity matches.new))) }
    ensures refused { IfErr result (λ error.
        ForHandedTag vm.old limiter.old name.now ns aux_info.entry (λ s esi events tag.
        IsRefusedFor error (AreFlat s) (refusal_after s esi (allowed vm.old limiter.old) events tag))) }
    ensures unchanged { OnErr result (ForTag vm.old limiter.old name.now ns (λ s esi events tag.
        data_in vm.new ≡ data_in vm.old)) }
    ensures still_open { OnErr result (ForTag vm.old limiter.old name.now ns (λ s esi events tag.
        HasOpen vm.new (document s esi events).open_elements)) }
    ensures tried { ForTag vm.old limiter.old name.now ns (λ s esi events tag. NeedsRest s aux_info.entry tag
        → IsTriedAtMost s esi events tag (tries_in vm.new)) }
    ensures charged { IsCharged vm.old limiter.old → IsCharged vm.new limiter.new }
    ensures bytes { slot_bytes vm.new ≡ slot_bytes vm.old }
    ensures maximum { limiter.new.maximum ≡ limiter.old.maximum }
{
    run_laws::<OpenElement<T>>();
    matches.clear();
    let open_before = vm.open_elements();
    let mut handler = |info: MatchInfo|
        ensures { TakesInRoom matches.entry.now info matches.exit.now }
    {
        if matches.len() < matches.capacity() {
            matches.push_reserved(info);
        }
    };
    let local_name = LocalName::new(name);
    match vm.exec_for_whole_start_tag(local_name, ns, aux_info, limiter, &mut handler) {
        Ok(asked) => Ok(HandedTag {
            asked,
            opened: number_opened(vm, open_before, number),
        }),
        Err(VmError::InfoRequest(_)) => unreachable!(),
        Err(VmError::MemoryLimitExceeded(_)) => Err(MatcherError::MemoryLimitExceeded),
        Err(VmError::CounterFull) => Err(MatcherError::CounterFull),
        Err(VmError::Memory(_)) => Err(MatcherError::Memory),
        Err(VmError::Failed) => Err(MatcherError::Failed),
    }
}
