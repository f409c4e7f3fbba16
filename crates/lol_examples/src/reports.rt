//! A whole list of tags, whose reports a handler is called with.

ghost use Rattle.std.specs.Prelude.{false, OnOk, IfErr, map, take, All};
ghost use Rattle.lol_vm.specs.Handlers.{IsCalledWithAnswers};
ghost use Rattle.lol_machine.specs.Views.{selectors};
ghost use Rattle.lol_vm.specs.TagEvents.{HasRangesInside, event_of};

use lol_vm::{Ast, RunStop, SharedMemoryLimiter, TagEvent, TagReport, match_each_event};
use std::alloc::Global;

/// Calls the handler with the report of each tag, in order. Each open element is charged for 64 bytes, up to a megabyte.
///
/// # Errors
/// Where a run stopped, and why. The handler was called with the reports of the tags before.
pub fn report_each<F: FnMut(TagReport)>(
    alloc: Global,
    ast: Ast,
    events: &[TagEvent],
    handler: &mut F,
) -> Result<(), RunStop>
    requires ranges { All HasRangesInside events.now }
    requires callable { F.IsAlwaysCallable handler.old }
    ensures answered { OnOk result (IsCalledWithAnswers F.step (selectors ast) false (map event_of events.now)
        handler.old handler.new) }
    ensures refused { IfErr result (λ stop. IsCalledWithAnswers F.step (selectors ast) false
        (map event_of (take stop.event events.now)) handler.old handler.new) }
{
    let mut limiter = SharedMemoryLimiter::new(1_000_000);
    match_each_event(alloc, ast, 64, false, events, &mut limiter, handler)
}
