//! Element data, reports without memory, and releases.

ghost use Rattle.std.specs.Prelude.{◌≡◌};
ghost use Rattle.lol_stack.specs.Stacks.{item_bytes_in};
ghost use Rattle.lol_machine.specs.Vms.{slot_bytes};

use lol_vm::{ElementValue, MatchInfo, SelectorMatchingVm, SharedMemoryLimiter, Stack};

/// How many bytes an open element is charged for: with 1, a list has 128 slots at first.
pub(crate) const ITEM_BYTES: usize = 1;

/// The ids of an open element.
pub(crate) type Element = ElementValue<()>;

/// The first ids that a handler was called with, and how many calls there were.
#[derive(Drop)]
pub(crate) struct Calls {
    ids: [u32; 8],
    kept: usize,
    pub(crate) count: u32,
    pub(crate) with_content: bool,
}

impl Calls {
    pub(crate) fn none() -> Self {
        Calls {
            ids: [0; 8],
            kept: 0,
            count: 0,
            with_content: true,
        }
    }

    fn keep(&mut self, id: u32) {
        if self.kept < 8 {
            self.ids[self.kept] = id;
            self.kept += 1;
        }
    }

    pub(crate) fn keep_info(&mut self, info: MatchInfo) {
        self.keep(info.match_id);
        self.with_content = info.with_content;
        self.count = self.count.saturating_add(1);
    }

    pub(crate) fn keep_element(&mut self, element: Element) {
        for id in element.matched_ids.iter() {
            self.keep(id);
        }
        self.count = self.count.saturating_add(1);
    }

    pub(crate) fn ids(&self) -> &[u32] {
        &self.ids[..self.kept.min(8)]
    }
}

/// Releases a machine: whether the limiter's usage is then so much.
pub(crate) fn release(
    vm: SelectorMatchingVm<Element>,
    limiter: &mut SharedMemoryLimiter,
    usage: usize,
) -> bool
    requires { slot_bytes vm ≡ 1 }
{
    let slots = vm.charged_slots();
    if slots <= limiter.current_usage() {
        vm.release(limiter);
        return limiter.current_usage() == usage;
    }
    let mut enough = SharedMemoryLimiter::new(slots);
    match enough.increase_usage(slots) {
        Ok(()) => vm.release(&mut enough),
        Err(_) => unreachable!(),
    }
    false
}

/// Releases a stack: whether the limiter's usage is then 0.
pub(crate) fn release_stack(stack: Stack<Element>, limiter: &mut SharedMemoryLimiter) -> bool
    requires { item_bytes_in stack ≡ 1 }
{
    let slots = stack.charged_slots();
    if slots <= limiter.current_usage() {
        stack.release(limiter);
        return limiter.current_usage() == 0;
    }
    let mut enough = SharedMemoryLimiter::new(slots);
    match enough.increase_usage(slots) {
        Ok(()) => stack.release(&mut enough),
        Err(_) => unreachable!(),
    }
    false
}
