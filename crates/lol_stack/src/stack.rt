//! The open elements.

ghost use Rattle.std.specs.Prelude.{◌≡◌, ◌*◌, ◌<◌, ◌≤◌, ◌-◌, ◌↔◌, length, OnOk, OnErr, IsOk, IsSome, IsNone, IsTrue, IfSome, IsErrOf, slice_get, Ok, Err, Some, None, List, [], ℕ, drop, take, map, if◌then◌else◌};
ghost use Rattle.std.specs.Option.{option_copied, option_copied_mut, option_map};
ghost use Rattle.std.specs.Borrow.{sem};
ghost use Rattle.lol_base.specs.LocalNames.{Name, local_name};
ghost use Rattle.lol_stack.specs.NameMaps.{StandsInMap};
ghost use Rattle.lol_memory.specs.Limiter.{charged};
ghost use Rattle.lol_memory.specs.LimitedVec.{with_items, grown_slots, IsLimited};
ghost use Rattle.lol_instructions.specs.Counters.{full_count};
ghost use Rattle.lol_stack.specs.Calls.{IsCalledAtEach};
ghost use Rattle.lol_stack.specs.StackLending.{lends_current};
ghost use Rattle.lol_stack.specs.Directives.{directive_in};
ghost use Rattle.lol_stack.specs.OpenDepths.{depths_of};
ghost use Rattle.lol_stack.specs.Stacks.{items_in, list_in, slots_in, item_bytes_in, root_count, active_in, last_count, child_counted, typed_in, depths_in, typed_count, counted_in, counted_if_kept, element_data_of, closed_from, depth_to_close, IsSame, IsPushed, IsEnded, KeepsSlots, without_depths};

use crate::active_ranges::ActiveRanges;
use crate::counters::TypedChildCounterMap;
use crate::directive::directive_of;
use crate::name_map::NamePlace;
use crate::open_names::OpenNames;
use crate::stack_item::{StackDirective, StackItem, StackItemOf};
use lol_base::{LocalName, Namespace};
use lol_instructions::{AddressRange, ChildCounter, SelectorState};
use lol_memory::{LimitedVec, MemoryLimitExceededError, PushError, SharedMemoryLimiter};
use std::alloc::{AllocError, Global};
use thiserror::Error;

/// The open elements: see `Stack`.
pub struct StackOf<N, M, E> {
    root_child_counter: ChildCounter,
    items: LimitedVec<StackItemOf<N, E>>,
    active_hereditary_jumps: ActiveRanges,
    names: M,
}

/// What is kept of the names of the open elements and of their children.
#[derive(Drop)]
pub struct StackNames {
    typed_child_counters: Option<TypedChildCounterMap>,
    open_names: OpenNames,
    alloc: Global,
}

/// The open elements, the outermost first, with the counters of their children (lol_html's `Stack`). It can't be dropped: it is given to
/// `release`, with the limiter that its pushes were lent, or to `discard`, where that limiter ends too.
pub type Stack<E> = StackOf<LocalName<'static>, StackNames, E>;

/// Why a child wasn't counted. (Not in lol_html.)
#[derive(Debug, Drop, Error)]
pub enum AddChildError {
    /// The parent's counter is full.
    #[error("an element has as many children as can be counted")]
    CounterFull,
    /// The memory for a counter isn't there.
    #[error(transparent)]
    Memory(AllocError),
}

impl<N, M, E> StackOf<N, M, E> {
    /// The data of the last open element, to be changed in place; none exactly if no element is open.
    pub fn current_element_data_mut(&mut self) -> Option<&mut E>
        ensures* lends { sem 𝓛 (lends_current N.row M.row E.row self.entry result) }
        ensures value { option_copied_mut result
            ≡ option_map (λ item. item.element_data) (slice_get (items_in self.old) (length (items_in self.old) - 1)) }
        ensures some { IsSome result ↔ (0 < length (items_in self.old)) }
    {
        match self.items.last_mut() {
            Some(item) => Some(item.element_data_mut()),
            None => None,
        }
    }

    /// The open elements, the outermost first.
    pub fn items(&self) -> &[StackItemOf<N, E>]
        ensures { result.now ≡ items_in self.now }
    {
        self.items.as_slice()
    }

    /// The distinct hereditary ranges of the open elements, in the order in which they first came, each with the depth of the first
    /// element that has it.
    pub fn active_hereditary_jumps(&self) -> &[(AddressRange, usize)]
        ensures { result.now ≡ active_in self.now }
    {
        self.active_hereditary_jumps.as_slice()
    }

    /// The number of elements that there is room for, all of them charged. (Not in lol_html.)
    pub fn charged_slots(&self) -> usize
        ensures { result ≡ slots_in self.now }
    {
        self.items.slots()
    }

    /// The counter of the last open element, or of the root.
    fn child_counter(&self) -> &ChildCounter
        ensures { result.now ≡ last_count self.now }
    {
        match self.items.last() {
            Some(item) => &item.child_counter,
            None => &self.root_child_counter,
        }
    }

    /// Counts one more child of the last open element, or of the root.
    fn count_child(&mut self)
        requires { last_count self.old < full_count }
        ensures { self.new ≡ child_counted self.old }
    {
        match self.items.last_mut() {
            Some(item) => item.child_counter.inc(),
            None => self.root_child_counter.inc(),
        }
    }
}

impl<E> StackOf<LocalName<'static>, StackNames, E> {
    /// No open elements, and no slots. It takes no memory. Children are counted by type too if `enable_nth_of_type` is true.
    pub fn new(alloc: Global, item_bytes: usize, enable_nth_of_type: bool) -> Self
        requires { 0 < item_bytes }
        ensures items { list_in result ≡ record { items = []; slots = 0; item_bytes = item_bytes } }
        ensures root { root_count result ≡ 0 }
        ensures active { active_in result ≡ [] }
        ensures typed { typed_in result ≡ (if enable_nth_of_type then Some [] else None) }
        ensures depths { (q : Name) → depths_in result q ≡ [] }
    {
        StackOf {
            root_child_counter: ChildCounter::default(),
            items: LimitedVec::new(alloc, item_bytes),
            active_hereditary_jumps: ActiveRanges::new(alloc),
            names: StackNames::new(alloc, enable_nth_of_type),
        }
    }

    /// Counts a child of this name of the last open element, or of the root. It answers `CounterFull` exactly if the parent's counter is
    /// full, and `Memory` only where the memory for a counter by type isn't there: never where children aren't counted by type. Refused,
    /// nothing has changed.
    #[inline(always)]
    pub fn add_child(&mut self, name: &LocalName<'_>) -> Result<(), AddChildError>
        ensures ok { OnOk result (self.new ≡ counted_in self.old name.now) }
        ensures slots { KeepsSlots self.old self.new }
        ensures full { (result ≡ Err AddChildError.CounterFull) ↔ (last_count self.old ≡ full_count) }
        ensures room { OnOk result (last_count self.old < full_count) }
        ensures no_memory { IsNone (typed_in self.old) → OnErr result (result ≡ Err AddChildError.CounterFull) }
        ensures err { OnErr result (self.new ≡ self.old) }
    {
        if self.child_counter().is_full() {
            return Err(AddChildError::CounterFull);
        }
        let level = self.items.len();
        if let Err(error) = self.names.count_child(name, level) {
            return Err(AddChildError::Memory(error));
        }
        self.count_child();
        Ok(())
    }

    /// The counters that a child of this name, once it is counted, is tested by. It takes no memory.
    #[inline(always)]
    pub fn build_state<'s, 'i: 's>(&'s self, name: &LocalName<'i>) -> SelectorState<'s>
        ensures cumulative { result.cumulative.now ≡ last_count self.now }
        ensures typed { option_copied result.typed ≡ typed_count self.now name.now }
    {
        SelectorState {
            cumulative: self.child_counter(),
            typed: self.names.typed_counter(name, self.items.len()),
        }
    }

    /// Opens an element: it comes last, and the slots that are wanted are charged. It is refused with `Limit` exactly if these can't be
    /// charged, which is judged before any memory is taken, and with `Memory` only where memory isn't there. Refused, stack and limiter
    /// are as before, and the element is dropped.
    #[inline(always)]
    pub fn push_item(
        &mut self,
        item: StackItem<'_, E>,
        limiter: &mut SharedMemoryLimiter,
    ) -> Result<(), PushError>
    where
        E: Drop,
        ensures ok { OnOk result (IsPushed self.old item.entry self.new) }
        ensures charged { OnOk result (limiter.new
            ≡ charged limiter.old (grown_slots (list_in self.old) * item_bytes_in self.old)) }
        ensures limited { IsErrOf result (PushError.Limit (record {})) ↔ IsLimited (list_in self.old) limiter.old }
        ensures unlimited { OnOk result (IsLimited (list_in self.old) limiter.old → ⊥) }
        ensures err { OnErr result (IsSame self.old self.new) }
        ensures err_limiter { OnErr result (limiter.new ≡ limiter.old) }
    {
        if self.items.is_limited(limiter) {
            return Err(PushError::Limit(MemoryLimitExceededError));
        }
        let depth = self.items.len();
        let active = self.active_hereditary_jumps.len();
        let name = match item.local_name.try_clone(self.names.alloc) {
            Ok(name) => name,
            Err(error) => return Err(PushError::Memory(error)),
        };
        let ranges = item.hereditary_jumps.as_slice();
        if let Err(error) = self.active_hereditary_jumps.activate(ranges, depth) {
            return Err(PushError::Memory(error));
        }
        if let Err(error) = self.names.open_names.add(&name, depth) {
            self.active_hereditary_jumps.truncate(active);
            return Err(PushError::Memory(error));
        }
        if let Err(error) = self.items.make_room(limiter) {
            self.names.open_names.remove(&name);
            self.active_hereditary_jumps.truncate(active);
            return Err(error);
        }
        self.items.push_reserved(item.with_name(name));
        Ok(())
    }

    /// The last open element of a name: where its name stands among the open names, and its depth.
    fn element_to_close(&self, name: &LocalName<'_>) -> Option<(NamePlace, usize)>
        ensures value { option_map (λ found. found.1) result ≡ depth_to_close self.now name.now }
        ensures stands { IfSome result (λ found. StandsInMap self.now.names.open_names.map name.now found.0) }
        ensures within { IfSome result (λ found. found.1 < length (items_in self.now)) }
    {
        let at = self.names.open_names.find(name)?;
        let (depth, _) = self.names.open_names.depths_at(at).split_last()?;
        if *depth < self.items.len() {
            Some((at, *depth))
        } else {
            None
        }
    }

    /// Closes the last open element of a name and all inside it, and calls the handler with their data, the outermost first. Where no
    /// element of the name is open, nothing changes. It takes no memory; a stray end tag costs one look-up.
    pub fn pop_up_to<F: FnMut(E)>(&mut self, local_name: LocalName<'_>, handler: &mut F)
    where
        E: Drop,
        requires { F.IsAlwaysCallable handler.old }
        ensures again { F.IsAlwaysCallable handler.new }
        ensures ended { IsEnded self.old local_name.entry self.new }
        ensures slots { KeepsSlots self.old self.new }
        ensures called { IsCalledAtEach F.step handler.old
            (element_data_of (closed_from (depth_to_close self.old local_name.entry) (items_in self.old))) handler.new }
    {
        let Some((at, depth)) = self.element_to_close(&local_name) else {
            return;
        };
        let closed = &self.items.as_slice()[depth..];
        self.names.close(closed, depth, &local_name, at);
        self.active_hereditary_jumps.cut(depth);
        hand_out(&mut self.items, depth, handler);
    }

    /// Drops the elements. The usage of the limiter stays as it is: for a limiter that ends with the stack. (Not in lol_html.)
    pub fn discard(self)
    where
        E: Drop,
    {
        let StackOf {
            root_child_counter: _,
            items,
            active_hereditary_jumps: _,
            names: _,
        } = self;
        items.discard();
    }

    /// Drops the elements, and lowers the usage by the charge of the slots. (Not in lol_html.)
    pub fn release(self, limiter: &mut SharedMemoryLimiter)
    where
        E: Drop,
        requires { slots_in self * item_bytes_in self ≤ limiter.old.usage }
        ensures { limiter.new
            ≡ record limiter.old { usage = limiter.old.usage - slots_in self.entry * item_bytes_in self.entry } }
    {
        let StackOf {
            root_child_counter: _,
            items,
            active_hereditary_jumps: _,
            names: _,
        } = self;
        items.release(limiter);
    }

    /// What becomes of an element by its name and namespace, before it is known whether its tag closes itself. It takes no memory.
    #[inline(always)]
    pub fn get_stack_directive(
        item: &StackItem<'_, E>,
        ns: Namespace,
        enable_esi_tags: bool,
    ) -> StackDirective
        ensures { (bytes : List ℕ) → item.now.local_name ≡ local_name bytes
            → result ≡ directive_in ns enable_esi_tags bytes }
    {
        directive_of(&item.local_name, ns, enable_esi_tags)
    }

    /// The depths of the open elements of a name, ascending, from 0. It takes no memory. (Not in lol_html.)
    pub fn open_places<'s, 'i: 's>(&'s self, name: &LocalName<'i>) -> &'s [usize]
        ensures { result.now ≡ depths_in self.now name.now }
    {
        self.names.open_names.depths(name)
    }
}

impl StackNames {
    ghost use Rattle.std.specs.Prelude.{OnOk};
    ghost use Rattle.lol_stack.specs.TypedCounts.{cut_to};
    ghost use Rattle.lol_stack.specs.Stacks.{count_by_type};
    ghost use Rattle.lol_stack.specs.OpenDepths.{depths_of};
    ghost use Rattle.lol_stack.specs.NameMaps.{StandsInMap};

    fn new(alloc: Global, enable_nth_of_type: bool) -> Self
        ensures typed { result.typed_child_counters ≡ (if enable_nth_of_type then Some [] else None) }
        ensures depths { (q : Name) → depths_of result.open_names q ≡ [] }
    {
        let typed_child_counters = if enable_nth_of_type {
            Some(TypedChildCounterMap::new(alloc))
        } else {
            None
        };
        StackNames {
            typed_child_counters,
            open_names: OpenNames::new(alloc),
            alloc,
        }
    }

    /// Counts a child by type at a level, where children are counted so.
    #[inline(always)]
    fn count_child(&mut self, name: &LocalName<'_>, level: usize) -> Result<(), AllocError>
        ensures ok { OnOk result (self.new ≡ counted_if_kept self.old level name.now) }
        ensures no_memory { IsNone self.old.typed_child_counters → IsOk result }
        ensures err { OnErr result (self.new ≡ self.old) }
    {
        match &mut self.typed_child_counters {
            Some(counters) => counters.add_child(name, level),
            None => Ok(()),
        }
    }

    /// Takes the depths of closed elements off, and drops the counters by type of the levels above `depth`. The name that closed them
    /// stands at `at`; it is the outermost one's, which so needs no look-up.
    fn close<E>(
        &mut self,
        closed: &[StackItem<'static, E>],
        depth: usize,
        name: &LocalName<'_>,
        at: NamePlace,
    )
        requires { StandsInMap self.old.open_names.map name.now at }
        ensures typed { self.new.typed_child_counters ≡ option_map (cut_to depth) self.old.typed_child_counters }
        ensures depths { (q : Name) → depths_of self.new.open_names q
            ≡ without_depths closed.now q (depths_of self.old.open_names q) }
    {
        if let Some(counters) = &mut self.typed_child_counters {
            counters.pop_to(depth);
        }
        let Some((outermost, inside)) = closed.split_first() else {
            return;
        };
        self.open_names
            .remove_found(&outermost.local_name, name, at);
        for item in inside {
            self.open_names.remove(&item.local_name);
        }
    }

    #[inline(always)]
    fn typed_counter<'s, 'i: 's>(
        &'s self,
        name: &LocalName<'i>,
        level: usize,
    ) -> Option<&'s ChildCounter>
        ensures { option_copied result ≡ count_by_type self.now.typed_child_counters level name.now }
    {
        match &self.typed_child_counters {
            Some(counters) => counters.get(name, level),
            None => None,
        }
    }
}

/// Takes the elements from a depth on out, and calls the handler with their data, in order.
fn hand_out<N: Drop, E: Drop, F: FnMut(E)>(
    items: &mut LimitedVec<StackItemOf<N, E>>,
    depth: usize,
    handler: &mut F,
)
    requires callable { F.IsAlwaysCallable handler.old }
    requires inside { depth ≤ length items.old.items }
    ensures again { F.IsAlwaysCallable handler.new }
    ensures kept { items.new ≡ with_items items.old (take depth items.old.items) }
    ensures called { IsCalledAtEach F.step handler.old (element_data_of (drop depth items.old.items)) handler.new }
{
    let end = items.len();
    for item in items.drain(depth..end) {
        handler(item.element_data);
    }
}
