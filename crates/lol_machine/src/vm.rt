//! The machine, tag by tag.

ghost use Rattle.std.specs.Prelude.{List, Bool, Err, ℕ, ◌≡◌, ◌≤◌, ◌<◌, ◌^◌, ◌-◌, ◌*◌, ◌↔◌, ◌⊎◌, ◌++◌, ◌∷◌, [], true, false, take, drop, length, slice_get, OnOk, OnErr, Some, None, IfOk, IfErr, IsOk, IsSome, IfSome, IsErrOf, IsNone, vec_capacity};
ghost use Rattle.std.specs.Option.{option_copied_mut, option_map};
ghost use Rattle.std.specs.Borrow.{sem};
ghost use Rattle.lol_base.specs.StartTags.{StartTag, RangesAreInside};
ghost use Rattle.lol_memory.specs.Ids.{ascending};
ghost use Rattle.lol_memory.specs.Limiter.{Limiter, charged};
ghost use Rattle.lol_memory.specs.LimitedVec.{IsLimited, grown_slots};
ghost use Rattle.lol_instructions.specs.Counters.{full_count};
ghost use Rattle.lol_program.specs.Paths.{Selectors};
ghost use Rattle.lol_instructions.specs.Tests.{Element};
ghost use Rattle.lol_instructions.specs.Tries.{names_counted, attributes_counted};
ghost use Rattle.lol_stack.specs.Calls.{IsCalledAtEach, reports};
ghost use Rattle.lol_machine.specs.Events.{Event, End, has_content};
ghost use Rattle.lol_machine.specs.FreeTags.{AreFlat, TakesNoMemory};
ghost use Rattle.lol_machine.specs.VmErrors.{IsAskedOrFull};
ghost use Rattle.lol_machine.specs.Due.{IsDue, IsNeverForMemory, IsAfterHandedReport, IsAfterReport, IsNeverPending, IsAfterWholeReport, IsWithinLimit};
ghost use Rattle.lol_machine.specs.Premises.{ForAskedOf, ForEndOf, ForHandedOf, ForPending, ForRestOf, ForTagOf};
ghost use Rattle.lol_program.specs.ProgramViews.{has_rows};
ghost use Rattle.lol_machine.specs.ReportRoom.{ids_listed};
ghost use Rattle.lol_machine.specs.TriedStarts.{IsBegun, IsCompleted, IsNewContext, IsTried, IsTriedByName, left_at};
ghost use Rattle.lol_machine.specs.SparedRuns.{HasRowRoom, stopped_by};
ghost use Rattle.lol_machine.specs.VmLending.{lends_current_of_vm};
ghost use Rattle.lol_stack.specs.Stacks.{items_in, slots_in, item_bytes_in, list_in, last_count, IsPushed, IsSame};
ghost use Rattle.lol_machine.specs.Views.{selectors};
ghost use Rattle.lol_machine.specs.Vms.{Stands, HasOpen, IsNameOf, IsTagOf, IsAnswered, IsReported, IsTriedAtMost, IsPending, IsRefusal, IsSilent, NeedsRest, content_in, open_after, stack_in, tries_in, has_failed, program_in, data_in, slots_charged, slot_bytes, ChargesSlots, IsCovered, IsRequested, IsEntered, OpensNothing, StaysFailed, is_asked_for, with_failure};

use crate::error::{AuxStartTagInfoRequest, VmError};
use crate::spared_runs::{RowSpace, find_at, find_by_name};
use crate::tag_runs::{RecoveryPoint, TagRun};
use lol_base::{AuxStartTagInfo, LocalName, Namespace};
use lol_memory::{DenseHashSet, MatchInfo, PushError, SharedMemoryLimiter};
use lol_program::{Ast, AttributeMatcher, Compiler, Program, Tries};
use lol_stack::{
    ElementData, ExecutionCtx, Stack, StackDirective, StackItem, StackItemOf, StackNames, StackOf,
};
use std::alloc::{AllocError, Global};

/// The machine: see `SelectorMatchingVm`.
pub struct VmOf<P, N, M, E> {
    program: P,
    enable_esi_tags: bool,
    stack: StackOf<N, M, E>,
    tries: Tries,
    space: RowSpace,
    failed: bool,
    alloc: Global,
}

/// Matches selectors against the start tags of a document, as its tags come (lol_html's `SelectorMatchingVm`). It can't be dropped: it is
/// given to `release`, with the limiter that its calls were lent, or to `discard`, where that limiter ends too.
pub type SelectorMatchingVm<E> = VmOf<Program, LocalName<'static>, StackNames, E>;

impl<P, N, M, E> VmOf<P, N, M, E> {
    /// Lends the data of the last open element, to be changed in place; none exactly if no element is open. Until they are changed, they
    /// hold exactly the ids that the element is reported under. What is written there changes no later report. It takes no memory.
    pub fn current_element_data_mut(&mut self) -> Option<&mut E>
        ensures* lends { sem 𝓛 (lends_current_of_vm P.row N.row M.row E.row self.entry result) }
        ensures value { option_copied_mut result ≡ option_map (λ item. item.element_data)
            (slice_get (items_in (stack_in self.old)) (length (items_in (stack_in self.old)) - 1)) }
        ensures some { IsSome result ↔ (0 < length (items_in (stack_in self.old))) }
    {
        self.stack.current_element_data_mut()
    }

    /// The instructions of the selectors. (Not in lol_html.)
    pub fn program(&self) -> &P
        ensures { result.now ≡ program_in self.now }
    {
        &self.program
    }

    /// The open elements, the outermost first, each with the ranges that it gives to those inside it. (Not in lol_html.)
    pub fn open_items(&self) -> &[StackItemOf<N, E>]
        ensures { result.now ≡ items_in (stack_in self.now) }
    {
        self.stack.items()
    }

    /// How many nodes were tried for the last start tag that wasn't answered `Failed`, its finishing included: while its request is open
    /// and after it was refused, at most those of the definition. (Not in lol_html.)
    pub fn tries(&self) -> Tries
        ensures { result ≡ tries_in self.now }
    {
        self.tries
    }

    /// The number of elements that there is room for, all of them charged. (Not in lol_html.)
    pub fn charged_slots(&self) -> usize
        ensures { result ≡ slots_in (stack_in self.now) }
    {
        self.stack.charged_slots()
    }
}

impl<E: ElementData> VmOf<Program, LocalName<'static>, StackNames, E> {
    /// A machine for the selectors of a tree, which charges `item_bytes` for each open element. With `enable_esi_tags` the names of ESI
    /// are void. It is refused where memory is.
    pub fn new(
        alloc: Global,
        ast: Ast,
        item_bytes: usize,
        enable_esi_tags: bool,
    ) -> Result<Self, AllocError>
        requires { 1 ≤ item_bytes }
        ensures stands { IfOk result (λ vm. Stands (selectors ast) enable_esi_tags vm []) }
        ensures bytes { IfOk result (λ vm. slot_bytes vm ≡ item_bytes) }
        ensures slots { IfOk result (λ vm. slots_charged vm ≡ 0) }
        ensures empty { IfOk result (λ vm. data_in vm ≡ []) }
        ensures names { IfOk result (λ vm. names_counted (tries_in vm) ≡ 0) }
        ensures attributes { IfOk result (λ vm. attributes_counted (tries_in vm) ≡ 0) }
    {
        let program = Compiler::new(alloc).compile(ast)?;
        let by_type = program.enable_nth_of_type;
        let space = RowSpace::new(alloc, &program)?;
        let stack: Stack<E> = StackOf::new(alloc, item_bytes, by_type);
        Ok(VmOf {
            program,
            enable_esi_tags,
            stack,
            tries: Tries::new(),
            space,
            failed: false,
            alloc,
        })
    }

    /// An empty list with room for every report: no start tag is reported under more ids than the nodes have. (Not in lol_html.)
    ///
    /// # Errors
    /// Out of memory.
    pub fn list_for_reports(&self) -> Result<Vec<MatchInfo>, AllocError>
        ensures empty { IfOk result (λ list. list.items ≡ []) }
        ensures room { IfOk result (λ list. vec_capacity list ≡ ids_listed (program_in self.now)) }
    {
        let mut count: usize = 0;
        for instruction in &self.program.instructions {
            let ids = count_ids(&instruction.associated_branch.matched_ids).ok_or(AllocError)?;
            count = count.checked_add(ids).ok_or(AllocError)?;
        }
        Vec::with_capacity(self.alloc, count)
    }

    /// Matches a start tag: counts it, reports it and, if its element has content, opens it.
    ///
    /// Where its attributes are needed, or it isn't of HTML, nothing is reported, and it answers a request for them: finished by
    /// `finish_start_tag`, or dropped. A dropped one leaves its element counted, unopened and unreported.
    ///
    /// # Errors
    /// `Failed` exactly after a refusal; else `CounterFull` exactly if the parent has as many children as can be counted.
    /// `MemoryLimitExceeded` exactly if, once its reports are given, the element is to be opened and can't be charged. `Memory` only if an
    /// allocation fails, before all reports, or after all of them if the element could be charged. Else `InfoRequest`, which refuses
    /// nothing. A void element of HTML takes no memory where ids are below 32 and no test is by type (`TakesNoMemory`): neither it nor its
    /// finishing is ever refused for memory. Nor is a tag that is run without memory (`RunsWithoutMemory`) and can't be charged.
    pub fn exec_for_start_tag<F: FnMut(MatchInfo)>(
        &mut self,
        local_name: LocalName<'_>,
        ns: Namespace,
        limiter: &mut SharedMemoryLimiter,
        match_handler: &mut F,
    ) -> Result<(), VmError<E>>
        requires { F.IsAlwaysCallable match_handler.old }
        ensures again { F.IsAlwaysCallable match_handler.new }
        ensures answered { OnOk result (ForTagOf self.old local_name.entry ns (λ s esi events tag.
            IsWithinLimit (has_content esi tag) self.old limiter.old
            × IsAnswered E.ids F.step s esi events tag false self.old self.new match_handler.old match_handler.new)) }
        ensures asked { (request : AuxStartTagInfoRequest E) → result ≡ Err (VmError.InfoRequest request)
            → ForTagOf self.old local_name.entry ns (λ s esi events tag.
            IsPending E.ids s esi events tag self.new request) }
        ensures charges { ChargesSlots self.old self.new limiter.old limiter.new }
        ensures left { OnErr result (OpensNothing (Some local_name.entry) self.old self.new limiter.old limiter.new) }
        ensures failed { StaysFailed (result ≡ Err VmError.Failed) self.old self.new }
        ensures full { (result ≡ Err VmError.CounterFull)
            ↔ ((has_failed self.old ≡ false) × (last_count (stack_in self.old) ≡ full_count)) }
        ensures refused { (error : VmError E) → result ≡ Err error → IsRefusal error → has_failed self.new ≡ true }
        ensures silent { (error : VmError E) → result ≡ Err error → IsSilent error
            → match_handler.new ≡ match_handler.old }
        ensures limited { IsErrOf result (VmError.MemoryLimitExceeded (record {})) → IsDue self.old limiter.old
            × ForTagOf self.old local_name.entry ns (λ s esi events tag. (has_content esi tag ≡ true)
            × IsReported F.step s esi events tag false (tries_in self.new) match_handler.old match_handler.new) }
        ensures no_memory { (error : VmError E) → result ≡ Err error
            → ForTagOf self.old local_name.entry ns (λ s esi events tag. TakesNoMemory s tag → IsAskedOrFull error) }
        ensures tried { ForTagOf self.old local_name.entry ns (λ s esi events tag.
            IsTriedAtMost s esi events tag (tries_in self.new)) }
        ensures due { (error : VmError E) → result ≡ Err error → IsDue self.old limiter.old
            → IsNeverForMemory self.old local_name.entry ns error }
        ensures all_or_none { (error : AllocError) → result ≡ Err (VmError.Memory error)
            → (match_handler.new ≡ match_handler.old)
            ⊎ IsAfterReport F.step self.old local_name.entry ns limiter.old (tries_in self.new)
            match_handler.old match_handler.new }
    {
        let mut ctx = ExecutionCtx::new(self.alloc, local_name, ns, self.enable_esi_tags);
        let begun = match self.begin(&mut ctx) {
            Ok(begun) => begun,
            Err(error) => return Err(error),
        };
        if let Some(point) = begun {
            return self.request(ctx, point);
        }
        ctx.handle_matched_ids(match_handler);
        match self.enter(ctx, limiter) {
            Ok(()) => Ok(()),
            Err(error) => Err(VmError::from(error)),
        }
    }

    /// Matches a start tag whose attributes are at hand, in one call, which makes no request: whether they were needed. Else it is as
    /// `exec_for_start_tag` and, where that asks for them, `finish_start_tag`. Each range of a name and of a value lies inside the input.
    /// (Not in lol_html.)
    ///
    /// # Errors
    /// `Failed` exactly after a refusal; else `CounterFull` exactly if the parent has as many children as can be counted.
    /// `MemoryLimitExceeded` exactly if, once its reports are given, the element is to be opened and can't be charged. `Memory` only if an
    /// allocation fails, before all reports, or after all of them if the element could be charged. A start tag that takes no memory
    /// (`TakesNoMemory`) is never refused for memory, nor is one of flat selectors (`AreFlat`) that can't be charged.
    pub fn exec_for_whole_start_tag<F: FnMut(MatchInfo)>(
        &mut self,
        local_name: LocalName<'_>,
        ns: Namespace,
        aux_info: AuxStartTagInfo<'_>,
        limiter: &mut SharedMemoryLimiter,
        match_handler: &mut F,
    ) -> Result<bool, VmError<E>>
        requires ranges { RangesAreInside aux_info }
        requires callable { F.IsAlwaysCallable match_handler.old }
        ensures again { F.IsAlwaysCallable match_handler.new }
        ensures answered { IfOk result (λ asked.
            ForAskedOf self.old local_name.entry ns asked aux_info.entry (λ s esi events tag.
            IsWithinLimit (has_content esi tag) self.old limiter.old
            × IsAnswered E.ids F.step s esi events tag asked self.old self.new match_handler.old match_handler.new)) }
        ensures charges { ChargesSlots self.old self.new limiter.old limiter.new }
        ensures left { OnErr result (OpensNothing (Some local_name.entry) self.old self.new limiter.old limiter.new) }
        ensures unasked { (request : AuxStartTagInfoRequest E) → result ≡ Err (VmError.InfoRequest request) → ⊥ }
        ensures failed { StaysFailed (result ≡ Err VmError.Failed) self.old self.new }
        ensures full { (result ≡ Err VmError.CounterFull)
            ↔ ((has_failed self.old ≡ false) × (last_count (stack_in self.old) ≡ full_count)) }
        ensures refused { OnErr result (has_failed self.new ≡ true) }
        ensures silent { (error : VmError E) → result ≡ Err error → IsSilent error
            → match_handler.new ≡ match_handler.old }
        ensures limited { IsErrOf result (VmError.MemoryLimitExceeded (record {})) → IsDue self.old limiter.old
            × ForHandedOf self.old local_name.entry ns aux_info.entry (λ s esi events tag.
            (has_content esi tag ≡ true) × IsReported F.step s esi events tag (is_asked_for s esi events tag)
            (tries_in self.new) match_handler.old match_handler.new) }
        ensures no_memory { IfErr result (λ error. ForTagOf self.old local_name.entry ns (λ s esi events tag.
            TakesNoMemory s tag → error ≡ VmError.CounterFull)) }
        ensures tried { ForTagOf self.old local_name.entry ns (λ s esi events tag. NeedsRest s aux_info.entry tag
            → IsTriedAtMost s esi events tag (tries_in self.new)) }
        ensures due { (error : AllocError) → result ≡ Err (VmError.Memory error) → IsDue self.old limiter.old
            → ForTagOf self.old local_name.entry ns (λ s esi events tag. AreFlat s → ⊥) }
        ensures all_or_none { (error : AllocError) → result ≡ Err (VmError.Memory error)
            → (match_handler.new ≡ match_handler.old)
            ⊎ IsAfterHandedReport F.step self.old local_name.entry ns aux_info.entry limiter.old (tries_in self.new)
            match_handler.old match_handler.new }
    {
        let mut ctx = ExecutionCtx::new(self.alloc, local_name, ns, self.enable_esi_tags);
        let stopped = match self.begin(&mut ctx) {
            Ok(stopped) => stopped,
            Err(error) => return Err(error),
        };
        if let Some(point) = stopped {
            return match self.finish(ctx, point, aux_info, limiter, match_handler) {
                Ok(()) => Ok(true),
                Err(error) => Err(VmError::from(error)),
            };
        }
        ctx.handle_matched_ids(match_handler);
        match self.enter(ctx, limiter) {
            Ok(()) => Ok(false),
            Err(error) => Err(VmError::from(error)),
        }
    }

    /// Counts a start tag, of which only its name is known, and tries it by that name, up to the first test that needs its attributes.
    #[inline(always)]
    fn begin(&mut self, ctx: &mut ExecutionCtx<'_, E>) -> Result<Option<RecoveryPoint>, VmError<E>>
        requires { IsNewContext E.ids ctx.old }
        ensures begun { IfOk result (IsBegun E.ids E.with_ids self.old self.new ctx.old ctx.new) }
        ensures name { ctx.new.stack_item.local_name ≡ ctx.old.stack_item.local_name }
        ensures left { (limiter : Limiter)
            → OpensNothing (Some ctx.old.stack_item.local_name) self.old self.new limiter limiter }
        ensures bytes { slot_bytes self.new ≡ slot_bytes self.old }
        ensures unasked { (request : AuxStartTagInfoRequest E) → result ≡ Err (VmError.InfoRequest request) → ⊥ }
        ensures failed { StaysFailed (result ≡ Err VmError.Failed) self.old self.new }
        ensures full { (result ≡ Err VmError.CounterFull)
            ↔ ((has_failed self.old ≡ false) × (last_count (stack_in self.old) ≡ full_count)) }
        ensures refused { OnErr result (has_failed self.new ≡ true) }
        ensures unlimited { IsErrOf result (VmError.MemoryLimitExceeded (record {})) → ⊥ }
        ensures no_memory { IfErr result (λ error. ForTagOf self.old ctx.old.stack_item.local_name ctx.old.ns
            (λ s esi events tag. TakesNoMemory s tag ⊎ AreFlat s → error ≡ VmError.CounterFull)) }
        ensures tried { ForTagOf self.old ctx.old.stack_item.local_name ctx.old.ns (λ s esi events tag.
            IsTriedAtMost s esi events tag (tries_in self.new)) }
    {
        if self.failed {
            return Err(VmError::Failed);
        }
        self.tries = Tries::new();
        if let Err(error) = self.stack.add_child(&ctx.stack_item.local_name) {
            self.failed = true;
            return Err(VmError::from(error));
        }
        match self.try_start(ctx) {
            Ok(stopped) => Ok(stopped),
            Err(error) => Err(VmError::Memory(error)),
        }
    }

    /// Tries a start tag by its name, up to the first test that needs its attributes: one that isn't of HTML needs them at once, and so
    /// does one of which rows tell that an instruction does.
    #[inline(always)]
    fn try_start(
        &mut self,
        ctx: &mut ExecutionCtx<'_, E>,
    ) -> Result<Option<RecoveryPoint>, AllocError>
        ensures tried { (tag : StartTag) → IsTagOf ctx.old.stack_item.local_name ctx.old.ns tag
            → IsTried E.ids E.with_ids self.old self.new ctx.old ctx.new result tag }
        ensures name { ctx.new.stack_item.local_name ≡ ctx.old.stack_item.local_name }
        ensures ok { OnOk result (self.new ≡ record self.old { tries = self.new.tries; space = self.new.space }) }
        ensures err { OnErr result
            (self.new ≡ with_failure (record self.old { tries = self.new.tries; space = self.new.space })) }
        ensures room { HasRowRoom self.old.program self.old.space → HasRowRoom self.old.program self.new.space }
    {
        let directive = Stack::get_stack_directive(&ctx.stack_item, ctx.ns, self.enable_esi_tags);
        if directive == StackDirective::PushIfNotSelfClosing {
            return Ok(Some(RecoveryPoint::AtOnce));
        }
        ctx.with_content = directive == StackDirective::Push;
        if self.program.rows.is_some() {
            return match self.try_left(ctx) {
                Ok(()) => Ok(self.space.stopped),
                Err(error) => Err(error),
            };
        }
        let name = &ctx.stack_item.local_name;
        let run = TagRun::new(&self.program, &self.stack, name, self.alloc);
        match run.try_by_name(ctx, &mut self.tries) {
            Ok(None) => Ok(None),
            Ok(Some(stop)) => Ok(Some(RecoveryPoint::At(stop))),
            Err(error) => {
                self.failed = true;
                Err(error)
            }
        }
    }

    /// Tries a start tag of HTML by its name where the program has rows: what these leave, unless they know that it needs its attributes.
    /// Where it stopped is kept in the room for rows: as a result, which takes three words, it would cost a machine without rows some
    /// twenty instructions a tag.
    #[cold]
    #[inline(never)]
    fn try_left(&mut self, ctx: &mut ExecutionCtx<'_, E>) -> Result<(), AllocError>
        ensures tried { has_rows self.old.program ≡ true → IsTriedByName E.ids E.with_ids
            self.old self.new ctx.old ctx.new (stopped_by result self.new.space) ctx.old.with_content }
        ensures name { ctx.new.stack_item.local_name ≡ ctx.old.stack_item.local_name }
        ensures ok { OnOk result (self.new ≡ record self.old { tries = self.new.tries; space = self.new.space }) }
        ensures err { OnErr result
            (self.new ≡ with_failure (record self.old { tries = self.new.tries; space = self.new.space })) }
        ensures room { HasRowRoom self.old.program self.old.space → HasRowRoom self.old.program self.new.space }
    {
        let name = &ctx.stack_item.local_name;
        match find_by_name(&self.program, &self.stack, name, &mut self.space) {
            Ok(false) => (),
            Ok(true) => {
                self.space.stopped = Some(RecoveryPoint::AtOnce);
                return Ok(());
            }
            Err(error) => {
                self.failed = true;
                return Err(error);
            }
        }
        let run = TagRun::left(&self.program, &self.stack, &self.space, name, self.alloc);
        match run.try_by_name(ctx, &mut self.tries) {
            Ok(None) => {
                self.space.stopped = None;
                Ok(())
            }
            Ok(Some(stop)) => {
                self.space.stopped = Some(RecoveryPoint::At(stop));
                Ok(())
            }
            Err(error) => {
                self.failed = true;
                Err(error)
            }
        }
    }

    /// A request for the rest of a tag, which owns what is known of it.
    fn request(&mut self, ctx: ExecutionCtx<'_, E>, point: RecoveryPoint) -> Result<(), VmError<E>>
        ensures requested { IsRequested ctx.entry point self.old self.new result }
        ensures no_memory { IsNone ctx.entry.stack_item.local_name.spelling → self.new ≡ self.old }
        ensures tries { self.new.tries ≡ self.old.tries }
    {
        match ctx.into_owned(self.alloc) {
            Ok(ctx) => Err(VmError::InfoRequest(AuxStartTagInfoRequest { ctx, point })),
            Err(error) => {
                self.failed = true;
                Err(VmError::Memory(error))
            }
        }
    }

    /// Opens the element of a start tag that was reported, if it has content.
    #[inline(always)]
    fn enter(
        &mut self,
        ctx: ExecutionCtx<'_, E>,
        limiter: &mut SharedMemoryLimiter,
    ) -> Result<(), PushError>
        ensures ok { OnOk result (IsEntered ctx.entry.with_content ctx.entry.stack_item self.old self.new) }
        ensures charges { ChargesSlots self.old self.new limiter.old limiter.new }
        ensures limited { IsErrOf result (PushError.Limit (record {}))
            ↔ (ctx.entry.with_content ≡ true) × IsLimited (list_in self.old.stack) limiter.old }
        ensures within { OnOk result (IsWithinLimit ctx.entry.with_content self.old limiter.old) }
        ensures closed { ctx.entry.with_content ≡ false → IsOk result }
        ensures tries { self.new.tries ≡ self.old.tries }
        ensures left { OnErr result (OpensNothing None self.old self.new limiter.old limiter.new) }
        ensures refused { OnErr result (has_failed self.new ≡ true) }
    {
        if !ctx.with_content {
            return Ok(());
        }
        let pushed = self.stack.push_item(ctx.stack_item, limiter);
        self.failed |= pushed.is_err();
        pushed
    }

    /// Finishes the start tag of a request, which was made by this machine, as it stands but for its data: reports it and, if its element
    /// has content, opens it. Each range of a name and of a value lies inside the input.
    ///
    /// # Errors
    /// `Limit` exactly if, once its reports are given, the element is to be opened and can't be charged; `Memory` only where memory is
    /// refused, before all reports, or after all of them where the element could be charged. A start tag that takes no memory
    /// (`TakesNoMemory`) is never refused, nor is one of flat selectors (`AreFlat`) refused for memory where it can't be charged.
    pub fn finish_start_tag<F: FnMut(MatchInfo)>(
        &mut self,
        request: AuxStartTagInfoRequest<E>,
        aux_info: AuxStartTagInfo<'_>,
        limiter: &mut SharedMemoryLimiter,
        match_handler: &mut F,
    ) -> Result<(), PushError>
        requires ranges { RangesAreInside aux_info }
        requires callable { F.IsAlwaysCallable match_handler.old }
        ensures again { F.IsAlwaysCallable match_handler.new }
        ensures answered { OnOk result (ForRestOf self.old E.ids request aux_info.entry (λ s esi events tag.
            IsWithinLimit (has_content esi tag) self.old limiter.old
            × IsAnswered E.ids F.step s esi events tag true self.old self.new match_handler.old match_handler.new)) }
        ensures charges { ChargesSlots self.old self.new limiter.old limiter.new }
        ensures left { OnErr result (OpensNothing None self.old self.new limiter.old limiter.new) }
        ensures refused { OnErr result (has_failed self.new ≡ true) }
        ensures limited { IsErrOf result (PushError.Limit (record {})) → IsDue self.old limiter.old
            × ForRestOf self.old E.ids request aux_info.entry (λ s esi events tag. (has_content esi tag ≡ true)
            × IsReported F.step s esi events tag true (tries_in self.new) match_handler.old match_handler.new) }
        ensures no_memory { ForPending self.old E.ids request (λ s esi events tag. TakesNoMemory s tag → IsOk result) }
        ensures tried { ForPending self.old E.ids request (λ s esi events tag. NeedsRest s aux_info.entry tag
            → IsTriedAtMost s esi events tag (tries_in self.new)) }
        ensures due { (error : AllocError) → result ≡ Err (PushError.Memory error) → IsDue self.old limiter.old
            → IsNeverPending E.ids self.old request }
        ensures all_or_none { (error : AllocError) → result ≡ Err (PushError.Memory error)
            → (match_handler.new ≡ match_handler.old)
            ⊎ IsAfterWholeReport E.ids self.old request F.step aux_info.entry limiter.old (tries_in self.new)
            match_handler.old match_handler.new }
    {
        let AuxStartTagInfoRequest { ctx, point } = request;
        self.finish(ctx, point, aux_info, limiter, match_handler)
    }

    /// Finishes a start tag that stopped at a point.
    fn finish<F: FnMut(MatchInfo)>(
        &mut self,
        mut ctx: ExecutionCtx<'_, E>,
        point: RecoveryPoint,
        aux_info: AuxStartTagInfo<'_>,
        limiter: &mut SharedMemoryLimiter,
        match_handler: &mut F,
    ) -> Result<(), PushError>
        requires ranges { RangesAreInside aux_info }
        requires callable { F.IsAlwaysCallable match_handler.old }
        ensures again { F.IsAlwaysCallable match_handler.new }
        ensures answered { OnOk result
            (ForRestOf self.old E.ids (left_at ctx.entry point) aux_info.entry (λ s esi events tag.
            IsWithinLimit (has_content esi tag) self.old limiter.old
            × IsAnswered E.ids F.step s esi events tag true self.old self.new match_handler.old match_handler.new)) }
        ensures charges { ChargesSlots self.old self.new limiter.old limiter.new }
        ensures left { OnErr result (OpensNothing None self.old self.new limiter.old limiter.new) }
        ensures refused { OnErr result (has_failed self.new ≡ true) }
        ensures limited { IsErrOf result (PushError.Limit (record {})) → IsDue self.old limiter.old
            × ForRestOf self.old E.ids (left_at ctx.entry point) aux_info.entry (λ s esi events tag.
            (has_content esi tag ≡ true)
            × IsReported F.step s esi events tag true (tries_in self.new) match_handler.old match_handler.new) }
        ensures no_memory { ForPending self.old E.ids (left_at ctx.entry point) (λ s esi events tag.
            TakesNoMemory s tag → IsOk result) }
        ensures tried { ForPending self.old E.ids (left_at ctx.entry point) (λ s esi events tag.
            NeedsRest s aux_info.entry tag → IsTriedAtMost s esi events tag (tries_in self.new)) }
        ensures due { (error : AllocError) → result ≡ Err (PushError.Memory error) → IsDue self.old limiter.old
            → IsNeverPending E.ids self.old (left_at ctx.entry point) }
        ensures all_or_none { (error : AllocError) → result ≡ Err (PushError.Memory error)
            → (match_handler.new ≡ match_handler.old)
            ⊎ IsAfterWholeReport E.ids self.old (left_at ctx.entry point) F.step aux_info.entry limiter.old
            (tries_in self.new) match_handler.old match_handler.new }
    {
        ctx.with_content = content_in(ctx.ns, ctx.with_content, aux_info.self_closing);
        let matcher = AttributeMatcher::new(aux_info.input, aux_info.attr_buffer, ctx.ns);
        if let Err(error) = self.complete(point, &matcher, &mut ctx) {
            self.failed = true;
            return Err(PushError::Memory(error));
        }
        ctx.handle_matched_ids(match_handler);
        self.enter(ctx, limiter)
    }

    /// Runs what is left of a start tag that stopped at a point.
    #[inline(always)]
    fn complete(
        &mut self,
        point: RecoveryPoint,
        matcher: &AttributeMatcher<'_>,
        ctx: &mut ExecutionCtx<'_, E>,
    ) -> Result<(), AllocError>
        ensures completed { IsCompleted E.ids E.with_ids self.old self.new ctx.old ctx.new point matcher.now result }
        ensures size { length self.old.program.instructions.items < 2 ^ 63 }
        ensures name { ctx.new.stack_item.local_name ≡ ctx.old.stack_item.local_name }
        ensures content { ctx.new.with_content ≡ ctx.old.with_content }
        ensures kept { self.new ≡ record self.old { tries = self.new.tries; space = self.new.space } }
        ensures room { HasRowRoom self.old.program self.old.space → HasRowRoom self.old.program self.new.space }
    {
        if self.program.rows.is_some() {
            return self.complete_left(point, matcher, ctx);
        }
        let name = &ctx.stack_item.local_name;
        let run = TagRun::new(&self.program, &self.stack, name, self.alloc);
        run.complete(point, matcher, ctx, &mut self.tries)
    }

    /// The same where the program has rows.
    #[cold]
    #[inline(never)]
    fn complete_left(
        &mut self,
        point: RecoveryPoint,
        matcher: &AttributeMatcher<'_>,
        ctx: &mut ExecutionCtx<'_, E>,
    ) -> Result<(), AllocError>
        ensures completed { has_rows self.old.program ≡ true → IsCompleted E.ids E.with_ids
            self.old self.new ctx.old ctx.new point matcher.now result }
        ensures size { length self.old.program.instructions.items < 2 ^ 63 }
        ensures name { ctx.new.stack_item.local_name ≡ ctx.old.stack_item.local_name }
        ensures content { ctx.new.with_content ≡ ctx.old.with_content }
        ensures kept { self.new ≡ record self.old { tries = self.new.tries; space = self.new.space } }
        ensures room { HasRowRoom self.old.program self.old.space → HasRowRoom self.old.program self.new.space }
    {
        let name = &ctx.stack_item.local_name;
        let space = &mut self.space;
        find_at(&self.program, &self.stack, point, name, matcher, space)?;
        let run = TagRun::left(&self.program, &self.stack, &self.space, name, self.alloc);
        run.complete(point, matcher, ctx, &mut self.tries)
    }

    /// Closes the last open element of a name and all inside it, and calls the handler with their data, the outermost first. Where no
    /// element of the name is open, nothing changes. It takes no memory, and acts after a refusal too.
    pub fn exec_for_end_tag<F: FnMut(E)>(&mut self, local_name: LocalName<'_>, handler: &mut F)
        requires { F.IsAlwaysCallable handler.old }
        ensures again { F.IsAlwaysCallable handler.new }
        ensures stands { (s : Selectors) (esi : Bool) (events : List Event) (name : List ℕ)
            → IsNameOf local_name.entry name → Stands s esi self.old events
            → Stands s esi self.new (events ++ End name ∷ []) }
        ensures still_open { ForEndOf self.old local_name.entry (λ elements name.
            HasOpen self.new (open_after name elements)) }
        ensures kept { ForEndOf self.old local_name.entry (λ elements name.
            data_in self.new ≡ take (length (open_after name elements)) (data_in self.old)) }
        ensures called { ForEndOf self.old local_name.entry (λ elements name. IsCalledAtEach F.step handler.old
            (drop (length (open_after name elements)) (data_in self.old)) handler.new) }
        ensures tries { tries_in self.new ≡ tries_in self.old }
        ensures slots { slots_charged self.new ≡ slots_charged self.old }
        ensures bytes { slot_bytes self.new ≡ slot_bytes self.old }
        ensures failed { has_failed self.new ≡ has_failed self.old }
    {
        self.stack.pop_up_to(local_name, handler);
    }

    /// How many elements are open. (Not in lol_html.)
    pub fn open_elements(&self) -> usize
        ensures { result ≡ length (data_in self.now) }
    {
        self.stack.items().len()
    }

    /// Drops the machine. The usage of the limiter stays as it is: for a limiter that ends with the machine. (Not in lol_html.)
    pub fn discard(self) {
        let VmOf {
            program: _,
            enable_esi_tags: _,
            stack,
            tries: _,
            space: _,
            failed: _,
            alloc: _,
        } = self;
        stack.discard();
    }

    /// Drops the machine, and lowers the usage by the charge of its slots. (Not in lol_html.)
    pub fn release(self, limiter: &mut SharedMemoryLimiter)
        requires { IsCovered self limiter.old }
        ensures { limiter.new
            ≡ record limiter.old { usage = limiter.old.usage - slots_charged self.entry * slot_bytes self.entry } }
    {
        let VmOf {
            program: _,
            enable_esi_tags: _,
            stack,
            tries: _,
            space: _,
            failed: _,
            alloc: _,
        } = self;
        stack.release(limiter);
    }
}

/// Whether an element has content, once it is known whether its tag closes itself: that counts outside HTML alone.
fn content_in(ns: Namespace, with_content: bool, self_closing: bool) -> bool
    ensures { result ≡ content_in ns with_content self_closing }
{
    match ns {
        Namespace::Html => with_content,
        Namespace::Svg | Namespace::MathML => !self_closing,
    }
}

/// How many ids a set has, if a `usize` can count them.
fn count_ids(ids: &DenseHashSet) -> Option<usize>
    ensures { IfSome result (λ count. count ≡ length (ascending ids.now)) }
{
    let mut count: usize = 0;
    for _id in ids.iter() {
        count = count.checked_add(1)?;
    }
    Some(count)
}
