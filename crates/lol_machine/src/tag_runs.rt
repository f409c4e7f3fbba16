//! Running what a start tag is run through: the entry points, the last open element's jumps, and the active hereditary jumps.

ghost use Rattle.std.specs.Prelude.{◌≡◌, ◌<◌, ◌^◌, ◌+◌, drop, get_or, length, IfOk, IsOk};
ghost use Rattle.lol_instructions.specs.Compiled.{sight};
ghost use Rattle.lol_instructions.specs.Tries.{attributes_counted};
ghost use Rattle.lol_machine.specs.SparedRuns.{singles};
ghost use Rattle.lol_machine.specs.InstructionRuns.{AreRunnable, NeedNoMemory};
ghost use Rattle.lol_machine.specs.TagRuns.{all_ranges, left_ranges, ranges_left, tried_at, IsPointIn, AreTried, AreExecuted, AreWithin, jumps_in, ranges_to_run_in, sight_in};

use crate::instruction_runs::{
    complete_instructions, exec_instructions, instructions_in, range_from, try_instructions,
};
use crate::spared_runs::RowSpace;
use lol_base::LocalName;
use lol_program::{AddressRange, AttributeMatcher, Instruction, Program, SelectorState, Tries};
use lol_stack::{ElementData, ExecutionCtx, Stack};
use std::alloc::{AllocError, Global};

/// Where a run without attributes stopped: in which of a tag's ranges, and at which of its instructions.
#[derive(Clone, Copy)]
pub struct Stop {
    pub range: usize,
    pub offset: usize,
}

/// Where the run of a start tag goes on, once its attributes are there.
#[derive(Clone, Copy)]
pub enum RecoveryPoint {
    /// Nothing was run.
    AtOnce,
    /// It stopped there.
    At(Stop),
}

/// Ranges of instructions that a start tag is run through, one after the other.
pub trait TagRanges {
    ghost use Rattle.std.specs.Prelude.{ℕ, List, ◌≡◌, ◌<◌, get_or, length};
    ghost use Rattle.std.specs.declared.ops.Range.{Range};
    ghost use Rattle.lol_stack.specs.WithRange.{no_range};

    // The ranges.
    ghost listed: { Self → List (Range ℕ) };

    /// How many there are.
    fn len(&self) -> usize
        ensures { result ≡ length (listed self.now) };

    /// One of them.
    fn range(&self, index: usize) -> AddressRange
        requires { index < length (listed self.now) }
        ensures { result ≡ get_or (listed self.now) index no_range };
}

/// All that a start tag may be run through: the entry points, the last open element's jumps, and the active hereditary jumps.
#[derive(Clone, Copy)]
pub struct AllRanges<'p> {
    entry_points: &'p AddressRange,
    jumps: &'p [AddressRange],
    hereditary_jumps: &'p [(AddressRange, usize)],
}

impl<'p> AllRanges<'p> {
    #[inline(always)]
    pub(crate) fn new<E>(program: &'p Program, stack: &'p Stack<E>) -> Self
        ensures { all_ranges result ≡ ranges_to_run_in program.now stack.now }
    {
        AllRanges {
            entry_points: &program.entry_points,
            jumps: last_jumps(stack),
            hereditary_jumps: stack.active_hereditary_jumps(),
        }
    }
}

impl TagRanges for AllRanges<'_> {
    ghost use Rattle.lol_machine.specs.TagRuns.{all_ranges};

    ghost listed = { all_ranges };

    #[inline(always)]
    fn len(&self) -> usize {
        1 + self.jumps.len() + self.hereditary_jumps.len()
    }

    #[inline(always)]
    fn range(&self, index: usize) -> AddressRange {
        let hereditary = 1 + self.jumps.len();
        if index >= hereditary {
            let range = &self.hereditary_jumps[index - hereditary].0;
            return range.start..range.end;
        }
        let range = match index.checked_sub(1) {
            None => self.entry_points,
            Some(index) => &self.jumps[index],
        };
        range.start..range.end
    }
}

/// Of these, the instructions at some addresses, each as a range.
#[derive(Clone, Copy)]
pub struct LeftRanges<'p> {
    addresses: &'p [u32],
}

impl TagRanges for LeftRanges<'_> {
    ghost use Rattle.lol_machine.specs.TagRuns.{left_ranges};

    ghost listed = { left_ranges };

    #[inline(always)]
    fn len(&self) -> usize {
        self.addresses.len()
    }

    #[inline(always)]
    fn range(&self, index: usize) -> AddressRange {
        let address = self.addresses[index] as usize;
        address..address.saturating_add(1)
    }
}

/// The run of a start tag: the ranges of instructions that it is run through, one after the other, and what their tests see.
#[derive(Drop)]
pub struct TagRun<'p, R> {
    pub instructions: &'p [Instruction],
    pub ranges: R,
    pub state: SelectorState<'p>,
    alloc: Global,
}

impl<'p> TagRun<'p, AllRanges<'p>> {
    /// The run of a start tag of this name, which has been counted, through all that it may be run through. It takes no memory.
    #[inline(always)]
    pub fn new<'i: 'p, E>(
        program: &'p Program,
        stack: &'p Stack<E>,
        name: &LocalName<'i>,
        alloc: Global,
    ) -> Self
        ensures size { length program.now.instructions.items < 2 ^ 63 }
        ensures instructions { result.instructions.now ≡ program.now.instructions.items }
        ensures ranges { all_ranges result.ranges ≡ ranges_to_run_in program.now stack.now }
        ensures sight { sight result.state name.now ≡ sight_in stack.now name.now }
    {
        TagRun {
            instructions: &program.instructions,
            ranges: AllRanges::new(program, stack),
            state: stack.build_state(name),
            alloc,
        }
    }
}

impl<'p> TagRun<'p, LeftRanges<'p>> {
    /// The same through what was found left (`find_by_name`, `find_at`).
    pub fn left<'i: 'p, E>(
        program: &'p Program,
        stack: &'p Stack<E>,
        space: &'p RowSpace,
        name: &LocalName<'i>,
        alloc: Global,
    ) -> Self
        ensures size { length program.now.instructions.items < 2 ^ 63 }
        ensures instructions { result.instructions.now ≡ program.now.instructions.items }
        ensures ranges { left_ranges result.ranges ≡ singles space.now.left.items }
        ensures sight { sight result.state name.now ≡ sight_in stack.now name.now }
    {
        TagRun {
            instructions: &program.instructions,
            ranges: LeftRanges {
                addresses: space.left(),
            },
            state: stack.build_state(name),
            alloc,
        }
    }
}

impl<'p, R: TagRanges> TagRun<'p, R> {
    /// Runs without attributes, up to the first instruction that needs them, and answers where that is. It is refused only where memory is
    /// out.
    #[inline(always)]
    pub fn try_by_name<E: ElementData>(
        &self,
        ctx: &mut ExecutionCtx<'_, E>,
        tries: &mut Tries,
    ) -> Result<Option<Stop>, AllocError>
        ensures tried { AreRunnable self.now.instructions.now (R.listed self.now.ranges) tries.old
            → IfOk result (λ stop.
            AreTried E.ids E.with_ids (sight self.now.state ctx.old.stack_item.local_name) self.now.instructions.now
            (R.listed self.now.ranges) ctx.old ctx.new tries.old tries.new stop) }
        ensures attributes { attributes_counted tries.new ≡ attributes_counted tries.old }
        ensures within { AreRunnable self.now.instructions.now (R.listed self.now.ranges) tries.old
            → AreWithin (sight self.now.state ctx.old.stack_item.local_name) self.now.instructions.now
            (R.listed self.now.ranges) tries.old tries.new 0 }
        ensures name { ctx.new.stack_item.local_name ≡ ctx.old.stack_item.local_name }
        ensures content { ctx.new.with_content ≡ ctx.old.with_content }
        ensures no_memory { NeedNoMemory ctx.old.with_content self.now.instructions.now → IsOk result }
    {
        let state = self.state;
        for index in 0..self.ranges.len() {
            let part = instructions_in(self.instructions, &self.ranges.range(index), tries);
            if let Some(offset) = try_instructions(part, &state, self.alloc, ctx, tries)? {
                return Ok(Some(Stop {
                    range: index,
                    offset,
                }));
            }
        }
        Ok(None)
    }

    /// Runs the ranges from one of them on, with attributes.
    #[inline(always)]
    fn exec_from<E: ElementData>(
        &self,
        first: usize,
        matcher: &AttributeMatcher<'_>,
        ctx: &mut ExecutionCtx<'_, E>,
        tries: &mut Tries,
    ) -> Result<(), AllocError>
        ensures executed { AreRunnable self.now.instructions.now (drop first (R.listed self.now.ranges)) tries.old
            → IfOk result (λ done. AreExecuted E.ids E.with_ids
            (sight self.now.state ctx.old.stack_item.local_name) self.now.instructions.now
            (drop first (R.listed self.now.ranges)) ctx.old ctx.new tries.old tries.new matcher.now 0) }
        ensures within { AreRunnable self.now.instructions.now (drop first (R.listed self.now.ranges)) tries.old
            → AreWithin (sight self.now.state ctx.old.stack_item.local_name) self.now.instructions.now
            (drop first (R.listed self.now.ranges)) tries.old tries.new 0 }
        ensures name { ctx.new.stack_item.local_name ≡ ctx.old.stack_item.local_name }
        ensures content { ctx.new.with_content ≡ ctx.old.with_content }
        ensures no_memory { NeedNoMemory ctx.old.with_content self.now.instructions.now → IsOk result }
    {
        let state = self.state;
        for index in first..self.ranges.len() {
            let part = instructions_in(self.instructions, &self.ranges.range(index), tries);
            exec_instructions(part, &state, matcher, self.alloc, ctx, tries)?;
        }
        Ok(())
    }

    /// Goes on from a recovery point, with attributes. It is refused only where memory is out.
    #[inline(always)]
    pub fn complete<E: ElementData>(
        &self,
        point: RecoveryPoint,
        matcher: &AttributeMatcher<'_>,
        ctx: &mut ExecutionCtx<'_, E>,
        tries: &mut Tries,
    ) -> Result<(), AllocError>
        ensures executed { IsPointIn self.now.instructions.now (R.listed self.now.ranges) point
            → AreRunnable self.now.instructions.now (ranges_left (R.listed self.now.ranges) point) tries.old
            → IfOk result (λ done. AreExecuted E.ids E.with_ids
            (sight self.now.state ctx.old.stack_item.local_name) self.now.instructions.now
            (ranges_left (R.listed self.now.ranges) point) ctx.old ctx.new tries.old tries.new matcher.now
            (tried_at point)) }
        ensures within { IsPointIn self.now.instructions.now (R.listed self.now.ranges) point
            → AreRunnable self.now.instructions.now (ranges_left (R.listed self.now.ranges) point) tries.old
            → AreWithin (sight self.now.state ctx.old.stack_item.local_name) self.now.instructions.now
            (ranges_left (R.listed self.now.ranges) point) tries.old tries.new (tried_at point) }
        ensures name { ctx.new.stack_item.local_name ≡ ctx.old.stack_item.local_name }
        ensures content { ctx.new.with_content ≡ ctx.old.with_content }
        ensures no_memory { NeedNoMemory ctx.old.with_content self.now.instructions.now → IsOk result }
    {
        let RecoveryPoint::At(stop) = point else {
            return self.exec_from(0, matcher, ctx, tries);
        };
        if stop.range >= self.ranges.len() {
            return Ok(());
        }
        let left = range_from(&self.ranges.range(stop.range), stop.offset);
        let part = instructions_in(self.instructions, &left, tries);
        let state = self.state;
        complete_instructions(part, &state, matcher, self.alloc, ctx, tries)?;
        self.exec_from(stop.range + 1, matcher, ctx, tries)
    }
}

/// Where the nodes for the last open element's children stand.
fn last_jumps<E>(stack: &Stack<E>) -> &[AddressRange]
    ensures { result.now ≡ jumps_in stack.now }
{
    match stack.items().last() {
        Some(item) => item.jumps.as_slice(),
        None => &[],
    }
}
