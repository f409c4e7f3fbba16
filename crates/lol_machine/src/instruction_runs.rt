//! Running instructions for a start tag, one after the other.

ghost use Rattle.std.specs.Prelude.{◌≡◌, ◌+◌, ◌-◌, ◌≤◌, Bool, IfOk, IsOk, IsTrue, ◌↔◌, length};
ghost use Rattle.lol_instructions.specs.Compiled.{sight};
ghost use Rattle.lol_instructions.specs.Tries.{names_counted, attributes_counted};
ghost use Rattle.lol_machine.specs.InstructionRuns.{NeedNoMemory, HasTriesLeft, IsInsideOf, instructions_at, open_among, first_open_from, tried_until, gathered_by_names, gathered_with_attributes};

use lol_program::{
    AddressRange, AttributeMatcher, Instruction, SelectorState, Tries, TryExecResult,
};
use lol_stack::{ElementData, ExecutionCtx};
use std::alloc::{AllocError, Global};

/// The greatest number of which two can be added.
const FAR: u64 = u64::MAX / 2;

/// Runs instructions without attributes, up to the first that needs them, and answers its index among them. It is refused only where
/// memory is out.
#[inline(always)]
pub(crate) fn try_instructions<E: ElementData>(
    instructions: &[Instruction],
    state: &SelectorState<'_>,
    alloc: Global,
    ctx: &mut ExecutionCtx<'_, E>,
    tries: &mut Tries,
) -> Result<Option<usize>, AllocError>
    requires names_fit { names_counted tries.old + length instructions.now ≤ u64.MAX }
    requires attributes_fit { attributes_counted tries.old + length instructions.now ≤ u64.MAX }
    ensures stop { IfOk result (λ stop.
        stop ≡ first_open_from (sight state.now ctx.old.stack_item.local_name) 0 instructions.now) }
    ensures ctx { IfOk result (λ stop. ctx.new
        ≡ gathered_by_names E.ids E.with_ids (sight state.now ctx.old.stack_item.local_name) ctx.old instructions.now) }
    ensures names { IfOk result (λ stop.
        names_counted tries.new ≡ names_counted tries.old + tried_until stop (length instructions.now)) }
    ensures names_bound { names_counted tries.new ≤ names_counted tries.old + length instructions.now }
    ensures attributes { attributes_counted tries.new ≡ attributes_counted tries.old }
    ensures name { ctx.new.stack_item.local_name ≡ ctx.old.stack_item.local_name }
    ensures content { ctx.new.with_content ≡ ctx.old.with_content }
    ensures no_memory { NeedNoMemory ctx.old.with_content instructions.now → IsOk result }
{
    for (at, instruction) in instructions.iter().enumerate() {
        let name = &ctx.stack_item.local_name;
        match instruction.try_exec_without_attrs(state, name, tries) {
            TryExecResult::Branch(branch) => ctx.add_execution_branch(alloc, branch)?,
            TryExecResult::AttributesRequired => return Ok(Some(at)),
            TryExecResult::Fail => (),
        }
    }
    Ok(None)
}

/// Runs instructions with attributes. It is refused only where memory is out.
#[inline(always)]
pub(crate) fn exec_instructions<E: ElementData>(
    instructions: &[Instruction],
    state: &SelectorState<'_>,
    matcher: &AttributeMatcher<'_>,
    alloc: Global,
    ctx: &mut ExecutionCtx<'_, E>,
    tries: &mut Tries,
) -> Result<(), AllocError>
    requires names_fit { names_counted tries.old + length instructions.now ≤ u64.MAX }
    requires attributes_fit { attributes_counted tries.old + length instructions.now ≤ u64.MAX }
    ensures ctx { IfOk result (λ done. ctx.new
        ≡ gathered_with_attributes E.ids E.with_ids (sight state.now ctx.old.stack_item.local_name)
        matcher.now ctx.old instructions.now) }
    ensures names { IfOk result (λ done. names_counted tries.new ≡ names_counted tries.old + length instructions.now) }
    ensures attributes { IfOk result (λ done. attributes_counted tries.new
        ≡ attributes_counted tries.old + open_among (sight state.now ctx.old.stack_item.local_name) instructions.now) }
    ensures names_bound { names_counted tries.new ≤ names_counted tries.old + length instructions.now }
    ensures attributes_bound { attributes_counted tries.new
        ≤ attributes_counted tries.old + open_among (sight state.now ctx.old.stack_item.local_name) instructions.now }
    ensures name { ctx.new.stack_item.local_name ≡ ctx.old.stack_item.local_name }
    ensures content { ctx.new.with_content ≡ ctx.old.with_content }
    ensures no_memory { NeedNoMemory ctx.old.with_content instructions.now → IsOk result }
{
    for instruction in instructions {
        let name = &ctx.stack_item.local_name;
        if let Some(branch) = instruction.exec(state, name, matcher, tries) {
            ctx.add_execution_branch(alloc, branch)?;
        }
    }
    Ok(())
}

/// Goes on from the first of these instructions, which was tried without attributes: it is tried with them, and then the others are run.
/// It is refused only where memory is out.
#[inline(always)]
pub(crate) fn complete_instructions<E: ElementData>(
    instructions: &[Instruction],
    state: &SelectorState<'_>,
    matcher: &AttributeMatcher<'_>,
    alloc: Global,
    ctx: &mut ExecutionCtx<'_, E>,
    tries: &mut Tries,
) -> Result<(), AllocError>
    requires names_fit { names_counted tries.old + length instructions.now ≤ u64.MAX }
    requires attributes_fit { attributes_counted tries.old + length instructions.now ≤ u64.MAX }
    ensures ctx { IfOk result (λ done. ctx.new
        ≡ gathered_with_attributes E.ids E.with_ids (sight state.now ctx.old.stack_item.local_name)
        matcher.now ctx.old instructions.now) }
    ensures names { IfOk result (λ done.
        names_counted tries.new ≡ names_counted tries.old + (length instructions.now - 1)) }
    ensures attributes { IfOk result (λ done. attributes_counted tries.new
        ≡ attributes_counted tries.old + open_among (sight state.now ctx.old.stack_item.local_name) instructions.now) }
    ensures names_bound { names_counted tries.new ≤ names_counted tries.old + (length instructions.now - 1) }
    ensures attributes_bound { attributes_counted tries.new
        ≤ attributes_counted tries.old + open_among (sight state.now ctx.old.stack_item.local_name) instructions.now }
    ensures name { ctx.new.stack_item.local_name ≡ ctx.old.stack_item.local_name }
    ensures content { ctx.new.with_content ≡ ctx.old.with_content }
    ensures no_memory { NeedNoMemory ctx.old.with_content instructions.now → IsOk result }
{
    let Some((first, others)) = instructions.split_first() else {
        return Ok(());
    };
    let name = &ctx.stack_item.local_name;
    if let Some(branch) = first.complete_exec_with_attrs(state, name, matcher, tries) {
        ctx.add_execution_branch(alloc, branch)?;
    }
    exec_instructions(others, state, matcher, alloc, ctx, tries)
}

/// The instructions of a range; none where the range isn't inside, or where so many tries can't be counted.
#[inline(always)]
pub(crate) fn instructions_in<'p>(
    instructions: &'p [Instruction],
    range: &AddressRange,
    tries: &Tries,
) -> &'p [Instruction]
    ensures value { IsInsideOf instructions.now range.now → HasTriesLeft tries.now (range.now.end - range.now.start)
        → result.now ≡ instructions_at instructions.now range.now }
    ensures room { HasTriesLeft tries.now (length result.now) }
    ensures no_memory { (content : Bool) → NeedNoMemory content instructions.now → NeedNoMemory content result.now }
{
    let (names, attributes) = (tries.names(), tries.attributes());
    if range.start > range.end || range.end > instructions.len() {
        return &[];
    }
    let count = (range.end - range.start) as u64;
    if !can_count(names, attributes, count) {
        return &[];
    }
    &instructions[range.start..range.end]
}

/// Whether each of two counts can grow by so much. Mostly they are far from their greatest.
#[inline(always)]
fn can_count(names: u64, attributes: u64, more: u64) -> bool
    ensures { IsTrue result ↔ (names + more ≤ u64.MAX) × (attributes + more ≤ u64.MAX) }
{
    if names <= FAR && attributes <= FAR && more <= FAR {
        return true;
    }
    more <= u64::MAX - names && more <= u64::MAX - attributes
}

/// What is left of a range, from an offset on.
#[inline(always)]
pub(crate) fn range_from(range: &AddressRange, offset: usize) -> AddressRange
    ensures { range.now.start + offset ≤ range.now.end
        → result ≡ record { start = range.now.start + offset; end = range.now.end } }
{
    let (start, end) = (range.start, range.end);
    start.saturating_add(offset)..end
}
