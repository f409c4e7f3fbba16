//! Open elements, counters by type, and what start tags gather: each request for memory can be refused.

ghost use Rattle.std.specs.Prelude.{◌≡◌};
ghost use Rattle.lol_stack.specs.Stacks.{item_bytes_in};

use crate::element::{Calls, Element, ITEM_BYTES, release_stack};
use crate::lists::set_of;
use crate::outcome::{Met, Stop, TURNS, expect};
use lol_vm::{
    AddChildError, ExecutionBranch, ExecutionCtx, LocalName, MatchInfo, Namespace, NthChild,
    PushError, SharedMemoryLimiter, Stack, StackItem, StackItemOf, TypedChildCounterMap,
};
use std::alloc::{AllocError, Global};

/// The name of the element of a number: each third is no hash.
fn name_of(number: usize) -> &'static [u8] {
    if number % 3 == 1 { LONG } else { b"div" }
}

/// An element with two hereditary ranges, one of them its own.
fn item(
    alloc: Global,
    name: &'static [u8],
    number: usize,
) -> Result<StackItem<'static, Element>, AllocError> {
    let item: StackItem<Element> = StackItemOf::new(alloc, LocalName::new(name));
    let mut item = item.into_owned(alloc)?;
    push_ranges(alloc, &mut item, number)?;
    Ok(item)
}

fn push_ranges(
    alloc: Global,
    item: &mut StackItem<'static, Element>,
    number: usize,
) -> Result<(), AllocError> {
    item.hereditary_jumps.push(alloc, 0..1)?;
    item.hereditary_jumps.push(alloc, number..usize::MAX)
}

/// 130 elements, one inside the other: 128 slots, then 256.
pub(crate) fn push_item(alloc: Global) -> Result<Met, Stop> {
    let mut limiter = SharedMemoryLimiter::new(1_000_000);
    let mut stack = Stack::new(alloc, ITEM_BYTES, true);
    let met = open_all(alloc, &mut stack, &mut limiter);
    let slots = stack.charged_slots();
    let released = release_stack(stack, &mut limiter);
    expect(released)?;
    expect(met.is_err() || slots == 256)?;
    met
}

fn open_all(
    alloc: Global,
    stack: &mut Stack<Element>,
    limiter: &mut SharedMemoryLimiter,
) -> Result<Met, Stop>
    ensures { item_bytes_in stack.new ≡ item_bytes_in stack.old }
{
    let mut met = Met::Nothing;
    for number in 0..130usize {
        met = met.and(opened(alloc, stack, number, limiter)?);
    }
    Ok(met)
}

/// Opens an element, a second time where memory is refused first.
fn opened(
    alloc: Global,
    stack: &mut Stack<Element>,
    number: usize,
    limiter: &mut SharedMemoryLimiter,
) -> Result<Met, Stop>
    ensures { item_bytes_in stack.new ≡ item_bytes_in stack.old }
{
    let name = name_of(number);
    let met = push_in_turn(alloc, stack, name, number, limiter)?;
    expect(is_last(stack, name, number))?;
    Ok(met)
}

/// Pushes an element, a second time where memory is refused first.
fn push_in_turn(
    alloc: Global,
    stack: &mut Stack<Element>,
    name: &'static [u8],
    number: usize,
    limiter: &mut SharedMemoryLimiter,
) -> Result<Met, Stop>
    ensures { item_bytes_in stack.new ≡ item_bytes_in stack.old }
{
    let before = State::of(stack, name, limiter);
    if pushed(alloc, stack, name, number, limiter)? {
        return Ok(Met::Nothing);
    }
    expect(State::of(stack, name, limiter) == before)?;
    expect(pushed(alloc, stack, name, number, limiter)?)?;
    Ok(Met::Refusal)
}

/// Whether an element is the last, and its ranges and its place are the last ones.
fn is_last(stack: &Stack<Element>, name: &[u8], number: usize) -> bool {
    stack.items().len().checked_sub(1) == Some(number)
        && active_are_of(stack, number)
        && is_last_place(stack, name, number)
}

/// Pushes an element: whether there was memory. The element's own memory is the scenario's.
fn pushed(
    alloc: Global,
    stack: &mut Stack<Element>,
    name: &'static [u8],
    number: usize,
    limiter: &mut SharedMemoryLimiter,
) -> Result<bool, Stop>
    ensures { item_bytes_in stack.new ≡ item_bytes_in stack.old }
{
    let item = item(alloc, name, number)?;
    match stack.push_item(item, limiter) {
        Ok(()) => Ok(true),
        Err(PushError::Memory(_)) => Ok(false),
        Err(_) => Err(Stop::Wrong),
    }
}

/// Whether the last element of a name is open at a place.
fn is_last_place(stack: &Stack<Element>, name: &[u8], number: usize) -> bool {
    match stack.open_places(&LocalName::new(name)).last() {
        Some(place) => *place == number,
        None => false,
    }
}

/// What a refused push leaves as it was.
#[derive(Clone, Copy, PartialEq, Eq)]
struct State {
    elements: usize,
    slots: usize,
    active: usize,
    places: usize,
    usage: usize,
}

impl State {
    fn of(stack: &Stack<Element>, name: &[u8], limiter: &SharedMemoryLimiter) -> Self {
        State {
            elements: stack.items().len(),
            slots: stack.charged_slots(),
            active: stack.active_hereditary_jumps().len(),
            places: stack.open_places(&LocalName::new(name)).len(),
            usage: limiter.current_usage(),
        }
    }
}

/// Whether the active ranges are that of all elements, and that of each element up to a number.
fn active_are_of(stack: &Stack<Element>, number: usize) -> bool {
    let active = stack.active_hereditary_jumps();
    match active.split_first() {
        Some((first, rest)) => {
            *first == (0..1, 0)
                && rest.len().checked_sub(1) == Some(number)
                && rest
                    .iter()
                    .enumerate()
                    .all(|(i, range)| *range == (i..usize::MAX, i))
        }
        None => false,
    }
}

/// Children of the root, by type too.
pub(crate) fn stack_add_child(alloc: Global) -> Result<Met, Stop> {
    let mut limiter = SharedMemoryLimiter::new(1_000_000);
    let mut stack = Stack::new(alloc, ITEM_BYTES, true);
    let met = count_all(&mut stack);
    let released = release_stack(stack, &mut limiter);
    expect(released)?;
    met
}

fn count_all(stack: &mut Stack<Element>) -> Result<Met, Stop>
    ensures { item_bytes_in stack.new ≡ item_bytes_in stack.old }
{
    let mut met = Met::Nothing;
    for (name, before, typed) in [(b"div".as_slice(), 0, 0), (LONG, 1, 0), (LONG, 2, 1)] {
        met = met.and(counted(stack, &LocalName::new(name), before, typed)?);
    }
    Ok(met)
}

/// A name that is no hash.
const LONG: &[u8] = b"Abcdefghijklm";

/// Counts a child, a second time where memory is refused first.
fn counted(
    stack: &mut Stack<Element>,
    name: &LocalName<'_>,
    before: i32,
    typed: i32,
) -> Result<Met, Stop>
    ensures { item_bytes_in stack.new ≡ item_bytes_in stack.old }
{
    let mut met = Met::Nothing;
    if !added(stack, name)? {
        expect(counts_are(stack, name, before, typed))?;
        expect(added(stack, name)?)?;
        met = Met::Refusal;
    }
    let after = (before.saturating_add(1), typed.saturating_add(1));
    expect(counts_are(stack, name, after.0, after.1))?;
    Ok(met)
}

/// Counts a child: whether there was memory.
fn added(stack: &mut Stack<Element>, name: &LocalName<'_>) -> Result<bool, Stop>
    ensures { item_bytes_in stack.new ≡ item_bytes_in stack.old }
{
    match stack.add_child(name) {
        Ok(()) => Ok(true),
        Err(AddChildError::Memory(_)) => Ok(false),
        Err(_) => Err(Stop::Wrong),
    }
}

/// Whether so many children of the root were counted, and so many of a name.
fn counts_are(stack: &Stack<Element>, name: &LocalName<'_>, all: i32, typed: i32) -> bool {
    let state = stack.build_state(name);
    let typed_holds = match state.typed {
        Some(counter) => counter.is_nth(NthChild::new(0, typed)),
        None => typed == 0,
    };
    state.cumulative.is_nth(NthChild::new(0, all)) && typed_holds
}

/// Names at three levels, and how many counters are kept before each of them is counted.
const CHILDREN: [(&[u8], usize, usize); 5] = [
    (b"a", 0, 0),
    (LONG, 0, 1),
    (b"a", 1, 2),
    (LONG, 2, 3),
    (LONG, 2, 4),
];

/// Counters by type at three levels.
pub(crate) fn map_add_child(alloc: Global) -> Result<Met, Stop> {
    let mut counters = TypedChildCounterMap::new(alloc);
    let met = count_children(&mut counters, &CHILDREN)?;
    expect(are_counted(&mut counters))?;
    Ok(met)
}

fn count_children(
    counters: &mut TypedChildCounterMap,
    children: &[(&[u8], usize, usize)],
) -> Result<Met, Stop> {
    let mut met = Met::Nothing;
    for (name, level, kept) in children {
        met = met.and(child_counted(counters, name, *level, *kept)?);
    }
    Ok(met)
}

/// Counts a child at a level, a second time where memory is refused first.
fn child_counted(
    counters: &mut TypedChildCounterMap,
    name: &[u8],
    level: usize,
    kept: usize,
) -> Result<Met, Stop> {
    expect(counters.kept().len() == kept)?;
    if counts(counters, name, level) {
        return Ok(Met::Nothing);
    }
    expect(counters.kept().len() == kept)?;
    expect(counts(counters, name, level))?;
    Ok(Met::Refusal)
}

fn counts(counters: &mut TypedChildCounterMap, name: &[u8], level: usize) -> bool {
    counters.add_child(&LocalName::new(name), level).is_ok()
}

/// Whether all children were counted, and those of the first level stand when the others are popped.
fn are_counted(counters: &mut TypedChildCounterMap) -> bool {
    counters.kept().len() == 4
        && is_at(counters, LONG, 2, 2)
        && counters.pop_to(0) == 2
        && is_at(counters, b"a", 0, 1)
        && is_at(counters, LONG, 0, 1)
}

fn is_at(counters: &TypedChildCounterMap, name: &[u8], level: usize, count: i32) -> bool {
    match counters.get(&LocalName::new(name), level) {
        Some(counter) => counter.is_nth(NthChild::new(0, count)),
        None => false,
    }
}

fn branch(alloc: Global, ids: &[u32], place: usize) -> Result<ExecutionBranch, AllocError> {
    let matched_ids = set_of(alloc, ids)?;
    Ok(ExecutionBranch {
        matched_ids,
        jumps: Some(place..usize::MAX),
        hereditary_jumps: Some(0..place),
    })
}

fn gathered_are(ctx: &mut ExecutionCtx<'_, Element>, ids: &[u32], ranges: usize) -> bool {
    let mut calls = Calls::none();
    let mut handler = |info: MatchInfo| {
        calls.keep_info(info);
    };
    ctx.handle_matched_ids(&mut handler);
    let item = &ctx.stack_item;
    calls.ids() == ids
        && item.jumps.as_slice().len() == ranges
        && item.hereditary_jumps.as_slice().len() == ranges
}

/// Two branches, the second with greater ids.
pub(crate) fn add_execution_branch(alloc: Global) -> Result<Met, Stop> {
    let mut ctx = ExecutionCtx::new(alloc, LocalName::new(b"p"), Namespace::Html, false);
    add_branches(alloc, &mut ctx)
}

fn add_branches(alloc: Global, ctx: &mut ExecutionCtx<'_, Element>) -> Result<Met, Stop> {
    add_first_branch(alloc, ctx)?;
    let second = branch(alloc, &[7, 1000], 5)?;
    add_in_turn(alloc, ctx, &second)
}

fn add_first_branch(alloc: Global, ctx: &mut ExecutionCtx<'_, Element>) -> Result<(), AllocError> {
    let first = branch(alloc, &[3, 40], 2)?;
    ctx.add_execution_branch(alloc, &first)
}

fn are_both(ctx: &mut ExecutionCtx<'_, Element>) -> bool {
    gathered_are(ctx, &[3, 7, 40, 1000], 2)
        && ctx.stack_item.jumps.as_slice() == [2..usize::MAX, 5..usize::MAX].as_slice()
}

fn add_in_turn(
    alloc: Global,
    ctx: &mut ExecutionCtx<'_, Element>,
    second: &ExecutionBranch,
) -> Result<Met, Stop> {
    for met in TURNS {
        if ctx.add_execution_branch(alloc, second).is_ok() {
            return met.if_holds(are_both(ctx));
        }
        expect(gathered_are(ctx, &[3, 40], 1))?;
    }
    Err(Stop::Wrong)
}
