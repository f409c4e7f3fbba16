//! Sets of ids, and lists with charged slots: each request for memory can be refused.

ghost use Rattle.std.specs.Prelude.{◌≡◌};

use crate::element::ITEM_BYTES;
use crate::outcome::{Met, Stop, TURNS, expect};
use lol_vm::{DenseHashSet, LimitedVec, MatchInfo, SharedMemoryLimiter};
use std::alloc::{AllocError, Global};

pub(crate) fn set_of(alloc: Global, ids: &[u32]) -> Result<DenseHashSet, AllocError> {
    let mut set = DenseHashSet::new(alloc);
    insert_all(&mut set, ids)?;
    Ok(set)
}

fn insert_all(set: &mut DenseHashSet, ids: &[u32]) -> Result<(), AllocError> {
    for id in ids {
        set.insert(*id)?;
    }
    Ok(())
}

/// Whether a set has exactly these ids.
pub(crate) fn has(set: &DenseHashSet, ids: &[u32]) -> bool {
    set.iter().eq(ids.iter().copied())
}

/// Whether exactly these ids are reported, in order.
pub(crate) fn are_ids(matched: &[MatchInfo], ids: &[u32]) -> bool {
    for (info, id) in matched.iter().zip(ids) {
        if info.match_id != *id {
            return false;
        }
    }
    matched.len() == ids.len()
}

pub(crate) fn insert(alloc: Global) -> Result<Met, Stop> {
    let mut set = set_of(alloc, &[33, 70])?;
    insert_in_turn(&mut set)
}

fn insert_in_turn(set: &mut DenseHashSet) -> Result<Met, Stop> {
    for met in TURNS {
        if set.insert(1000).is_ok() {
            return met.if_holds(has(set, &[33, 70, 1000]));
        }
        expect(has(set, &[33, 70]))?;
    }
    Err(Stop::Wrong)
}

/// The ids of a set, those of another, and those of both.
type Union = (&'static [u32], &'static [u32], &'static [u32]);

/// Ids near one another and ids far apart, the other way round, and two of ids far apart that are near one another together.
const UNIONS: [Union; 3] = [
    (&[33, 70], &[1, 70, 1000], &[1, 33, 70, 1000]),
    (&[1, 1000], &[33, 70], &[1, 33, 70, 1000]),
    (&[160, 1000], &[320, 640, 960], &[160, 320, 640, 960, 1000]),
];

pub(crate) fn union(alloc: Global) -> Result<Met, Stop> {
    unite_all(alloc, &UNIONS)
}

fn unite_all(alloc: Global, rows: &[Union]) -> Result<Met, Stop> {
    let mut met = Met::Nothing;
    for row in rows {
        met = met.and(unite(alloc, row)?);
    }
    Ok(met)
}

fn unite(alloc: Global, row: &Union) -> Result<Met, Stop> {
    let mut set = set_of(alloc, row.0)?;
    let other = set_of(alloc, row.1)?;
    unite_in_turn(&mut set, &other, row)
}

fn unite_in_turn(set: &mut DenseHashSet, other: &DenseHashSet, row: &Union) -> Result<Met, Stop> {
    let (ids, others, both) = *row;
    for met in TURNS {
        if joins(set, other) {
            return met.if_holds(has(set, both));
        }
        expect(has(set, ids) && has(other, others))?;
    }
    Err(Stop::Wrong)
}

fn joins(set: &mut DenseHashSet, other: &DenseHashSet) -> bool {
    set.union(other).is_ok()
}

pub(crate) fn set_try_clone(alloc: Global) -> Result<Met, Stop> {
    let set = set_of(alloc, &[33, 70])?;
    clone_in_turn(&set)
}

fn clone_in_turn(set: &DenseHashSet) -> Result<Met, Stop> {
    for met in TURNS {
        if let Ok(is_equal) = equals_its_copy(set) {
            return met.if_holds(is_equal);
        }
        expect(has(set, &[33, 70]))?;
    }
    Err(Stop::Wrong)
}

/// Whether the copy of a set equals it, and has its ids.
fn equals_its_copy(set: &DenseHashSet) -> Result<bool, AllocError> {
    let copy = set.try_clone()?;
    Ok(copy == *set && has(&copy, &[33, 70]))
}

/// Ids below 32 ask for no memory: a refusal is wrong here.
pub(crate) fn small_sets(alloc: Global) -> Result<Met, Stop> {
    match small_sets_are_right(alloc) {
        Ok(true) => Ok(Met::Nothing),
        _ => Err(Stop::Wrong),
    }
}

fn small_sets_are_right(alloc: Global) -> Result<bool, AllocError> {
    let mut set = set_of(alloc, &[0, 31])?;
    join(alloc, &mut set, &[7, 31])?;
    let copy = set.try_clone()?;
    Ok(has(&set, &[0, 7, 31]) && copy == set)
}

fn join(alloc: Global, set: &mut DenseHashSet, ids: &[u32]) -> Result<(), AllocError> {
    let other = set_of(alloc, ids)?;
    set.union(&other)
}

/// 300 elements: 128 slots, then 256, then 512.
pub(crate) fn push(alloc: Global) -> Result<Met, Stop> {
    let mut limiter = SharedMemoryLimiter::new(1_000_000);
    let mut list = LimitedVec::new(alloc, ITEM_BYTES);
    let met = fill(&mut list, &mut limiter);
    let (len, slots, usage) = (list.len(), list.slots(), limiter.current_usage());
    let released = release(list, &mut limiter);
    expect(released)?;
    expect(met.is_err() || (len == 300 && slots == 512 && usage == 512))?;
    met
}

fn fill(list: &mut LimitedVec<usize>, limiter: &mut SharedMemoryLimiter) -> Result<Met, Stop>
    ensures { list.new.item_bytes ≡ list.old.item_bytes }
{
    let mut met = Met::Nothing;
    for number in 0..300usize {
        met = met.and(pushed(list, number, limiter)?);
    }
    Ok(met)
}

/// Pushes a number, a second time where memory is refused first.
fn pushed(
    list: &mut LimitedVec<usize>,
    number: usize,
    limiter: &mut SharedMemoryLimiter,
) -> Result<Met, Stop>
    ensures { list.new.item_bytes ≡ list.old.item_bytes }
{
    let before = (list.len(), list.slots(), limiter.current_usage());
    if list.push(number, limiter).is_ok() {
        return Ok(Met::Nothing);
    }
    expect((list.len(), list.slots(), limiter.current_usage()) == before)?;
    expect(list.push(number, limiter).is_ok() && list.last() == Some(&number))?;
    Ok(Met::Refusal)
}

/// Releases a list: whether the limiter's usage is then 0.
fn release(list: LimitedVec<usize>, limiter: &mut SharedMemoryLimiter) -> bool
    requires { list.item_bytes ≡ 1 }
{
    let slots = list.slots();
    if slots <= limiter.current_usage() {
        list.release(limiter);
        return limiter.current_usage() == 0;
    }
    let mut enough = SharedMemoryLimiter::new(slots);
    match enough.increase_usage(slots) {
        Ok(()) => list.release(&mut enough),
        Err(_) => unreachable!(),
    }
    false
}
