//! Large sets of ids: what refuses an id or a union at some size meets its contract.

use lol_memory::DenseHashSet;
use std::alloc::{AllocError, Global};
use std::process::Abort;
use std::test::Fail;

/// Expects that something holds.
pub(crate) fn expect(rt: &impl Abort, holds: Result<bool, AllocError>) -> Result<(), Fail> {
    assert!(rt; holds?);
    Ok(())
}

/// The set of so many ids, each a step after the one before it.
fn set_of_steps(
    alloc: Global,
    first: u32,
    step: u32,
    count: u32,
) -> Result<DenseHashSet, AllocError> {
    let mut set = DenseHashSet::new(alloc);
    for place in 0..count {
        set.insert(first.wrapping_add(step.wrapping_mul(place)))?;
    }
    Ok(set)
}

/// Whether a set has so many ids, the first of them 0.
fn has_steps(set: &DenseHashSet, step: u32, count: u32) -> bool {
    set.iter()
        .eq((0..count).map(|place| step.wrapping_mul(place)))
}

/// Whether a list of a million words, of which each fourth holds an id, has them.
fn holds_million(alloc: Global) -> Result<bool, AllocError> {
    let set = set_of_steps(alloc, 0, 128, 250_000)?;
    Ok(has_steps(&set, 128, 250_000))
}

#[test]
fn hold_a_million_words(rt: HostRuntime) -> Result<(), Fail> {
    expect(&rt, holds_million(rt.alloc()))
}

/// Two sets of 100,000 ids, each in a word of its own, as one.
fn large_union(alloc: Global) -> Result<DenseHashSet, AllocError> {
    let others = set_of_steps(alloc, 6_400, 12_800, 100_000)?;
    let mut set = set_of_steps(alloc, 0, 12_800, 100_000)?;
    set.union(&others)?;
    Ok(set)
}

fn has_large_union(alloc: Global) -> Result<bool, AllocError> {
    let set = large_union(alloc)?;
    Ok(has_steps(&set, 6_400, 200_000))
}

/// What the union of two large sets takes grows with what they hold.
#[test]
fn are_joined_if_they_are_large(rt: HostRuntime) -> Result<(), Fail> {
    expect(&rt, has_large_union(rt.alloc()))
}
