//! Names, items and contexts that come to own what they borrowed: each request for memory can be refused.

use crate::element::{Calls, Element};
use crate::lists::has;
use crate::outcome::{Met, Stop, TURNS, exactly, expect};
use lol_vm::{
    ChildCounter, ExecutionCtx, LocalName, MatchInfo, Namespace, NthChild, StackDirective,
    StackItem, StackItemOf,
};
use std::alloc::{AllocError, Global};

/// A name of 13 letters, which is no hash.
const LONG: &[u8] = b"Abcdefghijklm";

fn is_long(name: &LocalName<'_>) -> bool {
    name.code().is_none() && name.spelling().is_some_and(|spelling| spelling == LONG)
}

/// Makes a name own its bytes: whether there was memory.
pub(crate) fn name_into_owned(alloc: Global) -> Result<bool, Stop> {
    match LocalName::new(LONG).into_owned(alloc) {
        Ok(name) => exactly(is_long(&name) && name == LocalName::new(b"aBCDEFGHIJKLM")),
        Err(_) => Ok(false),
    }
}

pub(crate) fn name_try_clone(alloc: Global) -> Result<Met, Stop> {
    let name = LocalName::new(LONG);
    clone_in_turn(alloc, &name)
}

fn clone_in_turn(alloc: Global, name: &LocalName<'_>) -> Result<Met, Stop> {
    for met in TURNS {
        if let Ok(is_equal) = equals_its_copy(alloc, name) {
            return met.if_holds(is_equal);
        }
        expect(is_long(name))?;
    }
    Err(Stop::Wrong)
}

/// Whether the copy of the long name equals it.
fn equals_its_copy(alloc: Global, name: &LocalName<'_>) -> Result<bool, AllocError> {
    let copy = name.try_clone(alloc)?;
    Ok(is_long(&copy) && copy == *name)
}

/// A name of 12 letters asks for no memory: a refusal is wrong here.
pub(crate) fn short_names(alloc: Global) -> Result<Met, Stop> {
    let name = LocalName::new(b"Abcdefghijkl");
    match (copies(alloc, &name), owns(alloc, &name)) {
        (Ok(true), Ok(true)) => Ok(Met::Nothing),
        _ => Err(Stop::Wrong),
    }
}

fn copies(alloc: Global, name: &LocalName<'_>) -> Result<bool, AllocError> {
    let copy = name.try_clone(alloc)?;
    Ok(copy == *name)
}

fn owns(alloc: Global, name: &LocalName<'_>) -> Result<bool, AllocError> {
    let owned = LocalName::new(b"abcdefghijkL").into_owned(alloc)?;
    Ok(owned == *name && owned.spelling().is_none())
}

/// A name that owns its bytes asks for no memory to own them: a refusal is wrong here.
pub(crate) fn owned_names(alloc: Global) -> Result<Met, Stop> {
    let name = LocalName::from_vec(LONG.to_vec(alloc)?);
    match name.into_owned(alloc) {
        Ok(owned) if is_long(&owned) => Ok(Met::Nothing),
        _ => Err(Stop::Wrong),
    }
}

/// An item of that name, with an id, a range of each kind, a counter and a directive of its own.
fn item(alloc: Global) -> Result<StackItem<'static, Element>, AllocError> {
    let mut item: StackItem<Element> = StackItemOf::new(alloc, LocalName::new(LONG));
    fill(alloc, &mut item)?;
    item.child_counter = ChildCounter::at(9);
    item.stack_directive = StackDirective::PushIfNotSelfClosing;
    Ok(item)
}

fn fill(alloc: Global, item: &mut StackItem<'static, Element>) -> Result<(), AllocError> {
    item.element_data.matched_ids.insert(7)?;
    item.jumps.push(alloc, 2..4)?;
    item.hereditary_jumps.push(alloc, 5..6)
}

fn is_item(item: &StackItem<'_, Element>) -> bool {
    is_long(&item.local_name)
        && has(&item.element_data.matched_ids, &[7])
        && item.jumps.as_slice() == [2..4].as_slice()
        && item.hereditary_jumps.as_slice() == [5..6].as_slice()
        && item.child_counter.is_nth(NthChild::new(0, 9))
        && item.stack_directive == StackDirective::PushIfNotSelfClosing
}

/// Makes an item own its name: whether there was memory.
pub(crate) fn item_into_owned(alloc: Global) -> Result<bool, Stop> {
    let item = item(alloc)?;
    match item.into_owned(alloc) {
        Ok(owned) => exactly(is_item(&owned)),
        Err(_) => Ok(false),
    }
}

fn ids_are(ctx: &mut ExecutionCtx<'_, Element>, ids: &[u32]) -> bool {
    let mut calls = Calls::none();
    let mut handler = |info: MatchInfo| {
        calls.keep_info(info);
    };
    ctx.handle_matched_ids(&mut handler);
    calls.ids() == ids && !calls.with_content
}

fn is_context(ctx: &mut ExecutionCtx<'_, Element>) -> bool {
    is_item(&ctx.stack_item)
        && !ctx.with_content
        && ctx.enable_esi_tags
        && ctx.ns == Namespace::Svg
        && ids_are(ctx, &[7])
}

/// A context without content of that item.
fn context(alloc: Global) -> Result<ExecutionCtx<'static, Element>, AllocError> {
    Ok(ExecutionCtx {
        stack_item: item(alloc)?,
        with_content: false,
        ns: Namespace::Svg,
        enable_esi_tags: true,
    })
}

/// Makes a context own its name: whether there was memory.
pub(crate) fn context_into_owned(alloc: Global) -> Result<bool, Stop> {
    let ctx = context(alloc)?;
    match ctx.into_owned(alloc) {
        Ok(mut owned) => exactly(is_context(&mut owned)),
        Err(_) => Ok(false),
    }
}
