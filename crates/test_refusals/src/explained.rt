//! Reasons of a machine's report: each request for memory can be refused.

use crate::element::{Element, ITEM_BYTES};
use crate::outcome::{Met, Stop, TURNS, expect};
use crate::trees::read;
use lol_reasons::{Explainer, Numbering, NumberingError, Reason, Texts};
use lol_vm::{LocalName, MatchInfo, Namespace, SelectorMatchingVm, SharedMemoryLimiter, VmError};
use std::alloc::Global;

type Machine = SelectorMatchingVm<Element>;

/// `div p, p` under 7, the start tags `div` and `p`, and why the second is reported. A call that is refused is made again, and answers as
/// if it hadn't been.
pub(crate) fn explained(alloc: Global) -> Result<Met, Stop> {
    let (numbering, numbered) = number_text(alloc)?;
    let given = explain_numbered(alloc, numbering)?;
    Ok(numbered.and(given))
}

/// The items of `div p, p` under 7, each under its number.
pub(crate) fn number_text(alloc: Global) -> Result<(Numbering, Met), Stop> {
    let mut texts = Texts::new(alloc);
    let added = add_in_turn(alloc, &mut texts)?;
    let (numbering, numbered) = number_in_turn(&texts)?;
    Ok((numbering, added.and(numbered)))
}

/// Makes a machine of the numbered items, and asks it for the reasons.
fn explain_numbered(alloc: Global, numbering: Numbering) -> Result<Met, Stop> {
    let Numbering { ast, mut explainer } = numbering;
    let mut vm = Machine::new(alloc, ast, ITEM_BYTES, false)?;
    let given = explain(&mut vm, &mut explainer);
    vm.discard();
    given
}

/// Makes the table of the machine's program, tells of the tags, and asks for the reasons.
fn explain(vm: &mut Machine, explainer: &mut Explainer) -> Result<Met, Stop> {
    let indexed = index_in_turn(explainer, vm)?;
    tell(vm)?;
    let given = reasons_in_turn(explainer, vm)?;
    Ok(indexed.and(given))
}

fn add_in_turn(alloc: Global, texts: &mut Texts) -> Result<Met, Stop> {
    for met in TURNS {
        let selector = read(alloc, "div p, p")?;
        if texts.add(7, selector).is_ok() {
            return Ok(met);
        }
    }
    Err(Stop::Wrong)
}

fn number_in_turn(texts: &Texts) -> Result<(Numbering, Met), Stop> {
    for met in TURNS {
        match texts.number_items() {
            Ok(numbering) => return Ok((numbering, met)),
            Err(error) => expect(error == NumberingError::Memory)?,
        }
    }
    Err(Stop::Wrong)
}

fn index_in_turn(explainer: &mut Explainer, vm: &Machine) -> Result<Met, Stop> {
    for met in TURNS {
        if explainer.index(vm.program()).is_ok() {
            return Ok(met);
        }
    }
    Err(Stop::Wrong)
}

/// Tells a machine of the two start tags; the memory is the scenario's own.
fn tell(vm: &mut Machine) -> Result<(), Stop> {
    let mut limiter = SharedMemoryLimiter::new(1_000_000);
    start(vm, &mut limiter, b"div")?;
    start(vm, &mut limiter, b"p")
}

fn start(vm: &mut Machine, limiter: &mut SharedMemoryLimiter, name: &[u8]) -> Result<(), Stop> {
    let mut handler = |_: MatchInfo| {};
    let name = LocalName::new(name);
    match vm.exec_for_start_tag(name, Namespace::Html, limiter, &mut handler) {
        Ok(()) => Ok(()),
        Err(VmError::Memory(_)) => Err(Stop::Own),
        Err(_) => Err(Stop::Wrong),
    }
}

/// The reasons for the second tag, which both items match.
fn reasons_in_turn(explainer: &Explainer, vm: &Machine) -> Result<Met, Stop> {
    for met in TURNS {
        if let Ok(reasons) = explainer.reasons(vm, &[0, 1], 1, &[0]) {
            return met.if_holds(are_both(&reasons));
        }
    }
    Err(Stop::Wrong)
}

/// Whether these are the reasons for the second tag.
pub(crate) fn are_both(reasons: &[Reason]) -> bool {
    let [first, second] = reasons else {
        return false;
    };
    is_for(first, 0, &[1, 0]) && is_for(second, 1, &[1])
}

fn is_for(reason: &Reason, item: usize, witness: &[usize]) -> bool {
    reason.item.id == 7
        && reason.item.text == 0
        && reason.item.item == item
        && reason.witness.as_slice() == witness
}
