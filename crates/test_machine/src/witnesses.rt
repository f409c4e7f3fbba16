//! Witnesses of a program, once through each call: one that refuses always meets its contract.

use lol_program::{Compiler, Program};
use lol_reasons::{witness_of, witness_under};
use lol_stack::StackItem;
use std::alloc::{AllocError, Global};
use std::process::Abort;
use std::test::Fail;
use test_kit::{Numbered, selectors};

fn program_of(alloc: Global, texts: &[(&str, u32)]) -> Result<Program, Fail> {
    let ast = selectors(alloc, texts)?;
    Ok(Compiler::new(alloc).compile(ast)?)
}

/// Whether no selector has this id, and so no witness.
fn has_none(alloc: Global, program: &Program, id: u32) -> Result<bool, AllocError> {
    let none: [StackItem<'static, Numbered>; 0] = [];
    Ok(witness_under(alloc, program, id, 0, &none, &[])?.is_none())
}

/// Whether the witness of a tag, without open elements, is its own number.
fn is_alone(alloc: Global, program: &Program, numbers: &[usize]) -> Result<bool, AllocError> {
    let none: [StackItem<'static, Numbered>; 0] = [];
    Ok(witness_of(alloc, program, 0, 3, &none, numbers)?.as_slice() == [3].as_slice())
}

/// Whether the selector under 0 of a program is passed by its tag alone, and none has another id.
fn has_no_node(alloc: Global, program: &Program) -> Result<bool, AllocError> {
    let none = has_none(alloc, program, 1)?;
    Ok(none && is_alone(alloc, program, &[])? && is_alone(alloc, program, &[2])?)
}

#[test]
fn of_no_node(rt: HostRuntime) -> Result<(), Fail> {
    let program = program_of(rt.alloc(), &[("p", 0)])?;
    assert!(rt; has_no_node(rt.alloc(), &program)?);
    Ok(())
}
