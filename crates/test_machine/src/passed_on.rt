//! What lol_vm passes on for those who run programs of their own, each by lol_vm's name: one that is left out would be proved.

use lol_vm::{
    AttributeExprTest, BlockPlace, Compilable, CompiledAttributeExpr, CompiledLocalNameExpr,
    CompiledPredicate, CompiledTest, Compiler, ExecutionBranch, Instruction, LocalNameExprTest,
    NameMap, NamePlace, NameValue, OnTagNameExpr, Program, SelectorState, Test, Tries,
    TryExecResult,
};
use std::alloc::{AllocError, Global};
use std::test::Fail;

/// What programs are made of and run with, and maps by names.
#[derive(Drop)]
struct PassedOn<'t> {
    compiler: Option<Compiler>,
    program: Option<Program>,
    instruction: Option<Instruction>,
    branch: Option<ExecutionBranch>,
    predicate: Option<CompiledPredicate>,
    of_name: Option<CompiledLocalNameExpr>,
    of_attribute: Option<CompiledAttributeExpr>,
    name_test: Option<LocalNameExprTest>,
    attribute_test: Option<AttributeExprTest>,
    state: Option<SelectorState<'t>>,
    tries: Option<Tries>,
    result: Option<TryExecResult<'t>>,
    value: Option<NameValue>,
    map: Option<NameMap<u8>>,
    place: Option<NamePlace>,
    block_place: Option<BlockPlace>,
}

/// Whether `*` becomes a test of names, which needs no places by type.
fn is_of_names(alloc: Global) -> Result<bool, AllocError> {
    let mut by_type = false;
    let any = Test::Name(OnTagNameExpr::ExplicitAny).compile(alloc, &mut by_type)?;
    Ok(matches!(any, CompiledTest::Name(_)) && !by_type)
}

#[test]
fn tests_are_compiled(rt: HostRuntime) -> Result<(), Fail> {
    assert!(rt; is_of_names(rt.alloc())?);
    Ok(())
}
