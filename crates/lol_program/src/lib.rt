//! The selectors that are looked for, as a tree of tests.
#![tactic(auto)]

mod ast;
mod ast_node;
mod compilable;
mod compiler;
mod condition;
pub mod laws;
mod node_id;
mod node_index;
mod node_key;
mod predicate;
mod program;

pub use ast::{Ast, ROWS_PAY_FROM};
pub use ast_node::AstNode;
pub use compilable::Compilable;
pub use compiler::Compiler;
pub use condition::{AttributeComparisonExpr, Condition, OnAttributesExpr, OnTagNameExpr};
pub use lol_instructions::{
    AddressRange, AttrExprOperands, AttributeExprTest, AttributeMatcher, ChildCounter,
    CompiledAttributeExpr, CompiledLocalNameExpr, CompiledPredicate, CompiledTest, ExecutionBranch,
    Instruction, LocalNameExprTest, NameValue, SelectorState, Tries, TryExecResult,
};
pub use predicate::{Predicate, Test};
pub use program::Program;
