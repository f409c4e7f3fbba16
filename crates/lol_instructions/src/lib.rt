//! The instructions of a program of selectors: what each tests of an element, by its name, its position among others and its attributes.
#![tactic(auto)]

mod attribute_matcher;
mod attribute_value;
mod child_counter;
mod compiled_expr;
mod compiled_predicate;
mod execution_branch;
mod instruction;
mod keys;
mod marks;
mod name_value;
mod predicate_marks;
mod selector_state;
mod tries;

pub use attribute_matcher::{AttrExprOperands, AttributeMatcher};
pub use attribute_value::first_word;
pub use child_counter::ChildCounter;
pub use compiled_expr::{
    AttributeExprTest, CompiledAttributeExpr, CompiledLocalNameExpr, LocalNameExprTest,
};
pub use compiled_predicate::{CompiledPredicate, CompiledTest};
pub use execution_branch::{AddressRange, ExecutionBranch};
pub use instruction::{Instruction, TryExecResult};
pub use keys::{KeyBytes, PART_LENGTH};
pub use name_value::NameValue;
pub use selector_state::SelectorState;
pub use tries::Tries;
