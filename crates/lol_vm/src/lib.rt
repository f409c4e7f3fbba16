//! The selector matching machine, and what a whole list of tags is answered with.
#![tactic(auto)]

mod collected;
mod events;
mod run;

pub use collected::Collected;
pub use events::{RunCause, RunRefusal, RunStop, TagEvent, TagReport};
pub use lol_base::{
    AttributeBuffer, AttributeOutline, Attributes, AuxStartTagInfo, Bytes, LocalName, Namespace,
    Range, Tag,
};
pub use lol_css::{
    AttrSelectorOperator, CaseSensitivity, Combinator, ComplexSelector, Compound, CssString,
    ErrorLocation, NthChild, ParsedCaseSensitivity, Selector, SelectorError, SelectorList,
    SelectorsParser, SimpleSelector,
};
pub use lol_machine::{
    AuxStartTagInfoRequest, SelectorMatchingVm, VmError, VmOf, laws, machine_laws, vm_laws,
};
pub use lol_memory::{
    DenseHashSet, DenseHashSetIter, Drain, LimitedVec, MatchId, MatchInfo,
    MemoryLimitExceededError, PushError, SharedMemoryLimiter,
};
pub use lol_program::{
    AddressRange, Ast, AstNode, AttrExprOperands, AttributeComparisonExpr, AttributeExprTest,
    AttributeMatcher, ChildCounter, Compilable, CompiledAttributeExpr, CompiledLocalNameExpr,
    CompiledPredicate, CompiledTest, Compiler, Condition, ExecutionBranch, Instruction,
    LocalNameExprTest, NameValue, OnAttributesExpr, OnTagNameExpr, Predicate, Program,
    ROWS_PAY_FROM, SelectorState, Test, Tries, TryExecResult,
};
pub use lol_stack::{
    AddChildError, AddressRanges, BlockPlace, CounterItem, CounterList, ElementData, ElementValue,
    ExecutionCtx, NameMap, NamePlace, Stack, StackDirective, StackItem, StackItemOf, StackNames,
    StackOf, TypedChildCounterMap,
};
pub use run::{match_each_event, match_events};
