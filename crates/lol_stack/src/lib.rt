//! The open elements of a document, with what hangs on each: its data, the counters of its children, the ranges of instructions that it makes
//! active; and values by the names of elements, at a cost that no choice of names makes large.
#![tactic(auto)]

mod active_ranges;
mod address_ranges;
mod counters;
mod directive;
mod element_data;
mod element_value;
mod execution_ctx;
mod name_blocks;
mod name_map;
mod open_names;
mod stack;
mod stack_item;
pub mod stack_laws;
mod void;

pub use address_ranges::AddressRanges;
pub use counters::{CounterItem, CounterList, TypedChildCounterMap};
pub use element_data::ElementData;
pub use element_value::ElementValue;
pub use execution_ctx::ExecutionCtx;
pub use name_blocks::BlockPlace;
pub use name_map::{NameMap, NamePlace};
pub use stack::{AddChildError, Stack, StackNames, StackOf};
pub use stack_item::{StackDirective, StackItem, StackItemOf};
