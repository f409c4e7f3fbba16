//! The selector matching machine, tag by tag: which selectors match a start tag, by the elements that are open.
#![tactic(auto)]

mod error;
mod instruction_runs;
pub mod laws;
pub mod machine_laws;
mod spared_runs;
mod tag_runs;
mod vm;
pub mod vm_laws;

pub use error::{AuxStartTagInfoRequest, VmError};
pub use vm::{SelectorMatchingVm, VmOf};
