//! What a node gives to an element that matches.

use lol_memory::DenseHashSet;
use std::ops::Range;

/// Addresses of instructions, from `start` up to `end`.
pub type AddressRange = Range<usize>;

/// What an instruction gives to an element that passes its tests (lol_html's `ExecutionBranch`): the ids that it is reported under, where
/// the nodes for its children stand, and where those for all elements inside it stand.
#[derive(Debug, PartialEq, Eq, Drop)]
pub struct ExecutionBranch {
    pub matched_ids: DenseHashSet,
    pub jumps: Option<AddressRange>,
    pub hereditary_jumps: Option<AddressRange>,
}
