//! What the tests by position see of an element.

use crate::child_counter::ChildCounter;

/// The counters of an element that has been counted: that of all its parent's children and, where children are counted by type, that of
/// its parent's children of its name (lol_html's `SelectorState`).
#[derive(Clone, Copy)]
pub struct SelectorState<'i> {
    pub cumulative: &'i ChildCounter,
    pub typed: Option<&'i ChildCounter>,
}
