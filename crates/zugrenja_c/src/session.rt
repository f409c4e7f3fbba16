//! What stands behind a handle.

use crate::adding::Adding;
use crate::running::Running;

/// A matcher, or the selectors and settings of which one will be made.
#[derive(Drop)]
pub enum Session {
    /// Selectors are added.
    Adding(Adding),
    /// Tags are told.
    Matching(Running),
}
