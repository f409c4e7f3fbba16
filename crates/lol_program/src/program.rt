//! Programs of selectors.

use lol_instructions::{AddressRange, Instruction};
use lol_rows::Rows;

/// The instructions of the selectors that are looked for, one for each node (lol_html's `Program`).
#[derive(Drop)]
pub struct Program {
    /// An instruction for each node, siblings side by side.
    pub instructions: Vec<Instruction>,
    /// Where the nodes stand that no other stands above.
    pub entry_points: AddressRange,
    /// Whether there is a test by type, so that children have to be counted by type.
    pub enable_nth_of_type: bool,
    /// Its instructions by their keys, if it was made with rows.
    pub rows: Option<Rows>,
}
