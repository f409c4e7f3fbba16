//! What holds of all reports, whatever machine gives them (laws), and why an element is reported: for each selector that matches it, the
//! elements that its compounds are passed by.
#![tactic(auto)]

mod error;
mod explainer;
pub mod key_laws;
pub mod laws;
mod node_table;
pub mod rows;
pub mod run_laws;
mod texts;
mod witness;
pub mod worked_keys;

pub use error::NumberingError;
pub use explainer::{Explainer, ItemOfText, Reason};
pub use texts::{Numbering, Texts};
pub use witness::{witness_of, witness_under};
