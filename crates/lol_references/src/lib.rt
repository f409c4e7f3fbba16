//! Character references of attribute values, decoded by the tokenization of the HTML Standard (13.2.5.72 to 13.2.5.80).
#![tactic(auto)]

mod attributes;
mod decode;
pub mod laws;
mod named;
mod names;
mod numeric;
pub mod rows;

pub use attributes::read_decoded;
pub use decode::{append_decoded, has_ampersand};
