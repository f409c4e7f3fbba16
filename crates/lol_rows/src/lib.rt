//! Which instructions of a range are left by their keys, without a look at the others.
#![tactic(auto)]

mod key_hashes;
mod key_rows;
mod key_table;
pub mod laws;
mod row_kind;
mod rows;
mod sorted_hashes;
mod tag_hashes;
mod tag_keys;

pub use key_hashes::name_hashes;
pub use rows::Rows;
pub use tag_keys::{TagKeys, is_left};
