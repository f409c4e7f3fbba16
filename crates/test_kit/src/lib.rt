//! What tests are written with: selectors under ids, attributes, tags as words, and data of an element.
#![tactic(auto)]

mod attributes;
mod tag_words;
mod trees;

pub use attributes::{WrittenAttributes, written_attributes};
pub use tag_words::{TagWord, attributes_of, words_of};
pub use trees::selectors;

/// Data that know their element's number.
pub type Numbered = lol_stack::ElementValue<usize>;
