//! The tags of a page of HTML that comes in chunks: their places, names, namespaces and attributes; and which of them a matcher reports.
#![tactic(auto)]

mod error;
mod kept_tags;
pub mod laws;
mod namespaces;
mod open_elements;
mod page;
mod page_reader;
mod past;
mod position;
pub mod rows;
mod settings;
mod tag_attributes;
mod tree_doubts;

pub use error::{PageError, PageReadError};
pub use page::Page;
pub use page_reader::{PageRead, PageReader, PlacedTag};
pub use position::Position;
pub use settings::PageSettings;
