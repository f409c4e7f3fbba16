//! The tags of a stream of HTML bytes that comes in chunks, by the tokenization of the HTML Standard (13.2.5).
#![tactic(auto)]

mod attributes;
mod error;
mod front;
pub mod laws;
mod reader;
pub mod rows;
mod state;
mod transitions;

pub use attributes::push_outlines;
pub use error::{FeedError, StreamTooLong};
pub use reader::{Read, Tag, TagReader};
pub use state::State;
