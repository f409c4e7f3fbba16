//! A matcher that owns its machine: it is told of the tags of a document as they come, and may be let go at any time.
#![tactic(auto)]

mod builder;
mod error;
mod explaining;
mod handed;
pub mod laws;
mod matcher;
mod open_element;
mod past;
mod reading;
mod tags;

pub use builder::MatcherBuilder;
pub use error::{AddError, MatcherError};
pub use lol_base::{
    AttributeBuffer, AttributeOutline, Attributes, AuxStartTagInfo, Bytes, Namespace, Range,
};
pub use lol_css::{ErrorLocation, ErrorMessage, SelectorError};
pub use lol_memory::{MatchId, MatchInfo};
pub use lol_program::{ROWS_PAY_FROM, Tries};
pub use lol_reasons::{Explainer, ItemOfText, Numbering, NumberingError, Reason, Texts};
pub use matcher::{Matcher, Started};
pub use open_element::{OpenElement, OpenElements};
pub use reading::read_selector;
