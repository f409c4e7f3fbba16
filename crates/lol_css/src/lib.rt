//! CSS selectors: their trees, and reading them.
#![tactic(auto)]

mod error;
pub mod laws;
mod message;
mod parser;
pub mod rows;
mod selector;
mod selectors;
mod syntax;

pub use error::{ErrorLocation, SelectorError};
pub use lol_base::{AttrSelectorOperator, CaseSensitivity, NthChild, ParsedCaseSensitivity};
pub use message::ErrorMessage;
pub use parser::{Selector, SelectorsParser};
pub use selector::{
    Combinator, ComplexSelector, Compound, CssString, SelectorList, SimpleSelector,
};
