//! Names, byte ranges and attribute outlines: what the selector machine is told of a tag; and how values are compared and
//! siblings counted.
#![tactic(auto)]

mod attributes;
mod bytes;
mod caseless;
mod comparison;
pub mod laws;
mod local_name;
mod namespace;
mod nth;
mod start_tag;
mod tag;

pub use attributes::Attributes;
pub use bytes::{Bytes, Range};
pub use comparison::{AttrSelectorOperator, CaseSensitivity, ParsedCaseSensitivity};
pub use local_name::LocalName;
pub use namespace::Namespace;
pub use nth::NthChild;
pub use start_tag::{AttributeBuffer, AttributeOutline, AuxStartTagInfo};
pub use tag::Tag;
