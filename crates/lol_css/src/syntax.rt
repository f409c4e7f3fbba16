//! CSS Syntax Level 3: code points, tokens and An+B.

pub(crate) mod an_plus_b;
pub(crate) mod places;
pub(crate) mod points;
pub(crate) mod reader;
pub(crate) mod texts;
pub(crate) mod tokens;
