//! Why a page wasn't read on.

use lol_matcher::MatcherError;
use thiserror::Error;

/// Why a page wasn't read on.
#[derive(Debug, Clone, Copy, PartialEq, Eq, Error)]
pub enum PageReadError {
    /// With the chunk the page would be longer than `u64::MAX` bytes.
    #[error("the page is longer than 2^64 - 1 bytes")]
    PageTooLong,
    /// A tag is longer than the limit.
    #[error("a tag is too long")]
    TagTooLong,
    /// A start tag behind which a browser's tree decides how text is read.
    #[error("how a browser reads the text behind a tag depends on its tree")]
    Ambiguous,
    /// An allocation failed.
    #[error("out of memory")]
    Memory,
    /// A chunk was refused before.
    #[error("the page was refused before")]
    Failed,
}

/// Why a page wasn't read on.
#[derive(Debug, Drop, Error)]
pub enum PageError {
    /// The page was refused.
    #[error("{0}")]
    Read(PageReadError),
    /// A start tag was refused.
    #[error("{0}")]
    Matcher(MatcherError),
    /// An earlier call was refused.
    #[error("an earlier part of the page was refused")]
    Failed,
    /// An allocation failed.
    #[error("out of memory")]
    Memory,
}
