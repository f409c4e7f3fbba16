//! Why a chunk was refused.

use std::alloc::AllocError;
use thiserror::Error;

/// With the chunk the stream would be longer than `u64::MAX` bytes.
#[derive(Debug, Clone, Copy, PartialEq, Eq, Error)]
#[error("the stream is longer than 2^64 - 1 bytes")]
pub struct StreamTooLong;

/// Why the tags of a chunk weren't listed.
#[derive(Debug, Clone, Copy, PartialEq, Eq, Error)]
pub enum FeedError {
    /// With the chunk the stream would be longer than `u64::MAX` bytes.
    #[error("the stream is longer than 2^64 - 1 bytes")]
    StreamTooLong,
    /// An allocation failed.
    #[error("out of memory")]
    Memory,
}
