//! Memory that is charged before it is taken, and sets of ids.
#![tactic(auto)]

mod dense_hash_set;
mod dense_hash_set_iter;
pub mod laws;
mod limited_vec;
mod limiter;
mod match_info;
mod sparse_words;
mod words;

pub use dense_hash_set::DenseHashSet;
pub use dense_hash_set_iter::DenseHashSetIter;
pub use limited_vec::{Drain, LimitedVec, PushError};
pub use limiter::{MemoryLimitExceededError, SharedMemoryLimiter};
pub use match_info::{MatchId, MatchInfo};
