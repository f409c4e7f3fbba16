//! A list that is charged while it lives.

ghost use Rattle.std.specs.Prelude.{◌≡◌, ◌<◌, ◌↔◌, IsErrOf};
ghost use Rattle.lol_memory.specs.Limiter.{Passes};

use lol_memory::{LimitedVec, PushError, SharedMemoryLimiter};
use std::alloc::Global;

/// Puts a number into a list of its own, whose slots are charged for 16 bytes each, and drops the list.
///
/// # Errors
/// That of the push: `Limit` exactly if the charge for 8 slots would pass the maximum.
pub fn push_once(alloc: Global, limiter: &mut SharedMemoryLimiter) -> Result<(), PushError>
    ensures limited { IsErrOf result (PushError.Limit (record {})) ↔ Passes limiter.old 128 }
    ensures usage { limiter.new ≡ limiter.old }
{
    let mut numbers = LimitedVec::new(alloc, 16);
    let pushed = numbers.push(7, limiter);
    numbers.release(limiter);
    pushed
}
