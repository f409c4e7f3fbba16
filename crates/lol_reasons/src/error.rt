//! Why texts weren't numbered.

use std::alloc::AllocError;
use thiserror::Error;

/// Why the items of texts weren't numbered.
#[derive(Debug, Clone, Copy, PartialEq, Eq, Error)]
pub enum NumberingError {
    /// There are more items than ids: more than 4,294,967,296.
    #[error("there are more selectors than ids")]
    TooManyItems,
    /// An allocation failed.
    #[error("out of memory")]
    Memory,
}

impl From<AllocError> for NumberingError {
    ghost use Rattle.std.specs.Prelude.{◌≡◌};
    ghost use Rattle.lol_reasons.specs.declared.error.NumberingError.TheVariants.{Memory};

    ghost from_gives = { λ _ error. error ≡ Memory };

    fn from(_: AllocError) -> Self {
        NumberingError::Memory
    }
}
