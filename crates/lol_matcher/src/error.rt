//! Why a call was refused.

ghost use Rattle.std.specs.Prelude.{◌≡◌, ◌↔◌, IsNone};

use lol_css::{ErrorLocation, ErrorMessage, SelectorError};
use thiserror::Error;

/// Why a text wasn't added.
#[derive(Debug, Clone, Copy, PartialEq, Eq, Error)]
pub enum AddError {
    /// The text isn't accepted as a selector: the cause, and which item of the list is refused from which byte on, both from 0.
    #[error("{cause} ({location})")]
    Refused {
        cause: SelectorError,
        location: ErrorLocation,
    },

    /// An allocation failed.
    #[error("out of memory")]
    Memory,
}

impl AddError {
    /// What people are told of the text that was added: why it is refused, and under it a caret at the place; nothing where an allocation
    /// failed.
    pub fn message<'a>(&self, text: &'a str) -> Option<ErrorMessage<'a>>
        ensures { IsNone result ↔ (self.now ≡ AddError.Memory) }
    {
        match *self {
            AddError::Refused { cause, location } => Some(ErrorMessage::new(text, cause, location)),
            AddError::Memory => None,
        }
    }
}

/// Why a tag wasn't answered.
#[derive(Debug, Clone, Copy, PartialEq, Eq, Error)]
pub enum MatcherError {
    /// The charge for the open elements would pass the memory limit.
    #[error("the memory limit would have been passed: too many elements are open at a time")]
    MemoryLimitExceeded,

    /// An allocation failed.
    #[error("out of memory")]
    Memory,

    /// The parent has as many children as can be counted.
    #[error("an element has as many children as can be counted")]
    CounterFull,

    /// An earlier tag was refused.
    #[error("an earlier start tag was refused: no other is answered")]
    Failed,

    /// Attributes were handed over, and no start tag waits for them.
    #[error("no start tag waits for its attributes")]
    NotAsked,

    /// The range of a name or of a value ends before it begins, or past the input's end.
    #[error("the range of an attribute's name or value lies outside the input")]
    OutsideInput,
}
