//! Why a start tag wasn't answered.

use crate::tag_runs::RecoveryPoint;
use lol_memory::{MemoryLimitExceededError, PushError};
use lol_stack::{AddChildError, ExecutionCtx};
use std::alloc::AllocError;
use std::fmt;
use thiserror::Error;

/// A request for the attributes of a start tag, and for whether it closes itself (lol_html's `AuxStartTagInfoRequest`). It is handed to
/// `finish_start_tag`, or dropped: then its element isn't opened.
#[derive(Drop)]
pub struct AuxStartTagInfoRequest<E> {
    pub(crate) ctx: ExecutionCtx<'static, E>,
    pub(crate) point: RecoveryPoint,
}

/// Why a start tag wasn't answered (lol_html's `VmError`).
#[derive(Drop, Error)]
pub enum VmError<E> {
    /// Its attributes are asked for.
    #[error("the start tag's attributes are asked for: it is answered by `finish_start_tag`")]
    InfoRequest(AuxStartTagInfoRequest<E>),
    /// The charge for its element would pass the limiter's maximum.
    #[error(transparent)]
    MemoryLimitExceeded(MemoryLimitExceededError),
    /// An allocation failed.
    #[error(transparent)]
    Memory(AllocError),
    /// Its parent has as many children as can be counted.
    #[error("an element has as many children as can be counted")]
    CounterFull,
    /// An earlier tag was refused.
    #[error("an earlier start tag was refused: no other is answered")]
    Failed,
}

/// The variant's name: the data of an element needn't be `Debug`.
impl<E> fmt::Debug for VmError<E> {
    fn fmt<W: fmt::Write>(&self, f: &mut fmt::Formatter<W>) -> fmt::Result {
        f.write_str(match self {
            VmError::InfoRequest(_) => "InfoRequest",
            VmError::MemoryLimitExceeded(_) => "MemoryLimitExceeded",
            VmError::Memory(_) => "Memory",
            VmError::CounterFull => "CounterFull",
            VmError::Failed => "Failed",
        })
    }
}

impl<E> From<AddChildError> for VmError<E> {
    ghost use Rattle.std.specs.Prelude.{◌≡◌};
    ghost use Rattle.lol_machine.specs.VmErrors.{child_error};

    ghost from_gives = { λ error vm_error. vm_error ≡ child_error error };

    fn from(error: AddChildError) -> Self {
        match error {
            AddChildError::CounterFull => VmError::CounterFull,
            AddChildError::Memory(error) => VmError::Memory(error),
        }
    }
}

impl<E> From<PushError> for VmError<E> {
    ghost use Rattle.std.specs.Prelude.{◌≡◌};
    ghost use Rattle.lol_machine.specs.VmErrors.{push_error};

    ghost from_gives = { λ error vm_error. vm_error ≡ push_error error };

    fn from(error: PushError) -> Self {
        match error {
            PushError::Limit(error) => VmError::MemoryLimitExceeded(error),
            PushError::Memory(error) => VmError::Memory(error),
        }
    }
}
