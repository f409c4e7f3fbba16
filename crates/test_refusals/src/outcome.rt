//! How a scenario ends.

use std::alloc::AllocError;

/// What a scenario met whose answers were all as they have to be.
#[derive(Clone, Copy, PartialEq, Eq)]
pub(crate) enum Met {
    /// No request was refused.
    Nothing,

    /// A request was refused and answered as out of memory; what has to stand stood, and with memory the same call answered exactly.
    Refusal,
}

impl Met {
    /// What was met, where an answer is exact.
    pub(crate) fn if_holds(self, holds: bool) -> Result<Met, Stop> {
        if holds { Ok(self) } else { Err(Stop::Wrong) }
    }

    /// What two calls met together.
    pub(crate) fn and(self, other: Met) -> Met {
        match self {
            Met::Nothing => other,
            Met::Refusal => Met::Refusal,
        }
    }
}

/// What a call meets that is made again after a refusal.
pub(crate) const TURNS: [Met; 2] = [Met::Nothing, Met::Refusal];

/// Why a scenario stops early.
#[derive(Clone, Copy)]
pub(crate) enum Stop {
    /// A request of the scenario's own was refused.
    Own,

    /// An answer or a state was another than it has to be.
    Wrong,
}

impl From<AllocError> for Stop {
    fn from(_: AllocError) -> Self {
        Stop::Own
    }
}

/// Stops where something doesn't hold.
pub(crate) fn expect(holds: bool) -> Result<(), Stop> {
    if holds { Ok(()) } else { Err(Stop::Wrong) }
}

/// That a call was answered, where its answer is exact.
pub(crate) fn exactly(holds: bool) -> Result<bool, Stop> {
    if holds { Ok(true) } else { Err(Stop::Wrong) }
}
