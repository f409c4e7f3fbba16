//! The tags of a run and what is answered to them.

use lol_base::{AuxStartTagInfo, Namespace};
use lol_memory::MatchInfo;
use lol_program::Tries;
use thiserror::Error;

/// A tag of a document. (Not in lol_html, whose rewriter calls the machine tag by tag.)
#[derive(Clone, Copy)]
pub enum TagEvent<'i> {
    /// A start tag. Where its attributes are asked for they are handed over if `finish` is true; otherwise the tag is dropped.
    Start {
        ns: Namespace,
        finish: bool,
        name: &'i [u8],
        aux_info: AuxStartTagInfo<'i>,
    },
    /// An end tag.
    End {
        name: &'i [u8],
    },
}

/// What is answered to a tag. (Not in lol_html.)
#[derive(Debug, Drop)]
pub enum TagReport {
    /// A start tag: what it is reported under, ascending by id, whether its attributes were asked for, and what was tried.
    Started {
        asked: bool,
        matched: Vec<MatchInfo>,
        tries: Tries,
    },
    /// A start tag whose attributes were asked for and not handed over.
    Dropped,
    /// An end tag: the numbers of the start tags whose elements it closed, the outermost first.
    Ended {
        closed: Vec<usize>,
    },
}

/// Why a run was refused. (Not in lol_html.)
#[derive(Debug, Clone, Copy, PartialEq, Eq, Error)]
pub enum RunCause {
    /// An element's charge would have passed the limiter's maximum.
    #[error("the memory limit would have been passed")]
    MemoryLimitExceeded,
    /// An element has as many children as can be counted.
    #[error("an element has as many children as can be counted")]
    CounterFull,
    /// An allocation failed.
    #[error("out of memory")]
    Memory,
}

/// A refused run: the reports of the events before `event`, which was refused. (Not in lol_html.)
#[derive(Debug, Drop, Error)]
#[error("event {event} was refused: {cause}")]
pub struct RunRefusal {
    pub reports: Vec<TagReport>,
    pub event: usize,
    pub cause: RunCause,
}

/// The event that a run stopped at, and why. (Not in lol_html.)
#[derive(Debug, Clone, Copy, PartialEq, Eq, Error)]
#[error("event {event} was refused: {cause}")]
pub struct RunStop {
    pub event: usize,
    pub cause: RunCause,
}
