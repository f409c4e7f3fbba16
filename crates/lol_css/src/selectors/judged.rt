//! What is refused only once the whole list was read.

use crate::error::SelectorError;

/// Why something is refused late, and the text from where it stands on.
#[derive(Clone, Copy)]
pub(crate) struct Refusal<'a> {
    pub cause: SelectorError,
    pub left: &'a [char],
}

/// What was read, or the first thing that is refused once the whole list was read.
pub(crate) type Judged<'a, T> = Result<T, Refusal<'a>>;
