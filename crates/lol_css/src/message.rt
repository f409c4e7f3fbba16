//! What people are told of a text that is refused.

use crate::error::{ErrorLocation, SelectorError};
use std::fmt;

/// Why a text is refused, for people: the cause, and under the text's line a caret at the place, beside which stands what is refused there,
/// and for some causes what to write in its place. It takes no memory.
///
/// ```text
/// Unsupported pseudo-class or pseudo-element in selector.
///     p:has(a)
///      ^ `:has` isn't supported: what comes later in the page decides
/// ```
#[derive(Debug, Clone, Copy)]
pub struct ErrorMessage<'a> {
    text: &'a str,
    cause: SelectorError,
    offset: usize,
}

impl<'a> ErrorMessage<'a> {
    /// The message for a text that `Selector::from_str` refuses for this cause, and that `Selector::locate_error` places here.
    pub fn new(text: &'a str, cause: SelectorError, location: ErrorLocation) -> ErrorMessage<'a> {
        ErrorMessage {
            text,
            cause,
            offset: location.offset,
        }
    }
}

impl fmt::Display for ErrorMessage<'_> {
    fn fmt<W: fmt::Write>(&self, f: &mut fmt::Formatter<W>) -> fmt::Result {
        let note = Note::of(self.text, self.cause, self.offset);
        let (before, after) = parted(self.text, note.offset);
        let before = before.rsplit_once('\n').map_or(before, |(_, last)| last);
        let after = after.split_once('\n').map_or(after, |(first, _)| first);
        write!(f, "{}\n    ", self.cause)?;
        for c in before.chars().chain(after.chars()) {
            // Of the control characters the tab alone is shown.
            f.write_char(if c.is_control() && c != '\t' { ' ' } else { c })?;
        }
        write!(f, "\n    ")?;
        for c in before.chars() {
            f.write_char(if c == '\t' { c } else { ' ' })?;
        }
        write!(f, "^")?;
        if !note.part.is_empty() {
            write!(f, " `{}`", note.part)?;
        }
        write!(f, "{}", note.says)
    }
}

/// What stands before a byte offset, and what after it.
fn parted(text: &str, offset: usize) -> (&str, &str) {
    text.split_at_checked(offset).unwrap_or((text, ""))
}

/// What stands beside the caret, and where the caret is.
#[derive(Clone, Copy)]
struct Note<'a> {
    offset: usize,
    /// What is refused, as it is written; nothing where that says nothing.
    part: &'a str,
    says: &'static str,
}

impl<'a> Note<'a> {
    fn of(text: &'a str, cause: SelectorError, offset: usize) -> Note<'a> {
        let (before, after) = parted(text, offset);
        if let Some(digit) = digit_after_sign(after) {
            return Note {
                offset: offset.saturating_add(1),
                part: digit,
                says: " can't begin a name: a digit is written as an escape there, 1 as `\\31 `",
            };
        }
        let part = match cause {
            SelectorError::UnsupportedCombinator(_) => parted(after, 1).0,
            _ => "",
        };
        let says = match cause {
            SelectorError::UnsupportedPseudoClassOrElement if before.ends_with(':') => {
                return Note::of_pseudo(text, before, after);
            }
            SelectorError::UnsupportedPseudoClassOrElement => {
                " a step inside `:not`, `:is` or `:where`: complex selectors aren't supported there"
            }
            SelectorError::UnsupportedCombinator(_) => {
                " steps to a sibling, which isn't supported: only ancestors are known"
            }
            SelectorError::NamespacedSelector => {
                " no prefix is declared: write the name alone, or `*|` before an element's"
            }
            SelectorError::UnexpectedTokenInAttribute if before.trim_ascii_end().ends_with('=') => {
                " a value that is no name, as one that begins with a digit, is quoted"
            }
            _ => "",
        };
        Note { offset, part, says }
    }

    /// A pseudo-class or a pseudo-element whose name stands after the colons.
    fn of_pseudo(text: &'a str, before: &'a str, after: &'a str) -> Note<'a> {
        let start = before.strip_suffix(':').unwrap_or(before);
        let start = start.strip_suffix(':').unwrap_or(start);
        let name = name_of(after);
        let end = before.len().saturating_add(name.len());
        Note {
            offset: start.len(),
            part: parted(parted(text, end).0, start.len()).1,
            says: if LATER.iter().any(|later| name.eq_ignore_ascii_case(later)) {
                " isn't supported: what comes later in the page decides"
            } else {
                " isn't supported"
            },
        }
    }
}

/// The pseudo-classes for which what comes later in a page decides.
static LATER: [&str; 8] = [
    "has",
    "empty",
    "last-child",
    "last-of-type",
    "nth-last-child",
    "nth-last-of-type",
    "only-child",
    "only-of-type",
];

/// The digit that stands directly after a `.` or a `#`.
fn digit_after_sign(after: &str) -> Option<&str> {
    let name = after.strip_prefix('.').or(after.strip_prefix('#'))?;
    let digit = parted(name, 1).0;
    digit.as_bytes().first()?.is_ascii_digit().then_some(digit)
}

/// The name that a text begins with, as it is written.
fn name_of(text: &str) -> &str {
    let end = text.find(|c: char| {
        c.is_ascii() && !c.is_ascii_alphanumeric() && c != '-' && c != '_' && c != '\\'
    });
    parted(text, end.unwrap_or(text.len())).0
}
