//! Why a text is no selector, and where.

ghost use Rattle.std.specs.Prelude.{◌≡◌};
ghost use Rattle.lol_css.specs.declared.error.SelectorError.TheVariants.{Memory};

use std::alloc::{AllocError, AllocFailed};
use std::fmt;
use thiserror::Error;

/// The first cause for which a text is refused, as in lol_html's `selectors_vm::SelectorError`.
#[derive(Debug, Clone, Copy, PartialEq, Eq, Error)]
pub enum SelectorError {
    /// A token that can't stand where it does.
    #[error("Unexpected token in selector.")]
    UnexpectedToken,

    /// The text, or a bracket, ends where a token is wanted.
    #[error("Unexpected end of selector.")]
    UnexpectedEnd,

    /// `[` without a name after it.
    #[error("Missing attribute name in attribute selector.")]
    MissingAttributeName,

    /// An empty text or an empty item of a list.
    #[error("The selector is empty.")]
    EmptySelector,

    /// A combinator with no compound after it, as in `div >`.
    #[error("Dangling combinator in selector.")]
    DanglingCombinator,

    /// A token that can't stand where it does between `[` and `]`.
    #[error("Unexpected token in the attribute selector.")]
    UnexpectedTokenInAttribute,

    /// A pseudo-class or a pseudo-element that the machine doesn't know.
    #[error("Unsupported pseudo-class or pseudo-element in selector.")]
    UnsupportedPseudoClassOrElement,

    /// Never answered; lol_html has it.
    #[error("Nested negation in selector.")]
    NestedNegation,

    /// A name with a namespace, as in `svg|img`.
    #[error("Selectors with explicit namespaces are not supported.")]
    NamespacedSelector,

    /// `.` without a name directly after it.
    #[error("Invalid or unescaped class name in selector.")]
    InvalidClassName,

    /// Never answered; lol_html has it.
    #[error("Empty negation in selector.")]
    EmptyNegation,

    /// `+` or `~` between two compounds.
    #[error("Unsupported combinator `{0}` in selector.")]
    UnsupportedCombinator(char),

    /// A selector past the bounds of this reader.
    #[error("Unsupported syntax in selector.")]
    UnsupportedSyntax,

    /// Out of memory. (Not in lol_html.)
    #[error("Out of memory.")]
    Memory,
}

impl From<AllocError> for SelectorError {
    ghost from_gives = { λ _ error. error ≡ Memory };

    fn from(_error: AllocError) -> SelectorError {
        SelectorError::Memory
    }
}

impl<T: Drop> From<AllocFailed<T>> for SelectorError {
    ghost from_gives = { λ _ error. error ≡ Memory };

    fn from(_error: AllocFailed<T>) -> SelectorError {
        SelectorError::Memory
    }
}

/// What a rule of the grammar reads, or why it refuses.
pub(crate) type Read<T> = Result<T, SelectorError>;

/// Where a text is refused.
#[derive(Debug, Clone, Copy, PartialEq, Eq)]
pub struct ErrorLocation {
    /// The number of the item in the outermost list, from 0.
    pub item: usize,
    /// The byte offset in the text, as it is given, of the first token that is refused, or from which on a part or a step is refused late.
    pub offset: usize,
}

impl fmt::Display for ErrorLocation {
    fn fmt<W: fmt::Write>(&self, f: &mut fmt::Formatter<W>) -> fmt::Result {
        write!(f, "item {}, byte {}", self.item, self.offset)
    }
}
