//! The numbers that C gets: bindings/c/zugrenja.h names them.

ghost use Rattle.std.specs.Prelude.{◌≡◌, IfSome};
ghost use Rattle.zugrenja_c.specs.Numbers.{cause_number, error_number, numbered_namespace};
ghost use Rattle.zugrenja_c.specs.Sessions.{refusal_written};

use lol_matcher::{ErrorLocation, MatcherError, Namespace, SelectorError};

/// The call was done.
pub(crate) const GOOD: u32 = 0;

/// The start tag's attributes are asked for.
pub(crate) const NEEDS_ATTRIBUTES: u32 = 1;

/// Memory was refused, and nothing has changed.
pub(crate) const OUT_OF_MEMORY: u32 = 4;

/// The handle is all zeros, or was freed.
pub(crate) const NO_MATCHER: u32 = 5;

/// The handle is in use already.
pub(crate) const IN_USE: u32 = 6;

/// The matcher isn't built yet.
pub(crate) const NOT_BUILT: u32 = 7;

/// The matcher is built already.
pub(crate) const BUILT: u32 = 8;

/// A selector's text isn't UTF-8.
pub(crate) const NOT_UTF8: u32 = 9;

/// A selector's text isn't accepted.
pub(crate) const NOT_ACCEPTED: u32 = 10;

/// No namespace has this number.
pub(crate) const NO_NAMESPACE: u32 = 11;

/// The last tag has opened no element.
pub(crate) const NOT_OPENED: u32 = 18;

/// The matcher doesn't explain.
pub(crate) const NOT_EXPLAINING: u32 = 19;

/// There are more items of selectors than ids.
pub(crate) const TOO_MANY_ITEMS: u32 = 20;

/// The matcher explains, and has no rows.
pub(crate) const EXPLAINS: u32 = 21;

/// The number of the error that a matcher answers a tag with.
pub(crate) fn number_of(error: MatcherError) -> u32
    ensures { result ≡ error_number error }
{
    match error {
        MatcherError::MemoryLimitExceeded => 12,
        MatcherError::CounterFull => 13,
        MatcherError::Memory => 14,
        MatcherError::Failed => 15,
        MatcherError::NotAsked => 16,
        MatcherError::OutsideInput => 17,
    }
}

/// The namespace of a number.
pub(crate) fn namespace_of(number: u32) -> Option<Namespace>
    ensures { result ≡ numbered_namespace number }
{
    match number {
        0 => Some(Namespace::Html),
        1 => Some(Namespace::Svg),
        2 => Some(Namespace::MathML),
        _ => None,
    }
}

/// Why and where a selector's text isn't accepted. Starts as zeros.
#[repr(C)]
#[derive(Clone, Copy)]
pub struct Refusal {
    /// The number of the cause.
    pub cause: u32,
    /// The combinator that isn't supported, as a code point, or 0.
    pub combinator: u32,
    /// The number of the item in the list, from 0.
    pub item: usize,
    /// The byte offset in the text, from 0.
    pub offset: usize,
}

impl Refusal {
    /// For this cause, in this place.
    pub(crate) fn of(cause: SelectorError, location: ErrorLocation) -> Refusal
        ensures { result ≡ refusal_written cause location }
    {
        Refusal {
            cause: number_of_cause(cause),
            combinator: match cause {
                SelectorError::UnsupportedCombinator(combinator) => combinator as u32,
                _ => 0,
            },
            item: location.item,
            offset: location.offset,
        }
    }

    /// The cause, where its number is that of one that refuses a text.
    pub(crate) fn cause(&self) -> Option<SelectorError>
        ensures { IfSome result (λ cause. cause_number cause ≡ self.now.cause) }
    {
        Some(match self.cause {
            0 => SelectorError::UnexpectedToken,
            1 => SelectorError::UnexpectedEnd,
            2 => SelectorError::MissingAttributeName,
            3 => SelectorError::EmptySelector,
            4 => SelectorError::DanglingCombinator,
            5 => SelectorError::UnexpectedTokenInAttribute,
            6 => SelectorError::UnsupportedPseudoClassOrElement,
            7 => SelectorError::NestedNegation,
            8 => SelectorError::NamespacedSelector,
            9 => SelectorError::InvalidClassName,
            10 => SelectorError::EmptyNegation,
            11 => SelectorError::UnsupportedCombinator(char::from_u32(self.combinator)?),
            12 => SelectorError::UnsupportedSyntax,
            _ => return None,
        })
    }
}

/// The number of a cause: its place among lol_html's.
fn number_of_cause(cause: SelectorError) -> u32
    ensures { result ≡ cause_number cause }
{
    match cause {
        SelectorError::UnexpectedToken => 0,
        SelectorError::UnexpectedEnd => 1,
        SelectorError::MissingAttributeName => 2,
        SelectorError::EmptySelector => 3,
        SelectorError::DanglingCombinator => 4,
        SelectorError::UnexpectedTokenInAttribute => 5,
        SelectorError::UnsupportedPseudoClassOrElement => 6,
        SelectorError::NestedNegation => 7,
        SelectorError::NamespacedSelector => 8,
        SelectorError::InvalidClassName => 9,
        SelectorError::EmptyNegation => 10,
        SelectorError::UnsupportedCombinator(_) => 11,
        SelectorError::UnsupportedSyntax => 12,
        SelectorError::Memory => 13,
    }
}
