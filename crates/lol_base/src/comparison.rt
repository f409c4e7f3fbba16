//! How an attribute's value is compared.

ghost use Rattle.std.specs.Prelude.{◌↔◌, IsTrue};
ghost use Rattle.lol_base.specs.SameText.{SameText};

use crate::caseless::eq_ignore_ascii_case;

/// An operator that compares an attribute's value with an operand (Selectors 4, sections 6.1 and 6.2), as in `selectors::attr`.
#[derive(Debug, Clone, Copy, PartialEq, Eq)]
pub enum AttrSelectorOperator {
    /// `=`
    Equal,
    /// `~=`
    Includes,
    /// `|=`
    DashMatch,
    /// `^=`
    Prefix,
    /// `*=`
    Substring,
    /// `$=`
    Suffix,
}

/// Whether a selector compares an attribute's value with or without the case of ASCII letters (Selectors 4, section 6.3), as in
/// `selectors::attr`.
#[derive(Debug, Clone, Copy, PartialEq, Eq)]
pub enum ParsedCaseSensitivity {
    /// The flag `s`.
    ExplicitCaseSensitive,
    /// The flag `i`.
    AsciiCaseInsensitive,
    /// No flag.
    CaseSensitive,
    /// No flag, at one of the names whose values compare without case on HTML elements.
    AsciiCaseInsensitiveIfInHtmlElementInHtmlDocument,
}

/// Whether two texts are compared with or without the case of ASCII letters, as in `selectors::attr`.
#[derive(Debug, Clone, Copy, PartialEq, Eq)]
pub enum CaseSensitivity {
    /// Letters of another case differ.
    CaseSensitive,
    /// ASCII letters are equal up to case.
    AsciiCaseInsensitive,
}

impl CaseSensitivity {
    /// Whether two texts are equal, for `AsciiCaseInsensitive` up to the case of ASCII letters.
    pub fn eq(self, a: &[u8], b: &[u8]) -> bool
        ensures { IsTrue result ↔ SameText self a.now b.now }
    {
        match self {
            CaseSensitivity::CaseSensitive => a == b,
            CaseSensitivity::AsciiCaseInsensitive => eq_ignore_ascii_case(a, b),
        }
    }
}
