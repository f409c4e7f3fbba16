//! Selectors as trees.

ghost use Rattle.std.specs.Prelude.{◌≡◌, IfOk, string_bytes, nat_eq};
ghost use Rattle.std.specs.Cmp.Lexicographic.{pointwise};
ghost use Rattle.std.specs.Cmp.{partial_equiv_from_equiv};
ghost use Rattle.std.proofs.lemmas.Cmp.{nat_list_eq_equiv};

use lol_base::{AttrSelectorOperator, NthChild, ParsedCaseSensitivity};
use std::alloc::{AllocError, Global};
use std::fmt;
use std::marker::Model;

/// A text of a selector: a name or a value.
#[derive(Drop)]
pub struct CssString {
    text: String,
}

impl Model for CssString {
    ghost use Rattle.std.specs.Prelude.{ℕ, List, string_bytes};

    ghost Value = { List ℕ };

    ghost view = { λ s. string_bytes s.text };
}

impl CssString {
    /// A copy of a text.
    pub fn new(alloc: Global, text: &str) -> Result<CssString, AllocError>
        ensures { IfOk result (λ s. s ≡ text.now) }
    {
        Ok(CssString {
            text: String::from_str(alloc, text)?,
        })
    }

    /// The text that a string holds.
    pub(crate) fn from_string(text: String) -> CssString
        ensures { result ≡ string_bytes text }
    {
        CssString { text }
    }

    /// A copy of the text.
    pub fn to_boxed_slice(&self, alloc: Global) -> Result<String, AllocError>
        ensures { IfOk result (λ s. string_bytes s ≡ self.now) }
    {
        String::from_str(alloc, self.as_str())
    }

    /// The text as it is after escapes were read.
    pub fn as_str(&self) -> &str
        ensures { result.now ≡ self.now }
    {
        self.text.as_str()
    }
}

impl PartialEq for CssString {
    ghost eq = { pointwise nat_eq };

    ghost laws = { partial_equiv_from_equiv nat_list_eq_equiv };

    fn eq(&self, other: &CssString) -> bool {
        self.text == other.text
    }
}

impl Eq for CssString {
    ghost laws = { nat_list_eq_equiv };
}

impl fmt::Debug for CssString {
    fn fmt<W: fmt::Write>(&self, f: &mut fmt::Formatter<W>) -> fmt::Result {
        fmt::Debug::fmt(&self.text, f)
    }
}

/// A combinator: how the element of a compound stands to that of the compound before it (Selectors 4, section 16).
#[derive(Debug, Clone, Copy, PartialEq, Eq)]
pub enum Combinator {
    /// `>`
    Child,
    /// White space.
    Descendant,
}

/// A simple selector: one part of a compound (Selectors 4, section 3.1).
#[derive(Debug, PartialEq, Eq, Drop)]
#[cycle(tree)]
pub enum SimpleSelector {
    /// `a`
    LocalName(CssString),

    /// `*`
    ExplicitUniversalType,

    /// The bar of `|a`: a name in no namespace.
    ExplicitNoNamespace,

    /// `#a`
    ID(CssString),

    /// `.a`
    Class(CssString),

    /// `[name]`, the name ASCII-lowercased.
    AttributeExists {
        name: CssString,
    },

    /// `[name=value]` and the like, the name ASCII-lowercased.
    AttributeComparison {
        name: CssString,
        value: CssString,
        operator: AttrSelectorOperator,
        case_sensitivity: ParsedCaseSensitivity,
    },

    /// `:nth-child(An+B)`, or `of_type` `:nth-of-type(An+B)`.
    Nth {
        of_type: bool,
        nth: NthChild,
    },

    /// `:not(..)`
    Negation(SelectorList),

    /// `:is(..)`
    Is(SelectorList),

    /// `:where(..)`
    Where(SelectorList),
}

/// A compound selector: simple selectors that one element has to match, in written order (Selectors 4, section 3.1).
#[derive(Debug, PartialEq, Eq, Drop)]
#[cycle(tree)]
pub struct Compound {
    pub parts: Vec<SimpleSelector>,
}

/// A complex selector: compounds, each with the combinator to the one before it (Selectors 4, section 3.1).
#[derive(Debug, PartialEq, Eq, Drop)]
#[cycle(tree)]
pub struct ComplexSelector {
    pub first: Compound,
    pub rest: Vec<(Combinator, Compound)>,
}

/// A selector list: complex selectors in written order (Selectors 4, section 4.1).
#[derive(Debug, PartialEq, Eq, Drop)]
#[cycle(tree)]
pub struct SelectorList {
    pub items: Vec<ComplexSelector>,
}
