//! Printed texts, which no contract says: those of causes, of refusals for memory, and of a string and a comparison as they are shown.

use crate::sets::expect;
use lol_css::{AttrSelectorOperator, CssString, ParsedCaseSensitivity, SelectorError};
use lol_memory::{MemoryLimitExceededError, PushError};
use lol_program::AttributeComparisonExpr;
use std::alloc::{AllocError, Global};
use std::fmt::{Debug, Display};
use std::process::Abort;
use std::test::Fail;

/// The text of each cause.
const CAUSES: [(SelectorError, &str); 15] = [
    (
        SelectorError::UnexpectedToken,
        "Unexpected token in selector.",
    ),
    (SelectorError::UnexpectedEnd, "Unexpected end of selector."),
    (
        SelectorError::MissingAttributeName,
        "Missing attribute name in attribute selector.",
    ),
    (SelectorError::EmptySelector, "The selector is empty."),
    (
        SelectorError::DanglingCombinator,
        "Dangling combinator in selector.",
    ),
    (
        SelectorError::UnexpectedTokenInAttribute,
        "Unexpected token in the attribute selector.",
    ),
    (
        SelectorError::UnsupportedPseudoClassOrElement,
        "Unsupported pseudo-class or pseudo-element in selector.",
    ),
    (
        SelectorError::NestedNegation,
        "Nested negation in selector.",
    ),
    (
        SelectorError::NamespacedSelector,
        "Selectors with explicit namespaces are not supported.",
    ),
    (
        SelectorError::InvalidClassName,
        "Invalid or unescaped class name in selector.",
    ),
    (SelectorError::EmptyNegation, "Empty negation in selector."),
    (
        SelectorError::UnsupportedCombinator('+'),
        "Unsupported combinator `+` in selector.",
    ),
    (
        SelectorError::UnsupportedCombinator('~'),
        "Unsupported combinator `~` in selector.",
    ),
    (
        SelectorError::UnsupportedSyntax,
        "Unsupported syntax in selector.",
    ),
    (SelectorError::Memory, "Out of memory."),
];

fn prints_as(alloc: Global, value: &impl Display, text: &str) -> Result<bool, AllocError> {
    Ok(format!(in alloc; "{value}")?.as_str() == text)
}

#[test]
fn causes_print_as_in_lol_html(rt: HostRuntime) -> Result<(), Fail> {
    for (cause, text) in &CAUSES {
        assert!(rt; prints_as(rt.alloc(), cause, text)?, "{text}");
    }
    Ok(())
}

#[test]
fn refusals_for_memory_have_their_text(rt: HostRuntime) -> Result<(), Fail> {
    let text = "The memory limit has been exceeded.";
    let limit = MemoryLimitExceededError;
    expect(&rt, prints_as(rt.alloc(), &limit, text))?;
    expect(&rt, prints_as(rt.alloc(), &PushError::Limit(limit), text))
}

fn is_shown_as(alloc: Global, value: &impl Debug, text: &str) -> Result<bool, AllocError> {
    Ok(format!(in alloc; "{value:?}")?.as_str() == text)
}

/// Operators with their names.
static OPERATORS: [(AttrSelectorOperator, &str); 6] = [
    (AttrSelectorOperator::Equal, "Equal"),
    (AttrSelectorOperator::Includes, "Includes"),
    (AttrSelectorOperator::DashMatch, "DashMatch"),
    (AttrSelectorOperator::Prefix, "Prefix"),
    (AttrSelectorOperator::Suffix, "Suffix"),
    (AttrSelectorOperator::Substring, "Substring"),
];

/// Whether `[foo="bar"]` or the like is shown with this name of its operator.
fn is_shown(alloc: Global, operator: AttrSelectorOperator, name: &str) -> Result<bool, AllocError> {
    let expr = AttributeComparisonExpr::new(
        String::from_str(alloc, "foo")?,
        String::from_str(alloc, "bar")?,
        ParsedCaseSensitivity::CaseSensitive,
        operator,
    );
    let wanted = format!(in alloc;
        "AttributeExpr {{ name: \"foo\", value: \"bar\", case_sensitivity: CaseSensitive, operator: \"AttrSelectorOperator::{name}\" }}"
    )?;
    is_shown_as(alloc, &expr, &wanted)
}

fn expect_shown(
    rt: &impl Abort,
    alloc: Global,
    rows: &[(AttrSelectorOperator, &str)],
) -> Result<(), Fail> {
    for (operator, name) in rows {
        assert!(rt; is_shown(alloc, *operator, name)?, "{name}");
    }
    Ok(())
}

#[test]
fn strings_and_comparisons_are_shown(rt: HostRuntime) -> Result<(), Fail> {
    let text = CssString::new(rt.alloc(), "div")?;
    expect(&rt, is_shown_as(rt.alloc(), &text, "\"div\""))?;
    expect_shown(&rt, rt.alloc(), &OPERATORS)
}
