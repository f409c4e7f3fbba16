//! The plain matcher's elements, and which tests they pass: the definitions, step by step.

ghost use Rattle.std.specs.Prelude.{◌≡◌, ◌&&◌, IfOk, map, string_bytes};
ghost use Rattle.lol_base.specs.Names.{same_name, lowercased};
ghost use Rattle.lol_instructions.specs.Tests.{Element, Compares, name_holds, attribute_holds, needs_operand, is_empty_text};
ghost use Rattle.lol_instructions.specs.Attributes.{tag_attributes, operands_hold};
ghost use Rattle.lol_instructions.specs.Compounds.{holds, all_hold, some_hold, any_of};
ghost use Rattle.lol_instructions.specs.Compounds as compounds;
ghost use Rattle.lol_program.specs.Predicates.{name_test, attribute_test, test_shown, tests_of};
ghost use Rattle.lol_vectors.specs.PlainElements.{element_shown};

use lol_base::LocalName;
use lol_css::AttrSelectorOperator;
use lol_program::{
    AttrExprOperands, AttributeComparisonExpr, AttributeMatcher, ChildCounter, NameValue,
    OnAttributesExpr, OnTagNameExpr, Predicate, Test,
};
use std::alloc::{AllocError, Global};

/// An element: what its start tag said, the number of that tag's event, and its places among its parent's children from 1 on.
#[derive(Drop)]
pub(crate) struct PlainElement<'e> {
    pub number: usize,
    pub name: &'e [u8],
    pub attributes: AttributeMatcher<'e>,
    pub self_closing: bool,
    pub finish: bool,
    pub position: ChildCounter,
    pub typed_position: ChildCounter,
}

/// Whether two names are equal up to ASCII case.
pub(crate) fn is_same_name(name: &[u8], other: &[u8]) -> bool
    ensures { result ≡ same_name name.now other.now }
{
    LocalName::new(name) == LocalName::new(other)
}

fn name_passes(test: &OnTagNameExpr, element: &PlainElement<'_>) -> bool
    ensures { result ≡ name_holds (name_test test.now) (element_shown element.now) }
{
    match test {
        OnTagNameExpr::ExplicitAny => true,
        OnTagNameExpr::Unmatchable => false,
        OnTagNameExpr::LocalName(name) => is_same_name(element.name, name.as_bytes()),
        OnTagNameExpr::NthChild(nth) => element.position.is_nth(*nth),
        OnTagNameExpr::NthOfType(nth) => element.typed_position.is_nth(*nth),
    }
}

fn attribute_passes(
    alloc: Global,
    test: &OnAttributesExpr,
    attributes: &AttributeMatcher<'_>,
) -> Result<bool, AllocError>
    ensures { IfOk result (λ passes. (e : Element) → attributes.now ≡ tag_attributes e.tag → passes
        ≡ attribute_holds (attribute_test test.now) e) }
{
    match test {
        OnAttributesExpr::Id(id) => Ok(attributes.has_id(id.as_bytes())),
        OnAttributesExpr::Class(name) => Ok(attributes.has_class(name.as_bytes())),
        OnAttributesExpr::AttributeExists(name) => Ok(attributes.has_attribute(name.as_bytes())),
        OnAttributesExpr::AttributeComparisonExpr(test) => {
            comparison_passes(alloc, test, attributes)
        }
    }
}

fn comparison_passes(
    alloc: Global,
    test: &AttributeComparisonExpr,
    attributes: &AttributeMatcher<'_>,
) -> Result<bool, AllocError>
    ensures { IfOk result (λ passes. (e : Element) → attributes.now ≡ tag_attributes e.tag
        → passes ≡ attribute_holds (Compares (string_bytes test.now.name) test.now.operator
        (string_bytes test.now.value) test.now.case_sensitivity) e) }
{
    if lacks_operand(test.operator, test.value.as_bytes()) {
        return Ok(false);
    }
    let operands = operands_of(alloc, test)?;
    Ok(operands_pass(test.operator, &operands, attributes))
}

/// Whether an operator needs an operand and has an empty one.
fn lacks_operand(operator: AttrSelectorOperator, operand: &[u8]) -> bool
    ensures { result ≡ (needs_operand operator && is_empty_text operand.now) }
{
    needs_an_operand(operator) && is_empty(operand)
}

fn is_empty(operand: &[u8]) -> bool
    ensures { result ≡ is_empty_text operand.now }
{
    matches!(operand, [])
}

fn needs_an_operand(operator: AttrSelectorOperator) -> bool
    ensures { result ≡ needs_operand operator }
{
    match operator {
        AttrSelectorOperator::Equal | AttrSelectorOperator::DashMatch => false,
        AttrSelectorOperator::Includes
        | AttrSelectorOperator::Prefix
        | AttrSelectorOperator::Substring
        | AttrSelectorOperator::Suffix => true,
    }
}

fn operands_of(
    alloc: Global,
    test: &AttributeComparisonExpr,
) -> Result<AttrExprOperands, AllocError>
    ensures name { IfOk result (λ operands. operands.name.items ≡ lowercased (string_bytes test.now.name)) }
    ensures value { IfOk result (λ operands. operands.value.items ≡ string_bytes test.now.value) }
    ensures case { IfOk result (λ operands. operands.case_sensitivity ≡ test.now.case_sensitivity) }
{
    Ok(AttrExprOperands {
        name: test.name.as_bytes().to_ascii_lowercase(alloc)?,
        value: test.value.as_bytes().to_vec(alloc)?,
        case_sensitivity: test.case_sensitivity,
    })
}

fn operands_pass(
    operator: AttrSelectorOperator,
    operands: &AttrExprOperands,
    attributes: &AttributeMatcher<'_>,
) -> bool
    ensures { result ≡ operands_hold operator operands.now attributes.now }
{
    match operator {
        AttrSelectorOperator::Equal => attributes.attr_eq(operands),
        AttrSelectorOperator::Includes => attributes.matches_splitted_by_whitespace(operands),
        AttrSelectorOperator::DashMatch => attributes.has_dash_matching_attr(operands),
        AttrSelectorOperator::Prefix => attributes.has_attr_with_prefix(operands),
        AttrSelectorOperator::Substring => attributes.has_attr_with_substring(operands),
        AttrSelectorOperator::Suffix => attributes.has_attr_with_suffix(operands),
    }
}

#[cycle(passing)]
pub(crate) fn test_passes(
    alloc: Global,
    test: &Test,
    element: &PlainElement<'_>,
) -> Result<bool, AllocError>
    ensures { IfOk result (λ passes. passes ≡ holds (test_shown test.now) (element_shown element.now)) }
{
    match test {
        Test::Name(test) => Ok(name_passes(test, element)),
        Test::Attribute(test) => attribute_passes(alloc, test, &element.attributes),
        Test::NoneOf(predicates) => Ok(!some_pass(alloc, predicates, element)?),
        Test::SomeOf(predicates) => some_pass(alloc, predicates, element),
    }
}

/// Whether an element passes all tests of a compound.
#[cycle(passing)]
pub(crate) fn predicate_passes(
    alloc: Global,
    predicate: &Predicate,
    element: &PlainElement<'_>,
) -> Result<bool, AllocError>
    ensures { IfOk result (λ passes. passes ≡ all_hold (tests_of predicate.now) (element_shown element.now)) }
{
    for test in &predicate.tests {
        if !test_passes(alloc, test, element)? {
            return Ok(false);
        }
    }
    Ok(true)
}

/// Whether an element passes some of these compounds.
#[cycle(passing)]
fn some_pass(
    alloc: Global,
    predicates: &[Predicate],
    element: &PlainElement<'_>,
) -> Result<bool, AllocError>
    ensures { IfOk result (λ passes. passes ≡ some_hold (any_of (map tests_of predicates.now))
        (element_shown element.now)) }
{
    for predicate in predicates {
        if predicate_passes(alloc, predicate, element)? {
            return Ok(true);
        }
    }
    Ok(false)
}

#[cycle(valuing)]
fn test_by_names(test: &Test, element: &PlainElement<'_>) -> NameValue
    ensures { result ≡ compounds.test_by_names (test_shown test.now) (element_shown element.now) }
{
    match test {
        Test::Name(test) => value_of_bool(name_passes(test, element)),
        Test::Attribute(_) => NameValue::Open,
        Test::NoneOf(predicates) => opposite(some_by_names(predicates, element)),
        Test::SomeOf(predicates) => some_by_names(predicates, element),
    }
}

/// What an element's name and position alone say of a compound.
#[cycle(valuing)]
pub(crate) fn by_names(predicate: &Predicate, element: &PlainElement<'_>) -> NameValue
    ensures { result ≡ compounds.by_names (tests_of predicate.now) (element_shown element.now) }
{
    let mut value = NameValue::True;
    for test in &predicate.tests {
        value = both(value, test_by_names(test, element));
    }
    value
}

#[cycle(valuing)]
fn some_by_names(predicates: &[Predicate], element: &PlainElement<'_>) -> NameValue
    ensures { result ≡ compounds.some_by_names (any_of (map tests_of predicates.now)) (element_shown element.now) }
{
    let mut value = NameValue::False;
    for predicate in predicates {
        value = either(value, by_names(predicate, element));
    }
    value
}

fn value_of_bool(passes: bool) -> NameValue
    ensures { result ≡ compounds.value_of_bool passes }
{
    if passes {
        NameValue::True
    } else {
        NameValue::False
    }
}

fn both(value: NameValue, other: NameValue) -> NameValue
    ensures { result ≡ compounds.both value other }
{
    match (value, other) {
        (NameValue::False, _) | (_, NameValue::False) => NameValue::False,
        (NameValue::True, NameValue::True) => NameValue::True,
        _ => NameValue::Open,
    }
}

fn either(value: NameValue, other: NameValue) -> NameValue
    ensures { result ≡ compounds.either value other }
{
    match (value, other) {
        (NameValue::True, _) | (_, NameValue::True) => NameValue::True,
        (NameValue::False, NameValue::False) => NameValue::False,
        _ => NameValue::Open,
    }
}

fn opposite(value: NameValue) -> NameValue
    ensures { result ≡ compounds.opposite value }
{
    match value {
        NameValue::True => NameValue::False,
        NameValue::False => NameValue::True,
        NameValue::Open => NameValue::Open,
    }
}
