//! The tests of a selector's parts.
//!
//! Which test a part has is written twice: as a test that is made (`from_simple`) and as a comparison with one that is there (`is_of`). A
//! part is compared with the tests of up to 32 siblings before its own is made; if it were made first, each selector that has a node
//! already would allocate for one that is thrown away.

ghost use Rattle.std.specs.Prelude.{◌≡◌, ◌↔◌, IfOk, IsTrue, string_bytes};
ghost use Rattle.std.specs.Option.{option_map};
ghost use Rattle.lol_css.specs.TreeViews.{part_of};
ghost use Rattle.lol_instructions.specs.Compounds.{OfName, OfAttributes};
ghost use Rattle.lol_program.specs.Conditions.{plain_test, part_test};
ghost use Rattle.lol_program.specs.Predicates.{name_test, attribute_test, condition_test};

use lol_css::{AttrSelectorOperator, CssString, NthChild, ParsedCaseSensitivity, SimpleSelector};
use std::alloc::{AllocError, Global};
use std::fmt;

/// A test that needs no attributes, as in lol_html.
#[derive(Debug, Drop, PartialEq, Eq)]
pub enum OnTagNameExpr {
    /// Every element passes.
    ExplicitAny,
    /// No element passes.
    Unmatchable,
    /// The element's name.
    LocalName(String),
    /// Its place among its parent's children.
    NthChild(NthChild),
    /// Its place among those of its name.
    NthOfType(NthChild),
}

impl OnTagNameExpr {
    /// Whether this is the test of a part.
    pub(crate) fn is_of(&self, part: &SimpleSelector) -> bool
        ensures { IsTrue result ↔ (OfName (name_test self.now) ≡ part_test (part_of part.now)) }
    {
        match (self, part) {
            (OnTagNameExpr::ExplicitAny, SimpleSelector::ExplicitUniversalType)
            | (OnTagNameExpr::Unmatchable, SimpleSelector::ExplicitNoNamespace) => true,
            (OnTagNameExpr::LocalName(name), SimpleSelector::LocalName(other)) => {
                name.as_str() == other.as_str()
            }
            (
                OnTagNameExpr::NthChild(nth),
                SimpleSelector::Nth {
                    of_type,
                    nth: other,
                },
            ) => { !of_type && nth == other }
            (
                OnTagNameExpr::NthOfType(nth),
                SimpleSelector::Nth {
                    of_type,
                    nth: other,
                },
            ) => { *of_type && nth == other }
            _ => false,
        }
    }
}

/// A test of attributes, as in lol_html.
#[derive(Debug, Drop, PartialEq, Eq)]
pub enum OnAttributesExpr {
    /// The value of `id`.
    Id(String),
    /// A word of `class`.
    Class(String),
    /// An attribute is there.
    AttributeExists(String),
    /// An attribute's value stands to an operand as an operator says.
    AttributeComparisonExpr(AttributeComparisonExpr),
}

/// A comparison of an attribute's value, as in lol_html.
#[derive(Drop, PartialEq, Eq)]
pub struct AttributeComparisonExpr {
    pub name: String,
    pub value: String,
    pub case_sensitivity: ParsedCaseSensitivity,
    pub operator: AttrSelectorOperator,
}

impl OnAttributesExpr {
    /// Whether this is the test of a part.
    pub(crate) fn is_of(&self, part: &SimpleSelector) -> bool
        ensures { IsTrue result ↔ (OfAttributes (attribute_test self.now) ≡ part_test (part_of part.now)) }
    {
        match (self, part) {
            (OnAttributesExpr::Id(name), SimpleSelector::ID(other))
            | (OnAttributesExpr::Class(name), SimpleSelector::Class(other))
            | (
                OnAttributesExpr::AttributeExists(name),
                SimpleSelector::AttributeExists { name: other },
            ) => name.as_str() == other.as_str(),
            (
                OnAttributesExpr::AttributeComparisonExpr(test),
                SimpleSelector::AttributeComparison {
                    name,
                    value,
                    operator,
                    case_sensitivity,
                },
            ) => {
                test.name.as_str() == name.as_str()
                    && test.value.as_str() == value.as_str()
                    && test.operator == *operator
                    && test.case_sensitivity == *case_sensitivity
            }
            _ => false,
        }
    }
}

impl AttributeComparisonExpr {
    /// A comparison with the operand `value`.
    pub fn new(
        name: String,
        value: String,
        case_sensitivity: ParsedCaseSensitivity,
        operator: AttrSelectorOperator,
    ) -> Self
        ensures { result
            ≡ record { name = name; value = value; case_sensitivity = case_sensitivity; operator = operator } }
    {
        AttributeComparisonExpr {
            name,
            value,
            case_sensitivity,
            operator,
        }
    }
}

impl fmt::Debug for AttributeComparisonExpr {
    fn fmt<W: fmt::Write>(&self, f: &mut fmt::Formatter<W>) -> fmt::Result {
        let operator = match self.operator {
            AttrSelectorOperator::Equal => "AttrSelectorOperator::Equal",
            AttrSelectorOperator::Includes => "AttrSelectorOperator::Includes",
            AttrSelectorOperator::DashMatch => "AttrSelectorOperator::DashMatch",
            AttrSelectorOperator::Prefix => "AttrSelectorOperator::Prefix",
            AttrSelectorOperator::Substring => "AttrSelectorOperator::Substring",
            AttrSelectorOperator::Suffix => "AttrSelectorOperator::Suffix",
        };
        f.debug_struct("AttributeExpr")
            .field("name", &self.name)
            .field("value", &self.value)
            .field("case_sensitivity", &self.case_sensitivity)
            .field("operator", &operator)
            .finish()
    }
}

/// The test of a part, as in lol_html.
#[derive(Debug, Drop, PartialEq, Eq)]
pub enum Condition {
    OnTagName(OnTagNameExpr),
    OnAttributes(OnAttributesExpr),
}

impl Condition {
    /// The test of a part; none for `:not`, `:is` and `:where`, whose tests are trees. (lol_html's `From<&Component>`.)
    pub fn from_simple(
        alloc: Global,
        part: &SimpleSelector,
    ) -> Result<Option<Condition>, AllocError>
        ensures { IfOk result (λ condition. option_map condition_test condition ≡ plain_test (part_of part.now)) }
    {
        Ok(Some(match part {
            SimpleSelector::LocalName(name) => {
                Condition::OnTagName(OnTagNameExpr::LocalName(name.to_boxed_slice(alloc)?))
            }
            SimpleSelector::ExplicitUniversalType => {
                Condition::OnTagName(OnTagNameExpr::ExplicitAny)
            }
            SimpleSelector::ExplicitNoNamespace => Condition::OnTagName(OnTagNameExpr::Unmatchable),
            SimpleSelector::ID(id) => {
                Condition::OnAttributes(OnAttributesExpr::Id(id.to_boxed_slice(alloc)?))
            }
            SimpleSelector::Class(name) => {
                Condition::OnAttributes(OnAttributesExpr::Class(name.to_boxed_slice(alloc)?))
            }
            SimpleSelector::AttributeExists { name } => Condition::OnAttributes(
                OnAttributesExpr::AttributeExists(name.to_boxed_slice(alloc)?),
            ),
            SimpleSelector::AttributeComparison {
                name,
                value,
                operator,
                case_sensitivity,
            } => Condition::OnAttributes(OnAttributesExpr::AttributeComparisonExpr(
                AttributeComparisonExpr::new(
                    name.to_boxed_slice(alloc)?,
                    value.to_boxed_slice(alloc)?,
                    *case_sensitivity,
                    *operator,
                ),
            )),
            SimpleSelector::Nth { of_type, nth } => Condition::OnTagName(if *of_type {
                OnTagNameExpr::NthOfType(*nth)
            } else {
                OnTagNameExpr::NthChild(*nth)
            }),
            SimpleSelector::Negation(_) | SimpleSelector::Is(_) | SimpleSelector::Where(_) => {
                return Ok(None);
            }
        }))
    }
}
