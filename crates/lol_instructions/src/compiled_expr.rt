//! Compiled tests of names, positions and attributes.

ghost use Rattle.std.specs.Prelude.{◌≡◌};
ghost use Rattle.lol_instructions.specs.Compiled.{sight, name_expr_holds, attribute_expr_holds};

use crate::attribute_matcher::{AttrExprOperands, AttributeMatcher};
use crate::selector_state::SelectorState;
use lol_base::{LocalName, NthChild};

/// What a compiled test asks of a name or a position.
#[derive(Drop)]
pub enum LocalNameExprTest {
    /// Every element passes.
    Any,
    /// No element passes.
    Never,
    /// The element's name.
    LocalName(LocalName<'static>),
    /// Its position among its parent's children.
    NthChild(NthChild),
    /// Its position among those of its name. Where children aren't counted by type no element passes.
    NthOfType(NthChild),
}

/// A compiled test that needs no attributes, as lol_html's `CompiledLocalNameExpr`.
#[derive(Drop)]
pub struct CompiledLocalNameExpr {
    pub test: LocalNameExprTest,
}

impl CompiledLocalNameExpr {
    /// Whether an element passes that has this name and these counters. It takes no memory.
    #[inline(always)]
    pub fn eval(&self, state: &SelectorState<'_>, local_name: &LocalName<'_>) -> bool
        ensures { result ≡ name_expr_holds self.now.test (sight state.now local_name.now) }
    {
        match &self.test {
            LocalNameExprTest::LocalName(name) => *local_name == *name,
            LocalNameExprTest::Any => true,
            LocalNameExprTest::Never => false,
            LocalNameExprTest::NthChild(nth) => state.cumulative.is_nth(*nth),
            LocalNameExprTest::NthOfType(nth) => {
                state.typed.is_some_and(|counter| counter.is_nth(*nth))
            }
        }
    }
}

/// What a compiled test asks of attributes.
#[derive(Drop)]
pub enum AttributeExprTest {
    /// No element passes.
    Never,
    /// The value of `id` is this.
    Id(Vec<u8>),
    /// A word of `class` is this.
    Class(Vec<u8>),
    /// The attribute is there.
    Exists(Vec<u8>),
    /// The attribute's value is the operand.
    Equal(AttrExprOperands),
    /// A word of the attribute's value is the operand.
    Includes(AttrExprOperands),
    /// The attribute's value is the operand, or begins with the operand and a hyphen.
    DashMatch(AttrExprOperands),
    /// The attribute's value begins with the operand.
    Prefix(AttrExprOperands),
    /// The attribute's value ends with the operand.
    Suffix(AttrExprOperands),
    /// The operand isn't empty and stands in the attribute's value.
    Substring(AttrExprOperands),
}

/// A compiled test of attributes, as lol_html's `CompiledAttributeExpr`.
#[derive(Drop)]
pub struct CompiledAttributeExpr {
    pub test: AttributeExprTest,
}

impl CompiledAttributeExpr {
    /// Whether an element passes that has these attributes, whatever its position is. It takes no memory.
    pub fn eval(&self, _state: &SelectorState<'_>, matcher: &AttributeMatcher<'_>) -> bool
        ensures { result ≡ attribute_expr_holds self.now.test matcher.now }
    {
        match &self.test {
            AttributeExprTest::Never => false,
            AttributeExprTest::Id(id) => matcher.has_id(id),
            AttributeExprTest::Class(name) => matcher.has_class(name),
            AttributeExprTest::Exists(name) => matcher.has_attribute(name),
            AttributeExprTest::Equal(operands) => matcher.attr_eq(operands),
            AttributeExprTest::Includes(operands) => {
                matcher.matches_splitted_by_whitespace(operands)
            }
            AttributeExprTest::DashMatch(operands) => matcher.has_dash_matching_attr(operands),
            AttributeExprTest::Prefix(operands) => matcher.has_attr_with_prefix(operands),
            AttributeExprTest::Suffix(operands) => matcher.has_attr_with_suffix(operands),
            AttributeExprTest::Substring(operands) => matcher.has_attr_with_substring(operands),
        }
    }
}
