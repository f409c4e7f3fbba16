//! From tests to compiled tests.

ghost use Rattle.std.specs.Prelude.{◌≡◌, ◌||◌, IfOk, OnOk, IsTrue, map, string_bytes};
ghost use Rattle.lol_instructions.specs.Compounds.{is_by_type, test_has_type, has_test_by_type, some_has_type, all_of, any_of};
ghost use Rattle.lol_instructions.specs.Tests.{Compares};
ghost use Rattle.lol_program.specs.Predicates.{name_test, attribute_test, test_shown, tests_of};
ghost use Rattle.lol_instructions.specs.Keys.{name_key_test, attribute_key_test, key_test, key_tests};
ghost use Rattle.lol_instructions.specs.CompiledKeys.{name_expr_key_test, attribute_expr_key_test, compiled_key_test};
ghost use Rattle.lol_program.specs.Compiling.{IsCompiledName, IsCompiledAttribute, IsCompiledTest, AreCompiledTests, AreCompiledPredicates};

use crate::condition::{AttributeComparisonExpr, OnAttributesExpr, OnTagNameExpr};
use crate::predicate::{Predicate, Test};
use lol_base::LocalName;
use lol_css::AttrSelectorOperator;
use lol_instructions::{
    AttrExprOperands, AttributeExprTest, CompiledAttributeExpr, CompiledLocalNameExpr,
    CompiledPredicate, CompiledTest, LocalNameExprTest,
};
use std::alloc::{AllocError, Global};

/// What compiles to a test (lol_html's `Compilable`).
pub trait Compilable {
    ghost use Rattle.lol_instructions.specs.Compounds as compounds;

    /// The test that is compiled.
    ghost test_of: { Self → compounds.Test };

    /// The compiled test. The flag is set where a test by type is in it, at any depth, and isn't changed otherwise. It is refused where
    /// memory is.
    fn compile(
        self,
        alloc: Global,
        enable_nth_of_type: &mut bool,
    ) -> Result<CompiledTest, AllocError>
        ensures test { IfOk result (λ compiled. IsCompiledTest compiled (test_of self)) }
        ensures keys { IfOk result (λ compiled. compiled_key_test compiled ≡ key_test (test_of self)) }
        ensures flag { OnOk result (enable_nth_of_type.new ≡ (enable_nth_of_type.old || test_has_type (test_of self))) }
        ensures stays { IsTrue enable_nth_of_type.old → IsTrue enable_nth_of_type.new };
}

impl Compilable for Test {
    ghost test_of = { test_shown };

    /// The compiled test, into which names and operands move. A comparison's name is kept in ASCII lower case, and that of a test that an
    /// attribute is there as it is, so that with a capital in it no attribute has it. `~=`, `^=`, `$=` and `*=` with an empty operand become
    /// a test of attributes that no element passes.
    #[cycle(compiling)]
    fn compile(
        self,
        alloc: Global,
        enable_nth_of_type: &mut bool,
    ) -> Result<CompiledTest, AllocError> {
        match self {
            Test::Name(expr) => Ok(CompiledTest::Name(CompiledLocalNameExpr {
                test: compile_name(expr, enable_nth_of_type),
            })),
            Test::Attribute(expr) => Ok(CompiledTest::Attribute(CompiledAttributeExpr {
                test: compile_attribute(expr),
            })),
            Test::NoneOf(predicates) => Ok(CompiledTest::NoneOf(compile_predicates(
                alloc,
                predicates,
                enable_nth_of_type,
            )?)),
            Test::SomeOf(predicates) => Ok(CompiledTest::SomeOf(compile_predicates(
                alloc,
                predicates,
                enable_nth_of_type,
            )?)),
        }
    }
}

/// The tests of a compound, in order.
#[cycle(compiling)]
// Called in each step of a recursion, it would take more of the stack.
#[inline(always)]
pub(crate) fn compile_tests(
    alloc: Global,
    tests: Vec<Test>,
    enable_nth_of_type: &mut bool,
) -> Result<Vec<CompiledTest>, AllocError>
    ensures tests { IfOk result (λ compiled. AreCompiledTests compiled.items (all_of (map test_shown tests.items))) }
    ensures keys { IfOk result (λ compiled.
        map compiled_key_test compiled.items ≡ key_tests (all_of (map test_shown tests.items))) }
    ensures flag { OnOk result (enable_nth_of_type.new
        ≡ (enable_nth_of_type.old || has_test_by_type (all_of (map test_shown tests.items)))) }
    ensures stays { IsTrue enable_nth_of_type.old → IsTrue enable_nth_of_type.new }
{
    let mut compiled = Vec::with_capacity(alloc, tests.len())?;
    for test in tests {
        compiled.push_reserved(test.compile(alloc, enable_nth_of_type)?);
    }
    Ok(compiled)
}

/// The compounds of a list, in order.
#[cycle(compiling)]
fn compile_predicates(
    alloc: Global,
    predicates: Vec<Predicate>,
    enable_nth_of_type: &mut bool,
) -> Result<Vec<CompiledPredicate>, AllocError>
    ensures predicates { IfOk result
        (λ compiled. AreCompiledPredicates compiled.items (any_of (map tests_of predicates.items))) }
    ensures flag { OnOk result (enable_nth_of_type.new
        ≡ (enable_nth_of_type.old || some_has_type (any_of (map tests_of predicates.items)))) }
    ensures stays { IsTrue enable_nth_of_type.old → IsTrue enable_nth_of_type.new }
{
    let mut compiled = Vec::with_capacity(alloc, predicates.len())?;
    for predicate in predicates {
        let tests = compile_tests(alloc, predicate.tests, enable_nth_of_type)?;
        compiled.push_reserved(CompiledPredicate::new(tests));
    }
    Ok(compiled)
}

fn compile_name(expr: OnTagNameExpr, enable_nth_of_type: &mut bool) -> LocalNameExprTest
    ensures test { IsCompiledName result (name_test expr) }
    ensures keys { name_expr_key_test result ≡ name_key_test (name_test expr) }
    ensures flag { enable_nth_of_type.new ≡ (enable_nth_of_type.old || is_by_type (name_test expr)) }
{
    match expr {
        OnTagNameExpr::ExplicitAny => LocalNameExprTest::Any,
        OnTagNameExpr::Unmatchable => LocalNameExprTest::Never,
        OnTagNameExpr::LocalName(name) => {
            LocalNameExprTest::LocalName(LocalName::from_vec(name.into_bytes()))
        }
        OnTagNameExpr::NthChild(nth) => LocalNameExprTest::NthChild(nth),
        OnTagNameExpr::NthOfType(nth) => {
            *enable_nth_of_type = true;
            LocalNameExprTest::NthOfType(nth)
        }
    }
}

fn compile_attribute(expr: OnAttributesExpr) -> AttributeExprTest
    ensures test { IsCompiledAttribute result (attribute_test expr) }
    ensures keys { attribute_expr_key_test result ≡ attribute_key_test (attribute_test expr) }
{
    match expr {
        OnAttributesExpr::Id(id) => AttributeExprTest::Id(id.into_bytes()),
        OnAttributesExpr::Class(name) => AttributeExprTest::Class(name.into_bytes()),
        OnAttributesExpr::AttributeExists(name) => AttributeExprTest::Exists(name.into_bytes()),
        OnAttributesExpr::AttributeComparisonExpr(expr) => compile_comparison(expr),
    }
}

fn compile_comparison(expr: AttributeComparisonExpr) -> AttributeExprTest
    ensures test { IsCompiledAttribute result
        (Compares (string_bytes expr.name) expr.operator (string_bytes expr.value) expr.case_sensitivity) }
    ensures keys { attribute_expr_key_test result ≡ attribute_key_test
        (Compares (string_bytes expr.name) expr.operator (string_bytes expr.value) expr.case_sensitivity) }
{
    let AttributeComparisonExpr {
        mut name,
        value,
        case_sensitivity,
        operator,
    } = expr;
    name.make_ascii_lowercase();
    let is_empty = value.is_empty();
    let operands = AttrExprOperands {
        name: name.into_bytes(),
        value: value.into_bytes(),
        case_sensitivity,
    };
    match operator {
        AttrSelectorOperator::Equal => AttributeExprTest::Equal(operands),
        AttrSelectorOperator::DashMatch => AttributeExprTest::DashMatch(operands),
        _ if is_empty => AttributeExprTest::Never,
        AttrSelectorOperator::Includes => AttributeExprTest::Includes(operands),
        AttrSelectorOperator::Prefix => AttributeExprTest::Prefix(operands),
        AttrSelectorOperator::Suffix => AttributeExprTest::Suffix(operands),
        AttrSelectorOperator::Substring => AttributeExprTest::Substring(operands),
    }
}
