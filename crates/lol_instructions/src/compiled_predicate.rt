//! The compiled tests of a compound.

ghost use Rattle.std.specs.Prelude.{◌≡◌};
ghost use Rattle.std.specs.List.{list_any};
ghost use Rattle.lol_instructions.specs.Compiled.{sight, test_value, test_holds, predicate_value, predicate_holds, tests_in, all_values, some_values};

use crate::attribute_matcher::AttributeMatcher;
use crate::compiled_expr::{CompiledAttributeExpr, CompiledLocalNameExpr};
use crate::name_value::NameValue;
use crate::selector_state::SelectorState;
use lol_base::LocalName;

/// A compiled test of one element.
#[derive(Drop)]
#[cycle(compiled_tests)]
pub enum CompiledTest {
    /// A test that needs no attributes.
    Name(CompiledLocalNameExpr),
    /// A test of attributes.
    Attribute(CompiledAttributeExpr),
    /// The element passes none of these compounds: `:not(..)`.
    NoneOf(Vec<CompiledPredicate>),
    /// It passes some of them: `:is(..)`, `:where(..)`.
    SomeOf(Vec<CompiledPredicate>),
}

/// The compiled tests of a compound, all of which one element has to pass.
#[derive(Drop)]
#[cycle(compiled_tests)]
pub struct CompiledPredicate {
    pub(crate) tests: Vec<CompiledTest>,
}

impl CompiledPredicate {
    /// The predicate of some tests, which may nest to any depth.
    pub fn new(tests: Vec<CompiledTest>) -> Self
        ensures { tests_in result ≡ tests.items }
    {
        CompiledPredicate { tests }
    }

    /// The tests that it was made of, in the order in which they were given.
    pub fn tests(&self) -> &[CompiledTest]
        ensures { result.now ≡ tests_in self.now }
    {
        &self.tests
    }

    /// What an element's name and counters alone say of whether it passes all tests. The last test is looked at first, which in a compound
    /// that was read is that of the name, and none after the first that fails. It takes no memory.
    #[cycle(by_names)]
    #[inline(never)]
    pub fn by_names(&self, state: &SelectorState<'_>, local_name: &LocalName<'_>) -> NameValue
        ensures { result ≡ predicate_value self.now (sight state.now local_name.now) }
    {
        match self.tests.split_last() {
            Some((CompiledTest::Name(last), others)) => {
                if !last.eval(state, local_name) {
                    NameValue::False
                } else if others.is_empty() {
                    NameValue::True
                } else {
                    all_by_names(others, state, local_name)
                }
            }
            _ => all_by_names(&self.tests, state, local_name),
        }
    }

    /// Whether an element passes all tests that has this name, these counters and these attributes. It looks at them as `by_names` does,
    /// and takes no memory.
    #[cycle(eval)]
    pub fn eval(
        &self,
        state: &SelectorState<'_>,
        local_name: &LocalName<'_>,
        matcher: &AttributeMatcher<'_>,
    ) -> bool
        ensures { result ≡ predicate_holds self.now (sight state.now local_name.now) matcher.now }
    {
        for i in (0..self.tests.len()).rev() {
            if !self.tests[i].eval(state, local_name, matcher) {
                return false;
            }
        }
        true
    }
}

impl CompiledTest {
    #[cycle(by_names)]
    fn by_names(&self, state: &SelectorState<'_>, local_name: &LocalName<'_>) -> NameValue
        ensures { result ≡ test_value self.now (sight state.now local_name.now) }
    {
        match self {
            CompiledTest::Name(expr) => NameValue::True.only_if(expr.eval(state, local_name)),
            CompiledTest::Attribute(_) => NameValue::Open,
            CompiledTest::NoneOf(predicates) => {
                some_by_names(predicates, state, local_name).opposite()
            }
            CompiledTest::SomeOf(predicates) => some_by_names(predicates, state, local_name),
        }
    }

    #[cycle(eval)]
    fn eval(
        &self,
        state: &SelectorState<'_>,
        local_name: &LocalName<'_>,
        matcher: &AttributeMatcher<'_>,
    ) -> bool
        ensures { result ≡ test_holds self.now (sight state.now local_name.now) matcher.now }
    {
        match self {
            CompiledTest::Name(expr) => expr.eval(state, local_name),
            CompiledTest::Attribute(expr) => expr.eval(state, matcher),
            CompiledTest::NoneOf(predicates) => !some_hold(predicates, state, local_name, matcher),
            CompiledTest::SomeOf(predicates) => some_hold(predicates, state, local_name, matcher),
        }
    }
}

/// What name and counters say of whether an element passes all of these, the last one first.
#[cycle(by_names)]
#[inline(never)]
fn all_by_names(
    tests: &[CompiledTest],
    state: &SelectorState<'_>,
    local_name: &LocalName<'_>,
) -> NameValue
    ensures { result ≡ all_values (λ test. test_value test (sight state.now local_name.now)) tests.now }
{
    let mut value = NameValue::True;
    for i in (0..tests.len()).rev() {
        match tests[i].by_names(state, local_name) {
            NameValue::True => (),
            NameValue::False => return NameValue::False,
            NameValue::Open => value = NameValue::Open,
        }
    }
    value
}

/// What name and counters say of whether an element passes some of these.
#[cycle(by_names)]
fn some_by_names(
    predicates: &[CompiledPredicate],
    state: &SelectorState<'_>,
    local_name: &LocalName<'_>,
) -> NameValue
    ensures { result ≡ some_values (λ p. predicate_value p (sight state.now local_name.now)) predicates.now }
{
    let mut value = NameValue::False;
    for predicate in predicates {
        match predicate.by_names(state, local_name) {
            NameValue::True => return NameValue::True,
            NameValue::False => (),
            NameValue::Open => value = NameValue::Open,
        }
    }
    value
}

/// Whether an element passes some of these.
#[cycle(eval)]
fn some_hold(
    predicates: &[CompiledPredicate],
    state: &SelectorState<'_>,
    local_name: &LocalName<'_>,
    matcher: &AttributeMatcher<'_>,
) -> bool
    ensures { result ≡ list_any (λ p. predicate_holds p (sight state.now local_name.now) matcher.now) predicates.now }
{
    for predicate in predicates {
        if predicate.eval(state, local_name, matcher) {
            return true;
        }
    }
    false
}
