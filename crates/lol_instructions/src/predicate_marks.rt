//! Marks of predicates, which most tries look at alone.

ghost use Rattle.std.specs.Prelude.{◌≡◌, ◌∷◌, [], ◌++◌, ℕ, Option, Some, None, List, false};
ghost use Rattle.std.specs.Option.{option_copied};
ghost use Rattle.lol_instructions.specs.Compounds.{value_of_bool};
ghost use Rattle.lol_instructions.specs.Compiled.{Sight, sight, name_expr_holds, attribute_expr_holds, predicate_value, some_values, tests_in};
ghost use Rattle.lol_instructions.specs.Marks.{is_marked};
ghost use Rattle.lol_instructions.specs.PredicateMarks.{AreBoth, is_there, shape_value, head_holds, marks_value, AreNeeded, AreMarksOf};
ghost use Rattle.lol_instructions.specs.declared.compiled_predicate.CompiledTest.{CompiledTest};

use crate::compiled_expr::{AttributeExprTest, LocalNameExprTest};
use crate::compiled_predicate::{CompiledPredicate, CompiledTest};
use crate::marks::Marks;
use crate::name_value::NameValue;
use crate::selector_state::SelectorState;
use lol_base::{LocalName, NthChild};

/// Where an element has to stand.
#[derive(Clone, Copy)]
pub(crate) enum PositionTest {
    /// Among its parent's children.
    NthChild(NthChild),
    /// Among those of its name. Where children aren't counted by type no element stands there.
    NthOfType(NthChild),
}

impl PositionTest {
    #[inline(always)]
    fn has(&self, state: &SelectorState<'_>) -> bool
        ensures { result ≡ is_there self.now state.now.cumulative.now (option_copied state.now.typed) }
    {
        match self {
            PositionTest::NthChild(nth) => state.cumulative.is_nth(*nth),
            PositionTest::NthOfType(nth) => {
                state.typed.is_some_and(|counter| counter.is_nth(*nth))
            }
        }
    }
}

/// What positions say of an element that has the name.
#[derive(Clone, Copy)]
pub(crate) enum Shape {
    /// This at every position.
    Anywhere(NameValue),
    /// This at such a position. At others it fails.
    At(PositionTest, NameValue),
    /// What the tests say.
    Mixed,
}

impl Shape {
    #[inline(always)]
    fn value(&self, state: &SelectorState<'_>) -> Option<NameValue>
        ensures { result ≡ shape_value self.now state.now.cumulative.now (option_copied state.now.typed) }
    {
        match self {
            Shape::Anywhere(value) => Some(*value),
            Shape::At(test, value) => Some(value.only_if(test.has(state))),
            Shape::Mixed => None,
        }
    }

    /// What two shapes say together. Of two tests of positions none is kept.
    fn and(&self, other: &Shape) -> Self
        ensures { (position : ℕ) (typed : Option ℕ) (v : NameValue) → shape_value result position typed ≡ Some v
            → AreBoth (shape_value self.now position typed) (shape_value other.now position typed) v }
    {
        match (self, other) {
            (Shape::Anywhere(a), Shape::Anywhere(b)) => Shape::Anywhere(a.and(*b)),
            (Shape::Anywhere(a), Shape::At(test, b)) | (Shape::At(test, b), Shape::Anywhere(a)) =>
                Shape::At(*test, a.and(*b)),
            _ => Shape::Mixed,
        }
    }
}

/// What is known of a predicate without a look at its tests.
#[derive(Clone, Copy)]
pub(crate) struct PredicateMarks {
    // The code of the name without which an element fails, where there is one.
    head: Option<u64>,
    shape: Shape,
    /// Marks of attributes, without one of which an element fails.
    pub(crate) needs: Marks,
}

impl PredicateMarks {
    /// The marks of some tests.
    #[cycle(marking)]
    pub(crate) fn of(tests: &[CompiledTest]) -> Self
        ensures { AreMarksOf result tests.now }
    {
        let Some((first, others)) = tests.split_first() else {
            return PredicateMarks::of_shape(Shape::Anywhere(NameValue::True));
        };
        let mut marks = PredicateMarks::of_test(first);
        for test in others {
            marks = marks.and(PredicateMarks::of_test(test));
        }
        marks
    }

    /// What name and counters say of an element. Mostly the marks alone know; else the predicate is asked, whose they are.
    #[inline(always)]
    pub(crate) fn by_names(
        &self,
        predicate: &CompiledPredicate,
        state: &SelectorState<'_>,
        local_name: &LocalName<'_>,
    ) -> NameValue
        ensures { AreMarksOf self.now (tests_in predicate.now)
            → result ≡ predicate_value predicate.now (sight state.now local_name.now) }
    {
        if !self.head_holds(local_name) {
            return NameValue::False;
        }
        match self.shape.value(state) {
            Some(value) => value,
            None => predicate.by_names(state, local_name),
        }
    }

    #[inline(always)]
    fn head_holds(&self, local_name: &LocalName<'_>) -> bool
        ensures { result ≡ head_holds self.now.head local_name.now.lowercased }
    {
        match self.head {
            None => true,
            Some(code) => local_name.code() == Some(code),
        }
    }

    #[cycle(marking)]
    fn of_test(test: &CompiledTest) -> Self
        ensures { AreMarksOf result (test.now ∷ []) }
    {
        match test {
            CompiledTest::Name(expr) => PredicateMarks::of_name(&expr.test),
            CompiledTest::Attribute(expr) => PredicateMarks {
                head: None,
                shape: Shape::Anywhere(NameValue::Open),
                needs: needs_of(&expr.test),
            },
            CompiledTest::NoneOf(predicates) => match value_of_some(predicates) {
                Some(value) => PredicateMarks::of_shape(Shape::Anywhere(value.opposite())),
                None => PredicateMarks::of_shape(Shape::Mixed),
            },
            CompiledTest::SomeOf(predicates) => match value_of_some(predicates) {
                Some(value) => PredicateMarks::of_shape(Shape::Anywhere(value)),
                None => PredicateMarks::of_shape(Shape::Mixed),
            },
        }
    }

    /// What they say of every element, if that is one value.
    fn value_of_all(&self) -> Option<NameValue>
        ensures { (v : NameValue) → result ≡ Some v → (s : Sight) → marks_value self.now s ≡ Some v }
    {
        match (self.head, self.shape) {
            (None, Shape::Anywhere(value)) => Some(value),
            _ => None,
        }
    }

    fn of_name(test: &LocalNameExprTest) -> Self
        ensures value { (s : Sight) (v : NameValue) → marks_value result s ≡ Some v
            → value_of_bool (name_expr_holds test.now s) ≡ v }
        ensures needs { (bit : ℕ) → is_marked result.needs bit ≡ false }
    {
        match test {
            LocalNameExprTest::Any => PredicateMarks::of_shape(Shape::Anywhere(NameValue::True)),
            LocalNameExprTest::Never => PredicateMarks::of_shape(Shape::Anywhere(NameValue::False)),
            LocalNameExprTest::LocalName(name) => match name.code() {
                Some(code) => PredicateMarks {
                    head: Some(code),
                    shape: Shape::Anywhere(NameValue::True),
                    needs: Marks::none(),
                },
                None => PredicateMarks::of_shape(Shape::Mixed),
            },
            LocalNameExprTest::NthChild(nth) => {
                PredicateMarks::of_shape(Shape::At(PositionTest::NthChild(*nth), NameValue::True))
            }
            LocalNameExprTest::NthOfType(nth) => {
                PredicateMarks::of_shape(Shape::At(PositionTest::NthOfType(*nth), NameValue::True))
            }
        }
    }

    fn of_shape(shape: Shape) -> Self
        ensures head { result.head ≡ None }
        ensures shape { result.shape ≡ shape }
        ensures needs { (bit : ℕ) → is_marked result.needs bit ≡ false }
    {
        PredicateMarks {
            head: None,
            shape,
            needs: Marks::none(),
        }
    }

    /// The marks of some tests and others. Of two names the first is kept.
    fn and(self, others: PredicateMarks) -> Self
        ensures { (tests more : List CompiledTest) → AreMarksOf self tests → AreMarksOf others more
            → AreMarksOf result (tests ++ more) }
    {
        let head = self.head.or(others.head);
        let needs = self.needs.with(others.needs);
        if self.head.is_some() && others.head.is_some() {
            PredicateMarks {
                head,
                shape: Shape::Mixed,
                needs,
            }
        } else {
            PredicateMarks {
                head,
                shape: self.shape.and(&others.shape),
                needs,
            }
        }
    }
}

/// What names and positions say of whether elements pass some of these, if that is one value.
#[cycle(marking)]
fn value_of_some(predicates: &[CompiledPredicate]) -> Option<NameValue>
    ensures { (v : NameValue) → result ≡ Some v → (s : Sight)
        → some_values (λ predicate. predicate_value predicate s) predicates.now ≡ v }
{
    let mut value = NameValue::False;
    for predicate in predicates {
        value = value.or(PredicateMarks::of(&predicate.tests).value_of_all()?);
    }
    Some(value)
}

/// The marks of what has to be there for a test of attributes to pass.
fn needs_of(test: &AttributeExprTest) -> Marks
    ensures { AreNeeded result (λ s seen. attribute_expr_holds test.now seen) }
{
    match test {
        AttributeExprTest::Never => Marks::none(),
        AttributeExprTest::Id(id) => Marks::of_id(id),
        AttributeExprTest::Class(name) => Marks::of_class(name),
        AttributeExprTest::Exists(name) => Marks::of_name(name),
        AttributeExprTest::Equal(operands)
        | AttributeExprTest::Includes(operands)
        | AttributeExprTest::DashMatch(operands)
        | AttributeExprTest::Prefix(operands)
        | AttributeExprTest::Suffix(operands)
        | AttributeExprTest::Substring(operands) => Marks::of_name(&operands.name),
    }
}
