//! The tests of a compound.

ghost use Rattle.std.specs.Prelude.{◌≡◌, IfOk, IsTrue, ◌↔◌, map};
ghost use Rattle.lol_css.specs.TreeViews.{part_of, item_of, list_of, compound_of, with_part_list, with_item_list};
ghost use Rattle.lol_css.specs.Trees.{Nothing, NoItems};
ghost use Rattle.lol_instructions.specs.Compounds.{all_of, any_of};
ghost use Rattle.lol_program.specs.Conditions.{part_test, item_compound, items_compounds, written_tests, compound_tests};
ghost use Rattle.lol_program.specs.Predicates.{condition_test, test_shown, tests_of};

use crate::condition::{Condition, OnAttributesExpr, OnTagNameExpr};
use lol_css::{ComplexSelector, Compound, SelectorList, SimpleSelector};
use std::alloc::{AllocError, Global};

/// A test of one element.
#[derive(Debug, Drop, PartialEq, Eq)]
#[cycle(tests)]
pub enum Test {
    /// A test that needs no attributes.
    Name(OnTagNameExpr),
    /// A test of attributes.
    Attribute(OnAttributesExpr),
    /// The element passes none of these compounds: `:not(..)`.
    NoneOf(Vec<Predicate>),
    /// It passes some of them: `:is(..)`, `:where(..)`.
    SomeOf(Vec<Predicate>),
}

/// The tests of a compound, all of which one element has to pass (lol_html's `Predicate`).
#[derive(Debug, Drop, PartialEq, Eq)]
#[cycle(tests)]
pub struct Predicate {
    pub tests: Vec<Test>,
}

impl From<Condition> for Test {
    fn from(condition: Condition) -> Test
        ensures { test_shown result ≡ condition_test condition }
    {
        match condition {
            Condition::OnTagName(test) => Test::Name(test),
            Condition::OnAttributes(test) => Test::Attribute(test),
        }
    }
}

impl Predicate {
    /// The tests of a compound, its parts taken from right to left.
    pub(crate) fn from_compound(alloc: Global, compound: &Compound) -> Result<Self, AllocError>
        ensures { IfOk result (λ predicate. tests_of predicate ≡ compound_tests (compound_of compound.now)) }
    {
        let mut tests = Vec::with_capacity(alloc, compound.parts.len())?;
        for part in compound.parts.iter().rev() {
            tests.push(Test::from_part(alloc, part)?)?;
        }
        Ok(Predicate { tests })
    }

    /// Those of an item inside a function, which has one compound, its parts in written order.
    #[cycle(parts)]
    fn from_item(alloc: Global, item: &ComplexSelector) -> Result<Self, AllocError>
        ensures { IfOk result (λ predicate. tests_of predicate ≡ item_compound (item_of item.now)) }
    {
        let compound = match item.rest.as_slice() {
            [] => &item.first,
            [.., (_, last)] => last,
        };
        let mut tests = Vec::with_capacity(alloc, compound.parts.len())?;
        for part in &compound.parts {
            tests.push(Test::from_part(alloc, part)?)?;
        }
        Ok(Predicate { tests })
    }

    /// Whether these are the tests of an item inside a function.
    #[cycle(comparing)]
    fn is_of_item(&self, item: &ComplexSelector) -> bool
        ensures { IsTrue result ↔ (tests_of self.now ≡ item_compound (item_of item.now)) }
    {
        let compound = match item.rest.as_slice() {
            [] => &item.first,
            [.., (_, last)] => last,
        };
        are_of_written(&self.tests, &compound.parts)
    }

    /// Whether these are the tests of a compound, its parts taken from right to left.
    pub(crate) fn is_of(&self, compound: &Compound) -> bool
        ensures { IsTrue result ↔ (tests_of self.now ≡ compound_tests (compound_of compound.now)) }
    {
        are_of_reversed(&self.tests, &compound.parts)
    }
}

impl Test {
    #[cycle(parts)]
    fn from_part(alloc: Global, part: &SimpleSelector) -> Result<Test, AllocError>
        ensures { IfOk result (λ test. test_shown test ≡ part_test (part_of part.now)) }
    {
        match part {
            SimpleSelector::Negation(list) => Ok(Test::NoneOf(predicates_of(alloc, list)?)),
            SimpleSelector::Is(list) | SimpleSelector::Where(list) => {
                Ok(Test::SomeOf(predicates_of(alloc, list)?))
            }
            _ => match Condition::from_simple(alloc, part)? {
                Some(condition) => Ok(Test::from(condition)),
                None => unreachable!(),
            },
        }
    }

    /// Whether this is the test of a part.
    #[cycle(comparing)]
    fn is_of(&self, part: &SimpleSelector) -> bool
        ensures { IsTrue result ↔ (test_shown self.now ≡ part_test (part_of part.now)) }
    {
        match self {
            Test::Name(test) => test.is_of(part),
            Test::Attribute(test) => test.is_of(part),
            Test::NoneOf(predicates) => match part {
                SimpleSelector::Negation(list) => are_of_items(predicates, &list.items),
                _ => false,
            },
            Test::SomeOf(predicates) => match part {
                SimpleSelector::Is(list) | SimpleSelector::Where(list) => {
                    are_of_items(predicates, &list.items)
                }
                _ => false,
            },
        }
    }
}

/// The compounds of a list's items.
#[cycle(parts)]
fn predicates_of(alloc: Global, list: &SelectorList) -> Result<Vec<Predicate>, AllocError>
    ensures { IfOk result (λ predicates. any_of (map tests_of predicates.items) ≡ items_compounds (list_of list.now)) }
{
    let mut predicates = Vec::with_capacity(alloc, list.items.len())?;
    for item in &list.items {
        predicates.push(Predicate::from_item(alloc, item)?)?;
    }
    Ok(predicates)
}

/// Whether these are the tests of some parts, taken from right to left.
fn are_of_reversed(tests: &[Test], parts: &[SimpleSelector]) -> bool
    ensures { IsTrue result ↔ (all_of (map test_shown tests.now) ≡ compound_tests (with_part_list Nothing parts.now)) }
{
    if tests.len() != parts.len() {
        return false;
    }
    for (i, test) in tests.iter().enumerate() {
        if !test.is_of(&parts[parts.len() - 1 - i]) {
            return false;
        }
    }
    true
}

/// Whether these are the tests of some parts in written order.
#[cycle(comparing)]
fn are_of_written(tests: &[Test], parts: &[SimpleSelector]) -> bool
    ensures { IsTrue result ↔ (all_of (map test_shown tests.now) ≡ written_tests (with_part_list Nothing parts.now)) }
{
    if tests.len() != parts.len() {
        return false;
    }
    for (i, test) in tests.iter().enumerate() {
        if !test.is_of(&parts[i]) {
            return false;
        }
    }
    true
}

/// Whether these are the compounds of some items.
#[cycle(comparing)]
fn are_of_items(predicates: &[Predicate], items: &[ComplexSelector]) -> bool
    ensures { IsTrue result
        ↔ (any_of (map tests_of predicates.now) ≡ items_compounds (with_item_list NoItems items.now)) }
{
    if predicates.len() != items.len() {
        return false;
    }
    for (i, predicate) in predicates.iter().enumerate() {
        if !predicate.is_of_item(&items[i]) {
            return false;
        }
    }
    true
}
