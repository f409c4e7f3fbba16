//! Instructions of a program, and how one is run.

ghost use Rattle.std.specs.Prelude.{◌≡◌, ◌<◌, ◌+◌, [], None, if◌then◌else◌};
ghost use Rattle.std.specs.Option.{option_copied};
ghost use Rattle.lol_memory.specs.Ids.{no_ids};
ghost use Rattle.lol_instructions.specs.Tries.{names_counted, attributes_counted};
ghost use Rattle.lol_instructions.specs.Compiled.{sight, tests_in, predicate_value, predicate_holds};
ghost use Rattle.lol_instructions.specs.PredicateMarks.{AreMarksOf};
ghost use Rattle.lol_instructions.specs.Running.{Answers, branch_if, tries_of_attributes};

use crate::attribute_matcher::AttributeMatcher;
use crate::compiled_predicate::CompiledPredicate;
use crate::execution_branch::ExecutionBranch;
use crate::name_value::NameValue;
use crate::predicate_marks::PredicateMarks;
use crate::selector_state::SelectorState;
use crate::tries::Tries;
use lol_base::LocalName;
use lol_memory::DenseHashSet;
use std::alloc::Global;

/// What is known of an element before its attributes are (lol_html's `TryExecResult`).
#[derive(Drop)]
pub enum TryExecResult<'p> {
    /// It passes, and gets this.
    Branch(&'p ExecutionBranch),
    /// That is known with its attributes alone.
    AttributesRequired,
    /// It doesn't pass.
    Fail,
}

/// The tests of a node, and what an element gets that passes them (lol_html's `Instruction`). The calls that run it take no memory, and
/// nothing else changes a count of tries.
#[derive(Drop)]
pub struct Instruction {
    pub associated_branch: ExecutionBranch,
    pub predicate: CompiledPredicate,
    marks: PredicateMarks,
    ghost marked: { AreMarksOf marks (tests_in predicate) },
}

impl Instruction {
    /// An instruction with this branch and these tests. It takes no memory, and a step for each test, at any depth. (Not in lol_html.)
    pub fn new(associated_branch: ExecutionBranch, predicate: CompiledPredicate) -> Self
        ensures branch { result.associated_branch ≡ associated_branch }
        ensures predicate { result.predicate ≡ predicate }
    {
        let marks = PredicateMarks::of(predicate.tests());
        Instruction {
            associated_branch,
            predicate,
            marks,
        }
    }

    /// An instruction without tests, ids and ranges, which every element passes. It takes no memory.
    pub fn noop(alloc: Global) -> Self
        ensures tests { tests_in result.predicate ≡ [] }
        ensures ids { result.associated_branch.matched_ids ≡ no_ids }
        ensures jumps { result.associated_branch.jumps ≡ None }
        ensures hereditary_jumps { result.associated_branch.hereditary_jumps ≡ None }
    {
        let associated_branch = ExecutionBranch {
            matched_ids: DenseHashSet::new(alloc),
            jumps: None,
            hereditary_jumps: None,
        };
        Instruction::new(associated_branch, CompiledPredicate::new(Vec::new(alloc)))
    }

    /// Tries an element by its name and its counters. It counts one try by names; fewer than `u64::MAX` were counted.
    #[inline(always)]
    pub fn try_exec_without_attrs(
        &self,
        state: &SelectorState<'_>,
        local_name: &LocalName<'_>,
        tries: &mut Tries,
    ) -> TryExecResult<'_>
        requires names_fit { names_counted tries.old < u64.MAX }
        requires attributes_fit { attributes_counted tries.old < u64.MAX }
        ensures answer { Answers result (predicate_value self.now.predicate (sight state.now local_name.now))
            self.now.associated_branch }
        ensures names { names_counted tries.new ≡ names_counted tries.old + 1 }
        ensures attributes { attributes_counted tries.new ≡ attributes_counted tries.old }
    {
        tries.add_name();
        match self.marks.by_names(&self.predicate, state, local_name) {
            NameValue::True => TryExecResult::Branch(&self.associated_branch),
            NameValue::False => TryExecResult::Fail,
            NameValue::Open => TryExecResult::AttributesRequired,
        }
    }

    /// Tries an element with its attributes that was tried without. It counts one try by attributes exactly if these were required; fewer
    /// than `u64::MAX` were counted.
    #[inline(always)]
    pub fn complete_exec_with_attrs(
        &self,
        state: &SelectorState<'_>,
        local_name: &LocalName<'_>,
        matcher: &AttributeMatcher<'_>,
        tries: &mut Tries,
    ) -> Option<&ExecutionBranch>
        requires names_fit { names_counted tries.old < u64.MAX }
        requires attributes_fit { attributes_counted tries.old < u64.MAX }
        ensures answer { option_copied result
            ≡ branch_if (predicate_holds self.now.predicate (sight state.now local_name.now) matcher.now)
            self.now.associated_branch }
        ensures names { names_counted tries.new ≡ names_counted tries.old }
        ensures attributes { attributes_counted tries.new ≡ attributes_counted tries.old
            + tries_of_attributes (predicate_value self.now.predicate (sight state.now local_name.now)) }
    {
        match self.marks.by_names(&self.predicate, state, local_name) {
            NameValue::True => Some(&self.associated_branch),
            NameValue::False => None,
            NameValue::Open => {
                tries.add_attributes();
                self.passes(state, local_name, matcher)
                    .then_some(&self.associated_branch)
            }
        }
    }

    /// Tries an element with its attributes at once. It counts one try by names, and one by attributes exactly if name and counters leave
    /// open whether it passes; of both fewer than `u64::MAX` were counted.
    #[inline(always)]
    pub fn exec(
        &self,
        state: &SelectorState<'_>,
        local_name: &LocalName<'_>,
        matcher: &AttributeMatcher<'_>,
        tries: &mut Tries,
    ) -> Option<&ExecutionBranch>
        requires names_fit { names_counted tries.old < u64.MAX }
        requires attributes_fit { attributes_counted tries.old < u64.MAX }
        ensures answer { option_copied result
            ≡ branch_if (predicate_holds self.now.predicate (sight state.now local_name.now) matcher.now)
            self.now.associated_branch }
        ensures names { names_counted tries.new ≡ names_counted tries.old + 1 }
        ensures attributes { attributes_counted tries.new ≡ attributes_counted tries.old
            + tries_of_attributes (predicate_value self.now.predicate (sight state.now local_name.now)) }
    {
        let branch = self.complete_exec_with_attrs(state, local_name, matcher, tries);
        tries.add_name();
        branch
    }

    /// Whether an element passes: not where it lacks something that is needed.
    #[inline(always)]
    fn passes(
        &self,
        state: &SelectorState<'_>,
        local_name: &LocalName<'_>,
        matcher: &AttributeMatcher<'_>,
    ) -> bool
        ensures { result ≡ predicate_holds self.now.predicate (sight state.now local_name.now) matcher.now }
    {
        !matcher.lacks(self.marks.needs) && self.predicate.eval(state, local_name, matcher)
    }
}
