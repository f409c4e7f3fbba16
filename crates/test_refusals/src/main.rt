//! Calls that take memory, each under a name, with what has to stand after a refusal: it runs the one that standard input names, or all. No
//! contract says that refused memory is answered as such, nor that a call isn't refused otherwise.
//!
//! `hostile/refusals.sh` runs each of them with its first, second, and each following request for memory refused.
#![tactic(auto)]

mod attributes;
mod compiling;
mod element;
mod endless;
mod explained;
mod explaining;
mod lists;
mod machines;
mod matchers;
mod names;
mod outcome;
mod runs;
mod selectors;
mod stacks;
mod trees;

use crate::outcome::{Met, Stop, TURNS};
use std::alloc::Global;
use std::io::Read;
use std::process::ExitCode;

/// The names of the scenarios.
const NAMES: &str = "
    from_str css_string to_boxed_slice from_simple add_selector add_selector_refused compile new
    start_tags void_tags match_events run insert union set_try_clone small_sets push push_item
    stack_add_child map_add_child add_execution_branch name_into_owned name_try_clone
    item_into_owned context_into_owned short_names owned_names match_events_by_type
    run_of_a_bad_line run_past_the_limit attributes_push matcher explained run_explained
    explaining_matcher match_events_with_rows run_with_rows run_without_end
";

fn main(rt: HostRuntime) -> ExitCode {
    let mut buffer = [0u8; 64];
    let Ok(count) = rt.reader().read(&mut buffer) else {
        return ExitCode::from(4);
    };
    let wanted = buffer[..count].trim_ascii();
    ExitCode::from(run_wanted(&rt, rt.alloc(), wanted))
}

/// Runs the scenario of a name, or all where there is none: the status of the last.
fn run_wanted(rt: &impl Print, alloc: Global, wanted: &[u8]) -> u8 {
    let mut status = 0;
    for name in NAMES.split_whitespace() {
        if wanted.is_empty() || wanted == name.as_bytes() {
            status = told(rt, name, scenario(alloc, name));
        }
    }
    status
}

/// Tells how a scenario ended: 0 where no request was refused, 3 where one was, 5 where it was one of the scenario's own, 1 where
/// something was wrong.
fn told(rt: &impl Print, name: &str, outcome: Result<Met, Stop>) -> u8 {
    let (text, status) = match outcome {
        Ok(Met::Nothing) => ("whole", 0),
        Ok(Met::Refusal) => ("refused", 3),
        Err(Stop::Own) => ("unprepared", 5),
        Err(Stop::Wrong) => ("wrong", 1),
    };
    match println!(rt; "{name}: {text}") {
        Ok(()) => status,
        Err(_) => 4,
    }
}

fn scenario(alloc: Global, name: &str) -> Result<Met, Stop> {
    match name {
        "to_boxed_slice" => selectors::to_boxed_slice(alloc),
        "from_simple" => selectors::from_simple(alloc),
        "add_selector" => trees::add_selector(alloc),
        "add_selector_refused" => trees::add_selector_refused(alloc),
        "start_tags" => machines::start_tags(alloc),
        "void_tags" => machines::void_tags(alloc),
        "insert" => lists::insert(alloc),
        "union" => lists::union(alloc),
        "set_try_clone" => lists::set_try_clone(alloc),
        "small_sets" => lists::small_sets(alloc),
        _ => part(alloc, name),
    }
}

/// The scenarios of the machine's parts.
fn part(alloc: Global, name: &str) -> Result<Met, Stop> {
    match name {
        "attributes_push" => attributes::attributes_push(alloc),
        "matcher" => matchers::matcher(alloc),
        "explained" => explained::explained(alloc),
        "explaining_matcher" => explaining::explaining_matcher(alloc),
        "push" => lists::push(alloc),
        "push_item" => stacks::push_item(alloc),
        "stack_add_child" => stacks::stack_add_child(alloc),
        "map_add_child" => stacks::map_add_child(alloc),
        "add_execution_branch" => stacks::add_execution_branch(alloc),
        "name_try_clone" => names::name_try_clone(alloc),
        "short_names" => names::short_names(alloc),
        "owned_names" => names::owned_names(alloc),
        _ => made_in_turn(alloc, name),
    }
}

/// A call that is made again after a refusal, with nothing left of the first.
fn made_in_turn(alloc: Global, name: &str) -> Result<Met, Stop> {
    for met in TURNS {
        if made(alloc, name)? {
            return Ok(met);
        }
    }
    Err(Stop::Wrong)
}

/// Makes a call: whether there was memory.
fn made(alloc: Global, name: &str) -> Result<bool, Stop> {
    match name {
        "from_str" => selectors::from_str(alloc),
        "css_string" => selectors::css_string(alloc),
        "compile" => compiling::compile(alloc),
        "new" => compiling::new_machine(alloc),
        "match_events" => runs::nested(alloc),
        "match_events_by_type" => runs::by_type(alloc),
        "run" => runs::run_tags(alloc),
        "run_of_a_bad_line" => runs::run_of_a_bad_line(alloc),
        "run_past_the_limit" => runs::run_past_the_limit(alloc),
        "run_explained" => runs::run_explained(alloc),
        "match_events_with_rows" => runs::with_rows(alloc),
        "run_with_rows" => runs::run_with_rows(alloc),
        "run_without_end" => endless::run_without_end(alloc),
        "name_into_owned" => names::name_into_owned(alloc),
        "item_into_owned" => names::item_into_owned(alloc),
        "context_into_owned" => names::context_into_owned(alloc),
        _ => Err(Stop::Wrong),
    }
}
