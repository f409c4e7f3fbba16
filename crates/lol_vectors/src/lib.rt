//! Worked rows of the definitions, each computed from texts of selectors and from tags: the contract of an empty function is its rows. The tests
//! tell the machine the same rows, so that definitions and code can't be changed alike unnoticed, and random runs beside the plain program of the
//! definitions, so that a machine that refuses at will, or that the compiler gets wrong, is found.
#![tactic(auto)]

mod caseless_names;
mod plain;
mod plain_document;
mod plain_element;
mod plain_nodes;
#[cfg(test)]
mod plain_runs;
mod plain_tries;
mod tag_words;
#[cfg(test)]
mod told;
#[cfg(test)]
mod told_caseless_names;
#[cfg(test)]
mod told_runs;
#[cfg(test)]
mod told_values;
#[cfg(test)]
mod told_void_names;
mod void_names;
mod worked_answers;
mod worked_runs;
mod worked_texts;
