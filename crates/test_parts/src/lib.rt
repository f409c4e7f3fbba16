//! Tests of what is below the machine: attributes, sets of ids, the reader of selectors, and that of tags. Rows whose answers come from outside,
//! which definitions that are wrong would fail; printed texts, which no contract says; and an `Ok` of calls that can refuse, at a great size.
#![tactic(auto)]

#[cfg(test)]
mod attributes;
#[cfg(test)]
mod counters;
#[cfg(test)]
mod locations;
#[cfg(test)]
mod messages;
#[cfg(test)]
mod printed;
#[cfg(test)]
mod readings;
#[cfg(test)]
mod references;
#[cfg(test)]
mod sets;
#[cfg(test)]
mod tags;
