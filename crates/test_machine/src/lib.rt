//! Tests of matchers, of what explains their reports, of pages and of lol_examples: an `Ok` of each call, the lines that README and the crates'
//! pages show, pages whose tags were counted by hand, and the texts of errors, which no contract says.
#![tactic(auto)]

#[cfg(test)]
mod closings;
#[cfg(test)]
mod errors;
#[cfg(test)]
mod explained_page;
#[cfg(test)]
mod links;
#[cfg(test)]
mod matches;
#[cfg(test)]
mod page;
#[cfg(test)]
mod pages;
#[cfg(test)]
mod passed_on;
#[cfg(test)]
mod readme;
#[cfg(test)]
mod sanitiser;
#[cfg(test)]
mod uses;
#[cfg(test)]
mod witnesses;
