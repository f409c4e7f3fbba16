//! The grammar of Selectors Level 4, from tokens to trees.

mod attributes;
mod compounds;
mod items;
mod judged;
mod logical;
pub(crate) mod parser;
mod pseudo_classes;
pub(crate) mod refusals;
mod rules;
