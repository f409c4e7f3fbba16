//! What a browser's tree has of a page, told while the page streams.
#![tactic(auto)]

pub mod rows;
