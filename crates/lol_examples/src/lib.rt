//! Callers of the crates below, each with a contract of its own: a list that is charged, a text that is read into selectors, an element that
//! is opened, a whole list of tags, a link checker that goes tag by tag, and a sanitiser of pages.
#![tactic(auto)]

mod charged_list;
mod links;
mod opening;
mod reading;
mod reports;
mod sanitiser;

pub use charged_list::push_once;
pub use links::{LinkTag, Refused, count_links_away};
pub use opening::open;
pub use reading::add_text;
pub use reports::report_each;
pub use sanitiser::sanitised;
