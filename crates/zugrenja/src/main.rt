//! Tells which start tags of pages of HTML are matched by CSS selectors, as grep tells which lines are.
#![tactic(auto)]

mod arguments;
mod lines;
mod pages;
mod rows;
mod search;
mod selectors;
#[cfg(test)]
mod whole_pages;

use arguments::{ArgumentError, Asked, read_arguments};
use std::env;
use std::process::ExitCode;

const USAGE: &str =
    "usage: zugrenja [--as-written] [--raw] [--strict] [--ids | --names | --count | --json | --attr NAME] [-f FILE] SELECTOR.. [-- PAGE..]

Writes a line for each start tag that a selector matches: `line:column: <tag>`. Pages are read as they are written: no tree is built.

  --raw        character references in the values of attributes aren't decoded
  --strict     refuses a page where a browser's tree decides how text is read, as for <xmp> in a select
  --ids        the numbers of the selectors, from 1, in place of the tag
  --names      the selectors that match, one a line, in place of the tag
  --count      the number of matches of each page
  --json       a JSON object for each match
  --attr NAME  the value of this attribute in place of the tag, where the tag has it
  -f FILE      reads selectors from a file, one a line
  -- PAGE..    the pages; standard input if there are none, or by the name -

The exit status is 0 if something matched, 1 if nothing did, and 2 if something failed.";

fn main(rt: HostRuntime) -> ExitCode {
    ExitCode::from(run(&rt))
}

fn run(rt: &HostRuntime) -> u8 {
    let mut arguments = match env::args(rt) {
        Ok(arguments) => arguments,
        Err(error) => {
            let _ = eprintln!(rt; "zugrenja: the arguments: {error}");
            return 2;
        }
    };
    let _ = arguments.next();
    match read_arguments(rt.alloc(), arguments) {
        Ok(Asked::Search(settings)) => search::search(rt, settings),
        Ok(Asked::Help) => match println!(rt; "{USAGE}") {
            Ok(()) => 0,
            Err(_) => 2,
        },
        Err(ArgumentError::NoSelector) => {
            let _ = eprintln!(rt; "{USAGE}");
            2
        }
        Err(error) => {
            let _ = eprintln!(rt; "zugrenja: {error}");
            2
        }
    }
}
