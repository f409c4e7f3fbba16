//! Whole scripts: worked by hand and replayed, which wrong definitions fail; and exit statuses with their texts.

use crate::runs::{parted, run_against, status_of};
use crate::{replayed, worked};
use lol_script::{RunFault, Status, exit_status};
use std::alloc::Global;
use std::cell::RefCell;
use std::fmt::{Display, Write as _};
use std::io;
use std::io::{ErrorKind, Read, Write};
use std::process::Abort;

/// Runs a script with ample memory, and names it where the run isn't as it has to be.
fn expect_output(rt: &impl Abort, alloc: Global, script: &str, output: &str, status: Status) {
    let (outcome, is_output) = run_against(alloc, script.as_bytes(), output.as_bytes());
    assert!(rt; outcome == Ok(status), "{script:?}");
    assert!(rt; is_output, "{script:?}");
}

/// Runs the scripts of a text, which has their outputs too.
fn expect_texts(rt: &impl Abort, alloc: Global, text: &str) {
    for row in text.split('\x1e') {
        let (script, output) = parted(row);
        expect_output(rt, alloc, script, output, status_of(output));
    }
}

/// Runs scripts that have a bad line each.
fn expect_bad_lines(rt: &impl Abort, alloc: Global, rows: &[(&str, &str)]) {
    for (script, output) in rows {
        expect_output(rt, alloc, script, output, Status::BadLine);
    }
}

#[test]
fn runs_scripts(rt: HostRuntime) {
    expect_texts(&rt, rt.alloc(), worked::ANSWERED);
}

#[test]
fn names_bad_lines(rt: HostRuntime) {
    expect_bad_lines(&rt, rt.alloc(), &worked::BAD);
}

#[test]
fn replays_scripts_of_names(rt: HostRuntime) {
    expect_texts(&rt, rt.alloc(), replayed::OF_NAMES);
}

#[test]
fn replays_scripts(rt: HostRuntime) {
    expect_texts(&rt, rt.alloc(), replayed::OF_EVERY_KIND);
}

#[test]
fn replays_bad_lines(rt: HostRuntime) {
    expect_bad_lines(&rt, rt.alloc(), &replayed::BAD);
}

/// Keeps what it is told on standard error.
struct Told {
    text: RefCell<String>,
}

impl Eprint for Told {
    fn eprint<D: Display + Drop>(&self, value: D) -> io::Result<()> {
        let Ok(mut text) = self.text.try_borrow_mut() else {
            return Err(io::Error::from(ErrorKind::Other));
        };
        write!(text, "{value}").map_err(|_| io::Error::from(ErrorKind::OutOfMemory))
    }

    fn eprintln<D: Display + Drop>(&self, value: D) -> io::Result<()> {
        self.eprint(value)?;
        self.eprint("\n")
    }
}

/// Whether an outcome ends with a status, and tells a text.
fn ends(alloc: Global, outcome: Result<Status, RunFault>, status: u8, text: &str) -> bool {
    let told = Told {
        text: RefCell::new(String::new(alloc)),
    };
    let is_status = exit_status(&told, outcome) == status;
    let Told { text: kept } = told;
    is_status && kept.into_inner().as_str() == text
}

#[test]
fn ends_with_a_status(rt: HostRuntime) {
    let rows = [
        (Ok(Status::Good), 0, ""),
        (Ok(Status::BadLine), 2, ""),
        (Ok(Status::Refused), 3, ""),
        (Err(RunFault::Memory), 3, "lol_match: out of memory\n"),
        (Err(RunFault::Read), 4, "lol_match: read failed\n"),
        (Err(RunFault::Write), 4, "lol_match: write failed\n"),
    ];
    for (outcome, status, text) in rows {
        assert!(rt; ends(rt.alloc(), outcome, status, text), "{outcome:?}");
    }
}
