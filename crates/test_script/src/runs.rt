//! Runs of scripts: what the rows beside this file are told with.

use lol_script::{Counted, RunFault, Status, run};
use std::alloc::Global;
use std::process::Abort;

/// How the run of a script ended, and what it wrote.
pub(crate) fn run_on(alloc: Global, script: &[u8]) -> (Result<Status, RunFault>, Vec<u8>) {
    let mut reader = Counted::new(script);
    let mut writer = Counted::new(Vec::new(alloc));
    let outcome = run(alloc, &mut reader, &mut writer);
    (outcome, writer.into_inner())
}

/// How the run of a script ended, and whether it wrote an output.
pub(crate) fn run_against(
    alloc: Global,
    script: &[u8],
    output: &[u8],
) -> (Result<Status, RunFault>, bool) {
    let (outcome, written) = run_on(alloc, script);
    (outcome, written.as_slice() == output)
}

/// Runs a script with ample memory.
pub(crate) fn expect_run(
    rt: &impl Abort,
    alloc: Global,
    script: &[u8],
    status: Status,
    output: &[u8],
) {
    let (outcome, is_output) = run_against(alloc, script, output);
    assert!(rt; outcome == Ok(status), "{outcome:?}");
    assert!(rt; is_output);
}

/// Runs a good script.
pub(crate) fn expect_good(rt: &impl Abort, alloc: Global, script: &str, output: &str) {
    expect_run(
        rt,
        alloc,
        script.as_bytes(),
        Status::Good,
        output.as_bytes(),
    );
}

/// A script, its output, and how its run ends.
pub(crate) type Row = (&'static str, &'static str, Status);

/// Runs scripts that have an output and a status each.
pub(crate) fn expect_rows(rt: &impl Abort, alloc: Global, rows: &[Row]) {
    for (script, output, status) in rows {
        expect_run(rt, alloc, script.as_bytes(), *status, output.as_bytes());
    }
}

/// The script of a row of a text, and its output: a unit separator stands between them, and a record separator between two rows.
pub(crate) fn parted(row: &str) -> (&str, &str) {
    row.split_once("\x1f").unwrap_or((row, ""))
}

/// How a run ends that writes this.
pub(crate) fn status_of(output: &str) -> Status {
    if output.starts_with("bad line ") {
        Status::BadLine
    } else if output.ends_with("refused limit\n") {
        Status::Refused
    } else {
        Status::Good
    }
}

/// Lines of a script, each of them some times.
pub(crate) fn lines(rt: &impl Abort, alloc: Global, parts: &[(&str, u32)]) -> String {
    let mut text = String::new(alloc);
    for (line, count) in parts {
        push_often(rt, &mut text, line, *count);
    }
    text
}

fn push_often(rt: &impl Abort, text: &mut String, line: &str, count: u32) {
    for _ in 0..count {
        text.push_str(line).expect(rt, "memory");
    }
}

/// Runs a script whose lines, and those of its output, come some times each.
pub(crate) fn expect_lines(
    rt: &impl Abort,
    alloc: Global,
    script: &[(&str, u32)],
    status: Status,
    output: &[(&str, u32)],
) {
    let script = lines(rt, alloc, script);
    let output = lines(rt, alloc, output);
    expect_run(rt, alloc, script.as_bytes(), status, output.as_bytes());
}
