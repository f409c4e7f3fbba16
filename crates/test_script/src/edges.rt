//! Lines that aren't UTF-8, the greatest numbers, and functions inside one another: a run that stops for another cause is refused here.

use crate::runs::{expect_lines, expect_run};
use lol_script::Status;
use std::alloc::Global;
use std::process::Abort;

#[test]
fn lines_past_their_edges_are_bad(rt: HostRuntime) {
    let rows: [(&[u8], &[u8]); 2] = [
        (b"esi\nselect\t0\t\xff\n", b"bad line 2: form\n"),
        (b"select\t0\t\xc3", b"bad line 1: form\n"),
    ];
    for (script, output) in rows {
        expect_run(&rt, rt.alloc(), script, Status::BadLine, output);
    }
    let script = b"limit\t18446744073709551615\nselect\t4294967295\tp\n";
    expect_run(&rt, rt.alloc(), script, Status::Good, b"");
}

/// Runs a script with so many of `:not` inside one another.
fn expect_nested(rt: &impl Abort, alloc: Global, depth: u32, status: Status, output: &str) {
    let tags = ("a\nstart\thtml\ta\nstart\thtml\tb\n", 1);
    let script = [("select\t0\t", 1), (":not(", depth), tags];
    expect_lines(rt, alloc, &script, status, &[(output, 1)]);
}

/// A `:not` inside another, 128 deep, is passed by an `a` and by nothing else.
#[test]
fn functions_nest_to_their_bound(rt: HostRuntime) {
    let good = "start\t0\nstart\t-\n";
    expect_nested(&rt, rt.alloc(), 128, Status::Good, good);
    let bad = "bad line 1: UnsupportedSyntax\n";
    expect_nested(&rt, rt.alloc(), 129, Status::BadLine, bad);
}
