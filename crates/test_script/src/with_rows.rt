//! Scripts whose machine has rows, with tries counted by hand: a wrong definition of keys, with its code, fails.

use crate::runs::{Row, expect_rows};
use lol_script::Status;

/// Where the line may stand, and what is tried with it.
const TRIED: [Row; 16] = [
    (
        "rows\t0\ntries\nselect\t0\tdiv p\nselect\t1\tdiv > p\nstart\thtml\tdiv\nstart\thtml\tsection\nstart\thtml\tp\nend\tdiv\n",
        "start\t-\ttries 1 0\nstart\t-\ttries 0 0\nstart\t0\ttries 1 0\nend\t0,1,2\n",
        Status::Good,
    ),
    // After the selectors, and twice.
    (
        "\nselect\t0\t.a\nrows\t9\n\ntries\nrows\t0\nstart\thtml\tp\nend\tx\nstart\thtml\tp\tclass=a",
        "start\t-\tasked\ttries 0 0\nend\t-\nstart\t0\tasked\ttries 1 1\n",
        Status::Good,
    ),
    // The last of two keys of a kind, and an id before all others.
    (
        "rows\t0\ntries\nselect\t0\t[a][b]\nselect\t1\t#d[b].c#e.a\nstart\thtml\tp\ta\nstart\thtml\tp\tb\nstart\thtml\tp\tid=d\nstart\thtml\tp\tid=e\n",
        "start\t-\tasked\ttries 0 0\nstart\t-\tasked\ttries 1 1\nstart\t-\tasked\ttries 0 0\nstart\t-\tasked\ttries 1 1\n",
        Status::Good,
    ),
    // No selector is known to need attributes: what the name leaves is tried in HTML, and elsewhere what attributes leave too.
    (
        "tries\nrows\t0\nselect\t0\tp:not(.a)\nselect\t1\tp.b:first-child\nselect\t2\tdiv.c\nstart\thtml\tp\nstart\tsvg\tp\nstart\thtml\tp\n",
        "start\t0\tasked\ttries 2 2\nstart\t0\tasked\ttries 1 1\nstart\t0\tasked\ttries 2 2\n",
        Status::Good,
    ),
    // One is.
    (
        "tries\nrows\t0\nselect\t0\tp:not(.a)\nselect\t1\tp.b:first-child\nselect\t2\t.c\nstart\thtml\tp\nstart\tsvg\tp\tclass=b\n",
        "start\t0\tasked\ttries 1 1\nstart\t0,1\tasked\ttries 2 2\n",
        Status::Good,
    ),
    (
        "rows\t0\ntries\nselect\t0\t.a\ndrop\thtml\tp\nstart\thtml\tp\n",
        "dropped\nstart\t-\tasked\ttries 0 0\n",
        Status::Good,
    ),
    // Reasons are the same.
    (
        "explain\nrows\t0\nselect\t0\tdiv p, .a\nselect\t5\tdiv > p\nstart\thtml\tdiv\tclass=a\nstart\thtml\tsection\nstart\thtml\tp\nend\tdiv\n",
        "start\t0\tasked\nwhy\t0\t3\t1\t0\nstart\t-\tasked\nstart\t0\tasked\nwhy\t0\t3\t0\t0,2\nend\t0,1,2\n",
        Status::Good,
    ),
    // Three nodes are as many as three, and fewer than four.
    (
        "rows\t3\ntries\nselect\t0\tdiv p\nselect\t1\tdiv > p\nstart\thtml\tdiv\nstart\thtml\tsection\nstart\thtml\tp\n",
        "start\t-\ttries 1 0\nstart\t-\ttries 0 0\nstart\t0\ttries 1 0\n",
        Status::Good,
    ),
    (
        "rows\t4\ntries\nselect\t0\tdiv p\nselect\t1\tdiv > p\nstart\thtml\tdiv\nstart\thtml\tsection\nstart\thtml\tp\n",
        "start\t-\ttries 1 0\nstart\t-\ttries 3 0\nstart\t0\ttries 2 0\n",
        Status::Good,
    ),
    // Without a number they begin where they pay.
    (
        "rows\ntries\nselect\t0\tdiv p\nstart\thtml\tdiv\nstart\thtml\tsection\n",
        "start\t-\ttries 1 0\nstart\t-\ttries 2 0\n",
        Status::Good,
    ),
    ("rows\nselect\t0\tp\n", "", Status::Good),
    ("rows\t1\t2\n", "bad line 1: form\n", Status::BadLine),
    ("rows\r\nend\tp\n", "bad line 1: form\n", Status::BadLine),
    ("rows\t\n", "bad line 1: form\n", Status::BadLine),
    ("end\tp\nrows\n", "bad line 2: form\n", Status::BadLine),
    ("Rows\n", "bad line 1: form\n", Status::BadLine),
];

#[test]
fn spares_what_a_tag_rules_out(rt: HostRuntime) {
    expect_rows(&rt, rt.alloc(), &TRIED);
}
