//! Whole runs, told to the machine: the rows of `lol_vectors`, so that code and definition can't be changed alike.

use crate::told::{count_told, reports, stop_of};
use lol_vm::{RunCause, RunStop, TagReport};
use std::alloc::Global;
use std::process::Abort;
use std::test::Fail;

/// Selectors under ids, tags, and the ids that each start tag is reported under or the elements that an end tag closes.
type Row = (
    &'static [(&'static str, u32)],
    &'static str,
    &'static [&'static [usize]],
);

const ROWS: [Row; 9] = [
    (
        &[("div p", 7), ("section > p", 7), ("p", 3)],
        "div section p p",
        &[&[], &[], &[3, 7], &[3, 7]],
    ),
    (&[("p, div p, b", 5)], "div p b i", &[&[], &[5], &[5], &[]]),
    (
        &[("body p", 0), ("body > p", 1)],
        "body p /p div div p /p div div div div div div div p",
        &[
            &[],
            &[0, 1],
            &[1],
            &[],
            &[],
            &[0],
            &[5],
            &[],
            &[],
            &[],
            &[],
            &[],
            &[],
            &[],
            &[0],
        ],
    ),
    (
        &[("a > b c", 0), ("a b > c", 1), ("a > b > c", 2)],
        "a b c /a a b d c /a a d b c /a c",
        &[
            &[],
            &[],
            &[0, 1, 2],
            &[0, 1, 2],
            &[],
            &[],
            &[],
            &[0],
            &[4, 5, 6, 7],
            &[],
            &[],
            &[],
            &[1],
            &[9, 10, 11, 12],
            &[],
        ],
    ),
    (
        &[
            ("p", 9),
            ("*", 2),
            (":first-child", 5),
            ("p", 300),
            ("*", 0),
        ],
        "p",
        &[&[0, 2, 5, 9, 300]],
    ),
    (
        &[],
        "div p DIV b /dIv /b /div /div",
        &[&[], &[], &[], &[], &[2, 3], &[], &[0, 1], &[]],
    ),
    (
        &[("p:nth-child(2)", 0), (":nth-of-type(2)", 1)],
        "svg:P! p",
        &[&[], &[0, 1]],
    ),
    (
        &[(":nth-of-type(2)", 0), (":first-of-type", 1)],
        "div p /p b /b p p",
        &[&[1], &[1], &[1], &[1], &[3], &[0], &[1]],
    ),
    (
        &[
            (":nth-child(3n)", 0),
            (":nth-child(3n+1)", 1),
            (":nth-child(3n-1)", 2),
            (":nth-child(-2n+5)", 3),
            (":nth-child(4)", 4),
            (":nth-child(-n+2)", 5),
            (":nth-child(n+8)", 6),
            (":nth-child(0n)", 7),
            (":nth-child(odd)", 8),
            (":nth-child(even)", 9),
        ],
        "p /p p /p p /p p /p p /p p /p p /p p /p p",
        &[
            &[1, 3, 5, 8],
            &[0],
            &[2, 5, 9],
            &[2],
            &[0, 3, 8],
            &[4],
            &[1, 4, 9],
            &[6],
            &[2, 3, 8],
            &[8],
            &[0, 9],
            &[10],
            &[1, 8],
            &[12],
            &[2, 6, 9],
            &[14],
            &[0, 6, 8],
        ],
    ),
];

fn expect_told(rt: &impl Abort, told: &[TagReport], tags: &str, wanted: &[&[usize]]) {
    assert!(rt; told.len() == wanted.len(), "{tags}");
    let count = count_told(told, wanted);
    assert!(rt; count == told.len(), "tag {count} of {tags}");
}

fn check(rt: &impl Abort, alloc: Global, rows: &[Row]) -> Result<(), Fail> {
    for (texts, tags, wanted) in rows {
        let told = reports(alloc, texts, false, tags)?;
        expect_told(rt, &told, tags, wanted);
    }
    Ok(())
}

#[test]
fn report_what_matches(rt: HostRuntime) -> Result<(), Fail> {
    check(&rt, rt.alloc(), &ROWS)
}

fn was_asked(report: &TagReport) -> bool {
    matches!(report, TagReport::Started { asked: true, .. })
}

/// Whether the attributes of each tag were asked for or not, as it is said.
fn were_asked(told: &[TagReport], wanted: &[bool]) -> bool {
    if told.len() != wanted.len() {
        return false;
    }
    for (report, wanted) in told.iter().zip(wanted) {
        if was_asked(report) != *wanted {
            return false;
        }
    }
    true
}

/// Attributes are asked for where a node needs them whose left part matches, and a tag whose attributes aren't asked for isn't dropped.
#[test]
fn ask_where_a_node_needs_it(rt: HostRuntime) -> Result<(), Fail> {
    let tags = "p! /p div p p!";
    let told = reports(rt.alloc(), &[("div .b", 0), ("p", 1)], false, tags)?;
    expect_told(&rt, &told, tags, &[&[1], &[0], &[], &[1], &[]]);
    assert!(rt; were_asked(&told, &[false, false, false, true, false]));
    Ok(())
}

/// A maximum, how deep a run goes where 100 bytes are in use, and the tag that is refused.
const LIMITS: [(usize, usize, Option<usize>); 5] = [
    (611, 1, Some(0)),
    (612, 8, None),
    (1123, 9, Some(8)),
    (1124, 16, None),
    (1124, 17, Some(16)),
];

/// Whether a run of this depth, with 100 bytes in use, is refused at this tag, or at none.
fn stops_at(
    rt: &impl Abort,
    alloc: Global,
    maximum: usize,
    depth: usize,
    refused: Option<usize>,
) -> Result<bool, Fail> {
    let stop = refused.map(|event| RunStop {
        event,
        cause: RunCause::MemoryLimitExceeded,
    });
    Ok(stop_of(rt, alloc, maximum, 100, depth)? == stop)
}

fn check_limits(
    rt: &impl Abort,
    alloc: Global,
    limits: &[(usize, usize, Option<usize>)],
) -> Result<(), Fail> {
    for (maximum, depth, refused) in limits {
        assert!(rt;
            stops_at(rt, alloc, *maximum, *depth, *refused)?,
            "{maximum}"
        );
    }
    Ok(())
}

#[test]
fn stop_where_a_limit_is_passed(rt: HostRuntime) -> Result<(), Fail> {
    check_limits(&rt, rt.alloc(), &LIMITS)
}
