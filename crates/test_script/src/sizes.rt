//! Great sizes with ample memory: a call that refuses at some size meets its contract.

use crate::runs::{expect_good, lines};
use lol_css::{SelectorList, SelectorsParser};
use lol_memory::DenseHashSet;
use std::alloc::{AllocError, Global};
use std::ops::Range;
use std::process::Abort;

/// The union of two ids and one between them.
fn united(alloc: Global) -> Result<DenseHashSet, AllocError> {
    let mut more = DenseHashSet::new(alloc);
    more.insert(300_000_000)?;
    let mut set = DenseHashSet::new(alloc);
    set.insert(7)?;
    set.insert(335_544_310)?;
    set.union(&more)?;
    Ok(set)
}

/// Whether a copy of the set equals it, and has the three ids.
fn is_copied(set: &DenseHashSet) -> Result<bool, AllocError> {
    let copy = set.try_clone()?;
    Ok(copy == *set && copy.iter().eq([7, 300_000_000, 335_544_310]))
}

/// Whether a set takes three ids.
fn takes_ids(alloc: Global) -> Result<bool, AllocError> {
    let set = united(alloc)?;
    is_copied(&set)
}

/// Three ids, the greatest of ten million words.
#[test]
fn a_set_takes_ids_far_apart(rt: HostRuntime) {
    assert!(rt; takes_ids(rt.alloc()) == Ok(true));
}

/// Whether a list has so many items, and the first compound of each so many parts.
fn has_items(list: &SelectorList, count: usize, parts: usize) -> bool {
    for item in &list.items {
        if item.first.parts.len() != parts {
            return false;
        }
    }
    list.items.len() == count
}

/// Expects the list of a text to have so many items, and the first compound of each so many parts.
fn expect_items(rt: &impl Abort, alloc: Global, text: &[(&str, u32)], count: usize, parts: usize) {
    let text = lines(rt, alloc, text);
    let list = SelectorsParser::parse(alloc, text.as_str());
    assert!(rt; list.is_ok_and(|list| has_items(&list, count, parts)));
}

/// A million tokens in a compound of half as many parts.
#[test]
fn a_compound_takes_many_parts(rt: HostRuntime) {
    expect_items(&rt, rt.alloc(), &[(".a", 500_000)], 1, 500_000);
}

#[test]
fn a_list_takes_many_items(rt: HostRuntime) {
    expect_items(&rt, rt.alloc(), &[("a,", 200_000), ("b", 1)], 200_001, 1);
}

/// Puts a line last in which a number stands for each `~`.
fn push_numbered(
    alloc: Global,
    text: &mut String,
    line: &str,
    number: u32,
) -> Result<(), AllocError> {
    let number = format!(in alloc; "{number}")?;
    let line = line.replace(alloc, "~", &number)?;
    text.push_str(line.as_str())
}

/// Puts lines last, of which one of two forms has the even numbers of a range, and the other the odd ones.
fn push_all(
    rt: &impl Abort,
    alloc: Global,
    text: &mut String,
    forms: (&str, &str),
    numbers: Range<u32>,
) {
    for number in numbers {
        let line = if number % 2 == 0 { forms.0 } else { forms.1 };
        push_numbered(alloc, text, line, number).expect(rt, "memory");
    }
}

/// Lines, numbered lines, and last ones.
fn numbered(
    rt: &impl Abort,
    alloc: Global,
    first: &[(&str, u32)],
    forms: (&str, &str),
    numbers: Range<u32>,
    last: &str,
) -> String {
    let mut text = lines(rt, alloc, first);
    push_all(rt, alloc, &mut text, forms, numbers);
    text.push_str(last).expect(rt, "memory");
    text
}

const MANY: u32 = 1_000_000;

/// How the numbers of elements stand in an output.
const NUMBERS: (&str, &str) = (",~", ",~");

/// A million open elements, 100,000 end tags that close nothing, and a script of 15 million bytes.
#[test]
fn a_run_takes_many_open_elements(rt: HostRuntime) {
    let script = [
        ("select\t0\tdiv div\nstart\thtml\thtml\n", 1),
        ("start\thtml\tdiv\n", 999_999),
        ("end\ttable\n", 100_000),
        ("end\thtml\n", 1),
    ];
    let script = lines(&rt, rt.alloc(), &script);
    assert!(rt; script.len() > 15_000_000);
    let output = [
        ("start\t-\nstart\t-\n", 1),
        ("start\t0\n", 999_998),
        ("end\t-\n", 100_000),
        ("end\t0", 1),
    ];
    let output = numbered(&rt, rt.alloc(), &output, NUMBERS, 1..MANY, "\n");
    expect_good(&rt, rt.alloc(), script.as_str(), output.as_str());
}

/// A million names that are open at once.
#[test]
fn a_run_takes_many_open_names(rt: HostRuntime) {
    let first = [("select\t0\t:nth-of-type(1)\n", 1)];
    let forms = ("start\thtml\tx~\n", "start\thtml\tx-~\n");
    let script = numbered(&rt, rt.alloc(), &first, forms, 0..MANY, "end\tX-1\n");
    let output = [("start\t0\n", MANY), ("end\t1", 1)];
    let output = numbered(&rt, rt.alloc(), &output, NUMBERS, 2..MANY, "\n");
    expect_good(&rt, rt.alloc(), script.as_str(), output.as_str());
}

/// A million children of one parent, each with a name of its own, that are counted by type.
#[test]
fn a_run_takes_many_names_of_children(rt: HostRuntime) {
    let first = [("select\t0\t:nth-of-type(2)\n", 1)];
    let forms = ("start\tsvg/\tx~\n", "start\tsvg/\tx~\n");
    let last = "start\tsvg/\tX0\nstart\tsvg/\tx999999\n";
    let script = numbered(&rt, rt.alloc(), &first, forms, 0..MANY, last);
    let output = [("start\t-\tasked\n", MANY), ("start\t0/\tasked\n", 2)];
    let output = lines(&rt, rt.alloc(), &output);
    expect_good(&rt, rt.alloc(), script.as_str(), output.as_str());
}

/// 3,000 nodes that an element matches, each with two that may follow.
#[test]
fn an_element_takes_many_branches(rt: HostRuntime) {
    let form = "select\t~\t:not(x~) > p, :not(x~) q\n";
    let last = "start\thtml\ta\nstart\thtml\tp\n";
    let script = numbered(&rt, rt.alloc(), &[], (form, form), 0..3_000, last);
    let output = [("start\t-\nstart\t0", 1)];
    let output = numbered(&rt, rt.alloc(), &output, NUMBERS, 1..3_000, "\n");
    expect_good(&rt, rt.alloc(), script.as_str(), output.as_str());
}
