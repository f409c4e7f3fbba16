//! Values of attributes, told to the machine: rows of Selectors 4, so that code and definition can't be changed alike.

use crate::told::{are_told, numbered, reports_of_tags, texts_of};
use std::alloc::Global;
use std::process::Abort;
use std::test::Fail;
use test_kit::TagWord;

/// A value, an operand, and which of `=`, `~=`, `|=`, `^=`, `$=` and `*=` hold of it.
const OPERATORS: [(&str, &str, &[usize]); 8] = [
    ("en", "en", &[0, 1, 2, 3, 4, 5]),
    ("en-us", "en", &[2, 3, 5]),
    ("de en fr", "en", &[1, 5]),
    ("xen", "en", &[4, 5]),
    ("eng", "en", &[3, 5]),
    ("EN", "en", &[]),
    ("", "''", &[0, 2]),
    ("x", "''", &[]),
];

/// Values in which `a` and `b` are words, or aren't.
const WORDS: [(&str, &[usize]); 9] = [
    ("a\tb", &[0, 1]),
    ("a\nb", &[0, 1]),
    ("a\x0cb", &[0, 1]),
    ("a\rb", &[0, 1]),
    ("a b", &[0, 1]),
    ("a\x0bb", &[]),
    ("a\0b", &[]),
    ("a-b", &[]),
    ("a\u{a0}b", &[]),
];

/// Expects the ids under which an `a` with an attribute is reported.
fn expect_ids(
    rt: &impl Abort,
    alloc: Global,
    texts: &[(&str, u32)],
    name: &str,
    value: &str,
    wanted: &[usize],
) -> Result<(), Fail> {
    let tag = TagWord {
        attribute: Some((name, Some(value))),
        ..TagWord::of("a")
    };
    let told = reports_of_tags(alloc, texts, false, &[tag])?;
    assert!(rt; are_told(&told, &[wanted]), "{value:?}");
    Ok(())
}

/// The operators of `OPERATORS`.
const SIGNS: &str = "=,~=,|=,^=,$=,*=";

fn check_operands(
    rt: &impl Abort,
    alloc: Global,
    rows: &[(&str, &str, &[usize])],
) -> Result<(), Fail> {
    for (value, operand, wanted) in rows {
        let texts = texts_of(alloc, "t", SIGNS, operand)?;
        let texts = numbered(alloc, &texts)?;
        expect_ids(rt, alloc, &texts, "t", value, wanted)?;
    }
    Ok(())
}

#[test]
fn stand_to_operands(rt: HostRuntime) -> Result<(), Fail> {
    check_operands(&rt, rt.alloc(), &OPERATORS)
}

/// Expects of each value in which of two ways `b` is a word of it.
fn check_words(rt: &impl Abort, alloc: Global, rows: &[(&str, &[usize])]) -> Result<(), Fail> {
    let texts = [(".b", 0), ("[class~=b]", 1)];
    for (value, wanted) in rows {
        expect_ids(rt, alloc, &texts, "class", value, wanted)?;
    }
    Ok(())
}

#[test]
fn are_parted_by_white_space(rt: HostRuntime) -> Result<(), Fail> {
    check_words(&rt, rt.alloc(), &WORDS)
}
