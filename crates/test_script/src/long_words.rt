//! Long words, and elements of many tests and branches: a run that refuses one of some size meets its contract.

use crate::runs::{expect_good, expect_lines, lines};
use lol_script::Status;
use std::alloc::{AllocError, Global};
use std::process::Abort;

/// Selectors with a word, for which `~` stands, in each kind of part, and tags that have it in each place.
const WORDS: &str = "\
    select\t0\t~.~#~[~][~='~' i]:not(~~)\nselect\t1\t~:nth-of-type(1) > ~\n\
    start\tsvg\t~\tclass=~\tid=~\t~=~\nstart\thtml\t~\nend\t~\n";

/// The words of 4,000 letters in a script, where each stands for a `~`.
fn with_words(rt: &impl Abort, alloc: Global, script: &str) -> Result<String, AllocError> {
    let word = lines(rt, alloc, &[("aB", 2_000)]);
    script.replace(alloc, "~", &word)
}

#[test]
fn words_may_be_long(rt: HostRuntime) {
    let script = with_words(&rt, rt.alloc(), WORDS).expect(&rt, "memory");
    let output = "start\t0\tasked\nstart\t1\tasked\nend\t1\n";
    expect_good(&rt, rt.alloc(), script.as_str(), output);
}

/// A compound of 2,051 tests, a `:not` of 2,050 compounds, and an item of 1,024.
#[test]
fn compounds_may_be_of_many(rt: HostRuntime) {
    let script = [
        ("select\t0\ta", 1),
        (".b", 2_050),
        ("\nselect\t1\t:not(a", 1),
        (", a", 2_049),
        (")\nselect\t2\t", 1),
        ("a ", 1_024),
        ("\nstart\thtml\tc\nstart\thtml\ta\tclass=b\n", 1),
    ];
    let output = [("start\t1\nstart\t0\tasked\n", 1)];
    expect_lines(&rt, rt.alloc(), &script, Status::Good, &output);
}
