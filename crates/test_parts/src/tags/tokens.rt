//! Tags and attributes of short texts, as another tokenizer has them: whether the definition means what the HTML Standard does. A wrong state
//! that definition and code share is seen here, and a row that is read otherwise byte by byte.

use crate::tags::written::{fed, read_one_by_one, written};
use lol_tags::FeedError;
use std::alloc::Global;
use std::process::Abort;
use std::test::Fail;

/// A text and its tags, with a `$` between two.
type Row<'t> = (&'t str, &'t str);

// The texts of token_test.go of golang.org/x/net/html 0.7.0 (copyright 2010 The Go Authors, BSD license) and the tags among their tokens, but
// for texts with character references, which aren't read here.
static ROWS: [Row<'static>; 84] = [
    ("", ""),
    ("foo  bar", ""),
    ("<a>b<c/>d</e>", "<a>$<c/>$</e>"),
    ("<", ""),
    ("</", ""),
    ("</>", ""),
    ("a</>b", ""),
    ("</ >", ""),
    ("</.", ""),
    ("</.>", ""),
    ("a < b", ""),
    ("<.>", ""),
    ("a<<<b>>>c", "<b>"),
    ("if x<0 and y < 0 then x*y>0", ""),
    ("<<p>", "<p>"),
    ("<a", ""),
    ("<a ", ""),
    ("a<b", ""),
    ("<a><b", "<a>"),
    ("<a x", ""),
    ("<p</p>", "<p< p=\"\">"),
    ("<p </p>", "<p <=\"\" p=\"\">"),
    ("<p id", ""),
    ("<p id=", ""),
    ("<p id=>", "<p id=\"\">"),
    ("<p id=0", ""),
    ("<p id=0</p>", "<p id=\"0</p\">"),
    ("<p id=\"0</p>", ""),
    ("<p id=\"0\"</p>", "<p id=\"0\" <=\"\" p=\"\">"),
    ("<p></p id", "<p>"),
    ("<script><a></b></script>", "<script>$</script>"),
    ("<SCRIPT>a</SCR", "<script>"),
    ("<SCRIPT>a</SCR ipt>", "<script>"),
    ("<SCRIPT>a</SCRipt", "<script>"),
    ("<SCRIPT>a</SCRiptx", "<script>"),
    ("<SCRIPT>a</SCRipt ", "<script>"),
    ("<SCRIPT>a</SCRipt>", "<script>$</script>"),
    ("<SCRIPT>a</SCRipt/>", "<script>$</script>"),
    ("<SCRIPT>a</SCRipt<script>", "<script>"),
    ("<SCRIPT>a</SCRipt</script>", "<script>$</script>"),
    ("<script>a</style>", "<script>"),
    ("<textarea><div></textarea>", "<textarea>$</textarea>"),
    ("<title>foobar<</title>", "<title>$</title>"),
    ("<!DOCTYPE html>", ""),
    ("<!doctypehtml>", ""),
    ("<!doctype  html>", ""),
    ("<!DOCUMENT html>", ""),
    ("<!DOCtype", ""),
    ("<?xml?>", ""),
    ("abc<b><!-- skipme --></b>def", "<b>$</b>"),
    ("a<!-->z", ""),
    ("a<!--->z", ""),
    ("a<!--x>-->z", ""),
    ("a<!--x->-->z", ""),
    ("a<!>z", ""),
    ("a<!->z", ""),
    ("a<!---<>z", ""),
    ("a<!--z", ""),
    ("a<!--z-", ""),
    ("a<!--z--", ""),
    ("a<!--z---", ""),
    ("a<!--z----", ""),
    ("a<!--x--!>z", ""),
    ("a<!--!-->z", ""),
    ("a<!-- !-->z", ""),
    ("a<!--i\0j-->z", ""),
    ("a<!--\0", ""),
    ("a<!--<!-->z", ""),
    ("a<!--<!--", ""),
    ("a<!--ij--kl-->z", ""),
    ("a<!--ij--kl--!>z", ""),
    ("a<!--!--!<--!-->z", ""),
    ("<p id=\"a\\\"b\">", "<p id=\"a\\\" b\"=\"\">"),
    ("<input disabled FOO>", "<input disabled=\"\" foo=\"\">"),
    ("<input disabled FOO >", "<input disabled=\"\" foo=\"\">"),
    (
        "<input value=yes FOO=BAR>",
        "<input value=\"yes\" foo=\"BAR\">",
    ),
    (
        "<input value = yes FOO = BAR>",
        "<input value=\"yes\" foo=\"BAR\">",
    ),
    (
        "<input value=yes FOO=BAR >",
        "<input value=\"yes\" foo=\"BAR\">",
    ),
    (
        "<input value='yes' FOO='BAR'>",
        "<input value=\"yes\" foo=\"BAR\">",
    ),
    (
        "<input value='yes' FOO='BAR' >",
        "<input value=\"yes\" foo=\"BAR\">",
    ),
    (
        "<input value=\"I'm an attribute\" FOO=\"BAR\">",
        "<input value=\"I'm an attribute\" foo=\"BAR\">",
    ),
    (
        "<meta http-equiv=\"content-type\">",
        "<meta http-equiv=\"content-type\">",
    ),
    (
        "a<P V=\"0 1\" w='2' X=3 y>z",
        "<p v=\"0 1\" w=\"2\" x=\"3\" y=\"\">",
    ),
    (
        "<p id=can't><p id=won't>",
        "<p id=\"can't\">$<p id=\"won't\">",
    ),
];

// What ends the text of each element that holds no tags, where scripts run.
static TEXTS: [Row<'static>; 8] = [
    ("<xmp><a></xmp><b>", "<xmp>$</xmp>$<b>"),
    ("<iframe><a></iframe><b>", "<iframe>$</iframe>$<b>"),
    ("<noembed><a></noembed><b>", "<noembed>$</noembed>$<b>"),
    ("<noframes><a></noframes><b>", "<noframes>$</noframes>$<b>"),
    ("<noscript><a></noscript><b>", "<noscript>$</noscript>$<b>"),
    ("<plaintext><a></plaintext><b>", "<plaintext>"),
    ("<title><a></title\t><b>", "<title>$</title>$<b>"),
    (
        "<script><!--<script></script>--></script><b>",
        "<script>$</script>$<b>",
    ),
];

fn has_tags(alloc: Global, row: &Row<'_>) -> Result<bool, FeedError> {
    let (text, tags) = row;
    let text = text.as_bytes();
    let whole = fed(alloc, text, 100)?;
    let cut = fed(alloc, text, 1)?;
    let Ok(single) = read_one_by_one(alloc, text) else {
        return Ok(false);
    };
    let Ok(out) = written(alloc, text, &whole) else {
        return Ok(false);
    };
    Ok(out.as_slice() == tags.as_bytes() && whole == cut && whole == single)
}

fn expect_rows(rt: &impl Abort, alloc: Global, rows: &[Row<'_>]) -> Result<(), Fail> {
    for row in rows {
        assert_eq!(rt; has_tags(alloc, row), Ok(true), "{}", row.0);
    }
    Ok(())
}

#[test]
fn find_the_tags_that_another_tokenizer_finds(rt: HostRuntime) -> Result<(), Fail> {
    expect_rows(&rt, rt.alloc(), &ROWS)
}

#[test]
fn find_the_ends_of_texts(rt: HostRuntime) -> Result<(), Fail> {
    expect_rows(&rt, rt.alloc(), &TEXTS)
}
