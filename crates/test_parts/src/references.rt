//! Character references of attribute values: rows whose answers come from outside, from html5lib's tests of tokenizers and from Python's table.
//! A definition that reads the Standard wrongly, or a table that lacks a name, would be proved.

use crate::sets::expect;
use lol_base::Attributes;
use lol_references::{append_decoded, has_ampersand, read_decoded};
use lol_tags::push_outlines;
use std::alloc::{AllocError, Global};
use std::test::Fail;

/// A value as it is written, and what it stands for.
static ROWS: [(&str, &str); 24] = [
    ("&", "&"),
    ("&;", "&;"),
    ("&notx", "&notx"),
    ("&not1", "&not1"),
    ("&noti", "&noti"),
    ("&COPY", "\u{A9}"),
    ("&lang=fr&lang;=fr", "&lang=fr\u{27E8}=fr"),
    ("&#xaBcD;", "\u{ABCD}"),
    ("&#xD869;&#xDED6;", "\u{FFFD}\u{FFFD}"),
    ("&#x0080;&#x0082;&#x009F;", "\u{20AC}\u{201A}\u{178}"),
    ("&#x0D;&#x3ffff;", "\r\u{3FFFF}"),
    ("&#0169;&#1000000000000;", "\u{A9}\u{FFFD}"),
    ("&ZeroWidthSpace;&zwnj;&zwj;", "\u{200B}\u{200C}\u{200D}"),
    ("&AElig&szlig&yuml;", "\u{C6}\u{DF}\u{FF}"),
    (
        "&bne;&vsupne;&NotSucceedsTilde;",
        "=\u{20E5}\u{228B}\u{FE00}\u{227F}\u{338}",
    ),
    ("&b.alpha;&nGtv;&Zopf;", "&b.alpha;\u{226B}\u{338}\u{2124}"),
    (
        "&thetasym;&there4;&frac34&sup1",
        "\u{3D1}\u{2234}\u{BE}\u{B9}",
    ),
    ("&DoubleLongLeftRightArrow;", "\u{27FA}"),
    ("é&eacute;ê", "ééê"),
    ("javascript&colon;alert(1)", "javascript:alert(1)"),
    ("?a=1&amp;b=2&reg=3&reg_id=4", "?a=1&b=2&reg=3\u{AE}_id=4"),
    ("&quot;&apos;&lt;&gt;", "\"'<>"),
    ("&nbsp&nbsp;x", "\u{A0}\u{A0}x"),
    ("&\u{0}amp;&\u{FF41}mp;", "&\u{0}amp;&\u{FF41}mp;"),
];

fn decodes(alloc: Global, written: &str, decoded: &str) -> Result<bool, AllocError> {
    let mut value = Vec::new(alloc);
    append_decoded(written.as_bytes(), &mut value)?;
    Ok(value.as_slice() == decoded.as_bytes())
}

#[test]
fn are_decoded(rt: HostRuntime) -> Result<(), Fail> {
    for (written, decoded) in &ROWS {
        assert!(rt; decodes(rt.alloc(), written, decoded)?, "{written}");
        assert!(rt; has_ampersand(written.as_bytes()), "{written}");
    }
    assert!(rt; !has_ampersand(b"a=1;amp"));
    Ok(())
}

fn reads_both(alloc: Global) -> Result<bool, AllocError> {
    let tag = b"<a title='x&amp;y' b>";
    let mut outlines = Vec::new(alloc);
    push_outlines(tag, 2, &mut outlines)?;
    let mut attributes = Attributes::new(alloc);
    read_decoded(alloc, tag, &outlines, &mut attributes)?;
    Ok(attributes.aux_info(false).attr_buffer.len() == 2)
}

#[test]
fn are_decoded_in_tags(rt: HostRuntime) -> Result<(), Fail> {
    expect(&rt, reads_both(rt.alloc()))
}
