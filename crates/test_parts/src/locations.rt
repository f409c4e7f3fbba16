//! Where texts are refused: rows worked by hand from the tokens of CSS Syntax 3 and the grammar of Selectors 4, with counted bytes. A
//! wrong definition, with its code, fails.

use lol_css::{ErrorLocation, Selector};
use std::test::Fail;

/// A text that is refused, the item's number, and the byte offset.
const REFUSED: [(&str, usize, usize); 47] = [
    ("", 0, 0),
    ("  ", 0, 2),
    ("/* a", 0, 4),
    ("a,", 1, 2),
    (", a", 0, 0),
    ("a, b,, c", 2, 5),
    ("a > , b", 0, 4),
    ("a >> b", 0, 3),
    ("a }", 0, 2),
    ("a]", 0, 1),
    ("a#1", 0, 1),
    ("a .1b", 0, 2),
    ("b, a.", 1, 5),
    ("b, a.(", 1, 5),
    ("*|*|a", 0, 3),
    ("svg|img", 0, 3),
    ("[svg|a]", 0, 4),
    ("[]", 0, 1),
    ("[ =a]", 0, 2),
    ("[a b]", 0, 3),
    ("[a = ]", 0, 5),
    ("[a = b i s]", 0, 9),
    ("[a=\"b\nc", 0, 3),
    ("p:hover", 0, 2),
    ("p::first-line", 0, 3),
    ("p:not(q:hover)", 0, 8),
    (":nth-child(1.5)", 0, 11),
    (":nth-child(n + 1.5)", 0, 15),
    (":nth-child( 3n- )", 0, 16),
    (":nth-child(2147483648n+1)", 0, 11),
    ("a, b ~ c, d + e", 1, 5),
    ("img, a + img", 1, 7),
    ("p, a:only-child b", 1, 5),
    ("a:is(b c)", 0, 7),
    ("a[*|b=c]", 0, 2),
    ("a, b ~ c, d >", 2, 13),
    ("ä, ö + ü, ß", 1, 7),
    ("ü > ö + a", 0, 8),
    ("日本, 語)", 1, 11),
    ("🦀 > 🦀|a", 0, 11),
    ("/* 🦀 */\ta|b", 0, 12),
    ("a\r\n,\r\nb > ", 1, 10),
    ("a\r,\rb > ", 1, 8),
    ("a\u{c},\u{c}b|c", 1, 5),
    ("\0\0, \0|a", 1, 5),
    ("\\1F980 , \\1F980 |a", 1, 16),
    ("a/* , */, /* | */ b/**/|c", 1, 23),
];

#[test]
fn begin_with_the_first_refused_token(rt: HostRuntime) -> Result<(), Fail> {
    for (text, item, offset) in &REFUSED {
        let found = Selector::locate_error(rt.alloc(), text)?;
        let location = ErrorLocation {
            item: *item,
            offset: *offset,
        };
        assert_eq!(rt; found, Some(location), "{text}");
    }
    Ok(())
}

#[test]
fn count_the_items_of_a_long_list(rt: HostRuntime) -> Result<(), Fail> {
    let mut text = String::new(rt.alloc());
    for _ in 0..2000u32 {
        text.push_str("ä,")?;
    }
    text.push_str("b|c")?;
    let location = ErrorLocation {
        item: 2000,
        offset: 6001,
    };
    assert_eq!(rt;
        Selector::locate_error(rt.alloc(), text.as_str())?,
        Some(location)
    );
    Ok(())
}
