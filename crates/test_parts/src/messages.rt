//! What people are told of a text that is refused: messages written by hand. A caret under another character, or a hint for another cause,
//! would be proved.

use lol_css::{ErrorMessage, Selector};
use std::test::Fail;

/// A text, and the lines after the cause.
static MESSAGES: [(&str, &str); 16] = [
    (
        "a:not(b c)",
        "    a:not(b c)\n            ^ a step inside `:not`, `:is` or `:where`: complex selectors aren't supported there",
    ),
    (
        "ü > ö + a",
        "    ü > ö + a\n          ^ `+` steps to a sibling, which isn't supported: only ancestors are known",
    ),
    (
        "img, a ~ img",
        "    img, a ~ img\n           ^ `~` steps to a sibling, which isn't supported: only ancestors are known",
    ),
    (
        "p:has(a)",
        "    p:has(a)\n     ^ `:has` isn't supported: what comes later in the page decides",
    ),
    ("a:hover", "    a:hover\n     ^ `:hover` isn't supported"),
    (
        "a::before b",
        "    a::before b\n     ^ `::before` isn't supported",
    ),
    (
        "é:Last-Child",
        "    é:Last-Child\n     ^ `:Last-Child` isn't supported: what comes later in the page decides",
    ),
    (
        ".1a",
        "    .1a\n     ^ `1` can't begin a name: a digit is written as an escape there, 1 as `\\31 `",
    ),
    (
        "div#7",
        "    div#7\n        ^ `7` can't begin a name: a digit is written as an escape there, 1 as `\\31 `",
    ),
    (
        "div[data-x=1]",
        "    div[data-x=1]\n               ^ a value that is no name, as one that begins with a digit, is quoted",
    ),
    (
        "a[href= /x]",
        "    a[href= /x]\n            ^ a value that is no name, as one that begins with a digit, is quoted",
    ),
    (
        "svg|a",
        "    svg|a\n       ^ no prefix is declared: write the name alone, or `*|` before an element's",
    ),
    ("a,\n\tb )\nc", "    \tb )\n    \t  ^"),
    ("a: b", "    a: b\n     ^ `:` isn't supported"),
    ("a >", "    a >\n       ^"),
    ("", "    \n    ^"),
];

#[test]
fn stand_under_the_text(rt: HostRuntime) -> Result<(), Fail> {
    for (text, lines) in &MESSAGES {
        let cause = Selector::from_str(rt.alloc(), text).err();
        let location = Selector::locate_error(rt.alloc(), text)?;
        assert!(rt; cause.is_some() && location.is_some(), "{text}");
        if let (Some(cause), Some(location)) = (cause, location) {
            let message = format!(in rt.alloc(); "{}", ErrorMessage::new(text, cause, location))?;
            let told = format!(in rt.alloc(); "{cause}\n{lines}")?;
            assert_eq!(rt; message, told);
        }
    }
    Ok(())
}
