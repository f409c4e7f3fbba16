//! Whole pages and what is written for them, worked by hand; and arguments.

use crate::arguments::{ArgumentError, Asked, Output, read_arguments};
use crate::lines::Style;
use crate::pages::write_page;
use crate::selectors::build_matcher;
use std::alloc::{AllocError, Global};
use std::test::Fail;

const PAGE: &[u8] =
    b"<main id=m>\r\n<A title='1\r\n\"2\"' HREF=\"x\xff\">\r<noscript><a></noscript><br><a href>";

fn strings(alloc: Global, texts: &[&str]) -> Result<Vec<String>, AllocError> {
    let mut strings = Vec::new(alloc);
    for text in texts {
        strings.push(String::from_str(alloc, text)?)?;
    }
    Ok(strings)
}

fn written(
    alloc: Global,
    output: Output,
    page: Option<String>,
    selectors: &[&str],
) -> Option<Vec<u8>> {
    let style = Style {
        output,
        decoded: true,
        strict: false,
        selectors: strings(alloc, selectors).ok()?,
        numbered: selectors.len() > 1,
        named: page.is_some(),
        page,
    };
    searched(alloc, &style, PAGE)
}

fn searched(alloc: Global, style: &Style, page: &[u8]) -> Option<Vec<u8>> {
    let matcher = build_matcher(alloc, &style.selectors).ok()?;
    let mut lines = Vec::new(alloc);
    write_page(alloc, matcher, style, &mut &*page, &mut lines).ok()?;
    Some(lines)
}

fn is_written(
    alloc: Global,
    output: Output,
    page: Option<String>,
    selectors: &[&str],
    lines: &[u8],
) -> bool {
    written(alloc, output, page, selectors).is_some_and(|written| written.as_slice() == lines)
}

#[test]
fn tags(rt: HostRuntime) -> Result<(), Fail> {
    let alloc = rt.alloc();
    assert!(rt;
        is_written(
            alloc,
            Output::Tags,
            None,
            &["a"],
            b"2:1: <A title='1  \"2\"' HREF=\"x\xff\">\n4:29: <a href>\n"
        )
    );
    assert!(rt;
        is_written(
            alloc,
            Output::Tags,
            Some(String::from_str(alloc, "p")?),
            &["a[title]", "main *"],
            b"p:2:1: 1,2: <A title='1  \"2\"' HREF=\"x\xff\">\np:4:1: 2: <noscript>\np:4:25: 2: <br>\np:4:29: 2: <a href>\n"
        )
    );
    assert!(rt; is_written(alloc, Output::Tags, None, &["b"], b""));
    Ok(())
}

#[test]
fn other_forms(rt: HostRuntime) -> Result<(), Fail> {
    let alloc = rt.alloc();
    assert!(rt;
        is_written(
            alloc,
            Output::Ids,
            None,
            &["a[title]", "br", "[href]"],
            b"2:1: 1,3\n4:25: 2\n4:29: 3\n"
        )
    );
    assert!(rt; is_written(alloc, Output::Count, None, &["a"], b"2\n"));
    assert!(rt;
        is_written(
            alloc,
            Output::Count,
            Some(String::from_str(alloc, "p")?),
            &["b"],
            b"p:0\n"
        )
    );
    assert!(rt;
        is_written(
            alloc,
            Output::Attribute(String::from_str(alloc, "Href")?),
            None,
            &["*"],
            b"2:1: x\xff\n4:29: \n"
        )
    );
    assert!(rt;
        is_written(
            alloc,
            Output::Json,
            Some(String::from_str(alloc, "a\"\\")?),
            &["[title]", "main > a"],
            b"{\"page\":\"a\\\"\\\\\",\"line\":2,\"column\":1,\"offset\":13,\"length\":28,\"selectors\":[1,2],\"tag\":\"<A title='1\\u000d\\u000a\\\"2\\\"' HREF=\\\"x\xef\xbf\xbd\\\">\"}\n"
        )
    );
    Ok(())
}

#[test]
fn names(rt: HostRuntime) -> Result<(), Fail> {
    let alloc = rt.alloc();
    assert!(rt;
        is_written(
            alloc,
            Output::Names,
            Some(String::from_str(alloc, "p")?),
            &["a[title],\nb", "br", "[href]"],
            b"p:2:1: a[title], b\np:2:1: [href]\np:4:25: br\np:4:29: [href]\n"
        )
    );
    Ok(())
}

fn coded_value(alloc: Global, decoded: bool, selector: &str) -> Option<Vec<u8>> {
    let style = Style {
        output: Output::Attribute(String::from_str(alloc, "href").ok()?),
        decoded,
        strict: false,
        selectors: strings(alloc, &[selector]).ok()?,
        numbered: false,
        named: false,
        page: None,
    };
    searched(alloc, &style, b"<a href='?b&amp;c'>")
}

#[test]
fn coded_values(rt: HostRuntime) -> Result<(), Fail> {
    let alloc = rt.alloc();
    for (decoded, selector, line) in [
        (true, "[href='?b&c']", "1:1: ?b&c\n"),
        (false, "[href='?b&amp;c']", "1:1: ?b&amp;c\n"),
        (true, "[href='?b&amp;c']", ""),
        (false, "[href='?b&c']", ""),
    ] {
        let written = coded_value(alloc, decoded, selector);
        assert!(rt; written.is_some_and(|written| written.as_slice() == line.as_bytes()));
    }
    assert!(rt;
        matches!(asked(alloc, &["a", "--raw"]), Ok(Asked::Search(settings)) if !settings.decoded)
    );
    Ok(())
}

fn counted(alloc: Global, strict: bool) -> Option<Vec<u8>> {
    let style = Style {
        output: Output::Count,
        decoded: true,
        strict,
        selectors: strings(alloc, &["img"]).ok()?,
        numbered: false,
        named: false,
        page: None,
    };
    searched(alloc, &style, b"<select><xmp><img></xmp>")
}

#[test]
fn ambiguous_page(rt: HostRuntime) -> Result<(), Fail> {
    let alloc = rt.alloc();
    assert!(rt;
        counted(alloc, false).is_some_and(|written| written.as_slice() == "0\n".as_bytes())
    );
    assert!(rt; counted(alloc, true).is_none());
    assert!(rt;
        matches!(asked(alloc, &["a", "--strict"]), Ok(Asked::Search(settings)) if settings.strict)
    );
    Ok(())
}

fn asked(alloc: Global, texts: &[&str]) -> Result<Asked, ArgumentError> {
    read_arguments(alloc, strings(alloc, texts)?.into_iter())
}

#[test]
fn arguments(rt: HostRuntime) -> Result<(), Fail> {
    let alloc = rt.alloc();
    let Ok(Asked::Search(settings)) = asked(
        alloc,
        &["a", "--attr", "--", "-f", "-h", "b", "--", "-f", "--"],
    ) else {
        return Err(Fail::from("refused"));
    };
    assert!(rt; settings.output == Output::Attribute(String::from_str(alloc, "--")?));
    assert!(rt; settings.decoded);
    assert!(rt; !settings.strict);
    assert!(rt; settings.files == strings(alloc, &["-h"])?);
    assert!(rt; settings.selectors == strings(alloc, &["a", "b"])?);
    assert!(rt; settings.pages == strings(alloc, &["-f", "--"])?);
    assert!(rt; matches!(asked(alloc, &["--ids", "-h"]), Ok(Asked::Help)));
    assert!(rt;
        matches!(
            asked(alloc, &["--ids", "--", "a"]),
            Err(ArgumentError::NoSelector)
        )
    );
    assert!(rt;
        matches!(
            asked(alloc, &["a", "-f"]),
            Err(ArgumentError::NoValue("-f"))
        )
    );
    assert!(rt;
        matches!(
            asked(alloc, &["a", "--tree"]),
            Err(ArgumentError::NotYet(_))
        )
    );
    assert!(rt; matches!(asked(alloc, &["a", "-x"]), Err(ArgumentError::Unknown(_))));
    assert!(rt;
        matches!(
            asked(alloc, &["a", "--ids", "--json"]),
            Err(ArgumentError::TwoOutputs(_))
        )
    );
    Ok(())
}
