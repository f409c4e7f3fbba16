//! The sanitiser of lol_examples on a hostile page: no contract says which bytes it leaves out.

ghost use Rattle.std.specs.Prelude.{◌<◌};

use lol_examples::sanitised;
use lol_matcher::{AddError, Matcher, MatcherBuilder};
use std::alloc::Global;
use std::process::Abort;
use std::test::Fail;

/// What is dropped: elements that run or embed something, with handlers, with links to scripts, and ads.
const DROPPED: [&str; 4] = [
    "script, iframe, svg style",
    "[onclick], [onload]",
    "a[href^='javascript:' i]",
    ".ad",
];

/// A page, and what stays of it.
static PAGES: [(&str, &str); 8] = [
    (
        "<main>1<script>if (a<b) '<p></main>'</script>2</main>3",
        "<main>12</main>3",
    ),
    ("<p>1<SCRIPT/x>2</sCript\n>3</p><script>4", "<p>13</p>"),
    (
        "<div class='wide ad'><p>1<img>2</div><p>3<b class=ad>4<i>5</p>6",
        "<p>3</p>6",
    ),
    (
        "<a href=JavaScript:x()>1<i>2</i></a>3<a href='/javascript:'>4</a>",
        "3<a href='/javascript:'>4</a>",
    ),
    (
        "<img onload='>'><img alt='<script>'>1</br></x>2",
        "<img alt='<script>'>12",
    ),
    (
        "<svg><style><a id=1></style></svg><svg/><style>1</style>",
        "<svg></svg><svg/><style>1</style>",
    ),
    ("<!--<b class=ad>-->1<b>2</b", "<!--<b class=ad>-->1<b>2"),
    ("1 < 2<iframe src=x", "1 "),
];

fn dropping(alloc: Global) -> Result<MatcherBuilder, AddError> {
    let mut builder = Matcher::builder(alloc);
    for text in &DROPPED {
        builder.add(0, text)?;
    }
    Ok(builder)
}

/// Whether this stays of a page that comes in chunks of some bytes.
fn stays(alloc: Global, page: &str, size: usize, kept: &str) -> Result<bool, Fail>
    requires { 0 < size }
{
    let chunks: Vec<&[u8]> = page.as_bytes().chunks(size).collect(alloc)?;
    let sanitised = sanitised(alloc, dropping(alloc)?, &chunks);
    Ok(sanitised.is_ok_and(|bytes| bytes.as_slice() == kept.as_bytes()))
}

fn expect_pages(rt: &impl Abort, alloc: Global, pages: &[(&str, &str)]) -> Result<(), Fail> {
    for (page, kept) in pages {
        for size in 1..80usize {
            assert!(rt; stays(alloc, page, size, kept)?, "{page} by {size}");
        }
    }
    Ok(())
}

#[test]
fn drops_what_is_hostile(rt: HostRuntime) -> Result<(), Fail> {
    expect_pages(&rt, rt.alloc(), &PAGES)
}
