//! Elements of HTML that never have content, told to the machine: a list that lacks one, in code and definition alike, fails.

use crate::told::{reports, tells};
use lol_vm::TagReport;
use std::alloc::{AllocError, Global};
use std::process::Abort;
use std::test::Fail;

/// Each name in lower case, in capitals, and mixed (HTML Standard, "Elements", 13.1.2, and the obsolete names that its parser closes at once,
/// 13.2.6.4.7).
const VOID_NAMES: &str =
    "area base basefont bgsound br col embed hr img input keygen link meta param source track wbr \
    AREA BASE BASEFONT BGSOUND BR COL EMBED HR IMG INPUT KEYGEN LINK META PARAM SOURCE TRACK WBR \
    Area bAsE baseFont BGsound bR Col emBed Hr iMg inPut KeyGen linK mEta parAm souRCe tracK wBr";

const NEAR_MISSES: &str =
    "frame menuitem image command brr b r area2 are bases font basefon sound colgroup embe h1 im \
        images inputs keygens links \
    met metadata params sources tracks wbrs a div br- br:x";

const NAMES_OF_ESI: &str = "esi:include esi:comment";

const NEAR_ESI: &str =
    "ESI:INCLUDE Esi:Include esi:Comment ESI:comment esi:includes esi:inline esi:remove esi:try esi include comment";

/// How a start tag is written: what stands in front of its name and after it, whether the names of ESI are void, and whether its element has
/// content.
type Form = (&'static str, &'static str, bool, bool);

/// Whether these are reports of an element with content or without, and of the end tag of its name.
fn have_content(told: &[TagReport], content: bool) -> bool {
    let closed: &[usize] = if content { &[0] } else { &[] };
    match told {
        [start, end] => tells(start, &[0], content) && tells(end, closed, content),
        _ => false,
    }
}

fn tags_of(alloc: Global, name: &str, before: &str, after: &str) -> Result<String, AllocError> {
    format!(in alloc; "{before}{name}{after} /{name}")
}

/// Whether the element of a name has content or not, and an end tag of the name closes it or nothing.
fn has_content(
    alloc: Global,
    name: &str,
    (before, after, esi, content): Form,
) -> Result<bool, Fail> {
    let tags = tags_of(alloc, name, before, after)?;
    let told = reports(alloc, &[("*", 0)], esi, &tags)?;
    Ok(have_content(&told, content))
}

/// Expects that the elements of these names have content or not, and that end tags of their names close them or nothing.
fn expect_content(rt: &impl Abort, alloc: Global, names: &str, form: Form) -> Result<(), Fail> {
    for name in names.split_whitespace() {
        assert!(rt; has_content(alloc, name, form)?, "{name}");
    }
    Ok(())
}

/// Expects this of each form of start tags.
fn expect_forms(rt: &impl Abort, alloc: Global, names: &str, forms: &[Form]) -> Result<(), Fail> {
    for form in forms {
        expect_content(rt, alloc, names, *form)?;
    }
    Ok(())
}

const VOID: [Form; 7] = [
    ("", "", false, false),
    ("", "", true, false),
    ("", "/", false, false),
    ("svg:", "", false, true),
    ("math:", "", false, true),
    ("svg:", "/", false, false),
    ("math:", "/", false, false),
];

const NEARLY_VOID: [Form; 3] = [
    ("", "", false, true),
    ("", "", true, true),
    ("", "/", false, true),
];

const OF_ESI: [Form; 4] = [
    ("", "", true, false),
    ("", "", false, true),
    ("svg:", "", true, true),
    ("math:", "", true, true),
];

const NEARLY_OF_ESI: [Form; 3] = [
    ("", "", true, true),
    ("", "", false, true),
    ("svg:", "", true, true),
];

#[test]
fn open_nothing_in_html(rt: HostRuntime) -> Result<(), Fail> {
    expect_forms(&rt, rt.alloc(), VOID_NAMES, &VOID)?;
    expect_forms(&rt, rt.alloc(), NEAR_MISSES, &NEARLY_VOID)
}

#[test]
fn open_nothing_with_names_of_esi(rt: HostRuntime) -> Result<(), Fail> {
    expect_forms(&rt, rt.alloc(), NAMES_OF_ESI, &OF_ESI)?;
    expect_forms(&rt, rt.alloc(), NEAR_ESI, &NEARLY_OF_ESI)
}
