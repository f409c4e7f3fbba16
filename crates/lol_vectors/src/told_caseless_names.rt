//! Attributes whose values compare without case in HTML, told to the machine: a list that lacks one, in code and definition alike, fails.

use crate::told::{are_told, numbered, reports, texts_of};
use lol_vm::TagReport;
use std::alloc::{AllocError, Global};
use std::process::Abort;
use std::test::Fail;

/// The names (HTML Standard, "Case-sensitivity of selectors", 4.16.2).
const CASELESS: &str = "accept accept-charset align alink axis bgcolor charset checked \
        clear codetype color compact declare defer dir direction \
    disabled enctype face frame hreflang http-equiv lang language link media method multiple nohref noresize \
        noshade nowrap readonly rel rev rules \
    scope scrolling selected shape target text type valign valuetype vlink TYPE Http-Equiv Accept-Charset hrefLANG Rel";

const EXACT: &str =
    "href class id value name data-type types typ la langs src alt title action for style width \
        height placeholder pattern http \
    equiv http-equivs accept- accept_charset acceptcharset charsets role aria-label onclick \
        content summary size tabindex check selecte bg colors \
    rels re tex background cite span";

/// What the value `text` is compared with: `TEXT` without a flag, with the flag `s` and with the flag `i`, and `text`.
const COMPARISONS: &str = "=TEXT,=TEXT s,=TEXT i,=text";

fn tags_of(alloc: Global, name: &str) -> Result<String, AllocError> {
    format!(in alloc; "a@{name}=text svg:a@{name}=text math:a@{name}=text")
}

/// What the machine answers to an element of HTML, of SVG and of MathML whose attribute of this name has the value `text`.
fn reports_of_name(alloc: Global, name: &str) -> Result<Vec<TagReport>, Fail> {
    let texts = texts_of(alloc, name, COMPARISONS, "")?;
    let texts = numbered(alloc, &texts)?;
    let tags = tags_of(alloc, name)?;
    reports(alloc, &texts, false, &tags)
}

/// Expects under which of the comparisons elements of HTML, and of SVG and MathML, are reported that have these attributes.
fn expect_ids(
    rt: &impl Abort,
    alloc: Global,
    names: &str,
    in_html: &[usize],
    elsewhere: &[usize],
) -> Result<(), Fail> {
    for name in names.split_whitespace() {
        let told = reports_of_name(alloc, name)?;
        assert!(rt; are_told(&told, &[in_html, elsewhere, elsewhere]), "{name}");
    }
    Ok(())
}

#[test]
fn compare_without_case_in_html(rt: HostRuntime) -> Result<(), Fail> {
    expect_ids(&rt, rt.alloc(), CASELESS, &[0, 2, 3], &[2, 3])?;
    expect_ids(&rt, rt.alloc(), EXACT, &[2, 3], &[2, 3])
}
