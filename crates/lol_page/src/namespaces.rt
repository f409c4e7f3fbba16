//! The namespace of a start tag, by the elements that are open.

ghost use Rattle.std.specs.Prelude.{◌≡◌, All, ◌∷◌, [], IfOk, List, ℕ, map, false, codes};
ghost use Rattle.std.specs.Prelude.{option_copied};
ghost use Rattle.std.specs.List.{list_any};
ghost use Rattle.lol_base.specs.LocalNames.{local_name, same_local_name};
ghost use Rattle.lol_base.specs.Names.{lowercased, is_void};
ghost use Rattle.lol_base.specs.StartTags.{StartTag, OutlineIsInside, attribute_of};
ghost use Rattle.lol_instructions.specs.Attributes.{value_among};
ghost use Rattle.lol_tags.specs.Attributes.{attributes_of};
ghost use Rattle.lol_page.specs.Elements.{element_of};
ghost use Rattle.lol_page.specs.Namespaces as names;
ghost use Rattle.lol_page.specs.Pages.{attributes_read};
ghost use Rattle.lol_page.specs.ValueLaws.{value_read};
ghost use Rattle.lol_machine.specs.Events as events;

use crate::open_elements::OpenItem;
use lol_base::{AttributeBuffer, AttributeOutline, Bytes, LocalName, Namespace};
use lol_instructions::AttributeMatcher;
use lol_references::{append_decoded, has_ampersand};
use lol_tags::push_outlines;
use std::alloc::{AllocError, Global};

const SVG_POINTS: [&str; 3] = ["foreignObject", "desc", "title"];

const TEXT_POINTS: [&str; 5] = ["mi", "mo", "mn", "ms", "mtext"];

const BREAKOUTS: [&str; 44] = [
    "b",
    "big",
    "blockquote",
    "body",
    "br",
    "center",
    "code",
    "dd",
    "div",
    "dl",
    "dt",
    "em",
    "embed",
    "h1",
    "h2",
    "h3",
    "h4",
    "h5",
    "h6",
    "head",
    "hr",
    "i",
    "img",
    "li",
    "listing",
    "menu",
    "meta",
    "nobr",
    "ol",
    "p",
    "pre",
    "ruby",
    "s",
    "small",
    "span",
    "strong",
    "strike",
    "sub",
    "sup",
    "table",
    "tt",
    "u",
    "ul",
    "var",
];

fn is_among(name: &LocalName<'_>, others: &[&str]) -> bool
    ensures { result ≡ list_any (λ other. same_local_name name.now (local_name other.now)) others.now }
{
    others
        .iter()
        .any(|other| is_spelled(name, other.as_bytes()))
}

// The same of a name's bytes, which their number tells apart from most others.
pub(crate) fn are_among(bytes: &[u8], others: &[&str]) -> bool
    ensures { result ≡ list_any (λ other. same_local_name (local_name bytes.now) (local_name other.now)) others.now }
{
    others.iter().any(|other| is_named(bytes, other.as_bytes()))
}

pub(crate) fn is_named(bytes: &[u8], other: &[u8]) -> bool
    ensures { result ≡ names.is_spelled (local_name bytes.now) other.now }
{
    bytes.eq_ignore_ascii_case(other)
}

fn is_spelled(name: &LocalName<'_>, other: &[u8]) -> bool
    ensures { result ≡ names.is_spelled name.now other.now }
{
    *name == LocalName::new(other)
}

fn is_svg_point(name: &LocalName<'_>) -> bool
    ensures { result ≡ names.is_among name.now names.svg_points }
{
    is_among(name, &SVG_POINTS)
}

fn is_text_point(name: &LocalName<'_>) -> bool
    ensures { result ≡ names.is_among name.now names.text_points }
{
    is_among(name, &TEXT_POINTS)
}

fn is_breakout(name: &[u8]) -> bool
    ensures { result ≡ names.is_among (local_name name.now) names.breakouts }
{
    are_among(name, &BREAKOUTS)
}

// The namespace of a start tag that is read by the rules for HTML.
pub(crate) fn entered(name: &LocalName<'_>) -> Namespace
    ensures { result ≡ names.entered name.now }
{
    if is_spelled(name, b"svg") {
        Namespace::Svg
    } else if is_spelled(name, b"math") {
        Namespace::MathML
    } else {
        Namespace::Html
    }
}

fn is_void(name: &LocalName<'_>) -> bool
    ensures { (bytes : List ℕ) → lowercased bytes ≡ name.now.lowercased → result ≡ is_void bytes }
{
    match name.tag() {
        Some(tag) => tag.is_void(),
        None => false,
    }
}

// Whether the element of a start tag has content.
pub(crate) fn has_content(namespace: Namespace, name: &LocalName<'_>, self_closing: bool) -> bool
    ensures { (tag : StartTag) → local_name tag.name ≡ name.now → tag.namespace ≡ namespace
        → tag.self_closing ≡ self_closing → result ≡ events.has_content false tag }
{
    match namespace {
        Namespace::Html => !is_void(name),
        Namespace::Svg | Namespace::MathML => !self_closing,
    }
}

// The value of the first attribute of that name.
fn find_value<'i>(text: &'i [u8], outlines: &[AttributeOutline], name: &[u8]) -> Option<&'i [u8]>
    requires { All (OutlineIsInside text.now) outlines.now }
    ensures { option_copied result ≡ value_among (lowercased name.now) (map (attribute_of text.now) outlines.now) }
{
    for outline in outlines {
        let found = LocalName::new(&text[outline.name.start..outline.name.end]);
        if is_spelled(&found, name) {
            return Some(match outline.value {
                Some(range) => &text[range.start..range.end],
                None => &[],
            });
        }
    }
    None
}

fn is_html_type(value: Option<&[u8]>) -> bool
    ensures { result ≡ names.is_html_type (option_copied value.entry) }
{
    match value {
        Some(value) => {
            let value = LocalName::new(value);
            is_spelled(&value, b"text/html") || is_spelled(&value, b"application/xhtml+xml")
        }
        None => false,
    }
}

// The same of a value that is decoded first, if that is set.
fn is_html_type_read(alloc: Global, value: Option<&[u8]>, decoded: bool) -> Result<bool, AllocError>
    ensures { IfOk result (λ is. is ≡ names.is_html_type (value_read decoded (option_copied value.entry))) }
{
    match value {
        Some(value) if decoded && has_ampersand(value) => {
            let mut bytes = Vec::new(alloc);
            append_decoded(value, &mut bytes)?;
            Ok(is_html_type(Some(&bytes)))
        }
        _ => Ok(is_html_type(value)),
    }
}

// Whether a start tag breaks out, whose name ends at a place in its bytes. `outlines` serves to read its attributes.
pub(crate) fn breaks_out(
    name: &[u8],
    text: &[u8],
    name_end: usize,
    outlines: &mut AttributeBuffer,
) -> Result<bool, AllocError>
    ensures { IfOk result (λ out. out ≡ names.breaks_out (local_name name.now) (attributes_of text.now name_end)) }
{
    if is_breakout(name) {
        return Ok(true);
    }
    if !is_spelled(&LocalName::new(name), b"font") {
        return Ok(false);
    }
    outlines.clear();
    push_outlines(text, name_end, outlines)?;
    let attributes = AttributeMatcher::new(Bytes::new(text), outlines, Namespace::Html);
    Ok(
        attributes.has_attribute(b"color")
            || attributes.has_attribute(b"face")
            || attributes.has_attribute(b"size"),
    )
}

// Whether the element of a start tag holds HTML.
pub(crate) fn holds_html(
    namespace: Namespace,
    name: &LocalName<'_>,
    text: &[u8],
    name_end: usize,
    decoded: bool,
    outlines: &mut AttributeBuffer,
) -> Result<bool, AllocError>
    ensures { IfOk result (λ holds.
        holds ≡ names.holds_html_in namespace name.now (attributes_read decoded text.now name_end)) }
{
    match namespace {
        Namespace::Html => Ok(true),
        Namespace::Svg => Ok(is_svg_point(name)),
        Namespace::MathML => {
            if is_text_point(name) {
                return Ok(true);
            }
            if !is_spelled(name, b"annotation-xml") {
                return Ok(false);
            }
            outlines.clear();
            push_outlines(text, name_end, outlines)?;
            let encoding = find_value(text, outlines, b"encoding");
            is_html_type_read(*outlines.allocator(), encoding, decoded)
        }
    }
}

// Whether a start tag of a name is read by the rules for HTML in an element.
pub(crate) fn takes_html(item: &OpenItem, name: &LocalName<'_>) -> bool
    ensures { result ≡ names.takes_html_in item.now.namespace (element_of item.now) name.now }
{
    match item.namespace {
        Namespace::Html => true,
        Namespace::Svg => item.holds_html,
        Namespace::MathML => {
            if item.holds_html {
                !(is_text_point(&item.name) && is_no_text(name))
            } else {
                is_spelled(&item.name, b"annotation-xml") && is_spelled(name, b"svg")
            }
        }
    }
}

fn is_no_text(name: &LocalName<'_>) -> bool
    ensures { result ≡ names.is_among name.now (codes "mglyph" ∷ codes "malignmark" ∷ []) }
{
    is_spelled(name, b"mglyph") || is_spelled(name, b"malignmark")
}

pub(crate) fn is_html(namespace: Namespace) -> bool
    ensures { result ≡ names.is_html namespace }
{
    match namespace {
        Namespace::Html => true,
        Namespace::Svg | Namespace::MathML => false,
    }
}

// Whether no end tag of HTML passes an element.
pub(crate) fn is_point(namespace: Namespace, name: &LocalName<'_>) -> bool
    ensures { result ≡ names.is_point_in namespace name.now }
{
    match namespace {
        Namespace::Html => false,
        Namespace::Svg => is_svg_point(name),
        Namespace::MathML => is_text_point(name) || is_spelled(name, b"annotation-xml"),
    }
}

// Whether an end tag breaks out.
pub(crate) fn end_breaks_out(name: &LocalName<'_>) -> bool
    ensures { result ≡ names.is_among name.now (codes "br" ∷ codes "p" ∷ []) }
{
    is_spelled(name, b"br") || is_spelled(name, b"p")
}
