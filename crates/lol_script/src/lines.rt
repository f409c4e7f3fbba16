//! The lines of a script.

ghost use Rattle.std.specs.Prelude.{◌≡◌, ◌≢◌, ◌<◌, ◌∷◌, ◌++◌, ◌==◌, [], List, ℕ, MatchOption, IfOk, IfSome, IfNone, Some, None, Bool, true, false, map, length, option_map, position, if◌then◌else◌, codes};
ghost use Rattle.std.specs.Str.{is_utf8};
ghost use Rattle.std.specs.List.{slice_split, list_all};
ghost use Rattle.lol_base.specs.CodePoints.{tab};
ghost use Rattle.lol_script.specs.Script.{is_tab, is_named, attribute_at, namespace_at, number_up_to, limit_at, rows_at, select_at, start_at, end_at, of_kind, line_at};
ghost use Rattle.lol_base.specs.declared.start_tag.AttributeOutline.{AttributeOutline};
ghost use Rattle.lol_script.specs.Lines.{AreOutlinesOf, HasOutlines, fields_of, said_by};

use crate::tags::cut_attributes;
use lol_base::{AttributeBuffer, Namespace};
use lol_program::ROWS_PAY_FROM;
use memchr::memchr;
use std::alloc::AllocError;

/// What a line says.
#[derive(Clone, Copy, Debug, PartialEq, Eq)]
pub enum Line<'s> {
    /// What holds for all tags; it stands before the first tag line.
    Setting(Setting<'s>),
    Start(StartLine<'s>),
    End { name: &'s [u8] },
}

/// A line before the first tag line.
#[derive(Clone, Copy, Debug, PartialEq, Eq)]
pub enum Setting<'s> {
    Limit { maximum: u64 },
    Esi,
    Tries,
    Explain,
    /// The machine is made with rows if it has so many nodes or more.
    Rows { fewest: u64 },
    Select { id: u32, text: &'s str },
}

/// A start tag as its line gives it.
#[derive(Clone, Copy, Debug, PartialEq, Eq)]
pub struct StartLine<'s> {
    pub name: &'s [u8],
    pub ns: Namespace,
    pub self_closing: bool,
    /// The attributes, separated by TAB.
    pub attributes: Option<&'s [u8]>,
    /// Whether the attributes are handed over where they are asked for.
    pub finish: bool,
}

/// How many bytes are looked at one by one. Most fields are shorter, and a call of `memchr` costs more than these.
const NEAR: usize = 8;

/// The offset of the first such byte.
#[inline(always)]
pub fn byte_offset(byte: u8, bytes: &[u8]) -> Option<usize>
    ensures { result ≡ position (λ b. b == byte) bytes.now }
{
    let near = bytes.len().min(NEAR);
    for offset in 0..near {
        if bytes[offset] == byte {
            return Some(offset);
        }
    }
    if near == bytes.len() {
        return None;
    }
    let offset = memchr(byte, &bytes[near..])?;
    Some(near + offset)
}

/// A line or the rest of one, cut at its first TAB.
#[tactic(auto, using(crate::proofs::Fields::split_none, crate::proofs::Fields::split_some, crate::proofs::Fields::within_some))]
#[inline(always)]
fn cut(bytes: &[u8]) -> Option<(&[u8], &[u8])>
    ensures fields { MatchOption result (slice_split is_tab bytes.now ≡ bytes.now ∷ [])
        (λ parts. slice_split is_tab bytes.now ≡ parts.0.now ∷ slice_split is_tab parts.1.now) }
    ensures shorter { IfSome result (λ parts. length parts.1.now < length bytes.now) }
{
    let offset = byte_offset(b'\t', bytes)?;
    Some((&bytes[..offset], &bytes[offset + 1..]))
}

/// The first field, and the rest if there are more.
#[inline(always)]
fn first_field(bytes: &[u8]) -> (&[u8], Option<&[u8]>)
    ensures { slice_split is_tab bytes.now ≡ result.0.now ∷ fields_of result.1 }
{
    match cut(bytes) {
        Some((field, rest)) => (field, Some(rest)),
        None => (bytes, None),
    }
}

/// The number of one or more decimal digits, up to `u64::MAX`.
fn number(digits: &[u8]) -> Option<u64>
    ensures { result ≡ number_up_to 18446744073709551615 digits.now }
{
    if digits.is_empty() {
        return None;
    }
    let mut value: u64 = 0;
    for digit in digits {
        if !digit.is_ascii_digit() {
            return None;
        }
        value = value
            .checked_mul(10)?
            .checked_add(u64::from(*digit - b'0'))?;
    }
    Some(value)
}

fn id_of(digits: &[u8]) -> Option<u32>
    ensures { result ≡ number_up_to 4294967295 digits.now }
{
    u32::try_from(number(digits)?).ok()
}

/// Bytes as a text, if they are UTF-8.
pub fn text_of(bytes: &[u8]) -> Option<&str>
    ensures { option_map (λ text. text.now) result ≡ (if is_utf8 bytes.now then Some bytes.now else None) }
{
    std::str::from_utf8(bytes).ok()
}

#[tactic(auto, using(crate::proofs::Fields::limit_too_long))]
fn limit_of(rest: &[u8]) -> Option<Line<'_>>
    ensures said { option_map said_by result ≡ limit_at (slice_split is_tab rest.now) }
    ensures outlines { (outlines : List AttributeOutline) → IfSome result (HasOutlines outlines) }
{
    if cut(rest).is_some() {
        return None;
    }
    let maximum = number(rest)?;
    Some(Line::Setting(Setting::Limit { maximum }))
}

#[tactic(auto, using(crate::proofs::Fields::rows_too_long))]
fn rows_of(rest: &[u8]) -> Option<Line<'_>>
    ensures said { option_map said_by result ≡ rows_at (slice_split is_tab rest.now) }
    ensures outlines { (outlines : List AttributeOutline) → IfSome result (HasOutlines outlines) }
{
    if cut(rest).is_some() {
        return None;
    }
    let fewest = number(rest)?;
    Some(Line::Setting(Setting::Rows { fewest }))
}

#[tactic(auto, using(crate::proofs::Fields::select_by_cut))]
fn select_of(rest: &[u8]) -> Option<Line<'_>>
    ensures said { option_map said_by result ≡ select_at (slice_split is_tab rest.now) }
    ensures outlines { (outlines : List AttributeOutline) → IfSome result (HasOutlines outlines) }
{
    let (digits, text) = cut(rest)?;
    let id = id_of(digits)?;
    let text = text_of(text)?;
    Some(Line::Setting(Setting::Select { id, text }))
}

/// A namespace, and whether the tag closes itself.
#[inline(always)]
fn namespace_of(field: &[u8]) -> Option<(Namespace, bool)>
    ensures { result ≡ namespace_at field.now }
{
    if field == b"html".as_slice() {
        Some((Namespace::Html, false))
    } else if field == b"html/".as_slice() {
        Some((Namespace::Html, true))
    } else if field == b"svg".as_slice() {
        Some((Namespace::Svg, false))
    } else if field == b"svg/".as_slice() {
        Some((Namespace::Svg, true))
    } else if field == b"mathml".as_slice() {
        Some((Namespace::MathML, false))
    } else if field == b"mathml/".as_slice() {
        Some((Namespace::MathML, true))
    } else {
        None
    }
}

/// Whether an attribute has a name.
#[inline(always)]
pub fn has_name(attribute: &[u8]) -> bool
    ensures { result ≡ is_named (attribute_at attribute.now) }
{
    attribute.first().is_some_and(|b| *b != b'=')
}

/// A start tag in a namespace, by what follows that, which may be that it closes itself. Its attributes are cut into the outlines.
#[inline(always)]
fn start_in<'s>(
    namespace: (Namespace, bool),
    rest: &'s [u8],
    finish: bool,
    outlines: &mut AttributeBuffer,
) -> Result<Option<StartLine<'s>>, AllocError>
    ensures said { IfOk result (λ start. (field : List ℕ) → Some namespace ≡ namespace_at field
        → option_map (λ line. said_by (Line.Start line)) start
        ≡ start_at finish (field ∷ slice_split is_tab rest.now)) }
    ensures outlines { IfOk result (λ start. IfSome start (λ line. AreOutlinesOf line.attributes outlines.new.items)) }
{
    let (name, attributes) = first_field(rest);
    let named = cut_attributes(attributes, outlines)?;
    if name.is_empty() || !named {
        return Ok(None);
    }
    let (ns, self_closing) = namespace;
    Ok(Some(StartLine {
        name,
        ns,
        self_closing,
        attributes,
        finish,
    }))
}

/// A namespace, whether the tag closes itself, and what follows, by what follows the kind of a line. Most tags are of HTML.
#[inline(always)]
fn namespaced(rest: &[u8]) -> Option<((Namespace, bool), &[u8])>
    ensures none { IfNone result ((finish : Bool) → start_at finish (slice_split is_tab rest.now) ≡ None) }
    ensures some { IfSome result (λ found. (field : List ℕ) × (Some found.0 ≡ namespace_at field)
        × (slice_split is_tab rest.now ≡ field ∷ slice_split is_tab found.1.now)) }
{
    if let Some(rest) = after_kind(rest, b"html") {
        return Some(((Namespace::Html, false), rest));
    }
    let (namespace, rest) = cut(rest)?;
    Some((namespace_of(namespace)?, rest))
}

/// A start tag, by what follows the kind of its line. Its attributes are cut into the outlines.
#[inline(always)]
pub fn start_of<'s>(
    rest: &'s [u8],
    finish: bool,
    outlines: &mut AttributeBuffer,
) -> Result<Option<StartLine<'s>>, AllocError>
    ensures said { IfOk result (λ start. option_map (λ line. said_by (Line.Start line)) start
        ≡ start_at finish (slice_split is_tab rest.now)) }
    ensures outlines { IfOk result (λ start. IfSome start (λ line. AreOutlinesOf line.attributes outlines.new.items)) }
{
    match namespaced(rest) {
        Some((namespace, rest)) => start_in(namespace, rest, finish, outlines),
        None => Ok(None),
    }
}

/// The name of an end tag, by what follows the kind of its line.
#[tactic(auto, using(crate::proofs::Fields::end_too_long))]
#[inline(always)]
pub fn end_of(rest: &[u8]) -> Option<&[u8]>
    ensures { option_map (λ name. said_by (Line.End name)) result ≡ end_at (slice_split is_tab rest.now) }
{
    if cut(rest).is_some() || rest.is_empty() {
        return None;
    }
    Some(rest)
}

/// What follows a line's first field, if it is this one.
#[inline(always)]
pub fn after_kind<'s>(bytes: &'s [u8], kind: &[u8]) -> Option<&'s [u8]>
    ensures some { IfSome result (λ rest. bytes.now ≡ kind.now ++ tab ∷ rest.now) }
    ensures none { IfNone result ((rest : List ℕ) → bytes.now ≢ kind.now ++ tab ∷ rest) }
{
    match bytes.strip_prefix(kind)? {
        [b'\t', rest @ ..] => Some(rest),
        _ => None,
    }
}

/// A line of one field.
fn bare_line(kind: &[u8]) -> Option<Line<'static>>
    ensures said { option_map said_by result ≡ of_kind kind.now [] }
    ensures outlines { (outlines : List AttributeOutline) → IfSome result (HasOutlines outlines) }
{
    if kind == b"esi".as_slice() {
        Some(Line::Setting(Setting::Esi))
    } else if kind == b"tries".as_slice() {
        Some(Line::Setting(Setting::Tries))
    } else if kind == b"explain".as_slice() {
        Some(Line::Setting(Setting::Explain))
    } else if kind == b"rows".as_slice() {
        Some(Line::Setting(Setting::Rows {
            fewest: ROWS_PAY_FROM as u64,
        }))
    } else {
        None
    }
}

/// What a start line says, if it has the form of one.
#[inline(always)]
fn as_line(start: Option<StartLine<'_>>) -> Option<Line<'_>>
    ensures { result ≡ option_map (λ line. Line.Start line) start.entry }
{
    match start {
        Some(start) => Some(Line::Start(start)),
        None => None,
    }
}

/// What a line says that is neither of a start tag whose attributes may be asked for nor of an end tag.
#[inline(never)]
pub fn other_line<'s>(
    bytes: &'s [u8],
    outlines: &mut AttributeBuffer,
) -> Result<Option<Line<'s>>, AllocError>
    ensures said { IfOk result (λ line. ((rest : List ℕ) → bytes.now ≢ codes "start" ++ tab ∷ rest)
        → ((rest : List ℕ) → bytes.now ≢ codes "end" ++ tab ∷ rest) → option_map said_by line ≡ line_at bytes.now) }
    ensures outlines { IfOk result (λ line. IfSome line (HasOutlines outlines.new.items)) }
{
    if let Some(rest) = after_kind(bytes, b"select") {
        Ok(select_of(rest))
    } else if let Some(rest) = after_kind(bytes, b"drop") {
        Ok(as_line(start_of(rest, false, outlines)?))
    } else if let Some(rest) = after_kind(bytes, b"limit") {
        Ok(limit_of(rest))
    } else if let Some(rest) = after_kind(bytes, b"rows") {
        Ok(rows_of(rest))
    } else {
        Ok(bare_line(bytes))
    }
}

/// What a line says, or nothing where it has none of the forms. The attributes of a start tag are cut into the outlines.
pub fn line_of<'s>(
    bytes: &'s [u8],
    outlines: &mut AttributeBuffer,
) -> Result<Option<Line<'s>>, AllocError>
    ensures said { IfOk result (λ line. option_map said_by line ≡ line_at bytes.now) }
    ensures outlines { IfOk result (λ line. IfSome line (HasOutlines outlines.new.items)) }
{
    if let Some(rest) = after_kind(bytes, b"start") {
        Ok(as_line(start_of(rest, true, outlines)?))
    } else if let Some(rest) = after_kind(bytes, b"end") {
        Ok(end_of(rest).map(|name| Line::End { name }))
    } else {
        other_line(bytes, outlines)
    }
}
