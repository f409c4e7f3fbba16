//! The document of the plain matcher as far as events have come.

ghost use Rattle.std.specs.Prelude.{ℕ, ◌≡◌, ◌+◌, ◌<◌, ◌≤◌, ◌∷◌, if◌then◌else◌, IfOk, OnOk, IfSome, map, reverse, drop, position, length, vec_len};
ghost use Rattle.std.specs.List.{list_any};
ghost use Rattle.std.specs.Str.{bytes_eq};
ghost use Rattle.lol_base.specs.StartTags.{RangesAreInside};
ghost use Rattle.lol_base.specs.Names as names;
ghost use Rattle.lol_machine.specs.Events.{has_content_in};
ghost use Rattle.lol_machine.specs.Documents as documents;
ghost use Rattle.lol_machine.specs.Views.{tag_of};
ghost use Rattle.lol_vectors.specs.PlainElements.{tag_shown, element_shown};
ghost use Rattle.lol_vectors.specs.Plain.{child_shown, document_shown};

use crate::plain_element::{PlainElement, is_same_name};
use lol_base::{AuxStartTagInfo, Namespace};
use lol_program::{AttributeMatcher, ChildCounter};
use std::alloc::{AllocError, Global};

/// The elements of HTML that never have content.
const VOID_NAMES: [&str; 17] = [
    "area", "base", "basefont", "bgsound", "br", "col", "embed", "hr", "img", "input", "keygen",
    "link", "meta", "param", "source", "track", "wbr",
];

/// The names, spelled exactly so, that are void where ESI is on.
const ESI_NAMES: [&str; 2] = ["esi:include", "esi:comment"];

/// A start tag that came: the number of its parent, or none at the root, and its name.
#[derive(Clone, Copy)]
pub(crate) struct PlainChild<'e> {
    pub parent: Option<usize>,
    pub name: &'e [u8],
}

/// Each start tag that came, the last one first, and the open elements, the innermost first.
#[derive(Drop)]
pub(crate) struct PlainDocument<'e> {
    pub children: Vec<PlainChild<'e>>,
    pub open_elements: Vec<PlainElement<'e>>,
}

impl<'e> PlainDocument<'e> {
    pub(crate) fn new(alloc: Global) -> Self
        ensures { document_shown 0 result ≡ documents.empty }
    {
        PlainDocument {
            children: Vec::new(alloc),
            open_elements: Vec::new(alloc),
        }
    }
}

/// The parent of what comes now.
fn parent_of(elements: &[PlainElement<'_>]) -> Option<usize>
    ensures { result ≡ documents.parent_of (map element_shown elements.now) }
{
    match elements.split_first() {
        Some((innermost, _)) => Some(innermost.number),
        None => None,
    }
}

fn is_same_parent(parent: Option<usize>, other: Option<usize>) -> bool
    ensures { result ≡ documents.same_parent parent other }
{
    match parent {
        None => other.is_none(),
        Some(number) => match other {
            None => false,
            Some(other) => number == other,
        },
    }
}

/// How many children a parent has had so far.
fn children_of(parent: Option<usize>, children: &[PlainChild<'_>]) -> usize
    ensures { result ≡ documents.children_of parent (map child_shown children.now) }
{
    let mut count = 0;
    for child in children {
        if is_same_parent(parent, child.parent) {
            count += 1;
        }
    }
    count
}

/// How many of a name.
fn typed_children_of(parent: Option<usize>, name: &[u8], children: &[PlainChild<'_>]) -> usize
    ensures { result ≡ documents.typed_children_of parent name.now (map child_shown children.now) }
{
    let mut count = 0;
    for child in children {
        if is_same_parent(parent, child.parent) && is_same_name(name, child.name) {
            count += 1;
        }
    }
    count
}

/// The position after so many. It is refused where no `i32` counts it.
fn position_after(count: usize) -> Result<ChildCounter, AllocError>
    ensures { IfOk result (λ position. position ≡ count + 1) }
{
    let Ok(count) = i32::try_from(count) else {
        return Err(AllocError);
    };
    if count == i32::MAX {
        return Err(AllocError);
    }
    Ok(ChildCounter::at(count + 1))
}

/// The element of a start tag that comes now.
pub(crate) fn new_element<'e>(
    number: usize,
    document: &PlainDocument<'e>,
    name: &'e [u8],
    ns: Namespace,
    aux_info: AuxStartTagInfo<'e>,
    finish: bool,
) -> Result<PlainElement<'e>, AllocError>
    requires { RangesAreInside aux_info }
    ensures { IfOk result (λ element. element_shown element
        ≡ documents.element_of (document_shown number document.now) (tag_of name.now ns aux_info.entry finish)) }
{
    let parent = parent_of(&document.open_elements);
    let position = position_after(children_of(parent, &document.children))?;
    let typed_position = position_after(typed_children_of(parent, name, &document.children))?;
    Ok(PlainElement {
        number,
        name,
        attributes: AttributeMatcher::new(aux_info.input, aux_info.attr_buffer, ns),
        self_closing: aux_info.self_closing,
        finish,
        position,
        typed_position,
    })
}

/// Counts the start tag of an element, and opens it if it has content and wasn't dropped.
pub(crate) fn add_element<'e>(
    document: &mut PlainDocument<'e>,
    element: PlainElement<'e>,
    opens: bool,
) -> Result<(), AllocError>
    ensures children { OnOk result (map child_shown document.new.children.items
        ≡ record {
          parent = documents.parent_of (map element_shown document.old.open_elements.items);
          name = (element_shown element.entry).tag.name;
        } ∷ map child_shown document.old.children.items) }
    ensures open_elements { OnOk result (map element_shown document.new.open_elements.items
        ≡ (if opens then element_shown element.entry ∷ map element_shown document.old.open_elements.items
        else map element_shown document.old.open_elements.items)) }
{
    let child = PlainChild {
        parent: parent_of(&document.open_elements),
        name: element.name,
    };
    document.children.insert(0, child)?;
    if opens {
        document.open_elements.insert(0, element)?;
    }
    Ok(())
}

fn is_void(name: &[u8]) -> bool
    ensures { result ≡ names.is_void name.now }
{
    is_among(name, &VOID_NAMES)
}

fn is_among(name: &[u8], others: &[&str]) -> bool
    ensures { result ≡ list_any (λ other. names.same_name name.now other.now) others.now }
{
    others
        .iter()
        .any(|other| is_same_name(name, other.as_bytes()))
}

fn is_esi(name: &[u8]) -> bool
    ensures { result ≡ names.is_esi name.now }
{
    is_spelled_among(name, &ESI_NAMES)
}

fn is_spelled_among(name: &[u8], others: &[&str]) -> bool
    ensures { result ≡ list_any (λ other. bytes_eq name.now other.now) others.now }
{
    others.iter().any(|other| name == other.as_bytes())
}

/// Whether an element of a namespace has content.
pub(crate) fn has_content(ns: Namespace, enable_esi_tags: bool, element: &PlainElement<'_>) -> bool
    ensures { result ≡ has_content_in ns enable_esi_tags (tag_shown element.now) }
{
    match ns {
        Namespace::Html => { !(is_void(element.name) || (enable_esi_tags && is_esi(element.name))) }
        Namespace::Svg | Namespace::MathML => !element.self_closing,
    }
}

/// Closes the innermost open element of a name and all inside it, and gives their numbers, the outermost first.
pub(crate) fn close(
    alloc: Global,
    document: &mut PlainDocument<'_>,
    name: &[u8],
) -> Result<Vec<usize>, AllocError>
    ensures closed { IfOk result (λ numbers. (events : ℕ) → numbers.items
        ≡ documents.closed name.now (document_shown events document.old)) }
    ensures document { OnOk result ((events : ℕ) → document_shown (events + 1) document.new
        ≡ documents.after_end (document_shown events document.old) name.now) }
{
    let Some(index) = index_of(name, &document.open_elements) else {
        return Ok(Vec::new(alloc));
    };
    let numbers = numbers_of(alloc, &document.open_elements[..index + 1])?;
    remove_first(&mut document.open_elements, index + 1);
    Ok(numbers)
}

/// The index, from the innermost on, of the first open element of a name.
fn index_of(name: &[u8], elements: &[PlainElement<'_>]) -> Option<usize>
    ensures value { result ≡ position (λ e. names.same_name e.name.now name.now) elements.now }
    ensures within { IfSome result (λ index. index < length elements.now) }
{
    elements.iter().position(|e| is_same_name(e.name, name))
}

fn numbers_of(alloc: Global, elements: &[PlainElement<'_>]) -> Result<Vec<usize>, AllocError>
    ensures { IfOk result (λ numbers. numbers.items ≡ map (λ e. e.number) (reverse elements.now)) }
{
    elements.iter().rev().map(|e| e.number).collect(alloc)
}

fn remove_first(elements: &mut Vec<PlainElement<'_>>, count: usize)
    requires { count ≤ vec_len elements.old }
    ensures { elements.new.items ≡ drop count elements.old.items }
{
    for _number in 0..count {
        elements.remove(0);
    }
}
