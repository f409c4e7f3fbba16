//! What is told of a document's tags.

ghost use Rattle.std.specs.Prelude.{◌≡◌, ◌≢◌, ◌↔◌, [], ◌∷◌, None, false};
ghost use Rattle.zugrenja_c.specs.Numbers.{IsOneOf, is_flag, numbered_namespace};
ghost use Rattle.zugrenja_c.specs.Sessions.{IsBuilt, IsMatching, IsUnbuilt, StaysMatching};
ghost use Rattle.zugrenja_c.specs.Tags.{Ends, Finishes, GivesValue, Starts};

use crate::attribute_places::AttributePlace;
use crate::handle::Handle;
use crate::session::Session;
use crate::status::{NO_MATCHER, NOT_BUILT};
use std::alloc::Global;

/// A start tag: it is reported, under as many ids as `matched` says, or its attributes are asked for. A start tag that waits for its
/// attributes is dropped: its element counts as a child, and is neither reported nor opened.
#[unsafe(no_mangle)]
pub extern "C" fn zugrenja_start(
    alloc: Global,
    handle: &mut Handle,
    name: &[u8],
    namespace: u32,
    matched: &mut usize,
) -> u32
    ensures told { StaysMatching handle.old.slot.value handle.new.slot.value (λ r s.
        Starts result name.now namespace matched.new r s) }
    ensures no_namespace { (result ≡ 11)
        ↔ (IsBuilt handle.old.slot.value × (numbered_namespace namespace ≡ None)) }
    ensures not_built { (result ≡ 7) ↔ IsUnbuilt handle.old.slot.value }
    ensures no_matcher { (result ≡ 5) ↔ (handle.old.slot.value ≡ None) }
    ensures statuses { IsOneOf (0 ∷ 1 ∷ 5 ∷ 7 ∷ 11 ∷ 12 ∷ 13 ∷ 14 ∷ 15 ∷ []) result }
    ensures unchanged { IsOneOf (5 ∷ 7 ∷ 11 ∷ 15 ∷ []) result
        → handle.new.slot.value ≡ handle.old.slot.value }
    ensures none { result ≢ 0 → matched.new ≡ 0 }
{
    *matched = 0;
    let Some(mut session) = handle.take(alloc) else {
        return NO_MATCHER;
    };
    let status = match &mut *session {
        Session::Adding(_) => NOT_BUILT,
        Session::Matching(running) => running.start(name, namespace, matched),
    };
    handle.put(session);
    status
}

/// The attributes of the start tag that waits for them, by their places in `text`, and whether it closes itself, which counts outside
/// HTML: it is reported, under as many ids as `matched` says.
#[unsafe(no_mangle)]
pub extern "C" fn zugrenja_finish(
    alloc: Global,
    handle: &mut Handle,
    text: &[u8],
    attributes: &[AttributePlace],
    self_closing: u32,
    matched: &mut usize,
) -> u32
    ensures told { StaysMatching handle.old.slot.value handle.new.slot.value (λ r s.
        Finishes result text.now attributes.now (is_flag self_closing) matched.new r s) }
    ensures no_places { result ≡ 4 → IsBuilt handle.old.slot.value }
    ensures not_built { (result ≡ 7) ↔ IsUnbuilt handle.old.slot.value }
    ensures no_matcher { (result ≡ 5) ↔ (handle.old.slot.value ≡ None) }
    ensures statuses { IsOneOf (0 ∷ 4 ∷ 5 ∷ 7 ∷ 12 ∷ 13 ∷ 14 ∷ 15 ∷ 16 ∷ 17 ∷ []) result }
    ensures unchanged { IsOneOf (4 ∷ 5 ∷ 7 ∷ 15 ∷ 16 ∷ 17 ∷ []) result
        → handle.new.slot.value ≡ handle.old.slot.value }
    ensures none { result ≢ 0 → matched.new ≡ 0 }
{
    *matched = 0;
    let Some(mut session) = handle.take(alloc) else {
        return NO_MATCHER;
    };
    let status = match &mut *session {
        Session::Adding(_) => NOT_BUILT,
        Session::Matching(running) => running.finish(
            alloc,
            text,
            attributes,
            self_closing != 0,
            matched,
        ),
    };
    handle.put(session);
    status
}

/// An end tag: the last open element of its name is closed, and all inside it; none if none is open. `closed` says how many, and `values`
/// gets their values as far as there is room, the outermost first, 0 if none was given.
#[unsafe(no_mangle)]
pub extern "C" fn zugrenja_end(
    alloc: Global,
    handle: &mut Handle,
    name: &[u8],
    values: &mut [u64],
    closed: &mut usize,
) -> u32
    ensures told { result ≡ 0 → StaysMatching handle.old.slot.value handle.new.slot.value (λ r s.
        Ends name.now values.old values.new closed.new r s) }
    ensures none { result ≢ 0 → (values.new ≡ values.old) × (closed.new ≡ 0) }
    ensures not_built { (result ≡ 7) ↔ IsUnbuilt handle.old.slot.value }
    ensures no_matcher { (result ≡ 5) ↔ (handle.old.slot.value ≡ None) }
    ensures statuses { IsOneOf (0 ∷ 4 ∷ 5 ∷ 7 ∷ []) result }
    ensures unchanged { result ≢ 0 → handle.new.slot.value ≡ handle.old.slot.value }
{
    *closed = 0;
    let Some(mut session) = handle.take(alloc) else {
        return NO_MATCHER;
    };
    let status = match &mut *session {
        Session::Adding(_) => NOT_BUILT,
        Session::Matching(running) => running.end(alloc, name, values, closed),
    };
    handle.put(session);
    status
}

/// Gives a value to the element that the last tag has opened, in the place of the one that it had.
#[unsafe(no_mangle)]
pub extern "C" fn zugrenja_set_value(alloc: Global, handle: &mut Handle, value: u64) -> u32
    ensures given { result ≡ 0 → StaysMatching handle.old.slot.value handle.new.slot.value (λ r s.
        GivesValue value r s) }
    ensures not_opened { (result ≡ 18) ↔ IsMatching handle.old.slot.value (λ r. r.matcher.opened ≡ false) }
    ensures not_built { (result ≡ 7) ↔ IsUnbuilt handle.old.slot.value }
    ensures no_matcher { (result ≡ 5) ↔ (handle.old.slot.value ≡ None) }
    ensures statuses { IsOneOf (0 ∷ 5 ∷ 7 ∷ 18 ∷ []) result }
    ensures unchanged { result ≢ 0 → handle.new.slot.value ≡ handle.old.slot.value }
{
    let Some(mut session) = handle.take(alloc) else {
        return NO_MATCHER;
    };
    let status = match &mut *session {
        Session::Adding(_) => NOT_BUILT,
        Session::Matching(running) => running.set_value(value),
    };
    handle.put(session);
    status
}
