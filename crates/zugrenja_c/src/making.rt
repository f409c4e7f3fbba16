//! From zeros to a matcher, and back.

ghost use Rattle.std.specs.Prelude.{◌≡◌, ◌≢◌, ◌<◌, ◌+◌, ◌↔◌, [], ◌∷◌, None, true, false, length, is_some, IsSomeAnd};
ghost use Rattle.std.specs.Str.{IsUtf8};
ghost use Rattle.lol_reasons.specs.Explanations.{added_by};
ghost use Rattle.lol_reasons.specs.Numbered.{texts_in};
ghost use Rattle.zugrenja_c.specs.Numbers.{IsOneOf};
ghost use Rattle.zugrenja_c.specs.Sessions.{AddsText, HasRowsFrom, IsAddedAs, IsAdding, IsBuilt, IsBuiltFrom, IsFresh, IsMatching, IsNotAccepted, IsUnbuilt, StaysAdding};

use crate::adding::Adding;
use crate::handle::Handle;
use crate::session::Session;
use crate::status::{
    BUILT, EXPLAINS, GOOD, IN_USE, NO_MATCHER, NOT_ACCEPTED, NOT_UTF8, OUT_OF_MEMORY, Refusal,
    TOO_MANY_ITEMS,
};
use lol_matcher::{AddError, NumberingError};
use lol_program::Ast;
use std::alloc::Global;
use std::{mem, str};

/// Makes a matcher without selectors, in a handle that has none: open elements may be charged for `max_memory` bytes, each for
/// `element_bytes`, and with an `esi` other than 0 the two void names of Edge Side Includes are void.
#[unsafe(no_mangle)]
pub extern "C" fn zugrenja_new(
    alloc: Global,
    handle: &mut Handle,
    max_memory: usize,
    element_bytes: usize,
    esi: u32,
) -> u32
    ensures made { result ≡ 0 → IsAdding handle.new.slot.value (λ b.
        IsFresh false max_memory element_bytes esi b) }
    ensures in_use { (result ≡ 6) ↔ (is_some handle.old.slot.value ≡ true) }
    ensures unchanged { result ≢ 0 → handle.new.slot.value ≡ handle.old.slot.value }
    ensures statuses { IsOneOf (0 ∷ 4 ∷ 6 ∷ []) result }
{
    if handle.is_live() {
        return IN_USE;
    }
    let adding = Adding::new(alloc, false, max_memory, element_bytes, esi);
    let Ok(session) = Box::new(alloc, Session::Adding(adding)) else {
        return OUT_OF_MEMORY;
    };
    handle.put(session);
    GOOD
}

/// Adds the selectors of a text, a list of them with commas, under an id. `refusal` is written only if the text isn't accepted.
#[unsafe(no_mangle)]
pub extern "C" fn zugrenja_add(
    alloc: Global,
    handle: &mut Handle,
    id: u32,
    text: &[u8],
    refusal: &mut Refusal,
) -> u32
    ensures added { StaysAdding handle.old.slot.value handle.new.slot.value (λ b c.
        AddsText result id text.now b c) }
    ensures not_accepted { result ≡ 10 → IsNotAccepted text.now refusal.new }
    ensures no_matcher { (result ≡ 5) ↔ (handle.old.slot.value ≡ None) }
    ensures built { (result ≡ 8) ↔ IsBuilt handle.old.slot.value }
    ensures not_utf8 { (result ≡ 9) ↔ (IsUnbuilt handle.old.slot.value × (¬ (IsUtf8 text.now))) }
    ensures statuses { IsOneOf (0 ∷ 4 ∷ 5 ∷ 8 ∷ 9 ∷ 10 ∷ []) result }
    ensures unchanged { result ≢ 0 → result ≢ 4 → handle.new.slot.value ≡ handle.old.slot.value }
    ensures untouched { result ≢ 10 → refusal.new ≡ refusal.old }
{
    let Some(mut session) = handle.take(alloc) else {
        return NO_MATCHER;
    };
    let status = match &mut *session {
        Session::Adding(adding) => match str::from_utf8(text) {
            Ok(text) => status_of(adding.add(alloc, id, text), refusal),
            Err(_) => NOT_UTF8,
        },
        Session::Matching(_) => BUILT,
    };
    handle.put(session);
    status
}

/// The status of a text that was added, or wasn't; then why it isn't accepted is written.
fn status_of(added: Result<(), AddError>, refusal: &mut Refusal) -> u32
    ensures { IsAddedAs added result refusal.old refusal.new }
{
    match added {
        Ok(()) => GOOD,
        Err(AddError::Memory) => OUT_OF_MEMORY,
        Err(AddError::Refused { cause, location }) => {
            *refusal = Refusal::of(cause, location);
            NOT_ACCEPTED
        }
    }
}

/// Has the matcher spare the nodes that a tag's name, id, classes and attributes rule out, if at least `fewest` were added: always with 0,
/// and 256 is from where it pays. It answers the same, and tries fewer nodes. It is called after the selectors were added, and takes no
/// memory. A matcher that explains spares none.
#[unsafe(no_mangle)]
pub extern "C" fn zugrenja_with_rows(alloc: Global, handle: &mut Handle, fewest: usize) -> u32
    ensures made { result ≡ 0 → StaysAdding handle.old.slot.value handle.new.slot.value (λ b c.
        HasRowsFrom fewest b c) }
    ensures explains { (result ≡ 21) ↔ IsAdding handle.old.slot.value (λ b. is_some b.texts ≡ true) }
    ensures no_matcher { (result ≡ 5) ↔ (handle.old.slot.value ≡ None) }
    ensures built { (result ≡ 8) ↔ IsBuilt handle.old.slot.value }
    ensures statuses { IsOneOf (0 ∷ 5 ∷ 8 ∷ 21 ∷ []) result }
    ensures unchanged { result ≢ 0 → handle.new.slot.value ≡ handle.old.slot.value }
{
    let Some(mut session) = handle.take(alloc) else {
        return NO_MATCHER;
    };
    let status = match &mut *session {
        Session::Adding(adding) => {
            if adding.texts.is_some() {
                EXPLAINS
            } else {
                let ast = mem::replace(&mut adding.settings.ast, Ast::new(alloc));
                adding.settings.ast = ast.with_rows_from(fewest);
                GOOD
            }
        }
        Session::Matching(_) => BUILT,
    };
    handle.put(session);
    status
}

/// Builds the matcher: from now on tags are told, and no selector is added. Out of memory, the matcher is freed; one that explains also if
/// there are more items of selectors than ids, 4,294,967,296.
#[unsafe(no_mangle)]
pub extern "C" fn zugrenja_build(alloc: Global, handle: &mut Handle) -> u32
    ensures built { result ≡ 0 → IsAdding handle.old.slot.value (λ b. IsMatching handle.new.slot.value (λ r.
        IsBuiltFrom b r)) }
    ensures memory { result ≡ 4 → IsUnbuilt handle.old.slot.value × (handle.new.slot.value ≡ None) }
    ensures too_many { result ≡ 20 → IsAdding handle.old.slot.value (λ b. IsSomeAnd b.texts (λ texts.
        u32.MAX + 1 < length (added_by (texts_in texts)))) × (handle.new.slot.value ≡ None) }
    ensures no_matcher { (result ≡ 5) ↔ (handle.old.slot.value ≡ None) }
    ensures twice { (result ≡ 8) ↔ IsBuilt handle.old.slot.value }
    ensures statuses { IsOneOf (0 ∷ 4 ∷ 5 ∷ 8 ∷ 20 ∷ []) result }
    ensures unchanged { result ≢ 0 → result ≢ 4 → result ≢ 20 → handle.new.slot.value ≡ handle.old.slot.value }
{
    let Some(mut session) = handle.take(alloc) else {
        return NO_MATCHER;
    };
    let Session::Adding(adding) = &mut *session else {
        handle.put(session);
        return BUILT;
    };
    let adding = mem::replace(adding, Adding::new(alloc, false, 0, 1, 0));
    match adding.build(alloc) {
        Ok(running) => {
            *session = Session::Matching(running);
            handle.put(session);
            GOOD
        }
        Err(NumberingError::TooManyItems) => TOO_MANY_ITEMS,
        Err(NumberingError::Memory) => OUT_OF_MEMORY,
    }
}

/// Frees the matcher of a handle, which is as zeros then.
#[unsafe(no_mangle)]
pub extern "C" fn zugrenja_free(alloc: Global, handle: &mut Handle) -> u32
    ensures freed { handle.new.slot.value ≡ None }
    ensures status { (result ≡ 0) ↔ (is_some handle.old.slot.value ≡ true) }
    ensures no_matcher { (result ≡ 5) ↔ (handle.old.slot.value ≡ None) }
{
    match handle.take(alloc) {
        Some(_) => GOOD,
        None => NO_MATCHER,
    }
}
