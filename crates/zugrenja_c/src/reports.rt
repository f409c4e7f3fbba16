//! What is answered of the last tag.

ghost use Rattle.std.specs.Prelude.{◌≡◌, ◌≢◌, ◌↔◌, [], ◌∷◌, None, length, if◌then◌else◌};
ghost use Rattle.lol_instructions.specs.Tries.{names_counted, attributes_counted};
ghost use Rattle.zugrenja_c.specs.Numbers.{IsOneOf, overwritten};
ghost use Rattle.zugrenja_c.specs.Runs.{ids_matched};
ghost use Rattle.zugrenja_c.specs.Sessions.{IfMatching, IsUnbuilt};

use crate::handle::Handle;
use crate::session::Session;
use crate::status::{GOOD, NO_MATCHER, NOT_BUILT};
use std::alloc::Global;

/// The ids that the last start tag was reported under, ascending, as far as there is room, and how many there are.
#[unsafe(no_mangle)]
pub extern "C" fn zugrenja_ids(
    alloc: Global,
    handle: &mut Handle,
    ids: &mut [u32],
    matched: &mut usize,
) -> u32
    ensures ids { result ≡ 0 → IfMatching handle.old.slot.value (λ r.
        (ids.new ≡ overwritten (ids_matched r) ids.old) × (matched.new ≡ length (ids_matched r))) }
    ensures rest { result ≢ 0 → (ids.new ≡ ids.old) × (matched.new ≡ 0) }
    ensures not_built { (result ≡ 7) ↔ IsUnbuilt handle.old.slot.value }
    ensures no_matcher { (result ≡ 5) ↔ (handle.old.slot.value ≡ None) }
    ensures statuses { IsOneOf (0 ∷ 5 ∷ 7 ∷ []) result }
    ensures same { handle.new.slot.value ≡ handle.old.slot.value }
{
    *matched = 0;
    let Some(session) = handle.take(alloc) else {
        return NO_MATCHER;
    };
    let status = match &*session {
        Session::Adding(_) => NOT_BUILT,
        Session::Matching(running) => {
            *matched = running.write_ids(ids);
            GOOD
        }
    };
    handle.put(session);
    status
}

/// Whether the last tag has opened an element: 1, or 0.
#[unsafe(no_mangle)]
pub extern "C" fn zugrenja_has_opened(alloc: Global, handle: &mut Handle, opened: &mut u32) -> u32
    ensures opened { result ≡ 0 → IfMatching handle.old.slot.value (λ r.
        opened.new ≡ (if r.matcher.opened then 1 else 0)) }
    ensures rest { result ≢ 0 → opened.new ≡ 0 }
    ensures not_built { (result ≡ 7) ↔ IsUnbuilt handle.old.slot.value }
    ensures no_matcher { (result ≡ 5) ↔ (handle.old.slot.value ≡ None) }
    ensures statuses { IsOneOf (0 ∷ 5 ∷ 7 ∷ []) result }
    ensures same { handle.new.slot.value ≡ handle.old.slot.value }
{
    *opened = 0;
    let Some(session) = handle.take(alloc) else {
        return NO_MATCHER;
    };
    let status = match &*session {
        Session::Adding(_) => NOT_BUILT,
        Session::Matching(running) => {
            *opened = running.matcher.has_opened() as u32;
            GOOD
        }
    };
    handle.put(session);
    status
}

/// How many nodes of the selectors' tree were tried for the last start tag, by their names and by their attributes.
#[unsafe(no_mangle)]
pub extern "C" fn zugrenja_tries(
    alloc: Global,
    handle: &mut Handle,
    names: &mut u64,
    attributes: &mut u64,
) -> u32
    ensures tries { result ≡ 0 → IfMatching handle.old.slot.value (λ r.
        (names.new ≡ names_counted r.matcher.tries) × (attributes.new ≡ attributes_counted r.matcher.tries)) }
    ensures rest { result ≢ 0 → (names.new ≡ 0) × (attributes.new ≡ 0) }
    ensures not_built { (result ≡ 7) ↔ IsUnbuilt handle.old.slot.value }
    ensures no_matcher { (result ≡ 5) ↔ (handle.old.slot.value ≡ None) }
    ensures statuses { IsOneOf (0 ∷ 5 ∷ 7 ∷ []) result }
    ensures same { handle.new.slot.value ≡ handle.old.slot.value }
{
    *names = 0;
    *attributes = 0;
    let Some(session) = handle.take(alloc) else {
        return NO_MATCHER;
    };
    let status = match &*session {
        Session::Adding(_) => NOT_BUILT,
        Session::Matching(running) => {
            let tries = running.matcher.machine().tries();
            *names = tries.names();
            *attributes = tries.attributes();
            GOOD
        }
    };
    handle.put(session);
    status
}
