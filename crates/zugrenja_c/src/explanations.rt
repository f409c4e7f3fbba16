//! A matcher that explains: it is made, and asked why the last tag was reported.

ghost use Rattle.std.specs.Prelude.{◌≡◌, ◌≢◌, ◌↔◌, [], ◌∷◌, None, true, is_some};
ghost use Rattle.zugrenja_c.specs.Numbers.{IsOneOf};
ghost use Rattle.zugrenja_c.specs.Reasons.{WritesLines, WritesReasons};
ghost use Rattle.zugrenja_c.specs.Sessions.{IsAdding, IsFresh, IsMatching, IsUnbuilt};

use crate::adding::Adding;
use crate::buffers::overwrite;
use crate::handle::Handle;
use crate::reasons::{ReasonPlace, ReasonTable, lines_of};
use crate::session::Session;
use crate::status::{GOOD, IN_USE, NO_MATCHER, NOT_BUILT, NOT_EXPLAINING, OUT_OF_MEMORY};
use std::alloc::Global;

/// As `zugrenja_new`, but the matcher explains.
#[unsafe(no_mangle)]
pub extern "C" fn zugrenja_new_explaining(
    alloc: Global,
    handle: &mut Handle,
    max_memory: usize,
    element_bytes: usize,
    esi: u32,
) -> u32
    ensures made { result ≡ 0 → IsAdding handle.new.slot.value (λ b.
        IsFresh true max_memory element_bytes esi b) }
    ensures in_use { (result ≡ 6) ↔ (is_some handle.old.slot.value ≡ true) }
    ensures unchanged { result ≢ 0 → handle.new.slot.value ≡ handle.old.slot.value }
    ensures statuses { IsOneOf (0 ∷ 4 ∷ 6 ∷ []) result }
{
    if handle.is_live() {
        return IN_USE;
    }
    let adding = Adding::new(alloc, true, max_memory, element_bytes, esi);
    let Ok(session) = Box::new(alloc, Session::Adding(adding)) else {
        return OUT_OF_MEMORY;
    };
    handle.put(session);
    GOOD
}

/// Why the last tag was reported: a reason for each item that matches its element, in the order of adding and of the list. With it come the
/// numbers of the start tags whose elements its compounds are passed by, the outermost first, reason after reason. Both are written as far as there
/// is room, and `reasons_count` and `numbers_count` are how many there are. Takes memory for the answer.
#[unsafe(no_mangle)]
pub extern "C" fn zugrenja_explain(
    alloc: Global,
    handle: &mut Handle,
    reasons: &mut [ReasonPlace],
    numbers: &mut [usize],
    reasons_count: &mut usize,
    numbers_count: &mut usize,
) -> u32
    ensures explained { result ≡ 0 → IsMatching handle.old.slot.value (λ r.
        WritesReasons r reasons.old reasons.new numbers.old numbers.new reasons_count.new numbers_count.new) }
    ensures rest { result ≢ 0 → (reasons.new ≡ reasons.old) × (numbers.new ≡ numbers.old) }
    ensures none { result ≢ 0 → (reasons_count.new ≡ 0) × (numbers_count.new ≡ 0) }
    ensures memory { result ≡ 4 → IsMatching handle.old.slot.value (λ r. is_some r.texts ≡ true) }
    ensures not_explaining { (result ≡ 19) ↔ IsMatching handle.old.slot.value (λ r. r.texts ≡ None) }
    ensures not_built { (result ≡ 7) ↔ IsUnbuilt handle.old.slot.value }
    ensures no_matcher { (result ≡ 5) ↔ (handle.old.slot.value ≡ None) }
    ensures statuses { IsOneOf (0 ∷ 4 ∷ 5 ∷ 7 ∷ 19 ∷ []) result }
    ensures same { handle.new.slot.value ≡ handle.old.slot.value }
{
    *reasons_count = 0;
    *numbers_count = 0;
    let Some(session) = handle.take(alloc) else {
        return NO_MATCHER;
    };
    let status = match &*session {
        Session::Adding(_) => NOT_BUILT,
        Session::Matching(running) => match running.reasons(alloc) {
            Ok(Some(told)) => match ReasonTable::of(alloc, &told) {
                Ok(table) => {
                    *reasons_count = overwrite(&table.places, reasons);
                    *numbers_count = overwrite(&table.numbers, numbers);
                    GOOD
                }
                Err(_) => OUT_OF_MEMORY,
            },
            Ok(None) => NOT_EXPLAINING,
            Err(_) => OUT_OF_MEMORY,
        },
    };
    handle.put(session);
    status
}

/// The same as text, a line for each reason, as a script's `explain` writes it, with the text's number in the place of the line's. The
/// beginning that fits is written, and `written` is the length of all of it. Takes memory for the answer.
#[unsafe(no_mangle)]
pub extern "C" fn zugrenja_explain_text(
    alloc: Global,
    handle: &mut Handle,
    out: &mut [u8],
    written: &mut usize,
) -> u32
    ensures explained { result ≡ 0 → IsMatching handle.old.slot.value (λ r.
        WritesLines r out.old out.new written.new) }
    ensures rest { result ≢ 0 → (out.new ≡ out.old) × (written.new ≡ 0) }
    ensures memory { result ≡ 4 → IsMatching handle.old.slot.value (λ r. is_some r.texts ≡ true) }
    ensures not_explaining { (result ≡ 19) ↔ IsMatching handle.old.slot.value (λ r. r.texts ≡ None) }
    ensures not_built { (result ≡ 7) ↔ IsUnbuilt handle.old.slot.value }
    ensures no_matcher { (result ≡ 5) ↔ (handle.old.slot.value ≡ None) }
    ensures statuses { IsOneOf (0 ∷ 4 ∷ 5 ∷ 7 ∷ 19 ∷ []) result }
    ensures same { handle.new.slot.value ≡ handle.old.slot.value }
{
    *written = 0;
    let Some(session) = handle.take(alloc) else {
        return NO_MATCHER;
    };
    let status = match &*session {
        Session::Adding(_) => NOT_BUILT,
        Session::Matching(running) => match running.reasons(alloc) {
            Ok(Some(told)) => match lines_of(alloc, &told) {
                Ok(lines) => {
                    *written = overwrite(&lines, out);
                    GOOD
                }
                Err(_) => OUT_OF_MEMORY,
            },
            Ok(None) => NOT_EXPLAINING,
            Err(_) => OUT_OF_MEMORY,
        },
    };
    handle.put(session);
    status
}
