//! What the last tag was reported under and why, by the texts whose items a machine has.

ghost use Rattle.std.specs.Prelude.{◌≡◌, ◌≤◌, ◌<◌, ◌++◌, ◌∷◌, [], IfOk, length, map, vec_capacity};
ghost use Rattle.lol_base.specs.Ascending.{ascending_once};
ghost use Rattle.lol_reasons.specs.MachinesShow.{items_around};
ghost use Rattle.lol_reasons.specs.Numbered.{items_of};
ghost use Rattle.lol_matcher.specs.Explaining.{ids_under, numbers_in};

use crate::open_element::OpenElement;
use lol_memory::{MatchId, MatchInfo};
use lol_reasons::Explainer;
use lol_stack::StackItem;
use std::alloc::{AllocError, Global};

/// The numbers of the items that match.
pub(crate) fn item_numbers(alloc: Global, matches: &[MatchInfo]) -> Result<Vec<MatchId>, AllocError>
    ensures { IfOk result (λ numbers. numbers.items ≡ numbers_in matches.now) }
{
    let mut numbers = Vec::with_capacity(alloc, matches.len())?;
    for info in matches {
        numbers.push(info.match_id)?;
    }
    Ok(numbers)
}

/// The elements around the last start tag's, which is the last of these if it was opened.
fn around<'m, T>(
    items: &'m [StackItem<'static, OpenElement<T>>],
    opened: bool,
) -> &'m [StackItem<'static, OpenElement<T>>]
    ensures { result.now ≡ items_around opened items.now }
{
    if opened {
        &items[..items.len().saturating_sub(1)]
    } else {
        items
    }
}

/// The numbers of the elements around the last start tag's.
pub(crate) fn numbers_around<T>(
    alloc: Global,
    items: &[StackItem<'static, OpenElement<T>>],
    opened: bool,
) -> Result<Vec<usize>, AllocError>
    ensures { IfOk result (λ numbers. numbers.items
        ≡ map (λ item. item.element_data.number) (items_around opened items.now)) }
{
    let outer = around(items, opened);
    let mut numbers = Vec::with_capacity(alloc, outer.len())?;
    for item in outer {
        numbers.push(item.element_data.number)?;
    }
    Ok(numbers)
}

/// Lists the ids that the items of a report were added under, ascending and each once, as far as there is room.
pub(crate) fn list_ids(explainer: &Explainer, matches: &[MatchInfo], ids: &mut Vec<MatchId>)
    ensures listed { length matches.now ≤ vec_capacity ids.old
        → ids.new.items ≡ ascending_once (ids_under (items_of explainer.now) (numbers_in matches.now)) }
    ensures room { vec_capacity ids.new ≡ vec_capacity ids.old }
{
    ids.clear();
    for info in matches {
        push_id(explainer, info.match_id, ids);
    }
    ids.sort_unstable();
    ids.dedup();
}

/// Adds the id of an item, if there is such an item and room.
fn push_id(explainer: &Explainer, number: MatchId, ids: &mut Vec<MatchId>)
    ensures pushed { length ids.old.items < vec_capacity ids.old
        → ids.new.items ≡ ids.old.items ++ ids_under (items_of explainer.now) (number ∷ []) }
    ensures room { vec_capacity ids.new ≡ vec_capacity ids.old }
{
    if let Some(item) = explainer.item(number) {
        if ids.len() < ids.capacity() {
            ids.push_reserved(item.id);
        }
    }
}
