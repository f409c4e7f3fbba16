//! What a caller keeps of an open element.

ghost use Rattle.std.specs.Prelude.{◌≡◌};
ghost use Rattle.std.specs.Borrow.{Lends, sem};
ghost use Rattle.lol_memory.specs.Ids.{Ids, no_ids};
ghost use Rattle.lol_memory.specs.contracts.dense_hash_set.DenseHashSet.{the_row as ids_row};

use lol_memory::DenseHashSet;
use std::alloc::Global;

/// What a caller keeps of an open element: a set of ids, and whatever else it likes (lol_html's `ElementData`). The machine puts the ids
/// that the element is reported under into the set.
pub trait ElementData: Drop {
    // The set of ids in it.
    ghost ids: { Self → Ids };

    // The same with another set of ids.
    ghost with_ids: { Self → Ids → Self };

    /// The data of an element that is reported under no id. It takes no memory.
    fn new(alloc: Global) -> Self
        ensures { ids result ≡ no_ids };

    /// Lends the set of ids, to be changed in place.
    fn matched_ids_mut(&mut self) -> &mut DenseHashSet
        ensures* lends { sem 𝓛 (Lends Self.row ids_row self.entry result (with_ids self.old)) }
        ensures value { result.now ≡ ids self.old };

    ghost ids_of_changed: { (e : Self) (w : Ids) → ids (with_ids e w) ≡ w };

    ghost same_ids_change_nothing: { (e : Self) → with_ids e (ids e) ≡ e };
}
