//! Element data that are ready to use: the ids, and a value of the caller's.

ghost use Rattle.std.specs.Prelude.{refl};

use crate::element_data::ElementData;
use lol_memory::DenseHashSet;
use std::alloc::Global;

/// The ids that an open element was reported under, and a value of the caller's: its default until the caller writes it. (Not in lol_html.)
#[derive(Drop)]
pub struct ElementValue<T> {
    pub matched_ids: DenseHashSet,
    pub value: T,
}

impl<T: Default + Drop> ElementData for ElementValue<T> {
    ghost ids = { λ d. d.matched_ids };

    ghost with_ids = { λ d w. record d { matched_ids = w } };

    ghost ids_of_changed = { λ d w. refl };

    ghost same_ids_change_nothing = { λ d. refl };

    fn new(alloc: Global) -> Self {
        ElementValue {
            matched_ids: DenseHashSet::new(alloc),
            value: T::default(),
        }
    }

    fn matched_ids_mut(&mut self) -> &mut DenseHashSet {
        &mut self.matched_ids
    }
}
