//! What a matcher keeps of an open element.

ghost use Rattle.std.specs.Prelude.{refl};

use lol_memory::DenseHashSet;
use lol_stack::{ElementData, StackItem};
use std::alloc::Global;
use std::marker::Model;
use std::slice;

/// What is kept of an open element.
#[derive(Drop)]
pub struct OpenElement<T> {
    /// The ids that it was reported under.
    pub matched_ids: DenseHashSet,
    /// How many tags, end tags too, had been told before its start tag.
    pub number: usize,
    /// The caller's value, if one was given.
    pub value: Option<T>,
}

impl<T: Drop> ElementData for OpenElement<T> {
    ghost ids = { λ d. d.matched_ids };

    ghost with_ids = { λ d w. record d { matched_ids = w } };

    ghost ids_of_changed = { λ d w. refl };

    ghost same_ids_change_nothing = { λ d. refl };

    fn new(alloc: Global) -> Self {
        OpenElement {
            matched_ids: DenseHashSet::new(alloc),
            number: 0,
            value: None,
        }
    }

    fn matched_ids_mut(&mut self) -> &mut DenseHashSet {
        &mut self.matched_ids
    }
}

/// The open elements, the outermost first.
#[derive(Drop)]
pub struct OpenElements<'m, T> {
    items: slice::Iter<'m, StackItem<'static, OpenElement<T>>>,
}

impl<'m, T> Model for OpenElements<'m, T> {
    ghost use Rattle.std.specs.Coded.{codes};
    ghost use Rattle.std.specs.Prelude.{List, map};
    ghost use Rattle.std.specs.Slice.Iter.{iter_rest};
    ghost use Rattle.lol_memory.specs.Ids.{ids_code};
    ghost use Rattle.lol_matcher.specs.declared.open_element.OpenElement.{OpenElement};

    ghost Value = { List (OpenElement T) };

    ghost coded = { Prim.hlevel (codes, ids_code, T.code) };

    ghost view = { λ elements. map (λ item. item.element_data) (iter_rest elements.items) };
}

impl<'m, T> OpenElements<'m, T> {
    ghost use Rattle.std.specs.Prelude.{◌≡◌, map};

    pub(crate) fn new(items: &'m [StackItem<'static, OpenElement<T>>]) -> Self
        ensures { result ≡ map (λ item. item.element_data) items.now }
    {
        OpenElements {
            items: items.iter(),
        }
    }
}

impl<'m, T> Iterator for OpenElements<'m, T> {
    type Item = &'m OpenElement<T>;

    ghost use Rattle.std.specs.Iterator.{YieldsFirstRef, item_count};

    ghost next_gives = { YieldsFirstRef (λ rest. rest) };

    ghost remaining = { item_count (λ rest. rest) };

    fn next(&mut self) -> Option<&'m OpenElement<T>> {
        let item = self.items.next()?;
        Some(&item.element_data)
    }
}
