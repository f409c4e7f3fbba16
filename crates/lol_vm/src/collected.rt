//! What a handler was called with.

ghost use Rattle.std.specs.Prelude.{◌≡◌, ◌≤◌, [], true, false, vec_capacity, IfOk};
ghost use Rattle.lol_vm.specs.Collecting.{Collects};

use std::alloc::{AllocError, Global};

/// What a handler was called with, up to the first item that no memory was there for. (Not in lol_html.)
#[derive(Drop)]
pub struct Collected<T> {
    pub items: Vec<T>,
    /// Whether an item was left out, and all after it.
    pub refused: bool,
}

impl<T: Drop> Collected<T> {
    /// No items. It takes no memory.
    pub fn new(alloc: Global) -> Self
        ensures items { result.items.items ≡ [] }
        ensures refused { result.refused ≡ false }
    {
        Collected {
            items: Vec::new(alloc),
            refused: false,
        }
    }

    /// No items, and room for so many.
    ///
    /// # Errors
    /// Out of memory.
    pub fn with_capacity(alloc: Global, capacity: usize) -> Result<Self, AllocError>
        ensures items { IfOk result (λ collected. collected.items.items ≡ []) }
        ensures refused { IfOk result (λ collected. collected.refused ≡ false) }
        ensures room { IfOk result (λ collected. capacity ≤ vec_capacity collected.items) }
    {
        Ok(Collected {
            items: Vec::with_capacity(alloc, capacity)?,
            refused: false,
        })
    }

    /// Lets go what was kept, and keeps the room.
    pub fn clear(&mut self)
        ensures items { self.new.items.items ≡ [] }
        ensures refused { self.new.refused ≡ false }
    {
        self.items.clear();
        self.refused = false;
    }

    /// Adds an item, unless one was left out before. If memory for it is refused, it is left out.
    pub fn keep(&mut self, item: T)
        ensures collects { Collects self.old item self.new }
        ensures left { self.new.refused ≡ true → self.new.items.items ≡ self.old.items.items }
    {
        if !self.refused && self.items.push(item).is_err() {
            self.refused = true;
        }
    }
}
