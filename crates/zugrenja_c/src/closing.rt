//! The values of the elements that an end tag closes.

ghost use Rattle.std.specs.Prelude.{◌++◌, ◌∷◌, [], ℕ, List, Option, IfOk};
ghost use Rattle.lol_matcher.specs.declared.open_element.OpenElement.{OpenElement};
ghost use Rattle.zugrenja_c.specs.Tags.{HasClosed};

use lol_matcher::OpenElement;
use std::alloc::{AllocError, Global};

/// The values of closed elements, as far as there is room, and how many there are.
#[derive(Drop)]
pub(crate) struct Closing {
    pub(crate) values: Vec<u64>,
    pub(crate) closed: usize,
}

impl Closing {
    /// None yet, and room for so many. The room isn't cleared, so it costs no more where few elements are closed.
    pub(crate) fn new(alloc: Global, room: usize) -> Result<Closing, AllocError>
        ensures { IfOk result (HasClosed room []) }
    {
        Ok(Closing {
            values: Vec::with_capacity(alloc, room)?,
            closed: 0,
        })
    }

    /// Keeps the value of one more.
    pub(crate) fn keep(&mut self, element: OpenElement<u64>)
        ensures { (room : ℕ) (elements : List (OpenElement ℕ)) → HasClosed room elements self.old
            → HasClosed room (elements ++ element ∷ []) self.new }
    {
        if self.values.len() < self.values.capacity() {
            self.values.push_reserved(element.value.unwrap_or(0));
        }
        self.closed = self.closed.saturating_add(1);
    }
}
