//! Open elements.

ghost use Rattle.std.specs.Prelude.{◌≡◌, IsNone, IfOk, IsOk, OnOk, OnErr};
ghost use Rattle.std.specs.Borrow.{sem};
ghost use Rattle.lol_memory.specs.Ids.{AllSmall};
ghost use Rattle.lol_stack.specs.Contexts.{IsNewItem, with_ranges, with_more_ids};
ghost use Rattle.lol_stack.specs.declared.stack_item.StackItemOf.{StackItemOf};

use crate::address_ranges::AddressRanges;
use crate::element_data::ElementData;
use lol_base::LocalName;
use lol_instructions::{ChildCounter, ExecutionBranch};
use lol_memory::DenseHashSet;
use std::alloc::{AllocError, Global};

/// What becomes of the element of a start tag (lol_html's `StackDirective`).
#[derive(Debug, Clone, Copy, PartialEq, Eq)]
pub enum StackDirective {
    /// It is opened.
    Push,
    /// It is opened unless its tag closes itself.
    PushIfNotSelfClosing,
    /// It is never opened.
    PopImmediately,
}

/// An element that is open, or about to be: see `StackItem`.
#[derive(Drop)]
pub struct StackItemOf<N, E> {
    pub local_name: N,
    /// What the caller keeps of it.
    pub element_data: E,
    /// Where the nodes for its children stand.
    pub jumps: AddressRanges,
    /// Where the nodes for all elements inside it stand.
    pub hereditary_jumps: AddressRanges,
    /// How many children it has had.
    pub child_counter: ChildCounter,
    pub stack_directive: StackDirective,
}

/// An element that is open, or about to be (lol_html's `StackItem`). The name of an open one borrows nothing.
pub type StackItem<'i, E> = StackItemOf<LocalName<'i>, E>;

impl<N, E> StackItemOf<N, E> {
    ghost use Rattle.lol_stack.specs.Lending.{lends_data};

    /// Lends the element's data, to be changed in place.
    pub(crate) fn element_data_mut(&mut self) -> &mut E
        ensures* lends { sem 𝓛 (lends_data N.row E.row self.entry result) }
        ensures value { result.now ≡ self.old.element_data }
    {
        &mut self.element_data
    }
}

impl<N, E: ElementData> StackItemOf<N, E> {
    /// An element of this name, with data of its own, no ranges and no children. It takes no memory.
    pub fn new(alloc: Global, local_name: N) -> Self
        ensures { IsNewItem E.ids local_name result }
    {
        StackItemOf {
            local_name,
            element_data: E::new(alloc),
            jumps: AddressRanges::new(),
            hereditary_jumps: AddressRanges::new(),
            child_counter: ChildCounter::default(),
            stack_directive: StackDirective::Push,
        }
    }
}

impl<'i, E: Drop> StackItemOf<LocalName<'i>, E> {
    /// The same element, whose name borrows nothing. A name that is a hash takes no memory.
    pub fn into_owned(self, alloc: Global) -> Result<StackItem<'static, E>, AllocError>
        ensures same { IfOk result (λ item. item ≡ self.entry) }
        ensures no_memory { IsNone self.entry.local_name.spelling → IsOk result }
    {
        let name = self.local_name.try_clone(alloc)?;
        Ok(self.with_name(name))
    }

    /// The same element with this name.
    #[inline(always)]
    pub(crate) fn with_name(self, name: LocalName<'static>) -> StackItem<'static, E>
        ensures { result ≡ record self.entry { local_name = name.entry } }
    {
        StackItemOf {
            local_name: name,
            element_data: self.element_data,
            jumps: self.jumps,
            hereditary_jumps: self.hereditary_jumps,
            child_counter: self.child_counter,
            stack_directive: self.stack_directive,
        }
    }
}
