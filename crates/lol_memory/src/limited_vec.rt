//! A list whose slots are charged to a limiter before they are taken.

ghost use Rattle.std.specs.Prelude.{◌≡◌, ◌⊎◌, ◌^◌, ◌≤◌, ◌<◌, ◌-◌, ◌+◌, ◌*◌, ◌++◌, ◌∷◌, ◌↔◌, [], length, reverse, option_to_list, IfSome, IsNone, IsSome, OnOk, OnErr, IsOk, IsErrOf, IsTrue, slice_get, slice_range, slice_index_or, option_copied};
ghost use Rattle.std.specs.Option.{option_copied_mut};
ghost use Rattle.std.specs.Borrow.{sem};
ghost use Rattle.std.specs.Iterator.{at_most};
ghost use Rattle.std.specs.Iterator.Runs.{YieldsInOrder};
ghost use Rattle.std.specs.List.{remove_range};
ghost use Rattle.lol_memory.specs.Limiter.{charged};
ghost use Rattle.lol_memory.specs.LimitedVec.{pushed, with_items, more_slots, grown_slots, IsLimited};

use crate::limiter::{MemoryLimitExceededError, SharedMemoryLimiter};
use std::alloc::{AllocError, Global};
use std::marker::Model;
use std::ops::{Index, Range};
use thiserror::Error;

/// Why a push was refused.
#[derive(Debug, Drop, Error)]
pub enum PushError {
    /// The charge, or the number of slots, would pass the limiter's maximum or usize.
    #[error(transparent)]
    Limit(MemoryLimitExceededError),
    /// The memory for the slots isn't there.
    #[error(transparent)]
    Memory(AllocError),
}

/// A list whose slots are charged to a limiter, each for `item_bytes` bytes (lol_html's `LimitedVec`). It can't be dropped: it is given
/// to `release`, with the limiter that its pushes were lent, or to `discard`, where that limiter ends too.
#[derive(Debug)]
pub struct LimitedVec<T> {
    vec: Vec<T>,
    item_bytes: usize,
}

impl<T> Model for LimitedVec<T> {
    ghost use Rattle.std.specs.Prelude.{◌<◌, vec_capacity};
    ghost use Rattle.lol_memory.specs.LimitedVec.{LimitedVec as Limited, limited_vec_code};

    ghost Value = { Limited T };

    ghost coded = { limited_vec_code T.code };

    ghost view = { λ v. record { items = v.vec.items; slots = vec_capacity v.vec; item_bytes = v.item_bytes } };

    ghost invariant = { λ v. 0 < v.item_bytes };
}

impl<T> LimitedVec<T> {
    ghost use Rattle.lol_memory.specs.Lends.{lends_last, lends_slice};
    ghost use Rattle.lol_memory.specs.Drain.{drain_rest, drain_left, drain_lender, DrainSteps, DrainKeepsAlong};

    /// The empty list, without slots. It takes no memory.
    pub fn new(alloc: Global, item_bytes: usize) -> Self
        requires { 0 < item_bytes }
        ensures { result ≡ record { items = []; slots = 0; item_bytes = item_bytes } }
    {
        LimitedVec {
            vec: Vec::new(alloc),
            item_bytes,
        }
    }

    /// The number of elements.
    pub fn len(&self) -> usize
        ensures { result ≡ length self.now.items }
    {
        self.vec.len()
    }

    /// The number of elements that there is room for, all of them charged.
    pub fn slots(&self) -> usize
        ensures value { result ≡ self.now.slots }
        ensures room { length self.now.items ≤ result }
    {
        self.vec.capacity()
    }

    /// The last element.
    pub fn last(&self) -> Option<&T>
        ensures { option_copied result ≡ slice_get self.now.items (length self.now.items - 1) }
    {
        self.vec.last()
    }

    /// The last element, to be changed in place.
    pub fn last_mut(&mut self) -> Option<&mut T>
        ensures* writes_back { sem 𝓛 (lends_last T.row self.entry result) }
        ensures value { option_copied_mut result ≡ slice_get self.old.items (length self.old.items - 1) }
    {
        self.vec.last_mut()
    }

    /// The elements.
    pub fn as_slice(&self) -> &[T]
        ensures { result.now ≡ self.now.items }
    {
        self.vec.as_slice()
    }

    /// The elements, to be changed in place.
    pub fn as_mut_slice(&mut self) -> &mut [T]
        ensures* writes_back { sem 𝓛 (lends_slice T.row self.entry result) }
        ensures value { result.now ≡ self.old.items }
    {
        self.vec.as_mut_slice()
    }

    /// Adds an element. With a free slot there is neither a growth nor a charge. A full list doubles its slots, or takes the fewest that a
    /// list has (`max(8, 128 / item_bytes)`) where it has none; the new slots are charged first. It answers `Limit` exactly if that charge
    /// or the number of slots would pass usize or the limiter's maximum, and `Memory` only where the memory isn't there. After a
    /// refusal the list and the limiter are as before, and the element is dropped.
    #[inline(always)]
    pub fn push(&mut self, element: T, limiter: &mut SharedMemoryLimiter) -> Result<(), PushError>
    where
        T: Drop,
        ensures ok { OnOk result (self.new ≡ pushed self.old element) }
        ensures charged { OnOk result (limiter.new ≡ charged limiter.old (grown_slots self.old * self.old.item_bytes)) }
        ensures no_memory { length self.old.items < self.old.slots → IsOk result }
        ensures limited { IsErrOf result (PushError.Limit (record {})) ↔ IsLimited self.old limiter.old }
        ensures err { OnErr result (self.new ≡ self.old) }
        ensures err_limiter { OnErr result (limiter.new ≡ limiter.old) }
    {
        self.make_room(limiter)?;
        self.push_reserved(element);
        Ok(())
    }

    /// Adds an element in a free slot (`make_room`).
    #[inline(always)]
    pub fn push_reserved(&mut self, element: T)
        requires { length self.old.items < self.old.slots }
        ensures { self.new ≡ record self.old { items = self.old.items ++ element ∷ [] } }
    {
        self.vec.push_reserved(element);
    }

    /// Whether the next push, with this limiter, is refused with `Limit`. It takes no memory.
    pub fn is_limited(&self, limiter: &SharedMemoryLimiter) -> bool
        ensures { IsTrue result ↔ IsLimited self.now limiter.now }
    {
        self.len() == self.slots()
            && self
                .growth()
                .is_none_or(|(_, charge)| limiter.would_pass(charge))
    }

    /// Charges and makes the slots that the next push needs, which is then neither a growth nor a charge. It is refused as `push` is.
    pub fn make_room(&mut self, limiter: &mut SharedMemoryLimiter) -> Result<(), PushError>
        ensures ok { OnOk result (self.new ≡ record self.old { slots = self.old.slots + grown_slots self.old }) }
        ensures room { OnOk result (length self.new.items < self.new.slots) }
        ensures charged { OnOk result (limiter.new ≡ charged limiter.old (grown_slots self.old * self.old.item_bytes)) }
        ensures no_memory { length self.old.items < self.old.slots → IsOk result }
        ensures limited { IsErrOf result (PushError.Limit (record {})) ↔ IsLimited self.old limiter.old }
        ensures err { OnErr result (self.new ≡ self.old) }
        ensures err_limiter { OnErr result (limiter.new ≡ limiter.old) }
    {
        if self.vec.len() < self.vec.capacity() {
            return Ok(());
        }
        let Some((additional, charge)) = self.growth() else {
            return Err(PushError::Limit(MemoryLimitExceededError));
        };
        limiter.increase_usage(charge).map_err(PushError::Limit)?;
        if let Err(error) = self.vec.reserve_exact(additional) {
            limiter.decrease_usage(charge);
            return Err(PushError::Memory(error));
        }
        Ok(())
    }

    /// How many slots come when the list is full, and their charge; none if either passes usize.
    fn growth(&self) -> Option<(usize, usize)>
        ensures some { IfSome result
            (λ g. (g.0 ≡ more_slots self.now) × (g.1 ≡ more_slots self.now * self.now.item_bytes)) }
        ensures none { IsNone result ↔ (2 ^ 64 ≤ more_slots self.now * self.now.item_bytes)
            ⊎ (2 ^ 64 ≤ self.now.slots + more_slots self.now) }
    {
        let slots = self.vec.capacity();
        let additional = slots.max((128 / self.item_bytes).max(8));
        slots.checked_add(additional)?;
        let charge = additional.checked_mul(self.item_bytes)?;
        Some((additional, charge))
    }

    /// Takes the elements of a range out, and lends an iterator that gives them in order. The others stay in the list, with its slots, once
    /// that iterator is dropped.
    pub fn drain(&mut self, range: Range<usize>) -> Drain<'_, T>
    where
        T: Drop,
        requires start_le_end { range.start ≤ range.end }
        requires in_bounds { range.end ≤ length self.old.items }

        // It gives the elements in the range, in order.
        ensures rest { drain_rest result ≡ slice_range self.old.items range.start range.end }
        ensures runs { YieldsInOrder (DrainSteps {T = T}) drain_rest }

        // Once dropped it leaves the others, after every number of calls of `next`.
        ensures same_reference { drain_lender result ≡ self.entry.ghost_name }
        ensures left { drain_left result ≡ with_items self.old (remove_range self.old.items range.start range.end) }
        ensures stays { DrainKeepsAlong result }
    {
        let keep = self.len() - (range.end - range.start);
        move_to_back(self.vec.as_mut_slice(), range.start, range.end);
        Drain { vec: self, keep }
    }

    fn pop(&mut self) -> Option<T>
        ensures slots { (self.new.slots ≡ self.old.slots) × (self.new.item_bytes ≡ self.old.item_bytes) }
        ensures items { self.old.items ≡ self.new.items ++ option_to_list result }
        ensures some { IsSome result ↔ (0 < length self.old.items) }
    {
        self.vec.pop()
    }

    /// Drops the elements. The usage of the limiter stays as it is: for a limiter that ends with the list. (Not in lol_html.)
    pub fn discard(self)
    where
        T: Drop,
    {
        let LimitedVec {
            vec: _,
            item_bytes: _,
        } = self;
    }

    /// Drops the elements, and lowers the usage by the charge of the slots.
    pub fn release(self, limiter: &mut SharedMemoryLimiter)
    where
        T: Drop,
        requires { self.slots * self.item_bytes ≤ limiter.old.usage }
        ensures { limiter.new ≡ record limiter.old { usage = limiter.old.usage - self.slots * self.item_bytes } }
    {
        let LimitedVec { vec, item_bytes } = self;
        let _usage = limiter.current_usage();
        limiter.decrease_usage(vec.capacity() * item_bytes);
    }
}

impl<T> Index<usize> for LimitedVec<T> {
    type Output = T;

    ghost can_index = { λ v i. i < length v.items };

    ghost index_gives = { λ v i x. x ≡ slice_index_or v.items i x };

    fn index(&self, index: usize) -> &T {
        &self.vec[index]
    }
}

/// Gives elements of a list in order. Dropped, it leaves the others in the list.
pub struct Drain<'a, T> {
    vec: &'a mut LimitedVec<T>,
    // The first `keep` elements stay; what is still to come stands after them, the last first.
    keep: usize,
}

impl<'a, T: Drop> Drop for Drain<'a, T> {
    ghost use Rattle.lol_memory.specs.Drain.{drain_left};

    fn drop(self)
        ensures { self.exit.0.now ≡ drain_left self.entry }
    {
        let Drain { vec, keep } = self;
        vec.vec.truncate(keep);
    }
}

impl<'a, T: Drop> Iterator for Drain<'a, T> {
    ghost use Rattle.lol_memory.specs.Drain.{drain_rest, DrainSteps};

    type Item = T;

    ghost next_gives = { DrainSteps };

    ghost remaining = { λ d. at_most (length (drain_rest d)) };

    fn next(&mut self) -> Option<T> {
        if self.vec.len() <= self.keep {
            return None;
        }
        self.vec.pop()
    }
}

/// Moves a range to the back, its last element first.
fn move_to_back<T>(items: &mut [T], start: usize, end: usize)
    requires start_le_end { start ≤ end }
    requires in_bounds { end ≤ length items.old }
    ensures { items.new ≡ remove_range items.old start end ++ reverse (slice_range items.old start end) }
{
    let len = items.len();
    items[start..].rotate_left(end - start);
    items[len - (end - start)..].reverse();
}
