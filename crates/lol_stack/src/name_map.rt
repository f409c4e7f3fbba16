//! Values by the names of elements.

ghost use Rattle.std.specs.Prelude.{◌≡◌, ◌<◌, ◌≤◌, length, MatchResult, OnOk, OnErr, IfOk, IfErr, Some, None};
ghost use Rattle.std.specs.Option.{option_copied};
ghost use Rattle.lol_base.specs.LocalNames.{Name};
ghost use Rattle.lol_stack.specs.NameMaps.{slot_of, in_slot, no_names, value_of, StandsInMap, IsTaken, IsMissing, IsPutAt};
ghost use Rattle.lol_stack.specs.NameBlocks.{is_named};

use crate::name_blocks::{BlockPlace, NameBlocks};
use lol_base::LocalName;
use std::alloc::{AllocError, Global};
use std::marker::Model;

/// How many slots a map has. Six bits of a code, which are a name's last letter and a bit of the one before it, tell most names of a page
/// apart; more slots would be memory that most maps don't fill.
const SLOT_COUNT: usize = 64;

/// Values by name. Each name has one of `SLOT_COUNT` slots, by the last bits of its code; all names without a code have the last one. A
/// name stands in its slot if that was free when it came, and else among the ordered blocks. So most names are
/// found by one comparison, and none at more than two binary searches besides, whichever names a page's author picks. A name that is
/// taken out leaves nothing, and a slot's name moves no other. The slots take memory with the first name.
#[derive(Drop)]
pub struct NameMap<V> {
    slots: Vec<Option<(LocalName<'static>, V)>>,
    overflow: NameBlocks<V>,
}

impl<V> Model for NameMap<V> {
    ghost use Rattle.lol_stack.specs.NameMaps.{SlottedNames, AreApart};

    ghost Value = { SlottedNames V };

    ghost view = { λ m. record { slots = m.slots.items; overflow = m.overflow } };

    ghost invariant = { λ m. AreApart m.slots.items m.overflow };
}

/// Where a name stands, or would: in its slot, or in the blocks.
#[derive(Clone, Copy)]
pub enum NamePlace {
    Slot(usize),
    Overflow(BlockPlace),
}

impl<V> NameMap<V> {
    /// No names. It takes no memory.
    pub fn new(alloc: Global) -> Self
        ensures { result ≡ no_names }
    {
        NameMap {
            slots: Vec::new(alloc),
            overflow: NameBlocks::new(alloc),
        }
    }

    /// Where a name stands, or else where it would.
    #[inline(always)]
    pub fn search<'s, 'i: 's>(&'s self, name: &LocalName<'i>) -> Result<NamePlace, NamePlace>
        ensures place { MatchResult result (StandsInMap self.now name.now) (IsMissing self.now name.now) }
        ensures taken { IfOk result (IsTaken self.now) }
        ensures missing { IfErr result (λ _. value_of self.now name.now ≡ None) }
    {
        let slot = slot_of(name);
        let in_slot: Option<&(LocalName<'i>, V)> = in_slot(self.slots.as_slice(), slot);
        if is_named(in_slot, name) {
            return Ok(NamePlace::Slot(slot));
        }
        match self.overflow.search(name) {
            Ok(place) => Ok(NamePlace::Overflow(place)),
            Err(_) if in_slot.is_none() => Err(NamePlace::Slot(slot)),
            Err(place) => Err(NamePlace::Overflow(place)),
        }
    }

    /// Puts another value at a place, and answers the one that was there.
    #[inline(always)]
    pub fn replace(&mut self, place: NamePlace, value: V) -> V
        requires { IsTaken self.old place }
        ensures was { (name : Name) → StandsInMap self.old name place → value_of self.old name ≡ Some result }
        ensures stands { (name : Name) → StandsInMap self.old name place → StandsInMap self.new name place }
        ensures taken { IsTaken self.new place }
        ensures is { (name : Name) → StandsInMap self.old name place → IsPutAt name (Some value) self.old self.new }
    {
        match place {
            NamePlace::Slot(slot) => replace_value(&mut self.slots[slot], value),
            NamePlace::Overflow(place) => self.overflow.replace(place, value),
        }
    }

    /// Takes the name at a place out.
    #[inline(always)]
    pub fn remove(&mut self, place: NamePlace)
    where
        V: Drop,
        requires { IsTaken self.old place }
        ensures { (name : Name) → StandsInMap self.old name place → IsPutAt name None self.old self.new }
    {
        match place {
            NamePlace::Slot(slot) => self.slots[slot] = None,
            NamePlace::Overflow(place) => self.overflow.remove(place),
        }
    }

    /// Puts a name that stands nowhere at the place that a search gave. Refused, each name has the value that it had.
    #[inline(always)]
    pub fn insert(
        &mut self,
        place: NamePlace,
        name: LocalName<'static>,
        value: V,
    ) -> Result<(), AllocError>
    where
        V: Drop,
        requires { IsMissing self.old name place }
        ensures ok { OnOk result (IsPutAt name.entry (Some value) self.old self.new) }
        ensures err { (q : Name) → OnErr result (value_of self.new q ≡ value_of self.old q) }
    {
        match place {
            NamePlace::Slot(slot) => {
                make_slots(&mut self.slots)?;
                self.slots[slot] = Some((name, value));
                Ok(())
            }
            NamePlace::Overflow(place) => self.overflow.insert(place, name, value),
        }
    }

    /// The value at a place, and none where no name stands there.
    #[inline(always)]
    pub fn value_at(&self, place: NamePlace) -> Option<&V>
        ensures { (name : Name) → StandsInMap self.now name place → option_copied result ≡ value_of self.now name }
    {
        match place {
            NamePlace::Slot(slot) => {
                let (_, value) = in_slot(self.slots.as_slice(), slot)?;
                Some(value)
            }
            NamePlace::Overflow(place) => self.overflow.value_at(place),
        }
    }

    /// The value of a name.
    #[inline(always)]
    pub fn get<'s, 'i: 's>(&'s self, name: &LocalName<'i>) -> Option<&'s V>
        ensures { option_copied result ≡ value_of self.now name.now }
    {
        let in_slot: Option<&(LocalName<'i>, V)> = in_slot(self.slots.as_slice(), slot_of(name));
        match in_slot {
            Some((found, value)) if found == name => Some(value),
            _ => self.overflow.get(name),
        }
    }
}

/// The slot of a name.
#[inline(always)]
fn slot_of(name: &LocalName<'_>) -> usize
    ensures is { result ≡ slot_of name.now }
    ensures bound { result < 64 }
{
    let code = name.code().unwrap_or(u64::MAX);
    (code % 64) as usize
}

/// What stands in a slot.
#[inline(always)]
fn in_slot<'i, 's, V>(
    slots: &'s [Option<(LocalName<'i>, V)>],
    slot: usize,
) -> Option<&'s (LocalName<'i>, V)>
    ensures { option_copied result ≡ in_slot slots.now slot }
{
    match slots.get(slot) {
        Some(Some(entry)) => Some(entry),
        _ => None,
    }
}

/// Whether what stands in a slot is this name's.
#[inline(always)]
fn is_named<'i, V>(entry: Option<&(LocalName<'i>, V)>, name: &LocalName<'i>) -> bool
    ensures { result ≡ is_named (option_copied entry.entry) name.now }
{
    match entry {
        Some((found, _)) => found == name,
        None => false,
    }
}

/// Puts another value at the name of a slot, and answers the one that was there.
#[inline(always)]
fn replace_value<V>(entry: &mut Option<(LocalName<'static>, V)>, value: V) -> V
    ensures was { (e : _) → entry.old ≡ Some e → result ≡ e.1 }
    ensures is { (e : _) → entry.old ≡ Some e → entry.new ≡ Some (e.0, value) }
{
    match entry {
        Some((_, kept)) => std::mem::replace(kept, value),
        None => value,
    }
}

/// Has as many slots as there are. Those that there were keep what stands in them, when it is refused too.
#[inline(never)]
fn make_slots<V>(slots: &mut Vec<Option<(LocalName<'static>, V)>>) -> Result<(), AllocError>
where
    V: Drop,
    ensures count { OnOk result (64 ≤ length slots.new.items) }
    ensures kept { (slot : _) → in_slot slots.new.items slot ≡ in_slot slots.old.items slot }
{
    while slots.len() < SLOT_COUNT {
        slots.push(None)?;
    }
    Ok(())
}
