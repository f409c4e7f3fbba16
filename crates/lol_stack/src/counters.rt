//! Counters of children by type.

ghost use Rattle.std.specs.Prelude.{◌≡◌, ℕ, ◌+◌, ◌++◌, ◌∷◌, [], length, map, if◌then◌else◌, OnOk, OnErr, MatchBool};
ghost use Rattle.std.specs.Option.{option_copied};
ghost use Rattle.lol_base.specs.LocalNames.{Name, same_local_name};
ghost use Rattle.lol_stack.specs.Levels.{is_at_level, counted_at_last, without_last, count_if_at};
ghost use Rattle.lol_stack.specs.CounterLists.{list_levels};
ghost use Rattle.lol_stack.specs.CounterMaps.{counters_of};
ghost use Rattle.lol_stack.specs.TypedCounts.{counted_by_type, cut_to, key_of, count_at, PopsAbove};

use crate::name_map::NameMap;
use lol_base::LocalName;
use lol_instructions::ChildCounter;
use std::alloc::{AllocError, Global};
use std::marker::Model;

/// A counter of the children of one name that an open element has had.
#[derive(Drop)]
pub struct CounterItem {
    pub counter: ChildCounter,
    /// The level that it counts at: how many elements were open.
    pub index: usize,
}

/// The counters of one name, one for each level that has one, the last of them apart (lol_html's `CounterList`).
#[derive(Drop)]
pub struct CounterList {
    pub items: Vec<CounterItem>,
    pub current: CounterItem,
}

impl CounterList {
    /// One counter, which has counted one, at the level `start`. It takes no memory.
    pub fn new(alloc: Global, start: usize) -> Self
        ensures { list_levels result ≡ (start, 1) ∷ [] }
    {
        CounterList {
            items: Vec::new(alloc),
            current: CounterItem {
                counter: ChildCounter::new_and_inc(),
                index: start,
            },
        }
    }

    /// Counts one more at the last level, if that is `index`; answers whether it is. A full counter stays.
    #[inline(always)]
    fn count(&mut self, index: usize) -> bool
        ensures is { result ≡ is_at_level index (list_levels self.old) }
        ensures counted { list_levels self.new
            ≡ (if result then counted_at_last (list_levels self.old) else list_levels self.old) }
    {
        let CounterItem {
            counter,
            index: level,
        } = &mut self.current;
        if *level != index {
            return false;
        }
        if !counter.is_full() {
            counter.inc();
        }
        true
    }

    /// The last counter, if it is at this level.
    fn counter_at(&self, index: usize) -> Option<&ChildCounter>
        ensures { option_copied result ≡ count_if_at index (list_levels self.now) }
    {
        if self.current.index == index {
            Some(&self.current.counter)
        } else {
            None
        }
    }

    /// Starts a counter at one more level, which has counted one.
    fn push(&mut self, index: usize) -> Result<(), AllocError>
        ensures ok { OnOk result (list_levels self.new ≡ list_levels self.old ++ (index, 1) ∷ []) }
        ensures err { OnErr result (list_levels self.new ≡ list_levels self.old) }
    {
        self.items.reserve(1)?;
        let started = CounterItem {
            counter: ChildCounter::new_and_inc(),
            index,
        };
        let outer = std::mem::replace(&mut self.current, started);
        self.items.push_reserved(outer);
        Ok(())
    }

    /// Drops the last counter, unless it is the only one; answers whether it was dropped.
    fn pop(&mut self) -> bool
        ensures { MatchBool result (list_levels self.new ≡ without_last (list_levels self.old))
            (without_last (list_levels self.old) ≡ []) }
    {
        match self.items.pop() {
            Some(outer) => {
                self.current = outer;
                true
            }
            None => false,
        }
    }
}

/// The counters of each name that has any.
#[derive(Drop)]
struct CounterLists {
    map: NameMap<CounterList>,
    alloc: Global,
}

impl CounterLists {
    fn new(alloc: Global) -> Self
        ensures { (q : Name) → counters_of result q ≡ [] }
    {
        CounterLists {
            map: NameMap::new(alloc),
            alloc,
        }
    }

    /// Counts one more at the name's last level, if that is `index`; answers whether it is.
    #[inline(always)]
    fn count(&mut self, name: &LocalName<'_>, index: usize) -> bool
        ensures is { result ≡ is_at_level index (counters_of self.old name.now) }
        ensures counted { (q : Name) → counters_of self.new q ≡ (if same_local_name name.now q
            then (if result then counted_at_last (counters_of self.old q) else counters_of self.old q)
            else counters_of self.old q) }
    {
        let Ok(at) = self.map.search(name) else {
            return false;
        };
        let mut list = self.map.replace(at, CounterList::new(self.alloc, index));
        let counted = list.count(index);
        self.map.replace(at, list);
        counted
    }

    /// Starts a counter of the name at one more level, which has counted one.
    #[inline(never)]
    fn start(&mut self, name: &LocalName<'static>, index: usize) -> Result<(), AllocError>
        ensures ok { (q : Name) → OnOk result (counters_of self.new q ≡ (if same_local_name name.now q
            then counters_of self.old q ++ (index, 1) ∷ [] else counters_of self.old q)) }
        ensures err { (q : Name) → OnErr result (counters_of self.new q ≡ counters_of self.old q) }
    {
        let started = CounterList::new(self.alloc, index);
        match self.map.search(name) {
            Ok(at) => {
                let mut list = self.map.replace(at, started);
                let pushed = list.push(index);
                self.map.replace(at, list);
                pushed
            }
            Err(at) => {
                let key = name.try_clone(self.alloc)?;
                self.map.insert(at, key, started)
            }
        }
    }

    /// Starts a counter of the name at one more level, which has counted one, and keeps level and name. Refused, nothing has changed.
    #[inline(never)]
    fn start_kept(
        &mut self,
        kept: &mut Vec<(usize, LocalName<'static>)>,
        name: &LocalName<'_>,
        index: usize,
    ) -> Result<(), AllocError>
        ensures kept { OnOk result (kept.new.items ≡ kept.old.items ++ (index, name.now) ∷ []) }
        ensures started { (q : Name) → OnOk result (counters_of self.new q ≡ (if same_local_name name.now q
            then counters_of self.old q ++ (index, 1) ∷ [] else counters_of self.old q)) }
        ensures unkept { OnErr result (kept.new.items ≡ kept.old.items) }
        ensures err { (q : Name) → OnErr result (counters_of self.new q ≡ counters_of self.old q) }
    {
        let name = name.try_clone(self.alloc)?;
        kept.reserve(1)?;
        self.start(&name, index)?;
        kept.push_reserved((index, name));
        Ok(())
    }

    /// Drops the name's last counter.
    #[inline(never)]
    fn stop(&mut self, name: &LocalName<'static>)
        ensures { (q : Name) → counters_of self.new q ≡ (if same_local_name name.now q
            then without_last (counters_of self.old q) else counters_of self.old q) }
    {
        let Ok(at) = self.map.search(name) else {
            return;
        };
        let mut list = self.map.replace(at, CounterList::new(self.alloc, 0));
        if list.pop() {
            self.map.replace(at, list);
        } else {
            self.map.remove(at);
        }
    }

    /// The name's last counter, if it is at this level.
    #[inline(always)]
    fn get<'s, 'i: 's>(&'s self, name: &LocalName<'i>, index: usize) -> Option<&'s ChildCounter>
        ensures { option_copied result ≡ count_if_at index (counters_of self.now name.now) }
    {
        match self.map.get(name) {
            Some(list) => list.counter_at(index),
            None => None,
        }
    }
}

/// The counters of children by type of the open elements (lol_html's `TypedChildCounterMap`). They are kept in the order in which they
/// were started; the levels ascend where each child is counted at a level that is not below one that is kept.
#[derive(Drop)]
pub struct TypedChildCounterMap {
    lists: CounterLists,
    kept: Vec<(usize, LocalName<'static>)>,
}

impl Model for TypedChildCounterMap {
    ghost use Rattle.std.specs.Prelude.{List};
    ghost use Rattle.lol_stack.specs.TypedCounts.{TypedCount};

    ghost Value = { List TypedCount };

    ghost use Rattle.lol_stack.specs.TypedViews.{typed_counts_of, AreLevels};
    ghost use Rattle.lol_stack.specs.CounterMaps.{counters_of};

    ghost view = { λ t. typed_counts_of t.kept.items (counters_of t.lists) };

    ghost invariant = { λ t. AreLevels (counters_of t.lists) (typed_counts_of t.kept.items (counters_of t.lists)) };
}

impl TypedChildCounterMap {
    /// No counters. It takes no memory.
    pub fn new(alloc: Global) -> Self
        ensures { result ≡ [] }
    {
        TypedChildCounterMap {
            lists: CounterLists::new(alloc),
            kept: Vec::new(alloc),
        }
    }

    /// Counts a child of this name at the level `index`, which is not below a level that is kept, and whose counter for the name is not
    /// full. It is refused only where memory is out, and then nothing has changed.
    #[inline(always)]
    pub fn add_child(&mut self, name: &LocalName<'_>, index: usize) -> Result<(), AllocError>
        ensures ok { OnOk result (self.new ≡ counted_by_type self.old index name.now) }
        ensures err { OnErr result (self.new ≡ self.old) }
    {
        if self.lists.count(name, index) {
            return Ok(());
        }
        self.lists.start_kept(&mut self.kept, name, index)?;
        Ok(())
    }

    /// Drops the counters of the levels above `index`, and answers how many those are. It takes no memory, and visits no name that has no
    /// such counter.
    pub fn pop_to(&mut self, index: usize) -> usize
        ensures kept { self.new ≡ cut_to index self.old }
        ensures dropped { result + length self.new ≡ length self.old }
    {
        let before = self.kept().len();
        while self.pop_above(index) {}
        before - self.kept().len()
    }

    /// Drops the last counter if it is above a level, and answers whether it was.
    #[inline(always)]
    fn pop_above(&mut self, index: usize) -> bool
        ensures { PopsAbove index self.old result self.new }
    {
        let Some(((level, _), _)) = self.kept.split_last() else {
            return false;
        };
        if *level <= index {
            return false;
        }
        let Some((_, name)) = self.kept.pop() else {
            return false;
        };
        self.lists.stop(&name);
        true
    }

    /// Level and name of each counter, in the order in which they were started.
    pub fn kept(&self) -> &[(usize, LocalName<'static>)]
        ensures { result.now ≡ map key_of self.now }
    {
        self.kept.as_slice()
    }

    /// The counter of a name at the level `index`, which is not below a level that is kept. It takes no memory.
    #[inline(always)]
    pub fn get<'s, 'i: 's>(&'s self, name: &LocalName<'i>, index: usize) -> Option<&'s ChildCounter>
        ensures { option_copied result ≡ count_at self.now index name.now }
    {
        self.lists.get(name, index)
    }
}
