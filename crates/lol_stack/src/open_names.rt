//! Names of the open elements.

ghost use Rattle.std.specs.Prelude.{◌≡◌, ◌++◌, ◌∷◌, [], if◌then◌else◌, OnOk, OnErr, MatchBool, MatchOption};
ghost use Rattle.lol_base.specs.LocalNames.{Name, same_local_name};
ghost use Rattle.lol_stack.specs.NameMaps.{StandsInMap, IsTaken};
ghost use Rattle.lol_stack.specs.Levels.{without_last};
ghost use Rattle.lol_stack.specs.Depths.{depths_listed};
ghost use Rattle.lol_stack.specs.OpenDepths.{depths_of};

use crate::name_map::{NameMap, NamePlace};
use lol_base::LocalName;
use std::alloc::{AllocError, Global};
use std::slice;

/// The depths of the open elements of one name. A single one takes no memory.
#[derive(Drop)]
enum Depths {
    One(usize),
    Many(Vec<usize>),
}

impl Depths {
    fn as_slice(&self) -> &[usize]
        ensures { result.now ≡ depths_listed self.now }
    {
        match self {
            Depths::One(depth) => slice::from_ref(depth),
            Depths::Many(depths) => depths.as_slice(),
        }
    }

    fn push(&mut self, alloc: Global, depth: usize) -> Result<(), AllocError>
        ensures ok { OnOk result (depths_listed self.new ≡ depths_listed self.old ++ depth ∷ []) }
        ensures err { OnErr result (depths_listed self.new ≡ depths_listed self.old) }
    {
        match self {
            Depths::One(first) => {
                let mut depths = Vec::new(alloc);
                depths.push(*first)?;
                depths.push(depth)?;
                *self = Depths::Many(depths);
            }
            Depths::Many(depths) => depths.push(depth)?,
        }
        Ok(())
    }

    /// Takes the last depth off, and answers true; or answers false, where no other depth is left.
    fn pop(&mut self) -> bool
        ensures { MatchBool result (depths_listed self.new ≡ without_last (depths_listed self.old))
            (without_last (depths_listed self.old) ≡ []) }
    {
        match self {
            Depths::One(_) => false,
            Depths::Many(depths) => {
                depths.pop();
                !depths.is_empty()
            }
        }
    }
}

/// The depths of the open elements of each name that has any.
#[derive(Drop)]
pub(crate) struct OpenNames {
    map: NameMap<Depths>,
    alloc: Global,
}

impl OpenNames {
    pub(crate) fn new(alloc: Global) -> Self
        ensures { (q : Name) → depths_of result q ≡ [] }
    {
        OpenNames {
            map: NameMap::new(alloc),
            alloc,
        }
    }

    /// The depths of a name, in the order in which they were added.
    pub(crate) fn depths<'s, 'i: 's>(&'s self, name: &LocalName<'i>) -> &'s [usize]
        ensures { result.now ≡ depths_of self.now name.now }
    {
        match self.map.get(name) {
            Some(depths) => depths.as_slice(),
            None => &[],
        }
    }

    /// Adds a depth of a name. The first of a name takes memory only where names do, a second one for the list.
    pub(crate) fn add(&mut self, name: &LocalName<'static>, depth: usize) -> Result<(), AllocError>
        ensures ok { (q : Name) → OnOk result (depths_of self.new q ≡ (if same_local_name name.now q
            then depths_of self.old q ++ depth ∷ [] else depths_of self.old q)) }
        ensures err { (q : Name) → OnErr result (depths_of self.new q ≡ depths_of self.old q) }
    {
        match self.map.search(name) {
            Ok(at) => {
                let mut depths = self.map.replace(at, Depths::One(depth));
                let added = depths.push(self.alloc, depth);
                self.map.replace(at, depths);
                added
            }
            Err(at) => {
                let key = name.try_clone(self.alloc)?;
                self.map.insert(at, key, Depths::One(depth))
            }
        }
    }

    /// Where a name stands, if it has depths.
    pub(crate) fn find(&self, name: &LocalName<'_>) -> Option<NamePlace>
        ensures { MatchOption result (depths_of self.now name.now ≡ []) (StandsInMap self.now.map name.now) }
    {
        self.map.search(name).ok()
    }

    /// The depths of the name that stands there.
    pub(crate) fn depths_at(&self, at: NamePlace) -> &[usize]
        ensures { (name : Name) → StandsInMap self.now.map name at → result.now ≡ depths_of self.now name }
    {
        match self.map.value_at(at) {
            Some(depths) => depths.as_slice(),
            None => &[],
        }
    }

    /// Takes the last depth of a name off.
    pub(crate) fn remove(&mut self, name: &LocalName<'static>)
        ensures { (q : Name) → depths_of self.new q ≡ (if same_local_name name.now q
            then without_last (depths_of self.old q) else depths_of self.old q) }
    {
        if let Ok(at) = self.map.search(name) {
            self.remove_at(at);
        }
    }

    /// Takes the last depth of a name off, without a look-up where it is the one that was found at `at`.
    pub(crate) fn remove_found(
        &mut self,
        name: &LocalName<'static>,
        found: &LocalName<'_>,
        at: NamePlace,
    )
        requires { StandsInMap self.old.map found.now at }
        ensures { (q : Name) → depths_of self.new q ≡ (if same_local_name name.now q
            then without_last (depths_of self.old q) else depths_of self.old q) }
    {
        if name == found {
            self.remove_at(at);
        } else {
            self.remove(name);
        }
    }

    /// Takes the last depth of the name that stands there off.
    fn remove_at(&mut self, at: NamePlace)
        requires { IsTaken self.old.map at }
        ensures { (name q : Name) → StandsInMap self.old.map name at → depths_of self.new q
            ≡ (if same_local_name name q then without_last (depths_of self.old q) else depths_of self.old q) }
    {
        let mut depths = self.map.replace(at, Depths::One(0));
        if depths.pop() {
            self.map.replace(at, depths);
        } else {
            self.map.remove(at);
        }
    }
}
