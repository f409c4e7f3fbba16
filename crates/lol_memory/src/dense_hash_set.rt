//! Sets of ids.

ghost use Rattle.std.specs.Prelude.{◌≡◌, ◌↔◌, ℕ, IsTrue, OnOk, OnErr, IfOk, IsOk};
ghost use Rattle.std.specs.Iterator.{YieldsFirst};
ghost use Rattle.std.specs.Iterator.Runs.{YieldsInOrder};
ghost use Rattle.lol_memory.specs.Ids.{AllSmall, HasRoom, HasRoomFor, no_ids, with_id, union as joined, ascending};

use crate::dense_hash_set_iter::DenseHashSetIter;
use crate::match_info::MatchId;
use crate::words::Words;
use std::alloc::{AllocError, Global};
use std::marker::Model;

/// A set of ids (for lol_html's `DenseHashSet`, which has a bit for each id up to the greatest). Ids below 32 alone take no memory. A set
/// that is dense takes 4 bytes for each 32 ids up to the greatest, in words. It is dense if these words are at most 16, and 4 more for each
/// word after the first that holds an id. Any other set takes 8 bytes for the first word, and for each further word that holds an id. So
/// one id, however great, takes no more memory than any other. There are at most 2^27 words.
#[derive(Debug, Drop)]
pub struct DenseHashSet {
    // The last of several words is not 0, and what is held decides on their form, so equal sets have equal words.
    words: Words,
    alloc: Global,
}

impl Model for DenseHashSet {
    ghost use Rattle.lol_memory.specs.Ids.{Ids, ids_code};

    ghost Value = { Ids };

    ghost coded = { ids_code };

    ghost use Rattle.lol_memory.specs.Words.{IsTrim, ids_held};
    ghost use Rattle.lol_memory.specs.WordsOf.{words_of, IsInForm};

    ghost view = { λ s. ids_held (words_of s.words) };

    ghost invariant = { λ s. IsTrim (words_of s.words) × IsInForm s.words };
}

impl DenseHashSet {
    /// The empty set. It takes no memory.
    pub fn new(alloc: Global) -> Self
        ensures { result ≡ no_ids }
    {
        DenseHashSet {
            words: Words::Inline(0),
            alloc,
        }
    }

    /// Whether the set takes the id without more memory. It does if the id is below 32, and if the set has one of the 32 ids of its word. A
    /// dense set also does if this word isn't after that of its greatest id. The call takes no memory. (Not in lol_html.)
    pub fn has_room(&self, id: MatchId) -> bool
        ensures { IsTrue result ↔ HasRoom self.now id }
    {
        self.words.has_word(id / 32)
    }

    /// Adds an id. It is refused only where memory is wanted and isn't there: never where the set has room for the id.
    pub fn insert(&mut self, id: MatchId) -> Result<(), AllocError>
        ensures ok { OnOk result (self.new ≡ with_id self.old id) }
        ensures no_memory { HasRoom self.old id → IsOk result }
        ensures err { OnErr result (self.new ≡ self.old) }
    {
        self.words.add(self.alloc, id / 32, 1 << (id % 32))?;
        Ok(())
    }

    /// Adds the ids of `other`, 32 at a time: in place where both sets are dense or there is room for each, and else by words that are made
    /// anew from those of both. It is refused only where memory is wanted and isn't there: never where the set has room for each of these ids.
    pub fn union(&mut self, other: &DenseHashSet) -> Result<(), AllocError>
        ensures ok { OnOk result (self.new ≡ joined self.old other.now) }
        ensures no_memory { HasRoomFor self.old other.now → IsOk result }
        ensures err { OnErr result (self.new ≡ self.old) }
    {
        match other.words.as_list() {
            Some(more) if self.words.as_list().is_some() => {
                self.words.join(self.alloc, more)?;
                Ok(())
            }
            _ => self.add_sparse(other),
        }
    }

    /// Adds the ids of `other`: in place where it is one alone or there is room for each, or else by words that are made anew from those of both.
    fn add_sparse(&mut self, other: &DenseHashSet) -> Result<(), AllocError>
        ensures ok { OnOk result (self.new ≡ joined self.old other.now) }
        ensures no_memory { HasRoomFor self.old other.now → IsOk result }
        ensures err { OnErr result (self.new ≡ self.old) }
    {
        let mut ids = other.iter();
        if let (Some(id), None) = (ids.next(), ids.next()) {
            return self.insert(id);
        }
        if self.iter().next().is_none() {
            *self = other.try_clone()?;
            return Ok(());
        }
        if self.has_room_for(other) {
            self.mark_each(other);
            return Ok(());
        }
        self.words = self.words.merge(self.alloc, &other.words)?;
        Ok(())
    }

    fn has_room_for(&self, other: &DenseHashSet) -> bool
        ensures { IsTrue result ↔ HasRoomFor self.now other.now }
    {
        other.iter().all(|id| self.has_room(id))
    }

    fn mark_each(&mut self, other: &DenseHashSet)
        requires { HasRoomFor self.old other.now }
        ensures { self.new ≡ joined self.old other.now }
    {
        for id in other.iter() {
            self.words.mark(id / 32, 1 << (id % 32));
        }
    }

    /// The ids in ascending order, each once. It takes no memory, and skips 32 ids at a time where none is held.
    pub fn iter(&self) -> DenseHashSetIter<'_>
        ensures items { result ≡ ascending self.now }
        ensures runs { YieldsInOrder (YieldsFirst {A = ℕ} (λ rest. rest)) (λ rest. rest) }
    {
        DenseHashSetIter::new(&self.words)
    }

    /// An equal set (for Rust's `Clone`). Ids below 32 alone take no memory.
    pub fn try_clone(&self) -> Result<DenseHashSet, AllocError>
        ensures ok { IfOk result (λ set. set ≡ self.now) }
        ensures no_memory { AllSmall self.now → IsOk result }
    {
        Ok(DenseHashSet {
            words: self.words.try_clone(self.alloc)?,
            alloc: self.alloc,
        })
    }
}

impl PartialEq for DenseHashSet {
    ghost use Rattle.lol_memory.specs.Ids.{same_ids};
    ghost use Rattle.lol_memory.specs.SetLaws.{same_ids_partial};

    ghost eq = { same_ids };

    ghost laws = { same_ids_partial };

    fn eq(&self, other: &DenseHashSet) -> bool {
        self.words.is_same(&other.words)
    }
}

impl Eq for DenseHashSet {
    ghost use Rattle.lol_memory.specs.SetLaws.{same_ids_equivalence};

    ghost laws = { same_ids_equivalence };
}
