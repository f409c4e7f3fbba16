//! A table of addresses by hashes.

ghost use Rattle.std.specs.Prelude.{◌≡◌, ◌↔◌, List, ℕ, IfOk, Contains};
ghost use Rattle.lol_rows.specs.KeyTables.{IsEntryWithin, IsTableOf};

use std::alloc::{AllocError, Global};

/// An address, and its hash.
#[derive(Debug, Clone, Copy, PartialEq, Eq, PartialOrd, Ord)]
pub(crate) struct Entry {
    /// The hash of the key at the address.
    pub(crate) hash: u32,
    /// The index of the hash in the list that the table was made of.
    pub(crate) address: u32,
}

/// Which addresses have a hash: the addresses are the indices of a list of hashes, from 0. It takes 8 bytes for each.
#[derive(Debug, Drop)]
pub(crate) struct KeyTable {
    // In the order of their hashes, and of their addresses where these are the same.
    pub(crate) entries: Vec<Entry>,
}

impl KeyTable {
    /// The table of a list of hashes. For `n` of them it takes `n log n` steps, and no memory but the table's.
    ///
    /// # Errors
    /// Out of memory, also where there are more hashes than a `u32` can number.
    pub(crate) fn of(alloc: Global, hashes: Vec<u32>) -> Result<Self, AllocError>
        ensures { IfOk result (λ table. IsTableOf hashes.items table) }
    {
        if hashes.len() > u32::MAX as usize {
            return Err(AllocError);
        }
        let mut entries = Vec::with_capacity(alloc, hashes.len())?;
        for (address, hash) in hashes.iter().enumerate() {
            entries.push_reserved(Entry {
                hash: *hash,
                address: address as u32,
            });
        }
        drop(hashes);
        entries.sort_unstable();
        Ok(KeyTable { entries })
    }

    /// The entries of the addresses from `start` up to `end` that have a hash, in the order of their addresses. It takes a logarithm of the
    /// table's size, and no memory.
    pub(crate) fn entries_within(&self, hash: u32, start: usize, end: usize) -> &[Entry]
        ensures { (all : List ℕ) → IsTableOf all self.now
            → (entry : Entry) → Contains result.now entry ↔ IsEntryWithin all hash start end entry }
    {
        let run = self.entries.as_slice();
        let run = &run[..run.partition_point(|entry| entry.hash <= hash)];
        // Most hashes that are looked for aren't there.
        match run.last() {
            Some(entry) if entry.hash == hash => (),
            _ => return &[],
        }
        let run = &run[run.partition_point(|entry| entry.hash < hash)..];
        let run = &run[..run.partition_point(|entry| (entry.address as usize) < end)];
        &run[run.partition_point(|entry| (entry.address as usize) < start)..]
    }
}
