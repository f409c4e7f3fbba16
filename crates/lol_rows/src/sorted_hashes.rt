//! Which hashes there are.

ghost use Rattle.std.specs.Prelude.{◌≡◌, List, ℕ, Contains, length};
ghost use Rattle.std.specs.Bool.{OnTrue, OnFalse};
ghost use Rattle.lol_rows.specs.SortedHashes.{AreHashesOf};

/// Hashes, each once. They take 4 bytes each.
#[derive(Debug, Drop)]
pub(crate) struct SortedHashes {
    sorted: Vec<u32>,
}

impl SortedHashes {
    /// Those of a list. For `n` of them it takes `n log n` steps, and no memory but the list's.
    pub(crate) fn of(hashes: Vec<u32>) -> Self
        ensures { AreHashesOf hashes.items result }
    {
        let mut sorted = hashes;
        sorted.sort_unstable();
        sorted.dedup();
        sorted.shrink_to_fit();
        SortedHashes { sorted }
    }

    pub(crate) fn is_empty(&self) -> bool
        ensures { OnTrue result (length self.now.sorted.items ≡ 0) }
    {
        self.sorted.is_empty()
    }

    /// Whether a hash is one of them. For `n` of them it takes `log n` steps.
    pub(crate) fn has(&self, hash: u32) -> bool
        ensures found { OnTrue result ((all : List ℕ) → AreHashesOf all self.now → Contains all hash) }
        ensures none { OnFalse result ((all : List ℕ) → AreHashesOf all self.now → Contains all hash → ⊥) }
    {
        self.sorted.binary_search(&hash).is_ok()
    }
}
