//! The words of a set of ids.

ghost use Rattle.std.specs.Prelude.{◌≡◌, ◌≢◌, ◌≤◌, ◌<◌, ◌+◌, ◌*◌, ◌^◌, ◌↔◌, ℕ, length, max, get_or, bit_or, ◌⊎◌, OnOk, OnErr, IfOk, IsOk, IsTrue, IfSome, IsNone, not, nat_eq, filter};
ghost use Rattle.lol_memory.specs.Words.{AreDense, IsMarked, IsJoined, IsTrim, held_words};
ghost use Rattle.lol_memory.specs.SparseWords.{IsSparse, all_words, word_at};

use crate::sparse_words::{SparseWord, find, gather, merge, placed, scatter, word_count};
use std::alloc::{AllocError, Global};
use std::slice;

/// Words of 32 bits, one for each 32 ids, the lowest bit first. One word takes no memory. Several stand in a list of all up to the last if
/// these are at most 16, and 4 more for each word after the first that holds an id; or else those that hold ids stand with their numbers.
#[derive(Debug, Drop)]
pub(crate) enum Words {
    Inline(u32),
    Heap(Vec<u32>),
    // The first word, and those that hold ids.
    Sparse(Vec<SparseWord>),
}

impl Words {
    ghost use Rattle.lol_memory.specs.WordsOf.{words_of, HasWord, IsInForm, IsList};

    /// The list of all words, where it is kept.
    pub(crate) fn as_list(&self) -> Option<&[u32]>
        requires { IsInForm self.now }
        ensures some { IfSome result (λ words. words.now ≡ words_of self.now) }
        ensures list { IfSome result (λ _. IsList self.now) }
        ensures none { IsNone result → (IsList self.now → ⊥) }
    {
        match self {
            Words::Inline(word) => Some(slice::from_ref(word)),
            Words::Heap(words) => Some(words.as_slice()),
            Words::Sparse(_) => None,
        }
    }

    /// Whether there is a word at `number`.
    pub(crate) fn has_word(&self, number: u32) -> bool
        requires { IsInForm self.now }
        ensures { IsTrue result ↔ HasWord self.now number }
    {
        match self {
            Words::Inline(_) => number == 0,
            Words::Heap(words) => words.len() > number as usize,
            Words::Sparse(words) => find(words, number).is_ok(),
        }
    }

    /// How many words there are up to the last.
    fn word_count(&self) -> usize
        requires { IsInForm self.now }
        ensures { result ≡ length (words_of self.now) }
    {
        match self {
            Words::Inline(_) => 1,
            Words::Heap(words) => words.len(),
            Words::Sparse(words) => word_count(words),
        }
    }

    /// How many words after the first hold ids.
    fn held_words(&self) -> usize
        requires { IsInForm self.now }
        ensures { result ≡ held_words (words_of self.now) }
    {
        match self {
            Words::Inline(_) => 0,
            Words::Heap(words) => count_held(&words[1..]),
            Words::Sparse(words) => words.len() - 1,
        }
    }

    /// Whether `len` words are kept in a list of them all, once one more of them holds an id. They aren't counted where a list gets at most
    /// four words longer.
    fn stays_dense(&self, len: usize) -> bool
        requires form { IsInForm self.now }
        requires few { length (words_of self.now) ≤ 2 ^ 27 }
        ensures { IsTrue result ↔ AreDense len (held_words (words_of self.now) + 1) }
    {
        match self.as_list() {
            Some(words) if len <= words.len() + 4 => true,
            _ => len <= 16 + 4 * (self.held_words() + 1),
        }
    }

    /// Sets bits of the word at `number`. It takes memory only where there is no such word.
    pub(crate) fn add(&mut self, alloc: Global, number: u32, bits: u32) -> Result<(), AllocError>
        requires form { IsInForm self.old }
        requires few { length (words_of self.old) ≤ 2 ^ 27 }
        requires number { number < 2 ^ 27 }
        requires bits { bits ≢ 0 }
        ensures form { IsInForm self.new }
        ensures ok { OnOk result (IsMarked (words_of self.old) (words_of self.new) number bits) }
        ensures no_memory { HasWord self.old number → IsOk result }
        ensures err { OnErr result (words_of self.new ≡ words_of self.old) }
    {
        if self.has_word(number) {
            self.mark(number, bits);
            return Ok(());
        }
        let len = self.word_count().max(number as usize + 1);
        if self.stays_dense(len) {
            self.widen(alloc, len)?;
            self.mark(number, bits);
            Ok(())
        } else {
            self.scatter(alloc, SparseWord { number, bits })
        }
    }

    /// Sets bits of a word that is there.
    pub(crate) fn mark(&mut self, number: u32, bits: u32)
        requires number { HasWord self.old number }
        requires bits { bits ≢ 0 }
        requires form { IsList self.old ⊎ IsInForm self.old }
        ensures form { IsInForm self.old → IsInForm self.new }
        ensures list { IsList self.old → IsList self.new }
        ensures numbers { (j : ℕ) → HasWord self.old j → HasWord self.new j }
        ensures bits { IsMarked (words_of self.old) (words_of self.new) number bits }
    {
        match self {
            Words::Inline(word) => *word |= bits,
            Words::Heap(words) => words[number as usize] |= bits,
            Words::Sparse(words) => {
                if let Ok(index) = find(words, number) {
                    words[index].bits |= bits;
                }
            }
        }
    }

    /// Makes a list of `len` words, those that are there and then words of 0.
    fn widen(&mut self, alloc: Global, len: usize) -> Result<(), AllocError>
        requires form { IsInForm self.old }
        requires several { 1 < len }
        requires no_fewer { length (words_of self.old) ≤ len }
        ensures same { (j : ℕ) → get_or (words_of self.new) j 0 ≡ get_or (words_of self.old) j 0 }
        ensures ok { OnOk result (length (words_of self.new) ≡ len) }
        ensures list { OnOk result (IsList self.new) }
        ensures err { OnErr result (words_of self.new ≡ words_of self.old) }
        ensures form { OnErr result (IsInForm self.new) }
    {
        match self {
            Words::Inline(word) => {
                let mut words = Vec::with_capacity(alloc, len)?;
                words.push_reserved(*word);
                words.resize(len, 0)?;
                *self = Words::Heap(words);
                Ok(())
            }
            Words::Heap(words) => words.resize(len, 0),
            Words::Sparse(words) => {
                *self = Words::Heap(gather(words, alloc, len)?);
                Ok(())
            }
        }
    }

    /// Adds a word that isn't there, and keeps the words with their numbers.
    fn scatter(&mut self, alloc: Global, word: SparseWord) -> Result<(), AllocError>
        requires form { IsInForm self.old }
        requires absent { HasWord self.old word.number → ⊥ }
        requires held { word.bits ≢ 0 }
        requires wide { AreDense (max (length (words_of self.old)) (word.number + 1))
            (held_words (words_of self.old) + 1) → ⊥ }
        ensures form { IsInForm self.new }
        ensures ok { OnOk result (IsMarked (words_of self.old) (words_of self.new) word.number word.bits) }
        ensures err { OnErr result (words_of self.new ≡ words_of self.old) }
    {
        match self {
            Words::Inline(first) => {
                *self = Words::Sparse(scatter(slice::from_ref(first), word, alloc)?);
            }
            Words::Heap(words) => *self = Words::Sparse(scatter(words, word, alloc)?),
            Words::Sparse(words) => {
                if let Err(index) = find(words, word.number) {
                    words.insert(index, word)?;
                }
            }
        }
        Ok(())
    }

    /// Sets the bits that are set in a list of words, 32 at a time.
    pub(crate) fn join(&mut self, alloc: Global, more: &[u32]) -> Result<(), AllocError>
        requires form { IsInForm self.old }
        requires list { IsList self.old }
        requires some { 0 < length more.now }
        ensures list { IsList self.new }
        ensures form { OnErr result (IsInForm self.new) }
        ensures ok { OnOk result (IsJoined (words_of self.old) more.now (words_of self.new)) }
        ensures no_memory { length more.now ≤ length (words_of self.old) → IsOk result }
        ensures err { OnErr result (words_of self.new ≡ words_of self.old) }
    {
        if self.word_count() < more.len() {
            self.widen(alloc, more.len())?;
        }
        match self {
            Words::Inline(word) => join_words(slice::from_mut(word), more),
            Words::Heap(words) => join_words(words.as_mut_slice(), more),
            Words::Sparse(_) => {}
        }
        Ok(())
    }

    /// The words of both, in the form for what they hold. It goes through the words of each once, and takes memory for both.
    pub(crate) fn merge(&self, alloc: Global, other: &Words) -> Result<Words, AllocError>
        requires form { IsInForm self.now }
        requires other_form { IsInForm other.now }
        requires trim { IsTrim (words_of self.now) }
        requires other_trim { IsTrim (words_of other.now) }
        ensures form { IfOk result (λ both. IsInForm both) }
        ensures joined { IfOk result (λ both. IsJoined (words_of self.now) (words_of other.now) (words_of both)) }
    {
        let both = self.merge_words(alloc, other)?;
        Words::in_form(alloc, both)
    }

    /// The words of both, those that hold ids and the first, with their numbers.
    fn merge_words(&self, alloc: Global, other: &Words) -> Result<Vec<SparseWord>, AllocError>
        requires form { IsInForm self.now }
        requires few { length (words_of self.now) ≤ 2 ^ 27 }
        requires other_form { IsInForm other.now }
        requires other_few { length (words_of other.now) ≤ 2 ^ 27 }
        ensures sparse { IfOk result (λ both. IsSparse both.items) }
        ensures bits { IfOk result (λ both. (j : ℕ)
            → word_at both.items j ≡ bit_or (get_or (words_of self.now) j 0) (get_or (words_of other.now) j 0)) }
    {
        match other {
            Words::Inline(word) => self.merge_placed(alloc, &placed(slice::from_ref(word), alloc)?),
            Words::Heap(words) => self.merge_placed(alloc, &placed(words, alloc)?),
            Words::Sparse(words) => self.merge_placed(alloc, words),
        }
    }

    /// These words and `more`, those that hold ids and the first, with their numbers.
    fn merge_placed(
        &self,
        alloc: Global,
        more: &[SparseWord],
    ) -> Result<Vec<SparseWord>, AllocError>
        requires form { IsInForm self.now }
        requires few { length (words_of self.now) ≤ 2 ^ 27 }
        requires more { IsSparse more.now }
        ensures sparse { IfOk result (λ both. IsSparse both.items) }
        ensures bits { IfOk result (λ both. (j : ℕ)
            → word_at both.items j ≡ bit_or (get_or (words_of self.now) j 0) (word_at more.now j)) }
    {
        match self {
            Words::Inline(word) => merge(&placed(slice::from_ref(word), alloc)?, more, alloc),
            Words::Heap(words) => merge(&placed(words, alloc)?, more, alloc),
            Words::Sparse(words) => merge(words, more, alloc),
        }
    }

    /// The form for what these words hold.
    fn in_form(alloc: Global, words: Vec<SparseWord>) -> Result<Words, AllocError>
        requires sparse { IsSparse words.items }
        requires few { length (all_words words.items) ≤ 2 ^ 27 }
        ensures form { IfOk result (λ made. IsInForm made) }
        ensures same { IfOk result (λ made. words_of made ≡ all_words words.items) }
    {
        let len = word_count(&words);
        if len == 1 {
            return Ok(Words::Inline(words[0].bits));
        }
        if len <= 16 + 4 * (words.len() - 1) {
            return Ok(Words::Heap(gather(&words, alloc, len)?));
        }
        Ok(Words::Sparse(words))
    }

    pub(crate) fn is_same(&self, other: &Words) -> bool
        requires form { IsInForm self.now }
        requires other_form { IsInForm other.now }
        ensures { IsTrue result ↔ (words_of self.now ≡ words_of other.now) }
    {
        match (self, other) {
            (Words::Inline(word), Words::Inline(more)) => word == more,
            (Words::Heap(words), Words::Heap(more)) => words == more,
            (Words::Sparse(words), Words::Sparse(more)) => words == more,
            _ => false,
        }
    }

    /// These words once more. One word takes no memory.
    pub(crate) fn try_clone(&self, alloc: Global) -> Result<Words, AllocError>
        requires { IsInForm self.now }
        ensures ok { IfOk result (λ words. words_of words ≡ words_of self.now) }
        ensures form { IfOk result (λ words. IsInForm words) }
        ensures no_memory { length (words_of self.now) ≡ 1 → IsOk result }
    {
        Ok(match self {
            Words::Inline(word) => Words::Inline(*word),
            Words::Heap(words) => Words::Heap(words.to_vec(alloc)?),
            Words::Sparse(words) => Words::Sparse(words.to_vec(alloc)?),
        })
    }
}

pub(crate) fn count_held(words: &[u32]) -> usize
    ensures { result ≡ length (filter (λ word. not (nat_eq word 0)) words.now) }
{
    words.iter().filter(|word| **word != 0).count()
}

/// Sets the bits of `words` that are set in `more`.
fn join_words(words: &mut [u32], more: &[u32])
    requires { length more.now ≤ length words.old }
    ensures { (j : ℕ) → get_or words.new j 0 ≡ bit_or (get_or words.old j 0) (get_or more.now j 0) }
{
    for j in 0..more.len() {
        words[j] |= more[j];
    }
}
