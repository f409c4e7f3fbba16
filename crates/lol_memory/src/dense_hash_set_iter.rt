//! The ids of a set in order.

ghost use Rattle.std.specs.Prelude.{◌≡◌, ◌≤◌, ◌<◌, ◌*◌, ◌^◌, length, ◌+◌, MatchOption, IfSome, IfNone};
ghost use Rattle.std.specs.Iterator.{YieldsFirst, item_count};
ghost use Rattle.lol_memory.specs.Words.{NoneHeld, IsFirstHeld};
ghost use Rattle.lol_memory.specs.SparseWords.{IsSparse, all_words, number_at};

use crate::match_info::MatchId;
use crate::sparse_words::SparseWord;
use crate::words::Words;
use std::marker::Model;
use std::slice;

/// The ids of a set that are still to come, in ascending order.
#[derive(Drop)]
pub struct DenseHashSetIter<'a> {
    words: HeldWords<'a>,
    // The ids below it have been seen.
    next_id: usize,
}

#[derive(Clone, Copy)]
enum HeldWords<'a> {
    List(&'a [u32]),
    // The index is that of the word of the last id, or 0.
    Sparse(&'a [SparseWord], usize),
}

impl HeldWords<'_> {
    ghost use Rattle.lol_memory.specs.HeldWords.{held_list, IsWithin};

    /// The first id at or after `from` that the words hold.
    fn first_from(&mut self, from: usize) -> Option<usize>
        requires few { length (held_list self.old) ≤ 2 ^ 27 }
        requires within { from ≤ 32 * length (held_list self.old) }
        requires index { IsWithin self.old from }
        ensures list { held_list self.new ≡ held_list self.old }
        ensures id { MatchOption result (NoneHeld (held_list self.old) from (32 * length (held_list self.old)))
            (λ q. IsFirstHeld (held_list self.old) from q) }
        ensures some { IfSome result (λ q. IsWithin self.new (q + 1)) }
        ensures none { IfNone result (IsWithin self.new from) }
    {
        match self {
            HeldWords::List(words) => first_from(words, from),
            HeldWords::Sparse(words, index) => {
                let (at, id) = first_among(words, *index, from)?;
                *index = at;
                Some(id)
            }
        }
    }
}

impl<'a> Model for DenseHashSetIter<'a> {
    ghost use Rattle.std.specs.Prelude.{◌-◌, ◌*◌, ◌^◌, ◌≤◌, ℕ, List, length};
    ghost use Rattle.lol_memory.specs.Words.{ids_from};
    ghost use Rattle.lol_memory.specs.HeldWords.{held_list, IsWithin};

    ghost Value = { List ℕ };

    ghost view = { λ it. ids_from (held_list it.words) it.next_id (32 * length (held_list it.words) - it.next_id) };

    ghost invariant = { λ it. (it.next_id ≤ 32 * length (held_list it.words))
        × (length (held_list it.words) ≤ 2 ^ 27)
        × IsWithin it.words it.next_id };
}

impl<'a> DenseHashSetIter<'a> {
    ghost use Rattle.lol_memory.specs.Words.{ids_from};
    ghost use Rattle.lol_memory.specs.WordsOf.{words_of, IsInForm};

    /// The ids that the words hold.
    pub(crate) fn new(words: &'a Words) -> Self
        requires few { length (words_of words.now) ≤ 2 ^ 27 }
        requires form { IsInForm words.now }
        ensures { result ≡ ids_from (words_of words.now) 0 (32 * length (words_of words.now)) }
    {
        let words = match words {
            Words::Inline(word) => HeldWords::List(slice::from_ref(word)),
            Words::Heap(words) => HeldWords::List(words.as_slice()),
            Words::Sparse(words) => HeldWords::Sparse(words.as_slice(), 0),
        };
        DenseHashSetIter { words, next_id: 0 }
    }
}

impl<'a> Iterator for DenseHashSetIter<'a> {
    type Item = MatchId;

    ghost next_gives = { YieldsFirst (λ rest. rest) };

    ghost remaining = { item_count (λ rest. rest) };

    fn next(&mut self) -> Option<MatchId> {
        let id = self.words.first_from(self.next_id)?;
        self.next_id = id + 1;
        Some(id as MatchId)
    }
}

/// The first id at or after `from` that the words hold.
fn first_from(words: &[u32], from: usize) -> Option<usize>
    requires few { length words.now ≤ 2 ^ 27 }
    requires within { from ≤ 32 * length words.now }
    ensures { MatchOption result (NoneHeld words.now from (32 * length words.now)) (λ q. IsFirstHeld words.now from q) }
{
    let mut at = from;
    while at / 32 < words.len() {
        let rest = words[at / 32] >> (at % 32);
        if rest != 0 {
            return Some(at + rest.trailing_zeros() as usize);
        }
        at = (at / 32 + 1) * 32;
    }
    None
}

/// The index of a word, and the first id at or after `from` that the words hold, which is in this word. The words before the index `start`
/// hold no such id.
fn first_among(words: &[SparseWord], start: usize, from: usize) -> Option<(usize, usize)>
    requires sparse { IsSparse words.now }
    requires few { length (all_words words.now) ≤ 2 ^ 27 }
    requires start { start < length words.now }
    requires passed { 32 * number_at words.now start ≤ from }
    ensures none { IfNone result (NoneHeld (all_words words.now) from (32 * length (all_words words.now))) }
    ensures first { IfSome result (λ r. IsFirstHeld (all_words words.now) from r.1) }
    ensures index { IfSome result (λ r. (r.0 < length words.now) × (32 * number_at words.now r.0 ≤ r.1)) }
{
    for index in start..words.len() {
        let word = words[index];
        let at = from.max(32 * word.number as usize);
        if at / 32 == word.number as usize {
            let rest = word.bits >> (at % 32);
            if rest != 0 {
                return Some((index, at + rest.trailing_zeros() as usize));
            }
        }
    }
    None
}
