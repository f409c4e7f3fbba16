//! The words of a set that is sparse, each with its number.

ghost use Rattle.std.specs.Prelude.{◌≡◌, ◌≢◌, ◌≤◌, ◌<◌, ◌+◌, ◌^◌, ℕ, length, get_or, bit_or, IfOk, IfErr, IfSome, IfNone};
ghost use Rattle.lol_memory.specs.SparseWords.{Ascend, IsAt, IsCut, IsGapFor, IsLowest, IsScattered, IsSparse, all_words, word_at, word_count};

use crate::words::count_held;
use std::alloc::{AllocError, Global};

/// The 32 ids from `32 * number` on, the lowest bit first.
#[derive(Debug, Clone, Copy, PartialEq, Eq)]
pub(crate) struct SparseWord {
    pub number: u32,
    pub bits: u32,
}

/// The index of the word at `number`, or else where it would go.
pub(crate) fn find(words: &[SparseWord], number: u32) -> Result<usize, usize>
    requires { Ascend words.now }
    ensures found { IfOk result (IsAt words.now number) }
    ensures absent { IfErr result (IsGapFor words.now number) }
{
    words.binary_search_by_key(&number, |word| word.number)
}

/// How many words there are up to the last.
pub(crate) fn word_count(words: &[SparseWord]) -> usize
    requires { 0 < length words.now }
    ensures { result ≡ length (all_words words.now) }
{
    words[words.len() - 1].number as usize + 1
}

/// The list of all words, with words of 0 at its end until there are `len`.
pub(crate) fn gather(
    words: &[SparseWord],
    alloc: Global,
    len: usize,
) -> Result<Vec<u32>, AllocError>
    requires ascend { Ascend words.now }
    requires within { length (all_words words.now) ≤ len }
    ensures len { IfOk result (λ list. length list.items ≡ len) }
    ensures same { IfOk result (λ list. (j : ℕ) → get_or list.items j 0 ≡ word_at words.now j) }
{
    let mut list = vec![in alloc; 0; len]?;
    for word in words {
        list[word.number as usize] = word.bits;
    }
    Ok(list)
}

/// The first of the words of a list and those that hold ids, with their numbers. There is room for one word more.
pub(crate) fn placed(words: &[u32], alloc: Global) -> Result<Vec<SparseWord>, AllocError>
    requires some { 0 < length words.now }
    requires few { length words.now ≤ 2 ^ 32 }
    ensures { IfOk result (λ sparse. IsScattered words.now (length words.now) sparse.items) }
{
    let mut sparse = Vec::with_capacity(alloc, count_held(&words[1..]) + 2)?;
    for (number, bits) in words.iter().enumerate() {
        if number == 0 || *bits != 0 {
            sparse.push(SparseWord {
                number: number as u32,
                bits: *bits,
            })?;
        }
    }
    Ok(sparse)
}

/// The first of the words of a list and those that hold ids, with their numbers, and `last` after them.
pub(crate) fn scatter(
    words: &[u32],
    last: SparseWord,
    alloc: Global,
) -> Result<Vec<SparseWord>, AllocError>
    requires some { 0 < length words.now }
    requires after { length words.now ≤ last.number }
    requires held { last.bits ≢ 0 }
    ensures sparse { IfOk result (λ sparse. IsSparse sparse.items) }
    ensures last { IfOk result (λ sparse. word_at sparse.items last.number ≡ last.bits) }
    ensures same { IfOk result (λ sparse. (j : ℕ) → j ≢ last.number
        → word_at sparse.items j ≡ get_or words.now j 0) }
    ensures count { IfOk result (λ sparse. length (all_words sparse.items) ≡ last.number + 1) }
{
    let mut sparse = placed(words, alloc)?;
    sparse.push(last)?;
    Ok(sparse)
}

/// The words of two lists in one, each number once with the bits of both. It goes through each list once.
pub(crate) fn merge(
    words: &[SparseWord],
    more: &[SparseWord],
    alloc: Global,
) -> Result<Vec<SparseWord>, AllocError>
    requires sparse { IsSparse words.now }
    requires more { IsSparse more.now }
    ensures sparse { IfOk result (λ both. IsSparse both.items) }
    ensures bits { IfOk result (λ both. (j : ℕ)
        → word_at both.items j ≡ bit_or (word_at words.now j) (word_at more.now j)) }
{
    let mut both = Vec::with_capacity(alloc, words.len() + more.len())?;
    let mut index = 0;
    let mut more_index = 0;
    while let Some(number) = lowest(words, index, more, more_index) {
        let bits = take_at(words, &mut index, number) | take_at(more, &mut more_index, number);
        both.push(SparseWord { number, bits })?;
    }
    Ok(both)
}

/// The lowest number among the words of two lists, of which those from these indices on are left.
fn lowest(words: &[SparseWord], index: usize, more: &[SparseWord], more_index: usize) -> Option<u32>
    ensures some { IfSome result (IsLowest words.now index more.now more_index) }
    ensures none { IfNone result ((length words.now ≤ index) × (length more.now ≤ more_index)) }
{
    match (words.get(index), more.get(more_index)) {
        (Some(word), Some(other)) => Some(word.number.min(other.number)),
        (Some(word), None) | (None, Some(word)) => Some(word.number),
        (None, None) => None,
    }
}

/// The bits of the word at `number`, or none; the words from `index` on are left, and `number` is no higher than these.
fn take_at(words: &[SparseWord], index: &mut usize, number: u32) -> u32
    requires ascend { Ascend words.now }
    requires cut { IsCut words.now index.old number }
    ensures bits { result ≡ word_at words.now number }
    ensures cut { IsCut words.now index.new (number + 1) }
{
    match words.get(*index) {
        Some(word) if word.number == number => {
            *index += 1;
            word.bits
        }
        _ => 0,
    }
}
