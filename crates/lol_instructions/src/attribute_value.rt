//! How the value of an attribute stands to an operand.

ghost use Rattle.std.specs.Prelude.{◌≡◌, ◌↔◌, ◌<◌, ◌≤◌, ◌∷◌, false, length, IsTrue, MatchOption};
ghost use Rattle.std.specs.List.{list_any};
ghost use Rattle.std.specs.Option.{option_copied};
ghost use Rattle.lol_base.specs.declared.comparison.AttrSelectorOperator.TheVariants.{Equal, Includes, DashMatch, Prefix, Substring, Suffix};
ghost use Rattle.lol_instructions.specs.Tests.{is_white, stands_in, words};
ghost use Rattle.lol_instructions.specs.Keys.{words_of};
ghost use Rattle.lol_instructions.specs.Attributes.{value_holds};
ghost use Rattle.memchr.specs.Find.{IsFirstByte};
ghost use Rattle.lol_instructions.specs.Words.{is_letter_of, NoLetter, IsLetterEnd, IsWordBefore};
ghost use Rattle.lol_instructions.specs.Substrings.{stands_in_caseless, IsAfterLetter};

use lol_base::CaseSensitivity;
use memchr::{memchr, memchr2, memmem};

/// The longest value whose words, or offsets, are looked at one by one.
const MAX_SPLIT_LEN: usize = 32;

/// Whether a byte is ASCII white space (HTML Standard, "ASCII whitespace").
#[inline(always)]
pub(crate) fn is_white_space(byte: u8) -> bool
    ensures { result ≡ is_white byte }
{
    byte <= b' ' && matches!(byte, b' ' | b'\n' | b'\r' | b'\t' | b'\x0c')
}

/// The first word of a value, up to its first white space byte, and what is after that byte, if there is one. It takes no memory.
pub fn first_word(value: &[u8]) -> (&[u8], Option<&[u8]>)
    ensures { words value.now ≡ result.0.now ∷ words_of (option_copied result.1) }
{
    for (at, byte) in value.iter().enumerate() {
        if is_white_space(*byte) {
            return (&value[..at], Some(&value[at + 1..]));
        }
    }
    (value, None)
}

/// Whether a value is the operand.
#[inline(always)]
pub(crate) fn is_equal(value: &[u8], operand: &[u8], case: CaseSensitivity) -> bool
    ensures { result ≡ value_holds Equal case value.now operand.now }
{
    value.len() == operand.len() && case.eq(value, operand)
}

/// Whether some word of a value is the operand.
pub(crate) fn has_word(value: &[u8], operand: &[u8], case: CaseSensitivity) -> bool
    ensures { result ≡ value_holds Includes case value.now operand.now }
{
    if value.len() <= MAX_SPLIT_LEN || operand.is_empty() || has_white_space(operand) {
        has_word_split(value, operand, case)
    } else {
        has_word_by_last(value, operand, case)
    }
}

fn has_white_space(bytes: &[u8]) -> bool
    ensures { result ≡ list_any is_white bytes.now }
{
    bytes.iter().any(|byte| is_white_space(*byte))
}

// Whether some word of a value is the operand: each word is looked at.
fn has_word_split(value: &[u8], operand: &[u8], case: CaseSensitivity) -> bool
    ensures { result ≡ value_holds Includes case value.now operand.now }
{
    let mut start = 0;
    for (end, byte) in value.iter().enumerate() {
        if is_white_space(*byte) {
            if is_equal(&value[start..end], operand, case) {
                return true;
            }
            start = end + 1;
        }
    }
    is_equal(&value[start..], operand, case)
}

// Whether some word of a value is the operand: only the offsets of its last byte are looked at.
fn has_word_by_last(value: &[u8], operand: &[u8], case: CaseSensitivity) -> bool
    requires some { 0 < length operand.now }
    requires black { list_any is_white operand.now ≡ false }
    ensures { result ≡ value_holds Includes case value.now operand.now }
{
    let last = operand[operand.len() - 1];
    let mut from = 0;
    while let Some(end) = letter_end(value, from, last, case) {
        if is_word_before(value, operand, end, case) {
            return true;
        }
        from = end;
    }
    false
}

// Whether the word that ends at an offset is the operand.
fn is_word_before(value: &[u8], operand: &[u8], end: usize, case: CaseSensitivity) -> bool
    requires { end ≤ length value.now }
    ensures { IsTrue result ↔ IsWordBefore case value.now operand.now end }
{
    let Some(start) = end.checked_sub(operand.len()) else {
        return false;
    };
    (end == value.len() || is_white_space(value[end]))
        && (start == 0 || is_white_space(value[start - 1]))
        && is_equal(&value[start..end], operand, case)
}

// The end of a letter's first offset from another offset on.
fn letter_end(value: &[u8], from: usize, letter: u8, case: CaseSensitivity) -> Option<usize>
    requires { from ≤ length value.now }
    ensures { MatchOption result (NoLetter case value.now letter from (length value.now))
        (IsLetterEnd case value.now letter from) }
{
    let offset = next_letter(&value[from..], letter, case)?;
    Some(from + offset + 1)
}

// A letter's first offset.
fn next_letter(value: &[u8], letter: u8, case: CaseSensitivity) -> Option<usize>
    ensures { IsFirstByte (is_letter_of case letter) value.now result }
{
    match case {
        CaseSensitivity::CaseSensitive => memchr(letter, value),
        CaseSensitivity::AsciiCaseInsensitive => {
            memchr2(
                letter.to_ascii_lowercase(),
                letter.to_ascii_uppercase(),
                value,
            )
        }
    }
}

/// Whether a value begins with the operand.
pub(crate) fn has_prefix(value: &[u8], operand: &[u8], case: CaseSensitivity) -> bool
    ensures { result ≡ value_holds Prefix case value.now operand.now }
{
    value.len() >= operand.len() && is_equal(operand, &value[..operand.len()], case)
}

/// Whether a value ends with the operand.
pub(crate) fn has_suffix(value: &[u8], operand: &[u8], case: CaseSensitivity) -> bool
    ensures { result ≡ value_holds Suffix case value.now operand.now }
{
    value.len() >= operand.len() && is_equal(operand, &value[value.len() - operand.len()..], case)
}

/// Whether a value is the operand, or begins with the operand and a hyphen.
pub(crate) fn has_dash_match(value: &[u8], operand: &[u8], case: CaseSensitivity) -> bool
    ensures { result ≡ value_holds DashMatch case value.now operand.now }
{
    if value.len() <= operand.len() {
        is_equal(value, operand, case)
    } else {
        value[operand.len()] == b'-' && is_equal(operand, &value[..operand.len()], case)
    }
}

/// Whether an operand that isn't empty stands in a value. With case the search is linear. Without, it takes at worst as many steps as the
/// product of the two lengths, and the operand is the choice of the selector's author.
pub(crate) fn has_substring(value: &[u8], operand: &[u8], case: CaseSensitivity) -> bool
    ensures { result ≡ value_holds Substring case value.now operand.now }
{
    let Some((first, rest)) = operand.split_first() else {
        return false;
    };
    match case {
        CaseSensitivity::CaseSensitive => {
            if value.len() <= MAX_SPLIT_LEN {
                stands_in(value, *first, rest)
            } else {
                memmem::find(value, operand).is_some()
            }
        }
        CaseSensitivity::AsciiCaseInsensitive => has_caseless_substring(value, *first, rest),
    }
}

// Whether a byte and the rest of an operand stand in a value: each offset is looked at.
fn stands_in(value: &[u8], first: u8, rest: &[u8]) -> bool
    ensures { result ≡ stands_in value.now (first ∷ rest.now) }
{
    let mut left = value;
    while let Some((byte, after)) = left.split_first() {
        if *byte == first && after.starts_with(rest) {
            return true;
        }
        left = after;
    }
    false
}

// Whether a byte and the rest of an operand stand in a value, without ASCII case.
fn has_caseless_substring(value: &[u8], first: u8, rest: &[u8]) -> bool
    ensures { result ≡ stands_in_caseless value.now (first ∷ rest.now) }
{
    let mut left = value;
    while let Some(after) = after_letter(left, first) {
        if has_prefix(after, rest, CaseSensitivity::AsciiCaseInsensitive) {
            return true;
        }
        left = after;
    }
    false
}

// What is left of a value after the first offset of a letter, without ASCII case.
fn after_letter(value: &[u8], letter: u8) -> Option<&[u8]>
    ensures { IsAfterLetter letter value.now (option_copied result) }
{
    let offset = next_letter(value, letter, CaseSensitivity::AsciiCaseInsensitive)?;
    Some(&value[offset + 1..])
}
