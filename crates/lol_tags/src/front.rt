//! What stands at the front of bytes.

ghost use Rattle.std.specs.Prelude.{◌≡◌, ◌∷◌, [], ◌≤◌, length, take, fold, IsTrue};
ghost use Rattle.lol_tags.specs.States.{is_space, is_letter};
ghost use Rattle.lol_tags.specs.Reading.{with_byte};
ghost use Rattle.lol_tags.specs.Idling.{Each, in_name};

use crate::attributes::is_attribute_name;
use crate::reader::with_byte;
use crate::transitions::{attribute_name, is_letter, is_space};

// How many letters, and the code of a name with them.
#[inline(always)]
pub(crate) fn letters(code: u64, rest: &[u8]) -> (usize, u64)
    ensures within { result.0 ≤ length rest.now }
    ensures letters { Each is_letter (take result.0 rest.now) }
    ensures code { result.1 ≡ fold with_byte code (take result.0 rest.now) }
{
    let mut longer = code;
    let mut i = 0;
    while i < rest.len() {
        if !is_letter(rest[i]) {
            return (i, longer);
        }
        longer = with_byte(longer, rest[i]);
        i += 1;
    }
    (i, longer)
}

// How many spaces.
#[inline(always)]
pub(crate) fn space_len(rest: &[u8]) -> usize
    ensures within { result ≤ length rest.now }
    ensures spaces { Each is_space (take result rest.now) }
{
    let mut i = 0;
    while i < rest.len() {
        if !is_space(rest[i]) {
            return i;
        }
        i += 1;
    }
    i
}

// How many bytes that go on with an attribute's name.
#[inline(always)]
pub(crate) fn name_len(rest: &[u8]) -> usize
    ensures within { result ≤ length rest.now }
    ensures name { Each in_name (take result rest.now) }
{
    let mut i = 0;
    while i < rest.len() {
        if !is_attribute_name(attribute_name(rest[i])) {
            return i;
        }
        i += 1;
    }
    i
}

// Whether a value in double quotes begins, with an equals sign before it.
#[inline(always)]
pub(crate) fn begins_quoted(rest: &[u8]) -> bool
    ensures { IsTrue result → take 2 rest.now ≡ 61 ∷ 34 ∷ [] }
{
    rest.len() >= 2 && rest[0] == b'=' && rest[1] == b'"'
}
