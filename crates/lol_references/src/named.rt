//! References by name.

ghost use Rattle.std.specs.Prelude.{◌≡◌, ◌+◌, ◌≤◌, ◌<◌, option_copied, length, slice_index, option_and_then, IfSome};
ghost use Rattle.std.specs.Option.{option_map};
ghost use Rattle.lol_references.specs.References.{reference_of};
ghost use Rattle.lol_references.specs.Names as spec;

use crate::names::{NAMES, PARTS};

// Where a part of the table begins and ends.
fn bounds(place: usize) -> (usize, usize)
    requires { place + 1 < length PARTS }
    ensures start { result.0 ≡ slice_index PARTS place }
    ensures end { result.1 ≡ slice_index PARTS (place + 1) }
    ensures rise { result.0 ≤ result.1 }
    ensures within { result.1 ≤ length NAMES.now }
{
    (usize::from(PARTS[place]), usize::from(PARTS[place + 1]))
}

// The rows of the names that begin with two letters.
#[tactic(auto, unfolding(crate::specs::Names::part))]
fn part(first: u8, second: u8) -> &'static [u8]
    ensures { result.now ≡ spec.part first second }
{
    if first.is_ascii_alphabetic() && second.is_ascii_alphabetic() {
        let (start, end) = bounds(58 * usize::from(first - b'A') + usize::from(second - b'A'));
        &NAMES.as_bytes()[start..end]
    } else {
        &[]
    }
}

// How long the name of a row is, if it has one.
fn name_len(row: &[u8]) -> Option<usize>
    ensures len { result ≡ spec.name_len row.now }
    ensures within { IfSome result (λ len. len < length row.now) }
{
    row.iter().position(|b| *b == b'=')
}

// Whether bytes begin with the name of a row.
fn begins_with_name(bytes: &[u8], row: &[u8]) -> bool
    ensures { result ≡ spec.begins_with_name bytes.now row.now }
{
    match name_len(row) {
        Some(len) => bytes.starts_with(&row[..len]),
        None => false,
    }
}

// The first of these rows with whose name bytes begin.
fn row_among<'a>(rows: &'a [u8], bytes: &[u8]) -> Option<&'a [u8]>
    ensures { option_copied result ≡ spec.row_among rows.now bytes.now }
{
    rows.split(|b| *b == b' ')
        .find(|row| begins_with_name(bytes, row))
}

// The row of the longest name with which bytes begin.
#[tactic(auto, unfolding(crate::specs::Names::row_of))]
fn row_of(bytes: &[u8]) -> Option<&'static [u8]>
    ensures { option_copied result ≡ spec.row_of bytes.now }
{
    match bytes {
        [first, second, ..] => row_among(part(*first, *second), bytes),
        _ => None,
    }
}

// Whether `=`, a letter or a digit stands at a place.
fn goes_on(bytes: &[u8], place: usize) -> bool
    ensures { result ≡ spec.goes_on (slice_index bytes.now place) }
{
    place < bytes.len() && (bytes[place] == b'=' || bytes[place].is_ascii_alphanumeric())
}

// Whether a name is no reference where it stands: it has no semicolon, and `=`, a letter or a digit is behind it.
fn is_left(bytes: &[u8], row: &[u8], len: usize) -> bool
    requires { len < length row.now }
    ensures { result ≡ spec.is_left bytes.now row.now len }
{
    !row[..len].ends_with(b";") && goes_on(bytes, len)
}

// The reference by the name of a row: how many bytes it has, and its characters.
fn named_by(bytes: &[u8], row: &'static [u8]) -> Option<(usize, &'static [u8])>
    ensures { option_map (λ found. reference_of found.0 found.1.now) result
        ≡ option_and_then (spec.named_by bytes.now row.now) (spec.name_len row.now) }
{
    match name_len(row) {
        Some(len) if !is_left(bytes, row, len) => Some((len, &row[len + 1..])),
        _ => None,
    }
}

// The reference by name with which bytes begin: how many of them it has, and its characters.
#[tactic(auto, unfolding(crate::specs::Names::named))]
pub(crate) fn named(bytes: &[u8]) -> Option<(usize, &'static [u8])>
    ensures { option_map (λ found. reference_of found.0 found.1.now) result ≡ spec.named bytes.now }
{
    match row_of(bytes) {
        Some(row) => named_by(bytes, row),
        None => None,
    }
}
