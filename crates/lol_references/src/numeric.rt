//! References by number.

ghost use Rattle.std.specs.Prelude.{◌≡◌, ◌≤◌, take, length, slice_index, min, encode_utf8};
ghost use Rattle.std.specs.Option.{option_map};
ghost use Rattle.std.specs.Str.Parse.{digits_value};
ghost use Rattle.lol_references.specs.References.{reference_of};
ghost use Rattle.lol_references.specs.Numbers as spec;

// What stands for the control characters from U+0080 to U+009F: the characters that Windows-1252 has in their places (13.2.5.80).
pub(crate) static WINDOWS_1252: [char; 32] = [
    '\u{20AC}', '\u{81}', '\u{201A}', '\u{192}', '\u{201E}', '\u{2026}', '\u{2020}', '\u{2021}',
    '\u{2C6}', '\u{2030}', '\u{160}', '\u{2039}', '\u{152}', '\u{8D}', '\u{17D}', '\u{8F}',
    '\u{90}', '\u{2018}', '\u{2019}', '\u{201C}', '\u{201D}', '\u{2022}', '\u{2013}', '\u{2014}',
    '\u{2DC}', '\u{2122}', '\u{161}', '\u{203A}', '\u{153}', '\u{9D}', '\u{17E}', '\u{178}',
];

// A number behind the last code point: there are others, and none of them is a character.
const BEYOND: u32 = 0x110000;

// The character that a number stands for.
#[tactic(auto, unfolding(crate::specs::Numbers::character))]
fn character(number: u32) -> char
    ensures { result ≡ spec.character number }
{
    match number {
        0 => char::REPLACEMENT_CHARACTER,
        0x80..=0x9F => WINDOWS_1252[(number - 0x80) as usize],
        _ => char::from_u32(number).unwrap_or(char::REPLACEMENT_CHARACTER),
    }
}

// How many digits of a base are at the front, and their number, or one behind the last code point.
fn digits(base: u32, bytes: &[u8]) -> (usize, u32)
    requires some { 2 ≤ base }
    requires few { base ≤ 16 }
    ensures len { result.0 ≡ spec.digit_count base bytes.now }
    ensures within { result.0 ≤ length bytes.now }
    ensures number { result.1 ≡ min 0x110000 (digits_value base (take result.0 bytes.now)) }
{
    let mut number = 0;
    let mut len = 0;
    while len < bytes.len() {
        let Some(digit) = char::from(bytes[len]).to_digit(base) else {
            return (len, number);
        };
        number = BEYOND.min(number * base + digit);
        len += 1;
    }
    (len, number)
}

// How long the semicolon is that may stand at a place.
fn semicolon_len(bytes: &[u8], place: usize) -> usize
    ensures len { result ≡ spec.semicolon_len (slice_index bytes.now place) }
    ensures few { result ≤ 1 }
{
    if place < bytes.len() && bytes[place] == b';' {
        1
    } else {
        0
    }
}

// The reference that digits of a base make behind a mark, which is `#` or `#x`: how many bytes it has, and its character.
#[tactic(auto, using(crate::proofs::Characters::character_of_capped), unfolding(crate::specs::Numbers::by_digits))]
fn by_digits(base: u32, mark_len: usize, bytes: &[u8]) -> Option<(usize, char)>
    requires some { 2 ≤ base }
    requires few { base ≤ 16 }
    requires mark { mark_len ≤ 2 }
    ensures { option_map (λ found. reference_of found.0 (encode_utf8 found.1)) result
        ≡ spec.by_digits base mark_len bytes.now }
{
    let (len, number) = digits(base, bytes);
    if len == 0 {
        return None;
    }
    let end = len + semicolon_len(bytes, len);
    Some((mark_len + end, character(number)))
}

// The reference by number with which bytes behind `#` begin: how many bytes it has with the `#`, and its character.
pub(crate) fn numeric(bytes: &[u8]) -> Option<(usize, char)>
    ensures { option_map (λ found. reference_of found.0 (encode_utf8 found.1)) result ≡ spec.numeric bytes.now }
{
    match bytes {
        [b'x' | b'X', digits @ ..] => by_digits(16, 2, digits),
        _ => by_digits(10, 1, bytes),
    }
}
