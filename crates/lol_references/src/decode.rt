//! A value with its references decoded.

ghost use Rattle.std.specs.Prelude.{◌≡◌, ◌==◌, ◌++◌, ◌<◌, length, take, false, unwrap_or, OnOk, OnErr, IfOk};
ghost use Rattle.std.specs.List.{list_any};
ghost use Rattle.memchr.specs.Find.{IsFirstByte, is_byte};
ghost use Rattle.lol_references.specs.Numbers as numbers;
ghost use Rattle.lol_references.specs.Names as names;
ghost use Rattle.lol_references.specs.Decoding.{decoded, ampersand, alone};

use crate::named::named;
use crate::numeric::numeric;
use memchr::memchr;
use std::alloc::AllocError;

/// Whether an attribute's value has an ampersand. A value without one stands for itself: there is nothing to decode.
pub fn has_ampersand(value: &[u8]) -> bool
    ensures ampersand { result ≡ list_any (λ b. b == 38) value.now }
    ensures plain { result ≡ false → decoded value.now ≡ value.now }
{
    memchr(b'&', value).is_some()
}

/// Adds an attribute's value, as it is written, behind other bytes, with its character references decoded: names and numbers, in UTF-8. A
/// name without a semicolon is left as it is before `=`, a letter or a digit, as the Standard has it for attributes. All other bytes are added
/// as they are. The steps for each byte are bounded: at an ampersand at most 55 names are tried, those with the same two letters in front.
///
/// # Errors
/// Out of memory. Then the bytes are as before.
pub fn append_decoded(value: &[u8], into: &mut Vec<u8>) -> Result<(), AllocError>
    ensures decoded { OnOk result (into.new.items ≡ into.old.items ++ decoded value.now) }
    ensures refused { OnErr result (into.new.items ≡ into.old.items) }
{
    let count = into.len();
    let appended = append_parts(value, into);
    if appended.is_err() {
        into.truncate(count);
    }
    appended
}

fn append_parts(value: &[u8], into: &mut Vec<u8>) -> Result<(), AllocError>
    ensures decoded { OnOk result (into.new.items ≡ into.old.items ++ decoded value.now) }
    ensures kept { take (length into.old.items) into.new.items ≡ into.old.items }
{
    let mut rest = value;
    while let Some(place) = memchr(b'&', rest) {
        rest = append_part(rest, place, into)?;
    }
    into.extend_from_slice(rest)
}

// Adds what stands before an ampersand, which is the first one, and what that one stands for: what is behind these.
#[tactic(auto, using(crate::proofs::Within::ampersand_within))]
fn append_part<'a>(rest: &'a [u8], place: usize, into: &mut Vec<u8>) -> Result<&'a [u8], AllocError>
    requires { IsFirstByte (is_byte 38) rest.now (Some place) }
    ensures decoded { IfOk result (λ left. into.new.items ++ decoded left.now ≡ into.old.items ++ decoded rest.now) }
    ensures shorter { IfOk result (λ left. length left.now < length rest.now) }
    ensures kept { take (length into.old.items) into.new.items ≡ into.old.items }
{
    into.extend_from_slice(&rest[..place])?;
    let behind = &rest[place + 1..];
    let taken = append_reference(behind, into)?;
    Ok(&behind[taken..])
}

// Adds what an ampersand stands for that has these bytes behind it: how many of them belong to it.
#[tactic(auto, unfolding(crate::specs::Decoding::ampersand))]
fn append_reference(behind: &[u8], into: &mut Vec<u8>) -> Result<usize, AllocError>
    ensures taken { IfOk result (λ taken. taken ≡ (ampersand behind.now).taken) }
    ensures characters { OnOk result (into.new.items ≡ into.old.items ++ (ampersand behind.now).characters) }
    ensures refused { OnErr result (into.new.items ≡ into.old.items) }
{
    if let [b'#', number @ ..] = behind {
        append_numeric(number, into)
    } else {
        append_named(behind, into)
    }
}

// Adds the character of a number with these bytes behind its ampersand and `#`, or the ampersand.
fn append_numeric(behind: &[u8], into: &mut Vec<u8>) -> Result<usize, AllocError>
    ensures taken { IfOk result (λ taken. taken ≡ (unwrap_or (numbers.numeric behind.now) alone).taken) }
    ensures characters { OnOk result
        (into.new.items ≡ into.old.items ++ (unwrap_or (numbers.numeric behind.now) alone).characters) }
    ensures refused { OnErr result (into.new.items ≡ into.old.items) }
{
    match numeric(behind) {
        Some((len, character)) => {
            let mut bytes = [0; 4];
            into.extend_from_slice(character.encode_utf8(&mut bytes).as_bytes())?;
            Ok(len)
        }
        None => append_ampersand(into),
    }
}

// Adds the characters of a name with these bytes behind its ampersand, or the ampersand.
fn append_named(behind: &[u8], into: &mut Vec<u8>) -> Result<usize, AllocError>
    ensures taken { IfOk result (λ taken. taken ≡ (unwrap_or (names.named behind.now) alone).taken) }
    ensures characters { OnOk result
        (into.new.items ≡ into.old.items ++ (unwrap_or (names.named behind.now) alone).characters) }
    ensures refused { OnErr result (into.new.items ≡ into.old.items) }
{
    match named(behind) {
        Some((len, characters)) => {
            into.extend_from_slice(characters)?;
            Ok(len)
        }
        None => append_ampersand(into),
    }
}

// Adds an ampersand, to which nothing behind it belongs.
fn append_ampersand(into: &mut Vec<u8>) -> Result<usize, AllocError>
    ensures taken { IfOk result (λ taken. taken ≡ alone.taken) }
    ensures characters { OnOk result (into.new.items ≡ into.old.items ++ alone.characters) }
    ensures refused { OnErr result (into.new.items ≡ into.old.items) }
{
    into.push(b'&')?;
    Ok(0)
}
