//! The lines of a run as they are written.

ghost use Rattle.std.specs.Prelude.{◌≡◌, ◌∷◌, [], ◌++◌, ◌+◌, ◌/◌, ◌%◌, ◌<◌, ◌≤◌, List, ℕ, IfOk, OnOk, decimal, flat_map, map, reverse, true};
ghost use Rattle.std.specs.Str.{byte};
ghost use Rattle.lol_base.specs.CodePoints.{line_feed};
ghost use Rattle.lol_instructions.specs.Tries.{names_counted, attributes_counted};
ghost use Rattle.lol_reasons.specs.Numbered.{reason_shown};
ghost use Rattle.lol_machine.specs.Views.{match_of};
ghost use Rattle.lol_script.specs.AnswerTexts.{HasListed, IsListing, end_of_start, started_text};
ghost use Rattle.lol_script.specs.Output.{comma_list, shown_match, shown_reason, tries_field};

use itoa::Buffer;
use lol_matcher::{MatchId, MatchInfo, Reason, Tries};
use std::alloc::{AllocError, Global};

/// What is written, and how far the list of the last end tag has come: whether it has some numbers, unless memory was refused for one.
#[derive(Drop)]
pub struct Written {
    pub text: Vec<u8>,
    pub listed: Result<bool, AllocError>,
}

/// Adds what a start tag is reported under, separated by commas, or `-` where that is nothing. Most lists end with their first.
#[inline(always)]
fn push_matches(text: &mut Vec<u8>, matches: &[MatchInfo]) -> Result<(), AllocError>
    ensures { OnOk result (text.new.items
        ≡ text.old.items ++ comma_list (map (λ info. shown_match (match_of info)) matches.now)) }
{
    let Some((first, others)) = matches.split_first() else {
        text.push(b'-')?;
        return Ok(());
    };
    push_id(text, first.match_id, first.with_content)?;
    if others.is_empty() {
        return Ok(());
    }
    push_others(text, others)
}

/// Adds matches, each after a comma.
#[inline(never)]
fn push_others(text: &mut Vec<u8>, others: &[MatchInfo]) -> Result<(), AllocError>
    ensures { OnOk result (text.new.items
        ≡ text.old.items ++ flat_map (λ info. byte "," ∷ shown_match (match_of info)) others.now) }
{
    for info in others {
        text.push(b',')?;
        push_id(text, info.match_id, info.with_content)?;
    }
    Ok(())
}

/// Adds ids of an element with content or without, separated by commas, or `-` where there are none.
pub fn push_ids(text: &mut Vec<u8>, ids: &[MatchId], with_content: bool) -> Result<(), AllocError>
    ensures { OnOk result (text.new.items ≡ text.old.items ++ comma_list
        (map (λ id. shown_match (record { id = id; with_content = with_content })) ids.now)) }
{
    let Some((first, others)) = ids.split_first() else {
        text.push(b'-')?;
        return Ok(());
    };
    push_id(text, *first, with_content)?;
    for id in others {
        text.push(b',')?;
        push_id(text, *id, with_content)?;
    }
    Ok(())
}

/// Adds an id, with `/` after it where the element has no content.
#[inline(always)]
fn push_id(text: &mut Vec<u8>, id: MatchId, with_content: bool) -> Result<(), AllocError>
    ensures { OnOk result (text.new.items
        ≡ text.old.items ++ shown_match (record { id = id; with_content = with_content })) }
{
    push_number(text, u64::from(id))?;
    if !with_content {
        text.push(b'/')?;
    }
    Ok(())
}

impl Written {
    pub fn new(alloc: Global) -> Self
        ensures { result.text.items ≡ [] }
    {
        Written {
            text: Vec::new(alloc),
            listed: Ok(false),
        }
    }

    /// Adds the number of a closed element to the list.
    #[inline(always)]
    pub fn push(&mut self, number: usize)
        ensures { (before numbers : List ℕ) → IsListing before numbers self.old
            → IsListing before (numbers ++ number ∷ []) self.new }
    {
        if let Ok(has_some) = self.listed {
            self.listed = push_listed(&mut self.text, has_some, number);
        }
    }

    /// Ends the list and its line, unless memory was refused.
    #[inline(always)]
    pub fn end_list(&mut self) -> Result<(), AllocError>
        ensures kept { self.new ≡ record self.old { text = self.new.text } }
        ensures text { OnOk result ((before numbers : List ℕ) → IsListing before numbers self.old
            → self.new.text.items ≡ before ++ (comma_list (map decimal numbers) ++ line_feed ∷ [])) }
    {
        if !self.listed? {
            return self.text.extend_from_slice(b"-\n");
        }
        self.text.push(b'\n')?;
        Ok(())
    }
}

/// Adds a number to a list that has some or none: then it has some.
#[inline(always)]
fn push_listed(text: &mut Vec<u8>, has_some: bool, number: usize) -> Result<bool, AllocError>
    ensures { IfOk result (λ more. (before numbers : List ℕ) → HasListed before has_some numbers text.old.items
        → HasListed before more (numbers ++ number ∷ []) text.new.items) }
{
    if has_some {
        text.push(b',')?;
    }
    push_number(text, number as u64)?;
    Ok(true)
}

/// Adds a number in decimal digits. Most have one.
#[tactic(auto, using(std::proofs::lemmas::Fmt::decimal_digit))]
#[cycle(digits)]
#[inline(always)]
pub fn push_number(text: &mut Vec<u8>, number: u64) -> Result<(), AllocError>
    ensures { OnOk result (text.new.items ≡ text.old.items ++ decimal number) }
{
    if number < 10 {
        text.push(b'0' + number as u8)?;
        return Ok(());
    }
    push_digits(text, number)
}

/// Adds a number of several digits.
#[cycle(digits)]
#[inline(never)]
fn push_digits(text: &mut Vec<u8>, number: u64) -> Result<(), AllocError>
    requires { 10 ≤ number }
    ensures { OnOk result (text.new.items ≡ text.old.items ++ decimal number) }
{
    if number < 100 {
        return text.extend_from_slice(&two_digits(number));
    }
    if number < 10_000 {
        push_number(text, number / 100)?;
        return text.extend_from_slice(&two_digits(number % 100));
    }
    push_number(text, number / 10_000)?;
    let [a, b] = two_digits(number % 10_000 / 100);
    let [c, d] = two_digits(number % 100);
    text.extend_from_slice(&[a, b, c, d])
}

/// The digits of a number below 100, with a leading zero.
#[inline(always)]
fn two_digits(number: u64) -> [u8; 2]
    requires { number < 100 }
    ensures { result ≡ (48 + number / 10) ∷ (48 + number % 10) ∷ [] }
{
    [b'0' + (number / 10) as u8, b'0' + (number % 10) as u8]
}

pub fn push_line_number(text: &mut Vec<u8>, number: u128) -> Result<(), AllocError>
    ensures { OnOk result (text.new.items ≡ text.old.items ++ decimal number) }
{
    if number <= u64::MAX as u128 {
        return push_number(text, number as u64);
    }
    let mut buffer = Buffer::new();
    text.extend_from_slice(buffer.format(number).as_bytes())
}

fn push_tries(text: &mut Vec<u8>, tries: Tries) -> Result<(), AllocError>
    ensures { OnOk result (text.new.items
        ≡ text.old.items ++ tries_field true (names_counted tries) (attributes_counted tries)) }
{
    text.extend_from_slice(b"\ttries ")?;
    push_number(text, tries.names())?;
    text.push(b' ')?;
    push_number(text, tries.attributes())
}

pub fn push_line(text: &mut Vec<u8>, line: &[u8]) -> Result<(), AllocError>
    ensures { OnOk result (text.new.items ≡ text.old.items ++ (line.now ++ line_feed ∷ [])) }
{
    text.extend_from_slice(line)?;
    text.push(b'\n')?;
    Ok(())
}

pub fn push_started(
    text: &mut Vec<u8>,
    matches: &[MatchInfo],
    asked: bool,
    tries: Option<Tries>,
) -> Result<(), AllocError>
    ensures { OnOk result (text.new.items ≡ text.old.items
        ++ (started_text (map (λ info. match_of info) matches.now) asked tries ++ line_feed ∷ [])) }
{
    text.extend_from_slice(b"start\t")?;
    push_matches(text, matches)?;
    push_start_end(text, asked, tries)
}

/// Adds what stands behind the list of a start tag's line, and ends it.
#[inline(always)]
pub fn push_start_end(
    text: &mut Vec<u8>,
    asked: bool,
    tries: Option<Tries>,
) -> Result<(), AllocError>
    ensures { OnOk result (text.new.items ≡ text.old.items ++ (end_of_start asked tries ++ line_feed ∷ [])) }
{
    if asked {
        text.extend_from_slice(b"\tasked")?;
    }
    if let Some(tries) = tries {
        push_tries(text, tries)?;
    }
    text.push(b'\n')?;
    Ok(())
}

/// Adds the line of a reason, whose text is that of the `select` line of this number.
pub fn push_reason(text: &mut Vec<u8>, line: u128, reason: &Reason) -> Result<(), AllocError>
    ensures { OnOk result (text.new.items
        ≡ text.old.items ++ (shown_reason line (reason_shown reason.now) ++ line_feed ∷ [])) }
{
    text.extend_from_slice(b"why\t")?;
    push_number(text, u64::from(reason.item.id))?;
    text.push(b'\t')?;
    push_line_number(text, line)?;
    text.push(b'\t')?;
    push_number(text, reason.item.item as u64)?;
    text.push(b'\t')?;
    push_outermost_first(text, &reason.witness)?;
    text.push(b'\n')?;
    Ok(())
}

/// Adds numbers, the last of them first, separated by commas, or `-` where there are none.
fn push_outermost_first(text: &mut Vec<u8>, witness: &[usize]) -> Result<(), AllocError>
    ensures { OnOk result (text.new.items
        ≡ text.old.items ++ comma_list (map decimal (reverse witness.now))) }
{
    let Some((outermost, inner)) = witness.split_last() else {
        text.push(b'-')?;
        return Ok(());
    };
    push_number(text, *outermost as u64)?;
    for number in inner.iter().rev() {
        text.push(b',')?;
        push_number(text, *number as u64)?;
    }
    Ok(())
}
