//! The lines of matches.

ghost use Rattle.std.specs.Prelude.{◌≡◌, ◌++◌, ◌∷◌, [], ◌<◌, All, OnOk, codes, decimal, length, map, option_copied, false};
ghost use Rattle.std.specs.Fmt.{digit_glyph};
ghost use Rattle.std.specs.List.{flat_map};
ghost use Rattle.lol_base.specs.CodePoints.{line_feed};
ghost use Rattle.lol_base.specs.Names.{lowercased};
ghost use Rattle.lol_base.specs.StartTags.{OutlineIsInside, attribute_of};
ghost use Rattle.lol_instructions.specs.Attributes.{value_among};
ghost use Rattle.lol_page.specs.Readings.{with_text};
ghost use Rattle.lol_page.specs.ValueLaws.{value_read};
ghost use Rattle.lol_machine.specs.Views.{match_of};
ghost use Rattle.zugrenja.specs.Json.{json_byte, json_string};
ghost use Rattle.zugrenja.specs.Lines.{count_line, end_of, in_one_line, json_line, later_number, line_of, match_at, name_line, number_member, numbers, numbers_line, numbers_part, page_member, page_of, place, place_members, prefix_of, selector_of, selectors_member, tag_member, text_line, value_line, value_of};

use crate::arguments::Output;
use itoa::Buffer;
use lol_base::{AttributeOutline, LocalName};
use lol_matcher::{MatchId, MatchInfo};
use lol_page::PlacedTag;
use lol_references::{append_decoded, has_ampersand};
use lol_tags::push_outlines;
use std::alloc::AllocError;

/// How a page is read, and its matches are written.
#[derive(Drop)]
pub struct Style {
    pub output: Output,
    /// Whether the values of attributes are decoded, before they are matched and where they are written.
    pub decoded: bool,
    /// Whether the page is refused if it is ambiguous.
    pub strict: bool,
    /// The selectors, each under its number, from 1.
    pub selectors: Vec<String>,
    /// Whether the numbers of the selectors stand before the tags.
    pub numbered: bool,
    /// Whether the page's name stands before each line.
    pub named: bool,
    /// The page's name. Standard input has none.
    pub page: Option<String>,
}

impl Style {
    /// Adds the line of a match, which has its line feed: a tag by its places and its bytes, and what it is reported under.
    #[tactic(auto, unfolding(crate::specs::Lines::line_of))]
    pub fn push_line(
        &self,
        placed: &PlacedTag,
        text: &[u8],
        matches: &[MatchInfo],
        lines: &mut Vec<u8>,
    ) -> Result<(), AllocError>
        ensures { OnOk result (lines.new.items
            ≡ lines.old.items ++ line_of self.now (match_at text.now placed.now matches.now)) }
    {
        match &self.output {
            Output::Tags => self.push_text(placed, text, matches, lines),
            Output::Ids => self.push_ids(placed, matches, lines),
            Output::Names => self.push_names(placed, matches, lines),
            Output::Count => Ok(()),
            Output::Json => self.push_object(placed, text, matches, lines),
            Output::Attribute(name) => {
                self.push_value(name.as_bytes(), placed, text, matches, lines)
            }
        }
    }

    /// Adds what stands behind the lines of so many matches.
    pub fn push_end(&self, count: u64, lines: &mut Vec<u8>) -> Result<(), AllocError>
        ensures { OnOk result (lines.new.items ≡ lines.old.items ++ end_of self.now count) }
    {
        match &self.output {
            Output::Count => self.push_count(count, lines),
            Output::Tags | Output::Ids | Output::Names | Output::Json | Output::Attribute(_) => Ok(
                (),
            ),
        }
    }

    #[tactic(auto, using(std::proofs::lemmas::List::append_assoc), unfolding(crate::specs::Lines::count_line))]
    fn push_count(&self, count: u64, lines: &mut Vec<u8>) -> Result<(), AllocError>
        ensures { OnOk result (lines.new.items ≡ lines.old.items ++ count_line (prefix_of self.now) count) }
    {
        self.push_page(lines)?;
        push_number(count, lines)?;
        lines.push(b'\n')?;
        Ok(())
    }

    /// Adds a line that shows a part of a tag's bytes.
    #[tactic(auto, using(std::proofs::lemmas::List::append_assoc), unfolding(crate::specs::Lines::text_line))]
    fn push_text(
        &self,
        placed: &PlacedTag,
        text: &[u8],
        matches: &[MatchInfo],
        lines: &mut Vec<u8>,
    ) -> Result<(), AllocError>
        ensures { OnOk result (lines.new.items
            ≡ lines.old.items ++ text_line (prefix_of self.now) self.now.numbered placed.now.line placed.now.column
            (map match_of matches.now) text.now) }
    {
        self.push_place(placed, lines)?;
        self.push_numbers_part(matches, lines)?;
        push_in_one_line(text, lines)?;
        lines.push(b'\n')?;
        Ok(())
    }

    #[tactic(auto, using(std::proofs::lemmas::List::append_assoc), unfolding(crate::specs::Lines::numbers_line))]
    fn push_ids(
        &self,
        placed: &PlacedTag,
        matches: &[MatchInfo],
        lines: &mut Vec<u8>,
    ) -> Result<(), AllocError>
        ensures { OnOk result (lines.new.items
            ≡ lines.old.items
            ++ numbers_line (prefix_of self.now) placed.now.line placed.now.column (map match_of matches.now)) }
    {
        self.push_place(placed, lines)?;
        push_numbers(matches, lines)?;
        lines.push(b'\n')?;
        Ok(())
    }

    /// Adds a line for each selector that matches.
    fn push_names(
        &self,
        placed: &PlacedTag,
        matches: &[MatchInfo],
        lines: &mut Vec<u8>,
    ) -> Result<(), AllocError>
        ensures { OnOk result (lines.new.items ≡ lines.old.items
            ++ flat_map (name_line self.now placed.now.line placed.now.column) (map match_of matches.now)) }
    {
        for found in matches {
            self.push_name(placed, found.match_id, lines)?;
        }
        Ok(())
    }

    #[tactic(auto, using(std::proofs::lemmas::List::append_assoc))]
    fn push_name(
        &self,
        placed: &PlacedTag,
        number: MatchId,
        lines: &mut Vec<u8>,
    ) -> Result<(), AllocError>
        ensures { OnOk result (lines.new.items ≡ lines.old.items
            ++ (place (prefix_of self.now) placed.now.line placed.now.column
            ++ (in_one_line (selector_of self.now number) ++ line_feed ∷ []))) }
    {
        self.push_place(placed, lines)?;
        push_in_one_line(self.selector(number), lines)?;
        lines.push(b'\n')?;
        Ok(())
    }

    /// The selector of a number.
    fn selector(&self, number: MatchId) -> &[u8]
        ensures { result.now ≡ selector_of self.now number }
    {
        match self.selectors.get((number as usize).saturating_sub(1)) {
            Some(selector) => selector.as_bytes(),
            None => &[],
        }
    }

    fn push_value(
        &self,
        name: &[u8],
        placed: &PlacedTag,
        text: &[u8],
        matches: &[MatchInfo],
        lines: &mut Vec<u8>,
    ) -> Result<(), AllocError>
        ensures { OnOk result (lines.new.items
            ≡ lines.old.items ++ value_line (prefix_of self.now) self.now.numbered placed.now.line placed.now.column
            (map match_of matches.now) (value_of self.now.decoded name.now (with_text text.now placed.now))) }
    {
        let mut outlines = Vec::new(*lines.allocator());
        push_outlines(text, placed.name_end(), &mut outlines)?;
        self.push_read(placed, find_value(text, &outlines, name), matches, lines)
    }

    /// Adds the line of a value, if there is one, decoded or as it is written.
    fn push_read(
        &self,
        placed: &PlacedTag,
        value: Option<&[u8]>,
        matches: &[MatchInfo],
        lines: &mut Vec<u8>,
    ) -> Result<(), AllocError>
        ensures { OnOk result (lines.new.items
            ≡ lines.old.items ++ value_line (prefix_of self.now) self.now.numbered placed.now.line placed.now.column
            (map match_of matches.now) (value_read self.now.decoded (option_copied value.entry))) }
    {
        match value {
            Some(value) if self.decoded && has_ampersand(value) => {
                let mut decoded = Vec::new(*lines.allocator());
                append_decoded(value, &mut decoded)?;
                self.push_text(placed, &decoded, matches, lines)
            }
            Some(value) => self.push_text(placed, value, matches, lines),
            None => Ok(()),
        }
    }

    #[tactic(auto, using(std::proofs::lemmas::List::append_assoc))]
    fn push_place(&self, placed: &PlacedTag, lines: &mut Vec<u8>) -> Result<(), AllocError>
        ensures { OnOk result (lines.new.items
            ≡ lines.old.items ++ place (prefix_of self.now) placed.now.line placed.now.column) }
    {
        self.push_page(lines)?;
        push_number(placed.line, lines)?;
        lines.extend_from_slice(b":")?;
        push_number(placed.column, lines)?;
        lines.extend_from_slice(b": ")
    }

    #[tactic(auto, using(std::proofs::lemmas::List::append_assoc))]
    fn push_page(&self, lines: &mut Vec<u8>) -> Result<(), AllocError>
        ensures { OnOk result (lines.new.items ≡ lines.old.items ++ prefix_of self.now) }
    {
        if !self.named {
            return Ok(());
        }
        match &self.page {
            Some(name) => lines.extend_from_slice(name.as_bytes())?,
            None => lines.extend_from_slice(b"(standard input)")?,
        }
        lines.extend_from_slice(b":")
    }

    #[tactic(auto, using(std::proofs::lemmas::List::append_assoc))]
    fn push_numbers_part(
        &self,
        matches: &[MatchInfo],
        lines: &mut Vec<u8>,
    ) -> Result<(), AllocError>
        ensures { OnOk result (lines.new.items
            ≡ lines.old.items ++ numbers_part self.now.numbered (map match_of matches.now)) }
    {
        if !self.numbered {
            return Ok(());
        }
        push_numbers(matches, lines)?;
        lines.extend_from_slice(b": ")
    }

    #[tactic(auto, using(std::proofs::lemmas::List::append_assoc), unfolding(crate::specs::Lines::json_line))]
    fn push_object(
        &self,
        placed: &PlacedTag,
        text: &[u8],
        matches: &[MatchInfo],
        lines: &mut Vec<u8>,
    ) -> Result<(), AllocError>
        ensures { OnOk result (lines.new.items ≡ lines.old.items
            ++ json_line (page_of self.now) (match_at text.now placed.now matches.now)) }
    {
        lines.extend_from_slice(b"{")?;
        self.push_page_member(lines)?;
        push_place_members(placed, text, lines)?;
        push_selectors_member(matches, lines)?;
        push_tag_member(text, lines)?;
        lines.extend_from_slice(b"}\n")
    }

    #[tactic(auto, using(std::proofs::lemmas::List::append_assoc))]
    fn push_page_member(&self, lines: &mut Vec<u8>) -> Result<(), AllocError>
        ensures { OnOk result (lines.new.items ≡ lines.old.items ++ page_member (page_of self.now)) }
    {
        let Some(page) = &self.page else {
            return Ok(());
        };
        push_member_name(b"page", lines)?;
        push_string(page.as_bytes(), lines)?;
        lines.extend_from_slice(b",")
    }
}

#[tactic(auto, using(std::proofs::lemmas::List::append_assoc), unfolding(crate::specs::Lines::place_members))]
fn push_place_members(
    placed: &PlacedTag,
    text: &[u8],
    lines: &mut Vec<u8>,
) -> Result<(), AllocError>
    ensures { OnOk result (lines.new.items ≡ lines.old.items ++ place_members (with_text text.now placed.now)) }
{
    push_number_member(b"line", placed.line, lines)?;
    push_number_member(b"column", placed.column, lines)?;
    push_number_member(b"offset", placed.tag.start, lines)?;
    push_number_member(b"length", text.len() as u64, lines)
}

#[tactic(auto, using(std::proofs::lemmas::List::append_assoc), unfolding(crate::specs::Lines::number_member))]
fn push_number_member(name: &[u8], number: u64, lines: &mut Vec<u8>) -> Result<(), AllocError>
    ensures { OnOk result (lines.new.items ≡ lines.old.items ++ number_member name.now number) }
{
    push_member_name(name, lines)?;
    push_number(number, lines)?;
    lines.extend_from_slice(b",")
}

#[tactic(auto, using(std::proofs::lemmas::List::append_assoc), unfolding(crate::specs::Lines::selectors_member))]
fn push_selectors_member(matches: &[MatchInfo], lines: &mut Vec<u8>) -> Result<(), AllocError>
    ensures { OnOk result (lines.new.items ≡ lines.old.items ++ selectors_member (map match_of matches.now)) }
{
    push_member_name(b"selectors", lines)?;
    lines.extend_from_slice(b"[")?;
    push_numbers(matches, lines)?;
    lines.extend_from_slice(b"],")
}

#[tactic(auto, using(std::proofs::lemmas::List::append_assoc), unfolding(crate::specs::Lines::tag_member))]
fn push_tag_member(text: &[u8], lines: &mut Vec<u8>) -> Result<(), AllocError>
    ensures { OnOk result (lines.new.items ≡ lines.old.items ++ tag_member text.now) }
{
    push_member_name(b"tag", lines)?;
    push_string(text, lines)
}

#[tactic(auto, using(std::proofs::lemmas::List::append_assoc))]
fn push_member_name(name: &[u8], lines: &mut Vec<u8>) -> Result<(), AllocError>
    ensures { OnOk result (lines.new.items ≡ lines.old.items ++ (codes "\"" ++ (name.now ++ codes "\":"))) }
{
    lines.extend_from_slice(b"\"")?;
    lines.extend_from_slice(name)?;
    lines.extend_from_slice(b"\":")
}

/// Adds a number in decimal digits.
fn push_number(number: u64, lines: &mut Vec<u8>) -> Result<(), AllocError>
    ensures { OnOk result (lines.new.items ≡ lines.old.items ++ decimal number) }
{
    let mut buffer = Buffer::new();
    lines.extend_from_slice(buffer.format(number).as_bytes())
}

/// Adds the numbers of the selectors, with commas between them.
fn push_numbers(matches: &[MatchInfo], lines: &mut Vec<u8>) -> Result<(), AllocError>
    ensures { OnOk result (lines.new.items ≡ lines.old.items ++ numbers (map match_of matches.now)) }
{
    let Some((first, others)) = matches.split_first() else {
        return Ok(());
    };
    push_number(u64::from(first.match_id), lines)?;
    push_others(others, lines)
}

/// Adds the numbers of more selectors.
fn push_others(others: &[MatchInfo], lines: &mut Vec<u8>) -> Result<(), AllocError>
    ensures { OnOk result (lines.new.items ≡ lines.old.items ++ flat_map later_number others.now) }
{
    for found in others {
        lines.extend_from_slice(b",")?;
        push_number(u64::from(found.match_id), lines)?;
    }
    Ok(())
}

/// Adds bytes, with a space for each byte of a line's end.
fn push_in_one_line(text: &[u8], lines: &mut Vec<u8>) -> Result<(), AllocError>
    ensures { OnOk result (lines.new.items ≡ lines.old.items ++ in_one_line text.now) }
{
    for b in text {
        lines.push(if *b == b'\n' || *b == b'\r' { b' ' } else { *b })?;
    }
    Ok(())
}

/// Adds a JSON string, in which bytes that aren't UTF-8 are U+FFFD.
#[tactic(auto, using(std::proofs::lemmas::List::append_assoc))]
fn push_string(text: &[u8], lines: &mut Vec<u8>) -> Result<(), AllocError>
    ensures { OnOk result (lines.new.items ≡ lines.old.items ++ json_string text.now) }
{
    let text = String::from_utf8_lossy(*lines.allocator(), text)?;
    lines.extend_from_slice(b"\"")?;
    push_escaped(text.as_bytes(), lines)?;
    lines.extend_from_slice(b"\"")
}

fn push_escaped(text: &[u8], lines: &mut Vec<u8>) -> Result<(), AllocError>
    ensures { OnOk result (lines.new.items ≡ lines.old.items ++ flat_map json_byte text.now) }
{
    for b in text {
        push_json_byte(*b, lines)?;
    }
    Ok(())
}

fn push_json_byte(b: u8, lines: &mut Vec<u8>) -> Result<(), AllocError>
    ensures { OnOk result (lines.new.items ≡ lines.old.items ++ json_byte b) }
{
    if b == b'"' {
        lines.extend_from_slice(b"\\\"")
    } else if b == b'\\' {
        lines.extend_from_slice(b"\\\\")
    } else if b < 32 {
        let digits = [hex_digit(b / 16), hex_digit(b % 16)];
        lines.extend_from_slice(b"\\u00")?;
        lines.extend_from_slice(&digits)
    } else {
        lines.extend_from_slice(&[b])
    }
}

fn hex_digit(digit: u8) -> u8
    requires { digit < 16 }
    ensures { result ≡ digit_glyph false digit }
{
    if digit < 10 {
        b'0' + digit
    } else {
        b'a' - 10 + digit
    }
}

/// The value of the first attribute of that name.
fn find_value<'t>(text: &'t [u8], outlines: &[AttributeOutline], name: &[u8]) -> Option<&'t [u8]>
    requires { All (OutlineIsInside text.now) outlines.now }
    ensures { option_copied result ≡ value_among (lowercased name.now) (map (attribute_of text.now) outlines.now) }
{
    for outline in outlines {
        let found = LocalName::new(&text[outline.name.start..outline.name.end]);
        if found == LocalName::new(name) {
            return Some(match outline.value {
                Some(range) => &text[range.start..range.end],
                None => &[],
            });
        }
    }
    None
}
