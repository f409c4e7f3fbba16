//! The attributes of a tag, found when they are asked for.

ghost use Rattle.std.specs.Prelude.{◌≡◌, ◌+◌, ◌++◌, ◌<◌, ◌≤◌, ◌^◌, [], length, take, if◌then◌else◌, All, OnOk, OnErr};
ghost use Rattle.lol_base.specs.StartTags.{OutlineIsInside};
ghost use Rattle.lol_tags.specs.Runs.{with_some, run, given};
ghost use Rattle.lol_tags.specs.Attributes.{is_attribute_name, is_in_attribute, is_quoted, is_value, begins, completes, behind_name, noted_attribute, outline_at, attribute_step, attribute_ended, outlines_of};
ghost use Rattle.lol_tags.specs.Idling.{quote, MayName};

use crate::front::{begins_quoted, name_len};
use crate::reader::idle_len;
use crate::state::State;
use lol_base::{AttributeBuffer, AttributeOutline, Range};
use std::alloc::AllocError;

// Where an attribute stands that is being read, by places in its tag.
#[derive(Drop)]
struct AttributeReader {
    state: State,
    at: usize,
    name_start: usize,
    name_end: usize,
    value_start: usize,
}

/// Adds the outlines of a tag's attributes behind the others, in the order of the input: of a whole tag's own bytes, from `<` to `>`, whose
/// name ends at `name_end`. The ranges are places in these bytes. An attribute whose value isn't written has the empty value, at its name's
/// end; `raw_range` reaches from its name to behind its value, with the quote that ends it. It takes one step for each byte.
///
/// # Errors
/// Out of memory. Then the outlines are as before.
pub fn push_outlines(
    tag: &[u8],
    name_end: usize,
    outlines: &mut AttributeBuffer,
) -> Result<(), AllocError>
    ensures outlines { OnOk result (outlines.new.items ≡ outlines.old.items ++ outlines_of tag.now name_end) }
    ensures inside { OnOk result
        (All (OutlineIsInside tag.now) outlines.old.items → All (OutlineIsInside tag.now) outlines.new.items) }
    ensures refused { OnErr result (outlines.new.items ≡ outlines.old.items) }
{
    if name_end > tag.len() {
        return Ok(());
    }
    let count = outlines.len();
    let pushed = push_found(AttributeReader::new(name_end), &tag[name_end..], outlines);
    if pushed.is_err() {
        outlines.truncate(count);
    }
    pushed
}

fn push_found(
    mut reader: AttributeReader,
    rest: &[u8],
    outlines: &mut AttributeBuffer,
) -> Result<(), AllocError>
    requires { reader.at + length rest.now < 2 ^ 64 }
    ensures outlines { OnOk result
        (outlines.new.items ≡ outlines.old.items ++ given attribute_step attribute_ended reader rest.now) }
    ensures kept { take (length outlines.old.items) outlines.new.items ≡ outlines.old.items }
{
    let mut i = 0;
    while i < rest.len() {
        let (taken, found) = reader.read_part(&rest[i..]);
        i += taken;
        if let Some(outline) = found {
            outlines.push(outline)?;
        }
    }
    Ok(())
}

impl AttributeReader {
    // At the end of a tag's name.
    fn new(name_end: usize) -> Self
        ensures { result ≡ behind_name name_end }
    {
        AttributeReader {
            state: State::TagName,
            at: name_end,
            name_start: name_end,
            name_end,
            value_start: name_end,
        }
    }

    // Reads up to the quote that ends a quoted value, and one byte: how many bytes, and the attribute that the last one ends.
    #[inline(always)]
    fn read_part(&mut self, rest: &[u8]) -> (usize, Option<AttributeOutline>)
        requires some { 0 < length rest.now }
        requires room { self.old.at + length rest.now < 2 ^ 64 }
        ensures moved { 0 < result.0 }
        ensures within { result.0 ≤ length rest.now }
        ensures after { self.new ≡ run attribute_step self.old (take result.0 rest.now) }
        ensures outline { with_some result.1 []
            ≡ given attribute_step attribute_ended self.old (take result.0 rest.now) }
        ensures at { self.new.at ≡ self.old.at + result.0 }
    {
        let idle = self.skip(rest);
        if idle < rest.len() {
            let found = self.step(rest[idle]);
            (idle + 1, found)
        } else {
            (idle, None)
        }
    }

    // Reads what can be read at once at the front: how many bytes.
    #[inline(always)]
    fn skip(&mut self, rest: &[u8]) -> usize
        requires room { self.old.at + length rest.now < 2 ^ 64 }
        ensures within { result ≤ length rest.now }
        ensures after { self.new ≡ run attribute_step self.old (take result rest.now) }
        ensures none { given attribute_step attribute_ended self.old (take result rest.now) ≡ [] }
        ensures at { self.new.at ≡ self.old.at + result }
    {
        let begun = self.read_name(rest);
        begun + self.skip_quoted(&rest[begun..])
    }

    // Reads on in a name, and up to its value.
    #[inline(always)]
    #[tactic(auto, unfolding(crate::specs::Idling::may_name))]
    fn read_name(&mut self, rest: &[u8]) -> usize
        requires room { self.old.at + length rest.now < 2 ^ 64 }
        ensures within { result ≤ length rest.now }
        ensures after { self.new ≡ run attribute_step self.old (take result rest.now) }
        ensures none { given attribute_step attribute_ended self.old (take result rest.now) ≡ [] }
        ensures at { self.new.at ≡ self.old.at + result }
    {
        match self.state {
            State::BeforeAttributeName => self.go_on_with_name(rest),
            State::AttributeName => self.go_on_with_name(rest),
            _ => 0,
        }
    }

    // Reads the bytes of a name, and up to its value.
    #[inline(always)]
    fn go_on_with_name(&mut self, rest: &[u8]) -> usize
        requires name { MayName self.old.state }
        requires room { self.old.at + length rest.now < 2 ^ 64 }
        ensures within { result ≤ length rest.now }
        ensures after { self.new ≡ run attribute_step self.old (take result rest.now) }
        ensures none { given attribute_step attribute_ended self.old (take result rest.now) ≡ [] }
        ensures at { self.new.at ≡ self.old.at + result }
    {
        let name = self.skip_name(rest);
        name + self.skip_equals_sign(&rest[name..])
    }

    // Reads the bytes of a name.
    #[inline(always)]
    fn skip_name(&mut self, rest: &[u8]) -> usize
        requires name { MayName self.old.state }
        requires room { self.old.at + length rest.now < 2 ^ 64 }
        ensures within { result ≤ length rest.now }
        ensures after { self.new ≡ run attribute_step self.old (take result rest.now) }
        ensures none { given attribute_step attribute_ended self.old (take result rest.now) ≡ [] }
        ensures at { self.new.at ≡ self.old.at + result }
    {
        let len = name_len(rest);
        if len > 0 {
            self.name_start = self.first();
            self.state = State::AttributeName;
            self.at += len;
            self.name_end = self.at;
            self.value_start = self.at - 1;
        }
        len
    }

    // Where the name begins that the next byte goes on with.
    #[inline(always)]
    fn first(&self) -> usize
        ensures { result ≡ (if is_attribute_name self.now.state then self.now.name_start else self.now.at) }
    {
        if is_attribute_name(self.state) {
            self.name_start
        } else {
            self.at
        }
    }

    // Reads an equals sign behind a name and the double quote behind it.
    #[inline(always)]
    fn skip_equals_sign(&mut self, rest: &[u8]) -> usize
        requires room { self.old.at + length rest.now < 2 ^ 64 }
        ensures within { result ≤ length rest.now }
        ensures after { self.new ≡ run attribute_step self.old (take result rest.now) }
        ensures none { given attribute_step attribute_ended self.old (take result rest.now) ≡ [] }
        ensures at { self.new.at ≡ self.old.at + result }
    {
        if is_attribute_name(self.state) && begins_quoted(rest) {
            self.state = State::AttributeValueDoubleQuoted;
            self.at += 2;
            self.value_start = self.at;
            2
        } else {
            0
        }
    }

    // Skips the bytes of a quoted value that are at the front: how many.
    #[inline(always)]
    fn skip_quoted(&mut self, rest: &[u8]) -> usize
        requires room { self.old.at + length rest.now < 2 ^ 64 }
        ensures within { result ≤ length rest.now }
        ensures after { self.new ≡ run attribute_step self.old (take result rest.now) }
        ensures none { given attribute_step attribute_ended self.old (take result rest.now) ≡ [] }
        ensures at { self.new.at ≡ self.old.at + result }
    {
        let Some(quote) = quote(self.state) else {
            return 0;
        };
        let idle = idle_len(quote, rest);
        self.at += idle;
        idle
    }

    // One byte: the attribute that it ends, if it ends one.
    #[inline(always)]
    #[tactic(auto, unfolding(crate::specs::Attributes::attribute_step, crate::specs::Attributes::attribute_ended))]
    fn step(&mut self, b: u8) -> Option<AttributeOutline>
        requires { self.old.at + 1 < 2 ^ 64 }
        ensures after { self.new ≡ attribute_step self.old b }
        ensures outline { result ≡ attribute_ended self.old b }
        ensures at { self.new.at ≡ self.old.at + 1 }
    {
        let next = self.state.next(b, false, false, false);
        let found = if completes(self.state, next) {
            Some(self.outline())
        } else {
            None
        };
        self.note(next);
        found
    }

    // The attribute that the next byte ends.
    #[inline(always)]
    fn outline(&self) -> AttributeOutline
        requires { self.now.at + 1 < 2 ^ 64 }
        ensures { result ≡ outline_at self.now }
    {
        let value = if is_value(self.state) {
            Range {
                start: self.value_start,
                end: self.at,
            }
        } else {
            Range {
                start: self.name_end,
                end: self.name_end,
            }
        };
        let end = if is_quoted(self.state) {
            self.at + 1
        } else {
            value.end
        };
        AttributeOutline {
            name: Range {
                start: self.name_start,
                end: self.name_end,
            },
            value: Some(value),
            raw_range: Range {
                start: self.name_start,
                end,
            },
        }
    }

    // Notes a byte that leads to a state.
    #[inline(always)]
    fn note(&mut self, next: State)
        requires { self.old.at + 1 < 2 ^ 64 }
        ensures now { self.new ≡ noted_attribute next self.old }
        ensures at { self.new.at ≡ self.old.at + 1 }
    {
        let past = self.at + 1;
        if begins(self.state, next) {
            self.name_start = self.at;
        }
        if is_attribute_name(next) {
            self.name_end = past;
        }
        if !is_value(self.state) {
            self.value_start = if is_quoted(next) { past } else { self.at };
        }
        self.state = next;
        self.at = past;
    }
}

// Whether a byte that leads from a state to another one is the first of an attribute's name.
#[inline(always)]
fn begins(from: State, to: State) -> bool
    ensures { result ≡ begins from to }
{
    is_attribute_name(to) && !is_attribute_name(from)
}

// Whether the attribute that is read is whole before such a byte.
#[inline(always)]
fn completes(from: State, to: State) -> bool
    ensures { result ≡ completes from to }
{
    is_in_attribute(from) && (begins(from, to) || !is_in_attribute(to))
}

#[inline(always)]
#[tactic(auto, unfolding(crate::specs::Attributes::is_attribute_name))]
pub(crate) fn is_attribute_name(state: State) -> bool
    ensures { result ≡ is_attribute_name state }
{
    match state {
        State::AttributeName => true,
        _ => false,
    }
}

#[inline(always)]
#[tactic(auto, unfolding(crate::specs::Attributes::is_quoted))]
fn is_quoted(state: State) -> bool
    ensures { result ≡ is_quoted state }
{
    match state {
        State::AttributeValueDoubleQuoted => true,
        State::AttributeValueSingleQuoted => true,
        _ => false,
    }
}

// The byte that ends a quoted value.
#[inline(always)]
#[tactic(auto, unfolding(crate::specs::Idling::quote))]
fn quote(state: State) -> Option<u8>
    ensures { result ≡ quote state }
{
    match state {
        State::AttributeValueDoubleQuoted => Some(b'"'),
        State::AttributeValueSingleQuoted => Some(b'\''),
        _ => None,
    }
}

#[inline(always)]
#[tactic(auto, unfolding(crate::specs::Attributes::is_value))]
fn is_value(state: State) -> bool
    ensures { result ≡ is_value state }
{
    match state {
        State::AttributeValueDoubleQuoted => true,
        State::AttributeValueSingleQuoted => true,
        State::AttributeValueUnquoted => true,
        _ => false,
    }
}

// Whether a state is in an attribute that isn't whole yet.
#[inline(always)]
#[tactic(auto, unfolding(crate::specs::Attributes::is_in_attribute))]
fn is_in_attribute(state: State) -> bool
    ensures { result ≡ is_in_attribute state }
{
    match state {
        State::AttributeName => true,
        State::AfterAttributeName => true,
        State::BeforeAttributeValue => true,
        State::AttributeValueDoubleQuoted => true,
        State::AttributeValueSingleQuoted => true,
        State::AttributeValueUnquoted => true,
        _ => false,
    }
}
