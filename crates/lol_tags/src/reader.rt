//! The reader of tags: a state of the tokenizer, and where the tag stands that is being read.

ghost use Rattle.std.specs.Prelude.{◌≡◌, ◌↔◌, ◌+◌, ◌++◌, ◌<◌, ◌≤◌, ◌^◌, [], true, false, Some, None, length, take, get_or, IsErr, IsTrue, IfNone, IfSome, IfOk, OnOk, OnErr};
ghost use Rattle.lol_tags.specs.Runs.{with_some};
ghost use Rattle.lol_tags.specs.Reading.{with_byte, script, has_raw_text, text_state, is_named, is_script, noted, step, ended, closed, fresh, after, tags_from, told_foreign, unfinished};
ghost use Rattle.lol_tags.specs.Idling.{Lacks, MaySpell, MayName};

use crate::attributes::is_attribute_name;
use crate::error::{FeedError, StreamTooLong};
use crate::front::{begins_quoted, letters, name_len, space_len};
use crate::state::State;
use crate::transitions::is_letter;
use memchr::memchr;
use std::alloc::AllocError;

/// A tag, by places in the stream: bytes that were read before, counted from 0.
#[derive(Clone, Copy, Debug, PartialEq, Eq)]
pub struct Tag {
    /// The place of its `<`.
    pub start: u64,
    /// The place behind its name, which begins behind `<` or `</`.
    pub name_end: u64,
    /// The place behind its `>`.
    pub end: u64,
    /// Whether it is an end tag.
    pub is_end: bool,
    /// Whether a `/` stands before its `>`.
    pub self_closing: bool,
}

/// How far a chunk was read.
#[derive(Clone, Copy, Debug, PartialEq, Eq)]
pub struct Read {
    /// How many bytes of the chunk were read.
    pub taken: usize,
    /// The tag that the last of them ends.
    pub tag: Option<Tag>,
}

/// Reads the tags of a stream that comes in chunks, however it is cut. Its size is constant, and it keeps no bytes.
///
/// The bytes are in an encoding that has ASCII's bytes for ASCII's characters and for nothing else, as UTF-8. The reader takes each
/// element as an HTML element, until `set_foreign` tells otherwise. It builds no tree: the text of an element that a browser would leave
/// out, as `xmp` in a `select`, is read as if it were there. The end of the stream needs no call: what stands behind the last `>` that ends a
/// tag is no tag.
#[derive(Debug, Drop)]
pub struct TagReader {
    state: State,
    at: u64,
    start: u64,
    name_end: u64,
    is_end: bool,
    code: u64,
    text_code: u64,
    scripting: bool,
    foreign: bool,
}

// The codes of names, five bits for each letter. `with_byte` makes them, and the definition has the names themselves.
const SCRIPT: u64 = 641_279_508;

const STYLE: u64 = 20_604_293;

const TITLE: u64 = 21_287_301;

const TEXTAREA: u64 = 693_389_805_729;

const XMP: u64 = 25_008;

const IFRAME: u64 = 308_872_613;

const NOEMBED: u64 = 15_541_373_092;

const NOFRAMES: u64 = 497_362_711_731;

const NOSCRIPT: u64 = 497_783_744_020;

const PLAINTEXT: u64 = 18_005_893_977_876;

// 2^55: the codes of names of up to eleven letters are less.
const TWELVE_LETTERS: u64 = 36_028_797_018_963_968;

// The code of a name with one more byte.
#[inline(always)]
pub(crate) fn with_byte(code: u64, b: u8) -> u64
    ensures { result ≡ with_byte code b }
{
    if code < TWELVE_LETTERS && is_letter(b) {
        code * 32 + u64::from(b % 32)
    } else {
        u64::MAX
    }
}

fn has_raw_text(code: u64, scripting: bool) -> bool
    ensures { result ≡ has_raw_text code scripting }
{
    code == SCRIPT
        || code == STYLE
        || code == TITLE
        || code == TEXTAREA
        || code == XMP
        || code == IFRAME
        || code == NOEMBED
        || code == NOFRAMES
        || (scripting && code == NOSCRIPT)
}

// The state after the start tag of an HTML element of that name.
fn text_state(code: u64, scripting: bool) -> State
    ensures { result ≡ text_state code scripting }
{
    if has_raw_text(code, scripting) {
        State::RawText
    } else if code == PLAINTEXT {
        State::Plaintext
    } else {
        State::Data
    }
}

impl TagReader {
    ghost use Rattle.lol_tags.specs.Reading.{opened, ending, spelled, ends, tag_at, advanced};

    /// A reader at the start of a stream. If `scripting` is set, the text of `noscript` is read as a browser does that runs scripts.
    pub fn new(scripting: bool) -> Self
        ensures { result ≡ fresh scripting }
    {
        TagReader {
            state: State::Data,
            at: 0,
            start: 0,
            name_end: 0,
            is_end: false,
            code: 0,
            text_code: 0,
            scripting,
            foreign: false,
        }
    }

    /// How many bytes were read.
    pub fn place(&self) -> u64
        ensures { result ≡ self.now.at }
    {
        self.at
    }

    /// The place of a `<` that may still become a tag: a caller that wants the bytes of tags keeps those from there on.
    pub fn unfinished(&self) -> Option<u64>
        ensures { result ≡ unfinished self.now }
    {
        if self.state.may_be_tag() {
            Some(self.start)
        } else {
            None
        }
    }

    /// Tells whether the current node is another than an HTML element (13.2.6, the adjusted current node). It is called behind a tag: in a
    /// foreign element what follows is no raw text, whatever its name, and CDATA sections are read.
    pub fn set_foreign(&mut self, foreign: bool)
        ensures { self.new ≡ told_foreign foreign self.old }
    {
        self.foreign = foreign;
        if foreign {
            self.state = State::Data;
        }
    }

    /// Reads up to the next tag and behind its `>`, or to the chunk's end.
    ///
    /// # Errors
    /// The stream would be longer than `u64::MAX` bytes with this chunk. Then nothing is read.
    pub fn next(&mut self, chunk: &[u8]) -> Result<Read, StreamTooLong>
        ensures too_long { IsErr result ↔ (2 ^ 64 ≤ self.old.at + length chunk.now) }
        ensures refused { OnErr result (self.new ≡ self.old) }
        ensures within { IfOk result (λ read. read.taken ≤ length chunk.now) }
        ensures after { IfOk result (λ read. self.new ≡ after self.old (take read.taken chunk.now)) }
        ensures tags { IfOk result (λ read. with_some read.tag [] ≡ tags_from self.old (take read.taken chunk.now)) }
        ensures whole { IfOk result (λ read. IfNone read.tag (read.taken ≡ length chunk.now)) }
        ensures last { IfOk result (λ read. IfSome read.tag (λ tag. tag.end ≡ self.new.at)) }
    {
        if self.has_room(chunk) {
            Ok(self.read_tag(chunk))
        } else {
            Err(StreamTooLong)
        }
    }

    /// Reads a chunk, and adds the tags that end in it behind the others.
    ///
    /// # Errors
    /// `StreamTooLong`: the stream would be longer than `u64::MAX` bytes with this chunk. `Memory`: the list can't grow. With both the reader
    /// and the list are as before.
    pub fn feed(&mut self, chunk: &[u8], tags: &mut Vec<Tag>) -> Result<(), FeedError>
        ensures too_long { (result ≡ Err FeedError.StreamTooLong) ↔ (2 ^ 64 ≤ self.old.at + length chunk.now) }
        ensures after { OnOk result (self.new ≡ after self.old chunk.now) }
        ensures tags { OnOk result (tags.new.items ≡ tags.old.items ++ tags_from self.old chunk.now) }
        ensures refused { OnErr result (self.new ≡ self.old) }
        ensures kept { OnErr result (tags.new.items ≡ tags.old.items) }
    {
        if !self.has_room(chunk) {
            return Err(FeedError::StreamTooLong);
        }
        let before = TagReader { ..*self };
        let count = tags.len();
        match self.push_tags(chunk, tags) {
            Ok(()) => Ok(()),
            Err(_) => {
                *self = before;
                tags.truncate(count);
                Err(FeedError::Memory)
            }
        }
    }

    #[inline(always)]
    fn has_room(&self, chunk: &[u8]) -> bool
        ensures { IsTrue result ↔ (self.now.at + length chunk.now < 2 ^ 64) }
    {
        chunk.len() as u64 <= u64::MAX - self.at
    }

    fn push_tags(&mut self, chunk: &[u8], tags: &mut Vec<Tag>) -> Result<(), AllocError>
        requires room { self.old.at + length chunk.now < 2 ^ 64 }
        ensures after { OnOk result (self.new ≡ after self.old chunk.now) }
        ensures tags { OnOk result (tags.new.items ≡ tags.old.items ++ tags_from self.old chunk.now) }
        ensures kept { take (length tags.old.items) tags.new.items ≡ tags.old.items }
    {
        let mut i = 0;
        while i < chunk.len() {
            let read = self.read_tag(&chunk[i..]);
            i += read.taken;
            if let Some(tag) = read.tag {
                tags.push(tag)?;
            }
        }
        Ok(())
    }

    // Reads up to the next tag and behind it, or to the end.
    #[inline(always)]
    fn read_tag(&mut self, rest: &[u8]) -> Read
        requires room { self.old.at + length rest.now < 2 ^ 64 }
        ensures moved { 0 < length rest.now → 0 < result.taken }
        ensures within { result.taken ≤ length rest.now }
        ensures after { self.new ≡ after self.old (take result.taken rest.now) }
        ensures tags { with_some result.tag [] ≡ tags_from self.old (take result.taken rest.now) }
        ensures whole { IfNone result.tag (result.taken ≡ length rest.now) }
        ensures last { IfSome result.tag (λ tag. tag.end ≡ self.new.at) }
        ensures at { self.new.at ≡ self.old.at + result.taken }
    {
        let before = self.pass(rest);
        if before < rest.len() {
            let tag = self.finish(rest[before]);
            Read {
                taken: before + 1,
                tag: Some(tag),
            }
        } else {
            Read {
                taken: before,
                tag: None,
            }
        }
    }

    // Reads up to the byte that ends a tag, or to the end: how many bytes.
    #[inline(always)]
    fn pass(&mut self, rest: &[u8]) -> usize
        requires room { self.old.at + length rest.now < 2 ^ 64 }
        ensures within { result ≤ length rest.now }
        ensures after { self.new ≡ after self.old (take result rest.now) }
        ensures tags { tags_from self.old (take result rest.now) ≡ [] }
        ensures ends { result < length rest.now → ends self.new (get_or rest.now result 0) ≡ true }
        ensures at { self.new.at ≡ self.old.at + result }
    {
        let mut i = 0;
        while i < rest.len() {
            let idle = self.skip(&rest[i..]);
            i += idle;
            if i < rest.len() {
                if self.ends(rest[i]) {
                    return i;
                }
                self.go_on(rest[i]);
                i += 1;
            }
        }
        i
    }

    // Reads what can be read at once at the front: how many bytes.
    #[inline(always)]
    fn skip(&mut self, rest: &[u8]) -> usize
        requires room { self.old.at + length rest.now < 2 ^ 64 }
        ensures within { result ≤ length rest.now }
        ensures after { self.new ≡ after self.old (take result rest.now) }
        ensures tags { tags_from self.old (take result rest.now) ≡ [] }
        ensures at { self.new.at ≡ self.old.at + result }
    {
        let begun = self.read_name(rest);
        begun + self.skip_idle(&rest[begun..])
    }

    // Reads on in a tag's name, or up to an attribute's value.
    #[inline(always)]
    #[tactic(auto, unfolding(crate::specs::Idling::may_spell, crate::specs::Idling::may_name))]
    fn read_name(&mut self, rest: &[u8]) -> usize
        requires room { self.old.at + length rest.now < 2 ^ 64 }
        ensures within { result ≤ length rest.now }
        ensures after { self.new ≡ after self.old (take result rest.now) }
        ensures tags { tags_from self.old (take result rest.now) ≡ [] }
        ensures at { self.new.at ≡ self.old.at + result }
    {
        match self.state {
            State::TagOpen => self.spell_letters(rest),
            State::EndTagOpen => self.spell_letters(rest),
            State::TagName => self.spell_letters(rest),
            State::BeforeAttributeName => self.begin_attribute(rest),
            State::AttributeName => self.go_on_with_name(rest),
            _ => 0,
        }
    }

    // Reads the letters of a tag's name.
    #[inline(always)]
    fn spell_letters(&mut self, rest: &[u8]) -> usize
        requires name { MaySpell self.old.state }
        requires room { self.old.at + length rest.now < 2 ^ 64 }
        ensures within { result ≤ length rest.now }
        ensures after { self.new ≡ after self.old (take result rest.now) }
        ensures tags { tags_from self.old (take result rest.now) ≡ [] }
        ensures at { self.new.at ≡ self.old.at + result }
    {
        let (len, code) = letters(self.code, rest);
        if len > 0 {
            self.state = State::TagName;
            self.code = code;
            self.at += len as u64;
            self.name_end = self.at;
        }
        len
    }

    // Reads up to an attribute's value.
    #[inline(always)]
    #[tactic(auto, unfolding(crate::specs::Idling::may_name))]
    fn begin_attribute(&mut self, rest: &[u8]) -> usize
        requires before { self.old.state ≡ State.BeforeAttributeName }
        requires room { self.old.at + length rest.now < 2 ^ 64 }
        ensures within { result ≤ length rest.now }
        ensures after { self.new ≡ after self.old (take result rest.now) }
        ensures tags { tags_from self.old (take result rest.now) ≡ [] }
        ensures at { self.new.at ≡ self.old.at + result }
    {
        let spaces = self.skip_spaces(rest);
        spaces + self.go_on_with_name(&rest[spaces..])
    }

    // Skips the spaces before an attribute.
    #[inline(always)]
    fn skip_spaces(&mut self, rest: &[u8]) -> usize
        requires before { self.old.state ≡ State.BeforeAttributeName }
        requires room { self.old.at + length rest.now < 2 ^ 64 }
        ensures within { result ≤ length rest.now }
        ensures after { self.new ≡ after self.old (take result rest.now) }
        ensures tags { tags_from self.old (take result rest.now) ≡ [] }
        ensures at { self.new.at ≡ self.old.at + result }
        ensures state { self.new.state ≡ self.old.state }
    {
        let len = space_len(rest);
        self.at += len as u64;
        len
    }

    // Reads the bytes of an attribute's name, and up to its value.
    #[inline(always)]
    fn go_on_with_name(&mut self, rest: &[u8]) -> usize
        requires name { MayName self.old.state }
        requires room { self.old.at + length rest.now < 2 ^ 64 }
        ensures within { result ≤ length rest.now }
        ensures after { self.new ≡ after self.old (take result rest.now) }
        ensures tags { tags_from self.old (take result rest.now) ≡ [] }
        ensures at { self.new.at ≡ self.old.at + result }
    {
        let name = self.skip_name(rest);
        name + self.skip_equals_sign(&rest[name..])
    }

    // Reads the bytes of an attribute's name.
    #[inline(always)]
    fn skip_name(&mut self, rest: &[u8]) -> usize
        requires name { MayName self.old.state }
        requires room { self.old.at + length rest.now < 2 ^ 64 }
        ensures within { result ≤ length rest.now }
        ensures after { self.new ≡ after self.old (take result rest.now) }
        ensures tags { tags_from self.old (take result rest.now) ≡ [] }
        ensures at { self.new.at ≡ self.old.at + result }
    {
        let len = name_len(rest);
        if len > 0 {
            self.state = State::AttributeName;
            self.at += len as u64;
        }
        len
    }

    // Reads an equals sign behind a name and the double quote behind it.
    #[inline(always)]
    fn skip_equals_sign(&mut self, rest: &[u8]) -> usize
        requires room { self.old.at + length rest.now < 2 ^ 64 }
        ensures within { result ≤ length rest.now }
        ensures after { self.new ≡ after self.old (take result rest.now) }
        ensures tags { tags_from self.old (take result rest.now) ≡ [] }
        ensures at { self.new.at ≡ self.old.at + result }
    {
        if is_attribute_name(self.state) && begins_quoted(rest) {
            self.state = State::AttributeValueDoubleQuoted;
            self.at += 2;
            2
        } else {
            0
        }
    }

    // Skips bytes at the front that leave the state as it is: how many.
    #[inline(always)]
    fn skip_idle(&mut self, rest: &[u8]) -> usize
        requires room { self.old.at + length rest.now < 2 ^ 64 }
        ensures within { result ≤ length rest.now }
        ensures after { self.new ≡ after self.old (take result rest.now) }
        ensures tags { tags_from self.old (take result rest.now) ≡ [] }
        ensures at { self.new.at ≡ self.old.at + result }
    {
        let Some(stop) = self.state.stop() else {
            return 0;
        };
        let idle = idle_len(stop, rest);
        self.at += idle as u64;
        idle
    }

    // One byte that ends no tag.
    #[inline(always)]
    #[tactic(auto, unfolding(crate::specs::Reading::step, crate::specs::Reading::ended))]
    fn go_on(&mut self, b: u8)
        requires room { self.old.at + 1 < 2 ^ 64 }
        requires inside { ends self.old b ≡ false }
        ensures after { self.new ≡ step self.old b }
        ensures none { ended self.old b ≡ None }
        ensures at { self.new.at ≡ self.old.at + 1 }
    {
        self.advance(b);
    }

    // The tag that a byte ends.
    #[inline(always)]
    #[tactic(auto, unfolding(crate::specs::Reading::step, crate::specs::Reading::ended))]
    fn finish(&mut self, b: u8) -> Tag
        requires room { self.old.at + 1 < 2 ^ 64 }
        requires last { ends self.old b ≡ true }
        ensures after { self.new ≡ step self.old b }
        ensures tag { Some result ≡ ended self.old b }
        ensures end { result.end ≡ self.new.at }
        ensures at { self.new.at ≡ self.old.at + 1 }
    {
        let tag = self.tag();
        self.advance(b);
        self.close();
        tag
    }

    // Whether a byte ends a tag.
    #[inline(always)]
    fn ends(&self, b: u8) -> bool
        ensures { result ≡ ends self.now b }
    {
        b == b'>' && self.state.is_in_tag(self.code == self.text_code)
    }

    // The tag that ends at the next byte.
    #[inline(always)]
    fn tag(&self) -> Tag
        requires { self.now.at + 1 < 2 ^ 64 }
        ensures { result ≡ tag_at self.now }
    {
        Tag {
            start: self.start,
            name_end: self.name_end,
            end: self.at + 1,
            is_end: self.is_end,
            self_closing: self.state.is_self_closing(),
        }
    }

    #[inline(always)]
    fn advance(&mut self, b: u8)
        requires { self.old.at + 1 < 2 ^ 64 }
        ensures now { self.new ≡ advanced self.old b }
        ensures at { self.new.at ≡ self.old.at + 1 }
    {
        let named = self.code == self.text_code;
        let is_script = self.text_code == SCRIPT;
        let next = self.state.next(b, named, is_script, self.foreign);
        let past = self.at + 1;
        self.note(next, b);
        self.state = next;
        self.at = past;
    }

    // A start tag has ended.
    #[inline(always)]
    fn close(&mut self)
        ensures now { self.new ≡ closed self.old }
        ensures at { self.new.at ≡ self.old.at }
    {
        if !self.is_end {
            self.text_code = self.code;
            self.state = text_state(self.code, self.scripting);
        }
    }

    // Notes a byte that leads to a state.
    #[inline(always)]
    #[tactic(auto, unfolding(crate::specs::Reading::noted))]
    fn note(&mut self, next: State, b: u8)
        requires { self.old.at + 1 < 2 ^ 64 }
        ensures { self.new ≡ noted next self.old b }
    {
        match next {
            State::TagOpen => self.open(),
            State::RawTextLessThanSign => self.open(),
            State::ScriptDataEscapedLessThanSign => self.open(),
            State::ScriptDataDoubleEscapedLessThanSign => self.open(),
            State::EndTagOpen => self.is_end = true,
            State::RawTextEndTagOpen => self.is_end = true,
            State::ScriptDataEscapedEndTagOpen => self.is_end = true,
            State::TagName => self.spell(b),
            State::RawTextEndTagName => self.spell(b),
            State::ScriptDataEscapedEndTagName => self.spell(b),
            State::ScriptDataDoubleEscapeStart => self.spell(b),
            State::ScriptDataDoubleEscapeEnd => {
                if b != b'/' {
                    self.spell(b);
                }
            }
            _ => {}
        }
    }

    // A `<`.
    #[inline(always)]
    fn open(&mut self)
        ensures { self.new ≡ opened self.old }
    {
        self.start = self.at;
        self.is_end = false;
        self.code = 0;
    }

    // One more byte of a name.
    #[inline(always)]
    fn spell(&mut self, b: u8)
        requires { self.old.at + 1 < 2 ^ 64 }
        ensures { self.new ≡ spelled self.old b }
    {
        self.code = with_byte(self.code, b);
        self.name_end = self.at + 1;
    }
}

// How many bytes at the front aren't this one.
#[inline(always)]
pub(crate) fn idle_len(stop: u8, rest: &[u8]) -> usize
    ensures within { result ≤ length rest.now }
    ensures lacks { Lacks stop (take result rest.now) }
{
    match memchr(stop, rest) {
        Some(place) => place,
        None => rest.len(),
    }
}
