//! Tags with their bytes: those of the tag that is being read are kept from chunk to chunk.

ghost use Rattle.std.specs.Prelude.{◌≡◌, ◌↔◌, ◌+◌, ◌-◌, ◌++◌, ◌<◌, ◌≤◌, ◌^◌, [], true, length, take, drop, IsTrue, IfNone, IfSome, IfOk, OnOk};
ghost use Rattle.lol_tags.specs.Reading.{fresh, after, tags_from};
ghost use Rattle.lol_tags.specs.Runs.{with_some};
ghost use Rattle.lol_page.specs.Positions.{moved_over, origin};
ghost use Rattle.lol_page.specs.Keeping.{IsKept, HoldsTag, IsLong, start_of};

use crate::error::PageReadError;
use crate::past::{Part, Past};
use crate::position::Position;
use lol_tags::laws::{unfinished_tags_are_kept, unfinished_tags_go_on};
use lol_tags::{Read, Tag, TagReader};
use std::alloc::{AllocError, Global};

// A reader of tags; the bytes of the tag that it reads, or else of the one before, as far as they are within the limit; where they begin; and
// the place that it has read to.
#[derive(Drop)]
pub(crate) struct KeptTags {
    pub(crate) reader: TagReader,
    pub(crate) bytes: Vec<u8>,
    pub(crate) from: Position,
    pub(crate) at: Position,
    pub(crate) limit: u64,
    pub(crate) past: Past,
}

impl KeptTags {
    pub(crate) fn new(alloc: Global, scripting: bool, limit: u64) -> Self
        ensures kept { IsKept result }
        ensures reader { result.reader ≡ fresh scripting }
        ensures read { result.past.read ≡ [] }
        ensures limit { result.limit ≡ limit }
    {
        unfinished_tags_are_kept();
        KeptTags {
            reader: TagReader::new(scripting),
            bytes: Vec::new(alloc),
            from: Position::origin(),
            at: Position::origin(),
            limit,
            past: Past::new(&Part::Bytes(&[])),
        }
    }

    // Reads up to the next tag and behind its `>`, or to the chunk's end.
    pub(crate) fn next(&mut self, chunk: &[u8]) -> Result<Read, PageReadError>
        requires { IsKept self.old }
        ensures within { IfOk result (λ read. read.taken ≤ length chunk.now) }
        ensures after { IfOk result (λ read. self.new.reader ≡ after self.old.reader (take read.taken chunk.now)) }
        ensures tags { IfOk result (λ read.
            with_some read.tag [] ≡ tags_from self.old.reader (take read.taken chunk.now)) }
        ensures whole { IfOk result (λ read. IfNone read.tag (read.taken ≡ length chunk.now)) }
        ensures read { IfOk result (λ read. self.new.past.read ≡ self.old.past.read ++ take read.taken chunk.now) }
        ensures kept { OnOk result (IsKept self.new) }
        ensures holds { IfOk result (λ read. IfSome read.tag (HoldsTag self.new)) }
        ensures short { OnOk result (IsLong self.old.limit (tags_from self.old.reader chunk.now) → ⊥) }
        ensures limit { OnOk result (self.new.limit ≡ self.old.limit) }
        ensures room { OnOk result (self.new.reader.at < 2 ^ 64) }
        ensures too_long { (result ≡ Err PageReadError.PageTooLong) ↔ (2 ^ 64 ≤ self.old.reader.at + length chunk.now) }
        ensures tag_too_long { (result ≡ Err PageReadError.TagTooLong)
            → (self.old.reader.at + length chunk.now < 2 ^ 64)
            × IsLong self.old.limit (tags_from self.old.reader chunk.now) }
        ensures memory { (result ≡ Err PageReadError.Memory)
            → (self.old.reader.at + length chunk.now < 2 ^ 64)
            × (IsLong self.old.limit (tags_from self.old.reader chunk.now) → ⊥) }
        ensures ambiguous { (result ≡ Err PageReadError.Ambiguous) → ⊥ }
        ensures failed { (result ≡ Err PageReadError.Failed) → ⊥ }
    {
        unfinished_tags_are_kept();
        unfinished_tags_go_on();
        let begun = self.reader.place();
        let read = match self.reader.next(chunk) {
            Ok(read) => read,
            Err(_) => return Err(PageReadError::PageTooLong),
        };
        let start = self.start(read.tag);
        let fits = self.reader.place() - start <= self.limit;
        if is_long(read.tag, self.limit) {
            return Err(PageReadError::TagTooLong);
        }
        match self.keep(&chunk[..read.taken], begun, start, fits) {
            Ok(()) => Ok(read),
            Err(_) => Err(PageReadError::Memory),
        }
    }

    // The place of the `<` of a tag that was read, or of one that isn't whole, or else the place that was read to.
    fn start(&self, tag: Option<Tag>) -> u64
        ensures { result ≡ start_of self.now.reader tag }
    {
        match tag {
            Some(tag) => tag.start,
            None => self.reader.unfinished().unwrap_or(self.reader.place()),
        }
    }

    // Keeps the bytes from `start` on, and no others, of those before `begun` and the part that comes there, if they fit.
    fn keep(&mut self, part: &[u8], begun: u64, start: u64, fits: bool) -> Result<(), AllocError>
        requires inside { start - begun ≤ length part.now }
        requires lines { self.old.at.line_ends + length part.now < 2 ^ 64 }
        requires columns { self.old.at.column + length part.now < 2 ^ 64 }
        ensures read { OnOk result (self.new.past.read ≡ self.old.past.read ++ part.now) }
        ensures at { OnOk result (self.new.at ≡ moved_over self.old.at part.now) }
        ensures goes_on { OnOk result (start < begun → (self.new.from ≡ self.old.from)
            × (fits ≡ true → self.new.bytes.items ≡ self.old.bytes.items ++ part.now)) }
        ensures begins { OnOk result (begun ≤ start
            → (self.new.from ≡ moved_over self.old.at (take (start - begun) part.now))
            × (fits ≡ true → self.new.bytes.items ≡ drop (start - begun) part.now)) }
        ensures reader { self.new.reader ≡ self.old.reader }
        ensures limit { self.new.limit ≡ self.old.limit }
    {
        self.past = self.past.then(&Part::Bytes(part));
        if start < begun {
            self.at = self.at.over(part);
            add(&mut self.bytes, part, fits)
        } else {
            self.begin(part, (start - begun) as usize, fits)
        }
    }

    // Keeps the bytes of a part from a place on, and no others.
    fn begin(&mut self, part: &[u8], before: usize, fits: bool) -> Result<(), AllocError>
        requires inside { before ≤ length part.now }
        requires lines { self.old.at.line_ends + length part.now < 2 ^ 64 }
        requires columns { self.old.at.column + length part.now < 2 ^ 64 }
        ensures at { self.new.at ≡ moved_over self.old.at part.now }
        ensures from { self.new.from ≡ moved_over self.old.at (take before part.now) }
        ensures bytes { OnOk result (fits ≡ true → self.new.bytes.items ≡ drop before part.now) }
        ensures same { (self.new.reader ≡ self.old.reader) × (self.new.limit ≡ self.old.limit)
            × (self.new.past ≡ self.old.past) }
    {
        self.from = self.at.over(&part[..before]);
        self.at = self.from.over(&part[before..]);
        self.bytes.clear();
        add(&mut self.bytes, &part[before..], fits)
    }
}

// Whether a tag is longer than the limit.
fn is_long(tag: Option<Tag>, limit: u64) -> bool
    requires { IfSome tag (λ tag. tag.start ≤ tag.end) }
    ensures { IsTrue result ↔ IsLong limit (with_some tag []) }
{
    match tag {
        Some(tag) => tag.end - tag.start > limit,
        None => false,
    }
}

// Adds bytes, if they fit.
fn add(bytes: &mut Vec<u8>, more: &[u8], fits: bool) -> Result<(), AllocError>
    ensures { OnOk result (fits ≡ true → bytes.new.items ≡ bytes.old.items ++ more.now) }
{
    if fits {
        bytes.extend_from_slice(more)?;
    }
    Ok(())
}
