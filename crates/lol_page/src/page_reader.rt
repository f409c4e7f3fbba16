//! The reader of a page.

ghost use Rattle.std.specs.Prelude.{◌≡◌, ◌↔◌, ◌+◌, ◌<◌, ◌≤◌, ◌^◌, [], true, false, length, take, drop, slice_range, IfNone, IfOk, OnOk, OnErr};
ghost use Rattle.lol_base.specs.LocalNames.{local_name};
ghost use Rattle.lol_tags.specs.Attributes.{attributes_of};
ghost use Rattle.lol_tags.specs.Runs.{with_some};
ghost use Rattle.lol_page.specs.Ambiguity.{first_doubts};
ghost use Rattle.lol_page.specs.Elements.{IsSound, elements_of};
ghost use Rattle.lol_page.specs.Keeping.{IsKept, HoldsTag, page_of};
ghost use Rattle.lol_page.specs.Namespaces.{left_by, left_open, opened_by, namespace_in};
ghost use Rattle.lol_page.specs.Pages.{fresh_page, page_after, page_tags_from, page_tag, behind_tag};
ghost use Rattle.lol_page.specs.Readings.{tag_read, with_text, start_of_name, doubts_after, FirstIsAmbiguous, FirstIsLonger};

use crate::error::PageReadError;
use crate::kept_tags::KeptTags;
use crate::namespaces::{breaks_out, end_breaks_out, has_content, holds_html};
use crate::open_elements::OpenElements;
use crate::settings::PageSettings;
use crate::tree_doubts::{TreeDoubts, note_tag};
use lol_base::{AttributeBuffer, LocalName, Namespace};
use lol_tags::Tag;
use lol_tags::laws::unfinished_tags_are_kept;
use std::alloc::{AllocError, Global};
use std::marker::Model;

/// A tag of a page, by its places.
#[derive(Clone, Copy, Debug, PartialEq, Eq)]
pub struct PlacedTag {
    /// Its places in the stream.
    pub tag: Tag,
    /// The namespace of a start tag's element; none of an end tag.
    pub namespace: Option<Namespace>,
    /// The line of its `<`, counted from 1.
    pub line: u64,
    /// The column of its `<`, in bytes, counted from 1.
    pub column: u64,
}

impl PlacedTag {
    ghost use Rattle.std.specs.Prelude.{◌≡◌, ◌-◌};
    ghost use Rattle.lol_page.specs.Pages.{written_name};

    /// Where the tag's name ends in its own bytes.
    pub fn name_end(&self) -> usize
        ensures { result ≡ self.now.tag.name_end - self.now.tag.start }
    {
        self.tag.name_end.saturating_sub(self.tag.start) as usize
    }

    /// The tag's name as it is written, in its own bytes.
    pub fn name<'t>(&self, text: &'t [u8]) -> &'t [u8]
        ensures { result.now ≡ written_name text.now self.now.tag }
    {
        let end = self.name_end();
        if self.tag.is_end {
            between(text, 2, end)
        } else {
            between(text, 1, end)
        }
    }
}

// The bytes from `start` up to `end`, as far as there are so many.
fn between(text: &[u8], start: usize, end: usize) -> &[u8]
    ensures { result.now ≡ slice_range text.now start end }
{
    front(behind(text, start), end.saturating_sub(start))
}

fn behind(text: &[u8], start: usize) -> &[u8]
    ensures { result.now ≡ drop start text.now }
{
    if start <= text.len() {
        &text[start..]
    } else {
        &[]
    }
}

fn front(text: &[u8], len: usize) -> &[u8]
    ensures { result.now ≡ take len text.now }
{
    if len <= text.len() {
        &text[..len]
    } else {
        text
    }
}

/// How far a chunk was read.
#[derive(Clone, Copy, Debug, PartialEq, Eq)]
pub struct PageRead {
    /// How many bytes of the chunk were read.
    pub taken: usize,
    /// The tag that the last of them ends.
    pub tag: Option<PlacedTag>,
}

/// Reads the tags of a page that comes in chunks, however it is cut, with their namespaces. Of the page it keeps the bytes of the tag that is
/// being read, at most a limit, and the open elements: their names, and some numbers for each.
#[derive(Drop)]
pub struct PageReader {
    tags: KeptTags,
    elements: OpenElements,
    outlines: AttributeBuffer,
    decoded: bool,
    doubts: Option<TreeDoubts>,
    failed: bool,
}

impl Model for PageReader {
    ghost use Rattle.std.specs.Prelude.{◌≡◌, false};
    ghost use Rattle.std.specs.Coded.{codes};
    ghost use Rattle.lol_page.specs.Elements.{IsSound};
    ghost use Rattle.lol_page.specs.Keeping.{IsKept, page_of};
    ghost use Rattle.lol_page.specs.Readings.{Reading};

    ghost Value = { Reading };

    ghost view = { λ r. record {
      page = page_of r.decoded r.tags r.elements;
      text = r.tags.bytes.items;
      limit = r.tags.limit;
      doubts = r.doubts;
      failed = r.failed;
    } };

    ghost invariant = { λ r. r.failed ≡ false → IsKept r.tags × IsSound r.elements };
}

impl PageReader {
    /// A reader at the start of a page. Of its values only the `encoding` of `annotation-xml` decides what is read, and only that is decoded
    /// here, if `decoded` is set.
    pub fn new(alloc: Global, settings: PageSettings) -> Self
        ensures page { result.page ≡ fresh_page settings.scripting settings.decoded }
        ensures limit { result.limit ≡ settings.max_tag_bytes }
        ensures doubts { result.doubts ≡ first_doubts settings.strict settings.scripting }
        ensures fresh { result.failed ≡ false }
    {
        PageReader {
            tags: KeptTags::new(alloc, settings.scripting, settings.max_tag_bytes),
            elements: OpenElements::new(alloc),
            outlines: Vec::new(alloc),
            decoded: settings.decoded,
            doubts: TreeDoubts::first(settings.strict, settings.scripting),
            failed: false,
        }
    }

    /// Whether values are decoded.
    pub fn is_decoded(&self) -> bool
        ensures { result ≡ self.now.page.decoded }
    {
        self.decoded
    }

    /// The bytes of the tag that was read last, from its `<` to its `>`.
    pub fn text(&self) -> &[u8]
        ensures { result.now ≡ self.now.text }
    {
        &self.tags.bytes
    }

    /// Reads up to the next tag and behind its `>`, or to the chunk's end. `text` has the tag's bytes until the next call.
    ///
    /// # Errors
    /// `TagTooLong`: the next tag that ends in this chunk is longer than the limit. `PageTooLong`: the page would be longer than `u64::MAX` bytes
    /// with this chunk. `Ambiguous`: the next tag is ambiguous, and `strict` is set; where memory is refused for that tag too, `Memory` comes in
    /// its place. `Memory`: an allocation failed. After each of them nothing more is read: every later call answers `Failed`.
    #[inline(always)]
    pub fn next(&mut self, chunk: &[u8]) -> Result<PageRead, PageReadError>
        ensures within { IfOk result (λ read. read.taken ≤ length chunk.now) }
        ensures after { IfOk result (λ read. self.new.page ≡ page_after self.old.page (take read.taken chunk.now)) }
        ensures tags { IfOk result (λ read. with_some (tag_read self.new.text read.tag) []
            ≡ page_tags_from self.old.page (take read.taken chunk.now)) }
        ensures whole { IfOk result (λ read. IfNone read.tag (read.taken ≡ length chunk.now)) }
        ensures limit { OnOk result (self.new.limit ≡ self.old.limit) }
        ensures decoded { OnOk result (self.new.page.decoded ≡ self.old.page.decoded) }
        ensures doubts { IfOk result (λ read. self.new.doubts
            ≡ doubts_after self.old.doubts (page_tags_from self.old.page (take read.taken chunk.now))) }
        ensures goes_on { OnOk result (self.new.failed ≡ false) }
        ensures short { OnOk result (FirstIsLonger self.old.limit (page_tags_from self.old.page chunk.now) → ⊥) }
        ensures clear { OnOk result (FirstIsAmbiguous self.old.doubts (page_tags_from self.old.page chunk.now) → ⊥) }
        ensures failed { (result ≡ Err PageReadError.Failed) ↔ (self.old.failed ≡ true) }
        ensures page_too_long { (result ≡ Err PageReadError.PageTooLong)
            ↔ ((self.old.failed ≡ false) × (2 ^ 64 ≤ self.old.page.reader.at + length chunk.now)) }
        ensures tag_too_long { (result ≡ Err PageReadError.TagTooLong)
            ↔ ((self.old.failed ≡ false) × (self.old.page.reader.at + length chunk.now < 2 ^ 64)
            × FirstIsLonger self.old.limit (page_tags_from self.old.page chunk.now)) }
        ensures ambiguous { (result ≡ Err PageReadError.Ambiguous)
            → (self.old.failed ≡ false) × (self.old.page.reader.at + length chunk.now < 2 ^ 64)
            × (FirstIsLonger self.old.limit (page_tags_from self.old.page chunk.now) → ⊥)
            × FirstIsAmbiguous self.old.doubts (page_tags_from self.old.page chunk.now) }
        ensures refused { OnErr result (self.new.failed ≡ true) }
    {
        if self.failed {
            return Err(PageReadError::Failed);
        }
        self.failed = true;
        let read = match self.tags.next(chunk) {
            Ok(read) => read,
            Err(error) => return Err(error),
        };
        let Some(tag) = read.tag else {
            self.failed = false;
            return Ok(PageRead {
                taken: read.taken,
                tag: None,
            });
        };
        let decoded = self.decoded;
        let placed = match take_tag(
            &mut self.tags,
            &mut self.elements,
            &mut self.outlines,
            decoded,
            tag,
        ) {
            Ok(placed) => placed,
            Err(_) => return Err(PageReadError::Memory),
        };
        let name = placed.name(&self.tags.bytes);
        if note_tag(&mut self.doubts, name, placed.tag.is_end) {
            return Err(PageReadError::Ambiguous);
        }
        self.failed = false;
        Ok(PageRead {
            taken: read.taken,
            tag: Some(placed),
        })
    }
}

// Takes the tag whose bytes are kept: opens its element, or closes one, and tells the reader what stands there.
fn take_tag(
    tags: &mut KeptTags,
    elements: &mut OpenElements,
    outlines: &mut AttributeBuffer,
    decoded: bool,
    tag: Tag,
) -> Result<PlacedTag, AllocError>
    requires sound { IsSound elements.old }
    requires kept { IsKept tags.old }
    requires holds { HoldsTag tags.old tag }
    requires room { tags.old.reader.at < 2 ^ 64 }
    ensures sound { OnOk result (IsSound elements.new) }
    ensures kept { OnOk result (IsKept tags.new) }
    ensures page { OnOk result (page_of decoded tags.new elements.new
        ≡ behind_tag (page_of decoded tags.old elements.old) tag) }
    ensures tag { IfOk result (λ placed.
        with_text tags.new.bytes.items placed ≡ page_tag (page_of decoded tags.old elements.old) tag) }
    ensures limit { tags.new.limit ≡ tags.old.limit }
{
    unfinished_tags_are_kept();
    let name_end = (tag.name_end - tag.start) as usize;
    let namespace = if tag.is_end {
        take_end(&tags.bytes[2..name_end], elements);
        None
    } else {
        Some(take_start(
            &tags.bytes,
            name_end,
            tag.self_closing,
            decoded,
            elements,
            outlines,
        )?)
    };
    tags.reader.set_foreign(elements.is_foreign());
    Ok(PlacedTag {
        tag,
        namespace,
        line: tags.from.line_ends + 1,
        column: tags.from.column + 1,
    })
}

// An end tag of a name.
fn take_end(name: &[u8], elements: &mut OpenElements)
    requires sound { IsSound elements.old }
    ensures sound { IsSound elements.new }
    ensures left { elements_of elements.new ≡ left_open (local_name name.now) (elements_of elements.old) }
{
    let name = LocalName::new(name);
    if end_breaks_out(&name) {
        elements.leave_to_html();
    }
    elements.close(&name);
}

// A start tag, whose name ends at a place in its bytes: its namespace.
fn take_start(
    text: &[u8],
    name_end: usize,
    self_closing: bool,
    decoded: bool,
    elements: &mut OpenElements,
    outlines: &mut AttributeBuffer,
) -> Result<Namespace, AllocError>
    requires sound { IsSound elements.old }
    requires name { 1 ≤ name_end }
    requires inside { name_end ≤ length text.now }
    ensures sound { OnOk result (IsSound elements.new) }
    ensures namespace { IfOk result (λ ns. ns ≡ namespace_in
        (left_by (local_name (slice_range text.now 1 name_end)) (attributes_of text.now name_end)
        (elements_of elements.old))
        (local_name (slice_range text.now 1 name_end))) }
    ensures elements { IfOk result (λ ns. elements_of elements.new ≡ opened_by
        (start_of_name decoded text.now name_end ns self_closing)
        (left_by (local_name (slice_range text.now 1 name_end)) (attributes_of text.now name_end)
        (elements_of elements.old))) }
{
    leave_by(&text[1..name_end], text, name_end, elements, outlines)?;
    let name = LocalName::new(&text[1..name_end]);
    let namespace = elements.namespace_of(&name);
    if has_content(namespace, &name, self_closing) {
        let holds = holds_html(namespace, &name, text, name_end, decoded, outlines)?;
        let name = name.into_owned(elements.alloc)?;
        elements.open(name, namespace, holds)?;
    }
    Ok(namespace)
}

// Leaves the elements that a start tag breaks out of.
fn leave_by(
    name: &[u8],
    text: &[u8],
    name_end: usize,
    elements: &mut OpenElements,
    outlines: &mut AttributeBuffer,
) -> Result<(), AllocError>
    requires sound { IsSound elements.old }
    ensures sound { OnOk result (IsSound elements.new) }
    ensures left { OnOk result (elements_of elements.new
        ≡ left_by (local_name name.now) (attributes_of text.now name_end) (elements_of elements.old)) }
{
    if !elements.holds_html() && breaks_out(name, text, name_end, outlines)? {
        elements.leave_to_html();
    }
    Ok(())
}
