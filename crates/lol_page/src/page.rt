//! A page, told to a matcher tag by tag.

ghost use Rattle.std.specs.Prelude.{◌≡◌, ◌↔◌, ◌-◌, ◌≤◌, ◌<◌, [], false, true, Err, if◌then◌else◌, length, map, take, IfErr, IfNone, IfOk, IfSome, OnOk, OnErr};
ghost use Rattle.lol_stack.specs.Calls.{IsCalledAtEach};
ghost use Rattle.lol_tags.specs.Runs.{with_some};
ghost use Rattle.lol_page.specs.Ambiguity.{first_doubts};
ghost use Rattle.lol_page.specs.Pages.{fresh_page, page_tags_from, events_of};
ghost use Rattle.lol_page.specs.Readings.{tag_read, with_text};
ghost use Rattle.lol_page.specs.PageMatches.{HearsOn, ReadsOn, answers_told, handed_out, handed_out_by, matched_of, matches_told, match_read};
ghost use Rattle.lol_page.specs.PageRefusals.{Accepts, FitsTag, IsRefused, Refuses, RefusesTag, StaysAsTold};
ghost use Rattle.lol_matcher.specs.Answering.{last_value, with_value};
ghost use Rattle.lol_matcher.specs.Last.{last_opens};
ghost use Rattle.lol_matcher.specs.Told.{elements_of};
ghost use Rattle.lol_machine.specs.Views.{match_of, selectors};

use crate::error::PageError;
use crate::page_reader::{PageRead, PageReader, PlacedTag};
use crate::settings::PageSettings;
use crate::tag_attributes::TagAttributes;
use lol_machine::vm_laws::standing_counts;
use lol_matcher::{MatchInfo, Matcher, OpenElement};
use std::alloc::Global;

/// A page whose tags are told to a matcher. Each open element may have a value of the caller's own, of the type `T`.
#[derive(Drop)]
pub struct Page<T = ()> {
    reader: PageReader,
    matcher: Matcher<T>,
    attributes: TagAttributes,
    failed: bool,
}

impl<T: Drop> Page<T> {
    /// A page at its start.
    pub fn new(alloc: Global, matcher: Matcher<T>, settings: PageSettings) -> Self
        ensures page { result.reader.page ≡ fresh_page settings.scripting settings.decoded }
        ensures matcher { result.matcher ≡ matcher }
        ensures limit { result.reader.limit ≡ settings.max_tag_bytes }
        ensures doubts { result.reader.doubts ≡ first_doubts settings.strict settings.scripting }
        ensures fresh { (result.reader.failed ≡ false) × (result.failed ≡ false) }
    {
        Page {
            reader: PageReader::new(alloc, settings),
            matcher,
            attributes: TagAttributes::new(alloc),
            failed: false,
        }
    }

    /// What the tag that was read last is reported under, ascending by id.
    pub fn matches(&self) -> &[MatchInfo]
        ensures { result.now ≡ self.now.matcher.matched }
    {
        self.matcher.matches()
    }

    /// The bytes of the tag that was read last.
    pub fn text(&self) -> &[u8]
        ensures { result.now ≡ self.now.reader.text }
    {
        self.reader.text()
    }

    /// Whether the tag that was read last opened its element: a start tag whose element has content.
    pub fn has_opened(&self) -> bool
        ensures opened { result ≡ self.now.matcher.opened }
        ensures answered { self.now.matcher.failed ≡ false
            → result ≡ last_opens (selectors self.now.matcher.told.ast) self.now.matcher.told }
    {
        self.matcher.has_opened()
    }

    /// How many elements are open around that of the tag that was read last; behind an end tag, how many are open.
    pub fn depth(&self) -> usize
        ensures kept { result ≡ length self.now.matcher.kept - (if self.now.matcher.opened then 1 else 0) }
        ensures told { self.now.matcher.failed ≡ false → result
            ≡ length (elements_of self.now.matcher.told) - (if self.now.matcher.opened then 1 else 0) }
    {
        standing_counts::<OpenElement<T>>();
        let open = self.matcher.machine().open_elements();
        if self.matcher.has_opened() {
            open.saturating_sub(1)
        } else {
            open
        }
    }

    /// Changes the value of the innermost open element, and answers the one that it had: none until one was given. Where no element is
    /// open, it answers the new one.
    pub fn replace_value(&mut self, value: Option<T>) -> Option<T>
        ensures before { result ≡ last_value value self.old.matcher.kept }
        ensures changed { self.new.matcher ≡ record self.old.matcher { kept = with_value value self.old.matcher.kept } }
        ensures reader { self.new.reader ≡ self.old.reader }
        ensures failed { self.new.failed ≡ self.old.failed }
    {
        self.matcher.replace_value(value)
    }

    /// The page ends: its matcher, which has the elements that are still open. A tag that isn't whole is none.
    pub fn into_matcher(self) -> Matcher<T>
        ensures { result ≡ self.matcher }
    {
        let Page {
            reader: _,
            matcher,
            attributes: _,
            failed: _,
        } = self;
        matcher
    }

    /// Reads up to the next start tag that is reported and behind its `>`, or to the chunk's end. The answer has no other tag.
    ///
    /// # Errors
    /// As those of `next_tag`, at the first tag that is refused: those before it are told, and none of them is reported.
    pub fn next_match(&mut self, chunk: &[u8]) -> Result<PageRead, PageError>
        ensures within { IfOk result (λ read. read.taken ≤ length chunk.now) }
        ensures read { IfOk result (λ read. ReadsOn self.old self.new (take read.taken chunk.now)) }
        ensures found { IfOk result (λ read.
            with_some (match_read self.new.reader.text self.new.matcher.matched read.tag) []
            ≡ matches_told self.old.reader.page.decoded self.old.matcher.told
            (page_tags_from self.old.reader.page (take read.taken chunk.now))) }
        ensures whole { IfOk result (λ read. IfNone read.tag (read.taken ≡ length chunk.now)) }
        ensures goes_on { OnOk result (self.new.failed ≡ false) }
        ensures failed { (result ≡ Err PageError.Failed) ↔ (self.old.failed ≡ true) }
        ensures refused { IfErr result (λ error. self.old.failed ≡ false
            → IsRefused error self.old self.new chunk.now) }
        ensures stuck { OnErr result (self.new.failed ≡ true) }
    {
        if self.failed {
            return Err(PageError::Failed);
        }
        let mut i = 0;
        while i < chunk.len() {
            let read = self.step(&chunk[i..])?;
            i += read.taken;
            if read.tag.is_some() {
                return Ok(PageRead {
                    taken: i,
                    tag: read.tag,
                });
            }
        }
        Ok(PageRead {
            taken: i,
            tag: None,
        })
    }

    // Reads up to the next tag, which is answered if it is reported.
    fn step(&mut self, rest: &[u8]) -> Result<PageRead, PageError>
        ensures moved { IfOk result (λ read. 0 < length rest.now → 0 < read.taken) }
        ensures within { IfOk result (λ read. read.taken ≤ length rest.now) }
        ensures read { IfOk result (λ read. ReadsOn self.old self.new (take read.taken rest.now)) }
        ensures found { IfOk result (λ read.
            with_some (match_read self.new.reader.text self.new.matcher.matched read.tag) []
            ≡ matches_told self.old.reader.page.decoded self.old.matcher.told
            (page_tags_from self.old.reader.page (take read.taken rest.now))) }
        ensures goes_on { OnOk result (self.new.failed ≡ false) }
        ensures failed { result ≡ Err PageError.Failed → self.old.failed ≡ true }
        ensures refused { IfErr result (λ error. self.old.failed ≡ false → Refuses error self.old rest.now) }
        ensures stuck { OnErr result (self.new.failed ≡ true) }
        ensures untold { OnErr result (StaysAsTold self.old.matcher self.new.matcher) }
    {
        let read = self.next_tag(rest, &mut |_element: OpenElement<T>| {})?;
        if self.matcher.matches().is_empty() {
            Ok(PageRead {
                taken: read.taken,
                tag: None,
            })
        } else {
            Ok(read)
        }
    }

    /// Reads up to the next tag and behind its `>`, or to the chunk's end, and tells the matcher of it. If it is an end tag, the handler is
    /// called with what was kept of each element that it closes, the outermost first.
    ///
    /// # Errors
    /// `Read`: the page was refused. `Matcher`: the next tag is a start tag that the matcher refuses. `Memory`: it is a start tag, and there is no
    /// memory to list its attributes or to decode them. After each of them nothing more is read: every later call returns `Failed`.
    pub fn next_tag<F: FnMut(OpenElement<T>)>(
        &mut self,
        chunk: &[u8],
        handler: &mut F,
    ) -> Result<PageRead, PageError>
        requires { F.IsAlwaysCallable handler.old }
        ensures again { F.IsAlwaysCallable handler.new }
        ensures within { IfOk result (λ read. read.taken ≤ length chunk.now) }
        ensures read { IfOk result (λ read. ReadsOn self.old self.new (take read.taken chunk.now)) }
        ensures tag { IfOk result (λ read. with_some (tag_read self.new.reader.text read.tag) []
            ≡ page_tags_from self.old.reader.page (take read.taken chunk.now)) }
        ensures matched { IfOk result (λ read. IfSome read.tag (λ placed. map match_of self.new.matcher.matched
            ≡ matched_of (answers_told self.old.matcher.told
            (events_of self.old.reader.page.decoded (with_text self.new.reader.text placed))))) }
        ensures closed { IfOk result (λ read. IsCalledAtEach F.step handler.old
            (handed_out self.old.matcher (tag_read self.new.reader.text read.tag)) handler.new) }
        ensures whole { IfOk result (λ read. IfNone read.tag (read.taken ≡ length chunk.now)) }
        ensures goes_on { OnOk result (self.new.failed ≡ false) }
        ensures failed { (result ≡ Err PageError.Failed) ↔ (self.old.failed ≡ true) }
        ensures accepted { OnOk result (Accepts self.old chunk.now) }
        ensures refused { IfErr result (λ error. self.old.failed ≡ false → Refuses error self.old chunk.now) }
        ensures stuck { OnErr result (self.new.failed ≡ true) }
        ensures untold { OnErr result (StaysAsTold self.old.matcher self.new.matcher) }
        ensures unasked { result ≡ Err PageError.Memory → self.new.matcher ≡ self.old.matcher }
        ensures unclosed { OnErr result (handler.new ≡ handler.old) }
    {
        if self.failed {
            return Err(PageError::Failed);
        }
        self.failed = true;
        let read = match self.reader.next(chunk) {
            Ok(read) => read,
            Err(error) => return Err(PageError::Read(error)),
        };
        if let Some(placed) = &read.tag {
            self.tell(placed, handler)?;
        }
        self.failed = false;
        Ok(read)
    }

    // Tells the matcher of a tag.
    fn tell<F: FnMut(OpenElement<T>)>(
        &mut self,
        placed: &PlacedTag,
        handler: &mut F,
    ) -> Result<(), PageError>
        requires { F.IsAlwaysCallable handler.old }
        ensures again { F.IsAlwaysCallable handler.new }
        ensures told { OnOk result (HearsOn self.old.matcher.told self.new.matcher.told
            (events_of self.old.reader.page.decoded (with_text self.old.reader.text placed.now))) }
        ensures matched { OnOk result (map match_of self.new.matcher.matched
            ≡ matched_of (answers_told self.old.matcher.told
            (events_of self.old.reader.page.decoded (with_text self.old.reader.text placed.now)))) }
        ensures closed { OnOk result (IsCalledAtEach F.step handler.old
            (handed_out_by self.old.matcher self.old.reader.text placed.now.tag placed.now.namespace) handler.new) }
        ensures matcher_failed { OnOk result (self.new.matcher.failed ≡ self.old.matcher.failed) }
        ensures max_memory { OnOk result (self.new.matcher.max_memory ≡ self.old.matcher.max_memory) }
        ensures element_bytes { OnOk result (self.new.matcher.element_bytes ≡ self.old.matcher.element_bytes) }
        ensures reader { self.new.reader ≡ self.old.reader }
        ensures failed { self.new.failed ≡ self.old.failed }
        ensures fits { OnOk result
            (FitsTag self.old.reader.page.decoded self.old.matcher self.old.reader.text
            placed.now.tag placed.now.namespace) }
        ensures refused { IfErr result (λ error.
            RefusesTag self.old.reader.page.decoded error self.old.matcher self.old.reader.text
            placed.now.tag placed.now.namespace) }
        ensures untold { OnErr result (StaysAsTold self.old.matcher self.new.matcher) }
        ensures unasked { result ≡ Err PageError.Memory → self.new.matcher ≡ self.old.matcher }
        ensures unclosed { OnErr result (handler.new ≡ handler.old) }
    {
        let text = self.reader.text();
        let name = placed.name(text);
        let Some(namespace) = placed.namespace else {
            self.matcher.end_with(name, handler);
            return Ok(());
        };
        let decoded = self.reader.is_decoded();
        let Ok(()) = self.attributes.read(text, placed.name_end(), decoded) else {
            return Err(PageError::Memory);
        };
        let aux_info = self.attributes.aux_info(text, placed.tag.self_closing);
        match self.matcher.start_with(name, namespace, aux_info) {
            Ok(_asked) => Ok(()),
            Err(error) => Err(PageError::Matcher(error)),
        }
    }
}
