//! The tags of a script, each answered as its line is read.

ghost use Rattle.std.specs.Prelude.{◌≡◌, ◌∷◌, ◌++◌, [], List, ℕ, IfErr, IfOk, IfSome, IsOk, IsSome, OnOk, None, Ok, false, true};
ghost use Rattle.lol_instructions.specs.Tries.{attributes_counted, names_counted};
ghost use Rattle.lol_matcher.specs.Answering.{with_ended};
ghost use Rattle.lol_program.specs.Asts.{is_with_rows};
ghost use Rattle.lol_machine.specs.Events.{Start, End};
ghost use Rattle.lol_machine.specs.Refusals.{Cause};
ghost use Rattle.lol_script.specs.Answering.{AnswersScript, ForAnswers, HasTags, IsCauseOf, IsNewMatcher, IsStarted, IsStopped, IsTagIfFirst, numbers_closed, told_tag};
ghost use Rattle.lol_script.specs.AnswerTexts.{IsListing, tries_shown};
ghost use Rattle.lol_script.specs.Explaining.{Explains, IsReasoned};
ghost use Rattle.lol_script.specs.Lines.{AreOutlinesOf, start_tag_of};
ghost use Rattle.lol_script.specs.Output.{lines_of, tries_field};
ghost use Rattle.lol_script.specs.Readings.{ForReading, Stops};
ghost use Rattle.lol_script.specs.Scripts as scripts;
ghost use Rattle.lol_script.specs.Scripts.{output_of, selectors_in, shown_cause, with_bytes, with_event};
ghost use Rattle.lol_script.specs.SelectLines.{KeepsLines};

use crate::device::RunFault;
use crate::explained::Explained;
use crate::lines::{Line, StartLine, after_kind, end_of, other_line, start_of};
use crate::output::{Written, push_line, push_started};
use crate::program::Status;
use crate::select_lines::SelectLines;
use crate::settings::{Settings, Stop, malformed, with_rows_from};
use crate::tags::handed_over;
use lol_base::AttributeBuffer;
use lol_machine::machine_laws::documents_are_ordered;
use lol_matcher::laws::{calls_answer_alike, items_answer_as_texts, told_is_explained_alike};
use lol_matcher::{Matcher, MatcherError, OpenElement, Started, Tries};
use lol_program::Ast;
use std::alloc::{AllocError, Global};

/// A matcher over the tags of a script, and what is written for those that were answered.
#[derive(Drop)]
pub struct ScriptRun {
    alloc: Global,
    matcher: Matcher,
    shows_tries: bool,
    explained: Option<Explained>,
    written: Written,
    /// The attributes of a tag's line.
    outlines: AttributeBuffer,
}

/// What became of a start tag.
#[derive(Clone, Copy)]
enum Outcome {
    /// Its attributes were asked for, and aren't handed over.
    Dropped,
    /// It was reported: whether its attributes were asked for.
    Reported { asked: bool },
}

impl ScriptRun {
    /// A run that has answered nothing.
    pub fn new(alloc: Global, settings: Settings) -> Result<Self, AllocError>
        ensures { IfOk result (λ run. ForReading settings (λ s. AnswersScript run s)) }
    {
        calls_answer_alike();
        told_is_explained_alike();
        items_answer_as_texts();
        let Settings {
            limit,
            esi,
            shows_tries,
            explains,
            rows_from,
            ast,
            selects,
        } = settings;
        let ast = with_rows_from(ast, rows_from);
        let (matcher, explained) = new_matcher(alloc, ast, &selects, explains, limit, esi)?;
        Ok(ScriptRun {
            alloc,
            matcher,
            shows_tries,
            explained,
            written: Written::new(alloc),
            outlines: AttributeBuffer::new(alloc),
        })
    }

    /// Takes a line; the first is that of a tag.
    pub fn take_line(&mut self, number: u128, line: &[u8]) -> Result<(), Stop>
        ensures taken { OnOk result (ForAnswers self.old (λ s. IsTagIfFirst line.now s → (t : scripts.Script)
            × AnswersScript self.new t × (with_bytes number s line.now ≡ Ok t) × HasTags t)) }
        ensures stop { IfErr result (λ stop. ForAnswers self.old (λ s. IsTagIfFirst line.now s
            → Stops stop (with_bytes number s line.now))) }
    {
        if line.is_empty() {
            return Ok(());
        }
        if let Some(rest) = after_kind(line, b"start") {
            return match start_of(rest, true, &mut self.outlines) {
                Ok(Some(start)) => in_memory(self.take_start(&start)),
                Ok(None) => Err(malformed(number)),
                Err(_) => Err(Stop::Fault(RunFault::Memory)),
            };
        }
        if let Some(rest) = after_kind(line, b"end") {
            return match end_of(rest) {
                Some(name) => in_memory(self.take_end(name)),
                None => Err(malformed(number)),
            };
        }
        match other_line(line, &mut self.outlines) {
            Ok(Some(Line::Start(start))) => in_memory(self.take_start(&start)),
            Ok(Some(Line::End { name })) => in_memory(self.take_end(name)),
            Ok(None) | Ok(Some(Line::Setting(_))) => Err(malformed(number)),
            Err(_) => Err(Stop::Fault(RunFault::Memory)),
        }
    }

    /// Answers a start tag, whose attributes were cut, unless a tag was refused.
    fn take_start(&mut self, line: &StartLine<'_>) -> Result<(), AllocError>
        requires { AreOutlinesOf line.now.attributes self.old.outlines.items }
        ensures { OnOk result (ForAnswers self.old (λ s.
            AnswersScript self.new (with_event s (Start (start_tag_of line.now))))) }
    {
        if self.matcher.has_failed() {
            return Ok(());
        }
        if self.matcher.tags_told() == usize::MAX {
            return Err(AllocError);
        }
        items_answer_as_texts();
        match answer_start(&mut self.matcher, line, &self.outlines) {
            Ok(Outcome::Dropped) => push_line(&mut self.written.text, b"dropped"),
            Ok(Outcome::Reported { asked }) => self.push_answer(asked),
            Err(error) => self.refuse(error),
        }
    }

    /// Adds the line of a start tag that was reported, and those of its reasons, if they are shown.
    #[inline(always)]
    fn push_answer(&mut self, asked: bool) -> Result<(), AllocError>
        ensures kept { self.new ≡ record self.old { written = self.new.written; explained = self.new.explained } }
        ensures text { OnOk result (IsReasoned self.old.matcher self.old.shows_tries asked
            self.old.written.text.items self.new.written.text.items self.old.explained self.new.explained) }
    {
        let tries = self.shown_tries();
        match &mut self.explained {
            None => push_started(&mut self.written.text, self.matcher.matches(), asked, tries),
            Some(explained) => {
                explained.push_started(
                    self.alloc,
                    &mut self.written.text,
                    &self.matcher,
                    asked,
                    tries,
                )
            }
        }
    }

    /// What was tried for the last start tag, if tries are shown.
    #[inline(always)]
    fn shown_tries(&self) -> Option<Tries>
        ensures { tries_shown result ≡ tries_field self.now.shows_tries
            (names_counted self.now.matcher.tries) (attributes_counted self.now.matcher.tries) }
    {
        if self.shows_tries {
            Some(self.matcher.machine().tries())
        } else {
            None
        }
    }

    /// Says why a start tag was refused.
    fn refuse(&mut self, error: MatcherError) -> Result<(), AllocError>
        ensures kept { self.new ≡ record self.old { written = self.new.written } }
        ensures text { OnOk result ((cause : Cause) × IsCauseOf error cause
            × (self.new.written.text.items ≡ self.old.written.text.items ++ lines_of (shown_cause cause ∷ []))) }
    {
        match error {
            MatcherError::MemoryLimitExceeded => push_line(
                &mut self.written.text,
                b"refused limit",
            ),
            MatcherError::CounterFull => push_line(&mut self.written.text, b"refused counter"),
            MatcherError::Memory
            | MatcherError::Failed
            | MatcherError::NotAsked
            | MatcherError::OutsideInput => Err(AllocError),
        }
    }

    /// Answers an end tag, unless a tag was refused.
    fn take_end(&mut self, name: &[u8]) -> Result<(), AllocError>
        ensures { OnOk result (ForAnswers self.old (λ s. AnswersScript self.new (with_event s (End name.now)))) }
    {
        if self.matcher.has_failed() {
            return Ok(());
        }
        if self.matcher.tags_told() == usize::MAX {
            return Err(AllocError);
        }
        items_answer_as_texts();
        documents_are_ordered();
        self.written.text.extend_from_slice(b"end\t")?;
        self.written.listed = Ok(false);
        close(&mut self.matcher, name, &mut self.written);
        self.written.end_list()
    }

    /// What is written, and how the run ends.
    pub fn finish(self) -> (Vec<u8>, Status)
        ensures { ForAnswers self (λ s. output_of (Ok s)
            ≡ record { text = result.0.items; status = result.1 }) }
    {
        let status = if self.matcher.has_failed() {
            Status::Refused
        } else {
            Status::Good
        };
        (self.written.text, status)
    }
}

/// What became of a line, unless there was no memory for its answer.
#[inline(always)]
fn in_memory(taken: Result<(), AllocError>) -> Result<(), Stop>
    ensures taken { OnOk result (IsOk taken) }
    ensures refused { IfErr result (λ stop. stop ≡ Stop.Fault RunFault.Memory) }
{
    match taken {
        Ok(()) => Ok(()),
        Err(_) => Err(Stop::Fault(RunFault::Memory)),
    }
}

fn matcher_of(alloc: Global, ast: Ast, limit: u64, esi: bool) -> Result<Matcher, AllocError>
    ensures { IfOk result (IsNewMatcher ast limit esi) }
{
    let mut settings = Matcher::builder(alloc);
    settings.ast = ast;
    settings.max_memory = limit as usize;
    settings.enable_esi_tags = esi;
    settings.build()
}

/// A matcher over selectors or, if reasons are shown, over the items of those of these lines, with rows or without as the tree is, and what
/// explains its reports.
fn new_matcher(
    alloc: Global,
    ast: Ast,
    selects: &SelectLines,
    explains: bool,
    limit: u64,
    esi: bool,
) -> Result<(Matcher, Option<Explained>), AllocError>
    ensures plain { explains ≡ false → IfOk result (λ made.
        (made.1 ≡ None) × IsNewMatcher ast limit esi made.0) }
    ensures explained { explains ≡ true → IfOk result (λ made. IfSome made.1 (λ explained.
        (s : scripts.Script) → KeepsLines selects.now s.selects → is_with_rows ast ≡ (selectors_in s).by_keys
        → Explains explained s made.0.told.ast × (is_with_rows made.0.told.ast ≡ (selectors_in s).by_keys)
        × IsNewMatcher made.0.told.ast limit esi made.0)) }
    ensures explains { explains ≡ true → IfOk result (λ made. IsSome made.1) }
{
    if !explains {
        return Ok((matcher_of(alloc, ast, limit, esi)?, None));
    }
    let numbering = selects.number_items(alloc, ast.has_rows())?;
    let matcher = matcher_of(alloc, numbering.ast, limit, esi)?;
    let explained = Explained::new(alloc, selects, numbering.explainer, &matcher)?;
    Ok((matcher, Some(explained)))
}

/// Tells a matcher of a start tag, whose attributes are handed over if its line says so.
#[inline(always)]
fn answer_start(
    matcher: &mut Matcher,
    line: &StartLine<'_>,
    outlines: &AttributeBuffer,
) -> Result<Outcome, MatcherError>
    requires outlines { AreOutlinesOf line.now.attributes outlines.now.items }
    requires going { matcher.old.failed ≡ false }
    ensures started { IfOk result (λ outcome.
        IsStarted outcome (told_tag (start_tag_of line.now)) matcher.old matcher.new) }
    ensures stopped { IfErr result (λ error. (cause : Cause) → IsCauseOf error cause
        → IsStopped cause (told_tag (start_tag_of line.now)) matcher.old matcher.new) }
{
    if line.finish {
        return match matcher.start_with(line.name, line.ns, handed_over(line, outlines)) {
            Ok(asked) => Ok(Outcome::Reported { asked }),
            Err(error) => Err(error),
        };
    }
    match matcher.start(line.name, line.ns) {
        Ok(Started::Reported) => Ok(Outcome::Reported { asked: false }),
        Ok(Started::NeedsAttributes) => Ok(Outcome::Dropped),
        Err(error) => Err(error),
    }
}

/// Tells a matcher of an end tag, and lists the numbers of the elements that it closes.
fn close(matcher: &mut Matcher, name: &[u8], list: &mut Written)
    ensures ended { matcher.new ≡ with_ended matcher.old name.now }
    ensures listed { (before : List ℕ) → IsListing before [] list.old
        → IsListing before (numbers_closed matcher.old.open_elements name.now) list.new }
{
    let mut handler = |element: OpenElement<()>|
        ensures { (before numbers : List ℕ) → IsListing before numbers list.entry.now
            → IsListing before (numbers ++ element.number ∷ []) list.exit.now }
    {
        list.push(element.number);
    };
    matcher.end_with(name, &mut handler);
}
