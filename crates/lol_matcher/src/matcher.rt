//! The matcher.

use crate::builder::MatcherBuilder;
use crate::error::MatcherError;
use crate::explaining::{item_numbers, list_ids, numbers_around};
use crate::handed::hand_tag;
use crate::laws::{item_laws, run_laws};
use crate::open_element::{OpenElement, OpenElements};
use crate::past::{Note, Past};
use crate::tags::{Answered, drop_request, end_tag, finish_tag, replace_value, start_tag};
use lol_base::{AuxStartTagInfo, Namespace};
use lol_machine::{AuxStartTagInfoRequest, SelectorMatchingVm};
use lol_memory::{MatchId, MatchInfo, SharedMemoryLimiter};
use lol_program::Ast;
use lol_reasons::{Explainer, Reason};
use std::alloc::{AllocError, Global};
use std::marker::Model;

/// What is answered to a start tag.
#[derive(Debug, Clone, Copy, PartialEq, Eq)]
pub enum Started {
    /// It was reported: `matches` has what it was reported under.
    Reported,
    /// Its attributes are asked for. It is finished by `finish`; at any other call that tells of a tag it is dropped: then its element is
    /// counted as a child, and is neither reported nor opened.
    NeedsAttributes,
}

/// Matches selectors against the start tags of a document, as its tags come. It owns its machine, and is dropped as any value. Each open
/// element may have a value of the caller's own, of the type `T`.
pub struct Matcher<T = ()> {
    vm: SelectorMatchingVm<OpenElement<T>>,
    limiter: SharedMemoryLimiter,
    request: Option<AuxStartTagInfoRequest<OpenElement<T>>>,
    matches: Vec<MatchInfo>,
    // The tag that waits isn't counted.
    tags_told: usize,
    opened: bool,
    failed: bool,
    past: Past,
}

impl<T> Model for Matcher<T> {
    ghost use Rattle.std.specs.Coded.{codes};
    ghost use Rattle.lol_memory.specs.Ids.{ids_code};
    ghost use Rattle.lol_program.specs.contracts.ast.Ast as tree;
    ghost use Rattle.lol_machine.specs.Vms.{data_in, slot_bytes, tries_in};
    ghost use Rattle.lol_matcher.specs.Told.{Matching};
    ghost use Rattle.lol_matcher.specs.Keeping.{Keeps};

    ghost Value = { Matching T };

    ghost coded = { Prim.hlevel (codes, tree.the_row.coded, ids_code, T.code) };

    ghost view = { λ m. record {
      told = m.past.history.told;
      max_memory = m.limiter.maximum;
      element_bytes = slot_bytes m.vm;
      failed = m.failed;
      matched = m.matches.items;
      tries = tries_in m.vm;
      opened = m.opened;
      open_elements = m.past.history.open_elements;
      kept = data_in m.vm;
    } };

    ghost invariant = { λ m. Keeps m.past.history m.failed m.vm m.request m.matches m.limiter m.tags_told m.opened };
}

impl<T: Drop> Drop for Matcher<T> {
    fn drop(self) {
        let Matcher {
            vm,
            mut limiter,
            request: _,
            matches: _,
            tags_told: _,
            opened: _,
            failed: _,
            past: _,
        } = self;
        vm.release(&mut limiter);
    }
}

impl Matcher {
    ghost use Rattle.std.specs.Prelude.{◌≡◌, [], false};
    ghost use Rattle.lol_program.specs.Asts.{pairs_of, nodes_of, is_with_rows};

    /// A builder with no selectors, no bound on memory, 64 bytes for each open element, and ESI's names as others.
    pub fn builder(alloc: Global) -> MatcherBuilder
        ensures pairs { pairs_of result.ast ≡ [] }
        ensures nodes { nodes_of result.ast ≡ [] }
        ensures memory { result.max_memory ≡ usize.MAX }
        ensures bytes { result.element_bytes ≡ 64 }
        ensures esi { result.enable_esi_tags ≡ false }
        ensures rows { is_with_rows result.ast ≡ false }
    {
        MatcherBuilder {
            alloc,
            ast: Ast::new(alloc),
            max_memory: usize::MAX,
            element_bytes: 64,
            enable_esi_tags: false,
        }
    }
}

impl<T: Drop> Matcher<T> {
    ghost use Rattle.std.specs.Prelude.{◌≡◌, ◌≤◌, ◌↔◌, [], true, false, None, Err, IfOk, OnOk, IfErr, IsSome, drop, length, map, vec_capacity};
    ghost use Rattle.lol_base.specs.StartTags.{RangesAreInside, StartTag};
    ghost use Rattle.lol_instructions.specs.Tries.{names_counted, attributes_counted};
    ghost use Rattle.lol_stack.specs.Calls.{IsCalledAtEach};
    ghost use Rattle.lol_matcher.specs.Answering.{AnswersStart, IfWaits, IsAnsweredAfter, IsFinishedAs, OpensFor, OpensStart, last_value, reported_in, told_after, refused_with, with_ended, with_told, with_value};
    ghost use Rattle.lol_matcher.specs.Building.{started_with};
    ghost use Rattle.lol_matcher.specs.Explaining.{AreNumbered, ForTexts, ids_with_reasons, reasons_told};
    ghost use Rattle.lol_matcher.specs.Keeping.{IsRefusal};
    ghost use Rattle.lol_matcher.specs.Last.{HasTries, last_answer, last_opens, matches_in};
    ghost use Rattle.lol_matcher.specs.Noted.{finished_told, handed, handed_told};
    ghost use Rattle.lol_matcher.specs.Refusing.{Fits, RefusesStart, RefusesStartWith, RefusesFinish, refusal_of};
    ghost use Rattle.lol_matcher.specs.Told.{elements_of, heard, in_word, numbers_open};
    ghost use Rattle.lol_reasons.specs.Numbered.{reason_shown};
    ghost use Rattle.lol_machine.specs.Documents.{index_of, inner_part};
    ghost use Rattle.lol_machine.specs.ReportRoom.{HoldsEachReport};
    ghost use Rattle.lol_machine.specs.Views.{match_of, selectors};
    ghost use Rattle.lol_machine.specs.Vms.{IsTriedAtMost, Stands, data_in, is_asked_for, open_after, tries_in};

    /// A matcher for the selectors of a tree.
    pub(crate) fn new(
        alloc: Global,
        ast: Ast,
        max_memory: usize,
        element_bytes: usize,
        enable_esi_tags: bool,
    ) -> Result<Self, AllocError>
        requires { 1 ≤ element_bytes }
        ensures tries { IfOk result (λ matcher.
            (names_counted matcher.tries ≡ 0) × (attributes_counted matcher.tries ≡ 0)) }
        ensures told { IfOk result (λ matcher. matcher
            ≡ started_with ast max_memory element_bytes enable_esi_tags matcher.tries) }
    {
        run_laws::<OpenElement<T>>();
        let past = Past::new(&ast, &enable_esi_tags);
        let vm = SelectorMatchingVm::new(alloc, ast, element_bytes, enable_esi_tags)?;
        let Ok(matches) = vm.list_for_reports() else {
            vm.discard();
            return Err(AllocError);
        };
        Ok(Matcher {
            vm,
            limiter: SharedMemoryLimiter::new(max_memory),
            request: None,
            matches,
            tags_told: 0,
            opened: false,
            failed: false,
            past,
        })
    }

    /// What the last tag was reported under, ascending by id: nothing where it is an end tag, waits for its attributes, or was refused.
    pub fn matches(&self) -> &[MatchInfo]
        ensures matched { result.now ≡ self.now.matched }
        ensures answered { self.now.failed ≡ false → map match_of result.now
            ≡ matches_in (last_answer (selectors self.now.told.ast) self.now.told) }
        ensures none { self.now.failed ≡ true → result.now ≡ [] }
    {
        &self.matches
    }

    /// The machine, to be looked at: until a tag is refused it stands for what was told, a start tag that waits as dropped.
    pub fn machine(&self) -> &SelectorMatchingVm<OpenElement<T>>
        ensures stands { self.now.failed ≡ false
            → Stands (selectors self.now.told.ast) self.now.told.esi result.now (heard self.now.told) }
        ensures kept { data_in result.now ≡ self.now.kept }
        ensures tries { tries_in result.now ≡ self.now.tries }
        ensures tried { self.now.failed ≡ false
            → HasTries (last_answer (selectors self.now.told.ast) self.now.told) (tries_in result.now) }
    {
        &self.vm
    }

    /// Whether a start tag was refused, so that each that comes later is answered `Failed`.
    pub fn has_failed(&self) -> bool
        ensures { result ≡ self.now.failed }
    {
        self.failed
    }

    /// Whether the last tag was a start tag that was reported, and opened its element: it has content, so that an end tag may come.
    pub fn has_opened(&self) -> bool
        ensures opened { result ≡ self.now.opened }
        ensures answered { self.now.failed ≡ false
            → result ≡ last_opens (selectors self.now.told.ast) self.now.told }
    {
        self.opened
    }

    /// How many tags were told until one was refused, end tags and one that waits too; a count that a word can't hold stays at the greatest.
    pub fn tags_told(&self) -> usize
        ensures { self.now.failed ≡ false → result ≡ in_word (length (heard self.now.told)) }
    {
        if self.request.is_some() {
            self.tags_told.saturating_add(1)
        } else {
            self.tags_told
        }
    }

    /// What is kept of the open elements, the outermost first. After `Reported` the last of them is the tag's own if `has_opened`.
    pub fn open_elements(&self) -> OpenElements<'_, T>
        ensures kept { result ≡ self.now.kept }
        ensures numbered { map (λ element. element.number) result ≡ numbers_open self.now.open_elements }
    {
        OpenElements::new(self.vm.open_items())
    }

    /// Why the last tag was reported, if the selectors are the items of texts, each under its number (`Texts::number_items`): a reason for each
    /// item that matches its element, in the order of adding. There is none where it is an end tag, waits for its attributes, or was refused.
    /// A witness has the numbers of start tags, as `OpenElement` has.
    ///
    /// # Errors
    /// Out of memory, which it takes for the answer and for two lists. Nothing changes, so it may be asked for again.
    pub fn explain(&self, alloc: Global, explainer: &Explainer) -> Result<Vec<Reason>, AllocError>
        ensures reasons { IfOk result (λ reasons. ForTexts explainer.now self.now (λ texts. AreNumbered self.now.told
            → map reason_shown reasons.items ≡ reasons_told texts self.now.told)) }
        ensures none { IfOk result (λ reasons. self.now.failed ≡ true → reasons.items ≡ []) }
    {
        item_laws();
        let matches = self.matches.as_slice();
        if matches.is_empty() {
            return Ok(Vec::new(alloc));
        }
        run_laws::<OpenElement<T>>();
        let matched = item_numbers(alloc, matches)?;
        let around = numbers_around(alloc, self.vm.open_items(), self.opened)?;
        let number = self.tags_told.saturating_sub(1);
        explainer.reasons(&self.vm, &matched, number, &around)
    }

    /// An empty list with room for every report by the ids of texts (`report`).
    ///
    /// # Errors
    /// Out of memory.
    pub fn list_for_ids(&self, alloc: Global) -> Result<Vec<MatchId>, AllocError>
        ensures empty { IfOk result (λ ids. ids.items ≡ []) }
        ensures room { IfOk result (λ ids. self.now.failed ≡ false
            → HoldsEachReport (selectors self.now.told.ast) (vec_capacity ids)) }
    {
        Vec::with_capacity(alloc, self.matches.capacity())
    }

    /// Lists what the last tag was reported under by the ids of the texts whose items are the selectors (`explain`), ascending and each once. It
    /// takes no memory, and is whole in a list with room for each report (`list_for_ids`).
    pub fn report(&self, explainer: &Explainer, ids: &mut Vec<MatchId>)
        ensures reported { HoldsEachReport (selectors self.now.told.ast) (vec_capacity ids.old)
            → ForTexts explainer.now self.now (λ texts. ids.new.items ≡ ids_with_reasons texts self.now.told) }
        ensures none { self.now.failed ≡ true → ids.new.items ≡ [] }
        ensures room { vec_capacity ids.new ≡ vec_capacity ids.old }
    {
        item_laws();
        list_ids(explainer, self.matches.as_slice(), ids);
    }

    /// A start tag: it is reported, or its attributes are asked for. A start tag that waits for its attributes is dropped.
    ///
    /// # Errors
    /// `Failed` exactly after a refusal, and then nothing changes; else why the tag is refused, and all that come later.
    pub fn start(&mut self, name: &[u8], ns: Namespace) -> Result<Started, MatcherError>
        ensures answers { IfOk result (λ started.
            AnswersStart started self.old.told name.now ns self.new.matched self.new.tries) }
        ensures opens { IfOk result (λ started. OpensStart started name.now ns self.old self.new) }
        ensures ok { IfOk result (λ started.
            self.new ≡ with_told (told_after started self.old.told name.now ns) self.old self.new) }
        ensures fits { IfOk result (λ started. (self.old.failed ≡ false) × Fits started self.old name.now ns) }
        ensures failed { (result ≡ Err MatcherError.Failed) ↔ (self.old.failed ≡ true) }
        ensures stuck { self.old.failed ≡ true → self.new ≡ self.old }
        ensures refused { IfErr result (λ error. self.old.failed ≡ false
            → RefusesStart error self.old name.now ns) }
        ensures after { IfErr result (λ error. self.old.failed ≡ false
            → self.new ≡ refused_with self.old self.new) }
        ensures tried { self.old.failed ≡ false
            → (tag : StartTag) → tag.name ≡ name.now → tag.namespace ≡ ns
            → IsTriedAtMost (selectors self.old.told.ast) self.old.told.esi (heard self.old.told) tag self.new.tries }
    {
        if self.failed {
            return Err(MatcherError::Failed);
        }
        run_laws::<OpenElement<T>>();
        drop_request(&mut self.request, &mut self.tags_told);
        match start_tag(
            &mut self.vm,
            &mut self.limiter,
            name,
            ns,
            self.tags_told,
            &mut self.matches,
        ) {
            Ok(Answered::Reported(opened)) => {
                self.opened = opened;
                self.tags_told = self.tags_told.saturating_add(1);
                self.past = self.past.then(&Note::Started(name, ns));
                Ok(Started::Reported)
            }
            Ok(Answered::Asked(request)) => {
                self.request = Some(request);
                self.opened = false;
                self.matches.clear();
                self.past = self.past.then(&Note::Asked(name, ns));
                Ok(Started::NeedsAttributes)
            }
            Err(error) => {
                self.failed = true;
                self.opened = false;
                self.matches.clear();
                Err(error)
            }
        }
    }

    /// The attributes of the start tag that waits for them: it is reported.
    ///
    /// # Errors
    /// `Failed` exactly after a refusal; else `OutsideInput` exactly where a range of a name or of a value lies outside the input; else
    /// `NotAsked` exactly where no tag waits. Then nothing changes, and a tag that waits still does. Else why the tag is refused, and all
    /// that come later.
    pub fn finish(&mut self, aux_info: AuxStartTagInfo<'_>) -> Result<(), MatcherError>
        ensures reported { OnOk result (IfWaits self.old.told aux_info.entry (λ tag.
            IsFinishedAs self.old.told tag self.new)) }
        ensures opens { OnOk result (IfWaits self.old.told aux_info.entry (λ tag.
            OpensFor self.old.told.events tag self.old self.new)) }
        ensures ok { OnOk result (self.new
            ≡ with_told (finished_told self.old.told aux_info.entry) self.old self.new) }
        ensures fits { OnOk result (IfWaits self.old.told aux_info.entry (λ tag.
            refusal_of self.old self.old.told.events tag ≡ None)) }
        ensures well { OnOk result ((self.old.failed ≡ false) × RangesAreInside aux_info.entry
            × IsSome self.old.told.asked) }
        ensures failed { (result ≡ Err MatcherError.Failed) ↔ (self.old.failed ≡ true) }
        ensures outside { (result ≡ Err MatcherError.OutsideInput)
            ↔ ((self.old.failed ≡ false) × (RangesAreInside aux_info.entry → ⊥)) }
        ensures not_asked { (result ≡ Err MatcherError.NotAsked)
            ↔ ((self.old.failed ≡ false) × RangesAreInside aux_info.entry × (self.old.told.asked ≡ None)) }
        ensures refused { IfErr result (λ error. IsRefusal error → IfWaits self.old.told aux_info.entry (λ tag.
            RefusesFinish error self.old tag)) }
        ensures after { IfErr result (λ error. IsRefusal error → self.new ≡ refused_with self.old self.new) }
        ensures tried { IfErr result (λ error. IsRefusal error → IfWaits self.old.told aux_info.entry (λ tag.
            IsTriedAtMost (selectors self.old.told.ast) self.old.told.esi self.old.told.events tag self.new.tries)) }
        ensures unchanged { IfErr result (λ error. (IsRefusal error → ⊥) → self.new ≡ self.old) }
    {
        if self.failed {
            return Err(MatcherError::Failed);
        }
        if !aux_info.ranges_inside() {
            return Err(MatcherError::OutsideInput);
        }
        let Some(request) = self.request.take() else {
            return Err(MatcherError::NotAsked);
        };
        run_laws::<OpenElement<T>>();
        match finish_tag(
            &mut self.vm,
            &mut self.limiter,
            request,
            aux_info,
            self.tags_told,
            &mut self.matches,
        ) {
            Ok(opened) => {
                self.opened = opened;
                self.tags_told = self.tags_told.saturating_add(1);
                self.past = self.past.then(&Note::Finished(aux_info));
                Ok(())
            }
            Err(error) => {
                self.failed = true;
                self.opened = false;
                self.matches.clear();
                Err(error)
            }
        }
    }

    /// A start tag whose attributes are at hand, in one call: `start`, and `finish` where they are asked for. Returns whether they were.
    ///
    /// # Errors
    /// `Failed` exactly after a refusal; else `OutsideInput` exactly where a range of a name or of a value lies outside the input. Then
    /// nothing changes. Else why the tag is refused, and all that come later.
    pub fn start_with(
        &mut self,
        name: &[u8],
        ns: Namespace,
        aux_info: AuxStartTagInfo<'_>,
    ) -> Result<bool, MatcherError>
        ensures was_asked { IfOk result (λ asked. asked
            ≡ is_asked_for (selectors self.old.told.ast) self.old.told.esi (heard self.old.told)
            (handed name.now ns aux_info.entry)) }
        ensures reported { OnOk result (map match_of self.new.matched
            ≡ reported_in self.old.told (handed name.now ns aux_info.entry)) }
        ensures answered { OnOk result (IsAnsweredAfter self.old.told (handed name.now ns aux_info.entry) self.new) }
        ensures opens { OnOk result (OpensFor (heard self.old.told) (handed name.now ns aux_info.entry)
            self.old self.new) }
        ensures ok { OnOk result (self.new
            ≡ with_told (handed_told self.old.told (handed name.now ns aux_info.entry)) self.old self.new) }
        ensures fits { OnOk result (refusal_of self.old (heard self.old.told) (handed name.now ns aux_info.entry)
            ≡ None) }
        ensures well { OnOk result ((self.old.failed ≡ false) × RangesAreInside aux_info.entry) }
        ensures failed { (result ≡ Err MatcherError.Failed) ↔ (self.old.failed ≡ true) }
        ensures outside { (result ≡ Err MatcherError.OutsideInput)
            ↔ ((self.old.failed ≡ false) × (RangesAreInside aux_info.entry → ⊥)) }
        ensures asked { result ≡ Err MatcherError.NotAsked → ⊥ }
        ensures refused { IfErr result (λ error.
            IsRefusal error → RefusesStartWith error self.old (handed name.now ns aux_info.entry)) }
        ensures after { IfErr result (λ error. IsRefusal error → self.new ≡ refused_with self.old self.new) }
        ensures tried { IfErr result (λ error.
            IsRefusal error → IsTriedAtMost (selectors self.old.told.ast) self.old.told.esi
            (heard self.old.told) (handed name.now ns aux_info.entry) self.new.tries) }
        ensures unchanged { IfErr result (λ error. (IsRefusal error → ⊥) → self.new ≡ self.old) }
    {
        if self.failed {
            return Err(MatcherError::Failed);
        }
        if !aux_info.ranges_inside() {
            return Err(MatcherError::OutsideInput);
        }
        run_laws::<OpenElement<T>>();
        drop_request(&mut self.request, &mut self.tags_told);
        match hand_tag(
            &mut self.vm,
            &mut self.limiter,
            name,
            ns,
            aux_info,
            self.tags_told,
            &mut self.matches,
        ) {
            Ok(handed_tag) => {
                self.opened = handed_tag.opened;
                self.tags_told = self.tags_told.saturating_add(1);
                self.past = self.past.then(&Note::Handed(name, ns, aux_info));
                Ok(handed_tag.asked)
            }
            Err(error) => {
                self.failed = true;
                self.opened = false;
                self.matches.clear();
                Err(error)
            }
        }
    }

    /// Changes the value of the innermost open element, and answers the one that it had: none until one was given. Where no element is
    /// open, it answers the new one. It takes no memory.
    pub fn replace_value(&mut self, value: Option<T>) -> Option<T>
        ensures before { result ≡ last_value value self.old.kept }
        ensures changed { self.new ≡ record self.old { kept = with_value value self.old.kept } }
    {
        replace_value(&mut self.vm, value)
    }

    /// An end tag: the last open element of its name is closed, and all inside it. Where none is open, none is closed. A start tag that
    /// waits for its attributes is dropped.
    pub fn end(&mut self, name: &[u8])
        ensures ended { self.new ≡ with_ended self.old name.now }
        ensures open { self.old.failed ≡ false → self.new.open_elements ≡ elements_of self.new.told }
    {
        self.end_with(name, &mut |_element: OpenElement<T>| {});
    }

    /// The same, and the handler is called with what was kept of each closed element, the outermost first.
    pub fn end_with<F: FnMut(OpenElement<T>)>(&mut self, name: &[u8], handler: &mut F)
        requires { F.IsAlwaysCallable handler.old }
        ensures again { F.IsAlwaysCallable handler.new }
        ensures ended { self.new ≡ with_ended self.old name.now }
        ensures called { IsCalledAtEach F.step handler.old
            (drop (length (open_after name.now self.old.open_elements)) self.old.kept) handler.new }
        ensures numbered { map (λ element. element.number)
            (drop (length (open_after name.now self.old.open_elements)) self.old.kept)
            ≡ numbers_open (inner_part (index_of name.now self.old.open_elements) self.old.open_elements) }
        ensures open { self.old.failed ≡ false → self.new.open_elements ≡ elements_of self.new.told }
    {
        drop_request(&mut self.request, &mut self.tags_told);
        self.opened = false;
        self.matches.clear();
        end_tag(&mut self.vm, name, handler);
        self.tags_told = self.tags_told.saturating_add(1);
        self.past = self.past.then(&Note::Ended(name));
    }
}
