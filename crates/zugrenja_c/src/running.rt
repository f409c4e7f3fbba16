//! A matcher that is told of tags, and asked what was reported and why.

ghost use Rattle.std.specs.Prelude.{◌≡◌, ◌++◌, ◌∷◌, [], ℕ, List, Option, None, length, map};
ghost use Rattle.lol_matcher.specs.Answering.{with_ended};
ghost use Rattle.lol_matcher.specs.Told.{Matching};
ghost use Rattle.lol_matcher.specs.declared.open_element.OpenElement.{OpenElement};
ghost use Rattle.zugrenja_c.specs.Numbers.{overwritten};
ghost use Rattle.zugrenja_c.specs.Runs.{IsExplained, ids_by_texts, texts_of};
ghost use Rattle.zugrenja_c.specs.Tags.{HasClosed, closed_elements};

use crate::attribute_places::{AttributePlace, outlines_of};
use crate::buffers::overwrite;
use crate::closing::Closing;
use crate::status::{
    GOOD, NEEDS_ATTRIBUTES, NO_NAMESPACE, NOT_OPENED, OUT_OF_MEMORY, namespace_of, number_of,
};
use lol_matcher::{
    AuxStartTagInfo, Bytes, Explainer, MatchId, MatchInfo, Matcher, NumberingError, OpenElement,
    Reason, Started, Texts, Tries,
};
use std::alloc::{AllocError, Global};
use std::marker::Model;

/// A matcher and, if it explains, what explains its reports.
#[derive(Drop)]
pub struct Running {
    pub(crate) matcher: Matcher<u64>,
    explained: Option<Explained>,
}

/// The texts whose items are the matcher's selectors, what explains their reports, and what the last tag was reported under by the ids of the texts.
#[derive(Drop)]
pub struct Explained {
    texts: Texts,
    explainer: Explainer,
    ids: Vec<MatchId>,
}

impl Model for Running {
    ghost use Rattle.std.specs.Coded.{codes};
    ghost use Rattle.lol_memory.specs.Ids.{ids_code};
    ghost use Rattle.lol_program.specs.contracts.ast.Ast as tree;
    ghost use Rattle.lol_reasons.specs.contracts.texts.Texts as added;
    ghost use Rattle.zugrenja_c.specs.Runs.{IsExplained, Run, texts_of};

    ghost Value = { Run };

    ghost coded = { Prim.hlevel (codes, tree.the_row.coded, added.the_row.coded, ids_code) };

    ghost view = { λ r. record { matcher = r.matcher; texts = texts_of r.explained } };

    ghost invariant = { λ r. IsExplained r.matcher r.explained };
}

impl Running {
    ghost use Rattle.std.specs.Prelude.{◌≡◌, ◌≢◌, ◌↔◌, ◌∷◌, [], None, Some, false, Ok, IfOk, IfSome, IfErr, OnErr, length, map};
    ghost use Rattle.lol_instructions.specs.Tries.{names_counted, attributes_counted};
    ghost use Rattle.lol_instructions.specs.declared.tries.Tries.{Tries};
    ghost use Rattle.lol_matcher.specs.Building.{started_with};
    ghost use Rattle.lol_reasons.specs.Explanations.{added_by};
    ghost use Rattle.lol_reasons.specs.Numbered.{HoldsItems, reason_shown, texts_in};
    ghost use Rattle.zugrenja_c.specs.Numbers.{IsOneOf, numbered_namespace, overwritten};
    ghost use Rattle.zugrenja_c.specs.Reasons.{AreReasons};
    ghost use Rattle.zugrenja_c.specs.Runs.{ids_matched};
    ghost use Rattle.zugrenja_c.specs.Tags.{Ends, Finishes, GivesValue, Starts};

    /// Of a matcher that doesn't explain.
    pub(crate) fn plain(matcher: Matcher<u64>) -> Self
        ensures { result ≡ record { matcher = matcher; texts = None } }
    {
        Running {
            matcher,
            explained: None,
        }
    }

    /// Of the matcher of the items of texts, which was told of nothing yet, and of what explains them.
    pub(crate) fn explaining(
        alloc: Global,
        matcher: Matcher<u64>,
        texts: Texts,
        mut explainer: Explainer,
    ) -> Result<Self, NumberingError>
        requires holds { HoldsItems (added_by (texts_in texts))
            (record { ast = matcher.told.ast; explainer = explainer }) }
        requires started { matcher ≡ started_with matcher.told.ast
            matcher.max_memory matcher.element_bytes matcher.told.esi matcher.tries }
        ensures made { IfOk result (λ made. made ≡ record { matcher = matcher; texts = Some texts }) }
        ensures memory { IfErr result (λ error. error ≡ NumberingError.Memory) }
    {
        explainer.index(matcher.machine().program())?;
        let mut explained = Explained {
            texts,
            explainer,
            ids: matcher.list_for_ids(alloc)?,
        };
        matcher.report(&explained.explainer, &mut explained.ids);
        Ok(Running {
            matcher,
            explained: Some(explained),
        })
    }

    /// Tells of a start tag.
    pub(crate) fn start(&mut self, name: &[u8], namespace: u32, matched: &mut usize) -> u32
        ensures told { Starts result name.now namespace matched.new self.old self.new }
        ensures texts { self.new.texts ≡ self.old.texts }
        ensures no_namespace { (result ≡ 11) ↔ (numbered_namespace namespace ≡ None) }
        ensures statuses { IsOneOf (0 ∷ 1 ∷ 11 ∷ 12 ∷ 13 ∷ 14 ∷ 15 ∷ []) result }
        ensures unchanged { IsOneOf (11 ∷ 15 ∷ []) result → self.new ≡ self.old }
        ensures none { result ≢ 0 → matched.new ≡ matched.old }
    {
        let Some(ns) = namespace_of(namespace) else {
            return NO_NAMESPACE;
        };
        let started = self.matcher.start(name, ns);
        let listed = list_ids(&self.matcher, &mut self.explained);
        match started {
            Ok(Started::Reported) => {
                *matched = listed;
                GOOD
            }
            Ok(Started::NeedsAttributes) => NEEDS_ATTRIBUTES,
            Err(error) => number_of(error),
        }
    }

    /// Hands the attributes over that were asked for.
    pub(crate) fn finish(
        &mut self,
        alloc: Global,
        text: &[u8],
        places: &[AttributePlace],
        self_closing: bool,
        matched: &mut usize,
    ) -> u32
        ensures told { Finishes result text.now places.now self_closing matched.new self.old self.new }
        ensures texts { self.new.texts ≡ self.old.texts }
        ensures statuses { IsOneOf (0 ∷ 4 ∷ 12 ∷ 13 ∷ 14 ∷ 15 ∷ 16 ∷ 17 ∷ []) result }
        ensures unchanged { IsOneOf (4 ∷ 15 ∷ 16 ∷ 17 ∷ []) result → self.new ≡ self.old }
        ensures none { result ≢ 0 → matched.new ≡ matched.old }
    {
        let Ok(outlines) = outlines_of(alloc, places) else {
            return OUT_OF_MEMORY;
        };
        let aux_info = AuxStartTagInfo {
            input: Bytes::new(text),
            attr_buffer: &outlines,
            self_closing,
        };
        let finished = self.matcher.finish(aux_info);
        let listed = list_ids(&self.matcher, &mut self.explained);
        match finished {
            Ok(()) => {
                *matched = listed;
                GOOD
            }
            Err(error) => number_of(error),
        }
    }

    /// Tells of an end tag.
    pub(crate) fn end(
        &mut self,
        alloc: Global,
        name: &[u8],
        values: &mut [u64],
        closed: &mut usize,
    ) -> u32
        ensures told { result ≡ 0 → Ends name.now values.old values.new closed.new self.old self.new }
        ensures texts { self.new.texts ≡ self.old.texts }
        ensures none { result ≢ 0 → (values.new ≡ values.old) × (closed.new ≡ closed.old) }
        ensures statuses { IsOneOf (0 ∷ 4 ∷ []) result }
        ensures unchanged { result ≢ 0 → self.new ≡ self.old }
    {
        let Ok(mut closing) = Closing::new(alloc, values.len()) else {
            return OUT_OF_MEMORY;
        };
        close(&mut self.matcher, name, &mut closing);
        list_ids(&self.matcher, &mut self.explained);
        overwrite(&closing.values, values);
        *closed = closing.closed;
        GOOD
    }

    /// Gives a value to the element that the last tag has opened.
    pub(crate) fn set_value(&mut self, value: u64) -> u32
        ensures given { result ≡ 0 → GivesValue value self.old self.new }
        ensures texts { self.new.texts ≡ self.old.texts }
        ensures not_opened { (result ≡ 18) ↔ (self.old.matcher.opened ≡ false) }
        ensures statuses { IsOneOf (0 ∷ 18 ∷ []) result }
        ensures unchanged { result ≢ 0 → self.new ≡ self.old }
    {
        if !self.matcher.has_opened() {
            return NOT_OPENED;
        }
        self.matcher.replace_value(Some(value));
        GOOD
    }

    /// Writes the ids of the last report, as far as there is room, and answers how many there are.
    pub(crate) fn write_ids(&self, ids: &mut [u32]) -> usize
        ensures ids { ids.new ≡ overwritten (ids_matched self.now) ids.old }
        ensures counted { result ≡ length (ids_matched self.now) }
    {
        match &self.explained {
            Some(explained) => overwrite(&explained.ids, ids),
            None => write_ids(self.matcher.matches(), ids),
        }
    }

    /// Why the last tag was reported, if the matcher explains.
    pub(crate) fn reasons(&self, alloc: Global) -> Result<Option<Vec<Reason>>, AllocError>
        ensures plain { self.now.texts ≡ None → result ≡ Ok None }
        ensures explained { result ≡ Ok None → self.now.texts ≡ None }
        ensures told { IfOk result (λ told. IfSome told (λ reasons.
            AreReasons self.now (map reason_shown reasons.items))) }
    {
        let Some(explained) = &self.explained else {
            return Ok(None);
        };
        Ok(Some(self.matcher.explain(alloc, &explained.explainer)?))
    }
}

/// Lists what the last tag was reported under by the ids of the texts, if the matcher explains, and answers how many ids there are.
fn list_ids(matcher: &Matcher<u64>, explained: &mut Option<Explained>) -> usize
    ensures lists { (before : Matching ℕ) → before.told.ast ≡ matcher.now.told.ast
        → IsExplained before explained.old → IsExplained matcher.now explained.new }
    ensures counts { IsExplained matcher.now explained.new
        → result ≡ length (ids_by_texts (texts_of explained.new) matcher.now) }
    ensures texts { texts_of explained.new ≡ texts_of explained.old }
{
    match explained {
        Some(explained) => {
            matcher.report(&explained.explainer, &mut explained.ids);
            explained.ids.len()
        }
        None => matcher.matches().len(),
    }
}

/// Writes the ids of matches, as far as there is room, and answers how many there are.
fn write_ids(matches: &[MatchInfo], ids: &mut [u32]) -> usize
    ensures written { ids.new ≡ overwritten (map (λ info. info.match_id) matches.now) ids.old }
    ensures length { result ≡ length matches.now }
{
    let fitting = matches.len().min(ids.len());
    for index in 0..fitting {
        ids[index] = matches[index].match_id;
    }
    matches.len()
}

/// Tells a matcher of an end tag, and keeps the values of the elements that it closes.
fn close(matcher: &mut Matcher<u64>, name: &[u8], closing: &mut Closing)
    ensures ended { matcher.new ≡ with_ended matcher.old name.now }
    ensures closed { (room : ℕ) → HasClosed room [] closing.old
        → HasClosed room (closed_elements matcher.old name.now) closing.new }
{
    let mut handler = |element: OpenElement<u64>|
        ensures { (room : ℕ) (elements : List (OpenElement ℕ))
            → HasClosed room elements closing.entry.now
            → HasClosed room (elements ++ element ∷ []) closing.exit.now }
    {
        closing.keep(element);
    };
    matcher.end_with(name, &mut handler);
}
