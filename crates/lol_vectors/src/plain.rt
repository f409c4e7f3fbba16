//! The answers to a list of tags by the definitions, step by step: slow, plain, and with no machine.

ghost use Rattle.std.specs.Prelude.{ℕ, ◌≡◌, ◌+◌, false, IfOk, OnOk, All, map, count_by};
ghost use Rattle.lol_memory.specs.Ids.{ascending};
ghost use Rattle.lol_machine.specs.Answers as answers;
ghost use Rattle.lol_machine.specs.Laws.{in_mode};
ghost use Rattle.lol_machine.specs.Views.{match_of, selectors};
ghost use Rattle.lol_vm.specs.TagEvents.{HasRangesInside, event_of};
ghost use Rattle.lol_vectors.specs.PlainElements.{element_shown};
ghost use Rattle.lol_vectors.specs.PlainNodes.{pairs_of, paths_of, selectors_shown};
ghost use Rattle.lol_vectors.specs.PlainTries.{is_tried_in, is_tried_open_in};
ghost use Rattle.lol_vectors.specs.Plain.{document_shown, answer_shown, start_answer, started};

use crate::plain_document::{PlainDocument, add_element, close, has_content, new_element};
use crate::plain_element::PlainElement;
use crate::plain_nodes::{PlainNode, list_nodes, matching_ids};
use crate::plain_tries::counted_tries;
use lol_base::Namespace;
use lol_css::Combinator;
use lol_memory::{DenseHashSet, MatchInfo};
use lol_program::Ast;
use lol_vm::TagEvent;
use std::alloc::{AllocError, Global};

/// The answer to a tag.
#[derive(Drop)]
pub(crate) enum PlainAnswer {
    /// A start tag: what it is reported under, ascending by id, whether its attributes were asked for, and how many nodes were tried by
    /// their name tests and by their attribute tests.
    Started {
        matched: Vec<MatchInfo>,
        asked: bool,
        names: usize,
        attributes: usize,
    },
    /// A start tag whose attributes were asked for and not handed over.
    Dropped,
    /// An end tag: the numbers of the start tags whose elements it closed, the outermost first.
    Ended {
        closed: Vec<usize>,
    },
}

/// The answers to a list of tags, over selectors, by the definitions alone, as without rows. It takes time that grows exponentially with the
/// compounds of a selector, and memory for each test.
///
/// # Errors
/// Where memory was refused, or a parent has more children than an `i32` counts.
pub(crate) fn plain_answers(
    alloc: Global,
    ast: &Ast,
    enable_esi_tags: bool,
    events: &[TagEvent],
) -> Result<Vec<PlainAnswer>, AllocError>
    requires { All HasRangesInside events.now }
    ensures { IfOk result (λ told. map answer_shown told.items
        ≡ answers.answers (in_mode false (selectors ast.now)) enable_esi_tags (map event_of events.now)) }
{
    let mut nodes = Vec::new(alloc);
    list_nodes(alloc, ast.root(), Combinator::Descendant, &[], &mut nodes)?;
    answers_of(alloc, &nodes, enable_esi_tags, events)
}

/// The answers to a list of tags, over the nodes.
fn answers_of(
    alloc: Global,
    nodes: &[PlainNode<'_>],
    enable_esi_tags: bool,
    events: &[TagEvent],
) -> Result<Vec<PlainAnswer>, AllocError>
    requires { All HasRangesInside events.now }
    ensures { IfOk result (λ told. map answer_shown told.items
        ≡ answers.answers (selectors_shown false nodes.now) enable_esi_tags (map event_of events.now)) }
{
    let mut document = PlainDocument::new(alloc);
    let mut told = Vec::new(alloc);
    for (number, event) in events.iter().enumerate() {
        told.push(answer(alloc, nodes, enable_esi_tags, number, &mut document, event)?)?;
    }
    Ok(told)
}

/// Answers one event.
fn answer<'e>(
    alloc: Global,
    nodes: &[PlainNode<'_>],
    enable_esi_tags: bool,
    number: usize,
    document: &mut PlainDocument<'e>,
    event: &TagEvent<'e>,
) -> Result<PlainAnswer, AllocError>
    requires { HasRangesInside event.now }
    ensures answer { IfOk result (λ told. answer_shown told
        ≡ answers.answer (selectors_shown false nodes.now) enable_esi_tags (document_shown number document.old)
        (event_of event.now)) }
    ensures document { OnOk result (document_shown (number + 1) document.new
        ≡ answers.after (selectors_shown false nodes.now) enable_esi_tags (document_shown number document.old)
        (event_of event.now)) }
{
    match event {
        TagEvent::Start {
            name,
            ns,
            aux_info,
            finish,
        } => {
            let element = new_element(number, document, name, *ns, *aux_info, *finish)?;
            start(alloc, nodes, enable_esi_tags, *ns, document, element)
        }
        TagEvent::End { name } => {
            let closed = close(alloc, document, name)?;
            Ok(PlainAnswer::Ended { closed })
        }
    }
}

/// Answers the start tag of an element, and opens it if it has content and wasn't dropped.
fn start<'e>(
    alloc: Global,
    nodes: &[PlainNode<'_>],
    enable_esi_tags: bool,
    ns: Namespace,
    document: &mut PlainDocument<'e>,
    element: PlainElement<'e>,
) -> Result<PlainAnswer, AllocError>
    requires { (element_shown element).tag.namespace ≡ ns }
    ensures answer { IfOk result (λ told. answer_shown told
        ≡ start_answer (selectors_shown false nodes.now) enable_esi_tags (element_shown element.entry)
        (map element_shown document.old.open_elements.items)) }
    ensures document { OnOk result ((events : ℕ) → document_shown (events + 1) document.new
        ≡ started (selectors_shown false nodes.now) enable_esi_tags (document_shown events document.old)
        (element_shown element.entry)) }
{
    let with_content = has_content(ns, enable_esi_tags, &element);
    let asked = asks(alloc, nodes, ns, &element, &document.open_elements)?;
    let dropped = asked && !element.finish;
    let told = if dropped {
        PlainAnswer::Dropped
    } else {
        report(
            alloc,
            nodes,
            with_content,
            asked,
            &element,
            &document.open_elements,
        )?
    };
    add_element(document, element, with_content && !dropped)?;
    Ok(told)
}

/// Whether a tag's attributes are asked for.
fn asks(
    alloc: Global,
    nodes: &[PlainNode<'_>],
    ns: Namespace,
    element: &PlainElement<'_>,
    outer: &[PlainElement<'_>],
) -> Result<bool, AllocError>
    requires { (element_shown element.now).tag.namespace ≡ ns }
    ensures { IfOk result (λ asked. asked ≡ answers.asks (selectors_shown false nodes.now)
        (element_shown element.now) (map element_shown outer.now)) }
{
    let (_, attributes) = counted_tries(alloc, nodes, element, outer)?;
    Ok(ns != Namespace::Html || attributes > 0)
}

/// The answer to a start tag that isn't dropped.
fn report(
    alloc: Global,
    nodes: &[PlainNode<'_>],
    with_content: bool,
    asked: bool,
    element: &PlainElement<'_>,
    outer: &[PlainElement<'_>],
) -> Result<PlainAnswer, AllocError>
    ensures { IfOk result (λ told. answer_shown told ≡ answers.Started
        (map (λ id. record { id = id; with_content = with_content }) (answers.matching_ids (pairs_of nodes.now)
        (element_shown element.now) (map element_shown outer.now)))
        asked (count_by (is_tried_in (map element_shown outer.now))
        (paths_of nodes.now))
        (count_by (is_tried_open_in (element_shown element.now) (map element_shown outer.now))
        (paths_of nodes.now))) }
{
    let ids = matching_ids(alloc, nodes, element, outer)?;
    let (names, attributes) = counted_tries(alloc, nodes, element, outer)?;
    Ok(PlainAnswer::Started {
        matched: infos_of(alloc, &ids, with_content)?,
        asked,
        names,
        attributes,
    })
}

fn infos_of(
    alloc: Global,
    ids: &DenseHashSet,
    with_content: bool,
) -> Result<Vec<MatchInfo>, AllocError>
    ensures { IfOk result (λ infos. map match_of infos.items
        ≡ map (λ id. record { id = id; with_content = with_content }) (ascending ids.now)) }
{
    let mut infos = Vec::new(alloc);
    for match_id in ids.iter() {
        infos.push(MatchInfo {
            match_id,
            with_content,
        })?;
    }
    Ok(infos)
}
