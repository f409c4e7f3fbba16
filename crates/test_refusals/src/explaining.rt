//! A matcher that explains: the list for the ids of its reports and the reasons can be refused.

use crate::explained::{are_both, number_text};
use crate::outcome::{Met, Stop, TURNS};
use lol_matcher::{Explainer, MatchId, Matcher, MatcherError, Namespace, Numbering};
use lol_program::Ast;
use std::alloc::Global;

/// `div p, p` under 7, the start tags `div` and `p`, and why the second is reported. A call that is refused is made again, and answers as
/// if it hadn't been.
pub(crate) fn explaining_matcher(alloc: Global) -> Result<Met, Stop> {
    let (numbering, numbered) = number_text(alloc)?;
    let Numbering { ast, mut explainer } = numbering;
    let matcher = told(alloc, ast)?;
    explainer.index(matcher.machine().program())?;
    let reported = report(alloc, &matcher, &explainer)?;
    let explained = explain_in_turn(alloc, &matcher, &explainer)?;
    Ok(numbered.and(reported).and(explained))
}

/// A matcher that was told of both tags; the memory is the scenario's own.
fn told(alloc: Global, ast: Ast) -> Result<Matcher, Stop> {
    let mut builder = Matcher::builder(alloc);
    builder.ast = ast;
    let mut matcher: Matcher = builder.build()?;
    start(&mut matcher, b"div")?;
    start(&mut matcher, b"p")?;
    Ok(matcher)
}

fn start(matcher: &mut Matcher, name: &[u8]) -> Result<(), Stop> {
    match matcher.start(name, Namespace::Html) {
        Ok(_) => Ok(()),
        Err(MatcherError::Memory) => Err(Stop::Own),
        Err(_) => Err(Stop::Wrong),
    }
}

/// Lists what the second tag was reported under.
fn report(alloc: Global, matcher: &Matcher, explainer: &Explainer) -> Result<Met, Stop> {
    let (mut ids, listed) = list_in_turn(alloc, matcher)?;
    matcher.report(explainer, &mut ids);
    listed.if_holds(ids.as_slice() == [7].as_slice())
}

fn list_in_turn(alloc: Global, matcher: &Matcher) -> Result<(Vec<MatchId>, Met), Stop> {
    for met in TURNS {
        if let Ok(ids) = matcher.list_for_ids(alloc) {
            return Ok((ids, met));
        }
    }
    Err(Stop::Wrong)
}

/// Asks why the second tag was reported.
fn explain_in_turn(alloc: Global, matcher: &Matcher, explainer: &Explainer) -> Result<Met, Stop> {
    for met in TURNS {
        if let Ok(reasons) = matcher.explain(alloc, explainer) {
            return met.if_holds(are_both(&reasons));
        }
    }
    Err(Stop::Wrong)
}
