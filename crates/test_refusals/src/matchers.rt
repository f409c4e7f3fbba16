//! The life of a matcher: each request for memory can be refused.

use crate::lists::are_ids;
use crate::outcome::{Met, Stop, TURNS, expect};
use crate::trees::attribute;
use lol_matcher::{
    AddError, Attributes, ErrorLocation, Matcher, MatcherBuilder, MatcherError, Namespace,
    SelectorError,
};
use std::alloc::{AllocError, Global};

/// A matcher with a number for each open element.
type Counting = Matcher<u32>;

/// `.a p` under 0 and `p` under 1, and a text that isn't accepted; the start tags `div` with `class=a` and `p`, each with a value, and the
/// end tag `div`. A text whose adding is refused is added again; after a refused tag nothing is reported, and each later one is answered
/// `Failed`, while the end tag hands out the values of the elements before.
pub(crate) fn matcher(alloc: Global) -> Result<Met, Stop> {
    let class = attribute(alloc, b"class", b"a")?;
    let mut builder = Matcher::builder(alloc);
    let added = add_all(&mut builder)?;
    let told = build_and_tell(builder, &class)?;
    Ok(added.and(told))
}

fn add_all(builder: &mut MatcherBuilder) -> Result<Met, Stop> {
    let first = add_in_turn(builder, 0, ".a p")?;
    let refused = refuse_in_turn(builder)?;
    let second = add_in_turn(builder, 1, "p")?;
    Ok(first.and(refused).and(second))
}

fn built(builder: MatcherBuilder) -> Result<Counting, AllocError> {
    builder.build()
}

fn build_and_tell(builder: MatcherBuilder, class: &Attributes) -> Result<Met, Stop> {
    match built(builder) {
        Ok(mut matcher) => tell(&mut matcher, class),
        Err(_) => Ok(Met::Refusal),
    }
}

fn add_in_turn(builder: &mut MatcherBuilder, id: u32, text: &str) -> Result<Met, Stop> {
    for met in TURNS {
        match builder.add(id, text) {
            Ok(()) => return Ok(met),
            Err(error) => expect(error == AddError::Memory)?,
        }
    }
    Err(Stop::Wrong)
}

fn refuse_in_turn(builder: &mut MatcherBuilder) -> Result<Met, Stop> {
    let refused = AddError::Refused {
        cause: SelectorError::DanglingCombinator,
        location: ErrorLocation { item: 1, offset: 6 },
    };
    for met in TURNS {
        let answer = builder.add(2, "p, a >");
        if answer == Err(refused) {
            return Ok(met);
        }
        expect(answer == Err(AddError::Memory))?;
    }
    Err(Stop::Wrong)
}

/// Tells of the tags, up to one that memory is refused for.
fn tell(matcher: &mut Counting, class: &Attributes) -> Result<Met, Stop> {
    if let Err(error) = start(matcher, b"div", class) {
        return stuck(matcher, class, error, &[]);
    }
    expect(has_opened(matcher, &[], 1))?;
    if let Err(error) = start(matcher, b"p", class) {
        return stuck(matcher, class, error, &[1]);
    }
    expect(has_opened(matcher, &[0, 1], 2) && has_closed(matcher))?;
    Ok(Met::Nothing)
}

fn start(matcher: &mut Counting, name: &[u8], class: &Attributes) -> Result<bool, MatcherError> {
    matcher.start_with(name, Namespace::Html, class.aux_info(false))
}

/// Whether these ids are reported of an element that was opened and has no value; it is given one.
fn has_opened(matcher: &mut Counting, ids: &[u32], value: u32) -> bool {
    has_ids(matcher, ids) && matcher.has_opened() && matcher.replace_value(Some(value)).is_none()
}

/// Closes both elements: whether their values are handed out, and nothing is reported.
fn has_closed(matcher: &mut Counting) -> bool {
    hands_out(matcher, &[1, 2]) && has_ids(matcher, &[]) && !matcher.has_failed()
}

/// What stands after a refusal.
fn stuck(
    matcher: &mut Counting,
    class: &Attributes,
    error: MatcherError,
    values: &[u32],
) -> Result<Met, Stop> {
    expect(error == MatcherError::Memory && has_nothing(matcher))?;
    expect(answers_failed(matcher, class))?;
    expect(hands_out(matcher, values) && has_nothing(matcher))?;
    Ok(Met::Refusal)
}

/// Whether a matcher has failed, and reports nothing.
fn has_nothing(matcher: &Counting) -> bool {
    matcher.has_failed() && has_ids(matcher, &[])
}

/// Whether a start tag and its finishing are answered `Failed`.
fn answers_failed(matcher: &mut Counting, class: &Attributes) -> bool {
    matcher.start(b"br", Namespace::Html) == Err(MatcherError::Failed)
        && matcher.finish(class.aux_info(false)) == Err(MatcherError::Failed)
}

/// The values of the elements that an end tag closed, from the outermost inwards.
#[derive(Default, Drop)]
struct HandedOut {
    first: Option<u32>,
    last: Option<u32>,
    count: usize,
}

impl HandedOut {
    fn keep(&mut self, value: Option<u32>) {
        if value.is_some() {
            self.first = self.first.or(value);
            self.last = value;
            self.count = self.count.wrapping_add(1);
        }
    }

    /// Whether these were handed out and no other: at most two values.
    fn are(&self, values: &[u32]) -> bool {
        self.first == values.first().copied()
            && self.last == values.last().copied()
            && self.count == values.len()
    }
}

/// Closes `div`: whether these values are handed out, in order, and no other.
fn hands_out(matcher: &mut Counting, values: &[u32]) -> bool {
    let mut handed_out = HandedOut::default();
    matcher.end_with(b"div", &mut |element| handed_out.keep(element.value));
    handed_out.are(values)
}

fn has_ids(matcher: &Counting, ids: &[u32]) -> bool {
    are_ids(matcher.matches(), ids)
}
