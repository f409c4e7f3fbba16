//! Random runs of the machine beside the plain program of the definitions, so that a machine that refuses at will, or that the compiler gets wrong,
//! is found.

ghost use Rattle.std.specs.Prelude.{All};
ghost use Rattle.lol_vm.specs.TagEvents.{HasRangesInside};

use crate::plain::{PlainAnswer, plain_answers};
use crate::tag_words::events_of;
use crate::told::reports_of_events;
use lol_vm::{Ast, Namespace, Selector, SelectorError, TagEvent, TagReport};
use std::alloc::{AllocError, Global};
use std::process::Abort;
use std::test::Fail;
use test_kit::{TagWord, attributes_of};

/// How many documents there are, how many selectors are looked for in each of them, and how many tags it has.
const DOCUMENTS: u64 = 1_000;

const SELECTORS: usize = 8;

const TAGS: usize = 12;

/// The names of tags, separated by spaces as all that is picked from.
const NAMES: &str = "a b P br esi:include abcdefghijklmn";

const ATTRIBUTES: &str = "@ @class=x @class=y @id=i @h @h=v @H=V-w @h=w";

/// The first and the second part of a compound; a hyphen stands for nothing.
const FIRST_PARTS: &str = "* a b p br |a a b";

const SECOND_PARTS: &str =
    "- - - .x .y #i [h] [h=v] [h~='w'i] [h^=v] [h$='W'i] [h*='-'] [h|=v] :first-child :nth-child(2n+1) :nth-child(-n+3) \
    :nth-of-type(2) :first-of-type :not(a) :not(.x,p) :not(:nth-of-type(2n)) :is(a,.x) :where(b,[h=v]) :is(:not(.x),p)";

fn add(alloc: Global, ast: &mut Ast, text: &str, match_id: u32) -> Result<(), SelectorError> {
    let selector = Selector::from_str(alloc, text)?;
    Ok(ast.add_selector(&selector, match_id)?)
}

/// Selectors and tags that are drawn by a linear congruential generator (Knuth, The Art of Computer Programming, volume 2, 3.3.4).
#[derive(Drop)]
struct Drawn {
    state: u64,
}

impl Drawn {
    fn below(&mut self, bound: u32) -> u32 {
        self.state = self
            .state
            .wrapping_mul(6_364_136_223_846_793_005)
            .wrapping_add(1_442_695_040_888_963_407);
        ((self.state >> 33) as u32) % bound.max(1)
    }

    /// One of the words of a text.
    fn word<'t>(&mut self, text: &'t str) -> &'t str {
        let words = u32::try_from(text.split_whitespace().count()).unwrap_or(1);
        let at = self.below(words);
        text.split_whitespace().nth(at as usize).unwrap_or("")
    }

    fn push_compound(&mut self, text: &mut String) -> Result<(), AllocError> {
        text.push_str(self.word(FIRST_PARTS))?;
        let second = self.word(SECOND_PARTS);
        if second != "-" {
            text.push_str(second)?;
        }
        Ok(())
    }

    /// A selector of one to three compounds.
    fn selector(&mut self, alloc: Global) -> Result<String, AllocError> {
        let mut text = String::new(alloc);
        self.push_compound(&mut text)?;
        for _step in 0..self.below(3) {
            text.push_str(if self.below(2) == 0 { " " } else { " > " })?;
            self.push_compound(&mut text)?;
        }
        Ok(text)
    }

    fn selectors(&mut self, alloc: Global) -> Result<Ast, Fail> {
        let mut ast = Ast::new(alloc);
        for _selector in 0..SELECTORS {
            let text = self.selector(alloc)?;
            add(alloc, &mut ast, &text, self.below(40))?;
        }
        Ok(ast)
    }

    fn tag(&mut self) -> TagWord<'static> {
        let ns = match self.below(6) {
            0 => Namespace::Svg,
            1 => Namespace::MathML,
            _ => Namespace::Html,
        };
        let attribute = TagWord::of(self.word(ATTRIBUTES)).attribute;
        TagWord {
            ends: self.below(3) == 0,
            name: self.word(NAMES),
            ns,
            attribute,
            self_closing: self.below(4) == 0,
            finish: self.below(8) > 0,
        }
    }

    fn tags(&mut self, alloc: Global) -> Result<Vec<TagWord<'static>>, AllocError> {
        let mut tags = Vec::new(alloc);
        for _tag in 0..TAGS {
            tags.push(self.tag())?;
        }
        Ok(tags)
    }
}

/// Whether a report says what a plain answer says.
fn agrees(report: &TagReport, told: &PlainAnswer) -> bool {
    match told {
        PlainAnswer::Started {
            matched,
            asked,
            names,
            attributes,
        } => match report {
            TagReport::Started {
                matched: reported,
                asked: was_asked,
                tries,
            } => {
                reported.as_slice() == matched.as_slice()
                    && *was_asked == *asked
                    && tries.names() == *names as u64
                    && tries.attributes() == *attributes as u64
            }
            _ => false,
        },
        PlainAnswer::Dropped => matches!(report, TagReport::Dropped),
        PlainAnswer::Ended { closed } => match report {
            TagReport::Ended { closed: numbers } => numbers.as_slice() == closed.as_slice(),
            _ => false,
        },
    }
}

/// How many reports, from the first on, say what the plain answers say.
fn count_agreeing(reports: &[TagReport], told: &[PlainAnswer]) -> usize {
    let mut count = 0usize;
    for (report, told) in reports.iter().zip(told) {
        if !agrees(report, told) {
            return count;
        }
        count = count.saturating_add(1);
    }
    count
}

fn expect_agreement(rt: &impl Abort, seed: u64, reports: &[TagReport], told: &[PlainAnswer]) {
    assert!(rt; reports.len() == told.len());
    let count = count_agreeing(reports, told);
    assert!(rt; count == told.len(), "document {seed}, tag {count}");
}

/// Expects the machine to answer as the plain program does.
fn compare_events(
    rt: &impl Abort,
    alloc: Global,
    seed: u64,
    ast: Ast,
    events: &[TagEvent<'_>],
) -> Result<(), Fail>
    requires { All HasRangesInside events.now }
{
    let enable_esi_tags = seed % 2 == 1;
    let told = plain_answers(alloc, &ast, enable_esi_tags, events)?;
    let reports = reports_of_events(alloc, ast, enable_esi_tags, events)?;
    expect_agreement(rt, seed, &reports, &told);
    Ok(())
}

fn compare_tags(
    rt: &impl Abort,
    alloc: Global,
    seed: u64,
    ast: Ast,
    tags: &[TagWord<'_>],
) -> Result<(), Fail> {
    let attributes = attributes_of(alloc, tags)?;
    let events = events_of(alloc, tags, &attributes)?;
    compare_events(rt, alloc, seed, ast, &events)
}

fn compare(rt: &impl Abort, alloc: Global, seed: u64) -> Result<(), Fail> {
    let mut drawn = Drawn { state: seed };
    let ast = drawn.selectors(alloc)?;
    let tags = drawn.tags(alloc)?;
    compare_tags(rt, alloc, seed, ast, &tags)
}

#[test]
fn agrees_with_the_machine(rt: HostRuntime) -> Result<(), Fail> {
    for seed in 0..DOCUMENTS {
        compare(&rt, rt.alloc(), seed)?;
    }
    Ok(())
}
