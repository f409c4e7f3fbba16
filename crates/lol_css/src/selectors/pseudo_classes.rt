//! Pseudo-classes that take no list (Selectors 4, section 14).

ghost use Rattle.std.specs.Prelude.{◌≡◌};
ghost use Rattle.lol_css.specs.Rules.{giving};
ghost use Rattle.lol_css.specs.Reading.{function_part, ident_part, is_one_of, late_words};
ghost use Rattle.lol_css.specs.Accepting.{judged_part};
ghost use Rattle.lol_css.specs.Views.{Reads, ReadsFirst, points_of, judgement};
ghost use Rattle.lol_css.specs.TreeViews.{part_of};

use crate::error::{Read, SelectorError};
use crate::selector::SimpleSelector;
use crate::selectors::judged::{Judged, Refusal};
use crate::syntax::an_plus_b::an_plus_b;
use crate::syntax::reader::Reader;
use crate::syntax::texts::Name;
use lol_base::NthChild;

fn is_late_word(name: Name<'_>) -> bool
    ensures { result ≡ is_one_of late_words (points_of name.entry) }
{
    name.is_word("last-child")
        || name.is_word("only-child")
        || name.is_word("last-of-type")
        || name.is_word("only-of-type")
        || name.is_word("root")
        || name.is_word("empty")
        || name.is_word("scope")
}

/// A pseudo-class without an argument; the next token is its name, which stays.
#[tactic(auto, unfolding(crate::specs::Reading::ident_part, crate::specs::Accepting::judged_part))]
pub(crate) fn ident_part<'a>(
    name: Name<'a>,
    reader: &Reader<'a>,
) -> Read<Judged<'a, SimpleSelector>>
    ensures { ReadsFirst (judgement part_of) result reader.now
        (giving judged_part (ident_part (points_of name.entry) reader.now)) }
{
    let cause = SelectorError::UnsupportedPseudoClassOrElement;
    let nth = NthChild::new(0, 1);
    if name.is_word("first-child") {
        return Ok(Ok(SimpleSelector::Nth {
            of_type: false,
            nth,
        }));
    }
    if name.is_word("first-of-type") {
        return Ok(Ok(SimpleSelector::Nth { of_type: true, nth }));
    }
    if is_late_word(name) {
        let left = reader.rest();
        return Ok(Err(Refusal { cause, left }));
    }
    Err(cause)
}

/// A pseudo-class whose argument is no list; the next token is its name with the parenthesis.
#[tactic(auto, unfolding(crate::specs::Reading::function_part, crate::specs::Accepting::judged_part))]
pub(crate) fn function_part<'a>(
    name: Name<'a>,
    reader: &mut Reader<'a>,
) -> Read<Judged<'a, SimpleSelector>>
    ensures { Reads (judgement part_of) result reader.new
        (giving judged_part (function_part (points_of name.entry) reader.old)) }
{
    let cause = SelectorError::UnsupportedPseudoClassOrElement;
    if name.is_word("nth-child") {
        reader.advance();
        let nth = an_plus_b(reader)?;
        return Ok(Ok(SimpleSelector::Nth {
            of_type: false,
            nth,
        }));
    }
    if name.is_word("nth-of-type") {
        reader.advance();
        let nth = an_plus_b(reader)?;
        return Ok(Ok(SimpleSelector::Nth { of_type: true, nth }));
    }
    if name.is_word("nth-last-child") || name.is_word("nth-last-of-type") {
        let left = reader.rest();
        reader.advance();
        let _ = an_plus_b(reader)?;
        return Ok(Err(Refusal { cause, left }));
    }
    Err(cause)
}
