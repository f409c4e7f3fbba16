//! Attributes, after the `[` (Selectors 4, section 6).

ghost use Rattle.std.specs.Prelude.{◌≡◌};
ghost use Rattle.std.specs.List.{list_any};
ghost use Rattle.std.specs.Str.{bytes_eq, byte};
ghost use Rattle.lol_css.specs.CaselessAttributes.{caseless_attributes};
ghost use Rattle.lol_css.specs.Trees as trees;
ghost use Rattle.lol_css.specs.Rules.{required_token, giving, InBrackets};
ghost use Rattle.lol_css.specs.Reading.{name_after_bar, bar_of, attribute_name, operator_of, written_value, flag_of, default_case_sensitivity, case_sensitivity, comparison, attribute, utf8};
ghost use Rattle.lol_css.specs.Accepting.{judged_part};
ghost use Rattle.lol_css.specs.declared.error.SelectorError.TheVariants.{UnexpectedToken, UnexpectedTokenInAttribute};
ghost use Rattle.lol_css.specs.Views.{Reads, ReadsUnlessMemory, points_of, judgement};
ghost use Rattle.lol_css.specs.TreeViews.{part_of};

use crate::error::{Read, SelectorError};
use crate::selector::{CssString, SimpleSelector};
use crate::selectors::judged::{Judged, Refusal};
use crate::syntax::reader::{Nesting, Reader};
use crate::syntax::texts::Name;
use crate::syntax::tokens::Token;
use lol_base::{AttrSelectorOperator, ParsedCaseSensitivity};
use std::alloc::Global;

/// The name after a bar, and whether `*` stands before the bar.
fn name_after_bar<'a>(any_namespace: bool, reader: &mut Reader<'a>) -> Read<(Name<'a>, bool)>
    ensures { Reads (λ x. (points_of x.0, x.1)) result reader.new (name_after_bar any_namespace reader.old) }
{
    let name = reader.expect_name(
        Nesting::InBrackets,
        SelectorError::UnexpectedTokenInAttribute,
    )?;
    Ok((name, any_namespace))
}

#[tactic(auto, unfolding(crate::specs::Rules::required_token))]
fn bar(reader: &mut Reader<'_>) -> Read<()>
    ensures { Reads (λ _. byte "|") result reader.new
        (required_token InBrackets bar_of UnexpectedTokenInAttribute reader.old) }
{
    match reader.expect(Nesting::InBrackets)? {
        Token::Delim('|') => {
            reader.advance();
            Ok(())
        }
        _ => Err(SelectorError::UnexpectedTokenInAttribute),
    }
}

/// The name, and whether `*|` stands before it.
#[tactic(auto, unfolding(crate::specs::Reading::attribute_name, crate::specs::Rules::required_token))]
fn attribute_name<'a>(reader: &mut Reader<'a>) -> Read<(Name<'a>, bool)>
    ensures { Reads (λ x. (points_of x.0, x.1)) result reader.new (attribute_name reader.old) }
{
    match reader.expect(Nesting::InBrackets)? {
        Token::Ident(name) => {
            reader.advance();
            if reader.is_at_delim('|') {
                return Err(SelectorError::NamespacedSelector);
            }
            Ok((name, false))
        }
        Token::Delim('|') => {
            reader.advance();
            name_after_bar(false, reader)
        }
        Token::Delim('*') => {
            reader.advance();
            bar(reader)?;
            name_after_bar(true, reader)
        }
        _ => Err(SelectorError::MissingAttributeName),
    }
}

#[tactic(auto, unfolding(crate::specs::Rules::required_token))]
fn operator(reader: &mut Reader<'_>) -> Read<AttrSelectorOperator>
    ensures { Reads (λ x. x) result reader.new
        (required_token InBrackets operator_of UnexpectedTokenInAttribute reader.old) }
{
    let operator = match reader.expect(Nesting::InBrackets)? {
        Token::Delim('=') => AttrSelectorOperator::Equal,
        Token::Match(operator) => operator,
        _ => return Err(SelectorError::UnexpectedTokenInAttribute),
    };
    reader.advance();
    Ok(operator)
}

#[tactic(auto, unfolding(crate::specs::Rules::required_token))]
fn flag(reader: &mut Reader<'_>) -> Read<ParsedCaseSensitivity>
    ensures { Reads (λ x. x) result reader.new (required_token InBrackets flag_of UnexpectedToken reader.old) }
{
    let flag = match reader.expect(Nesting::InBrackets)? {
        Token::Ident(name) if name.is_word("i") => ParsedCaseSensitivity::AsciiCaseInsensitive,
        Token::Ident(name) if name.is_word("s") => ParsedCaseSensitivity::ExplicitCaseSensitive,
        _ => return Err(SelectorError::UnexpectedToken),
    };
    reader.advance();
    Ok(flag)
}

/// The attributes whose values compare without case on HTML elements.
static CASELESS: [&str; 46] = [
    "accept",
    "accept-charset",
    "align",
    "alink",
    "axis",
    "bgcolor",
    "charset",
    "checked",
    "clear",
    "codetype",
    "color",
    "compact",
    "declare",
    "defer",
    "dir",
    "direction",
    "disabled",
    "enctype",
    "face",
    "frame",
    "hreflang",
    "http-equiv",
    "lang",
    "language",
    "link",
    "media",
    "method",
    "multiple",
    "nohref",
    "noresize",
    "noshade",
    "nowrap",
    "readonly",
    "rel",
    "rev",
    "rules",
    "scope",
    "scrolling",
    "selected",
    "shape",
    "target",
    "text",
    "type",
    "valign",
    "valuetype",
    "vlink",
];

fn is_among(name: &str, names: &[&str]) -> bool
    ensures { result ≡ list_any (λ other. bytes_eq name.now other.now) names.now }
{
    names.iter().any(|other| name == *other)
}

fn is_caseless(name: &str) -> bool
    ensures { result ≡ list_any (λ other. bytes_eq name.now other) caseless_attributes }
{
    is_among(name, &CASELESS)
}

/// How an attribute of this name is compared where no flag stands.
fn default_case_sensitivity(name: &CssString) -> ParsedCaseSensitivity
    ensures { result ≡ default_case_sensitivity name.now }
{
    if is_caseless(name.as_str()) {
        ParsedCaseSensitivity::AsciiCaseInsensitiveIfInHtmlElementInHtmlDocument
    } else {
        ParsedCaseSensitivity::CaseSensitive
    }
}

/// The flag, and the end.
#[tactic(auto, unfolding(crate::specs::Reading::case_sensitivity))]
fn case_sensitivity(name: &CssString, reader: &mut Reader<'_>) -> Read<ParsedCaseSensitivity>
    ensures { Reads (λ x. x) result reader.new (case_sensitivity name.now reader.old) }
{
    if reader.is_at_end(Nesting::InBrackets) {
        reader.advance();
        return Ok(default_case_sensitivity(name));
    }
    let found = flag(reader)?;
    reader.close(Nesting::InBrackets)?;
    Ok(found)
}

/// The value that is compared with, a name or a quoted text.
#[tactic(auto, unfolding(crate::specs::Rules::required_token))]
fn value(alloc: Global, reader: &mut Reader<'_>) -> Read<CssString>
    ensures { ReadsUnlessMemory (λ s. s) result reader.new
        (giving utf8 (required_token InBrackets written_value UnexpectedTokenInAttribute reader.old)) }
{
    let value = match reader.expect(Nesting::InBrackets)? {
        Token::Ident(name) => name.to_text(alloc)?,
        Token::Quoted(quoted) => quoted.to_text(alloc)?,
        _ => return Err(SelectorError::UnexpectedTokenInAttribute),
    };
    reader.advance();
    Ok(value)
}

/// What stands after the name.
#[tactic(auto, unfolding(crate::specs::Reading::comparison))]
fn comparison(alloc: Global, name: CssString, reader: &mut Reader<'_>) -> Read<SimpleSelector>
    ensures { ReadsUnlessMemory part_of result reader.new (giving trees.Plain (comparison name reader.old)) }
{
    if reader.is_at_end(Nesting::InBrackets) {
        reader.advance();
        return Ok(SimpleSelector::AttributeExists { name });
    }
    let operator = operator(reader)?;
    reader.skip_space();
    let value = value(alloc, reader)?;
    reader.skip_space();
    let case_sensitivity = case_sensitivity(&name, reader)?;
    Ok(SimpleSelector::AttributeComparison {
        name,
        value,
        operator,
        case_sensitivity,
    })
}

/// An attribute, after the `[`.
#[tactic(auto, unfolding(crate::specs::Reading::attribute, crate::specs::Accepting::judged_part))]
pub(crate) fn attribute<'a>(
    alloc: Global,
    reader: &mut Reader<'a>,
) -> Read<Judged<'a, SimpleSelector>>
    ensures { ReadsUnlessMemory (judgement part_of) result reader.new
        (giving judged_part (attribute reader.old)) }
{
    reader.skip_space();
    let left = reader.rest();
    let (name, any_namespace) = attribute_name(reader)?;
    let name = name.to_lowercase_text(alloc)?;
    reader.skip_space();
    let part = comparison(alloc, name, reader)?;
    let cause = SelectorError::NamespacedSelector;
    Ok(if any_namespace {
        Err(Refusal { cause, left })
    } else {
        Ok(part)
    })
}
