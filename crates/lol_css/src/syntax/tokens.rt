//! Tokens (CSS Syntax 3, section 4): at each place the first fitting row decides.

ghost use Rattle.std.specs.Prelude.{◌≡◌, ◌<◌, ◌≤◌, length, drop, IfSome};
ghost use Rattle.std.specs.Option.{option_map};
ghost use Rattle.lol_css.specs.Points.{many, first_that, is_white_space, is_decimal, is_sign, past, name};
ghost use Rattle.lol_css.specs.Tokens.{comment, in_comment, space, hash, cdc, identifier, match_operator, match_sign, delim, next, numeral, number, string, leading_sign, after_fraction, after_exponent, tokens_of};
ghost use Rattle.lol_css.specs.Locating.{token_starts};
ghost use Rattle.lol_css.specs.Views.{Took, IsFirst, token_of, numeral_of};

use crate::syntax::points::{
    begins_escape, is_at_digit, is_in_name, is_white_space, name_point, starts_identifier,
    starts_number,
};
use crate::syntax::texts::{Name, Quoted, after_string};
use lol_base::AttrSelectorOperator;

/// The sign of a number.
#[derive(Clone, Copy)]
pub(crate) enum Sign {
    /// `+`
    Plus,
    /// `-`
    Minus,
}

/// A number as it is written.
#[derive(Clone, Copy)]
pub(crate) struct Numeral<'a> {
    pub sign: Option<Sign>,
    /// The digits, if there are neither fraction nor exponent.
    pub integer: Option<&'a [char]>,
}

/// A token, over the text that it was read from.
#[derive(Clone, Copy)]
pub(crate) enum Token<'a> {
    /// A row of white space.
    Space,
    Quoted(Quoted<'a>),
    /// A string with an unescaped LF in it, up to there.
    BadString,
    /// `#` with a name, and whether it is an id.
    Hash(Name<'a>, bool),
    Number(Numeral<'a>),
    /// A number with a unit.
    Dimension(Numeral<'a>, Name<'a>),
    Percentage,
    /// `-->`
    Cdc,
    /// A name with `(` after it.
    Function(Name<'a>),
    Ident(Name<'a>),
    /// `~=` and the like.
    Match(AttrSelectorOperator),
    Delim(char),
}

/// What a row gives: nothing where it doesn't fit, else its token (none for a comment) and what is left.
pub(crate) type Found<'a> = Option<(Option<Token<'a>>, &'a [char])>;

/// A code point of a comment, and what is left; nothing at its end.
#[tactic(auto, unfolding(crate::specs::Tokens::in_comment))]
fn in_comment(text: &[char]) -> Option<(char, &[char])>
    ensures value { Took (λ x. (x.0, x.1.now)) result (in_comment text.now) }
    ensures shorter { IfSome result (λ x. length x.1.now < length text.now) }
{
    match text {
        [] | ['*', '/', ..] => None,
        [c, rest @ ..] => Some((*c, rest)),
    }
}

#[tactic(auto, using(crate::proofs::Loops::comment_steps))]
fn after_comment(text: &[char]) -> &[char]
    ensures value { result.now ≡ drop 2 (many in_comment text.now).1 }
{
    let mut rest = text;
    while let Some((_, after)) = in_comment(rest) {
        rest = after;
    }
    past_two(rest)
}

fn past_two(text: &[char]) -> &[char]
    ensures { result.now ≡ drop 2 text.now }
{
    match text {
        [_, _, after @ ..] => after,
        _ => &[],
    }
}

#[tactic(auto, unfolding(crate::specs::Tokens::comment))]
fn comment(text: &[char]) -> Found<'_>
    ensures { Took (λ x. (option_map token_of x.0, x.1.now)) result (comment text.now) }
{
    match text {
        ['/', '*', rest @ ..] => Some((None, after_comment(rest))),
        _ => None,
    }
}

fn white_space(text: &[char]) -> Option<(char, &[char])>
    ensures value { Took (λ x. (x.0, x.1.now)) result (first_that is_white_space text.now) }
    ensures shorter { IfSome result (λ x. length x.1.now < length text.now) }
{
    let (c, rest) = text.split_first()?;
    is_white_space(*c).then_some((*c, rest))
}

#[tactic(auto, unfolding(crate::specs::Tokens::space), using(crate::proofs::Loops::space_steps))]
fn space(text: &[char]) -> Found<'_>
    ensures { Took (λ x. (option_map token_of x.0, x.1.now)) result (space text.now) }
{
    let (_, mut rest) = white_space(text)?;
    while let Some((_, after)) = white_space(rest) {
        rest = after;
    }
    Some((Some(Token::Space), rest))
}

#[tactic(auto, unfolding(crate::specs::Tokens::string, crate::specs::Views::quoted_points))]
fn string(text: &[char]) -> Found<'_>
    ensures { Took (λ x. (option_map token_of x.0, x.1.now)) result (string text.now) }
{
    let [quote @ ('"' | '\''), rest @ ..] = text else {
        return None;
    };
    let quoted = Quoted {
        quote: *quote,
        text: rest,
    };
    match after_string(*quote, rest) {
        after @ ['\n', ..] => Some((Some(Token::BadString), after)),
        [_, after @ ..] | after @ [] => Some((Some(Token::Quoted(quoted)), after)),
    }
}

#[tactic(auto, using(crate::proofs::Loops::name_steps))]
fn after_name(text: &[char]) -> &[char]
    ensures { result.now ≡ (name text.now).1 }
{
    let mut rest = text;
    while let Some((_, after)) = name_point(rest) {
        rest = after;
    }
    rest
}

#[tactic(auto, unfolding(crate::specs::Tokens::hash, crate::specs::Views::points_of))]
fn hash(text: &[char]) -> Found<'_>
    ensures { Took (λ x. (option_map token_of x.0, x.1.now)) result (hash text.now) }
{
    let ['#', rest @ ..] = text else {
        return None;
    };
    if !matches!(rest, [c, ..] if is_in_name(*c)) && !begins_escape(rest) {
        return None;
    }
    let hash = Token::Hash(Name { text: rest }, starts_identifier(rest));
    Some((Some(hash), after_name(rest)))
}

fn decimal_digit(text: &[char]) -> Option<(char, &[char])>
    ensures value { Took (λ x. (x.0, x.1.now)) result (first_that is_decimal text.now) }
    ensures shorter { IfSome result (λ x. length x.1.now < length text.now) }
{
    let (c, rest) = text.split_first()?;
    c.is_ascii_digit().then_some((*c, rest))
}

#[tactic(auto, using(crate::proofs::Loops::decimal_steps))]
fn after_digits(text: &[char]) -> &[char]
    ensures value { result.now ≡ (many (first_that is_decimal) text.now).1 }
    ensures shorter { length result.now ≤ length text.now }
{
    let mut rest = text;
    while let Some((_, after)) = decimal_digit(rest) {
        rest = after;
    }
    rest
}

#[tactic(auto, unfolding(crate::specs::Tokens::after_fraction))]
fn after_fraction(text: &[char]) -> &[char]
    ensures { result.now ≡ after_fraction text.now }
{
    match text {
        ['.', digits @ ..] if is_at_digit(digits) => after_digits(digits),
        _ => text,
    }
}

#[tactic(auto, unfolding(crate::specs::Tokens::after_exponent))]
fn after_exponent(text: &[char]) -> &[char]
    ensures { result.now ≡ after_exponent text.now }
{
    match text {
        ['e' | 'E', '+' | '-', digits @ ..] if is_at_digit(digits) => after_digits(digits),
        ['e' | 'E', digits @ ..] if is_at_digit(digits) => after_digits(digits),
        _ => text,
    }
}

fn split_sign(text: &[char]) -> (Option<Sign>, &[char])
    ensures sign { result.0 ≡ leading_sign text.now }
    ensures rest { result.1.now ≡ past is_sign text.now }
{
    match text {
        ['+', rest @ ..] => (Some(Sign::Plus), rest),
        ['-', rest @ ..] => (Some(Sign::Minus), rest),
        _ => (None, text),
    }
}

#[tactic(auto, unfolding(crate::specs::Tokens::numeral), using(crate::proofs::Loops::digit_steps))]
fn split_number(text: &[char]) -> (Numeral<'_>, &[char])
    ensures { (numeral_of result.0, result.1.now) ≡ numeral text.now }
{
    let (sign, digits) = split_sign(text);
    let after = after_digits(digits);
    let rest = after_exponent(after_fraction(after));
    let integer = &digits[..digits.len() - after.len()];
    let integer = (rest.len() == after.len()).then_some(integer);
    (Numeral { sign, integer }, rest)
}

#[tactic(auto, unfolding(crate::specs::Tokens::number, crate::specs::Views::points_of))]
fn number(text: &[char]) -> Found<'_>
    ensures { Took (λ x. (option_map token_of x.0, x.1.now)) result (number text.now) }
{
    if !starts_number(text) {
        return None;
    }
    let (number, rest) = split_number(text);
    if starts_identifier(rest) {
        let unit = Name { text: rest };
        return Some((Some(Token::Dimension(number, unit)), after_name(rest)));
    }
    match rest {
        ['%', after @ ..] => Some((Some(Token::Percentage), after)),
        _ => Some((Some(Token::Number(number)), rest)),
    }
}

#[tactic(auto, unfolding(crate::specs::Tokens::cdc))]
fn cdc(text: &[char]) -> Found<'_>
    ensures { Took (λ x. (option_map token_of x.0, x.1.now)) result (cdc text.now) }
{
    match text {
        ['-', '-', '>', rest @ ..] => Some((Some(Token::Cdc), rest)),
        _ => None,
    }
}

#[tactic(auto, unfolding(crate::specs::Tokens::identifier, crate::specs::Views::points_of))]
fn identifier(text: &[char]) -> Found<'_>
    ensures { Took (λ x. (option_map token_of x.0, x.1.now)) result (identifier text.now) }
{
    if !starts_identifier(text) {
        return None;
    }
    let name = Name { text };
    match after_name(text) {
        ['(', after @ ..] => Some((Some(Token::Function(name)), after)),
        after => Some((Some(Token::Ident(name)), after)),
    }
}

fn match_operator(sign: char) -> Option<AttrSelectorOperator>
    ensures { result ≡ match_operator sign }
{
    match sign {
        '~' => Some(AttrSelectorOperator::Includes),
        '|' => Some(AttrSelectorOperator::DashMatch),
        '^' => Some(AttrSelectorOperator::Prefix),
        '$' => Some(AttrSelectorOperator::Suffix),
        '*' => Some(AttrSelectorOperator::Substring),
        _ => None,
    }
}

#[tactic(auto, unfolding(crate::specs::Tokens::match_sign))]
fn match_sign(text: &[char]) -> Found<'_>
    ensures { Took (λ x. (option_map token_of x.0, x.1.now)) result (match_sign text.now) }
{
    let [sign, '=', rest @ ..] = text else {
        return None;
    };
    Some((Some(Token::Match(match_operator(*sign)?)), rest))
}

#[tactic(auto, unfolding(crate::specs::Tokens::delim))]
fn delim(text: &[char]) -> Found<'_>
    ensures { Took (λ x. (option_map token_of x.0, x.1.now)) result (delim text.now) }
{
    let (c, rest) = text.split_first()?;
    Some((Some(Token::Delim(*c)), rest))
}

/// What stands first: a token, or a comment, and what is left.
#[tactic(auto, unfolding(crate::specs::Tokens::next))]
fn next(text: &[char]) -> Found<'_>
    ensures { Took (λ x. (option_map token_of x.0, x.1.now)) result (next text.now) }
{
    if let Some(found) = comment(text) {
        return Some(found);
    }
    if let Some(found) = space(text) {
        return Some(found);
    }
    if let Some(found) = string(text) {
        return Some(found);
    }
    if let Some(found) = hash(text) {
        return Some(found);
    }
    if let Some(found) = number(text) {
        return Some(found);
    }
    if let Some(found) = cdc(text) {
        return Some(found);
    }
    if let Some(found) = identifier(text) {
        return Some(found);
    }
    if let Some(found) = match_sign(text) {
        return Some(found);
    }
    delim(text)
}

/// The token that comes first, if there is one, and the text from it on and after it.
#[derive(Clone, Copy)]
pub(crate) struct FirstToken<'a> {
    pub token: Option<Token<'a>>,
    pub start: &'a [char],
    pub after: &'a [char],
}

#[tactic(auto, using(crate::proofs::Streams::token_steps, crate::proofs::Places::start_steps))]
pub(crate) fn first_token(text: &[char]) -> FirstToken<'_>
    ensures first { IsFirst (tokens_of text.now) (option_map token_of result.token) (tokens_of result.after.now) }
    ensures whole { tokens_of result.start.now ≡ tokens_of text.now }
    ensures starts { IsFirst (token_starts text.now)
        (option_map (λ _. length result.start.now) result.token) (token_starts result.after.now) }
{
    let mut rest = text;
    loop {
        match next(rest) {
            None => {
                return FirstToken {
                    token: None,
                    start: rest,
                    after: rest,
                };
            }
            Some((Some(token), after)) => {
                return FirstToken {
                    token: Some(token),
                    start: rest,
                    after,
                };
            }
            Some((None, after)) => rest = after,
        }
    }
}

pub(crate) fn count_tokens(text: &[char]) -> usize
    ensures value { result ≡ length (tokens_of text.now) }
    ensures small { result ≤ length text.now }
{
    let mut count = 0;
    let mut rest = text;
    while let FirstToken {
        token: Some(_),
        after,
        ..
    } = first_token(rest)
    {
        count += 1;
        rest = after;
    }
    count
}
