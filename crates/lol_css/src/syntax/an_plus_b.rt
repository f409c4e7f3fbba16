//! An+B (CSS Syntax 3, section 6), after the parenthesis of `:nth-child(` and its kin.

ghost use Rattle.std.specs.Prelude.{◌≡◌, ◌≤◌, ◌+◌, ◌-◌, ◌*◌, List, min, drop, if◌then◌else◌, Some, None, IfSome};
ghost use Rattle.std.specs.List.{list_all};
ghost use Rattle.std.specs.Str.{byte};
ghost use Rattle.lol_css.specs.Points.{decimal, is_decimal};
ghost use Rattle.lol_css.specs.Tokens as tokens;
ghost use Rattle.lol_css.specs.AnPlusB.{integer, an_plus_b, an_plus_b_of, rest_of, an_plus_b_of_dimension, after_n, digits_of_b, bounded_integer, with_sign, is_n_and_digits};
ghost use Rattle.lol_css.specs.Views.{Reads, ReadsFirst, numeral_of, token_of, points_of};

use crate::error::{Read, SelectorError};
use crate::syntax::reader::{Nesting, Reader};
use crate::syntax::texts::Name;
use crate::syntax::tokens::{Numeral, Sign, Token};
use lol_base::NthChild;

/// One more than the magnitude of the least `i32`.
const TOO_LARGE: u64 = 2_147_483_649;

/// The number with one more digit after it, or `TOO_LARGE`.
fn with_digit(number: u64, digit: char) -> u64
    requires { number ≤ TOO_LARGE }
    ensures { result ≡ min (number * 10 + (digit - byte "0")) TOO_LARGE }
{
    let digit = u64::from(u32::from(digit).saturating_sub(u32::from('0')));
    (number * 10 + digit).min(TOO_LARGE)
}

/// The number that decimal digits write, or `TOO_LARGE`.
#[tactic(auto, using(crate::proofs::Digits::capped_steps))]
fn magnitude(digits: &[char]) -> u64
    ensures { result ≡ min (decimal digits.now) TOO_LARGE }
{
    let mut number = 0;
    for digit in digits {
        number = with_digit(number, *digit);
    }
    number
}

/// The number that a name of decimal digits writes, or `TOO_LARGE`.
#[tactic(auto, using(crate::proofs::Digits::capped_steps))]
fn name_magnitude(name: Name<'_>) -> Option<u64>
    ensures { result ≡ (if list_all is_decimal (points_of name.entry)
        then Some (min (decimal (points_of name.entry)) TOO_LARGE) else None) }
{
    let mut number = 0;
    let mut rest = name;
    while let Some((c, after)) = rest.split_first() {
        if !c.is_ascii_digit() {
            return None;
        }
        number = with_digit(number, c);
        rest = after;
    }
    Some(number)
}

/// A magnitude with its sign: `UnexpectedToken` outside `i32`.
#[tactic(auto, unfolding(crate::specs::AnPlusB::bounded_integer))]
fn bounded_integer(sign: Sign, magnitude: u64) -> Read<i32>
    requires { magnitude ≤ TOO_LARGE }
    ensures { (tokens : List tokens.Token)
        → ReadsFirst (λ x. x) result tokens (bounded_integer (with_sign sign magnitude) tokens) }
{
    let magnitude = magnitude as i64;
    let number = match sign {
        Sign::Plus => magnitude,
        Sign::Minus => -magnitude,
    };
    i32::try_from(number).map_err(|_| SelectorError::UnexpectedToken)
}

/// The value of a number of these digits: `UnexpectedToken` outside `i32`.
fn value(sign: Sign, digits: &[char]) -> Read<i32>
    ensures { (tokens : List tokens.Token)
        → ReadsFirst (λ x. x) result tokens (bounded_integer (with_sign sign (decimal digits.now)) tokens) }
{
    bounded_integer(sign, magnitude(digits))
}

/// White space and a number without a sign, which gets this one.
#[tactic(auto, unfolding(crate::specs::AnPlusB::digits_of_b, crate::specs::Rules::required_token))]
fn digits_of_b(sign: Sign, reader: &mut Reader<'_>) -> Read<i32>
    ensures { Reads (λ x. x) result reader.new (digits_of_b sign reader.old) }
{
    reader.skip_space();
    match reader.expect(Nesting::InFunction)? {
        Token::Number(
            Numeral {
                sign: None,
                integer: Some(digits),
            },
        ) => {
            let number = value(sign, digits)?;
            reader.advance();
            Ok(number)
        }
        _ => Err(SelectorError::UnexpectedToken),
    }
}

/// B after `n` and white space; 0, with nothing taken, where none stands.
#[tactic(auto, unfolding(crate::specs::AnPlusB::after_n))]
fn after_n(reader: &mut Reader<'_>) -> Read<i32>
    ensures { Reads (λ x. x) result reader.new (after_n reader.old) }
{
    match reader.peek() {
        Some(Token::Delim('+')) => {
            reader.advance();
            digits_of_b(Sign::Plus, reader)
        }
        Some(Token::Delim('-')) => {
            reader.advance();
            digits_of_b(Sign::Minus, reader)
        }
        Some(
            Token::Number(
                Numeral {
                    sign: Some(sign),
                    integer: Some(digits),
                },
            ),
        ) => {
            let number = value(sign, digits)?;
            reader.advance();
            Ok(number)
        }
        _ => Ok(0),
    }
}

/// The digits after `n-` in a name, as their number or `TOO_LARGE`.
fn digits_after_n(name: Name<'_>) -> Option<u64>
    ensures value { result ≡ (if is_n_and_digits (points_of name.entry)
        then Some (min (decimal (drop 2 (points_of name.entry))) TOO_LARGE) else None) }
    ensures small { IfSome result (λ n. n ≤ TOO_LARGE) }
{
    let (n, rest) = name.split_first()?;
    let (minus, rest) = rest.split_first()?;
    if n.to_ascii_lowercase() != 'n' || minus != '-' {
        return None;
    }
    name_magnitude(rest)
}

/// B, of which the name that ends the next token holds the beginning: `n`, `n-`, or `n-` with digits.
#[tactic(auto, unfolding(crate::specs::AnPlusB::rest_of))]
fn rest_of(name: Name<'_>, reader: &mut Reader<'_>) -> Read<i32>
    ensures { Reads (λ x. x) result reader.new (rest_of (points_of name.entry) reader.old) }
{
    if name.is_word("n") {
        reader.advance();
        reader.skip_space();
        return after_n(reader);
    }
    if name.is_word("n-") {
        reader.advance();
        return digits_of_b(Sign::Minus, reader);
    }
    let Some(magnitude) = digits_after_n(name) else {
        return Err(SelectorError::UnexpectedToken);
    };
    let number = bounded_integer(Sign::Minus, magnitude)?;
    reader.advance();
    Ok(number)
}

/// A and B, of which the next token is this name.
#[tactic(auto, unfolding(crate::specs::AnPlusB::an_plus_b_of))]
fn named(name: Name<'_>, reader: &mut Reader<'_>) -> Read<(i32, i32)>
    ensures { Reads (λ x. x) result reader.new (an_plus_b_of (tokens.Ident (points_of name.entry)) reader.old) }
{
    if name.is_word("even") {
        reader.advance();
        return Ok((2, 0));
    }
    if name.is_word("odd") {
        reader.advance();
        return Ok((2, 1));
    }
    match name.split_first() {
        Some(('-', rest)) => Ok((-1, rest_of(rest, reader)?)),
        _ => Ok((1, rest_of(name, reader)?)),
    }
}

/// The value of an integer: `UnexpectedToken` where it has a fraction or an exponent, or lies outside `i32`.
#[tactic(auto, unfolding(crate::specs::AnPlusB::integer))]
fn integer(number: Numeral<'_>) -> Read<i32>
    ensures { (tokens : List tokens.Token)
        → ReadsFirst (λ x. x) result tokens (integer (numeral_of number.entry) tokens) }
{
    let digits = number.integer.ok_or(SelectorError::UnexpectedToken)?;
    value(number.sign.unwrap_or(Sign::Plus), digits)
}

/// A and B, of which this is the next token.
#[tactic(auto, unfolding(crate::specs::AnPlusB::an_plus_b_of, crate::specs::AnPlusB::an_plus_b_of_dimension, crate::specs::Rules::required_token))]
fn an_plus_b_of(token: Token<'_>, reader: &mut Reader<'_>) -> Read<(i32, i32)>
    ensures { Reads (λ x. x) result reader.new (an_plus_b_of (token_of token.entry) reader.old) }
{
    match token {
        Token::Ident(name) => named(name, reader),
        Token::Number(number) => {
            let offset = integer(number)?;
            reader.advance();
            Ok((0, offset))
        }
        Token::Dimension(number, unit) => Ok((integer(number)?, rest_of(unit, reader)?)),
        Token::Delim('+') => {
            reader.advance();
            match reader.expect(Nesting::InFunction)? {
                Token::Ident(name) => Ok((1, rest_of(name, reader)?)),
                _ => Err(SelectorError::UnexpectedToken),
            }
        }
        _ => Err(SelectorError::UnexpectedToken),
    }
}

/// A and B, up to the parenthesis that closes them.
#[tactic(auto, unfolding(crate::specs::AnPlusB::an_plus_b, crate::specs::Rules::required_token))]
pub(crate) fn an_plus_b(reader: &mut Reader<'_>) -> Read<NthChild>
    ensures { Reads (λ nth. (nth.step, nth.offset)) result reader.new (an_plus_b reader.old) }
{
    reader.skip_space();
    let first = reader.expect(Nesting::InFunction)?;
    let (step, offset) = an_plus_b_of(first, reader)?;
    reader.close(Nesting::InFunction)?;
    Ok(NthChild::new(step, offset))
}
