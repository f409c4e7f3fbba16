//! Texts as code points: preprocessing, escapes, and what a place starts (CSS Syntax 3, sections 3.3 and 4.3).

ghost use Rattle.std.specs.Prelude.{◌≡◌, ◌==◌, ◌&&◌, ◌++◌, OnOk, ◌<◌, ◌≤◌, length, IfOk, IfSome};
ghost use Rattle.std.specs.Str.{chars};
ghost use Rattle.lol_base.specs.CodePoints.{line_feed, carriage_return};
ghost use Rattle.lol_css.specs.Points.{past, first_passes, is_decimal, digit, hexadecimal, code_point, preprocessed, clean_point, clean_points_after, is_white_space, is_name_start, is_in_name, escaped_point, name_point, begins_escape, begins_name, starts_identifier, starts_number};
ghost use Rattle.lol_css.specs.Views.{Took};

use std::alloc::{AllocError, Global};

/// The code points of a text, with LF for each way to end a line and U+FFFD for NUL.
pub(crate) fn preprocessed(alloc: Global, text: &str) -> Result<Vec<char>, AllocError>
    ensures { IfOk result (λ v. v.items ≡ preprocessed (chars text.now)) }
{
    let mut points = Vec::with_capacity(alloc, text.len())?;
    let mut before = '\0';
    for c in text.chars() {
        push_clean(&mut points, before, c)?;
        before = c;
    }
    Ok(points)
}

/// Whether a code point is an LF that ends a line together with the CR before it.
pub(crate) fn ends_crlf(before: char, c: char) -> bool
    ensures { result ≡ (before == carriage_return && c == line_feed) }
{
    before == '\r' && c == '\n'
}

fn push_clean(points: &mut Vec<char>, before: char, c: char) -> Result<(), AllocError>
    ensures { OnOk result (points.new.items ≡ points.old.items ++ clean_points_after before c) }
{
    // Most code points are no control codes, and stay as they are.
    if c >= ' ' {
        points.push(c)?;
    } else if !ends_crlf(before, c) {
        points.push(clean_point(c))?;
    }
    Ok(())
}

fn clean_point(c: char) -> char
    ensures { result ≡ clean_point c }
{
    match c {
        '\r' | '\u{c}' => '\n',
        '\0' => '\u{fffd}',
        _ => c,
    }
}

pub(crate) fn is_white_space(c: char) -> bool
    ensures { result ≡ is_white_space c }
{
    c == ' ' || c == '\t' || c == '\n'
}

fn is_name_start(c: char) -> bool
    ensures { result ≡ is_name_start c }
{
    c.is_ascii_alphabetic() || c == '_' || c >= '\u{80}'
}

pub(crate) fn is_in_name(c: char) -> bool
    ensures { result ≡ is_in_name c }
{
    is_name_start(c) || c.is_ascii_digit() || c == '-'
}

/// Whether an escape begins here: a backslash with no LF after it.
pub(crate) fn begins_escape(text: &[char]) -> bool
    ensures { result ≡ begins_escape text.now }
{
    matches!(text, ['\\', rest @ ..] if !matches!(rest, ['\n', ..]))
}

fn begins_name(text: &[char]) -> bool
    ensures { result ≡ begins_name text.now }
{
    matches!(text, [c, ..] if is_name_start(*c)) || begins_escape(text)
}

pub(crate) fn starts_identifier(text: &[char]) -> bool
    ensures { result ≡ starts_identifier text.now }
{
    match text {
        ['-', '-', ..] => true,
        ['-', rest @ ..] => begins_name(rest),
        _ => begins_name(text),
    }
}

pub(crate) fn starts_number(text: &[char]) -> bool
    ensures { result ≡ starts_number text.now }
{
    let unsigned = match text {
        ['+' | '-', rest @ ..] => rest,
        _ => text,
    };
    let digits = match unsigned {
        ['.', rest @ ..] => rest,
        _ => unsigned,
    };
    is_at_digit(digits)
}

pub(crate) fn is_at_digit(text: &[char]) -> bool
    ensures { result ≡ first_passes is_decimal text.now }
{
    matches!(text, [c, ..] if c.is_ascii_digit())
}

/// The hexadecimal digit here, as its value, and what is left.
fn hexadecimal_digit(text: &[char]) -> Option<(u32, &[char])>
    ensures value { Took (λ x. (x.0, x.1.now)) result (digit 16 text.now) }
    ensures small { IfSome result (λ x. x.0 < 16) }
    ensures shorter { IfSome result (λ x. length x.1.now < length text.now) }
{
    let (first, rest) = text.split_first()?;
    Some((first.to_digit(16)?, rest))
}

/// The number that at most six hexadecimal digits write, and what is left.
#[tactic(auto, unfolding(crate::specs::Points::hexadecimal), using(crate::proofs::Many::hexadecimal_steps))]
fn hexadecimal(text: &[char]) -> (u32, &[char])
    ensures value { (result.0, result.1.now) ≡ hexadecimal text.now }
    ensures shorter { length result.1.now ≤ length text.now }
{
    let mut number = 0;
    let mut rest = text;
    for _ in 0..6u32 {
        match hexadecimal_digit(rest) {
            Some((digit, after)) => {
                number = number * 16 + digit;
                rest = after;
            }
            None => return (number, rest),
        }
    }
    (number, rest)
}

fn code_point(number: u32) -> char
    ensures { result ≡ code_point number }
{
    match number {
        0 => '\u{fffd}',
        _ => char::from_u32(number).unwrap_or('\u{fffd}'),
    }
}

fn past_white_space(text: &[char]) -> &[char]
    ensures { result.now ≡ past is_white_space text.now }
{
    match text {
        [c, rest @ ..] if is_white_space(*c) => rest,
        _ => text,
    }
}

/// After a backslash: the code point that the escape stands for, and what is left.
#[tactic(auto, unfolding(crate::specs::Points::escaped_point))]
pub(crate) fn escaped_point(text: &[char]) -> (char, &[char])
    ensures value { (result.0, result.1.now) ≡ escaped_point text.now }
    ensures shorter { length result.1.now ≤ length text.now }
{
    match text {
        [] => ('\u{fffd}', text),
        [c, ..] if c.is_ascii_hexdigit() => {
            let (number, rest) = hexadecimal(text);
            (code_point(number), past_white_space(rest))
        }
        [c, rest @ ..] => (*c, rest),
    }
}

/// A code point of a name, plain or escaped, and what is left.
#[tactic(auto, unfolding(crate::specs::Points::name_point))]
pub(crate) fn name_point(text: &[char]) -> Option<(char, &[char])>
    ensures value { Took (λ x. (x.0, x.1.now)) result (name_point text.now) }
    ensures shorter { IfSome result (λ x. length x.1.now < length text.now) }
{
    match text {
        // Most code points of names are small letters.
        [c, rest @ ..] if c.is_ascii_lowercase() || is_in_name(*c) => Some((*c, rest)),
        ['\\', rest @ ..] if begins_escape(text) => Some(escaped_point(rest)),
        _ => None,
    }
}
