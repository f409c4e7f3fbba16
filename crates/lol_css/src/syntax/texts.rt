//! Names and quoted texts as they are written: they are copied only where they are kept.

ghost use Rattle.std.specs.Prelude.{◌≡◌, ◌==◌, ◌<◌, ◌≤◌, length, ◌++◌, OnOk, IfOk, IfSome, string_bytes};
ghost use Rattle.std.specs.Option.{option_to_list};
ghost use Rattle.std.specs.Char.{to_ascii_lowercase};
ghost use Rattle.std.specs.Str.{encode_utf8_all};
ghost use Rattle.lol_css.specs.Tokens.{string_piece, string_escape, string_text};
ghost use Rattle.lol_css.specs.Rules.{says, lowercase};
ghost use Rattle.lol_css.specs.Reading.{utf8};
ghost use Rattle.lol_css.specs.Views.{Took, IsSplit, points_of, quoted_points};

use crate::selector::CssString;
use crate::syntax::points::{escaped_point, name_point};
use std::alloc::{AllocError, Global};

/// The bytes of room that a copied name begins with. Most names fit; the text after a name may be long.
const ROOM: usize = 24;

/// A name: the text from its first code point on, escapes and all.
#[derive(Clone, Copy)]
pub(crate) struct Name<'a> {
    pub text: &'a [char],
}

impl<'a> Name<'a> {
    /// The name's first code point, and the rest of the name.
    #[tactic(auto, unfolding(crate::specs::Views::points_of), using(crate::proofs::Many::first_steps))]
    pub(crate) fn split_first(self) -> Option<(char, Name<'a>)>
        ensures { IsSplit (points_of self.entry) result }
    {
        let (first, text) = name_point(self.text)?;
        Some((first, Name { text }))
    }

    /// Whether the name is this word, up to the case of ASCII letters.
    pub(crate) fn is_word(self, word: &str) -> bool
        ensures { result ≡ says word.now (points_of self.entry) }
    {
        let mut rest = self;
        for byte in word.as_bytes() {
            match rest.split_first() {
                Some((c, after)) if is_byte(c, *byte) => rest = after,
                _ => return false,
            }
        }
        rest.split_first().is_none()
    }

    pub(crate) fn to_text(self, alloc: Global) -> Result<CssString, AllocError>
        ensures { IfOk result (λ s. s ≡ utf8 (points_of self.entry)) }
    {
        let mut text = String::with_capacity(alloc, self.text.len().min(ROOM))?;
        let mut rest = self;
        while let Some((c, after)) = rest.split_first() {
            text.push(c)?;
            rest = after;
        }
        Ok(CssString::from_string(text))
    }

    /// A copy of the name, with its ASCII letters lowercased.
    pub(crate) fn to_lowercase_text(self, alloc: Global) -> Result<CssString, AllocError>
        ensures { IfOk result (λ s. s ≡ utf8 (lowercase (points_of self.entry))) }
    {
        let mut text = String::with_capacity(alloc, self.text.len().min(ROOM))?;
        let mut rest = self;
        while let Some((c, after)) = rest.split_first() {
            text.push(c.to_ascii_lowercase())?;
            rest = after;
        }
        Ok(CssString::from_string(text))
    }
}

/// Whether a code point, lowercased if it is an ASCII letter, is this byte.
fn is_byte(c: char, byte: u8) -> bool
    ensures { result ≡ (to_ascii_lowercase c == byte) }
{
    let wanted = char::from(byte);
    // Most code points are small letters.
    c.is_ascii_lowercase() && c == wanted || c.to_ascii_lowercase() == wanted
}

/// A quoted text: its quote, and the text after the quote, escapes and all.
#[derive(Clone, Copy)]
pub(crate) struct Quoted<'a> {
    pub quote: char,
    pub text: &'a [char],
}

/// What an escape in a string stands for, after the backslash, and what is left.
#[tactic(auto, unfolding(crate::specs::Tokens::string_escape))]
fn string_escape(text: &[char]) -> (Option<char>, &[char])
    ensures value { (option_to_list result.0, result.1.now) ≡ string_escape text.now }
    ensures shorter { length result.1.now ≤ length text.now }
{
    match text {
        [] => (None, text),
        ['\n', rest @ ..] => (None, rest),
        _ => {
            let (c, rest) = escaped_point(text);
            (Some(c), rest)
        }
    }
}

/// A code point of a string, or an escape that stands for none, and what is left; nothing at the string's end.
#[tactic(auto, unfolding(crate::specs::Tokens::string_piece))]
fn string_piece(quote: char, text: &[char]) -> Option<(Option<char>, &[char])>
    ensures value { Took (λ x. (option_to_list x.0, x.1.now)) result (string_piece quote text.now) }
    ensures shorter { IfSome result (λ x. length x.1.now < length text.now) }
{
    let (c, rest) = text.split_first()?;
    if *c == quote || *c == '\n' {
        return None;
    }
    if *c == '\\' {
        return Some(string_escape(rest));
    }
    Some((Some(*c), rest))
}

/// Where the string ends: at its quote, at an unescaped LF or at the text's end.
#[tactic(auto, using(crate::proofs::Streams::string_end_steps))]
pub(crate) fn after_string(quote: char, text: &[char]) -> &[char]
    ensures { result.now ≡ (string_text quote text.now).1 }
{
    let mut rest = text;
    while let Some((_, after)) = string_piece(quote, rest) {
        rest = after;
    }
    rest
}

impl Quoted<'_> {
    #[tactic(auto, unfolding(crate::specs::Views::quoted_points), using(crate::proofs::Streams::string_steps))]
    pub(crate) fn to_text(self, alloc: Global) -> Result<CssString, AllocError>
        ensures { IfOk result (λ s. s ≡ utf8 (quoted_points self.entry)) }
    {
        let mut text = String::new(alloc);
        let mut rest = self.text;
        while let Some((piece, after)) = string_piece(self.quote, rest) {
            push_piece(&mut text, piece)?;
            rest = after;
        }
        Ok(CssString::from_string(text))
    }
}

fn push_piece(text: &mut String, piece: Option<char>) -> Result<(), AllocError>
    ensures { OnOk result (string_bytes text.new ≡ string_bytes text.old ++ encode_utf8_all (option_to_list piece)) }
{
    match piece {
        Some(c) => text.push(c),
        None => Ok(()),
    }
}
