//! What statuses and refusals say.

ghost use Rattle.std.specs.Prelude.{◌≡◌, ◌≤◌, length};
ghost use Rattle.zugrenja_c.specs.Numbers.{overwritten};
ghost use Rattle.zugrenja_c.specs.Texts.{cause_text, text_for};

use crate::buffers::overwrite;
use crate::status::Refusal;
use lol_matcher::{ErrorLocation, ErrorMessage};
use std::fmt::{self, Write};

/// Why a text isn't accepted: for `+` and `~`, the only combinators that are refused, with the sign.
fn cause_text(cause: u32, combinator: u32) -> &'static str
    ensures text { result.now ≡ cause_text cause combinator }
    ensures bound { length result.now ≤ 96 }
{
    match cause {
        0 => "Unexpected token in selector.",
        1 => "Unexpected end of selector.",
        2 => "Missing attribute name in attribute selector.",
        3 => "The selector is empty.",
        4 => "Dangling combinator in selector.",
        5 => "Unexpected token in the attribute selector.",
        6 => "Unsupported pseudo-class or pseudo-element in selector.",
        7 => "Nested negation in selector.",
        8 => "Selectors with explicit namespaces are not supported.",
        9 => "Invalid or unescaped class name in selector.",
        10 => "Empty negation in selector.",
        11 => match combinator {
            0x2b => "Unsupported combinator `+` in selector.",
            0x7e => "Unsupported combinator `~` in selector.",
            _ => "Unsupported combinator in selector.",
        },
        12 => "Unsupported syntax in selector.",
        _ => "unknown cause",
    }
}

/// What a status says, or, of a text that isn't accepted, its cause.
fn text_of(status: u32, cause: u32, combinator: u32) -> &'static str
    ensures text { result.now ≡ text_for status cause combinator }
    ensures bound { length result.now ≤ 96 }
{
    match status {
        0 => "done",
        1 => "the start tag's attributes are asked for",
        2 => "a line of the script is bad",
        3 => "a tag of the script was refused",
        4 | 14 => "out of memory",
        5 => "the handle has no matcher",
        6 => "the handle has a matcher already",
        7 => "the matcher isn't built yet",
        8 => "the matcher is built already",
        9 => "the text isn't UTF-8",
        10 => cause_text(cause, combinator),
        11 => "no namespace has this number",
        12 => "the memory limit would have been passed: too many elements are open at a time",
        13 => "an element has as many children as can be counted",
        15 => "an earlier start tag was refused: no other is answered",
        16 => "no start tag waits for its attributes",
        17 => "the range of an attribute's name or value lies outside the input",
        18 => "the last tag has opened no element",
        19 => "the matcher doesn't explain",
        20 => "there are more items of selectors than ids",
        21 => "the matcher explains, and has no rows",
        _ => "unknown status",
    }
}

/// Writes the beginning that fits of what a status says, or, of a text that isn't accepted, of what its cause says, as lol_html does.
/// Returns the length of all of it. `cause` and `combinator` are the refusal's, and count with status 10 alone. Takes no memory.
#[unsafe(no_mangle)]
pub extern "C" fn zugrenja_text(status: u32, cause: u32, combinator: u32, out: &mut [u8]) -> usize
    ensures text { out.new ≡ overwritten (text_for status cause combinator) out.old }
    ensures length { result ≡ length (text_for status cause combinator) }
    ensures bound { result ≤ 96 }
{
    overwrite(text_of(status, cause, combinator).as_bytes(), out)
}

/// Writes the beginning that fits of what people are told of a text that isn't accepted: why, and under the text's line a caret at the place.
/// Returns the length of all of it: 0 where the text isn't UTF-8, and where no text is refused for such a cause. Takes no memory.
#[unsafe(no_mangle)]
pub extern "C" fn zugrenja_message(text: &[u8], refusal: &Refusal, out: &mut [u8]) -> usize
    ensures room { length out.new ≡ length out.old }
{
    let (Ok(text), Some(cause)) = (str::from_utf8(text), refusal.cause()) else {
        return 0;
    };
    let location = ErrorLocation {
        item: refusal.item,
        offset: refusal.offset,
    };
    let message = ErrorMessage::new(text, cause, location);
    let mut fitting = Fitting { out, len: 0 };
    let _ = write!(fitting, "{message}");
    fitting.len
}

/// Takes the beginning of a text that fits, and counts all of it.
#[derive(Drop)]
struct Fitting<'a> {
    out: &'a mut [u8],
    len: usize,
}

impl fmt::Write for Fitting<'_> {
    fn write_str(&mut self, text: &str) -> fmt::Result {
        let Some(len) = self.len.checked_add(text.len()) else {
            return Err(fmt::Error);
        };
        if let Some(room) = self.out.get_mut(self.len..) {
            overwrite(text.as_bytes(), room);
        }
        self.len = len;
        Ok(())
    }
}
