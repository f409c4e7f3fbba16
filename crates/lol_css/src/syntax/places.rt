//! Where tokens begin in a text (CSS Syntax 3, sections 3.3 and 4).

ghost use Rattle.std.specs.Prelude.{◌≡◌, ◌-◌, length, get_or};
ghost use Rattle.lol_css.specs.Locating.{token_starts, point_offsets};

use crate::syntax::points::ends_crlf;
use crate::syntax::tokens::{FirstToken, first_token};

/// How many code points stand before the token of this number; all of them where there are fewer tokens.
pub(crate) fn points_before(points: &[char], token: usize) -> usize
    ensures { result ≡ length points.now - get_or (token_starts points.now) token 0 }
{
    let mut rest = points;
    let mut to_pass = token;
    while let FirstToken {
        token: Some(_),
        start,
        after,
    } = first_token(rest)
    {
        if to_pass == 0 {
            return points.len().saturating_sub(start.len());
        }
        to_pass -= 1;
        rest = after;
    }
    points.len()
}

/// The byte offset in a text of the code point of this number, once the text is preprocessed; the text's length past the last.
pub(crate) fn point_offset(text: &str, point: usize) -> usize
    ensures { result ≡ get_or (point_offsets text.now) point (length text.now) }
{
    let mut before = '\0';
    let mut to_pass = point;
    for (offset, c) in text.char_indices() {
        if !ends_crlf(before, c) {
            if to_pass == 0 {
                return offset;
            }
            to_pass -= 1;
        }
        before = c;
    }
    text.len()
}
