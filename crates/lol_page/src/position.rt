//! Lines and columns.

ghost use Rattle.std.specs.Prelude.{◌≡◌, ◌+◌, ◌<◌, ◌≤◌, ◌^◌, List, ℕ, length, take};
ghost use Rattle.lol_page.specs.Positions.{ArePlain, moved_by, moved_over, origin};

use memchr::memchr2;

/// A place in a page, by lines. A line ends behind a line feed, a carriage return, or a carriage return and a line feed (HTML Standard,
/// 13.2.3.5).
#[derive(Clone, Copy, Debug, PartialEq, Eq)]
pub struct Position {
    /// How many lines end before it.
    pub line_ends: u64,
    /// How many bytes stand before it in its line.
    pub column: u64,
    /// Whether a carriage return stands before it.
    pub after_return: bool,
}

impl Position {
    pub(crate) fn origin() -> Self
        ensures { result ≡ origin }
    {
        Position {
            line_ends: 0,
            column: 0,
            after_return: false,
        }
    }

    // The place behind one more byte.
    #[inline(always)]
    #[tactic(auto, unfolding(crate::specs::Positions::moved_by))]
    fn behind(self, b: u8) -> Self
        requires lines { self.line_ends + 1 < 2 ^ 64 }
        requires columns { self.column + 1 < 2 ^ 64 }
        ensures moved { result ≡ moved_by self b }
        ensures lines { result.line_ends ≤ self.line_ends + 1 }
        ensures columns { result.column ≤ self.column + 1 }
    {
        if b == b'\r' {
            Position {
                line_ends: self.line_ends + 1,
                column: 0,
                after_return: true,
            }
        } else if b == b'\n' {
            Position {
                line_ends: if self.after_return {
                    self.line_ends
                } else {
                    self.line_ends + 1
                },
                column: 0,
                after_return: false,
            }
        } else {
            Position {
                line_ends: self.line_ends,
                column: self.column + 1,
                after_return: false,
            }
        }
    }

    // The place behind some bytes.
    pub(crate) fn over(self, bytes: &[u8]) -> Self
        requires lines { self.line_ends + length bytes.now < 2 ^ 64 }
        requires columns { self.column + length bytes.now < 2 ^ 64 }
        ensures moved { result ≡ moved_over self bytes.now }
        ensures lines { result.line_ends ≤ self.line_ends + length bytes.now }
        ensures columns { result.column ≤ self.column + length bytes.now }
    {
        let mut position = self;
        let mut i = 0;
        while i < bytes.len() {
            let len = plain_len(&bytes[i..]);
            position = position.past(len);
            i += len;
            if i < bytes.len() {
                position = position.behind(bytes[i]);
                i += 1;
            }
        }
        position
    }

    // The place behind so many bytes that end no line.
    #[inline(always)]
    fn past(self, len: usize) -> Self
        requires columns { self.column + len < 2 ^ 64 }
        ensures moved { (bytes : List ℕ) → length bytes ≡ len → ArePlain bytes → result ≡ moved_over self bytes }
        ensures lines { result.line_ends ≡ self.line_ends }
        ensures columns { result.column ≡ self.column + len }
    {
        if len == 0 {
            return self;
        }
        Position {
            line_ends: self.line_ends,
            column: self.column + len as u64,
            after_return: false,
        }
    }
}

// How many bytes are looked at one by one, before a search that is quick over many.
const NEAR: usize = 128;

// How many bytes at the front end no line.
#[inline(always)]
fn plain_len(bytes: &[u8]) -> usize
    ensures within { result ≤ length bytes.now }
    ensures plain { ArePlain (take result bytes.now) }
{
    let near = near_len(bytes);
    if near < NEAR {
        return near;
    }
    near + far_len(&bytes[near..])
}

// The same of the first bytes, or fewer.
#[inline(always)]
fn near_len(bytes: &[u8]) -> usize
    ensures within { result ≤ length bytes.now }
    ensures plain { ArePlain (take result bytes.now) }
{
    let end = bytes.len().min(NEAR);
    let mut i = 0;
    while i < end {
        if bytes[i] <= b'\r' {
            return i;
        }
        i += 1;
    }
    i
}

// The same of all.
#[inline(never)]
fn far_len(bytes: &[u8]) -> usize
    ensures within { result ≤ length bytes.now }
    ensures plain { ArePlain (take result bytes.now) }
{
    match memchr2(b'\n', b'\r', bytes) {
        Some(place) => place,
        None => bytes.len(),
    }
}
