//! Borrowed input and ranges of it.

ghost use Rattle.std.specs.Prelude.{◌≡◌, ◌↔◌, IsTrue};
ghost use Rattle.std.specs.Option.{option_map, ForSome};

/// Borrowed bytes of the input.
#[derive(Clone, Copy)]
pub struct Bytes<'i> {
    bytes: &'i [u8],
}

impl<'i> Bytes<'i> {
    ghost use Rattle.lol_base.specs.StartTags.{bytes_of, bytes_at, IsInside};

    /// These bytes.
    pub fn new(bytes: &'i [u8]) -> Self
        ensures { bytes_of result ≡ bytes.now }
    {
        Bytes { bytes }
    }

    /// The bytes that were given.
    pub fn as_slice(&self) -> &'i [u8]
        ensures { result.now ≡ bytes_of self.now }
    {
        self.bytes
    }

    /// The bytes of a range that lies inside.
    pub fn slice(&self, range: Range) -> Bytes<'i>
        requires { IsInside (bytes_of self.now) range }
        ensures { bytes_of result ≡ bytes_at (bytes_of self.now) range }
    {
        Bytes::new(&self.bytes[range.start..range.end])
    }

    /// The bytes of a range that lies inside, where there is a range.
    pub fn opt_slice(&self, range: Option<Range>) -> Option<Bytes<'i>>
        requires { ForSome range (IsInside (bytes_of self.now)) }
        ensures { option_map bytes_of result ≡ option_map (bytes_at (bytes_of self.now)) range }
    {
        Some(self.slice(range?))
    }
}

/// The bytes from `start` up to `end`. It lies inside an input if `start <= end <= length`.
#[derive(Debug, Clone, Copy, PartialEq, Eq)]
pub struct Range {
    pub start: usize,
    pub end: usize,
}

impl Range {
    ghost use Rattle.lol_base.specs.StartTags.{IsInside};

    // Whether it lies inside these bytes.
    pub(crate) fn is_inside(&self, bytes: &[u8]) -> bool
        ensures { IsTrue result ↔ IsInside bytes.now self.now }
    {
        self.start <= self.end && self.end <= bytes.len()
    }
}
