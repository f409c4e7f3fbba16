//! How pages are read.

ghost use Rattle.std.specs.Prelude.{◌≡◌, false, true};

/// How a page is read.
#[derive(Clone, Copy, Debug, PartialEq, Eq)]
pub struct PageSettings {
    /// Whether the text of `noscript` is read as a browser does that runs scripts.
    pub scripting: bool,
    /// Whether character references in the values of attributes are decoded. (lol_html matches values as they are written.)
    pub decoded: bool,
    /// The most bytes of a tag. A longer one is refused.
    pub max_tag_bytes: u64,
    /// Whether a page is refused at a start tag such as `<xmp>` in a `select`, behind which a browser's tree decides how text is read.
    pub strict: bool,
}

impl Default for PageSettings {
    ghost is_default = { λ s. s ≡ record {
      scripting = true;
      decoded = true;
      max_tag_bytes = 1048576;
      strict = false;
    } };

    /// As a browser that runs scripts reads pages: values are decoded. A tag has at most a mebibyte.
    fn default() -> Self {
        PageSettings {
            scripting: true,
            decoded: true,
            max_tag_bytes: 1_048_576,
            strict: false,
        }
    }
}
