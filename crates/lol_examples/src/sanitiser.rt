//! A sanitiser: what stays of a page without the elements that a matcher reports.

ghost use Rattle.std.specs.Prelude.{◌≡◌, ◌≤◌, length, IfOk, IsTrue, None};

use lol_matcher::{MatcherBuilder, OpenElement};
use lol_page::{Page, PageError, PageSettings};
use std::alloc::{AllocError, Global};

/// What stays of a page, as far as it was read.
#[derive(Drop)]
struct Sanitiser {
    page: Page,
    /// How many elements are open.
    open: usize,
    /// How many of them are around the outermost one that is dropped, if one is.
    around: Option<usize>,
    /// What was read after the last tag.
    text: Vec<u8>,
    kept: Vec<u8>,
}

/// What stays of a page that comes in chunks: all but the elements that are reported, with what is inside of them, end tags that close nothing,
/// and what stands after the last tag from a `<` on, which may be a tag that isn't whole. An ambiguous page is refused. What a browser reads
/// otherwise is in docs/PAGES.md. That it ends, and panics on no page, is proved; which bytes stay is tested alone (test_machine).
///
/// # Errors
/// Those of `Page::next_tag`.
pub fn sanitised(
    alloc: Global,
    builder: MatcherBuilder,
    chunks: &[&[u8]],
) -> Result<Vec<u8>, PageError> {
    let Ok(matcher) = builder.build() else {
        return Err(PageError::Memory);
    };
    let settings = PageSettings {
        strict: true,
        ..PageSettings::default()
    };
    let mut sanitiser = Sanitiser {
        page: Page::new(alloc, matcher, settings),
        open: 0,
        around: None,
        text: Vec::new(alloc),
        kept: Vec::new(alloc),
    };
    for chunk in chunks {
        sanitiser.read(chunk)?;
    }
    sanitiser.finish()
}

impl Sanitiser {
    fn read(&mut self, chunk: &[u8]) -> Result<(), PageError> {
        let mut rest = chunk;
        for _ in 0..=chunk.len() {
            let taken = self.step(rest)?;
            rest = &rest[taken..];
        }
        Ok(())
    }

    /// Reads up to the next tag, and says how many bytes that are.
    fn step(&mut self, rest: &[u8]) -> Result<usize, PageError>
        ensures { IfOk result (λ taken. taken ≤ length rest.now) }
    {
        let read = self
            .page
            .next_tag(rest, &mut |_element: OpenElement<()>| {})?;
        let Ok(()) = self.text.extend_from_slice(&rest[..read.taken]) else {
            return Err(PageError::Memory);
        };
        if let Some(placed) = read.tag {
            let keeps_text = self.around.is_none();
            let keeps_tag = if placed.tag.is_end {
                self.keeps_end()
            } else {
                self.keeps_start()
            };
            let len = self.page.text().len();
            if self.settle(len, keeps_text, keeps_tag).is_err() {
                return Err(PageError::Memory);
            }
        }
        Ok(read.taken)
    }

    /// Whether the start tag that was read last stays: it isn't reported, nor inside an element that is.
    fn keeps_start(&mut self) -> bool
        ensures reported { IsTrue result → length self.old.page.matcher.matched ≡ 0 }
        ensures inside { IsTrue result → self.new.around ≡ None }
    {
        let (depth, opened) = (self.page.depth(), self.page.has_opened());
        self.open = depth.saturating_add(opened as usize);
        if self.page.matches().is_empty() {
            return self.around.is_none();
        }
        if opened && self.around.is_none() {
            self.around = Some(depth);
        }
        false
    }

    /// Whether the end tag that was read last stays: it closes an element that does.
    fn keeps_end(&mut self) -> bool
        ensures { IsTrue result → self.new.around ≡ None }
    {
        let open = self.page.depth();
        let closes = open < self.open;
        self.open = open;
        match self.around {
            Some(around) if around < open => false,
            around => {
                self.around = None;
                closes && around != Some(open)
            }
        }
    }

    /// Keeps what was read, the text and so many bytes after it, or leaves it out.
    fn settle(&mut self, len: usize, keeps_text: bool, keeps_rest: bool) -> Result<(), AllocError> {
        let end = self.text.len().saturating_sub(len);
        if keeps_text {
            self.kept.extend_from_slice(&self.text[..end])?;
        }
        if keeps_rest {
            self.kept.extend_from_slice(&self.text[end..])?;
        }
        self.text.clear();
        Ok(())
    }

    /// Keeps the text after the last tag, up to a `<`.
    fn finish(mut self) -> Result<Vec<u8>, PageError> {
        let keeps = self.around.is_none();
        let len = self.text.len();
        let end = self.text.iter().position(|byte| *byte == b'<');
        let rest = len.saturating_sub(end.unwrap_or(len));
        if self.settle(rest, keeps, false).is_err() {
            return Err(PageError::Memory);
        }
        let Sanitiser {
            page: _,
            open: _,
            around: _,
            text: _,
            kept,
        } = self;
        Ok(kept)
    }
}
