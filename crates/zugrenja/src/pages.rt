//! A page, read in chunks.

ghost use Rattle.std.specs.Prelude.{◌≡◌, ◌+◌, ◌<◌, ◌≤◌, ◌++◌, true, length, take, IfOk, OnOk};
ghost use Rattle.std.specs.Io.KnownBytes.{Appends, Consumes, IsAtEnd};
ghost use Rattle.lol_page.specs.PageMatches.{ReadsOn, page_matches};
ghost use Rattle.lol_machine.specs.Views.{selectors};
ghost use Rattle.zugrenja.specs.Lines.{end_of, lines_of};
ghost use Rattle.zugrenja.specs.PageReadings.{WritesPage, matches_in, told_nothing};

use crate::lines::Style;
use lol_matcher::Matcher;
use lol_page::{Page, PageError, PageReadError, PageSettings};
use std::alloc::Global;
use std::io;
use std::io::{Read, Write};
use thiserror::Error;

/// The most bytes that are read at a time.
const CHUNK_BYTES: usize = 65_536;

/// Why a page's matches weren't written.
#[derive(Debug, Drop, Error)]
pub enum PageFault {
    /// The page couldn't be read.
    #[error("{0}")]
    Read(io::Error),
    /// The page was refused.
    #[error("{0}")]
    Page(PageError),
    /// The lines couldn't be written.
    #[error("{0}")]
    Write(io::Error),
}

/// The fault where memory is out.
const NO_MEMORY: PageFault = PageFault::Page(PageError::Memory);

/// Reads a page to its end, and writes the lines of its matches: how many there are. The lines of a chunk are written before the next is
/// read.
///
/// # Errors
/// The page couldn't be read, or was refused: then the lines of the matches before are written. Or lines couldn't be written.
pub fn write_page<R: Read, W: Write>(
    alloc: Global,
    matcher: Matcher,
    style: &Style,
    reader: &mut R,
    writer: &mut W,
) -> Result<u64, PageFault>
    requires { matcher.told ≡ told_nothing matcher.told.ast matcher.told.esi }
    ensures { IfOk result (WritesPage style.now
        (page_matches (selectors matcher.told.ast) matcher.told.esi true style.now.decoded)
        (R.remaining reader.old) (R.remaining reader.new) (W.contents writer.old) (W.contents writer.new)) }
{
    let settings = PageSettings {
        decoded: style.decoded,
        strict: style.strict,
        ..PageSettings::default()
    };
    let mut page = Page::new(alloc, matcher, settings);
    let Ok(mut buffer) = vec![in alloc; 0u8; CHUNK_BYTES] else {
        return Err(NO_MEMORY);
    };
    let count = write_chunks(alloc, &mut page, style, &mut buffer, reader, writer)?;
    Ok(count)
}

/// Reads on to the end of a page, as much at a time as the buffer takes.
fn write_chunks<R: Read, W: Write>(
    alloc: Global,
    page: &mut Page,
    style: &Style,
    buffer: &mut [u8],
    reader: &mut R,
    writer: &mut W,
) -> Result<u64, PageFault>
    requires { 0 < length buffer.old }
    ensures { IfOk result (WritesPage style.now (matches_in page.old)
        (R.remaining reader.old) (R.remaining reader.new) (W.contents writer.old) (W.contents writer.new)) }
{
    let mut count = 0;
    'chunks: for _ in 0..u64::MAX {
        let taken = read_chunk(reader, buffer)?;
        if taken == 0 {
            write_end(alloc, style, count, writer)?;
            return Ok(count);
        }
        let chunk = front(buffer, taken);
        count = write_chunk(alloc, page, style, chunk, count, writer)?;
    }
    Err(PageFault::Page(PageError::Read(PageReadError::PageTooLong)))
}

/// Reads what comes next: how many bytes, and none at the end.
fn read_chunk<R: Read>(reader: &mut R, buffer: &mut [u8]) -> Result<usize, PageFault>
    requires { 0 < length buffer.old }
    ensures within { IfOk result (λ taken. taken ≤ length buffer.new) }
    ensures read { IfOk result (λ taken.
        Consumes (R.remaining reader.old) (R.remaining reader.new) (take taken buffer.new)) }
    ensures at_end { IfOk result (λ taken. taken ≡ 0 → IsAtEnd (R.remaining reader.new)) }
{
    match reader.read(buffer) {
        Ok(taken) => Ok(taken),
        Err(error) => Err(PageFault::Read(error)),
    }
}

fn front(bytes: &[u8], len: usize) -> &[u8]
    requires { len ≤ length bytes.now }
    ensures { result.now ≡ take len bytes.now }
{
    &bytes[..len]
}

/// Writes the lines of the matches in a chunk, behind so many: how many there are then.
fn write_chunk<W: Write>(
    alloc: Global,
    page: &mut Page,
    style: &Style,
    chunk: &[u8],
    count: u64,
    writer: &mut W,
) -> Result<u64, PageFault>
    ensures read { OnOk result (ReadsOn page.old page.new chunk.now) }
    ensures lines { OnOk result (Appends (W.contents writer.old) (W.contents writer.new)
        (lines_of style.now (matches_in page.old chunk.now))) }
    ensures count { IfOk result (λ counted. counted ≡ count + length (matches_in page.old chunk.now)) }
{
    let mut lines = Vec::new(alloc);
    let counted = push_matches(page, style, chunk, count, &mut lines);
    write_lines(&lines, writer)?;
    match counted {
        Ok(counted) => Ok(counted),
        Err(error) => Err(PageFault::Page(error)),
    }
}

/// Adds the lines of the matches in a chunk, behind so many: how many there are then.
fn push_matches(
    page: &mut Page,
    style: &Style,
    chunk: &[u8],
    count: u64,
    lines: &mut Vec<u8>,
) -> Result<u64, PageError>
    ensures read { OnOk result (ReadsOn page.old page.new chunk.now) }
    ensures lines { OnOk result (lines.new.items
        ≡ lines.old.items ++ lines_of style.now (matches_in page.old chunk.now)) }
    ensures count { IfOk result (λ counted. counted ≡ count + length (matches_in page.old chunk.now)) }
{
    let mut counted = count;
    let mut i = 0;
    while i < chunk.len() {
        let (taken, more) = push_match(page, style, &chunk[i..], lines)?;
        i += taken;
        counted = sum(counted, more)?;
    }
    Ok(counted)
}

/// Adds the line of the next match, if there is one: how many bytes were read, and how many matches.
fn push_match(
    page: &mut Page,
    style: &Style,
    rest: &[u8],
    lines: &mut Vec<u8>,
) -> Result<(usize, u64), PageError>
    ensures within { IfOk result (λ r. r.0 ≤ length rest.now) }
    ensures moved { IfOk result (λ r. 0 < length rest.now → 0 < r.0) }
    ensures read { IfOk result (λ r. ReadsOn page.old page.new (take r.0 rest.now)) }
    ensures lines { IfOk result (λ r.
        lines.new.items ≡ lines.old.items ++ lines_of style.now (matches_in page.old (take r.0 rest.now))) }
    ensures count { IfOk result (λ r. r.1 ≡ length (matches_in page.old (take r.0 rest.now))) }
{
    let read = page.next_match(rest)?;
    let Some(placed) = read.tag else {
        return Ok((read.taken, 0));
    };
    match style.push_line(&placed, page.text(), page.matches(), lines) {
        Ok(()) => Ok((read.taken, 1)),
        Err(_) => Err(PageError::Memory),
    }
}

/// There are fewer matches than bytes.
fn sum(count: u64, more: u64) -> Result<u64, PageError>
    ensures { IfOk result (λ sum. sum ≡ count + more) }
{
    match count.checked_add(more) {
        Some(sum) => Ok(sum),
        None => Err(PageError::Read(PageReadError::PageTooLong)),
    }
}

/// Writes what stands behind the lines of so many matches.
fn write_end<W: Write>(
    alloc: Global,
    style: &Style,
    count: u64,
    writer: &mut W,
) -> Result<(), PageFault>
    ensures { OnOk result (Appends (W.contents writer.old) (W.contents writer.new) (end_of style.now count)) }
{
    let mut lines = Vec::new(alloc);
    match style.push_end(count, &mut lines) {
        Ok(()) => write_lines(&lines, writer),
        Err(_) => Err(NO_MEMORY),
    }
}

fn write_lines<W: Write>(lines: &[u8], writer: &mut W) -> Result<(), PageFault>
    ensures { OnOk result (Appends (W.contents writer.old) (W.contents writer.new) lines.now) }
{
    match writer.write_all(lines) {
        Ok(()) => Ok(()),
        Err(error) => Err(PageFault::Write(error)),
    }
}
