//! The lines of a reader, one by one.

ghost use Rattle.std.specs.Prelude.{◌≡◌, ◌≢◌, ◌<◌, ◌≤◌, ◌+◌, ◌++◌, List, ℕ, None, Some, false, IfOk, IfErr, OnOk, OnErr, drop, length, position};
ghost use Rattle.std.specs.Io.KnownBytes.{IsAtEnd};
ghost use Rattle.std.specs.List.{list_any};
ghost use Rattle.std.specs.Vec.{vec_capacity};
ghost use Rattle.lol_script.specs.Devices.{IsReadFault, Reads, device_of, failures_of};
ghost use Rattle.lol_script.specs.ReadLines.{AreCounted, GoesOn, is_line_feed, next_line, no_lines};

use crate::device::{Counted, RunFault};
use memchr::memchr;
use std::alloc::Global;
use std::io::Read;
use std::marker::Model;

/// How many bytes are read at a time.
const CHUNK_LEN: usize = 65536;

/// The lines of a reader, one by one. LF ends a line, but for the last. It takes the memory of 128 KB, or of 64 KB and the longest line,
/// and a byte for each read.
#[derive(Drop)]
pub struct LineReader {
    bytes: Vec<u8>,
    /// Where a read puts its bytes. It has its length with the first read.
    chunk: Vec<u8>,
    /// A byte for each read. A reader that never ends is out of memory once this can't grow, and until then its lines can be counted.
    reads: Vec<u8>,
    start: usize,
    end: usize,
    /// Where the next line starts, as far as it was read.
    next: usize,
    number: u128,
    is_last: bool,
}

impl Model for LineReader {
    ghost use Rattle.std.specs.Prelude.{◌≤◌, ◌+◌, drop, length, slice_range};
    ghost use Rattle.lol_script.specs.ReadLines.{ReadLines, most_lines};

    ghost Value = { ReadLines };

    ghost view = { λ r. record {
      line = slice_range r.bytes.items r.start r.end;
      unread = drop r.next r.bytes.items;
      number = r.number;
      is_last = r.is_last;
    } };

    ghost invariant = { λ r. (r.start ≤ r.end) × (r.end ≤ length r.bytes.items) × (r.next ≤ length r.bytes.items)
        × (r.number + length r.bytes.items ≤ most_lines (length r.reads.items) + r.next) };
}

impl LineReader {
    pub fn new(alloc: Global) -> Self
        ensures { result ≡ no_lines }
    {
        LineReader {
            bytes: Vec::new(alloc),
            chunk: Vec::new(alloc),
            reads: Vec::new(alloc),
            start: 0,
            end: 0,
            next: 0,
            number: 0,
            is_last: false,
        }
    }

    /// The line, without its LF.
    pub fn line(&self) -> &[u8]
        ensures { result.now ≡ self.now.line }
    {
        &self.bytes[self.start..self.end]
    }

    /// The line's number, from 1.
    pub fn number(&self) -> u128
        ensures { result ≡ self.now.number }
    {
        self.number
    }

    pub fn is_last(&self) -> bool
        ensures { result ≡ self.now.is_last }
    {
        self.is_last
    }

    /// Goes to the next line, after which comes another if LF ends it. After the last line comes an empty one, which is the last again.
    #[inline(always)]
    pub fn advance<R: Read>(&mut self, reader: &mut Counted<R>) -> Result<(), RunFault>
        requires { failures_of reader.old < u64.MAX }
        ensures next { OnOk result (GoesOn R.remaining reader.old reader.new self.old self.new) }
        ensures fault { IfErr result (λ fault. IsReadFault reader.old reader.new fault) }
        ensures unchanged { OnOk result (failures_of reader.new ≡ failures_of reader.old) }
    {
        match line_feed_offset(&self.bytes[self.next..]) {
            Some(offset) => {
                self.go_past(offset);
                Ok(())
            }
            None => self.read_on(reader),
        }
    }

    /// Goes to the next line, where no LF stands in what comes after the line.
    #[inline(never)]
    fn read_on<R: Read>(&mut self, reader: &mut Counted<R>) -> Result<(), RunFault>
        requires failures { failures_of reader.old < u64.MAX }
        requires none { position is_line_feed self.old.unread ≡ None }
        ensures next { OnOk result (GoesOn R.remaining reader.old reader.new self.old self.new) }
        ensures fault { IfErr result (λ fault. IsReadFault reader.old reader.new fault) }
        ensures unchanged { OnOk result (failures_of reader.new ≡ failures_of reader.old) }
    {
        forget_first(&mut self.bytes, self.next);
        self.start = 0;
        self.end = 0;
        self.next = 0;
        make_chunk(&mut self.chunk)?;
        match read_to_line_feed(&mut self.bytes, &mut self.chunk, &mut self.reads, reader)? {
            Some(offset) => self.go_past(offset),
            None => {
                self.number += 1;
                self.end = self.bytes.len();
                self.next = self.end;
                self.is_last = true;
            }
        }
        Ok(())
    }

    /// Goes to the line that ends where the first LF stands in what comes after the line, and counts it.
    #[inline(always)]
    fn go_past(&mut self, offset: usize)
        requires { Some offset ≡ position is_line_feed self.old.unread }
        ensures { self.new ≡ next_line (self.old.number + 1) self.old.unread }
    {
        self.number += 1;
        self.start = self.next;
        self.end = self.start + offset;
        self.next = self.end + 1;
        self.is_last = false;
    }

    /// Reads to the end, and forgets what is read.
    pub fn read_to_end<R: Read>(&mut self, reader: &mut Counted<R>) -> Result<(), RunFault>
        requires { failures_of reader.old < u64.MAX }
        ensures end { OnOk result ((more : List ℕ)
            × Reads R.remaining reader.old reader.new more × IsAtEnd (R.remaining (device_of reader.new))) }
        ensures fault { IfErr result (λ fault. IsReadFault reader.old reader.new fault) }
        ensures unchanged { OnOk result (failures_of reader.new ≡ failures_of reader.old) }
        ensures kept { self.new ≡ self.old }
    {
        read_rest(&mut self.chunk, &mut self.reads, reader)
    }
}

/// The offset of the first LF. Empty lines are found without a call.
#[inline]
fn line_feed_offset(bytes: &[u8]) -> Option<usize>
    ensures { result ≡ position is_line_feed bytes.now }
{
    match bytes {
        [b'\n', ..] => Some(0),
        _ => memchr(b'\n', bytes),
    }
}

fn forget_first(bytes: &mut Vec<u8>, count: usize)
    requires { count ≤ length bytes.old.items }
    ensures { bytes.new.items ≡ drop count bytes.old.items }
{
    let kept = bytes.len() - count;
    bytes.copy_within(count.., 0);
    bytes.truncate(kept);
}

/// Gives the chunk its length, unless it has it.
fn make_chunk(chunk: &mut Vec<u8>) -> Result<(), RunFault>
    ensures room { OnOk result (0 < length chunk.new.items) }
    ensures fault { IfErr result (λ fault. fault ≡ RunFault.Memory) }
{
    if chunk.is_empty() && chunk.resize(CHUNK_LEN, 0).is_err() {
        return Err(RunFault::Memory);
    }
    Ok(())
}

/// Counts a read, before it is made.
fn count_read(reads: &mut Vec<u8>) -> Result<(), RunFault>
    ensures counted { OnOk result (length reads.new.items ≡ length reads.old.items + 1) }
    ensures left { OnErr result (reads.new.items ≡ reads.old.items) }
    ensures full { OnErr result (vec_capacity reads.old ≤ length reads.old.items) }
    ensures fault { IfErr result (λ fault. fault ≡ RunFault.Memory) }
{
    match reads.push(0) {
        Ok(()) => Ok(()),
        Err(_) => Err(RunFault::Memory),
    }
}

/// Appends what is read, up to the first LF or the end, and returns the offset of that LF. Where one comes, more may be appended after it.
#[inline(never)]
fn read_to_line_feed<R: Read>(
    bytes: &mut Vec<u8>,
    chunk: &mut [u8],
    reads: &mut Vec<u8>,
    reader: &mut Counted<R>,
) -> Result<Option<usize>, RunFault>
    requires failures { failures_of reader.old < u64.MAX }
    requires none { list_any is_line_feed bytes.old.items ≡ false }
    requires room { 0 < length chunk.old }
    ensures read { OnOk result ((more : List ℕ)
        × Reads R.remaining reader.old reader.new more × (bytes.new.items ≡ bytes.old.items ++ more)) }
    ensures kept { (more : List ℕ) × (bytes.new.items ≡ bytes.old.items ++ more) }
    ensures counted { AreCounted bytes.old.items bytes.new.items reads.old.items reads.new.items }
    ensures grows { OnOk result (length reads.old.items < length reads.new.items) }
    ensures offset { IfOk result (λ offset. offset ≡ position is_line_feed bytes.new.items) }
    ensures end { IfOk result (λ offset. offset ≡ None → IsAtEnd (R.remaining (device_of reader.new))) }
    ensures fault { IfErr result (λ fault. IsReadFault reader.old reader.new fault) }
    ensures unchanged { OnOk result (failures_of reader.new ≡ failures_of reader.old) }
{
    loop {
        let scanned = bytes.len();
        count_read(reads)?;
        let count = reader.read(chunk)?;
        if count == 0 {
            return Ok(None);
        }
        let Ok(()) = bytes.extend_from_slice(&chunk[..count]) else {
            return Err(RunFault::Memory);
        };
        if let Some(offset) = line_feed_offset(&bytes[scanned..]) {
            return Ok(Some(scanned + offset));
        }
    }
}

#[inline(never)]
fn read_rest<R: Read>(
    chunk: &mut Vec<u8>,
    reads: &mut Vec<u8>,
    reader: &mut Counted<R>,
) -> Result<(), RunFault>
    requires { failures_of reader.old < u64.MAX }
    ensures end { OnOk result ((more : List ℕ)
        × Reads R.remaining reader.old reader.new more × IsAtEnd (R.remaining (device_of reader.new))) }
    ensures grows { length reads.old.items ≤ length reads.new.items }
    ensures fault { IfErr result (λ fault. IsReadFault reader.old reader.new fault) }
    ensures unchanged { OnOk result (failures_of reader.new ≡ failures_of reader.old) }
{
    make_chunk(chunk)?;
    let chunk = chunk.as_mut_slice();
    loop {
        count_read(reads)?;
        if reader.read(chunk)? == 0 {
            return Ok(());
        }
    }
}
