//! Runs of scripts that never end: each request for memory can be refused.

use crate::outcome::{Stop, expect};
use lol_script::{Counted, RunFault, run};
use std::alloc::Global;
use std::io;
use std::io::{ErrorKind, Read};

/// How many reads give a byte.
const READS: u32 = 2_000;

/// Gives a byte a read, of a beginning and then of a text again and again, and fails after so many reads.
#[derive(Drop)]
struct Endless<'s> {
    rest: &'s [u8],
    again: &'s [u8],
    reads_before: u32,
}

impl Read for Endless<'_> {
    fn read(&mut self, buffer: &mut [u8]) -> io::Result<usize> {
        let Some(reads_before) = self.reads_before.checked_sub(1) else {
            return Err(io::Error::from(ErrorKind::BrokenPipe));
        };
        self.reads_before = reads_before;
        if self.rest.is_empty() {
            self.rest = self.again;
        }
        let count = self.rest.len().min(buffer.len()).min(1);
        buffer[..count].copy_from_slice(&self.rest[..count]);
        self.rest = &self.rest[count..];
        Ok(count)
    }
}

/// The beginnings of endless scripts of which nothing is kept, and what comes again and again.
static ENDLESS: [(&str, &str); 3] = [
    ("", "\n"),
    ("limit\t0\nstart\thtml\tp\n", "start\thtml\tp\n"),
    ("bad\n", "x"),
];

/// Runs an endless script: whether there was memory until its reader failed. Nothing is written.
fn is_read_on(alloc: Global, beginning: &str, again: &str) -> Result<bool, Stop> {
    let mut reader = Counted::new(Endless {
        rest: beginning.as_bytes(),
        again: again.as_bytes(),
        reads_before: READS,
    });
    let mut writer = Counted::new(Vec::new(alloc));
    let outcome = run(alloc, &mut reader, &mut writer);
    let had_memory = reader.failures() == 1;
    let _ = reader.into_inner();
    let written: Vec<u8> = writer.into_inner();
    let wanted = if had_memory {
        RunFault::Read
    } else {
        RunFault::Memory
    };
    expect(outcome == Err(wanted) && written.is_empty())?;
    Ok(had_memory)
}

/// Runs endless scripts, up to the first for which memory is refused.
pub(crate) fn run_without_end(alloc: Global) -> Result<bool, Stop> {
    for (beginning, again) in &ENDLESS {
        if !is_read_on(alloc, beginning, again)? {
            return Ok(false);
        }
    }
    Ok(true)
}
