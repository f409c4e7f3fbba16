//! Readers and writers over memory that fail at a call: no contract says that such a failure is told.

use lol_script::{Counted, RunFault, Status, run};
use std::alloc::Global;
use std::io;
use std::io::{ErrorKind, Read, Write};
use std::process::Abort;

/// How a call fails.
#[derive(Debug, Clone, Copy, PartialEq, Eq)]
enum Failure {
    Broken,
    Interrupted,
    /// The call takes no bytes.
    Stuck,
}

impl Failure {
    /// The error of a call that fails so, if it has one.
    fn error(self) -> Option<io::Error> {
        match self {
            Failure::Broken => Some(io::Error::from(ErrorKind::BrokenPipe)),
            Failure::Interrupted => Some(io::Error::from(ErrorKind::Interrupted)),
            Failure::Stuck => None,
        }
    }
}

/// Gives four bytes a call, and fails once.
#[derive(Drop)]
struct Source<'s> {
    rest: &'s [u8],
    calls_before: u32,
    failure: Failure,
}

impl Read for Source<'_> {
    fn read(&mut self, buffer: &mut [u8]) -> io::Result<usize> {
        let Some(calls_before) = self.calls_before.checked_sub(1) else {
            return match self.failure.error() {
                Some(error) => Err(error),
                None => Ok(0),
            };
        };
        self.calls_before = calls_before;
        let count = self.rest.len().min(buffer.len()).min(4);
        buffer[..count].copy_from_slice(&self.rest[..count]);
        self.rest = &self.rest[count..];
        Ok(count)
    }
}

/// Gives four bytes a call, and fails at one call alone.
#[derive(Drop)]
struct Stumbling<'s> {
    rest: &'s [u8],
    calls_before: u32,
}

impl Read for Stumbling<'_> {
    fn read(&mut self, buffer: &mut [u8]) -> io::Result<usize> {
        let Some(calls_before) = self.calls_before.checked_sub(1) else {
            self.calls_before = u32::MAX;
            return Err(io::Error::from(ErrorKind::Interrupted));
        };
        self.calls_before = calls_before;
        let count = self.rest.len().min(buffer.len()).min(4);
        buffer[..count].copy_from_slice(&self.rest[..count]);
        self.rest = &self.rest[count..];
        Ok(count)
    }
}

/// Takes three bytes a call, and fails once.
#[derive(Drop)]
struct Sink {
    taken: Vec<u8>,
    calls_before: u32,
    failure: Failure,
}

impl Write for Sink {
    fn write(&mut self, bytes: &[u8]) -> io::Result<usize> {
        let Some(calls_before) = self.calls_before.checked_sub(1) else {
            return match self.failure.error() {
                Some(error) => Err(error),
                None => Ok(0),
            };
        };
        self.calls_before = calls_before;
        let count = bytes.len().min(3);
        self.taken.extend_from_slice(&bytes[..count])?;
        Ok(count)
    }

    fn flush(&mut self) -> io::Result<()> {
        Ok(())
    }
}

const SCRIPT: &[u8] =
    b"select\t0\tdiv p\nselect\t1\tdiv > p\nstart\thtml\tdiv\nstart\thtml\tsection\nstart\thtml\tp\nend\tdiv\n";

const OUTPUT: &[u8] = b"start\t-\nstart\t-\nstart\t0\nend\t0,1,2\n";

/// How a run ends, what it writes, and how many calls of the reader and the writer fail.
#[derive(Clone, Copy)]
struct Ended<'o> {
    outcome: Result<Status, RunFault>,
    output: &'o [u8],
    failures: (u64, u64),
}

/// Whether a run ends so whose reader and writer fail after so many calls.
fn ends(alloc: Global, (reads, writes): (u32, u32), failure: Failure, wanted: Ended<'_>) -> bool {
    let mut reader = Counted::new(Source {
        rest: SCRIPT,
        calls_before: reads,
        failure,
    });
    let mut writer = Counted::new(Sink {
        taken: Vec::new(alloc),
        calls_before: writes,
        failure,
    });
    let outcome = run(alloc, &mut reader, &mut writer);
    let failures = (reader.failures(), writer.failures());
    let _ = reader.into_inner();
    let written = writer.into_inner().taken;
    outcome == wanted.outcome && failures == wanted.failures && written.as_slice() == wanted.output
}

/// 87 bytes in 22 reads, and one that finds the end.
const READS: u32 = 23;

/// 34 bytes in 12 writes.
const WRITES: u32 = 12;

/// A run of exactly as many calls as are wanted, of which none fails.
const GOOD: Ended<'static> = Ended {
    outcome: Ok(Status::Good),
    output: OUTPUT,
    failures: (0, 0),
};

fn expect_reads_fail(rt: &impl Abort, alloc: Global, failure: Failure) {
    let wanted = Ended {
        outcome: Err(RunFault::Read),
        output: b"",
        failures: (1, 0),
    };
    for reads in 0..READS {
        let fails = ends(alloc, (reads, u32::MAX), failure, wanted);
        assert!(rt; fails, "{failure:?} at {reads}");
    }
}

/// Expects each read to fail so, and a run without a failure to be good.
fn expect_each_read(rt: &impl Abort, alloc: Global, failure: Failure) {
    expect_reads_fail(rt, alloc, failure);
    assert!(rt; ends(alloc, (READS, WRITES), failure, GOOD));
}

#[test]
fn each_read_fails_in_turn(rt: HostRuntime) {
    assert!(rt; SCRIPT.len() == 87 && OUTPUT.len() == 34);
    expect_each_read(&rt, rt.alloc(), Failure::Broken);
    expect_each_read(&rt, rt.alloc(), Failure::Interrupted);
}

/// Whether a run of which one read fails, after so many others, ends with that: those that would come after it went well.
fn is_told_at_once(alloc: Global, reads: u32) -> bool {
    let mut reader = Counted::new(Stumbling {
        rest: SCRIPT,
        calls_before: reads,
    });
    let mut writer = Counted::new(Vec::new(alloc));
    let outcome = run(alloc, &mut reader, &mut writer);
    let failures = (reader.failures(), writer.failures());
    let _ = reader.into_inner();
    let written: Vec<u8> = writer.into_inner();
    outcome == Err(RunFault::Read) && failures == (1, 0) && written.is_empty()
}

/// A read that failed isn't tried again, an interrupted one neither.
#[test]
fn a_failed_read_is_told_at_once(rt: HostRuntime) {
    for reads in 0..READS {
        let is_told = is_told_at_once(rt.alloc(), reads);
        assert!(rt; is_told, "at {reads}");
    }
}

fn expect_writes_fail(rt: &impl Abort, alloc: Global, failure: Failure) {
    for writes in 0..WRITES {
        let count = writes as usize * 3;
        assert!(rt; count <= OUTPUT.len());
        let wanted = Ended {
            outcome: Err(RunFault::Write),
            output: &OUTPUT[..count],
            failures: (0, 1),
        };
        let fails = ends(alloc, (READS, writes), failure, wanted);
        assert!(rt; fails, "{failure:?} at {writes}");
    }
}

#[test]
fn each_write_fails_in_turn(rt: HostRuntime) {
    for failure in [Failure::Broken, Failure::Interrupted, Failure::Stuck] {
        expect_writes_fail(&rt, rt.alloc(), failure);
        assert!(rt; ends(rt.alloc(), (READS, WRITES), failure, GOOD));
    }
}

/// A reader that takes no bytes is at its end: the script is what came before.
#[test]
fn a_read_of_no_bytes_is_the_end(rt: HostRuntime) {
    let wanted = Ended {
        output: b"",
        ..GOOD
    };
    assert!(rt; ends(rt.alloc(), (0, WRITES), Failure::Stuck, wanted));
}
