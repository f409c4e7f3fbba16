//! Readers and writers whose failures are counted.

ghost use Rattle.std.specs.Prelude.{◌≡◌, ◌≢◌, ◌<◌, ◌≤◌, ◌+◌, length, IfOk, IfErr, OnOk, OnErr, IsErrOf};
ghost use Rattle.std.specs.Io.KnownBytes.{ReadConsumes, WriteAppends};
ghost use Rattle.lol_script.specs.Devices.{FailsWith, Writes, WritesBeginning, device_of, failures_of};

use std::io::{Read, Write};
use thiserror::Error;

/// Why a run failed.
#[derive(Debug, Clone, Copy, PartialEq, Eq, Error)]
pub enum RunFault {
    #[error("out of memory")]
    Memory,
    #[error("read failed")]
    Read,
    /// A write failed, or took no bytes.
    #[error("write failed")]
    Write,
}

/// A reader or a writer, and how many of its calls failed.
#[derive(Drop)]
pub struct Counted<D> {
    device: D,
    failures: u64,
}

impl<D> Counted<D> {
    /// A device none of whose calls has failed yet.
    pub fn new(device: D) -> Self
        ensures device { device_of result ≡ device }
        ensures failures { failures_of result ≡ 0 }
    {
        Counted {
            device,
            failures: 0,
        }
    }

    pub fn failures(&self) -> u64
        ensures { result ≡ failures_of self.now }
    {
        self.failures
    }

    /// Gives the device back, and forgets how many calls failed.
    pub fn into_inner(self) -> D
        ensures { result ≡ device_of self }
    {
        let Counted {
            device,
            failures: _,
        } = self;
        device
    }
}

impl<R: Read> Counted<R> {
    /// Reads once, as `Read::read` does.
    pub fn read(&mut self, buffer: &mut [u8]) -> Result<usize, RunFault>
        requires { failures_of self.old < u64.MAX }
        ensures bytes { ReadConsumes (R.remaining (device_of self.old)) (R.remaining (device_of self.new))
            result buffer.new }
        ensures count { IfOk result (λ count. count ≤ length buffer.new) }
        ensures unchanged { OnOk result (failures_of self.new ≡ failures_of self.old) }
        ensures failed { IfErr result (λ fault. FailsWith RunFault.Read self.old self.new fault) }
    {
        match self.device.read(buffer) {
            Ok(count) => Ok(count),
            Err(_) => {
                self.failures += 1;
                Err(RunFault::Read)
            }
        }
    }
}

impl<W: Write> Counted<W> {
    /// Writes once, as `Write::write` does; a write that takes no bytes counts as failed.
    fn write(&mut self, bytes: &[u8]) -> Result<usize, RunFault>
        requires { failures_of self.old < u64.MAX }
        ensures bytes { WriteAppends (W.contents (device_of self.old)) (W.contents (device_of self.new))
            result bytes.now }
        ensures some { IfOk result (λ count. 0 < count) }
        ensures count { IfOk result (λ count. count ≤ length bytes.now) }
        ensures unchanged { OnOk result (failures_of self.new ≡ failures_of self.old) }
        ensures failed { IfErr result (λ fault. FailsWith RunFault.Write self.old self.new fault) }
    {
        match self.device.write(bytes) {
            Ok(count) if count > 0 => Ok(count),
            _ => {
                self.failures += 1;
                Err(RunFault::Write)
            }
        }
    }
}

/// Writes a text whole.
///
/// # Errors
/// `Write` where a write failed, an interrupted one too, or took no bytes. Then a beginning of the text is out.
pub fn write_text<W: Write>(writer: &mut Counted<W>, text: &[u8]) -> Result<(), RunFault>
    requires { failures_of writer.old < u64.MAX }
    ensures whole { OnOk result (Writes W.contents writer.old writer.new text.now) }
    ensures unchanged { OnOk result (failures_of writer.new ≡ failures_of writer.old) }
    ensures failed { IfErr result (λ fault. FailsWith RunFault.Write writer.old writer.new fault) }
    ensures beginning { OnErr result (WritesBeginning W.contents writer.old writer.new text.now) }
{
    let mut rest = text;
    while !rest.is_empty() {
        let count = writer.write(rest)?;
        rest = &rest[count..];
    }
    Ok(())
}
