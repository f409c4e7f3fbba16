//! The program over a script.

ghost use Rattle.std.specs.Prelude.{◌≡◌, ◌≢◌, ◌<◌, IfOk, IfErr, IsErrOf, OnOk};
ghost use Rattle.lol_script.specs.Answering.{ForTagLines, IsReadWhole};
ghost use Rattle.lol_script.specs.Devices.{IsReadFault, ReadsToEnd, Writes, WritesBeginning, WritesNothing, failures_of};
ghost use Rattle.lol_script.specs.Output.{bad_line};
ghost use Rattle.lol_script.specs.ReadLines.{no_lines};
ghost use Rattle.lol_script.specs.Readings.{IsStop};
ghost use Rattle.lol_script.specs.Scripts.{output};

use crate::bad_line::{BadLine, Cause, push_bad_line};
use crate::device::{Counted, RunFault, write_text};
use crate::line_reader::LineReader;
use crate::lines::text_of;
use crate::script_run::ScriptRun;
use crate::settings::{Stop, read_settings};
use lol_css::{ErrorMessage, Selector};
use std::alloc::{AllocError, Global};
use std::fmt::Write as _;
use std::io::{Read, Write};

/// How a run ended.
#[derive(Debug, Clone, Copy, PartialEq, Eq)]
pub enum Status {
    /// Each line was good, and each tag was answered.
    Good,
    /// A line was bad.
    BadLine,
    /// A tag was refused.
    Refused,
}

/// Reads a script to its end, answering each tag as its line is read, and writes its output whole (docs/SCRIPT.md). It takes the memory of
/// the output, of the open elements, of 64 KB for reads, of 64 KB or the longest line, and of a byte for each read.
///
/// # Errors
/// `Memory` where memory was refused, so in the end for a reader that never ends; `Read` where a read failed: then nothing is written.
/// `Write` where a write failed: then a beginning of the output is out.
pub fn run<R: Read, W: Write>(
    alloc: Global,
    reader: &mut Counted<R>,
    writer: &mut Counted<W>,
) -> Result<Status, RunFault>
    requires reads { failures_of reader.old < u64.MAX }
    requires writes { failures_of writer.old < u64.MAX }

    // The script is read to its end, and exactly its output is written.
    ensures ok { IfOk result (λ status. ReadsToEnd R.remaining reader.old reader.new (λ script.
        (status ≡ (output script).status) × Writes W.contents writer.old writer.new (output script).text)) }

    // Unless a write failed nothing is written, and else a beginning of the output.
    ensures unwritten { IfErr result (λ fault. fault ≢ RunFault.Write
        → WritesNothing W.contents writer.old writer.new) }
    ensures beginning { IsErrOf result RunFault.Write → ReadsToEnd R.remaining reader.old reader.new (λ script.
        WritesBeginning W.contents writer.old writer.new (output script).text) }
    ensures read_failed { IsErrOf result RunFault.Read → failures_of reader.old < failures_of reader.new }
    ensures write_failed { IsErrOf result RunFault.Write → failures_of writer.old < failures_of writer.new }
{
    run_with_message(alloc, reader, writer, &mut String::new(alloc))
}

/// As `run`, and where a text of a `select` line is refused, `message` gets the line's number and what people are told of it
/// (`ErrorMessage`), as far as memory isn't refused for that.
pub fn run_with_message<R: Read, W: Write>(
    alloc: Global,
    reader: &mut Counted<R>,
    writer: &mut Counted<W>,
    message: &mut String,
) -> Result<Status, RunFault>
    requires reads { failures_of reader.old < u64.MAX }
    requires writes { failures_of writer.old < u64.MAX }
    ensures ok { IfOk result (λ status. ReadsToEnd R.remaining reader.old reader.new (λ script.
        (status ≡ (output script).status) × Writes W.contents writer.old writer.new (output script).text)) }
    ensures unwritten { IfErr result (λ fault. fault ≢ RunFault.Write
        → WritesNothing W.contents writer.old writer.new) }
    ensures beginning { IsErrOf result RunFault.Write → ReadsToEnd R.remaining reader.old reader.new (λ script.
        WritesBeginning W.contents writer.old writer.new (output script).text) }
    ensures read_failed { IsErrOf result RunFault.Read → failures_of reader.old < failures_of reader.new }
    ensures write_failed { IsErrOf result RunFault.Write → failures_of writer.old < failures_of writer.new }
{
    let (text, status) = output(alloc, reader, message)?;
    write_text(writer, &text)?;
    Ok(status)
}

/// Reads a script whole: what is written for it, and how its run ends.
fn output<R: Read>(
    alloc: Global,
    reader: &mut Counted<R>,
    message: &mut String,
) -> Result<(Vec<u8>, Status), RunFault>
    requires { failures_of reader.old < u64.MAX }
    ensures ok { IfOk result (λ made. ReadsToEnd R.remaining reader.old reader.new (λ script.
        output script ≡ record { text = made.0.items; status = made.1 })) }
    ensures fault { IfErr result (λ fault. IsReadFault reader.old reader.new fault) }
{
    let mut lines = LineReader::new(alloc);
    match answer_lines(alloc, reader, &mut lines) {
        Ok(made) => Ok(made),
        Err(Stop::Fault(fault)) => Err(fault),
        Err(Stop::Bad(bad)) => {
            tell(alloc, bad, lines.line(), message);
            if !lines.is_last() {
                lines.read_to_end(reader)?;
            }
            match bad_text(alloc, bad) {
                Ok(text) => Ok((text, Status::BadLine)),
                Err(_) => Err(RunFault::Memory),
            }
        }
    }
}

/// Writes what people are told of a bad line whose text is no selector. Where memory is refused for it, it ends early or is left out.
fn tell(alloc: Global, bad: BadLine, line: &[u8], message: &mut String) {
    if let (Cause::Selector(cause), Some(line)) = (bad.cause, text_of(line))
        && let Some(text) = line.splitn(3, '\t').nth(2)
        && let Ok(Some(location)) = Selector::locate_error(alloc, text)
    {
        let number = bad.number;
        let _ = write!(
            message,
            "line {number}: {}",
            ErrorMessage::new(text, cause, location)
        );
    }
}

fn bad_text(alloc: Global, bad: BadLine) -> Result<Vec<u8>, AllocError>
    ensures { IfOk result (λ text. text.items ≡ bad_line bad) }
{
    let mut text = Vec::new(alloc);
    push_bad_line(&mut text, bad)?;
    Ok(text)
}

/// Answers the lines of a script up to the first that is bad.
fn answer_lines<R: Read>(
    alloc: Global,
    reader: &mut Counted<R>,
    lines: &mut LineReader,
) -> Result<(Vec<u8>, Status), Stop>
    requires failures { failures_of reader.old < u64.MAX }
    requires new { lines.old ≡ no_lines }
    ensures ok { IfOk result (λ made. ReadsToEnd R.remaining reader.old reader.new (λ script.
        output script ≡ record { text = made.0.items; status = made.1 })) }
    ensures stop { IfErr result (λ stop. IsStop R.remaining reader.old reader.new lines.new stop) }
{
    let Some(settings) = read_settings(alloc, reader, lines)? else {
        return Ok((Vec::new(alloc), Status::Good));
    };
    let Ok(mut run) = ScriptRun::new(alloc, settings) else {
        return Err(Stop::Fault(RunFault::Memory));
    };
    answer_tags(reader, lines, &mut run)?;
    Ok(run.finish())
}

/// Answers the line that the reader stands at and those after it, up to the first that is bad.
fn answer_tags<R: Read>(
    reader: &mut Counted<R>,
    lines: &mut LineReader,
    run: &mut ScriptRun,
) -> Result<(), Stop>
    requires { failures_of reader.old < u64.MAX }
    ensures whole { OnOk result (ForTagLines R.remaining reader.old lines.old run.old (λ start.
        IsReadWhole R.remaining start reader.new run.new)) }
    ensures stop { IfErr result (λ stop. ForTagLines R.remaining reader.old lines.old run.old (λ start.
        IsStop R.remaining start reader.new lines.new stop)) }
{
    loop {
        run.take_line(lines.number(), lines.line())?;
        if lines.is_last() {
            return Ok(());
        }
        if let Err(fault) = lines.advance(reader) {
            return Err(Stop::Fault(fault));
        }
    }
}
