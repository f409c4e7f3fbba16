//! Reads scripts of selectors and tags, and runs them.
#![tactic(auto)]

ghost use Rattle.std.specs.Prelude.{◌≡◌};
ghost use Rattle.lol_script.specs.ExitStatus.{exit_status_of};

mod bad_line;
mod device;
mod explained;
pub mod laws;
mod line_reader;
mod lines;
mod output;
mod program;
mod script_run;
mod select_lines;
mod settings;
mod tags;

pub use device::{Counted, RunFault};
pub use output::push_reason;
pub use program::{Status, run, run_with_message};
use std::io;
use std::process::ExitCode;

/// Runs the script of standard input and writes its output to standard output, as a program: the exit status is that of `exit_status`.
///
/// People are told on standard error of a selector that is refused.
pub fn run_as_program(rt: HostRuntime) -> ExitCode {
    let mut reader = Counted::new(rt.reader());
    let mut writer = Counted::new(io::writer(&rt));
    let mut message = String::new(rt.alloc());
    let outcome = run_with_message(rt.alloc(), &mut reader, &mut writer, &mut message);
    if !message.is_empty() {
        let _ = eprintln!(rt; "lol_match: {message}");
    }
    let _ = reader.into_inner();
    let _ = writer.into_inner();
    ExitCode::from(exit_status(&rt, outcome))
}

/// The exit status of a run; a fault is named on standard error.
pub fn exit_status(rt: &impl Eprint, outcome: Result<Status, RunFault>) -> u8
    ensures { result ≡ exit_status_of outcome }
{
    match outcome {
        Ok(Status::Good) => 0,
        Ok(Status::BadLine) => 2,
        Ok(Status::Refused) => 3,
        Err(fault) => {
            let _ = eprintln!(rt; "lol_match: {fault}");
            match fault {
                RunFault::Memory => 3,
                RunFault::Read | RunFault::Write => 4,
            }
        }
    }
}
