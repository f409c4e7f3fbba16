//! The program for callers in C, as a static library: bindings/c/zugrenja.h declares what is here.
#![tactic(auto)]

mod adding;
mod attribute_places;
mod buffers;
mod closing;
mod explanations;
mod handle;
mod making;
mod raw_box;
mod reasons;
mod reports;
mod running;
mod session;
mod status;
mod tags;
mod texts;

ghost use Rattle.std.specs.Prelude.{◌≡◌, ◌≢◌, length};
ghost use Rattle.lol_script.specs.Scripts.{output};
ghost use Rattle.zugrenja_c.specs.Numbers.{overwritten, status_number};

use crate::buffers::overwrite;
use crate::status::OUT_OF_MEMORY;
use lol_script::{Counted, Status, run};
use std::alloc::Global;

/// The number of a status, which is the exit status of the program.
fn number_of(status: Status) -> u32
    ensures { result ≡ status_number status }
{
    match status {
        Status::Good => 0,
        Status::BadLine => 2,
        Status::Refused => 3,
    }
}

/// Runs a script (docs/SCRIPT.md) and writes the beginning of its output that fits into `out`, whole if it fits. `written` is the length
/// of the whole output: if it is greater than that of `out`, the rest is lost, and a call with so many bytes gets all. Returns 0 if each
/// line was good and each tag was answered, 2 if a line was bad, 3 if a tag was refused, and 4 if memory was refused: then `out` is as it
/// was, and `written` is 0. Takes the memory of `run` and that of the output.
#[unsafe(no_mangle)]
pub extern "C" fn zugrenja_run_script(
    alloc: Global,
    script: &[u8],
    out: &mut [u8],
    written: &mut usize,
) -> u32
    ensures text { result ≢ 4 → out.new ≡ overwritten (output script.now).text out.old }
    ensures written { result ≢ 4 → written.new ≡ length (output script.now).text }
    ensures status { result ≢ 4 → result ≡ status_number (output script.now).status }
    ensures memory { result ≡ 4 → (out.new ≡ out.old) × (written.new ≡ 0) }
{
    let mut reader = Counted::new(script);
    let mut writer = Counted::new(Vec::<u8>::new(alloc));
    *written = 0;
    let Ok(status) = run(alloc, &mut reader, &mut writer) else {
        return OUT_OF_MEMORY;
    };
    *written = overwrite(&writer.into_inner(), out);
    number_of(status)
}
