//! The program over any reader and writers.
ghost use Rattle.std.specs.Prelude.{◌≡◌, ◌⊎◌, true, None, IfSome, is_some};
ghost use Rattle.script_parser.specs.Faults.{first_fault};
ghost use Rattle.script_runner.specs.Runs.{HasRunScript};
ghost use Rattle.script_runner.specs.Inside.Runs.{status_of};

use crate::phase::Gate;
use crate::runner::run_owned;
use script_parser::Fault;
use std::io::{self, Read, Write};
use std::sync::Wait;
use std::thread::Threads;

/// A gate that holds no call.
pub(crate) struct Open;

impl Gate for Open {
    fn before(&self, _client: &str, _line: u64) {}

    fn after(&self, _client: &str, _line: u64) {}
}

/// The status of a process that ends with the fault.
fn status_of(fault: Fault) -> u8
    ensures { result ≡ status_of fault }
{
    match fault {
        Fault::Script { .. } => 2,
        Fault::NoMemory | Fault::Write => 3,
    }
}

/// Tells that a script was not read to its end.
fn tell_unread<E: Write>(error: &io::Error, err: &mut E) {
    let told = if error.kind() == io::ErrorKind::OutOfMemory {
        "no memory\n"
    } else {
        "read failed\n"
    };
    let _ = err.write_all(told.as_bytes());
}

/// Reads a script to its end, runs it, and answers the status of a process: 0 where it ran, 2 where it is
/// faulty, 3 where memory was refused or the reader or the writer failed. What is wrong is a line on `err`; a
/// failed write there changes nothing.
pub fn program<R: AllocGlobal + Threads + Wait + Sync, I: Read, W: Write, E: Write>(
    rt: &R,
    input: &mut I,
    out: &mut W,
    err: &mut E,
) -> u8
    ensures statuses { (result ≡ 0) ⊎ (result ≡ 2) ⊎ (result ≡ 3) }
    ensures ran { result ≡ 0 → IfSome (I.remaining input.old) (λ script. first_fault script ≡ None) }
    ensures written { result ≡ 0 → IfSome (I.remaining input.old)
        (λ script. HasRunScript script (W.contents out.old) (W.contents out.new)) }
    ensures faulty { result ≡ 2 → IfSome (I.remaining input.old) (λ script. is_some (first_fault script) ≡ true) }
    ensures nothing_written { result ≡ 2 → W.contents out.new ≡ W.contents out.old }
{
    let mut script = Vec::new(rt.alloc());
    if let Err(error) = input.read_to_end(&mut script) {
        tell_unread(&error, err);
        return 3;
    }
    match run_owned(rt, script, &Open, out) {
        Ok(()) => 0,
        Err(fault) => {
            let _ = writeln!(err, "{fault}");
            status_of(fault)
        }
    }
}
