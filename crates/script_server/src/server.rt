//! The program over any reader and writers.
ghost use Rattle.std.specs.Prelude.{◌≡◌, ◌⊎◌, OnErr, OnOk};
ghost use Rattle.script_server.specs.Serving.{HasServed, HasServedSome};

use crate::heads::Heads;
use crate::opened::serve_phases;
use crate::streams::{Buffers, ServeEnd};
use std::io::{BufRead, BufReader, Read, Write};
use std::marker::Brand;
use std::sync::Wait;

/// Answers the lines of an input to its end.
fn serve<R: AllocGlobal + Wait, I: BufRead, W: Write>(
    rt: &R,
    input: &mut I,
    out: &mut W,
    buffers: &mut Buffers,
) -> Result<(), ServeEnd>
    ensures served { OnOk result (HasServed (I.remaining input.old) (W.contents out.old) (W.contents out.new)) }
    ensures ended { OnErr result (HasServedSome (I.remaining input.old) (W.contents out.old) (W.contents out.new)) }
{
    let mut heads = Heads::new(rt.alloc());
    match heads.serve(input, out, buffers)? {
        None => Ok(()),
        Some(first) => serve_phases::<R, I, W, Brand>(rt, heads, first, input, out),
    }
}

/// The same of an input that is read ahead.
fn serve_input<R: AllocGlobal + Wait, I: Read + Drop, W: Write>(
    rt: &R,
    input: I,
    out: &mut W,
) -> Result<(), ServeEnd>
    ensures served { OnOk result (HasServed (I.remaining input) (W.contents out.old) (W.contents out.new)) }
    ensures ended { OnErr result (HasServedSome (I.remaining input) (W.contents out.old) (W.contents out.new)) }
{
    let Ok(mut input) = BufReader::new(rt.alloc(), input) else {
        return Err(ServeEnd::NoMemory);
    };
    let mut buffers = Buffers::new(rt.alloc());
    serve(rt, &mut input, out, &mut buffers)
}

/// Answers each line of an input before it reads the next (`docs/SERVE.md`), and answers the status of a process: 0
/// where the input was answered to its end, 3 where memory was refused or the reader or the writer failed. At status 3
/// the first lines were answered, and a beginning at most of one answer more was written, whose line may have been
/// done. A client's line is answered what the group of one thread replies behind all lines before it, or it is refused
/// for want of memory, slots or stamps. What failed is a line on `err`; a failed write there changes nothing. A change
/// may wait for others.
pub fn program<R: AllocGlobal + Wait, I: Read + Drop, W: Write, E: Write>(
    rt: &R,
    input: I,
    out: &mut W,
    err: &mut E,
) -> u8
    ensures statuses { (result ≡ 0) ⊎ (result ≡ 3) }
    ensures served { result ≡ 0 → HasServed (I.remaining input) (W.contents out.old) (W.contents out.new) }
    ensures some { result ≡ 3 → HasServedSome (I.remaining input) (W.contents out.old) (W.contents out.new) }
{
    match serve_input(rt, input, out) {
        Ok(()) => 0,
        Err(stop) => {
            let _ = writeln!(err, "{stop}");
            3
        }
    }
}
