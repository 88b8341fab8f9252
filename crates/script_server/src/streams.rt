//! Lines are read from any reader, and answers written to any writer.
ghost use Rattle.std.specs.Prelude.{◌≡◌, ◌≤◌, IfOk, OnErr, OnOk, length, take};
ghost use Rattle.std.specs.Io.KnownBytes.{Appends, Keeps};
ghost use Rattle.std.specs.Io.BufRead.{strip_last};
ghost use mathlib.Core.List.{IsPrefix};
ghost use Rattle.group_history.specs.Map.{Bytes};
ghost use Rattle.script_server.specs.Answers.{IsLine, is_line};
ghost use Rattle.script_server.specs.Inside.Reads.{HasRead};
ghost use Rattle.script_server.specs.Inside.Writes.{WritesSome};

use std::alloc::{AllocError, Global};
use std::io::{self, BufRead, ErrorKind, Write};
use thiserror::Error;

/// Why serving ended before its input did.
#[derive(Clone, Copy, Debug, PartialEq, Eq, Error)]
pub(crate) enum ServeEnd {
    #[error("no memory")]
    NoMemory,
    #[error("read failed")]
    Read,
    #[error("write failed")]
    Write,
}

impl From<AllocError> for ServeEnd {
    fn from(_refused: AllocError) -> ServeEnd {
        ServeEnd::NoMemory
    }
}

/// What a line is read into, and its answer written into, time and again.
#[derive(Drop)]
pub(crate) struct Buffers {
    pub(crate) line: Vec<u8>,
    pub(crate) text: Vec<u8>,
}

impl Buffers {
    pub(crate) fn new(alloc: Global) -> Buffers {
        Buffers {
            line: Vec::new(alloc),
            text: Vec::new(alloc),
        }
    }
}

/// Why a read failed.
fn unread(error: &io::Error) -> ServeEnd {
    if error.kind() == ErrorKind::OutOfMemory {
        ServeEnd::NoMemory
    } else {
        ServeEnd::Read
    }
}

/// Reads the next line in place of the one before, without its line feed. False where the input is at its end.
pub(crate) fn read_line<I: BufRead>(input: &mut I, line: &mut Vec<u8>) -> Result<bool, ServeEnd>
    ensures { IfOk result (λ is. HasRead (I.remaining input.old) is line.new.items (I.remaining input.new)) }
{
    line.clear();
    if let Err(error) = input.read_until(b'\n', line) {
        return Err(unread(&error));
    }
    let is_line = !line.as_slice().is_empty();
    drop_line_feed(line);
    Ok(is_line)
}

/// Takes the line feed at the end away, where there is one.
fn drop_line_feed(line: &mut Vec<u8>)
    ensures { line.new.items ≡ strip_last 10 line.old.items }
{
    let len = line.len();
    if len > 0 && line[len - 1] == b'\n' {
        line.truncate(len - 1);
    }
}

/// Whether a text is one line.
#[tactic(auto, unfolding(crate::specs::Answers::is_line))]
fn is_line(text: &[u8]) -> bool
    ensures { result ≡ is_line text.now }
{
    let Some(last) = text.len().checked_sub(1) else {
        return false;
    };
    text[last] == b'\n' && !text[..last].contains(&b'\n')
}

/// Writes an answer that is one line, and flushes the writer. Where the writer fails a beginning of the answer was
/// written, maybe none. No text that isn't one line is written.
pub(crate) fn write_answer<W: Write>(out: &mut W, text: &[u8]) -> Result<(), ServeEnd>
    ensures line { OnOk result (IsLine text.now) }
    ensures whole { OnOk result (Appends (W.contents out.old) (W.contents out.new) text.now) }
    ensures cut { OnErr result (WritesSome text.now (W.contents out.old) (W.contents out.new)) }
{
    if !is_line(text) {
        return Err(ServeEnd::Write);
    }
    write_text(out, text)
}

/// Writes a text, and flushes the writer. Where the writer fails a beginning of the text was written, maybe none.
fn write_text<W: Write>(out: &mut W, text: &[u8]) -> Result<(), ServeEnd>
    ensures whole { OnOk result (Appends (W.contents out.old) (W.contents out.new) text.now) }
    ensures cut { OnErr result ((cut : Bytes) × IsPrefix cut text.now
        × Appends (W.contents out.old) (W.contents out.new) cut) }
{
    let mut done = 0;
    for _ in 0..u64::MAX {
        if done == text.len() {
            return flush(out);
        }
        done += write_some(out, &text[done..])?;
    }
    Err(ServeEnd::Write)
}

/// Writes a beginning of a text, and answers how long it is; it is empty where a signal came.
fn write_some<W: Write>(out: &mut W, text: &[u8]) -> Result<usize, ServeEnd>
    ensures within { IfOk result (λ n. n ≤ length text.now) }
    ensures some { IfOk result (λ n. Appends (W.contents out.old) (W.contents out.new) (take n text.now)) }
    ensures none { OnErr result (Keeps (W.contents out.old) (W.contents out.new)) }
{
    match out.write(text) {
        Ok(0) => Err(ServeEnd::Write),
        Ok(count) => Ok(count),
        Err(error) => {
            if error.kind() == ErrorKind::Interrupted {
                Ok(0)
            } else {
                Err(ServeEnd::Write)
            }
        }
    }
}

fn flush<W: Write>(out: &mut W) -> Result<(), ServeEnd>
    ensures { Keeps (W.contents out.old) (W.contents out.new) }
{
    if out.flush().is_err() {
        return Err(ServeEnd::Write);
    }
    Ok(())
}
