//! Of a script whose lines are read and done one by one.
ghost use Rattle.script_parser.specs.Kept.{IsInRange};

use script_mutators::ScriptMutators;
use script_parser::{Header, Line, LineFault, LineKind, LineReader, ScriptFault};
use script_runner::Clients;
use std::alloc::{AllocError, Global};
use std::sync::Wait;

const CLIENT: &[u8] = b"client A 00000000-0000-4000-8000-00000000000a";

const MUTATE: &[u8] = br#"A mutate 1 set ["n",5]"#;

/// What the first client's line prints in a new group.
fn told<R: Wait>(rt: &R, alloc: Global, header: &Header, line: &Line) -> Result<Vec<u8>, AllocError>
    requires { IsInRange header.now }
{
    let mut text = Vec::new(alloc);
    let mut clients = Clients::open(alloc, header, ScriptMutators)?;
    clients.begin_phase()?;
    if !header.clients.is_empty() {
        clients.tell(rt, 0, line, &mut text)?;
    }
    Ok(text)
}

/// Whether a faulty line is told as such.
fn is_refused(reader: &mut LineReader) -> bool {
    match reader.take(2, b"slots 1") {
        Ok(_) => false,
        Err(fault) => fault == LineFault::Script(ScriptFault::BadNumber),
    }
}

/// Reads a client's line, a faulty one, and a phase.
fn begin(reader: &mut LineReader) -> Result<(), LineFault> {
    reader.take(1, CLIENT)?;
    if !is_refused(reader) {
        return Err(LineFault::Script(ScriptFault::BadWords));
    }
    reader.take(3, b"phase").map(drop)
}

/// The first client's line.
fn asked(reader: &mut LineReader) -> Result<Line, LineFault> {
    match reader.take(4, MUTATE)? {
        LineKind::Command(0, line) => Ok(line),
        _ => Err(LineFault::Script(ScriptFault::UnknownCommand)),
    }
}

/// What that line prints.
fn printed<R: Wait>(rt: &R, alloc: Global, reader: &mut LineReader) -> Result<Vec<u8>, LineFault> {
    begin(reader)?;
    let line = asked(reader)?;
    Ok(told(rt, alloc, reader.header(), &line)?)
}

#[test]
fn lines_are_done_one_by_one(rt: HostRuntime) -> Result<(), LineFault> {
    let alloc = rt.alloc();
    let mut reader = LineReader::new(alloc);
    let text = printed(&rt, alloc, &mut reader)?;
    assert_eq!(rt; text.as_slice(), b"4 A id 1\n".as_slice());
    Ok(())
}
