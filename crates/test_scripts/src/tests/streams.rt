//! Of the program over streams that fail: at once, or at each of their calls in turn.
use script_runner::{Fault, Gate, program, run};
use std::alloc::AllocGlobal;
use std::io::{self, Read, Write};
use std::sync::Wait;
use std::sync::atomic::{AtomicBool, Ordering};
use std::thread::Threads;

/// Three phases: of one client, of both, and of the other one.
const SCRIPT: &str = r#"group 00000000-0000-4000-8000-000000000001
client A 00000000-0000-4000-8000-00000000000a
client B 00000000-0000-4000-8000-00000000000b
phase
A begin t
A end t {"cookie":1,"lastMutationIDChanges":{},"patch":[{"op":"put","key":"n","value":5}]}
phase
B mutate 1 set ["b",1]
A mutate 1 set ["a",1]
A refresh
B refresh
phase
B learn A
B scan - - -
"#;

/// What it prints.
const PRINTED: &str =
    r#"5 A pull {"clientGroupID":"00000000-0000-4000-8000-000000000001","cookie":null,"profileID":"p1","pullVersion":1,"schemaVersion":"s1"}
6 A applied
9 A id 1
10 A last 1
8 B id 1
11 B last 1
13 B learnt
14 B rows [["a",1],["b",1],["n",5]]
"#;

fn no_memory() -> io::Error {
    io::Error::from(io::ErrorKind::OutOfMemory)
}

fn pipe_failed() -> io::Error {
    io::Error::from(io::ErrorKind::BrokenPipe)
}

// A reader that gives a byte at a time, and fails at one read.
#[derive(Drop)]
struct FailingReader<'a> {
    rest: &'a [u8],
    reads: u64,
    fails_at: u64,
}

impl<'a> FailingReader<'a> {
    fn new(script: &'a str, fails_at: u64) -> FailingReader<'a> {
        FailingReader {
            rest: script.as_bytes(),
            reads: 0,
            fails_at,
        }
    }
}

impl Read for FailingReader<'_> {
    fn read(&mut self, buf: &mut [u8]) -> io::Result<usize> {
        self.reads = self.reads.saturating_add(1);
        if self.reads == self.fails_at {
            return Err(pipe_failed());
        }
        let count = buf.len().min(1);
        self.rest.read(&mut buf[..count])
    }
}

// A gate that notes whether a call began after the writer failed.
#[derive(Drop)]
struct StreamWatch {
    has_failed: AtomicBool,
    is_late: AtomicBool,
}

impl StreamWatch {
    fn new() -> StreamWatch {
        StreamWatch {
            has_failed: AtomicBool::new(false),
            is_late: AtomicBool::new(false),
        }
    }
}

impl Gate for StreamWatch {
    fn before(&self, _client: &str, _line: u64) {
        if self.has_failed.load(Ordering::SeqCst) {
            self.is_late.store(true, Ordering::SeqCst);
        }
    }

    fn after(&self, _client: &str, _line: u64) {}
}

// So many bytes are taken by a write.
const FEW: usize = 16;

// A writer that takes few bytes at a time, fails at one write, and compares what it takes with what is printed.
#[derive(Drop)]
struct Writer<'a> {
    wanted: &'a [u8],
    is_other: bool,
    writes: u64,
    fails_at: u64,
    watch: &'a StreamWatch,
}

impl<'a> Writer<'a> {
    fn new(fails_at: u64, watch: &'a StreamWatch) -> Writer<'a> {
        Writer {
            wanted: PRINTED.as_bytes(),
            is_other: false,
            writes: 0,
            fails_at,
            watch,
        }
    }

    fn take(&mut self, bytes: &[u8]) {
        match self.wanted.strip_prefix(bytes) {
            Some(rest) => self.wanted = rest,
            None => self.is_other = true,
        }
    }

    // How it ended, where the program told that.
    fn end(&self, told: ToldRun) -> StreamEnd {
        let is_late = self.watch.is_late.load(Ordering::SeqCst);
        let is_last = self.writes == self.fails_at;
        match told {
            ToldRun::Nothing if !self.is_other && self.wanted.is_empty() && !is_last =>
                StreamEnd::Whole,
            ToldRun::Unwritten if !self.is_other && is_last && !is_late => StreamEnd::Broken,
            _ => StreamEnd::Other,
        }
    }
}

impl Write for Writer<'_> {
    fn write(&mut self, buf: &[u8]) -> io::Result<usize> {
        self.writes = self.writes.saturating_add(1);
        if self.writes == self.fails_at {
            self.watch.has_failed.store(true, Ordering::SeqCst);
            return Err(pipe_failed());
        }
        let count = buf.len().min(FEW);
        self.take(&buf[..count]);
        Ok(count)
    }

    fn flush(&mut self) -> io::Result<()> {
        Ok(())
    }
}

// How a run ended over a stream that fails at one of its calls.
#[derive(Clone, Copy, PartialEq, Eq, Debug)]
enum StreamEnd {
    // All is printed: the stream was not called so often.
    Whole,
    // It was told that the stream failed, which was not called again. What was printed before is a beginning.
    Broken,
    Other,
}

// What a run tells at its end.
#[derive(Clone, Copy, PartialEq, Eq, Debug)]
enum ToldRun {
    Nothing,
    Unread,
    Unwritten,
    Other,
}

// What the program tells by its status and its text. Want of memory is no answer.
fn read_told(status: u8, bytes: &[u8]) -> io::Result<ToldRun> {
    match (status, str::from_utf8(bytes).unwrap_or("")) {
        (0, "") => Ok(ToldRun::Nothing),
        (3, "no memory\n") => Err(no_memory()),
        (3, "read failed\n") => Ok(ToldRun::Unread),
        (3, "write failed\n") => Ok(ToldRun::Unwritten),
        _ => Ok(ToldRun::Other),
    }
}

// What the program tells over these streams.
fn told_by_program<R, I, W>(rt: &R, input: &mut I, out: &mut W) -> io::Result<ToldRun>
where
    R: AllocGlobal + Threads + Wait + Sync,
    I: Read,
    W: Write,
{
    let mut bytes = Vec::with_capacity(rt.alloc(), 64)?;
    let status = program(rt, input, out, &mut bytes);
    read_told(status, &bytes)
}

// How the program ends over a reader that fails at that read.
fn end_of_reading<R: AllocGlobal + Threads + Wait + Sync>(
    rt: &R,
    script: &str,
    fails_at: u64,
) -> io::Result<StreamEnd> {
    let mut out = Vec::new(rt.alloc());
    let mut input = FailingReader::new(script, fails_at);
    match told_by_program(rt, &mut input, &mut out)? {
        ToldRun::Nothing if out.as_slice() == PRINTED.as_bytes() => Ok(StreamEnd::Whole),
        ToldRun::Unread if out.is_empty() && input.reads == fails_at => Ok(StreamEnd::Broken),
        _ => Ok(StreamEnd::Other),
    }
}

// How the program ends over a writer that fails at that write.
fn end_of_program<R: AllocGlobal + Threads + Wait + Sync>(
    rt: &R,
    fails_at: u64,
) -> io::Result<StreamEnd> {
    let watch = StreamWatch::new();
    let mut out = Writer::new(fails_at, &watch);
    let mut input = SCRIPT.as_bytes();
    let told = told_by_program(rt, &mut input, &mut out)?;
    Ok(out.end(told))
}

// How `run` ends over it, which asks a gate before each call.
fn end_of_run<R: AllocGlobal + Threads + Wait + Sync>(
    rt: &R,
    fails_at: u64,
) -> io::Result<StreamEnd> {
    let watch = StreamWatch::new();
    let mut out = Writer::new(fails_at, &watch);
    match run(rt, SCRIPT.as_bytes(), &watch, &mut out) {
        Ok(()) => Ok(out.end(ToldRun::Nothing)),
        Err(Fault::NoMemory) => Err(no_memory()),
        Err(Fault::Write) => Ok(out.end(ToldRun::Unwritten)),
        Err(Fault::Script { .. }) => Ok(StreamEnd::Other),
    }
}

// No stream here is called so often.
const MOST: u64 = 1000;

// The first call at which a reader fails and the program ends otherwise than it should, or at which it is read whole.
fn first_other_read<R: AllocGlobal + Threads + Wait + Sync>(
    rt: &R,
) -> io::Result<(u64, StreamEnd)> {
    for fails_at in 1..MOST {
        let end = end_of_reading(rt, SCRIPT, fails_at)?;
        if end != StreamEnd::Broken {
            return Ok((fails_at, end));
        }
    }
    Ok((MOST, StreamEnd::Other))
}

// The same of a writer. Both the program and `run` have to end so.
fn first_other_write<R: AllocGlobal + Threads + Wait + Sync>(
    rt: &R,
) -> io::Result<(u64, StreamEnd)> {
    for fails_at in 1..MOST {
        let end = end_of_program(rt, fails_at)?;
        if end != end_of_run(rt, fails_at)? {
            return Ok((fails_at, StreamEnd::Other));
        }
        if end != StreamEnd::Broken {
            return Ok((fails_at, end));
        }
    }
    Ok((MOST, StreamEnd::Other))
}

// The script has so many bytes, each of which is a read, and one read more finds its end.
#[test]
fn a_reader_that_fails_has_nothing_run(rt: HostRuntime) -> io::Result<()> {
    let reads = SCRIPT.len() as u64;
    assert_eq!(rt;
        first_other_read(&rt)?,
        (reads.saturating_add(2), StreamEnd::Whole)
    );
    Ok(())
}

#[test]
fn a_writer_that_fails_is_not_called_again(rt: HostRuntime) -> io::Result<()> {
    let (writes, end) = first_other_write(&rt)?;
    assert_eq!(rt; end, StreamEnd::Whole);
    assert!(rt; writes > 3, "{writes}");
    Ok(())
}

// The last line of a script needs no line feed.
#[test]
fn a_script_may_end_without_a_line_feed(rt: HostRuntime) -> io::Result<()> {
    let unended = SCRIPT.strip_suffix('\n').unwrap_or("");
    assert_eq!(rt; end_of_reading(&rt, unended, 0)?, StreamEnd::Whole);
    Ok(())
}

// A stream that fails at once.
#[derive(Drop)]
struct Broken;

impl Write for Broken {
    fn write(&mut self, _buf: &[u8]) -> io::Result<usize> {
        Err(pipe_failed())
    }

    fn flush(&mut self) -> io::Result<()> {
        Ok(())
    }
}

// Nothing can be told then, and the status is as ever.
#[test]
fn a_failed_write_of_a_fault_changes_nothing(rt: HostRuntime) -> io::Result<()> {
    let mut out = Vec::new(rt.alloc());
    let mut input = "slots 15".as_bytes();
    let status = program(&rt, &mut input, &mut out, &mut Broken);
    if status == 3 {
        return Err(no_memory());
    }
    assert_eq!(rt; (status, out.len()), (2, 0));
    Ok(())
}
