//! A script that is read line by line.
//!
//! `LineReader` takes a line and answers what it asks. It keeps what the lines have said, and none of the lines: so its
//! memory grows with the clients and the names of tickets and watches alone, which its type's invariant says (`bare`).
ghost use Rattle.std.specs.Prelude.{◌≡◌, ◌<◌, length};
ghost use Rattle.std.proofs.Props.{props};
ghost use Rattle.script_parser.specs.Kept.{IsInRange, without_lines};
ghost use Rattle.script_parser.specs.Inside.Parsing.{context_of};

use crate::faults::{LineFault, ScriptFault};
use crate::parser::Parser;
use crate::script::{Header, LineKind};
use std::alloc::Global;

/// Takes the lines of a script, one after the other, and keeps none.
pub struct LineReader {
    parser: Parser,
    ghost bare: { without_lines (context_of parser) ≡ context_of parser },
    ghost range: { IsInRange parser.header } by { Prim.hlevel props },
}

impl Drop for LineReader {
    fn drop(self) {
        let LineReader { parser } = self;
        drop(parser);
    }
}

impl LineReader {
    ghost use Rattle.script_parser.specs.Context.{nothing_said};
    ghost use Rattle.script_parser.specs.Faults.{said_with};
    ghost use Rattle.script_parser.specs.Reading.{IsHeader, TakesLine, TakesAs, kept_by};

    /// A reader that has taken no line.
    pub fn new(alloc: Global) -> LineReader
        ensures { kept_by result ≡ nothing_said }
    {
        LineReader {
            parser: Parser::new(alloc),
        }
    }

    /// Takes a line of this number, counted from 1, without its line feed, and answers what it asks. Where it is
    /// faulty, or memory is refused, the reader is as it was. From the first phase on no client is added.
    pub fn take(&mut self, number: u64, line: &[u8]) -> Result<LineKind, LineFault>
        ensures taken { TakesLine number line.now (kept_by self.old) result (kept_by self.new) }
        ensures clients { 0 < length (kept_by self.old).phases
            → (kept_by self.new).clients ≡ (kept_by self.old).clients }
        ensures begun { 0 < length (kept_by self.old).phases → 0 < length (kept_by self.new).phases }
    {
        match str::from_utf8(line) {
            Ok(line) => self.take_text(number, line),
            Err(_) => Err(LineFault::Script(ScriptFault::NotUtf8)),
        }
    }

    fn take_text(&mut self, number: u64, line: &str) -> Result<LineKind, LineFault>
        ensures taken { TakesAs (said_with (kept_by self.old) number line.now) number (kept_by self.old) result
            (kept_by self.new) }
        ensures clients { 0 < length (kept_by self.old).phases
            → (kept_by self.new).clients ≡ (kept_by self.old).clients }
        ensures begun { 0 < length (kept_by self.old).phases → 0 < length (kept_by self.new).phases }
    {
        let asked = self.parser.ask(number, line)?;
        self.parser.settle(&asked)?;
        Ok(asked)
    }

    /// What the lines before the first phase say.
    pub fn header(&self) -> &Header
        ensures said { IsHeader (kept_by self.now) result.now }
        ensures range { IsInRange result.now }
    {
        &self.parser.header
    }
}
