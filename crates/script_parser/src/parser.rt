//! A script is read: its lines one after the other.
//!
//! `Parser` takes the lines and keeps what they say. No line is looked at twice as text. Each function that takes a
//! piece of a line says, by the definition of that piece, what the lines have said after it, or which fault the piece
//! has.
ghost use Rattle.std.specs.Prelude.{◌≡◌, IfOk, OnErr, OnOk};
ghost use Rattle.std.specs.Option.{option_copied};
ghost use Rattle.std.specs.Result.{result_err};
ghost use Rattle.std.specs.Str.Lossy.{utf8_valid_len};
ghost use Rattle.script_parser.specs.Context.{Context, nothing_said};
ghost use Rattle.script_parser.specs.Faults.{Checks, script_said, first_fault, said_in, lines_of, line_of_bad_byte};
ghost use Rattle.script_parser.specs.Inside.Parsing.{context_of};
ghost use Rattle.script_parser.specs.Scripts.{line_said, IsChecked, IsScript};
ghost use Rattle.script_parser.specs.declared.faults.ScriptFault.TheVariants as script_fault;
ghost use Rattle.script_parser.specs.declared.faults.Fault.TheVariants as fault;

use crate::faults::{Fault, LineFault, ScriptFault};
use crate::lines::{first_word, no_words};
use crate::names::Names;
use crate::script::{Header, Line, LineKind, Phase, Script};
use std::alloc::{AllocError, Global};

/// Takes the lines of a script, one after the other.
#[derive(Drop)]
pub(crate) struct Parser {
    pub(crate) alloc: Global,
    pub(crate) header: Header,
    pub(crate) phases: Vec<Phase>,
    /// The names of the tickets that the lines so far make.
    pub(crate) tickets: Names,
    /// And of the watches.
    pub(crate) watches: Names,
}

impl Parser {
    ghost use Rattle.script_parser.specs.Commands.{phase_line, with_line};
    ghost use Rattle.script_parser.specs.Faults.{said_with, words_line};
    ghost use Rattle.script_parser.specs.Inside.Faults.{Asks, AgreesWith};
    ghost use Rattle.script_parser.specs.Inside.Reading.{kept_after};
    ghost use Rattle.script_parser.specs.Reading.{with_asked};
    ghost use Rattle.script_parser.specs.declared.script.LineKind.TheVariants as kind;

    pub(crate) fn new(alloc: Global) -> Parser
        ensures { context_of result ≡ nothing_said }
    {
        Parser {
            alloc,
            header: Header {
                group: None,
                profile: None,
                schema: None,
                slots: None,
                clients: Vec::new(alloc),
            },
            phases: Vec::new(alloc),
            tickets: Names::new(alloc),
            watches: Names::new(alloc),
        }
    }

    /// Takes a line, and keeps what it says.
    fn line(&mut self, number: u64, line: &str) -> Result<(), LineFault>
        ensures { AgreesWith (said_with (context_of self.old) number line.now) (context_of self.new) result }
    {
        match self.ask(number, line)? {
            LineKind::Nothing => {}
            LineKind::Phase => self.begin_phase()?,
            LineKind::Command(client, line) => self.keep(client, line)?,
        }
        Ok(())
    }

    /// What a line asks, which is not kept. What it says beside that is.
    #[tactic(auto, unfolding(crate::specs::Faults::said_with, crate::specs::Faults::is_skipped))]
    pub(crate) fn ask(&mut self, number: u64, line: &str) -> Result<LineKind, LineFault>
        ensures { Asks number (said_with (context_of self.old) number line.now)
            (context_of self.old) (context_of self.new) result }
    {
        if line.is_empty() || line.starts_with('#') {
            return Ok(LineKind::Nothing);
        }
        let (word, rest) = first_word(line);
        self.words(number, word, rest)
    }

    #[tactic(auto, unfolding(crate::specs::Faults::words_line, crate::specs::Commands::phase_line))]
    fn words(&mut self, number: u64, word: &str, rest: Option<&str>) -> Result<LineKind, LineFault>
        ensures { Asks number (words_line (context_of self.old) number word.now (option_copied rest.entry))
            (context_of self.old) (context_of self.new) result }
    {
        if word == "phase" {
            no_words(rest)?;
            return Ok(LineKind::Phase);
        }
        if self.phases.is_empty() {
            self.header_line(word, rest)?;
            return Ok(LineKind::Nothing);
        }
        self.command_line(number, word, rest)
    }

    /// Begins a phase, in which no client has a line.
    pub(crate) fn begin_phase(&mut self) -> Result<(), AllocError>
        ensures begun { OnOk result (context_of self.new ≡ with_asked kind.Phase (context_of self.old)) }
        ensures left { OnErr result (context_of self.new ≡ context_of self.old) }
    {
        let phase = Phase::new(self.alloc, self.header.clients.len());
        self.phases.push(phase)?;
        Ok(())
    }

    /// Notes that a phase has begun, where the first one is asked.
    pub(crate) fn settle(&mut self, asked: &LineKind) -> Result<(), AllocError>
        ensures settled { OnOk result (context_of self.new ≡ kept_after asked.now (context_of self.old)) }
        ensures left { OnErr result (context_of self.new ≡ context_of self.old) }
        ensures asked { OnErr result (asked.now ≡ kind.Phase) }
    {
        match asked {
            LineKind::Phase if self.phases.is_empty() => self.begin_phase(),
            _ => Ok(()),
        }
    }

    /// Adds a line of a client to the last phase.
    #[tactic(auto, unfolding(crate::specs::Commands::with_line))]
    fn keep(&mut self, client: usize, line: Line) -> Result<(), AllocError>
        ensures { OnOk result (context_of self.new ≡ record (context_of self.old) {
          phases = with_line client (line_said line) (context_of self.old).phases;
        }) }
    {
        let Some(phase) = self.phases.last_mut() else {
            drop(line);
            return Ok(());
        };
        phase.keep(self.alloc, client, line)?;
        Ok(())
    }
}

/// The script that the bytes are, checked whole; refused with the first fault of the first faulty line, or with
/// NoMemory. A script that isn't UTF-8 is told for that, with the line of its first bad byte, before any other fault.
#[tactic(auto, unfolding(crate::specs::Faults::first_fault))]
pub fn read_script(alloc: Global, bytes: &[u8]) -> Result<Script, Fault>
    ensures first { Checks (first_fault bytes.now) result }
    ensures said { IfOk result (λ script. (said : Context) × (script_said bytes.now ≡ Ok said) × IsScript said script) }
    ensures checked { IfOk result (λ script. IsChecked script) }
{
    let text = match str::from_utf8(bytes) {
        Ok(text) => text,
        Err(error) => return Err(not_utf8(bytes, error.valid_up_to())),
    };
    let parser = read_lines(alloc, text)?;
    Ok(Script {
        header: parser.header,
        phases: parser.phases,
    })
}

/// A parser that has taken the lines of a text.
fn read_lines(alloc: Global, text: &str) -> Result<Parser, Fault>
    ensures first { Checks (result_err (said_in 1 nothing_said (lines_of text.now))) result }
    ensures said { IfOk result (λ parser. said_in 1 nothing_said (lines_of text.now) ≡ Ok (context_of parser)) }
{
    let mut parser = Parser::new(alloc);
    let mut number = 0u64;
    for line in text.split('\n') {
        number = number.saturating_add(1);
        if let Err(fault) = parser.line(number, line) {
            return Err(fault.at(number));
        }
    }
    Ok(parser)
}

#[tactic(auto, unfolding(crate::specs::Faults::line_of_bad_byte))]
fn not_utf8(bytes: &[u8], valid: usize) -> Fault
    requires { valid ≡ utf8_valid_len bytes.now }
    ensures { result ≡ fault.Script (line_of_bad_byte bytes.now) script_fault.NotUtf8 }
{
    let feeds = bytes
        .iter()
        .take(valid)
        .filter(|byte| **byte == b'\n')
        .count();
    Fault::Script {
        line: (feeds as u64).saturating_add(1),
        text: ScriptFault::NotUtf8,
    }
}
