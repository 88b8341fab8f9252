//! The lines before the first phase: those of a script's header, and the rules of the group.
ghost use Rattle.std.specs.Prelude.{◌≡◌, ◌-◌, ◌^◌, ◌<◌, [], IfOk, IfSome, None, Ok, OnErr, OnOk, option_map};
ghost use Rattle.std.specs.Option.{option_copied};
ghost use Rattle.rule_mutators.specs.Reading.{rules_said};
ghost use Rattle.rule_mutators.specs.Views.{rules_of};
ghost use Rattle.script_parser.specs.Reading.{kept_by};
ghost use Rattle.script_parser.specs.Words.{more, word};
ghost use Rattle.script_server.specs.Answers.{GivesRules, behind_rules, first_rules, given_in, rules_of_line};
ghost use Rattle.script_server.specs.Answers.{rules_with};
ghost use Rattle.script_server.specs.Serving.{HasEnded};
ghost use Rattle.script_server.specs.Inside.Stages.{AreHeads, HasTurned, IsHead, IsHeadOf, IsNoCommand, heads_stand};
ghost use Rattle.script_server.specs.Inside.Stages.{served_at};

use crate::printing::{print_fault, print_ok, rules_fault};
use crate::streams::{Buffers, ServeEnd, read_line, write_answer};
use rule_mutators::Rules;
use script_parser::{LineFault, LineKind, LineReader, ScriptFault};
use std::alloc::{AllocError, Global};
use std::io::{BufRead, Write};

/// What becomes of a line before the first phase.
#[derive(Clone, Copy, PartialEq, Eq)]
pub(crate) enum HeaderLine {
    /// It is answered.
    Answered,
    /// It begins the first phase, and isn't answered yet.
    Begins,
}

/// What became of a turn before the first phase.
#[derive(Clone, Copy, PartialEq, Eq)]
pub(crate) enum HeaderTurn {
    /// The input is at its end.
    Ended,
    /// The next line was answered.
    Answered,
    /// The next line begins the first phase, and isn't answered yet.
    Begins,
}

/// What was said before the first phase.
pub(crate) struct Heads {
    alloc: Global,
    reader: LineReader,
    rules: Option<Rules>,
}

impl Drop for Heads {
    fn drop(self) {
        let Heads {
            alloc: _,
            reader,
            rules,
        } = self;
        drop(reader);
        drop(rules);
    }
}

/// What follows the word `rules`, where a line begins with it: a text, or nothing.
fn rules_given(line: &[u8]) -> Option<Option<&str>>
    ensures { option_map option_copied result ≡ rules_of_line line.now }
{
    match str::from_utf8(line) {
        Ok(line) => behind_rules(line),
        Err(_) => None,
    }
}

#[tactic(auto, unfolding(crate::specs::Answers::behind_rules))]
fn behind_rules(line: &str) -> Option<Option<&str>>
    ensures { option_map option_copied result ≡ behind_rules line.now }
{
    let (word, rest) = first_word(line);
    if word == "rules" { Some(rest) } else { None }
}

/// The first word, and what follows it after one space.
#[tactic(auto, unfolding(script_parser::specs::Words::word, script_parser::specs::Words::more))]
fn first_word(line: &str) -> (&str, Option<&str>)
    ensures first { result.0.now ≡ word line.now }
    ensures rest { option_copied result.1 ≡ more line.now }
{
    match line.split_once(' ') {
        Some((word, rest)) => (word, Some(rest)),
        None => (line, None),
    }
}

/// Answers a line that asks this, unless it begins the first phase.
fn head_of(asked: LineKind, number: u64, text: &mut Vec<u8>) -> Result<HeaderLine, AllocError>
    requires empty { text.old.items ≡ [] }
    requires none { IsNoCommand asked }
    ensures { IfOk result (λ head. IsHeadOf asked number head text.new.items) }
{
    match asked {
        LineKind::Nothing => {
            print_ok(text, number)?;
            Ok(HeaderLine::Answered)
        }
        LineKind::Phase => Ok(HeaderLine::Begins),
        LineKind::Command(_, _) => unreachable!(),
    }
}

impl Heads {
    ghost use Rattle.script_server.specs.Standing.{at_first, rules_in};

    /// Before the first line.
    pub(crate) fn new(alloc: Global) -> Heads
        ensures { heads_stand result ≡ at_first }
    {
        Heads {
            alloc,
            reader: LineReader::new(alloc),
            rules: None,
        }
    }

    /// What was said, and the rules, none where no line gave them.
    pub(crate) fn into_parts(self) -> (LineReader, Rules)
        ensures said { kept_by result.0 ≡ (heads_stand self).said }
        ensures rules { rules_of result.1 ≡ rules_in (heads_stand self) }
    {
        let Heads {
            alloc,
            reader,
            rules,
        } = self;
        match rules {
            Some(rules) => (reader, rules),
            None => (reader, Rules::none(alloc)),
        }
    }

    /// Keeps rules, where they are the first ones.
    fn keep_rules(
        &mut self,
        number: u64,
        rules: Rules,
        text: &mut Vec<u8>,
    ) -> Result<(), AllocError>
        requires { text.old.items ≡ [] }
        ensures { OnOk result (GivesRules (first_rules (heads_stand self.old).rules (Ok (rules_of rules))) number
            (heads_stand self.old) text.new.items (heads_stand self.new)) }
    {
        if self.rules.is_some() {
            return print_fault(text, number, ScriptFault::SaidTwice.text());
        }
        self.rules = Some(rules);
        print_ok(text, number)
    }

    /// Takes the rules that a text says, where it says rules and they are the first ones.
    fn read_rules(&mut self, number: u64, given: &str, text: &mut Vec<u8>) -> Result<(), AllocError>
        requires { text.old.items ≡ [] }
        ensures { OnOk result (GivesRules (first_rules (heads_stand self.old).rules (rules_said given.now)) number
            (heads_stand self.old) text.new.items (heads_stand self.new)) }
    {
        match Rules::read(self.alloc, given.as_bytes()) {
            Ok(rules) => self.keep_rules(number, rules, text),
            Err(fault) => {
                let told = rules_fault(self.alloc, &fault)?;
                print_fault(text, number, told.as_str())
            }
        }
    }

    /// Takes a line that begins with `rules`.
    fn give_rules(
        &mut self,
        number: u64,
        given: Option<&str>,
        text: &mut Vec<u8>,
    ) -> Result<(), AllocError>
        requires { text.old.items ≡ [] }
        ensures { OnOk result (GivesRules (rules_with (heads_stand self.old).rules (option_copied given.entry)) number
            (heads_stand self.old) text.new.items (heads_stand self.new)) }
    {
        match given {
            Some(given) => self.read_rules(number, given, text),
            None => print_fault(text, number, ScriptFault::BadWords.text()),
        }
    }

    /// Takes a line that gives no rules.
    fn take(
        &mut self,
        number: u64,
        line: &[u8],
        text: &mut Vec<u8>,
    ) -> Result<HeaderLine, AllocError>
        requires empty { text.old.items ≡ [] }
        requires none { (heads_stand self.old).said.phases ≡ [] }
        requires other { given_in (heads_stand self.old) line.now ≡ None }
        ensures { IfOk result (λ head. IsHead head number line.now (heads_stand self.old) text.new.items
            (heads_stand self.new)) }
    {
        match self.reader.take(number, line) {
            Ok(asked) => head_of(asked, number, text),
            Err(LineFault::Script(fault)) => {
                print_fault(text, number, fault.text())?;
                Ok(HeaderLine::Answered)
            }
            Err(LineFault::NoMemory) => Err(AllocError),
        }
    }

    /// Takes a line, and writes its answer in place of the text, unless it begins the first phase.
    fn answer(
        &mut self,
        number: u64,
        line: &[u8],
        text: &mut Vec<u8>,
    ) -> Result<HeaderLine, AllocError>
        requires { (heads_stand self.old).said.phases ≡ [] }
        ensures { IfOk result (λ head. IsHead head number line.now (heads_stand self.old) text.new.items
            (heads_stand self.new)) }
    {
        text.clear();
        let Some(given) = rules_given(line) else {
            return self.take(number, line, text);
        };
        self.give_rules(number, given, text)?;
        Ok(HeaderLine::Answered)
    }

    /// Reads the next line and answers it.
    fn turn<I: BufRead, W: Write>(
        &mut self,
        number: u64,
        input: &mut I,
        out: &mut W,
        buffers: &mut Buffers,
    ) -> Result<HeaderTurn, ServeEnd>
        requires { (heads_stand self.old).said.phases ≡ [] }
        ensures turned { IfOk result (λ turn. HasTurned turn
            (served_at (heads_stand self.old) number (I.remaining input.old) (W.contents out.old))
            (heads_stand self.new) (I.remaining input.new) (W.contents out.new)) }
        ensures ended { OnErr result (HasEnded
            (served_at (heads_stand self.old) number (I.remaining input.old) (W.contents out.old))
            (W.contents out.new)) }
    {
        if !read_line(input, &mut buffers.line)? {
            return Ok(HeaderTurn::Ended);
        }
        match self.answer(number, &buffers.line, &mut buffers.text)? {
            HeaderLine::Begins => Ok(HeaderTurn::Begins),
            HeaderLine::Answered => {
                write_answer(out, &buffers.text)?;
                Ok(HeaderTurn::Answered)
            }
        }
    }

    /// Answers the lines before the first phase, and says which line begins it. That one isn't answered.
    pub(crate) fn serve<I: BufRead, W: Write>(
        &mut self,
        input: &mut I,
        out: &mut W,
        buffers: &mut Buffers,
    ) -> Result<Option<u64>, ServeEnd>
        requires { (heads_stand self.old).said.phases ≡ [] }
        ensures number { IfOk result (λ first. IfSome first (λ n. n < 2 ^ 64 - 1)) }
        ensures heads { IfOk result (λ first. AreHeads first
            (served_at (heads_stand self.old) 1 (I.remaining input.old) (W.contents out.old))
            (heads_stand self.new) (I.remaining input.new) (W.contents out.new)) }
        ensures ended { OnErr result (HasEnded
            (served_at (heads_stand self.old) 1 (I.remaining input.old) (W.contents out.old)) (W.contents out.new)) }
    {
        for number in 1..u64::MAX {
            match self.turn(number, input, out, buffers)? {
                HeaderTurn::Ended => return Ok(None),
                HeaderTurn::Answered => {}
                HeaderTurn::Begins => return Ok(Some(number)),
            }
        }
        Err(ServeEnd::Read)
    }
}
