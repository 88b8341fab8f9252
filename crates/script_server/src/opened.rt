//! The lines from the first phase on, which the clients of a group answer.
ghost use Rattle.std.specs.Prelude.{◌≡◌, ◌+◌, ◌-◌, ◌^◌, ◌<◌, [], IfOk, OnErr, OnOk, length};
ghost use Rattle.std.specs.Io.KnownBytes.{Appends};
ghost use Rattle.script_parser.specs.declared.script.LineKind.TheVariants as kind;
ghost use Rattle.script_runner.specs.Settling.{AreSteady};
ghost use Rattle.script_server.specs.Answers.{Answers, IsLine, OpensGroup, ok_text};
ghost use Rattle.script_server.specs.Serving.{HasEnded, ServedPlace};
ghost use Rattle.script_server.specs.Standing.{Standing, rules_in};
ghost use Rattle.script_server.specs.Inside.Stages.{HasAnswered, BeginsAt, HasDone, IsPlayerThere, IsServed, HasPhase};
ghost use Rattle.script_server.specs.Inside.Stages.{IsWholeAt, StaysSteady, WhereWhole};
ghost use Rattle.script_server.specs.Inside.Stages.{heads_stand, opened_stand, served_at};
ghost use Rattle.script_server.specs.Inside.Writes.{WritesSome};

use crate::heads::Heads;
use crate::printing::{print_fault, print_ok};
use crate::streams::{Buffers, ServeEnd, read_line, write_answer};
use rule_mutators::{NamesRules, RuleMutators};
use script_parser::{LineFault, LineKind, LineReader};
use script_runner::Clients;
use std::alloc::{AllocError, Global};
use std::io::{BufRead, Write};
use std::sync::Wait;

/// The clients of a group whose rules `B` names.
pub(crate) struct Opened<B: NamesRules + Sync + Drop> {
    reader: LineReader,
    clients: Clients<RuleMutators<B>>,
}

impl<B: NamesRules + Sync + Drop> Drop for Opened<B> {
    fn drop(self) {
        let Opened { reader, clients } = self;
        drop(reader);
        drop(clients);
    }
}

impl<B: NamesRules + Sync + Drop> Opened<B> {
    /// Opens the group and the clients that were said.
    fn open(alloc: Global, heads: Heads) -> Result<Opened<B>, AllocError>
        requires { rules_in (heads_stand heads) ≡ B.rules }
        ensures { IfOk result (λ opened. OpensGroup (heads_stand heads) (heads_stand heads).said
            (opened_stand opened)) }
    {
        let (reader, rules) = heads.into_parts();
        let mutators = RuleMutators::<B>::new(rules);
        let clients = Clients::open(alloc, reader.header(), mutators)?;
        Ok(Opened { reader, clients })
    }

    /// Takes a line, and writes its answer in place of the text.
    fn answer<R: Wait>(
        &mut self,
        rt: &R,
        number: u64,
        line: &[u8],
        text: &mut Vec<u8>,
    ) -> Result<(), AllocError>
        requires { HasPhase (opened_stand self.old) }
        ensures answered { OnOk result (WhereWhole (opened_stand self.old) (opened_stand self.new)
            (Answers number line.now (opened_stand self.old) text.new.items (opened_stand self.new))) }
        ensures there { OnOk result (HasPhase (opened_stand self.new)) }
        ensures steady { StaysSteady (opened_stand self.old) (opened_stand self.new) }
    {
        text.clear();
        match self.reader.take(number, line) {
            Ok(asked) => self.perform(rt, number, asked, text),
            Err(LineFault::Script(fault)) => print_fault(text, number, fault.text()),
            Err(LineFault::NoMemory) => Err(AllocError),
        }
    }

    /// Begins a phase, and answers its line.
    fn begin_phase(&mut self, number: u64, text: &mut Vec<u8>) -> Result<(), AllocError>
        requires { text.old.items ≡ [] }
        ensures done { OnOk result (HasDone kind.Phase number (opened_stand self.old) text.new.items
            (opened_stand self.new)) }
        ensures said { (opened_stand self.new).said ≡ (opened_stand self.old).said }
        ensures players { (opened_stand self.new).players ≡ (opened_stand self.old).players }
        ensures seen { (opened_stand self.new).seen ≡ (opened_stand self.old).seen }
    {
        self.clients.begin_phase()?;
        print_ok(text, number)
    }

    /// Does what a line of this number asks, and writes its answer.
    fn perform<R: Wait>(
        &mut self,
        rt: &R,
        number: u64,
        asked: LineKind,
        text: &mut Vec<u8>,
    ) -> Result<(), AllocError>
        requires empty { text.old.items ≡ [] }
        requires place { IsPlayerThere asked (opened_stand self.old).players }
        ensures done { OnOk result (HasDone asked number (opened_stand self.old) text.new.items
            (opened_stand self.new)) }
        ensures said { (opened_stand self.new).said ≡ (opened_stand self.old).said }
        ensures count { length (opened_stand self.new).players ≡ length (opened_stand self.old).players }
        ensures steady { StaysSteady (opened_stand self.old) (opened_stand self.new) }
    {
        match asked {
            LineKind::Nothing => print_ok(text, number),
            LineKind::Phase => self.begin_phase(number, text),
            LineKind::Command(place, line) => self.clients.tell(rt, place, &line, text),
        }
    }

    /// Reads the next line and answers it. False where the input is at its end.
    fn turn<R: Wait, I: BufRead, W: Write>(
        &mut self,
        rt: &R,
        number: u64,
        input: &mut I,
        out: &mut W,
        buffers: &mut Buffers,
    ) -> Result<bool, ServeEnd>
        requires { HasPhase (opened_stand self.old) }
        ensures turned { IfOk result (λ is. HasAnswered is
            (served_at (opened_stand self.old) number (I.remaining input.old) (W.contents out.old))
            (opened_stand self.new) (I.remaining input.new) (W.contents out.new)) }
        ensures ended { OnErr result (WhereWhole (opened_stand self.old) (opened_stand self.new) (HasEnded
            (served_at (opened_stand self.old) number (I.remaining input.old) (W.contents out.old))
            (W.contents out.new))) }
        ensures steady { StaysSteady (opened_stand self.old) (opened_stand self.new) }
    {
        if !read_line(input, &mut buffers.line)? {
            return Ok(false);
        }
        self.answer(rt, number, &buffers.line, &mut buffers.text)?;
        write_answer(out, &buffers.text)?;
        Ok(true)
    }

    /// Answers the lines to the end of the input, the first of which has this number.
    fn serve<R: Wait, I: BufRead, W: Write>(
        &mut self,
        rt: &R,
        first: u64,
        input: &mut I,
        out: &mut W,
        buffers: &mut Buffers,
    ) -> Result<(), ServeEnd>
        requires { HasPhase (opened_stand self.old) }
        ensures served { OnOk result (WhereWhole (opened_stand self.old) (opened_stand self.new) (IsServed
            (served_at (opened_stand self.old) first (I.remaining input.old) (W.contents out.old))
            (W.contents out.new))) }
        ensures ended { OnErr result (WhereWhole (opened_stand self.old) (opened_stand self.new) (HasEnded
            (served_at (opened_stand self.old) first (I.remaining input.old) (W.contents out.old))
            (W.contents out.new))) }
        ensures steady { StaysSteady (opened_stand self.old) (opened_stand self.new) }
    {
        for number in first..u64::MAX {
            if !self.turn(rt, number, input, out, buffers)? {
                return Ok(());
            }
        }
        Err(ServeEnd::Read)
    }

    /// Answers the line of this number, which began the first phase, and those after it to the end of the input.
    fn serve_first<R: Wait, I: BufRead, W: Write>(
        &mut self,
        rt: &R,
        number: u64,
        input: &mut I,
        out: &mut W,
        buffers: &mut Buffers,
    ) -> Result<(), ServeEnd>
        requires there { HasPhase (opened_stand self.old) }
        requires number { number < 2 ^ 64 - 1 }
        ensures served { (old : ServedPlace) (before : Standing)
            → BeginsAt old (served_at before number (I.remaining input.old) (W.contents out.old))
            → OpensGroup before before.said (opened_stand self.old)
            → OnOk result (WhereWhole (opened_stand self.old) (opened_stand self.new)
            (IsServed old (W.contents out.new))) }
        ensures ended { (old : ServedPlace) (before : Standing)
            → BeginsAt old (served_at before number (I.remaining input.old) (W.contents out.old))
            → OpensGroup before before.said (opened_stand self.old)
            → OnErr result (WhereWhole (opened_stand self.old) (opened_stand self.new)
            (HasEnded old (W.contents out.new))) }
        ensures steady { StaysSteady (opened_stand self.old) (opened_stand self.new) }
    {
        answer_first(number, out, &mut buffers.text)?;
        self.serve(rt, number + 1, input, out, buffers)
    }

    /// Ends the group behind the last line that was done.
    fn settle(self)
        requires steady { AreSteady (opened_stand self).players (opened_stand self).seen }
        ensures { IsWholeAt (opened_stand self) }
    {
        let Opened { reader, clients } = self;
        drop(reader);
        clients.settle();
    }
}

/// Answers the line of this number, which began the first phase.
fn answer_first<W: Write>(number: u64, out: &mut W, text: &mut Vec<u8>) -> Result<(), ServeEnd>
    ensures line { OnOk result (IsLine (ok_text number)) }
    ensures whole { OnOk result (Appends (W.contents out.old) (W.contents out.new) (ok_text number)) }
    ensures cut { OnErr result (WritesSome (ok_text number) (W.contents out.old) (W.contents out.new)) }
{
    text.clear();
    print_ok(text, number)?;
    write_answer(out, text)
}

/// Opens the group of the rules that `B` names, which the line of this number asks for, and answers that line and those
/// after it to the end of the input.
pub(crate) fn serve_phases<
    R: AllocGlobal + Wait,
    I: BufRead,
    W: Write,
    B: NamesRules + Sync + Drop,
>(rt: &R, heads: Heads, number: u64, input: &mut I, out: &mut W) -> Result<(), ServeEnd>
    requires rules { rules_in (heads_stand heads) ≡ B.rules }
    requires phase { 0 < length (heads_stand heads).said.phases }
    requires number { number < 2 ^ 64 - 1 }
    ensures served { (old : ServedPlace) → BeginsAt old
        (served_at (heads_stand heads) number (I.remaining input.old) (W.contents out.old))
        → OnOk result (IsServed old (W.contents out.new)) }
    ensures ended { (old : ServedPlace) → BeginsAt old
        (served_at (heads_stand heads) number (I.remaining input.old) (W.contents out.old))
        → OnErr result (HasEnded old (W.contents out.new)) }
{
    let mut buffers = Buffers::new(rt.alloc());
    let mut opened = Opened::<B>::open(rt.alloc(), heads)?;
    let result = opened.serve_first(rt, number, input, out, &mut buffers);
    opened.settle();
    result
}
