//! A phase: each client with lines makes its calls on a thread of its own.
ghost use Rattle.std.specs.Prelude.{◌≡◌, ◌<◌, IfOk, OnOk, length, map};
ghost use Rattle.std.specs.List.{All};
ghost use Rattle.script_parser.specs.Scripts.{line_said, lines_at, phase_said};
ghost use Rattle.rebase.specs.Clients.{Grouped};
ghost use Rattle.script_runner.specs.Phases.{AreTold, IsPhase, all_sights};
ghost use Rattle.script_runner.specs.Sights.{CanLearnAll};
ghost use Rattle.script_runner.specs.Inside.Players.{player_of, players_of};
ghost use Rattle.script_runner.specs.Inside.Turns.{AreOf, AreOfOneGroup, IsClientTurn, IsLineTold, IsPrinted};
ghost use Rattle.script_runner.specs.Inside.Turns.{StayInGroup, turn_texts};

use crate::client::ScriptClient;
use crate::words::print_line;
use client_desk::Whole;
use group_history::Mutators;
use head_word::Mark;
use script_parser::{Line, Phase};
use std::alloc::{AllocError, Global};
use std::sync::Wait;
use std::thread::{self, Threads};

/// Asked before and after each call of a client, from the client's own thread, with the client's name and the line's
/// number. A gate may hold a call, so a test can order the calls of clients.
pub trait Gate: Sync {
    /// The client's call of this line has not begun.
    fn before(&self, client: &str, line: u64);

    /// The client's call of this line has returned.
    fn after(&self, client: &str, line: u64);
}

/// What a run has of its caller: a handle on threads and waiting, where memory is taken from, and the gate.
#[derive(Drop)]
pub(crate) struct Host<'h, R, G> {
    pub(crate) rt: &'h R,
    pub(crate) alloc: Global,
    pub(crate) gate: &'h G,
}

impl<M: Mutators + Drop> ScriptClient<M> {
    /// Does the command of a line, between the questions to the gate, and appends what is printed of it.
    fn tell<R: Wait, G: Gate>(
        &mut self,
        host: &Host<'_, R, G>,
        sights: &[Option<Mark<Whole<M>>>],
        line: &Line,
        printed: &mut Vec<u8>,
    ) -> Result<(), AllocError>
        requires learn { CanLearnAll self.old.place.group sights.now }
        ensures told { OnOk result (IsLineTold M.means sights.now (player_of self.old) (line_said line.now)
            printed.old.items printed.new.items (player_of self.new)) }
        ensures group { self.new.place.group ≡ self.old.place.group }
    {
        host.gate.before(self.name.as_str(), line.number);
        let mut bytes = Vec::new(host.alloc);
        let outcome = self.call(host.rt, sights, &line.command, &mut bytes);
        host.gate.after(self.name.as_str(), line.number);
        print_line(printed, line, self.name.as_str(), outcome, &bytes)
    }

    /// Does the commands of the lines, in order, and answers what is printed of them.
    fn tell_all<R: Wait, G: Gate>(
        &mut self,
        host: &Host<'_, R, G>,
        sights: &[Option<Mark<Whole<M>>>],
        lines: &[Line],
    ) -> Result<Vec<u8>, AllocError>
        requires { CanLearnAll self.old.place.group sights.now }
        ensures told { IfOk result (λ text. AreTold M.means sights.now (player_of self.old)
            (map line_said lines.now) text.items (player_of self.new)) }
        ensures group { self.new.place.group ≡ self.old.place.group }
    {
        let mut printed = Vec::new(host.alloc);
        for line in lines {
            self.tell(host, sights, line, &mut printed)?;
        }
        Ok(printed)
    }
}

/// A client, and what is printed of its part of a phase.
#[derive(Drop)]
pub(crate) struct ClientTurn<M: Mutators + Drop> {
    pub(crate) client: ScriptClient<M>,
    pub(crate) printed: Result<Vec<u8>, AllocError>,
}

impl<M: Mutators + Drop> ClientTurn<M> {
    fn play<R: Wait, G: Gate>(
        &mut self,
        host: &Host<'_, R, G>,
        sights: &[Option<Mark<Whole<M>>>],
        lines: &[Line],
    )
        requires { CanLearnAll self.old.client.place.group sights.now }
        ensures { IsClientTurn M.means sights.now (map line_said lines.now) self.old.client self.new }
    {
        self.printed = self.client.tell_all(host, sights, lines);
    }
}

/// What each client has seen, which all others of its group can learn.
pub(crate) fn sights_of<M: Mutators + Drop>(
    alloc: Global,
    turns: &[ClientTurn<M>],
) -> Result<Vec<Option<Mark<Whole<M>>>>, AllocError>
    ensures seen { IfOk result (λ sights. sights.items ≡ all_sights (players_of turns.now)) }
    ensures there { IfOk result (λ sights. (group : Grouped) → AreOf group turns.now → CanLearnAll group sights.items) }
{
    let mut sights = Vec::with_capacity(alloc, turns.len())?;
    for turn in turns {
        sights.push(turn.client.place.sight())?;
    }
    Ok(sights)
}

/// How many threads serve so many clients: one each where two have lines, and else the one that is there.
fn threads_for(clients: usize, busy: usize) -> usize
    ensures { 0 < clients → 0 < result }
{
    if busy < 2 { 1 } else { clients }
}

/// Does the lines of a phase: those of each place by the client of that place, on a thread of its own.
pub(crate) fn run_phase<R: Threads + Wait + Sync, G: Gate, M: Mutators + Send + Drop>(
    host: &Host<'_, R, G>,
    turns: &mut [ClientTurn<M>],
    phase: &Phase,
) -> Result<(), AllocError>
    requires lines { length turns.old ≡ phase.now.clients }
    requires one { AreOfOneGroup turns.old }
    ensures phase { OnOk result (All IsPrinted turns.new
        → IsPhase M.means (phase_said phase.now) (players_of turns.old) (turn_texts turns.new) (players_of turns.new)) }
    ensures group { StayInGroup turns.old turns.new }
    ensures count { length turns.new ≡ length turns.old }
{
    if turns.is_empty() {
        return Ok(());
    }
    let sights = sights_of(host.alloc, turns)?;
    let count = threads_for(turns.len(), phase.busy());
    thread::for_each_mut(
        host.rt,
        turns,
        count,
        &|i, turn| -> ()
            requires one { CanLearnAll turn.now.client.place.group sights.items }
            ensures { IsClientTurn M.means sights.items (lines_at phase.entry.now.parts.items i)
                turn.entry.now.client turn.exit.now }
        { turn.play(host, &sights, phase.lines_of(i)) },
    );
    Ok(())
}
