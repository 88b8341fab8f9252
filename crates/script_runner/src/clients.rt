//! The clients of a script whose lines are done one by one.
//!
//! `Clients` is a group of its own, its clients, what each of them had seen when the phase began, and what the lines so
//! far have seen. All are of that group, which the type's invariant says: so each can learn what any other had seen.
//!
//! The client of a line first learns what the lines before have seen. So its call begins where theirs ended, and as the
//! clients have all seats of the group, nobody changes it in between: `told` says that a line is answered on top of all
//! lines before it, `steady` and the clause of `settle` that this holds of each line once the last one is done. One
//! that has a reading open learns nothing: it reads what the line found that began it, and sees nothing that others
//! haven't.
ghost use Rattle.std.specs.Prelude.{◌≡◌, IfOk};
ghost use Rattle.std.specs.Arc.{arc_value};
ghost use Rattle.std.specs.Coded.{Coded-set, codes, Π_prop, →_prop};
ghost use Rattle.script_runner.specs.Phases.{all_sights};
ghost use Rattle.script_runner.specs.Commanding.{LearnsFirst};
ghost use Rattle.script_runner.specs.Sights.{CanLearnAll, IsSeenAt};
ghost use Rattle.script_runner.specs.Inside.Players.{IsSamePlayer};
ghost use Rattle.script_runner.specs.Inside.Turns.{AreOf};

use crate::client::ScriptClient;
use crate::phase::{ClientTurn, sights_of};
use crate::record::gather;
use crate::runner::{ScriptGroup, open_clients, open_group};
use crate::words::print_line;
use client_desk::{Outcome, Whole};
use group_history::Mutators;
use head_word::Mark;
use script_parser::{Command, Header, Line};
use std::alloc::{AllocError, Global};
use std::sync::{Arc, Wait};

/// The clients of a script, in a group of their own.
pub struct Clients<M: Mutators + Drop> {
    alloc: Global,
    group: Arc<ScriptGroup<M>, Global>,
    turns: Vec<ClientTurn<M>>,
    sights: Vec<Option<Mark<Whole<M>>>>,
    seen: Option<Mark<Whole<M>>>,
    ghost of_group: { AreOf (arc_value group) turns.items } by { Π_prop
        (λ k. Π_prop (λ d. →_prop (Prim.hlevel (codes, Coded-set)))) },
    ghost seen_there: { CanLearnAll (arc_value group) sights.items } by { Π_prop (λ k. Π_prop
        (λ d. →_prop (Π_prop (λ seen. →_prop (Prim.hlevel (codes, Coded-set)))))) },
    ghost seen_here: { IsSeenAt (arc_value group) seen } by { Π_prop
        (λ known. →_prop (Prim.hlevel (codes, Coded-set))) },
}

impl<M: Mutators + Drop> Drop for Clients<M> {
    fn drop(self) {
        let Clients {
            alloc: _,
            group,
            turns,
            sights,
            seen,
        } = self;
        drop(group);
        drop(turns);
        drop(sights);
        drop(seen);
    }
}

/// A client learns what was seen, where anything was. One that has a reading open doesn't.
fn catch_up<M: Mutators + Drop>(client: &mut ScriptClient<M>, seen: &Option<Mark<Whole<M>>>)
    requires { IsSeenAt client.old.place.group seen.now }
    ensures learnt { LearnsFirst seen.now client.old.place client.new.place }
    ensures same { IsSamePlayer client.old client.new }
{
    if let Some(seen) = seen {
        client.place.learn(seen);
    }
}

impl<M: Mutators + Drop> Clients<M> {
    ghost use Rattle.std.specs.Prelude.{◌<◌, ◌++◌, [], None, OnErr, OnOk, length, map};
    ghost use Rattle.client_desk.specs.Told.{told};
    ghost use Rattle.group_history.specs.Map.{Bytes};
    ghost use Rattle.script_parser.specs.Kept.{IsInRange};
    ghost use Rattle.script_parser.specs.Scripts.{client_said, line_said};
    ghost use Rattle.script_runner.specs.Answering.{IsToldAt, players_in, seen_in, sights_in};
    ghost use Rattle.script_runner.specs.Inside.Calls.{IsCalledAt};
    ghost use Rattle.script_runner.specs.Runs.{AreNewPlayers, header_identity};
    ghost use Rattle.script_runner.specs.Settling.{AreSteady, IsWhole, StaySteady};

    /// Opens a group for the lines before the first phase, and a client for each `client` line, in their order. The
    /// first phase begins. The mutators are those of the group. Whatever refuses the opening, it is told as refused
    /// memory.
    pub fn open(alloc: Global, header: &Header, mutators: M) -> Result<Clients<M>, AllocError>
        requires { IsInRange header.now }
        ensures new { IfOk result (λ clients. AreNewPlayers M.means (header_identity header.now)
            (map client_said header.now.clients.items) (players_in clients)) }
        ensures sights { IfOk result (λ clients. sights_in clients ≡ all_sights (players_in clients)) }
        ensures seen { IfOk result (λ clients. seen_in clients ≡ None) }
    {
        let Ok((group, seats)) = open_group(alloc, header, mutators) else {
            return Err(AllocError);
        };
        let turns = open_clients(alloc, &header.clients, &group, seats)?;
        let sights = sights_of(alloc, &turns)?;
        Ok(Clients {
            alloc,
            group,
            turns,
            sights,
            seen: None,
        })
    }

    /// Begins a phase: what the clients have seen until now is what others can learn in it. Where memory is refused,
    /// they can learn what they could before.
    pub fn begin_phase(&mut self) -> Result<(), AllocError>
        ensures same { players_in self.new ≡ players_in self.old }
        ensures still { seen_in self.new ≡ seen_in self.old }
        ensures seen { OnOk result (sights_in self.new ≡ all_sights (players_in self.new)) }
        ensures left { OnErr result (sights_in self.new ≡ sights_in self.old) }
    {
        self.sights = sights_of(self.alloc, &self.turns)?;
        Ok(())
    }

    /// The client at a place learns what the lines so far have seen, and does a command. What it has seen then is what
    /// the lines have, unless it had a reading open, which may be of a time before.
    fn call<R: Wait>(
        &mut self,
        rt: &R,
        place: usize,
        command: &Command,
        bytes: &mut Vec<u8>,
    ) -> Outcome
        requires place { place < length (players_in self.old) }
        requires empty { bytes.old.items ≡ [] }
        ensures called { IsCalledAt M.means (sights_in self.old) (seen_in self.old) place command.now
            (players_in self.old) (told result bytes.new.items) (players_in self.new) (seen_in self.new) }
        ensures sights { sights_in self.new ≡ sights_in self.old }
        ensures count { length (players_in self.new) ≡ length (players_in self.old) }
    {
        let client = &mut self.turns[place].client;
        catch_up(client, &self.seen);
        let is_reading = client.place.reads();
        let outcome = client.call(rt, &self.sights, command, bytes);
        if !is_reading {
            self.seen = client.place.sight();
        }
        outcome
    }

    /// Does the command of a line by the client at a place among the `client` lines, and appends its line of output. A
    /// refusal of the call is a reply like any other. A change may wait for others. Where memory is refused for the
    /// line of output, the call was made.
    pub fn tell<R: Wait>(
        &mut self,
        rt: &R,
        place: usize,
        line: &Line,
        text: &mut Vec<u8>,
    ) -> Result<(), AllocError>
        requires { place < length (players_in self.old) }
        ensures told { OnOk result ((told : Bytes) × (text.new.items ≡ text.old.items ++ told)
            × IsToldAt M.means (sights_in self.old) (seen_in self.old) place (line_said line.now)
            (players_in self.old) told (players_in self.new) (seen_in self.new)) }
        ensures steady { StaySteady (players_in self.old) (seen_in self.old) (players_in self.new)
            (seen_in self.new) }
        ensures sights { sights_in self.new ≡ sights_in self.old }
        ensures count { length (players_in self.new) ≡ length (players_in self.old) }
    {
        let mut bytes = Vec::new(self.alloc);
        let outcome = self.call(rt, place, &line.command, &mut bytes);
        let name = self.turns[place].client.name.as_str();
        print_line(text, line, name, outcome, &bytes)
    }

    /// Ends the group, once the last line is done: open readings end, and all clients learn of each other. So it is
    /// known that none but they changed the group. Takes no memory.
    pub fn settle(self)
        requires { AreSteady (players_in self) (seen_in self) }
        ensures { IsWhole (players_in self) (seen_in self) }
    {
        let Clients {
            alloc,
            group,
            mut turns,
            sights,
            seen,
        } = self;
        gather(alloc, &mut turns);
        drop(group);
        drop(turns);
        drop(sights);
        drop(seen);
    }
}
