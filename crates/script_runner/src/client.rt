//! A client of a script: its name, and the place at which it sits.
ghost use Rattle.std.specs.Prelude.{◌≡◌, []};
ghost use Rattle.client_desk.specs.Told.{told, told_alone};
ghost use Rattle.script_runner.specs.Commanding.{AsksDesk, AsksMutation, AsksQuery, MakesCall, MayLearn, MayTell};
ghost use Rattle.script_runner.specs.Sights.{CanLearnAll};
ghost use Rattle.script_runner.specs.Inside.Players.{IsSamePlayer, player_of};

use client_desk::{CallFault, DeskCall, Keep, Mutate, Outcome, Place, Whole};
use group_history::{Mutators, Text};
use head_word::Mark;
use script_parser::{Command, MutatorCall, Query};
use std::sync::Wait;

/// A client of a script.
pub(crate) struct ScriptClient<M: Mutators + Drop> {
    pub(crate) name: Text,
    pub(crate) place: Place<Whole<M>>,
}

impl<M: Mutators + Drop> Drop for ScriptClient<M> {
    fn drop(self) {
        let ScriptClient { name, place } = self;
        drop(name);
        drop(place.close());
    }
}

impl<M: Mutators + Drop> ScriptClient<M> {
    /// Does a command. What it tells as bytes is written. A refusal is told like any other reply. `sights` are what
    /// each client had seen when the phase began.
    pub(crate) fn call<R: Wait>(
        &mut self,
        rt: &R,
        sights: &[Option<Mark<Whole<M>>>],
        command: &Command,
        bytes: &mut Vec<u8>,
    ) -> Outcome
        requires learn { CanLearnAll self.old.place.group sights.now }
        requires empty { bytes.old.items ≡ [] }
        ensures told { MayTell M.means sights.now command.now self.old.place (told result bytes.new.items)
            self.new.place }
        ensures same { IsSamePlayer self.old self.new }
    {
        match command {
            Command::Query(query) => self.make(rt, command, call_of(query), bytes),
            Command::Begin(number) => {
                self.make(rt, command, DeskCall::Begin(Keep::At(*number)), bytes)
            }
            Command::End(number, body) => {
                let call = DeskCall::End(*number, body.as_str().as_bytes());
                self.make(rt, command, call, bytes)
            }
            Command::Mutate(asked) => self.make(
                rt,
                command,
                DeskCall::Mutate(mutate_of(asked)),
                bytes,
            ),
            Command::Refresh => self.make(rt, command, DeskCall::Refresh, bytes),
            Command::Moment => self.make(rt, command, DeskCall::Moment, bytes),
            Command::Slots => self.make(rt, command, DeskCall::Slots, bytes),
            Command::BeginRead => self.make(rt, command, DeskCall::BeginRead, bytes),
            Command::EndRead => self.make(rt, command, DeskCall::EndRead, bytes),
            Command::Learn(place) => self.learn(sights, *place),
            Command::Watch(number, scan) => {
                self.make(rt, command, DeskCall::Watch(Keep::At(*number), scan), bytes)
            }
            Command::Poll(number) => self.make(rt, command, DeskCall::Poll(*number), bytes),
            Command::Changes(number) => self.make(
                rt,
                command,
                DeskCall::PollChanges(*number),
                bytes,
            ),
            Command::Unwatch(number) => self.make(rt, command, DeskCall::Unwatch(*number), bytes),
        }
    }

    // Makes the call that a command is.
    fn make<R: Wait>(
        &mut self,
        rt: &R,
        command: &Command,
        call: DeskCall<'_>,
        bytes: &mut Vec<u8>,
    ) -> Outcome
        requires asked { AsksDesk command.now call }
        requires empty { bytes.old.items ≡ [] }
        ensures told { MakesCall M.means command.now self.old.place (told result bytes.new.items) self.new.place }
        ensures same { IsSamePlayer self.old self.new }
    {
        let _ = command;
        self.place.call_waiting(rt, call, bytes)
    }

    // Learns what the client at a place had seen. Where a reading is open nothing is learnt, and that is told.
    fn learn(&mut self, sights: &[Option<Mark<Whole<M>>>], place: usize) -> Outcome
        requires { CanLearnAll self.old.place.group sights.now }
        ensures told { MayLearn sights.now place self.old.place (told_alone result) self.new.place }
        ensures same { IsSamePlayer self.old self.new }
    {
        let reads = self.place.reads();
        if let Some(Some(seen)) = sights.get(place) {
            self.place.learn(seen);
        }
        if reads {
            Outcome::Faulty(CallFault::Reads)
        } else {
            Outcome::Done
        }
    }
}

fn mutate_of(call: &MutatorCall) -> Mutate<'_>
    ensures { AsksMutation call.now result }
{
    Mutate {
        name: &call.mutator,
        args: &call.args,
        time: call.time,
    }
}

/// The call that a query is.
fn call_of(query: &Query) -> DeskCall<'_>
    ensures { AsksQuery query.now result }
{
    match query {
        Query::Get(key) => DeskCall::Get(key.as_str()),
        Query::Has(key) => DeskCall::Has(key.as_str()),
        Query::Scan(scan) => DeskCall::Scan(scan),
        Query::Empty => DeskCall::Empty,
        Query::Closed => DeskCall::Closed,
        Query::Pending => DeskCall::Pending,
        Query::Cookie => DeskCall::Cookie,
        Query::Push(skip) => DeskCall::Push(*skip),
        Query::PulledGet(key) => DeskCall::PulledGet(key.as_str()),
        Query::PulledScan(scan) => DeskCall::PulledScan(scan),
    }
}
