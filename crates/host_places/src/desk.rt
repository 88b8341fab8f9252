//! A place of a host, and the bytes that its last call told.
ghost use Rattle.std.specs.Prelude.{◌≡◌};
ghost use Rattle.client_desk.specs.Answers.{TellsOutcome};
ghost use Rattle.client_desk.specs.Calls.{MayAnswer};
ghost use Rattle.client_desk.specs.Closing.{Closes};
ghost use Rattle.client_desk.specs.Drafts.{HasRunAsMeant};
ghost use Rattle.client_desk.specs.Told.{told};
ghost use Rattle.host_places.specs.Asking.{ran_said};
ghost use Rattle.host_places.specs.Numbers.{HasKey, HasScan, IsRunSaid, MayAnswerNumbers, number_beside};

use crate::numbered::{Numbered, is_query, key_call, scan_call};
use crate::texts::{named_of, put_of, ran_of, scan_of, str_of, uuid_of, writes_of};
use client_desk::{CallFault, DeskCall, HostRuns, Hosted, Keep, Mutate, Outcome, Place};
use rebase::{Arena, Seat};
use std::alloc::Global;
use std::marker::Model;

/// A place, and the bytes that its last call told, which lie there until the next one. It can't be dropped: it is
/// closed, by `close` or with others by `close_places`.
pub struct Desk<M: Hosted> {
    alloc: Global,
    place: Place<M>,
    bytes: Vec<u8>,
}

impl<M: Hosted> Model for Desk<M> {
    ghost use Rattle.std.specs.Coded.{codes};
    ghost use Rattle.std.specs.Vec.{vec_ptr};
    ghost use Rattle.group_history.specs.contracts.changes.Change as the_change;
    ghost use Rattle.group_history.specs.contracts.mutations.Mutation as the_mutation;
    ghost use Rattle.head_word.specs.contracts.entry.Entry as entry;
    ghost use Rattle.group_history.specs.State.{entries_coded};
    ghost use Rattle.host_places.specs.Desks.{DeskState};

    ghost Value = { DeskState };

    ghost coded = { Prim.hlevel
        (codes, entry.the_row.coded, the_change.the_row.coded, the_mutation.the_row.coded, entries_coded) };

    ghost view = { λ d. record { place = d.place; bytes = d.bytes.items; start = vec_ptr d.bytes } };
}

impl<M: Hosted> Desk<M> {
    pub(crate) fn new(alloc: Global, place: Place<M>) -> Desk<M>
        ensures { result.place ≡ place }
    {
        Desk {
            alloc,
            place,
            bytes: Vec::new(alloc),
        }
    }

    /// Closes the place, and answers its seat: who sits there leaves. A change that asks for a run is given up.
    pub fn close(self) -> Option<Seat<M, Arena<M>>>
        ensures { Closes M.means self.place result }
    {
        let Desk {
            alloc: _,
            place,
            bytes: _,
        } = self;
        place.close()
    }

    /// The bytes that the last call told.
    pub fn bytes(&self) -> &[u8]
        ensures { result.now ≡ self.now.bytes }
    {
        &self.bytes
    }

    /// Where they lie. The address alone is told: nothing is read there.
    pub fn start(&self) -> *const u8
        ensures { result ≡ self.now.start }
    {
        self.bytes.as_ptr()
    }

    /// The number beside what the last call came to, which was that of the number `what`: of a query the moment at
    /// which it was answered, as the call of number 28 tells moments; else the one that it tells, or 0.
    pub fn number_beside(&self, what: u32, outcome: Outcome) -> u64
        ensures { result ≡ number_beside what outcome self.now.place.moment }
    {
        if !is_query(what) {
            return outcome.value();
        }
        match outcome {
            Outcome::Refused(_) | Outcome::Faulty(_) => 0,
            _ => self.place.moment_of_query(),
        }
    }

    // Nothing is done: what the call was given says nothing, or memory was refused for it.
    fn refuse(&mut self, outcome: Outcome) -> Outcome
        ensures { TellsOutcome outcome self.old.place (told result self.new.bytes) self.new.place }
    {
        self.bytes.clear();
        outcome
    }
}

impl<M: HostRuns> Desk<M> {
    fn call(&mut self, call: DeskCall<'_>) -> Outcome
        requires { HasRunAsMeant M.had M.means self.old.place call }
        ensures { MayAnswer M.had M.means call.entry self.old.place (told result self.new.bytes) self.new.place }
    {
        self.bytes.clear();
        self.place.call(call, &mut self.bytes)
    }

    fn sit(&mut self, asked: Numbered<'_>) -> Outcome
        requires { asked.what ≡ 0 }
        ensures { MayAnswerNumbers M.had M.means asked.entry self.old.place (told result self.new.bytes)
            self.new.place }
    {
        match uuid_of(asked.a) {
            Ok(id) => self.call(DeskCall::Sit(&id)),
            Err(outcome) => self.refuse(outcome),
        }
    }

    fn call_key(&mut self, asked: Numbered<'_>) -> Outcome
        requires { HasKey asked.what }
        ensures { MayAnswerNumbers M.had M.means asked.entry self.old.place (told result self.new.bytes)
            self.new.place }
    {
        match str_of(asked.a) {
            Ok(key) => self.call(key_call(asked.what, key)),
            Err(outcome) => self.refuse(outcome),
        }
    }

    fn call_scan(&mut self, asked: Numbered<'_>) -> Outcome
        requires { HasScan asked.what }
        ensures { MayAnswerNumbers M.had M.means asked.entry self.old.place (told result self.new.bytes)
            self.new.place }
    {
        match scan_of(self.alloc, asked.a, asked.m, asked.b, asked.n) {
            Ok(scan) => self.call(scan_call(asked.what, &scan)),
            Err(outcome) => self.refuse(outcome),
        }
    }

    fn mutate(&mut self, asked: Numbered<'_>) -> Outcome
        requires { asked.what ≡ 13 }
        ensures { MayAnswerNumbers M.had M.means asked.entry self.old.place (told result self.new.bytes)
            self.new.place }
    {
        match named_of(self.alloc, asked.a, asked.b) {
            Ok((name, args)) => self.call(DeskCall::Mutate(Mutate {
                name: &name,
                args: &args,
                time: asked.n,
            })),
            Err(outcome) => self.refuse(outcome),
        }
    }

    fn put(&mut self, asked: Numbered<'_>) -> Outcome
        requires { asked.what ≡ 21 }
        ensures { MayAnswerNumbers M.had M.means asked.entry self.old.place (told result self.new.bytes)
            self.new.place }
    {
        match put_of(self.alloc, asked.a, asked.b) {
            Ok((key, value)) => self.call(DeskCall::DraftPut(key, &value)),
            Err(outcome) => self.refuse(outcome),
        }
    }

    fn write(&mut self, asked: Numbered<'_>) -> Outcome
        requires { asked.what ≡ 34 }
        ensures { MayAnswerNumbers M.had M.means asked.entry self.old.place (told result self.new.bytes)
            self.new.place }
    {
        match writes_of(self.alloc, asked.a) {
            Ok(writes) => self.call(DeskCall::DraftWrites(writes.as_slice())),
            Err(outcome) => self.refuse(outcome),
        }
    }

    fn ran(&mut self, asked: Numbered<'_>) -> Outcome
        requires what { asked.what ≡ 23 }
        requires run { IsRunSaid M.had M.means self.old.place.asking (ran_said asked.m asked.n) }
        ensures { MayAnswerNumbers M.had M.means asked.entry self.old.place (told result self.new.bytes)
            self.new.place }
    {
        match ran_of(asked.m, asked.n) {
            Ok(ran) => self.call(DeskCall::Ran(ran)),
            Err(outcome) => self.refuse(outcome),
        }
    }

    /// Makes the call of these numbers and bytes. A number above 34 is that of no call. Where it tells that a run has
    /// ended, the run is one of what the group's mutators mean.
    pub fn call_numbered(&mut self, asked: Numbered<'_>) -> Outcome
        requires { asked.what ≡ 23
            → IsRunSaid M.had M.means self.old.place.asking (ran_said asked.m asked.n) }
        ensures { MayAnswerNumbers M.had M.means asked.entry self.old.place (told result self.new.bytes)
            self.new.place }
    {
        match asked.what {
            0 => self.sit(asked),
            1 => self.call(DeskCall::Leave),
            2 => self.call_key(asked),
            3 => self.call_key(asked),
            4 => self.call_scan(asked),
            5 => self.call(DeskCall::Pending),
            6 => self.call(DeskCall::Cookie),
            7 => self.call(DeskCall::Closed),
            8 => self.call(DeskCall::Refresh),
            9 => self.call(DeskCall::Push(asked.m as usize)),
            10 => self.call(DeskCall::Begin(Keep::AtNext)),
            11 => self.call(DeskCall::Forget(asked.m as usize)),
            12 => self.call(DeskCall::End(asked.m as usize, asked.a)),
            13 => self.mutate(asked),
            14 => self.call_scan(asked),
            15 => self.call(DeskCall::Poll(asked.m as usize)),
            16 => self.call(DeskCall::AskedName),
            17 => self.call(DeskCall::AskedArgs),
            18 => self.call_key(asked),
            19 => self.call_key(asked),
            20 => self.call_scan(asked),
            21 => self.put(asked),
            22 => self.call_key(asked),
            23 => self.ran(asked),
            24 => self.call(DeskCall::GiveUp),
            25 => self.call(DeskCall::Slots),
            26 => self.call(DeskCall::BeginRead),
            27 => self.call(DeskCall::EndRead),
            28 => self.call(DeskCall::Moment),
            29 => self.call_key(asked),
            30 => self.call_scan(asked),
            31 => self.call(DeskCall::Unwatch(asked.m as usize)),
            32 => self.call(DeskCall::AskedRun),
            33 => self.call(DeskCall::PollChanges(asked.m as usize)),
            34 => self.write(asked),
            _ => self.refuse(Outcome::Faulty(CallFault::OutOfRange)),
        }
    }
}
