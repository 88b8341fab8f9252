//! Changes of a place. One asks its host for each run of a mutator that the group hasn't, and has its client meanwhile.
ghost use Rattle.std.specs.Prelude.{◌≡◌, ◌⊎◌, [], is_some};
ghost use Rattle.std.specs.FinMap as finite;
ghost use Rattle.group_history.specs.Scans.{rows_of};
ghost use Rattle.client_desk.specs.declared.faults.CallFault.TheVariants as fault;
ghost use Rattle.client_desk.specs.Answers.{At, ByClient, AnswersLack};
ghost use Rattle.client_desk.specs.Calls.{MayAnswer, MayLackAsked};
ghost use Rattle.client_desk.specs.Drafts.{AnswersAsked, AnswersDraft, AsksToEnd, AsksToMutate};
ghost use Rattle.client_desk.specs.Drafts.{ByRun, GivesUpRun, GoesOnRun};
ghost use Rattle.client_desk.specs.Drafts.{HasRunAsMeant, LeavesAsked, ReadsDraft, TellsThis, WritesAll, WritesDraft};
ghost use Rattle.client_desk.specs.Drafts.{WritesMap};
ghost use Rattle.client_desk.specs.Inside.Sitting.{IsStepAt, IsTakenFrom, Stands};
ghost use Rattle.client_desk.specs.Kept.{kept_at};
ghost use Rattle.client_desk.specs.Runs.{IsRunTold};
ghost use Rattle.client_desk.specs.Told.{bytes_told, is_told, named_told, rows_told, run_told, told, told_alone};
ghost use Rattle.client_desk.specs.Told.{value_told};

use crate::calls::DeskCall;
use crate::drafts::{
    del_drafted, put_drafted, replied_outcome, tell_args, tell_drafted, tell_drafted_rows,
    tell_is_drafted, tell_name, tell_run, write_drafted,
};
use crate::faults::CallFault;
use crate::kept::kept_at;
use crate::mutators::HostRuns;
use crate::outcomes::Outcome;
use crate::place::{Place, TRIES};
use crate::sitting::Sitting;
use group_history::{Json, Ran, Scan};
use pull_patch::Write;
use rebase::{Arena, Asked as Step, Mutate};

impl<M: HostRuns> Place<M> {
    // How a change that was begun goes on: a run is asked for, or the call ended.
    fn go_on(&mut self, step: Step<M, Arena<M>>) -> Outcome
        requires taken { IsTakenFrom self.old }
        requires step { IsStepAt M.had M.means self.old.group step }
        ensures { Stands step self.old (told_alone result) self.new }
    {
        match step {
            Step::Run(asking) => {
                self.put(Sitting::Asking(asking));
                return Outcome::Asked;
            }
            Step::Ended(client, reply) => {
                self.put(Sitting::Client(client));
                return replied_outcome(reply);
            }
        }
    }

    fn end(&mut self, number: usize, body: &[u8]) -> Outcome
        ensures { ByClient (λ c b. At (kept_at b.tickets number) fault.NoTicket
            (λ kept. AsksToEnd M.had M.means c kept body.now) b) self.old (told_alone result) self.new }
    {
        let client = match self.take() {
            Sitting::Client(client) => client,
            other => {
                let absent = other.absent();
                self.put(other);
                return Outcome::Faulty(absent);
            }
        };
        let Some(ticket) = kept_at(&self.tickets, number) else {
            self.put(Sitting::Client(client));
            return Outcome::Faulty(CallFault::NoTicket);
        };
        let step = client.ask_end_pull(ticket, body, TRIES);
        self.go_on(step)
    }

    fn mutate(&mut self, asked: Mutate<'_>) -> Outcome
        ensures { ByClient (λ c. AsksToMutate M.had M.means c asked.entry.name.now asked.entry.args.now
            asked.entry.time) self.old (told_alone result) self.new }
    {
        match self.take() {
            Sitting::Client(client) => {
                let step = client.ask_mutate(asked.name, asked.args, asked.time, TRIES);
                return self.go_on(step);
            }
            other => {
                let absent = other.absent();
                self.put(other);
                return Outcome::Faulty(absent);
            }
        }
    }

    // The name of the mutator that is to be run, and for which reason.
    fn asked_name(&mut self, bytes: &mut Vec<u8>) -> Outcome
        requires { bytes.old.items ≡ [] }
        ensures { AnswersLack self.old (told result bytes.new.items) self.new
            ⊎ ByRun (λ a. TellsThis (named_told a.mutation)) self.old (told result bytes.new.items) self.new }
    {
        let Sitting::Asking(asking) = &self.sitting else {
            return Outcome::Faulty(CallFault::NotAsked);
        };
        tell_name(asking, bytes)
    }

    fn asked_args(&mut self, bytes: &mut Vec<u8>) -> Outcome
        requires { bytes.old.items ≡ [] }
        ensures { AnswersLack self.old (told result bytes.new.items) self.new
            ⊎ ByRun (λ a. TellsThis (bytes_told a.mutation.args)) self.old (told result bytes.new.items) self.new }
    {
        let Sitting::Asking(asking) = &self.sitting else {
            return Outcome::Faulty(CallFault::NotAsked);
        };
        tell_args(asking, bytes)
    }

    // All of the run in one.
    fn asked_run(&mut self, bytes: &mut Vec<u8>) -> Outcome
        requires { bytes.old.items ≡ [] }
        ensures { AnswersLack self.old (told result bytes.new.items) self.new
            ⊎ ByRun (λ a. TellsThis (run_told a.mutation)) self.old (told result bytes.new.items) self.new }
    {
        let Sitting::Asking(asking) = &self.sitting else {
            return Outcome::Faulty(CallFault::NotAsked);
        };
        tell_run(self.alloc, asking, bytes)
    }

    fn draft_get(&mut self, key: &str, bytes: &mut Vec<u8>) -> Outcome
        requires { bytes.old.items ≡ [] }
        ensures { ByRun (ReadsDraft value_told (λ m. finite.get m key.now)) self.old (told result bytes.new.items)
            self.new }
    {
        let Sitting::Asking(asking) = &self.sitting else {
            return Outcome::Faulty(CallFault::NotAsked);
        };
        tell_drafted(asking, key, bytes)
    }

    fn draft_has(&mut self, key: &str) -> Outcome
        ensures { ByRun (ReadsDraft is_told (λ m. finite.contains_key m key.now)) self.old (told_alone result)
            self.new }
    {
        let Sitting::Asking(asking) = &self.sitting else {
            return Outcome::Faulty(CallFault::NotAsked);
        };
        tell_is_drafted(asking, key)
    }

    fn draft_scan(&mut self, scan: &Scan, bytes: &mut Vec<u8>) -> Outcome
        requires { bytes.old.items ≡ [] }
        ensures { ByRun (ReadsDraft rows_told (rows_of scan.now)) self.old (told result bytes.new.items) self.new }
    {
        let Sitting::Asking(asking) = &self.sitting else {
            return Outcome::Faulty(CallFault::NotAsked);
        };
        tell_drafted_rows(asking, scan, bytes)
    }

    fn draft_put(&mut self, key: &str, value: &Json) -> Outcome
        ensures { ByRun (WritesDraft (WritesMap (λ m. finite.insert m key.now value.now))) self.old
            (told_alone result) self.new }
    {
        let Sitting::Asking(asking) = &mut self.sitting else {
            return Outcome::Faulty(CallFault::NotAsked);
        };
        put_drafted(asking, key, value)
    }

    fn draft_del(&mut self, key: &str) -> Outcome
        ensures { ByRun (WritesDraft (WritesMap (λ m. finite.remove m key.now))) self.old (told_alone result)
            self.new }
    {
        let Sitting::Asking(asking) = &mut self.sitting else {
            return Outcome::Faulty(CallFault::NotAsked);
        };
        del_drafted(asking, key)
    }

    fn draft_writes(&mut self, writes: &[Write]) -> Outcome
        ensures { ByRun (WritesDraft (WritesAll writes.now)) self.old (told_alone result) self.new }
    {
        let Sitting::Asking(asking) = &mut self.sitting else {
            return Outcome::Faulty(CallFault::NotAsked);
        };
        write_drafted(asking, writes)
    }

    // The run that is asked for ended so.
    fn ran(&mut self, ran: Ran) -> Outcome
        requires { IsRunTold M.had M.means self.old.asking ran }
        ensures { ByRun (GoesOnRun M.had M.means ran) self.old (told_alone result) self.new }
    {
        match self.take() {
            Sitting::Asking(asking) => {
                let step = asking.ran(ran);
                return self.go_on(step);
            }
            other => {
                self.put(other);
                return Outcome::Faulty(CallFault::NotAsked);
            }
        }
    }

    // The change is given up: nothing was changed, and its client sits there.
    fn give_up(&mut self) -> Outcome
        ensures { ByRun (GivesUpRun M.means) self.old (told_alone result) self.new }
    {
        match self.take() {
            Sitting::Asking(asking) => {
                self.put(Sitting::Client(asking.give_up()));
                return Outcome::Done;
            }
            other => {
                self.put(other);
                return Outcome::Faulty(CallFault::NotAsked);
            }
        }
    }

    // The change is given up, and its client leaves.
    fn leave_asked(&mut self) -> Outcome
        ensures { ByRun (LeavesAsked M.means) self.old (told_alone result) self.new }
    {
        match self.take() {
            Sitting::Asking(asking) => {
                self.free(asking.give_up());
                return Outcome::Done;
            }
            other => {
                self.put(other);
                return Outcome::Faulty(CallFault::NotAsked);
            }
        }
    }

    // Makes a call on the run that is asked for.
    fn call_draft(&mut self, call: DeskCall<'_>, bytes: &mut Vec<u8>) -> Outcome
        requires { bytes.old.items ≡ [] }
        ensures { (MayLackAsked call.entry × AnswersLack self.old (told result bytes.new.items) self.new)
            ⊎ AnswersDraft call.entry self.old (told result bytes.new.items) self.new }
    {
        match call {
            DeskCall::AskedName => self.asked_name(bytes),
            DeskCall::AskedArgs => self.asked_args(bytes),
            DeskCall::AskedRun => self.asked_run(bytes),
            DeskCall::DraftGet(key) => self.draft_get(key, bytes),
            DeskCall::DraftHas(key) => self.draft_has(key),
            DeskCall::DraftScan(range) => self.draft_scan(range, bytes),
            DeskCall::DraftPut(key, value) => self.draft_put(key, value),
            DeskCall::DraftDel(key) => self.draft_del(key),
            DeskCall::DraftWrites(writes) => self.draft_writes(writes),
            _ => Outcome::Faulty(CallFault::Asks),
        }
    }

    // Makes a call where a change asks for a run.
    fn call_asked(&mut self, call: DeskCall<'_>, bytes: &mut Vec<u8>) -> Outcome
        requires run { HasRunAsMeant M.had M.means self.old call }
        requires empty { bytes.old.items ≡ [] }
        ensures { (MayLackAsked call.entry × AnswersLack self.old (told result bytes.new.items) self.new)
            ⊎ AnswersAsked M.had M.means call.entry self.old (told result bytes.new.items) self.new }
    {
        match call {
            DeskCall::Leave => self.leave_asked(),
            DeskCall::Ran(ran) => self.ran(ran),
            DeskCall::GiveUp => self.give_up(),
            other => self.call_draft(other, bytes),
        }
    }

    // Whether a change asks for a run.
    fn is_asking(&self) -> bool
        ensures { result ≡ is_some self.now.asking }
    {
        match &self.sitting {
            Sitting::Asking(_) => true,
            _ => false,
        }
    }

    /// Makes a call. What it tells as bytes is written, none where it was refused. Where it tells that a run has ended,
    /// the run is one of what the group's mutators mean.
    pub fn call(&mut self, call: DeskCall<'_>, bytes: &mut Vec<u8>) -> Outcome
        requires run { HasRunAsMeant M.had M.means self.old call }
        requires empty { bytes.old.items ≡ [] }
        ensures { MayAnswer M.had M.means call.entry self.old (told result bytes.new.items) self.new }
    {
        if self.is_asking() {
            return self.call_asked(call, bytes);
        }
        match call {
            DeskCall::Mutate(asked) => self.mutate(asked),
            DeskCall::End(number, body) => self.end(number, body),
            other => self.call_calm(other, bytes),
        }
    }
}
