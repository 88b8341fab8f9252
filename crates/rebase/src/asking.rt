//! Changes whose mutators the caller runs.
//!
//! Such a change asks for each run. The caller reads and writes the map of the run, and says how it ended; then the
//! next run is asked for, or the call ends, answered as `try_mutate` and `try_end_pull` answer it. Meanwhile the change
//! has the client, whose pin is held: so long no slot that was live is given again. So it is no value that can just be
//! dropped; `give_up`, whose clause says that the pin is gone, ends it without a run. That the caller does on the map
//! what the group's mutator of that name means is the one premise, and stands on `ran`.
ghost use Rattle.std.specs.Prelude.{◌≡◌, Ok, Err, Some, None, IfOk, IfErr, OnOk, OnErr};
ghost use Rattle.std.specs.FinMap as finite;
ghost use Rattle.group_history.specs.Meaning.{meaning_of};
ghost use Rattle.group_history.specs.Ran.{RunsAs};
ghost use Rattle.group_history.specs.Scans.{rows_of};
ghost use Rattle.head_word.specs.Books.{drawn, last_move};
ghost use Rattle.commit_graph.specs.Seats.{IsSameSeat};
ghost use Rattle.linearized.specs.Answered.{own_moves};
ghost use Rattle.change_tries.specs.Tries.{IsFoundMade, IsProgress, TellsProgress};
ghost use Rattle.change_tries.specs.Leaving.{Frees};
ghost use Rattle.change_tries.specs.Missing.{IsStoreOrMemory, map_ok};
ghost use Rattle.change_tries.specs.Places.{place};
ghost use Rattle.change_tries.specs.Proposing.{AsksNext};
ghost use Rattle.rebase.specs.Clients.{AfterChange, ClientState, IsSameClient};
ghost use Rattle.rebase.specs.Inside.Made.{reply_made};
ghost use Rattle.rebase.specs.Inside.Shown.{IsRunShown};
ghost use Rattle.rebase.specs.Replies.{reply_seen};
ghost use Rattle.rebase.specs.Running.{BeganAs, EndsCall, Follows, IsAsked, IsUnwritten};
ghost use Rattle.rebase.specs.Running.{last_called};

use crate::calls::CallReply;
use crate::changes::ended_as;
use crate::client::Client;
use change_drafts::Runs;
use change_tries::{
    At, Attempt, ChangeCall, EndedAttempt, Progress, del, get, put, ran_from, scan,
};
use chunk_slots::{Arena, Slots, Store};
use commit_graph::LastId;
use group_history::{Change, Json, Means, Mutation, Ran, Ref, Refusal, Scan, Text};
use std::marker::Model;

/// A change that asks for a run of a mutator. It has its client until it ends, and the client's seat is pinned. It
/// can't be dropped: who has it says `ran` or `give_up`.
pub struct Asking<M: Means, S: Slots<M>> {
    client: Client<M, S>,
    change: Change,
    attempt: Attempt<M>,
    tries: u32,
}

impl<M: Means, S: Slots<M>> Model for Asking<M, S> {
    ghost use Rattle.std.specs.Prelude.{◌<◌, max, reverse};
    ghost use Rattle.std.specs.Coded.{codes};
    ghost use Rattle.group_history.specs.contracts.changes.Change as the_change;
    ghost use Rattle.group_history.specs.contracts.mutations.Mutation as the_mutation;
    ghost use Rattle.head_word.specs.contracts.entry.Entry as entry;
    ghost use Rattle.head_word.specs.Books.{drawn};
    ghost use Rattle.change_tries.specs.Proposing.{AsksNext};
    ghost use Rattle.group_history.specs.State.{entries_coded};
    ghost use Rattle.change_tries.specs.Runs.{run_map, run_start};
    ghost use Rattle.change_tries.specs.Tries.{IsAttempt};
    ghost use Rattle.rebase.specs.Running.{UnderWay};

    ghost Value = { UnderWay };

    ghost coded = { Prim.hlevel
        (codes, entry.the_row.coded, the_change.the_row.coded, the_mutation.the_row.coded, entries_coded) };

    ghost view = { λ a. record {
      client = a.client;
      change = a.change;
      mutation = a.attempt.run.mutation;
      start = run_start (drawn a.client.seat.mark.log) a.attempt.run;
      map = run_map (drawn a.client.seat.mark.log) a.attempt.run;
      behind = reverse a.attempt.run.behind.items;
      seen = a.attempt.arrival.seen.log;
      lost = a.attempt.lost;
      tries = a.tries;
    } };

    ghost invariant = { λ a. IsAttempt M.means S.reused a.client.group.group a.client.seat
        a.client.last a.change a.attempt
        × (a.attempt.lost < max 1 a.tries) × AsksNext a.client.id a.client.last a.change };
}

/// What a change asks for, or how its call ended. It can't be dropped either.
pub enum Asked<M: Means, S: Slots<M>> {
    /// A run.
    Run(Asking<M, S>),

    /// The end of the call, and the client again.
    Ended(Client<M, S>, Result<CallReply, Refusal>),
}

impl<M: Runs, S: Store<M>> Client<M, S> {
    ghost use Rattle.rebase.specs.Asked.{TellsAsked};

    // What is replied where the change came to this.
    fn end_change(
        &mut self,
        change: &Change,
        made: Result<Option<Ref>, Refusal>,
    ) -> Result<CallReply, Refusal>
        requires asks { AsksNext self.old.id self.old.last change.now }
        requires found { IsFoundMade (drawn self.old.seat.mark.log) change.now made }
        ensures reply { map_ok reply_seen result ≡ reply_made self.old.last change.now made }
        ensures last { self.new.last ≡ last_called self.old.last change.now (map_ok reply_seen result) }
        ensures seat { self.new.seat ≡ self.old.seat }
        ensures same { IsSameClient self.old self.new }
    {
        match change {
            Change::Mutated(_) => self.keep_next(made).map(CallReply::Id),
            Change::Pulled(_, _) => ended_as(made).map(CallReply::Ended),
            Change::Closed => match made {
                Ok(_) => Err(Refusal::StateNotFound),
                Err(e) => Err(e),
            },
        }
    }

    // The change asks for a run, or the call ends.
    pub(crate) fn go_on(self, change: Change, progress: Progress<M>, tries: u32) -> Asked<M, S>
        requires progress { IsProgress M.has M.means S.reused self.group.group self.seat tries
            self.last change progress }
        requires asks { AsksNext self.id self.last change }
        ensures told { (before : ClientState) → IsSameClient before self → self.last ≡ before.last
            → IsSameSeat before.seat self.seat
            → TellsProgress M.means S.reused tries before.seat self.seat before.last change progress
            → TellsAsked result (IsAsked M.means S.reused tries before change) (λ client reply.
            EndsCall M.means S.reused tries before client change (map_ok reply_seen reply)) }
        ensures shown { TellsAsked result (IsRunShown self change tries progress) (λ client reply. Unit {0}) }
        ensures fresh { TellsAsked result (IsUnwritten M.has) (λ client reply. Unit {0}) }
    {
        let mut client = self;
        let _ = &client.group;
        match progress {
            Progress::Run(attempt) => {
                client.pinned = true;
                return Asked::Run(Asking {
                    client,
                    change,
                    attempt,
                    tries,
                });
            }
            Progress::Ended(made) => {
                let reply = client.end_change(&change, made);
                drop(change);
                return Asked::Ended(client, reply);
            }
        }
    }
}

impl<M: Means, S: Store<M>> Asking<M, S> {
    /// The mutation whose mutator is to be run: by its name, on its arguments, for its reason.
    pub fn mutation(&self) -> &Mutation
        ensures { result.now ≡ self.now.mutation }
    {
        let run = self.attempt.run.as_run();
        &run.mutation
    }

    // Where the call stands.
    fn here(&self) -> At<'_, M, S>
        ensures { result ≡ place self.now.client.group.identity self.now.seen self.now.client.seat.mark
            (last_move self.now.seen) }
    {
        let client = &self.client;
        let arrival = &self.attempt.arrival;
        At::new(
            &client.group,
            &client.seat,
            &arrival.seen,
            arrival.base,
            self.tries,
        )
    }

    /// The value at a key of the run's map; none where the key is not there. Refused with `NoMemory`, `Gone`, and over
    /// slots that are used again `Busy`.
    pub fn get(&self, key: &str) -> Result<Option<Json>, Refusal>
        ensures value { IfOk result (λ found. found ≡ finite.get self.now.map key.now) }
        ensures err { IfErr result (IsStoreOrMemory S.reused) }
    {
        get(&self.here(), self.attempt.run.as_run(), key)
    }

    /// The pairs of the run's map that the scan asks for, in the order of their keys. Refused as `get` is.
    pub fn scan(&self, rows: &Scan) -> Result<Vec<(Text, Json)>, Refusal>
        ensures rows { IfOk result (λ found. found.items ≡ rows_of rows.now self.now.map) }
        ensures err { IfErr result (IsStoreOrMemory S.reused) }
    {
        scan(&self.here(), self.attempt.run.as_run(), rows)
    }

    /// Afterwards the key has the value in the run's map. A refused put leaves the map. Refused as `get` is.
    pub fn put(&mut self, key: &str, value: &Json) -> Result<(), Refusal>
        ensures ok { OnOk result (self.new
            ≡ record self.old { map = finite.insert self.old.map key.now value.now }) }
        ensures left { OnErr result (self.new ≡ self.old) }
        ensures err { IfErr result (IsStoreOrMemory S.reused) }
    {
        let client = &self.client;
        let arrival = &self.attempt.arrival;
        let at = At::new(
            &client.group,
            &client.seat,
            &arrival.seen,
            arrival.base,
            self.tries,
        );
        put(&at, &mut self.attempt.run, key, value)
    }

    /// Afterwards the key is not there in the run's map, whether or not it was. A refused one leaves the map. Refused
    /// as `get` is.
    pub fn del(&mut self, key: &str) -> Result<(), Refusal>
        ensures ok { OnOk result (self.new ≡ record self.old { map = finite.remove self.old.map key.now }) }
        ensures left { OnErr result (self.new ≡ self.old) }
        ensures err { IfErr result (IsStoreOrMemory S.reused) }
    {
        let client = &self.client;
        let arrival = &self.attempt.arrival;
        let at = At::new(
            &client.group,
            &client.seat,
            &arrival.seen,
            arrival.base,
            self.tries,
        );
        del(&at, &mut self.attempt.run, key)
    }

    /// Gives the change up: nothing was changed. Takes no memory.
    pub fn give_up(self) -> Client<M, S>
        ensures left { (before : ClientState) → BeganAs M.means S.reused before self
            → AfterChange S.reused before result × (result.last ≡ before.last)
            × (own_moves result.seat.mark ≡ own_moves before.seat.mark)
            × (S.reused → Frees (Some self.change) 0 before.seat result.seat None) }
    {
        let Asking {
            client,
            change,
            attempt,
            tries: _,
        } = self;
        drop(change);
        drop(attempt);
        let mut client = client;
        client.unpin();
        client
    }
}

impl<M: Runs, S: Store<M>> Asking<M, S> {
    ghost use Rattle.rebase.specs.Asked.{TellsAsked};

    /// Says how the run ended. What was done to its map is what the group's mutator of that name does there, on those
    /// arguments, for that reason; and where that refuses or there is none, the run ends as that says. Then the next
    /// run is asked for, or the call ends: as `try_mutate` and `try_end_pull` do. Where a new mutation's run isn't
    /// done, the call is refused with `NoMutator` or `Refused`; a pending mutation's leaves the map as it was before
    /// it.
    pub fn ran(self, ran: Ran) -> Asked<M, S>
        requires runs { RunsAs (meaning_of M.means self.mutation self.start) ran self.map }
        ensures told { (before : ClientState) → BeganAs M.means S.reused before self
            → TellsAsked result (IsAsked M.means S.reused self.tries before self.change) (λ client reply.
            EndsCall M.means S.reused self.tries before client self.change (map_ok reply_seen reply)) }
        ensures next { TellsAsked result (Follows M.has M.means self ran) (λ client reply. Unit {0}) }
        ensures fresh { TellsAsked result (IsUnwritten M.has) (λ client reply. Unit {0}) }
    {
        let Asking {
            client,
            change,
            attempt,
            tries,
        } = self;
        let mut client = client;
        let mut found = LastId {
            at: client.found,
            id: client.last,
        };
        client.pinned = false;
        let call = ChangeCall {
            change: &change,
            tries,
        };
        let progress = ran_from::<M, S>(
            &client.group,
            &mut client.seat,
            EndedAttempt { attempt, ran },
            &call,
            &mut found,
        );
        client.found = found.at;
        client.go_on(change, progress, tries)
    }
}

impl<M: Means> Asking<M, Arena<M>> {
    ghost use Rattle.std.specs.Prelude.{⊤};

    /// Gives the change up, as `give_up` does. It asks for no bound that other threads rely on, so a drop can call it.
    pub fn abandon(self) -> Client<M, Arena<M>>
        ensures left { (before : ClientState) → BeganAs M.means ⊤ before self
            → AfterChange ⊤ before result × (result.last ≡ before.last)
            × (own_moves result.seat.mark ≡ own_moves before.seat.mark)
            × Frees (Some self.change) 0 before.seat result.seat None }
    {
        let Asking {
            client,
            change,
            attempt,
            tries: _,
        } = self;
        drop(change);
        drop(attempt);
        let mut client = client;
        client.unpin_arena();
        client
    }
}
