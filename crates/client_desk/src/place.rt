//! A place at a group, and its calls.
ghost use Rattle.std.specs.Prelude.{◌≡◌, ◌⊎◌, []};
ghost use Rattle.std.specs.Arc.{arc_value};
ghost use Rattle.commit_graph.specs.Seats.{IsSeatOf};
ghost use Rattle.client_desk.specs.declared.calls.DeskCall.TheVariants as kind;
ghost use Rattle.client_desk.specs.declared.faults.CallFault.TheVariants as fault;
ghost use Rattle.client_desk.specs.Answers.{AnswersLooking, At, BeginsPull, ByAny, ByClient};
ghost use Rattle.client_desk.specs.Answers.{CountsFree, Forgets, AnswersLack};
ghost use Rattle.client_desk.specs.Answers.{Leaves, PollsAs, Refreshes, AnswersSit, Unwatches, Watches, made_room};
ghost use Rattle.client_desk.specs.Calls.{MayLack};
ghost use Rattle.client_desk.specs.Closing.{Closes};
ghost use Rattle.client_desk.specs.Inside.Keeping.{telling_of};
ghost use Rattle.client_desk.specs.Inside.Sitting.{CanSit, IsAt, IsPlaceLeft, IsTaken, IsTakenFrom, with_sitting};
ghost use Rattle.client_desk.specs.Kept.{kept_at};
ghost use Rattle.client_desk.specs.Places.{free_place};
ghost use Rattle.client_desk.specs.Told.{told, told_alone};

use crate::calls::{DeskCall, Keep};
use crate::faults::CallFault;
use crate::kept::{give_up, make_room};
use crate::mutators::Hosted;
use crate::outcomes::{Outcome, id_outcome};
use crate::reading::tell_slots;
use crate::sitting::Sitting;
use crate::tickets::keep_reply;
use crate::watches::{Tells, keep_watch, poll_watch};
use group_history::{Refusal, Scan};
use rebase::{Arena, Client, Group, Seat, Ticket, Uuid, Watch};
use std::alloc::Global;
use std::marker::Model;
use std::mem::replace;
use std::sync::Arc;

/// How often a call begins anew that others are in the way of.
pub(crate) const TRIES: u32 = 1_000_000;

/// A place at a group: who sits there, with what it keeps for its host. It can't be dropped: it is closed.
pub struct Place<M: Hosted> {
    pub(crate) alloc: Global,
    group: Arc<Group<M, Arena<M>>, Global>,
    pub(crate) sitting: Sitting<M>,
    pub(crate) tickets: Vec<Option<Ticket>>,
    watches: Vec<Option<Watch<M>>>,
    // That of the last query that was answered.
    pub(crate) moment: u64,
}

impl<M: Hosted> Model for Place<M> {
    ghost use Rattle.std.specs.Arc.{arc_value};
    ghost use Rattle.std.specs.Coded.{codes};
    ghost use Rattle.std.specs.Prelude.{◌≡◌, IfSome};
    ghost use Rattle.group_history.specs.contracts.changes.Change as the_change;
    ghost use Rattle.group_history.specs.contracts.mutations.Mutation as the_mutation;
    ghost use Rattle.head_word.specs.contracts.entry.Entry as entry;
    ghost use Rattle.group_history.specs.State.{entries_coded};
    ghost use Rattle.commit_graph.specs.Seats.{IsSeatOf};
    ghost use Rattle.client_desk.specs.Inside.Keeping.{AreFor};
    ghost use Rattle.client_desk.specs.Places.{PlaceState};
    ghost use Rattle.client_desk.specs.Runs.{IsAsking};
    ghost use Rattle.client_desk.specs.Sitting.{asking_of, client_of, reading_of, seat_of};

    ghost Value = { PlaceState };

    ghost coded = { Prim.hlevel (
      codes,
      entry.the_row.coded,
      the_change.the_row.coded,
      the_mutation.the_row.coded,
      entries_coded,
    ) };

    ghost view = { λ p. record {
      group = arc_value p.group;
      seat = seat_of p.sitting;
      client = client_of p.sitting;
      asking = asking_of p.sitting;
      reading = reading_of p.sitting;
      tickets = p.tickets.items;
      watches = p.watches.items;
      moment = p.moment;
    } };

    ghost invariant = { λ p. IfSome (seat_of p.sitting) (IsSeatOf (arc_value p.group).group)
        × IfSome (client_of p.sitting) (λ c. (c.group ≡ arc_value p.group)
        × IsSeatOf (arc_value p.group).group c.seat)
        × IfSome (asking_of p.sitting) (IsAsking M.had M.means (arc_value p.group))
        × IfSome (reading_of p.sitting) (λ c. (c.group ≡ arc_value p.group)
        × IsSeatOf (arc_value p.group).group c.seat)
        × AreFor (arc_value p.group).group.book p.watches.items };
}

impl<M: Hosted> Place<M> {
    /// A place with this seat, at which nobody sits.
    pub fn new(
        alloc: Global,
        group: Arc<Group<M, Arena<M>>, Global>,
        seat: Seat<M, Arena<M>>,
    ) -> Place<M>
        requires { IsSeatOf (arc_value group).group seat }
        ensures { result ≡ free_place (arc_value group) seat }
    {
        Place {
            alloc,
            group,
            sitting: Sitting::Nobody(seat),
            tickets: Vec::new(alloc),
            watches: Vec::new(alloc),
            moment: 0,
        }
    }

    /// The moment of the query that was answered there last, as `Call::Moment` tells them; 0 before the first.
    pub fn moment_of_query(&self) -> u64
        ensures { result ≡ self.now.moment }
    {
        self.moment
    }

    /// Closes the place: who sits there leaves. A change that asks for a run is given up. Answers the seat.
    pub fn close(self) -> Option<Seat<M, Arena<M>>>
        ensures { Closes M.means self result }
    {
        let Place {
            alloc: _,
            group: _,
            sitting,
            tickets: _,
            watches: _,
            moment: _,
        } = self;
        sitting.close()
    }
}

impl<M: Hosted + Sync> Place<M> {
    // Who sits there is taken away. It, or another one, is put there before the call ends.
    pub(crate) fn take(&mut self) -> Sitting<M>
        ensures { IsTaken M.had M.means result self.old self.new }
    {
        replace(&mut self.sitting, Sitting::Moving)
    }

    pub(crate) fn put(&mut self, sitting: Sitting<M>)
        requires taken { IsTakenFrom self.old }
        requires fits { CanSit M.had M.means self.old.group sitting }
        ensures { self.new ≡ with_sitting sitting self.old }
    {
        let before = replace(&mut self.sitting, sitting);
        let Sitting::Moving = before else {
            unreachable!()
        };
    }

    fn sit(&mut self, id: &Uuid) -> Outcome
        ensures { AnswersSit M.means id.now self.old (told_alone result) self.new }
    {
        let seat = match self.take() {
            Sitting::Nobody(seat) => seat,
            other => {
                self.put(other);
                return Outcome::Faulty(CallFault::InUse);
            }
        };
        match self.group.client(seat, *id, TRIES) {
            Ok(client) => {
                self.put(Sitting::Client(client));
                return Outcome::Done;
            }
            Err((seat, refusal)) => {
                self.put(Sitting::Nobody(seat));
                return Outcome::Refused(refusal);
            }
        }
    }

    // The client's seat is free, and what it kept is given up.
    pub(crate) fn free(&mut self, client: Client<M, Arena<M>>)
        requires taken { IsTakenFrom self.old }
        requires at { IsAt self.old.group client }
        ensures { IsPlaceLeft client self.old self.new }
    {
        self.put(Sitting::Nobody(client.close()));
        self.tickets.clear();
        self.watches.clear();
        self.moment = 0;
    }

    fn leave(&mut self) -> Outcome
        ensures { ByAny Leaves self.old (told_alone result) self.new }
    {
        match self.take() {
            Sitting::Client(client) => {
                self.free(client);
                return Outcome::Done;
            }
            Sitting::Reading(reader) => {
                self.free(reader.end());
                return Outcome::Done;
            }
            other => {
                self.put(other);
                return Outcome::Faulty(CallFault::NoClient);
            }
        }
    }

    fn slots(&mut self, bytes: &mut Vec<u8>) -> Outcome
        requires { bytes.old.items ≡ [] }
        ensures { ByClient CountsFree self.old (told result bytes.new.items) self.new }
    {
        let Sitting::Client(client) = &mut self.sitting else {
            return Outcome::Faulty(self.sitting.absent());
        };
        tell_slots(client, bytes)
    }

    fn refresh(&mut self) -> Outcome
        ensures { ByClient (Refreshes M.means) self.old (told_alone result) self.new }
    {
        let Sitting::Client(client) = &mut self.sitting else {
            return Outcome::Faulty(self.sitting.absent());
        };
        id_outcome(client.refresh(TRIES))
    }

    // The ticket of the pull is kept, and its request is told.
    fn begin(&mut self, keep: Keep, bytes: &mut Vec<u8>) -> Outcome
        requires { bytes.old.items ≡ [] }
        ensures { AnswersLack (made_room (kind.Begin keep) self.old) (told result bytes.new.items) self.new
            ⊎ ByClient (λ c b. BeginsPull keep M.means c (made_room (kind.Begin keep) b)) self.old
            (told result bytes.new.items) self.new }
    {
        let Sitting::Client(client) = &mut self.sitting else {
            return Outcome::Faulty(self.sitting.absent());
        };
        make_room(&mut self.tickets, keep);
        let reply = client.begin_pull(TRIES);
        keep_reply(self.alloc, &mut self.tickets, keep, reply, bytes)
    }

    fn forget(&mut self, number: usize) -> Outcome
        ensures { At (kept_at self.old.tickets number) fault.NoTicket (Forgets number) self.old
            (told_alone result) self.new }
    {
        if !give_up(&mut self.tickets, number) {
            return Outcome::Faulty(CallFault::NoTicket);
        }
        Outcome::Done
    }

    fn watch(&mut self, keep: Keep, scan: &Scan) -> Outcome
        ensures { AnswersLack (made_room (kind.Watch keep scan.entry) self.old) (told_alone result) self.new
            ⊎ ByClient (λ c b. Watches keep scan.now c (made_room (kind.Watch keep scan.entry) b)) self.old
            (told_alone result) self.new }
    {
        let Sitting::Client(client) = &self.sitting else {
            return Outcome::Faulty(self.sitting.absent());
        };
        make_room(&mut self.watches, keep);
        match scan.clone() {
            Ok(scan) => {
                let watch = client.watch(scan);
                keep_watch(&mut self.watches, keep, watch)
            }
            Err(_) => Outcome::Refused(Refusal::NoMemory),
        }
    }

    fn poll(&mut self, number: usize, tells: Tells, bytes: &mut Vec<u8>) -> Outcome
        requires { bytes.old.items ≡ [] }
        ensures { AnswersLack self.old (told result bytes.new.items) self.new
            ⊎ ByClient (λ c b. At (kept_at b.watches number) fault.NoWatch
            (λ watch. PollsAs (telling_of tells) M.means c number watch) b)
            self.old (told result bytes.new.items) self.new }
    {
        let Sitting::Client(client) = &mut self.sitting else {
            return Outcome::Faulty(self.sitting.absent());
        };
        if number >= self.watches.len() {
            return Outcome::Faulty(CallFault::NoWatch);
        }
        match &mut self.watches[number] {
            Some(watch) => {
                return poll_watch(client, watch, tells, bytes);
            }
            None => {
                return Outcome::Faulty(CallFault::NoWatch);
            }
        }
    }

    fn unwatch(&mut self, number: usize) -> Outcome
        ensures { At (kept_at self.old.watches number) fault.NoWatch (Unwatches number) self.old
            (told_alone result) self.new }
    {
        if !give_up(&mut self.watches, number) {
            return Outcome::Faulty(CallFault::NoWatch);
        }
        Outcome::Done
    }

    // Makes a call that is no change, where none asks for a run.
    pub(crate) fn call_calm(&mut self, call: DeskCall<'_>, bytes: &mut Vec<u8>) -> Outcome
        requires { bytes.old.items ≡ [] }
        ensures { (MayLack call.entry
            × AnswersLack (made_room call.entry self.old) (told result bytes.new.items) self.new)
            ⊎ AnswersLooking M.means call.entry self.old (told result bytes.new.items) self.new }
    {
        match call {
            DeskCall::Sit(id) => self.sit(id),
            DeskCall::Leave => self.leave(),
            DeskCall::BeginRead => self.begin_read(),
            DeskCall::EndRead => self.end_read(),
            DeskCall::Slots => self.slots(bytes),
            DeskCall::Refresh => self.refresh(),
            DeskCall::Begin(keep) => self.begin(keep, bytes),
            DeskCall::Forget(number) => self.forget(number),
            DeskCall::Watch(keep, scan) => self.watch(keep, scan),
            DeskCall::Poll(number) => self.poll(number, Tells::Rows, bytes),
            DeskCall::PollChanges(number) => self.poll(number, Tells::Changes, bytes),
            DeskCall::Unwatch(number) => self.unwatch(number),
            other => self.call_reading(other, bytes),
        }
    }
}
