//! The changes that a client makes: mutations, and ends of pulls.
//!
//! A change is made once, by one exchange of the group's head, or not at all. The forms that begin with `try_`
//! return after as many tries as they are given; the others go on while others are in the way.
ghost use Rattle.std.specs.Prelude.{◌≡◌, ◌+◌, ◌<◌, ◌^◌, false, Ok, Some, None, IfOk, IfErr, IfSome, IsSome};
ghost use Rattle.group_history.specs.declared.changes.Change.TheVariants.{Mutated, Pulled, Closed};
ghost use Rattle.group_history.specs.declared.responses.Response.TheVariants as response;
ghost use Rattle.group_history.specs.Map.{Bytes};
ghost use Rattle.group_history.specs.Mutating.{mutate_reply};
ghost use Rattle.group_history.specs.Pulling.{end_reply};
ghost use Rattle.group_history.specs.Refs.{stamp_of};
ghost use Rattle.group_history.specs.State.{made};
ghost use Rattle.group_history.specs.Answers.{AnswersOrNoMemory as Reads};
ghost use Rattle.head_word.specs.Books.{IsOpened, drawn};
ghost use Rattle.commit_graph.specs.LastIds.{last_at};
ghost use Rattle.pull_patch.specs.Grammar.{answer_to};
ghost use Rattle.linearized.specs.Answered.{IsLinearized, no_change};
ghost use Rattle.linearized.specs.Changes.{change_applied, change_closing, change_made, change_read};
ghost use Rattle.change_tries.specs.Causes.{HasCause};
ghost use Rattle.change_tries.specs.Leaving.{Frees, FreesAnew, spared};
ghost use Rattle.change_tries.specs.Missing.{map_ok};
ghost use Rattle.change_tries.specs.Changing.{ended_as, is_made};
ghost use Rattle.change_tries.specs.Proposing.{AsksNext, HasLast, asked_reply, change_asked};
ghost use Rattle.rebase.specs.Asking.{change_wanted, end_bytes_reply, is_passing};
ghost use Rattle.commit_graph.specs.Seats.{HasLooked};
ghost use Rattle.rebase.specs.Clients.{AfterChange, IsSameClient, AfterQuery};

use crate::client::Client;
use crate::tickets::Ticket;
use change_tries::{SharedGroup, closed_at, make_change};
use chunk_slots::Store;
use commit_graph::LastId;
use group_history::{
    Change, Cookie, Ended, Json, Means, Mutation, Mutators, PullOk, Ref, Refusal, Response, Text,
    VersionKind,
};
use pull_patch::read_response;
use std::sync::Wait;

// How often a call that may wait tries before it begins anew. In between it has no pin and no taken slot.
const TRIES: u32 = 1000;

// Whether the call was refused because others were in its way.
fn is_passing<T>(reply: &Result<T, Refusal>) -> bool
    ensures { result ≡ is_passing reply.now }
{
    matches!(reply, Err(Refusal::Moved | Refusal::Busy | Refusal::Gone))
}

// How a pull was ended whose commit stands there, if it changed anything.
pub(crate) fn ended_as(made: Result<Option<Ref>, Refusal>) -> Result<Ended, Refusal>
    ensures { result ≡ map_ok ended_as made }
{
    match made? {
        Some(_) => Ok(Ended::Applied),
        None => Ok(Ended::Same),
    }
}

impl<M: Means, S: Store<M>> Client<M, S> {
    // Where the client's next mutation was made, its id is the client's last one, and is answered.
    pub(crate) fn keep_next(&mut self, made: Result<Option<Ref>, Refusal>) -> Result<u64, Refusal>
        requires made { IfOk made IsSome }
        requires found { IfOk made (λ made. IfSome made
            (λ at. (last_at (drawn self.old.seat.mark.log) (stamp_of at) self.old.id ≡ Some (self.old.last + 1))
            × (self.old.last + 1 < 2 ^ 53))) }
        ensures id { result ≡ map_ok (λ at. self.old.last + 1) made }
        ensures last { IfOk result (λ id. self.new.last ≡ id) }
        ensures left { IfErr result (λ _. self.new.last ≡ self.old.last) }
        ensures seat { self.new.seat ≡ self.old.seat }
        ensures same { IsSameClient self.old self.new }
    {
        let Some(at) = made? else { unreachable!() };
        self.found = at;
        self.last += 1;
        Ok(self.last)
    }

    // Ends a pull whose server does not support a version.
    pub(crate) fn end_unsupported(
        &mut self,
        kind: VersionKind,
        tries: u32,
    ) -> Result<Ended, Refusal>
        ensures answer { (ticket : Bytes) → IsLinearized M.means tries self.old.seat.mark self.new.seat.mark result
            no_change
            (λ s. end_reply s ticket (response.VersionNotSupported kind)) }
        ensures stays { AfterQuery S.reused self.old self.new }
        ensures cause { IfErr result (HasCause M.means S.reused self.old.last None
            self.old.seat self.new.seat) }
    {
        let at = self.pin_and_load(tries)?;
        let closed = closed_at(&self.here(at, tries));
        self.unpin();
        if closed? {
            return Err(Refusal::Closed);
        }
        Err(Refusal::VersionNotSupported(kind))
    }

    // Reads the bytes of a response. What the client has seen is a legal book.
    pub(crate) fn response_in(&self, body: &[u8]) -> Result<Response, Refusal>
        ensures read { Reads result (answer_to body.now) }
        ensures legal { IsOpened M.means self.now.seat.mark.log }
    {
        self.seat.mark.legal();
        let group: &SharedGroup<M, S> = &self.group;
        read_response(group.shared.alloc, body)
    }
}

impl<M: Mutators, S: Store<M>> Client<M, S> {
    // Makes a change, and answers the commit where it stands: none where there is nothing to change.
    fn change(&mut self, change: &Change, tries: u32) -> Result<Option<Ref>, Refusal>
        requires next { AsksNext self.old.id self.old.last change.now }
        ensures answer { IsLinearized M.means tries self.old.seat.mark self.new.seat.mark (map_ok is_made result)
            (change_asked change.now)
            (λ s. asked_reply M.means s self.old.last change.now) }
        ensures found { IfOk result (λ made. IfSome made (λ at. HasLast (drawn self.new.seat.mark.log) at change.now)) }
        ensures acts { AfterChange S.reused self.old self.new × (self.new.last ≡ self.old.last) }
        ensures cause { IfErr result (HasCause M.means S.reused self.old.last (Some change.now)
            self.old.seat self.new.seat) }
        ensures frees { S.reused → Frees (Some change.now) (spared result) self.old.seat self.new.seat
            (change_asked change.now (map_ok is_made result)) }
    {
        let mut found = LastId {
            at: self.found,
            id: self.last,
        };
        self.pinned = false;
        let made = make_change::<M, S>(&self.group, &mut self.seat, change, &mut found, tries);
        self.found = found.at;
        made
    }

    /// Makes a mutation, and answers its id: one more than the client's last id, which it then is (Replicache, How It
    /// Works, "Mutations"). Queries show it at once, and pushes have it until a pull confirms it. `time` is in
    /// milliseconds, and stands in the push as it is.
    ///
    /// Refused, in this order, with `Closed`, `Stale`, `NoMutator` and `Refused`; with `Moved`, `Busy` or `Gone` where
    /// others were in the way, as often as it was to try; and with `NoMemory`, `Full` or `Stamps` for want of memory,
    /// of a slot or of stamps. A refused call leaves the client's last id as it was, and the group as others left it.
    pub fn try_mutate(
        &mut self,
        name: &Text,
        args: &Json,
        time: u64,
        tries: u32,
    ) -> Result<u64, Refusal>
        ensures answer { IsLinearized M.means tries self.old.seat.mark self.new.seat.mark result
            (change_made (made self.old.id (self.old.last + 1) name.now args.now time))
            (λ s. mutate_reply M.means s self.old.last (made self.old.id (self.old.last + 1) name.now args.now time)) }
        ensures last { IfOk result (λ id. (id ≡ self.old.last + 1) × (self.new.last ≡ id)) }
        ensures left { IfErr result (λ _. self.new.last ≡ self.old.last) }
        ensures acts { AfterChange S.reused self.old self.new }
        ensures cause { IfErr result (HasCause M.means S.reused self.old.last
            (Some (Mutated (made self.old.id (self.old.last + 1) name.now args.now time)))
            self.old.seat self.new.seat) }
        ensures frees { S.reused → Frees
            (Some (Mutated (made self.old.id (self.old.last + 1) name.now args.now time))) (spared result)
            self.old.seat self.new.seat
            (change_made (made self.old.id (self.old.last + 1) name.now args.now time) result) }
    {
        let group: &SharedGroup<M, S> = &self.group;
        let alloc = group.shared.alloc;
        let mutation = match Mutation::new(alloc, &self.id, self.last + 1, name, args, time) {
            Ok(mutation) => mutation,
            Err(e) => {
                return self.refuse(Refusal::from(e));
            }
        };
        let change = Change::Mutated(mutation);
        let made = self.change(&change, tries);
        self.keep_next(made)
    }

    // Ends a pull that brought no error.
    fn end_applied(&mut self, ticket: &Cookie, pull: PullOk, tries: u32) -> Result<Ended, Refusal>
        ensures answer { IsLinearized M.means tries self.old.seat.mark self.new.seat.mark result
            (change_applied ticket.now pull)
            (λ s. end_reply s ticket.now.text (response.Ok pull)) }
        ensures acts { AfterChange S.reused self.old self.new × (self.new.last ≡ self.old.last) }
        ensures cause { IfErr result (HasCause M.means S.reused self.old.last (Some (Pulled ticket.now pull))
            self.old.seat self.new.seat) }
        ensures frees { S.reused → Frees (Some (Pulled ticket.now pull)) (spared result) self.old.seat self.new.seat
            (change_applied ticket.now pull result) }
    {
        match ticket.clone() {
            Ok(cookie) => {
                let change = Change::Pulled(cookie, pull);
                let made = self.change(&change, tries);
                drop(change);
                ended_as(made)
            }
            Err(e) => {
                drop(pull);
                self.refuse(Refusal::from(e))
            }
        }
    }

    // Ends a pull whose server does not know the group: closes it.
    fn end_unknown(&mut self, tries: u32) -> Result<Ended, Refusal>
        ensures answer { (ticket : Bytes) → IsLinearized M.means tries self.old.seat.mark self.new.seat.mark result
            change_closing
            (λ s. end_reply s ticket response.StateNotFound) }
        ensures acts { AfterChange S.reused self.old self.new × (self.new.last ≡ self.old.last) }
        ensures cause { IfErr result (HasCause M.means S.reused self.old.last (Some Closed)
            self.old.seat self.new.seat) }
        ensures frees { S.reused → Frees (Some Closed) (spared result) self.old.seat self.new.seat
            (change_closing result) }
    {
        match self.change(&Change::Closed, tries) {
            Ok(_) => Err(Refusal::StateNotFound),
            Err(e) => Err(e),
        }
    }

    /// Ends a pull with the bytes of its response (Replicache, Pull Endpoint Reference, version 1; How It Works, "Pull"
    /// and "Rebase"). With `Applied` the patch is done on the pulled map, the response's cookie and confirmed ids are
    /// the group's, confirmed mutations are pending no more, and the others are run again on the new map. With `Same`
    /// nothing was changed. The client's last id stays. A ticket may be ended again.
    ///
    /// The bytes are read first, once, and refused with `NotJson`, `BadShape` or `NotWhole` where they are no response.
    /// Refused then, in this order, with `Closed`, what an error response says, `Overtaken`, `CookieWentBack`,
    /// `CookieNotNew` and `IdWentBack`; with `Moved`, `Busy` or `Gone` where others were in the way, as often as it was
    /// to try; and with `NoMemory`, `Full` or `Stamps` for want of memory, of a slot or of stamps. `StateNotFound`
    /// closes the group, whatever the ticket; any other refusal changes nothing.
    pub fn try_end_pull(
        &mut self,
        ticket: &Ticket,
        body: &[u8],
        tries: u32,
    ) -> Result<Ended, Refusal>
        ensures answer { IsLinearized M.means tries self.old.seat.mark self.new.seat.mark result
            (change_read ticket.now.cookie (answer_to body.now))
            (λ s. end_bytes_reply s ticket.now.cookie.text body.now) }
        ensures acts { AfterChange S.reused self.old self.new × (self.new.last ≡ self.old.last) }
        ensures cause { IfErr result (HasCause M.means S.reused self.old.last
            (change_wanted ticket.now.cookie (answer_to body.now))
            self.old.seat self.new.seat) }
        ensures frees { S.reused → Frees (change_wanted ticket.now.cookie (answer_to body.now)) (spared result)
            self.old.seat self.new.seat (change_read ticket.now.cookie (answer_to body.now) result) }
        ensures looked { change_wanted ticket.now.cookie (answer_to body.now) ≡ None
            → HasLooked S.reused self.old.seat self.new.seat }
    {
        let response = match self.response_in(body) {
            Ok(response) => response,
            Err(e) => {
                return self.refuse(e);
            }
        };
        match response {
            Response::Ok(pull) => {
                return self.end_applied(&ticket.cookie, pull, tries);
            }
            Response::StateNotFound => {
                return self.end_unknown(tries);
            }
            Response::VersionNotSupported(kind) => {
                return self.end_unsupported(kind, tries);
            }
        }
    }

    /// Makes a mutation as `try_mutate` does with 1,000 tries, and begins anew where that was refused with `Moved`,
    /// `Busy` or `Gone`. So it is refused with none of the three, but it may wait for others, without end.
    pub fn mutate<R: Wait>(
        &mut self,
        rt: &R,
        name: &Text,
        args: &Json,
        time: u64,
    ) -> Result<u64, Refusal>
        ensures answer { IsLinearized M.means 0 self.old.seat.mark self.new.seat.mark result
            (change_made (made self.old.id (self.old.last + 1) name.now args.now time))
            (λ s. mutate_reply M.means s self.old.last (made self.old.id (self.old.last + 1) name.now args.now time)) }
        ensures lasting { is_passing result ≡ false }
        ensures last { IfOk result (λ id. (id ≡ self.old.last + 1) × (self.new.last ≡ id)) }
        ensures left { IfErr result (λ _. self.new.last ≡ self.old.last) }
        ensures acts { AfterChange S.reused self.old self.new }
        ensures cause { IfErr result (HasCause M.means S.reused self.old.last
            (Some (Mutated (made self.old.id (self.old.last + 1) name.now args.now time)))
            self.old.seat self.new.seat) }
        ensures frees { S.reused → FreesAnew
            (Some (Mutated (made self.old.id (self.old.last + 1) name.now args.now time))) self.old.seat self.new.seat
            (change_made (made self.old.id (self.old.last + 1) name.now args.now time) result) }
    {
        for turn in rt.forever() {
            let _ = turn;
            let reply = self.try_mutate(name, args, time, TRIES);
            if !is_passing(&reply) {
                return reply;
            }
        }
        unreachable!()
    }

    /// Ends a pull as `try_end_pull` does with 1,000 tries, and begins anew where that was refused with `Moved`, `Busy`
    /// or `Gone`. So it is refused with none of the three, but it may wait for others, without end.
    pub fn end_pull<R: Wait>(
        &mut self,
        rt: &R,
        ticket: &Ticket,
        body: &[u8],
    ) -> Result<Ended, Refusal>
        ensures answer { IsLinearized M.means 0 self.old.seat.mark self.new.seat.mark result
            (change_read ticket.now.cookie (answer_to body.now))
            (λ s. end_bytes_reply s ticket.now.cookie.text body.now) }
        ensures lasting { is_passing result ≡ false }
        ensures acts { AfterChange S.reused self.old self.new × (self.new.last ≡ self.old.last) }
        ensures cause { IfErr result (HasCause M.means S.reused self.old.last
            (change_wanted ticket.now.cookie (answer_to body.now))
            self.old.seat self.new.seat) }
        ensures frees { S.reused → FreesAnew (change_wanted ticket.now.cookie (answer_to body.now))
            self.old.seat self.new.seat (change_read ticket.now.cookie (answer_to body.now) result) }
        ensures looked { change_wanted ticket.now.cookie (answer_to body.now) ≡ None
            → HasLooked S.reused self.old.seat self.new.seat }
    {
        for turn in rt.forever() {
            let _ = turn;
            let reply = self.try_end_pull(ticket, body, TRIES);
            let is_last = !is_passing(&reply);
            if is_last {
                return reply;
            }
        }
        unreachable!()
    }
}
