//! Calls that ask for the runs of their mutators.
ghost use Rattle.std.specs.Prelude.{◌≡◌, ◌+◌, Ok, Err};
ghost use Rattle.group_history.specs.declared.changes.Change.TheVariants.{Mutated, Pulled};
ghost use Rattle.group_history.specs.declared.responses.Response.TheVariants as response;
ghost use Rattle.group_history.specs.Cookies.{Cookie as Cookied};
ghost use Rattle.group_history.specs.Map.{Bytes};
ghost use Rattle.group_history.specs.Pull.{Pull};
ghost use Rattle.group_history.specs.State.{made};
ghost use Rattle.pull_patch.specs.Grammar.{answer_to};
ghost use Rattle.change_tries.specs.Missing.{map_ok};
ghost use Rattle.change_tries.specs.Proposing.{AsksNext};
ghost use Rattle.rebase.specs.Clients.{AfterQuery};
ghost use Rattle.rebase.specs.Replies.{reply_seen};
ghost use Rattle.rebase.specs.Running.{EndsCall, EndsPull, IsAsked, IsFirstAsked, IsUnwritten};

use crate::asking::Asked;
use crate::calls::CallReply;
use crate::client::Client;
use crate::tickets::Ticket;
use change_drafts::Runs;
use change_tries::{ChangeCall, SharedGroup, ask_from};
use chunk_slots::Store;
use commit_graph::LastId;
use group_history::{Change, Json, Mutation, PullOk, Refusal, Response, Text, VersionKind};

impl<M: Runs, S: Store<M>> Client<M, S> {
    ghost use Rattle.rebase.specs.Asked.{TellsAsked};

    // Refuses the call before it did anything.
    fn refuse_asked(self, e: Refusal) -> Asked<M, S>
        ensures told { TellsAsked result (λ asking. ⊥)
            (λ client reply. (reply ≡ Err e) × AfterQuery S.reused self client
            × (client.seat.mark ≡ self.seat.mark)) }
    {
        let mut client = self;
        let reply = client.refuse(e);
        Asked::Ended(client, reply)
    }

    // Begins a change.
    fn ask(self, change: Change, tries: u32) -> Asked<M, S>
        requires next { AsksNext self.id self.last change }
        ensures told { TellsAsked result (IsAsked M.means S.reused tries self change) (λ client reply.
            EndsCall M.means S.reused tries self client change (map_ok reply_seen reply)) }
        ensures first { TellsAsked result (IsFirstAsked M.has) (λ client reply. Unit {0}) }
        ensures fresh { TellsAsked result (IsUnwritten M.has) (λ client reply. Unit {0}) }
    {
        let mut client = self;
        let mut found = LastId {
            at: client.found,
            id: client.last,
        };
        client.pinned = false;
        let call = ChangeCall {
            change: &change,
            tries,
        };
        let progress = ask_from::<M, S>(&client.group, &mut client.seat, &call, &mut found, 0);
        client.found = found.at;
        client.go_on(change, progress, tries)
    }

    /// Makes a mutation whose mutator the caller runs. It asks for that run, anew where others moved the head first,
    /// and ends as `try_mutate` does, with `Reply::Id`.
    pub fn ask_mutate(self, name: &Text, args: &Json, time: u64, tries: u32) -> Asked<M, S>
        ensures told { TellsAsked result
            (IsAsked M.means S.reused tries self (Mutated (made self.id (self.last + 1) name.now args.now time)))
            (λ client reply. EndsCall M.means S.reused tries self client
            (Mutated (made self.id (self.last + 1) name.now args.now time)) (map_ok reply_seen reply)) }
        ensures first { TellsAsked result (IsFirstAsked M.has) (λ client reply. Unit {0}) }
        ensures fresh { TellsAsked result (IsUnwritten M.has) (λ client reply. Unit {0}) }
    {
        let group: &SharedGroup<M, S> = &self.group;
        let alloc = group.shared.alloc;
        match Mutation::new(alloc, &self.id, self.last + 1, name, args, time) {
            Ok(mutation) => {
                return self.ask(Change::Mutated(mutation), tries);
            }
            Err(e) => {
                return self.refuse_asked(Refusal::from(e));
            }
        }
    }

    // Ends a pull that brought no error.
    fn ask_pulled(self, ticket: &Ticket, pull: PullOk, tries: u32) -> Asked<M, S>
        ensures told { TellsAsked result (IsAsked M.means S.reused tries self (Pulled ticket.now.cookie pull))
            (λ client reply. EndsCall M.means S.reused tries self client (Pulled ticket.now.cookie pull)
            (map_ok reply_seen reply)) }
        ensures first { TellsAsked result (IsFirstAsked M.has) (λ client reply. Unit {0}) }
        ensures fresh { TellsAsked result (IsUnwritten M.has) (λ client reply. Unit {0}) }
    {
        match ticket.cookie.clone() {
            Ok(cookie) => {
                return self.ask(Change::Pulled(cookie, pull), tries);
            }
            Err(e) => {
                drop(pull);
                return self.refuse_asked(Refusal::from(e));
            }
        }
    }

    // Ends a pull whose server does not support a version.
    fn ask_unsupported(self, kind: VersionKind, tries: u32) -> Asked<M, S>
        ensures told { (ticket : Cookied) (body : Bytes) → answer_to body ≡ Ok (response.VersionNotSupported kind)
            → TellsAsked result (λ asking. ⊥) (λ client reply. EndsPull M.means S.reused tries self client ticket body
            (map_ok reply_seen reply)) }
    {
        let mut client = self;
        let reply = client.end_unsupported(kind, tries).map(CallReply::Ended);
        Asked::Ended(client, reply)
    }

    /// Ends a pull with the bytes of its response, where the caller runs what stays pending. It asks for each run, the
    /// oldest mutation first, and for all anew where others moved the head first, and ends as `try_end_pull` does, with
    /// `Reply::Ended`: at once where no run is needed, as by an error response.
    pub fn ask_end_pull(self, ticket: &Ticket, body: &[u8], tries: u32) -> Asked<M, S>
        ensures told { TellsAsked result (λ asking. (r : Pull) × (answer_to body.now ≡ Ok (response.Ok r))
            × IsAsked M.means S.reused tries self (Pulled ticket.now.cookie r) asking)
            (λ client reply. EndsPull M.means S.reused tries self client ticket.now.cookie body.now
            (map_ok reply_seen reply)) }
        ensures first { TellsAsked result (IsFirstAsked M.has) (λ client reply. Unit {0}) }
        ensures fresh { TellsAsked result (IsUnwritten M.has) (λ client reply. Unit {0}) }
    {
        match self.response_in(body) {
            Ok(Response::Ok(pull)) => {
                return self.ask_pulled(ticket, pull, tries);
            }
            Ok(Response::StateNotFound) => {
                return self.ask(Change::Closed, tries);
            }
            Ok(Response::VersionNotSupported(kind)) => {
                return self.ask_unsupported(kind, tries);
            }
            Err(e) => {
                return self.refuse_asked(e);
            }
        }
    }
}
