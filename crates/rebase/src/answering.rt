//! A client, call by call.
//!
//! A list of calls is answered call by call, each at a point of its own (`AreAnswered`). Where no other seat
//! moves the head meanwhile, the replies are those of a group of one thread (`AreReplies`): each is the right
//! one at the state that the calls before it left.
ghost use Rattle.std.specs.Prelude.{false, ◌≡◌, ◌⊎◌, ◌≤◌, true, [], Ok, length, map, vec_capacity, IfOk, IfErr, OnErr};
ghost use Rattle.group_history.specs.declared.mutators.Stop.TheVariants.{NoMemory as Dry};
ghost use Rattle.group_history.specs.Meaning.{Meanings};
ghost use Rattle.group_history.specs.Record.{after};
ghost use Rattle.group_history.specs.Spelling.{version_of};
ghost use Rattle.group_history.specs.State.{State};
ghost use Rattle.head_word.specs.Books.{record_of};
ghost use Rattle.linearized.specs.Answered.{IsLinearized, no_change};
ghost use Rattle.change_tries.specs.Causes.{HasCause};
ghost use Rattle.change_tries.specs.Leaving.{Frees, spared};
ghost use Rattle.change_tries.specs.Missing.{IsStoreOrMemory, map_ok};
ghost use Rattle.rebase.specs.Calls.{Caller, IsAlone, AreAnswered, AreReplies, caller_of, change_for, change_of};
ghost use Rattle.rebase.specs.Calls.{is_query, is_reading, last_after, reply_to};
ghost use Rattle.commit_graph.specs.Seats.{HasLooked, SeatState};
ghost use Rattle.rebase.specs.Clients.{AfterChange, AfterLook, HoldsNothing, AfterQuery};
ghost use Rattle.rebase.specs.Readers.{lent, read_by};
ghost use Rattle.rebase.specs.Replies.{reply_seen};

use crate::calls::{Call, CallReply};
use crate::client::Client;
use crate::reading::ReadTx;
use chunk_slots::{Slots, Store};
use commit_graph::Nodes;
use group_history::{Means, Mutators, Refusal, Stop};
use std::alloc::{AllocError, Global};
use transactions::ReadTx as CommitTx;

// What a commit that is read answers.
fn read_call<N: Nodes>(tx: &mut CommitTx<N>, call: Call<'_>) -> Result<CallReply, Stop>
    requires query { is_query call ≡ true }
    ensures value { (means : Meanings) (c : Caller) (s : State) → tx.old.version ≡ version_of means s
        → IfOk result (λ reply. reply_to means c s call.entry ≡ Ok (reply_seen reply)) }
    ensures stopped { IfErr result (λ stop. (stop ≡ Dry) ⊎ N.stops stop) }
{
    match call {
        Call::Get(key) => tx.get(key.as_str()).map(CallReply::Value),
        Call::Has(key) => tx.has(key.as_str()).map(CallReply::Is),
        Call::Scan(scan) => tx.scan(scan).map(CallReply::Rows),
        Call::IsEmpty => tx.is_empty().map(CallReply::Is),
        Call::Closed => tx.closed().map(CallReply::Is),
        Call::Pending => tx.pending().map(CallReply::Pending),
        Call::Cookie => tx.cookie().map(CallReply::Cookie),
        _ => unreachable!(),
    }
}

// Asks a reader.
fn ask<M: Means, S: Slots<M>>(tx: &ReadTx<'_, M, S>, call: Call<'_>) -> Result<CallReply, Refusal>
    requires query { is_query call ≡ true }
    ensures value { IfOk result (λ reply. reply_to M.means (caller_of (lent tx.now).now) (read_by tx.now) call.entry
        ≡ Ok (reply_seen reply)) }
    ensures err { IfErr result (IsStoreOrMemory S.reused) }
{
    let mut tx = tx.commit()?;
    Ok(read_call(&mut tx, call)?)
}

impl<M: Means, S: Slots<M>> Client<M, S> {
    // Makes a call that one reading answers.
    fn query(&mut self, call: Call<'_>, tries: u32) -> Result<CallReply, Refusal>
        requires { is_query call ≡ true }
        ensures answer { IsLinearized M.means tries self.old.seat.mark self.new.seat.mark
            (map_ok reply_seen result) no_change
            (λ s. reply_to M.means (caller_of self.old) s call.entry) }
        ensures err { IfErr result (IsStoreOrMemory S.reused) }
        ensures stays { AfterQuery S.reused self.old self.new }
    {
        let tx = self.read(tries)?;
        let reply = ask(&tx, call);
        tx.close();
        reply
    }
}

impl<M: Mutators, S: Store<M>> Client<M, S> {
    /// Makes one call, and answers as the method of its name does; a query opens a reader, asks it and closes it. A
    /// refusal is that method's, and leaves what that method leaves.
    pub fn make_call(&mut self, call: Call<'_>, tries: u32) -> Result<CallReply, Refusal>
        ensures answer { IsLinearized M.means tries self.old.seat.mark self.new.seat.mark (map_ok reply_seen result)
            (change_of (caller_of self.old) call.entry) (λ s. reply_to M.means (caller_of self.old) s call.entry) }
        ensures err { is_reading call.entry ≡ true → IfErr result (IsStoreOrMemory S.reused) }
        ensures last { self.new.last ≡ last_after self.old.last (map_ok reply_seen result) }
        ensures acts { AfterChange S.reused self.old self.new }
        ensures looks { is_reading call.entry ≡ true → AfterLook S.reused self.old self.new }
        ensures cause { IfErr result (HasCause M.means S.reused self.old.last
            (change_for (caller_of self.old) call.entry)
            self.old.seat self.new.seat) }
        ensures frees { is_reading call.entry ≡ false → S.reused → Frees (change_for (caller_of self.old) call.entry)
            (spared result) self.old.seat self.new.seat
            (change_of (caller_of self.old) call.entry (map_ok reply_seen result)) }
    {
        match call {
            Call::Refresh => self.refresh(tries).map(CallReply::Id),
            Call::PushBody => self.push_body(0, tries).map(CallReply::Body),
            Call::BeginPull => self.begin_pull(tries).map(CallReply::Ticket),
            Call::Mutate(m) => self
                .try_mutate(m.name, m.args, m.time, tries)
                .map(CallReply::Id),
            Call::EndPull(ticket, body) => self
                .try_end_pull(ticket, body, tries)
                .map(CallReply::Ended),
            query => self.query(query, tries),
        }
    }

    // Makes calls in order, and adds what each replied. There is room for the replies.
    fn call_each(
        &mut self,
        calls: &[Call<'_>],
        tries: u32,
        replies: &mut Vec<Result<CallReply, Refusal>>,
    )
        requires none { replies.old.items ≡ [] }
        requires room { length calls.now ≤ vec_capacity replies.old }
        requires rests { HoldsNothing S.reused self.old }
        ensures answers { AreAnswered M.means S.reused tries (caller_of self.old) self.old.seat calls.now
            (map (map_ok reply_seen) replies.new.items) self.new.seat (caller_of self.new) }
        ensures acts { AfterChange S.reused self.old self.new }
    {
        for call in calls {
            let reply = self.make_call(*call, tries);
            drop(replies.push(reply));
        }
    }

    /// Makes calls in order, each with so many tries, and answers what each replied. A refusal is a reply, and the
    /// calls behind it are made. Where no other client moves the head meanwhile, the replies are those of a group of
    /// one thread, or refusals for lack of memory, slots or tries. Room for the replies is taken first; where it is
    /// refused no call is made.
    pub fn call_all(
        &mut self,
        alloc: Global,
        calls: &[Call<'_>],
        tries: u32,
    ) -> Result<Vec<Result<CallReply, Refusal>>, AllocError>
        ensures answers { IfOk result (λ replies. (rested : SeatState) × HasLooked S.reused self.old.seat rested
            × (rested.mark ≡ self.old.seat.mark) × AreAnswered M.means S.reused tries (caller_of self.old) rested
            calls.now (map (map_ok reply_seen) replies.items) self.new.seat (caller_of self.new)) }
        ensures replies { IfOk result (λ replies. IsAlone self.old.seat.mark self.new.seat.mark
            → AreReplies M.means (caller_of self.old) (after (record_of self.old.seat.mark.log)) calls.now
            (map (map_ok reply_seen) replies.items) (after (record_of self.new.seat.mark.log)) (caller_of self.new)) }
        ensures err { OnErr result (AfterQuery S.reused self.old self.new × (self.new.seat.mark ≡ self.old.seat.mark)) }
        ensures acts { AfterChange S.reused self.old self.new }
    {
        self.unpin();
        let mut replies = Vec::with_capacity(alloc, calls.len())?;
        self.call_each(calls, tries, &mut replies);
        Ok(replies)
    }
}
