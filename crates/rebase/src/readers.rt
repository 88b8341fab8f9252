//! A reader that is kept.
//!
//! A `Reader` owns its client, so it has no lifetime and programs keep it in structs, beside others. It reads the
//! commit where the head was when it was begun; its client's pin is held until it ends, which the type keeps
//! (`IsReadingKept`), so a reader is never refused for want of a pin. It can't be dropped: who has one ends it, and
//! has the client again.
ghost use Rattle.std.specs.Prelude.{◌≡◌, drop, None, IfOk, IfErr};
ghost use Rattle.std.specs.Arc.{arc_value};
ghost use mathlib.Core.List.{IsPrefix};
ghost use Rattle.group_history.specs.Record.{after};
ghost use Rattle.group_history.specs.Spelling.{version_of};
ghost use Rattle.head_word.specs.Books.{drawn, record_of};
ghost use Rattle.head_word.specs.Laws.{moment};
ghost use Rattle.head_word.specs.Marks.{known};
ghost use Rattle.chunk_slots.specs.Seats.{IsIdle};
ghost use Rattle.commit_graph.specs.Seats.{HasLooked};
ghost use Rattle.push_body.specs.Bodies.{push_text};
ghost use Rattle.linearized.specs.Answered.{IsPoint};
ghost use Rattle.change_tries.specs.Missing.{IsStoreRefusal, IsStoreOrMemory};
ghost use Rattle.transactions.specs.Reads.{pulled_version};
ghost use Rattle.rebase.specs.Clients.{AfterRead, AfterQuery};

use crate::client::Client;
use crate::reading::Point;
use crate::seats::Seat;
use change_tries::{SharedGroup, body_at};
use chunk_slots::{Arena, Slots};
use commit_graph::StoreNodes;
use group_history::{Means, Refusal};
use head_word::Mark;
use std::marker::Model;
use transactions::ReadTx as CommitTx;

/// Reads one commit for as long as it is kept: every answer is that of the point at which it was begun (Replicache,
/// `ReadTransaction`). It has its client, whose pin is held until `end` gives the client back, and the slots that the
/// commit reaches are kept so long.
pub struct Reader<M: Means, S: Slots<M>> {
    client: Client<M, S>,
    at: Point<M>,
    tries: u32,
}

impl<M: Means, S: Slots<M>> Model for Reader<M, S> {
    ghost use Rattle.std.specs.Coded.{codes};
    ghost use Rattle.head_word.specs.contracts.entry.Entry as entry;
    ghost use Rattle.rebase.specs.Clients.{ClientState};
    ghost use Rattle.rebase.specs.Inside.Reading.{IsReadingKept};

    ghost Value = { ClientState };

    ghost coded = { Prim.hlevel (codes, entry.the_row.coded) };

    ghost view = { λ r. r.client };

    ghost invariant = { λ r. IsReadingKept S.reused r.client.seat r.at };
}

impl<M: Means, S: Slots<M>> Client<M, S> {
    /// Begins a reader that is kept: of the group as it is at one moment of the call, and not before what the client
    /// has seen. Refused with `Gone`, and over slots that are used again `Busy`; then the client is handed back, and
    /// has no pin. Takes no memory.
    pub fn begin_read(self, tries: u32) -> Result<Reader<M, S>, (Client<M, S>, Refusal)>
        ensures point { IfOk result (λ r. IsPoint M.means self.seat.mark r.seat.mark None r.seat.mark.log) }
        ensures reads { IfOk result (λ r. AfterRead S.reused tries self r) }
        ensures missed { IfErr result (λ e. IsStoreRefusal S.reused e.1) }
        ensures stays { IfErr result (λ e. AfterQuery S.reused self e.0) }
    {
        let mut client = self;
        match client.point(tries) {
            Ok(at) => Ok(Reader { client, at, tries }),
            Err(e) => Err((client, e)),
        }
    }
}

impl<M: Means, S: Slots<M>> Reader<M, S> {
    /// Its commit, to be queried. Each query is refused with `Gone`, over slots that are used again with `Busy`, and
    /// where it takes memory with `NoMemory`.
    pub fn tx(&self) -> CommitTx<StoreNodes<'_, M, S>>
        ensures version { result.version ≡ version_of M.means (after (record_of self.now.seat.mark.log)) }
        ensures contents { result.contents ≡ drawn self.now.seat.mark.log }
    {
        let client = &self.client;
        let group: &SharedGroup<M, S> = &client.group;
        self.at.open(&group.shared, &client.seat, self.tries)
    }

    /// Its commit without what is pending: queries answer what the server last sent (Replicache, How It Works, "The
    /// Client View"). Refused with `Gone`, and over slots that are used again `Busy`. Two looks. Takes no memory.
    pub fn pulled(&self) -> Result<CommitTx<StoreNodes<'_, M, S>>, Refusal>
        ensures version { IfOk result (λ tx. tx.version
            ≡ pulled_version (version_of M.means (after (record_of self.now.seat.mark.log)))) }
        ensures contents { IfOk result (λ tx. IsPrefix (drawn self.now.seat.mark.log) tx.contents) }
        ensures missed { IfErr result (IsStoreRefusal S.reused) }
    {
        let tx = self.tx();
        Ok(tx.pulled()?)
    }

    /// The body of a push of what is pending at its commit, whichever client made it, the oldest first (Replicache,
    /// Push Endpoint Reference, version 1), but for the oldest `skip` of them: with 0 of all. Refused with `NoMemory`,
    /// `Gone`, and over slots that are used again `Busy`.
    pub fn push_body(&self, skip: usize) -> Result<Vec<u8>, Refusal>
        ensures body { IfOk result (λ body. body.items ≡ push_text self.now.group.identity
            (drop skip (after (record_of self.now.seat.mark.log)).pending)) }
        ensures err { IfErr result (IsStoreOrMemory S.reused) }
    {
        body_at(&self.client.here(self.at.head(), self.tries), skip)
    }

    /// The moment at which it reads, as `Client::moment` counts them. Takes no memory.
    pub fn moment(&self) -> u64
        ensures { result ≡ moment self.now.seat.mark.log }
    {
        let head = self.at.head();
        head.stamp()
    }

    /// What its client had seen at that moment: another client can learn it. Takes no memory.
    pub fn mark(&self) -> Mark<M>
        ensures { result ≡ known self.now.seat.mark.book self.now.seat.mark.log None }
    {
        let client = &self.client;
        client.mark()
    }

    /// Ends the reading, takes the pin away, and gives the client back. Takes no memory.
    pub fn end(self) -> Client<M, S>
        ensures stays { AfterQuery S.reused self result }
        ensures mark { result.seat.mark ≡ self.seat.mark }
    {
        let Reader {
            client,
            at: _,
            tries: _,
        } = self;
        let mut client = client;
        client.unpin();
        client
    }
}

impl<M: Means> Reader<M, Arena<M>> {
    ghost use Rattle.std.specs.Prelude.{⊤};

    /// Ends the reading, gives its client up, and hands the seat back, as `Client::leave` does. It asks for no bound
    /// that other threads rely on, so a drop can call it.
    pub fn leave(self) -> Seat<M, Arena<M>>
    where
        M: Drop,
        ensures looked { HasLooked ⊤ self.seat result }
        ensures mark { result.mark ≡ self.seat.mark }
        ensures rests { IsIdle result.view }
    {
        let Reader {
            client,
            at: _,
            tries: _,
        } = self;
        client.leave()
    }
}
