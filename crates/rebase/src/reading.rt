//! One commit, read as often as its reader likes.
ghost use Rattle.std.specs.Prelude.{◌≡◌, ◌⊎◌, Some, IfOk, IfErr, OnErr, OnOk};
ghost use mathlib.Core.List.{IsPrefix};
ghost use Rattle.group_history.specs.declared.refusals.Refusal.TheVariants.{Gone};
ghost use Rattle.group_history.specs.Queries.{get_at, has_at, view_rows, is_empty_at};
ghost use Rattle.group_history.specs.Record.{after};
ghost use Rattle.group_history.specs.Refs.{stamp_of};
ghost use Rattle.group_history.specs.Spelling.{Spells, map_at, version_of};
ghost use Rattle.group_history.specs.State.{view_of};
ghost use Rattle.head_word.specs.Books.{drawn, last_move, record_of};
ghost use Rattle.head_word.specs.Laws.{moment};
ghost use Rattle.head_word.specs.Marks.{known};
ghost use Rattle.map_chunks.specs.Sinks.{HasMore, HasBegun};
ghost use Rattle.commit_graph.specs.Seats.{IsReading};
ghost use Rattle.change_tries.specs.Missing.{IsStoreRefusal, IsStoreOrMemory};
ghost use Rattle.transactions.specs.Reads.{pulled_version};
ghost use Rattle.rebase.specs.Clients.{AfterQuery};
ghost use Rattle.rebase.specs.Inside.Watching.{CoversView, IsFoundAgain};

use crate::client::Client;
use change_tries::SharedGroup;
use chunk_slots::Slots;
use commit_graph::{ClientSeat, Shared, StoreNodes};
use group_history::{Cookie, Json, Means, Mutation, Ref, Refusal, Scan, Text};
use head_word::{Mark, one_record};
use map_chunks::covers::Cover;
use std::alloc::Global;
use std::marker::Model;
use transactions::{ReadTx as CommitTx, Rescanned, Spans, TakesRows};

/// A commit, the root of its map, and a mark by which its state is that of the mark's record.
#[derive(Drop)]
pub(crate) struct Point<M: Means> {
    mark: Mark<M>,
    head: Ref,
    root: Ref,
}

impl<M: Means> Model for Point<M> {
    ghost use Rattle.std.specs.Prelude.{◌≡◌, Some};
    ghost use Rattle.std.specs.Coded.{codes};
    ghost use Rattle.group_history.specs.Record.{after};
    ghost use Rattle.group_history.specs.Refs.{stamp_of};
    ghost use Rattle.group_history.specs.Spelling.{Spells, map_at};
    ghost use Rattle.group_history.specs.State.{view_of};
    ghost use Rattle.head_word.specs.Books.{record_of, drawn, last_move};
    ghost use Rattle.head_word.specs.Marks.{Known};
    ghost use Rattle.head_word.specs.contracts.entry.Entry as entry;

    ghost Value = { Known };

    ghost coded = { Prim.hlevel (codes, entry.the_row.coded) };

    ghost view = { λ p. p.mark };

    ghost invariant = { λ p. Spells M.means (drawn p.mark.log) (stamp_of p.head) (after (record_of p.mark.log))
        × (map_at (drawn p.mark.log) (stamp_of p.root) ≡ Some (view_of M.means (after (record_of p.mark.log))))
        × (p.head ≡ last_move p.mark.log) };
}

impl<M: Means> Point<M> {
    pub(crate) fn new(mark: &Mark<M>, head: Ref, root: Ref) -> Point<M>
        requires head { Spells M.means (drawn mark.now.log) (stamp_of head) (after (record_of mark.now.log)) }
        requires root { map_at (drawn mark.now.log) (stamp_of root)
            ≡ Some (view_of M.means (after (record_of mark.now.log))) }
        requires last { head ≡ last_move mark.now.log }
        ensures { result ≡ known mark.now.book mark.now.log None }
    {
        Point {
            mark: mark.copy(),
            head,
            root,
        }
    }

    // The commit itself, where the head was.
    pub(crate) fn head(&self) -> Ref
        ensures last { result ≡ last_move self.now.log }
        ensures spelled { Spells M.means (drawn self.now.log) (stamp_of result) (after (record_of self.now.log)) }
    {
        self.head
    }

    // The root of the map there.
    pub(crate) fn root(&self) -> Ref
        ensures { map_at (drawn self.now.log) (stamp_of result)
            ≡ Some (view_of M.means (after (record_of self.now.log))) }
    {
        self.root
    }

    // What has been seen there.
    pub(crate) fn mark(&self) -> Mark<M>
        ensures { result ≡ known self.now.book self.now.log None }
    {
        self.mark.copy()
    }

    // What has been seen there, and what the mark has seen.
    fn mark_with<S: Slots<M>>(&self, shared: &Shared<M, S>, other: &Mark<M>) -> Mark<M>
        requires book { self.now.book ≡ shared.now.book }
        requires other { other.now.book ≡ shared.now.book }
        ensures book { result.book ≡ self.now.book }
        ensures own { IsPrefix self.now.log result.log }
        ensures other { IsPrefix other.now.log result.log }
    {
        let mut mark = self.mark();
        shared.head.learn(&mut mark, other);
        mark
    }

    // Of what has been seen there and what the mark has seen one begins the other.
    pub(crate) fn begins_or_follows(&self, mark: &Mark<M>)
        requires { mark.now.book ≡ self.now.book }
        ensures { IsPrefix mark.now.log self.now.log ⊎ IsPrefix self.now.log mark.now.log }
    {
        one_record(mark, &self.mark);
    }

    // Its commit, to be read while the seat's pin is held.
    pub(crate) fn open<'a, S: Slots<M>>(
        &'a self,
        shared: &'a Shared<M, S>,
        seat: &'a ClientSeat<M, S>,
        tries: u32,
    ) -> CommitTx<StoreNodes<'a, M, S>>
        requires reading { IsReading S.reused shared.now seat.now }
        requires book { self.now.book ≡ shared.now.book }
        ensures version { result.version ≡ version_of M.means (after (record_of self.now.log)) }
        ensures contents { result.contents ≡ drawn self.now.log }
    {
        let nodes = StoreNodes::new(shared, seat, &self.mark, tries);
        CommitTx::at(shared.alloc, nodes, self.head, self.root)
    }
}

/// Reads one commit: every answer is that of the point at which it was opened (Replicache, `ReadTransaction`). Its
/// client's seat is pinned until it is closed or dropped, and the slots that the commit reaches are kept so long.
///
/// A query is refused with `Gone`, over slots that are used again with `Busy`, and where it takes memory with
/// `NoMemory`. A refused one leaves the reader as it was.
pub struct ReadTx<'a, M: Means, S: Slots<M>> {
    client: &'a mut Client<M, S>,
    at: Point<M>,
    tries: u32,
    ghost book: { at.book ≡ client.now.seat.mark.book },
}

impl<'a, M: Means, S: Slots<M>> ReadTx<'a, M, S> {
    ghost use Rattle.rebase.specs.Readers.{lent, read_by, seen_by};

    pub(crate) fn new(client: &'a mut Client<M, S>, at: Point<M>, tries: u32) -> ReadTx<'a, M, S>
        requires book { at.book ≡ client.old.seat.mark.book }
        ensures same_reference { (lent result).ghost_name ≡ client.entry.ghost_name }
        ensures client { (lent result).now ≡ client.old }
        ensures at { seen_by result ≡ at }
    {
        ReadTx { client, at, tries }
    }

    // Its point.
    pub(crate) fn point(&self) -> &Point<M>
        ensures { result.now ≡ seen_by self.now }
    {
        &self.at
    }

    // Where memory is taken from.
    pub(crate) fn alloc(&self) -> Global {
        let client = &*self.client;
        client.group.shared.alloc
    }

    /// Its commit, to be queried. Takes no memory. The client's pin is held as long as there is the reader; that is
    /// looked at, since no type can keep what holds behind a `&mut` until the reader is let go, and not a moment
    /// longer. It is never found missing; the refusal would be `Gone`.
    pub fn commit(&self) -> Result<CommitTx<StoreNodes<'_, M, S>>, Refusal>
        ensures version { IfOk result (λ tx. tx.version ≡ version_of M.means (read_by self.now)) }
        ensures contents { IfOk result (λ tx. tx.contents ≡ drawn (seen_by self.now).log) }
        ensures gone { IfErr result (λ e. e ≡ Gone) }
    {
        let client = &*self.client;
        if !client.pinned {
            return Err(Refusal::Gone);
        }
        let group: &SharedGroup<M, S> = &client.group;
        Ok(self.at.open(&group.shared, &client.seat, self.tries))
    }

    /// The value at a key of the view; none where the key is not there.
    pub fn get(&self, key: &str) -> Result<Option<Json>, Refusal>
        ensures value { IfOk result (λ found. found
            ≡ get_at M.means (read_by self.now) key.now) }
        ensures err { IfErr result (IsStoreOrMemory S.reused) }
    {
        let mut tx = self.commit()?;
        Ok(tx.get(key)?)
    }

    /// Whether the view has the key. Takes no memory.
    pub fn has(&self, key: &str) -> Result<bool, Refusal>
        ensures value { IfOk result (λ found. found
            ≡ has_at M.means (read_by self.now) key.now) }
        ensures missed { IfErr result (IsStoreRefusal S.reused) }
    {
        let mut tx = self.commit()?;
        Ok(tx.has(key)?)
    }

    /// The pairs of the view that the scan asks for, in the order of their keys.
    pub fn scan(&self, scan: &Scan) -> Result<Vec<(Text, Json)>, Refusal>
        ensures rows { IfOk result (λ rows. rows.items
            ≡ view_rows M.means (read_by self.now) scan.now) }
        ensures err { IfErr result (IsStoreOrMemory S.reused) }
    {
        let mut tx = self.commit()?;
        Ok(tx.scan(scan)?)
    }

    /// Gives the pairs that the scan asks for to the sink, in the order of their keys, each by reference. After an
    /// `Err` the sink may have some of them, the first ones.
    pub fn scan_into<T: TakesRows>(&self, scan: &Scan, sink: &mut T) -> Result<(), Refusal>
        ensures rows { OnOk result (HasMore T.has sink.old sink.new
            (view_rows M.means (read_by self.now) scan.now)) }
        ensures begun { OnErr result (HasBegun T.has sink.old sink.new
            (view_rows M.means (read_by self.now) scan.now)) }
        ensures err { IfErr result (IsStoreOrMemory S.reused) }
    {
        let mut tx = self.commit()?;
        Ok(tx.scan_into(scan, sink)?)
    }

    // The chunks in which the rows lie that the scan asks for, its limit aside.
    pub(crate) fn cover(&self, scan: &Scan) -> Result<Cover, Refusal>
        ensures cover { IfOk result (λ cover. CoversView M.means (seen_by self.now).log scan.now cover) }
        ensures err { IfErr result (IsStoreOrMemory S.reused) }
    {
        let mut tx = self.commit()?;
        Ok(tx.cover(scan)?)
    }

    // The rows that the scan asks for beside those of before, of which these spans are known.
    pub(crate) fn scan_again(
        &self,
        scan: &Scan,
        before: &[(Text, Json)],
        known: &Spans,
    ) -> Result<Rescanned, Refusal>
        ensures found { IfOk result (IsFoundAgain M.means (seen_by self.now).log scan.now before.now known.now) }
        ensures err { IfErr result (IsStoreOrMemory S.reused) }
    {
        let mut tx = self.commit()?;
        Ok(tx.scan_again(scan, before, known)?)
    }

    // What has been seen there, and what the mark has seen.
    pub(crate) fn mark_with(&self, other: &Mark<M>) -> Mark<M>
        requires { other.now.book ≡ (seen_by self.now).book }
        ensures book { result.book ≡ other.now.book }
        ensures own { IsPrefix (seen_by self.now).log result.log }
        ensures other { IsPrefix other.now.log result.log }
    {
        let client = &*self.client;
        let group: &SharedGroup<M, S> = &client.group;
        self.at.mark_with(&group.shared, other)
    }

    /// Whether the view has no key. Takes no memory.
    pub fn is_empty(&self) -> Result<bool, Refusal>
        ensures value { IfOk result (λ empty. empty
            ≡ is_empty_at M.means (read_by self.now)) }
        ensures missed { IfErr result (IsStoreRefusal S.reused) }
    {
        let mut tx = self.commit()?;
        Ok(tx.is_empty()?)
    }

    /// The mutations of the group that are not confirmed, the oldest first.
    pub fn pending(&self) -> Result<Vec<Mutation>, Refusal>
        ensures pending { IfOk result (λ xs. xs.items ≡ (read_by self.now).pending) }
        ensures err { IfErr result (IsStoreOrMemory S.reused) }
    {
        let mut tx = self.commit()?;
        Ok(tx.pending()?)
    }

    /// The cookie of the last pull that was applied; null before the first.
    pub fn cookie(&self) -> Result<Cookie, Refusal>
        ensures cookie { IfOk result (λ cookie. cookie ≡ (read_by self.now).cookie) }
        ensures err { IfErr result (IsStoreOrMemory S.reused) }
    {
        let mut tx = self.commit()?;
        Ok(tx.cookie()?)
    }

    /// Whether the group is closed. Takes no memory.
    pub fn closed(&self) -> Result<bool, Refusal>
        ensures closed { IfOk result (λ closed. closed ≡ (read_by self.now).closed) }
        ensures missed { IfErr result (IsStoreRefusal S.reused) }
    {
        let mut tx = self.commit()?;
        Ok(tx.closed()?)
    }

    /// The commit without what is pending: its queries answer what the server last sent (Replicache, How It Works, "The
    /// Client View"). Two looks. Takes no memory.
    pub fn pulled(&self) -> Result<CommitTx<StoreNodes<'_, M, S>>, Refusal>
        ensures version { IfOk result (λ tx. tx.version
            ≡ pulled_version (version_of M.means (read_by self.now))) }
        ensures contents { IfOk result (λ tx. IsPrefix (drawn (seen_by self.now).log) tx.contents) }
        ensures missed { IfErr result (IsStoreRefusal S.reused) }
    {
        let tx = self.commit()?;
        Ok(tx.pulled()?)
    }

    /// The moment at which it reads, as `Client::moment` counts them. Takes no memory.
    pub fn moment(&self) -> u64
        ensures { result ≡ moment (seen_by self.now).log }
    {
        let head = self.at.head();
        head.stamp()
    }

    /// Ends the reading, and takes the pin away, as dropping the reader does. Takes no memory.
    pub fn close(self)
        ensures stays { AfterQuery S.reused (lent self.entry).now self.exit.0.now }
        ensures mark { self.exit.0.now.seat.mark ≡ (lent self.entry).now.seat.mark }
    {
        let ReadTx {
            client,
            at: _,
            tries: _,
        } = self;
        client.unpin();
    }
}

impl<M: Means, S: Slots<M>> Drop for ReadTx<'_, M, S> {
    ghost use Rattle.rebase.specs.Readers.{lent};

    fn drop(self)
        ensures stays { AfterQuery S.reused (lent self.entry).now self.exit.0.now }
        ensures mark { self.exit.0.now.seat.mark ≡ (lent self.entry).now.seat.mark }
    {
        let ReadTx {
            client,
            at: _,
            tries: _,
        } = self;
        client.pinned = false;
        let group: &SharedGroup<M, S> = &client.group;
        let seat = &mut client.seat;
        group.shared.store.unpin(&mut seat.slots);
    }
}
