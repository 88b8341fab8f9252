//! The nodes of a store, as one mark knows them.
//!
//! Beside each node of a store lies what a mark of the same book has seen, and of two marks of one book one
//! knows a beginning of what the other knows. So what is shown of a stamp that the reader's own mark knows
//! is the content that this mark knows. A reader therefore needs its mark only to look at: nothing that it
//! is shown adds to what it knows, and it can be copied.
ghost use Rattle.std.specs.Prelude.{◌≡◌, true, false, IfOk, IfErr, IsSome, slice_get};
ghost use Rattle.std.specs.Coded.{Unit-prop};
ghost use Rattle.group_history.specs.declared.mutators.Stop.TheVariants.{Gone};
ghost use Rattle.head_word.specs.Books.{drawn};
ghost use Rattle.chunk_slots.specs.Contents.{IsContent};
ghost use Rattle.commit_graph.specs.Seats.{IsReading, is_held};
ghost use Rattle.commit_graph.specs.Stores.{IsStoreStop};
ghost use Rattle.commit_graph.specs.Inside.Kinds.{is_chunk, chunk_of, commit_of};

use crate::nodes::{Nodes, ShowsCommit};
use crate::seats::{ClientSeat, Shared};
use chunk_slots::{Shown, Slots};
use group_history::{Chunk, Commit, Means, Node, Ref, Stop};
use head_word::{Mark, one_record};
use map_chunks::{Chunks, ShowsChunk};
use std::alloc::AllocError;

/// Shows the nodes of a store that a mark knows. What is known doesn't grow while it reads. Where slots are used
/// again, a seat's pin is held all the while.
pub struct StoreNodes<'a, M: Means, S: Slots<M>> {
    shared: &'a Shared<M, S>,
    pinned: &'a S::Seat,
    mark: &'a Mark<M>,
    tries: u32,
    ghost same: { mark.now.book ≡ shared.now.book },
    ghost home: { S.home pinned.now ≡ shared.now.table },
    ghost held: { S.reused → is_held (S.view pinned.now).pin ≡ true },
}

impl<'a, M: Means, S: Slots<M>> Clone for StoreNodes<'a, M, S> {
    ghost use Rattle.std.specs.Prelude.{◌≡◌};

    ghost is_clone = { λ x y. y ≡ x };

    ghost is_infallible = { λ _. Unit {0} };

    fn clone(&self) -> Result<StoreNodes<'a, M, S>, AllocError> {
        Ok(*self)
    }
}

impl<'a, M: Means, S: Slots<M>> Copy for StoreNodes<'a, M, S> {}

/// A chunk that a store shows.
pub struct HeldChunk<'a, M: Means> {
    shown: Shown<'a, M>,
    ghost kind: { is_chunk shown.node ≡ true },
}

/// A commit that a store shows.
pub struct HeldCommit<'a, M: Means> {
    shown: Shown<'a, M>,
    ghost kind: { is_chunk shown.node ≡ false },
}

impl<'a, M: Means> ShowsChunk for HeldChunk<'a, M> {
    ghost shown = { λ held. chunk_of held.shown.node };

    fn chunk(&self) -> &Chunk<Ref> {
        match self.shown.value() {
            Node::Chunk(chunk) => chunk,
            Node::Commit(_) => unreachable!(),
        }
    }
}

impl<'a, M: Means> ShowsCommit for HeldCommit<'a, M> {
    ghost shown = { λ held. commit_of held.shown.node };

    fn commit(&self) -> &Commit<Ref> {
        match self.shown.value() {
            Node::Commit(commit) => commit.as_commit(),
            Node::Chunk(_) => unreachable!(),
        }
    }
}

fn is_chunk<M: Means>(shown: &Shown<'_, M>) -> bool
    ensures { result ≡ is_chunk shown.now.node }
{
    match shown.value() {
        Node::Chunk(_) => true,
        Node::Commit(_) => false,
    }
}

// A commit is given back.
fn hold_chunk<'a, M: Means>(shown: Shown<'a, M>) -> Result<HeldChunk<'a, M>, Stop>
    ensures held { IfOk result (λ held. held.shown ≡ shown.entry) }
    ensures gone { IfErr result (λ stop. (stop ≡ Gone) × (is_chunk shown.entry.node ≡ false)) }
{
    if is_chunk(&shown) {
        Ok(HeldChunk { shown })
    } else {
        shown.leave();
        Err(Stop::Gone)
    }
}

// A chunk is given back.
fn hold_commit<'a, M: Means>(shown: Shown<'a, M>) -> Result<HeldCommit<'a, M>, Stop>
    ensures held { IfOk result (λ held. held.shown ≡ shown.entry) }
    ensures gone { IfErr result (λ stop. (stop ≡ Gone) × (is_chunk shown.entry.node ≡ true)) }
{
    if is_chunk(&shown) {
        shown.leave();
        Err(Stop::Gone)
    } else {
        Ok(HeldCommit { shown })
    }
}

// What is shown of a stamp that a mark of the same book knows is what the mark knows there.
fn agrees<M: Means>(mark: &Mark<M>, shown: &Shown<'_, M>)
    requires { shown.now.mark.book ≡ mark.now.book }
    ensures { IsSome (slice_get (drawn mark.now.log) shown.now.stamp)
        → IsContent mark.now.log shown.now.stamp shown.now.node }
{
    let _ = shown.value();
    one_record(mark, shown.mark());
}

impl<'a, M: Means, S: Slots<M>> StoreNodes<'a, M, S> {
    /// The nodes that the mark knows, read while the seat's pin is held. Where slots are used again, a slot that is
    /// lost to other clients is tried for so many times.
    pub fn new(
        shared: &'a Shared<M, S>,
        seat: &'a ClientSeat<M, S>,
        mark: &'a Mark<M>,
        tries: u32,
    ) -> StoreNodes<'a, M, S>
        requires reading { IsReading S.reused shared.now seat.now }
        requires book { mark.now.book ≡ shared.now.book }
        ensures { ⟦<StoreNodes<'a, M, S> as Chunks>⟧.contents result ≡ drawn mark.now.log }
    {
        StoreNodes {
            shared,
            pinned: &seat.slots,
            mark,
            tries,
        }
    }
}

impl<'a, M: Means, S: Slots<M>> Chunks for StoreNodes<'a, M, S> {
    type Held = HeldChunk<'a, M>;

    ghost contents = { λ nodes. drawn nodes.mark.now.log };

    ghost places = { λ nodes at. Unit {0} };

    ghost places_prop = { λ _ at. Unit-prop };

    ghost stops = { IsStoreStop S.reused };

    #[inline(always)]
    fn show(&mut self, at: Ref) -> Result<HeldChunk<'a, M>, Stop> {
        let shared = self.shared;
        let shown = shared.store.show(at.slot(), at.stamp(), self.tries)?;
        agrees(self.mark, &shown);
        hold_chunk(shown)
    }

    fn leave(&mut self, held: HeldChunk<'a, M>) {
        let HeldChunk { shown } = held;
        shown.leave();
    }
}

impl<'a, M: Means, S: Slots<M>> Nodes for StoreNodes<'a, M, S> {
    type HeldCommit = HeldCommit<'a, M>;

    #[inline(always)]
    fn show_commit(&mut self, at: Ref) -> Result<HeldCommit<'a, M>, Stop> {
        let shared = self.shared;
        let shown = shared.store.show(at.slot(), at.stamp(), self.tries)?;
        agrees(self.mark, &shown);
        hold_commit(shown)
    }

    fn leave_commit(&mut self, held: HeldCommit<'a, M>) {
        let HeldCommit { shown } = held;
        shown.leave();
    }
}
