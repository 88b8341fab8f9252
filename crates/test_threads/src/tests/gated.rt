//! A store that asks a gate around its calls, for tests of schedules.
//!
//! What threads meet depends on how their steps fall, and a test that only starts threads sees few of the ways. A gate
//! is told of each step of a store before it and after it, and of the seat that makes it. It may let the step go on at
//! once, count it, or hold the seat's thread until another one has done what the test is about.
//!
//! The steps are the calls that change what is claimed, or that place a node. To open the store and to show a node is
//! not asked for: nobody else has the store yet, and a reader changes nothing but a count.
//!
//! All that clauses say of a gated store they say of the store in it, whose ghost members it hands on.
ghost use Rattle.std.specs.Prelude.{◌≡◌, IfOk, map};

use chunk_slots::{Busy, Shown, Slots, Store, StoreStop};
use group_history::{Means, Node, Ref, Refusal};
use head_word::{Head, Mark};
use reader_claims::Kind;
use std::alloc::{AllocError, Global};

/// A call of a store around which a gate is asked.
#[derive(Clone, Copy, PartialEq, Eq)]
pub enum StoreCall {
    Place,
    TakeSlot,
    Settle,
    Withdraw,
    Raise,
    Retire,
    Pin,
    Unpin,
}

/// A gate: what a test does around each step of a store. The seats are numbered from 0 on, in the order in which `open`
/// deals them. It is asked by the threads that make the steps, so several of them may be in it at once. A call says
/// nothing of waiting, so a gate that waits has the means for that in itself.
pub trait Steps: Sync {
    fn before(&self, seat: usize, step: StoreCall);

    fn after(&self, seat: usize, step: StoreCall);
}

/// A store, and the gate that is asked around its steps. It is made of the store's own parts and the gate.
#[derive(Drop)]
pub struct Gated<S, H> {
    store: S,
    gate: H,
}

/// A seat of a gated store: the store's own one, and the number by which the gate knows it.
#[derive(Drop)]
pub struct GatedSeat<T> {
    seat: T,
    number: usize,
}

// Numbers the seats in their order.
fn number_all<T: Drop>(alloc: Global, seats: Vec<T>) -> Result<Vec<GatedSeat<T>>, AllocError>
    ensures { IfOk result (λ all. map (λ numbered. numbered.seat) all.items ≡ seats.items) }
{
    let mut all = Vec::with_capacity(alloc, seats.len())?;
    for seat in seats {
        let number = all.len();
        all.push(GatedSeat { seat, number })?;
    }
    Ok(all)
}

impl<M: Means, S: Slots<M>, H: Steps> Slots<M> for Gated<S, H> {
    type Seat = GatedSeat<S::Seat>;

    ghost book = { λ gated. S.book gated.store };

    ghost serves = { λ gated. S.serves gated.store };

    ghost home = { λ numbered. S.home numbered.seat };

    ghost reused = { S.reused };

    ghost view = { λ numbered. S.view numbered.seat };

    fn show(&self, slot: u32, stamp: u64, tries: u32) -> Result<Shown<'_, M>, StoreStop> {
        self.store.show(slot, stamp, tries)
    }

    fn settle(&self, seat: &mut GatedSeat<S::Seat>, slot: u32) {
        self.gate.before(seat.number, StoreCall::Settle);
        self.store.settle(&mut seat.seat, slot);
        self.gate.after(seat.number, StoreCall::Settle);
    }

    fn withdraw(&self, seat: &mut GatedSeat<S::Seat>, slot: u32) {
        self.gate.before(seat.number, StoreCall::Withdraw);
        self.store.withdraw(&mut seat.seat, slot);
        self.gate.after(seat.number, StoreCall::Withdraw);
    }

    fn raise(&self, seat: &mut GatedSeat<S::Seat>) -> Option<u64> {
        self.gate.before(seat.number, StoreCall::Raise);
        let raised = self.store.raise(&mut seat.seat);
        self.gate.after(seat.number, StoreCall::Raise);
        raised
    }

    fn retire(&self, seat: &mut GatedSeat<S::Seat>, slot: u32, r: u64) {
        self.gate.before(seat.number, StoreCall::Retire);
        self.store.retire(&mut seat.seat, slot, r);
        self.gate.after(seat.number, StoreCall::Retire);
    }

    fn pin(&self, seat: &mut GatedSeat<S::Seat>, tries: u32) -> Result<(), Busy> {
        self.gate.before(seat.number, StoreCall::Pin);
        let pinned = self.store.pin(&mut seat.seat, tries);
        self.gate.after(seat.number, StoreCall::Pin);
        pinned
    }

    fn unpin(&self, seat: &mut GatedSeat<S::Seat>) {
        self.gate.before(seat.number, StoreCall::Unpin);
        self.store.unpin(&mut seat.seat);
        self.gate.after(seat.number, StoreCall::Unpin);
    }
}

impl<M: Means, S: Store<M> + Drop, H: Steps + Drop> Store<M> for Gated<S, H> {
    type Parts = (S::Parts, H);

    fn open(
        alloc: Global,
        parts: (S::Parts, H),
        slots: u32,
        seats: u32,
    ) -> Result<(Self, Vec<GatedSeat<S::Seat>>, Head<M>, Vec<Mark<M>>), Refusal> {
        let (parts, gate) = parts;
        let (store, dealt, head, marks) = S::open(alloc, parts, slots, seats)?;
        let numbered = number_all(alloc, dealt)?;
        Ok((Gated { store, gate }, numbered, head, marks))
    }

    fn place(
        &self,
        seat: &mut GatedSeat<S::Seat>,
        mark: &Mark<M>,
        slot: u32,
        stamp: u64,
        node: Node<Ref>,
        tries: u32,
    ) -> Result<u32, Refusal> {
        self.gate.before(seat.number, StoreCall::Place);
        let placed = self
            .store
            .place(&mut seat.seat, mark, slot, stamp, node, tries);
        self.gate.after(seat.number, StoreCall::Place);
        placed
    }

    fn begin_at(&self, seat: &mut GatedSeat<S::Seat>, slot: u32) {
        self.store.begin_at(&mut seat.seat, slot);
    }

    fn take_slot(&self, seat: &mut GatedSeat<S::Seat>, kind: Kind) -> Option<u32> {
        self.gate.before(seat.number, StoreCall::TakeSlot);
        let taken = self.store.take_slot(&mut seat.seat, kind);
        self.gate.after(seat.number, StoreCall::TakeSlot);
        taken
    }
}
