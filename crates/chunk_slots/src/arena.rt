//! A store whose slots are used again: counted slots, given by the claims table. They lie in blocks, which are made
//! when they are first used.
use crate::arena_seat::ArenaSeat;
use crate::blocks::Blocks;
use crate::counted::{look, put};
use crate::dealt::Dealt;
use crate::missed::{Busy, StoreStop};
use crate::opening::{first, placed_leaf, placed_snapshot};
use crate::placed::Placed;
use crate::shown::Shown;
use crate::store::{Slots, Store};
use group_history::{Means, Node, Ref, Refusal};
use head_word::{Head, Mark};
use reader_claims::{Claims, Kind, SlotCounts};
use std::alloc::Global;
use std::marker::Model;

/// The slots of a group, as many as it was opened with, and which of them are claimed. A retired slot is used again
/// once no older pin is held. An opening keeps 8 bytes a slot, for the claims. The slots themselves, of 72 bytes, are
/// made in blocks of 1,024, when a node is first placed in a block; so `place` takes memory until all blocks are there.
/// A block stays as long as the arena, as a vector keeps its capacity, also where the call that made it is refused.
#[derive(Drop)]
pub struct Arena<M: Means> {
    pub(crate) claims: Claims,
    slots: Blocks<M>,
}

impl<M: Means> Model for Arena<M> {
    ghost use Rattle.chunk_slots.specs.Arenas.{ArenaId};
    ghost use Rattle.chunk_slots.specs.Inside.Places.{HasPlaces};

    ghost Value = { ArenaId };

    ghost view = { λ a. record { claims = a.claims; book = a.slots.book } };

    ghost invariant = { λ a. HasPlaces a.claims a.slots };
}

impl<M: Means> Arena<M> {
    ghost use Rattle.std.specs.Prelude.{◌≡◌, ℕ, ◌⊎◌, ◌-◌, ◌<◌, ◌≤◌, IfOk, IfErr};
    ghost use Rattle.group_history.specs.Refs.{max_slots};
    ghost use Rattle.reader_claims.specs.Counts.{Counts, Found, HasOldest, OnlyLooks, all_slots};
    ghost use Rattle.reader_claims.specs.Machine.{Moves};
    ghost use Rattle.reader_claims.specs.Seats.{first_reserved};
    ghost use Rattle.group_history.specs.declared.refs.Ref.{Ref as Reference};
    ghost use Rattle.group_history.specs.declared.refusals.Refusal.TheVariants as refusal;
    ghost use Rattle.head_word.specs.Books.{book_opening};
    ghost use Rattle.chunk_slots.specs.Contents.{IsContent};
    ghost use Rattle.chunk_slots.specs.declared.missed.StoreStop.TheVariants as missed;

    /// How many slots are in each state, and how many seats are pinned, as the claims table counts them:
    /// each word was so at some time in the call. The seat notes what it found, and nothing else is changed.
    pub fn count(&self, seat: &mut ArenaSeat) -> SlotCounts
        requires { seat.old.table ≡ self.now.claims }
        ensures table { seat.new.table ≡ seat.old.table }
        ensures moves { Moves seat.old.view seat.new.view }
        ensures looks { OnlyLooks seat.old.view seat.new.view }
        ensures counts { Counts (Found seat.old.view seat.new.view) self.now.claims.sizes result }
        ensures all { all_slots result ≡ self.now.claims.sizes.slots }
        ensures ordinary { result.ordinary_free ≤ first_reserved self.now.claims.sizes }
        ensures reserved { result.reserved_free ≤ self.now.claims.sizes.slots - first_reserved self.now.claims.sizes }
        ensures pins { result.pinned_seats ≤ self.now.claims.sizes.readers }
        ensures oldest { HasOldest result }
    {
        seat.count(&self.claims)
    }

    // An arena without a node yet, over the slots that the table is for.
    pub(crate) fn new(
        alloc: Global,
        claims: Claims,
        slots: u32,
        mark: &Mark<M>,
    ) -> Result<Arena<M>, Refusal>
        requires slots { (claims.sizes.slots ≡ slots) × (slots ≤ max_slots) }
        ensures claims { IfOk result (λ arena. arena.claims ≡ claims) }
        ensures book { IfOk result (λ arena. arena.book ≡ mark.now.book) }
        ensures err { IfErr result (λ e. e ≡ refusal.NoMemory) }
    {
        let slots = Blocks::new(alloc, slots, mark)?;
        Ok(Arena { claims, slots })
    }

    // Places the opening's nodes in the two slots.
    pub(crate) fn fill_opening(
        &self,
        alloc: Global,
        mark: &Mark<M>,
        leaf: u32,
        commit: u32,
    ) -> Result<(), Refusal>
        requires book { mark.now.book ≡ self.now.book }
        requires slots { self.now.claims.sizes.slots ≤ max_slots }
        requires both { (leaf < self.now.claims.sizes.slots) × (commit < self.now.claims.sizes.slots) }
        requires log { (seats : ℕ) × (at : Reference) × (mark.now.log ≡ book_opening seats at) }
        ensures { IfErr result (λ e. (e ≡ refusal.NoMemory) ⊎ (e ≡ refusal.Busy)) }
    {
        let lower = placed_leaf(alloc, mark)?;
        self.fill(leaf, lower, 1)?;
        let upper = placed_snapshot(alloc, leaf, mark)?;
        self.fill(commit, upper, 1)?;
        Ok(())
    }

    fn find(&self, slot: u32, stamp: u64, tries: u32) -> Result<Shown<'_, M>, StoreStop>
        ensures book { IfOk result (λ shown. shown.mark.book ≡ self.now.book) }
        ensures content { IfOk result (λ shown. IsContent shown.mark.log stamp shown.node) }
        ensures stamp { IfOk result (λ shown. shown.stamp ≡ stamp) }
    {
        let Some(slot) = self.slots.get(slot) else {
            return Err(StoreStop::Gone);
        };
        // One look in the text, so that this is short enough to stand in its callers.
        for _ in 0..tries.max(1) {
            match look(slot, stamp) {
                Err(StoreStop::Busy) => {}
                found => return found,
            }
        }
        Err(StoreStop::Busy)
    }

    #[inline(always)]
    fn fill(&self, slot: u32, placed: Placed<M>, tries: u32) -> Result<u32, Refusal>
        requires slot { slot < self.now.claims.sizes.slots }
        requires book { placed.mark.book ≡ self.now.book }
        ensures slot { IfOk result (λ at. (at < max_slots) × (at ≡ slot)) }
        ensures err { IfErr result (λ e. (e ≡ refusal.NoMemory) ⊎ (e ≡ refusal.Busy)) }
    {
        let here = self.slots.get_made(slot, tries)?;
        let mut placed = placed;
        for _ in 0..tries.max(1) {
            match put(here, placed) {
                Ok(()) => return Ok(slot),
                Err(back) => placed = back,
            }
        }
        Err(Refusal::Busy)
    }
}

impl<M: Means> Slots<M> for Arena<M> {
    ghost use Rattle.std.specs.Prelude.{⊤};

    type Seat = ArenaSeat;

    ghost book = { λ a. a.book };

    ghost serves = { λ a. a.claims };

    ghost home = { λ seat. seat.table };

    ghost reused = { ⊤ };

    ghost view = { λ seat. seat.view };

    fn show(&self, slot: u32, stamp: u64, tries: u32) -> Result<Shown<'_, M>, StoreStop> {
        self.find(slot, stamp, tries)
    }

    fn settle(&self, seat: &mut ArenaSeat, slot: u32) {
        seat.settle(&self.claims, slot);
    }

    fn withdraw(&self, seat: &mut ArenaSeat, slot: u32) {
        seat.withdraw(&self.claims, slot);
    }

    fn raise(&self, seat: &mut ArenaSeat) -> Option<u64> {
        seat.raise(&self.claims)
    }

    fn retire(&self, seat: &mut ArenaSeat, slot: u32, r: u64) {
        if slot < self.slots.count() {
            seat.retire(&self.claims, slot, r);
        }
    }

    fn pin(&self, seat: &mut ArenaSeat, tries: u32) -> Result<(), Busy> {
        seat.pin(&self.claims, tries)
    }

    fn unpin(&self, seat: &mut ArenaSeat) {
        seat.unpin(&self.claims);
    }
}

impl<M: Means> Store<M> for Arena<M> {
    type Parts = ();

    fn open(
        alloc: Global,
        _parts: (),
        slots: u32,
        seats: u32,
    ) -> Result<(Self, Vec<ArenaSeat>, Head<M>, Vec<Mark<M>>), Refusal> {
        let dealt = Dealt::new(alloc, slots, seats)?;
        let (head, marks) = Head::open(alloc, seats, dealt.commit)?;
        let (arena, seats) = dealt.into_arena(alloc, slots, first(&marks))?;
        Ok((arena, seats, head, marks))
    }

    fn place(
        &self,
        seat: &mut ArenaSeat,
        mark: &Mark<M>,
        slot: u32,
        stamp: u64,
        node: Node<Ref>,
        tries: u32,
    ) -> Result<u32, Refusal> {
        seat.within(slot);
        self.fill(slot, Placed::new(stamp, node, mark), tries)
    }

    fn begin_at(&self, seat: &mut ArenaSeat, slot: u32) {
        seat.begin_at(slot);
    }

    fn take_slot(&self, seat: &mut ArenaSeat, kind: Kind) -> Option<u32> {
        seat.take(&self.claims, kind)
    }
}
