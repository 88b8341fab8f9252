//! The seat of an arena. It steps on the claims table alone.
ghost use Rattle.std.specs.Prelude.{◌≡◌, ◌≢◌, [], ◌∷◌, ℕ, length, IfOk, IfErr, ◌-◌, ◌<◌, ◌≤◌, true, false, IfSome};
ghost use Rattle.std.specs.Prelude.{IfNone, MatchOption, MatchResult};
ghost use Rattle.std.specs.List.{All};
ghost use Rattle.group_history.specs.declared.refusals.Refusal.TheVariants.{NoMemory};
ghost use Rattle.reader_claims.specs.Counts.{Counts, Found, HasOldest, OnlyLooks, all_slots};
ghost use Rattle.reader_claims.specs.Lists.{In};
ghost use Rattle.reader_claims.specs.Machine.{Moves};
ghost use Rattle.reader_claims.specs.Passes as held;
ghost use Rattle.reader_claims.specs.Deeds as deed;
ghost use Rattle.reader_claims.specs.Passes.{Takes, Looks, Raises, FindsNone, KnowsNone, IsRetired, IsButRetired};
ghost use Rattle.reader_claims.specs.Seats.{AreSeats, IsNew, first_reserved, kind_end};
ghost use Rattle.reader_claims.specs.Views.{with_pin, with_settled, with_withdrawn};
ghost use Rattle.reader_claims.specs.declared.words.Pin.TheVariants.{Absent};
ghost use Rattle.chunk_slots.specs.Inside.Openings.{HasBoth};
ghost use Rattle.chunk_slots.specs.Seats.{IsPinned, IsOvertaken, IsRaised, IsAtEnd, MayRetire};

use crate::missed::Busy;
use group_history::Refusal;
use reader_claims::{ClaimSeat, Claims, Kind, Slot, SlotCounts};
use std::alloc::Global;
use std::marker::Model;

const LAST_EPOCH: u64 = 1 << 60;

/// A seat of an arena.
#[derive(Drop)]
pub struct ArenaSeat {
    seat: ClaimSeat,
}

impl Model for ArenaSeat {
    ghost use Rattle.reader_claims.specs.Seats.{Seated};
    ghost use Rattle.chunk_slots.specs.Inside.Places.{IsWithinTable};

    ghost Value = { Seated };

    ghost view = { λ s. s.seat };

    ghost invariant = { λ s. IsWithinTable s.seat };
}

/// The seats of a new arena.
pub(crate) fn seat_all(
    alloc: Global,
    claims: &Claims,
    dealt: Vec<ClaimSeat>,
) -> Result<Vec<ArenaSeat>, Refusal>
    requires { AreSeats claims.now (length dealt.items) dealt.items }
    ensures count { IfOk result (λ all. length all.items ≡ length dealt.items) }
    ensures seats { IfOk result (λ all. All (IsNew claims.now) all.items) }
    ensures err { IfErr result (λ e. e ≡ NoMemory) }
{
    let _ = claims;
    let mut left = dealt;
    let mut all = Vec::with_capacity(alloc, left.len())?;
    while let Some(seat) = left.pop() {
        all.push(ArenaSeat { seat })?;
    }
    Ok(all)
}

impl ArenaSeat {
    pub(crate) fn begin_at(&mut self, slot: u32)
        ensures { self.new ≡ self.old }
    {
        self.seat.begin_at(slot);
    }

    #[inline(always)]
    pub(crate) fn take(&mut self, claims: &Claims, kind: Kind) -> Option<u32>
        requires { self.old.table ≡ claims.now }
        ensures table { self.new.table ≡ self.old.table }
        ensures moves { Moves self.old.view self.new.view }
        ensures looks { Looks self.old.view self.new.view }
        ensures taken { MatchOption result
            (self.new.view.taken ≡ self.old.view.taken)
            (λ slot. (slot < kind_end self.old.table.sizes kind) × Takes self.old.view self.new.view slot) }
        ensures deeds { MatchOption result
            (self.new.view.deeds ≡ self.old.view.deeds)
            (λ slot. self.new.view.deeds ≡ deed.took slot ∷ self.old.view.deeds) }
        ensures within { IfSome result (λ slot. slot < self.old.table.sizes.slots) }
        ensures none { IfNone result
            (FindsNone self.old.view self.new.view (kind_end self.old.table.sizes kind)) }
        ensures reserve { IfSome result (λ slot. first_reserved self.old.table.sizes ≤ slot
            → ∥ KnowsNone self.old.view self.new.view (first_reserved self.old.table.sizes) ∥₁) }
    {
        match claims.take_slot(&mut self.seat, kind) {
            Some(slot) => Some(slot.number()),
            None => None,
        }
    }

    /// Takes the slots of the opening's nodes, the leaf's first.
    pub(crate) fn take_two(&mut self, claims: &Claims) -> Option<(u32, u32)>
        requires { IsNew claims.now self.old }
        ensures { IfSome result (λ both. HasBoth claims.now both.0 both.1 self.new) }
    {
        let leaf = self.take(claims, Kind::Ordinary)?;
        let commit = self.take(claims, Kind::Ordinary)?;
        Some((leaf, commit))
    }

    /// A taken slot is one of the table.
    pub(crate) fn within(&self, slot: u32)
        requires { In self.now.view.taken slot }
        ensures { slot < self.now.table.sizes.slots }
    {
        let _ = &self.seat;
        let _ = slot;
    }

    pub(crate) fn settle(&mut self, claims: &Claims, slot: u32)
        requires table { self.old.table ≡ claims.now }
        requires taken { In self.old.view.taken slot }
        ensures table { self.new.table ≡ self.old.table }
        ensures moves { Moves self.old.view self.new.view }
        ensures view { self.new.view ≡ with_settled self.old.view slot }
    {
        claims.settle(&mut self.seat, Slot::new(slot));
    }

    /// Settles two slots, which are all that it has.
    pub(crate) fn settle_both(&mut self, claims: &Claims, first: u32, second: u32)
        requires table { self.old.table ≡ claims.now }
        requires taken { self.old.view.taken ≡ second ∷ first ∷ [] }
        requires two { first ≢ second }
        ensures table { self.new.table ≡ self.old.table }
        ensures taken { self.new.view.taken ≡ [] }
        ensures pin { self.new.view.pin ≡ self.old.view.pin }
        ensures settled { self.new.view.settled ≡ second ∷ first ∷ self.old.view.settled }
        ensures deeds { self.new.view.deeds ≡ deed.settled second ∷ deed.settled first ∷ self.old.view.deeds }
    {
        self.settle(claims, first);
        self.settle(claims, second);
    }

    pub(crate) fn withdraw(&mut self, claims: &Claims, slot: u32)
        requires table { self.old.table ≡ claims.now }
        requires taken { In self.old.view.taken slot }
        ensures table { self.new.table ≡ self.old.table }
        ensures moves { Moves self.old.view self.new.view }
        ensures view { self.new.view ≡ with_withdrawn self.old.view slot }
    {
        claims.withdraw(&mut self.seat, Slot::new(slot));
    }

    pub(crate) fn raise(&mut self, claims: &Claims) -> Option<u64>
        requires { self.old.table ≡ claims.now }
        ensures table { self.new.table ≡ self.old.table }
        ensures moves { Moves self.old.view self.new.view }
        ensures kept { Raises self.old.view self.new.view }
        ensures raised { MatchOption result
            (IsAtEnd self.old.view self.new.view)
            (λ r. IsRaised self.old.view self.new.view r) }
    {
        let n = claims.epoch(&mut self.seat);
        if n >= LAST_EPOCH {
            return None;
        }
        claims.raise(&mut self.seat, n);
        Some(n + 1)
    }

    pub(crate) fn retire(&mut self, claims: &Claims, slot: u32, r: u64)
        requires table { self.old.table ≡ claims.now }
        requires slot { slot < claims.now.sizes.slots }
        requires raised { MayRetire self.old.view r }
        ensures table { self.new.table ≡ self.old.table }
        ensures moves { Moves self.old.view self.new.view }
        ensures retired { IsRetired self.old.view self.new.view slot r }
        ensures kept { IsButRetired self.old.view self.new.view }
    {
        claims.retire(&mut self.seat, Slot::new(slot), r);
    }

    // One try.
    fn try_pin(&mut self, claims: &Claims) -> bool
        requires { self.old.table ≡ claims.now }
        ensures table { self.new.table ≡ self.old.table }
        ensures moves { Moves self.old.view self.new.view }
        ensures pinned { result ≡ true → (e : ℕ) × held.IsPinnedAt self.old.view self.new.view e }
        ensures raised { result ≡ false → held.IsUnpinned self.old.view self.new.view }
    {
        claims.pin(&mut self.seat).is_ok()
    }

    pub(crate) fn pin(&mut self, claims: &Claims, tries: u32) -> Result<(), Busy>
        requires { self.old.table ≡ claims.now }
        ensures table { self.new.table ≡ self.old.table }
        ensures moves { Moves self.old.view self.new.view }
        ensures pin { MatchResult result
            (λ _. IsPinned self.old.view self.new.view tries)
            (λ _. IsOvertaken self.old.view self.new.view tries) }
    {
        for _ in 1..tries {
            if self.try_pin(claims) {
                return Ok(());
            }
        }
        if self.try_pin(claims) {
            Ok(())
        } else {
            Err(Busy)
        }
    }

    pub(crate) fn count(&mut self, claims: &Claims) -> SlotCounts
        requires { self.old.table ≡ claims.now }
        ensures table { self.new.table ≡ self.old.table }
        ensures moves { Moves self.old.view self.new.view }
        ensures looks { OnlyLooks self.old.view self.new.view }
        ensures counts { Counts (Found self.old.view self.new.view) claims.now.sizes result }
        ensures all { all_slots result ≡ claims.now.sizes.slots }
        ensures ordinary { result.ordinary_free ≤ first_reserved claims.now.sizes }
        ensures reserved { result.reserved_free ≤ claims.now.sizes.slots - first_reserved claims.now.sizes }
        ensures pins { result.pinned_seats ≤ claims.now.sizes.readers }
        ensures oldest { HasOldest result }
    {
        claims.count(&mut self.seat)
    }

    pub(crate) fn unpin(&mut self, claims: &Claims)
        requires { self.old.table ≡ claims.now }
        ensures table { self.new.table ≡ self.old.table }
        ensures moves { Moves self.old.view self.new.view }
        ensures view { self.new.view ≡ with_pin self.old.view Absent }
    {
        claims.unpin(&mut self.seat);
    }
}
