//! Where the nodes of a group lie.
//!
//! A store has places for nodes, each under its stamp, and says what a caller may know of a node that it
//! is shown: beside each node lies what a mark has seen whose book has the draft that drew the stamp for
//! it. So whatever a place held before, a reader is shown the content of the stamp that it looks for, or
//! `Gone`.
//!
//! A store may use its slots again. Then a publisher takes a slot, places a node there, settles the slot
//! before the head is moved to a commit that reaches it, and retires it once the head reaches it no more;
//! a reader pins before it loads the head. These are the steps of the claims table, and the clauses on
//! them use its words. Where slots are never used again `reused` is false, and these clauses say nothing.
//!
//! What always returns stands in [`Slots`], and what may wait over some stores in [`Store`].
ghost use Rattle.std.specs.Prelude.{◌∷◌, ◌≡◌, ◌⊎◌, ℕ, ◌^◌, ◌<◌, ◌≤◌, IfOk, IfErr, IfSome, IfNone, MatchOption};
ghost use Rattle.std.specs.Prelude.{MatchResult, length, map};
ghost use Rattle.std.specs.List.{All};
ghost use Rattle.logbook.specs.Pages.{Book};
ghost use Rattle.group_history.specs.Refs.{max_slots, max_seats};
ghost use Rattle.group_history.specs.declared.refusals.Refusal.TheVariants as refusal;
ghost use Rattle.head_word.specs.Books.{book_opening, opening_ref};
ghost use Rattle.head_word.specs.Marks.{seated};
ghost use Rattle.reader_claims.specs.declared.view.View.{View};
ghost use Rattle.reader_claims.specs.Lists.{In};
ghost use Rattle.reader_claims.specs.Machine.{Moves};
ghost use Rattle.reader_claims.specs.Deeds as deed;
ghost use Rattle.reader_claims.specs.Passes.{Takes, Looks, Raises, FindsNone, KnowsNone, IsRetired, IsButRetired};
ghost use Rattle.reader_claims.specs.Seats.{ClaimsId, first_reserved, kind_end};
ghost use Rattle.reader_claims.specs.Views.{with_pin, with_settled, with_withdrawn};
ghost use Rattle.reader_claims.specs.declared.words.Pin.TheVariants.{Absent};
ghost use Rattle.chunk_slots.specs.declared.missed.StoreStop.TheVariants as missed;
ghost use Rattle.chunk_slots.specs.Contents.{IsContent};
ghost use Rattle.chunk_slots.specs.Seats.{IsIdle, IsOpening, IsPinned, IsOvertaken, IsRaised, IsAtEnd, MayRetire};

use crate::missed::{Busy, StoreStop};
use crate::shown::Shown;
use group_history::{Means, Node, Ref, Refusal};
use head_word::{Head, Mark};
use reader_claims::Kind;
use std::alloc::Global;

/// What readers do, and what publishers do with slots that they have. No call takes memory or waits.
pub trait Slots<M: Means>: Sync {
    /// What one thread claims slots with.
    type Seat: Send + Drop;

    /// The book whose nodes it has.
    ghost book: { Self → Book };

    /// The claims table whose seats it serves.
    ghost serves: { Self → ClaimsId };

    /// The claims table that the seat is of.
    ghost home: { Self.Seat → ClaimsId };

    /// Whether slots are used again. Only then do clauses speak of claims.
    ghost reused: { Type 0 };

    /// What the seat knows of the claims table.
    ghost view: { Self.Seat → View };

    /// Shows the node of the stamp, where the slot has it. It is given back by `leave`.
    fn show(&self, slot: u32, stamp: u64, tries: u32) -> Result<Shown<'_, M>, StoreStop>
        ensures book { IfOk result (λ shown. shown.mark.book ≡ book self.now) }
        ensures stamp { IfOk result (λ shown. shown.stamp ≡ stamp) }
        ensures content { IfOk result (λ shown. IsContent shown.mark.log stamp shown.node) }
        ensures err { IfErr result (λ e. e ≡ missed.Busy → reused) };

    /// The seat's taken slot becomes live.
    fn settle(&self, seat: &mut Self::Seat, slot: u32)
        requires seat { home seat.old ≡ serves self.now }
        requires taken { reused → In (view seat.old).taken slot }
        ensures seat { home seat.new ≡ serves self.now }
        ensures moves { reused → Moves (view seat.old) (view seat.new) }
        ensures view { reused → view seat.new ≡ with_settled (view seat.old) slot };

    /// The seat's taken slot becomes free.
    fn withdraw(&self, seat: &mut Self::Seat, slot: u32)
        requires seat { home seat.old ≡ serves self.now }
        requires taken { reused → In (view seat.old).taken slot }
        ensures seat { home seat.new ≡ serves self.now }
        ensures moves { reused → Moves (view seat.old) (view seat.new) }
        ensures view { reused → view seat.new ≡ with_withdrawn (view seat.old) slot };

    /// Loads the epoch, raises it from there, and answers the number at which slots that nobody finds any
    /// more may be retired: none where nothing can be retired.
    fn raise(&self, seat: &mut Self::Seat) -> Option<u64>
        requires seat { home seat.old ≡ serves self.now }
        ensures seat { home seat.new ≡ serves self.now }
        ensures moves { reused → Moves (view seat.old) (view seat.new) }
        ensures kept { reused → Raises (view seat.old) (view seat.new) }
        ensures raised { reused → MatchOption result
            (IsAtEnd (view seat.old) (view seat.new))
            (λ r. IsRaised (view seat.old) (view seat.new) r) };

    /// Retires a live slot. One that is not live, or that the store does not have, stays as it is.
    fn retire(&self, seat: &mut Self::Seat, slot: u32, r: u64)
        requires seat { home seat.old ≡ serves self.now }
        requires raised { reused → MayRetire (view seat.old) r }
        ensures seat { home seat.new ≡ serves self.now }
        ensures moves { reused → Moves (view seat.old) (view seat.new) }
        ensures retired { reused → slot < (serves self.now).sizes.slots
            → IsRetired (view seat.old) (view seat.new) slot r }
        ensures outside { reused → (serves self.now).sizes.slots ≤ slot → view seat.new ≡ view seat.old }
        ensures kept { reused → IsButRetired (view seat.old) (view seat.new) };

    /// Pins the seat: while the pin stays, no slot that the head reaches from then on is used again.
    fn pin(&self, seat: &mut Self::Seat, tries: u32) -> Result<(), Busy>
        requires seat { home seat.old ≡ serves self.now }
        ensures seat { home seat.new ≡ serves self.now }
        ensures moves { reused → Moves (view seat.old) (view seat.new) }
        ensures pin { reused → MatchResult result
            (λ _. IsPinned (view seat.old) (view seat.new) tries)
            (λ _. IsOvertaken (view seat.old) (view seat.new) tries) }
        ensures err { IfErr result (λ _. reused) };

    /// Takes the pin away.
    fn unpin(&self, seat: &mut Self::Seat)
        requires seat { home seat.old ≡ serves self.now }
        ensures seat { home seat.new ≡ serves self.now }
        ensures moves { reused → Moves (view seat.old) (view seat.new) }
        ensures view { reused → view seat.new ≡ with_pin (view seat.old) Absent };
}

/// A store whose slots can be taken, and in which nodes are placed.
pub trait Store<M: Means>: Slots<M> {
    /// What a store is made of.
    type Parts;

    /// A store of 16 to `MAX_SLOTS` slots with 1 to `MAX_SEATS` seats, the head of a new group, and a mark
    /// for each seat. It chooses the slots of the opening nodes, and places them.
    fn open(
        alloc: Global,
        parts: Self::Parts,
        slots: u32,
        seats: u32,
    ) -> Result<(Self, Vec<Self::Seat>, Head<M>, Vec<Mark<M>>), Refusal>
        requires slots { (16 ≤ slots) × (slots ≤ max_slots) }
        requires seats { (1 ≤ seats) × (seats ≤ max_seats) }
        ensures book { IfOk result (λ made. Self.book made.0 ≡ made.2) }
        ensures sizes { Self.reused → IfOk result
            (λ made. (Self.serves made.0).sizes ≡ record { readers = seats; slots = slots }) }
        ensures count { IfOk result (λ made. length made.1.items ≡ seats) }
        ensures seats { IfOk result (λ made. All
            (λ seat. (Self.home seat ≡ Self.serves made.0) × (Self.reused → IsIdle (Self.view seat))) made.1.items) }
        ensures marks { IfOk result (λ made. (slot : ℕ)
            × (made.3.items ≡ seated made.2 (book_opening seats (opening_ref slot)) seats)
            × (Self.reused → IsOpening (Self.serves made.0).sizes (map Self.view made.1.items) slot)) }
        ensures err { IfErr result (λ e. (e ≡ refusal.NoMemory)
            ⊎ (Self.reused × ((e ≡ refusal.Busy) ⊎ (e ≡ refusal.Full)))) };

    /// Puts the node under the stamp. The answer is the slot number that the node's `Ref` bears, so
    /// children are placed before their parents. It takes memory for slots that were not used yet; a
    /// store keeps that, also where the call is refused then.
    fn place(
        &self,
        seat: &mut Self::Seat,
        mark: &Mark<M>,
        slot: u32,
        stamp: u64,
        node: Node<Ref>,
        tries: u32,
    ) -> Result<u32, Refusal>
        requires seat { Self.home seat.old ≡ Self.serves self.now }
        requires taken { Self.reused → In (Self.view seat.old).taken slot }
        requires book { mark.now.book ≡ Self.book self.now }
        requires drawn { IsContent mark.now.log stamp node }
        ensures seat { seat.new ≡ seat.old }
        ensures slot { IfOk result (λ at. (at < max_slots) × (Self.reused → at ≡ slot)) }
        ensures err { IfErr result (λ e. (e ≡ refusal.NoMemory) ⊎ (Self.reused × (e ≡ refusal.Busy))
            ⊎ ((Self.reused → ⊥) × (e ≡ refusal.Full) × (max_slots ≤ stamp))) };

    /// The next slot is sought from this one on, unless the seat retired one since.
    fn begin_at(&self, seat: &mut Self::Seat, slot: u32)
        ensures seat { seat.new ≡ seat.old };

    /// Takes a slot to place a node in. A reserved one is taken only where no ordinary one was free or
    /// could be given, but for those that other seats were quicker to take: by a pass of this call, or
    /// by one since which the seat did nothing but take slots. `None` comes after a whole pass.
    fn take_slot(&self, seat: &mut Self::Seat, kind: Kind) -> Option<u32>
        requires seat { Self.home seat.old ≡ Self.serves self.now }
        ensures seat { Self.home seat.new ≡ Self.serves self.now }
        ensures moves { Self.reused → Moves (Self.view seat.old) (Self.view seat.new) }
        ensures looks { Self.reused → Looks (Self.view seat.old) (Self.view seat.new) }
        ensures taken { Self.reused → MatchOption result
            ((Self.view seat.new).taken ≡ (Self.view seat.old).taken)
            (λ slot. (slot < kind_end (Self.serves self.now).sizes kind)
            × Takes (Self.view seat.old) (Self.view seat.new) slot) }
        ensures deeds { Self.reused → MatchOption result
            ((Self.view seat.new).deeds ≡ (Self.view seat.old).deeds)
            (λ slot. (Self.view seat.new).deeds ≡ deed.took slot ∷ (Self.view seat.old).deeds) }
        ensures none { IfNone result (Self.reused
            × FindsNone (Self.view seat.old) (Self.view seat.new) (kind_end (Self.serves self.now).sizes kind)) }
        ensures reserve { Self.reused → IfSome result (λ slot. first_reserved (Self.serves self.now).sizes ≤ slot
            → ∥ KnowsNone (Self.view seat.old) (Self.view seat.new) (first_reserved (Self.serves self.now).sizes) ∥₁) };
}
