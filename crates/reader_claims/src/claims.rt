//! The claims table: which slots readers may still look at, and which may be used again.
//!
//! **The words.** One word is the epoch, a number that only rises. Each reader has a word for its
//! pin, which is absent or an epoch. Each slot has a word: Free, Taken by a reader, Live, or
//! Retired at an epoch. Every step is a single load, store or exchange of one word, and all of them
//! have one order that every thread sees. The epoch and each pin have eight words to themselves, so
//! that no two of them share a cache line; the slots lie side by side behind them.
//!
//! **A reader** pins before it looks for live slots: it loads the epoch, stores it as its pin, and
//! loads the epoch again. If both loads gave one number e the pin is held: while it is, no slot is
//! given that is live, or retired above e. If not, the reader takes the pin away at once and may
//! try again. Only the reader writes the word of its pin.
//!
//! **A writer** takes a free slot (an exchange from Free to Taken by itself), so that nobody else
//! has it; fills it elsewhere; and settles it (Taken to Live), or withdraws it (Taken to Free).
//! Once nobody can find a live slot any more it loads the epoch as n, raises it from n to n + 1,
//! and retires the slot at n + 1 (Live to Retired): each reader that may still look at the slot
//! pinned before, and holds at most n. The raise may be lost, where some other seat has raised the
//! epoch past n already.
//!
//! **Giving.** Any seat may make a slot that is retired at r free again, once it has read the epoch
//! as at least r and after that every pin as absent or at least r. One reading of the pins will do
//! for many slots, but pins that were read before the epoch are worth nothing.
//!
//! **Why that is safe.** A reader that holds a pin below r read the epoch as that pin after it had
//! stored it. The epoch never falls, so this was before the giver read the epoch as at least r, and
//! the giver, which reads the pins last, finds the pin. A reader that pins later, or whose pin was
//! not yet held, reads at least the epoch that the giver read, which is at least r.
//!
//! **Which clause carries it.** Between any two steps the table is one that the steps of the
//! machine lead to (`Reached`, in which each step is a `Move`). This is the rule of the table of
//! words, so every step of every seat owes it, and the calls say which moves they made. What
//! follows from it is the contract of [`claims_law`](crate::claims_law). What a seat knows is its
//! view, and each call says how it changes.
ghost use Rattle.std.specs.Prelude.{◌≡◌, ℕ, ◌+◌, ◌-◌, ◌^◌, ◌<◌, ◌≤◌, [], true, false, IfOk, IfErr, IfNone, IfSome};
ghost use Rattle.std.specs.Prelude.{MatchResult, MatchOption, ◌∷◌};
ghost use Rattle.group_history.specs.Refs.{max_slots, max_seats};
ghost use Rattle.group_history.specs.declared.refusals.Refusal.TheVariants.{NoMemory};
ghost use Rattle.reader_claims.specs.declared.words.Pin.TheVariants.{Absent};
ghost use Rattle.reader_claims.specs.Deeds as deed;
ghost use Rattle.reader_claims.specs.Lists.{In};
ghost use Rattle.reader_claims.specs.Views.{with_epoch, with_pin, with_raise, with_settled, with_withdrawn};
ghost use Rattle.reader_claims.specs.Words.{epoch_at, pin_at, slot_at, slot_word};
ghost use Rattle.reader_claims.specs.declared.words.SlotState.TheVariants.{Free, Taken, Live, Retired};
ghost use Rattle.reader_claims.specs.Machine.{Move, Moves, left_there};
ghost use Rattle.reader_claims.specs.Seats.{AreSeats, first_reserved, kind_end};
ghost use Rattle.reader_claims.specs.Counts.{Counts, Found, HasOldest, OnlyLooks, all_slots};
ghost use Rattle.reader_claims.specs.Passes.{IsPinnedAt, IsUnpinned, IsRetired, IsButRetired, IsGiven, IsNotGiven};
ghost use Rattle.reader_claims.specs.Passes.{Takes, Looks, FindsNone, FoundNone, KnowsNone};

use crate::counts::SlotCounts;
use crate::plays::Deal;
use crate::slot::{Kind, Slot};
use crate::steps::{TableSeat, Words};
use crate::view::Sizes;
use crate::words::{FIRST_SLOT, LIVE, SlotState};
use atomic_table::Table;
use group_history::Refusal;
use std::alloc::Global;
use std::marker::Model;

/// The epoch was raised between the two loads of a pin.
#[derive(Clone, Copy, Debug, PartialEq, Eq)]
pub struct Raised;

/// What one thread steps with. A seat that is dropped leaves its pin and its taken slots as they
/// are.
#[derive(Drop)]
pub struct ClaimSeat {
    reader: TableSeat,
    // Where slots are sought from: where it last found one, or where it was told to begin, at first a place of its own;
    // and the least slot that it retired since.
    last: u32,
    retired: Option<u32>,
    // Whether a pass found no ordinary slot, since which the seat did nothing but take slots.
    passed: bool,
    ghost none: { passed ≡ true → ∥ FoundNone reader.seat.me.0 (first_reserved reader.seat.me.0.sizes) ∥₁ },
}

impl Model for ClaimSeat {
    ghost use Rattle.reader_claims.specs.Seats.{Seated};

    ghost Value = { Seated };

    ghost use Rattle.reader_claims.specs.Inside.Known.{reader_id, view as view_of};

    ghost view = { λ s. record { table = reader_id s.reader; view = view_of s.reader } };
}

/// The table. It is shared by reference, and each call steps with a seat of it.
#[derive(Drop)]
pub struct Claims {
    words: Words,
}

impl Model for Claims {
    ghost use Rattle.reader_claims.specs.Seats.{ClaimsId};

    ghost Value = { ClaimsId };

    ghost use Rattle.reader_claims.specs.Inside.Known.{words_id};

    ghost view = { λ c. words_id c.words };
}

impl ClaimSeat {
    fn start(&self) -> u32 {
        self.retired.unwrap_or(self.last)
    }

    /// The next slot is sought from here on, unless one was retired since.
    pub fn begin_at(&mut self, slot: u32)
        ensures { self.new ≡ self.old }
    {
        self.last = slot;
    }

    fn found(&mut self, slot: u32, passed: bool)
        requires { passed ≡ true → ∥ FoundNone self.old.view (first_reserved self.old.table.sizes) ∥₁ }
        ensures { self.new ≡ self.old }
    {
        self.last = slot;
        self.retired = None;
        self.passed = passed;
    }

    fn dropped(&mut self, slot: u32)
        ensures { self.new ≡ self.old }
    {
        self.retired = Some(self.retired.unwrap_or(slot).min(slot));
    }
}

impl Claims {
    /// A table of 16 to `MAX_SLOTS` slots, all free, whose epoch is 0, and its 1 to `MAX_SEATS` seats.
    /// It is refused with `NoMemory` alone, and no other call takes memory.
    pub fn new(alloc: Global, slots: u32, readers: u32) -> Result<(Claims, Vec<ClaimSeat>), Refusal>
        requires slots { (16 ≤ slots) × (slots ≤ max_slots) }
        requires readers { (1 ≤ readers) × (readers ≤ max_seats) }
        ensures sizes { IfOk result (λ made. made.0.sizes ≡ record { readers = readers; slots = slots }) }
        ensures seats { IfOk result (λ made. AreSeats made.0 readers made.1.items) }
        ensures err { IfErr result (λ refusal. refusal ≡ NoMemory) }
    {
        let words = Vec::from_elem(alloc, 0u64, FIRST_SLOT + slots as usize)?;
        let sizes = Sizes { readers, slots };
        let (table, mut dealer) = Table::of_words(alloc, words.as_slice(), &sizes)?;
        let apart = (slots - slots / 4) / readers;
        let mut seats = Vec::with_capacity(alloc, readers as usize)?;
        for dealt in 0..readers {
            let seat = table.shared.split_seat::<Deal>(&mut dealer);
            seats.push(ClaimSeat {
                reader: TableSeat {
                    seat,
                    number: dealt + 1,
                    bound: 0,
                },
                last: dealt.saturating_mul(apart),
                retired: None,
                passed: false,
            })?;
        }
        Ok((
            Claims {
                words: Words { table, sizes },
            },
            seats,
        ))
    }

    /// Loads the epoch.
    pub fn epoch(&self, seat: &mut ClaimSeat) -> u64
        requires { seat.old.table ≡ self.now }
        ensures table { seat.new.table ≡ seat.old.table }
        ensures step { Move seat.old.view epoch_at result result seat.new.view }
        ensures view { seat.new.view ≡ with_epoch seat.old.view result }
        ensures bound { (seat.old.view.reached ≤ result) × (result ≤ 2 ^ 60) }
    {
        seat.passed = false;
        self.words.load_epoch(&mut seat.reader)
    }

    /// Pins the epoch, in one try. `Raised` comes only where the second load of the epoch read more
    /// than the first; the pin is absent then.
    pub fn pin(&self, seat: &mut ClaimSeat) -> Result<u64, Raised>
        requires { seat.old.table ≡ self.now }
        ensures table { seat.new.table ≡ seat.old.table }
        ensures moves { Moves seat.old.view seat.new.view }
        ensures held { MatchResult result
            (λ e. IsPinnedAt seat.old.view seat.new.view e)
            (λ _. IsUnpinned seat.old.view seat.new.view) }
    {
        seat.passed = false;
        let (first, second) = self.words.look_twice(&mut seat.reader);
        if first == second {
            return Ok(first);
        }
        self.words.clear_pin(&mut seat.reader);
        Err(Raised)
    }

    /// Takes the pin away.
    pub fn unpin(&self, seat: &mut ClaimSeat)
        requires { seat.old.table ≡ self.now }
        ensures table { seat.new.table ≡ seat.old.table }
        ensures step { (x : ℕ) × Move seat.old.view (pin_at seat.old.view.number) x 0 seat.new.view }
        ensures view { seat.new.view ≡ with_pin seat.old.view Absent }
    {
        seat.passed = false;
        self.words.clear_pin(&mut seat.reader);
    }

    /// Raises the epoch from n, if it still is n. After it the epoch is above n.
    pub fn raise(&self, seat: &mut ClaimSeat, n: u64)
        requires table { seat.old.table ≡ self.now }
        requires seen { (n < 2 ^ 60) × (n ≤ seat.old.view.reached) }
        ensures table { seat.new.table ≡ seat.old.table }
        ensures step { (x : ℕ) × Move seat.old.view epoch_at x (left_there n (n + 1) x) seat.new.view }
        ensures view { seat.new.view ≡ with_raise seat.old.view seat.new.view.reached }
        ensures reached { (n < seat.new.view.reached) × (seat.old.view.reached ≤ seat.new.view.reached)
            × (seat.new.view.reached ≤ 2 ^ 60) }
    {
        seat.passed = false;
        self.words.raise_epoch(&mut seat.reader, n);
    }

    /// Takes a slot that is free, or that is retired and may be given. A reserved one is taken only
    /// where no ordinary one was free or could be given, but for those that other seats were
    /// quicker to take: by a pass of this call; or by one before it, behind which the seat loaded
    /// no epoch and did nothing but take slots, a reserved one among them. `None` comes after a
    /// whole pass. On the way the seat stores no pin, raises nothing, and settles, withdraws and
    /// retires no slot: it shuts none by itself.
    #[inline(always)]
    pub fn take_slot(&self, seat: &mut ClaimSeat, kind: Kind) -> Option<Slot>
        requires { seat.old.table ≡ self.now }
        ensures table { seat.new.table ≡ seat.old.table }
        ensures moves { Moves seat.old.view seat.new.view }
        ensures looks { Looks seat.old.view seat.new.view }
        ensures taken { MatchOption result
            (seat.new.view.taken ≡ seat.old.view.taken)
            (λ slot. (slot < kind_end self.now.sizes kind) × Takes seat.old.view seat.new.view slot) }
        ensures deeds { MatchOption result
            (seat.new.view.deeds ≡ seat.old.view.deeds)
            (λ slot. seat.new.view.deeds ≡ deed.took slot ∷ seat.old.view.deeds) }
        ensures none { IfNone result
            (FindsNone seat.old.view seat.new.view (kind_end self.now.sizes kind)) }
        ensures reserve { IfSome result (λ slot. first_reserved self.now.sizes ≤ slot
            → ∥ KnowsNone seat.old.view seat.new.view (first_reserved self.now.sizes) ∥₁) }
    {
        let (start, passed) = (seat.start(), seat.passed);
        seat.passed = false;
        let number = self.words.find(&mut seat.reader, start, passed, kind)?;
        seat.found(number, number >= self.words.ordinary());
        Some(Slot::new(number))
    }

    /// The seat's own taken slot becomes live.
    pub fn settle(&self, seat: &mut ClaimSeat, slot: Slot)
        requires slot { (seat.old.table ≡ self.now) × (slot < self.now.sizes.slots) }
        requires taken { In seat.old.view.taken slot }
        ensures table { seat.new.table ≡ seat.old.table }
        ensures step { Move seat.old.view (slot_at slot)
            (slot_word (Taken seat.old.view.number)) (slot_word Live) seat.new.view }
        ensures view { seat.new.view ≡ with_settled seat.old.view slot }
    {
        seat.passed = false;
        self.words.settle(&mut seat.reader, slot.number());
    }

    /// The seat's own taken slot becomes free.
    pub fn withdraw(&self, seat: &mut ClaimSeat, slot: Slot)
        requires slot { (seat.old.table ≡ self.now) × (slot < self.now.sizes.slots) }
        requires taken { In seat.old.view.taken slot }
        ensures table { seat.new.table ≡ seat.old.table }
        ensures step { Move seat.old.view (slot_at slot)
            (slot_word (Taken seat.old.view.number)) (slot_word Free) seat.new.view }
        ensures view { seat.new.view ≡ with_withdrawn seat.old.view slot }
    {
        seat.passed = false;
        self.words.withdraw(&mut seat.reader, slot.number());
    }

    /// Retires a live slot at r, one above the epoch that the seat loaded last, from which it has
    /// raised it since. A slot that is not live stays as it is.
    pub fn retire(&self, seat: &mut ClaimSeat, slot: Slot, r: u64)
        requires slot { (seat.old.table ≡ self.now) × (slot < self.now.sizes.slots) }
        requires raised { (r ≡ seat.old.view.loaded + 1) × (seat.old.view.loaded < seat.old.view.reached) }
        ensures table { seat.new.table ≡ seat.old.table }
        ensures step { (x : ℕ) × Move seat.old.view (slot_at slot)
            x (left_there (slot_word Live) (slot_word (Retired r)) x) seat.new.view }
        ensures retired { IsRetired seat.old.view seat.new.view slot r }
        ensures kept { IsButRetired seat.old.view seat.new.view }
    {
        seat.passed = false;
        if self.words.retire(&mut seat.reader, slot.number(), r) == LIVE {
            seat.dropped(slot.number());
        }
    }

    /// Makes a retired slot free, where no reader can hold it. False where it is not retired, or
    /// may not be given, or another seat was quicker; then nothing was given.
    pub fn give(&self, seat: &mut ClaimSeat, slot: Slot) -> bool
        requires { (seat.old.table ≡ self.now) × (slot < self.now.sizes.slots) }
        ensures table { seat.new.table ≡ seat.old.table }
        ensures moves { Moves seat.old.view seat.new.view }
        ensures looks { Looks seat.old.view seat.new.view }
        ensures taken { (seat.new.view.taken ≡ seat.old.view.taken) × (seat.new.view.deeds ≡ seat.old.view.deeds) }
        ensures given { result ≡ true → IsGiven seat.old.view seat.new.view slot }
        ensures not_given { result ≡ false → IsNotGiven seat.old.view seat.new.view slot }
    {
        seat.passed = false;
        self.words.try_give(&mut seat.reader, slot.number())
    }

    /// How many slots are in each state, and how many seats are pinned: one look at each word, one after
    /// the other. Each word was so at some time in the call, and no two need have been so at once. The seat
    /// notes what it found, and nothing else is changed.
    pub fn count(&self, seat: &mut ClaimSeat) -> SlotCounts
        requires { seat.old.table ≡ self.now }
        ensures table { seat.new.table ≡ seat.old.table }
        ensures moves { Moves seat.old.view seat.new.view }
        ensures looks { OnlyLooks seat.old.view seat.new.view }
        ensures counts { Counts (Found seat.old.view seat.new.view) self.now.sizes result }
        ensures all { all_slots result ≡ self.now.sizes.slots }
        ensures ordinary { result.ordinary_free ≤ first_reserved self.now.sizes }
        ensures reserved { result.reserved_free ≤ self.now.sizes.slots - first_reserved self.now.sizes }
        ensures pins { result.pinned_seats ≤ self.now.sizes.readers }
        ensures oldest { HasOldest result }
    {
        seat.passed = false;
        self.words.count(&mut seat.reader)
    }
}
