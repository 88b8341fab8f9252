// What is made of the single steps: a reading of the epoch and the pins, and the search for a slot.
ghost use Rattle.std.specs.Prelude.{◌≡◌, ◌≢◌, ℕ, ◌+◌, ◌-◌, ◌^◌, ◌<◌, ◌≤◌, true, false, min, MatchOption, IfNone};
ghost use Rattle.std.specs.Prelude.{IfSome};
ghost use Rattle.reader_claims.specs.Words.{slot_word, pin_word};
ghost use Rattle.reader_claims.specs.declared.words.Pin.TheVariants.{Stored};
ghost use Rattle.reader_claims.specs.declared.words.SlotState.TheVariants.{Free, Retired};
ghost use Rattle.reader_claims.specs.Views.{ArePinsRead, IsOpen, IsClosed, with_epoch, with_pin};
ghost use Rattle.reader_claims.specs.Machine.{Moves};
ghost use Rattle.reader_claims.specs.Seats.{first_reserved, kind_end};
ghost use Rattle.reader_claims.specs.Passes.{passed, Takes, Looks, IsGiven, IsNotGiven, WhyShut, AreShut, FindsNone};
ghost use Rattle.reader_claims.specs.Passes.{FoundNone, KnowsNone};
ghost use Rattle.reader_claims.specs.Inside.Scans.{Later, HasFoundWord};

use crate::slot::Kind;
use crate::steps::{TableSeat, Words};
use crate::words::{FREE, Pin, SlotState};

// Where there are so many seats, a pass gives slots ahead, so that the next takes need no reading of the pins.
const MANY_SEATS: u32 = 16;

// How many slots are given ahead at most.
const AHEAD: u32 = 64;

// What plain loads of slots led to.
#[derive(Clone, Copy)]
pub(crate) enum Look {
    Took(u32),
    // The first that is retired, and not known as open.
    Retired(u32),
    Nothing,
}

// The greatest number that is at most the pin too.
fn lower(least: u64, pin: Pin) -> u64
    ensures absent { pin_word pin ≡ 0 → result ≡ least }
    ensures there { 0 < pin_word pin → result ≡ min least (pin_word pin - 1) }
{
    match pin {
        Pin::Absent => least,
        Pin::Stored(epoch) | Pin::Held(epoch) => least.min(epoch),
    }
}

impl Words {
    ghost use Rattle.reader_claims.specs.Inside.Known.{words_id, reader_id, view};
    ghost use Rattle.reader_claims.specs.Inside.Looked.{IfTook};

    // The ordinary slots are those below.
    pub(crate) fn ordinary(&self) -> u32
        ensures { (result ≡ first_reserved self.now.sizes) × (result ≤ self.now.sizes.slots) }
    {
        self.sizes.slots - self.sizes.slots / 4
    }

    fn end_of(&self, kind: Kind) -> u32
        ensures { (result ≡ kind_end self.now.sizes kind) × (result ≤ self.now.sizes.slots) }
    {
        match kind {
            Kind::Ordinary => self.ordinary(),
            Kind::PullEnd => self.sizes.slots,
        }
    }

    // The two numbers that the epoch was read as, before and after it was stored as the pin.
    pub(crate) fn look_twice(&self, reader: &mut TableSeat) -> (u64, u64)
        requires { reader_id reader.old ≡ words_id self.now }
        ensures table { reader_id reader.new ≡ reader_id reader.old }
        ensures moves { Moves (view reader.old) (view reader.new) }
        ensures view { view reader.new
            ≡ with_epoch (with_pin (with_epoch (view reader.old) result.0) (Stored result.0)) result.1 }
        ensures bound { ((view reader.old).reached ≤ result.0) × (result.0 ≤ result.1) × (result.1 ≤ 2 ^ 60) }
    {
        let first = self.load_epoch(reader);
        self.store_pin(reader, first);
        (first, self.load_epoch(reader))
    }

    // Reads the epoch, and then each pin: the greatest number at which a slot may be given.
    pub(crate) fn open_below(&self, reader: &mut TableSeat) -> u64
        requires { reader_id reader.old ≡ words_id self.now }
        ensures table { reader_id reader.new ≡ reader_id reader.old }
        ensures moves { Moves (view reader.old) (view reader.new) }
        ensures reached { (view reader.old).reached ≤ (view reader.new).reached }
        ensures view { view reader.new ≡ passed (view reader.old) (view reader.new) }
        ensures open_at { (r : ℕ) → r ≤ result → IsOpen (view reader.new) r }
        ensures shut_at { (r : ℕ) → result < r → IsClosed (view reader.new) r }
        ensures read { ArePinsRead (view reader.new) }
    {
        let mut least = self.load_epoch(reader);
        for other in 0..self.sizes.readers {
            least = lower(least, Pin::of_word(self.load_pin(reader, other + 1)));
        }
        reader.bound = least;
        least
    }

    // Takes the slot if a look finds it free, since a look disturbs no other seat. The word found, by the look or by
    // the take.
    fn take_if_free(&self, reader: &mut TableSeat, slot: u32) -> u64
        requires { (reader_id reader.old ≡ words_id self.now) × (slot < self.now.sizes.slots) }
        ensures table { reader_id reader.new ≡ reader_id reader.old }
        ensures moves { Moves (view reader.old) (view reader.new) }
        ensures later { Later (view reader.old) (view reader.new) }
        ensures won { result ≡ slot_word Free → Takes (view reader.old) (view reader.new) slot }
        ensures lost { result ≢ slot_word Free → HasFoundWord (view reader.old) slot result (view reader.new) }
    {
        let seen = self.look_slot(reader, slot);
        if seen != FREE {
            return seen;
        }
        self.take(reader, slot)
    }

    // Tries to take one slot, also where it has to be given first. Slots are open at `bound` and
    // below.
    fn try_slot(&self, reader: &mut TableSeat, slot: u32, bound: u64) -> bool
        requires slot { (reader_id reader.old ≡ words_id self.now) × (slot < self.now.sizes.slots) }
        requires below { (r : ℕ) → r ≤ bound → IsOpen (view reader.old) r }
        requires above { (r : ℕ) → bound < r → IsClosed (view reader.old) r }
        ensures table { reader_id reader.new ≡ reader_id reader.old }
        ensures moves { Moves (view reader.old) (view reader.new) }
        ensures later { Later (view reader.old) (view reader.new) }
        ensures taken { result ≡ true → Takes (view reader.old) (view reader.new) slot }
        ensures shut { result ≡ false
            → ((view reader.new).taken ≡ (view reader.old).taken)
            × WhyShut (view reader.new).taken slot (view reader.new) }
    {
        let found = self.take_if_free(reader, slot);
        if found == FREE {
            return true;
        }
        let SlotState::Retired(r) = SlotState::of_word(found) else {
            return false;
        };
        if bound < r {
            return false;
        }
        if self.give(reader, slot, r) != found {
            return false;
        }
        self.take(reader, slot) == FREE
    }

    // Reads the pins, and gives the slot if it is retired and open.
    pub(crate) fn try_give(&self, reader: &mut TableSeat, slot: u32) -> bool
        requires { (reader_id reader.old ≡ words_id self.now) × (slot < self.now.sizes.slots) }
        ensures table { reader_id reader.new ≡ reader_id reader.old }
        ensures moves { Moves (view reader.old) (view reader.new) }
        ensures looks { Looks (view reader.old) (view reader.new) }
        ensures taken { (view reader.new).taken ≡ (view reader.old).taken }
        ensures given { result ≡ true → IsGiven (view reader.old) (view reader.new) slot }
        ensures not_given { result ≡ false → IsNotGiven (view reader.old) (view reader.new) slot }
    {
        let highest = self.open_below(reader);
        let SlotState::Retired(r) = self.look(slot) else {
            return false;
        };
        if highest < r {
            return false;
        }
        self.give(reader, slot, r) == SlotState::Retired(r).word()
    }

    fn scan(&self, reader: &mut TableSeat, from: u32, end: u32, bound: u64) -> Option<u32>
        requires slots { (reader_id reader.old ≡ words_id self.now) × (end ≤ self.now.sizes.slots) }
        requires below { (r : ℕ) → r ≤ bound → IsOpen (view reader.old) r }
        requires above { (r : ℕ) → bound < r → IsClosed (view reader.old) r }
        ensures table { reader_id reader.new ≡ reader_id reader.old }
        ensures moves { Moves (view reader.old) (view reader.new) }
        ensures later { Later (view reader.old) (view reader.new) }
        ensures taken { MatchOption result
            ((view reader.new).taken ≡ (view reader.old).taken)
            (λ i. (from ≤ i) × (i < end) × Takes (view reader.old) (view reader.new) i) }
        ensures shut { IfNone result (AreShut (view reader.new).taken from end (view reader.new)) }
    {
        for slot in from..end {
            if self.try_slot(reader, slot, bound) {
                return Some(slot);
            }
        }
        None
    }

    // Gives the slot if a plain load finds it retired, and the pins that were read leave it open.
    fn give_if_open(&self, reader: &mut TableSeat, slot: u32)
        requires { (reader_id reader.old ≡ words_id self.now) × (slot < self.now.sizes.slots) }
        ensures table { reader_id reader.new ≡ reader_id reader.old }
        ensures moves { Moves (view reader.old) (view reader.new) }
        ensures later { Later (view reader.old) (view reader.new) }
        ensures taken { (view reader.new).taken ≡ (view reader.old).taken }
    {
        let SlotState::Retired(r) = self.look(slot) else {
            return;
        };
        if reader.bound < r || r == 0 {
            return;
        }
        self.give(reader, slot, r);
    }

    // Gives what is open of the next slots, where there are many seats.
    fn give_ahead(&self, reader: &mut TableSeat, from: u32, end: u32)
        requires { (reader_id reader.old ≡ words_id self.now) × (end ≤ self.now.sizes.slots) }
        ensures table { reader_id reader.new ≡ reader_id reader.old }
        ensures moves { Moves (view reader.old) (view reader.new) }
        ensures later { Later (view reader.old) (view reader.new) }
        ensures taken { (view reader.new).taken ≡ (view reader.old).taken }
    {
        if self.sizes.readers < MANY_SEATS {
            return;
        }
        for slot in from..from.saturating_add(AHEAD).min(end) {
            self.give_if_open(reader, slot);
        }
    }

    // Takes the first slot that can be had, as `scan` does, and gives ahead what stands behind it.
    fn scan_ahead(&self, reader: &mut TableSeat, from: u32, end: u32, bound: u64) -> Option<u32>
        requires slots { (reader_id reader.old ≡ words_id self.now) × (end ≤ self.now.sizes.slots) }
        requires below { (r : ℕ) → r ≤ bound → IsOpen (view reader.old) r }
        requires above { (r : ℕ) → bound < r → IsClosed (view reader.old) r }
        ensures table { reader_id reader.new ≡ reader_id reader.old }
        ensures moves { Moves (view reader.old) (view reader.new) }
        ensures later { Later (view reader.old) (view reader.new) }
        ensures taken { MatchOption result
            ((view reader.new).taken ≡ (view reader.old).taken)
            (λ i. (from ≤ i) × (i < end) × Takes (view reader.old) (view reader.new) i) }
        ensures shut { IfNone result (AreShut (view reader.new).taken from end (view reader.new)) }
    {
        let Some(slot) = self.scan(reader, from, end, bound) else {
            return None;
        };
        self.give_ahead(reader, slot, end);
        Some(slot)
    }

    // One pass: the epoch and the pins, the ordinary slots from `begin` on and then those before,
    // and the reserved ones if the kind has them.
    #[inline(never)]
    fn pass(&self, reader: &mut TableSeat, begin: u32, kind: Kind) -> Option<u32>
        requires { (reader_id reader.old ≡ words_id self.now) × (begin ≤ first_reserved self.now.sizes) }
        ensures table { reader_id reader.new ≡ reader_id reader.old }
        ensures moves { Moves (view reader.old) (view reader.new) }
        ensures looks { Looks (view reader.old) (view reader.new) }
        ensures taken { MatchOption result
            ((view reader.new).taken ≡ (view reader.old).taken)
            (λ i. (i < kind_end self.now.sizes kind) × Takes (view reader.old) (view reader.new) i) }
        ensures none { IfNone result
            (FindsNone (view reader.old) (view reader.new) (kind_end self.now.sizes kind)) }
        ensures reserve { IfSome result (λ i. first_reserved self.now.sizes ≤ i
            → FindsNone (view reader.old) (view reader.new) (first_reserved self.now.sizes)) }
    {
        let bound = self.open_below(reader);
        let ordinary = self.ordinary();
        if let Some(slot) = self.scan_ahead(reader, begin, ordinary, bound) {
            return Some(slot);
        }
        if let Some(slot) = self.scan_ahead(reader, 0, begin, bound) {
            return Some(slot);
        }
        self.scan(reader, ordinary, self.end_of(kind), bound)
    }

    // Takes a reserved slot from `start` on, where a pass has found no ordinary one, or else what a pass finds. So the
    // reserved slots of one draft cost one pass together, and not one each.
    fn find_reserved(&self, reader: &mut TableSeat, start: u32, passed: bool) -> Option<u32>
        requires table { reader_id reader.old ≡ words_id self.now }
        requires passed { passed ≡ true → ∥ FoundNone (view reader.old) (first_reserved self.now.sizes) ∥₁ }
        ensures table { reader_id reader.new ≡ reader_id reader.old }
        ensures moves { Moves (view reader.old) (view reader.new) }
        ensures looks { Looks (view reader.old) (view reader.new) }
        ensures taken { MatchOption result
            ((view reader.new).taken ≡ (view reader.old).taken)
            (λ i. (i < self.now.sizes.slots) × Takes (view reader.old) (view reader.new) i) }
        ensures none { IfNone result (FindsNone (view reader.old) (view reader.new) self.now.sizes.slots) }
        ensures reserve { IfSome result (λ i. first_reserved self.now.sizes ≤ i
            → ∥ KnowsNone (view reader.old) (view reader.new) (first_reserved self.now.sizes) ∥₁) }
    {
        if !passed {
            return self.pass(reader, 0, Kind::PullEnd);
        }
        match self.quick_over(reader, start, self.sizes.slots) {
            Some(slot) => Some(slot),
            None => self.pass(reader, 0, Kind::PullEnd),
        }
    }

    // Takes a slot: a free one near `start`, or what a pass finds. Where the last slot was a reserved
    // one no ordinary one was free, and a reserved one is had behind a pass alone.
    #[inline(always)]
    pub(crate) fn find(
        &self,
        reader: &mut TableSeat,
        start: u32,
        passed: bool,
        kind: Kind,
    ) -> Option<u32>
        requires table { reader_id reader.old ≡ words_id self.now }
        requires passed { passed ≡ true → ∥ FoundNone (view reader.old) (first_reserved self.now.sizes) ∥₁ }
        ensures table { reader_id reader.new ≡ reader_id reader.old }
        ensures moves { Moves (view reader.old) (view reader.new) }
        ensures looks { Looks (view reader.old) (view reader.new) }
        ensures taken { MatchOption result
            ((view reader.new).taken ≡ (view reader.old).taken)
            (λ i. (i < kind_end self.now.sizes kind) × Takes (view reader.old) (view reader.new) i) }
        ensures none { IfNone result
            (FindsNone (view reader.old) (view reader.new) (kind_end self.now.sizes kind)) }
        ensures reserve { IfSome result (λ i. first_reserved self.now.sizes ≤ i
            → ∥ KnowsNone (view reader.old) (view reader.new) (first_reserved self.now.sizes) ∥₁) }
    {
        let ordinary = self.ordinary();
        if start >= ordinary && matches!(kind, Kind::PullEnd) {
            return self.find_reserved(reader, start, passed);
        }
        let start = if start < ordinary { start } else { 0 };
        match self.quick_round(reader, start, ordinary) {
            Look::Took(slot) => Some(slot),
            Look::Retired(slot) => self.pass(reader, slot, kind),
            Look::Nothing => self.pass(reader, start, kind),
        }
    }
}
