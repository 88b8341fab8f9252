//! How full a table is: how many of its slots are in each state, and how many of its seats are pinned.
//!
//! A count looks at each word once, one after the other, and changes none. It takes no memory and disturbs
//! nobody; and its numbers are not those of one moment, as others may step between two looks. Each look is
//! a step of the seat, which notes what it found: a count can tell of nothing that its seat did not look at.
ghost use Rattle.std.specs.Prelude.{◌≡◌, ℕ, ◌+◌, ◌-◌, ◌^◌, ◌<◌, ◌≤◌, ◌++◌, List};
ghost use Rattle.reader_claims.specs.Counts.{Counts, CountsSlots, CountsPins, Found, HasOldest, OnlyLooks};
ghost use Rattle.reader_claims.specs.Counts.{all_slots, pin_counted, with_slot};
ghost use Rattle.reader_claims.specs.Machine.{Moves};
ghost use Rattle.reader_claims.specs.Notes.{Note};
ghost use Rattle.reader_claims.specs.Seats.{first_reserved};

use crate::steps::{TableSeat, Words};
use crate::words::{Pin, SlotState};

/// How many slots of a table are in each state, and how many of its seats are pinned.
#[derive(Clone, Copy, Debug, PartialEq, Eq)]
pub struct SlotCounts {
    /// Free, and not reserved.
    pub ordinary_free: u32,
    /// Free, of those reserved for ends of pulls that leave nothing pending.
    pub reserved_free: u32,
    /// With a node, and not retired.
    pub live: u32,
    /// Dropped, and not yet given: each waits for older pins to go, or for a search to come by.
    pub retired: u32,
    /// By a publisher, for a node that it is about to place.
    pub taken: u32,
    /// Seats whose pin is stored.
    pub pinned_seats: u32,
    /// The least epoch that is pinned: slots that were retired above it wait for that seat.
    pub oldest_pin: Option<u64>,
}

impl SlotCounts {
    // One slot more, of this number. Those below `ordinary` are not reserved.
    fn add_slot(&mut self, slot: u32, ordinary: u32, state: SlotState)
        requires { all_slots self.old < 2 ^ 32 - 1 }
        ensures { self.new ≡ with_slot ordinary slot state self.old }
    {
        match state {
            SlotState::Free if slot < ordinary => self.ordinary_free += 1,
            SlotState::Free => self.reserved_free += 1,
            SlotState::Taken(_) => self.taken += 1,
            SlotState::Live => self.live += 1,
            SlotState::Retired(_) => self.retired += 1,
        }
    }

    // The pin of one seat more.
    fn add_pin(&mut self, pin: Pin)
        requires { self.old.pinned_seats < 2 ^ 32 - 1 }
        ensures { self.new ≡ pin_counted pin self.old }
    {
        let (Pin::Stored(epoch) | Pin::Held(epoch)) = pin else {
            return;
        };
        self.pinned_seats += 1;
        self.oldest_pin = Some(self.oldest_pin.unwrap_or(epoch).min(epoch));
    }
}

const NO_SLOTS: SlotCounts = SlotCounts {
    ordinary_free: 0,
    reserved_free: 0,
    live: 0,
    retired: 0,
    taken: 0,
    pinned_seats: 0,
    oldest_pin: None,
};

impl Words {
    ghost use Rattle.reader_claims.specs.Inside.Known.{words_id, reader_id, view};

    // Looks at the word of each slot.
    fn count_slots(&self, reader: &mut TableSeat) -> SlotCounts
        requires { reader_id reader.old ≡ words_id self.now }
        ensures table { reader_id reader.new ≡ reader_id reader.old }
        ensures moves { Moves (view reader.old) (view reader.new) }
        ensures kept { view reader.new ≡ record (view reader.old) { notes = (view reader.new).notes } }
        ensures more { (more : List Note) × ((view reader.new).notes ≡ more ++ (view reader.old).notes) }
        ensures counts { CountsSlots (Found (view reader.old) (view reader.new))
            (first_reserved self.now.sizes) self.now.sizes.slots result }
    {
        let ordinary = self.sizes.slots - self.sizes.slots / 4;
        let mut counts = NO_SLOTS;
        for slot in 0..self.sizes.slots {
            let word = self.look_slot(reader, slot);
            counts.add_slot(slot, ordinary, SlotState::of_word(word));
        }
        counts
    }

    // Looks at the word of each seat's pin.
    fn count_pins(&self, reader: &mut TableSeat, slots: SlotCounts) -> SlotCounts
        requires table { reader_id reader.old ≡ words_id self.now }
        requires none { slots.pinned_seats ≡ 0 }
        ensures table { reader_id reader.new ≡ reader_id reader.old }
        ensures moves { Moves (view reader.old) (view reader.new) }
        ensures kept { view reader.new ≡ record (view reader.old) { read = (view reader.new).read } }
        ensures more { (more : List (ℕ × ℕ)) × ((view reader.new).read ≡ more ++ (view reader.old).read) }
        ensures counts { CountsPins (Found (view reader.old) (view reader.new)) self.now.sizes.readers slots result }
    {
        let mut counts = slots;
        for other in 0..self.sizes.readers {
            let word = self.load_pin(reader, other + 1);
            counts.add_pin(Pin::of_word(word));
        }
        counts
    }

    /// Looks at the word of each slot, and then at that of each pin.
    pub(crate) fn count(&self, reader: &mut TableSeat) -> SlotCounts
        requires { reader_id reader.old ≡ words_id self.now }
        ensures table { reader_id reader.new ≡ reader_id reader.old }
        ensures moves { Moves (view reader.old) (view reader.new) }
        ensures looks { OnlyLooks (view reader.old) (view reader.new) }
        ensures counts { Counts (Found (view reader.old) (view reader.new)) self.now.sizes result }
        ensures all { all_slots result ≡ self.now.sizes.slots }
        ensures ordinary { result.ordinary_free ≤ first_reserved self.now.sizes }
        ensures reserved { result.reserved_free ≤ self.now.sizes.slots - first_reserved self.now.sizes }
        ensures pins { result.pinned_seats ≤ self.now.sizes.readers }
        ensures oldest { HasOldest result }
    {
        let slots = self.count_slots(reader);
        self.count_pins(reader, slots)
    }
}
