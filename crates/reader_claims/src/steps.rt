// The single steps: each loads, stores or exchanges one word, and its clause says which step of the
// machine it was.
ghost use Rattle.std.specs.Prelude.{◌≡◌, ◌≢◌, ℕ, ◌+◌, ◌^◌, ◌<◌, ◌≤◌, [], true, false, max, ◌-◌};
ghost use Rattle.group_history.specs.Refs.{max_seats};
ghost use Rattle.reader_claims.specs.declared.words.Pin.TheVariants.{Absent, Stored};
ghost use Rattle.reader_claims.specs.declared.words.SlotState.TheVariants.{Free, Taken, Live, Retired};
ghost use Rattle.reader_claims.specs.Words.{epoch_at, pin_at, slot_at, slot_word, first_slot, IsSmall};
ghost use Rattle.reader_claims.specs.Lists.{In};
ghost use Rattle.reader_claims.specs.Views.{IsOpen, with_epoch, with_pin, with_read, with_raise, with_taken};
ghost use Rattle.reader_claims.specs.Views.{with_settled, with_withdrawn, with_retired, with_missed, with_given};
ghost use Rattle.reader_claims.specs.Views.{with_note, with_look};
ghost use Rattle.reader_claims.specs.Passes.{IsButRetired};
ghost use Rattle.reader_claims.specs.Machine.{Move, left_there};

use crate::plays::{
    Claimed, ClearPin, Give, LoadEpoch, LoadPin, LookSlot, RaiseEpoch, Retire, Settle, StorePin,
    Take, Withdraw,
};
use crate::view::{Sizes, View};
use crate::words::{EPOCH, FREE, LIVE, NO_PIN, Pin, SlotState};
use atomic_table::{Seat, Table};
use std::alloc::Global;

// The table of words.
#[derive(Drop)]
pub(crate) struct Words {
    pub(crate) table: Table<(), View, Sizes, Claimed, Global>,
    pub(crate) sizes: Sizes,
    ghost sized: { (table.shared.key ≡ sizes) × (table.shared.table_id.words ≡ first_slot + sizes.slots)
        × (sizes.readers ≤ max_seats) },
}

// A seat at the table. Its epoch is at most 2 ^ 60, so that what is one above it fits a word.
#[derive(Drop)]
pub(crate) struct TableSeat {
    pub(crate) seat: Seat<(), View>,
    pub(crate) number: u32,
    // What was retired at this number or below may be given, by the pins that were read since the epoch was loaded or
    // raised last. It is 0 until they were read.
    pub(crate) bound: u64,
    ghost own: { (seat.me.0.number ≡ number) × (0 < number) × (number ≤ max_seats) },
    ghost bare: { seat.me.1 ≡ [] },
    ghost low: { seat.me.0.reached ≤ 2 ^ 60 },
    ghost opens: { (r : ℕ) → 0 < r → r ≤ bound → ∥ IsOpen seat.me.0 r ∥₁ },
}

impl Words {
    ghost use Rattle.reader_claims.specs.Inside.Known.{words_id, reader_id, view};

    pub(crate) fn load_epoch(&self, reader: &mut TableSeat) -> u64
        requires { reader_id reader.old ≡ words_id self.now }
        ensures table { reader_id reader.new ≡ reader_id reader.old }
        ensures view { view reader.new ≡ with_epoch (view reader.old) result }
        ensures bound { ((view reader.old).reached ≤ result) × (result ≤ 2 ^ 60) }
        ensures step { Move (view reader.old) epoch_at result result (view reader.new) }
    {
        reader.bound = 0;
        self.table.shared.load::<LoadEpoch>(&mut reader.seat, EPOCH)
    }

    pub(crate) fn store_pin(&self, reader: &mut TableSeat, epoch: u64)
        requires { (reader_id reader.old ≡ words_id self.now) × (epoch ≤ 2 ^ 60) }
        ensures table { reader_id reader.new ≡ reader_id reader.old }
        ensures view { view reader.new ≡ with_pin (view reader.old) (Stored epoch) }
        ensures step { (x : ℕ) × Move (view reader.old) (pin_at (view reader.old).number)
            x (epoch + 1) (view reader.new) }
    {
        let number = reader.number;
        self.table.shared.store::<StorePin>(
            &mut reader.seat,
            Pin::place(number),
            Pin::Stored(epoch).word(),
        );
    }

    pub(crate) fn clear_pin(&self, reader: &mut TableSeat)
        requires { reader_id reader.old ≡ words_id self.now }
        ensures table { reader_id reader.new ≡ reader_id reader.old }
        ensures view { view reader.new ≡ with_pin (view reader.old) Absent }
        ensures step { (x : ℕ) × Move (view reader.old) (pin_at (view reader.old).number)
            x 0 (view reader.new) }
    {
        let number = reader.number;
        self.table
            .shared
            .store::<ClearPin>(&mut reader.seat, Pin::place(number), NO_PIN);
    }

    // The word of the pin of a reader.
    pub(crate) fn load_pin(&self, reader: &mut TableSeat, other: u32) -> u64
        requires table { reader_id reader.old ≡ words_id self.now }
        requires other { (0 < other) × (other ≤ max_seats) }
        ensures table { reader_id reader.new ≡ reader_id reader.old }
        ensures view { view reader.new ≡ with_read (view reader.old) other result }
        ensures step { Move (view reader.old) (pin_at other) result result (view reader.new) }
    {
        self.table
            .shared
            .load::<LoadPin>(&mut reader.seat, Pin::place(other))
    }

    // The word of a slot.
    pub(crate) fn look_slot(&self, reader: &mut TableSeat, slot: u32) -> u64
        requires { (reader_id reader.old ≡ words_id self.now) × (slot < self.now.sizes.slots) }
        ensures table { reader_id reader.new ≡ reader_id reader.old }
        ensures view { view reader.new ≡ with_look (view reader.old) slot result }
        ensures own { result ≡ slot_word (Taken (view reader.old).number) → In (view reader.old).taken slot }
        ensures step { Move (view reader.old) (slot_at slot) result result (view reader.new) }
    {
        self.table
            .shared
            .load::<LookSlot>(&mut reader.seat, SlotState::place(slot))
    }

    // The epoch found.
    pub(crate) fn raise_epoch(&self, reader: &mut TableSeat, n: u64) -> u64
        requires table { reader_id reader.old ≡ words_id self.now }
        requires seen { (n < 2 ^ 60) × (n ≤ (view reader.old).reached) }
        ensures table { reader_id reader.new ≡ reader_id reader.old }
        ensures view { view reader.new ≡ with_raise (view reader.old) (max result (n + 1)) }
        ensures bound { ((view reader.old).reached ≤ result) × (result ≤ 2 ^ 60) }
        ensures step { Move (view reader.old) epoch_at result (left_there n (n + 1) result) (view reader.new) }
    {
        reader.bound = 0;
        self.table
            .shared
            .compare_exchange::<RaiseEpoch>(&mut reader.seat, EPOCH, n, n + 1)
    }

    // The word found.
    pub(crate) fn take(&self, reader: &mut TableSeat, slot: u32) -> u64
        requires { (reader_id reader.old ≡ words_id self.now) × (slot < self.now.sizes.slots) }
        ensures table { reader_id reader.new ≡ reader_id reader.old }
        ensures won { result ≡ slot_word Free → view reader.new ≡ with_taken (view reader.old) slot }
        ensures fresh { result ≡ slot_word Free → In (view reader.old).taken slot → ⊥ }
        ensures lost { result ≢ slot_word Free
            → view reader.new ≡ with_note (view reader.old) slot (slot_word Free) result }
        ensures own { result ≢ slot_word Free → result ≡ slot_word (Taken (view reader.old).number)
            → In (view reader.old).taken slot }
        ensures step { Move (view reader.old) (slot_at slot)
            result (left_there (slot_word Free) (slot_word (Taken (view reader.old).number)) result) (view reader.new) }
    {
        let mine = SlotState::Taken(reader.number as u64).word();
        self.table
            .shared
            .compare_exchange::<Take>(&mut reader.seat, SlotState::place(slot), FREE, mine)
    }

    pub(crate) fn settle(&self, reader: &mut TableSeat, slot: u32)
        requires slot { (reader_id reader.old ≡ words_id self.now) × (slot < self.now.sizes.slots) }
        requires taken { In (view reader.old).taken slot }
        ensures table { reader_id reader.new ≡ reader_id reader.old }
        ensures view { view reader.new ≡ with_settled (view reader.old) slot }
        ensures step { Move (view reader.old) (slot_at slot)
            (slot_word (Taken (view reader.old).number)) (slot_word Live) (view reader.new) }
    {
        let mine = SlotState::Taken(reader.number as u64).word();
        self.table
            .shared
            .compare_exchange::<Settle>(&mut reader.seat, SlotState::place(slot), mine, LIVE);
    }

    pub(crate) fn withdraw(&self, reader: &mut TableSeat, slot: u32)
        requires slot { (reader_id reader.old ≡ words_id self.now) × (slot < self.now.sizes.slots) }
        requires taken { In (view reader.old).taken slot }
        ensures table { reader_id reader.new ≡ reader_id reader.old }
        ensures view { view reader.new ≡ with_withdrawn (view reader.old) slot }
        ensures step { Move (view reader.old) (slot_at slot)
            (slot_word (Taken (view reader.old).number)) (slot_word Free) (view reader.new) }
    {
        let mine = SlotState::Taken(reader.number as u64).word();
        self.table
            .shared
            .compare_exchange::<Withdraw>(&mut reader.seat, SlotState::place(slot), mine, FREE);
    }

    // The word found.
    pub(crate) fn retire(&self, reader: &mut TableSeat, slot: u32, r: u64) -> u64
        requires slot { (reader_id reader.old ≡ words_id self.now) × (slot < self.now.sizes.slots) }
        requires raised { (r ≡ (view reader.old).loaded + 1) × ((view reader.old).loaded < (view reader.old).reached) }
        ensures table { reader_id reader.new ≡ reader_id reader.old }
        ensures won { result ≡ slot_word Live → view reader.new ≡ with_retired (view reader.old) slot r }
        ensures lost { result ≢ slot_word Live
            → view reader.new ≡ with_missed (view reader.old) slot result }
        ensures kept { IsButRetired (view reader.old) (view reader.new) }
        ensures step { Move (view reader.old) (slot_at slot)
            result (left_there (slot_word Live) (slot_word (Retired r)) result) (view reader.new) }
    {
        let retired = SlotState::Retired(r).word();
        self.table
            .shared
            .compare_exchange::<Retire>(&mut reader.seat, SlotState::place(slot), LIVE, retired)
    }

    // The word found, of a slot that was retired at r.
    pub(crate) fn give(&self, reader: &mut TableSeat, slot: u32, r: u64) -> u64
        requires slot { (reader_id reader.old ≡ words_id self.now) × (slot < self.now.sizes.slots) }
        requires open_at { IsOpen (view reader.old) r }
        ensures table { reader_id reader.new ≡ reader_id reader.old }
        ensures won { result ≡ slot_word (Retired r) → view reader.new ≡ with_given (view reader.old) slot r }
        ensures lost { result ≢ slot_word (Retired r)
            → view reader.new ≡ with_note (view reader.old) slot (slot_word (Retired r)) result }
        ensures step { Move (view reader.old) (slot_at slot)
            result (left_there (slot_word (Retired r)) (slot_word Free) result) (view reader.new) }
    {
        let retired = SlotState::Retired(r).word();
        self.table
            .shared
            .compare_exchange::<Give>(&mut reader.seat, SlotState::place(slot), retired, FREE)
    }

    // What the word of a slot says now. It is no step, and tells nothing that lasts.
    pub(crate) fn look(&self, slot: u32) -> SlotState
        requires { slot < self.now.sizes.slots }
        ensures { IsSmall result }
    {
        SlotState::of_word(self.table.shared.peek(SlotState::place(slot)))
    }
}
