//! The quick search for a slot, by plain loads.
ghost use Rattle.std.specs.Prelude.{◌≡◌, ◌+◌, ◌-◌, ◌^◌, ◌<◌, ◌≤◌, MatchOption};
ghost use Rattle.reader_claims.specs.Machine.{Moves};
ghost use Rattle.reader_claims.specs.Passes.{Takes};
ghost use Rattle.reader_claims.specs.Inside.Scans.{Later};

use crate::passes::Look;
use crate::steps::{TableSeat, Words};
use crate::words::{FREE, SlotState};

// How many slots are looked at beside where the last one was found, and at how many spread places, before all are.
const NEAR: u32 = 8;

const PROBES: u32 = 16;

impl Words {
    ghost use Rattle.reader_claims.specs.Inside.Known.{words_id, reader_id, view};
    ghost use Rattle.reader_claims.specs.Inside.Looked.{IfTook};

    // Gives a slot that was found as retired at r, and takes it, if the pins that were read leave it open.
    fn quick_give(&self, reader: &mut TableSeat, slot: u32, r: u64) -> Look
        requires slot { (reader_id reader.old ≡ words_id self.now) × (slot < self.now.sizes.slots) }
        requires small { r < 2 ^ 63 - 1 }
        ensures table { reader_id reader.new ≡ reader_id reader.old }
        ensures moves { Moves (view reader.old) (view reader.new) }
        ensures later { Later (view reader.old) (view reader.new) }
        ensures taken { IfTook result (slot + 1) (view reader.old) (view reader.new) }
    {
        if r == 0 || reader.bound < r {
            return Look::Retired(slot);
        }
        if self.give(reader, slot, r) != SlotState::Retired(r).word() {
            return Look::Nothing;
        }
        if self.take(reader, slot) == FREE {
            Look::Took(slot)
        } else {
            Look::Nothing
        }
    }

    // Takes the slot if a plain load finds it free, or retired and open.
    fn quick_at(&self, reader: &mut TableSeat, slot: u32) -> Look
        requires { (reader_id reader.old ≡ words_id self.now) × (slot < self.now.sizes.slots) }
        ensures table { reader_id reader.new ≡ reader_id reader.old }
        ensures moves { Moves (view reader.old) (view reader.new) }
        ensures later { Later (view reader.old) (view reader.new) }
        ensures taken { IfTook result (slot + 1) (view reader.old) (view reader.new) }
    {
        match self.look(slot) {
            SlotState::Free => {}
            SlotState::Retired(r) => return self.quick_give(reader, slot, r),
            SlotState::Taken(_) | SlotState::Live => return Look::Nothing,
        }
        if self.take(reader, slot) == FREE {
            Look::Took(slot)
        } else {
            Look::Nothing
        }
    }

    // Takes the first slot that a plain load finds free or open, and stops at the first that is retired and not known
    // as open.
    #[inline(always)]
    fn quick(&self, reader: &mut TableSeat, from: u32, end: u32) -> Look
        requires { (reader_id reader.old ≡ words_id self.now) × (end ≤ self.now.sizes.slots) }
        ensures table { reader_id reader.new ≡ reader_id reader.old }
        ensures moves { Moves (view reader.old) (view reader.new) }
        ensures later { Later (view reader.old) (view reader.new) }
        ensures taken { IfTook result end (view reader.old) (view reader.new) }
    {
        for slot in from..end {
            let look = self.quick_at(reader, slot);
            let Look::Nothing = look else {
                return look;
            };
        }
        Look::Nothing
    }

    // The same, but what is retired and not known as open is passed over.
    pub(crate) fn quick_over(&self, reader: &mut TableSeat, from: u32, end: u32) -> Option<u32>
        requires { (reader_id reader.old ≡ words_id self.now) × (end ≤ self.now.sizes.slots) }
        ensures table { reader_id reader.new ≡ reader_id reader.old }
        ensures moves { Moves (view reader.old) (view reader.new) }
        ensures later { Later (view reader.old) (view reader.new) }
        ensures taken { MatchOption result
            ((view reader.new).taken ≡ (view reader.old).taken)
            (λ i. (i < end) × Takes (view reader.old) (view reader.new) i) }
    {
        for slot in from..end {
            if let Look::Took(found) = self.quick_at(reader, slot) {
                return Some(found);
            }
        }
        None
    }

    // As `quick`, at places that are spread over the slots.
    fn probe(&self, reader: &mut TableSeat, end: u32) -> Look
        requires { (reader_id reader.old ≡ words_id self.now) × (end ≤ self.now.sizes.slots) }
        ensures table { reader_id reader.new ≡ reader_id reader.old }
        ensures moves { Moves (view reader.old) (view reader.new) }
        ensures later { Later (view reader.old) (view reader.new) }
        ensures taken { IfTook result end (view reader.old) (view reader.new) }
    {
        let step = end / PROBES + 1;
        for place in 0..PROBES {
            let slot = place * step;
            if slot >= end {
                return Look::Nothing;
            }
            let look = self.quick_at(reader, slot);
            let Look::Nothing = look else {
                return look;
            };
        }
        Look::Nothing
    }

    // As `quick`, at a few slots from `start` on, and then at spread places.
    #[inline(always)]
    fn quick_few(&self, reader: &mut TableSeat, start: u32, end: u32) -> Look
        requires { (reader_id reader.old ≡ words_id self.now) × (start ≤ end) × (end ≤ self.now.sizes.slots) }
        ensures table { reader_id reader.new ≡ reader_id reader.old }
        ensures moves { Moves (view reader.old) (view reader.new) }
        ensures later { Later (view reader.old) (view reader.new) }
        ensures taken { IfTook result end (view reader.old) (view reader.new) }
    {
        let look = self.quick(reader, start, start.saturating_add(NEAR).min(end));
        let Look::Nothing = look else {
            return look;
        };
        self.probe(reader, end)
    }

    // The same from `start` to the end, and then from 0.
    #[inline(never)]
    fn quick_whole(&self, reader: &mut TableSeat, start: u32, end: u32) -> Look
        requires { (reader_id reader.old ≡ words_id self.now) × (start ≤ end) × (end ≤ self.now.sizes.slots) }
        ensures table { reader_id reader.new ≡ reader_id reader.old }
        ensures moves { Moves (view reader.old) (view reader.new) }
        ensures later { Later (view reader.old) (view reader.new) }
        ensures taken { IfTook result end (view reader.old) (view reader.new) }
    {
        let look = self.quick(reader, start, end);
        let Look::Nothing = look else {
            return look;
        };
        self.quick(reader, 0, start)
    }

    // The same at a few places first, and then at all.
    #[inline(always)]
    pub(crate) fn quick_round(&self, reader: &mut TableSeat, start: u32, end: u32) -> Look
        requires { (reader_id reader.old ≡ words_id self.now) × (start ≤ end) × (end ≤ self.now.sizes.slots) }
        ensures table { reader_id reader.new ≡ reader_id reader.old }
        ensures moves { Moves (view reader.old) (view reader.new) }
        ensures later { Later (view reader.old) (view reader.new) }
        ensures taken { IfTook result end (view reader.old) (view reader.new) }
    {
        let look = self.quick_few(reader, start, end);
        let Look::Nothing = look else {
            return look;
        };
        self.quick_whole(reader, start, end)
    }
}
