// The words of the table: where each stands, and which number stands for a pin or a slot. Nothing
// else packs or unpacks one.
ghost use Rattle.std.specs.Prelude.{◌≡◌, ◌≤◌, ◌<◌, ◌^◌};

use group_history::MAX_SEATS;

/// A reader's pin, as its own seat knows it. Another seat reads a held pin as stored.
#[derive(Clone, Copy)]
pub enum Pin {
    Absent,
    /// Stored at an epoch that was not read again since.
    Stored(u64),
    /// The epoch was read as this number after the pin was stored.
    Held(u64),
}

/// What a slot's word says.
#[derive(Clone, Copy)]
pub enum SlotState {
    Free,
    /// By the reader of this number.
    Taken(u64),
    Live,
    /// At this epoch: no pin below it may be held when the slot is given.
    Retired(u64),
}

pub(crate) const EPOCH: usize = 0;

pub(crate) const FIRST_SLOT: usize = 8 * (MAX_SEATS as usize + 1);

pub(crate) const FREE: u64 = 0;

pub(crate) const LIVE: u64 = 1;

pub(crate) const NO_PIN: u64 = 0;

impl Pin {
    ghost use Rattle.group_history.specs.Refs.{max_seats};
    ghost use Rattle.reader_claims.specs.Words.{pin_at, pin_word, IsSmallPin};

    // Where the pin of a reader stands.
    pub(crate) fn place(reader: u32) -> usize
        requires { reader ≤ max_seats }
        ensures { result ≡ pin_at reader }
    {
        8 * reader as usize
    }

    pub(crate) fn word(self) -> u64
        requires { IsSmallPin self }
        ensures { result ≡ pin_word self }
    {
        match self {
            Pin::Absent => NO_PIN,
            Pin::Stored(epoch) | Pin::Held(epoch) => epoch + 1,
        }
    }

    pub(crate) fn of_word(word: u64) -> Pin
        ensures word { pin_word result ≡ word }
        ensures small { IsSmallPin result }
    {
        if word == NO_PIN {
            Pin::Absent
        } else {
            Pin::Stored(word - 1)
        }
    }
}

impl SlotState {
    ghost use Rattle.reader_claims.specs.Words.{slot_at, slot_word, IsSmall};

    // Where the word of a slot stands.
    pub(crate) fn place(slot: u32) -> usize
        ensures { result ≡ slot_at slot }
    {
        FIRST_SLOT + slot as usize
    }

    pub(crate) fn word(self) -> u64
        requires { IsSmall self }
        ensures { result ≡ slot_word self }
    {
        match self {
            SlotState::Free => FREE,
            SlotState::Taken(reader) => 2 * reader + 2,
            SlotState::Live => LIVE,
            SlotState::Retired(epoch) => 2 * epoch + 3,
        }
    }

    // Each word is the word of one state.
    pub(crate) fn of_word(word: u64) -> SlotState
        ensures word { slot_word result ≡ word }
        ensures small { IsSmall result }
    {
        if word == FREE {
            SlotState::Free
        } else if word == LIVE {
            SlotState::Live
        } else if word % 2 == 0 {
            SlotState::Taken((word - 2) / 2)
        } else {
            SlotState::Retired((word - 3) / 2)
        }
    }
}
