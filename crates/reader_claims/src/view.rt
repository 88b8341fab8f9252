// What a seat of the claims table knows, and how large the table is.
ghost use Rattle.std.specs.Prelude.{ℕ, List};
ghost use Rattle.std.specs.Borrow.{ftrue};
ghost use Rattle.reader_claims.specs.Notes.{Note, notes_code};
ghost use Rattle.reader_claims.specs.Deeds.{Deed, deeds_code};

use crate::words::Pin;
use std::marker::Model;

/// How many readers and slots a table has.
#[derive(Clone, Copy)]
pub struct Sizes {
    pub readers: u32,
    pub slots: u32,
}

/// What a seat knows. It is a word of contracts: no value of it is made.
pub struct View {
    // Those of the seat's table.
    pub sizes: Sizes,
    // From 1 on, and 0 for the seat that makes the others.
    pub ghost number: { ℕ },
    // Of that one: the number that the next seat gets.
    pub ghost next: { ℕ },
    pub pin: Pin,
    // How often its pin was stored, or taken away.
    pub ghost stores: { ℕ },
    // What the last load of the epoch read.
    pub ghost loaded: { ℕ },
    // What the load before that one read.
    pub ghost loaded_before: { ℕ },
    // How often it loaded the epoch.
    pub ghost epoch_loads: { ℕ },
    // The epoch that was last read or raised past.
    pub ghost reached: { ℕ },
    // How often it raised the epoch, or found it raised.
    pub ghost raises: { ℕ },
    // The pins read since the epoch was last read or raised past: the reader, and the word of its
    // pin.
    pub ghost read: { List (ℕ × ℕ) },
    // The slots that are its own.
    pub ghost taken: { List ℕ },
    // The slots settled since the own pin was last stored.
    pub ghost settled: { List ℕ },
    // The slots that it withdrew, the newest first.
    pub ghost withdrawn: { List ℕ },
    // The slots that it retired, each with the number, the newest first.
    pub ghost retired: { List (ℕ × ℕ) },
    // The exchanges of slots that it lost since the epoch was last loaded, and its gives, the newest
    // first.
    pub ghost notes: { List Note } by { notes_code },
    // All that it did to slots and to the epoch, the newest first. What it gave is not among it.
    pub ghost deeds: { List Deed } by { deeds_code },
    // The greatest number at which the seat gave a slot. No lower pin is held, now or later.
    pub ghost floor: { ℕ },
}

impl Model for View {
    ghost also_owns = { λ _. ftrue };
}
