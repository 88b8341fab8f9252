// A slot's number, and which slots a call looks at.
ghost use Rattle.std.specs.Prelude.{◌≡◌, ℕ};

use std::marker::Model;

/// A slot of the table, by its number from 0 on.
#[derive(Clone, Copy, PartialEq, Eq)]
pub struct Slot {
    number: u32,
}

impl Model for Slot {
    ghost Value = { ℕ };

    ghost view = { λ s. s.number };

    ghost inverse = { λ n. record { number = n } };
}

impl Slot {
    /// A number that a table's call gave, read back from where it was kept.
    pub fn new(number: u32) -> Slot
        ensures { result ≡ number }
    {
        Slot { number }
    }

    pub fn number(self) -> u32
        ensures { result ≡ self }
    {
        self.number
    }
}

/// Which slots a call looks at: the ordinary ones, or the reserved ones too, which are the last
/// quarter of all.
#[derive(Clone, Copy)]
pub enum Kind {
    Ordinary,
    PullEnd,
}
