//! Some of the stamps that a walk has met.
//!
//! Nodes of one head share most of their children. A stamp has one place, which it gives up to the next one there:
//! so one look tells most of what was met before.
ghost use Rattle.std.specs.Prelude.{◌≡◌, ◌⊎◌, ◌<◌, ℕ, IfOk, IsTrue};
ghost use Rattle.std.specs.List.{Contains};

use std::alloc::{AllocError, Global};
use std::marker::Model;

const PLACES: usize = 1024;

/// Stamps, the one that was noted last at each place.
#[derive(Drop)]
pub struct Met {
    stamps: Vec<u64>,
}

impl Model for Met {
    ghost use Rattle.std.specs.Prelude.{◌≡◌, ℕ, List, length};

    ghost Value = { List ℕ };

    ghost view = { λ m. m.stamps.items };

    ghost invariant = { λ m. length m.stamps.items ≡ 1024 };
}

fn place_of(stamp: u64) -> usize
    ensures { result < 1024 }
{
    (stamp % PLACES as u64) as usize
}

impl Met {
    /// This stamp alone was met.
    pub fn new(alloc: Global, stamp: u64) -> Result<Met, AllocError>
        ensures { IfOk result (λ met. (x : ℕ) → Contains met x → x ≡ stamp) }
    {
        let stamps = Vec::from_elem(alloc, stamp, PLACES)?;
        Ok(Met { stamps })
    }

    /// Whether the stamp is known to be met. Not all that were met are known.
    pub fn has(&self, stamp: u64) -> bool
        ensures { IsTrue result → Contains self.now stamp }
    {
        self.stamps[place_of(stamp)] == stamp
    }

    pub fn note(&mut self, stamp: u64)
        ensures { (x : ℕ) → Contains self.new x → (x ≡ stamp) ⊎ Contains self.old x }
    {
        self.stamps[place_of(stamp)] = stamp;
    }
}
