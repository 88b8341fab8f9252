//! How a group is laid out.
ghost use Rattle.std.specs.Prelude.{◌≡◌, ◌≤◌, Some, None, IfOk, IfErr};
ghost use Rattle.group_history.specs.Refs.{max_slots, max_seats};
ghost use Rattle.rebase.specs.Configs.{min_slots, out_of_range};

use group_history::{MAX_SEATS, MAX_SLOTS};
use push_body::Identity;
use std::marker::Model;
use thiserror::Error;

/// A group has at least so many slots.
pub const MIN_SLOTS: u32 = 16;

/// Why a group can't be laid out so. The number is the one that was asked for.
#[derive(Clone, Copy, Debug, PartialEq, Eq, Error)]
pub enum OutOfRange {
    #[error("a group has 16 to 16777216 slots, not {0}")]
    Slots(u32),
    #[error("a group has 1 to 256 seats, not {0}")]
    Seats(u32),
}

/// Whose requests a group writes, how many slots its nodes have, and how many clients may use it at a time.
///
/// Each commit and each chunk takes one slot. Opening takes two, and a quarter of the slots, rounded down, is
/// kept for the end of a pull that leaves nothing pending.
#[derive(Drop)]
pub struct Config {
    identity: Identity,
    slots: u32,
    seats: u32,
}

impl Model for Config {
    ghost use Rattle.std.specs.Prelude.{◌≤◌};
    ghost use Rattle.group_history.specs.Refs.{max_slots, max_seats};
    ghost use Rattle.rebase.specs.Configs.{Layout, min_slots};

    ghost Value = { Layout };

    ghost view = { λ c. record { identity = c.identity; slots = c.slots; seats = c.seats } };

    ghost invariant = { λ c. (min_slots ≤ c.slots) × (c.slots ≤ max_slots) × (1 ≤ c.seats) × (c.seats ≤ max_seats) };
}

impl Config {
    /// 16 to 16,777,216 slots, and 1 to 256 seats; else `OutOfRange`. Where both are out of range, it is the slots that
    /// are told.
    pub fn new(identity: Identity, slots: u32, seats: u32) -> Result<Config, OutOfRange>
        ensures fits { IfOk result (λ _. out_of_range slots seats ≡ None) }
        ensures identity { IfOk result (λ config. config.identity ≡ identity) }
        ensures sizes { IfOk result (λ config. (config.slots ≡ slots) × (config.seats ≡ seats)) }
        ensures err { IfErr result (λ e. out_of_range slots seats ≡ Some e) }
    {
        if slots < MIN_SLOTS || u64::from(slots) > MAX_SLOTS {
            return Err(OutOfRange::Slots(slots));
        }
        if seats < 1 || u64::from(seats) > MAX_SEATS {
            return Err(OutOfRange::Seats(seats));
        }
        Ok(Config {
            identity,
            slots,
            seats,
        })
    }

    /// Whose requests the group writes.
    pub fn identity(&self) -> &Identity
        ensures { result.now ≡ self.now.identity }
    {
        &self.identity
    }

    /// How many slots its nodes have.
    pub fn slots(&self) -> u32
        ensures slots { result ≡ self.now.slots }
        ensures in_range { (min_slots ≤ result) × (result ≤ max_slots) }
    {
        self.slots
    }

    /// How many clients may use it at a time.
    pub fn seats(&self) -> u32
        ensures seats { result ≡ self.now.seats }
        ensures in_range { (1 ≤ result) × (result ≤ max_seats) }
    {
        self.seats
    }

    /// Whose requests the group writes.
    pub fn into_identity(self) -> Identity
        ensures { result ≡ self.identity }
    {
        self.identity
    }
}
