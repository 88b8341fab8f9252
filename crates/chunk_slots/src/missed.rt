//! Why a slot or a pin was not had.
ghost use Rattle.std.specs.Prelude.{◌≡◌};
ghost use Rattle.group_history.specs.declared.refusals.Refusal.TheVariants as refusal;

use group_history::{Refusal, Stop};
use thiserror::Error;

/// A counted slot or a pin was lost as often as the call tries.
#[derive(Clone, Copy, Debug, PartialEq, Eq, Error)]
#[error("a slot or a pin was lost to other clients, as often as the call tries: call again")]
pub struct Busy;

/// Why a node was not shown.
#[derive(Clone, Copy, Debug, PartialEq, Eq, Error)]
pub enum StoreStop {
    /// The slot was lost as often as the call tries.
    #[error("the slot was lost to other clients, as often as the call tries: call again")]
    Busy,
    /// The slot shows no node, or one of another stamp.
    #[error("the slot shows no node of this stamp: load the head, and look again from there")]
    Gone,
}

impl From<Busy> for Refusal {
    ghost from_gives = { λ _ refused. refused ≡ refusal.Busy };

    fn from(_busy: Busy) -> Refusal {
        Refusal::Busy
    }
}

impl From<StoreStop> for Refusal {
    ghost use Rattle.chunk_slots.specs.Missing.{refusal_of};

    ghost from_gives = { λ missed refused. refused ≡ refusal_of missed };

    fn from(missed: StoreStop) -> Refusal {
        match missed {
            StoreStop::Busy => Refusal::Busy,
            StoreStop::Gone => Refusal::Gone,
        }
    }
}

impl From<StoreStop> for Stop {
    ghost use Rattle.chunk_slots.specs.Missing.{stop_of};

    ghost from_gives = { λ missed stop. stop ≡ stop_of missed };

    fn from(missed: StoreStop) -> Stop {
        match missed {
            StoreStop::Busy => Stop::Busy,
            StoreStop::Gone => Stop::Gone,
        }
    }
}
