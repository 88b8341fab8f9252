//! Why an exchange of one of the two words added nothing.
ghost use Rattle.std.specs.Prelude.{◌≡◌};
ghost use Rattle.group_history.specs.declared.refusals.Refusal.TheVariants as refusal;
ghost use Rattle.head_word.specs.Marks.{lost_refusal};

use group_history::Refusal;
use thiserror::Error;

/// Why a draft was not added.
#[derive(Clone, Copy, Debug, PartialEq, Eq, Error)]
pub enum Lost {
    #[error("another seat changed the book first: call again")]
    Moved,
    #[error("the group has too few stamps left: open a new group")]
    Stamps,
}

/// Why a move was not added: the head is not at the base any more.
#[derive(Clone, Copy, Debug, PartialEq, Eq, Error)]
#[error("another seat moved the head first: load it, and try again from there")]
pub struct Moved;

impl From<Lost> for Refusal {
    ghost from_gives = { λ lost refused. refused ≡ lost_refusal lost };

    fn from(lost: Lost) -> Refusal {
        match lost {
            Lost::Moved => Refusal::Moved,
            Lost::Stamps => Refusal::Stamps,
        }
    }
}

impl From<Moved> for Refusal {
    ghost from_gives = { λ _ refused. refused ≡ refusal.Moved };

    fn from(_moved: Moved) -> Refusal {
        Refusal::Moved
    }
}
