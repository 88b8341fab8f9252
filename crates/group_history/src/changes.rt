//! The kinds of change of a group, and how each is answered.
use crate::cookies::Cookie;
use crate::mutations::Mutation;
use crate::responses::{Ended, PullOk};

/// A change of a group: an entry of its record.
#[derive(Drop)]
pub enum Change {
    /// An accepted mutation. Its reply is its id.
    Mutated(Mutation),

    /// An applied end of a pull: the ticket's cookie, and the response.
    Pulled(Cookie, PullOk),

    /// An end of a pull whose response says that the server doesn't know the group. Nothing is accepted
    /// after it.
    Closed,
}

/// The reply to a change.
#[derive(Clone, Copy, PartialEq, Eq)]
pub enum Reply {
    /// The new mutation's id.
    Id(u64),

    /// How an end of a pull was answered.
    Ended(Ended),

    /// An end of a pull was refused with StateNotFound, and closed the group.
    StateNotFound,
}

impl Change {
    ghost use Rattle.std.specs.Prelude.{◌≡◌};
    ghost use Rattle.group_history.specs.Record.{reply_of};

    /// The reply that goes with the change in a record: a mutation's id, `Applied`, or the closing.
    pub fn reply(&self) -> Reply
        ensures { result ≡ reply_of self.now }
    {
        match self {
            Change::Mutated(mutation) => Reply::Id(mutation.fields().id),
            Change::Pulled(_, _) => Reply::Ended(Ended::Applied),
            Change::Closed => Reply::StateNotFound,
        }
    }
}
