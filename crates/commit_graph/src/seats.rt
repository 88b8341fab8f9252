//! What the clients of a group share, and what each of them has of it.
//!
//! Contracts see what is shared as the group's name (`GroupId`): the book of its head, and the claims table of its
//! store. A seat is of a group where both are its own (`IsSeatOf`).
use chunk_slots::Slots;
use group_history::Means;
use head_word::{Head, Mark};
use std::alloc::Global;
use std::marker::Model;

/// What the clients of a group share: a store of nodes, the head of the book whose nodes it has, and where memory is
/// taken from.
#[derive(Drop)]
pub struct Shared<M: Means, S: Slots<M>> {
    pub alloc: Global,
    pub store: S,
    pub head: Head<M>,
}

impl<M: Means, S: Slots<M>> Model for Shared<M, S> {
    ghost use Rattle.std.specs.Prelude.{◌≡◌};
    ghost use Rattle.commit_graph.specs.Seats.{GroupId};

    ghost Value = { GroupId };

    ghost view = { λ shared. record { book = shared.head; table = S.serves shared.store } };

    ghost invariant = { λ shared. S.book shared.store ≡ shared.head };
}

/// A seat of a group: what its client claims slots with, and what it has seen of the book, which knows the seat by
/// a number.
pub struct ClientSeat<M: Means, S: Slots<M>> {
    pub slots: S::Seat,
    pub mark: Mark<M>,
}

impl<M: Means, S: Slots<M>> Drop for ClientSeat<M, S> {
    fn drop(self) {
        let ClientSeat { slots, mark } = self;
        drop(slots);
        drop(mark);
    }
}

impl<M: Means, S: Slots<M>> Model for ClientSeat<M, S> {
    ghost use Rattle.std.specs.Prelude.{IsSome};
    ghost use Rattle.std.specs.Coded.{codes};
    ghost use Rattle.head_word.specs.contracts.entry.Entry as entry;
    ghost use Rattle.commit_graph.specs.Seats.{SeatState};

    ghost Value = { SeatState };

    ghost coded = { Prim.hlevel (codes, entry.the_row.coded) };

    ghost view = { λ seat. record { table = S.home seat.slots; view = S.view seat.slots; mark = seat.mark } };

    ghost invariant = { λ seat. IsSome seat.mark.seat };
}
