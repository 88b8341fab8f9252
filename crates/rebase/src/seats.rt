//! The seats of a group.
//!
//! A group has as many seats as clients may use it at a time. A seat claims slots of the group's store, and
//! bears a number of the group's book. One that is out of use has no pin and no taken slot.
ghost use Rattle.std.specs.Prelude.{◌≡◌, ◌<◌, ◌≤◌, [], ◌∷◌, ◌++◌, length, map, reverse, IfOk, IfErr};
ghost use Rattle.std.specs.List.{All};
ghost use Rattle.group_history.specs.declared.refusals.Refusal.TheVariants as refusal;
ghost use Rattle.head_word.specs.Marks.{HasSeat};
ghost use Rattle.chunk_slots.specs.Seats.{IsIdle};
ghost use Rattle.commit_graph.specs.Seats.{GroupId, IsSeatOf};
ghost use Rattle.rebase.specs.Clients.{AreSeatsOf};

use chunk_slots::Slots;
use commit_graph::{ClientSeat, Shared};
use group_history::{Means, Refusal};
use head_word::Mark;
use std::alloc::AllocError;
use std::marker::Model;

/// A seat that no client sits on: what a client claims slots with, and what has been seen of the group's book.
#[derive(Drop)]
pub struct Seat<M: Means, S: Slots<M>> {
    pub(crate) seat: ClientSeat<M, S>,
}

impl<M: Means, S: Slots<M>> Model for Seat<M, S> {
    ghost use Rattle.std.specs.Coded.{codes};
    ghost use Rattle.head_word.specs.contracts.entry.Entry as entry;
    ghost use Rattle.chunk_slots.specs.Seats.{IsIdle};
    ghost use Rattle.commit_graph.specs.Seats.{SeatState};

    ghost Value = { SeatState };

    ghost coded = { Prim.hlevel (codes, entry.the_row.coded) };

    ghost view = { λ s. s.seat };

    ghost invariant = { λ s. S.reused → IsIdle s.seat.view };
}

/// The seats of a group that no client has.
#[derive(Drop)]
pub struct Seats<M: Means, S: Slots<M>> {
    free: Vec<Seat<M, S>>,
}

impl<M: Means, S: Slots<M>> Model for Seats<M, S> {
    ghost use Rattle.std.specs.Prelude.{vec_capacity};
    ghost use Rattle.std.specs.Coded.{codes};
    ghost use Rattle.head_word.specs.contracts.entry.Entry as entry;
    ghost use Rattle.rebase.specs.Clients.{SeatRow};

    ghost Value = { SeatRow };

    ghost coded = { Prim.hlevel (codes, entry.the_row.coded) };

    ghost view = { λ seats. record { free = seats.free.items; room = vec_capacity seats.free } };
}

// A seat for each of the marks, the first one last. Room for them is taken first.
pub(crate) fn seat_all<M: Means, S: Slots<M>>(
    shared: &Shared<M, S>,
    claimed: Vec<S::Seat>,
    marks: Vec<Mark<M>>,
) -> Result<Seats<M, S>, AllocError>
    requires count { length claimed.items ≡ length marks.items }
    requires seats { All (λ seat. (S.home seat ≡ shared.now.table)
        × (S.reused → IsIdle (S.view seat))) claimed.items }
    requires marks { All (HasSeat shared.now.book) marks.items }
    ensures count { IfOk result (λ all. length all.free ≡ length marks.items) }
    ensures seats { IfOk result (λ all. AreSeatsOf shared.now all.free) }
    ensures marks { IfOk result (λ all. marks.items ≡ reverse (map (λ seat. seat.mark) all.free)) }
    ensures views { IfOk result (λ all. map S.view claimed.items ≡ reverse (map (λ seat. seat.view) all.free)) }
{
    let (mut claimed, mut marks) = (claimed, marks);
    let mut free = Vec::with_capacity(shared.alloc, marks.len())?;
    while let Some(mark) = marks.pop() {
        let Some(slots) = claimed.pop() else {
            unreachable!()
        };
        let seat = ClientSeat { slots, mark };
        drop(free.push(Seat { seat }));
    }
    Ok(Seats { free })
}

impl<M: Means, S: Slots<M>> Seats<M, S> {
    /// A seat that no client has; `NoSeat` where all are out. Takes no memory.
    pub fn take(&mut self) -> Result<Seat<M, S>, Refusal>
        ensures room { IfOk result (λ _. length self.new.free < self.new.room) }
        ensures capacity { self.new.room ≡ self.old.room }
        ensures taken { IfOk result (λ seat. self.old.free ≡ self.new.free ++ seat ∷ []) }
        ensures none { IfErr result (λ e. (e ≡ refusal.NoSeat) × (self.old.free ≡ []) × (self.new.free ≡ [])) }
    {
        let Some(seat) = self.free.pop() else {
            return Err(Refusal::NoSeat);
        };
        Ok(seat)
    }

    /// Takes a seat back, which the next client has then: it begins from what the seat's last client had seen. The
    /// seat is one that was taken from here, so there is room for it. Takes no memory.
    pub fn back(&mut self, seat: Seat<M, S>)
        requires room { length self.old.free < self.old.room }
        ensures free { self.new.free ≡ self.old.free ++ seat ∷ [] }
        ensures group { (group : GroupId) → AreSeatsOf group self.old.free → IsSeatOf group seat
            → AreSeatsOf group self.new.free }
        ensures capacity { self.old.room ≤ self.new.room }
    {
        let _ = self.free.push(seat);
    }
}
