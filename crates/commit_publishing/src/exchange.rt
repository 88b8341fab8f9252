//! What becomes of a draft that was placed: the head is moved to it, or it is given up.
ghost use Rattle.std.specs.Prelude.{◌≡◌, ◌≤◌, ◌++◌, List, [], map};
ghost use Rattle.std.specs.List.{All, Contains};
ghost use Rattle.group_history.specs.Refs.{slot_of, stamp_of};
ghost use Rattle.head_word.specs.Books.{drawn, IsChangeFrom};
ghost use Rattle.reader_claims.specs.Deeds.{Deed};
ghost use Rattle.head_word.specs.Marks.{own};
ghost use Rattle.linearized.specs.Trying.{Ends, IsMove, added};
ghost use Rattle.linearized.specs.declared.trying.Published.TheVariants as published;
ghost use Rattle.commit_graph.specs.Reach.{IsDropped};
ghost use Rattle.commit_graph.specs.Seats.{IsSeatOf, IsSameSeat};
ghost use Rattle.commit_publishing.specs.Retiring.{AreFreed, draft_deeds, unneeded};

use crate::retiring::retire_all;
use chunk_slots::Slots;
use commit_graph::{ClientSeat, Shared};
use group_history::{Change, Means, Ref};
use linearized::{Published, publish_at};

/// A draft that was placed at `refs`, and the move of the head from `base` to `new`, one of its commits, by a
/// change.
#[derive(Clone, Copy)]
pub struct Move<'a> {
    pub base: Ref,
    pub new: Ref,
    pub change: &'a Change,
    pub refs: &'a [Ref],
}

/// Moves the head to one of the nodes that were placed, and answers whether the exchange was won. Where it is won, the
/// slots of `left` are retired, which the old head alone reaches; where it is lost, those of the draft, which no head
/// ever reached. Takes no memory.
pub fn publish_draft<M: Means, S: Slots<M>>(
    shared: &Shared<M, S>,
    seat: &mut ClientSeat<M, S>,
    to: &Move<'_>,
    left: &[Ref],
) -> Published
    requires home { IsSeatOf shared.now seat.old }
    requires none { S.reused → seat.old.view.taken ≡ [] }
    requires drafted { S.reused → (before : List Deed)
        × (seat.old.view.deeds ≡ draft_deeds (map slot_of to.now.refs.now) [] before) }
    requires among { Contains to.now.refs.now to.now.new }
    requires follows { IsChangeFrom M.means (drawn seat.old.mark.log) to.now.base to.now.new to.now.change.now }
    requires left { All (λ at. IsDropped (drawn seat.old.mark.log) (stamp_of to.now.base) (stamp_of to.now.new)
        (stamp_of at)) left.now }
    ensures seat { IsSameSeat seat.old seat.new }
    ensures ends { Ends M.means seat.old.mark seat.new.mark to.now.base to.now.change.now result }
    ensures goes { result ≡ published.Won
        → IsMove seat.old.mark seat.new.mark to.now.base to.now.new to.now.change.now }
    ensures own { own seat.new.mark
        ≡ own seat.old.mark ++ added seat.old.mark.seat to.now.new to.now.change.now result }
    ensures none { S.reused → seat.new.view.taken ≡ [] }
    ensures loads { S.reused → seat.old.view.epoch_loads ≤ seat.new.view.epoch_loads }
    ensures reached { S.reused → seat.old.view.reached ≤ seat.new.view.reached }
    ensures freed { S.reused → AreFreed shared.now.table.sizes.slots seat.new.view.reached
        (map slot_of (unneeded result to.now.refs.now left.now)) seat.old.view.deeds seat.new.view.deeds }
{
    match publish_at(&shared.head, &mut seat.mark, to.base, to.new, to.change) {
        Ok(()) => {
            retire_all::<M, S>(&shared.store, &mut seat.slots, left);
            return Published::Won;
        }
        Err(_moved) => {
            retire_all::<M, S>(&shared.store, &mut seat.slots, to.refs);
            return Published::Lost;
        }
    }
}

/// Gives up a draft that was placed at `refs`, before any exchange: retires their slots. Takes no memory.
pub fn abandon_draft<M: Means, S: Slots<M>>(
    shared: &Shared<M, S>,
    seat: &mut ClientSeat<M, S>,
    refs: &[Ref],
)
    requires home { IsSeatOf shared.now seat.old }
    requires none { S.reused → seat.old.view.taken ≡ [] }
    ensures seat { IsSameSeat seat.old seat.new }
    ensures mark { seat.new.mark ≡ seat.old.mark }
    ensures none { S.reused → seat.new.view.taken ≡ [] }
    ensures loads { S.reused → seat.old.view.epoch_loads ≤ seat.new.view.epoch_loads }
    ensures reached { S.reused → seat.old.view.reached ≤ seat.new.view.reached }
    ensures freed { S.reused → AreFreed shared.now.table.sizes.slots seat.new.view.reached (map slot_of refs.now)
        seat.old.view.deeds seat.new.view.deeds }
{
    retire_all::<M, S>(&shared.store, &mut seat.slots, refs);
}
