//! Where a call stands.
ghost use Rattle.std.specs.Prelude.{◌≡◌};
ghost use mathlib.Core.List.{IsPrefix};
ghost use Rattle.group_history.specs.Record.{after};
ghost use Rattle.head_word.specs.Books.{drawn, record_of};
ghost use Rattle.commit_graph.specs.Seats.{IsReading};
ghost use Rattle.linearized.specs.Trying.{IsBase};
ghost use Rattle.change_tries.specs.Places.{IsHeadPlace, place};

use crate::group::SharedGroup;
use chunk_slots::Slots;
use commit_graph::{ClientSeat, StoreNodes};
use group_history::{Means, Ref};
use head_word::Mark;
use map_chunks::Chunks;
use std::marker::Model;

/// A commit of a group, read by a seat whose pin is held; and what had been seen when the head was there. Where slots
/// are used again, a slot that is lost to others is tried for `tries` times.
pub struct At<'a, M: Means, S: Slots<M>> {
    pub group: &'a SharedGroup<M, S>,
    pub seat: &'a ClientSeat<M, S>,
    pub seen: &'a Mark<M>,
    pub commit: Ref,
    pub tries: u32,
}

impl<'a, M: Means, S: Slots<M>> Model for At<'a, M, S> {
    ghost use Rattle.std.specs.Coded.{codes};
    ghost use Rattle.head_word.specs.contracts.entry.Entry as entry;
    ghost use Rattle.commit_graph.specs.Seats.{IsReading};
    ghost use Rattle.change_tries.specs.Places.{HeadPlace, IsHeadPlace, place};

    ghost Value = { HeadPlace };

    ghost coded = { Prim.hlevel (codes, entry.the_row.coded) };

    ghost view = { λ at. place at.group.now.identity at.seen.now.log at.seat.now.mark at.commit };

    ghost invariant = { λ at. IsReading S.reused at.group.now.shared at.seat.now
        × IsHeadPlace M.means (place at.group.now.identity at.seen.now.log at.seat.now.mark at.commit) };
}

impl<M: Means, S: Slots<M>> Drop for At<'_, M, S> {
    fn drop(self) {
        let At {
            group: _,
            seat: _,
            seen: _,
            commit: _,
            tries: _,
        } = self;
    }
}

impl<'a, M: Means, S: Slots<M>> At<'a, M, S> {
    pub fn new(
        group: &'a SharedGroup<M, S>,
        seat: &'a ClientSeat<M, S>,
        seen: &'a Mark<M>,
        commit: Ref,
        tries: u32,
    ) -> At<'a, M, S>
        requires reading { IsReading S.reused group.now.shared seat.now }
        requires since { IsPrefix seen.now.log seat.now.mark.log }
        requires base { IsBase M.means seat.now.mark commit (after (record_of seen.now.log)) }
        ensures place { result ≡ place group.now.identity seen.now.log seat.now.mark commit }
        ensures is { IsHeadPlace M.means result }
    {
        seen.legal();
        At {
            group,
            seat,
            seen,
            commit,
            tries,
        }
    }

    /// The nodes that the seat knows.
    pub fn nodes(&self) -> StoreNodes<'a, M, S>
        ensures nodes { ⟦<StoreNodes<'a, M, S> as Chunks>⟧.contents result ≡ drawn self.now.mark.log }
        ensures is { IsHeadPlace M.means self.now }
    {
        let (group, seat) = (self.group, self.seat);
        StoreNodes::new(&group.shared, seat, &seat.mark, self.tries)
    }
}
