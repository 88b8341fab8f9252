//! The steps of a query: a seat is pinned before the head is looked at, and has no pin afterwards.
ghost use Rattle.std.specs.Prelude.{◌≡◌, ◌<◌, ◌≤◌, ◌^◌, true, Ok, Some, IfOk, IfErr};
ghost use Rattle.group_history.specs.declared.refusals.Refusal.TheVariants.{Busy};
ghost use Rattle.group_history.specs.Record.{after};
ghost use Rattle.group_history.specs.Refs.{stamp_of};
ghost use Rattle.group_history.specs.State.{last_id};
ghost use Rattle.head_word.specs.Books.{drawn, last_move, record_of};
ghost use Rattle.head_word.specs.Marks.{others};
ghost use Rattle.reader_claims.specs.declared.words.Pin.TheVariants.{Absent};
ghost use Rattle.reader_claims.specs.Views.{with_pin};
ghost use Rattle.chunk_slots.specs.Seats.{IsPinned};
ghost use Rattle.commit_graph.specs.LastIds.{last_at};
ghost use Rattle.commit_graph.specs.Seats.{HasLooked, IsSeatOf, is_held};
ghost use Rattle.commit_graph.specs.declared.states.LastId.{LastId as Found};
ghost use Rattle.linearized.specs.Answered.{IsLinearized, IsPoint, no_change};
ghost use Rattle.linearized.specs.Trying.{IsBase};
ghost use Rattle.change_tries.specs.Arriving.{IsArrived, when_seen};
ghost use Rattle.change_tries.specs.Missing.{IsStoreRefusal, map_ok};

use crate::group::SharedGroup;
use crate::places::At;
use crate::views::last_known;
use chunk_slots::Slots;
use commit_graph::{ClientSeat, LastId, Shared};
use group_history::{Means, Ref, Refusal, Text};
use head_word::Mark;
use linearized::look;

/// Pins the seat, and looks where the head is.
#[inline(always)]
pub fn pin_and_load<M: Means, S: Slots<M>>(
    shared: &Shared<M, S>,
    seat: &mut ClientSeat<M, S>,
    tries: u32,
) -> Result<Ref, Refusal>
    requires home { IsSeatOf shared.now seat.old }
    ensures looked { HasLooked S.reused seat.old seat.new }
    ensures point { IfOk result (λ _. IsPoint M.means seat.old.mark seat.new.mark None seat.new.mark.log) }
    ensures base { IfOk result (λ at. IsBase M.means seat.new.mark at (after (record_of seat.new.mark.log))) }
    ensures last { IfOk result (λ at. at ≡ last_move seat.new.mark.log) }
    ensures others { others seat.old.mark ≤ others seat.new.mark }
    ensures held { S.reused → IfOk result (λ _. is_held seat.new.view.pin ≡ true) }
    ensures pinned { S.reused → IfOk result (λ _. IsPinned seat.old.view seat.new.view tries) }
    ensures busy { IfErr result (λ e. (e ≡ Busy) × S.reused × (seat.new.mark ≡ seat.old.mark)) }
    ensures unpinned { S.reused → IfErr result (λ _. seat.new.view.pin ≡ Absent) }
{
    shared.store.pin(&mut seat.slots, tries)?;
    Ok(look(&shared.head, &mut seat.mark))
}

/// Takes the pin away.
pub fn unpin<M: Means, S: Slots<M>>(shared: &Shared<M, S>, seat: &mut ClientSeat<M, S>)
    requires home { IsSeatOf shared.now seat.old }
    ensures looked { HasLooked S.reused seat.old seat.new }
    ensures view { S.reused → seat.new.view ≡ with_pin seat.old.view Absent }
    ensures mark { seat.new.mark ≡ seat.old.mark }
{
    shared.store.unpin(&mut seat.slots);
}

/// Where the head was when a call looked, and what had been seen then; and the first stamp that was not drawn when it
/// looked at the stamps.
#[derive(Drop)]
pub struct Arrival<M: Means> {
    pub seen: Mark<M>,
    pub base: Ref,
    pub first: u64,
}

/// Pins the seat, looks where the head is, and then which stamps are drawn.
pub fn pin_and_load_both<M: Means, S: Slots<M>>(
    shared: &Shared<M, S>,
    seat: &mut ClientSeat<M, S>,
    tries: u32,
) -> Result<Arrival<M>, Refusal>
    requires home { IsSeatOf shared.now seat.old }
    ensures looked { HasLooked S.reused seat.old seat.new }
    ensures arrived { IfOk result (λ at. IsArrived M.means seat.old.mark (when_seen seat.old.mark at.seen.log)
        seat.new.mark at.base at.first) }
    ensures held { S.reused → IfOk result (λ _. is_held seat.new.view.pin ≡ true) }
    ensures busy { IfErr result (λ e. (e ≡ Busy) × S.reused × (seat.new.mark ≡ seat.old.mark)) }
    ensures unpinned { S.reused → IfErr result (λ _. seat.new.view.pin ≡ Absent) }
{
    let base = pin_and_load(shared, seat, tries)?;
    let seen = seat.mark.copy();
    let first = shared.head.next(&mut seat.mark);
    Ok(Arrival { seen, base, first })
}

/// Finds a client's last id at the head, where it was found at a commit before or never.
pub fn find_last<M: Means, S: Slots<M>>(
    group: &SharedGroup<M, S>,
    seat: &mut ClientSeat<M, S>,
    client: &Text,
    before: Option<LastId>,
    tries: u32,
) -> Result<LastId, Refusal>
    requires home { IsSeatOf group.now.shared seat.old }
    requires before { (found : Found) → before ≡ Some found
        → last_at (drawn seat.old.mark.log) (stamp_of found.at) client.now ≡ Some found.id }
    ensures looked { HasLooked S.reused seat.old seat.new }
    ensures answer { IsLinearized M.means tries seat.old.mark seat.new.mark (map_ok
        (λ found. found.id) result) no_change
        (λ s. Ok (last_id s client.now)) }
    ensures found { IfOk result (λ found. last_at (drawn seat.new.mark.log) (stamp_of found.at) client.now
        ≡ Some found.id) }
    ensures low { IfOk result (λ found. found.id < 2 ^ 53) }
    ensures missed { IfErr result (IsStoreRefusal S.reused) }
    ensures unpinned { S.reused → seat.new.view.pin ≡ Absent }
{
    let at = pin_and_load(&group.shared, seat, tries)?;
    let sought = last_known(&At::new(group, seat, &seat.mark, at, tries), client, before);
    unpin(&group.shared, seat);
    Ok(LastId { at, id: sought?.id })
}
