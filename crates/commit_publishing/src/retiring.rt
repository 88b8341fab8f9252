//! Slots that are retired, since the head reaches them no more, or never did.
ghost use Rattle.std.specs.Prelude.{◌≡◌, [], map};
ghost use Rattle.group_history.specs.Refs.{slot_of};
ghost use Rattle.chunk_slots.specs.Seats.{MayRetire};
ghost use Rattle.commit_publishing.specs.Retiring.{AreFreed, AreLetGo};
ghost use Rattle.commit_publishing.specs.Inside.Steps.{StepsOn};

use chunk_slots::Slots;
use group_history::{Means, Ref};

// Retires the slots of the references at this number.
fn retire_at<M: Means, S: Slots<M>>(store: &S, seat: &mut S::Seat, refs: &[Ref], r: u64)
    requires home { S.home seat.old ≡ S.serves store.now }
    requires raised { S.reused → MayRetire (S.view seat.old) r }
    requires none { S.reused → (S.view seat.old).taken ≡ [] }
    ensures home { S.home seat.new ≡ S.serves store.now }
    ensures none { S.reused → (S.view seat.new).taken ≡ [] }
    ensures steps { S.reused → StepsOn (S.view seat.old) (S.view seat.new) }
    ensures retired { S.reused → AreLetGo (S.serves store.now).sizes.slots r (map slot_of refs.now)
        (S.view seat.old).deeds (S.view seat.new).deeds }
{
    for at in refs {
        store.retire(seat, at.slot(), r);
    }
}

/// Raises the epoch, and then retires the slots of the references. At the last epoch nothing is retired,
/// and where there is nothing to retire the epoch stays.
pub(crate) fn retire_all<M: Means, S: Slots<M>>(store: &S, seat: &mut S::Seat, refs: &[Ref])
    requires home { S.home seat.old ≡ S.serves store.now }
    requires none { S.reused → (S.view seat.old).taken ≡ [] }
    ensures home { S.home seat.new ≡ S.serves store.now }
    ensures none { S.reused → (S.view seat.new).taken ≡ [] }
    ensures steps { S.reused → StepsOn (S.view seat.old) (S.view seat.new) }
    ensures freed { S.reused → AreFreed (S.serves store.now).sizes.slots (S.view seat.new).reached
        (map slot_of refs.now)
        (S.view seat.old).deeds (S.view seat.new).deeds }
{
    if refs.is_empty() {
        return;
    }
    if let Some(r) = store.raise(seat) {
        retire_at::<M, S>(store, seat, refs, r);
    }
}
