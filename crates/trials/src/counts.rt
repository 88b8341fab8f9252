//! How full a group is.
ghost use Rattle.commit_graph.specs.Seats.{IsSameSeat};

use crate::replies::Said;
use chunk_slots::{Append, Arena, Store};
use rebase::Client;
use script_mutators::ScriptMutators;
use std::alloc::Global;
use std::sync::Wait;

/// Stores whose slots are counted as far as they can be.
pub(crate) trait Counted: Store<ScriptMutators> + Drop {
    /// Appends the counts, as a client of the group finds them; nothing where the slots have no states.
    fn say_counts(alloc: Global, client: &mut Client<ScriptMutators, Self>, out: &mut Said)
        ensures { IsSameSeat client.old.seat client.new.seat };
}

impl Counted for Arena<ScriptMutators> {
    fn say_counts(alloc: Global, client: &mut Client<ScriptMutators, Self>, out: &mut Said) {
        let it = client.slots();
        let (ordinary, reserved) = (it.ordinary_free, it.reserved_free);
        let (live, retired, taken) = (it.live, it.retired, it.taken);
        let pinned = it.pinned_seats;
        out.say_made(format!(in alloc;
            "{ordinary}+{reserved} free, {live} live, {retired} retired, {taken} taken, {pinned} pinned"
        ));
    }
}

// Slots that are never used again have no states.
impl<R: Wait + Sync> Counted for Append<&R, ScriptMutators> {
    fn say_counts(_alloc: Global, _client: &mut Client<ScriptMutators, Self>, _out: &mut Said) {}
}
