//! New commits of a client group, drafted over whatever shows the nodes that are placed.
//!
//! A mutation extends the newest map by one run of its mutator (`run_known`, `add_local`). A pull that is applied
//! patches the pulled map (`add_patched`), and runs each mutation that stays pending on what those before it left
//! (`run_pending`, `add_replayed`). All of it only reads what is placed, and writes what is new into a `Draft` behind
//! it: so a refused one has changed no group. How a pull ends is `pull_outcome`.
//!
//! A group runs the mutators that it has (`Has`, `Runs`), and asks its caller for the runs of others. The caller reads
//! and writes the map of such a run (`RunMap`), and says how it ended.
//!
//! A rebase runs what stays pending on one tree, and its last commit alone has that map. Queries read at heads, and no
//! commit before it is ever one: these have the pulled map's root. In a map of one leaf a pull that leaves k mutations
//! takes 3 + k slots so, where a map for each commit takes 2 + 2 k. What a mutator that isn't done wrote is taken back,
//! by notes of what was there (`undoing.rt`), so there is one map whatever refuses. Notes cost, and a mutator seldom
//! refuses: where the group has all mutators none are taken at first, and where one isn't done all are run once more,
//! with notes. A chunk that something is put back into is a new one: so where that was done, the mutations that were
//! done are run a third time, alone. Where a run is asked for, notes are taken of all.
//!
//! Where many mutations stay pending, the last commit of a rebase tells each client's last id before it
//! (`told_before_last`): so the next mutation needn't look at all of them.
//!
//! Nothing is drafted in vain: each node is a child of a later one, and the last one is the newest commit
//! (`AddsNeeded`).
//!
//! What is placed is named by the type (`NamesContents`), and any reference may be looked for there. Such nodes may
//! stop, and then the refusal says why (`StopsAs`).
//!
//! Tested: that a mutation's map shares all chunks but those on its way, that an empty pull shares the pulled map, and
//! how many slots a rebase takes.
#![tactic(auto)]

mod asked;
mod locals;
mod looks;
mod mutators;
mod patches;
mod pulls;
mod runs;
mod telling;
mod tips;
mod undoing;

pub use asked::{Key, RunMap};
pub use locals::{LastCommit, add_replayed, run_pending, tree_if_done};
pub use looks::{TipLook, base_at, left_at, look_at};
pub use mutators::{Has, Runs};
pub use pulls::{add_patched, confirmed_after, pull_outcome};
pub use runs::{Left, OwnRun, Replayed, Run, Setting, replay_on, run_known};
pub use telling::told_before_last;
pub use tips::{NewLocal, Tip, add_closing, add_local, add_opening};
