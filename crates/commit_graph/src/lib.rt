//! What the commits of a client group mean, and how a head is read.
//!
//! A commit is a snapshot, which is what the server last sent, or one over the commit before it, which adds a mutation
//! or closes the group. So a head spells a state by the chain below it. The nodes are read where they were placed,
//! through `Nodes`; nothing here changes one. Every call asks that the head's commit spells a version. That slots are
//! not used again while the head or a reader can reach them is the law of `reclamation_law`.
//!
//! `dropped(old, new)` lists what the old head reaches and the new one does not, each once, by falling stamps. Let R be
//! the root of the new head's pulled map. The new head reaches all that R reaches, so reach(old) - reach(new) =
//! (reach(old) - reach(R)) - (reach(new) - reach(R)), and both walks may pass over whatever R reaches. Whether R
//! reaches a chunk is one descent by the chunk's first key: it meets the chunk, or R does not reach it. So a tree that
//! a pull shares with the past is not looked through, and the answer is exact for any two heads. A chunk that was made
//! anew has most of its children in common with the chunk at the same place of R's tree: one descent leads there, and
//! what it has is passed over by its stamps, with no descent for each. A mutation drops nothing.
//!
//! A client's last id is that of the newest of its commits, or else what the snapshot confirmed. The search begins at
//! the head and ends at the first commit of the client, at one that tells each client's last id before it, or where the
//! id was found before; else it goes down to the snapshot. Which commits tell them is a matter of cost; what a commit
//! tells is right, or it spells nothing (`tells_right`).
//!
//! Decisions. `StoreNodes` reads a store as if its contents were constant: each shown node comes with a mark, and of
//! two marks of one book one is a prefix of the other, so what is shown of a stamp that the reader's mark knows is what
//! this mark says. It asks that a pin of a seat of the same group is held. `VecNodes` is `VecChunks` by another name.
//!
//! Tested by counting what is shown: that the shared pulled map is passed over, and that a cookie is two looks away.
#![tactic(auto)]

mod ahead;
mod beside;
mod chains;
mod founds;
mod frontiers;
mod gaps;
mod handing;
mod keeping;
mod left;
mod looks;
mod meeting;
mod merging;
mod met;
mod near;
mod nodes;
mod reaching;
mod seats;
mod shelves;
mod states;
mod stores;
mod telling;

pub use chains::{Base, Top};
pub use handing::{TakesMutations, hand_pending};
pub use left::walk_left;
pub use map_chunks::VecChunks as VecNodes;
pub use nodes::{Nodes, ShowsCommit};
pub use reaching::dropped;
pub use seats::{ClientSeat, Shared};
pub use shelves::LentCommit;
pub use states::{
    CommitState, LastId, NEAR_COMMITS, SoughtId, base_at, base_of, closed_of, cookie_of,
    last_id_since, read_root, state_of, top_of, walk,
};
pub use stores::{HeldChunk, HeldCommit, StoreNodes};
pub use telling::last_ids_at;
