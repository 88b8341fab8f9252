//! The commits of a client group, in one place.
//!
//! A commit is a snapshot, which is what the server last sent, or one over the commit before it: a local commit, which
//! adds a mutation, or one that closes the group. This crate has no code of its own. It hands on what the layers have
//! of commits: their types (`group_history`), how a head is read and what a rebase lets go (`commit_graph`), how a
//! draft is placed and the head moved to it (`commit_publishing`), and the law that no slot which a head or a reader
//! can reach is used again (`reclamation_law`).
#![tactic(auto)]

pub use commit_graph::{
    Base, ClientSeat, CommitState, LastId, Nodes, Shared, ShowsCommit, StoreNodes, Top, VecNodes,
    base_of, closed_of, cookie_of, dropped, last_id_since, state_of, top_of, walk,
};
pub use commit_publishing::{Move, abandon_draft, place_draft, publish_draft};
pub use group_history::CommitChange::{Closed, Local};
pub use group_history::{Commit, CommitChange, CommitKind, Ref, Snapshot, Successor};
pub use reclamation_law::joined_law;
