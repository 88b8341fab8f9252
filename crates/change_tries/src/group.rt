//! A group that clients share.
use chunk_slots::Slots;
use commit_graph::Shared;
use group_history::Means;
use push_body::Identity;

/// What the clients of a group share: its nodes and its head, its mutators, and whose requests it writes.
#[derive(Drop)]
pub struct SharedGroup<M: Means, S: Slots<M>> {
    pub shared: Shared<M, S>,
    pub mutators: M,
    pub identity: Identity,
}
