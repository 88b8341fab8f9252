//! What stays pending of a chain where more ids are confirmed.
//!
//! A mutation that is confirmed isn't copied on the way. Most commits in a row are of one client, so the id that was
//! asked for last mostly serves once more.
ghost use Rattle.std.specs.Prelude.{◌≡◌, ◌⊎◌, [], ◌∷◌, Some, IfOk, IfErr, IfSome, OnOk, IsSome};
ghost use Rattle.group_history.specs.Refs.{stamp_of};
ghost use Rattle.group_history.specs.Pulling.{left_pending};
ghost use Rattle.group_history.specs.Spelling.{Version, version_at};
ghost use Rattle.group_history.specs.State.{Ids, confirmed_id};
ghost use Rattle.group_history.specs.declared.mutators.Stop.TheVariants.{NoMemory};
ghost use Rattle.map_chunks.specs.Places.{Grows};
ghost use Rattle.group_history.specs.declared.nodes.Commit.{Commit as Committed};
ghost use Rattle.group_history.specs.declared.refs.Ref.{Ref as Reference};
ghost use Rattle.commit_graph.specs.Inside.Chains.{IsShownAt, added_by, basis_of, listed};
ghost use Rattle.commit_graph.specs.Inside.Handing.{added_in};
ghost use Rattle.commit_graph.specs.Inside.Left.{IsAsked, Keeps};

use crate::chains::look_at_commit;
use crate::nodes::Nodes;
use group_history::{
    Commit, CommitChange, CommitKind, Confirmed, ConfirmedIds, Mutation, Ref, Stop, Text,
};
use std::alloc::{AllocError, Global};

/// The mutations that stay pending, the newest first, and the confirmed id that was asked for last.
#[derive(Drop)]
pub struct LeftPending {
    mutations: Vec<Mutation>,
    asked: Option<Confirmed>,
}

fn asked_of(asked: &Option<Confirmed>, client: &Text) -> Option<u64>
    ensures { (ids : Ids) → IsAsked ids asked.now → IfSome result (λ id. id ≡ confirmed_id ids client.now) }
{
    match asked {
        Some(known) if known.client == *client => Some(known.id),
        _ => None,
    }
}

fn confirmed_of(
    asked: &mut Option<Confirmed>,
    client: &Text,
    ids: &ConfirmedIds,
) -> Result<u64, AllocError>
    ensures { IsAsked ids.now asked.old → IfOk result (λ id. (id ≡ confirmed_id ids.now client.now)
        × IsAsked ids.now asked.new) }
{
    if let Some(id) = asked_of(asked, client) {
        return Ok(id);
    }
    let id = ids.of(client);
    let client = client.clone()?;
    *asked = Some(Confirmed { client, id });
    Ok(id)
}

fn keep(left: &mut LeftPending, mutation: &Mutation, ids: &ConfirmedIds) -> Result<(), AllocError>
    ensures { IsAsked ids.now left.old.asked
        → OnOk result (Keeps ids.now left.old left.new (mutation.now ∷ [])) }
{
    if confirmed_of(&mut left.asked, &mutation.fields().client, ids)? < mutation.fields().id {
        let again = mutation.rebased(*left.mutations.allocator())?;
        left.mutations.push(again)?;
    }
    Ok(())
}

fn keep_added(
    left: &mut LeftPending,
    step: &CommitChange,
    ids: &ConfirmedIds,
) -> Result<(), AllocError>
    ensures { IsAsked ids.now left.old.asked
        → OnOk result (Keeps ids.now left.old left.new (listed (added_by step.now))) }
{
    match step {
        CommitChange::Local(mutation) => keep(left, mutation, ids),
        CommitChange::Closed => Ok(()),
    }
}

// Keeps what a commit adds, and tells the commit before it; none for a snapshot.
fn keep_left(
    left: &mut LeftPending,
    commit: &Commit<Ref>,
    ids: &ConfirmedIds,
) -> Result<Option<Ref>, AllocError>
    ensures basis { IfOk result (λ basis. basis ≡ basis_of commit.now) }
    ensures kept { IsAsked ids.now left.old.asked
        → OnOk result (Keeps ids.now left.old left.new (listed (added_in commit.now.kind))) }
{
    match &commit.kind {
        CommitKind::Snapshot(_) => Ok(None),
        CommitKind::Over(over) => {
            keep_added(left, &over.step, ids)?;
            Ok(Some(over.basis))
        }
    }
}

// Keeps what the commit of a reference adds, and tells the one before it.
fn keep_at<N: Nodes>(
    nodes: &mut N,
    at: Ref,
    left: &mut LeftPending,
    ids: &ConfirmedIds,
) -> Result<Option<Ref>, Stop>
    requires known { IsSome (version_at (N.contents nodes.old) (stamp_of at)) }
    requires place { N.places nodes.old at }
    ensures grown { Grows N.contents N.places nodes.old nodes.new }
    ensures kept { IsAsked ids.now left.old.asked → IfOk result (λ basis. (c : Committed Reference)
        × IsShownAt (N.places nodes.new) (N.contents nodes.new) (stamp_of at) c × (basis ≡ basis_of c)
        × Keeps ids.now left.old left.new (listed (added_in c.kind))) }
    ensures stopped { IfErr result (λ stop. (stop ≡ NoMemory) ⊎ N.stops stop) }
{
    let basis = look_at_commit(
        nodes,
        at,
        &mut |commit|
            ensures basis { IfOk result (λ basis. basis ≡ basis_of commit.now) }
            ensures kept { IsAsked ids.entry.now left.entry.now.asked → OnOk result
                (Keeps ids.entry.now left.entry.now left.exit.now (listed (added_in commit.now.kind))) }
        { keep_left(left, commit, ids) },
    )??;
    Ok(basis)
}

/// The pending mutations of a commit that ids don't confirm, the oldest first, each to be replayed for the reason
/// Rebase. Stops where the nodes stop, or for want of memory.
pub fn walk_left<N: Nodes>(
    alloc: Global,
    nodes: &mut N,
    head: Ref,
    ids: &ConfirmedIds,
) -> Result<Vec<Mutation>, Stop>
    requires known { IsSome (version_at (N.contents nodes.old) (stamp_of head)) }
    requires place { N.places nodes.old head }
    ensures grown { Grows N.contents N.places nodes.old nodes.new }
    ensures left { (v : Version) → version_at (N.contents nodes.old) (stamp_of head) ≡ Some v
        → IfOk result (λ xs. xs.items ≡ left_pending ids.now v.state.pending) }
    ensures stopped { IfErr result (λ stop. (stop ≡ NoMemory) ⊎ N.stops stop) }
{
    let mut left = LeftPending {
        mutations: Vec::new(alloc),
        asked: None,
    };
    let mut at = head;
    while let Some(basis) = keep_at(nodes, at, &mut left, ids)? {
        at = basis;
    }
    let LeftPending {
        mut mutations,
        asked,
    } = left;
    drop(asked);
    mutations.reverse();
    Ok(mutations)
}
