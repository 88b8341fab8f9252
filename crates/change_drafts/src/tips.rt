//! New commits in a draft.
//!
//! A commit's map is drafted before the commit itself. Both are told as a `Tip`, from which the next
//! commit goes on.
ghost use Rattle.std.specs.Prelude.{◌≡◌, ◌⊎◌, ◌+◌, ◌<◌, ◌≤◌, [], ◌∷◌, true, false, length, Some, IfOk, IfErr};
ghost use Rattle.std.specs.FinMap as finite;
ghost use mathlib.Core.List.{IsPrefix};
ghost use Rattle.group_history.specs.Cookies.{null_cookie};
ghost use Rattle.group_history.specs.Map.{Entries};
ghost use Rattle.group_history.specs.Mutating.{after_mutate};
ghost use Rattle.group_history.specs.Pulling.{after_closing};
ghost use Rattle.group_history.specs.Refs.{stamp_of};
ghost use Rattle.group_history.specs.Spelling.{Contents, Version, version_at, snapshot_at, map_at, stepped};
ghost use Rattle.group_history.specs.Spelling.{tells_right};
ghost use Rattle.group_history.specs.State.{opening, pulled_state};
ghost use Rattle.group_history.specs.declared.refusals.Refusal.TheVariants.{NoMemory, Stamps};
ghost use Rattle.map_chunks.specs.Drafts.{AddsNeeded, AreBelow, AreNeeded, IsLate};
ghost use Rattle.map_chunks.specs.Places.{with_nodes};
ghost use Rattle.map_tree.specs.Trees.{tree_map, tree_places};
ghost use Rattle.change_drafts.specs.Chaining.{HasTip};

use group_history::{
    Chunk, Commit, CommitChange, CommitKind, ConfirmedIds, Cookie, Keys, Leaf, Mutation, Node, Ref,
    Refusal, Snapshot, Successor, TextMap,
};
use map_tree::{Draft, Tree};
use std::alloc::{AllocError, Global};
use std::sync::Arc;

/// The newest commit of a chain, the snapshot at which the chain begins, and the root of the map that
/// queries read at the commit.
#[derive(Clone, Copy)]
pub struct Tip {
    pub commit: Ref,
    pub snapshot: Ref,
    pub root: Ref,
}

/// A new mutation, and each client's last id before it, where its commit is to tell them.
#[derive(Drop)]
pub struct NewLocal {
    pub mutation: Mutation,
    pub told: Option<ConfirmedIds>,
}

/// Drafts a commit over a basis, with the map of this root, which may tell each client's last id at the basis.
#[inline(always)]
pub(crate) fn add_over(
    draft: &mut Draft,
    basis: Tip,
    root: Ref,
    step: CommitChange,
    told: Option<ConfirmedIds>,
) -> Result<Tip, Refusal>
    requires below { AreBelow (draft.old.first + length draft.old.nodes) (root ∷ basis.commit ∷ basis.snapshot ∷ []) }
    ensures spelled { (contents : Contents) (v : Version) (m : Entries) → length contents ≡ draft.old.first
        → version_at (with_nodes contents draft.old.nodes) (stamp_of basis.commit) ≡ Some v
        → snapshot_at (with_nodes contents draft.old.nodes) (stamp_of basis.commit) ≡ Some (stamp_of basis.snapshot)
        → v.state.closed ≡ false → tells_right told v.state ≡ true
        → map_at (with_nodes contents draft.old.nodes) (stamp_of root) ≡ Some m
        → IfOk result (λ tip. HasTip (with_nodes contents draft.new.nodes) tip
        (record { state = stepped v.state step; read = m })) }
    ensures needed { IfOk result (λ tip. AddsNeeded (root ∷ basis.commit ∷ basis.snapshot ∷ []) (tip.commit ∷ [])
        draft.old draft.new) }
    ensures first { draft.new.first ≡ draft.old.first }
    ensures new { IfOk result (λ tip. draft.old.first ≤ stamp_of tip.commit) }
    ensures grown { IsPrefix draft.old.nodes draft.new.nodes }
    ensures some { IfOk result (λ _. 0 < length draft.new.nodes) }
    ensures why { IfErr result (λ e. (e ≡ NoMemory) ⊎ (e ≡ Stamps)) }
    ensures late { IfErr result (λ e. e ≡ Stamps → IsLate draft.old.first) }
{
    let snapshot = basis.snapshot;
    let over = Successor {
        basis: basis.commit,
        snapshot,
        step,
        told,
    };
    let commit = draft.push_commit(Commit {
        root,
        kind: CommitKind::Over(over),
    })?;
    Ok(Tip {
        commit,
        snapshot,
        root,
    })
}

/// Drafts what a tree has new, and a local commit of its map.
pub fn add_local(
    alloc: Global,
    draft: &mut Draft,
    tree: Tree,
    basis: Tip,
    new: NewLocal,
) -> Result<Tip, Refusal>
    requires map { AreBelow (draft.old.first + length draft.old.nodes) (tree_places tree) }
    requires chain { AreBelow (draft.old.first + length draft.old.nodes) (basis.commit ∷ basis.snapshot ∷ []) }
    ensures spelled { (contents : Contents) (v : Version) (m : Entries) → length contents ≡ draft.old.first
        → version_at (with_nodes contents draft.old.nodes) (stamp_of basis.commit) ≡ Some v
        → snapshot_at (with_nodes contents draft.old.nodes) (stamp_of basis.commit) ≡ Some (stamp_of basis.snapshot)
        → v.state.closed ≡ false → tells_right new.told v.state ≡ true
        → tree_map (with_nodes contents draft.old.nodes) tree ≡ Some m
        → IfOk result (λ tip. HasTip (with_nodes contents draft.new.nodes) tip
        (record { state = after_mutate v.state new.mutation; read = m })) }
    ensures needed { IfOk result (λ tip. AddsNeeded (basis.commit ∷ []) (tip.commit ∷ []) draft.old draft.new) }
    ensures first { draft.new.first ≡ draft.old.first }
    ensures new { IfOk result (λ tip. draft.old.first ≤ stamp_of tip.commit) }
    ensures grown { IsPrefix draft.old.nodes draft.new.nodes }
    ensures some { IfOk result (λ _. 0 < length draft.new.nodes) }
    ensures why { IfErr result (λ e. (e ≡ NoMemory) ⊎ (e ≡ Stamps)) }
    ensures late { IfErr result (λ e. e ≡ Stamps → IsLate draft.old.first) }
{
    let root = tree.freeze(alloc, draft)?;
    let NewLocal { mutation, told } = new;
    let tip = add_over(draft, basis, root, CommitChange::Local(mutation), told)?;
    Ok(tip)
}

/// Drafts a commit that closes the group. It has the map of its basis.
pub fn add_closing(draft: &mut Draft, basis: Tip) -> Result<Ref, Refusal>
    requires below { AreBelow (draft.old.first + length draft.old.nodes)
        (basis.root ∷ basis.commit ∷ basis.snapshot ∷ []) }
    ensures spelled { (contents : Contents) (v : Version) → length contents ≡ draft.old.first
        → HasTip (with_nodes contents draft.old.nodes) basis v → v.state.closed ≡ false
        → IfOk result (λ at. version_at (with_nodes contents draft.new.nodes) (stamp_of at)
        ≡ Some (record { state = after_closing v.state; read = v.read })) }
    ensures needed { IfOk result (λ at. AddsNeeded (basis.commit ∷ []) (at ∷ []) draft.old draft.new) }
    ensures some { IfOk result (λ _. 0 < length draft.new.nodes) }
    ensures first { draft.new.first ≡ draft.old.first }
    ensures new { IfOk result (λ at. draft.old.first ≤ stamp_of at) }
    ensures why { IfErr result (λ e. (e ≡ NoMemory) ⊎ (e ≡ Stamps)) }
    ensures late { IfErr result (λ e. e ≡ Stamps → IsLate draft.old.first) }
{
    let tip = add_over(draft, basis, basis.root, CommitChange::Closed, None)?;
    Ok(tip.commit)
}

/// Drafts what a tree has new, and a snapshot of its map.
pub fn add_snapshot(
    alloc: Global,
    draft: &mut Draft,
    tree: Tree,
    cookie: Cookie,
    confirmed: ConfirmedIds,
) -> Result<Tip, Refusal>
    requires map { AreBelow (draft.old.first + length draft.old.nodes) (tree_places tree) }
    ensures spelled { (contents : Contents) (m : Entries) → length contents ≡ draft.old.first
        → tree_map (with_nodes contents draft.old.nodes) tree ≡ Some m
        → IfOk result (λ tip. HasTip (with_nodes contents draft.new.nodes) tip
        (record { state = pulled_state m cookie confirmed; read = m })) }
    ensures needed { IfOk result (λ tip. AddsNeeded [] (tip.commit ∷ []) draft.old draft.new) }
    ensures first { draft.new.first ≡ draft.old.first }
    ensures new { IfOk result (λ tip. draft.old.first ≤ stamp_of tip.commit) }
    ensures grown { IsPrefix draft.old.nodes draft.new.nodes }
    ensures some { IfOk result (λ _. 0 < length draft.new.nodes) }
    ensures why { IfErr result (λ e. (e ≡ NoMemory) ⊎ (e ≡ Stamps)) }
    ensures late { IfErr result (λ e. e ≡ Stamps → IsLate draft.old.first) }
{
    let root = tree.freeze(alloc, draft)?;
    let kind = CommitKind::Snapshot(Snapshot { cookie, confirmed });
    let commit = draft.push_commit(Commit { root, kind })?;
    Ok(Tip {
        commit,
        snapshot: commit,
        root,
    })
}

fn empty_leaf(alloc: Global) -> Result<Leaf, AllocError>
    ensures { IfOk result (λ leaf. leaf ≡ []) }
{
    let keys = Arc::new(alloc, Keys::new(Vec::new(alloc)))?;
    Ok(Leaf::new(keys, Vec::new(alloc)))
}

/// Drafts an empty leaf and the snapshot with which a group opens, from stamp 0 on.
pub fn add_opening(alloc: Global, draft: &mut Draft) -> Result<Ref, Refusal>
    requires { draft.old ≡ record { first = 0; nodes = [] } }
    ensures spelled { IfOk result (λ at. version_at (with_nodes [] draft.new.nodes) (stamp_of at)
        ≡ Some (record { state = opening; read = finite.empty })) }
    ensures needed { IfOk result (λ at. AreNeeded 0 draft.new.nodes (at ∷ [])) }
    ensures first { draft.new.first ≡ 0 }
    ensures err { IfErr result (λ e. e ≡ NoMemory) }
{
    let root = draft.push(Node::Chunk(Chunk::Leaf(empty_leaf(alloc)?)))?;
    let cookie = Cookie::null(alloc)?;
    let confirmed = ConfirmedIds::new(alloc, TextMap::new(alloc))?;
    let kind = CommitKind::Snapshot(Snapshot { cookie, confirmed });
    let head = draft.push_commit(Commit { root, kind })?;
    Ok(head)
}
