//! What a head has.
ghost use Rattle.std.specs.Prelude.{◌≡◌, ◌⊎◌, Some, IsSome, IfOk, IfErr};
ghost use Rattle.commit_graph.specs.Chains.{IsBaseOf};
ghost use Rattle.group_history.specs.Pulling.{left_pending};
ghost use Rattle.group_history.specs.Refs.{stamp_of};
ghost use Rattle.group_history.specs.Spelling.{Version, version_at};
ghost use Rattle.group_history.specs.declared.refusals.Refusal.TheVariants.{NoMemory};
ghost use Rattle.change_drafts.specs.Chaining.{HasTip};
ghost use Rattle.change_drafts.specs.Refusing.{StopsAs};

use crate::tips::Tip;
use commit_graph::{Base, Nodes, top_of, walk_left};
use group_history::{ConfirmedIds, Mutation, Ref, Refusal};
use std::alloc::Global;
use transactions::{Fixed, NamesContents};

/// What one look at a head tells: the tip of its chain, and whether the group is closed there.
#[derive(Clone, Copy)]
pub struct TipLook {
    pub tip: Tip,
    pub closed: bool,
}

/// Looks at a head. Takes no memory.
pub fn look_at<N: Nodes + Copy, K: NamesContents>(nodes: N, head: Ref) -> Result<TipLook, Refusal>
    requires known { N.contents nodes ≡ K.known }
    requires place { N.places nodes head }
    requires version { IsSome (version_at K.known (stamp_of head)) }
    ensures tip { (v : Version) → version_at K.known (stamp_of head) ≡ Some v
        → IfOk result (λ look. HasTip K.known look.tip v) }
    ensures closed { (v : Version) → version_at K.known (stamp_of head) ≡ Some v
        → IfOk result (λ look. look.closed ≡ v.state.closed) }
    ensures err { IfErr result (StopsAs N.stops) }
{
    let mut fixed = Fixed::<N, K>::new(nodes);
    let top = top_of(&mut fixed, head)?;
    let tip = Tip {
        commit: head,
        snapshot: top.snapshot,
        root: top.root,
    };
    Ok(TipLook {
        tip,
        closed: top.closed,
    })
}

/// What the server last sent, by a look at the snapshot that the head told.
pub fn base_at<N: Nodes + Copy, K: NamesContents>(nodes: N, tip: Tip) -> Result<Base, Refusal>
    requires known { N.contents nodes ≡ K.known }
    requires place { N.places nodes tip.snapshot }
    requires tip { (v : Version) × HasTip K.known tip v }
    ensures base { (v : Version) → HasTip K.known tip v → IfOk result (IsBaseOf K.known v.state) }
    ensures err { IfErr result (λ e. (e ≡ NoMemory) ⊎ StopsAs N.stops e) }
{
    let mut fixed = Fixed::<N, K>::new(nodes);
    let base = commit_graph::base_at(&mut fixed, tip.snapshot)?;
    Ok(base)
}

/// What stays pending at a head where these ids are confirmed, the oldest first, each to be replayed.
pub fn left_at<N: Nodes + Copy, K: NamesContents>(
    alloc: Global,
    nodes: N,
    head: Ref,
    confirmed: &ConfirmedIds,
) -> Result<Vec<Mutation>, Refusal>
    requires known { N.contents nodes ≡ K.known }
    requires place { N.places nodes head }
    requires version { IsSome (version_at K.known (stamp_of head)) }
    ensures left { (v : Version) → version_at K.known (stamp_of head) ≡ Some v
        → IfOk result (λ xs. xs.items ≡ left_pending confirmed.now v.state.pending) }
    ensures err { IfErr result (λ e. (e ≡ NoMemory) ⊎ StopsAs N.stops e) }
{
    let mut fixed = Fixed::<N, K>::new(nodes);
    let left = walk_left(alloc, &mut fixed, head, confirmed)?;
    Ok(left)
}
