//! What a head reaches, and what a new head leaves behind.
//!
//! A walk always looks at the greatest stamp ahead of it. So it lists what a head reaches by falling
//! stamps, each once, and two such lists are compared in one pass.
ghost use Rattle.std.specs.Prelude.{◌≡◌, ◌⊎◌, Some, slice_get, ◌↔◌, ◌++◌, [], ◌∷◌, ℕ, IfOk, IfErr, OnOk, IsSome};
ghost use Rattle.std.specs.List.{Contains};
ghost use Rattle.group_history.specs.Refs.{stamp_of};
ghost use Rattle.group_history.specs.Spelling.{version_at, map_at};
ghost use Rattle.group_history.specs.Naming.{children, content_of};
ghost use Rattle.group_history.specs.declared.nodes.Node.{Node as Noded};
ghost use Rattle.group_history.specs.declared.refs.Ref.{Ref as Reference};
ghost use Rattle.group_history.specs.declared.mutators.Stop.TheVariants.{NoMemory};
ghost use Rattle.commit_graph.specs.declared.founds.NamedNode.TheVariants as found;
ghost use Rattle.map_chunks.specs.Places.{Grows, AreAll};
ghost use Rattle.commit_graph.specs.Reach.{Reaches, IsDropped, Falls, stamps_of};
ghost use Rattle.commit_graph.specs.Inside.Gaps.{HasGap};
ghost use Rattle.commit_graph.specs.Inside.Reach.{Adds, Notes, Walked, IsSpelled, found_in, stamp_in, ref_in};

use crate::founds::NamedNode;
use crate::frontiers::Frontier;
use crate::gaps::{KeptPart, gap_below};
use crate::keeping::{base_root, is_kept};
use crate::looks::look;
use crate::merging::{add, without};
use crate::nodes::Nodes;
use crate::states::snapshot_of;
use group_history::{Ref, Stop};
use std::alloc::Global;

fn ref_in(found: NamedNode) -> Ref
    ensures { result ≡ ref_in found }
{
    match found {
        NamedNode::Chunk(at) => at,
        NamedNode::Commit(at) => at,
    }
}

// One node of a walk: where the root keeps it, it is passed over with all below it.
fn visit<N: Nodes>(
    nodes: &mut N,
    part: KeptPart,
    frontier: &mut Frontier,
    listed: &mut Vec<Ref>,
    at: NamedNode,
) -> Result<(), Stop>
    requires root { IsSome (map_at (N.contents nodes.old) (stamp_of part.root)) }
    requires gap { HasGap (N.contents nodes.old) (stamp_of part.root) part.gap }
    requires places { N.places nodes.old part.root × N.places nodes.old (ref_in at) }
    requires found { IsSpelled (N.contents nodes.old) at }
    ensures grown { Grows N.contents N.places nodes.old nodes.new }
    ensures visited { OnOk result ((Reaches (N.contents nodes.new) (stamp_of part.root) (stamp_in at)
        × (frontier.new ≡ frontier.old) × (listed.new.items ≡ listed.old.items))
        ⊎ ((n : Noded Reference) × (noted : Walked)
        × (Reaches (N.contents nodes.new) (stamp_of part.root) (stamp_in at) → ⊥)
        × AreAll (N.places nodes.new) (children n)
        × (slice_get (N.contents nodes.new) (stamp_in at) ≡ Some (content_of n))
        × Notes (Reaches (N.contents nodes.new) (stamp_of part.root)) frontier.old noted
        × Adds noted (found_in n) frontier.new × (listed.new.items ≡ listed.old.items ++ ref_in at ∷ []))) }
    ensures stopped { IfErr result (λ stop. (stop ≡ NoMemory) ⊎ N.stops stop) }
{
    if is_kept(nodes, part.root, part.gap, at)? {
        return Ok(());
    }
    look(nodes, part, frontier, at)?;
    add(listed, ref_in(at))?;
    Ok(())
}

// How many places a walk has at first.
const MOST_PLACES: u64 = 65_536;

// A walk that looks at a commit first, and knows of a root alone that it was met. It has a place for each stamp since
// the commit's snapshot, since it comes to most of them.
fn begun<N: Nodes>(alloc: Global, nodes: &mut N, head: Ref, root: Ref) -> Result<Frontier, Stop>
    requires head { IsSome (version_at (N.contents nodes.old) (stamp_of head)) }
    requires place { N.places nodes.old head }
    ensures grown { Grows N.contents N.places nodes.old nodes.new }
    ensures begun { IfOk result (λ frontier. Adds (record { ahead = []; met = stamp_of root ∷ [] })
        (found.Commit head ∷ []) frontier) }
    ensures stopped { IfErr result (λ stop. (stop ≡ NoMemory) ⊎ N.stops stop) }
{
    let snapshot = snapshot_of(nodes, head)?;
    let stamp = head.stamp();
    let places = stamp.saturating_sub(snapshot.stamp()).min(MOST_PLACES);
    let mut frontier = Frontier::new(alloc, root.stamp(), stamp - places, places as usize)?;
    frontier.add(NamedNode::Commit(head))?;
    Ok(frontier)
}

/// All that a commit reaches and the root of a map doesn't, by falling stamps.
fn reachable<N: Nodes>(
    alloc: Global,
    nodes: &mut N,
    head: Ref,
    part: KeptPart,
) -> Result<Vec<Ref>, Stop>
    requires head { IsSome (version_at (N.contents nodes.old) (stamp_of head)) }
    requires places { N.places nodes.old head × N.places nodes.old part.root }
    requires gap { HasGap (N.contents nodes.old) (stamp_of part.root) part.gap }
    requires root { IsSome (map_at (N.contents nodes.old) (stamp_of part.root)) }
    ensures grown { Grows N.contents N.places nodes.old nodes.new }
    ensures exact { IfOk result (λ xs. (x : ℕ)
        → Contains (stamps_of xs.items) x ↔ IsDropped (N.contents nodes.new) (stamp_of head) (stamp_of part.root) x) }
    ensures once { IfOk result (λ xs. Falls (stamps_of xs.items)) }
    ensures places { IfOk result (λ xs. AreAll (N.places nodes.new) xs.items) }
    ensures stopped { IfErr result (λ stop. (stop ≡ NoMemory) ⊎ N.stops stop) }
{
    let mut frontier = begun(alloc, nodes, head, part.root)?;
    let mut listed = Vec::new(alloc);
    while let Some(at) = frontier.pop() {
        visit(nodes, part, &mut frontier, &mut listed, at)?;
    }
    Ok(listed)
}

// The new head's pulled map, with a gap up to the old head.
fn kept_part<N: Nodes>(nodes: &mut N, old: Ref, new: Ref) -> Result<KeptPart, Stop>
    requires known { IsSome (version_at (N.contents nodes.old) (stamp_of new)) }
    requires place { N.places nodes.old new }
    ensures grown { Grows N.contents N.places nodes.old nodes.new }
    ensures map { IfOk result (λ part. IsSome (map_at (N.contents nodes.new) (stamp_of part.root))) }
    ensures reached { IfOk result (λ part. Reaches (N.contents nodes.new) (stamp_of new) (stamp_of part.root)) }
    ensures place { IfOk result (λ part. N.places nodes.new part.root) }
    ensures gap { IfOk result (λ part. HasGap (N.contents nodes.new) (stamp_of part.root) part.gap) }
    ensures stopped { IfErr result N.stops }
{
    let root = base_root(nodes, new)?;
    let gap = gap_below(nodes, root, old.stamp())?;
    Ok(KeptPart { root, gap })
}

/// What the old head reaches and the new one doesn't: the nodes that a change of the head from `old` to `new` leaves
/// behind, by falling stamps, each once. Stops where the nodes stop, or for want of memory.
///
/// What the new head's pulled map keeps is passed over on both sides, so that a tree that both share isn't looked
/// through.
pub fn dropped<N: Nodes>(alloc: Global, nodes: &mut N, old: Ref, new: Ref) -> Result<Vec<Ref>, Stop>
    requires old { IsSome (version_at (N.contents nodes.old) (stamp_of old)) }
    requires places { N.places nodes.old old × N.places nodes.old new }
    requires new { IsSome (version_at (N.contents nodes.old) (stamp_of new)) }
    ensures grown { Grows N.contents N.places nodes.old nodes.new }
    ensures exact { IfOk result (λ xs. (x : ℕ)
        → Contains (stamps_of xs.items) x ↔ IsDropped (N.contents nodes.old) (stamp_of old) (stamp_of new) x) }
    ensures once { IfOk result (λ xs. Falls (stamps_of xs.items)) }
    ensures places { IfOk result (λ xs. AreAll (N.places nodes.new) xs.items) }
    ensures stopped { IfErr result (λ stop. (stop ≡ NoMemory) ⊎ N.stops stop) }
{
    let part = kept_part(nodes, old, new)?;
    let kept = reachable(alloc, nodes, new, part)?;
    let before = reachable(alloc, nodes, old, part)?;
    let left = without(alloc, before, &kept)?;
    Ok(left)
}
