//! One look of a walk: a node is shown, and what it names joins the frontier.
ghost use Rattle.std.specs.Prelude.{◌≡◌, ◌⊎◌, ◌∷◌, [], drop, length, map, take, slice_get, Some};
ghost use Rattle.std.specs.Prelude.{IfOk, OnOk, IfErr, IfNone, IfSome, IsSome};
ghost use Rattle.group_history.specs.Refs.{stamp_of};
ghost use Rattle.group_history.specs.Spelling.{segment_at, map_at};
ghost use Rattle.group_history.specs.declared.nodes.Chunk.{Chunk as Chunked};
ghost use Rattle.group_history.specs.Naming.{children, commits_named, content_of};
ghost use Rattle.group_history.specs.declared.nodes.Node.{Node as Noded};
ghost use Rattle.group_history.specs.declared.nodes.Node.TheVariants as node;
ghost use Rattle.group_history.specs.declared.refs.Ref.{Ref as Reference};
ghost use Rattle.group_history.specs.declared.mutators.Stop.TheVariants.{NoMemory};
ghost use Rattle.map_chunks.specs.Places.{Grows, AreAll, IsShown};
ghost use Rattle.commit_graph.specs.Reach.{Reaches};
ghost use Rattle.commit_graph.specs.Inside.Reach.{Adds, Notes, Walked, IsSpelled, ref_in, stamp_in, found_in};
ghost use Rattle.commit_graph.specs.declared.founds.NamedNode.TheVariants as found;

use crate::beside::{ChunkPlace, note_beside};
use crate::chains::look_at_commit;
use crate::founds::NamedNode;
use crate::frontiers::Frontier;
use crate::gaps::KeptPart;
use crate::nodes::Nodes;
use group_history::{Chunk, Commit, CommitKind, Ref, Stop, Text};
use map_chunks::Chunks;
use map_chunks::looks::look_at;
use std::alloc::AllocError;

fn add_chunks(frontier: &mut Frontier, roots: &[Ref]) -> Result<(), AllocError>
    ensures { OnOk result (Adds frontier.old (map found.Chunk roots.now) frontier.new) }
{
    for root in roots {
        frontier.add(NamedNode::Chunk(*root))?;
    }
    Ok(())
}

// Adds the children from a place on.
fn add_from(frontier: &mut Frontier, children: &[Ref], from: usize) -> Result<(), AllocError>
    ensures { OnOk result (Adds frontier.old (drop from (map found.Chunk children.now)) frontier.new) }
{
    for place in from..children.len() {
        frontier.add(NamedNode::Chunk(children[place]))?;
    }
    Ok(())
}

fn add_rest(frontier: &mut Frontier, chunk: &Chunk<Ref>, from: usize) -> Result<(), AllocError>
    ensures { OnOk result (Adds frontier.old (drop from (found_in (node.Chunk chunk.now))) frontier.new) }
{
    match chunk {
        Chunk::Leaf(_) => add_from(frontier, &[], from),
        Chunk::Inner(inner) => add_from(frontier, inner.children(), from),
    }
}

fn add_of_chunk(frontier: &mut Frontier, chunk: &Chunk<Ref>) -> Result<(), AllocError>
    ensures { OnOk result (Adds frontier.old (found_in (node.Chunk chunk.now)) frontier.new) }
{
    match chunk {
        Chunk::Leaf(_) => add_chunks(frontier, &[]),
        Chunk::Inner(inner) => add_chunks(frontier, inner.children()),
    }
}

fn add_commits(frontier: &mut Frontier, basis: Ref, snapshot: Ref) -> Result<(), AllocError>
    ensures { OnOk result (Adds frontier.old (found.Commit basis ∷ found.Commit snapshot ∷ []) frontier.new) }
{
    frontier.add(NamedNode::Commit(basis))?;
    frontier.add(NamedNode::Commit(snapshot))
}

fn add_named(frontier: &mut Frontier, kind: &CommitKind<Ref>) -> Result<(), AllocError>
    ensures { OnOk result (Adds frontier.old (map found.Commit (commits_named kind.now)) frontier.new) }
{
    match kind {
        CommitKind::Snapshot(_) => add_chunks(frontier, &[]),
        CommitKind::Over(over) => add_commits(frontier, over.basis, over.snapshot),
    }
}

fn add_of_commit(frontier: &mut Frontier, commit: &Commit<Ref>) -> Result<(), AllocError>
    ensures { OnOk result (Adds frontier.old (found_in (node.Commit commit.now)) frontier.new) }
{
    frontier.add(NamedNode::Chunk(commit.root))?;
    add_named(frontier, &commit.kind)
}

// The children join the frontier, up to the first of which a look alone can tell whether the part's root keeps it: the
// place of that one.
fn add_sure(
    frontier: &mut Frontier,
    part: KeptPart,
    children: &[Ref],
) -> Result<Option<usize>, AllocError>
    ensures none { IfOk result (λ told. IfNone told
        (Adds frontier.old (map found.Chunk children.now) frontier.new)) }
    ensures some { IfOk result (λ told. IfSome told (λ from.
        Adds frontier.old (take from (map found.Chunk children.now)) frontier.new)) }
{
    let newest = part.root.stamp();
    for place in 0..children.len() {
        let child = children[place];
        let stamp = child.stamp();
        if frontier.knows(stamp) {
            continue;
        }
        if stamp <= newest && !part.gap.has(child) {
            return Ok(Some(place));
        }
        frontier.add_new(NamedNode::Chunk(child))?;
    }
    Ok(None)
}

// The children join the frontier, up to the first for which it is worth a descent to find out which are kept. Where a
// pull changed so much that there is no gap, few are, and each descent would be one more.
fn add_or_tell(
    frontier: &mut Frontier,
    part: KeptPart,
    chunk: &Chunk<Ref>,
) -> Result<Option<usize>, AllocError>
    ensures none { IfOk result (λ told. IfNone told
        (Adds frontier.old (found_in (node.Chunk chunk.now)) frontier.new)) }
    ensures some { IfOk result (λ told. IfSome told (λ from.
        Adds frontier.old (take from (found_in (node.Chunk chunk.now))) frontier.new)) }
{
    match chunk {
        Chunk::Inner(inner) if !part.gap.is_empty() => add_sure(frontier, part, inner.children()),
        _ => {
            add_of_chunk(frontier, chunk)?;
            Ok(None)
        }
    }
}

// Where the child of a place stands.
fn spot_of(
    firsts: &[Text],
    children: &[Ref],
    place: usize,
) -> Result<Option<ChunkPlace>, AllocError> {
    if place >= children.len() || place >= firsts.len() {
        return Ok(None);
    }
    let key = firsts[place].clone()?;
    let stamp = children[place].stamp();
    Ok(Some(ChunkPlace { key, stamp }))
}

fn spot_in(chunk: &Chunk<Ref>, place: usize) -> Result<Option<ChunkPlace>, AllocError> {
    match chunk {
        Chunk::Leaf(_) => Ok(None),
        Chunk::Inner(inner) => spot_of(inner.firsts().as_slice(), inner.children(), place),
    }
}

// Notes what a root's tree has beside the child at a place of a chunk.
fn note_at<C: Chunks>(
    chunks: &mut C,
    part: KeptPart,
    frontier: &mut Frontier,
    at: Ref,
    place: usize,
) -> Result<(), Stop>
    requires chunk { IsSome (segment_at (C.contents chunks.old) (stamp_of at)) }
    requires root { IsSome (map_at (C.contents chunks.old) (stamp_of part.root)) }
    requires places { C.places chunks.old part.root × C.places chunks.old at }
    ensures grown { Grows C.contents C.places chunks.old chunks.new }
    ensures noted { OnOk result
        (Notes (Reaches (C.contents chunks.new) (stamp_of part.root)) frontier.old frontier.new) }
    ensures stopped { IfErr result (λ stop. (stop ≡ NoMemory) ⊎ C.stops stop) }
{
    let spot = look_at(chunks, at, &mut |chunk| { spot_in(chunk, place) })??;
    let Some(spot) = spot else {
        return Ok(());
    };
    Ok(note_beside(chunks, part.root, frontier, &spot)?)
}

// Shows a chunk; its children join the frontier, but for some that the part's root keeps.
fn look_at_chunk<C: Chunks>(
    chunks: &mut C,
    part: KeptPart,
    frontier: &mut Frontier,
    at: Ref,
) -> Result<(), Stop>
    requires chunk { IsSome (segment_at (C.contents chunks.old) (stamp_of at)) }
    requires root { IsSome (map_at (C.contents chunks.old) (stamp_of part.root)) }
    requires places { C.places chunks.old part.root × C.places chunks.old at }
    ensures grown { Grows C.contents C.places chunks.old chunks.new }
    ensures added { OnOk result ((c : Chunked Reference) × (noted : Walked)
        × IsShown (C.places chunks.new) (C.contents chunks.new) (stamp_of at) c
        × Notes (Reaches (C.contents chunks.new) (stamp_of part.root)) frontier.old noted
        × Adds noted (found_in (node.Chunk c)) frontier.new) }
    ensures stopped { IfErr result (λ stop. (stop ≡ NoMemory) ⊎ C.stops stop) }
{
    let unsure = look_at(
        chunks,
        at,
        &mut |chunk|
            ensures none { IfOk result (λ told. IfNone told
                (Adds frontier.entry.now (found_in (node.Chunk chunk.now)) frontier.exit.now)) }
            ensures some { IfOk result (λ told. IfSome told (λ from.
                Adds frontier.entry.now (take from (found_in (node.Chunk chunk.now))) frontier.exit.now)) }
        { add_or_tell(frontier, part, chunk) },
    )??;
    let Some(from) = unsure else {
        return Ok(());
    };
    note_at(chunks, part, frontier, at, from)?;
    Ok(look_at(
        chunks,
        at,
        &mut |chunk|
            ensures { OnOk result (Adds frontier.entry.now (drop from (found_in (node.Chunk chunk.now)))
                frontier.exit.now) }
        { add_rest(frontier, chunk, from) },
    )??)
}

/// Shows the node that was found; what it names joins the frontier, but for some that the part's root keeps.
pub fn look<N: Nodes>(
    nodes: &mut N,
    part: KeptPart,
    frontier: &mut Frontier,
    at: NamedNode,
) -> Result<(), Stop>
    requires found { IsSpelled (N.contents nodes.old) at }
    requires root { IsSome (map_at (N.contents nodes.old) (stamp_of part.root)) }
    requires places { N.places nodes.old part.root × N.places nodes.old (ref_in at) }
    ensures grown { Grows N.contents N.places nodes.old nodes.new }
    ensures added { OnOk result ((n : Noded Reference) × (noted : Walked)
        × AreAll (N.places nodes.new) (children n)
        × (slice_get (N.contents nodes.new) (stamp_in at) ≡ Some (content_of n))
        × Notes (Reaches (N.contents nodes.new) (stamp_of part.root)) frontier.old noted
        × Adds noted (found_in n) frontier.new) }
    ensures stopped { IfErr result (λ stop. (stop ≡ NoMemory) ⊎ N.stops stop) }
{
    match at {
        NamedNode::Chunk(at) => look_at_chunk(nodes, part, frontier, at),
        NamedNode::Commit(at) => Ok(look_at_commit(
            nodes,
            at,
            &mut |commit| add_of_commit(frontier, commit),
        )??),
    }
}
