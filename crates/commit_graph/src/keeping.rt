//! Whether a node lies in the tree of a root that stays.
ghost use Rattle.std.specs.Prelude.{◌≡◌, ◌⊎◌, ◌↔◌, Some, IfOk, IfErr, IsSome, IsTrue};
ghost use Rattle.group_history.specs.Refs.{stamp_of};
ghost use Rattle.group_history.specs.Spelling.{segment_at, version_at, map_at};
ghost use Rattle.group_history.specs.declared.nodes.Chunk.{Chunk as Chunked};
ghost use Rattle.group_history.specs.declared.refs.Ref.{Ref as Reference};
ghost use Rattle.group_history.specs.declared.mutators.Stop.TheVariants.{NoMemory};
ghost use Rattle.map_chunks.specs.Places.{Grows};
ghost use Rattle.commit_graph.specs.Inside.Gaps.{HasGap};
ghost use Rattle.commit_graph.specs.Inside.Meeting.{keys_in, IsFirstKey, LiesChunk};
ghost use Rattle.commit_graph.specs.Reach.{Reaches};
ghost use Rattle.commit_graph.specs.Inside.Reach.{IsSpelled, ref_in, stamp_in};

use crate::chains::look_at_commit;
use crate::founds::NamedNode;
use crate::gaps::Gap;
use crate::meeting::meets;
use crate::nodes::Nodes;
use crate::states::snapshot_of;
use group_history::{Chunk, Ref, Stop, Text};
use map_chunks::Chunks;
use map_chunks::looks::look_at;
use std::alloc::AllocError;

fn first_of(keys: &[Text]) -> Result<Option<Text>, AllocError>
    ensures { IfOk result (IsFirstKey keys.now) }
{
    if keys.is_empty() {
        return Ok(None);
    }
    Ok(Some(keys[0].clone()?))
}

fn first_key_in(chunk: &Chunk<Ref>) -> Result<Option<Text>, AllocError>
    ensures { IfOk result (IsFirstKey (keys_in chunk.now)) }
{
    match chunk {
        Chunk::Leaf(leaf) => first_of(leaf.keys().as_slice()),
        Chunk::Inner(inner) => first_of(inner.firsts().as_slice()),
    }
}

fn is_chunk_kept<C: Chunks>(chunks: &mut C, root: Ref, at: Ref) -> Result<bool, Stop>
    requires root { IsSome (map_at (C.contents chunks.old) (stamp_of root)) }
    requires places { C.places chunks.old root × C.places chunks.old at }
    requires chunk { IsSome (segment_at (C.contents chunks.old) (stamp_of at)) }
    ensures grown { Grows C.contents C.places chunks.old chunks.new }
    ensures kept { IfOk result (λ kept. IsTrue kept ↔ Reaches (C.contents chunks.new) (stamp_of root) (stamp_of at)) }
    ensures stopped { IfErr result (λ stop. (stop ≡ NoMemory) ⊎ C.stops stop) }
{
    let Some(key) = look_at(chunks, at, &mut first_key_in)?? else {
        return Ok(at.stamp() == root.stamp());
    };
    let met = meets(chunks, root, &key, at.stamp())?;
    Ok(met)
}

/// Whether the root of a map reaches a node that was found. What is reached has no greater stamp, and none in the gap,
/// so that such a node isn't looked at.
pub fn is_kept<N: Nodes>(nodes: &mut N, root: Ref, gap: Gap, at: NamedNode) -> Result<bool, Stop>
    requires root { IsSome (map_at (N.contents nodes.old) (stamp_of root)) }
    requires gap { HasGap (N.contents nodes.old) (stamp_of root) gap }
    requires places { N.places nodes.old root × N.places nodes.old (ref_in at) }
    requires found { IsSpelled (N.contents nodes.old) at }
    ensures grown { Grows N.contents N.places nodes.old nodes.new }
    ensures kept { IfOk result (λ kept. IsTrue kept ↔ Reaches (N.contents nodes.new) (stamp_of root) (stamp_in at)) }
    ensures stopped { IfErr result (λ stop. (stop ≡ NoMemory) ⊎ N.stops stop) }
{
    let newest = root.stamp();
    match at {
        NamedNode::Chunk(at) if at.stamp() > newest => Ok(false),
        NamedNode::Chunk(at) if gap.has(at) => Ok(false),
        NamedNode::Chunk(at) => is_chunk_kept(nodes, root, at),
        NamedNode::Commit(_) => Ok(false),
    }
}

/// The root of the map that the server last sent.
pub fn base_root<N: Nodes>(nodes: &mut N, head: Ref) -> Result<Ref, Stop>
    requires known { IsSome (version_at (N.contents nodes.old) (stamp_of head)) }
    requires place { N.places nodes.old head }
    ensures grown { Grows N.contents N.places nodes.old nodes.new }
    ensures map { IfOk result (λ root. IsSome (map_at (N.contents nodes.new) (stamp_of root))) }
    ensures reached { IfOk result (λ root. Reaches (N.contents nodes.new) (stamp_of head) (stamp_of root)) }
    ensures place { IfOk result (N.places nodes.new) }
    ensures stopped { IfErr result N.stops }
{
    let snapshot = snapshot_of(nodes, head)?;
    let root = look_at_commit(
        nodes,
        snapshot,
        &mut |commit|
            ensures { result ≡ commit.now.root }
        { commit.root },
    )?;
    Ok(root)
}
