//! Copies of placed chunks. A copy in which an entry is to be added gets room for a full chunk, and another
//! one room for what it has.
ghost use Rattle.std.specs.Prelude.{◌≡◌, ◌⊎◌, [], length, map, Some, IfOk, IfErr, IsSome};
ghost use Rattle.group_history.specs.Refs.{stamp_of};
ghost use Rattle.group_history.specs.Spelling.{rows_at};
ghost use Rattle.group_history.specs.declared.mutators.Stop.TheVariants.{NoMemory};
ghost use Rattle.map_nodes.specs.Inside.Copies.{MayBeDeep, IsCopy};
ghost use Rattle.map_chunks.specs.Places.{Grows, AreKept, places_of};
ghost use Rattle.map_chunks.specs.Shown.{shown};
ghost use Rattle.map_chunks.specs.Wide.{IsWideAt, IsWideChunk};
ghost use Rattle.map_nodes.specs.Levels.{placed_levels, seen_levels, CopiedLater};
ghost use Rattle.map_nodes.specs.declared.nodes.OwnChild.TheVariants.{Placed};

use super::{Body, OwnChild, OwnNode};
use group_history::{Chunk, Json, Ref, Stop};
use map_chunks::keys::NodeKeys;
use map_chunks::{Chunks, ShowsChunk};
use std::alloc::{AllocError, Global};

impl OwnNode {
    /// A copy of the placed chunk, which is so deep, with room for so many entries. Stops for want
    /// of memory, or as the store does.
    pub fn copied<C: Chunks>(
        alloc: Global,
        chunks: &mut C,
        at: Ref,
        depth: u64,
        room: usize,
    ) -> Result<OwnNode, Stop>
        requires place { C.places chunks.old at }
        requires known { IsSome (rows_at (C.contents chunks.old) depth (stamp_of at)) }
        ensures grown { Grows C.contents C.places chunks.old chunks.new }
        ensures depth { IfOk result (λ n. n.depth ≡ depth) }
        ensures rows { IfOk result (λ n. shown (C.contents chunks.new) n.pieces
            ≡ rows_at (C.contents chunks.old) depth (stamp_of at)) }
        ensures levels { IfOk result (λ n. CopiedLater (C.contents chunks.new)
            (λ p. placed_levels p depth (stamp_of at)) (seen_levels n)) }
        ensures places { IfOk result (λ n. AreKept (C.places chunks.new) [] (places_of n.pieces)) }
        ensures wide { IsWideAt (C.contents chunks.new) (stamp_of at) → IfOk result IsWideChunk }
        ensures stopped { IfErr result (λ s. (s ≡ NoMemory) ⊎ C.stops s) }
    {
        let held = chunks.show(at)?;
        let node = OwnNode::of_chunk(alloc, held.chunk(), depth, room);
        chunks.leave(held);
        Ok(node?)
    }

    fn of_chunk(
        alloc: Global,
        chunk: &Chunk<Ref>,
        depth: u64,
        room: usize,
    ) -> Result<OwnNode, AllocError>
        requires { MayBeDeep depth chunk.now }
        ensures { IfOk result (IsCopy depth chunk.now) }
    {
        match chunk {
            Chunk::Leaf(leaf) => {
                let keys = NodeKeys::shared(leaf.keys().clone()?);
                let body = Body::Leaf(copied_values(alloc, leaf.values(), room)?);
                Ok(OwnNode { depth, keys, body })
            }
            Chunk::Inner(inner) => {
                let keys = NodeKeys::shared(inner.firsts().clone()?);
                let body = Body::Inner(placed_children(alloc, inner.children(), room)?);
                Ok(OwnNode { depth, keys, body })
            }
        }
    }
}

pub(crate) fn copied_values(
    alloc: Global,
    values: &[Json],
    room: usize,
) -> Result<Vec<Json>, AllocError>
    ensures { IfOk result (λ copy. copy.items ≡ values.now) }
{
    // Where no room is wanted beside them, none is looked for at each value.
    if room <= values.len() {
        return values.to_vec(alloc);
    }
    let mut copy = Vec::with_capacity(alloc, room)?;
    for value in values {
        copy.push(value.clone()?)?;
    }
    Ok(copy)
}

pub(crate) fn placed_children(
    alloc: Global,
    children: &[Ref],
    room: usize,
) -> Result<Vec<OwnChild>, AllocError>
    ensures { IfOk result (λ copy. copy.items ≡ map (λ at. Placed at) children.now) }
{
    let mut copy = Vec::with_capacity(alloc, children.len().max(room))?;
    for at in children {
        copy.push(OwnChild::Placed(*at))?;
    }
    Ok(copy)
}
