//! What a root's tree has at the place of a chunk.
//!
//! A chunk that was made anew shares most of its children with the chunk at the same place of the tree that stays. One
//! descent leads there. The children found there are noted as met, by their stamps: so a walk adds none of them, and
//! looks at none.
ghost use Rattle.std.specs.Prelude.{◌≡◌, OnOk, IfErr, IsSome};
ghost use Rattle.std.specs.List.{Contains};
ghost use Rattle.group_history.specs.Refs.{stamp_of};
ghost use Rattle.group_history.specs.Naming.{chunk_children};
ghost use Rattle.group_history.specs.Spelling.{segment_at, map_at};
ghost use Rattle.group_history.specs.declared.nodes.Chunk.{Chunk as Chunked};
ghost use Rattle.group_history.specs.declared.refs.Ref.{Ref as Reference};
ghost use Rattle.map_chunks.specs.Places.{Grows};
ghost use Rattle.commit_graph.specs.Inside.Meeting.{child_for};
ghost use Rattle.commit_graph.specs.Inside.Reach.{Notes, Walked};
ghost use Rattle.commit_graph.specs.Reach.{Reaches, stamps_of};

use crate::frontiers::Frontier;
use crate::meeting::child_in;
use group_history::{Chunk, Ref, Stop, Text};
use map_chunks::Chunks;
use map_chunks::looks::look_at;

/// Where a chunk stands: a key to which it belongs, and its stamp.
#[derive(Drop)]
pub struct ChunkPlace {
    pub key: Text,
    pub stamp: u64,
}

fn note_all(frontier: &mut Frontier, children: &[Ref])
    ensures { Notes (Contains (stamps_of children.now)) frontier.old frontier.new }
{
    for child in children {
        frontier.note(child.stamp());
    }
}

fn note_children(frontier: &mut Frontier, chunk: &Chunk<Ref>)
    ensures { Notes (Contains (stamps_of (chunk_children chunk.now))) frontier.old frontier.new }
{
    match chunk {
        Chunk::Leaf(_) => note_all(frontier, &[]),
        Chunk::Inner(inner) => note_all(frontier, inner.children()),
    }
}

// The child to which the key belongs. Where that one isn't above the stamp, the chunk has the children that are sought.
fn pass(frontier: &mut Frontier, spot: &ChunkPlace, chunk: &Chunk<Ref>) -> Option<Ref>
    ensures child { result ≡ child_for spot.now.key chunk.now }
    ensures noted { Notes (Contains (stamps_of (chunk_children chunk.now))) frontier.old frontier.new }
{
    let child = child_in(chunk, &spot.key)?;
    if child.stamp() <= spot.stamp {
        note_children(frontier, chunk);
    }
    Some(child)
}

/// Notes the children that a root's tree has beside the place of a chunk.
pub fn note_beside<C: Chunks>(
    chunks: &mut C,
    root: Ref,
    frontier: &mut Frontier,
    spot: &ChunkPlace,
) -> Result<(), Stop>
    requires root { IsSome (map_at (C.contents chunks.old) (stamp_of root)) }
    requires place { C.places chunks.old root }
    ensures grown { Grows C.contents C.places chunks.old chunks.new }
    ensures noted { OnOk result
        (Notes (Reaches (C.contents chunks.new) (stamp_of root)) frontier.old frontier.new) }
    ensures stopped { IfErr result C.stops }
{
    let mut at = root;
    while at.stamp() > spot.stamp {
        let child = look_at(
            chunks,
            at,
            &mut |chunk|
                ensures child { result ≡ child_for spot.entry.now.key chunk.now }
                ensures noted { Notes (Contains (stamps_of (chunk_children chunk.now)))
                    frontier.entry.now frontier.exit.now }
            { pass(frontier, spot, chunk) },
        )?;
        let Some(child) = child else {
            return Ok(());
        };
        at = child;
    }
    Ok(())
}
