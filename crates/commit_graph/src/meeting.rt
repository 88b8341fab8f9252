//! Whether a root's tree has a chunk: one descent, to a key of the chunk.
//!
//! In rows of strict order one child at most has a key. So a chunk that a root reaches is met by the
//! descent to any of its keys, and no other part of the tree is looked at.
ghost use Rattle.std.specs.Prelude.{◌≡◌, ◌↔◌, ◌<◌, ℕ, length, Some, IfOk, IfErr, IsSome, IsTrue};
ghost use Rattle.std.specs.Arc.{arc_value};
ghost use Rattle.group_history.specs.Refs.{stamp_of};
ghost use Rattle.group_history.specs.Rows.{paired};
ghost use Rattle.group_history.specs.Naming.{chunk_content};
ghost use Rattle.group_history.specs.Spelling.{segment_at, map_at};
ghost use Rattle.group_history.specs.declared.nodes.Chunk.{Chunk as Chunked};
ghost use Rattle.group_history.specs.declared.refs.Ref.{Ref as Reference};
ghost use Rattle.map_chunks.specs.Places.{Grows};
ghost use Rattle.commit_graph.specs.Inside.Meeting.{choose, child_for, HasKeyAt, LiesChunk};
ghost use Rattle.commit_graph.specs.Reach.{Reaches};

use group_history::{Chunk, Ref, Stop, Text};
use map_chunks::Chunks;
use map_chunks::looks::look_at;

fn chosen(firsts: &[Text], children: &[Ref], key: &Text) -> Option<Ref>
    requires { length children.now ≡ length firsts.now }
    ensures { result ≡ choose key.now (paired firsts.now children.now) }
{
    let mut found = None;
    for place in 0..firsts.len() {
        if !firsts[place].cmp(key).is_gt() {
            found = Some(children[place]);
        }
    }
    found
}

pub fn child_in(chunk: &Chunk<Ref>, key: &Text) -> Option<Ref>
    ensures { result ≡ child_for key.now chunk.now }
{
    match chunk {
        Chunk::Leaf(_) => None,
        Chunk::Inner(inner) => chosen(inner.firsts().as_slice(), inner.children(), key),
    }
}

/// Whether the root of a map reaches the chunk of a stamp, which has this key.
pub fn meets<C: Chunks>(chunks: &mut C, root: Ref, key: &Text, stamp: u64) -> Result<bool, Stop>
    requires root { IsSome (map_at (C.contents chunks.old) (stamp_of root)) }
    requires place { C.places chunks.old root }
    requires key { HasKeyAt (C.contents chunks.old) stamp key.now }
    ensures grown { Grows C.contents C.places chunks.old chunks.new }
    ensures met { IfOk result (λ met. IsTrue met ↔ Reaches (C.contents chunks.old) (stamp_of root) stamp) }
    ensures stopped { IfErr result C.stops }
{
    let mut at = root;
    while at.stamp() > stamp {
        let child = look_at(
            chunks,
            at,
            &mut |chunk|
                ensures { result ≡ child_for key.entry.now chunk.now }
            { child_in(chunk, key) },
        )?;
        let Some(child) = child else {
            return Ok(false);
        };
        at = child;
    }
    Ok(at.stamp() == stamp)
}
