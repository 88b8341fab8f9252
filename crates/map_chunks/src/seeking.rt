//! Whether a key is there, and how deep the tree is, by one way down.
ghost use Rattle.std.specs.Prelude.{◌≡◌, ◌≤◌, ◌+◌, Some, IfOk, IfErr};
ghost use Rattle.group_history.specs.Refs.{stamp_of};
ghost use Rattle.map_chunks.specs.Places.{Grows};
ghost use Rattle.map_chunks.specs.Seeking.{chunk_depth, is_key_in};
ghost use Rattle.map_chunks.specs.Inside.Seeking.{IsHint};
ghost use Rattle.map_chunks.specs.Shown.{chunk_rows, IsTree, rows_or};

use crate::chunks::Chunks;
use crate::looks::{Hint, Sought, look_at};
use crate::search::{has_key, place_for};
use group_history::{Chunk, Ref, SearchKey, Stop};

// What a chunk tells of a key.
fn hint_of(chunk: &Chunk<Ref>, key: &SearchKey<'_>) -> Hint
    ensures { IsHint chunk.now key.now result }
{
    match chunk {
        Chunk::Leaf(leaf) => Hint::Known(has_key(leaf.keys().as_slice(), key)),
        Chunk::Inner(inner) => {
            let children = inner.children();
            if children.is_empty() {
                return Hint::Known(false);
            }
            let place = place_for(inner.firsts().as_slice(), key);
            Hint::On(children[place])
        }
    }
}

/// Whether a key is in the chunk's rows, and how deep the chunk is. Stops as the store does alone.
pub fn seek_placed<C: Chunks>(chunks: &mut C, at: Ref, key: &str) -> Result<Sought, Stop>
    requires known { IsTree (chunk_rows (C.contents chunks.old) (stamp_of at)) }
    requires place { C.places chunks.old at }
    ensures grown { Grows C.contents C.places chunks.old chunks.new }
    ensures is_there { IfOk result (λ s. s.is_there
        ≡ is_key_in (rows_or (chunk_rows (C.contents chunks.old) (stamp_of at))) key.now) }
    ensures depth { IfOk result (λ s. chunk_depth (C.contents chunks.old) (stamp_of at) ≡ Some s.depth) }
    ensures bound { IfOk result (λ s. s.depth ≤ stamp_of at + 1) }
    ensures stopped { IfErr result C.stops }
{
    seek_for(chunks, at, &SearchKey::new(key))
}

// The same, of a key whose first bytes were read already.
fn seek_for<C: Chunks>(chunks: &mut C, at: Ref, key: &SearchKey<'_>) -> Result<Sought, Stop>
    requires known { IsTree (chunk_rows (C.contents chunks.old) (stamp_of at)) }
    requires place { C.places chunks.old at }
    ensures grown { Grows C.contents C.places chunks.old chunks.new }
    ensures is_there { IfOk result (λ s. s.is_there
        ≡ is_key_in (rows_or (chunk_rows (C.contents chunks.old) (stamp_of at))) key.now) }
    ensures depth { IfOk result (λ s. chunk_depth (C.contents chunks.old) (stamp_of at) ≡ Some s.depth) }
    ensures bound { IfOk result (λ s. s.depth ≤ stamp_of at + 1) }
    ensures stopped { IfErr result C.stops }
{
    let hint = look_at(
        chunks,
        at,
        &mut |chunk|
            ensures { IsHint chunk.now key.entry.now result }
        { hint_of(chunk, key) },
    )?;
    match hint {
        Hint::Known(is_there) => Ok(Sought { is_there, depth: 1 }),
        Hint::On(child) => {
            let below = seek_for(chunks, child, key)?;
            Ok(Sought {
                is_there: below.is_there,
                depth: below.depth + 1,
            })
        }
    }
}
