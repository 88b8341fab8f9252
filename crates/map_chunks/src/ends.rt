//! Placed chunks with one child each, and what they end in.
ghost use Rattle.std.specs.Prelude.{◌≡◌, ◌⊎◌, ℕ, [], ◌∷◌, Some, IfOk, IfErr, IsSome};
ghost use Rattle.group_history.specs.Refs.{stamp_of};
ghost use Rattle.group_history.specs.declared.mutators.Stop.TheVariants.{NoMemory};
ghost use Rattle.map_chunks.specs.Ends.{IsEnd, IsEndUnder};
ghost use Rattle.map_chunks.specs.Inside.Ends.{only_ref};
ghost use Rattle.map_chunks.specs.Places.{Grows};
ghost use Rattle.map_chunks.specs.Seeking.{chunk_depth};
ghost use Rattle.map_chunks.specs.Shown.{chunk_rows};

use crate::chunks::Chunks;
use crate::looks::look_at;
use group_history::{Chunk, Ref, Stop};

// The only child of a chunk that has but one.
fn only_of(chunk: &Chunk<Ref>) -> Option<Ref>
    ensures { result ≡ only_ref chunk.now }
{
    match chunk {
        Chunk::Leaf(_) => None,
        Chunk::Inner(inner) => {
            let children = inner.children();
            if children.len() != 1 {
                return None;
            }
            Some(children[0])
        }
    }
}

/// The chunk itself, or the first below it that is a leaf or has two children. It has the same rows,
/// and is no deeper. Stops for want of memory, or as the store does.
pub fn end_placed<C: Chunks>(chunks: &mut C, at: Ref) -> Result<Ref, Stop>
    requires known { IsSome (chunk_rows (C.contents chunks.old) (stamp_of at)) }
    requires place { C.places chunks.old at }
    ensures grown { Grows C.contents C.places chunks.old chunks.new }
    ensures place { IfOk result (C.places chunks.new) }
    ensures end { IfOk result (IsEnd (C.contents chunks.new) (chunk_rows (C.contents chunks.old) (stamp_of at))) }
    ensures depth { (d : ℕ) → chunk_depth (C.contents chunks.old) (stamp_of at) ≡ Some d
        → IfOk result (IsEndUnder (C.contents chunks.new) d (stamp_of at)) }
    ensures stopped { IfErr result (λ s. (s ≡ NoMemory) ⊎ C.stops s) }
{
    match look_at(chunks, at, &mut only_of)? {
        None => return Ok(at),
        Some(child) => return end_placed(chunks, child),
    }
}
