//! The second key of a placed chunk's rows. A chunk with one row has none.
ghost use Rattle.std.specs.Prelude.{◌≡◌, ◌⊎◌, IfOk, IfErr, IsSome};
ghost use Rattle.group_history.specs.Refs.{stamp_of};
ghost use Rattle.group_history.specs.declared.mutators.Stop.TheVariants.{NoMemory};
ghost use Rattle.map_chunks.specs.Places.{Grows};
ghost use Rattle.map_chunks.specs.SecondKeys.{second_key};
ghost use Rattle.map_chunks.specs.Inside.SecondKeys.{IsSecondStep};
ghost use Rattle.map_chunks.specs.Shown.{chunk_rows, rows_or};

use crate::chunks::Chunks;
use crate::keys::second_of;
use crate::looks::{Second, look_at};
use group_history::{Chunk, Ref, Stop, Text};
use std::alloc::AllocError;

// What a chunk says of the second key of its rows.
fn step_of(chunk: &Chunk<Ref>) -> Result<Second, AllocError>
    ensures { IfOk result (IsSecondStep chunk.now) }
{
    match chunk {
        Chunk::Leaf(leaf) => {
            let key = second_of(leaf.keys().as_slice())?;
            Ok(Second::Known(key))
        }
        Chunk::Inner(inner) => {
            let children = inner.children();
            if children.is_empty() {
                return Ok(Second::Known(None));
            }
            let key = second_of(inner.firsts().as_slice())?;
            Ok(Second::First(children[0], key))
        }
    }
}

/// The second key of the chunk's rows, if there are two. Stops for want of memory, or as the store does.
pub fn second_placed<C: Chunks>(chunks: &mut C, at: Ref) -> Result<Option<Text>, Stop>
    requires known { IsSome (chunk_rows (C.contents chunks.old) (stamp_of at)) }
    requires place { C.places chunks.old at }
    ensures grown { Grows C.contents C.places chunks.old chunks.new }
    ensures key { IfOk result (λ key. key ≡ second_key (rows_or (chunk_rows (C.contents chunks.old) (stamp_of at)))) }
    ensures stopped { IfErr result (λ s. (s ≡ NoMemory) ⊎ C.stops s) }
{
    match look_at(chunks, at, &mut step_of)?? {
        Second::Known(key) => Ok(key),
        Second::First(child, next) => {
            let key = second_placed(chunks, child)?;
            Ok(key.or(next))
        }
    }
}
