//! Queries of placed chunks. Each chunk is shown for one look, and left again.
ghost use Rattle.std.specs.Prelude.{◌≡◌, ◌==◌, ◌<◌, ◌≤◌, ◌+◌, ◌⊎◌, length, Some, IfOk, IfErr, IsSome};
ghost use Rattle.std.specs.Ordering.{nat_cmp};
ghost use Rattle.std.specs.Cmp.Lexicographic.{slice_cmp};
ghost use Rattle.std.specs.FinMap as finite;
ghost use Rattle.group_history.specs.Refs.{stamp_of};
ghost use Rattle.group_history.specs.declared.mutators.Stop.TheVariants.{NoMemory};
ghost use Rattle.map_chunks.specs.Places.{Grows};
ghost use Rattle.map_chunks.specs.Shown.{chunk_rows, IsTree, rows_or};
ghost use Rattle.group_history.specs.Spelling.{Segment, segment_at};
ghost use Rattle.map_chunks.specs.Inside.Depths.{IsFirst, has_none};
ghost use Rattle.map_chunks.specs.Inside.Steps.{Descends};

use crate::chunks::{Chunks, ShowsChunk};
use crate::looks::{Descent, look_at};
use crate::search::{place_for, value_for};
use group_history::{Chunk, Json, Ref, SearchKey, Stop};
use std::alloc::AllocError;

// What a chunk says of a key.
#[inline(always)]
fn step_of(chunk: &Chunk<Ref>, key: &SearchKey<'_>) -> Result<Descent, AllocError>
    ensures { IfOk result (Descends chunk.now key.now) }
{
    match chunk {
        Chunk::Leaf(leaf) => {
            let value = value_for(leaf.keys().as_slice(), leaf.values(), key)?;
            Ok(Descent::Found(value))
        }
        Chunk::Inner(inner) => {
            let children = inner.children();
            if children.is_empty() {
                return Ok(Descent::Found(None));
            }
            let place = place_for(inner.firsts().as_slice(), key);
            Ok(Descent::Below(children[place]))
        }
    }
}

/// The value at a key of the chunk's rows, if it is there. Stops for want of memory, or as the store does.
pub fn get_placed<C: Chunks>(chunks: &mut C, at: Ref, key: &str) -> Result<Option<Json>, Stop>
    requires known { IsTree (chunk_rows (C.contents chunks.old) (stamp_of at)) }
    requires place { C.places chunks.old at }
    ensures grown { Grows C.contents C.places chunks.old chunks.new }
    ensures value { IfOk result (λ v. v ≡ finite.find (slice_cmp nat_cmp) key.now
        (rows_or (chunk_rows (C.contents chunks.old) (stamp_of at)))) }
    ensures stopped { IfErr result (λ s. (s ≡ NoMemory) ⊎ C.stops s) }
{
    get_for(chunks, at, &SearchKey::new(key))
}

// The same, of a key whose first bytes were read already. What a chunk says is told apart before the chunk is left, so
// that a way on below it doesn't move the room of a value.
fn get_for<C: Chunks>(chunks: &mut C, at: Ref, key: &SearchKey<'_>) -> Result<Option<Json>, Stop>
    requires known { IsTree (chunk_rows (C.contents chunks.old) (stamp_of at)) }
    requires place { C.places chunks.old at }
    ensures grown { Grows C.contents C.places chunks.old chunks.new }
    ensures value { IfOk result (λ v. v ≡ finite.find (slice_cmp nat_cmp) key.now
        (rows_or (chunk_rows (C.contents chunks.old) (stamp_of at)))) }
    ensures stopped { IfErr result (λ s. (s ≡ NoMemory) ⊎ C.stops s) }
{
    let mut at = at;
    loop {
        let held = chunks.show(at)?;
        match step_of(held.chunk(), key) {
            Ok(Descent::Below(child)) => {
                chunks.leave(held);
                at = child;
            }
            Ok(Descent::Found(value)) => {
                chunks.leave(held);
                return Ok(value);
            }
            Err(_refused) => {
                chunks.leave(held);
                return Err(Stop::NoMemory);
            }
        }
    }
}

fn first_of(chunk: &Chunk<Ref>) -> Option<Ref>
    ensures { IsFirst chunk.now result }
{
    match chunk {
        Chunk::Leaf(_) => None,
        Chunk::Inner(inner) => inner.children().first().copied(),
    }
}

/// How deep a placed chunk is: 1 where it is a leaf. Stops as the store does alone.
pub fn depth_placed<C: Chunks>(chunks: &mut C, at: Ref) -> Result<u64, Stop>
    requires known { IsSome (segment_at (C.contents chunks.old) (stamp_of at)) }
    requires place { C.places chunks.old at }
    ensures grown { Grows C.contents C.places chunks.old chunks.new }
    ensures depth { (s : Segment) → segment_at (C.contents chunks.old) (stamp_of at) ≡ Some s
        → IfOk result (λ d. d ≡ s.depth) }
    ensures bound { IfOk result (λ d. d ≤ stamp_of at + 1) }
    ensures stopped { IfErr result C.stops }
{
    match look_at(chunks, at, &mut first_of)? {
        None => Ok(1),
        Some(child) => {
            let below = depth_placed(chunks, child)?;
            Ok(below + 1)
        }
    }
}

fn is_empty(chunk: &Chunk<Ref>) -> bool
    ensures { result ≡ has_none chunk.now }
{
    match chunk {
        Chunk::Leaf(leaf) => leaf.values().is_empty(),
        Chunk::Inner(_) => false,
    }
}

/// Whether a placed chunk has no rows: then it is a leaf. Stops as the store does alone.
pub fn is_empty_placed<C: Chunks>(chunks: &mut C, at: Ref) -> Result<bool, Stop>
    requires known { IsSome (chunk_rows (C.contents chunks.old) (stamp_of at)) }
    requires place { C.places chunks.old at }
    ensures grown { Grows C.contents C.places chunks.old chunks.new }
    ensures value { IfOk result (λ b. b ≡ (length (rows_or (chunk_rows (C.contents chunks.old) (stamp_of at))) == 0)) }
    ensures stopped { IfErr result C.stops }
{
    look_at(chunks, at, &mut is_empty)
}
