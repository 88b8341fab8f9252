//! Own chunks as children: each lies behind a pointer, in room that may be taken before the chunk is made.
ghost use Rattle.std.specs.Prelude.{◌≡◌, ◌⊎◌, ◌≤◌, [], IfOk, IfErr, IsSome};
ghost use Rattle.group_history.specs.Refs.{stamp_of};
ghost use Rattle.group_history.specs.Spelling.{rows_at};
ghost use Rattle.group_history.specs.declared.mutators.Stop.TheVariants.{NoMemory};
ghost use Rattle.map_chunks.specs.Places.{Grows, AreKept, places_of};
ghost use Rattle.map_nodes.specs.Levels.{placed_levels, seen_levels, CopiedLater};
ghost use Rattle.map_chunks.specs.Shown.{shown};

use super::OwnNode;
use group_history::{Ref, Stop};
use map_chunks::Chunks;
use map_chunks::entries::MOST;
use std::alloc::{AllocError, Global};

/// Room for another chunk as a child, where one with so many entries may be split.
pub(crate) fn take_home(alloc: Global, len: usize) -> Result<Option<Box<OwnNode>>, AllocError>
    ensures { IfOk result (λ home. 16 ≤ len → IsSome home) }
{
    if len < MOST {
        return Ok(None);
    }
    let home = Box::new(alloc, OwnNode::empty(alloc))?;
    Ok(Some(home))
}

/// Puts a chunk into the room that was taken for it.
pub(crate) fn housed(home: Option<Box<OwnNode>>, node: OwnNode) -> Box<OwnNode>
    requires { IsSome home }
    ensures { result.value ≡ node }
{
    let mut home = home.unwrap();
    let _ = Box::replace(&mut home, node);
    home
}

impl OwnNode {
    /// A copy of the placed chunk, which is so deep, as a child, with room for so many entries.
    pub(crate) fn copied_child<C: Chunks>(
        alloc: Global,
        chunks: &mut C,
        at: Ref,
        depth: u64,
        room: usize,
    ) -> Result<Box<OwnNode>, Stop>
        requires place { C.places chunks.old at }
        requires known { IsSome (rows_at (C.contents chunks.old) depth (stamp_of at)) }
        ensures grown { Grows C.contents C.places chunks.old chunks.new }
        ensures depth { IfOk result (λ n. n.value.depth ≡ depth) }
        ensures rows { IfOk result (λ n. shown (C.contents chunks.new) n.value.pieces
            ≡ rows_at (C.contents chunks.old) depth (stamp_of at)) }
        ensures levels { IfOk result (λ n. CopiedLater (C.contents chunks.new)
            (λ p. placed_levels p depth (stamp_of at)) (seen_levels n.value)) }
        ensures places { IfOk result (λ n. AreKept (C.places chunks.new) [] (places_of n.value.pieces)) }
        ensures stopped { IfErr result (λ s. (s ≡ NoMemory) ⊎ C.stops s) }
    {
        let node = OwnNode::copied(alloc, chunks, at, depth, room)?;
        Ok(boxed(alloc, node)?)
    }
}

pub(crate) fn boxed(alloc: Global, node: OwnNode) -> Result<Box<OwnNode>, AllocError>
    ensures { IfOk result (λ b. b.value ≡ node) }
{
    let home = Box::new(alloc, node)?;
    Ok(home)
}
