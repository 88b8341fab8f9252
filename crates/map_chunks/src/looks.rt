//! Looks at placed chunks, each of which is left again at once.
ghost use Rattle.std.specs.Prelude.{IfOk, IfErr, IsSome};
ghost use Rattle.group_history.specs.Refs.{stamp_of};
ghost use Rattle.group_history.specs.Spelling.{segment_at};
ghost use Rattle.map_chunks.specs.Places.{Grows, IsShown};

use crate::chunks::{Chunks, ShowsChunk};
use group_history::{Chunk, Json, Ref, Stop, Text};

/// What a closure tells of a placed chunk, which is shown to it, and left again. Stops as the store does alone.
pub fn look_at<C: Chunks, R, F: FnMut(&Chunk<Ref>) -> R>(
    chunks: &mut C,
    at: Ref,
    tell: &mut F,
) -> Result<R, Stop>
    requires known { IsSome (segment_at (C.contents chunks.old) (stamp_of at)) }
    requires place { C.places chunks.old at }
    requires callable { F.IsAlwaysCallable tell.old }
    ensures grown { Grows C.contents C.places chunks.old chunks.new }
    ensures told { IfOk result (λ told. (chunk : _)
        × IsShown (C.places chunks.new) (C.contents chunks.new) (stamp_of at) chunk.now
        × F.FnMut.steps tell.old (chunk, tt) told tell.new) }
    ensures stopped { IfErr result C.stops }
{
    let held = chunks.show(at)?;
    let told = tell(held.chunk());
    chunks.leave(held);
    Ok(told)
}

/// What a look at one chunk on the way to a key gives.
#[derive(Drop)]
pub(crate) enum Descent {
    /// The value at the key.
    Found(Option<Json>),
    /// The child to which the key belongs.
    Below(Ref),
}

/// What a look at one chunk on the way to a key tells of it.
#[derive(Clone, Copy)]
pub(crate) enum Hint {
    /// Whether the key is there.
    Known(bool),
    /// The child to which the key belongs.
    On(Ref),
}

/// What a look all the way down tells of a key.
#[derive(Clone, Copy)]
pub struct Sought {
    /// Whether the key is there.
    pub is_there: bool,
    /// How many chunks there are on the way: the depth of the tree.
    pub depth: u64,
}

/// What a look at one chunk on the way to the second key of its rows gives.
#[derive(Drop)]
pub(crate) enum Second {
    /// The second key, if there are two.
    Known(Option<Text>),
    /// The first child, and the first key of the child behind it.
    First(Ref, Option<Text>),
}
