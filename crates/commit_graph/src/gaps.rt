//! Stamps that a root doesn't reach, all between two numbers.
//!
//! A pull changes little of a map, so that its new root reaches some new chunks, and else only old ones. What was
//! placed between those is not in its tree, and needs no look.
ghost use Rattle.std.specs.Prelude.{◌≡◌, ◌⊎◌, ◌<◌, ◌≤◌, ◌++◌, [], ◌∷◌, ℕ, List, IfOk, IfErr, IsSome, IsTrue};
ghost use Rattle.group_history.specs.Refs.{stamp_of};
ghost use Rattle.group_history.specs.Naming.{chunk_children};
ghost use Rattle.group_history.specs.Spelling.{segment_at, map_at};
ghost use Rattle.group_history.specs.declared.nodes.Chunk.{Chunk as Chunked};
ghost use Rattle.group_history.specs.declared.refs.Ref.{Ref as Reference};
ghost use Rattle.map_chunks.specs.Places.{Grows};
ghost use Rattle.commit_graph.specs.Inside.Gaps.{IsTops, IsBetween, HasGap};
ghost use Rattle.commit_graph.specs.Inside.Meeting.{LiesChunk};

use group_history::{Chunk, Ref, Stop};
use map_chunks::Chunks;
use map_chunks::looks::look_at;

/// Stamps above `low`, up to `high`.
#[derive(Clone, Copy)]
pub struct Gap {
    low: u64,
    high: u64,
}

impl Gap {
    /// Whether nothing is known of any stamp: a pull that changed much has no gap.
    pub fn is_empty(self) -> bool
        ensures { IsTrue result → (x : ℕ) → IsBetween self x → ⊥ }
    {
        self.high <= self.low
    }

    pub fn has(self, at: Ref) -> bool
        ensures { IsTrue result → IsBetween self (stamp_of at) }
    {
        let stamp = at.stamp();
        self.low < stamp && stamp <= self.high
    }
}

/// What walks pass over: what a root keeps, and a gap in it.
#[derive(Clone, Copy)]
pub struct KeptPart {
    pub root: Ref,
    pub gap: Gap,
}

/// Of some references the one of the greatest stamp, and the greatest stamp of the others.
#[derive(Clone, Copy)]
pub struct Tops {
    top: Option<Ref>,
    second: u64,
}

fn with(tops: Tops, at: Ref) -> Tops
    ensures { (rs : List Reference) → IsTops rs tops → IsTops (rs ++ at ∷ []) result }
{
    let Some(top) = tops.top else {
        return Tops {
            top: Some(at),
            second: tops.second,
        };
    };
    if top.stamp() < at.stamp() {
        return Tops {
            top: Some(at),
            second: tops.second.max(top.stamp()),
        };
    }
    Tops {
        top: Some(top),
        second: tops.second.max(at.stamp()),
    }
}

fn tops_of(children: &[Ref]) -> Tops
    ensures { IsTops children.now result }
{
    let mut tops = Tops {
        top: None,
        second: 0,
    };
    for child in children {
        tops = with(tops, *child);
    }
    tops
}

fn tops_in(chunk: &Chunk<Ref>) -> Tops
    ensures { IsTops (chunk_children chunk.now) result }
{
    match chunk {
        Chunk::Leaf(_) => tops_of(&[]),
        Chunk::Inner(inner) => tops_of(inner.children()),
    }
}

/// Goes down from the root of a map, always to the newest child, to the first chunk that isn't above the limit. What
/// else is reached up to the limit is no newer than the other children on the way.
pub fn gap_below<C: Chunks>(chunks: &mut C, root: Ref, limit: u64) -> Result<Gap, Stop>
    requires root { IsSome (map_at (C.contents chunks.old) (stamp_of root)) }
    requires place { C.places chunks.old root }
    ensures grown { Grows C.contents C.places chunks.old chunks.new }
    ensures gap { IfOk result (HasGap (C.contents chunks.new) (stamp_of root)) }
    ensures stopped { IfErr result C.stops }
{
    let mut at = root;
    let mut low = 0;
    while at.stamp() > limit {
        let tops = look_at(chunks, at, &mut tops_in)?;
        low = tops.second.max(low);
        let Some(top) = tops.top else {
            return Ok(Gap { low, high: limit });
        };
        at = top;
    }
    Ok(Gap {
        low: at.stamp().max(low),
        high: limit,
    })
}
