//! Looks at what would stay of a child.
ghost use Rattle.std.specs.Prelude.{◌≡◌, ◌⊎◌, ℕ, None, IfOk, IfErr, IsSome};
ghost use Rattle.group_history.specs.declared.mutators.Stop.TheVariants.{NoMemory};
ghost use Rattle.map_nodes.specs.Inside.Halves.{HasDepth};
ghost use Rattle.map_nodes.specs.Inside.Nodes.{child_rows};
ghost use Rattle.map_nodes.specs.Inside.Removing.{IsFate, IsThinLater};
ghost use Rattle.map_nodes.specs.Levels.{seen_levels};
ghost use Rattle.map_nodes.specs.Nodes.{child_levels};
ghost use Rattle.map_nodes.specs.declared.nodes.removing.ChildAfter.TheVariants.{Leaves};
ghost use Rattle.map_nodes.specs.Inside.Scanning.{kid_shown};
ghost use Rattle.map_chunks.specs.Places.{Grows, AreAll, places_of};
ghost use Rattle.map_nodes.specs.Inside.Freezing.{child_places};
ghost use Rattle.map_chunks.specs.SecondKeys.{second_key};
ghost use Rattle.map_chunks.specs.Shown.{shown, rows_or};

use super::super::{Body, OwnChild, OwnNode};
use super::ChildAfter;
use group_history::{Stop, Text};
use map_chunks::Chunks;
use map_chunks::keys::second_of;
use map_chunks::seconds::second_placed;

impl OwnNode {
    // The second key of the chunk's rows, if there are two.
    #[cycle(second)]
    fn second<C: Chunks>(&self, chunks: &mut C) -> Result<Option<Text>, Stop>
        requires places { AreAll (C.places chunks.old) (places_of self.now.pieces) }
        requires tree { IsSome (shown (C.contents chunks.old) self.now.pieces) }
        ensures grown { Grows C.contents C.places chunks.old chunks.new }
        ensures key { IfOk result (λ key. key ≡ second_key (rows_or (shown (C.contents chunks.old) self.now.pieces))) }
        ensures thin { IfOk result (λ key. key ≡ None
            → IsThinLater (C.contents chunks.new) self.now.depth (seen_levels self.now)) }
        ensures stopped { IfErr result (λ s. (s ≡ NoMemory) ⊎ C.stops s) }
    {
        let next = second_of(self.keys.as_slice())?;
        match &self.body {
            Body::Leaf(_) => Ok(next),
            Body::Inner(kids) => {
                let key = kid_second(&kids[0], chunks)?;
                Ok(key.or(next))
            }
        }
    }
}

#[cycle(second)]
fn kid_second<C: Chunks>(kid: &OwnChild, chunks: &mut C) -> Result<Option<Text>, Stop>
    requires places { AreAll (C.places chunks.old) (child_places kid.now) }
    requires tree { IsSome (kid_shown (C.contents chunks.old) kid.now) }
    ensures grown { Grows C.contents C.places chunks.old chunks.new }
    ensures key { IfOk result (λ key. key ≡ second_key (rows_or (kid_shown (C.contents chunks.old) kid.now))) }
    ensures thin { (below : ℕ) → HasDepth below kid.now → IsSome (child_rows (C.contents chunks.old) below kid.now)
        → IfOk result (λ key. key ≡ None → IsThinLater (C.contents chunks.new) below (child_levels below kid.now)) }
    ensures stopped { IfErr result (λ s. (s ≡ NoMemory) ⊎ C.stops s) }
{
    match kid {
        OwnChild::Placed(at) => second_placed(chunks, *at),
        OwnChild::Own(node) => node.second(chunks),
    }
}

/// What becomes of the child to which the key belongs, by its first key and its rows.
pub(super) fn fate_of<C: Chunks>(
    chunks: &mut C,
    first: &Text,
    kid: &OwnChild,
    key: &str,
) -> Result<ChildAfter, Stop>
    requires places { AreAll (C.places chunks.old) (child_places kid.now) }
    requires tree { IsSome (kid_shown (C.contents chunks.old) kid.now) }
    ensures grown { Grows C.contents C.places chunks.old chunks.new }
    ensures fate { IfOk result (IsFate key.now first.now (rows_or (kid_shown (C.contents chunks.old) kid.now))) }
    ensures thin { (below : ℕ) → HasDepth below kid.now → IsSome (child_rows (C.contents chunks.old) below kid.now)
        → IfOk result (λ fate. fate ≡ Leaves
        → IsThinLater (C.contents chunks.new) below (child_levels below kid.now)) }
    ensures stopped { IfErr result (λ s. (s ≡ NoMemory) ⊎ C.stops s) }
{
    if first.as_str() != key {
        return Ok(ChildAfter::Stays(None));
    }
    match kid_second(kid, chunks)? {
        None => Ok(ChildAfter::Leaves),
        Some(next) => Ok(ChildAfter::Stays(Some(next))),
    }
}
