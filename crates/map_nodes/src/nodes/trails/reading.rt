//! Queries of a trail.
ghost use Rattle.std.specs.Prelude.{◌≡◌, ◌==◌, ◌⊎◌, Some, IfOk, IfErr, length};
ghost use Rattle.std.specs.Ordering.{nat_cmp};
ghost use Rattle.std.specs.Cmp.Lexicographic.{slice_cmp};
ghost use Rattle.std.specs.FinMap as finite;
ghost use Rattle.group_history.specs.Rows.{Rows};
ghost use Rattle.group_history.specs.Spelling.{Contents};
ghost use Rattle.group_history.specs.declared.mutators.Stop.TheVariants.{NoMemory};
ghost use Rattle.map_chunks.specs.Places.{Grows, AreAll, places_of};
ghost use Rattle.map_chunks.specs.Seeking.{is_key_in};
ghost use Rattle.map_chunks.specs.Shown.{fresh, shown, IsTree, rows_or};
ghost use Rattle.map_nodes.specs.Inside.Spots.{IsSpot};
ghost use Rattle.map_nodes.specs.Trails.{steps_seen, AreSteps};

use super::{End, Step, Trail};
use group_history::{Json, Ref, SearchKey, Stop};
use map_chunks::Chunks;
use map_chunks::placed::get_placed;
use map_chunks::search::{has_key, place_for, value_at};
use map_chunks::seeking::seek_placed;

// The placed chunk where the way to a key leaves the trail, if it does.
fn spot(steps: &[Step], end: &End, key: &SearchKey<'_>) -> Option<Ref>
    requires { AreSteps steps.now end.now }
    ensures { (contents : Contents) → IsTree (shown contents (steps_seen steps.now end.now).pieces)
        → IsSpot contents key.now (steps_seen steps.now end.now).pieces end.now result }
{
    let Some((step, rest)) = steps.split_last() else {
        return None;
    };
    let place = place_for(step.keys.as_slice(), key);
    if place == step.place {
        return spot(rest, end, key);
    }
    Some(step.children[place])
}

impl Trail {
    /// The value at a key, if it is there. Stops for want of memory, or as the store does.
    pub fn get<C: Chunks>(&self, chunks: &mut C, key: &str) -> Result<Option<Json>, Stop>
        requires places { AreAll (C.places chunks.old) (places_of self.now.pieces) }
        requires tree { IsTree (shown (C.contents chunks.old) self.now.pieces) }
        ensures grown { Grows C.contents C.places chunks.old chunks.new }
        ensures value { IfOk result (λ v. v ≡ finite.find (slice_cmp nat_cmp) key.now
            (rows_or (shown (C.contents chunks.old) self.now.pieces))) }
        ensures stopped { IfErr result (λ s. (s ≡ NoMemory) ⊎ C.stops s) }
    {
        match spot(&self.steps, &self.end, &SearchKey::new(key)) {
            Some(at) => get_placed(chunks, at, key),
            None => Ok(value_at(self.end.keys.as_slice(), &self.end.values, key)?),
        }
    }

    /// Whether the key is there. Stops as the store does alone.
    pub fn has<C: Chunks>(&self, chunks: &mut C, key: &str) -> Result<bool, Stop>
        requires places { AreAll (C.places chunks.old) (places_of self.now.pieces) }
        requires tree { IsTree (shown (C.contents chunks.old) self.now.pieces) }
        ensures grown { Grows C.contents C.places chunks.old chunks.new }
        ensures has { IfOk result (λ b. b ≡ is_key_in (rows_or (shown
            (C.contents chunks.old) self.now.pieces)) key.now) }
        ensures stopped { IfErr result C.stops }
    {
        let searched = SearchKey::new(key);
        match spot(&self.steps, &self.end, &searched) {
            Some(at) => {
                let sought = seek_placed(chunks, at, key)?;
                Ok(sought.is_there)
            }
            None => Ok(has_key(self.end.keys.as_slice(), &searched)),
        }
    }

    /// How deep the trail is.
    pub fn depth(&self) -> u64
        ensures { result ≡ self.now.depth }
    {
        self.steps.len() as u64 + 1
    }

    /// How many chunks it is.
    pub fn new_chunks(&self) -> u64
        ensures { result ≡ fresh self.now }
    {
        self.steps.len() as u64 + 1
    }

    /// Whether the trail has no rows: then it is a leaf.
    pub fn is_empty(&self) -> bool
        ensures { (contents : Contents) (rows : Rows) → shown contents self.now.pieces ≡ Some rows
            → result ≡ (length rows == 0) }
    {
        self.steps.is_empty() && self.end.values.is_empty()
    }
}
