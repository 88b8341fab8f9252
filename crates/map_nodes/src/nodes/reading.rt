//! Queries of a draft's chunks.
ghost use Rattle.std.specs.Prelude.{◌≡◌, ◌==◌, ◌⊎◌, Some, IfOk, IfErr, length};
ghost use Rattle.std.specs.Ordering.{nat_cmp};
ghost use Rattle.std.specs.Cmp.Lexicographic.{slice_cmp};
ghost use Rattle.std.specs.FinMap as finite;
ghost use Rattle.group_history.specs.Rows.{Rows};
ghost use Rattle.group_history.specs.Spelling.{Contents};
ghost use Rattle.group_history.specs.declared.mutators.Stop.TheVariants.{NoMemory};
ghost use Rattle.map_chunks.specs.Places.{Grows, AreAll, places_of};
ghost use Rattle.map_chunks.specs.Seeking.{is_key_in};
ghost use Rattle.map_chunks.specs.Shown.{shown, IsTree, rows_or};

use super::{Body, OwnChild, OwnNode};
use group_history::{Json, SearchKey, Stop};
use map_chunks::Chunks;
use map_chunks::placed::get_placed;
use map_chunks::search::{has_key, place_of, value_at};
use map_chunks::seeking::seek_placed;

impl OwnNode {
    /// The value at a key, if it is there. Stops for want of memory, or as the store does.
    pub fn get<C: Chunks>(&self, chunks: &mut C, key: &str) -> Result<Option<Json>, Stop>
        requires places { AreAll (C.places chunks.old) (places_of self.now.pieces) }
        requires tree { IsTree (shown (C.contents chunks.old) self.now.pieces) }
        ensures grown { Grows C.contents C.places chunks.old chunks.new }
        ensures value { IfOk result (λ v. v ≡ finite.find (slice_cmp nat_cmp) key.now
            (rows_or (shown (C.contents chunks.old) self.now.pieces))) }
        ensures stopped { IfErr result (λ s. (s ≡ NoMemory) ⊎ C.stops s) }
    {
        match &self.body {
            Body::Leaf(values) => Ok(value_at(self.keys.as_slice(), values, key)?),
            Body::Inner(kids) => {
                let place = place_of(self.keys.as_slice(), key);
                match &kids[place] {
                    OwnChild::Placed(at) => get_placed(chunks, *at, key),
                    OwnChild::Own(node) => node.get(chunks, key),
                }
            }
        }
    }

    /// Whether the key is there. Stops as the store does alone.
    pub fn has<C: Chunks>(&self, chunks: &mut C, key: &str) -> Result<bool, Stop>
        requires places { AreAll (C.places chunks.old) (places_of self.now.pieces) }
        requires tree { IsTree (shown (C.contents chunks.old) self.now.pieces) }
        ensures grown { Grows C.contents C.places chunks.old chunks.new }
        ensures has { IfOk result (λ b. b ≡ is_key_in (rows_or (shown
            (C.contents chunks.old) self.now.pieces)) key.now) }
        ensures stopped { IfErr result C.stops }
    {
        match &self.body {
            Body::Leaf(_) => Ok(has_key(self.keys.as_slice(), &SearchKey::new(key))),
            Body::Inner(kids) => {
                let place = place_of(self.keys.as_slice(), key);
                match &kids[place] {
                    OwnChild::Placed(at) => {
                        let sought = seek_placed(chunks, *at, key)?;
                        Ok(sought.is_there)
                    }
                    OwnChild::Own(node) => node.has(chunks, key),
                }
            }
        }
    }

    /// Whether the chunk has no rows: then it is a leaf.
    pub fn is_empty(&self) -> bool
        ensures { (contents : Contents) (rows : Rows) → shown contents self.now.pieces ≡ Some rows
            → result ≡ (length rows == 0) }
    {
        self.keys.as_slice().is_empty()
    }
}
