//! What is read of a root that a draft owns.
ghost use Rattle.std.specs.Prelude.{◌≡◌, ◌⊎◌, IfOk, IfErr};
ghost use Rattle.std.specs.Ordering.{nat_cmp};
ghost use Rattle.std.specs.Cmp.Lexicographic.{slice_cmp};
ghost use Rattle.std.specs.FinMap as finite;
ghost use Rattle.group_history.specs.declared.mutators.Stop.TheVariants.{NoMemory};
ghost use Rattle.map_chunks.specs.Places.{Grows, AreAll, places_of};
ghost use Rattle.map_chunks.specs.Scanning.{taken, Gave};
ghost use Rattle.map_chunks.specs.Seeking.{is_key_in};
ghost use Rattle.map_chunks.specs.Shown.{shown, IsTree, rows_or};

use super::{Form, OwnRoot};
use group_history::{Json, Scan, Stop};
use map_chunks::{Chunks, TakesRows};

impl OwnRoot {
    /// The value at a key, if it is there. Stops for want of memory, or as the store does.
    pub fn get<C: Chunks>(&self, chunks: &mut C, key: &str) -> Result<Option<Json>, Stop>
        requires places { AreAll (C.places chunks.old) (places_of self.now.pieces) }
        requires tree { IsTree (shown (C.contents chunks.old) self.now.pieces) }
        ensures grown { Grows C.contents C.places chunks.old chunks.new }
        ensures value { IfOk result (λ v. v ≡ finite.find (slice_cmp nat_cmp) key.now
            (rows_or (shown (C.contents chunks.old) self.now.pieces))) }
        ensures stopped { IfErr result (λ s. (s ≡ NoMemory) ⊎ C.stops s) }
    {
        match &self.form {
            Form::Node(node) => node.get(chunks, key),
            Form::Trail(trail) => trail.get(chunks, key),
        }
    }

    /// Whether the key is there. Stops as the store does alone.
    pub fn has<C: Chunks>(&self, chunks: &mut C, key: &str) -> Result<bool, Stop>
        requires places { AreAll (C.places chunks.old) (places_of self.now.pieces) }
        requires tree { IsTree (shown (C.contents chunks.old) self.now.pieces) }
        ensures grown { Grows C.contents C.places chunks.old chunks.new }
        ensures has { IfOk result (λ b. b ≡ is_key_in (rows_or (shown
            (C.contents chunks.old) self.now.pieces)) key.now) }
        ensures stopped { IfErr result C.stops }
    {
        match &self.form {
            Form::Node(node) => node.has(chunks, key),
            Form::Trail(trail) => trail.has(chunks, key),
        }
    }

    /// Takes the scan's rows of the chunk, and answers the room that is left. Stops for want of memory, or as
    /// the store does; the sink has then a beginning of these rows.
    pub fn scan<C: Chunks, S: TakesRows>(
        &self,
        chunks: &mut C,
        scan: &Scan,
        room: Option<u64>,
        sink: &mut S,
    ) -> Result<Option<u64>, Stop>
        requires places { AreAll (C.places chunks.old) (places_of self.now.pieces) }
        requires tree { IsTree (shown (C.contents chunks.old) self.now.pieces) }
        ensures grown { Grows C.contents C.places chunks.old chunks.new }
        ensures rows { Gave S.has sink.old sink.new room result
            (taken scan.now room (rows_or (shown (C.contents chunks.old) self.now.pieces))) }
        ensures stopped { IfErr result (λ s. (s ≡ NoMemory) ⊎ C.stops s) }
    {
        match &self.form {
            Form::Node(node) => node.scan(chunks, scan, room, sink),
            Form::Trail(trail) => trail.scan(chunks, scan, room, sink),
        }
    }
}
