//! Scans of a map.
ghost use Rattle.std.specs.Prelude.{◌≡◌, ◌⊎◌, Some, IfOk, IfErr, OnErr, OnOk, IsSome};
ghost use Rattle.group_history.specs.Map.{Entries};
ghost use Rattle.group_history.specs.Scans.{rows_of};
ghost use Rattle.group_history.specs.declared.mutators.Stop.TheVariants.{NoMemory};
ghost use Rattle.map_chunks.specs.Sinks.{HasMore, HasBegun};
ghost use Rattle.map_chunks.specs.Places.{Grows, AreAll};
ghost use Rattle.map_tree.specs.Trees.{tree_places, tree_map};

use super::{Root, Tree};
use group_history::{Json, Scan, Stop, Text};
use map_chunks::scanning::scan_placed;
use map_chunks::{Chunks, TakesRows};
use std::alloc::Global;

impl Tree {
    /// The pairs that the scan asks for, in the order of their keys.
    pub fn scan<C: Chunks>(
        &self,
        alloc: Global,
        chunks: &mut C,
        scan: &Scan,
    ) -> Result<Vec<(Text, Json)>, Stop>
        requires places { AreAll (C.places chunks.old) (tree_places self.now) }
        requires map { IsSome (tree_map (C.contents chunks.old) self.now) }
        ensures grown { Grows C.contents C.places chunks.old chunks.new }
        ensures rows { (m : Entries) → tree_map (C.contents chunks.old) self.now ≡ Some m
            → IfOk result (λ rows. rows.items ≡ rows_of scan.now m) }
        ensures stopped { IfErr result (λ s. (s ≡ NoMemory) ⊎ C.stops s) }
    {
        let mut rows = Vec::new(alloc);
        self.scan_into(chunks, scan, &mut rows)?;
        Ok(rows)
    }

    /// Gives the pairs that the scan asks for to the sink, in the order of their keys. Stops for want of memory,
    /// which the sink takes, and a copy of the new chunks where a put has found its key and nothing else is
    /// changed; or as the store does. The sink has then a beginning of the pairs.
    pub fn scan_into<C: Chunks, S: TakesRows>(
        &self,
        chunks: &mut C,
        scan: &Scan,
        sink: &mut S,
    ) -> Result<(), Stop>
        requires places { AreAll (C.places chunks.old) (tree_places self.now) }
        requires map { IsSome (tree_map (C.contents chunks.old) self.now) }
        ensures grown { Grows C.contents C.places chunks.old chunks.new }
        ensures rows { (m : Entries) → tree_map (C.contents chunks.old) self.now ≡ Some m
            → OnOk result (HasMore S.has sink.old sink.new (rows_of scan.now m)) }
        ensures begun { (m : Entries) → tree_map (C.contents chunks.old) self.now ≡ Some m
            → OnErr result (HasBegun S.has sink.old sink.new (rows_of scan.now m)) }
        ensures stopped { IfErr result (λ s. (s ≡ NoMemory) ⊎ C.stops s) }
    {
        match &self.root {
            Root::Placed(at) => {
                scan_placed(chunks, *at, scan, scan.limit, sink)?;
                return Ok(());
            }
            Root::Own(node) => {
                node.scan(chunks, scan, scan.limit, sink)?;
                return Ok(());
            }
        }
    }
}
