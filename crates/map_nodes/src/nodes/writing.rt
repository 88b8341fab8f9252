//! A put in a map.
ghost use Rattle.std.specs.Prelude.{◌≡◌, ◌⊎◌, Ok, Err, IfOk, IfErr, OnErr};
ghost use Rattle.group_history.specs.declared.mutators.Stop.TheVariants.{NoMemory};
ghost use Rattle.group_history.specs.declared.mutators.Update.{Update as Updates};
ghost use Rattle.map_chunks.specs.Places.{Grows, AreAll, places_of};
ghost use Rattle.map_chunks.specs.Shown.{shown, IsTree};
ghost use Rattle.map_nodes.specs.Changes.{CanMake, Makes};
ghost use Rattle.map_nodes.specs.Inside.Puts.{shown_at};
ghost use Rattle.map_nodes.specs.Updating.{IsPutOr};

use super::OwnNode;
use crate::changes::ValueChange;
use group_history::{Json, Ran, Stop, Text, Update};
use map_chunks::Chunks;
use std::alloc::Global;

impl OwnNode {
    /// Puts what a change makes of the value at a key in the map whose root the chunk is. Where it is there already,
    /// and where the change refuses, the chunk is as it was. Stops for want of memory, or as the store or the change
    /// does, and the chunk is as it was then.
    pub fn write<C: Chunks, F: FnOnce(Option<Json>) -> Result<Update, Stop>>(
        &mut self,
        alloc: Global,
        chunks: &mut C,
        key: &str,
        change: ValueChange<F>,
    ) -> Result<Ran, Stop>
        requires places { AreAll (C.places chunks.old) (places_of self.old.pieces) }
        requires tree { IsTree (shown (C.contents chunks.old) self.old.pieces) }
        requires callable { CanMake (λ f. F.IsAlwaysCallable f) change }
        ensures grown { Grows C.contents C.places chunks.old chunks.new }
        ensures put { IfOk result (λ ran. (u : Updates) × Makes (λ f x r. F.post f x r) change (shown_at
            (shown (C.contents chunks.old) self.old.pieces) key.now) (Ok u) × IsPutOr (C.contents chunks.old)
            (C.contents chunks.new) (C.places chunks.new) key.now self.old self.new u ran) }
        ensures err { OnErr result (self.new ≡ self.old) }
        ensures stopped { IfErr result (λ s. (s ≡ NoMemory) ⊎ C.stops s ⊎ Makes (λ f x r. F.post f x r) change (shown_at
            (shown (C.contents chunks.old) self.old.pieces) key.now) (Err s)) }
    {
        let key = Text::new(alloc, key)?;
        self.put_root(alloc, chunks, &key, change)
    }
}
