//! Values put in a map.
ghost use Rattle.std.specs.Prelude.{◌≡◌, ◌⊎◌, Some, Ok, Err, IfOk, IfErr, OnOk, OnErr, IsSome};
ghost use Rattle.std.specs.FinMap as finite;
ghost use Rattle.group_history.specs.Map.{Entries};
ghost use Rattle.group_history.specs.declared.mutators.Stop.TheVariants.{NoMemory};
ghost use Rattle.group_history.specs.declared.mutators.Update.{Update as Updates};
ghost use Rattle.map_chunks.specs.Places.{Grows, AreAll};
ghost use Rattle.map_nodes.specs.Changes.{CanMake, Makes};
ghost use Rattle.map_tree.specs.Puts.{IsPut, IsUpdate, settled};
ghost use Rattle.map_tree.specs.Trees.{tree_places, tree_map};

use super::{Root, Tree};
use group_history::{Json, Ran, Stop, Update};
use map_chunks::Chunks;
use map_nodes::{OwnRoot, Updated, ValueChange};
use std::alloc::Global;

// A change that asks nothing.
type Constant = ValueChange<fn(Option<Json>) -> Result<Update, Stop>>;

impl Tree {
    /// Puts a value at a key. New are only the chunks on the way to it and those that a split adds, and none where the
    /// value is there already. A chunk that gets a 17th entry is split into the first 8 and the last 9. Where it stops,
    /// the map is as it was.
    pub fn put<C: Chunks>(
        &mut self,
        alloc: Global,
        chunks: &mut C,
        key: &str,
        value: &Json,
    ) -> Result<(), Stop>
        requires places { AreAll (C.places chunks.old) (tree_places self.old) }
        requires map { IsSome (tree_map (C.contents chunks.old) self.old) }
        ensures grown { Grows C.contents C.places chunks.old chunks.new }
        ensures put { (m : Entries) → tree_map (C.contents chunks.old) self.old ≡ Some m
            → OnOk result (IsPut (C.contents chunks.old) (C.contents chunks.new) (C.places chunks.new) self.old self.new
            m key.now value.now) }
        ensures err { OnErr result (self.new ≡ self.old) }
        ensures stopped { IfErr result (λ s. (s ≡ NoMemory) ⊎ C.stops s) }
    {
        let change: Constant = ValueChange::Value(value.clone()?);
        self.change(alloc, chunks, key, change)?;
        Ok(())
    }

    /// Lets the change see the value at a key (none where the key isn't there), and puts what it makes of it: a look
    /// and a put on one way down. Where it stops or refuses, the map is as it was.
    pub fn update<C: Chunks, F: FnOnce(Option<Json>) -> Result<Update, Stop>>(
        &mut self,
        alloc: Global,
        chunks: &mut C,
        key: &str,
        change: F,
    ) -> Result<Ran, Stop>
        requires places { AreAll (C.places chunks.old) (tree_places self.old) }
        requires map { IsSome (tree_map (C.contents chunks.old) self.old) }
        requires callable { F.IsAlwaysCallable change }
        ensures grown { Grows C.contents C.places chunks.old chunks.new }
        ensures updated { (m : Entries) → tree_map (C.contents chunks.old) self.old ≡ Some m → IfOk result (λ ran.
            (u : Updates) × F.post change (finite.get m key.now) (Ok u) × IsUpdate (C.contents chunks.old)
            (C.contents chunks.new) (C.places chunks.new) self.old self.new m key.now u ran) }
        ensures err { OnErr result (self.new ≡ self.old) }
        ensures stopped { (m : Entries) → tree_map (C.contents chunks.old) self.old ≡ Some m → IfErr result (λ e.
            (e ≡ NoMemory) ⊎ C.stops e ⊎ F.post change (finite.get m key.now) (Err e)) }
    {
        self.change(alloc, chunks, key, ValueChange::Ask(change))
    }

    // Puts what a change makes of the value at a key.
    fn change<C: Chunks, F: FnOnce(Option<Json>) -> Result<Update, Stop>>(
        &mut self,
        alloc: Global,
        chunks: &mut C,
        key: &str,
        change: ValueChange<F>,
    ) -> Result<Ran, Stop>
        requires places { AreAll (C.places chunks.old) (tree_places self.old) }
        requires map { IsSome (tree_map (C.contents chunks.old) self.old) }
        requires callable { CanMake (λ f. F.IsAlwaysCallable f) change }
        ensures grown { Grows C.contents C.places chunks.old chunks.new }
        ensures updated { (m : Entries) → tree_map (C.contents chunks.old) self.old ≡ Some m → IfOk result (λ ran.
            (u : Updates) × Makes (λ f x r. F.post f x r) change (finite.get m key.now) (Ok u) × IsUpdate
            (C.contents chunks.old) (C.contents chunks.new) (C.places chunks.new) self.old self.new m key.now u ran) }
        ensures err { OnErr result (self.new ≡ self.old) }
        ensures stopped { (m : Entries) → tree_map (C.contents chunks.old) self.old ≡ Some m → IfErr result (λ e.
            (e ≡ NoMemory) ⊎ C.stops e ⊎ Makes (λ f x r. F.post f x r) change (finite.get m key.now) (Err e)) }
    {
        match &mut self.root {
            Root::Own(node) => node.write(alloc, chunks, key, change),
            Root::Placed(at) => {
                let at = *at;
                let updated = OwnRoot::updated(alloc, chunks, at, key, change)?;
                Ok(self.settle(updated))
            }
        }
    }

    // The map is what an update made of its placed root.
    fn settle(&mut self, updated: Updated) -> Ran
        ensures ran { result ≡ updated.ran }
        ensures tree { self.new ≡ settled updated.root self.old }
    {
        let Updated { ran, root } = updated;
        if let Some(root) = root {
            self.root = Root::Own(root);
        }
        ran
    }
}
