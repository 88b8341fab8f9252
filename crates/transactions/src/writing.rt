//! A map that is written.
//!
//! The type's invariant is that the tree spells a map, given what is known to be placed, and that each chunk that it
//! names may be looked for: this map is what the transaction shows. A look at a chunk may teach more of what is placed,
//! which changes no map; a look and a call that stops leave the tree itself, so they make no chunk new.
ghost use Rattle.std.specs.Prelude.{◌≡◌, ◌⊎◌, ◌+◌, ◌≤◌, ℕ, Some, None, Ok, Err, IsSome, IfOk, IfErr, OnOk, OnErr};
ghost use Rattle.std.specs.FinMap as finite;
ghost use Rattle.group_history.specs.Scans.{rows_of};
ghost use Rattle.group_history.specs.Updating.{UpdatesAs};
ghost use Rattle.group_history.specs.declared.mutators.Stop.TheVariants.{NoMemory};
ghost use Rattle.group_history.specs.declared.mutators.Update.{Update as Updates};
ghost use Rattle.map_chunks.specs.Places.{Grows, AreAll, AreKept};
ghost use Rattle.map_tree.specs.Dels.{IsDel};
ghost use Rattle.map_tree.specs.Puts.{IsPut, IsUpdate};
ghost use Rattle.map_tree.specs.Trees.{tree_places, tree_map, tree_depth, tree_fresh, HasWideRoot};
ghost use Rattle.transactions.specs.Maps.{shown_map, all_prop};

use group_history::{Json, Ran, Scan, Stop, Text, Update, WriteView};
use map_tree::{Chunks, Tree};
use std::alloc::Global;

/// A map that is read and written. What it writes is its own until its tree is placed; placed chunks are
/// read through `chunks` and never change.
#[derive(Drop)]
pub struct WriteTx<C: Chunks> {
    alloc: Global,
    chunks: C,
    tree: Tree,
    ghost spells: { IsSome (tree_map (C.contents chunks) tree) },
    ghost placed: { AreAll (C.places chunks) (tree_places tree) } by { all_prop _ _ (C.places_prop chunks) },
}

impl<C: Chunks> WriteTx<C> {
    /// A transaction that shows the tree's map.
    pub fn new(alloc: Global, chunks: C, tree: Tree) -> WriteTx<C>
        requires map { IsSome (tree_map (C.contents chunks) tree) }
        requires places { AreAll (C.places chunks) (tree_places tree) }
        ensures chunks { result.chunks ≡ chunks }
        ensures tree { result.tree ≡ tree }
    {
        WriteTx {
            alloc,
            chunks,
            tree,
        }
    }

    /// The chunks that were read, and the tree of the map that was shown.
    pub fn into_parts(self) -> (C, Tree)
        ensures chunks { result.0 ≡ self.chunks }
        ensures tree { result.1 ≡ self.tree }
        ensures places { AreAll (C.places result.0) (tree_places result.1) }
        ensures map { tree_map (C.contents result.0) result.1 ≡ Some (shown_map (C.contents self.chunks) self.tree) }
    {
        let WriteTx {
            alloc: _,
            chunks,
            tree,
        } = self;
        (chunks, tree)
    }

    /// Removes every key.
    pub fn clear(&mut self)
        ensures chunks { self.new.chunks ≡ self.old.chunks }
        ensures map { tree_map (C.contents self.new.chunks) self.new.tree ≡ Some finite.empty }
        ensures fresh { tree_fresh self.new.tree ≡ 1 }
        ensures wide { HasWideRoot (C.contents self.new.chunks) self.new.tree }
    {
        self.tree.clear(self.alloc);
    }
}

impl<C: Chunks> WriteView for WriteTx<C> {
    ghost contents = { λ tx. shown_map (C.contents tx.chunks) tx.tree };

    ghost stops = { λ stop. (stop ≡ NoMemory) ⊎ C.stops stop };

    fn get(&mut self, key: &str) -> Result<Option<Json>, Stop>
        ensures value { IfOk result (λ found. found
            ≡ finite.get (shown_map (C.contents self.old.chunks) self.old.tree) key.now) }
        ensures kept { shown_map (C.contents self.new.chunks) self.new.tree
            ≡ shown_map (C.contents self.old.chunks) self.old.tree }
        ensures tree { self.new.tree ≡ self.old.tree }
        ensures grown { Grows C.contents C.places self.old.chunks self.new.chunks }
        ensures stopped { IfErr result (λ stop. (stop ≡ NoMemory) ⊎ C.stops stop) }
    {
        self.tree.get(&mut self.chunks, key)
    }

    fn has(&mut self, key: &str) -> Result<bool, Stop>
        ensures value { IfOk result (λ found. found
            ≡ finite.contains_key (shown_map (C.contents self.old.chunks) self.old.tree) key.now) }
        ensures kept { shown_map (C.contents self.new.chunks) self.new.tree
            ≡ shown_map (C.contents self.old.chunks) self.old.tree }
        ensures tree { self.new.tree ≡ self.old.tree }
        ensures grown { Grows C.contents C.places self.old.chunks self.new.chunks }
        ensures stopped { IfErr result (λ stop. (stop ≡ NoMemory) ⊎ C.stops stop) }
    {
        self.tree.has(&mut self.chunks, key)
    }

    fn scan(&mut self, scan: &Scan) -> Result<Vec<(Text, Json)>, Stop>
        ensures value { IfOk result (λ rows. rows.items
            ≡ rows_of scan.now (shown_map (C.contents self.old.chunks) self.old.tree)) }
        ensures kept { shown_map (C.contents self.new.chunks) self.new.tree
            ≡ shown_map (C.contents self.old.chunks) self.old.tree }
        ensures tree { self.new.tree ≡ self.old.tree }
        ensures grown { Grows C.contents C.places self.old.chunks self.new.chunks }
        ensures stopped { IfErr result (λ stop. (stop ≡ NoMemory) ⊎ C.stops stop) }
    {
        self.tree.scan(self.alloc, &mut self.chunks, scan)
    }

    fn put(&mut self, key: &str, value: &Json) -> Result<(), Stop>
        ensures ok { OnOk result (shown_map (C.contents self.new.chunks) self.new.tree
            ≡ finite.insert (shown_map (C.contents self.old.chunks) self.old.tree) key.now value.now) }
        ensures err { OnErr result (shown_map (C.contents self.new.chunks) self.new.tree
            ≡ shown_map (C.contents self.old.chunks) self.old.tree) }
        ensures tree { OnErr result (self.new.tree ≡ self.old.tree) }
        ensures put { OnOk result (IsPut (C.contents self.old.chunks) (C.contents self.new.chunks)
            (C.places self.new.chunks) self.old.tree self.new.tree
            (shown_map (C.contents self.old.chunks) self.old.tree) key.now value.now) }
        ensures grown { Grows C.contents C.places self.old.chunks self.new.chunks }
        ensures stopped { IfErr result (λ stop. (stop ≡ NoMemory) ⊎ C.stops stop) }
    {
        self.tree.put(self.alloc, &mut self.chunks, key, value)
    }

    fn update<F: FnOnce(Option<Json>) -> Result<Update, Stop>>(
        &mut self,
        key: &str,
        change: F,
    ) -> Result<Ran, Stop>
        requires callable { F.IsAlwaysCallable change }
        ensures ran { IfOk result (λ ran. (u : Updates) × F.post change (finite.get (shown_map
            (C.contents self.old.chunks) self.old.tree) key.now) (Ok u) × UpdatesAs u key.now
            (shown_map (C.contents self.old.chunks) self.old.tree) ran
            (shown_map (C.contents self.new.chunks) self.new.tree)) }
        ensures err { OnErr result (shown_map (C.contents self.new.chunks) self.new.tree
            ≡ shown_map (C.contents self.old.chunks) self.old.tree) }
        ensures tree { OnErr result (self.new.tree ≡ self.old.tree) }
        ensures updated { IfOk result (λ ran. (u : Updates) × F.post change (finite.get (shown_map
            (C.contents self.old.chunks) self.old.tree) key.now) (Ok u) × IsUpdate (C.contents self.old.chunks)
            (C.contents self.new.chunks) (C.places self.new.chunks) self.old.tree self.new.tree
            (shown_map (C.contents self.old.chunks) self.old.tree) key.now u ran) }
        ensures grown { Grows C.contents C.places self.old.chunks self.new.chunks }
        ensures stopped { IfErr result (λ e. ((e ≡ NoMemory) ⊎ C.stops e) ⊎ F.post change (finite.get (shown_map
            (C.contents self.old.chunks) self.old.tree) key.now) (Err e)) }
    {
        self.tree.update(self.alloc, &mut self.chunks, key, change)
    }

    fn del(&mut self, key: &str) -> Result<(), Stop>
        ensures ok { OnOk result (shown_map (C.contents self.new.chunks) self.new.tree
            ≡ finite.remove (shown_map (C.contents self.old.chunks) self.old.tree) key.now) }
        ensures err { OnErr result (shown_map (C.contents self.new.chunks) self.new.tree
            ≡ shown_map (C.contents self.old.chunks) self.old.tree) }
        ensures tree { OnErr result (self.new.tree ≡ self.old.tree) }
        ensures same { finite.get (shown_map (C.contents self.old.chunks) self.old.tree) key.now ≡ None
            → OnOk result (self.new.tree ≡ self.old.tree) }
        ensures levels { OnOk result (IsDel (C.contents self.old.chunks) (C.contents self.new.chunks) self.old.tree
            self.new.tree) }
        ensures few { (d : ℕ) → tree_depth (C.contents self.old.chunks) self.old.tree ≡ Some d
            → OnOk result (tree_fresh self.new.tree ≤ tree_fresh self.old.tree + d) }
        ensures deep { (d : ℕ) → tree_depth (C.contents self.old.chunks) self.old.tree ≡ Some d
            → OnOk result ((e : ℕ) × (tree_depth (C.contents self.new.chunks) self.new.tree ≡ Some e) × (e ≤ d)) }
        ensures wide { HasWideRoot (C.contents self.old.chunks) self.old.tree
            → OnOk result (HasWideRoot (C.contents self.new.chunks) self.new.tree) }
        ensures places { OnOk result (AreKept (C.places self.new.chunks) (tree_places self.old.tree)
            (tree_places self.new.tree)) }
        ensures grown { Grows C.contents C.places self.old.chunks self.new.chunks }
        ensures stopped { IfErr result (λ stop. (stop ≡ NoMemory) ⊎ C.stops stop) }
    {
        self.tree.del(self.alloc, &mut self.chunks, key)
    }
}
