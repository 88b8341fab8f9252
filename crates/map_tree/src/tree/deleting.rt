//! Keys removed from a map.
ghost use Rattle.std.specs.Prelude.{◌≡◌, ◌⊎◌, ◌+◌, ◌≤◌, ◌==◌, [], ℕ, Some, None, IfOk, IfErr, OnOk, OnErr, IsSome};
ghost use Rattle.std.specs.Prelude.{length};
ghost use Rattle.std.specs.FinMap as finite;
ghost use Rattle.group_history.specs.Map.{Entries};
ghost use Rattle.group_history.specs.Refs.{stamp_of};
ghost use Rattle.group_history.specs.Spelling.{map_at};
ghost use Rattle.group_history.specs.declared.mutators.Stop.TheVariants.{NoMemory};
ghost use Rattle.map_chunks.specs.Places.{Grows, AreAll, AreKept};
ghost use Rattle.map_tree.specs.Dels.{IsDel};
ghost use Rattle.map_tree.specs.Trees.{root_places, tree_places, root_map, root_depth, root_or, tree_map, root_levels};
ghost use Rattle.map_tree.specs.Trees.{tree_depth, tree_fresh, tree_levels, HasWideRoot, IsWide};
ghost use Rattle.map_nodes.specs.Levels.{placed_levels, RemovedLater};
ghost use Rattle.map_chunks.specs.Seeking.{chunk_depth};
ghost use Rattle.map_chunks.specs.Wide.{IsWideAt};

use super::{Root, Tree};
use group_history::{Ref, Stop};
use map_chunks::Chunks;
use map_chunks::placed::is_empty_placed;
use map_nodes::OwnRoot;
use std::alloc::Global;

impl Tree {
    /// Whether the map has no key. Takes no memory.
    pub fn is_empty<C: Chunks>(&self, chunks: &mut C) -> Result<bool, Stop>
        requires places { AreAll (C.places chunks.old) (tree_places self.now) }
        requires map { IsSome (tree_map (C.contents chunks.old) self.now) }
        ensures grown { Grows C.contents C.places chunks.old chunks.new }
        ensures value { (m : Entries) → tree_map (C.contents chunks.old) self.now ≡ Some m
            → IfOk result (λ b. b ≡ (length (finite.entries m) == 0)) }
        ensures stopped { IfErr result C.stops }
    {
        match &self.root {
            Root::Placed(at) => is_empty_placed(chunks, *at),
            Root::Own(node) => Ok(node.is_empty()),
        }
    }

    /// Removes a key, if it is there. New are only the chunks on the way to it. The placed ones are copied first; a
    /// chunk that has no row then leaves its parent, and a root with one child gives way to it, so the tree is no
    /// deeper than before. Where it stops, the map is as it was.
    pub fn del<C: Chunks>(&mut self, alloc: Global, chunks: &mut C, key: &str) -> Result<(), Stop>
        requires places { AreAll (C.places chunks.old) (tree_places self.old) }
        requires map { IsSome (tree_map (C.contents chunks.old) self.old) }
        ensures grown { Grows C.contents C.places chunks.old chunks.new }
        ensures ok { (m : Entries) → tree_map (C.contents chunks.old) self.old ≡ Some m
            → OnOk result (tree_map (C.contents chunks.new) self.new ≡ Some (finite.remove m key.now)) }
        ensures same { (m : Entries) → tree_map (C.contents chunks.old) self.old ≡ Some m → finite.get m key.now ≡ None
            → OnOk result (self.new ≡ self.old) }
        ensures few { (d : ℕ) → tree_depth (C.contents chunks.old) self.old ≡ Some d
            → OnOk result (tree_fresh self.new ≤ tree_fresh self.old + d) }
        ensures levels { OnOk result (IsDel (C.contents chunks.old) (C.contents chunks.new) self.old self.new) }
        ensures deep { (d : ℕ) → tree_depth (C.contents chunks.old) self.old ≡ Some d
            → OnOk result ((e : ℕ) × (tree_depth (C.contents chunks.new) self.new ≡ Some e) × (e ≤ d)) }
        ensures wide { HasWideRoot (C.contents chunks.old) self.old
            → OnOk result (HasWideRoot (C.contents chunks.new) self.new) }
        ensures places { OnOk result (AreKept (C.places chunks.new) (tree_places self.old) (tree_places self.new)) }
        ensures err { OnErr result (self.new ≡ self.old) }
        ensures stopped { IfErr result (λ s. (s ≡ NoMemory) ⊎ C.stops s) }
    {
        let sought = self.sought(chunks, key)?;
        if sought.is_there {
            return self.remove(alloc, chunks, key, sought.depth);
        }
        Ok(())
    }

    // Removes a key on a path of chunks that are the tree's own from then on. The tree is so deep.
    fn remove<C: Chunks>(
        &mut self,
        alloc: Global,
        chunks: &mut C,
        key: &str,
        depth: u64,
    ) -> Result<(), Stop>
        requires places { AreAll (C.places chunks.old) (tree_places self.old) }
        requires map { IsSome (tree_map (C.contents chunks.old) self.old) }
        requires depth { tree_depth (C.contents chunks.old) self.old ≡ Some depth }
        ensures grown { Grows C.contents C.places chunks.old chunks.new }
        ensures ok { (m : Entries) → tree_map (C.contents chunks.old) self.old ≡ Some m
            → OnOk result (tree_map (C.contents chunks.new) self.new ≡ Some (finite.remove m key.now)) }
        ensures levels { OnOk result ((e : ℕ) × (tree_depth (C.contents chunks.new) self.new ≡ Some e)
            × RemovedLater depth e (C.contents chunks.new) (tree_levels self.old) (tree_levels self.new)) }
        ensures wide { HasWideRoot (C.contents chunks.old) self.old
            → OnOk result (HasWideRoot (C.contents chunks.new) self.new) }
        ensures places { OnOk result (AreKept (C.places chunks.new) (tree_places self.old) (tree_places self.new)) }
        ensures err { OnErr result (self.new ≡ self.old) }
        ensures stopped { IfErr result (λ s. (s ≡ NoMemory) ⊎ C.stops s) }
    {
        match &mut self.root {
            Root::Own(node) => {
                let end = node.remove_root(alloc, chunks, key)?;
                self.root.give_way(end);
                return Ok(());
            }
            Root::Placed(at) => {
                self.root = root_without(alloc, chunks, *at, depth, key)?;
                return Ok(());
            }
        }
    }
}

// The root of a map without a key, where its root was placed and so deep.
fn root_without<C: Chunks>(
    alloc: Global,
    chunks: &mut C,
    at: Ref,
    depth: u64,
    key: &str,
) -> Result<Root, Stop>
    requires place { C.places chunks.old at }
    requires map { IsSome (map_at (C.contents chunks.old) (stamp_of at)) }
    requires depth { chunk_depth (C.contents chunks.old) (stamp_of at) ≡ Some depth }
    ensures grown { Grows C.contents C.places chunks.old chunks.new }
    ensures ok { (m : Entries) → map_at (C.contents chunks.old) (stamp_of at) ≡ Some m
        → IfOk result (λ root. root_map (C.contents chunks.new) root ≡ Some (finite.remove m key.now)) }
    ensures levels { IfOk result (λ root. (e : ℕ) × (root_depth (C.contents chunks.new) root ≡ Some e)
        × RemovedLater depth e (C.contents chunks.new) (λ p. placed_levels p depth (stamp_of at)) (root_levels root)) }
    ensures wide { IsWideAt (C.contents chunks.old) (stamp_of at) → IfOk result (IsWide (C.contents chunks.new)) }
    ensures places { IfOk result (λ root. AreKept (C.places chunks.new) [] (root_places root)) }
    ensures stopped { IfErr result (λ s. (s ≡ NoMemory) ⊎ C.stops s) }
{
    let mut node = OwnRoot::copied(alloc, chunks, at, depth)?;
    let end = node.remove_root(alloc, chunks, key)?;
    let mut root = Root::Own(node);
    root.give_way(end);
    Ok(root)
}

impl Root {
    // Gives way to the placed chunk, if there is one.
    fn give_way(&mut self, end: Option<Ref>)
        ensures { self.new ≡ root_or end self.old }
    {
        if let Some(at) = end {
            *self = Root::Placed(at);
        }
    }
}
