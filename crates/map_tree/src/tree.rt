//! A map as a tree of chunks, of which any may be placed already.
mod clearing;
mod counting;
mod deleting;
mod freezing;
mod putting;
mod scanning;

use group_history::{Json, Ref, Stop};
use map_chunks::Chunks;
use map_chunks::looks::Sought;
use map_chunks::placed::{depth_placed, get_placed};
use map_chunks::seeking::seek_placed;
use map_nodes::OwnRoot;
use std::alloc::Global;

/// A map from texts to JSON values. A change copies the chunks on its way that are placed; these are
/// never changed.
pub struct Tree {
    root: Root,
}

impl Drop for Tree {
    fn drop(self) {
        let Tree { root } = self;
        drop(root);
    }
}

#[derive(Drop)]
enum Root {
    Placed(Ref),
    Own(OwnRoot),
}

impl Tree {
    ghost use Rattle.std.specs.Prelude.{◌≡◌, ◌⊎◌, [], ◌∷◌, Some, None, IfOk, IfErr, IsSome};
    ghost use Rattle.std.specs.FinMap as finite;
    ghost use Rattle.group_history.specs.Map.{Entries};
    ghost use Rattle.group_history.specs.Refs.{stamp_of};
    ghost use Rattle.group_history.specs.Spelling.{Contents, map_at};
    ghost use Rattle.group_history.specs.declared.mutators.Stop.TheVariants.{NoMemory};
    ghost use Rattle.map_nodes.specs.Levels.{nothing, topped, AreAsBefore};
    ghost use Rattle.map_tree.specs.Trees.{levels_at, tree_map, tree_depth, tree_fresh, tree_root, tree_places};
    ghost use Rattle.map_tree.specs.Trees.{tree_levels, HasWideRoot};
    ghost use Rattle.map_chunks.specs.Places.{Grows, AreAll};
    ghost use Rattle.map_chunks.specs.Shown.{leaf_keys};
    ghost use Rattle.map_chunks.specs.Wide.{IsWideAt};

    /// The map whose root is placed there.
    pub fn at(root: Ref) -> Tree
        ensures map { (contents : Contents) → tree_map contents result ≡ map_at contents (stamp_of root) }
        ensures fresh { tree_fresh result ≡ 0 }
        ensures levels { (contents : Contents) → tree_levels result contents ≡ levels_at contents (stamp_of root) }
        ensures placed { tree_root result ≡ Some root }
        ensures places { tree_places result ≡ root ∷ [] }
        ensures wide { (contents : Contents) → IsWideAt contents (stamp_of root) → HasWideRoot contents result }
    {
        Tree {
            root: Root::Placed(root),
        }
    }

    /// An empty map.
    pub fn empty(alloc: Global) -> Tree
        ensures map { (contents : Contents) → tree_map contents result ≡ Some finite.empty }
        ensures depth { (contents : Contents) → tree_depth contents result ≡ Some 1 }
        ensures fresh { tree_fresh result ≡ 1 }
        ensures levels { (contents : Contents) → AreAsBefore (topped (None, leaf_keys []) nothing)
            (tree_levels result contents) }
        ensures places { tree_places result ≡ [] }
        ensures wide { (contents : Contents) → HasWideRoot contents result }
    {
        Tree {
            root: Root::Own(OwnRoot::empty(alloc)),
        }
    }

    /// The value at a key.
    pub fn get<C: Chunks>(&self, chunks: &mut C, key: &str) -> Result<Option<Json>, Stop>
        requires places { AreAll (C.places chunks.old) (tree_places self.now) }
        requires map { IsSome (tree_map (C.contents chunks.old) self.now) }
        ensures grown { Grows C.contents C.places chunks.old chunks.new }
        ensures value { (m : Entries) → tree_map (C.contents chunks.old) self.now ≡ Some m
            → IfOk result (λ v. v ≡ finite.get m key.now) }
        ensures stopped { IfErr result (λ s. (s ≡ NoMemory) ⊎ C.stops s) }
    {
        match &self.root {
            Root::Placed(at) => get_placed(chunks, *at, key),
            Root::Own(node) => node.get(chunks, key),
        }
    }

    /// Whether the key is there. Takes no memory.
    pub fn has<C: Chunks>(&self, chunks: &mut C, key: &str) -> Result<bool, Stop>
        requires places { AreAll (C.places chunks.old) (tree_places self.now) }
        requires map { IsSome (tree_map (C.contents chunks.old) self.now) }
        ensures grown { Grows C.contents C.places chunks.old chunks.new }
        ensures value { (m : Entries) → tree_map (C.contents chunks.old) self.now ≡ Some m
            → IfOk result (λ v. v ≡ finite.contains_key m key.now) }
        ensures stopped { IfErr result C.stops }
    {
        let sought = self.sought(chunks, key)?;
        Ok(sought.is_there)
    }

    // Whether the key is there, and how deep the tree is.
    fn sought<C: Chunks>(&self, chunks: &mut C, key: &str) -> Result<Sought, Stop>
        requires places { AreAll (C.places chunks.old) (tree_places self.now) }
        requires map { IsSome (tree_map (C.contents chunks.old) self.now) }
        ensures grown { Grows C.contents C.places chunks.old chunks.new }
        ensures is_there { (m : Entries) → tree_map (C.contents chunks.old) self.now ≡ Some m
            → IfOk result (λ s. s.is_there ≡ finite.contains_key m key.now) }
        ensures depth { IfOk result (λ s. tree_depth (C.contents chunks.old) self.now ≡ Some s.depth) }
        ensures stopped { IfErr result C.stops }
    {
        match &self.root {
            Root::Placed(at) => seek_placed(chunks, *at, key),
            Root::Own(node) => {
                let is_there = node.has(chunks, key)?;
                Ok(Sought {
                    is_there,
                    depth: node.depth(),
                })
            }
        }
    }

    /// How deep the tree is: 1 where its root is a leaf. Takes no memory.
    pub fn depth<C: Chunks>(&self, chunks: &mut C) -> Result<u64, Stop>
        requires places { AreAll (C.places chunks.old) (tree_places self.now) }
        requires map { IsSome (tree_map (C.contents chunks.old) self.now) }
        ensures grown { Grows C.contents C.places chunks.old chunks.new }
        ensures depth { IfOk result (λ d. tree_depth (C.contents chunks.old) self.now ≡ Some d) }
        ensures stopped { IfErr result C.stops }
    {
        match &self.root {
            Root::Placed(at) => depth_placed(chunks, *at),
            Root::Own(node) => Ok(node.depth()),
        }
    }
}
