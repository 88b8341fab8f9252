//! A map emptied.
ghost use Rattle.std.specs.Prelude.{◌≡◌, [], Some, None};
ghost use Rattle.std.specs.FinMap as finite;
ghost use Rattle.group_history.specs.Spelling.{Contents};
ghost use Rattle.map_tree.specs.Trees.{tree_map, tree_depth, tree_fresh, tree_places, tree_levels, HasWideRoot};
ghost use Rattle.map_chunks.specs.Shown.{leaf_keys};
ghost use Rattle.map_nodes.specs.Levels.{nothing, topped, AreAsBefore};

use super::Tree;
use std::alloc::Global;

impl Tree {
    /// Takes out all keys. Placed chunks are left alone.
    pub fn clear(&mut self, alloc: Global)
        ensures map { (contents : Contents) → tree_map contents self.new ≡ Some finite.empty }
        ensures depth { (contents : Contents) → tree_depth contents self.new ≡ Some 1 }
        ensures fresh { tree_fresh self.new ≡ 1 }
        ensures levels { (contents : Contents) → AreAsBefore (topped (None, leaf_keys []) nothing)
            (tree_levels self.new contents) }
        ensures places { tree_places self.new ≡ [] }
        ensures wide { (contents : Contents) → HasWideRoot contents self.new }
    {
        *self = Tree::empty(alloc);
    }
}
