//! How many chunks of a map aren't placed.
ghost use Rattle.std.specs.Prelude.{◌≡◌, ◌-◌, ◌^◌, min};
ghost use Rattle.map_tree.specs.Trees.{tree_fresh};

use super::{Root, Tree};

impl Tree {
    /// How many chunks of the map aren't placed: a freeze appends so many. No machine has so many that the
    /// count stops at the largest number.
    pub fn new_chunks(&self) -> u64
        ensures { result ≡ min (tree_fresh self.now) (2 ^ 64 - 1) }
    {
        match &self.root {
            Root::Placed(_) => 0,
            Root::Own(node) => node.new_chunks(),
        }
    }
}
