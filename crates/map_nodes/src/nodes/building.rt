//! New chunks of a draft.
ghost use Rattle.std.specs.Prelude.{◌≡◌, [], ◌∷◌};
ghost use Rattle.map_chunks.specs.Shown.{own, leaf_keys};

use super::{Body, OwnNode};
use map_chunks::keys::NodeKeys;
use std::alloc::Global;

impl OwnNode {
    /// An empty leaf.
    pub fn empty(alloc: Global) -> OwnNode
        ensures depth { result.depth ≡ 1 }
        ensures pieces { result.pieces ≡ [] }
        ensures marks { result.marks ≡ own 0 (leaf_keys []) ∷ [] }
    {
        OwnNode {
            depth: 1,
            keys: NodeKeys::own(Vec::new(alloc)),
            body: Body::Leaf(Vec::new(alloc)),
        }
    }

    /// How deep the chunk is.
    pub fn depth(&self) -> u64
        ensures { result ≡ self.now.depth }
    {
        self.depth
    }
}
