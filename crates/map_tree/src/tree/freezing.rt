//! A map written down as nodes.
ghost use Rattle.std.specs.Prelude.{◌≡◌, ◌⊎◌, ◌+◌, ◌<◌, [], ◌∷◌, length, Some, Ok, IfOk, IfErr, OnOk, OnErr};
ghost use mathlib.Core.List.{IsPrefix};
ghost use Rattle.group_history.specs.Map.{Entries};
ghost use Rattle.group_history.specs.Refs.{stamps, stamp_of};
ghost use Rattle.group_history.specs.declared.refs.Ref.{Ref as Reference};
ghost use Rattle.group_history.specs.declared.refusals.Refusal.TheVariants as refusal;
ghost use Rattle.group_history.specs.Spelling.{Contents, map_at};
ghost use Rattle.map_chunks.specs.Drafts.{AddsNeeded, AreBelow, IsLate};
ghost use Rattle.map_chunks.specs.Places.{with_nodes, IsNamed, AddsNamed};
ghost use Rattle.map_tree.specs.Trees.{levels_at, tree_places, tree_map, tree_fresh, tree_levels, tree_root};
ghost use Rattle.map_tree.specs.Trees.{HasWideRoot};
ghost use Rattle.map_nodes.specs.Levels.{NamedLater};
ghost use Rattle.map_chunks.specs.Wide.{IsWideAt};

use super::{Root, Tree};
use group_history::{Ref, Refusal};
use map_chunks::Draft;
use map_nodes::frozen;
use std::alloc::Global;

impl Tree {
    /// Appends the chunks that aren't placed to the draft, all or none, and answers the root's name. A
    /// map whose root is placed adds nothing, keeps its name, and is never refused. What the tree names
    /// has stamps below the draft's next one, and so has the answer.
    pub fn freeze(self, alloc: Global, draft: &mut Draft) -> Result<Ref, Refusal>
        requires below { AreBelow (draft.old.first + length draft.old.nodes) (tree_places self) }
        ensures spelled { (contents : Contents) (m : Entries) → length contents ≡ draft.old.first
            → tree_map (with_nodes contents draft.old.nodes) self ≡ Some m
            → IfOk result (λ root. map_at (with_nodes contents draft.new.nodes) (stamp_of root) ≡ Some m) }
        ensures levels { (contents : Contents) (m : Entries) → length contents ≡ draft.old.first
            → tree_map (with_nodes contents draft.old.nodes) self ≡ Some m
            → IfOk result (λ root. NamedLater draft.old.first (with_nodes contents draft.new.nodes) (tree_levels self)
            (λ p. levels_at p (stamp_of root))) }
        ensures wide { (contents : Contents) (m : Entries) → length contents ≡ draft.old.first
            → tree_map (with_nodes contents draft.old.nodes) self ≡ Some m
            → HasWideRoot (with_nodes contents draft.old.nodes) self
            → IfOk result (λ root. IsWideAt (with_nodes contents draft.new.nodes) (stamp_of root)) }
        ensures shared { (at : Reference) → tree_root self ≡ Some at → (result ≡ Ok at) × (draft.new ≡ draft.old) }
        ensures named { OnOk result (AddsNamed draft.old.first (tree_places self) draft.old.nodes draft.new.nodes) }
        ensures needed { IfOk result (λ root. AddsNeeded [] (root ∷ []) draft.old draft.new) }
        ensures name { IfOk result (IsNamed draft.old.first (tree_places self)) }
        ensures below { IfOk result (λ root. stamp_of root < draft.new.first + length draft.new.nodes) }
        ensures count { OnOk result (length draft.new.nodes ≡ length draft.old.nodes + tree_fresh self) }
        ensures first { draft.new.first ≡ draft.old.first }
        ensures grown { IsPrefix draft.old.nodes draft.new.nodes }
        ensures err { OnErr result (draft.new ≡ draft.old) }
        ensures why { IfErr result (λ e. (e ≡ refusal.NoMemory)
            ⊎ ((e ≡ refusal.Stamps) × (stamps < draft.old.first + length draft.old.nodes + tree_fresh self))) }
        ensures late { IfErr result (λ e. e ≡ refusal.Stamps → IsLate draft.old.first) }
    {
        let Tree { root } = self;
        match root {
            Root::Placed(at) => {
                return Ok(at);
            }
            Root::Own(node) => {
                return frozen(alloc, node, draft);
            }
        }
    }
}
