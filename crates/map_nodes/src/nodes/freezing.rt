//! A draft's chunks written down as nodes that can be placed, children before parents.
ghost use Rattle.std.specs.Prelude.{◌≡◌, ◌+◌, ◌<◌, ◌≤◌, ◌⊎◌, [], ◌∷◌, length, Some, IfOk, IfErr, OnOk, OnErr};
ghost use mathlib.Core.List.{IsPrefix};
ghost use Rattle.group_history.specs.Refs.{stamps, stamp_of, slot_of};
ghost use Rattle.group_history.specs.Rows.{Rows};
ghost use Rattle.group_history.specs.Spelling.{Contents, rows_at};
ghost use Rattle.group_history.specs.declared.refusals.Refusal.TheVariants as refusal;
ghost use Rattle.map_chunks.specs.Drafts.{AddsNeeded, AreBelow, IsLate};
ghost use Rattle.map_chunks.specs.Places.{with_nodes, places_of, IsNamed, AreNamed, AddsNamed};
ghost use Rattle.map_nodes.specs.Inside.Freezing.{IsFrozen, AreFrozen, IsLevel, AreLevel, child_places, kids_places};
ghost use Rattle.map_nodes.specs.Nodes.{child_fresh, kids_fresh};
ghost use Rattle.map_nodes.specs.Levels.{placed_levels, seen_levels, NamedLater};
ghost use Rattle.map_chunks.specs.Shown.{fresh, shown};
ghost use Rattle.map_chunks.specs.Wide.{IsWideAt};

use super::{Body, OwnChild, OwnNode};
use group_history::{Chunk, Inner, Leaf, Ref, Refusal};
use map_chunks::Draft;
use std::alloc::Global;

impl OwnNode {
    /// Appends the chunk to the draft, behind its own children, and answers its name. Placed children
    /// keep their names. A refusal leaves what was appended so far.
    #[cycle(freezing)]
    pub fn freeze(self, alloc: Global, draft: &mut Draft) -> Result<Ref, Refusal>
        requires below { AreBelow (draft.old.first + length draft.old.nodes) (places_of self.pieces) }
        ensures spelled { (contents : Contents) (rows : Rows) → length contents ≡ draft.old.first
            → shown (with_nodes contents draft.old.nodes) self.pieces ≡ Some rows
            → IfOk result (λ root. rows_at (with_nodes contents draft.new.nodes) self.depth
            (stamp_of root) ≡ Some rows) }
        ensures levels { (contents : Contents) → length contents ≡ draft.old.first
            → IfOk result (λ root. NamedLater draft.old.first (with_nodes contents draft.new.nodes) (seen_levels self)
            (λ p. placed_levels p self.depth (stamp_of root))) }
        ensures wide { (contents : Contents) → length contents ≡ draft.old.first → 1 < self.entries
            → IfOk result (λ root. IsWideAt (with_nodes contents draft.new.nodes) (stamp_of root)) }
        ensures named { OnOk result (AddsNamed draft.old.first
            (places_of self.pieces) draft.old.nodes draft.new.nodes) }
        ensures needed { IfOk result (λ at. AddsNeeded [] (at ∷ []) draft.old draft.new) }
        ensures drafted { IfOk result (λ at. (draft.old.first ≤ stamp_of at) × (slot_of at ≡ 0)) }
        ensures below { IfOk result (λ at. stamp_of at < draft.new.first + length draft.new.nodes) }
        ensures count { OnOk result (length draft.new.nodes ≡ length draft.old.nodes + fresh self) }
        ensures bound { OnErr result (length draft.new.nodes < length draft.old.nodes + fresh self) }
        ensures first { draft.new.first ≡ draft.old.first }
        ensures grown { IsPrefix draft.old.nodes draft.new.nodes }
        ensures why { IfErr result (λ e. (e ≡ refusal.NoMemory)
            ⊎ ((e ≡ refusal.Stamps) × (stamps ≤ draft.new.first + length draft.new.nodes))) }
        ensures late { IfErr result (λ e. e ≡ refusal.Stamps → IsLate draft.old.first) }
    {
        let OwnNode {
            depth: _,
            keys,
            body,
        } = self;
        let keys = keys.into_keys(alloc)?;
        match body {
            Body::Leaf(values) => {
                let leaf = Leaf::new(keys, values);
                return draft.push(group_history::Node::Chunk(Chunk::Leaf(leaf)));
            }
            Body::Inner(kids) => {
                let children = freeze_kids(alloc, kids, draft)?;
                let inner = Inner::new(keys, children);
                return draft.push(group_history::Node::Chunk(Chunk::Inner(inner)));
            }
        }
    }
}

#[cycle(freezing)]
fn freeze_kids(alloc: Global, kids: Vec<OwnChild>, draft: &mut Draft) -> Result<Vec<Ref>, Refusal>
    requires below { AreBelow (draft.old.first + length draft.old.nodes) (kids_places kids.items) }
    ensures frozen { IfOk result (λ ats. AreFrozen draft.old.first draft.old.nodes draft.new.nodes
        kids.items ats.items) }
    ensures levels { IfOk result (λ ats. AreLevel draft.old.first draft.new.nodes kids.items ats.items) }
    ensures named { OnOk result (AddsNamed draft.old.first (kids_places kids.items) draft.old.nodes draft.new.nodes) }
    ensures needed { IfOk result (λ ats. AddsNeeded [] ats.items draft.old draft.new) }
    ensures names { IfOk result (λ ats. AreNamed draft.old.first (kids_places kids.items) ats.items) }
    ensures below { IfOk result (λ ats. AreBelow (draft.new.first + length draft.new.nodes) ats.items) }
    ensures count { OnOk result (length draft.new.nodes ≡ length draft.old.nodes + kids_fresh kids.items) }
    ensures bound { OnErr result (length draft.new.nodes ≤ length draft.old.nodes + kids_fresh kids.items) }
    ensures first { draft.new.first ≡ draft.old.first }
    ensures grown { IsPrefix draft.old.nodes draft.new.nodes }
    ensures why { IfErr result (λ e. (e ≡ refusal.NoMemory)
        ⊎ ((e ≡ refusal.Stamps) × (stamps ≤ draft.new.first + length draft.new.nodes))) }
    ensures late { IfErr result (λ e. e ≡ refusal.Stamps → IsLate draft.old.first) }
{
    let mut children = Vec::with_capacity(alloc, kids.len())?;
    for kid in kids {
        let at = freeze_kid(alloc, kid, draft)?;
        children.push(at)?;
    }
    Ok(children)
}

#[cycle(freezing)]
fn freeze_kid(alloc: Global, kid: OwnChild, draft: &mut Draft) -> Result<Ref, Refusal>
    requires below { AreBelow (draft.old.first + length draft.old.nodes) (child_places kid) }
    ensures frozen { IfOk result (IsFrozen draft.old.first draft.old.nodes draft.new.nodes kid) }
    ensures levels { IfOk result (IsLevel draft.old.first draft.new.nodes kid) }
    ensures named { OnOk result (AddsNamed draft.old.first (child_places kid) draft.old.nodes draft.new.nodes) }
    ensures needed { IfOk result (λ at. AddsNeeded [] (at ∷ []) draft.old draft.new) }
    ensures name { IfOk result (IsNamed draft.old.first (child_places kid)) }
    ensures below { IfOk result (λ at. stamp_of at < draft.new.first + length draft.new.nodes) }
    ensures count { OnOk result (length draft.new.nodes ≡ length draft.old.nodes + child_fresh kid) }
    ensures bound { OnErr result (length draft.new.nodes ≤ length draft.old.nodes + child_fresh kid) }
    ensures first { draft.new.first ≡ draft.old.first }
    ensures grown { IsPrefix draft.old.nodes draft.new.nodes }
    ensures why { IfErr result (λ e. (e ≡ refusal.NoMemory)
        ⊎ ((e ≡ refusal.Stamps) × (stamps ≤ draft.new.first + length draft.new.nodes))) }
    ensures late { IfErr result (λ e. e ≡ refusal.Stamps → IsLate draft.old.first) }
{
    match kid {
        OwnChild::Placed(at) => {
            return Ok(at);
        }
        OwnChild::Own(node) => {
            return Box::into_inner(node).freeze(alloc, draft);
        }
    }
}
