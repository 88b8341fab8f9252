//! A trail written down as nodes, children before parents.
ghost use Rattle.std.specs.Prelude.{◌≡◌, ◌+◌, ◌<◌, ◌≤◌, ◌⊎◌, ◌++◌, ◌∷◌, [], length, Some, IfOk, IfErr, OnOk, OnErr};
ghost use Rattle.std.specs.Arc.{arc_value};
ghost use mathlib.Core.List.{IsPrefix};
ghost use Rattle.group_history.specs.Refs.{stamps, stamp_of, slot_of};
ghost use Rattle.group_history.specs.Rows.{Rows, AreKeys, paired, values_of};
ghost use Rattle.group_history.specs.Spelling.{Contents, rows_at};
ghost use Rattle.group_history.specs.declared.nodes.Chunk.TheVariants as chunks;
ghost use Rattle.group_history.specs.declared.nodes.Node.TheVariants as nodes;
ghost use Rattle.group_history.specs.declared.refusals.Refusal.TheVariants as refusal;
ghost use Rattle.map_chunks.specs.Drafts.{AddsNeeded, AreBelow, IsLate};
ghost use Rattle.map_chunks.specs.Places.{with_nodes, places_of, AddsNamed};
ghost use Rattle.map_chunks.specs.Shown.{fresh, shown};
ghost use Rattle.map_chunks.specs.Wide.{IsWideAt};
ghost use Rattle.map_nodes.specs.Inside.Freezing.{IsWritten};
ghost use Rattle.map_nodes.specs.Levels.{placed_levels, seen_levels, NamedLater};
ghost use Rattle.map_nodes.specs.Trails.{step_names, steps_seen, AreSteps};

use super::{End, Step, Trail};
use group_history::{Chunk, Inner, Leaf, Node, Ref, Refusal};
use map_chunks::Draft;

// Appends the chunk of a step, where the one below it has this name.
#[inline(always)]
fn freeze_step(step: Step, below: Ref, draft: &mut Draft) -> Result<Ref, Refusal>
    requires keys { AreKeys (arc_value step.keys) }
    requires pairs { length step.children.items ≡ length (arc_value step.keys) }
    requires within { step.place < length step.children.items }
    requires children { AreBelow (draft.old.first + length draft.old.nodes)
        (values_of (paired (arc_value step.keys) (step_names step below))) }
    ensures stamp { IfOk result (λ at. (stamp_of at ≡ draft.old.first + length draft.old.nodes) × (slot_of at ≡ 0)) }
    ensures ok { OnOk result (draft.new ≡ record {
      first = draft.old.first;
      nodes = draft.old.nodes
          ++ nodes.Chunk (chunks.Inner (paired (arc_value step.keys) (step_names step below))) ∷ [];
    }) }
    ensures err { OnErr result (draft.new ≡ draft.old) }
    ensures why { IfErr result (λ e. (e ≡ refusal.NoMemory)
        ⊎ ((e ≡ refusal.Stamps) × (stamps ≤ draft.old.first + length draft.old.nodes))) }
    ensures late { IfErr result (λ e. e ≡ refusal.Stamps → IsLate draft.old.first) }
{
    let Step {
        keys,
        mut children,
        place,
    } = step;
    children[place] = below;
    let inner = Inner::new(keys, children);
    draft.push(Node::Chunk(Chunk::Inner(inner)))
}

// Appends a trail's chunks, the leaf first.
fn freeze_all(steps: Vec<Step>, end: End, draft: &mut Draft) -> Result<Ref, Refusal>
    requires trail { AreSteps steps.items end }
    requires below { AreBelow (draft.old.first + length draft.old.nodes)
        (places_of (steps_seen steps.items end).pieces) }
    ensures written { IfOk result (IsWritten draft.old.first draft.old.nodes draft.new.nodes
        (steps_seen steps.items end)) }
    ensures needed { IfOk result (λ at. AddsNeeded [] (at ∷ []) draft.old draft.new) }
    ensures bound { OnErr result (length draft.new.nodes
        < length draft.old.nodes + fresh (steps_seen steps.items end)) }
    ensures first { draft.new.first ≡ draft.old.first }
    ensures grown { IsPrefix draft.old.nodes draft.new.nodes }
    ensures why { IfErr result (λ e. (e ≡ refusal.NoMemory)
        ⊎ ((e ≡ refusal.Stamps) × (stamps ≤ draft.new.first + length draft.new.nodes))) }
    ensures late { IfErr result (λ e. e ≡ refusal.Stamps → IsLate draft.old.first) }
{
    let leaf = Leaf::new(end.keys, end.values);
    let mut at = draft.push(Node::Chunk(Chunk::Leaf(leaf)))?;
    for step in steps {
        at = freeze_step(step, at, draft)?;
    }
    Ok(at)
}

impl Trail {
    /// Appends the trail to the draft, each chunk behind the one below it, and answers its root's name. Placed
    /// children keep their names. A refusal leaves what was appended so far.
    pub fn freeze(self, draft: &mut Draft) -> Result<Ref, Refusal>
        requires below { AreBelow (draft.old.first + length draft.old.nodes) (places_of self.pieces) }
        ensures spelled { (contents : Contents) (rows : Rows) → length contents ≡ draft.old.first
            → shown (with_nodes contents draft.old.nodes) self.pieces ≡ Some rows
            → IfOk result (λ root. rows_at (with_nodes contents draft.new.nodes) self.depth
            (stamp_of root) ≡ Some rows) }
        ensures levels { (contents : Contents) → length contents ≡ draft.old.first
            → IfOk result (λ root. NamedLater draft.old.first (with_nodes contents draft.new.nodes) (seen_levels self)
            (λ p. placed_levels p self.depth (stamp_of root))) }
        ensures wide { (contents : Contents) → length contents ≡ draft.old.first → 1 < self.entries
            → IfOk result (λ root. IsWideAt (with_nodes contents draft.new.nodes) (stamp_of root)) }
        ensures named { OnOk result (AddsNamed draft.old.first
            (places_of self.pieces) draft.old.nodes draft.new.nodes) }
        ensures needed { IfOk result (λ at. AddsNeeded [] (at ∷ []) draft.old draft.new) }
        ensures drafted { IfOk result (λ at. (draft.old.first ≤ stamp_of at) × (slot_of at ≡ 0)) }
        ensures below { IfOk result (λ at. stamp_of at < draft.new.first + length draft.new.nodes) }
        ensures count { OnOk result (length draft.new.nodes ≡ length draft.old.nodes + fresh self) }
        ensures bound { OnErr result (length draft.new.nodes < length draft.old.nodes + fresh self) }
        ensures first { draft.new.first ≡ draft.old.first }
        ensures grown { IsPrefix draft.old.nodes draft.new.nodes }
        ensures why { IfErr result (λ e. (e ≡ refusal.NoMemory)
            ⊎ ((e ≡ refusal.Stamps) × (stamps ≤ draft.new.first + length draft.new.nodes))) }
        ensures late { IfErr result (λ e. e ≡ refusal.Stamps → IsLate draft.old.first) }
    {
        freeze_all(self.steps, self.end, draft)
    }
}
