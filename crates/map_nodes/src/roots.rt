//! The root of what a draft owns of a map.
//!
//! A first put makes a trail, where no chunk is split; other changes need an own chunk, and make one of a trail first.
ghost use Rattle.std.specs.Prelude.{◌≡◌, ◌==◌, ◌⊎◌, ◌+◌, ◌-◌, ◌^◌, ◌<◌, ◌≤◌, [], ◌∷◌, min, length, Ok, Err, Some};
ghost use Rattle.std.specs.Prelude.{None, true, IsSome, IfOk, IfErr, OnOk, OnErr};
ghost use Rattle.std.specs.Ordering.{nat_cmp};
ghost use Rattle.std.specs.Cmp.Lexicographic.{slice_cmp};
ghost use Rattle.std.specs.FinMap as finite;
ghost use mathlib.Core.List.{IsPrefix};
ghost use Rattle.group_history.specs.Refs.{stamps, stamp_of, slot_of};
ghost use Rattle.group_history.specs.Rows.{Rows};
ghost use Rattle.group_history.specs.Spelling.{Contents, rows_at};
ghost use Rattle.group_history.specs.declared.mutators.Ran.TheVariants.{Done};
ghost use Rattle.group_history.specs.declared.mutators.Stop.TheVariants.{NoMemory};
ghost use Rattle.group_history.specs.declared.mutators.Update.{Update as Updates};
ghost use Rattle.group_history.specs.declared.refusals.Refusal.TheVariants as refusal;
ghost use Rattle.map_chunks.specs.Drafts.{AddsNeeded, AreBelow, IsLate};
ghost use Rattle.map_chunks.specs.Places.{with_nodes, Grows, AreAll, AreKept, AddsNamed, places_of};
ghost use Rattle.map_chunks.specs.Seeking.{chunk_depth};
ghost use Rattle.map_chunks.specs.Shown.{chunk_rows, fresh, own, leaf_keys, shown, IsTree, rows_or};
ghost use Rattle.map_nodes.specs.Changes.{CanMake, Makes};
ghost use Rattle.map_nodes.specs.Inside.Laying.{IsChunkEnd};
ghost use Rattle.map_nodes.specs.Updating.{IsPutOr, IsUpdated};
ghost use Rattle.map_chunks.specs.Wide.{IsWideAt, IsWideChunk};
ghost use Rattle.map_nodes.specs.Removing.{root_left, without_key, root_rows, IsRootRemoved, IsWideRoot};
ghost use Rattle.map_nodes.specs.Levels.{placed_levels, seen_levels, CopiedLater, NamedLater};

mod reading;

use crate::changes::ValueChange;
use crate::nodes::{Down, Laying, OwnNode, Reached, Trail, change_at, topped};
use group_history::{Json, Ran, Ref, Refusal, STAMPS, SearchKey, Stop, Update};
use map_chunks::{Chunks, Draft};
use std::alloc::{AllocError, Global};
use std::marker::Model;

/// A chunk that a draft owns, with all that it owns below it. Contracts see it as they see an `OwnNode`.
pub struct OwnRoot {
    form: Form,
}

impl Drop for OwnRoot {
    fn drop(self) {
        let OwnRoot { form } = self;
        drop(form);
    }
}

#[derive(Drop)]
enum Form {
    Node(OwnNode),
    Trail(Trail),
}

impl Model for OwnRoot {
    ghost use Rattle.map_chunks.specs.Shown.{Seen};

    ghost Value = { Seen };

    ghost use Rattle.map_nodes.specs.Roots.{form_seen};

    ghost view = { λ r. form_seen r.form };
}

impl OwnRoot {
    fn new(node: OwnNode) -> OwnRoot
        ensures { result ≡ node }
    {
        OwnRoot {
            form: Form::Node(node),
        }
    }

    fn of_trail(trail: Trail) -> OwnRoot
        ensures { result ≡ trail }
    {
        OwnRoot {
            form: Form::Trail(trail),
        }
    }

    /// An empty leaf.
    pub fn empty(alloc: Global) -> OwnRoot
        ensures depth { result.depth ≡ 1 }
        ensures pieces { result.pieces ≡ [] }
        ensures marks { result.marks ≡ own 0 (leaf_keys []) ∷ [] }
    {
        OwnRoot::new(OwnNode::empty(alloc))
    }

    /// A copy of the placed chunk, which is so deep. Stops for want of memory, or as the store does.
    pub fn copied<C: Chunks>(
        alloc: Global,
        chunks: &mut C,
        at: Ref,
        depth: u64,
    ) -> Result<OwnRoot, Stop>
        requires place { C.places chunks.old at }
        requires known { IsSome (rows_at (C.contents chunks.old) depth (stamp_of at)) }
        ensures grown { Grows C.contents C.places chunks.old chunks.new }
        ensures depth { IfOk result (λ n. n.depth ≡ depth) }
        ensures rows { IfOk result (λ n. shown (C.contents chunks.new) n.pieces
            ≡ rows_at (C.contents chunks.old) depth (stamp_of at)) }
        ensures levels { IfOk result (λ n. CopiedLater (C.contents chunks.new)
            (λ p. placed_levels p depth (stamp_of at)) (seen_levels n)) }
        ensures places { IfOk result (λ n. AreKept (C.places chunks.new) [] (places_of n.pieces)) }
        ensures wide { IsWideAt (C.contents chunks.new) (stamp_of at) → IfOk result IsWideChunk }
        ensures stopped { IfErr result (λ s. (s ≡ NoMemory) ⊎ C.stops s) }
    {
        let node = OwnNode::copied(alloc, chunks, at, depth, 0)?;
        Ok(OwnRoot::new(node))
    }

    /// The map whose root is a placed chunk, with what a change makes of the value at a key (none where the key isn't
    /// there) put there: one way down. Stops for want of memory, or as the store or the change does.
    pub fn updated<C: Chunks, F: FnOnce(Option<Json>) -> Result<Update, Stop>>(
        alloc: Global,
        chunks: &mut C,
        at: Ref,
        key: &str,
        change: ValueChange<F>,
    ) -> Result<Updated, Stop>
        requires place { C.places chunks.old at }
        requires tree { IsTree (chunk_rows (C.contents chunks.old) (stamp_of at)) }
        requires callable { CanMake (λ f. F.IsAlwaysCallable f) change }
        ensures grown { Grows C.contents C.places chunks.old chunks.new }
        ensures updated { IfOk result (λ r. (u : Updates) × Makes (λ f x r. F.post f x r) change (finite.find
            (slice_cmp nat_cmp) key.now (rows_or (chunk_rows (C.contents chunks.old) (stamp_of at)))) (Ok u)
            × IsUpdated (C.contents chunks.old) (C.contents chunks.new) (C.places chunks.new) (stamp_of at) key.now u
            r) }
        ensures stopped { IfErr result (λ e. (e ≡ NoMemory) ⊎ C.stops e ⊎ Makes (λ f x r. F.post f x r) change
            (finite.find (slice_cmp nat_cmp) key.now (rows_or (chunk_rows (C.contents chunks.old) (stamp_of at))))
            (Err e)) }
    {
        prove!(at.stamp() < STAMPS);
        let searched = SearchKey::new(key);
        let down = Down {
            alloc,
            key,
            searched: &searched,
            copies: 1,
            as_trail: true,
        };
        let mut laying = Laying::new(alloc);
        let mut asked = Some(change);
        change_at(chunks, at, &down, down.copies, &mut laying, &mut asked)?;
        Ok(OwnRoot::settled(chunks, at, &down, laying)?)
    }

    // What a way down from a placed chunk to a key ended in, as a map.
    #[inline(always)]
    fn settled<C: Chunks>(
        chunks: &C,
        at: Ref,
        down: &Down<'_>,
        laying: Laying,
    ) -> Result<Updated, AllocError>
        requires tree { IsTree (chunk_rows (C.contents chunks.now) (stamp_of at)) }
        requires reached { (u : Updates) × IsChunkEnd (C.contents chunks.now) (C.places chunks.now) 1 true
            (stamp_of at) (chunk_depth (C.contents chunks.now) (stamp_of at))
            (rows_or (chunk_rows (C.contents chunks.now) (stamp_of at))) down.now.key.now u laying.reached laying }
        ensures { (u : Updates) → IsChunkEnd (C.contents chunks.now) (C.places chunks.now) 1 true (stamp_of at)
            (chunk_depth (C.contents chunks.now) (stamp_of at))
            (rows_or (chunk_rows (C.contents chunks.now) (stamp_of at))) down.now.key.now u laying.reached laying
            → IfOk result (IsUpdated (C.contents chunks.now) (C.contents chunks.now) (C.places chunks.now) (stamp_of at)
            down.now.key.now u) }
    {
        let Laying {
            steps,
            end,
            reached,
        } = laying;
        match reached {
            Reached::Same => Ok(Updated::kept(Ran::Done)),
            Reached::Refused(code) => Ok(Updated::kept(Ran::Refused(code))),
            Reached::Laid => Ok(Updated::made(OwnRoot::of_trail(Trail::of(steps, end)))),
            Reached::Grown(node, upper) => {
                prove!(at.stamp() < STAMPS);
                let root = topped(down.alloc, node, upper.into_half())?;
                Ok(Updated::made(OwnRoot::new(root)))
            }
        }
    }

    /// How deep the chunk is.
    pub fn depth(&self) -> u64
        ensures { result ≡ self.now.depth }
    {
        match &self.form {
            Form::Node(node) => node.depth(),
            Form::Trail(trail) => trail.depth(),
        }
    }

    /// How many own chunks there are, from this one down. No machine has so many that the count stops at
    /// the largest number.
    pub fn new_chunks(&self) -> u64
        ensures { result ≡ min (fresh self.now) (2 ^ 64 - 1) }
    {
        match &self.form {
            Form::Node(node) => node.new_chunks(),
            Form::Trail(trail) => trail.new_chunks(),
        }
    }

    /// Whether the chunk has no rows: then it is a leaf.
    pub fn is_empty(&self) -> bool
        ensures { (contents : Contents) (rows : Rows) → shown contents self.now.pieces ≡ Some rows
            → result ≡ (length rows == 0) }
    {
        match &self.form {
            Form::Node(node) => node.is_empty(),
            Form::Trail(trail) => trail.is_empty(),
        }
    }

    /// Puts what a change makes of the value at a key in the map whose root the chunk is. Where it is there already,
    /// and where the change refuses, the chunk is as it was. Stops for want of memory, or as the store or the change
    /// does, and the chunk is as it was then.
    pub fn write<C: Chunks, F: FnOnce(Option<Json>) -> Result<Update, Stop>>(
        &mut self,
        alloc: Global,
        chunks: &mut C,
        key: &str,
        change: ValueChange<F>,
    ) -> Result<Ran, Stop>
        requires places { AreAll (C.places chunks.old) (places_of self.old.pieces) }
        requires tree { IsTree (shown (C.contents chunks.old) self.old.pieces) }
        requires callable { CanMake (λ f. F.IsAlwaysCallable f) change }
        ensures grown { Grows C.contents C.places chunks.old chunks.new }
        ensures put { IfOk result (λ ran. (u : Updates) × Makes (λ f x r. F.post f x r) change (finite.find
            (slice_cmp nat_cmp) key.now (rows_or (shown (C.contents chunks.old) self.old.pieces))) (Ok u)
            × IsPutOr (C.contents chunks.old) (C.contents chunks.new) (C.places chunks.new) key.now self.old self.new u
            ran) }
        ensures err { OnErr result (self.new ≡ self.old) }
        ensures stopped { IfErr result (λ s. (s ≡ NoMemory) ⊎ C.stops s ⊎ Makes (λ f x r. F.post f x r) change
            (finite.find (slice_cmp nat_cmp) key.now (rows_or (shown (C.contents chunks.old) self.old.pieces)))
            (Err s)) }
    {
        match &mut self.form {
            Form::Node(node) => node.write(alloc, chunks, key, change),
            Form::Trail(trail) => {
                let (node, ran) = written_over(trail, alloc, chunks, key, change)?;
                self.form = Form::Node(node);
                Ok(ran)
            }
        }
    }

    /// Removes a key, if it is there, from the map whose root the chunk is. Answers a placed chunk where
    /// that is the root from now on. Stops for want of memory, or as the store does, and the chunk is as it
    /// was then.
    pub fn remove_root<C: Chunks>(
        &mut self,
        alloc: Global,
        chunks: &mut C,
        key: &str,
    ) -> Result<Option<Ref>, Stop>
        requires places { AreAll (C.places chunks.old) (places_of self.old.pieces) }
        requires tree { IsTree (shown (C.contents chunks.old) self.old.pieces) }
        ensures grown { Grows C.contents C.places chunks.old chunks.new }
        ensures done { IfOk result (λ root. root_rows (C.contents chunks.new) self.new root
            ≡ Some (without_key key.now (rows_or (shown (C.contents chunks.old) self.old.pieces)))) }
        ensures places { IfOk result (λ root. AreKept (C.places chunks.new) (places_of self.old.pieces)
            (root_left self.new root)) }
        ensures levels { IfOk result (IsRootRemoved (C.contents chunks.new) self.old.depth (seen_levels self.old)
            self.new) }
        ensures wide { IsWideChunk self.old → IfOk result (IsWideRoot (C.contents chunks.new) self.new) }
        ensures err { OnErr result (self.new ≡ self.old) }
        ensures stopped { IfErr result (λ s. (s ≡ NoMemory) ⊎ C.stops s) }
    {
        match &mut self.form {
            Form::Node(node) => node.remove_root(alloc, chunks, key),
            Form::Trail(trail) => {
                let mut node = trail.thawed(alloc)?;
                let end = node.remove_root(alloc, chunks, key)?;
                self.form = Form::Node(node);
                Ok(end)
            }
        }
    }

    // Appends the chunk to the draft, behind its own children, and answers its name. Placed children
    // keep their names. A refusal leaves what was appended so far.
    fn freeze(self, alloc: Global, draft: &mut Draft) -> Result<Ref, Refusal>
        requires below { AreBelow (draft.old.first + length draft.old.nodes) (places_of self.pieces) }
        ensures spelled { (contents : Contents) (rows : Rows) → length contents ≡ draft.old.first
            → shown (with_nodes contents draft.old.nodes) self.pieces ≡ Some rows
            → IfOk result (λ root. rows_at (with_nodes contents draft.new.nodes) self.depth
            (stamp_of root) ≡ Some rows) }
        ensures levels { (contents : Contents) → length contents ≡ draft.old.first
            → IfOk result (λ root. NamedLater draft.old.first (with_nodes contents draft.new.nodes) (seen_levels self)
            (λ p. placed_levels p self.depth (stamp_of root))) }
        ensures wide { (contents : Contents) → length contents ≡ draft.old.first → 1 < self.entries
            → IfOk result (λ root. IsWideAt (with_nodes contents draft.new.nodes) (stamp_of root)) }
        ensures named { OnOk result (AddsNamed draft.old.first
            (places_of self.pieces) draft.old.nodes draft.new.nodes) }
        ensures needed { IfOk result (λ at. AddsNeeded [] (at ∷ []) draft.old draft.new) }
        ensures drafted { IfOk result (λ at. (draft.old.first ≤ stamp_of at) × (slot_of at ≡ 0)) }
        ensures below { IfOk result (λ at. stamp_of at < draft.new.first + length draft.new.nodes) }
        ensures count { OnOk result (length draft.new.nodes ≡ length draft.old.nodes + fresh self) }
        ensures bound { OnErr result (length draft.new.nodes < length draft.old.nodes + fresh self) }
        ensures first { draft.new.first ≡ draft.old.first }
        ensures grown { IsPrefix draft.old.nodes draft.new.nodes }
        ensures why { IfErr result (λ e. (e ≡ refusal.NoMemory)
            ⊎ ((e ≡ refusal.Stamps) × (stamps ≤ draft.new.first + length draft.new.nodes))) }
        ensures late { IfErr result (λ e. e ≡ refusal.Stamps → IsLate draft.old.first) }
    {
        let OwnRoot { form } = self;
        match form {
            Form::Node(node) => node.freeze(alloc, draft),
            Form::Trail(trail) => trail.freeze(draft),
        }
    }
}

// An own chunk like a trail, in which what a change makes of the value at a key is put.
fn written_over<C: Chunks, F: FnOnce(Option<Json>) -> Result<Update, Stop>>(
    trail: &Trail,
    alloc: Global,
    chunks: &mut C,
    key: &str,
    change: ValueChange<F>,
) -> Result<(OwnNode, Ran), Stop>
    requires places { AreAll (C.places chunks.old) (places_of trail.now.pieces) }
    requires tree { IsTree (shown (C.contents chunks.old) trail.now.pieces) }
    requires callable { CanMake (λ f. F.IsAlwaysCallable f) change }
    ensures grown { Grows C.contents C.places chunks.old chunks.new }
    ensures put { IfOk result (λ r. (u : Updates) × Makes (λ f x r. F.post f x r) change (finite.find
        (slice_cmp nat_cmp) key.now (rows_or (shown (C.contents chunks.old) trail.now.pieces))) (Ok u)
        × IsPutOr (C.contents chunks.old) (C.contents chunks.new) (C.places chunks.new) key.now trail.now r.0 u r.1) }
    ensures stopped { IfErr result (λ s. (s ≡ NoMemory) ⊎ C.stops s ⊎ Makes (λ f x r. F.post f x r) change
        (finite.find (slice_cmp nat_cmp) key.now (rows_or (shown (C.contents chunks.old) trail.now.pieces)))
        (Err s)) }
{
    let mut node = trail.thawed(alloc)?;
    let ran = node.write(alloc, chunks, key, change)?;
    Ok((node, ran))
}

/// How an update of a map ended whose root is placed, and the map where it is another one.
#[derive(Drop)]
pub struct Updated {
    pub ran: Ran,
    pub root: Option<OwnRoot>,
}

impl Updated {
    fn kept(ran: Ran) -> Updated
        ensures { (result.ran ≡ ran) × (result.root ≡ None) }
    {
        Updated { ran, root: None }
    }

    fn made(root: OwnRoot) -> Updated
        ensures { (result.ran ≡ Done) × (result.root ≡ Some root) }
    {
        Updated {
            ran: Ran::Done,
            root: Some(root),
        }
    }
}

/// Appends the chunk and those that it owns to the draft, all or none, and answers its root's name.
/// Refused for want of memory, or with Stamps where the nodes would have stamps from `STAMPS` on.
pub fn frozen(alloc: Global, root: OwnRoot, draft: &mut Draft) -> Result<Ref, Refusal>
    requires below { AreBelow (draft.old.first + length draft.old.nodes) (places_of root.pieces) }
    ensures spelled { (contents : Contents) (rows : Rows) → length contents ≡ draft.old.first
        → shown (with_nodes contents draft.old.nodes) root.pieces ≡ Some rows
        → IfOk result (λ at. rows_at (with_nodes contents draft.new.nodes) root.depth (stamp_of at) ≡ Some rows) }
    ensures levels { (contents : Contents) → length contents ≡ draft.old.first
        → IfOk result (λ at. NamedLater draft.old.first (with_nodes contents draft.new.nodes) (seen_levels root)
        (λ p. placed_levels p root.depth (stamp_of at))) }
    ensures wide { (contents : Contents) → length contents ≡ draft.old.first → 1 < root.entries
        → IfOk result (λ at. IsWideAt (with_nodes contents draft.new.nodes) (stamp_of at)) }
    ensures named { OnOk result (AddsNamed draft.old.first (places_of root.pieces) draft.old.nodes draft.new.nodes) }
    ensures needed { IfOk result (λ at. AddsNeeded [] (at ∷ []) draft.old draft.new) }
    ensures drafted { IfOk result (λ at. (draft.old.first ≤ stamp_of at) × (slot_of at ≡ 0)) }
    ensures below { IfOk result (λ at. stamp_of at < draft.new.first + length draft.new.nodes) }
    ensures count { OnOk result (length draft.new.nodes ≡ length draft.old.nodes + fresh root) }
    ensures first { draft.new.first ≡ draft.old.first }
    ensures grown { IsPrefix draft.old.nodes draft.new.nodes }
    ensures err { OnErr result (draft.new ≡ draft.old) }
    ensures why { IfErr result (λ e. (e ≡ refusal.NoMemory)
        ⊎ ((e ≡ refusal.Stamps) × (stamps < draft.old.first + length draft.old.nodes + fresh root))) }
    ensures late { IfErr result (λ e. e ≡ refusal.Stamps → IsLate draft.old.first) }
{
    let len = draft.len();
    match root.freeze(alloc, draft) {
        Ok(at) => {
            return Ok(at);
        }
        Err(refused) => {
            draft.truncate(len);
            return Err(refused);
        }
    }
}
