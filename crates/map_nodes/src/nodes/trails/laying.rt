//! The one way down from a placed chunk to a key.
//!
//! Each chunk on the way is held while the way goes on below it. What the change makes of the value is known at the
//! leaf: only where that is another value, the chunks become new ones, on the way up. They are a trail where one is
//! asked for and no chunk is split, and own chunks otherwise. All chunks stay as they are until all new ones are made,
//! so memory may be refused on the way up, too.
ghost use Rattle.std.specs.Prelude.{◌≡◌, ◌⊎◌, ◌++◌, ◌∷◌, ◌+◌, ◌<◌, ◌^◌, [], ℕ, length, Ok, Err, Option, Some, None};
ghost use Rattle.std.specs.Prelude.{IfOk, IfErr, OnOk, vec_items, slice_get, slice_index_or, slice_set};
ghost use Rattle.std.specs.Ordering.{nat_cmp};
ghost use Rattle.std.specs.Cmp.Lexicographic.{slice_cmp};
ghost use Rattle.std.specs.Arc.{arc_value};
ghost use Rattle.std.specs.FinMap as finite;
ghost use Rattle.group_history.specs.Map.{Bytes};
ghost use Rattle.group_history.specs.Naming.{chunk_children, chunk_content};
ghost use Rattle.group_history.specs.Refs.{stamps, stamp_of};
ghost use Rattle.group_history.specs.Rows.{keys_of, values_of, AreKeys};
ghost use Rattle.group_history.specs.declared.mutators.Stop.TheVariants.{NoMemory};
ghost use Rattle.group_history.specs.declared.mutators.Update.{Update as Updates};
ghost use Rattle.group_history.specs.declared.mutators.Update.TheVariants.{Put as Puts};
ghost use Rattle.map_chunks.specs.Places.{Grows, AreAll};
ghost use Rattle.map_chunks.specs.Search.{IsAbsent, IsFound, IsPlace};
ghost use Rattle.map_chunks.specs.Seeking.{chunk_depth};
ghost use Rattle.map_chunks.specs.Shown.{chunk_rows, rows_or, IsTree};
ghost use Rattle.map_nodes.specs.Inside.Asking.{Asked, CanBeAsked};
ghost use Rattle.map_nodes.specs.Inside.Halves.{lowered, IsLower};
ghost use Rattle.map_nodes.specs.Inside.Laying.{IsPutEnd, IsCopiedStep, IsLeafEnd, IsChunkEnd, CanGrowOver, CanStep};
ghost use Rattle.map_nodes.specs.Inside.Laying.{IsGrownUp, IsStepped};
ghost use Rattle.map_nodes.specs.Trails.{leaf_seen, steps_seen, AreSteps, IsTrailEnd};
ghost use Rattle.map_nodes.specs.Inside.Nodes.{Kid};
ghost use Rattle.map_nodes.specs.declared.nodes.trails.End.{End as Ends};
ghost use Rattle.map_nodes.specs.declared.nodes.trails.Step.{Step as Steps};
ghost use Rattle.map_nodes.specs.declared.nodes.trails.laying.Reached.TheVariants.{Grown as Grew, Laid};

use super::super::OwnNode;
use super::super::copies::copied_values;
use super::super::growing::{Down, grown_over, grown_rows};
use super::super::homes::boxed;
use super::super::putting::{Half, value_found};
use super::{End, Step, Trail};
use crate::changes::ValueChange;
use group_history::{Chunk, Inner, Json, Keys, Leaf, Ref, STAMPS, Stop, Text, Update};
use map_chunks::keys::NodeKeys;
use map_chunks::search::{place_for, search_for};
use map_chunks::{Chunks, ShowsChunk};
use std::alloc::{AllocError, Global};
use std::marker::Model;
use std::mem::replace;
use std::sync::Arc;

/// What a way down ends in, and new chunks on the way up, where there are any: a leaf, and those above it, the lowest
/// first. They are written where they stay, since each level would move them once more.
#[derive(Drop)]
pub(crate) struct Laying {
    pub(crate) steps: Vec<Step>,
    pub(crate) end: Option<End>,
    pub(crate) reached: Reached,
}

impl Laying {
    /// No new chunks.
    pub(crate) fn new(alloc: Global) -> Laying {
        Laying {
            steps: Vec::new(alloc),
            end: None,
            reached: Reached::Same,
        }
    }

    // A new leaf, and room for so many steps above it.
    #[inline(always)]
    fn begin(&mut self, alloc: Global, above: usize, end: End) -> Result<(), AllocError>
        ensures { OnOk result ((self.new.steps.items ≡ []) × (self.new.end ≡ Some end) × (self.new.reached ≡ Laid)) }
    {
        self.steps = Vec::with_capacity(alloc, above)?;
        self.end = Some(end);
        self.reached = Reached::Laid;
        Ok(())
    }

    // An own chunk, and its upper half where it was split.
    #[inline(never)]
    fn grow(&mut self, alloc: Global, node: OwnNode, half: Option<Half>) -> Result<(), AllocError>
        ensures { OnOk result ((n : Kid) × (n.value ≡ node) × (self.new.reached ≡ Grew n half)) }
    {
        let upper = Upper::new(alloc, half)?;
        self.reached = Reached::Grown(boxed(alloc, node)?, upper);
        Ok(())
    }
}

impl End {
    // The rows of a leaf, with another value at a place.
    fn replaced(alloc: Global, leaf: &Leaf, place: usize, value: Json) -> Result<End, AllocError>
        requires within { place < length leaf.now }
        ensures { (key : Bytes) → IsFound key (keys_of leaf.now) place → IfOk result (IsPutEnd leaf.now key value) }
    {
        let keys = leaf.keys().clone()?;
        let mut values = copied_values(alloc, leaf.values(), 0)?;
        values[place] = value;
        Ok(End { keys, values })
    }

    // The same leaf as an own chunk.
    fn into_node(self) -> OwnNode
        requires { IsTrailEnd self }
        ensures { result ≡ leaf_seen self }
    {
        OwnNode::of_rows(NodeKeys::shared(self.keys), self.values)
    }
}

/// The upper half of a chunk that was split, if it was, in memory of its own: each level hands up what a way down ends
/// in, so that is small.
#[derive(Drop)]
pub(crate) struct Upper {
    inner: Option<Box<Half>>,
}

impl Model for Upper {
    ghost use Rattle.std.specs.Coded.{codes};
    ghost use Rattle.std.specs.Prelude.{Option, option_map};
    ghost use Rattle.map_nodes.specs.contracts.nodes.putting.Half as half;
    ghost use Rattle.map_nodes.specs.declared.nodes.putting.Half.{Half as Halves};

    ghost Value = { Option Halves };

    ghost coded = { Prim.hlevel (codes, half.the_row.coded) };

    ghost view = { λ upper. option_map (λ boxed. boxed.value) upper.inner };
}

impl Upper {
    fn new(alloc: Global, half: Option<Half>) -> Result<Upper, AllocError>
        ensures { IfOk result (λ upper. upper ≡ half) }
    {
        let Some(half) = half else {
            return Ok(Upper { inner: None });
        };
        let inner = Box::new(alloc, half)?;
        Ok(Upper { inner: Some(inner) })
    }

    /// The upper half, by value.
    pub(crate) fn into_half(self) -> Option<Half>
        ensures { result ≡ self }
    {
        match self.inner {
            Some(half) => Some(Box::into_inner(half)),
            None => None,
        }
    }
}

/// What a way down to a key ends in.
#[derive(Drop)]
pub(crate) enum Reached {
    /// The key has the value already.
    Same,
    /// The change refuses, with a code.
    Refused(u32),
    /// The value is put in a trail.
    Laid,
    /// The value is put in own chunks: the topmost one, and its upper half where that was split.
    Grown(Box<OwnNode>, Upper),
}

// What becomes of a leaf that has another value at a place.
fn put_found(
    leaf: &Leaf,
    place: usize,
    down: &Down<'_>,
    value: Json,
    laying: &mut Laying,
) -> Result<(), AllocError>
    requires within { place < length leaf.now }
    ensures { (key : Bytes) → IsFound key (keys_of leaf.now) place → OnOk result (IsLeafEnd down.now.copies
        down.now.as_trail leaf.now key (Puts value) laying.new.reached laying.new) }
{
    // Each value has its key, and these are in order.
    prove!(place < leaf.keys().as_slice().len());
    if leaf.values()[place] == value {
        drop(value);
        laying.reached = Reached::Same;
        return Ok(());
    }
    let end = End::replaced(down.alloc, leaf, place, value)?;
    if down.as_trail {
        return laying.begin(down.alloc, down.copies, end);
    }
    laying.grow(down.alloc, end.into_node(), None)
}

// What becomes of a leaf that has one row more, before the one at a place.
#[inline(never)]
fn put_absent(
    leaf: &Leaf,
    place: usize,
    down: &Down<'_>,
    value: Json,
    laying: &mut Laying,
) -> Result<(), AllocError>
    requires absent { IsAbsent down.now.key.now (keys_of leaf.now) place }
    ensures { OnOk result (IsLeafEnd down.now.copies down.now.as_trail leaf.now down.now.key.now (Puts value)
        laying.new.reached laying.new) }
{
    // The keys are in order.
    prove!(place <= leaf.keys().as_slice().len());
    let (keys, values, half) = grown_rows(leaf, place, down, value)?;
    if down.as_trail && half.is_none() {
        let keys = keys.into_keys(down.alloc)?;
        return laying.begin(down.alloc, down.copies, End { keys, values });
    }
    laying.grow(down.alloc, OwnNode::of_rows(keys, values), half)
}

// What becomes of a leaf in which a key was found at a place, or has its place before one.
fn put_in(
    leaf: &Leaf,
    found: Result<usize, usize>,
    down: &Down<'_>,
    update: Update,
    laying: &mut Laying,
) -> Result<(), AllocError>
    requires found { IfOk found (IsFound down.now.key.now (keys_of leaf.now)) }
    requires absent { IfErr found (IsAbsent down.now.key.now (keys_of leaf.now)) }
    ensures { OnOk result (IsLeafEnd down.now.copies down.now.as_trail leaf.now down.now.key.now update
        laying.new.reached laying.new) }
{
    let value = match update {
        Update::Put(value) => value,
        Update::Refuse(code) => {
            laying.reached = Reached::Refused(code);
            return Ok(());
        }
    };
    match found {
        Ok(place) => put_found(leaf, place, down, value, laying),
        Err(place) => put_absent(leaf, place, down, value, laying),
    }
}

// What the change makes of a leaf.
#[inline(never)]
fn change_leaf<F: FnOnce(Option<Json>) -> Result<Update, Stop>>(
    leaf: &Leaf,
    down: &Down<'_>,
    copies: usize,
    laying: &mut Laying,
    asked: &mut Option<ValueChange<F>>,
) -> Result<(), Stop>
    requires callable { CanBeAsked (λ f. F.IsAlwaysCallable f) asked.old }
    ensures reached { OnOk result ((u : Updates) × Asked (λ f x r. F.post f x r) asked.old (finite.find
        (slice_cmp nat_cmp) down.now.key.now leaf.now) (Ok u)
        × IsLeafEnd copies down.now.as_trail leaf.now down.now.key.now u laying.new.reached laying.new) }
    ensures stopped { IfErr result (λ e. (e ≡ NoMemory) ⊎ Asked (λ f x r. F.post f x r) asked.old (finite.find
        (slice_cmp nat_cmp) down.now.key.now leaf.now) (Err e)) }
{
    let found = search_for(leaf.keys().as_slice(), down.searched);
    let change = asked.take().unwrap();
    let update = change.of(value_found(leaf.values(), &found))?;
    Ok(put_in(leaf, found, &down.under(copies), update, laying)?)
}

// The first keys of an inner chunk, of which the first is the key where that is below it.
#[inline(always)]
fn step_keys(inner: &Inner<Ref>, place: usize, down: &Down<'_>) -> Result<Arc<Keys>, AllocError>
    requires place { IsPlace down.now.key.now (keys_of inner.now) place }
    ensures { IfOk result (λ keys. AreKeys (arc_value keys) × ((lower : Option Bytes)
        × IsLower down.now.key.now (slice_index_or (keys_of inner.now) place []) lower
        × (arc_value keys ≡ lowered place lower (keys_of inner.now)))) }
{
    let firsts = inner.firsts().clone()?;
    if place > 0 || !down.searched.is_below(&firsts.as_slice()[0]) {
        return Ok(firsts);
    }
    lowered_keys(firsts, down)
}

// First keys of which the first becomes the key.
#[inline(never)]
fn lowered_keys(firsts: Arc<Keys>, down: &Down<'_>) -> Result<Arc<Keys>, AllocError>
    requires filled { 0 < length (arc_value firsts) }
    requires keys { AreKeys (slice_set (arc_value firsts) 0 down.now.key.now) }
    ensures { IfOk result (λ keys. arc_value keys ≡ slice_set (arc_value firsts) 0 down.now.key.now) }
{
    let mut keys = NodeKeys::shared(firsts);
    keys.make_room(down.alloc)?;
    keys.set(0, Text::new(down.alloc, down.key)?);
    keys.into_keys(down.alloc)
}

// Adds an inner chunk copied, above the new chunk in the place of the child at a place.
#[inline(never)]
fn add_step(
    inner: &Inner<Ref>,
    place: usize,
    down: &Down<'_>,
    steps: &mut Vec<Step>,
) -> Result<(), AllocError>
    requires place { IsPlace down.now.key.now (keys_of inner.now) place }
    ensures { OnOk result ((s : Steps) × IsCopiedStep inner.now down.now.key.now s × (s.place ≡ place)
        × (steps.new.items ≡ steps.old.items ++ s ∷ [])) }
{
    let keys = step_keys(inner, place, down)?;
    let children = inner.children().to_vec(down.alloc)?;
    steps.push(Step {
        keys,
        children,
        place,
    })?;
    Ok(())
}

// The child at a place. Its stamp is one of a node.
fn child_at(inner: &Inner<Ref>, place: usize) -> Ref
    requires { place < length inner.now }
    ensures child { result ≡ slice_index_or (values_of inner.now) place result }
    ensures bound { stamp_of result < stamps }
{
    let child = inner.children()[place];
    prove!(child.stamp() < STAMPS);
    child
}

// An inner chunk above the own child that the way below it ends in.
#[inline(never)]
fn grown_up(
    inner: &Inner<Ref>,
    place: usize,
    down: &Down<'_>,
    copies: usize,
    laying: &mut Laying,
) -> Result<(), AllocError>
    requires place { IsPlace down.now.key.now (keys_of inner.now) place }
    requires grown { laying.old.reached ≡ Laid → ⊥ }
    requires fits { CanStep copies inner.now down.now.key.now place laying.old.reached }
    ensures { OnOk result (IsStepped copies inner.now down.now.key.now place laying.old.reached
        laying.new.reached laying.old laying.new) }
{
    match replace(&mut laying.reached, Reached::Same) {
        Reached::Grown(child, upper) => {
            let (node, half) = grown_over(
                inner,
                place,
                &down.under(copies),
                child,
                upper.into_half(),
            )?;
            let upper = Upper::new(down.alloc, half)?;
            laying.reached = Reached::Grown(node, upper);
        }
        below => laying.reached = below,
    }
    Ok(())
}

// What the way through an inner chunk ends in, where the way below the child at a place ended so.
#[inline(always)]
fn step_up(
    inner: &Inner<Ref>,
    place: usize,
    down: &Down<'_>,
    copies: usize,
    laying: &mut Laying,
) -> Result<(), AllocError>
    requires place { IsPlace down.now.key.now (keys_of inner.now) place }
    requires fits { CanStep copies inner.now down.now.key.now place laying.old.reached }
    ensures { OnOk result (IsStepped copies inner.now down.now.key.now place laying.old.reached laying.new.reached
        laying.old laying.new) }
{
    if let Reached::Laid = &laying.reached {
        return add_step(inner, place, down, &mut laying.steps);
    }
    grown_up(inner, place, down, copies, laying)
}

/// A placed chunk that is shown.
#[derive(Clone, Copy)]
struct ShownChunk<'a> {
    at: Ref,
    chunk: &'a Chunk<Ref>,
}

/// Goes down from a placed chunk to a key, lets the change see the value there (none where the key isn't there), and
/// makes new chunks of those on the way where it makes another value of it. Stops for want of memory, or as the store
/// or the change does.
#[cycle(change)]
pub(crate) fn change_at<C: Chunks, F: FnOnce(Option<Json>) -> Result<Update, Stop>>(
    chunks: &mut C,
    at: Ref,
    down: &Down<'_>,
    copies: usize,
    laying: &mut Laying,
    asked: &mut Option<ValueChange<F>>,
) -> Result<(), Stop>
    requires known { IsTree (chunk_rows (C.contents chunks.old) (stamp_of at)) }
    requires place { C.places chunks.old at }
    requires copies { (d : ℕ) → chunk_depth (C.contents chunks.old) (stamp_of at) ≡ Some d
        → copies + d < 2 ^ 64 }
    requires callable { CanBeAsked (λ f. F.IsAlwaysCallable f) asked.old }
    ensures grown { Grows C.contents C.places chunks.old chunks.new }
    ensures reached { OnOk result ((u : Updates) × Asked (λ f x r. F.post f x r) asked.old (finite.find
        (slice_cmp nat_cmp) down.now.key.now (rows_or (chunk_rows (C.contents chunks.old) (stamp_of at)))) (Ok u)
        × IsChunkEnd (C.contents chunks.new) (C.places chunks.new) copies down.now.as_trail (stamp_of at)
        (chunk_depth (C.contents chunks.old) (stamp_of at))
        (rows_or (chunk_rows (C.contents chunks.old) (stamp_of at))) down.now.key.now u laying.new.reached laying.new) }
    ensures stopped { IfErr result (λ e. (e ≡ NoMemory) ⊎ C.stops e
        ⊎ Asked (λ f x r. F.post f x r) asked.old (finite.find (slice_cmp nat_cmp) down.now.key.now
        (rows_or (chunk_rows (C.contents chunks.old) (stamp_of at)))) (Err e)) }
{
    let held = chunks.show(at)?;
    let here = ShownChunk {
        at,
        chunk: held.chunk(),
    };
    let reached = change_in(chunks, here, down, copies, laying, asked);
    chunks.leave(held);
    reached
}

// The same, where the chunk is shown.
#[cycle(change)]
fn change_in<C: Chunks, F: FnOnce(Option<Json>) -> Result<Update, Stop>>(
    chunks: &mut C,
    here: ShownChunk<'_>,
    down: &Down<'_>,
    copies: usize,
    laying: &mut Laying,
    asked: &mut Option<ValueChange<F>>,
) -> Result<(), Stop>
    requires known { IsTree (chunk_rows (C.contents chunks.old) (stamp_of here.at)) }
    requires content { slice_get (C.contents chunks.old) (stamp_of here.at) ≡ Some (chunk_content here.chunk.now) }
    requires children { AreAll (C.places chunks.old) (chunk_children here.chunk.now) }
    requires copies { (d : ℕ) → chunk_depth (C.contents chunks.old) (stamp_of here.at) ≡ Some d
        → copies + d < 2 ^ 64 }
    requires callable { CanBeAsked (λ f. F.IsAlwaysCallable f) asked.old }
    ensures grown { Grows C.contents C.places chunks.old chunks.new }
    ensures reached { OnOk result ((u : Updates) × Asked (λ f x r. F.post f x r) asked.old (finite.find
        (slice_cmp nat_cmp) down.now.key.now (rows_or (chunk_rows (C.contents chunks.old) (stamp_of here.entry.at))))
        (Ok u) × IsChunkEnd (C.contents chunks.new) (C.places chunks.new) copies down.now.as_trail
        (stamp_of here.entry.at)
        (chunk_depth (C.contents chunks.old) (stamp_of here.entry.at))
        (rows_or (chunk_rows (C.contents chunks.old) (stamp_of here.entry.at))) down.now.key.now u
        laying.new.reached laying.new) }
    ensures stopped { IfErr result (λ e. (e ≡ NoMemory) ⊎ C.stops e
        ⊎ Asked (λ f x r. F.post f x r) asked.old (finite.find (slice_cmp nat_cmp) down.now.key.now
        (rows_or (chunk_rows (C.contents chunks.old) (stamp_of here.entry.at)))) (Err e)) }
{
    match here.chunk {
        Chunk::Leaf(leaf) => change_leaf(leaf, down, copies, laying, asked),
        Chunk::Inner(inner) => {
            let place = place_for(inner.firsts().as_slice(), down.searched);
            let child = child_at(inner, place);
            change_at(chunks, child, down, copies + 1, laying, asked)?;
            Ok(step_up(inner, place, down, copies, laying)?)
        }
    }
}

impl Trail {
    /// The trail of new chunks.
    #[inline(always)]
    pub(crate) fn of(steps: Vec<Step>, end: Option<End>) -> Trail
        requires { (e : Ends) × (end ≡ Some e) × AreSteps steps.items e }
        ensures { (e : Ends) → end ≡ Some e → result ≡ steps_seen steps.items e }
    {
        Trail {
            steps,
            end: end.unwrap(),
        }
    }
}
