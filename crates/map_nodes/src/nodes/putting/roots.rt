//! A put in a whole map: where its root is split, a new root stands above both halves.
ghost use Rattle.std.specs.Prelude.{◌≡◌, ◌⊎◌, ◌<◌, ◌≤◌, ◌+◌, ◌*◌, ◌^◌, ◌++◌, [], ◌∷◌, length, Some, None, IsSome};
ghost use Rattle.std.specs.Prelude.{Ok, Err, IfOk, IfErr, OnOk, OnErr, T, vec_items, vec_len, vec_capacity};
ghost use Rattle.std.specs.Ordering.{nat_cmp};
ghost use Rattle.std.specs.Cmp.Lexicographic.{slice_cmp};
ghost use Rattle.std.specs.FinMap as finite;
ghost use Rattle.group_history.specs.declared.mutators.Stop.TheVariants.{NoMemory};
ghost use Rattle.group_history.specs.declared.mutators.Update.{Update as Updates};
ghost use Rattle.group_history.specs.declared.mutators.Update.TheVariants.{Put as Puts};
ghost use Rattle.group_history.specs.Map.{Bytes};
ghost use Rattle.group_history.specs.Spelling.{Contents};
ghost use Rattle.map_chunks.specs.Places.{Grows, AreAll, places_of};
ghost use Rattle.map_chunks.specs.Shown.{own, child_keys, shown, IsTree, rows_or};
ghost use Rattle.map_nodes.specs.Nodes.{HeadIs, sunk};
ghost use Rattle.map_nodes.specs.Inside.Halves.{half_pieces, IsHalf, least, AreInOrder, HeadsBoth, IsTopped};
ghost use Rattle.map_nodes.specs.Inside.Puts.{shown_at};
ghost use Rattle.map_nodes.specs.Inside.Rising.{CanRise, IsAboveTaken};
ghost use Rattle.map_nodes.specs.Inside.Unput.{IsAnswer, IsUnput};
ghost use Rattle.map_nodes.specs.Changes.{CanMake, Makes};
ghost use Rattle.map_nodes.specs.Updating.{IsPutOn, IsPutOr};

use super::super::homes::{housed, take_home};
use super::super::{Body, OwnChild, OwnNode};
use super::{Half, Put, PutRefused};
use crate::changes::ValueChange;
use group_history::{Json, Ran, SearchKey, Stop, Text, Update};
use map_chunks::Chunks;
use map_chunks::entries::{MOST, SpareChunk, take_spare};
use map_chunks::keys::NodeKeys;
use std::alloc::{AllocError, Global};
use std::mem;

// The first key once this one is put, where the chunk may be split.
fn least_key(keys: &[Text], key: &Text) -> Result<Option<Text>, AllocError>
    ensures { IfOk result (λ first. 16 ≤ length keys.now → first ≡ Some (least key.now keys.now)) }
{
    if keys.len() < MOST {
        return Ok(None);
    }
    if keys[0].as_str().cmp(key.as_str()).is_gt() {
        return Ok(Some(key.clone()?));
    }
    Ok(Some(keys[0].clone()?))
}

// What a change answers that put nothing.
fn answered(refused: PutRefused) -> Result<Ran, Stop>
    ensures { IsAnswer refused result }
{
    match refused {
        PutRefused::Same => Ok(Ran::Done),
        PutRefused::Refused(code) => Ok(Ran::Refused(code)),
        PutRefused::Stopped(stop) => Err(stop),
    }
}

// What a root above a chunk and its upper half needs: its first key, room for itself, and room for the
// chunk as its child.
#[derive(Drop)]
struct Above {
    first: Option<Text>,
    spare: SpareChunk<OwnChild>,
    home: Option<Box<OwnNode>>,
}

// All of it, where the chunk with these keys may be split.
fn take_above(alloc: Global, keys: &[Text], key: &Text) -> Result<Above, AllocError>
    ensures { IfOk result (IsAboveTaken (length keys.now) (least key.now keys.now)) }
{
    let first = least_key(keys, key)?;
    let spare = take_spare(alloc, keys.len())?;
    let home = take_home(alloc, keys.len())?;
    Ok(Above { first, spare, home })
}

/// A map's root whose chunk was split, if it was: both halves stand below it.
#[inline(never)]
pub(crate) fn topped(
    alloc: Global,
    node: Box<OwnNode>,
    half: Option<Half>,
) -> Result<OwnNode, AllocError>
    requires depth { node.value.depth + 1 < 2 ^ 64 }
    requires half { IsHalf 1 node.value.depth half }
    requires filled { 0 < length node.value.pieces }
    requires order { (contents : Contents) × IsTree (shown contents (node.value.pieces ++ half_pieces half)) }
    ensures { IfOk result (IsTopped node.value half) }
{
    let Some(half) = half else {
        return Ok(Box::into_inner(node));
    };
    let first = node.keys.as_slice()[0].clone()?;
    let spare = take_spare(alloc, MOST)?;
    Ok(root_above(node, half, first, spare))
}

// A root above both halves, made in the room that was taken for it.
fn root_above(lower: Box<OwnNode>, half: Half, first: Text, room: SpareChunk<OwnChild>) -> OwnNode
    requires depth { lower.value.depth + 1 < 2 ^ 64 }
    requires head { HeadIs first lower.value.pieces }
    requires half { IsHalf 1 lower.value.depth (Some half) }
    requires order { AreInOrder first half.node.value.pieces }
    requires keys { (room.keys.items ≡ []) × (17 ≤ vec_capacity room.keys) }
    requires kids { (room.entries.items ≡ []) × (17 ≤ vec_capacity room.entries) }
    ensures pieces { result.pieces ≡ lower.value.pieces ++ half.node.value.pieces }
    ensures depth { result.depth ≡ lower.value.depth + 1 }
    ensures entries { result.entries ≡ 2 }
    ensures marks { (key : Bytes) × (result.marks
        ≡ own 0 (child_keys (key ∷ [])) ∷ sunk (lower.value.marks ++ half.node.value.marks)) }
{
    let depth = lower.depth() + 1;
    let Half { mut firsts, node } = half;
    let Some(second) = firsts.pop() else {
        return Box::into_inner(lower);
    };
    let SpareChunk {
        mut keys,
        entries: mut kids,
    } = room;
    let _ = keys.push(first);
    let _ = keys.push(second);
    let _ = kids.push(OwnChild::Own(lower));
    let _ = kids.push(OwnChild::Own(node));
    OwnNode {
        depth,
        keys: NodeKeys::own(keys),
        body: Body::Inner(kids),
    }
}

impl OwnNode {
    /// Puts what a change makes of the value at a key in the map whose root the chunk is. Where it is there already,
    /// and where the change refuses, the chunk is as it was. What a root above both halves of a full one needs is taken
    /// first.
    pub(crate) fn put_root<C: Chunks, F: FnOnce(Option<Json>) -> Result<Update, Stop>>(
        &mut self,
        alloc: Global,
        chunks: &mut C,
        key: &Text,
        change: ValueChange<F>,
    ) -> Result<Ran, Stop>
        requires places { AreAll (C.places chunks.old) (places_of self.old.pieces) }
        requires tree { IsTree (shown (C.contents chunks.old) self.old.pieces) }
        requires callable { CanMake (λ f. F.IsAlwaysCallable f) change }
        ensures grown { Grows C.contents C.places chunks.old chunks.new }
        ensures put { IfOk result (λ ran. (u : Updates) × Makes (λ f x r. F.post f x r) change (shown_at
            (shown (C.contents chunks.old) self.old.pieces) key.now) (Ok u) × IsPutOr (C.contents chunks.old)
            (C.contents chunks.new) (C.places chunks.new) key.now self.old self.new u ran) }
        ensures err { OnErr result (self.new ≡ self.old) }
        ensures stopped { IfErr result (λ s. (s ≡ NoMemory) ⊎ C.stops s ⊎ Makes (λ f x r. F.post f x r) change (shown_at
            (shown (C.contents chunks.old) self.old.pieces) key.now) (Err s)) }
    {
        // No memory holds a tree so deep.
        if self.depth == u64::MAX {
            return Err(Stop::NoMemory);
        }
        let searched = SearchKey::new(key.as_str());
        let put = Put {
            alloc,
            key,
            searched: &searched,
            copies: 1,
        };
        if self.keys.as_slice().len() < MOST {
            match self.put(chunks, put, change) {
                Ok(_) => return Ok(Ran::Done),
                Err(refused) => return answered(refused),
            }
        }
        match self.put_full(chunks, put, change) {
            Ok(()) => return Ok(Ran::Done),
            Err(refused) => return answered(refused),
        }
    }

    // The same where the root may be split.
    fn put_full<C: Chunks, F: FnOnce(Option<Json>) -> Result<Update, Stop>>(
        &mut self,
        chunks: &mut C,
        put: Put<'_>,
        change: ValueChange<F>,
    ) -> Result<(), PutRefused>
        requires places { AreAll (C.places chunks.old) (places_of self.old.pieces) }
        requires tree { IsTree (shown (C.contents chunks.old) self.old.pieces) }
        requires copies { put.copies ≡ 1 }
        requires depth { self.old.depth + 1 < 2 ^ 64 }
        requires callable { CanMake (λ f. F.IsAlwaysCallable f) change }
        ensures grown { Grows C.contents C.places chunks.old chunks.new }
        ensures put { OnOk result ((v : Bytes) × Makes (λ f x r. F.post f x r) change (shown_at
            (shown (C.contents chunks.old) self.old.pieces) put.entry.key.now) (Ok (Puts v))
            × IsPutOn (C.contents chunks.old) (C.contents chunks.new) (C.places chunks.new) put.entry.key.now v self.old
            self.new) }
        ensures err { OnErr result (self.new ≡ self.old) }
        ensures unput { IfErr result (IsUnput (λ made. Makes (λ f x r. F.post f x r) change
            (shown_at (shown (C.contents chunks.old) self.old.pieces) put.entry.key.now) made) C.stops
            (shown_at (shown (C.contents chunks.old) self.old.pieces) put.entry.key.now)) }
    {
        let above = take_above(put.alloc, self.keys.as_slice(), put.key)?;
        let half = self.put(chunks, put, change)?;
        self.risen(put.alloc, half, above);
        Ok(())
    }

    // Where the chunk was split, makes it a root above both halves.
    fn risen(&mut self, alloc: Global, half: Option<Half>, above: Above)
        requires { CanRise self.old above half }
        ensures { IsTopped self.old half self.new }
    {
        if let Some(half) = half {
            self.rise(alloc, half, above);
        }
    }

    // Makes the chunk a root above both halves, of which it was the lower one.
    fn rise(&mut self, alloc: Global, half: Half, above: Above)
        requires depth { self.old.depth + 1 < 2 ^ 64 }
        requires half { IsHalf 1 self.old.depth (Some half) }
        requires first { HeadsBoth above.first self.old.pieces half.node.value.pieces }
        requires keys { (above.spare.keys.items ≡ []) × (17 ≤ vec_capacity above.spare.keys) }
        requires kids { (above.spare.entries.items ≡ []) × (17 ≤ vec_capacity above.spare.entries) }
        requires home { IsSome above.home }
        ensures pieces { self.new.pieces ≡ self.old.pieces ++ half.node.value.pieces }
        ensures depth { self.new.depth ≡ self.old.depth + 1 }
        ensures entries { self.new.entries ≡ 2 }
        ensures marks { (key : Bytes) × (self.new.marks
            ≡ own 0 (child_keys (key ∷ [])) ∷ sunk (self.old.marks ++ half.node.value.marks)) }
    {
        let Above { first, spare, home } = above;
        let lower = housed(home, mem::replace(self, OwnNode::empty(alloc)));
        *self = root_above(lower, half, first.unwrap(), spare);
    }
}
