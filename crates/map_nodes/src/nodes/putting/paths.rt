//! A put on its way down.
ghost use Rattle.std.specs.Prelude.{◌≡◌, ◌⊎◌, ℕ, ◌<◌, ◌≤◌, ◌+◌, ◌*◌, ◌^◌, ◌++◌, [], false, true, length, slice_get};
ghost use Rattle.std.specs.Prelude.{slice_index_or, Ok, Err, Some, None, IsSome, IfOk, IfErr, OnOk, OnErr, vec_items};
ghost use Rattle.std.specs.Prelude.{vec_len, vec_capacity};
ghost use mathlib.Core.List.{IsPrefix};
ghost use Rattle.group_history.specs.Map.{Bytes};
ghost use Rattle.group_history.specs.Refs.{stamp_of};
ghost use Rattle.group_history.specs.Spelling.{Contents};
ghost use Rattle.group_history.specs.declared.mutators.Stop.TheVariants.{NoMemory};
ghost use Rattle.group_history.specs.declared.mutators.Update.{Update as Updates};
ghost use Rattle.group_history.specs.declared.mutators.Update.TheVariants.{Put as Puts};
ghost use Rattle.map_chunks.specs.Seeking.{chunk_depth};
ghost use Rattle.map_chunks.specs.Places.{Grows, AreAll, AreKept, places_of};
ghost use Rattle.map_nodes.specs.Inside.Freezing.{kids_places};
ghost use Rattle.map_chunks.specs.Search.{IsPlace};
ghost use Rattle.map_chunks.specs.Shown.{chunk_rows, shown, IsTree, rows_or};
ghost use Rattle.map_nodes.specs.Changes.{CanMake, Makes};
ghost use Rattle.map_nodes.specs.Nodes.{IsNode, body_levels, body_pieces};
ghost use Rattle.map_nodes.specs.Inside.Nodes.{child_rows};
ghost use Rattle.map_nodes.specs.Inside.Halves.{half_pieces, IsHalf, IsLower, HasDepth};
ghost use Rattle.map_nodes.specs.Inside.Laying.{IsBuilt, IsChunkEnd};
ghost use Rattle.map_nodes.specs.Inside.Ready.{IsReady};
ghost use Rattle.map_nodes.specs.Inside.Counts.{HasKept};
ghost use Rattle.map_nodes.specs.Inside.Puts.{half_levels, shown_at, ChildHalvesPut, HalvesPut, IsChildPut, IsOwnPut};
ghost use Rattle.map_nodes.specs.Inside.Unput.{IsUnputTold, IsUnput};
ghost use Rattle.map_nodes.specs.Levels.{seen_levels, ArePut};
ghost use Rattle.map_nodes.specs.declared.nodes.Body.TheVariants as body;
ghost use Rattle.map_nodes.specs.declared.nodes.OwnChild.{OwnChild as Childs};
ghost use Rattle.map_nodes.specs.declared.nodes.trails.laying.Laying.{Laying as Layings};
ghost use Rattle.map_nodes.specs.declared.nodes.trails.laying.Reached.TheVariants.{Laid as laid, Grown as Grew};

use super::super::{Body, Down, Laying, OwnChild, OwnNode, Reached, change_at};
use super::below::PutBuffers;
use super::leaves::put_leaf;
use super::middles::{ChildSplit, finish, lower_first};
use super::{Half, Put, PutRefused};
use crate::changes::ValueChange;
use group_history::{Json, Ref, Stop, Update};
use map_chunks::Chunks;
use map_chunks::entries::MOST;
use map_chunks::keys::NodeKeys;
use map_chunks::search::place_for;

/// A put in an inner chunk that is so deep.
#[derive(Clone, Copy)]
struct PutIn<'a> {
    put: Put<'a>,
    depth: u64,
}

/// A put below the child at a place, which is so deep.
#[derive(Clone, Copy)]
struct PutBelow<'a> {
    put: Put<'a>,
    place: usize,
    depth: u64,
}

// Puts a row below a chunk with these keys and children, and splits them where they are 17 then.
#[cycle(put)]
fn put_inner<C: Chunks, F: FnOnce(Option<Json>) -> Result<Update, Stop>>(
    keys: &mut NodeKeys,
    kids: &mut Vec<OwnChild>,
    chunks: &mut C,
    here: PutIn<'_>,
    change: ValueChange<F>,
) -> Result<Option<Half>, PutRefused>
    requires places { AreAll (C.places chunks.old)
        (places_of (body_pieces here.depth keys.old.texts (body.Inner kids.old))) }
    requires node { IsNode here.depth keys.old.texts (body.Inner kids.old) }
    requires tree { IsTree (shown (C.contents chunks.old)
        (body_pieces here.depth keys.old.texts (body.Inner kids.old))) }
    requires copies { here.put.copies + here.depth < 2 ^ 64 }
    requires callable { CanMake (λ f. F.IsAlwaysCallable f) change }
    ensures grown { Grows C.contents C.places chunks.old chunks.new }
    ensures node { IsNode here.entry.depth keys.new.texts (body.Inner kids.new) }
    ensures put { IfOk result (λ half. (v : Bytes) × Makes (λ f x r. F.post f x r) change (shown_at
        (shown (C.contents chunks.old) (body_pieces here.entry.depth keys.old.texts (body.Inner kids.old)))
        here.entry.put.key.now)
        (Ok (Puts v)) × IsOwnPut (C.contents chunks.new) here.entry.put.key.now v
        (shown (C.contents chunks.old) (body_pieces here.entry.depth keys.old.texts (body.Inner kids.old)))
        (body_pieces here.entry.depth keys.old.texts (body.Inner kids.old))
        (body_pieces here.entry.depth keys.new.texts (body.Inner kids.new))
        here.entry.depth (body_levels here.entry.depth keys.old.texts (body.Inner kids.old))
        (body_levels here.entry.depth keys.new.texts (body.Inner kids.new)) half) }
    ensures half { IfOk result (IsHalf here.entry.put.copies here.entry.depth) }
    ensures places { IfOk result (λ half. AreKept (C.places chunks.new)
        (places_of (body_pieces here.entry.depth keys.old.texts (body.Inner kids.old)))
        (places_of (body_pieces here.entry.depth keys.new.texts (body.Inner kids.new) ++ half_pieces half))) }
    ensures entries { IfOk result (HasKept (length keys.old.texts) (length keys.new.texts)) }
    ensures levels { IfOk result (λ half. (later : Contents) → IsPrefix (C.contents chunks.new) later
        → ArePut here.entry.depth (body_levels here.entry.depth keys.old.texts (body.Inner kids.old) later)
        (λ level. body_levels here.entry.depth keys.new.texts (body.Inner kids.new) later level
        ++ half_levels half later level)) }
    ensures filled { OnOk result (0 < length (body_pieces here.entry.depth keys.new.texts (body.Inner kids.new))) }
    ensures err { OnErr result ((keys.new.texts ≡ keys.old.texts) × (kids.new.items ≡ kids.old.items)) }
    ensures unput { IfErr result (IsUnput (λ made. Makes (λ f x r. F.post f x r) change (shown_at
        (shown (C.contents chunks.old) (body_pieces here.entry.depth keys.old.texts (body.Inner kids.old)))
        here.entry.put.key.now) made)
        C.stops (shown_at (shown (C.contents chunks.old)
        (body_pieces here.entry.depth keys.old.texts (body.Inner kids.old))) here.entry.put.key.now)) }
{
    let PutIn { put, depth } = here;
    let place = place_for(keys.as_slice(), put.searched);
    kids.reserve(1)?;
    let below = PutBelow {
        put,
        place,
        depth: depth - 1,
    };
    let (ready, half) = put_child(keys, kids, chunks, below, change)?;
    lower_first(keys, place, ready.lower);
    let split = ChildSplit {
        place,
        room: ready.room,
        half,
    };
    Ok(finish(keys, kids, depth, split))
}

#[cycle(put)]
fn put_child<C: Chunks, F: FnOnce(Option<Json>) -> Result<Update, Stop>>(
    keys: &mut NodeKeys,
    kids: &mut Vec<OwnChild>,
    chunks: &mut C,
    here: PutBelow<'_>,
    change: ValueChange<F>,
) -> Result<(PutBuffers, Option<Half>), PutRefused>
    requires places { AreAll (C.places chunks.old) (kids_places kids.old.items) }
    requires within { here.place < length kids.old.items }
    requires place { IsPlace here.put.key.now keys.old.texts here.place }
    requires copies { here.put.copies + 1 + here.depth < 2 ^ 64 }
    requires tree { (c : Childs) → slice_get kids.old.items here.place ≡ Some c
        → IsTree (child_rows (C.contents chunks.old) here.depth c) × HasDepth here.depth c }
    requires callable { CanMake (λ f. F.IsAlwaysCallable f) change }
    ensures grown { Grows C.contents C.places chunks.old chunks.new }
    ensures put { (c : Childs) → slice_get kids.old.items here.entry.place ≡ Some c
        → IfOk result (λ r. (v : Bytes) × Makes (λ f x r. F.post f x r) change
        (shown_at (child_rows (C.contents chunks.old) here.entry.depth c) here.entry.put.key.now) (Ok (Puts v))
        × IsChildPut (C.contents chunks.new) (here.entry.put.copies + 1) here.entry.depth here.entry.place
        (slice_index_or keys.old.texts here.entry.place []) here.entry.put.key.now v
        (child_rows (C.contents chunks.old) here.entry.depth c)
        kids.old.items kids.new.items c r.1) }
    ensures levels { (c : Childs) → slice_get kids.old.items here.entry.place ≡ Some c
        → IfOk result (λ r. ChildHalvesPut (C.contents chunks.new) here.entry.depth here.entry.place
        kids.old.items kids.new.items c r.1) }
    ensures places { IfOk result (λ r. AreKept (C.places chunks.new) (kids_places kids.old.items)
        (kids_places kids.new.items ++ places_of (half_pieces r.1))) }
    ensures kept { vec_capacity kids.new ≡ vec_capacity kids.old }
    ensures texts { keys.new.texts ≡ keys.old.texts }
    ensures lowers { IfOk result (λ r. IsSome r.0.lower → 0 < keys.new.room) }
    ensures lower { IfOk result (λ r. IsLower here.entry.put.key.now
        (slice_index_or keys.old.texts here.entry.place []) r.0.lower) }
    ensures ready { IfOk result (λ r. IsSome r.1
        → IsReady here.entry.put.copies keys.old.texts keys.new.room here.entry.place here.entry.put.key.now
        r.0.room) }
    ensures err { OnErr result (kids.new.items ≡ kids.old.items) }
    ensures unput { (c : Childs) → slice_get kids.old.items here.entry.place ≡ Some c
        → IfErr result (IsUnput (λ made. Makes (λ f x r. F.post f x r) change
        (shown_at (child_rows (C.contents chunks.old) here.entry.depth c) here.entry.put.key.now) made) C.stops
        (shown_at (child_rows (C.contents chunks.old) here.entry.depth c) here.entry.put.key.now)) }
{
    let PutBelow {
        put,
        place,
        depth: _,
    } = here;
    match &mut kids[place] {
        OwnChild::Own(node) => return node.put_below(keys, place, chunks, put, change),
        OwnChild::Placed(at) => {
            let (ready, node, half) = put_placed(keys, *at, chunks, here, change)?;
            kids[place] = OwnChild::Own(node);
            return Ok((ready, half));
        }
    }
}

// Puts a row below a placed child of a chunk with these keys: own chunks are made on the way up.
fn put_placed<C: Chunks, F: FnOnce(Option<Json>) -> Result<Update, Stop>>(
    keys: &mut NodeKeys,
    at: Ref,
    chunks: &mut C,
    here: PutBelow<'_>,
    change: ValueChange<F>,
) -> Result<(PutBuffers, Box<OwnNode>, Option<Half>), PutRefused>
    requires may { C.places chunks.old at }
    requires tree { IsTree (chunk_rows (C.contents chunks.old) (stamp_of at)) }
    requires place { IsPlace here.put.key.now keys.old.texts here.place }
    requires copies { (d : ℕ) → chunk_depth (C.contents chunks.old) (stamp_of at) ≡ Some d
        → here.put.copies + 1 + d < 2 ^ 64 }
    requires callable { CanMake (λ f. F.IsAlwaysCallable f) change }
    ensures grown { Grows C.contents C.places chunks.old chunks.new }
    ensures put { (d : ℕ) → chunk_depth (C.contents chunks.old) (stamp_of at) ≡ Some d
        → IfOk result (λ r. (v : Bytes) × Makes (λ f x r. F.post f x r) change
        (shown_at (chunk_rows (C.contents chunks.old) (stamp_of at)) here.entry.put.key.now) (Ok (Puts v))
        × (shown_at (chunk_rows (C.contents chunks.old) (stamp_of at)) here.entry.put.key.now ≡ Some v → ⊥)
        × IsBuilt (C.contents chunks.new) (C.places chunks.new) (here.entry.put.copies + 1) (stamp_of at) d
        (rows_or (chunk_rows (C.contents chunks.old) (stamp_of at))) here.entry.put.key.now v r.1.value r.2) }
    ensures texts { keys.new.texts ≡ keys.old.texts }
    ensures lowers { IfOk result (λ r. IsSome r.0.lower → 0 < keys.new.room) }
    ensures lower { IfOk result (λ r. IsLower here.entry.put.key.now
        (slice_index_or keys.old.texts here.entry.place []) r.0.lower) }
    ensures ready { IfOk result (λ r. IsSome r.2
        → IsReady here.entry.put.copies keys.old.texts keys.new.room here.entry.place here.entry.put.key.now
        r.0.room) }
    ensures unput { IfErr result (IsUnput (λ made. Makes (λ f x r. F.post f x r) change
        (shown_at (chunk_rows (C.contents chunks.old) (stamp_of at)) here.entry.put.key.now) made) C.stops
        (shown_at (chunk_rows (C.contents chunks.old) (stamp_of at)) here.entry.put.key.now)) }
{
    let PutBelow {
        put,
        place,
        depth: _,
    } = here;
    let reached = change_placed(at, chunks, put, change)?;
    taken_up(keys, place, put, reached)
}

// The way down from a placed child, on which own chunks are made.
fn change_placed<C: Chunks, F: FnOnce(Option<Json>) -> Result<Update, Stop>>(
    at: Ref,
    chunks: &mut C,
    put: Put<'_>,
    change: ValueChange<F>,
) -> Result<Reached, Stop>
    requires may { C.places chunks.old at }
    requires tree { IsTree (chunk_rows (C.contents chunks.old) (stamp_of at)) }
    requires copies { (d : ℕ) → chunk_depth (C.contents chunks.old) (stamp_of at) ≡ Some d
        → put.copies + 1 + d < 2 ^ 64 }
    requires callable { CanMake (λ f. F.IsAlwaysCallable f) change }
    ensures grown { Grows C.contents C.places chunks.old chunks.new }
    ensures reached { IfOk result (λ r. (u : Updates) × Makes (λ f x r. F.post f x r) change (shown_at
        (chunk_rows (C.contents chunks.old) (stamp_of at)) put.entry.key.now) (Ok u) × ((l : Layings) × IsChunkEnd
        (C.contents chunks.new) (C.places chunks.new) (put.entry.copies + 1) false (stamp_of at)
        (chunk_depth (C.contents chunks.old) (stamp_of at))
        (rows_or (chunk_rows (C.contents chunks.old) (stamp_of at))) put.entry.key.now u r l)) }
    ensures stopped { IfErr result (λ e. (e ≡ NoMemory) ⊎ C.stops e ⊎ Makes (λ f x r. F.post f x r) change (shown_at
        (chunk_rows (C.contents chunks.old) (stamp_of at)) put.entry.key.now) (Err e)) }
{
    let down = Down {
        alloc: put.alloc,
        key: put.key.as_str(),
        searched: put.searched,
        copies: put.copies + 1,
        as_trail: false,
    };
    let mut laying = Laying::new(put.alloc);
    let mut asked = Some(change);
    change_at(chunks, at, &down, down.copies, &mut laying, &mut asked)?;
    let Laying {
        steps: _,
        end: _,
        reached,
    } = laying;
    Ok(reached)
}

// The own chunks that were made of a placed child, and what the chunk above needs for them.
fn taken_up(
    keys: &mut NodeKeys,
    place: usize,
    put: Put<'_>,
    reached: Reached,
) -> Result<(PutBuffers, Box<OwnNode>, Option<Half>), PutRefused>
    requires place { IsPlace put.key.now keys.old.texts place }
    requires own { reached ≡ laid → ⊥ }
    ensures node { IfOk result (λ r. reached ≡ Grew r.1 r.2) }
    ensures texts { keys.new.texts ≡ keys.old.texts }
    ensures lowers { IfOk result (λ r. IsSome r.0.lower → 0 < keys.new.room) }
    ensures lower { IfOk result (λ r. IsLower put.entry.key.now (slice_index_or keys.old.texts place []) r.0.lower) }
    ensures ready { IfOk result (λ r. IsSome r.2
        → IsReady put.entry.copies keys.old.texts keys.new.room place put.entry.key.now r.0.room) }
    ensures told { IfErr result (IsUnputTold reached) }
{
    match reached {
        Reached::Grown(node, upper) => {
            let half = upper.into_half();
            let ready = PutBuffers::of_child(keys, put, place, half.is_some())?;
            Ok((ready, node, half))
        }
        Reached::Same => Err(PutRefused::Same),
        Reached::Refused(code) => Err(PutRefused::Refused(code)),
        Reached::Laid => unreachable!(),
    }
}

impl OwnNode {
    // Puts a row in a child of a chunk with these keys. Where the child is full, what an upper half of it needs is
    // taken first.
    #[cycle(put)]
    fn put_below<C: Chunks, F: FnOnce(Option<Json>) -> Result<Update, Stop>>(
        &mut self,
        keys: &mut NodeKeys,
        place: usize,
        chunks: &mut C,
        put: Put<'_>,
        change: ValueChange<F>,
    ) -> Result<(PutBuffers, Option<Half>), PutRefused>
        requires places { AreAll (C.places chunks.old) (places_of self.old.pieces) }
        requires tree { IsTree (shown (C.contents chunks.old) self.old.pieces) }
        requires place { IsPlace put.key.now keys.old.texts place }
        requires copies { put.copies + 1 + self.old.depth < 2 ^ 64 }
        requires callable { CanMake (λ f. F.IsAlwaysCallable f) change }
        ensures grown { Grows C.contents C.places chunks.old chunks.new }
        ensures depth { self.new.depth ≡ self.old.depth }
        ensures put { IfOk result (λ r. (v : Bytes) × Makes (λ f x r. F.post f x r) change (shown_at
            (shown (C.contents chunks.old) self.old.pieces) put.entry.key.now) (Ok (Puts v))
            × IsOwnPut (C.contents chunks.new) put.entry.key.now v (shown (C.contents chunks.old) self.old.pieces)
            self.old.pieces self.new.pieces self.old.depth (seen_levels self.old)
            (seen_levels self.new) r.1) }
        ensures half { IfOk result (λ r. IsHalf (put.entry.copies + 1) self.old.depth r.1) }
        ensures places { IfOk result (λ r. AreKept (C.places chunks.new) (places_of self.old.pieces)
            (places_of (self.new.pieces ++ half_pieces r.1))) }
        ensures levels { IfOk result (λ r. HalvesPut (C.contents chunks.new) self.old self.new r.1) }
        ensures filled { OnOk result (0 < length self.new.pieces) }
        ensures texts { keys.new.texts ≡ keys.old.texts }
        ensures lowers { IfOk result (λ r. IsSome r.0.lower → 0 < keys.new.room) }
        ensures lower { IfOk result (λ r. IsLower put.entry.key.now (slice_index_or keys.old.texts place [])
            r.0.lower) }
        ensures ready { IfOk result (λ r. IsSome r.1
            → IsReady put.entry.copies keys.old.texts keys.new.room place put.entry.key.now r.0.room) }
        ensures err { OnErr result (self.new ≡ self.old) }
        ensures unput { IfErr result (IsUnput (λ made. Makes (λ f x r. F.post f x r) change
            (shown_at (shown (C.contents chunks.old) self.old.pieces) put.entry.key.now) made) C.stops
            (shown_at (shown (C.contents chunks.old) self.old.pieces) put.entry.key.now)) }
    {
        let may_split = self.keys.as_slice().len() >= MOST;
        let ready = PutBuffers::of_child(keys, put, place, may_split)?;
        let deeper = Put {
            alloc: put.alloc,
            key: put.key,
            searched: put.searched,
            copies: put.copies + 1,
        };
        let half = self.put(chunks, deeper, change)?;
        Ok((ready, half))
    }

    /// Puts a row. Answers the upper half where the chunk is split, with so many copies of its first key.
    /// Where it has the row, it is as it was.
    #[cycle(put)]
    pub(crate) fn put<C: Chunks, F: FnOnce(Option<Json>) -> Result<Update, Stop>>(
        &mut self,
        chunks: &mut C,
        put: Put<'_>,
        change: ValueChange<F>,
    ) -> Result<Option<Half>, PutRefused>
        requires places { AreAll (C.places chunks.old) (places_of self.old.pieces) }
        requires tree { IsTree (shown (C.contents chunks.old) self.old.pieces) }
        requires copies { put.copies + self.old.depth < 2 ^ 64 }
        requires callable { CanMake (λ f. F.IsAlwaysCallable f) change }
        ensures grown { Grows C.contents C.places chunks.old chunks.new }
        ensures depth { self.new.depth ≡ self.old.depth }
        ensures put { IfOk result (λ half. (v : Bytes) × Makes (λ f x r. F.post f x r) change (shown_at
            (shown (C.contents chunks.old) self.old.pieces) put.entry.key.now) (Ok (Puts v))
            × IsOwnPut (C.contents chunks.new) put.entry.key.now v (shown (C.contents chunks.old) self.old.pieces)
            self.old.pieces self.new.pieces self.old.depth (seen_levels self.old)
            (seen_levels self.new) half) }
        ensures half { IfOk result (IsHalf put.entry.copies self.old.depth) }
        ensures places { IfOk result (λ half. AreKept (C.places chunks.new) (places_of self.old.pieces)
            (places_of (self.new.pieces ++ half_pieces half))) }
        ensures entries { IfOk result (HasKept self.old.entries self.new.entries) }
        ensures levels { IfOk result (HalvesPut (C.contents chunks.new) self.old self.new) }
        ensures filled { OnOk result (0 < length self.new.pieces) }
        ensures err { OnErr result (self.new ≡ self.old) }
        ensures unput { IfErr result (IsUnput (λ made. Makes (λ f x r. F.post f x r) change
            (shown_at (shown (C.contents chunks.old) self.old.pieces) put.entry.key.now) made) C.stops
            (shown_at (shown (C.contents chunks.old) self.old.pieces) put.entry.key.now)) }
    {
        match &mut self.body {
            Body::Leaf(values) => {
                return put_leaf(&mut self.keys, values, put, change);
            }
            Body::Inner(kids) => {
                let here = PutIn {
                    put,
                    depth: self.depth,
                };
                return put_inner(&mut self.keys, kids, chunks, here, change);
            }
        }
    }
}
