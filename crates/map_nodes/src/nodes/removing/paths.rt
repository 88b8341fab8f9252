//! A removal on its way down.
ghost use Rattle.std.specs.Prelude.{◌≡◌, ◌⊎◌, ◌<◌, length, slice_get, Some, IsSome, IfOk, IfErr, OnOk, OnErr};
ghost use Rattle.std.specs.Prelude.{vec_items};
ghost use Rattle.group_history.specs.Rows.{AreKeys, paired};
ghost use Rattle.group_history.specs.declared.mutators.Stop.TheVariants.{NoMemory};
ghost use Rattle.map_nodes.specs.Inside.Halves.{lowered};
ghost use Rattle.map_nodes.specs.Levels.{seen_levels, ShrunkLater};
ghost use Rattle.map_nodes.specs.Nodes.{IsNode, body_levels, body_pieces};
ghost use Rattle.map_nodes.specs.Inside.Nodes.{ChildChanged, child_rows};
ghost use Rattle.map_nodes.specs.Removing.{without_key};
ghost use Rattle.map_nodes.specs.Inside.Removing.{HasOthers, AreKidsLeft, CanRemove, CanRemoveAt, IsLeafLeft};
ghost use Rattle.map_chunks.specs.Places.{Grows, AreAll, AreKept, places_of};
ghost use Rattle.map_nodes.specs.Inside.Freezing.{kids_places};
ghost use Rattle.map_chunks.specs.Shown.{shown, IsTree, rows_or};
ghost use Rattle.map_nodes.specs.declared.nodes.Body.TheVariants as body;
ghost use Rattle.map_nodes.specs.declared.nodes.OwnChild.{OwnChild as Childs};

use super::super::{Body, OwnChild, OwnNode};
use super::fates::fate_of;
use super::{ChildAfter, Removal};
use group_history::{Json, Stop, Text};
use map_chunks::Chunks;
use map_chunks::entries::remove_entry;
use map_chunks::keys::NodeKeys;
use map_chunks::search::{place_of, search};
use std::alloc::{AllocError, Global};

/// Removes a row of a leaf, if it is there.
pub(super) fn remove_row(
    keys: &mut NodeKeys,
    values: &mut Vec<Json>,
    alloc: Global,
    key: &str,
) -> Result<(), AllocError>
    requires keys { AreKeys keys.old.texts }
    requires pairs { length values.old.items ≡ length keys.old.texts }
    ensures rows { OnOk result (paired keys.new.texts values.new.items
        ≡ without_key key.now (paired keys.old.texts values.old.items)) }
    ensures keys { AreKeys keys.new.texts }
    ensures left { OnOk result (IsLeafLeft keys.old.texts keys.new.texts) }
    ensures pairs { length values.new.items ≡ length keys.new.texts }
    ensures err { OnErr result ((keys.new.texts ≡ keys.old.texts) × (values.new.items ≡ values.old.items)) }
{
    let Ok(place) = search(keys.as_slice(), key) else {
        return Ok(());
    };
    remove_entry(keys, values, alloc, place)
}

// Makes the keys the chunk's own where another first key is to be set.
fn make_ready(keys: &mut NodeKeys, alloc: Global, first: &Option<Text>) -> Result<(), AllocError>
    ensures texts { keys.new.texts ≡ keys.old.texts }
    ensures room { OnOk result (IsSome first.now → 0 < keys.new.room) }
{
    if first.is_some() {
        keys.make_room(alloc)?;
    }
    Ok(())
}

// Sets another first key of the child at the place, if there is one.
fn set_first(keys: &mut NodeKeys, place: usize, first: Option<Text>)
    requires room { IsSome first → 0 < keys.old.room }
    requires within { place < length keys.old.texts }
    ensures { keys.new.texts ≡ lowered place first keys.old.texts }
{
    if let Some(key) = first {
        keys.set(place, key);
    }
}

#[cycle(removing)]
fn remove_child<C: Chunks>(
    kids: &mut Vec<OwnChild>,
    place: usize,
    below: u64,
    chunks: &mut C,
    key: &str,
) -> Result<(), Stop>
    requires places { AreAll (C.places chunks.old) (kids_places kids.old.items) }
    requires within { place < length kids.old.items }
    requires tree { (c : Childs) → slice_get kids.old.items place ≡ Some c
        → CanRemove (C.contents chunks.old) below key.now c }
    ensures grown { Grows C.contents C.places chunks.old chunks.new }
    ensures done { (c : Childs) → slice_get kids.old.items place ≡ Some c
        → OnOk result (ChildChanged (C.contents chunks.new) below place kids.old.items kids.new.items c
        (Some (without_key key.now (rows_or (child_rows (C.contents chunks.old) below c))))) }
    ensures places { OnOk result (AreKept (C.places chunks.new) (kids_places kids.old.items)
        (kids_places kids.new.items)) }
    ensures err { OnErr result (kids.new.items ≡ kids.old.items) }
    ensures stopped { IfErr result (λ s. (s ≡ NoMemory) ⊎ C.stops s) }
{
    let alloc = *kids.allocator();
    match &mut kids[place] {
        OwnChild::Own(node) => return node.remove(alloc, chunks, key),
        OwnChild::Placed(at) => {
            let mut node = OwnNode::copied_child(alloc, chunks, *at, below, 0)?;
            node.remove(alloc, chunks, key)?;
            kids[place] = OwnChild::Own(node);
            return Ok(());
        }
    }
}

/// Removes a key below the child at the place, whose fate is known, or the child itself.
#[cycle(removing)]
pub(super) fn remove_at<C: Chunks>(
    keys: &mut NodeKeys,
    kids: &mut Vec<OwnChild>,
    depth: u64,
    chunks: &mut C,
    removal: Removal<'_>,
) -> Result<(), Stop>
    requires places { AreAll (C.places chunks.old) (kids_places kids.old.items) }
    requires can { CanRemoveAt (C.contents chunks.old) depth keys.old.texts kids.old removal.key.now removal.place
        removal.fate }
    requires others { HasOthers removal.fate (length keys.old.texts) }
    ensures grown { Grows C.contents C.places chunks.old chunks.new }
    ensures node { IsNode depth keys.new.texts (body.Inner kids.new) }
    ensures done { OnOk result (shown (C.contents chunks.new) (body_pieces depth keys.new.texts (body.Inner kids.new))
        ≡ Some (without_key removal.entry.key.now (rows_or (shown (C.contents chunks.old)
        (body_pieces depth keys.old.texts (body.Inner kids.old)))))) }
    ensures places { OnOk result (AreKept (C.places chunks.new) (kids_places kids.old.items)
        (kids_places kids.new.items)) }
    ensures levels { OnOk result (ShrunkLater (C.contents chunks.new) depth
        (body_levels depth keys.old.texts (body.Inner kids.old))
        (body_levels depth keys.new.texts (body.Inner kids.new))) }
    ensures left { OnOk result (AreKidsLeft removal.entry.fate (length keys.old.texts) (length keys.new.texts)) }
    ensures err { OnErr result ((keys.new.texts ≡ keys.old.texts) × (kids.new.items ≡ kids.old.items)) }
    ensures stopped { IfErr result (λ s. (s ≡ NoMemory) ⊎ C.stops s) }
{
    let Removal { key, place, fate } = removal;
    let alloc = *kids.allocator();
    match fate {
        ChildAfter::Leaves => {
            remove_entry(keys, kids, alloc, place)?;
            return Ok(());
        }
        ChildAfter::Stays(first) => {
            make_ready(keys, alloc, &first)?;
            remove_child(kids, place, depth - 1, chunks, key)?;
            set_first(keys, place, first);
            return Ok(());
        }
    }
}

impl OwnNode {
    // Removes a key, if it is there. Other rows stay below the chunk.
    #[cycle(removing)]
    fn remove<C: Chunks>(&mut self, alloc: Global, chunks: &mut C, key: &str) -> Result<(), Stop>
        requires places { AreAll (C.places chunks.old) (places_of self.old.pieces) }
        requires tree { IsTree (shown (C.contents chunks.old) self.old.pieces) }
        requires more { 0 < length (without_key key.now (rows_or (shown (C.contents chunks.old) self.old.pieces))) }
        ensures grown { Grows C.contents C.places chunks.old chunks.new }
        ensures depth { self.new.depth ≡ self.old.depth }
        ensures done { OnOk result (shown (C.contents chunks.new) self.new.pieces
            ≡ Some (without_key key.now (rows_or (shown (C.contents chunks.old) self.old.pieces)))) }
        ensures places { OnOk result (AreKept (C.places chunks.new) (places_of self.old.pieces)
            (places_of self.new.pieces)) }
        ensures levels { OnOk result (ShrunkLater (C.contents chunks.new) self.old.depth (seen_levels self.old)
            (seen_levels self.new)) }
        ensures err { OnErr result (self.new ≡ self.old) }
        ensures stopped { IfErr result (λ s. (s ≡ NoMemory) ⊎ C.stops s) }
    {
        match &mut self.body {
            Body::Leaf(values) => {
                remove_row(&mut self.keys, values, alloc, key)?;
                return Ok(());
            }
            Body::Inner(kids) => {
                let texts = self.keys.as_slice();
                let place = place_of(texts, key);
                let fate = fate_of(chunks, &texts[place], &kids[place], key)?;
                let removal = Removal { key, place, fate };
                return remove_at(&mut self.keys, kids, self.depth, chunks, removal);
            }
        }
    }
}
