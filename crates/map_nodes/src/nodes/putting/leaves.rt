//! A row put in a leaf.
ghost use Rattle.std.specs.Prelude.{◌≡◌, ℕ, ◌<◌, ◌≤◌, ◌++◌, false, List, length, replicate, Ok, None, IfOk, IfErr};
ghost use Rattle.std.specs.Prelude.{OnOk, OnErr, option_copied, vec_items, vec_len, vec_capacity};
ghost use Rattle.std.specs.Ordering.{nat_cmp};
ghost use Rattle.std.specs.Cmp.Lexicographic.{slice_cmp};
ghost use Rattle.std.specs.FinMap as finite;
ghost use Rattle.group_history.specs.Map.{Bytes};
ghost use Rattle.group_history.specs.Rows.{AreKeys, paired};
ghost use Rattle.group_history.specs.declared.mutators.Update.TheVariants.{Put as Puts};
ghost use Rattle.map_nodes.specs.Changes.{CanMake, Makes};
ghost use Rattle.map_nodes.specs.Nodes.{row_pieces};
ghost use Rattle.map_chunks.specs.Search.{IsAbsent, IsFound};
ghost use Rattle.map_nodes.specs.Inside.Halves.{half_pieces, IsHalf, AreNinth};
ghost use Rattle.map_nodes.specs.Inside.Counts.{HasKept};
ghost use Rattle.map_nodes.specs.Inside.Ready.{HasRoom};
ghost use Rattle.map_nodes.specs.Inside.Puts.{HasReplacedRow, IsLeafPut};
ghost use Rattle.map_nodes.specs.Inside.Unput.{IsUnput};

use super::super::homes::housed;
use super::super::{Body, OwnNode};
use super::splits::{SplitBuffers, take_half_room};
use super::{Half, Put, PutRefused};
use crate::changes::ValueChange;
use group_history::{Json, Stop, Text, Update};
use map_chunks::entries::{MOST, insert_entry, make_room};
use map_chunks::keys::NodeKeys;
use map_chunks::search::search_for;
use std::alloc::{AllocError, Global};

fn copies_of(alloc: Global, text: &Text, count: usize) -> Result<Vec<Text>, AllocError>
    ensures { IfOk result (λ copies. copies.items ≡ replicate count text.now) }
{
    let mut copies = Vec::with_capacity(alloc, count)?;
    for _made in 0..count {
        copies.push(text.clone()?)?;
    }
    Ok(copies)
}

/// Copies of the first key of the upper half, where the key is put before the place.
pub(crate) fn ninth_copies(
    alloc: Global,
    keys: &[Text],
    place: usize,
    key: &Text,
    count: usize,
) -> Result<Vec<Text>, AllocError>
    ensures { IfOk result (λ copies. AreNinth count keys.now place key.now copies.items) }
{
    if keys.len() != MOST {
        return Ok(Vec::new(alloc));
    }
    if place == 8 {
        return copies_of(alloc, key, count);
    }
    let ninth = if place < 8 { 7 } else { 8 };
    copies_of(alloc, &keys[ninth], count)
}

/// Puts what a change makes of the value at a key in a leaf's rows, unless it is there already.
pub(crate) fn put_leaf<F: FnOnce(Option<Json>) -> Result<Update, Stop>>(
    keys: &mut NodeKeys,
    values: &mut Vec<Json>,
    put: Put<'_>,
    change: ValueChange<F>,
) -> Result<Option<Half>, PutRefused>
    requires keys { AreKeys keys.old.texts }
    requires pairs { length values.old.items ≡ length keys.old.texts }
    requires callable { CanMake (λ f. F.IsAlwaysCallable f) change }
    ensures put { IfOk result (λ half. (v : Bytes) × Makes (λ f x r. F.post f x r) change (finite.find
        (slice_cmp nat_cmp) put.entry.key.now (paired keys.old.texts values.old.items)) (Ok (Puts v))
        × (row_pieces (paired keys.new.texts values.new.items) ++ half_pieces half
        ≡ row_pieces (finite.put (slice_cmp nat_cmp) put.entry.key.now v (paired keys.old.texts values.old.items)))
        × HasReplacedRow (finite.find (slice_cmp nat_cmp) put.entry.key.now (paired keys.old.texts values.old.items)) v
        keys.old.texts keys.new.texts half) }
    ensures half { IfOk result (IsHalf put.entry.copies 1) }
    ensures leaf { OnOk result (AreKeys keys.new.texts × (length values.new.items ≡ length keys.new.texts)
        × (0 < length keys.new.texts)) }
    ensures entries { IfOk result (HasKept (length keys.old.texts) (length keys.new.texts)) }
    ensures keys { IfOk result (IsLeafPut keys.old.texts keys.new.texts) }
    ensures err { OnErr result ((keys.new.texts ≡ keys.old.texts) × (values.new.items ≡ values.old.items)) }
    ensures unput { IfErr result (IsUnput (λ made. Makes (λ f x r. F.post f x r) change (finite.find (slice_cmp nat_cmp)
        put.entry.key.now (paired keys.old.texts values.old.items)) made) (λ _. ⊥) (finite.find
        (slice_cmp nat_cmp) put.entry.key.now (paired keys.old.texts values.old.items))) }
{
    let found = search_for(keys.as_slice(), put.searched);
    match change.of(value_found(values, &found))? {
        Update::Put(value) => put_row(keys, values, found, put, value),
        Update::Refuse(code) => Err(PutRefused::Refused(code)),
    }
}

/// The value at a place where a key was found, if it was.
pub(crate) fn value_found<'a>(values: &'a [Json], found: &Result<usize, usize>) -> Option<&'a Json>
    requires { IfOk found.now (λ place. place < length values.now) }
    ensures { (key : Bytes) (keys : List Bytes) → AreKeys keys → length values.now ≡ length keys
        → IfOk found.now (IsFound key keys) → IfErr found.now (IsAbsent key keys)
        → option_copied result ≡ finite.find (slice_cmp nat_cmp) key (paired keys values.now) }
{
    match found {
        Ok(place) => Some(&values[*place]),
        Err(_) => None,
    }
}

// Puts a row whose key was found at a place of a leaf, or has its place before one.
#[inline(always)]
fn put_row(
    keys: &mut NodeKeys,
    values: &mut Vec<Json>,
    found: Result<usize, usize>,
    put: Put<'_>,
    value: Json,
) -> Result<Option<Half>, PutRefused>
    requires keys { AreKeys keys.old.texts }
    requires pairs { length values.old.items ≡ length keys.old.texts }
    requires found { IfOk found (IsFound put.key.now keys.old.texts) }
    requires absent { IfErr found (IsAbsent put.key.now keys.old.texts) }
    ensures rows { IfOk result (λ half. row_pieces (paired keys.new.texts values.new.items) ++ half_pieces half
        ≡ row_pieces (finite.put (slice_cmp nat_cmp) put.entry.key.now value
        (paired keys.old.texts values.old.items))) }
    ensures half { IfOk result (IsHalf put.entry.copies 1) }
    ensures leaf { OnOk result (AreKeys keys.new.texts × (length values.new.items ≡ length keys.new.texts)
        × (0 < length keys.new.texts)) }
    ensures entries { IfOk result (HasKept (length keys.old.texts) (length keys.new.texts)) }
    ensures keys { IfOk result (IsLeafPut keys.old.texts keys.new.texts) }
    ensures renewed { IfOk result (HasReplacedRow (finite.find (slice_cmp nat_cmp) put.entry.key.now
        (paired keys.old.texts values.old.items)) value keys.old.texts keys.new.texts) }
    ensures err { OnErr result ((keys.new.texts ≡ keys.old.texts) × (values.new.items ≡ values.old.items)) }
    ensures unput { IfErr result (IsUnput (λ made. made ≡ Ok (Puts value)) (λ _. ⊥) (finite.find
        (slice_cmp nat_cmp) put.entry.key.now (paired keys.old.texts values.old.items))) }
{
    match found {
        Ok(place) => {
            if values[place] == value {
                drop(value);
                return Err(PutRefused::Same);
            }
            values[place] = value;
            return Ok(None);
        }
        Err(place) => {
            return Ok(insert_row(keys, values, place, put, value)?);
        }
    }
}

/// Puts a row whose key is new before the one at the place.
#[inline(always)]
pub(crate) fn insert_row(
    keys: &mut NodeKeys,
    values: &mut Vec<Json>,
    place: usize,
    put: Put<'_>,
    value: Json,
) -> Result<Option<Half>, AllocError>
    requires keys { AreKeys keys.old.texts }
    requires pairs { length values.old.items ≡ length keys.old.texts }
    requires absent { IsAbsent put.key.now keys.old.texts place }
    ensures rows { IfOk result (λ half. row_pieces (paired keys.new.texts values.new.items) ++ half_pieces half
        ≡ row_pieces (finite.put (slice_cmp nat_cmp) put.entry.key.now value
        (paired keys.old.texts values.old.items))) }
    ensures half { IfOk result (IsHalf put.entry.copies 1) }
    ensures leaf { IfOk result (λ half. AreKeys keys.new.texts × (length values.new.items ≡ length keys.new.texts)
        × (0 < length keys.new.texts)) }
    ensures entries { IfOk result (HasKept (length keys.old.texts) (length keys.new.texts)) }
    ensures keys { IfOk result (IsLeafPut keys.old.texts keys.new.texts) }
    ensures err { OnErr result ((keys.new.texts ≡ keys.old.texts) × (values.new.items ≡ values.old.items)) }
{
    let room = take_half_room(put.alloc, keys.as_slice(), place, put.key, put.copies)?;
    let key = put.key.clone()?;
    make_room(keys, values, put.alloc)?;
    Ok(settle_row(keys, values, place, (key, value), room))
}

// Puts a row in the room made for it, and splits the rows where they are 17 then.
fn settle_row(
    keys: &mut NodeKeys,
    values: &mut Vec<Json>,
    place: usize,
    row: (Text, Json),
    room: SplitBuffers<Json>,
) -> Option<Half>
    requires keys { AreKeys keys.old.texts }
    requires pairs { length values.old.items ≡ length keys.old.texts }
    requires absent { IsAbsent row.0 keys.old.texts place }
    requires room { (0 < keys.old.room) × (vec_len values.old < vec_capacity values.old) }
    requires spare { HasRoom (length keys.old.texts) room }
    ensures rows { row_pieces (paired keys.new.texts values.new.items) ++ half_pieces result
        ≡ row_pieces (finite.put (slice_cmp nat_cmp) row.0 row.1 (paired keys.old.texts values.old.items)) }
    ensures half { (copies : ℕ) → AreNinth copies keys.old.texts place row.0 room.firsts.items
        → IsHalf copies 1 result }
    ensures leaf { AreKeys keys.new.texts × (length values.new.items ≡ length keys.new.texts)
        × (0 < length keys.new.texts) }
    ensures entries { HasKept (length keys.old.texts) (length keys.new.texts) result }
    ensures keys { IsLeafPut keys.old.texts keys.new.texts result }
{
    let SplitBuffers {
        firsts,
        spare,
        home,
    } = room;
    let Some((upper_keys, upper)) = insert_entry(keys, values, place, row, spare) else {
        return None;
    };
    let upper = OwnNode {
        depth: 1,
        keys: upper_keys,
        body: Body::Leaf(upper),
    };
    Some(Half {
        firsts,
        node: housed(home, upper),
    })
}
