//! A new child in an inner chunk.
ghost use Rattle.std.specs.Prelude.{◌≡◌, ℕ, ◌<◌, ◌≤◌, ◌+◌, ◌-◌, length, Some, None, IsSome, vec_items, vec_len};
ghost use Rattle.std.specs.Prelude.{vec_capacity};
ghost use Rattle.group_history.specs.Map.{Bytes};
ghost use Rattle.group_history.specs.Rows.{keys_of, paired, values_of};
ghost use Rattle.map_nodes.specs.Inside.Halves.{IsHalf, with_half, lowered, Finished};
ghost use Rattle.map_nodes.specs.Inside.Counts.{HasKept};
ghost use Rattle.map_nodes.specs.Inside.Ready.{AreNinthIn, HasRoomIn, Suits};
ghost use Rattle.map_nodes.specs.Inside.Puts.{IsHalved};

use super::super::homes::housed;
use super::super::{Body, OwnChild, OwnNode};
use super::Half;
use super::splits::SplitBuffers;
use group_history::Text;
use map_chunks::entries::insert_entry;
use map_chunks::keys::NodeKeys;

/// The upper half of the child at a place, where that was split, and the room that was taken for it.
#[derive(Drop)]
pub(crate) struct ChildSplit {
    pub(crate) place: usize,
    pub(crate) room: Option<Box<SplitBuffers<OwnChild>>>,
    pub(crate) half: Option<Half>,
}

/// Puts a lower first key in the place of one, if there is one.
#[inline(always)]
pub(crate) fn lower_first(keys: &mut NodeKeys, place: usize, lower: Option<Text>)
    requires room { IsSome lower → 0 < keys.old.room }
    requires within { place < length keys.old.texts }
    ensures texts { keys.new.texts ≡ lowered place lower keys.old.texts }
    ensures room { keys.new.room ≡ keys.old.room }
{
    if let Some(key) = lower {
        keys.set(place, key);
    }
}

/// Puts the upper half of the child at the place behind it, and splits the children where they are 17 then.
#[inline(always)]
pub(crate) fn finish(
    keys: &mut NodeKeys,
    kids: &mut Vec<OwnChild>,
    depth: u64,
    split: ChildSplit,
) -> Option<Half>
    requires fits { Suits depth split.place keys.old.texts kids.old.items split.half }
    requires kids_room { vec_len kids.old < vec_capacity kids.old }
    requires keys_room { IsSome split.half → 0 < keys.old.room }
    requires room { IsSome split.half → HasRoomIn (length keys.old.texts) split.room }
    ensures shape { Finished depth (with_half split.place split.half
        (paired keys.old.texts kids.old.items)) keys.new.texts kids.new.items result }
    ensures half { (copies : ℕ) → IsHalf (copies + 1) (depth - 1) split.half
        → (IsSome split.half → (key : Bytes) → (split.place + 1 ≡ 8 → ⊥)
        → AreNinthIn copies keys.old.texts (split.place + 1) key split.room)
        → IsHalf copies depth result }
    ensures entries { HasKept (length keys.old.texts) (length keys.new.texts) result }
    ensures parted { IsHalved depth keys.new.texts kids.new.items result
        (keys_of (with_half split.place split.half (paired keys.old.texts kids.old.items)))
        (values_of (with_half split.place split.half (paired keys.old.texts kids.old.items))) }
    ensures whole { split.half ≡ None → result ≡ None }
{
    let ChildSplit { place, room, half } = split;
    let Some(half) = half else {
        return None;
    };
    let Half {
        firsts: mut given,
        node,
    } = half;
    let Some(first) = given.pop() else {
        return None;
    };
    let SplitBuffers {
        firsts,
        spare,
        home,
    } = SplitBuffers::opened(room, *kids.allocator());
    let Some((upper_keys, upper)) = insert_entry(
        keys,
        kids,
        place + 1,
        (first, OwnChild::Own(node)),
        spare,
    ) else {
        return None;
    };
    let upper = OwnNode {
        depth,
        keys: upper_keys,
        body: Body::Inner(upper),
    };
    Some(Half {
        firsts: chosen(place, given, firsts),
        node: housed(home, upper),
    })
}

// The copies of the child's own half where that begins the upper half, else the others.
fn chosen(place: usize, given: Vec<Text>, firsts: Vec<Text>) -> Vec<Text>
    ensures at { place ≡ 7 → result.items ≡ given.items }
    ensures other { (place ≡ 7 → ⊥) → result.items ≡ firsts.items }
{
    if place == 7 {
        return given;
    }
    firsts
}
