//! Own chunks made of placed ones on the way up, with what a put made below them. All placed chunks stay as they are,
//! so memory may be refused at any of these steps.
ghost use Rattle.std.specs.Prelude.{◌≡◌, ◌+◌, ◌++◌, ◌<◌, ◌≤◌, ◌^◌, [], length, slice_index_or, IfOk, IsSome};
ghost use Rattle.std.specs.Prelude.{vec_items, vec_len, vec_capacity};
ghost use Rattle.std.specs.Ordering.{nat_cmp};
ghost use Rattle.std.specs.Cmp.Lexicographic.{slice_cmp};
ghost use Rattle.std.specs.FinMap as finite;
ghost use Rattle.group_history.specs.Rows.{AreKeys, keys_of, paired, values_of};
ghost use Rattle.map_chunks.specs.Search.{IsAbsent, IsPlace};
ghost use Rattle.map_nodes.specs.Inside.Counts.{HasKept};
ghost use Rattle.map_nodes.specs.Inside.Halves.{half_pieces, IsHalf, IsLower};
ghost use Rattle.map_nodes.specs.Inside.Laying.{rows_seen, CanGrowOver, IsGrownOver};
ghost use Rattle.map_nodes.specs.Inside.Puts.{IsLeafPut};
ghost use Rattle.map_nodes.specs.Inside.Ready.{IsReady};
ghost use Rattle.map_nodes.specs.Nodes.{row_pieces};
ghost use Rattle.map_nodes.specs.Trails.{placed_kids};

use super::copies::{copied_values, placed_children};
use super::homes::boxed;
use super::putting::{
    ChildSplit, Half, Put, PutBuffers, finish, insert_row, lower_first, lower_key,
};
use super::{Body, OwnChild, OwnNode};
use group_history::{Inner, Json, Leaf, Ref, SearchKey, Text};
use map_chunks::keys::{NodeKeys, ROOM};
use std::alloc::{AllocError, Global};

/// A way down to a key: how many copies of an upper half's first key are wanted, one for each chunk above; and whether
/// a trail will do.
#[derive(Drop)]
pub(crate) struct Down<'a> {
    pub(crate) alloc: Global,
    pub(crate) key: &'a str,
    pub(crate) searched: &'a SearchKey<'a>,
    pub(crate) copies: usize,
    pub(crate) as_trail: bool,
    ghost same: { searched.now ≡ key.now },
}

impl<'a> Down<'a> {
    /// The same way, where it has come to a chunk for which so many copies are wanted.
    pub(crate) fn under(&self, copies: usize) -> Down<'a>
        ensures key { result.key.now ≡ self.now.key.now }
        ensures copies { result.copies ≡ copies }
        ensures trail { result.as_trail ≡ self.now.as_trail }
    {
        Down {
            alloc: self.alloc,
            key: self.key,
            searched: self.searched,
            copies,
            as_trail: self.as_trail,
        }
    }

    // The put of a row with this key.
    fn put(&self, key: &'a Text) -> Put<'a>
        requires { key.now ≡ self.now.key.now }
        ensures key { result.key.now ≡ key.now }
        ensures copies { result.copies ≡ self.now.copies }
    {
        Put {
            alloc: self.alloc,
            key,
            searched: self.searched,
            copies: self.copies,
        }
    }
}

impl OwnNode {
    /// A leaf.
    pub(crate) fn of_rows(keys: NodeKeys, values: Vec<Json>) -> OwnNode
        requires keys { AreKeys keys.texts }
        requires pairs { length values.items ≡ length keys.texts }
        ensures { result ≡ rows_seen keys.texts values.items }
    {
        OwnNode {
            depth: 1,
            keys,
            body: Body::Leaf(values),
        }
    }
}

/// The rows of a leaf with one more, before the one at a place, and the upper half where they are 17 then.
#[inline(never)]
pub(crate) fn grown_rows(
    leaf: &Leaf,
    place: usize,
    down: &Down<'_>,
    value: Json,
) -> Result<(NodeKeys, Vec<Json>, Option<Half>), AllocError>
    requires absent { IsAbsent down.now.key.now (keys_of leaf.now) place }
    ensures rows { IfOk result (λ r. row_pieces (paired r.0.texts r.1.items) ++ half_pieces r.2
        ≡ row_pieces (finite.put (slice_cmp nat_cmp) down.now.key.now value leaf.now)) }
    ensures half { IfOk result (λ r. IsHalf down.now.copies 1 r.2) }
    ensures leaf { IfOk result (λ r. AreKeys r.0.texts × (length r.1.items ≡ length r.0.texts)
        × (0 < length r.0.texts)) }
    ensures entries { IfOk result (λ r. HasKept (length leaf.now) (length r.0.texts) r.2) }
    ensures keys { IfOk result (λ r. IsLeafPut (keys_of leaf.now) r.0.texts r.2) }
{
    let room = if down.as_trail {
        leaf.values().len() + 1
    } else {
        ROOM
    };
    let mut keys = NodeKeys::shared(leaf.keys().clone()?);
    let mut values = copied_values(down.alloc, leaf.values(), room)?;
    let key = Text::new(down.alloc, down.key)?;
    let half = insert_row(&mut keys, &mut values, place, down.put(&key), value)?;
    Ok((keys, values, half))
}

// The keys and children of an inner chunk, copied with room for one more.
fn copied_over(inner: &Inner<Ref>, alloc: Global) -> Result<(NodeKeys, Vec<OwnChild>), AllocError>
    ensures keys { IfOk result (λ r. r.0.texts ≡ keys_of inner.now) }
    ensures kids { IfOk result (λ r. r.1.items ≡ placed_kids (values_of inner.now)) }
    ensures room { IfOk result (λ r. vec_len r.1 < vec_capacity r.1) }
{
    let keys = NodeKeys::shared(inner.firsts().clone()?);
    let mut kids = placed_children(alloc, inner.children(), ROOM)?;
    kids.reserve(1)?;
    Ok((keys, kids))
}

// What these keys need, where the child at a place was changed already, and has this upper half.
fn ready_over(
    keys: &mut NodeKeys,
    place: usize,
    down: &Down<'_>,
    half: &Option<Half>,
) -> Result<PutBuffers, AllocError>
    requires place { IsPlace down.now.key.now keys.old.texts place }
    ensures texts { keys.new.texts ≡ keys.old.texts }
    ensures lowers { IfOk result (λ r. IsSome r.lower → 0 < keys.new.room) }
    ensures lower { IfOk result (λ r. IsLower down.now.key.now (slice_index_or keys.old.texts place []) r.lower) }
    ensures ready { IfOk result (λ r. IsSome half.now
        → IsReady down.now.copies keys.old.texts keys.new.room place down.now.key.now r.room) }
{
    if half.is_none() {
        let lower = lower_key(keys, down.alloc, place, down.key)?;
        return Ok(PutBuffers { lower, room: None });
    }
    let key = Text::new(down.alloc, down.key)?;
    let put = Put {
        alloc: down.alloc,
        key: &key,
        searched: down.searched,
        copies: down.copies,
    };
    PutBuffers::of_child(keys, put, place, true)
}

/// An inner chunk with an own child in the place of one, and the child's upper half behind it. It is split where it has
/// 17 children then.
#[inline(never)]
pub(crate) fn grown_over(
    inner: &Inner<Ref>,
    place: usize,
    down: &Down<'_>,
    child: Box<OwnNode>,
    half: Option<Half>,
) -> Result<(Box<OwnNode>, Option<Half>), AllocError>
    requires place { IsPlace down.now.key.now (keys_of inner.now) place }
    requires fits { CanGrowOver down.now.copies inner.now down.now.key.now place child.value half }
    ensures { IfOk result (λ r. IsGrownOver down.now.copies (child.value.depth + 1) inner.now down.now.key.now place
        child.value half r.0.value r.1) }
{
    let depth = child.depth() + 1;
    let (mut keys, mut kids) = copied_over(inner, down.alloc)?;
    let ready = ready_over(&mut keys, place, down, &half)?;
    kids[place] = OwnChild::Own(child);
    lower_first(&mut keys, place, ready.lower);
    let split = ChildSplit {
        place,
        room: ready.room,
        half,
    };
    let half = finish(&mut keys, &mut kids, depth, split);
    let node = OwnNode {
        depth,
        keys,
        body: Body::Inner(kids),
    };
    Ok((boxed(down.alloc, node)?, half))
}
