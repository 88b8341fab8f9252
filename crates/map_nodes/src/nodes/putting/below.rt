//! What an inner chunk needs before a row is put below it.
ghost use Rattle.std.specs.Prelude.{◌≡◌, ◌<◌, ◌≤◌, ◌+◌, [], true, length, IfOk, OnOk, IsSome, slice_index_or};
ghost use Rattle.std.specs.Prelude.{vec_items, vec_capacity};
ghost use Rattle.map_chunks.specs.Search.{IsPlace};
ghost use Rattle.map_nodes.specs.Inside.Halves.{IsLower};
ghost use Rattle.map_nodes.specs.Inside.Ready.{IsReady};

use super::super::OwnChild;
use super::Put;
use super::splits::{SplitBuffers, take_half_room};
use group_history::Text;
use map_chunks::entries::MOST;
use map_chunks::keys::NodeKeys;
use std::alloc::{AllocError, Global};

/// What an inner chunk may need once its child is changed: a lower first key, and room for a split where it is full.
#[derive(Drop)]
pub(crate) struct PutBuffers {
    pub(crate) lower: Option<Text>,
    pub(crate) room: Option<Box<SplitBuffers<OwnChild>>>,
}

impl PutBuffers {
    /// Where the child may be split, the keys become the chunk's own.
    #[inline(always)]
    pub(crate) fn of_child(
        keys: &mut NodeKeys,
        put: Put<'_>,
        place: usize,
        may_split: bool,
    ) -> Result<PutBuffers, AllocError>
        requires place { IsPlace put.key.now keys.old.texts place }
        ensures texts { keys.new.texts ≡ keys.old.texts }
        ensures lowers { IfOk result (λ r. IsSome r.lower → 0 < keys.new.room) }
        ensures lower { IfOk result (λ r. IsLower put.entry.key.now (slice_index_or keys.old.texts place []) r.lower) }
        ensures ready { IfOk result (λ r. may_split ≡ true
            → IsReady put.entry.copies keys.old.texts keys.new.room place put.entry.key.now r.room) }
    {
        let lower = lower_key(keys, put.alloc, place, put.key.as_str())?;
        let room = if may_split {
            room_over(keys, put, place)?
        } else {
            None
        };
        Ok(PutBuffers { lower, room })
    }
}

// Room among the keys for one more, and for a split where they are full.
fn room_over(
    keys: &mut NodeKeys,
    put: Put<'_>,
    place: usize,
) -> Result<Option<Box<SplitBuffers<OwnChild>>>, AllocError>
    requires place { IsPlace put.key.now keys.old.texts place }
    ensures texts { keys.new.texts ≡ keys.old.texts }
    ensures ready { IfOk result (IsReady put.entry.copies keys.old.texts keys.new.room place put.entry.key.now) }
{
    keys.make_room(put.alloc)?;
    if keys.as_slice().len() < MOST {
        return Ok(None);
    }
    let room = take_half_room(put.alloc, keys.as_slice(), place + 1, put.key, put.copies)?;
    Ok(Some(Box::new(put.alloc, room)?))
}

/// The key, where it is below the one of the child to which it belongs. That is the first child then, and
/// the keys become the chunk's own.
#[inline(always)]
pub(crate) fn lower_key(
    keys: &mut NodeKeys,
    alloc: Global,
    place: usize,
    key: &str,
) -> Result<Option<Text>, AllocError>
    requires { IsPlace key.now keys.old.texts place }
    ensures texts { keys.new.texts ≡ keys.old.texts }
    ensures lower { IfOk result (IsLower key.now (slice_index_or keys.old.texts place [])) }
    ensures room { IfOk result (λ lower. IsSome lower → 0 < keys.new.room) }
{
    if place > 0 {
        return Ok(None);
    }
    if keys.as_slice()[place].as_str().cmp(key).is_gt() {
        let lower = Text::new(alloc, key)?;
        keys.make_room(alloc)?;
        return Ok(Some(lower));
    }
    Ok(None)
}
