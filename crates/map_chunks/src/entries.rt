//! Keys and what stands under them, changed together.
ghost use Rattle.std.specs.Prelude.{◌≡◌, ◌<◌, ◌≤◌, [], length, IfOk, OnOk, OnErr, Some, vec_items, vec_len};
ghost use Rattle.std.specs.Prelude.{vec_capacity};
ghost use Rattle.std.specs.List.{insert, remove};
ghost use Rattle.std.specs.Option.{option_map};
ghost use Rattle.group_history.specs.Rows.{paired};
ghost use Rattle.map_chunks.specs.Inserting.{Parted};

use crate::keys::{NodeKeys, ROOM, move_tail};
use group_history::Text;
use std::alloc::{AllocError, Global};

/// So many entries a chunk has at most.
pub const MOST: usize = 16;

/// Room for a chunk that a split may make: an upper half, or a root above both.
#[derive(Drop)]
pub struct SpareChunk<T> {
    pub keys: Vec<Text>,
    pub entries: Vec<T>,
}

/// Room for another chunk of 17 entries, where one with so many may be split: from 16 on. Else no memory is
/// taken.
pub fn take_spare<T: Drop>(alloc: Global, len: usize) -> Result<SpareChunk<T>, AllocError>
    ensures keys { IfOk result (λ s. s.keys.items ≡ []) }
    ensures entries { IfOk result (λ s. s.entries.items ≡ []) }
    ensures room { IfOk result (λ s. 16 ≤ len → (17 ≤ vec_capacity s.keys) × (17 ≤ vec_capacity s.entries)) }
{
    if len < MOST {
        return Ok(SpareChunk {
            keys: Vec::new(alloc),
            entries: Vec::new(alloc),
        });
    }
    let keys = Vec::with_capacity(alloc, ROOM)?;
    let entries = Vec::with_capacity(alloc, ROOM)?;
    Ok(SpareChunk { keys, entries })
}

/// Room for one entry more. The keys become the chunk's own.
pub fn make_room<T: Drop>(
    keys: &mut NodeKeys,
    entries: &mut Vec<T>,
    alloc: Global,
) -> Result<(), AllocError>
    ensures keys { keys.new.texts ≡ keys.old.texts }
    ensures entries { entries.new.items ≡ entries.old.items }
    ensures room { OnOk result ((0 < keys.new.room) × (vec_len entries.new < vec_capacity entries.new)) }
{
    entries.reserve(1)?;
    keys.make_room(alloc)?;
    Ok(())
}

/// Puts an entry, under its key, before the one at the place, and answers the upper half where there are 17 then.
pub fn insert_entry<T: Drop>(
    keys: &mut NodeKeys,
    entries: &mut Vec<T>,
    place: usize,
    added: (Text, T),
    spare: SpareChunk<T>,
) -> Option<(NodeKeys, Vec<T>)>
    requires pairs { length entries.old.items ≡ length keys.old.texts }
    requires few { length keys.old.texts ≤ 16 }
    requires within { place ≤ length keys.old.texts }
    requires room { (0 < keys.old.room) × (vec_len entries.old < vec_capacity entries.old) }
    requires spare_keys { spare.keys.items ≡ [] }
    requires spare_entries { spare.entries.items ≡ [] }
    requires spare_room { 16 ≤ length keys.old.texts
        → (17 ≤ vec_capacity spare.keys) × (17 ≤ vec_capacity spare.entries) }
    ensures { Parted (insert (paired keys.old.texts entries.old.items) place added) keys.new.texts
        entries.new.items (option_map (λ u. (u.0.texts, u.1.items)) result) }
{
    let (key, entry) = added;
    keys.insert(place, key);
    let _ = entries.insert(place, entry);
    if entries.len() <= MOST {
        return None;
    }
    let SpareChunk {
        keys: texts,
        entries: mut upper,
    } = spare;
    let upper_keys = keys.split(texts);
    move_tail(entries, &mut upper);
    Some((upper_keys, upper))
}

/// Takes the entry at the place out. The keys become the chunk's own first; where memory is refused for
/// that, both lists are as they were.
pub fn remove_entry<T: Drop>(
    keys: &mut NodeKeys,
    entries: &mut Vec<T>,
    alloc: Global,
    place: usize,
) -> Result<(), AllocError>
    requires pairs { length entries.old.items ≡ length keys.old.texts }
    requires within { place < length keys.old.texts }
    ensures ok { OnOk result ((keys.new.texts ≡ remove keys.old.texts place)
        × (entries.new.items ≡ remove entries.old.items place)) }
    ensures err { OnErr result ((keys.new.texts ≡ keys.old.texts) × (entries.new.items ≡ entries.old.items)) }
{
    keys.make_room(alloc)?;
    keys.remove(place);
    let _ = entries.remove(place);
    Ok(())
}
