//! A key's place among keys in order.
ghost use Rattle.std.specs.Prelude.{◌≡◌, ◌<◌, List, length, IfOk, IfErr, T, is_some};
ghost use Rattle.std.specs.Ordering.{nat_cmp};
ghost use Rattle.std.specs.Cmp.Lexicographic.{slice_cmp};
ghost use Rattle.std.specs.FinMap as finite;
ghost use Rattle.group_history.specs.Map.{Bytes};
ghost use Rattle.group_history.specs.Rows.{rises, paired};
ghost use Rattle.map_chunks.specs.Search.{IsRank, IsPlace, IsFound, IsAbsent};

use group_history::{Json, SearchKey, Text};
use std::alloc::AllocError;
use std::cmp::Ordering;

/// How many of the keys aren't above this one.
#[inline(always)]
fn rank(keys: &[Text], key: &SearchKey<'_>) -> usize
    ensures { IsRank key.now keys.now result }
{
    let mut low = 0;
    let mut high = keys.len();
    while low < high {
        let middle = low + (high - low) / 2;
        if key.is_below(&keys[middle]) {
            high = middle;
        } else {
            low = middle + 1;
        }
    }
    low
}

/// The place of the child to which a key belongs: the last whose first key isn't above it, else the first.
pub fn place_of(keys: &[Text], key: &str) -> usize
    requires filled { 0 < length keys.now }
    requires order { T (rises keys.now) }
    ensures { IsPlace key.now keys.now result }
{
    place_for(keys, &SearchKey::new(key))
}

/// The same, of a key whose first bytes were read already.
#[inline(always)]
pub fn place_for(keys: &[Text], key: &SearchKey<'_>) -> usize
    requires filled { 0 < length keys.now }
    requires order { T (rises keys.now) }
    ensures { IsPlace key.now keys.now result }
{
    let rank = rank(keys, key);
    if rank == 0 { 0 } else { rank - 1 }
}

/// Where a key stands, or the place before which it would have to be put.
pub fn search(keys: &[Text], key: &str) -> Result<usize, usize>
    ensures found { IfOk result (IsFound key.now keys.now) }
    ensures absent { IfErr result (IsAbsent key.now keys.now) }
{
    search_for(keys, &SearchKey::new(key))
}

/// The same, of a key whose first bytes were read already.
pub fn search_for(keys: &[Text], key: &SearchKey<'_>) -> Result<usize, usize>
    ensures found { IfOk result (IsFound key.now keys.now) }
    ensures absent { IfErr result (IsAbsent key.now keys.now) }
{
    let mut low = 0;
    let mut high = keys.len();
    while low < high {
        let middle = low + (high - low) / 2;
        match key.order_of(&keys[middle]) {
            Ordering::Less => low = middle + 1,
            Ordering::Equal => return Ok(middle),
            Ordering::Greater => high = middle,
        }
    }
    Err(low)
}

/// Whether a key is among these, one whose first bytes were read already.
pub fn has_key(keys: &[Text], key: &SearchKey<'_>) -> bool
    requires order { T (rises keys.now) }
    ensures { (values : List Bytes) → length values ≡ length keys.now
        → result ≡ is_some (finite.find (slice_cmp nat_cmp) key.now (paired keys.now values)) }
{
    search_for(keys, key).is_ok()
}

/// The value at a key, copied, if it is there.
pub fn value_at(keys: &[Text], values: &[Json], key: &str) -> Result<Option<Json>, AllocError>
    requires order { T (rises keys.now) }
    requires values { length values.now ≡ length keys.now }
    ensures { IfOk result (λ v. v ≡ finite.find (slice_cmp nat_cmp) key.now (paired keys.now values.now)) }
{
    value_for(keys, values, &SearchKey::new(key))
}

/// The same, of a key whose first bytes were read already.
pub(crate) fn value_for(
    keys: &[Text],
    values: &[Json],
    key: &SearchKey<'_>,
) -> Result<Option<Json>, AllocError>
    requires order { T (rises keys.now) }
    requires values { length values.now ≡ length keys.now }
    ensures { IfOk result (λ v. v ≡ finite.find (slice_cmp nat_cmp) key.now (paired keys.now values.now)) }
{
    match search_for(keys, key) {
        Ok(place) => Ok(Some(values[place].clone()?)),
        Err(_) => Ok(None),
    }
}
