//! A table of clients' ids, in which a client's row is mostly found without a search.
ghost use Rattle.std.specs.Prelude.{◌≡◌, None, IfOk, IfSome};
ghost use Rattle.std.specs.FinMap as map;
ghost use Rattle.group_history.specs.Inside.TextRows.{IsRowAt};

use crate::text_map::TextMap;
use crate::texts::Text;
use std::alloc::{AllocError, Global};
use std::marker::Model;

/// So few rows are searched as soon.
const FEW: usize = 8;

/// Ids by the clients' IDs, and where their rows may be.
pub(crate) struct IdTable {
    ids: TextMap<u64>,
    // At each client's spot the place of its row, or of another one's with the same spot.
    spots: Vec<u32>,
}

impl Drop for IdTable {
    fn drop(self) {
        let IdTable { ids, spots } = self;
        drop(ids);
        drop(spots);
    }
}

impl Model for IdTable {
    ghost use Rattle.group_history.specs.State.{Ids, ids_coded};

    ghost Value = { Ids };

    ghost coded = { ids_coded };

    ghost view = { λ t. t.ids };
}

// A number that differs between IDs which differ in their first or last eight bytes.
fn mixed(client: &Text) -> u64 {
    let bytes = client.as_str().as_bytes();
    match (bytes.first_chunk::<8>(), bytes.last_chunk::<8>()) {
        (Some(first), Some(last)) => {
            let first = u64::from_le_bytes(*first).wrapping_mul(0x9e37_79b9_7f4a_7c15);
            (first ^ u64::from_le_bytes(*last)).wrapping_mul(0x9e37_79b9_7f4a_7c15) >> 32
        }
        _ => 0,
    }
}

// The spot of a client among so many, a power of two.
fn spot_of(client: &Text, spots: usize) -> usize {
    mixed(client) as usize & spots.wrapping_sub(1)
}

// Four spots for each row, so that few have the same.
fn spots_of(alloc: Global, ids: &TextMap<u64>) -> Result<Vec<u32>, AllocError> {
    let rows = ids.len();
    if rows < FEW || rows > u32::MAX as usize / 8 {
        return Ok(Vec::new(alloc));
    }
    let mut spots = Vec::from_elem(alloc, 0, rows.next_power_of_two() * 4)?;
    for place in 0..rows {
        let spot = spot_of(ids.key_at(place), spots.len());
        if let Some(here) = spots.get_mut(spot) {
            *here = place as u32;
        }
    }
    Ok(spots)
}

impl IdTable {
    /// A table of these ids.
    pub(crate) fn new(alloc: Global, ids: TextMap<u64>) -> Result<IdTable, AllocError>
        ensures { IfOk result (λ t. t ≡ ids) }
    {
        let spots = spots_of(alloc, &ids)?;
        Ok(IdTable { ids, spots })
    }

    /// The ids.
    pub(crate) fn as_map(&self) -> &TextMap<u64>
        ensures { result.now ≡ self.now }
    {
        &self.ids
    }

    /// The place of a client's row; none where the client has none.
    pub(crate) fn place(&self, client: &Text) -> Option<usize>
        ensures found { IfSome result (IsRowAt (map.entries self.now) client.now) }
        ensures none { result ≡ None → map.get self.now client.now ≡ None }
    {
        if let Some(spot) = self.spots.get(spot_of(client, self.spots.len())) {
            let place = *spot as usize;
            if self.ids.is_at(place, client) {
                return Some(place);
            }
        }
        self.ids.place(client)
    }
}
