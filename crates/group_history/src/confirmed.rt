//! An id for each client: the one that a server confirmed, or its last one. They are shared between commits.
//!
//! Commits that follow one another differ in few of them: so the table is shared, and what is newer stands above it,
//! until that is too much.
ghost use Rattle.std.specs.Prelude.{◌≡◌, IfOk, IfSome};
ghost use Rattle.std.specs.FinMap as map;
ghost use Rattle.group_history.specs.Inside.Newer.{ids_above, newest_at, with_newer};
ghost use Rattle.group_history.specs.State.{confirmed_id};
ghost use Rattle.group_history.specs.Pulling.{goes_back, overwritten};

use crate::id_table::IdTable;
use crate::responses::Confirmed;
use crate::steps;
use crate::text_map::TextMap;
use crate::texts::Text;
use std::alloc::{AllocError, Global};
use std::marker::Model;
use std::sync::Arc;

/// How many ids may stand above a table: a copy of them is a small part of a table's.
const MOST_NEWER: usize = 64;

/// Each client's confirmed id, or its last one. A clone shares the table, and copies what stands above it.
pub struct ConfirmedIds {
    table: Arc<IdTable>,
    newer: Vec<NewerId>,
}

/// An id above the table's, of the client in the row at this place.
#[derive(Clone, Copy)]
struct NewerId {
    place: usize,
    id: u64,
}

impl Drop for ConfirmedIds {
    fn drop(self) {
        let ConfirmedIds { table, newer } = self;
        drop(table);
        drop(newer);
    }
}

impl Model for ConfirmedIds {
    ghost use Rattle.std.specs.Arc.{arc_value};
    ghost use Rattle.group_history.specs.Inside.Newer.{ids_above};
    ghost use Rattle.group_history.specs.State.{Ids, ids_coded};

    ghost Value = { Ids };

    ghost coded = { ids_coded };

    ghost view = { λ c. ids_above (arc_value c.table) c.newer.items };
}

// The newest of the ids at a place, or else this one.
fn newest_at(newer: &[NewerId], place: usize, id: u64) -> u64
    ensures { result ≡ newest_at place newer.now id }
{
    let mut newest = id;
    for one in newer {
        if one.place == place {
            newest = one.id;
        }
    }
    newest
}

// A client's id, 0 where there is none.
fn id_of(table: &IdTable, newer: &[NewerId], client: &Text) -> u64
    ensures { result ≡ confirmed_id (ids_above table.now newer.now) client.now }
{
    match table.place(client) {
        Some(place) => newest_at(newer, place, *table.as_map().value_at(place)),
        None => 0,
    }
}

// A copy of the table, with the newer ids in their rows.
fn flat(table: &IdTable, newer: &[NewerId]) -> Result<TextMap<u64>, AllocError>
    ensures { IfOk result (λ ids. map.entries ids ≡ with_newer (map.entries table.now) newer.now) }
{
    let mut ids = table.as_map().copied()?;
    for one in newer {
        ids.set_at(one.place, one.id);
    }
    Ok(ids)
}

// What stands above the table after the changes; none where it would be too much, or where the table lacks a client.
fn with_more(
    alloc: Global,
    table: &IdTable,
    newer: &[NewerId],
    changes: &[Confirmed],
) -> Result<Option<Vec<NewerId>>, AllocError>
    ensures { IfOk result (λ more. IfSome more (λ all. ids_above table.now all.items
        ≡ overwritten (ids_above table.now newer.now) changes.now)) }
{
    if changes.len() > MOST_NEWER.saturating_sub(newer.len()) {
        return Ok(None);
    }
    let mut all = Vec::with_capacity(alloc, newer.len() + changes.len())?;
    all.extend_from_slice(newer)?;
    for change in changes {
        let Some(place) = table.place(&change.client) else {
            return Ok(None);
        };
        all.push(NewerId {
            place,
            id: change.id,
        })?;
    }
    Ok(Some(all))
}

impl ConfirmedIds {
    /// The ids of a map, from now on shared; none is copied.
    pub fn new(alloc: Global, ids: TextMap<u64>) -> Result<ConfirmedIds, AllocError>
        ensures { IfOk result (λ c. c ≡ ids) }
    {
        let ids = IdTable::new(alloc, ids)?;
        let table = Arc::new(alloc, ids)?;
        Ok(ConfirmedIds {
            table,
            newer: Vec::new(alloc),
        })
    }

    /// The confirmed ids by the clients' IDs: a copy of all.
    pub fn to_map(&self) -> Result<TextMap<u64>, AllocError>
        ensures { IfOk result (λ ids. ids ≡ self.now) }
    {
        flat(&self.table, &self.newer)
    }

    /// A client's confirmed id, 0 where there is none.
    pub fn of(&self, client: &Text) -> u64
        ensures { result ≡ confirmed_id self.now client.now }
    {
        id_of(&self.table, &self.newer, client)
    }

    /// Whether some change is below the confirmed id of its client.
    pub fn is_above_some(&self, changes: &[Confirmed]) -> bool
        ensures { result ≡ goes_back self.now changes.now }
    {
        changes.iter().any(|c| c.id < self.of(&c.client))
    }

    /// The ids after the changes, in order. The table is copied only where it lacks a client, or where too many newer ids
    /// would stand above it.
    pub fn overwritten(
        &self,
        alloc: Global,
        changes: &[Confirmed],
    ) -> Result<ConfirmedIds, AllocError>
        ensures { IfOk result (λ c. c ≡ overwritten self.now changes.now) }
    {
        if let Some(newer) = with_more(alloc, &self.table, &self.newer, changes)? {
            let table = self.table.clone()?;
            return Ok(ConfirmedIds { table, newer });
        }
        let ids = steps::overwrite(self.to_map()?, changes)?;
        ConfirmedIds::new(alloc, ids)
    }
}

impl Clone for ConfirmedIds {
    ghost is_clone = { λ c copy. copy ≡ c };

    fn clone(&self) -> Result<ConfirmedIds, AllocError> {
        let table = self.table.clone()?;
        let newer = self.newer.clone()?;
        Ok(ConfirmedIds { table, newer })
    }
}
