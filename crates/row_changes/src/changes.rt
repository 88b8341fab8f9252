//! The changes between two lists of rows, by a merge of the two.
//!
//! Of the first rows that are left of each list, the one of the lower key is told: as removed where it stands in the
//! old list, as added where it stands in the new one. Two rows of one key are told where their values differ. What is
//! left of one list at the end is told whole.
ghost use Rattle.std.specs.Prelude.{◌≡◌, [], ◌∷◌, ◌++◌, map, T, IfOk, OnOk};
ghost use Rattle.group_history.specs.Rows.{keys_of, rises};
ghost use Rattle.row_changes.specs.Changes.{AreChanges};
ghost use Rattle.row_changes.specs.Inside.{addition, met, removal};

use group_history::{Json, Text};
use std::alloc::{AllocError, Global};
use std::cmp::Ordering;

/// What changed at a key: the value that it had, and the value that it has. `None` where the key was not there, or is
/// not there any more.
#[derive(Clone, Drop)]
pub struct RowChange {
    pub key: Text,
    pub old: Option<Json>,
    pub new: Option<Json>,
}

// A row that is not there any more.
fn tell_removed(changes: &mut Vec<RowChange>, row: &(Text, Json)) -> Result<(), AllocError>
    ensures { OnOk result (changes.new.items ≡ changes.old.items ++ removal row.now ∷ []) }
{
    let key = row.0.clone()?;
    let old = Some(row.1.clone()?);
    let change = RowChange {
        key,
        old,
        new: None,
    };
    Ok(changes.push(change)?)
}

// A row that was not there.
fn tell_added(changes: &mut Vec<RowChange>, row: &(Text, Json)) -> Result<(), AllocError>
    ensures { OnOk result (changes.new.items ≡ changes.old.items ++ addition row.now ∷ []) }
{
    let key = row.0.clone()?;
    let new = Some(row.1.clone()?);
    let change = RowChange {
        key,
        old: None,
        new,
    };
    Ok(changes.push(change)?)
}

// Two rows of one key.
fn tell_met(
    changes: &mut Vec<RowChange>,
    old: &(Text, Json),
    new: &(Text, Json),
) -> Result<(), AllocError>
    ensures { OnOk result (changes.new.items ≡ changes.old.items ++ met old.now new.now) }
{
    if old.1 == new.1 {
        return Ok(());
    }
    let key = old.0.clone()?;
    let old = Some(old.1.clone()?);
    let new = Some(new.1.clone()?);
    Ok(changes.push(RowChange { key, old, new })?)
}

fn tell_all_removed(changes: &mut Vec<RowChange>, rows: &[(Text, Json)]) -> Result<(), AllocError>
    ensures { OnOk result (changes.new.items ≡ changes.old.items ++ map removal rows.now) }
{
    for row in rows {
        tell_removed(changes, row)?;
    }
    Ok(())
}

fn tell_all_added(changes: &mut Vec<RowChange>, rows: &[(Text, Json)]) -> Result<(), AllocError>
    ensures { OnOk result (changes.new.items ≡ changes.old.items ++ map addition rows.now) }
{
    for row in rows {
        tell_added(changes, row)?;
    }
    Ok(())
}

/// What changed from the old rows to the new ones, in the order of the keys: each key whose value is another, or that
/// one of the lists alone has, and no other key. Values are compared by their compact texts. Takes time for each row
/// once.
pub fn changes_of(
    alloc: Global,
    old: &[(Text, Json)],
    new: &[(Text, Json)],
) -> Result<Vec<RowChange>, AllocError>
    requires old_rises { T (rises (keys_of old.now)) }
    requires new_rises { T (rises (keys_of new.now)) }
    ensures { IfOk result (λ changes. AreChanges old.now new.now changes.items) }
{
    let mut changes = Vec::new(alloc);
    let mut i = 0;
    let mut j = 0;
    while i < old.len() && j < new.len() {
        match old[i].0.cmp(&new[j].0) {
            Ordering::Less => {
                tell_removed(&mut changes, &old[i])?;
                i += 1;
            }
            Ordering::Greater => {
                tell_added(&mut changes, &new[j])?;
                j += 1;
            }
            Ordering::Equal => {
                tell_met(&mut changes, &old[i], &new[j])?;
                i += 1;
                j += 1;
            }
        }
    }
    tell_all_removed(&mut changes, &old[i..])?;
    tell_all_added(&mut changes, &new[j..])?;
    Ok(changes)
}
