//! What a run writes, where it comes as bytes: a bare list of operations, as in a patch but without `clear`.
//!
//! The list is read as a tree. As in a response, the shape of all is looked at before a number that isn't whole is
//! told.
ghost use Rattle.std.specs.Prelude.{◌≡◌, ◌≤◌, option_map, IfOk};
ghost use Rattle.serde_json.specs.Data.{items_depth};
ghost use Rattle.serde_json.specs.View.{view, items_view};
ghost use Rattle.group_history.specs.Answers.{AnswersSeen};
ghost use Rattle.pull_patch.specs.Writes as writes;
ghost use Rattle.pull_patch.specs.Inside.Parts.{edit_view, edit_depth};

use crate::operations::{Edit, edit_of, operation_of};
use group_history::{Json, Patch, Refusal, Text, nests_within, read_value};
use serde_json::Value;
use std::alloc::{AllocError, Global};

/// What a run writes, at one key.
#[derive(Drop)]
pub enum Write {
    /// The key has the value.
    Put(Text, Json),
    /// The key is not there, whether or not it was.
    Del(Text),
}

/// How deep a list may nest: two levels more than a value that is put.
const MAX_NESTING: u32 = 126;

#[tactic(auto, unfolding(crate::specs::Writes::write_edit))]
fn write_edit(value: &Value) -> Option<Edit<'_>>
    ensures { option_map edit_view result ≡ writes.write_edit (view value.now) }
{
    match edit_of(value) {
        Some(Edit::Clear) => None,
        edit => edit,
    }
}

// The write, or none where a number in what is put isn't whole.
fn write_of(alloc: Global, edit: Edit<'_>) -> Result<Option<Write>, AllocError>
    requires { edit_depth (edit_view edit) ≤ 124 }
    ensures { IfOk result (λ o. o ≡ writes.write_of (edit_view edit.entry)) }
{
    match operation_of(alloc, edit)? {
        Some(Patch::Put(key, value)) => Ok(Some(Write::Put(key, value))),
        Some(Patch::Del(key)) => Ok(Some(Write::Del(key))),
        Some(Patch::Clear) => Ok(None),
        None => Ok(None),
    }
}

fn list_writes(alloc: Global, items: &Vec<Value>) -> Result<Vec<Write>, Refusal>
    requires { items_depth (items_view items.now.items) ≤ 125 }
    ensures { AnswersSeen (λ v. v.items) result (writes.list_writes (items_view items.now.items)) }
{
    let mut writes = Vec::new(alloc);
    let mut whole = true;
    for item in items {
        let Some(edit) = write_edit(item) else {
            return Err(Refusal::BadShape);
        };
        match write_of(alloc, edit)? {
            Some(write) => writes.push(write)?,
            None => whole = false,
        }
    }
    if !whole {
        return Err(Refusal::NotWhole);
    }
    Ok(writes)
}

#[tactic(auto, unfolding(crate::specs::Writes::writes_of))]
fn writes_of(alloc: Global, value: &Value) -> Result<Vec<Write>, Refusal>
    ensures { AnswersSeen (λ v. v.items) result (writes.writes_of (view value.now)) }
{
    if !nests_within(value, MAX_NESTING) {
        return Err(Refusal::NotJson);
    }
    match value.as_array() {
        Some(items) => list_writes(alloc, items),
        None => Err(Refusal::BadShape),
    }
}

/// The writes that bytes say, in the order in which they are done: a JSON array of operations `put` and `del` as in
/// the patch of a pull's response (Pull Endpoint Reference, "patch"). Refused with NotJson where the bytes are no JSON
/// text (RFC 8259) or nest deeper than 126; then with BadShape where they are no array of such operations, as with a
/// `clear`; then with NotWhole where a number in a value that is put isn't whole. Fields that no rule speaks of are
/// ignored. NoMemory may come in place of any answer.
#[tactic(auto, unfolding(crate::specs::Writes::writes_in))]
pub fn read_writes(alloc: Global, bytes: &[u8]) -> Result<Vec<Write>, Refusal>
    ensures { AnswersSeen (λ v. v.items) result (writes.writes_in bytes.now) }
{
    let value = read_value(alloc, bytes)?;
    writes_of(alloc, &value)
}
