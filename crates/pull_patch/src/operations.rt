//! The operations of a patch. Their shape is looked at first, in the tree that was read; only an
//! operation of the right shape is copied out of it.
ghost use Rattle.std.specs.Prelude.{◌≡◌, ◌≤◌, option_map, IfOk};
ghost use Rattle.serde_json.specs.Data.{items_depth};
ghost use Rattle.serde_json.specs.View.{view, items_view};
ghost use Rattle.group_history.specs.Answers.{AnswersSeen};
ghost use Rattle.pull_patch.specs.Operations as operations;
ghost use Rattle.pull_patch.specs.Inside.Parts.{edit_view, edit_depth, patch_part};

use crate::fields::text_at;
use group_history::{Json, Patch, Refusal, Text, is_whole};
use serde_json::Value;
use std::alloc::{AllocError, Global};

// An operation of the right shape, in the tree.
pub(crate) enum Edit<'a> {
    Put(&'a str, &'a Value),
    Del(&'a str),
    Clear,
}

#[tactic(auto, unfolding(crate::specs::Operations::put_of))]
fn put_of(value: &Value) -> Option<Edit<'_>>
    ensures { option_map edit_view result ≡ operations.put_of (view value.now) }
{
    match (text_at(value, "key"), value.get("value")) {
        (Some(key), Some(written)) => Some(Edit::Put(key, written)),
        _ => None,
    }
}

#[tactic(auto, unfolding(crate::specs::Operations::del_of))]
fn del_of(value: &Value) -> Option<Edit<'_>>
    ensures { option_map edit_view result ≡ operations.del_of (view value.now) }
{
    match text_at(value, "key") {
        Some(key) => Some(Edit::Del(key)),
        None => None,
    }
}

#[tactic(auto, unfolding(crate::specs::Operations::edit_of))]
pub(crate) fn edit_of(value: &Value) -> Option<Edit<'_>>
    ensures { option_map edit_view result ≡ operations.edit_of (view value.now) }
{
    let Some(name) = text_at(value, "op") else {
        return None;
    };
    if name == "put" {
        return put_of(value);
    }
    if name == "del" {
        return del_of(value);
    }
    if name == "clear" {
        return Some(Edit::Clear);
    }
    None
}

// The operation, or none where a number in what is put isn't whole.
#[tactic(auto, unfolding(crate::specs::Operations::operation_of))]
pub(crate) fn operation_of(alloc: Global, edit: Edit<'_>) -> Result<Option<Patch>, AllocError>
    requires { edit_depth (edit_view edit) ≤ 124 }
    ensures { IfOk result (λ o. o ≡ operations.operation_of (edit_view edit.entry)) }
{
    match edit {
        Edit::Put(key, value) => {
            if !is_whole(value) {
                return Ok(None);
            }
            let key = Text::new(alloc, key)?;
            Ok(Some(Patch::Put(key, Json::of_whole(alloc, value)?)))
        }
        Edit::Del(key) => Ok(Some(Patch::Del(Text::new(alloc, key)?))),
        Edit::Clear => Ok(Some(Patch::Clear)),
    }
}

/// The operations of a patch, or none where a number in them isn't whole. One that isn't of the right
/// shape is refused with BadShape, whatever numbers stand before it.
pub(crate) fn read_patch(alloc: Global, items: &Vec<Value>) -> Result<Option<Vec<Patch>>, Refusal>
    requires { items_depth (items_view items.now.items) ≤ 125 }
    ensures { AnswersSeen (option_map (λ v. v.items)) result (patch_part (items_view items.now.items)) }
{
    let mut patch = Vec::new(alloc);
    let mut whole = true;
    for item in items {
        let Some(edit) = edit_of(item) else {
            return Err(Refusal::BadShape);
        };
        match operation_of(alloc, edit)? {
            Some(operation) => patch.push(operation)?,
            None => whole = false,
        }
    }
    if !whole {
        return Ok(None);
    }
    Ok(Some(patch))
}
