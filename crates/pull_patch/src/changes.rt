//! The confirmed ids of clients.
ghost use Rattle.std.specs.Prelude.{◌≡◌, ◌≤◌, ◌^◌, option_map, true, IfOk, IfSome};
ghost use Rattle.serde_json.specs.View.{view, number_view, members_view};
ghost use Rattle.group_history.specs.Answers.{AnswersSeen};
ghost use Rattle.group_history.specs.Pull.{AreInRange};
ghost use Rattle.pull_patch.specs.Changes as changes;
ghost use Rattle.pull_patch.specs.Inside.Parts.{changes_part};

use group_history::{Confirmed, Refusal, Text};
use serde_json::{Map, Number, Value};
use std::alloc::{AllocError, Global};

/// The highest id that a response may name: 2^52.
const MAX_ID: u64 = 4_503_599_627_370_496;

fn id_in_range(number: &Number) -> bool
    ensures { result ≡ changes.id_in_range (number_view number.now) }
{
    match number.as_u64() {
        Some(id) => id <= MAX_ID,
        None => number.is_f64(),
    }
}

#[tactic(auto, unfolding(crate::specs::Changes::id_of))]
fn id_of(value: &Value) -> Option<&Number>
    ensures value { option_map (λ n. number_view n.now) result ≡ changes.id_of (view value.now) }
    ensures in_range { IfSome result (λ n. changes.id_in_range (number_view n.now) ≡ true) }
{
    match value.as_number() {
        Some(number) if id_in_range(number) => Some(number),
        _ => None,
    }
}

// The confirmed id, or none where it isn't whole.
#[tactic(auto, unfolding(crate::specs::Changes::confirmed_said))]
fn change_of(alloc: Global, name: &str, number: &Number) -> Result<Option<Confirmed>, AllocError>
    requires { changes.id_in_range (number_view number.now) ≡ true }
    ensures value { IfOk result (λ o. o ≡ changes.confirmed_said (changes.entry name.now (number_view number.now))) }
    ensures in_range { IfOk result (λ o. IfSome o (λ c. c.id ≤ 2 ^ 52)) }
{
    match number.as_u64() {
        Some(id) => {
            let client = Text::new(alloc, name)?;
            Ok(Some(Confirmed { client, id }))
        }
        None => Ok(None),
    }
}

/// The confirmed ids in the order of the clients' names, or none where one isn't whole. A value that is
/// no number, or out of range, is refused with BadShape, whatever numbers stand before it.
pub(crate) fn read_changes(
    alloc: Global,
    members: &Map<String, Value>,
) -> Result<Option<Vec<Confirmed>>, Refusal>
    ensures value { AnswersSeen (option_map (λ v. v.items)) result (changes_part (members_view members.now.entries)) }
    ensures in_range { IfOk result (λ o. IfSome o (λ v. AreInRange v.items)) }
{
    let mut changes = Vec::new(alloc);
    let mut whole = true;
    for (name, member) in members.iter() {
        let Some(number) = id_of(member) else {
            return Err(Refusal::BadShape);
        };
        match change_of(alloc, name.as_str(), number)? {
            Some(change) => changes.push(change)?,
            None => whole = false,
        }
    }
    if !whole {
        return Ok(None);
    }
    Ok(Some(changes))
}
