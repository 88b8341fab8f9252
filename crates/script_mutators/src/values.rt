//! What JSON texts are, and the JSON texts of numbers and texts.
ghost use Rattle.std.specs.Prelude.{◌≡◌, ◌≤◌, false, Some, IfOk, IfErr, option_map, option_and_then, string_bytes};
ghost use Rattle.std.specs.Fmt.{signed_decimal};
ghost use Rattle.serde_json.specs.Data.{depth, string};
ghost use Rattle.serde_json.specs.Find.{as_str};
ghost use Rattle.serde_json.specs.View.{view as data_of};
ghost use Rattle.serde_json.specs.Written.{has_float, compact_text};
ghost use Rattle.group_history.specs.declared.mutators.Stop.TheVariants.{NoMemory};
ghost use Rattle.group_history.specs.Meaning.{value_of};
ghost use Rattle.script_mutators.specs.Mutators as spec;

use crate::plain::{plain_number, plain_text};
use group_history::{Json, Stop};
use itoa::Buffer;
use serde_json::Value;
use std::alloc::{AllocError, Global};

/// The number that a JSON text is, where it is one from -2^63 to 2^63 - 1.
pub(crate) fn number_in(alloc: Global, json: &Json) -> Result<Option<i64>, Stop>
    ensures ok { IfOk result (λ number. number ≡ option_and_then spec.number_of (value_of json.now)) }
    ensures stopped { IfErr result (λ stop. stop ≡ NoMemory) }
{
    if let Some(number) = plain_number(json.text()) {
        return Ok(Some(number));
    }
    let value = json.value(alloc)?;
    Ok(value.as_i64())
}

/// A copy of the text that is there, the empty one where nothing is; `None` where it is no text.
#[tactic(auto, unfolding(crate::specs::Mutators::text_there))]
pub(crate) fn text_there(alloc: Global, there: Option<Json>) -> Result<Option<String>, Stop>
    ensures ok { IfOk result (λ text. option_map string_bytes text ≡ spec.text_there there) }
    ensures stopped { IfErr result (λ stop. stop ≡ NoMemory) }
{
    match there {
        Some(there) => text_in(alloc, &there),
        None => Ok(Some(String::new(alloc))),
    }
}

/// A copy of the text that a JSON text is, where it is one.
fn text_in(alloc: Global, json: &Json) -> Result<Option<String>, Stop>
    ensures ok { IfOk result (λ text. option_map string_bytes text ≡ option_and_then as_str (value_of json.now)) }
    ensures stopped { IfErr result (λ stop. stop ≡ NoMemory) }
{
    if let Some(text) = plain_text(json.text()) {
        return Ok(Some(String::from_str(alloc, text)?));
    }
    let value = json.value(alloc)?;
    match value.as_str() {
        Some(text) => Ok(Some(String::from_str(alloc, text)?)),
        None => Ok(None),
    }
}

/// The JSON text of a number.
pub(crate) fn decimal(alloc: Global, number: i64) -> Result<Json, AllocError>
    ensures { IfOk result (λ json. json ≡ signed_decimal number) }
{
    let mut digits = Buffer::new();
    Json::of_compact(alloc, digits.format(number))
}

/// The JSON text of a text.
pub(crate) fn quoted(alloc: Global, text: String) -> Result<Json, AllocError>
    ensures { IfOk result (λ json. json ≡ compact_text (string (string_bytes text))) }
{
    Json::of_whole(alloc, &Value::String(text))
}
