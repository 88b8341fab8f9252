//! A pull's response: its cookie, its three fields, its errors, and the whole of it.
ghost use Rattle.std.specs.Prelude.{◌≡◌, ◌≤◌, option_map, IfOk, IfSome};
ghost use Rattle.serde_json.specs.Data.{depth};
ghost use Rattle.serde_json.specs.View.{view};
ghost use Rattle.group_history.specs.Answers.{AnswersOrNoMemory, AnswersSeen};
ghost use Rattle.group_history.specs.Pull.{AreInRange};
ghost use Rattle.pull_patch.specs.Grammar as grammar;
ghost use Rattle.pull_patch.specs.Inside.Parts as parts;

use crate::changes::read_changes;
use crate::fields::{array_at, text_at};
use crate::operations::read_patch;
use crate::plain::{PlainStop, plain_response};
use group_history::{Confirmed, Cookie, Patch, PullOk, Refusal, Response, VersionKind, read_value};
use serde_json::Value;
use std::alloc::Global;

fn is_plain_order(value: &Value) -> bool
    ensures { result ≡ grammar.is_plain_order (view value.now) }
{
    matches!(value, Value::Number(_) | Value::String(_))
}

pub(crate) fn is_cookie(value: &Value) -> bool
    ensures { result ≡ grammar.is_cookie (view value.now) }
{
    match value {
        Value::Null | Value::Number(_) | Value::String(_) => true,
        Value::Bool(_) | Value::Array(_) => false,
        Value::Object(_) => match value.get("order") {
            Some(order) => is_plain_order(order),
            None => false,
        },
    }
}

// Each field is refused with BadShape where it has not its shape, and is none where a number isn't whole.

#[tactic(auto, unfolding(crate::specs::Inside::Parts::cookie_field, crate::specs::Grammar::cookie_said))]
fn cookie_field(alloc: Global, value: &Value) -> Result<Option<Cookie>, Refusal>
    requires { depth (view value.now) ≤ 127 }
    ensures { AnswersOrNoMemory result (parts.cookie_field (view value.now)) }
{
    match value.get("cookie") {
        Some(cookie) if is_cookie(cookie) => Ok(Cookie::of(alloc, cookie)?),
        _ => Err(Refusal::BadShape),
    }
}

#[tactic(auto, unfolding(crate::specs::Inside::Parts::changes_field, crate::specs::Inside::Parts::changes_part))]
fn changes_field(alloc: Global, value: &Value) -> Result<Option<Vec<Confirmed>>, Refusal>
    ensures value { AnswersSeen (option_map (λ v. v.items)) result (parts.changes_field (view value.now)) }
    ensures in_range { IfOk result (λ o. IfSome o (λ v. AreInRange v.items)) }
{
    match value
        .get("lastMutationIDChanges")
        .and_then(Value::as_object)
    {
        Some(members) => read_changes(alloc, members),
        None => Err(Refusal::BadShape),
    }
}

#[tactic(auto, unfolding(crate::specs::Inside::Parts::patch_field, crate::specs::Inside::Parts::patch_part))]
fn patch_field(alloc: Global, value: &Value) -> Result<Option<Vec<Patch>>, Refusal>
    requires { depth (view value.now) ≤ 127 }
    ensures { AnswersSeen (option_map (λ v. v.items)) result (parts.patch_field (view value.now)) }
{
    match array_at(value, "patch") {
        Some(items) => read_patch(alloc, items),
        None => Err(Refusal::BadShape),
    }
}

// A response without an error. All three fields are read before a number that isn't whole is told, so
// the shape goes first.
fn pull_response(alloc: Global, value: &Value) -> Result<Response, Refusal>
    requires { depth (view value.now) ≤ 127 }
    ensures { AnswersOrNoMemory result (grammar.pull_response (view value.now)) }
{
    let read_cookie = cookie_field(alloc, value)?;
    let read_changes = changes_field(alloc, value)?;
    let read_patch = patch_field(alloc, value)?;
    joined(read_cookie, read_changes, read_patch)
}

// The response of three fields, if no number in them that counts isn't whole.
pub(crate) fn joined(
    cookie: Option<Cookie>,
    changes: Option<Vec<Confirmed>>,
    patch: Option<Vec<Patch>>,
) -> Result<Response, Refusal>
    requires { IfSome changes (λ v. AreInRange v.items) }
    ensures { result ≡ parts.united cookie (option_map (λ v. v.items) changes) (option_map (λ v. v.items) patch) }
{
    let Some(cookie) = cookie else {
        return Err(Refusal::NotWhole);
    };
    let Some(changes) = changes else {
        return Err(Refusal::NotWhole);
    };
    let Some(patch) = patch else {
        return Err(Refusal::NotWhole);
    };
    Ok(Response::Ok(PullOk::new(cookie, changes, patch)))
}

#[tactic(auto, unfolding(crate::specs::Grammar::kind_of))]
fn kind_of(value: &Value) -> VersionKind
    ensures { result ≡ grammar.kind_of (view value.now) }
{
    let Some(name) = text_at(value, "versionType") else {
        return VersionKind::Unknown;
    };
    if name == "push" {
        return VersionKind::Push;
    }
    if name == "pull" {
        return VersionKind::Pull;
    }
    if name == "schema" {
        return VersionKind::Schema;
    }
    VersionKind::Unknown
}

#[tactic(auto, unfolding(crate::specs::Grammar::error_of))]
fn error_of(error: &Value, value: &Value) -> Result<Response, Refusal>
    ensures { AnswersOrNoMemory result (grammar.error_of (view error.now) (view value.now)) }
{
    let Some(name) = error.as_str() else {
        return Err(Refusal::BadShape);
    };
    if name == "ClientStateNotFound" {
        return Ok(Response::StateNotFound);
    }
    if name == "VersionNotSupported" {
        return Ok(Response::VersionNotSupported(kind_of(value)));
    }
    Err(Refusal::BadShape)
}

#[tactic(auto, unfolding(crate::specs::Grammar::response_of))]
fn response_of(alloc: Global, value: &Value) -> Result<Response, Refusal>
    requires { depth (view value.now) ≤ 127 }
    ensures { AnswersOrNoMemory result (grammar.response_of (view value.now)) }
{
    match value.get("error") {
        Some(error) => error_of(error, value),
        None => pull_response(alloc, value),
    }
}

/// The response that a pull's body is (Pull Endpoint Reference, version 1). Refused with NotJson where the
/// bytes are no JSON text (RFC 8259) or nest deeper than 127; then with BadShape where a field that the
/// response needs is missing, of a wrong type or out of range, or where `error` is unknown; then with
/// NotWhole where a number isn't whole in the cookie, in a confirmed id or in a value that is put. Fields
/// that no rule speaks of are ignored, but for those of a cookie. Of two fields of one name the last counts.
/// NoMemory may come in place of any answer.
#[tactic(auto, unfolding(crate::specs::Grammar::answer_to))]
pub fn read_response(alloc: Global, bytes: &[u8]) -> Result<Response, Refusal>
    ensures { AnswersOrNoMemory result (grammar.answer_to bytes.now) }
{
    match plain_response(alloc, bytes) {
        Ok(response) => return Ok(response),
        Err(PlainStop::NoMemory) => return Err(Refusal::NoMemory),
        Err(PlainStop::NotPlain) => {}
    }
    let value = read_value(alloc, bytes)?;
    response_of(alloc, &value)
}
