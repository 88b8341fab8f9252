//! Bodies that are read from token to token, with no tree of the whole: the usual ones.
//!
//! A response without an error that has its three fields, and in them whole numbers alone, is plain. A put's
//! value is written again from its tokens. That is its compact text where the names in it ascend; where they don't,
//! this one value is read as a tree, from its tokens too, as the cookie and the ids always are. Whatever else a body
//! may be is left to the reader of whole trees, and so are all refusals but for want of memory.
ghost use Rattle.std.specs.Prelude.{◌≡◌, ◌<◌, length, codes, bytes_eq, false, OnOk, IfOk, Ok};
ghost use Rattle.serde_json.specs.Data.{Members, object};
ghost use Rattle.serde_json.specs.View.{view};
ghost use Rattle.group_history.specs.Pull.{AreInRange};
ghost use Rattle.pull_patch.specs.Grammar as grammar;
ghost use Rattle.pull_patch.specs.Inside.Plain.{IsCookie, AreLastIds, ReadsCookie, ReadsChanges, ReadsBody};
ghost use Rattle.pull_patch.specs.Inside.Plain.{ReadsPart, ReadsParts, ArePartsOf};

mod copies;
mod numbers;
mod puts;
mod room;
mod stops;
mod trees;
mod values;
mod words;

use crate::changes::read_changes;
use crate::response::{is_cookie, joined};
use group_history::{Confirmed, Cookie, Patch, Refusal, Response, nests_within};
use json::{Reader, Scratch, Token};
use puts::read_patch;
use room::Room;
use serde_json::Value;
use simdutf8::compat::from_utf8;
use std::alloc::Global;
pub(crate) use stops::PlainStop;
use trees::read_tree;
use values::pass_value;

// What was found in a response so far.
#[derive(Drop)]
struct ResponseParts {
    cookie: Option<Cookie>,
    changes: Option<Vec<Confirmed>>,
    patch: Option<Vec<Patch>>,
}

fn cookie_of(alloc: Global, value: &Value) -> Result<Cookie, PlainStop>
    ensures { IfOk result (λ c. IsCookie (view value.now) c) }
{
    if !is_cookie(value) || !nests_within(value, 126) {
        return Err(PlainStop::NotPlain);
    }
    match Cookie::of(alloc, value)? {
        Some(cookie) => Ok(cookie),
        None => Err(PlainStop::NotPlain),
    }
}

fn changes_of(alloc: Global, value: &Value) -> Result<Vec<Confirmed>, PlainStop>
    ensures read { IfOk result (λ v. AreLastIds (view value.now) v.items) }
    ensures in_range { IfOk result (λ v. AreInRange v.items) }
{
    let Some(members) = value.as_object() else {
        return Err(PlainStop::NotPlain);
    };
    match read_changes(alloc, members) {
        Ok(Some(changes)) => Ok(changes),
        Err(Refusal::NoMemory) => Err(PlainStop::NoMemory),
        _ => Err(PlainStop::NotPlain),
    }
}

fn read_cookie(alloc: Global, reader: &mut Reader<'_>) -> Result<Cookie, PlainStop>
    ensures read { IfOk result (λ c. ReadsCookie reader.old c reader.new) }
    ensures shorter { OnOk result (length reader.new < length reader.old) }
{
    let mut ascends = true;
    let value = read_tree(alloc, reader, 126, &mut ascends)?;
    cookie_of(alloc, &value)
}

fn read_confirmed(alloc: Global, reader: &mut Reader<'_>) -> Result<Vec<Confirmed>, PlainStop>
    ensures read { IfOk result (λ v. ReadsChanges reader.old v.items reader.new) }
    ensures shorter { OnOk result (length reader.new < length reader.old) }
{
    let mut ascends = true;
    let value = read_tree(alloc, reader, 126, &mut ascends)?;
    changes_of(alloc, &value)
}

// Whether a field of this name was found. A second one makes a body not plain, so that cookies and ids are read once.
fn has_part(parts: &ResponseParts, name: &str) -> bool {
    match name {
        "cookie" => parts.cookie.is_some(),
        "lastMutationIDChanges" => parts.changes.is_some(),
        "patch" => parts.patch.is_some(),
        _ => false,
    }
}

// The value of a field of this name that is no patch.
fn read_small_part(
    alloc: Global,
    name: &str,
    reader: &mut Reader<'_>,
    parts: &mut ResponseParts,
    room: &mut Room,
) -> Result<(), PlainStop>
    requires other { bytes_eq name.now (codes "patch") ≡ false }
    ensures read { OnOk result (ReadsPart reader.old name.now parts.old parts.new reader.new) }
    ensures shorter { OnOk result (length reader.new < length reader.old) }
{
    if name == "cookie" {
        parts.cookie = Some(read_cookie(alloc, reader)?);
        return Ok(());
    }
    if name == "lastMutationIDChanges" {
        parts.changes = Some(read_confirmed(alloc, reader)?);
        return Ok(());
    }
    if name == "error" {
        return Err(PlainStop::NotPlain);
    }
    pass_value(alloc, reader, 126, room)
}

// The value of a field of this name.
fn read_part(
    alloc: Global,
    name: &str,
    reader: &mut Reader<'_>,
    parts: &mut ResponseParts,
    room: &mut Room,
) -> Result<(), PlainStop>
    ensures read { OnOk result (ReadsPart reader.old name.now parts.old parts.new reader.new) }
    ensures shorter { OnOk result (length reader.new < length reader.old) }
{
    if has_part(parts, name) {
        return Err(PlainStop::NotPlain);
    }
    if name == "patch" {
        parts.patch = Some(read_patch(alloc, reader, room)?);
        return Ok(());
    }
    read_small_part(alloc, name, reader, parts, room)
}

fn read_parts(
    alloc: Global,
    reader: &mut Reader<'_>,
    room: &mut Room,
) -> Result<ResponseParts, PlainStop>
    ensures { IfOk result (λ p. ReadsParts reader.old p reader.new) }
{
    let mut parts = ResponseParts {
        cookie: None,
        changes: None,
        patch: None,
    };
    'parts: while let Some(name) = reader.next_key()? {
        read_part(alloc, name, reader, &mut parts, room)?;
    }
    Ok(parts)
}

// The response of three parts.
fn response_of(parts: ResponseParts) -> Result<Response, PlainStop>
    requires { (ms : Members) × ArePartsOf parts ms }
    ensures { IfOk result (λ r. (ms : Members) → ArePartsOf parts ms → grammar.response_of (object ms) ≡ Ok r) }
{
    let ResponseParts {
        cookie,
        changes,
        patch,
    } = parts;
    match joined(cookie, changes, patch) {
        Ok(response) => Ok(response),
        Err(_missing) => Err(PlainStop::NotPlain),
    }
}

// The response that the tokens are, down to the last.
fn read_body(alloc: Global, reader: &mut Reader<'_>) -> Result<Response, PlainStop>
    ensures { IfOk result (λ r. ReadsBody reader.old r) }
{
    let Some(Token::BeginObject) = reader.next() else {
        return Err(PlainStop::NotPlain);
    };
    let mut room = Room::new(alloc);
    let parts = read_parts(alloc, reader, &mut room)?;
    match reader.next() {
        Some(_) => Err(PlainStop::NotPlain),
        None => response_of(parts),
    }
}

/// The response that a plain body is.
pub(crate) fn plain_response(alloc: Global, bytes: &[u8]) -> Result<Response, PlainStop>
    ensures { IfOk result (λ r. grammar.answer_to bytes.now ≡ Ok r) }
{
    let Ok(body) = from_utf8(bytes) else {
        return Err(PlainStop::NotPlain);
    };
    let mut scratch = Scratch::new(alloc);
    let mut reader = Reader::new(body, &mut scratch)?;
    read_body(alloc, &mut reader)
}
