//! Single values of a body.
ghost use Rattle.std.specs.Prelude.{◌≡◌, ◌<◌, ◌≤◌, ℕ, length, OnOk, IfOk, IsUtf8};
ghost use Rattle.serde_json.specs.Data.{string};
ghost use Rattle.pull_patch.specs.Inside.Plain.{ReadsValue, ReadsText, PassesValue};

use super::copies::copy_text;
use super::room::{NameOrder, Room};
use super::stops::PlainStop;
use super::trees::read_tree;
use group_history::{Json, Refusal, read_value};
use json::{Reader, Token};
use std::alloc::Global;

/// A text.
pub(crate) fn read_text<'a>(reader: &mut Reader<'a>) -> Result<&'a str, PlainStop>
    ensures read { IfOk result (λ s. (depth : ℕ) → ReadsValue depth reader.old (string s.now) reader.new) }
    ensures shorter { OnOk result (length reader.new < length reader.old) }
{
    match reader.next() {
        Some(Token::String(text)) => Ok(text),
        _ => Err(PlainStop::NotPlain),
    }
}

fn stop_of(refusal: Refusal) -> PlainStop {
    match refusal {
        Refusal::NoMemory => PlainStop::NoMemory,
        _ => PlainStop::NotPlain,
    }
}

// The text that the bytes are, without a look at them.
fn text_of(bytes: &[u8]) -> &str
    requires { IsUtf8 bytes.now }
    ensures { result.now ≡ bytes.now }
{
    unsafe { str::from_utf8_unchecked(bytes) }
}

// The compact text of the next value, in whatever order its names stand.
fn read_by_tree(
    alloc: Global,
    reader: &mut Reader<'_>,
    ascends: &mut bool,
) -> Result<Json, PlainStop>
    ensures read { IfOk result (λ t. ReadsText reader.old t reader.new) }
    ensures shorter { OnOk result (length reader.new < length reader.old) }
{
    let value = read_tree(alloc, reader, 124, ascends)?;
    match Json::of(alloc, &value) {
        Ok(json) => Ok(json),
        Err(refusal) => Err(stop_of(refusal)),
    }
}

// The compact text of the next value, which is that of its tokens as they stand if its names ascend. If they don't, the
// text is read anew, and that clears 16 kB: so the values behind are read as trees from their tokens.
fn read_by_copy(alloc: Global, reader: &mut Reader<'_>, room: &mut Room) -> Result<Json, PlainStop>
    ensures read { IfOk result (λ t. ReadsText reader.old t reader.new) }
    ensures shorter { OnOk result (length reader.new < length reader.old) }
{
    let plain = copy_text(alloc, reader, 124, &mut room.text)?;
    if !plain {
        room.names = NameOrder::Vary;
        return match Json::read(alloc, &room.text) {
            Ok(json) => Ok(json),
            Err(refusal) => Err(stop_of(refusal)),
        };
    }
    Ok(Json::of_compact(alloc, text_of(&room.text))?)
}

/// The compact text of the next value.
pub(crate) fn read_json(
    alloc: Global,
    reader: &mut Reader<'_>,
    room: &mut Room,
) -> Result<Json, PlainStop>
    ensures read { IfOk result (λ t. ReadsText reader.old t reader.new) }
    ensures shorter { OnOk result (length reader.new < length reader.old) }
{
    if let NameOrder::Ascend = room.names {
        return read_by_copy(alloc, reader, room);
    }
    let mut ascends = true;
    let json = read_by_tree(alloc, reader, &mut ascends)?;
    room.names = room.names.with(ascends);
    Ok(json)
}

// Passes over the next value by its text.
fn pass_by_copy(
    alloc: Global,
    reader: &mut Reader<'_>,
    depth: usize,
    room: &mut Room,
) -> Result<(), PlainStop>
    requires { depth ≤ 127 }
    ensures read { OnOk result (PassesValue depth reader.old reader.new) }
    ensures shorter { OnOk result (length reader.new < length reader.old) }
{
    let plain = copy_text(alloc, reader, depth, &mut room.text)?;
    if plain {
        return Ok(());
    }
    room.names = NameOrder::Vary;
    match read_value(alloc, &room.text) {
        Ok(value) => {
            drop(value);
            Ok(())
        }
        Err(refusal) => Err(stop_of(refusal)),
    }
}

/// Passes over the next value.
pub(crate) fn pass_value(
    alloc: Global,
    reader: &mut Reader<'_>,
    depth: usize,
    room: &mut Room,
) -> Result<(), PlainStop>
    requires { depth ≤ 127 }
    ensures read { OnOk result (PassesValue depth reader.old reader.new) }
    ensures shorter { OnOk result (length reader.new < length reader.old) }
{
    if let NameOrder::Vary = room.names {
        let mut ascends = true;
        let value = read_tree(alloc, reader, depth, &mut ascends)?;
        drop(value);
        return Ok(());
    }
    pass_by_copy(alloc, reader, depth, room)
}
