//! The operations of a patch, one at a time.
ghost use Rattle.std.specs.Prelude.{◌≡◌, ◌<◌, length, codes, bytes_eq, false, OnOk, IfOk, IfSome};
ghost use Rattle.serde_json.specs.Data.{Members, object};
ghost use Rattle.pull_patch.specs.Inside.Plain.{ReadsField, ReadsFields, IsFoundIn, IsOperation, ReadsOperation};
ghost use Rattle.pull_patch.specs.Inside.Plain.{ReadsOperations, ReadsPatch, IsText};

use super::room::Room;
use super::stops::PlainStop;
use super::values::{pass_value, read_json, read_text};
use group_history::{Json, Patch, Text, is_word};
use json::{Reader, Token};
use std::alloc::Global;

// What was found in an operation so far.
#[derive(Drop)]
struct OperationParts<'a> {
    op: Option<&'a str>,
    key: Option<&'a str>,
    value: Option<Json>,
}

// The text of a field of this name.
fn read_text_field<'a>(
    alloc: Global,
    name: &str,
    reader: &mut Reader<'a>,
    found: &mut OperationParts<'a>,
    room: &mut Room,
) -> Result<(), PlainStop>
    requires other { bytes_eq name.now (codes "value") ≡ false }
    ensures read { OnOk result (ReadsField reader.old name.now found.old found.new reader.new) }
    ensures shorter { OnOk result (length reader.new < length reader.old) }
{
    if is_word(name, b"op") {
        found.op = Some(read_text(reader)?);
        return Ok(());
    }
    if is_word(name, b"key") {
        found.key = Some(read_text(reader)?);
        return Ok(());
    }
    pass_value(alloc, reader, 124, room)
}

// The value of a field of this name. Of two fields of one name the last counts.
fn read_field<'a>(
    alloc: Global,
    name: &str,
    reader: &mut Reader<'a>,
    found: &mut OperationParts<'a>,
    room: &mut Room,
) -> Result<(), PlainStop>
    ensures read { OnOk result (ReadsField reader.old name.now found.old found.new reader.new) }
    ensures shorter { OnOk result (length reader.new < length reader.old) }
{
    if is_word(name, b"value") {
        found.value = Some(read_json(alloc, reader, room)?);
        return Ok(());
    }
    read_text_field(alloc, name, reader, found, room)
}

fn read_fields<'a>(
    alloc: Global,
    reader: &mut Reader<'a>,
    room: &mut Room,
) -> Result<OperationParts<'a>, PlainStop>
    ensures read { IfOk result (λ f. ReadsFields reader.old f reader.new) }
    ensures shorter { OnOk result (length reader.new < length reader.old) }
{
    let mut found = OperationParts {
        op: None,
        key: None,
        value: None,
    };
    'fields: while let Some(name) = reader.next_key()? {
        read_field(alloc, name, reader, &mut found, room)?;
    }
    Ok(found)
}

// An operation without a value.
fn bare_operation(alloc: Global, op: &str, key: Option<&str>) -> Result<Patch, PlainStop>
    ensures { IfOk result (λ p. (ms : Members) → IsText (codes "op") ms op.now
        → IfSome key.entry (λ s. IsText (codes "key") ms s.now) → IsOperation (object ms) p) }
{
    if is_word(op, b"clear") {
        return Ok(Patch::Clear);
    }
    let Some(key) = key else {
        return Err(PlainStop::NotPlain);
    };
    if is_word(op, b"del") {
        return Ok(Patch::Del(Text::new(alloc, key)?));
    }
    Err(PlainStop::NotPlain)
}

fn operation_of(alloc: Global, found: OperationParts<'_>) -> Result<Patch, PlainStop>
    ensures { IfOk result (λ p. (ms : Members) → IsFoundIn found.entry ms → IsOperation (object ms) p) }
{
    let Some(op) = found.op else {
        return Err(PlainStop::NotPlain);
    };
    if !is_word(op, b"put") {
        return bare_operation(alloc, op, found.key);
    }
    match (found.key, found.value) {
        (Some(key), Some(value)) => Ok(Patch::Put(Text::new(alloc, key)?, value)),
        _ => Err(PlainStop::NotPlain),
    }
}

fn read_operation(
    alloc: Global,
    reader: &mut Reader<'_>,
    room: &mut Room,
) -> Result<Patch, PlainStop>
    ensures read { IfOk result (λ p. ReadsOperation reader.old p reader.new) }
    ensures shorter { OnOk result (length reader.new < length reader.old) }
{
    let Some(Token::BeginObject) = reader.next() else {
        return Err(PlainStop::NotPlain);
    };
    let found = read_fields(alloc, reader, room)?;
    operation_of(alloc, found)
}

fn read_operations(
    alloc: Global,
    reader: &mut Reader<'_>,
    room: &mut Room,
) -> Result<Vec<Patch>, PlainStop>
    ensures read { IfOk result (λ v. ReadsOperations reader.old v.items reader.new) }
    ensures shorter { OnOk result (length reader.new < length reader.old) }
{
    let mut patch = Vec::new(alloc);
    'operations: while !reader.take_end_array() {
        let operation = read_operation(alloc, reader, room)?;
        patch.push(operation)?;
    }
    Ok(patch)
}

/// The operations of a patch.
pub(crate) fn read_patch(
    alloc: Global,
    reader: &mut Reader<'_>,
    room: &mut Room,
) -> Result<Vec<Patch>, PlainStop>
    ensures read { IfOk result (λ v. ReadsPatch reader.old v.items reader.new) }
    ensures shorter { OnOk result (length reader.new < length reader.old) }
{
    let Some(Token::BeginArray) = reader.next() else {
        return Err(PlainStop::NotPlain);
    };
    read_operations(alloc, reader, room)
}
