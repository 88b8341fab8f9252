//! Values that are read as trees, from token to token.
//!
//! `serde_json` reads a tree from a text alone, and clears 16 kB for each: a short value would cost more by that than
//! by all else. A number is read here only where its text is the one that is written for it. With any other one in it
//! a value is no plain one.
ghost use Rattle.std.specs.Prelude.{◌<◌, length, OnOk, IfOk};
ghost use Rattle.serde_json.specs.View.{view, items_view, members_view};
ghost use Rattle.pull_patch.specs.Inside.Plain.{ReadsValue, ReadsItems, ReadsMembers};

use super::numbers::plain_number;
use super::stops::PlainStop;
use super::words::is_before;
use json::{Reader, Token};
use serde_json::{Map, Value};
use std::alloc::Global;

/// The next value, where its numbers are plain. `ascends` stays true where the names in it ascend.
#[cycle(read)]
pub(crate) fn read_tree(
    alloc: Global,
    reader: &mut Reader<'_>,
    depth: usize,
    ascends: &mut bool,
) -> Result<Value, PlainStop>
    ensures read { IfOk result (λ v. ReadsValue depth reader.old (view v) reader.new) }
    ensures shorter { OnOk result (length reader.new < length reader.old) }
{
    let token = reader.next().ok_or(PlainStop::NotPlain)?;
    match token {
        Token::String(text) => Ok(Value::String(String::from_str(alloc, text)?)),
        Token::Number(text) => match plain_number(text) {
            Some(number) => Ok(Value::Number(number)),
            None => Err(PlainStop::NotPlain),
        },
        Token::Bool(b) => Ok(Value::Bool(b)),
        Token::Null => Ok(Value::Null),
        Token::EndObject | Token::EndArray | Token::Key(_) | Token::Bad => Err(PlainStop::NotPlain),
        Token::BeginArray => {
            if depth == 0 {
                return Err(PlainStop::NotPlain);
            }
            Ok(Value::Array(read_items(alloc, reader, depth - 1, ascends)?))
        }
        Token::BeginObject => {
            if depth == 0 {
                return Err(PlainStop::NotPlain);
            }
            Ok(Value::Object(read_members(alloc, reader, depth - 1, ascends)?))
        }
    }
}

#[cycle(read)]
fn read_items(
    alloc: Global,
    reader: &mut Reader<'_>,
    depth: usize,
    ascends: &mut bool,
) -> Result<Vec<Value>, PlainStop>
    ensures read { IfOk result (λ v. ReadsItems depth reader.old (items_view v.items) reader.new) }
    ensures shorter { OnOk result (length reader.new < length reader.old) }
{
    let mut found = Vec::new(alloc);
    'items: while !reader.take_end_array() {
        let item = read_tree(alloc, reader, depth, ascends)?;
        found.push(item)?;
    }
    Ok(found)
}

#[cycle(read)]
fn read_members<'a>(
    alloc: Global,
    reader: &mut Reader<'a>,
    depth: usize,
    ascends: &mut bool,
) -> Result<Map<String, Value>, PlainStop>
    ensures read { IfOk result (λ m. ReadsMembers depth reader.old (members_view m.entries) reader.new) }
    ensures shorter { OnOk result (length reader.new < length reader.old) }
{
    let mut found = Map::new(alloc);
    let mut last = "";
    'members: while let Some(name) = reader.next_key()? {
        let key = String::from_str(alloc, name)?;
        let member = read_tree(alloc, reader, depth, ascends)?;
        drop(found.insert(key, member)?);
        *ascends = *ascends & is_before(last, name);
        last = name;
    }
    Ok(found)
}
