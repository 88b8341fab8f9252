//! Values, and what is made of them.
ghost use Rattle.std.specs.Prelude.{◌≡◌, Some, IfOk, IfErr, OnOk, option_map, string_bytes};
ghost use Rattle.serde_json.specs.Data.{put, number as of_number};
ghost use Rattle.serde_json.specs.Find.{of_integer};
ghost use Rattle.serde_json.specs.View.{view as data_of, members_view};
ghost use Rattle.group_history.specs.declared.mutators.Stop.TheVariants.{NoMemory};
ghost use Rattle.rule_mutators.specs.Meaning as spec;
ghost use Rattle.rule_mutators.specs.declared.language.Two.TheVariants as two;

use crate::language::Two;
use group_history::{Json, Refusal, Stop};
use serde_json::{Map, Value};
use std::alloc::{AllocError, Global};

/// The JSON text with which a value can be kept; `None` where it nests too deep or a number isn't whole.
pub(crate) fn kept(alloc: Global, value: &Value) -> Result<Option<Json>, Stop>
    ensures ok { IfOk result (λ json. json ≡ spec.kept_text (data_of value.now)) }
    ensures stopped { IfErr result (λ stop. stop ≡ NoMemory) }
{
    match Json::of(alloc, value) {
        Ok(json) => Ok(Some(json)),
        Err(Refusal::NoMemory) => Err(Stop::NoMemory),
        Err(_) => Ok(None),
    }
}

/// The text that a value is, or the decimal of its number.
pub(crate) fn wording(alloc: Global, value: Value) -> Result<Option<String>, AllocError>
    ensures { IfOk result (λ text. option_map string_bytes text ≡ spec.wording (data_of value)) }
{
    match value {
        Value::String(text) => Ok(Some(text)),
        Value::Number(number) => match number.as_i64() {
            Some(number) => Ok(Some(format!(in alloc; "{number}")?)),
            None => Ok(None),
        },
        _ => Ok(None),
    }
}

/// The value that is there, null where nothing is.
pub(crate) fn value_there(alloc: Global, there: Option<Json>) -> Result<Value, Stop>
    ensures value { IfOk result (λ v. spec.value_there there ≡ Some (data_of v)) }
    ensures stopped { IfErr result (λ stop. stop ≡ NoMemory) }
{
    match there {
        Some(json) => Ok(json.value(alloc)?),
        None => Ok(Value::Null),
    }
}

/// A number as a value, where there is one.
fn whole(number: Option<i64>) -> Option<Value>
    ensures { option_map data_of result ≡ option_map (λ z. of_number (of_integer z)) number }
{
    match number {
        Some(number) => Some(Value::from(number)),
        None => None,
    }
}

fn sum(a: &Value, b: &Value) -> Option<Value>
    ensures { option_map data_of result ≡ spec.two_means two.Add (data_of a.now) (data_of b.now) }
{
    let (a, b) = (a.as_i64()?, b.as_i64()?);
    whole(a.checked_add(b))
}

fn difference(a: &Value, b: &Value) -> Option<Value>
    ensures { option_map data_of result ≡ spec.two_means two.Sub (data_of a.now) (data_of b.now) }
{
    let (a, b) = (a.as_i64()?, b.as_i64()?);
    whole(a.checked_sub(b))
}

fn is_below(a: &Value, b: &Value) -> Option<Value>
    ensures { option_map data_of result ≡ spec.two_means two.Below (data_of a.now) (data_of b.now) }
{
    let (a, b) = (a.as_i64()?, b.as_i64()?);
    Some(Value::Bool(a < b))
}

fn are_true(a: &Value, b: &Value) -> Option<Value>
    ensures { option_map data_of result ≡ spec.two_means two.And (data_of a.now) (data_of b.now) }
{
    let (a, b) = (a.as_bool()?, b.as_bool()?);
    Some(Value::Bool(a && b))
}

/// Whether two values have the same text.
fn are_same(alloc: Global, a: &Value, b: &Value) -> Result<Option<Value>, Stop>
    ensures ok { IfOk result (λ found. option_map data_of found
        ≡ spec.two_means two.Same (data_of a.now) (data_of b.now)) }
    ensures stopped { IfErr result (λ stop. stop ≡ NoMemory) }
{
    let Some(a) = kept(alloc, a)? else {
        return Ok(None);
    };
    let Some(b) = kept(alloc, b)? else {
        return Ok(None);
    };
    Ok(Some(Value::Bool(a.text() == b.text())))
}

/// What a word makes of two values.
pub(crate) fn of_two(alloc: Global, word: Two, a: &Value, b: &Value) -> Result<Option<Value>, Stop>
    ensures ok { IfOk result (λ found. option_map data_of found
        ≡ spec.two_means word (data_of a.now) (data_of b.now)) }
    ensures stopped { IfErr result (λ stop. stop ≡ NoMemory) }
{
    match word {
        Two::Same => are_same(alloc, a, b),
        Two::Add => Ok(sum(a, b)),
        Two::Sub => Ok(difference(a, b)),
        Two::Below => Ok(is_below(a, b)),
        Two::And => Ok(are_true(a, b)),
    }
}

/// A copy.
pub(crate) fn copy_of(value: &Value) -> Result<Option<Value>, Stop>
    ensures ok { IfOk result (λ found. option_map data_of found ≡ Some (data_of value.now)) }
    ensures stopped { IfErr result (λ stop. stop ≡ NoMemory) }
{
    Ok(Some(value.clone()?))
}

/// A copy of a member of an object, null where there is none.
pub(crate) fn field_of(value: Value, name: &str) -> Result<Option<Value>, Stop>
    ensures ok { IfOk result (λ found. option_map data_of found ≡ Some (spec.field_of name.now (data_of value))) }
    ensures stopped { IfErr result (λ stop. stop ≡ NoMemory) }
{
    let found = match value.get(name) {
        Some(field) => copy_of(field),
        None => Ok(Some(Value::Null)),
    };
    drop(value);
    found
}

/// Puts a member.
pub(crate) fn put_member(
    alloc: Global,
    members: &mut Map<String, Value>,
    name: &str,
    value: Value,
) -> Result<(), AllocError>
    ensures { OnOk result (members_view members.new.entries
        ≡ put name.now (data_of value) (members_view members.old.entries)) }
{
    let name = String::from_str(alloc, name)?;
    drop(members.insert(name, value)?);
    Ok(())
}

fn put_all(
    alloc: Global,
    members: &mut Map<String, Value>,
    more: &Map<String, Value>,
) -> Result<(), AllocError>
    ensures { OnOk result (members_view members.new.entries
        ≡ spec.put_all (members_view more.now.entries) (members_view members.old.entries)) }
{
    for (name, value) in more.iter() {
        put_member(alloc, members, name.as_str(), value.clone()?)?;
    }
    Ok(())
}

/// An object with the members of another put over its own; `None` where one of both is no object.
pub(crate) fn merged(alloc: Global, there: Value, more: &Value) -> Result<Option<Value>, AllocError>
    ensures { IfOk result (λ found. option_map data_of found ≡ spec.merged (data_of there) (data_of more.now)) }
{
    let Value::Object(mut members) = there else {
        return Ok(None);
    };
    let Value::Object(more) = more else {
        return Ok(None);
    };
    put_all(alloc, &mut members, more)?;
    Ok(Some(Value::Object(members)))
}
