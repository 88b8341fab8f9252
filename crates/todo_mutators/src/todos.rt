//! A to-do item, and how it lies in the map of a group.
ghost use Rattle.std.specs.Prelude.{◌≡◌, IfOk, IfErr, OnOk, option_map, string_bytes};
ghost use Rattle.std.specs.FinMap as finite;
ghost use Rattle.serde_json.specs.View.{view as data_of};
ghost use Rattle.group_history.specs.Stops.{MayStop};
ghost use Rattle.group_history.specs.declared.mutators.Stop.TheVariants.{NoMemory};
ghost use Rattle.todo_mutators.specs.Todos as spec;

use group_history::{Json, Stop, WriteView};
use serde_json::{Value, json};
use std::alloc::{AllocError, Global};
use std::marker::Model;

/// A to-do item.
#[derive(Drop)]
pub(crate) struct Todo {
    pub(crate) done: bool,
    pub(crate) text: String,
}

impl Model for Todo {
    ghost use Rattle.std.specs.Prelude.{string_bytes};
    ghost use Rattle.todo_mutators.specs.Todos.{Todo};

    ghost Value = { Todo };

    ghost view = { λ todo. record { done = todo.done; text = string_bytes todo.text } };
}

/// The text of a member, where it is one.
pub(crate) fn text_in<'a>(value: &'a Value, name: &str) -> Option<&'a str>
    ensures { option_map (λ s. s.now) result ≡ spec.text_in (data_of value.now) name.now }
{
    value.get(name).and_then(Value::as_str)
}

/// The key of an item.
pub(crate) fn key_of(alloc: Global, id: &str) -> Result<String, AllocError>
    ensures { IfOk result (λ key. string_bytes key ≡ spec.todo_key id.now) }
{
    format!(in alloc; "todo/{id}")
}

/// The item that a value is, where it is one.
fn todo_of(alloc: Global, value: &Value) -> Result<Option<Todo>, AllocError>
    ensures { IfOk result (λ todo. todo ≡ spec.todo_of (data_of value.now)) }
{
    let Some(done) = value.get("done").and_then(Value::as_bool) else {
        return Ok(None);
    };
    let Some(text) = text_in(value, "text") else {
        return Ok(None);
    };
    let text = String::from_str(alloc, text)?;
    Ok(Some(Todo { done, text }))
}

/// The item that lies there, where there is one.
pub(crate) fn todo_in(alloc: Global, there: Option<Json>) -> Result<Option<Todo>, Stop>
    ensures ok { IfOk result (λ todo. todo ≡ spec.todo_in there) }
    ensures stopped { IfErr result (λ stop. stop ≡ NoMemory) }
{
    let Some(json) = there else {
        return Ok(None);
    };
    let value = json.value(alloc)?;
    Ok(todo_of(alloc, &value)?)
}

/// An item as a value.
fn value_with(alloc: Global, done: bool, text: &str) -> Result<Value, AllocError>
    ensures { IfOk result (λ value. data_of value ≡ spec.value_with done text.now) }
{
    json!(in alloc; { "done": done, "text": text })
}

/// The JSON text of an item.
pub(crate) fn written(alloc: Global, done: bool, text: &str) -> Result<Json, AllocError>
    ensures { IfOk result (λ json. json ≡ spec.item_text done text.now) }
{
    let value = value_with(alloc, done, text)?;
    Json::of_whole(alloc, &value)
}

/// Puts an item at a key.
pub(crate) fn put<V: WriteView>(
    alloc: Global,
    view: &mut V,
    key: &str,
    done: bool,
    text: &str,
) -> Result<(), Stop>
    ensures put { OnOk result (V.contents view.new
        ≡ finite.insert (V.contents view.old) key.now (spec.item_text done text.now)) }
    ensures stopped { IfErr result (MayStop V.stops) }
{
    let json = written(alloc, done, text)?;
    view.put(key, &json)
}
