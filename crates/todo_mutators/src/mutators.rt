//! The mutators of a to-do list: `add`, `toggle` and `rename`.
//!
//! Each takes an object as its arguments, and refuses with a code where a member is missing or there is no such item.
//! What each means is a definition in `specs/Todos.antt`, and its clause `ran` says that it is run as that.
ghost use Rattle.std.specs.Prelude.{◌≡◌, IfOk, IfErr};
ghost use Rattle.serde_json.specs.View.{view as data_of};
ghost use Rattle.group_history.specs.Ran.{RunsAs};
ghost use Rattle.group_history.specs.Stops.{MayStop};
ghost use Rattle.todo_mutators.specs.Todos as spec;

use crate::todos::{key_of, put, text_in, todo_in, written};
use group_history::{Json, Means, Mutators, Ran, Reason, Stop, Update, WriteView};
use serde_json::Value;
use std::alloc::Global;

/// The mutators of a to-do list. Any name but theirs is unknown.
#[derive(Clone, Copy)]
pub struct Todos;

impl Means for Todos {
    ghost means = { spec.todo_means };
}

/// The code where the arguments are not those that the mutator takes.
const WRONG_ARGUMENTS: u32 = 1;

/// The code where there is no such item.
const NO_SUCH_TODO: u32 = 2;

/// Puts an item that is not done.
#[tactic(auto, unfolding(crate::specs::Todos::add_means))]
fn add<V: WriteView>(alloc: Global, args: &Value, view: &mut V) -> Result<Ran, Stop>
    ensures ran { IfOk result (λ ran. RunsAs (spec.add_means (data_of args.now) (V.contents view.old)) ran
        (V.contents view.new)) }
    ensures stopped { IfErr result (MayStop V.stops) }
{
    let (Some(id), Some(text)) = (text_in(args, "id"), text_in(args, "text")) else {
        return Ok(Ran::Refused(WRONG_ARGUMENTS));
    };
    let key = key_of(alloc, id)?;
    put(alloc, view, key.as_str(), false, text)?;
    Ok(Ran::Done)
}

/// Makes an item done, or not done where it was.
#[tactic(auto, unfolding(crate::specs::Todos::toggle_means))]
fn toggle<V: WriteView>(alloc: Global, args: &Value, view: &mut V) -> Result<Ran, Stop>
    ensures ran { IfOk result (λ ran. RunsAs (spec.toggle_means (data_of args.now) (V.contents view.old)) ran
        (V.contents view.new)) }
    ensures stopped { IfErr result (MayStop V.stops) }
{
    let Some(id) = text_in(args, "id") else {
        return Ok(Ran::Refused(WRONG_ARGUMENTS));
    };
    let key = key_of(alloc, id)?;
    view.update(key.as_str(), |there| {
        let Some(todo) = todo_in(alloc, there)? else {
            return Ok(Update::Refuse(NO_SUCH_TODO));
        };
        Ok(Update::Put(written(alloc, !todo.done, todo.text.as_str())?))
    })
}

/// Gives an item another text.
#[tactic(auto, unfolding(crate::specs::Todos::rename_means))]
fn rename<V: WriteView>(alloc: Global, args: &Value, view: &mut V) -> Result<Ran, Stop>
    ensures ran { IfOk result (λ ran. RunsAs (spec.rename_means (data_of args.now) (V.contents view.old)) ran
        (V.contents view.new)) }
    ensures stopped { IfErr result (MayStop V.stops) }
{
    let (Some(id), Some(text)) = (text_in(args, "id"), text_in(args, "text")) else {
        return Ok(Ran::Refused(WRONG_ARGUMENTS));
    };
    let key = key_of(alloc, id)?;
    view.update(key.as_str(), |there| {
        let Some(todo) = todo_in(alloc, there)? else {
            return Ok(Update::Refuse(NO_SUCH_TODO));
        };
        Ok(Update::Put(written(alloc, todo.done, text)?))
    })
}

impl Mutators for Todos {
    #[tactic(auto, unfolding(crate::specs::Todos::todo_means))]
    fn run<V: WriteView>(
        &self,
        alloc: Global,
        name: &str,
        args: &Json,
        _why: Reason,
        view: &mut V,
    ) -> Result<Ran, Stop> {
        let args = args.value(alloc)?;
        match name {
            "add" => add(alloc, &args, view),
            "toggle" => toggle(alloc, &args, view),
            "rename" => rename(alloc, &args, view),
            _ => Ok(Ran::Unknown),
        }
    }
}
