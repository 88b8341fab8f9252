//! Calls of no group: what reads and writes texts, a group that is opened, and a store's own steps.
use crate::calls::Turn;
use crate::counts::Counted;
use crate::marks::{begins, ends};
use crate::replies::Said;
use crate::steps::steps;
use crate::{requests, texts};
use group_history::Refusal;
use rebase::{Config, Group};
use script_mutators::ScriptMutators;

/// What is told of a text; an error is a refusal that is told.
fn told<R>(it: &Turn<'_, R>, name: &str, given: &str) -> Result<String, Refusal> {
    let alloc = it.rt.alloc();
    match name {
        "json" => texts::compact(it, given),
        "text" => texts::kept(it, given),
        "response" => texts::response(it, given.as_bytes()),
        "hexresponse" => texts::response_of_bytes(it, given),
        "applied" => texts::applied(it, given),
        "is" => texts::cookie(alloc, given),
        "push" => requests::push(it, given),
        "pull" => requests::pull(it, given),
        "limits" => requests::limits(it, given),
        "changed" => requests::changed(alloc, given),
        name => told_shortly(it, name, given),
    }
}

fn told_shortly<R>(it: &Turn<'_, R>, name: &str, given: &str) -> Result<String, Refusal> {
    let alloc = it.rt.alloc();
    match name {
        "reference" => Ok(requests::reference(alloc, given)?),
        "message" => Ok(requests::message(alloc)?),
        name => Ok(String::from_str(alloc, word_told(it, name, given)?)?),
    }
}

fn word_told<R>(it: &Turn<'_, R>, name: &str, given: &str) -> Result<&'static str, Refusal> {
    match name {
        "order" => texts::order(it, given),
        "claims" => requests::claims(it),
        "head" => requests::head(it),
        "laws" => Ok(requests::laws()),
        _ => Ok("nothing"),
    }
}

/// Appends what is told of a text.
pub(crate) fn say_text<R>(it: &Turn<'_, R>, name: &str, given: &str, out: &mut Said) {
    match told(it, name, given) {
        Ok(text) => out.say(text.as_str()),
        Err(refusal) => out.say_refusal(refusal),
    }
}

/// Opens a group. Whether it is opened.
fn open<R, S: Counted>(it: &Turn<'_, R>, config: Config, parts: S::Parts) -> Result<bool, Refusal>
where
    S::Parts: Drop,
{
    begins(it.rt, it.is_marked);
    let opened = Group::<ScriptMutators, S>::open(it.rt.alloc(), config, ScriptMutators, parts);
    ends(it.rt, it.is_marked);
    match opened {
        Ok(_) => Ok(true),
        Err(e) => Err(e),
    }
}

/// Appends what is told of a store: of a group that is opened, or of the steps of a seat.
pub(crate) fn say_store<R, S: Counted>(
    it: &Turn<'_, R>,
    config: Config,
    parts: S::Parts,
    name: &str,
    out: &mut Said,
)
where
    S::Parts: Drop,
{
    let made = match name {
        "open" => open::<R, S>(it, config, parts),
        _ => steps::<R, S>(it, parts),
    };
    match made {
        Ok(true) => out.say("made"),
        Ok(false) => out.say("not made"),
        Err(refusal) => out.say_refusal(refusal),
    }
}
