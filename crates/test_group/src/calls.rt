//! Calls of clients with their answers.
ghost use Rattle.std.specs.Prelude.{◌≡◌};

use chunk_slots::Store;
use group_history::{Ended, Json, Refusal, Text};
use rebase::{Client, ReadTx, Ticket};
use script_mutators::ScriptMutators;
use std::alloc::Global;

/// What a client is told.
#[derive(Clone, Copy, PartialEq, Eq, Debug)]
pub enum CallTold {
    /// The id of the mutation.
    Id(u64),
    Ended(Ended),
    /// The number at the key.
    Value(Option<i64>),
    Last(u64),
}

pub type ToldResult = Result<CallTold, Refusal>;

/// A call that was refused memory has no answer, and ends a test.
pub fn answered<T: Drop>(answer: Result<T, Refusal>) -> Result<Result<T, Refusal>, Refusal> {
    match answer {
        Err(Refusal::NoMemory) => Err(Refusal::NoMemory),
        other => Ok(other),
    }
}

/// The name of a mutator and the arguments of a call of it.
#[derive(Drop)]
pub struct NamedCall {
    pub name: Text,
    pub args: Json,
}

pub fn call_of(alloc: Global, name: &str, args: &str) -> Result<NamedCall, Refusal> {
    let name = Text::new(alloc, name)?;
    let args = Json::read(alloc, args.as_bytes())?;
    Ok(NamedCall { name, args })
}

pub fn mutates<S: Store<ScriptMutators>>(
    client: &mut Client<ScriptMutators, S>,
    call: &NamedCall,
    tries: u32,
) -> ToldResult {
    client
        .try_mutate(&call.name, &call.args, 1000, tries)
        .map(CallTold::Id)
}

pub fn ends<S: Store<ScriptMutators>>(
    client: &mut Client<ScriptMutators, S>,
    ticket: &Ticket,
    body: &str,
    tries: u32,
) -> ToldResult
    ensures { client.new.group ≡ client.old.group }
{
    client
        .try_end_pull(ticket, body.as_bytes(), tries)
        .map(CallTold::Ended)
}

/// Ends a pull that it begins for that.
pub fn pulls<S: Store<ScriptMutators>>(
    client: &mut Client<ScriptMutators, S>,
    body: &str,
    tries: u32,
) -> ToldResult
    ensures { client.new.group ≡ client.old.group }
{
    let ticket = client.begin_pull(tries)?;
    ends(client, &ticket, body, tries)
}

/// A number as JSON has it.
pub fn number_in(text: &str) -> Option<i64> {
    text.parse::<i64>().ok()
}

pub fn number_of(value: Option<&Json>) -> Option<i64> {
    match value {
        Some(value) => number_in(value.text()),
        None => None,
    }
}

/// The number at a key, where there is one.
pub fn n_in<S: Store<ScriptMutators>>(
    tx: &ReadTx<'_, ScriptMutators, S>,
    key: &str,
) -> Result<Option<i64>, Refusal> {
    let value = tx.get(key)?;
    Ok(number_of(value.as_ref()))
}

pub fn gets<S: Store<ScriptMutators>>(
    client: &mut Client<ScriptMutators, S>,
    key: &str,
    tries: u32,
) -> ToldResult {
    let tx = client.read(tries)?;
    let found = n_in(&tx, key);
    tx.close();
    found.map(CallTold::Value)
}

pub fn refreshes<S: Store<ScriptMutators>>(
    client: &mut Client<ScriptMutators, S>,
    tries: u32,
) -> ToldResult {
    client.refresh(tries).map(CallTold::Last)
}
