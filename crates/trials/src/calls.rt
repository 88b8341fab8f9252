//! Calls, made of commands.
use crate::rows::CallWay;
use hex::FromHexError;
use rebase::{Call, Mutate, Ticket};
use script_parser::{Command, MutatorCall, Query};
use std::alloc::{AllocError, Global};
use std::collections::BTreeMap;

/// The tickets that a client keeps, by their numbers.
pub(crate) type Tickets = BTreeMap<usize, Ticket>;

/// What a call is made with: the runtime, what may wait, and whether the call is marked.
#[derive(Drop)]
pub(crate) struct Turn<'a, R> {
    pub(crate) rt: &'a HostRuntime,
    pub(crate) on: &'a R,
    pub(crate) is_marked: bool,
}

/// The call that a query is; none where no call asks it.
fn query_call(query: &Query) -> Option<Call<'_>> {
    let call = match query {
        Query::Get(key) => Call::Get(key),
        Query::Has(key) => Call::Has(key),
        Query::Scan(scan) => Call::Scan(scan),
        Query::Empty => Call::IsEmpty,
        Query::Closed => Call::Closed,
        Query::Pending => Call::Pending,
        Query::Cookie => Call::Cookie,
        Query::Push(0) => Call::PushBody,
        Query::Push(_) | Query::PulledGet(_) | Query::PulledScan(_) => return None,
    };
    Some(call)
}

/// Whether a query is one that no call asks.
pub(crate) fn is_no_call(query: &Query) -> bool {
    query_call(query).is_none()
}

fn mutate_of(call: &MutatorCall) -> Mutate<'_> {
    Mutate {
        name: &call.mutator,
        args: &call.args,
        time: call.time,
    }
}

/// The call that a command is, where it is one. `body` is that of its response.
pub(crate) fn call_of<'a>(
    tickets: &'a Tickets,
    command: &'a Command,
    body: &'a [u8],
) -> Option<Call<'a>> {
    match command {
        Command::Query(query) => query_call(query),
        Command::Mutate(call) => Some(Call::Mutate(mutate_of(call))),
        Command::End(number, _) => Some(Call::EndPull(tickets.get(number)?, body)),
        Command::Refresh => Some(Call::Refresh),
        Command::Begin(_) => Some(Call::BeginPull),
        _ => None,
    }
}

/// The bytes that hexadecimal digits tell; none where they are no such digits.
fn bytes_of(alloc: Global, digits: &str) -> Result<Vec<u8>, AllocError> {
    match hex::decode(alloc, digits) {
        Ok(bytes) => Ok(bytes),
        Err(FromHexError::OutOfMemory) => Err(AllocError),
        Err(_) => Ok(Vec::new(alloc)),
    }
}

/// The body of the response that a command has: as it is written, or of these bytes.
pub(crate) fn body_of(
    alloc: Global,
    command: &Command,
    way: CallWay<'_>,
) -> Result<Vec<u8>, AllocError> {
    match (command, way.bytes) {
        (_, Some(digits)) => bytes_of(alloc, digits),
        (Command::End(_, body), None) => Vec::from_slice(alloc, body.as_str().as_bytes()),
        _ => Ok(Vec::new(alloc)),
    }
}

/// Keeps the ticket of a pull that is begun.
pub(crate) fn keep_ticket(
    tickets: &mut Tickets,
    number: usize,
    ticket: Ticket,
) -> Result<(), AllocError> {
    tickets.insert(number, ticket)?;
    Ok(())
}
