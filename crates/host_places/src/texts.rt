//! What the bytes of a host say.
ghost use Rattle.std.specs.Prelude.{◌≡◌};
ghost use Rattle.host_places.specs.Asking.{IsSaid, json_given, limit_given, map_said, mutation_given};
ghost use Rattle.host_places.specs.Asking.{put_said, ran_said};
ghost use Rattle.host_places.specs.Asking.{scan_given, start_given, text_said, uuid_given, writes_said};

use client_desk::{CallFault, Outcome};
use group_history::{Json, Ran, Refusal, Scan, Start, Text};
use pull_patch::{Write, read_writes};
use rebase::Uuid;
use std::alloc::Global;

/// The text that bytes are. Takes no memory.
pub(crate) fn str_of(bytes: &[u8]) -> Result<&str, Outcome>
    ensures { map_said (λ s. s.now) result ≡ text_said bytes.now }
{
    match str::from_utf8(bytes) {
        Ok(text) => Ok(text),
        Err(_) => Err(Outcome::Faulty(CallFault::NotUtf8)),
    }
}

/// A copy of it.
pub(crate) fn text_of(alloc: Global, bytes: &[u8]) -> Result<Text, Outcome>
    ensures { IsSaid result (text_said bytes.now) }
{
    let text = match str_of(bytes) {
        Ok(text) => text,
        Err(outcome) => return Err(outcome),
    };
    match Text::new(alloc, text) {
        Ok(text) => Ok(text),
        Err(_) => Err(Outcome::Refused(Refusal::NoMemory)),
    }
}

/// The UUID that a text is. Takes no memory.
pub(crate) fn uuid_of(bytes: &[u8]) -> Result<Uuid, Outcome>
    ensures { result ≡ uuid_given bytes.now }
{
    let text = match str_of(bytes) {
        Ok(text) => text,
        Err(_) => return Err(Outcome::Faulty(CallFault::BadUuid)),
    };
    match Uuid::try_parse(text) {
        Ok(uuid) => Ok(uuid),
        Err(_) => Err(Outcome::Faulty(CallFault::BadUuid)),
    }
}

/// The JSON that bytes are.
pub(crate) fn json_of(alloc: Global, bytes: &[u8]) -> Result<Json, Outcome>
    ensures { IsSaid result (json_given bytes.now) }
{
    match Json::read(alloc, bytes) {
        Ok(json) => Ok(json),
        Err(refusal) => Err(Outcome::Refused(refusal)),
    }
}

fn start_of(alloc: Global, kind: u32, bytes: &[u8]) -> Result<Start, Outcome>
    ensures { IsSaid result (start_given kind bytes.now) }
{
    match kind {
        0 => Ok(Start::Any),
        1 => Ok(Start::At(text_of(alloc, bytes)?)),
        2 => Ok(Start::After(text_of(alloc, bytes)?)),
        _ => Err(Outcome::Faulty(CallFault::OutOfRange)),
    }
}

fn limit_of(limit: u64) -> Option<u64>
    ensures { result ≡ limit_given limit }
{
    if limit == u64::MAX { None } else { Some(limit) }
}

/// The scan of a prefix, of a start by its kind and its key, and of a limit.
pub(crate) fn scan_of(
    alloc: Global,
    prefix: &[u8],
    kind: u32,
    start: &[u8],
    limit: u64,
) -> Result<Scan, Outcome>
    ensures { IsSaid result (scan_given prefix.now kind start.now limit) }
{
    let prefix = text_of(alloc, prefix)?;
    let start = start_of(alloc, kind, start)?;
    Ok(Scan {
        prefix,
        start,
        limit: limit_of(limit),
    })
}

/// A mutator's name, and its arguments.
pub(crate) fn named_of(alloc: Global, name: &[u8], args: &[u8]) -> Result<(Text, Json), Outcome>
    ensures { IsSaid result (mutation_given name.now args.now) }
{
    let name = text_of(alloc, name)?;
    let args = json_of(alloc, args)?;
    Ok((name, args))
}

/// A key and a value for it.
pub(crate) fn put_of<'a>(
    alloc: Global,
    key: &'a [u8],
    value: &[u8],
) -> Result<(&'a str, Json), Outcome>
    ensures { IsSaid (map_said (λ said. (said.0.now, said.1)) result) (put_said key.now value.now) }
{
    let key = str_of(key)?;
    let value = json_of(alloc, value)?;
    Ok((key, value))
}

/// The writes that bytes are.
pub(crate) fn writes_of(alloc: Global, bytes: &[u8]) -> Result<Vec<Write>, Outcome>
    ensures { IsSaid (map_said (λ writes. writes.items) result) (writes_said bytes.now) }
{
    match read_writes(alloc, bytes) {
        Ok(writes) => Ok(writes),
        Err(refusal) => Err(Outcome::Refused(refusal)),
    }
}

/// How a run ended, by its numbers: 0 is done, 1 refused with a code, 2 is that there is no such mutator.
pub(crate) fn ran_of(kind: u32, code: u64) -> Result<Ran, Outcome>
    ensures { result ≡ ran_said kind code }
{
    match kind {
        0 => Ok(Ran::Done),
        1 if code <= u32::MAX as u64 => Ok(Ran::Refused(code as u32)),
        2 => Ok(Ran::Unknown),
        _ => Err(Outcome::Faulty(CallFault::OutOfRange)),
    }
}
