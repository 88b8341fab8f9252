//! Bodies of requests, and what else is told of no group.
use crate::calls::Turn;
use crate::marks::{begins, ends};
use crate::texts::cookie_of;
use commit_publishing::placing_laws;
use group_history::{
    Change, Cookie, Json, Mutation, Ref, Refusal, Reply, Text, read_value, record_laws,
    worked_examples,
};
use head_word::{Head, book_laws};
use push_body::{Identity, pull_bytes, push_bytes};
use reader_claims::Claims;
use rebase::{Config, OutOfRange};
use script_mutators::ScriptMutators;
use serde_json::Value;
use std::alloc::{AllocError, Global};

fn text_of(alloc: Global, value: &Value) -> Result<Text, AllocError> {
    Text::new(alloc, value.as_str().unwrap_or(""))
}

/// The texts of an array.
fn texts_of(alloc: Global, array: &str) -> Result<Vec<Text>, Refusal> {
    let value = read_value(alloc, array.as_bytes())?;
    match value.as_array() {
        Some(items) => Ok(texts_in(alloc, items)?),
        None => Ok(Vec::new(alloc)),
    }
}

fn texts_in(alloc: Global, items: &[Value]) -> Result<Vec<Text>, AllocError> {
    let mut texts = Vec::new(alloc);
    for item in items {
        texts.push(text_of(alloc, item)?)?;
    }
    Ok(texts)
}

fn identity_of(texts: Vec<Text>) -> Option<Identity> {
    let mut texts = texts.into_iter();
    Some(Identity {
        group: texts.next()?,
        profile: texts.next()?,
        schema: texts.next()?,
    })
}

/// The identity of an array of three texts, and what stands behind it.
fn identity_and_rest(alloc: Global, given: &str) -> Result<(Identity, &str), Refusal> {
    let (identity, rest) = given.split_once(' ').unwrap_or((given, ""));
    match identity_of(texts_of(alloc, identity)?) {
        Some(identity) => Ok((identity, rest)),
        None => Err(Refusal::BadShape),
    }
}

fn incremented(alloc: Global, client: &Text) -> Result<Mutation, Refusal> {
    let name = Text::new(alloc, "incr")?;
    let args = Json::read(alloc, b"[\"n\",1]")?;
    Ok(Mutation::new(alloc, client, 1, &name, &args, 1000)?)
}

/// One increment for each client.
fn pending_of(alloc: Global, clients: &str) -> Result<Vec<Mutation>, Refusal> {
    let mut pending = Vec::new(alloc);
    for client in texts_of(alloc, clients)? {
        pending.push(incremented(alloc, &client)?)?;
    }
    Ok(pending)
}

fn text_of_body(alloc: Global, body: &[u8]) -> Result<String, AllocError> {
    String::from_str(alloc, str::from_utf8(body).unwrap_or(""))
}

/// The body of a push of one increment for each client: `IDENTITY CLIENTS`.
pub(crate) fn push<R>(it: &Turn<'_, R>, given: &str) -> Result<String, Refusal> {
    let alloc = it.rt.alloc();
    let (identity, clients) = identity_and_rest(alloc, given)?;
    let pending = pending_of(alloc, clients)?;
    push_of(it, &identity, &pending)
}

fn push_of<R>(
    it: &Turn<'_, R>,
    identity: &Identity,
    pending: &[Mutation],
) -> Result<String, Refusal> {
    begins(it.rt, it.is_marked);
    let body = push_bytes(it.rt.alloc(), identity, pending);
    ends(it.rt, it.is_marked);
    Ok(text_of_body(it.rt.alloc(), &body?)?)
}

/// The body of a pull from a cookie on: `IDENTITY COOKIE`.
pub(crate) fn pull<R>(it: &Turn<'_, R>, given: &str) -> Result<String, Refusal> {
    let alloc = it.rt.alloc();
    let (identity, cookie) = identity_and_rest(alloc, given)?;
    match cookie_of(alloc, cookie)? {
        Some(cookie) => pull_from(it, &identity, &cookie),
        None => Err(Refusal::BadShape),
    }
}

fn pull_from<R>(it: &Turn<'_, R>, identity: &Identity, cookie: &Cookie) -> Result<String, Refusal> {
    begins(it.rt, it.is_marked);
    let body = pull_bytes(it.rt.alloc(), identity, cookie);
    ends(it.rt, it.is_marked);
    Ok(text_of_body(it.rt.alloc(), &body?)?)
}

fn numbers_of(given: &str) -> Option<(u32, u32)> {
    let (slots, seats) = given.split_once(' ')?;
    Some((slots.parse::<u32>().ok()?, seats.parse::<u32>().ok()?))
}

/// Whether a group may have so many slots and seats, and else why not: `SLOTS SEATS`.
pub(crate) fn limits<R>(it: &Turn<'_, R>, given: &str) -> Result<String, Refusal> {
    let alloc = it.rt.alloc();
    let (slots, seats) = numbers_of(given).unwrap_or((0, 0));
    let (identity, _) = identity_and_rest(alloc, r#"["g","p1","s1"]"#)?;
    begins(it.rt, it.is_marked);
    let config = Config::new(identity, slots, seats);
    ends(it.rt, it.is_marked);
    Ok(config_text(alloc, config)?)
}

fn config_text(alloc: Global, config: Result<Config, OutOfRange>) -> Result<String, AllocError> {
    match config {
        Ok(_) => String::from_str(alloc, "a group"),
        Err(limit) => format!(in alloc; "{limit}"),
    }
}

/// The word of a reference, and what is read from it: `STAMP SLOT`.
pub(crate) fn reference(alloc: Global, given: &str) -> Result<String, AllocError> {
    let (stamp, slot) = given.split_once(' ').unwrap_or(("", ""));
    let stamp = stamp
        .parse::<u64>()
        .unwrap_or(0)
        .min(group_history::STAMPS - 1);
    let slot = slot
        .parse::<u32>()
        .unwrap_or(0)
        .min((group_history::MAX_SLOTS - 1) as u32);
    let word = Ref::new(stamp, slot).bits();
    let read = Ref::from_bits(word);
    let (stamp, slot) = (read.stamp(), read.slot());
    format!(in alloc; "{word} of stamp {stamp} and slot {slot}")
}

/// What an application tells its user once the group is closed.
pub(crate) fn message(alloc: Global) -> Result<String, AllocError> {
    let refusal = Refusal::Closed;
    format!(in alloc; "{refusal:?}: {refusal}")
}

fn change_of(alloc: Global, name: &str) -> Result<Change, Refusal> {
    if name == "closed" {
        return Ok(Change::Closed);
    }
    let client = Text::new(alloc, "a")?;
    Ok(Change::Mutated(incremented(alloc, &client)?))
}

/// What a change is replied: a closing, or a mutation.
pub(crate) fn changed(alloc: Global, name: &str) -> Result<String, Refusal> {
    let change = change_of(alloc, name)?;
    let reply = change.reply();
    drop(change);
    Ok(reply_text(alloc, reply)?)
}

fn reply_text(alloc: Global, reply: Reply) -> Result<String, AllocError> {
    match reply {
        Reply::Id(id) => format!(in alloc; "id {id}"),
        Reply::Ended(_) => String::from_str(alloc, "an end of a pull"),
        Reply::StateNotFound => String::from_str(alloc, "StateNotFound"),
    }
}

/// The laws of the record, of its book and of placed drafts, which are called as any function is.
pub(crate) fn laws() -> &'static str {
    record_laws();
    worked_examples();
    book_laws();
    placing_laws();
    "hold"
}

/// A claims table of 32 slots and three seats.
pub(crate) fn claims<R>(it: &Turn<'_, R>) -> Result<&'static str, Refusal> {
    begins(it.rt, it.is_marked);
    let made = Claims::new(it.rt.alloc(), 32, 3);
    ends(it.rt, it.is_marked);
    match made {
        Ok(_) => Ok("made"),
        Err(e) => Err(Refusal::from(e)),
    }
}

/// The head of a group of three seats.
pub(crate) fn head<R>(it: &Turn<'_, R>) -> Result<&'static str, Refusal> {
    begins(it.rt, it.is_marked);
    let made = Head::<ScriptMutators>::open(it.rt.alloc(), 3, 0);
    ends(it.rt, it.is_marked);
    match made {
        Ok(_) => Ok("made"),
        Err(e) => Err(Refusal::from(e)),
    }
}
