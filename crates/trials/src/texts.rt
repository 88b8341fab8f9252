//! What is read from texts and written to them, as a text. A refusal is its name.
use crate::calls::Turn;
use crate::marks::{begins, ends};
use group_history::{
    Confirmed, Cookie, Json, Patch, PullOk, Refusal, Response, Text, TextMap, apply_patch,
    cookie_cmp, nests_within, read_value,
};
use pull_patch::read_response;
use std::alloc::{AllocError, Global};
use std::cmp::Ordering;

/// The compact text of a JSON text, by way of the value that it is.
pub(crate) fn compact<R>(it: &Turn<'_, R>, text: &str) -> Result<String, Refusal> {
    begins(it.rt, it.is_marked);
    let read = Json::read(it.rt.alloc(), text.as_bytes());
    ends(it.rt, it.is_marked);
    compact_again(it.rt.alloc(), &read?)
}

fn compact_again(alloc: Global, json: &Json) -> Result<String, Refusal> {
    let value = json.value(alloc)?;
    let again = Json::of(alloc, &value)?;
    Ok(String::from_str(alloc, again.text())?)
}

/// A text, as it is kept.
pub(crate) fn kept<R>(it: &Turn<'_, R>, text: &str) -> Result<String, Refusal> {
    begins(it.rt, it.is_marked);
    let kept = Text::new(it.rt.alloc(), text);
    ends(it.rt, it.is_marked);
    Ok(String::from_str(it.rt.alloc(), kept?.as_str())?)
}

fn operation(alloc: Global, operation: &Patch) -> Result<String, AllocError> {
    match operation {
        Patch::Put(key, value) => format!(in alloc; " put {key} {value}"),
        Patch::Del(key) => format!(in alloc; " del {key}"),
        Patch::Clear => String::from_str(alloc, " clear"),
    }
}

fn add_changes(text: &mut String, changes: &[Confirmed]) -> Result<(), AllocError> {
    let alloc = text.allocator().clone()?;
    for change in changes {
        let (client, id) = (change.client.as_str(), change.id);
        text.push_str(format!(in alloc; " {client}:{id}")?.as_str())?;
    }
    Ok(())
}

fn add_operations(text: &mut String, patch: &[Patch]) -> Result<(), AllocError> {
    let alloc = text.allocator().clone()?;
    for op in patch {
        text.push_str(operation(alloc, op)?.as_str())?;
    }
    Ok(())
}

/// The cookie, the confirmed ids and the operations, a space before each but the first.
fn pulled(alloc: Global, pull: &PullOk) -> Result<String, AllocError> {
    let mut text = String::from_str(alloc, pull.cookie().text())?;
    add_changes(&mut text, pull.changes())?;
    add_operations(&mut text, pull.patch())?;
    Ok(text)
}

fn response_told(alloc: Global, response: &Response) -> Result<String, AllocError> {
    match response {
        Response::Ok(pull) => pulled(alloc, pull),
        Response::StateNotFound => String::from_str(alloc, "StateNotFound"),
        Response::VersionNotSupported(kind) => format!(in alloc; "VersionNotSupported {kind}"),
    }
}

fn read<R>(it: &Turn<'_, R>, body: &[u8]) -> Result<Response, Refusal> {
    begins(it.rt, it.is_marked);
    let read = read_response(it.rt.alloc(), body);
    ends(it.rt, it.is_marked);
    read
}

/// What the body of a response says.
pub(crate) fn response<R>(it: &Turn<'_, R>, body: &[u8]) -> Result<String, Refusal> {
    let response = read(it, body)?;
    Ok(response_told(it.rt.alloc(), &response)?)
}

/// The same of a body in hexadecimal.
pub(crate) fn response_of_bytes<R>(it: &Turn<'_, R>, digits: &str) -> Result<String, Refusal> {
    match hex::decode(it.rt.alloc(), digits) {
        Ok(body) => response(it, &body),
        Err(_) => Err(Refusal::BadShape),
    }
}

fn map_after<R>(it: &Turn<'_, R>, body: &str) -> Result<TextMap<Json>, Refusal> {
    let alloc = it.rt.alloc();
    match read(it, body.as_bytes())? {
        Response::Ok(pull) => Ok(apply_patch(&TextMap::<Json>::new(alloc), pull.patch())?),
        _ => Ok(TextMap::new(alloc)),
    }
}

/// The value at `n` in the map that the patch of a body makes of an empty one.
pub(crate) fn applied<R>(it: &Turn<'_, R>, body: &str) -> Result<String, Refusal> {
    let alloc = it.rt.alloc();
    let n = Text::new(alloc, "n")?;
    match map_after(it, body)?.get(&n) {
        Some(value) => Ok(String::from_str(alloc, value.text())?),
        None => Ok(String::from_str(alloc, "none")?),
    }
}

/// The cookie that a JSON text is.
pub(crate) fn cookie_of(alloc: Global, text: &str) -> Result<Option<Cookie>, Refusal> {
    let value = read_value(alloc, text.as_bytes())?;
    if !nests_within(&value, 126) {
        return Ok(None);
    }
    Ok(Cookie::of(alloc, &value)?)
}

/// Its compact text.
pub(crate) fn cookie(alloc: Global, text: &str) -> Result<String, Refusal> {
    match cookie_of(alloc, text)? {
        Some(cookie) => Ok(String::from_str(alloc, cookie.text())?),
        None => Ok(String::from_str(alloc, "no cookie")?),
    }
}

fn sign_of(order: Ordering) -> &'static str {
    match order {
        Ordering::Less => "<",
        Ordering::Equal => "=",
        Ordering::Greater => ">",
    }
}

fn sign_before<R>(it: &Turn<'_, R>, low: &Cookie, high: &str) -> Result<&'static str, Refusal> {
    let Some(high) = cookie_of(it.rt.alloc(), high)? else {
        return Ok("no cookie");
    };
    begins(it.rt, it.is_marked);
    let order = cookie_cmp(low, &high);
    ends(it.rt, it.is_marked);
    Ok(sign_of(order))
}

/// How the cookie before the bar stands to the one after it.
pub(crate) fn order<R>(it: &Turn<'_, R>, cookies: &str) -> Result<&'static str, Refusal> {
    let Some((low, high)) = cookies.split_once(" | ") else {
        return Ok("no cookies");
    };
    match cookie_of(it.rt.alloc(), low)? {
        Some(low) => sign_before(it, &low, high),
        None => Ok("no cookie"),
    }
}
