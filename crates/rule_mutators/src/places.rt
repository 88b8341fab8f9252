//! Places in the value of a text: JSON Pointers, written as a JSON string has them (RFC 6901, section 5).
ghost use Rattle.std.specs.Prelude.{◌≡◌, ◌<◌, ◌++◌, IfOk, OnOk, string_bytes};
ghost use Rattle.std.specs.Char.{digit_char};
ghost use Rattle.std.specs.Option.{option_copied};
ghost use Rattle.rule_mutators.specs.Reading as spec;

use std::alloc::{AllocError, Global};

/// The place of an item.
#[tactic(auto, unfolding(crate::specs::Reading::item_at))]
pub(crate) fn item_at(alloc: Global, place: &str, index: usize) -> Result<String, AllocError>
    ensures { IfOk result (λ at. string_bytes at ≡ spec.item_at place.now index) }
{
    format!(in alloc; "{place}/{index}")
}

/// The place of a member.
#[tactic(auto, unfolding(crate::specs::Reading::member_at))]
pub(crate) fn member_at(alloc: Global, place: &str, name: &str) -> Result<String, AllocError>
    ensures { IfOk result (λ at. string_bytes at ≡ spec.member_at place.now name.now) }
{
    let mut at = format!(in alloc; "{place}/")?;
    push_escaped(&mut at, name)?;
    Ok(at)
}

/// Adds a name, each character as a place has it.
fn push_escaped(to: &mut String, name: &str) -> Result<(), AllocError>
    ensures { OnOk result (string_bytes to.new ≡ string_bytes to.old ++ spec.escaped name.now) }
{
    for c in name.chars() {
        push_escaped_char(to, c)?;
    }
    Ok(())
}

fn push_escaped_char(to: &mut String, c: char) -> Result<(), AllocError>
    ensures { OnOk result (string_bytes to.new ≡ string_bytes to.old ++ spec.escaped_char c) }
{
    match escape_of(c) {
        Some(text) => to.push_str(text),
        None => push_unnamed(to, c),
    }
}

/// How a character is written that has an escape of its own.
#[tactic(auto, unfolding(crate::specs::Reading::escape_of))]
fn escape_of(c: char) -> Option<&'static str>
    ensures { option_copied result ≡ spec.escape_of c }
{
    match c {
        '~' => Some("~0"),
        '/' => Some("~1"),
        '"' => Some("\\\""),
        '\\' => Some("\\\\"),
        '\u{8}' => Some("\\b"),
        '\t' => Some("\\t"),
        '\n' => Some("\\n"),
        '\u{c}' => Some("\\f"),
        '\r' => Some("\\r"),
        _ => None,
    }
}

/// Adds another character: a control character by its number, any other as it is.
#[tactic(auto, unfolding(crate::specs::Reading::unnamed_char))]
fn push_unnamed(to: &mut String, c: char) -> Result<(), AllocError>
    ensures { OnOk result (string_bytes to.new ≡ string_bytes to.old ++ spec.unnamed_char c) }
{
    let code = u32::from(c);
    if code >= 32 {
        return to.push(c);
    }
    to.push_str(if code < 16 { "\\u000" } else { "\\u001" })?;
    to.push(hexadecimal(code % 16))
}

/// The hexadecimal digit of a number below 16.
fn hexadecimal(digit: u32) -> char
    requires { digit < 16 }
    ensures { result ≡ digit_char digit }
{
    match char::from_digit(digit, 16) {
        Some(c) => c,
        None => unreachable!(),
    }
}
