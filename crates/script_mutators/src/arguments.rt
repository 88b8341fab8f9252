//! The arguments of a mutator, as far as mutators look at them.
//!
//! Plain ones are read from the compact text itself: a text without escapes, alone or before a short whole
//! number or another such text. All others are a tree of JSON values. `args_value` says which value each
//! stands for, and the contracts speak of that value alone.
ghost use Rattle.std.specs.Prelude.{◌≡◌, ◌≤◌, ◌∷◌, ◌++◌, [], false, Some, IfSome, IfOk, IfErr, option_map};
ghost use Rattle.serde_json.specs.Data.{depth};
ghost use Rattle.serde_json.specs.Find.{as_str};
ghost use Rattle.serde_json.specs.View.{view as data_of};
ghost use Rattle.serde_json.specs.Written.{has_float, compact_text};
ghost use Rattle.group_history.specs.Meaning.{value_of};
ghost use Rattle.group_history.specs.declared.mutators.Stop.TheVariants.{NoMemory};
ghost use Rattle.script_mutators.specs.Mutators as spec;
ghost use Rattle.script_mutators.specs.Inside.Arguments.{args_value, part_value};

use crate::plain::{before_quote, plain_number, plain_text};
use crate::values::{decimal, quoted};
use group_history::{Json, Stop};
use serde_json::Value;
use std::alloc::{AllocError, Global};

/// Arguments.
#[derive(Drop)]
pub(crate) enum Args<'a> {
    Text(&'a str),
    TextAndNumber(&'a str, i64),
    TextAndText(&'a str, &'a str),
    Other(Value),
}

/// One of the arguments.
#[derive(Clone, Copy)]
pub(crate) enum Argument<'a> {
    Number(i64),
    Text(&'a str),
    Other(&'a Value),
}

/// The arguments that a JSON text is.
pub(crate) fn args_of(alloc: Global, args: &Json) -> Result<Args<'_>, Stop>
    ensures value { IfOk result (λ a. value_of args.now ≡ Some (args_value a)) }
    ensures shallow { IfOk result (λ a. depth (args_value a) ≤ 124) }
    ensures whole { IfOk result (λ a. has_float (args_value a) ≡ false) }
    ensures stopped { IfErr result (λ stop. stop ≡ NoMemory) }
{
    match plain_args(args.text()) {
        Some(plain) => Ok(plain),
        None => Ok(Args::Other(args.value(alloc)?)),
    }
}

/// The arguments that a JSON text is, where they are plain.
fn plain_args(text: &str) -> Option<Args<'_>>
    ensures value { IfSome result (λ a. value_of text.now ≡ Some (args_value a)) }
    ensures shallow { IfSome result (λ a. depth (args_value a) ≤ 124) }
    ensures whole { IfSome result (λ a. has_float (args_value a) ≡ false) }
{
    let bytes = text.as_bytes();
    if bytes.len() < 2 || bytes[0] != b'[' || bytes[1] != b'"' {
        return None;
    }
    let (key, rest) = before_quote(&text[2..])?;
    if rest == "]" {
        return Some(Args::Text(key));
    }
    let value = between(rest)?;
    if let Some(number) = plain_number(value) {
        return Some(Args::TextAndNumber(key, number));
    }
    Some(Args::TextAndText(key, plain_text(value)?))
}

/// What stands between a comma and a closing bracket.
fn between(text: &str) -> Option<&str>
    ensures { IfSome result (λ s. text.now ≡ 44 ∷ (s.now ++ 93 ∷ [])) }
{
    let bytes = text.as_bytes();
    let len = bytes.len();
    if len < 2 || bytes[0] != b',' || bytes[len - 1] != b']' {
        return None;
    }
    Some(&text[1..len - 1])
}

/// Arguments that are one text.
#[tactic(auto, unfolding(crate::specs::Mutators::text_alone))]
pub(crate) fn text_alone<'a>(args: &'a Args<'_>) -> Option<&'a str>
    ensures { option_map (λ s. s.now) result ≡ spec.text_alone (args_value args.now) }
{
    match args {
        Args::Text(text) => Some(text),
        Args::Other(value) => one_text(value),
        _ => None,
    }
}

/// The one text that a value is as arguments.
#[tactic(auto, using(crate::proofs::MutatorArguments::no_one_item), unfolding(crate::specs::Mutators::text_alone))]
fn one_text(args: &Value) -> Option<&str>
    ensures { option_map (λ s. s.now) result ≡ spec.text_alone (data_of args.now) }
{
    let items = args.as_array()?;
    if items.len() != 1 {
        return None;
    }
    items[0].as_str()
}

/// Arguments that are a text and any value.
#[tactic(auto, unfolding(crate::specs::Mutators::text_and_value))]
pub(crate) fn text_and_value<'a>(args: &'a Args<'_>) -> Option<(&'a str, Argument<'a>)>
    ensures { option_map (λ both. (both.0.now, part_value both.1)) result ≡ spec.text_and_value (args_value args.now) }
{
    match args {
        Args::Text(_) => None,
        Args::TextAndNumber(text, number) => Some((text, Argument::Number(*number))),
        Args::TextAndText(text, other) => Some((text, Argument::Text(other))),
        Args::Other(value) => {
            let (text, value) = text_and_other(value)?;
            Some((text, Argument::Other(value)))
        }
    }
}

/// The text and the other value that a value is as arguments.
#[tactic(auto, using(crate::proofs::MutatorArguments::no_two_items), unfolding(crate::specs::Mutators::text_and_value))]
fn text_and_other(args: &Value) -> Option<(&str, &Value)>
    ensures { option_map (λ both. (both.0.now, data_of both.1.now)) result ≡ spec.text_and_value (data_of args.now) }
{
    let items = args.as_array()?;
    if items.len() != 2 {
        return None;
    }
    Some((items[0].as_str()?, &items[1]))
}

/// Arguments that are a text and a number.
#[tactic(auto, unfolding(crate::specs::Mutators::text_and_number))]
pub(crate) fn text_and_number<'a>(args: &'a Args<'_>) -> Option<(&'a str, i64)>
    ensures { option_map (λ both. (both.0.now, both.1)) result ≡ spec.text_and_number (args_value args.now) }
{
    let (text, part) = text_and_value(args)?;
    Some((text, number_at(part)?))
}

/// Arguments that are two texts.
#[tactic(auto, unfolding(crate::specs::Mutators::text_and_text))]
pub(crate) fn text_and_text<'a>(args: &'a Args<'_>) -> Option<(&'a str, &'a str)>
    ensures { option_map (λ both. (both.0.now, both.1.now)) result ≡ spec.text_and_text (args_value args.now) }
{
    let (text, part) = text_and_value(args)?;
    Some((text, text_at(part)?))
}

/// The number that it is, where it is one from -2^63 to 2^63 - 1.
fn number_at(part: Argument<'_>) -> Option<i64>
    ensures { result ≡ spec.number_of (part_value part.entry) }
{
    match part {
        Argument::Number(number) => Some(number),
        Argument::Text(_) => None,
        Argument::Other(value) => value.as_i64(),
    }
}

/// The text that it is, where it is one.
fn text_at(part: Argument<'_>) -> Option<&str>
    ensures { option_map (λ s. s.now) result ≡ as_str (part_value part.entry) }
{
    match part {
        Argument::Number(_) => None,
        Argument::Text(text) => Some(text),
        Argument::Other(value) => value.as_str(),
    }
}

/// The JSON text of one of the arguments.
pub(crate) fn json_of(alloc: Global, part: Argument<'_>) -> Result<Json, AllocError>
    requires shallow { depth (part_value part) ≤ 124 }
    requires whole { has_float (part_value part) ≡ false }
    ensures { IfOk result (λ json. json ≡ compact_text (part_value part.entry)) }
{
    match part {
        Argument::Number(number) => decimal(alloc, number),
        Argument::Text(text) => quoted(alloc, String::from_str(alloc, text)?),
        Argument::Other(value) => Json::of_whole(alloc, value),
    }
}
