//! JSON as the product keeps it: the compact text of a value with whole numbers alone.
//!
//! A `Json` always holds such a text: reading it gives the very same text again, and that is the
//! invariant of its type. Contracts see it as the list of the text's bytes.
ghost use Rattle.std.specs.Prelude.{◌≡◌, ◌≤◌, false, Some, IfOk, Ok, IsOkUnless, not, nat_le, nat_eq};
ghost use Rattle.std.specs.Cmp as laws;
ghost use Rattle.std.specs.Cmp.Lexicographic.{pointwise, nat_list_eq_equiv};
ghost use Rattle.serde_json.specs.Data.{depth, items_depth, members_depth};
ghost use Rattle.serde_json.specs.View.{view, items_view, members_view};
ghost use Rattle.serde_json.specs.Written.{has_float, items_have_float, members_have_float, compact_text};
ghost use Rattle.group_history.specs.declared.refusals.Refusal.TheVariants as refusal;
ghost use Rattle.group_history.specs.Answers.{AnswersSeen, AnswersOrNoMemory};
ghost use Rattle.group_history.specs.Json.{reading, json_text, text_of};
ghost use Rattle.group_history.specs.Meaning.{value_of};

mod compact;

use crate::refusals::Refusal;
use crate::texts::Text;
use serde_json::{Map, Value};
use std::alloc::{AllocError, Global};
use std::fmt;
use std::marker::Model;

/// The compact text of a JSON value with whole numbers alone, nested at most 124 deep. A clone copies
/// no bytes.
pub struct Json {
    compact: Text,
}

impl Drop for Json {
    fn drop(self) {
        let Json { compact } = self;
        drop(compact);
    }
}

impl Model for Json {
    ghost use Rattle.std.specs.Prelude.{◌≡◌, ℕ, List, Ok};
    ghost use Rattle.group_history.specs.Json.{json_text};

    ghost Value = { List ℕ };

    ghost view = { λ j. j.compact };

    ghost invariant = { λ j. json_text j.compact ≡ Ok j.compact };
}

/// The JSON value that the bytes are: UTF-8, one JSON text, nested at most 127 deep. Any other bytes
/// are refused with NotJson (RFC 8259).
pub fn read_value(alloc: Global, bytes: &[u8]) -> Result<Value, Refusal>
    ensures value { AnswersSeen view result (reading bytes.now) }
    ensures nests { IfOk result (λ v. depth (view v) ≤ 127) }
{
    match Value::from_slice(alloc, bytes) {
        Ok(value) => Ok(value),
        Err(e) => if e.is_memory() {
            Err(Refusal::NoMemory)
        } else {
            Err(Refusal::NotJson)
        },
    }
}

/// Whether every number in the value is a whole number of 64 bits.
#[cycle(is_whole)]
pub fn is_whole(value: &Value) -> bool
    ensures { result ≡ not (has_float (view value.now)) }
{
    match value {
        Value::Number(number) => !number.is_f64(),
        Value::Array(items) => are_whole(items),
        Value::Object(members) => has_whole_members(members),
        _ => true,
    }
}

#[cycle(is_whole)]
fn are_whole(items: &Vec<Value>) -> bool
    ensures { result ≡ not (items_have_float (items_view items.now.items)) }
{
    for item in items {
        if !is_whole(item) {
            return false;
        }
    }
    true
}

#[cycle(is_whole)]
fn has_whole_members(members: &Map<String, Value>) -> bool
    ensures { result ≡ not (members_have_float (members_view members.now.entries)) }
{
    for (_name, member) in members.iter() {
        if !is_whole(member) {
            return false;
        }
    }
    true
}

/// Whether the value nests at most so deep: a scalar nests 0, an array or object one more than its deepest member.
#[cycle(nests_within)]
pub fn nests_within(value: &Value, limit: u32) -> bool
    ensures { result ≡ nat_le (depth (view value.now)) limit }
{
    match value {
        Value::Array(items) => limit > 0 && items_nest_within(items, limit - 1),
        Value::Object(members) => limit > 0 && members_nest_within(members, limit - 1),
        _ => true,
    }
}

#[cycle(nests_within)]
fn items_nest_within(items: &Vec<Value>, limit: u32) -> bool
    ensures { result ≡ nat_le (items_depth (items_view items.now.items)) limit }
{
    for item in items {
        if !nests_within(item, limit) {
            return false;
        }
    }
    true
}

#[cycle(nests_within)]
fn members_nest_within(members: &Map<String, Value>, limit: u32) -> bool
    ensures { result ≡ nat_le (members_depth (members_view members.now.entries)) limit }
{
    for (_name, member) in members.iter() {
        if !nests_within(member, limit) {
            return false;
        }
    }
    true
}

/// How deep a value may nest: three levels less than a body in which it is put.
const MAX_NESTING: u32 = 124;

impl Json {
    /// The compact text of the value that the bytes are. Refused with NotJson where they are no JSON
    /// text or nest deeper than 124, and then with NotWhole where a number isn't whole.
    pub fn read(alloc: Global, bytes: &[u8]) -> Result<Json, Refusal>
        ensures { AnswersOrNoMemory result (json_text bytes.now) }
    {
        let value = read_value(alloc, bytes)?;
        Json::of(alloc, &value)
    }

    /// The compact text of a value, with the same refusals. `NoMemory` may come in place of any answer.
    pub fn of(alloc: Global, value: &Value) -> Result<Json, Refusal>
        ensures { AnswersOrNoMemory result (text_of (view value.now)) }
    {
        if !nests_within(value, MAX_NESTING) {
            return Err(Refusal::NotJson);
        }
        if !is_whole(value) {
            return Err(Refusal::NotWhole);
        }
        Ok(Json::of_whole(alloc, value)?)
    }

    /// The same, of a value that is known to have one.
    pub fn of_whole(alloc: Global, value: &Value) -> Result<Json, AllocError>
        requires shallow { depth (view value.now) ≤ 124 }
        requires whole { has_float (view value.now) ≡ false }
        ensures { IfOk result (λ j. j ≡ compact_text (view value.now)) }
    {
        let compact = Text::from_string(value.to_string(alloc)?)?;
        Ok(Json { compact })
    }

    /// The compact text: no white space outside texts, fields in the order of their names' bytes.
    pub fn text(&self) -> &str
        ensures { result.now ≡ self.now }
    {
        self.compact.as_str()
    }

    /// The value that the text is: nested at most 124 deep, with whole numbers alone.
    pub fn value(&self, alloc: Global) -> Result<Value, AllocError>
        ensures value { IfOk result (λ v. value_of self.now ≡ Some (view v)) }
        ensures text { IfOk result (λ v. text_of (view v) ≡ Ok self.now) }
        ensures shallow { IfOk result (λ v. depth (view v) ≤ 124) }
        ensures whole { IfOk result (λ v. has_float (view v) ≡ false) }
    {
        match read_value(alloc, self.compact.as_str().as_bytes()) {
            Ok(value) => Ok(value),
            Err(refusal) => {
                let is_memory = refusal == Refusal::NoMemory;
                prove!(is_memory);
                Err(AllocError)
            }
        }
    }
}

impl Clone for Json {
    ghost is_clone = { λ t copy. copy ≡ t };

    fn clone(&self) -> Result<Json, AllocError> {
        let compact = self.compact.clone()?;
        Ok(Json { compact })
    }
}

impl PartialEq for Json {
    ghost eq = { λ x y. pointwise nat_eq x y };

    ghost laws = { laws.partial_equiv_from_equiv nat_list_eq_equiv };

    fn eq(&self, other: &Self) -> bool {
        self.text() == other.text()
    }
}

impl Eq for Json {
    ghost laws = { nat_list_eq_equiv };
}

impl fmt::Debug for Json {
    fn fmt<W: fmt::Write>(&self, f: &mut fmt::Formatter<W>) -> fmt::Result {
        f.write_str(self.text())
    }
}

impl fmt::Display for Json {
    ghost output = { λ t. Some t };

    fn fmt<W: fmt::Write>(&self, f: &mut fmt::Formatter<W>) -> fmt::Result {
        f.write_str(self.text())
    }
}
