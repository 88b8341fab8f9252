//! Words, and parts that are no expressions.
ghost use Rattle.std.specs.Prelude.{◌≡◌, Err, Result};
ghost use Rattle.serde_json.specs.View.{view as data_of, items_view};
ghost use Rattle.group_history.specs.Map.{Bytes};
ghost use Rattle.rule_mutators.specs.Answers.{ReadsSeen, IsFaultOf};
ghost use Rattle.rule_mutators.specs.Inside.Parts.{parts_behind};
ghost use Rattle.rule_mutators.specs.Reading as spec;
ghost use Rattle.rule_mutators.specs.Views.{expression_of};
ghost use Rattle.rule_mutators.specs.declared.faults.RuleFault.TheVariants.{At};

use crate::faults::{RuleFault, Wrong};
use crate::language::{Expr, Which};
use crate::places::item_at;
use crate::words::{StepWord, Word, step_word_of, word_of};
use group_history::{Text, is_whole};
use serde_json::Value;
use std::alloc::Global;

/// A fault at a place.
pub(crate) fn fault(alloc: Global, place: &str, wrong: Wrong) -> RuleFault
    ensures { IsFaultOf {Y = Bytes} result (Err (At place.now wrong)) }
{
    match Text::new(alloc, place) {
        Ok(place) => RuleFault::At(place, wrong),
        Err(_) => RuleFault::NoMemory,
    }
}

/// A fault at the part of a number.
fn fault_at(alloc: Global, place: &str, index: usize, wrong: Wrong) -> RuleFault
    ensures { IsFaultOf {Y = Bytes} result (Err (At (spec.item_at place.now index) wrong)) }
{
    match item_at(alloc, place, index) {
        Ok(at) => fault(alloc, at.as_str(), wrong),
        Err(_) => RuleFault::NoMemory,
    }
}

/// The word of an expression that a value is.
pub(crate) fn read_word(alloc: Global, place: &str, value: &Value) -> Result<Word, RuleFault>
    ensures { ReadsSeen (λ w. w) result (spec.known_word place.now spec.rule_word_of (data_of value.now)) }
{
    let Some(text) = value.as_str() else {
        return Err(fault(alloc, place, Wrong::NoWord));
    };
    match word_of(text) {
        Some(word) => Ok(word),
        None => Err(fault(alloc, place, Wrong::UnknownWord)),
    }
}

/// The word of a step that a value is.
pub(crate) fn read_step_word(
    alloc: Global,
    place: &str,
    value: &Value,
) -> Result<StepWord, RuleFault>
    ensures { ReadsSeen (λ w. w) result (spec.known_word place.now spec.step_word_of (data_of value.now)) }
{
    let Some(text) = value.as_str() else {
        return Err(fault(alloc, place, Wrong::NoWord));
    };
    match step_word_of(text) {
        Some(word) => Ok(word),
        None => Err(fault(alloc, place, Wrong::UnknownWord)),
    }
}

/// The one part.
#[tactic(auto, using(crate::proofs::Parts::not_the_one))]
pub(crate) fn one_part<'v>(
    alloc: Global,
    place: &str,
    items: &'v [Value],
) -> Result<&'v Value, RuleFault>
    ensures { ReadsSeen (λ v. data_of v.now) result
        (spec.one_value place.now (parts_behind place.now (items_view items.now))) }
{
    if items.len() != 2 {
        return Err(fault(alloc, place, Wrong::Parts));
    }
    Ok(&items[1])
}

/// A value that stands for itself, whose numbers are whole.
#[tactic(auto, unfolding(crate::specs::Reading::literal_said))]
pub(crate) fn read_literal(alloc: Global, place: &str, value: &Value) -> Result<Expr, RuleFault>
    ensures { ReadsSeen expression_of result (spec.literal_said place.now (data_of value.now)) }
{
    if !is_whole(value) {
        return Err(fault(alloc, place, Wrong::NotWhole));
    }
    Ok(Expr::Literal(value.clone()?))
}

/// Which of the arguments the part of a number names.
pub(crate) fn read_which(
    alloc: Global,
    place: &str,
    index: usize,
    value: &Value,
) -> Result<Which, RuleFault>
    ensures { ReadsSeen (λ w. w) result (spec.which_said (spec.item_at place.now index) (data_of value.now)) }
{
    if let Some(index) = value.as_u64() {
        return Ok(Which::At(index));
    }
    match value.as_str() {
        Some(name) => Ok(Which::Named(Text::new(alloc, name)?)),
        None => Err(fault_at(alloc, place, index, Wrong::NoArgument)),
    }
}

/// The name that the part of a number is.
pub(crate) fn read_name(
    alloc: Global,
    place: &str,
    index: usize,
    value: &Value,
) -> Result<Text, RuleFault>
    ensures { ReadsSeen (λ s. s) result (spec.name_said (spec.item_at place.now index) (data_of value.now)) }
{
    match value.as_str() {
        Some(name) => Ok(Text::new(alloc, name)?),
        None => Err(fault_at(alloc, place, index, Wrong::NoName)),
    }
}

/// The code, below 2^32, that the part of a number is.
pub(crate) fn read_code(
    alloc: Global,
    place: &str,
    index: usize,
    value: &Value,
) -> Result<u32, RuleFault>
    ensures { ReadsSeen (λ n. n) result (spec.code_said (spec.item_at place.now index) (data_of value.now)) }
{
    match code_of(value) {
        Some(code) => Ok(code),
        None => Err(fault_at(alloc, place, index, Wrong::NoCode)),
    }
}

fn code_of(value: &Value) -> Option<u32>
    ensures { result ≡ spec.code_of (data_of value.now) }
{
    u32::try_from(value.as_u64()?).ok()
}
