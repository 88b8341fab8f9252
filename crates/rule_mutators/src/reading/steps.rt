//! Reads steps.
ghost use Rattle.serde_json.specs.View.{view as data_of, items_view};
ghost use Rattle.rule_mutators.specs.Answers.{ReadsSeen};
ghost use Rattle.rule_mutators.specs.Inside.Parts.{parts_behind, branches_behind};
ghost use Rattle.rule_mutators.specs.Reading as spec;
ghost use Rattle.rule_mutators.specs.Views.{step_of, all_steps};

use super::expressions::{read_one, read_part, read_two};
use super::parts::{fault, read_code, read_step_word};
use crate::faults::{RuleFault, Wrong};
use crate::language::RuleStep;
use crate::places::item_at;
use crate::words::StepWord;
use serde_json::Value;
use std::alloc::Global;

/// The list of steps that a value is.
#[cycle(step)]
pub(crate) fn read_steps(
    alloc: Global,
    place: &str,
    value: &Value,
) -> Result<Vec<RuleStep>, RuleFault>
    ensures { ReadsSeen (λ ss. all_steps ss.items) result (spec.steps_said place.now (data_of value.now)) }
{
    match value {
        Value::Array(items) => read_list(alloc, place, items.as_slice()),
        _ => Err(fault(alloc, place, Wrong::NoSteps)),
    }
}

#[cycle(step)]
fn read_list(alloc: Global, place: &str, items: &[Value]) -> Result<Vec<RuleStep>, RuleFault>
    ensures { ReadsSeen (λ ss. all_steps ss.items) result (spec.list_said place.now 0 (items_view items.now)) }
{
    let mut steps = Vec::new(alloc);
    for index in 0..items.len() {
        steps.push(read_step(alloc, place, index, &items[index])?)?;
    }
    Ok(steps)
}

/// The step that the item of a number is.
#[cycle(step)]
fn read_step(alloc: Global, place: &str, index: usize, value: &Value) -> Result<RuleStep, RuleFault>
    ensures { ReadsSeen step_of result (spec.step_said (spec.item_at place.now index) (data_of value.now)) }
{
    let at = item_at(alloc, place, index)?;
    match value {
        Value::Array(items) => read_step_words(alloc, at.as_str(), items.as_slice()),
        _ => Err(fault(alloc, at.as_str(), Wrong::NoStep)),
    }
}

#[cycle(step)]
fn read_step_words(alloc: Global, place: &str, items: &[Value]) -> Result<RuleStep, RuleFault>
    ensures { ReadsSeen step_of result (spec.step_words_said place.now (items_view items.now)) }
{
    if items.is_empty() {
        return Err(fault(alloc, place, Wrong::NoWord));
    }
    let word = read_step_word(alloc, place, &items[0])?;
    read_step_parts(alloc, place, word, items)
}

#[cycle(step)]
fn read_step_parts(
    alloc: Global,
    place: &str,
    word: StepWord,
    items: &[Value],
) -> Result<RuleStep, RuleFault>
    ensures { ReadsSeen step_of result (spec.step_parts_said place.now word
        (parts_behind place.now (items_view items.now))
        (branches_behind place.now (items_view items.now))) }
{
    match word {
        StepWord::Put => {
            let (key, value) = read_two(alloc, place, items)?;
            Ok(RuleStep::Put(key, value))
        }
        StepWord::Del => Ok(RuleStep::Del(read_one(alloc, place, items)?)),
        StepWord::Merge => {
            let (key, value) = read_two(alloc, place, items)?;
            Ok(RuleStep::Merge(key, value))
        }
        StepWord::Need => read_need(alloc, place, items),
        StepWord::If => read_choice(alloc, place, items),
    }
}

/// An expression and a code.
#[tactic(auto, using(crate::proofs::Parts::not_the_two))]
fn read_need(alloc: Global, place: &str, items: &[Value]) -> Result<RuleStep, RuleFault>
    ensures { ReadsSeen step_of result (spec.need_said place.now (parts_behind place.now (items_view items.now))) }
{
    if items.len() != 3 {
        return Err(fault(alloc, place, Wrong::Parts));
    }
    let test = read_part(alloc, place, 1, &items[1])?;
    Ok(RuleStep::Need(test, read_code(alloc, place, 2, &items[2])?))
}

/// An expression and two lists of steps.
#[cycle(step)]
#[tactic(auto, using(crate::proofs::Parts::not_a_choice))]
fn read_choice(alloc: Global, place: &str, items: &[Value]) -> Result<RuleStep, RuleFault>
    ensures { ReadsSeen step_of result
        (spec.choice_said place.now (branches_behind place.now (items_view items.now))) }
{
    if items.len() != 4 {
        return Err(fault(alloc, place, Wrong::Parts));
    }
    let test = read_part(alloc, place, 1, &items[1])?;
    let on_true = read_branch(alloc, place, 2, &items[2])?;
    let on_false = read_branch(alloc, place, 3, &items[3])?;
    Ok(RuleStep::If(test, on_true, on_false))
}

/// The list of steps that is the part of a number.
#[cycle(step)]
fn read_branch(
    alloc: Global,
    place: &str,
    index: usize,
    value: &Value,
) -> Result<Vec<RuleStep>, RuleFault>
    ensures { ReadsSeen (λ ss. all_steps ss.items) result
        (spec.steps_said (spec.item_at place.now index) (data_of value.now)) }
{
    let at = item_at(alloc, place, index)?;
    read_steps(alloc, at.as_str(), value)
}
