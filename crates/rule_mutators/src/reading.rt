//! Reads rules from a text.
//!
//! Each function answers what its definition in `specs/Reading.antt` says of the value that it is given, at the place
//! where the value stands: what was read, or the first fault in the order of reading. Want of memory may come in place
//! of either.
ghost use Rattle.std.specs.Prelude.{Err, Result};
ghost use Rattle.serde_json.specs.View.{view as data_of, members_view};
ghost use Rattle.rule_mutators.specs.Answers.{ReadsSeen};
ghost use Rattle.rule_mutators.specs.Reading as spec;
ghost use Rattle.rule_mutators.specs.Views.{rule_of, rules_of};

mod expressions;
mod parts;
mod steps;

use crate::faults::RuleFault;
use crate::language::{RuleStep, Rules};
use crate::places::member_at;
use group_history::{Refusal, Text, read_value};
use serde_json::{Map, Value};
use std::alloc::Global;
use steps::read_steps;

impl Rules {
    /// The rules that a text says: UTF-8, a JSON object of lists of steps (RFC 8259), nested at most 127 deep. Any
    /// other text is refused with the first fault in the order of reading: no JSON, no object, or what is wrong at a
    /// place. NoMemory may come in place of any answer.
    #[tactic(auto, unfolding(crate::specs::Reading::rules_said))]
    pub fn read(alloc: Global, text: &[u8]) -> Result<Rules, RuleFault>
        ensures { ReadsSeen rules_of result (spec.rules_said text.now) }
    {
        let value = match read_value(alloc, text) {
            Ok(value) => value,
            Err(Refusal::NoMemory) => return Err(RuleFault::NoMemory),
            Err(_) => return Err(RuleFault::NotJson),
        };
        let rules = match &value {
            Value::Object(members) => read_named(alloc, members),
            _ => Err(RuleFault::NotObject),
        };
        drop(value);
        rules
    }
}

/// The rules of an object.
fn read_named(alloc: Global, members: &Map<String, Value>) -> Result<Rules, RuleFault>
    ensures { ReadsSeen rules_of result (spec.named_said (members_view members.now.entries)) }
{
    let mut rules = Vec::new(alloc);
    for (name, value) in members.iter() {
        rules.push(read_rule(alloc, name.as_str(), value)?)?;
    }
    Ok(Rules { rules })
}

/// The rule of a name.
fn read_rule(alloc: Global, name: &str, value: &Value) -> Result<(Text, Vec<RuleStep>), RuleFault>
    ensures { ReadsSeen rule_of result (spec.rule_said name.now (data_of value.now)) }
{
    let at = member_at(alloc, "", name)?;
    let steps = read_steps(alloc, at.as_str(), value);
    drop(at);
    let steps = steps?;
    Ok((Text::new(alloc, name)?, steps))
}
