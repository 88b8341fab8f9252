//! Tells a host what is wrong with the rules that it gives.
ghost use Rattle.std.specs.Prelude.{◌≡◌, ◌<◌, ◌^◌, IfOk, OnErr, OnOk, length};
ghost use Rattle.rule_mutators.specs.Answers.{ReadsSeen};
ghost use Rattle.rule_mutators.specs.Faults.{fault_told, laid_over};
ghost use Rattle.rule_mutators.specs.Reading.{rules_or_none};
ghost use Rattle.rule_mutators.specs.Views.{rules_of};

use crate::faults::RuleFault;
use crate::language::Rules;
use std::alloc::{AllocError, Global};

impl Rules {
    /// The rules that a text says, as `read` has them; no bytes are no rules.
    pub fn read_or_none(alloc: Global, text: &[u8]) -> Result<Rules, RuleFault>
        ensures { ReadsSeen rules_of result (rules_or_none text.now) }
    {
        if text.is_empty() {
            return Ok(Rules::none(alloc));
        }
        Rules::read(alloc, text)
    }
}

/// Tells what is wrong with rules, as much of the text as there is room for. Answers how long the whole text is, 0
/// where nothing is wrong. Where memory is refused nothing is told.
pub fn tell_fault(alloc: Global, rules: &[u8], room: &mut [u8]) -> Result<usize, AllocError>
    ensures length { IfOk result (λ n. n ≡ length (fault_told rules.now)) }
    ensures small { IfOk result (λ n. n < 2 ^ 63) }
    ensures told { OnOk result (room.new ≡ laid_over (fault_told rules.now) room.old) }
    ensures err { OnErr result (room.new ≡ room.old) }
{
    match Rules::read_or_none(alloc, rules) {
        Ok(_) => Ok(0),
        Err(RuleFault::NoMemory) => Err(AllocError),
        Err(fault) => {
            let text = fault.to_string(alloc)?;
            lay_over(text.as_bytes(), room);
            Ok(text.len())
        }
    }
}

/// Writes as much of a text as there is room for.
fn lay_over(text: &[u8], room: &mut [u8])
    ensures { room.new ≡ laid_over text.now room.old }
{
    let count = text.len().min(room.len());
    room[..count].copy_from_slice(&text[..count]);
}
