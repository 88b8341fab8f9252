//! The texts of answers.
ghost use Rattle.std.specs.Prelude.{◌≡◌, ◌++◌, IfOk, OnOk, Err, Result, codes, string_bytes};
ghost use Rattle.rule_mutators.specs.declared.faults.RuleFault.{RuleFault};
ghost use Rattle.rule_mutators.specs.Answers.{IsFaultOf};
ghost use Rattle.rule_mutators.specs.Faults.{rules_fault_text};
ghost use Rattle.rule_mutators.specs.Rules.{Rules};
ghost use Rattle.script_server.specs.Answers.{ok_text, fault_line};

use rule_mutators::RuleFault;
use std::alloc::{AllocError, Global};

/// Appends that a line was taken.
#[tactic(auto, unfolding(crate::specs::Answers::ok_text))]
pub(crate) fn print_ok(text: &mut Vec<u8>, number: u64) -> Result<(), AllocError>
    ensures { OnOk result (text.new.items ≡ text.old.items ++ ok_text number) }
{
    let line = format!(in text.allocator().clone()?; "{number} ok\n")?;
    text.extend_from_slice(line.as_bytes())
}

/// Appends what is wrong with a line.
#[tactic(auto, unfolding(crate::specs::Answers::fault_line))]
pub(crate) fn print_fault(text: &mut Vec<u8>, number: u64, fault: &str) -> Result<(), AllocError>
    ensures { OnOk result (text.new.items ≡ text.old.items ++ fault_line number fault.now) }
{
    let line = format!(in text.allocator().clone()?; "{number} fault {fault}\n")?;
    text.extend_from_slice(line.as_bytes())
}

/// How it is told what is wrong with rules, where that is no want of memory.
pub(crate) fn rules_fault(alloc: Global, fault: &RuleFault) -> Result<String, AllocError>
    ensures told { IfOk result (λ text. string_bytes text ≡ codes "rules " ++ rules_fault_text fault.now) }
    ensures right { (right : Result Rules RuleFault) → IsFaultOf fault.now right → OnOk result (right ≡ Err fault.now) }
{
    match fault {
        RuleFault::NoMemory => Err(AllocError),
        fault => format!(in alloc; "rules {fault}"),
    }
}
