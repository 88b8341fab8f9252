//! Steps, done in order.
//!
//! Each function has the clause `ran`: it runs as its steps mean, at the arguments and at what the view shows.
ghost use Rattle.std.specs.Prelude.{◌≡◌, IfOk, IfErr};
ghost use Rattle.serde_json.specs.View.{view as data_of};
ghost use Rattle.group_history.specs.Ran.{RunsAs};
ghost use Rattle.group_history.specs.Stops.{MayStop};
ghost use Rattle.group_history.specs.declared.mutators.Stop.TheVariants.{NoMemory};
ghost use Rattle.rule_mutators.specs.Inside.Merging as inside;
ghost use Rattle.rule_mutators.specs.Meaning as spec;
ghost use Rattle.rule_mutators.specs.Rules as rule;
ghost use Rattle.rule_mutators.specs.Views.{expression_of, step_of, all_steps};

use crate::evaluating::{RuleCall, key_at, truth_at, value_at};
use crate::language::{Expr, RuleStep};
use crate::values::{kept, merged, value_there};
use group_history::{Json, Ran, Stop, Update, WriteView};
use serde_json::Value;
use std::alloc::Global;

/// The code with which a rule refuses what is of a wrong type, missing or out of range.
const WRONG: u32 = 1;

/// Does steps in order. What was written is left where a later step refuses.
#[cycle(steps)]
pub(crate) fn run_steps<V: WriteView>(
    call: RuleCall<'_>,
    view: &mut V,
    steps: &Vec<RuleStep>,
) -> Result<Ran, Stop>
    ensures ran { IfOk result (λ ran. RunsAs
        (spec.steps_mean (all_steps steps.now.items) (data_of call.entry.args.now) (V.contents view.old)) ran
        (V.contents view.new)) }
    ensures stopped { IfErr result (MayStop V.stops) }
{
    for step in steps {
        match run_step(call, view, step)? {
            Ran::Done => {}
            ended => return Ok(ended),
        }
    }
    Ok(Ran::Done)
}

#[cycle(steps)]
fn run_step<V: WriteView>(call: RuleCall<'_>, view: &mut V, step: &RuleStep) -> Result<Ran, Stop>
    ensures ran { IfOk result (λ ran. RunsAs
        (spec.step_means (step_of step.now) (data_of call.entry.args.now) (V.contents view.old)) ran
        (V.contents view.new)) }
    ensures stopped { IfErr result (MayStop V.stops) }
{
    match step {
        RuleStep::Put(key, e) => put(call, view, key, e),
        RuleStep::Del(key) => del(call, view, key),
        RuleStep::Merge(key, e) => merge(call, view, key, e),
        RuleStep::Need(e, code) => need(call, view, e, *code),
        RuleStep::If(e, yes, other) => match truth_at(call, view, e) {
            Ok(Some(true)) => run_steps(call, view, yes),
            Ok(Some(false)) => run_steps(call, view, other),
            Ok(None) => Ok(Ran::Refused(WRONG)),
            Err(stop) => Err(stop),
        },
    }
}

fn put<V: WriteView>(call: RuleCall<'_>, view: &mut V, key: &Expr, e: &Expr) -> Result<Ran, Stop>
    ensures ran { IfOk result (λ ran. RunsAs
        (spec.step_means (rule.put (expression_of key.now) (expression_of e.now)) (data_of call.entry.args.now)
        (V.contents view.old)) ran (V.contents view.new)) }
    ensures stopped { IfErr result (MayStop V.stops) }
{
    let Some(key) = key_at(call, view, key)? else {
        return Ok(Ran::Refused(WRONG));
    };
    let Some(value) = value_at(call, view, e)? else {
        return Ok(Ran::Refused(WRONG));
    };
    let ran = put_value(call.alloc, view, key.as_str(), &value);
    drop(value);
    ran
}

/// Puts a value at a key.
fn put_value<V: WriteView>(
    alloc: Global,
    view: &mut V,
    key: &str,
    value: &Value,
) -> Result<Ran, Stop>
    ensures ran { IfOk result (λ ran. RunsAs
        (spec.put_means key.now (data_of value.now) (V.contents view.old)) ran (V.contents view.new)) }
    ensures stopped { IfErr result (MayStop V.stops) }
{
    let Some(json) = kept(alloc, value)? else {
        return Ok(Ran::Refused(WRONG));
    };
    view.put(key, &json)?;
    Ok(Ran::Done)
}

fn del<V: WriteView>(call: RuleCall<'_>, view: &mut V, key: &Expr) -> Result<Ran, Stop>
    ensures ran { IfOk result (λ ran. RunsAs
        (spec.step_means (rule.del (expression_of key.now)) (data_of call.entry.args.now) (V.contents view.old)) ran
        (V.contents view.new)) }
    ensures stopped { IfErr result (MayStop V.stops) }
{
    let Some(key) = key_at(call, view, key)? else {
        return Ok(Ran::Refused(WRONG));
    };
    view.del(key.as_str())?;
    Ok(Ran::Done)
}

fn merge<V: WriteView>(call: RuleCall<'_>, view: &mut V, key: &Expr, e: &Expr) -> Result<Ran, Stop>
    ensures ran { IfOk result (λ ran. RunsAs
        (spec.step_means (rule.merge (expression_of key.now) (expression_of e.now)) (data_of call.entry.args.now)
        (V.contents view.old)) ran (V.contents view.new)) }
    ensures stopped { IfErr result (MayStop V.stops) }
{
    let Some(key) = key_at(call, view, key)? else {
        return Ok(Ran::Refused(WRONG));
    };
    let Some(more) = value_at(call, view, e)? else {
        return Ok(Ran::Refused(WRONG));
    };
    let ran = merge_value(call.alloc, view, key.as_str(), &more);
    drop(more);
    ran
}

/// Puts the members of a value over those of the object at a key.
fn merge_value<V: WriteView>(
    alloc: Global,
    view: &mut V,
    key: &str,
    more: &Value,
) -> Result<Ran, Stop>
    ensures ran { IfOk result (λ ran. RunsAs
        (spec.merge_means key.now (data_of more.now) (V.contents view.old)) ran (V.contents view.new)) }
    ensures stopped { IfErr result (MayStop V.stops) }
{
    view.update(key, |there| merged_there(alloc, there, more))
}

/// What `merge` makes of what is there: the object, with the members of a value put over its own.
fn merged_there(alloc: Global, there: Option<Json>, more: &Value) -> Result<Update, Stop>
    ensures ok { IfOk result (λ u. u ≡ inside.merged_there there (data_of more.now)) }
    ensures stopped { IfErr result (λ stop. stop ≡ NoMemory) }
{
    let there = value_there(alloc, there)?;
    let Some(value) = merged(alloc, there, more)? else {
        return Ok(Update::Refuse(WRONG));
    };
    let json = kept(alloc, &value);
    drop(value);
    match json? {
        Some(json) => Ok(Update::Put(json)),
        None => Ok(Update::Refuse(WRONG)),
    }
}

/// Refuses with the code where an expression is false.
fn need<V: WriteView>(call: RuleCall<'_>, view: &mut V, e: &Expr, code: u32) -> Result<Ran, Stop>
    ensures ran { IfOk result (λ ran. RunsAs
        (spec.step_means (rule.need (expression_of e.now) code) (data_of call.entry.args.now) (V.contents view.old))
        ran (V.contents view.new)) }
    ensures stopped { IfErr result (MayStop V.stops) }
{
    match truth_at(call, view, e)? {
        Some(true) => Ok(Ran::Done),
        Some(false) => Ok(Ran::Refused(code)),
        None => Ok(Ran::Refused(WRONG)),
    }
}
