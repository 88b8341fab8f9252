//! The values of expressions.
//!
//! Each function has the clause `value`: what it answers is the expression's value by its definition, at the arguments
//! and at what the view shows; `None` where it has none. No expression changes what the view shows.
ghost use Rattle.std.specs.Prelude.{◌≡◌, ◌++◌, Some, IfOk, IfErr, OnOk, option_map, string_bytes};
ghost use Rattle.std.specs.Prelude.{not as negation};
ghost use Rattle.serde_json.specs.Data.{boolean};
ghost use Rattle.serde_json.specs.Find.{as_bool};
ghost use Rattle.serde_json.specs.View.{view as data_of};
ghost use Rattle.group_history.specs.Stops.{MayStop};
ghost use Rattle.group_history.specs.declared.mutators.Stop.TheVariants.{NoMemory};
ghost use Rattle.rule_mutators.specs.Meaning as spec;
ghost use Rattle.rule_mutators.specs.Rules as rule;
ghost use Rattle.rule_mutators.specs.declared.language.One.TheVariants as one;
ghost use Rattle.rule_mutators.specs.Views.{expression_of, all_expressions, all_fields};

use crate::language::{Expr, One, Two, Which};
use crate::values::{copy_of, field_of, of_two, put_member, value_there, wording};
use group_history::{Stop, Text, WriteView};
use serde_json::{Map, Value};
use std::alloc::{AllocError, Global};

/// What a rule is run with.
#[derive(Clone, Copy)]
pub(crate) struct RuleCall<'a> {
    pub(crate) alloc: Global,
    pub(crate) args: &'a Value,
}

/// The value of an expression.
#[cycle(value)]
pub(crate) fn value_at<V: WriteView>(
    call: RuleCall<'_>,
    view: &mut V,
    e: &Expr,
) -> Result<Option<Value>, Stop>
    ensures value { IfOk result (λ found. option_map data_of found
        ≡ spec.value_at (expression_of e.now) (data_of call.entry.args.now) (V.contents view.old)) }
    ensures kept { V.contents view.new ≡ V.contents view.old }
    ensures stopped { IfErr result (MayStop V.stops) }
{
    match e {
        Expr::Literal(value) => copy_of(value),
        Expr::Argument(which) => argument(call, which),
        Expr::One(word, a) => one_at(call, view, *word, a),
        Expr::Field(of, name) => field_at(call, view, of, name.as_str()),
        Expr::Or(both) => or_at(call, view, both),
        Expr::Two(word, both) => two_at(call, view, *word, both),
        Expr::Cat(all) => cat_at(call, view, all),
        Expr::Object(fields) => object_at(call, view, fields),
    }
}

/// A copy of one of the arguments.
fn argument(call: RuleCall<'_>, which: &Which) -> Result<Option<Value>, Stop>
    ensures value { IfOk result (λ found. option_map data_of found
        ≡ spec.argument_of which.now (data_of call.entry.args.now)) }
    ensures stopped { IfErr result (λ stop. stop ≡ NoMemory) }
{
    let found = match which {
        Which::At(place) => call.args.get(*place as usize),
        Which::Named(name) => call.args.get(name.as_str()),
    };
    match found {
        Some(value) => copy_of(value),
        None => Ok(None),
    }
}

#[cycle(value)]
fn one_at<V: WriteView>(
    call: RuleCall<'_>,
    view: &mut V,
    word: One,
    a: &Expr,
) -> Result<Option<Value>, Stop>
    ensures value { IfOk result (λ found. option_map data_of found
        ≡ spec.value_at (rule.one word (expression_of a.now)) (data_of call.entry.args.now)
        (V.contents view.old)) }
    ensures kept { V.contents view.new ≡ V.contents view.old }
    ensures stopped { IfErr result (MayStop V.stops) }
{
    match value_at(call, view, a) {
        Ok(Some(a)) => of_one(call.alloc, view, word, a),
        other => other,
    }
}

/// What a word makes of one value.
fn of_one<V: WriteView>(
    alloc: Global,
    view: &mut V,
    word: One,
    a: Value,
) -> Result<Option<Value>, Stop>
    ensures value { IfOk result (λ found. option_map data_of found
        ≡ spec.one_means word (data_of a) (V.contents view.old)) }
    ensures kept { V.contents view.new ≡ V.contents view.old }
    ensures stopped { IfErr result (MayStop V.stops) }
{
    match word {
        One::Get => get(alloc, view, a),
        One::Has => has(alloc, view, a),
        One::Not => {
            let found = not(&a);
            drop(a);
            Ok(found)
        }
    }
}

fn not(a: &Value) -> Option<Value>
    ensures { option_map data_of result ≡ option_map (λ b. boolean (negation b)) (as_bool (data_of a.now)) }
{
    Some(Value::Bool(!a.as_bool()?))
}

fn get<V: WriteView>(alloc: Global, view: &mut V, key: Value) -> Result<Option<Value>, Stop>
    ensures value { IfOk result (λ found. option_map data_of found
        ≡ spec.one_means one.Get (data_of key) (V.contents view.old)) }
    ensures kept { V.contents view.new ≡ V.contents view.old }
    ensures stopped { IfErr result (MayStop V.stops) }
{
    let Some(key) = wording(alloc, key)? else {
        return Ok(None);
    };
    let there = view.get(key.as_str())?;
    Ok(Some(value_there(alloc, there)?))
}

fn has<V: WriteView>(alloc: Global, view: &mut V, key: Value) -> Result<Option<Value>, Stop>
    ensures value { IfOk result (λ found. option_map data_of found
        ≡ spec.one_means one.Has (data_of key) (V.contents view.old)) }
    ensures kept { V.contents view.new ≡ V.contents view.old }
    ensures stopped { IfErr result (MayStop V.stops) }
{
    let Some(key) = wording(alloc, key)? else {
        return Ok(None);
    };
    Ok(Some(Value::Bool(view.has(key.as_str())?)))
}

#[cycle(value)]
fn field_at<V: WriteView>(
    call: RuleCall<'_>,
    view: &mut V,
    of: &Expr,
    name: &str,
) -> Result<Option<Value>, Stop>
    ensures value { IfOk result (λ found. option_map data_of found
        ≡ spec.value_at (rule.field (expression_of of.now) name.now) (data_of call.entry.args.now)
        (V.contents view.old)) }
    ensures kept { V.contents view.new ≡ V.contents view.old }
    ensures stopped { IfErr result (MayStop V.stops) }
{
    match value_at(call, view, of) {
        Ok(Some(value)) => field_of(value, name),
        other => other,
    }
}

#[cycle(value)]
fn or_at<V: WriteView>(
    call: RuleCall<'_>,
    view: &mut V,
    both: &(Expr, Expr),
) -> Result<Option<Value>, Stop>
    ensures value { IfOk result (λ found. option_map data_of found
        ≡ spec.value_at (rule.or (expression_of both.now.0) (expression_of both.now.1)) (data_of call.entry.args.now)
        (V.contents view.old)) }
    ensures kept { V.contents view.new ≡ V.contents view.old }
    ensures stopped { IfErr result (MayStop V.stops) }
{
    match value_at(call, view, &both.0) {
        Ok(Some(a)) => {
            if a.is_null() {
                drop(a);
                return value_at(call, view, &both.1);
            }
            Ok(Some(a))
        }
        other => other,
    }
}

#[cycle(value)]
fn two_at<V: WriteView>(
    call: RuleCall<'_>,
    view: &mut V,
    word: Two,
    both: &(Expr, Expr),
) -> Result<Option<Value>, Stop>
    ensures value { IfOk result (λ found. option_map data_of found
        ≡ spec.value_at (rule.two word (expression_of both.now.0) (expression_of both.now.1))
        (data_of call.entry.args.now) (V.contents view.old)) }
    ensures kept { V.contents view.new ≡ V.contents view.old }
    ensures stopped { IfErr result (MayStop V.stops) }
{
    let Some(a) = value_at(call, view, &both.0)? else {
        return Ok(None);
    };
    let found = match value_at(call, view, &both.1) {
        Ok(Some(b)) => {
            let found = of_two(call.alloc, word, &a, &b);
            drop(b);
            found
        }
        other => other,
    };
    drop(a);
    found
}

#[cycle(value)]
fn cat_at<V: WriteView>(
    call: RuleCall<'_>,
    view: &mut V,
    all: &Vec<Expr>,
) -> Result<Option<Value>, Stop>
    ensures value { IfOk result (λ found. option_map data_of found
        ≡ spec.value_at (rule.cat (all_expressions all.now.items)) (data_of call.entry.args.now)
        (V.contents view.old)) }
    ensures kept { V.contents view.new ≡ V.contents view.old }
    ensures stopped { IfErr result (MayStop V.stops) }
{
    let mut text = String::new(call.alloc);
    for e in all {
        let Some(next) = key_at(call, view, e)? else {
            return Ok(None);
        };
        push(&mut text, next)?;
    }
    Ok(Some(Value::String(text)))
}

fn push(text: &mut String, next: String) -> Result<(), AllocError>
    ensures { OnOk result (string_bytes text.new ≡ string_bytes text.old ++ string_bytes next) }
{
    text.push_str(next.as_str())
}

/// The text that an expression is, or the decimal of its number: a key, or a part of a text.
#[cycle(value)]
pub(crate) fn key_at<V: WriteView>(
    call: RuleCall<'_>,
    view: &mut V,
    e: &Expr,
) -> Result<Option<String>, Stop>
    ensures value { IfOk result (λ found. option_map string_bytes found
        ≡ spec.key_at (expression_of e.now) (data_of call.entry.args.now) (V.contents view.old)) }
    ensures kept { V.contents view.new ≡ V.contents view.old }
    ensures stopped { IfErr result (MayStop V.stops) }
{
    match value_at(call, view, e)? {
        Some(value) => Ok(wording(call.alloc, value)?),
        None => Ok(None),
    }
}

#[cycle(value)]
fn object_at<V: WriteView>(
    call: RuleCall<'_>,
    view: &mut V,
    fields: &Vec<(Text, Expr)>,
) -> Result<Option<Value>, Stop>
    ensures value { IfOk result (λ found. option_map data_of found
        ≡ spec.value_at (rule.object (all_fields fields.now.items)) (data_of call.entry.args.now)
        (V.contents view.old)) }
    ensures kept { V.contents view.new ≡ V.contents view.old }
    ensures stopped { IfErr result (MayStop V.stops) }
{
    let mut members = Map::new(call.alloc);
    for field in fields {
        match value_at(call, view, &field.1) {
            Ok(Some(value)) => put_member(call.alloc, &mut members, field.0.as_str(), value)?,
            other => return other,
        }
    }
    Ok(Some(Value::Object(members)))
}

/// Whether an expression is true; `None` where it is neither true nor false.
pub(crate) fn truth_at<V: WriteView>(
    call: RuleCall<'_>,
    view: &mut V,
    e: &Expr,
) -> Result<Option<bool>, Stop>
    ensures value { IfOk result (λ found. found
        ≡ spec.truth_at (expression_of e.now) (data_of call.entry.args.now) (V.contents view.old)) }
    ensures kept { V.contents view.new ≡ V.contents view.old }
    ensures stopped { IfErr result (MayStop V.stops) }
{
    match value_at(call, view, e)? {
        Some(value) => {
            let is = value.as_bool();
            drop(value);
            Ok(is)
        }
        None => Ok(None),
    }
}
