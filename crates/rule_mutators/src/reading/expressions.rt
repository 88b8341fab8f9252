//! Reads expressions.
ghost use Rattle.std.specs.Prelude.{◌≡◌, Ok, IfOk};
ghost use Rattle.serde_json.specs.View.{view as data_of, items_view, members_view};
ghost use Rattle.rule_mutators.specs.Answers.{ReadsSeen};
ghost use Rattle.rule_mutators.specs.Inside.Parts.{parts_behind};
ghost use Rattle.rule_mutators.specs.Reading as spec;
ghost use Rattle.rule_mutators.specs.Rules as rule;
ghost use Rattle.rule_mutators.specs.Views.{expression_of, all_expressions, all_fields, both_expressions};

use super::parts::{fault, one_part, read_literal, read_name, read_which, read_word};
use crate::faults::{RuleFault, Wrong};
use crate::language::{Expr, One, Two};
use crate::places::{item_at, member_at};
use crate::words::Word;
use group_history::Text;
use serde_json::{Map, Value};
use std::alloc::{AllocError, Global};

/// The expression that a value is.
#[cycle(expression)]
pub(crate) fn read_expression(alloc: Global, place: &str, value: &Value) -> Result<Expr, RuleFault>
    ensures { ReadsSeen expression_of result (spec.expression_said place.now (data_of value.now)) }
{
    match value {
        Value::Array(items) => read_words(alloc, place, items.as_slice()),
        Value::Object(members) => Ok(Expr::Object(read_fields(alloc, place, members)?)),
        other => read_literal(alloc, place, other),
    }
}

/// A word and its parts.
#[cycle(expression)]
fn read_words(alloc: Global, place: &str, items: &[Value]) -> Result<Expr, RuleFault>
    ensures { ReadsSeen expression_of result (spec.words_said place.now (items_view items.now)) }
{
    if items.is_empty() {
        return Err(fault(alloc, place, Wrong::NoWord));
    }
    let word = read_word(alloc, place, &items[0])?;
    read_parts(alloc, place, word, items)
}

#[cycle(expression)]
fn read_parts(alloc: Global, place: &str, word: Word, items: &[Value]) -> Result<Expr, RuleFault>
    ensures { ReadsSeen expression_of result (spec.parts_said place.now word
        (parts_behind place.now (items_view items.now))) }
{
    match word {
        Word::Arg => read_argument(alloc, place, items),
        Word::Lit => read_lit(alloc, place, items),
        Word::Field => read_field(alloc, place, items),
        Word::Or => or(alloc, read_two(alloc, place, items)?),
        Word::Cat => Ok(Expr::Cat(read_all(alloc, place, items)?)),
        Word::One(word) => one(alloc, word, read_one(alloc, place, items)?),
        Word::Two(word) => two(alloc, word, read_two(alloc, place, items)?),
    }
}

fn or(alloc: Global, both: (Expr, Expr)) -> Result<Expr, RuleFault>
    ensures { ReadsSeen expression_of result (Ok (rule.or (expression_of both.0) (expression_of both.1))) }
{
    Ok(Expr::Or(Box::new(alloc, both)?))
}

fn one(alloc: Global, word: One, part: Expr) -> Result<Expr, RuleFault>
    ensures { ReadsSeen expression_of result (Ok (rule.one word (expression_of part))) }
{
    Ok(Expr::One(word, Box::new(alloc, part)?))
}

fn two(alloc: Global, word: Two, both: (Expr, Expr)) -> Result<Expr, RuleFault>
    ensures { ReadsSeen expression_of result (Ok (rule.two word (expression_of both.0) (expression_of both.1))) }
{
    Ok(Expr::Two(word, Box::new(alloc, both)?))
}

fn read_argument(alloc: Global, place: &str, items: &[Value]) -> Result<Expr, RuleFault>
    ensures { ReadsSeen expression_of result
        (spec.argument_said place.now (parts_behind place.now (items_view items.now))) }
{
    let part = one_part(alloc, place, items)?;
    Ok(Expr::Argument(read_which(alloc, place, 1, part)?))
}

fn read_lit(alloc: Global, place: &str, items: &[Value]) -> Result<Expr, RuleFault>
    ensures { ReadsSeen expression_of result
        (spec.lit_said place.now (parts_behind place.now (items_view items.now))) }
{
    let part = one_part(alloc, place, items)?;
    let at = item_at(alloc, place, 1)?;
    read_literal(alloc, at.as_str(), part)
}

/// The expression that is the part of a number.
#[cycle(expression)]
pub(crate) fn read_part(
    alloc: Global,
    place: &str,
    index: usize,
    value: &Value,
) -> Result<Expr, RuleFault>
    ensures { ReadsSeen expression_of result
        (spec.expression_said (spec.item_at place.now index) (data_of value.now)) }
{
    let at = item_at(alloc, place, index)?;
    read_expression(alloc, at.as_str(), value)
}

/// The one expression.
#[cycle(expression)]
#[tactic(auto, using(crate::proofs::Parts::not_the_one))]
pub(crate) fn read_one(alloc: Global, place: &str, items: &[Value]) -> Result<Expr, RuleFault>
    ensures { ReadsSeen expression_of result
        (spec.one_said place.now (parts_behind place.now (items_view items.now))) }
{
    if items.len() != 2 {
        return Err(fault(alloc, place, Wrong::Parts));
    }
    read_part(alloc, place, 1, &items[1])
}

/// The two expressions.
#[cycle(expression)]
#[tactic(auto, using(crate::proofs::Parts::not_the_two))]
pub(crate) fn read_two(
    alloc: Global,
    place: &str,
    items: &[Value],
) -> Result<(Expr, Expr), RuleFault>
    ensures { ReadsSeen both_expressions result
        (spec.two_said place.now (parts_behind place.now (items_view items.now))) }
{
    if items.len() != 3 {
        return Err(fault(alloc, place, Wrong::Parts));
    }
    let first = read_part(alloc, place, 1, &items[1])?;
    let second = read_part(alloc, place, 2, &items[2])?;
    Ok((first, second))
}

#[cycle(expression)]
#[tactic(auto, using(crate::proofs::Parts::not_the_two))]
fn read_field(alloc: Global, place: &str, items: &[Value]) -> Result<Expr, RuleFault>
    ensures { ReadsSeen expression_of result
        (spec.field_said place.now (parts_behind place.now (items_view items.now))) }
{
    if items.len() != 3 {
        return Err(fault(alloc, place, Wrong::Parts));
    }
    let of = read_part(alloc, place, 1, &items[1])?;
    let name = read_name(alloc, place, 2, &items[2])?;
    Ok(field(alloc, of, name)?)
}

fn field(alloc: Global, of: Expr, name: Text) -> Result<Expr, AllocError>
    ensures { IfOk result (λ e. expression_of e ≡ rule.field (expression_of of) name) }
{
    Ok(Expr::Field(Box::new(alloc, of)?, name))
}

/// Expressions, of which the first is part 1.
#[cycle(expression)]
fn read_all(alloc: Global, place: &str, items: &[Value]) -> Result<Vec<Expr>, RuleFault>
    ensures { ReadsSeen (λ es. all_expressions es.items) result
        (spec.all_said (parts_behind place.now (items_view items.now))) }
{
    let mut all = Vec::new(alloc);
    for index in 1..items.len() {
        all.push(read_part(alloc, place, index, &items[index])?)?;
    }
    Ok(all)
}

/// Expressions by name.
#[cycle(expression)]
fn read_fields(
    alloc: Global,
    place: &str,
    members: &Map<String, Value>,
) -> Result<Vec<(Text, Expr)>, RuleFault>
    ensures { ReadsSeen (λ fs. all_fields fs.items) result
        (spec.fields_said place.now (members_view members.now.entries)) }
{
    let mut fields = Vec::new(alloc);
    for (name, value) in members.iter() {
        fields.push(read_member(alloc, place, name.as_str(), value)?)?;
    }
    Ok(fields)
}

/// The expression of a name.
#[cycle(expression)]
fn read_member(
    alloc: Global,
    place: &str,
    name: &str,
    value: &Value,
) -> Result<(Text, Expr), RuleFault>
    ensures value { ReadsSeen (λ m. expression_of m.1) result
        (spec.expression_said (spec.member_at place.now name.now) (data_of value.now)) }
    ensures name { IfOk result (λ m. m.0 ≡ name.now) }
{
    let at = member_at(alloc, place, name)?;
    let value = read_expression(alloc, at.as_str(), value);
    drop(at);
    let value = value?;
    Ok((Text::new(alloc, name)?, value))
}
