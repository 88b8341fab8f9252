//! The mutators of scripts: `set`, `incr`, `del`, `append` and `tag`.
//!
//! Each takes a JSON array as its arguments, and refuses with a code where they are wrong or where the
//! value at the key doesn't suit. `tag` alone looks at the reason. What each means is a definition in
//! `specs/Mutators`, and the clause `ran` of its function says that it is run as that, over any view.
ghost use Rattle.std.specs.Prelude.{◌≡◌, ◌≤◌, false, codes, Some, IfOk, IfErr};
ghost use Rattle.group_history.specs.Examples.{tagged};
ghost use Rattle.group_history.specs.Map.{same_text};
ghost use Rattle.serde_json.specs.Data.{depth};
ghost use Rattle.serde_json.specs.Written.{has_float};
ghost use Rattle.group_history.specs.Ran.{RunsAs};
ghost use Rattle.group_history.specs.Stops.{MayStop};
ghost use Rattle.group_history.specs.declared.mutators.Stop.TheVariants.{NoMemory};
ghost use Rattle.script_mutators.specs.Mutators as spec;
ghost use Rattle.script_mutators.specs.Inside.Arguments.{args_value};
ghost use Rattle.script_mutators.specs.Inside.Mutators as inside;
ghost use Rattle.script_mutators.specs.Inside.Mutators.{meaning_at};

use crate::arguments::{
    Args, args_of, json_of, text_alone, text_and_number, text_and_text, text_and_value,
};
use crate::values::{decimal, number_in, quoted, text_there};
use group_history::{Json, Means, Mutators, Ran, Reason, Stop, Update, WriteView, is_word};
use std::alloc::Global;

/// The mutators of scripts: `set`, `del`, `incr`, `append` and `tag` (`docs/SCRIPT.md`). Any other name is unknown.
/// They refuse with 1 for wrong arguments, 2 for a key that is not there, 3 for a value of another kind, 4 for a sum
/// out of range.
#[derive(Clone, Copy)]
pub struct ScriptMutators;

impl Means for ScriptMutators {
    ghost means = { spec.script_means };
}

impl Mutators for ScriptMutators {
    #[tactic(auto, using(crate::proofs::MutatorArguments::means_read), unfolding(crate::specs::Mutators::script_means))]
    fn run<V: WriteView>(
        &self,
        alloc: Global,
        name: &str,
        args: &Json,
        why: Reason,
        view: &mut V,
    ) -> Result<Ran, Stop> {
        let args = args_of(alloc, args)?;
        run_named(alloc, name, &args, why, view)
    }
}

/// Runs the mutator of this name, by the value that its arguments are.
#[tactic(auto, unfolding(crate::specs::Mutators::mutator_of))]
fn run_named<V: WriteView>(
    alloc: Global,
    name: &str,
    args: &Args<'_>,
    why: Reason,
    view: &mut V,
) -> Result<Ran, Stop>
    requires shallow { depth (args_value args.now) ≤ 124 }
    requires whole { has_float (args_value args.now) ≡ false }
    ensures ran { IfOk result (λ ran. RunsAs
        (meaning_at (spec.mutator_of name.now why) (args_value args.now) (V.contents view.old)) ran
        (V.contents view.new)) }
    ensures stopped { IfErr result (MayStop V.stops) }
{
    if is_word(name, b"set") {
        return set(alloc, args, view);
    }
    if is_word(name, b"incr") {
        return incr(alloc, args, view);
    }
    run_other(alloc, name, args, why, view)
}

// The same for a name that is neither `set` nor `incr`.
#[tactic(auto, unfolding(crate::specs::Mutators::mutator_of))]
fn run_other<V: WriteView>(
    alloc: Global,
    name: &str,
    args: &Args<'_>,
    why: Reason,
    view: &mut V,
) -> Result<Ran, Stop>
    requires shallow { depth (args_value args.now) ≤ 124 }
    requires whole { has_float (args_value args.now) ≡ false }
    requires set { same_text name.now (codes "set") ≡ false }
    requires incr { same_text name.now (codes "incr") ≡ false }
    ensures ran { IfOk result (λ ran. RunsAs
        (meaning_at (spec.mutator_of name.now why) (args_value args.now) (V.contents view.old)) ran
        (V.contents view.new)) }
    ensures stopped { IfErr result (MayStop V.stops) }
{
    if name == "del" {
        return del(args, view);
    }
    if name == "append" {
        return append(alloc, args, view);
    }
    if name == "tag" {
        return tag(alloc, args, why, view);
    }
    Ok(Ran::Unknown)
}

/// The code where the arguments are not those that the mutator takes.
const WRONG_ARGUMENTS: u32 = 1;

/// The code where the key is not there.
const KEY_NOT_THERE: u32 = 2;

/// The code where the value at the key is of another kind.
const OTHER_KIND: u32 = 3;

/// The code where a sum is below -2^63 or above 2^63 - 1.
const OUT_OF_RANGE: u32 = 4;

/// Puts the value at the key.
#[tactic(auto, unfolding(crate::specs::Mutators::set_means))]
fn set<V: WriteView>(alloc: Global, args: &Args<'_>, view: &mut V) -> Result<Ran, Stop>
    requires shallow { depth (args_value args.now) ≤ 124 }
    requires whole { has_float (args_value args.now) ≡ false }
    ensures ran { IfOk result (λ ran. RunsAs (spec.set_means (args_value args.now) (V.contents view.old)) ran
        (V.contents view.new)) }
    ensures stopped { IfErr result (MayStop V.stops) }
{
    let Some((key, value)) = text_and_value(args) else {
        return Ok(Ran::Refused(WRONG_ARGUMENTS));
    };
    view.put(key, &json_of(alloc, value)?)?;
    Ok(Ran::Done)
}

/// Raises the number at the key, which has to be there.
#[tactic(auto, unfolding(crate::specs::Mutators::incr_means, crate::specs::Inside::Mutators::put_raised))]
fn incr<V: WriteView>(alloc: Global, args: &Args<'_>, view: &mut V) -> Result<Ran, Stop>
    ensures ran { IfOk result (λ ran. RunsAs (spec.incr_means (args_value args.now) (V.contents view.old)) ran
        (V.contents view.new)) }
    ensures stopped { IfErr result (MayStop V.stops) }
{
    let Some((key, by)) = text_and_number(args) else {
        return Ok(Ran::Refused(WRONG_ARGUMENTS));
    };
    view.update(key, |there| raised(alloc, there, by))
}

/// What `incr` makes of what is there: the number, raised.
#[tactic(auto, unfolding(crate::specs::Inside::Mutators::put_raised))]
fn raised(alloc: Global, there: Option<Json>, by: i64) -> Result<Update, Stop>
    ensures ok { IfOk result (λ u. u ≡ inside.put_raised there by) }
    ensures stopped { IfErr result (λ stop. stop ≡ NoMemory) }
{
    let Some(there) = there else {
        return Ok(Update::Refuse(KEY_NOT_THERE));
    };
    let Some(number) = number_in(alloc, &there)? else {
        return Ok(Update::Refuse(OTHER_KIND));
    };
    let Some(sum) = sum_of(number, by) else {
        return Ok(Update::Refuse(OUT_OF_RANGE));
    };
    Ok(Update::Put(decimal(alloc, sum)?))
}

/// Takes the key away, which needn't be there.
#[tactic(auto, unfolding(crate::specs::Mutators::del_means))]
fn del<V: WriteView>(args: &Args<'_>, view: &mut V) -> Result<Ran, Stop>
    ensures ran { IfOk result (λ ran. RunsAs (spec.del_means (args_value args.now) (V.contents view.old)) ran
        (V.contents view.new)) }
    ensures stopped { IfErr result (MayStop V.stops) }
{
    let Some(key) = text_alone(args) else {
        return Ok(Ran::Refused(WRONG_ARGUMENTS));
    };
    view.del(key)?;
    Ok(Ran::Done)
}

/// Lets a text follow the text at the key.
#[tactic(auto, unfolding(crate::specs::Mutators::append_means))]
fn append<V: WriteView>(alloc: Global, args: &Args<'_>, view: &mut V) -> Result<Ran, Stop>
    ensures ran { IfOk result (λ ran. RunsAs (spec.append_means (args_value args.now) (V.contents view.old)) ran
        (V.contents view.new)) }
    ensures stopped { IfErr result (MayStop V.stops) }
{
    let Some((key, added)) = text_and_text(args) else {
        return Ok(Ran::Refused(WRONG_ARGUMENTS));
    };
    lengthen(alloc, key, added, view)
}

/// Lets the text of the reason follow the text at the key.
#[tactic(auto, unfolding(crate::specs::Mutators::tag_means))]
fn tag<V: WriteView>(alloc: Global, args: &Args<'_>, why: Reason, view: &mut V) -> Result<Ran, Stop>
    ensures ran { IfOk result (λ ran. RunsAs (spec.tag_means why (args_value args.now) (V.contents view.old)) ran
        (V.contents view.new)) }
    ensures stopped { IfErr result (MayStop V.stops) }
{
    let Some(key) = text_alone(args) else {
        return Ok(Ran::Refused(WRONG_ARGUMENTS));
    };
    lengthen(alloc, key, reason_text(why), view)
}

fn reason_text(why: Reason) -> &'static str
    ensures { result.now ≡ tagged why }
{
    match why {
        Reason::Initial => "i",
        Reason::Rebase => "r",
    }
}

/// Lets a text follow the text at a key, the empty one where the key isn't there.
#[tactic(auto, unfolding(crate::specs::Mutators::appended, crate::specs::Inside::Mutators::put_followed))]
fn lengthen<V: WriteView>(alloc: Global, key: &str, added: &str, view: &mut V) -> Result<Ran, Stop>
    ensures ran { IfOk result (λ ran. RunsAs (spec.appended key.now added.now (V.contents view.old)) ran
        (V.contents view.new)) }
    ensures stopped { IfErr result (MayStop V.stops) }
{
    view.update(key, |there| followed(alloc, there, added))
}

/// What `append` and `tag` make of what is there: the text, with another behind it.
#[tactic(auto, unfolding(crate::specs::Mutators::followed, crate::specs::Inside::Mutators::put_followed))]
fn followed(alloc: Global, there: Option<Json>, added: &str) -> Result<Update, Stop>
    ensures ok { IfOk result (λ u. u ≡ inside.put_followed there added.now) }
    ensures stopped { IfErr result (λ stop. stop ≡ NoMemory) }
{
    let Some(mut text) = text_there(alloc, there)? else {
        return Ok(Update::Refuse(OTHER_KIND));
    };
    text.push_str(added)?;
    Ok(Update::Put(quoted(alloc, text)?))
}

/// The sum, where it is from -2^63 to 2^63 - 1.
#[tactic(auto, unfolding(crate::specs::Mutators::sum_of))]
fn sum_of(number: i64, by: i64) -> Option<i64>
    ensures { result ≡ spec.sum_of number by }
{
    number.checked_add(by)
}
