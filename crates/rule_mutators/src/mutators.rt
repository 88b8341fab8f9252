//! Rules as the mutators of an application.
//!
//! A meaning belongs to a type, and rules are values: so the rules that a `RuleMutators` holds are named by its type
//! parameter. Who opens a group picks them, at the call that is given the rules.
ghost use Rattle.std.specs.Prelude.{◌≡◌, [], IfOk, IfErr};
ghost use Rattle.group_history.specs.Ran.{RunsAs};
ghost use Rattle.group_history.specs.Stops.{MayStop};
ghost use Rattle.rule_mutators.specs.Meaning.{RunsIfAny, rules_mean, steps_named};
ghost use Rattle.rule_mutators.specs.Rules as rule;
ghost use Rattle.rule_mutators.specs.Views.{rules_of};

use crate::evaluating::RuleCall;
use crate::language::Rules;
use crate::running::run_steps;
use group_history::{Json, Means, Mutators, Ran, Reason, Stop, WriteView};
use script_mutators::ScriptMutators;
use std::alloc::Global;
use std::marker::{Brand, PhantomData};

/// Names rules in a type, for contracts alone.
pub trait NamesRules {
    ghost rules: { rule.Rules };
}

impl NamesRules for Brand {
    ghost rules = { [] };
}

/// The rules that `B` names as mutators: a name runs the rule of that name, and without one the mutator of scripts. A
/// rule refuses with the code of its `need`, or with 1 for a value of a wrong type, missing, or out of range.
#[derive(Drop)]
pub struct RuleMutators<B: NamesRules> {
    rules: Rules,
    of: PhantomData<B>,
    ghost named: { ∥ rules_of rules ≡ B.rules ∥₁ },
}

impl<B: NamesRules> RuleMutators<B> {
    /// Mutators that run the rules, which are those that `B` names.
    pub fn new(rules: Rules) -> RuleMutators<B>
        requires { rules_of rules ≡ B.rules }
    {
        RuleMutators {
            rules,
            of: PhantomData,
        }
    }
}

impl<B: NamesRules> Means for RuleMutators<B> {
    ghost means = { rules_mean B.rules };
}

impl Rules {
    /// Runs the rule of this name. None where there is none: then the view is as it was.
    pub fn run_if_any<V: WriteView>(
        &self,
        alloc: Global,
        name: &str,
        args: &Json,
        view: &mut V,
    ) -> Result<Option<Ran>, Stop>
        ensures ran { IfOk result (λ found. RunsIfAny (steps_named name.now (rules_of self.now)) args.now
            (V.contents view.old) found (V.contents view.new)) }
        ensures stopped { IfErr result (MayStop V.stops) }
    {
        let Some(steps) = self.steps_of(name) else {
            return Ok(None);
        };
        let args = args.value(alloc)?;
        let call = RuleCall { alloc, args: &args };
        let ran = run_steps(call, view, steps);
        drop(args);
        Ok(Some(ran?))
    }

    // Runs the rule of this name; without one, the mutator of scripts.
    #[tactic(auto, unfolding(crate::specs::Meaning::rules_mean))]
    fn run<V: WriteView>(
        &self,
        alloc: Global,
        name: &str,
        args: &Json,
        why: Reason,
        view: &mut V,
    ) -> Result<Ran, Stop>
        ensures ran { IfOk result (λ ran. RunsAs
            (rules_mean (rules_of self.now) name.now args.now why (V.contents view.old)) ran (V.contents view.new)) }
        ensures stopped { IfErr result (MayStop V.stops) }
    {
        match self.run_if_any(alloc, name, args, view)? {
            Some(ran) => Ok(ran),
            None => ScriptMutators.run(alloc, name, args, why, view),
        }
    }
}

impl<B: NamesRules + Sync> Mutators for RuleMutators<B> {
    fn run<V: WriteView>(
        &self,
        alloc: Global,
        name: &str,
        args: &Json,
        why: Reason,
        view: &mut V,
    ) -> Result<Ran, Stop> {
        self.rules.run(alloc, name, args, why, view)
    }
}
