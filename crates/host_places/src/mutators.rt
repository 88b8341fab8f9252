//! The mutators of a group at whose places hosts sit.
//!
//! Rules are run by the call itself. A name without a rule is a mutator of scripts, or, where the host has mutators of
//! its own, one of these: then a change asks the host for the run. What those mean is named by a type parameter, and
//! that the host's runs are of that meaning is the premise of each run that it tells of.
ghost use Rattle.std.specs.Prelude.{◌≡◌, [], false, refl};
ghost use Rattle.group_history.specs.Meaning.{unknown};
ghost use Rattle.rule_mutators.specs.Views.{rules_of};
ghost use Rattle.host_places.specs.Mutators.{Meant, has_of, means_of};

use client_desk::{HostRuns, Hosted};
use group_history::{Json, Means, Mutators, Ran, Reason, Stop, WriteView};
use rebase::{Has, Runs};
use rule_mutators::Rules;
use script_mutators::ScriptMutators;
use std::alloc::Global;
use std::marker::{Brand, PhantomData};

/// Names in a type, for contracts alone, the mutators of a group.
pub trait NamesMutators {
    ghost meant: { Meant };
}

impl NamesMutators for Brand {
    ghost meant = { record { rules = []; asks = false; own = λ name args why map. unknown } };
}

/// Rules; and whether a name without one is a mutator of the host's own. They are those that `B` names.
#[derive(Drop)]
pub struct HostMutators<B: NamesMutators> {
    rules: Rules,
    asks: bool,
    of: PhantomData<B>,
    ghost named: { ∥ (rules_of rules ≡ B.meant.rules) × (asks ≡ B.meant.asks) ∥₁ },
}

impl<B: NamesMutators> HostMutators<B> {
    /// Mutators by these rules. Where `asks` says so, changes ask the host for runs of names without a rule.
    pub fn new(rules: Rules, asks: bool) -> HostMutators<B>
        requires rules { rules_of rules ≡ B.meant.rules }
        requires asks { asks ≡ B.meant.asks }
    {
        HostMutators {
            rules,
            asks,
            of: PhantomData,
        }
    }
}

impl<B: NamesMutators> Means for HostMutators<B> {
    ghost means = { means_of B.meant };
}

impl<B: NamesMutators> Has for HostMutators<B> {
    ghost has = { has_of B.meant };
}

impl<B: NamesMutators> Hosted for HostMutators<B> {
    ghost had = { has_of B.meant };
}

impl<B: NamesMutators + Sync> HostRuns for HostMutators<B> {
    ghost same = { refl };
}

impl<B: NamesMutators + Sync> Runs for HostMutators<B> {
    fn run_if_any<V: WriteView>(
        &self,
        alloc: Global,
        name: &str,
        args: &Json,
        why: Reason,
        view: &mut V,
    ) -> Result<Option<Ran>, Stop> {
        let found = self.rules.run_if_any(alloc, name, args, view)?;
        match found {
            Some(ran) => Ok(Some(ran)),
            None if self.asks => Ok(None),
            None => {
                let ran = ScriptMutators.run(alloc, name, args, why, view)?;
                Ok(Some(ran))
            }
        }
    }
}
