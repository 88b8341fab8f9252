//! The mutators of a group at which clients sit.
ghost use Rattle.std.specs.Prelude.{◌≡◌, Bool, true, refl};
ghost use Rattle.group_history.specs.Map.{Bytes};

use group_history::{Json, Means, Mutators, Ran, Reason, Stop, WriteView};
use rebase::Runs;
use std::alloc::Global;

/// Mutators of a group at whose places clients sit: which of them the group runs itself. There is no bound here that
/// other threads rely on, so that a drop can close places.
pub trait Hosted: Means + Drop {
    ghost had: { Bytes → Bool };
}

/// Those it runs, and asks its host for runs of others.
pub trait HostRuns: Hosted + Runs {
    ghost same: { Self.has ≡ Self.had };
}

/// All mutators of a group: it asks for no run.
#[derive(Drop)]
pub struct Whole<M: Mutators + Drop> {
    pub mutators: M,
}

impl<M: Mutators + Drop> Means for Whole<M> {
    ghost means = { M.means };
}

impl<M: Mutators + Drop> Mutators for Whole<M> {
    fn run<V: WriteView>(
        &self,
        alloc: Global,
        name: &str,
        args: &Json,
        why: Reason,
        view: &mut V,
    ) -> Result<Ran, Stop> {
        self.mutators.run(alloc, name, args, why, view)
    }
}

impl<M: Mutators + Drop> Hosted for Whole<M> {
    ghost had = { λ name. true };
}

impl<M: Mutators + Drop> HostRuns for Whole<M> {
    ghost same = { refl };
}
