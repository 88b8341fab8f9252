//! The mutators that a group runs itself.
ghost use Rattle.std.specs.Prelude.{◌≡◌, Bool, true, is_some, IfOk, IfErr, IfSome, IfNone};
ghost use Rattle.group_history.specs.Map.{Bytes};
ghost use Rattle.group_history.specs.Ran.{RunsAs};
ghost use Rattle.group_history.specs.Stops.{MayStop};

use group_history::{Json, Means, Mutators, Ran, Reason, Stop, WriteView};
use std::alloc::Global;

/// Which mutators a group runs itself. For a run of another one a change asks its caller.
pub trait Has: Means {
    /// Whether it has a mutator of this name.
    ghost has: { Bytes → Bool };
}

/// The mutators that a group runs itself.
pub trait Runs: Has + Sync {
    /// Runs the mutator of this name, as `Mutators::run` does. None where it has none: then the view is as it was.
    fn run_if_any<V: WriteView>(
        &self,
        alloc: Global,
        name: &str,
        args: &Json,
        why: Reason,
        view: &mut V,
    ) -> Result<Option<Ran>, Stop>
        ensures had { IfOk result (λ found. is_some found ≡ Self.has name.now) }
        ensures ran { IfOk result (λ found. IfSome found (λ ran. RunsAs (Self.means name.now args.now why
            (V.contents view.old)) ran (V.contents view.new))) }
        ensures left { IfOk result (λ found. IfNone found (V.contents view.new ≡ V.contents view.old)) }
        ensures stopped { IfErr result (MayStop V.stops) };
}

/// A group that has all mutators asks for no run.
impl<M: Mutators> Has for M {
    ghost has = { λ name. true };
}

impl<M: Mutators> Runs for M {
    fn run_if_any<V: WriteView>(
        &self,
        alloc: Global,
        name: &str,
        args: &Json,
        why: Reason,
        view: &mut V,
    ) -> Result<Option<Ran>, Stop> {
        let ran = self.run(alloc, name, args, why, view)?;
        Ok(Some(ran))
    }
}
