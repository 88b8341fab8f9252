//! What a mutator is, and the view of a map that it reads and writes.
ghost use Rattle.std.specs.Prelude.{◌≡◌, ◌⊎◌, List, Ok, Err, IfOk, IfErr, OnOk, OnErr, is_some};
ghost use Rattle.std.specs.FinMap as finite;
ghost use Rattle.group_history.specs.Map.{Entries};
ghost use Rattle.group_history.specs.Meaning.{Meanings};
ghost use Rattle.group_history.specs.Ran.{RunsAs};
ghost use Rattle.group_history.specs.Scans.{rows_of};
ghost use Rattle.group_history.specs.Stops.{MayStop, told_as};
ghost use Rattle.group_history.specs.Updating.{UpdatesAs};
ghost use Rattle.group_history.specs.declared.mutators.Update.{Update as Updates};
ghost use Rattle.group_history.specs.declared.mutators.Stop.{Stop};
ghost use Rattle.group_history.specs.declared.mutators.Stop.TheVariants.{NoMemory};

use crate::json::Json;
use crate::mutations::Reason;
use crate::refusals::Refusal;
use crate::scans::Scan;
use crate::texts::Text;
use std::alloc::{AllocError, Global};

/// Why a view stopped. The call that ran the mutator is refused with the same word.
#[derive(Clone, Copy, Debug, PartialEq, Eq)]
pub enum Stop {
    /// Memory was refused.
    NoMemory,
    /// A slot was lost to others, as often as the call tries.
    Busy,
    /// A slot was given again while it was looked for.
    Gone,
}

impl From<AllocError> for Stop {
    ghost from_gives = { λ _ e. e ≡ NoMemory };

    fn from(_e: AllocError) -> Stop {
        Stop::NoMemory
    }
}

impl From<Stop> for Refusal {
    ghost from_gives = { λ stop refused. refused ≡ told_as stop };

    fn from(stop: Stop) -> Refusal {
        match stop {
            Stop::NoMemory => Refusal::NoMemory,
            Stop::Busy => Refusal::Busy,
            Stop::Gone => Refusal::Gone,
        }
    }
}

/// How a run ended that wasn't stopped.
#[derive(Clone, Copy, PartialEq, Eq)]
pub enum Ran {
    /// The view has what the mutator wrote.
    Done,
    /// No mutator has this name.
    Unknown,
    /// The mutator refused, with a code of its own.
    Refused(u32),
}

/// What a mutator makes of the value at a key.
#[derive(Drop)]
pub enum Update {
    /// The key has this value then.
    Put(Json),
    /// The mutator refuses, with a code of its own, and nothing is put.
    Refuse(u32),
}

/// A map that can be read and written (Replicache, `WriteTransaction`). A call that stops leaves it as it was.
pub trait WriteView {
    /// What it shows.
    ghost contents: { Self → Entries };

    /// For which reasons it may stop.
    ghost stops: { Stop → Type 0 };

    /// The value at a key; none where the key is not there.
    fn get(&mut self, key: &str) -> Result<Option<Json>, Stop>
        ensures value { IfOk result (λ found. found ≡ finite.get (contents self.old) key.now) }
        ensures kept { contents self.new ≡ contents self.old }
        ensures stopped { IfErr result stops };

    /// Whether the key is there.
    fn has(&mut self, key: &str) -> Result<bool, Stop>
        ensures value { IfOk result (λ found. found ≡ finite.contains_key (contents self.old) key.now) }
        ensures kept { contents self.new ≡ contents self.old }
        ensures stopped { IfErr result stops };

    /// The pairs that the scan asks for, in the order of their keys.
    fn scan(&mut self, scan: &Scan) -> Result<Vec<(Text, Json)>, Stop>
        ensures value { IfOk result (λ rows. rows.items ≡ rows_of scan.now (contents self.old)) }
        ensures kept { contents self.new ≡ contents self.old }
        ensures stopped { IfErr result stops };

    /// Afterwards the key has the value.
    fn put(&mut self, key: &str, value: &Json) -> Result<(), Stop>
        ensures ok { OnOk result (contents self.new ≡ finite.insert (contents self.old) key.now value.now) }
        ensures err { OnErr result (contents self.new ≡ contents self.old) }
        ensures stopped { IfErr result stops };

    /// Afterwards the key is not there, whether or not it was.
    fn del(&mut self, key: &str) -> Result<(), Stop>
        ensures ok { OnOk result (contents self.new ≡ finite.remove (contents self.old) key.now) }
        ensures err { OnErr result (contents self.new ≡ contents self.old) }
        ensures stopped { IfErr result stops };

    /// Looks at a key, and puts what the change makes of the value there (none where the key isn't there): a `get`, and
    /// then a `put`. It answers `Done` where a value was to be put, and `Refused` where the change refuses. It stops
    /// where the view or the change stops, and then the view is as it was.
    fn update<F: FnOnce(Option<Json>) -> Result<Update, Stop>>(
        &mut self,
        key: &str,
        change: F,
    ) -> Result<Ran, Stop>
        requires { F.IsAlwaysCallable change }
        ensures ran { IfOk result (λ ran. (u : Updates) × F.post change (finite.get (contents self.old) key.now) (Ok u)
            × UpdatesAs u key.now (contents self.old) ran (contents self.new)) }
        ensures err { OnErr result (contents self.new ≡ contents self.old) }
        ensures stopped { IfErr result (λ e. stops e
            ⊎ F.post change (finite.get (contents self.old) key.now) (Err e)) };
}

/// What an application's mutators mean. What runs none of them asks for this alone.
pub trait Means {
    /// By name, arguments and reason, at a map.
    ghost means: { Meanings };
}

/// The mutators of an application (Replicache, How It Works, "Mutations").
pub trait Mutators: Means + Sync {
    /// Runs the mutator of this name on the view, for this reason, and answers how that ended. Every rebase runs it
    /// again on another map, so what it does depends on name, arguments, reason and map alone. It stops only where the
    /// view stopped, or for want of memory. What a refusing one wrote is thrown away by the caller.
    fn run<V: WriteView>(
        &self,
        alloc: Global,
        name: &str,
        args: &Json,
        why: Reason,
        view: &mut V,
    ) -> Result<Ran, Stop>
        ensures ran { IfOk result (λ ran. RunsAs (Self.means name.now args.now why (V.contents view.old)) ran
            (V.contents view.new)) }
        ensures stopped { IfErr result (MayStop V.stops) };
}
