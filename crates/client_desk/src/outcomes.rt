//! What a call came to.
ghost use Rattle.std.specs.Prelude.{◌≡◌};
ghost use Rattle.client_desk.specs.Numbers.{kind_number, outcome_code, outcome_number, outcome_value, refusal_code};
ghost use Rattle.client_desk.specs.Told.{ended_told, id_told, tells, told_alone};

use crate::faults::CallFault;
use group_history::{Ended, Refusal, VersionKind};

/// What a call came to. What else it told is bytes.
#[derive(Clone, Copy, Debug, PartialEq, Eq)]
pub enum Outcome {
    /// It was done.
    Done,
    /// It was done, and tells a number: an id, or that of a ticket or of a watch.
    Number(u64),
    /// There is nothing: no value at the key, no new rows; or the pull changed nothing.
    Nothing,
    Is(bool),
    /// The change asks for a run of a mutator.
    Asked,
    /// The client's call was refused.
    Refused(Refusal),
    Faulty(CallFault),
}

impl Outcome {
    /// Its number: 0 where it was done, 1 where there is nothing, 2 for yes and 0 for no, 3 where a run is asked for,
    /// and a negative one where it was not done.
    pub fn number(self) -> i32
        ensures { result ≡ outcome_number self }
    {
        match self {
            Outcome::Done | Outcome::Number(_) | Outcome::Is(false) => 0,
            Outcome::Nothing => 1,
            Outcome::Is(true) => 2,
            Outcome::Asked => 3,
            Outcome::Refused(refusal) => refusal.number(),
            Outcome::Faulty(fault) => fault.number(),
        }
    }

    /// The number that it tells; else 0.
    pub fn value(self) -> u64
        ensures { result ≡ outcome_value self }
    {
        match self {
            Outcome::Number(number) => number,
            _ => 0,
        }
    }

    /// The code with which a mutator refused, or which version is not supported: 1 of pushes, 2 of pulls, 3 of the
    /// schema; else 0.
    pub fn code(self) -> u32
        ensures { result ≡ outcome_code self }
    {
        match self {
            Outcome::Refused(refusal) => refusal_code(refusal),
            _ => 0,
        }
    }
}

/// The id that a client has then.
pub(crate) fn id_outcome(reply: Result<u64, Refusal>) -> Outcome
    ensures { told_alone result ≡ tells id_told reply }
{
    match reply {
        Ok(id) => Outcome::Number(id),
        Err(refusal) => Outcome::Refused(refusal),
    }
}

/// How a pull was ended.
pub(crate) fn ended_outcome(reply: Result<Ended, Refusal>) -> Outcome
    ensures { told_alone result ≡ tells ended_told reply }
{
    match reply {
        Ok(Ended::Applied) => Outcome::Done,
        Ok(Ended::Same) => Outcome::Nothing,
        Err(refusal) => Outcome::Refused(refusal),
    }
}

fn refusal_code(refusal: Refusal) -> u32
    ensures { result ≡ refusal_code refusal }
{
    match refusal {
        Refusal::Refused(code) => code,
        Refusal::VersionNotSupported(kind) => kind_number(kind),
        _ => 0,
    }
}

fn kind_number(kind: VersionKind) -> u32
    ensures { result ≡ kind_number kind }
{
    match kind {
        VersionKind::Push => 1,
        VersionKind::Pull => 2,
        VersionKind::Schema => 3,
        VersionKind::Unknown => 0,
    }
}
