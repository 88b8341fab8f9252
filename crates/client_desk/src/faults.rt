//! What a host got wrong.
ghost use Rattle.std.specs.Prelude.{◌≡◌};
ghost use Rattle.client_desk.specs.Numbers.{fault_number};

/// What a host got wrong. Nothing was done.
#[derive(Clone, Copy, Debug, PartialEq, Eq)]
pub enum CallFault {
    // by tools/refusals: variants of faults
    /// The bytes are not UTF-8.
    NotUtf8,
    /// The text is no UUID (RFC 9562).
    BadUuid,
    /// A number is none of those that it may be.
    OutOfRange,
    /// The place has no ticket of this number.
    NoTicket,
    /// The place has no watch of this number.
    NoWatch,
    /// The rules are faulty.
    BadRules,
    /// A client sits at the place.
    InUse,
    /// A change of the place asks for a run of a mutator.
    Asks,
    /// No client sits at the place.
    NoClient,
    /// The place is closed.
    NoPlace,
    /// No change of the place asks for a run.
    NotAsked,
    /// A reading of the place is open.
    Reads,
    /// No reading of the place is open.
    NotRead,
    // tools/refusals: end
}

impl CallFault {
    pub(crate) fn number(self) -> i32
        ensures { result ≡ fault_number self }
    {
        match self {
            // by tools/refusals: numbers of faults
            CallFault::NotUtf8 => -101,
            CallFault::BadUuid => -102,
            CallFault::OutOfRange => -103,
            CallFault::NoTicket => -104,
            CallFault::NoWatch => -105,
            CallFault::BadRules => -106,
            CallFault::InUse => -107,
            CallFault::Asks => -108,
            CallFault::NoClient => -109,
            CallFault::NoPlace => -110,
            CallFault::NotAsked => -111,
            CallFault::Reads => -112,
            CallFault::NotRead => -113,
            // tools/refusals: end
        }
    }
}
