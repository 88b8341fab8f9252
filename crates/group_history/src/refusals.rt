//! Why a call was refused.
ghost use Rattle.std.specs.Prelude.{◌≡◌};
ghost use Rattle.group_history.specs.Refusals.{refusal_name, refusal_number};
ghost use Rattle.group_history.specs.declared.refusals.Refusal.TheVariants as refusal;

use crate::responses::VersionKind;
use std::alloc::{AllocError, AllocFailed};
use std::fmt;
use thiserror::Error;

/// Why a call was refused; its message says what the caller can do. After every refusal the group is as other clients'
/// changes left it, but that StateNotFound closes it; the refused client's last id is as it was.
#[derive(Clone, Copy, Debug, PartialEq, Eq, Error)]
pub enum Refusal {
    // by tools/refusals: variants of group
    /// Memory was refused.
    NoMemory,
    /// Other clients changed the group first, as often as the call tries.
    Moved,
    /// A slot or a pin was lost to other clients, as often as the call tries.
    Busy,
    /// A slot was given again while it was looked for.
    Gone,
    /// No slot is free for the change.
    Full,
    /// The group has too few stamps left.
    Stamps,
    /// The client's last id is not the one that the group has.
    Stale,
    /// No mutator has this name.
    NoMutator,
    /// The mutator refused, with the code.
    Refused(u32),
    /// The bytes are no JSON text, or one that nests too deep.
    NotJson,
    /// A field is missing, of a wrong type or out of range.
    BadShape,
    /// A number is not whole, or does not fit 64 bits.
    NotWhole,
    /// Another pull was applied since this one began.
    Overtaken,
    /// The response's cookie is below the group's.
    CookieWentBack,
    /// The cookie is as high as the group's, but the response brings something.
    CookieNotNew,
    /// The response confirms less of a client than was confirmed.
    IdWentBack,
    /// The server does not know the client group, which is closed by this.
    StateNotFound,
    /// The server does not support the version of this kind.
    VersionNotSupported(VersionKind),
    /// All seats are out.
    NoSeat,
    /// The group is closed, since the server does not know it.
    Closed,
    // tools/refusals: end
}

impl Refusal {
    /// Its name, as scripts and lines print it.
    pub fn name(self) -> &'static str
        ensures { result.now ≡ refusal_name self }
    {
        match self {
            // by tools/refusals: names of group
            Refusal::NoMemory => "NoMemory",
            Refusal::Moved => "Moved",
            Refusal::Busy => "Busy",
            Refusal::Gone => "Gone",
            Refusal::Full => "Full",
            Refusal::Stamps => "Stamps",
            Refusal::Stale => "Stale",
            Refusal::NoMutator => "NoMutator",
            Refusal::Refused(_) => "Refused",
            Refusal::NotJson => "NotJson",
            Refusal::BadShape => "BadShape",
            Refusal::NotWhole => "NotWhole",
            Refusal::Overtaken => "Overtaken",
            Refusal::CookieWentBack => "CookieWentBack",
            Refusal::CookieNotNew => "CookieNotNew",
            Refusal::IdWentBack => "IdWentBack",
            Refusal::StateNotFound => "StateNotFound",
            Refusal::VersionNotSupported(_) => "VersionNotSupported",
            Refusal::NoSeat => "NoSeat",
            Refusal::Closed => "Closed",
            // tools/refusals: end
        }
    }

    /// Its number, as hosts are told it: below zero.
    pub fn number(self) -> i32
        ensures { result ≡ refusal_number self }
    {
        match self {
            // by tools/refusals: numbers of group
            Refusal::NoMemory => -1,
            Refusal::Moved => -2,
            Refusal::Busy => -3,
            Refusal::Gone => -4,
            Refusal::Full => -5,
            Refusal::Stamps => -6,
            Refusal::Stale => -7,
            Refusal::NoMutator => -8,
            Refusal::Refused(_) => -9,
            Refusal::NotJson => -10,
            Refusal::BadShape => -11,
            Refusal::NotWhole => -12,
            Refusal::Overtaken => -13,
            Refusal::CookieWentBack => -14,
            Refusal::CookieNotNew => -15,
            Refusal::IdWentBack => -16,
            Refusal::StateNotFound => -17,
            Refusal::VersionNotSupported(_) => -18,
            Refusal::NoSeat => -19,
            Refusal::Closed => -20,
            // tools/refusals: end
        }
    }

    /// What happened, and what the caller can do about it; what the refusal carries is not in it.
    fn message(self) -> &'static str {
        match self {
            // by tools/refusals: messages of group
            Refusal::NoMemory => "memory was refused: free some and call again",
            Refusal::Moved => {
                "other clients changed the group first, as often as the call tries: call again"
            }
            Refusal::Busy => {
                "a slot or a pin was lost to other clients, as often as the call tries: call again"
            }
            Refusal::Gone => "a slot was given again while it was looked for: call again",
            Refusal::Full => {
                "no slot is free for the change: close readers, pull what confirms or clears, or open a larger group"
            }
            Refusal::Stamps => "the group has too few stamps left: open a new group",
            Refusal::Stale => {
                "the client's last id is not the one that the group has: refresh it and call again"
            }
            Refusal::NoMutator => "no mutator has this name",
            Refusal::Refused(_) => "the mutator refused, with the code",
            Refusal::NotJson => "the bytes are no JSON text, or one that nests too deep",
            Refusal::BadShape => "a field is missing, of a wrong type or out of range",
            Refusal::NotWhole => "a number is not whole, or does not fit 64 bits",
            Refusal::Overtaken => "another pull was applied since this one began: begin a new one",
            Refusal::CookieWentBack => {
                "the response's cookie is below the group's: begin a new pull"
            }
            Refusal::CookieNotNew => {
                "the cookie is as high as the group's, but the response brings something: begin a new pull"
            }
            Refusal::IdWentBack => {
                "the response confirms less of a client than was confirmed: begin a new pull"
            }
            Refusal::StateNotFound => {
                "the server does not know the client group, which is closed by this: open a new one"
            }
            Refusal::VersionNotSupported(_) => {
                "the server does not support the version of this kind"
            }
            Refusal::NoSeat => "all seats are out: give one back",
            Refusal::Closed => {
                "the group is closed, since the server does not know it: open a new one"
            }
            // tools/refusals: end
        }
    }
}

impl fmt::Display for Refusal {
    fn fmt<W: fmt::Write>(&self, f: &mut fmt::Formatter<W>) -> fmt::Result {
        f.write_str(self.message())?;
        match self {
            Refusal::Refused(code) => write!(f, " ({code})"),
            Refusal::VersionNotSupported(kind) => write!(f, " ({kind})"),
            _ => Ok(()),
        }
    }
}

impl From<AllocError> for Refusal {
    ghost from_gives = { λ _ e. e ≡ refusal.NoMemory };

    fn from(_refused: AllocError) -> Refusal {
        Refusal::NoMemory
    }
}

impl<T: Drop> From<AllocFailed<T>> for Refusal {
    ghost from_gives = { λ _ e. e ≡ refusal.NoMemory };

    fn from(_refused: AllocFailed<T>) -> Refusal {
        Refusal::NoMemory
    }
}
