//! Why a script didn't run to its end.
ghost use Rattle.std.specs.Prelude.{◌≡◌};
ghost use Rattle.script_parser.specs.declared.faults.LineFault.TheVariants as line_fault;
ghost use Rattle.script_parser.specs.declared.faults.Fault.TheVariants as fault;

use std::alloc::{AllocError, AllocFailed};
use std::fmt;
use thiserror::Error;

/// What is wrong with a line of a script. Where several are, the first of this list is told.
#[derive(Clone, Copy, Debug, PartialEq, Eq, Error)]
pub enum ScriptFault {
    /// The script, or the line, is not UTF-8.
    NotUtf8,
    /// Before the first phase, the first word is no header word and not `phase`.
    UnknownLine,
    /// From the first phase on, the first word is no client's name and not `phase`.
    UnknownClient,
    /// The second word is no command, or is missing.
    UnknownCommand,
    /// A word is missing or empty, one too many, or not of its form.
    BadWords,
    /// A UUID isn't one in any of its text forms (RFC 9562).
    BadUuid,
    /// A number isn't decimal digits, or is out of range.
    BadNumber,
    /// A header line that may stand once stands twice, or a client's name does.
    SaidTwice,
    /// One client line more than a group has seats.
    TooManyClients,
    /// Arguments that are no JSON of whole numbers, or nest too deep.
    BadJson,
    /// No client's name, or a ticket or watch that no earlier line of the client makes.
    UnknownName,
}

impl ScriptFault {
    ghost use Rattle.script_parser.specs.Faults.{fault_text};

    /// How the fault is told.
    pub fn text(self) -> &'static str
        ensures { result.now ≡ fault_text self }
    {
        match self {
            ScriptFault::NotUtf8 => "not UTF-8",
            ScriptFault::UnknownLine => "unknown line",
            ScriptFault::UnknownClient => "unknown client",
            ScriptFault::UnknownCommand => "unknown command",
            ScriptFault::BadWords => "bad words",
            ScriptFault::BadUuid => "bad UUID",
            ScriptFault::BadNumber => "bad number",
            ScriptFault::SaidTwice => "said twice",
            ScriptFault::TooManyClients => "too many clients",
            ScriptFault::BadJson => "bad JSON",
            ScriptFault::UnknownName => "unknown name",
        }
    }
}

impl fmt::Display for ScriptFault {
    fn fmt<W: fmt::Write>(&self, f: &mut fmt::Formatter<W>) -> fmt::Result {
        f.write_str(self.text())
    }
}

/// Why a script didn't run to its end.
#[derive(Clone, Copy, Debug, PartialEq, Eq, Error)]
pub enum Fault {
    /// The script is faulty: nothing was written.
    #[error("line {line}: {text}")]
    Script {
        /// Counted from 1.
        line: u64,
        text: ScriptFault,
    },
    /// Memory was refused: whole phases were written.
    #[error("no memory")]
    NoMemory,
    /// The writer failed.
    #[error("write failed")]
    Write,
}

/// Why a line makes no value.
#[derive(Clone, Copy, Debug, PartialEq, Eq)]
pub enum LineFault {
    /// The line is faulty.
    Script(ScriptFault),
    /// Memory was refused.
    NoMemory,
}

impl LineFault {
    ghost use Rattle.script_parser.specs.Inside.Faults.{fault_at};

    /// The fault of the whole script, where this is the line's.
    pub(crate) fn at(self, line: u64) -> Fault
        ensures { result ≡ fault_at line self }
    {
        match self {
            LineFault::Script(text) => Fault::Script { line, text },
            LineFault::NoMemory => Fault::NoMemory,
        }
    }
}

impl From<ScriptFault> for LineFault {
    ghost from_gives = { λ text e. e ≡ line_fault.Script text };

    fn from(text: ScriptFault) -> LineFault {
        LineFault::Script(text)
    }
}

impl From<AllocError> for LineFault {
    ghost from_gives = { λ _ e. e ≡ line_fault.NoMemory };

    fn from(_refused: AllocError) -> LineFault {
        LineFault::NoMemory
    }
}

impl<T: Drop> From<AllocFailed<T>> for LineFault {
    ghost from_gives = { λ _ e. e ≡ line_fault.NoMemory };

    fn from(_refused: AllocFailed<T>) -> LineFault {
        LineFault::NoMemory
    }
}

impl From<AllocError> for Fault {
    ghost from_gives = { λ _ e. e ≡ fault.NoMemory };

    fn from(_refused: AllocError) -> Fault {
        Fault::NoMemory
    }
}

impl<T: Drop> From<AllocFailed<T>> for Fault {
    ghost from_gives = { λ _ e. e ≡ fault.NoMemory };

    fn from(_refused: AllocFailed<T>) -> Fault {
        Fault::NoMemory
    }
}
