//! What can be wrong with rules, and where.
use group_history::Text;
use std::alloc::{AllocError, AllocFailed};
use std::fmt;
use thiserror::Error;

/// What is wrong at a place of rules.
#[derive(Clone, Copy, Debug, PartialEq, Eq, Error)]
pub enum Wrong {
    /// There should be a list of steps.
    NoSteps,
    /// There should be a step: an array that begins with a word.
    NoStep,
    /// An array is empty, or what it begins with is no text.
    NoWord,
    /// No step, or no expression, has this word.
    UnknownWord,
    /// The word has too few parts behind it, or too many.
    Parts,
    /// An argument is neither a number from 0 to 2^64 - 1 nor a text.
    NoArgument,
    /// A member's name is no text.
    NoName,
    /// A code is no number from 0 to 2^32 - 1.
    NoCode,
    /// A number is not whole, or does not fit 64 bits.
    NotWhole,
}

impl Wrong {
    ghost use Rattle.std.specs.Prelude.{◌≡◌};
    ghost use Rattle.rule_mutators.specs.Faults.{wrong_text};

    /// How it is told.
    pub fn text(self) -> &'static str
        ensures { result.now ≡ wrong_text self }
    {
        match self {
            Wrong::NoSteps => "no list of steps",
            Wrong::NoStep => "no step: an array that begins with a word",
            Wrong::NoWord => "no word",
            Wrong::UnknownWord => "unknown word",
            Wrong::Parts => "wrong number of parts",
            Wrong::NoArgument => "no argument: neither a place nor a name",
            Wrong::NoName => "no name: not a text",
            Wrong::NoCode => "no code: not a number below 2^32",
            Wrong::NotWhole => "a number is not whole, or does not fit 64 bits",
        }
    }
}

impl fmt::Display for Wrong {
    ghost use Rattle.std.specs.Prelude.{Some};
    ghost use Rattle.rule_mutators.specs.Faults.{wrong_text};

    ghost output = { λ wrong. Some (wrong_text wrong) };

    fn fmt<W: fmt::Write>(&self, f: &mut fmt::Formatter<W>) -> fmt::Result {
        f.write_str(self.text())
    }
}

/// Why a text was not read as rules.
#[derive(Debug, Drop, PartialEq, Eq, Error)]
pub enum RuleFault {
    /// It may come in place of any other answer.
    NoMemory,
    /// RFC 8259; it may nest at most 127 deep.
    NotJson,
    /// A JSON text, but no object.
    NotObject,
    /// The place is a JSON Pointer (RFC 6901) into the text's value, as `/add/0/2`.
    At(Text, Wrong),
}

impl fmt::Display for RuleFault {
    ghost use Rattle.std.specs.Prelude.{Some};
    ghost use Rattle.rule_mutators.specs.Faults.{rules_fault_text};

    ghost output = { λ fault. Some (rules_fault_text fault) };

    fn fmt<W: fmt::Write>(&self, f: &mut fmt::Formatter<W>) -> fmt::Result {
        match self {
            RuleFault::NoMemory => f.write_str("memory was refused: free some and read again"),
            RuleFault::NotJson => f.write_str("no JSON text, or one that nests too deep"),
            RuleFault::NotObject => f.write_str("no JSON object"),
            RuleFault::At(place, wrong) => write!(f, "{place}: {wrong}"),
        }
    }
}

impl From<AllocError> for RuleFault {
    ghost use Rattle.std.specs.Prelude.{◌≡◌};
    ghost use Rattle.rule_mutators.specs.declared.faults.RuleFault.TheVariants.{NoMemory};

    ghost from_gives = { λ _ e. e ≡ NoMemory };

    fn from(_refused: AllocError) -> RuleFault {
        RuleFault::NoMemory
    }
}

impl<T: Drop> From<AllocFailed<T>> for RuleFault {
    ghost use Rattle.std.specs.Prelude.{◌≡◌};
    ghost use Rattle.rule_mutators.specs.declared.faults.RuleFault.TheVariants.{NoMemory};

    ghost from_gives = { λ _ e. e ≡ NoMemory };

    fn from(_refused: AllocFailed<T>) -> RuleFault {
        RuleFault::NoMemory
    }
}
