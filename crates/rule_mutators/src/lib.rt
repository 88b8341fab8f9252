//! Mutators that are data. `docs/RULES.md` has the language.
//!
//! A host in any language gives its mutators as a JSON text. `Rules::read` reads it, and names the first fault by its
//! place, a JSON Pointer; `RuleMutators` runs what was read. What is read from which text is `specs/Reading.antt`, what
//! a rule means `specs/Meaning.antt`. There are no loops, so each rule ends. A name without a rule is a mutator of
//! scripts.
//!
//! Tested by the lines of `replicache_serve`: each word once, and how each fault is told; and by random rules that the
//! gate plays beside the twin in Python (`tools/compare-rules`). By hand, in an unproved build: each allocation refused
//! in turn.
#![tactic(auto)]

mod evaluating;
mod faults;
mod language;
mod mutators;
mod places;
mod reading;
mod running;
mod telling;
mod values;
mod words;

pub use faults::{RuleFault, Wrong};
pub use language::Rules;
pub use mutators::{NamesRules, RuleMutators};
pub use telling::tell_fault;
