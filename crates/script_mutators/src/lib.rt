//! The mutators of scripts, `set`, `del`, `incr`, `append` and `tag` (`docs/SCRIPT.md`).
//!
//! They are a program's own mutators as a reader may write them: each reads its arguments, and changes the view by
//! `WriteView`. The runner of scripts uses them, and so do the tests of groups, which is why they are a crate of their
//! own.
//!
//! Plain arguments are read without a tree: a text without escapes, alone or before a short whole number or another
//! such text, is read from the compact text itself, and all else as a value of `serde_json`. The contracts know no
//! difference.
#![tactic(auto)]

mod arguments;
mod mutators;
mod plain;
mod values;

pub use mutators::ScriptMutators;
