//! The language of scripts: a script is checked whole, and made values.
//!
//! `read_script` cuts a script into lines and makes values of them (a `Header`, and phases of `Command`s); where it is
//! faulty, the first faulty line is told. `LineReader` does the same for a line by itself. What a script says, and
//! which fault is the first, is in `specs/`; `docs/SCRIPT.md` says it in words, with usual causes.
#![tactic(auto)]

mod commands;
mod faults;
mod header;
mod lines;
mod looks;
mod names;
mod parser;
mod reader;
mod script;
mod words;

pub use faults::{Fault, LineFault, ScriptFault};
pub use parser::read_script;
pub use reader::LineReader;
pub use script::{
    ClientLine, Command, Header, Line, LineKind, MutatorCall, Phase, Query, Script, uuid_text,
};
