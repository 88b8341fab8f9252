//! Runs scripts of calls against a client group, and prints what each call replies.
//!
//! A script is checked whole before anything runs (`script_parser`). `runner` then runs its phases one after the other:
//! in a phase each client with lines has a thread of its own, and what they print is written client by client, in the
//! order of their header lines. `process` is the same over a reader and two writers, with the statuses of a process.
//! `clients` does the lines of clients one by one, each behind all before it. What a client does, and keeps under
//! numbers, is a place of `client_desk`; `words` prints what a call came to.
//!
//! Decisions. What the clients of a script stand for is plain data (`Player`: a name, and how a place stands), of which
//! the clause `written` speaks; what a call may tell is `MayAnswerWaiting` of `client_desk`. A client that reads learns
//! nothing, and others learn from it what it had seen when its reading began. Behind the last phase open readings end,
//! and the clients learn of each other what they have seen, so that a run has one record (`record`). A client alone in
//! a phase runs on the caller's thread.
//!
//! Not said: why a writer failed, as `Write` says only what was written (tested with streams that fail); how many slots
//! the group has (told by the scripts of `trials/data/slots`); who moved the head when.
#![tactic(auto)]

mod client;
mod clients;
mod phase;
mod process;
mod record;
mod runner;
mod words;

pub use clients::Clients;
pub use phase::Gate;
pub use process::program;
pub use runner::run;
pub use script_parser::{Fault, ScriptFault};
