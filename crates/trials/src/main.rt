//! Trials: calls of a group's clients, each with the reply that it should have.
//!
//! A file of `data/` is a trial. It is a script, with what scripts lack: which stores it runs over, how often a call
//! may try, readers, seats, counts, and behind `=>` the reply to each call (`docs/TRIALS.md` has the language). The
//! file `trials` names the trials. Each runs over each of its stores, and a line tells how many of its replies are as
//! told; a reply that isn't is printed. One thread makes all calls.
//!
//! Around each call a second client of the caller's ID looks at the group: what is no change has to leave all as it
//! was.
//!
//! A line of standard input that names a trial, a store and the number of a marked call has that one call made, in the
//! midst of its trial, and each reply from it on is printed. Where the call begins and ends is told on standard error,
//! so that `tools/refuse-in-calls` can refuse the allocations that are made in between, one by one.
#![tactic(auto)]

mod calls;
mod counts;
mod expansion;
mod failed;
mod group;
mod looks;
mod marks;
mod parts;
mod plain;
mod players;
mod readers;
mod replies;
mod requests;
mod rows;
mod sheet;
mod steps;
mod tally;
mod texts;
mod trial;

use failed::Failed;

fn main(rt: HostRuntime) -> Result<(), Failed> {
    trial::play_all(&rt, &rt)
}
