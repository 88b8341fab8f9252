//! Tests of the runner of scripts on threads: that the clients of a phase run at the same time, what they meet where
//! slots are few, and how a run ends over streams that fail.
//!
//! They stand apart from those of a group on threads, so that these are proved without the runner.
#![tactic(auto)]

#[cfg(test)]
mod tests;
