//! Tests that start threads: of clients that storm a group, of steps that fall as a gate says, of answers that have an
//! order, and below them of seats at one store, one head and one claims table.
//!
//! They stand in a crate of their own, since a crate with tests is proved once more for them.
#![tactic(auto)]

#[cfg(test)]
mod tests;
