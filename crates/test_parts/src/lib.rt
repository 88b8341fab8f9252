//! Tests of single parts, with no thread: claims, stores, texts, maps as trees, lists of writes, and what pulls share.
//!
//! They stand in a crate of their own, since a crate with tests is proved once more for them.
#![tactic(auto)]

#[cfg(test)]
mod tests;
