//! The mutators of a to-do list, over `group_history` alone: so they are proved in minutes, whatever the crates above
//! it are at, and any program may name them.
//!
//! What each means is `specs/Todos.antt`. Nothing is proved by hand.
#![tactic(auto)]

mod mutators;
mod todos;

pub use mutators::Todos;
