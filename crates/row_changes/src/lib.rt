//! What changed between two lists of rows, for a poll that tells differences alone.
//!
//! Rows stand in the strict order of their keys, each key with the compact text of its value. A change tells of one key
//! what its value was and what it is, where these differ; of a key that was not there, or is not there any more, one of
//! the two is none. Which changes there are is `specs/Changes.antt`: of each key what it says, and no other list says
//! the same (`changes_laws`).
//!
//! Decisions. The lists are merged, so each row is looked at once. A change shares its texts with the rows.
#![tactic(auto)]

mod changes;
mod laws;
mod printing;
#[cfg(test)]
mod tests;

pub use changes::{RowChange, changes_of};
pub use laws::changes_laws;
pub use printing::print_changes;
