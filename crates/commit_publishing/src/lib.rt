//! How a change that was prepared as a draft becomes part of a group.
//!
//! A draft's nodes are numbered among themselves. They are placed in three steps: a slot is taken for each, stamps are
//! drawn for all at once, and each node is put into a slot, children before parents, and its slot settled. Then the
//! head is exchanged, and what is no longer needed is retired: what the old head alone reached where the exchange was
//! won, and the draft itself where it was lost. So a slot is settled before the head can reach it, and retired only
//! when the head does not.
//!
//! Whatever becomes of a draft, its publisher is left without taken slots: one that is taken is settled or withdrawn,
//! and one that was settled in vain is let go (`IsGivenUp` of `specs/Retiring.antt`). The epoch is raised once for all
//! that is let go, and each is retired, or found not live; at the last epoch nothing is done (`AreFreed`). The clauses
//! say all that is done to slots, but for slots that are given.
//!
//! What the draft spelled under its own numbers it spells under the stamps that it drew: `placing_laws` has that, and
//! `place_of` tells what a reference of the draft has become. The stamps are those of an entry that the publisher added
//! to the book (`AreDrawnBy`).
#![tactic(auto)]

mod drawing;
mod exchange;
mod laws;
mod naming;
mod placing;
mod retiring;
mod taking;

pub use exchange::{Move, abandon_draft, publish_draft};
pub use laws::placing_laws;
pub use naming::place_of;
pub use placing::place_draft;
