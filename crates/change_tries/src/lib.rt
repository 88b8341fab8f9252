//! The steps that the calls of a shared group are made of.
//!
//! A query pins its seat, looks where the head is, reads the commit there, and takes the pin away. A change, a mutation
//! or an end of a pull, is proposed at that commit: what leads to it is drafted, its nodes are placed, and the head is
//! moved there from the commit; where others moved it first, all of it is done anew at the commit where they left it.
//! `docs/MAINTAINING.md` has the path with the shared words of each step.
//!
//! `At` is the commit where a call stands, read by a seat whose pin is held. The clauses name the state there by what
//! had been seen when the head was looked at (`state_at`). Why a change is refused with Full, Busy or Stamps is
//! `HasCause`, and all that it does to slots, but for what it gives, `Frees`.
//!
//! Not proved: that the slot which a pull lets go for a node is the one where the node lies (the book names stamps, not
//! slots); that the draft for which no slot was found has no more chunks than its map needs.
//!
//! A change is told once, try by try (`changing.rt`, `trying.rt`): it is begun at the head (`requests.rt`), a run is
//! asked for where the group hasn't the mutator (`beginning.rt`), goes on when the caller says how the run ended
//! (`ending.rt`), and ends by a move of the head.
//! Between the steps the seat's pin is held, so that what a run reads stays placed. What is known then is `IsAttempt`:
//! the change was judged at the state where the head was looked at, and what is drafted with the runs that are left
//! leads to the state after it. That the caller runs the mutators which the group's meanings speak of is the one
//! premise (`IsRunOf`). Where the head was moved first, each run is asked for anew.
//!
//! What is tried again is one function over the change, and no trait that each change meets: a method of a trait's
//! block may not call a function at a bound that threads may share. What a pull leaves behind is listed before the
//! exchange, since nothing may be refused after it. These steps are generic in the store and dear to check, so they
//! stand in a crate of their own; wrong bodies stand in `rebase`, where a user reads the clause, and here only those of
//! its own functions.
#![tactic(auto)]

mod beginning;
mod changing;
mod ending;
mod group;
mod moving;
mod places;
mod proposing;
mod pushing;
mod requests;
mod runs;
mod steps;
mod trying;
mod views;

pub use changing::{ask_from, make_change, ran_from};
pub use group::SharedGroup;
pub use moving::move_head;
pub use places::At;
pub use proposing::{ChangeCall, Proposal};
pub use pushing::body_at;
pub use runs::{AskedRun, BoxedRun, del, get, put, scan};
pub use steps::{Arrival, find_last, pin_and_load, pin_and_load_both, unpin};
pub use trying::{Attempt, EndedAttempt, Progress};
pub use views::{Rooted, closed_at, cookie_at, root_at};
