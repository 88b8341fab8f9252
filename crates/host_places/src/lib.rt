//! Places at a group, for a host that is not Rattle.
//!
//! A group is opened with so many places (`opening`). A host names calls, tickets and watches by numbers, and gives and
//! takes bytes. `texts` has what the bytes of a host say, `numbered` and `desk` its calls: a desk is a place with the
//! bytes that its last call told. What each call may tell, and how it leaves the place, is `client_desk`'s.
//!
//! A group has its rules, and a name without one is a mutator of scripts or of the host's own (`mutators`). For a run
//! of its own mutators a change asks the host. That the host's runs are what its mutators mean is a premise of the call
//! that tells of one, and of no other: a host without mutators of its own has none to keep.
//!
//! Decisions. What the call is given is read first; then whether a run is asked for says which calls there are; then it
//! is looked who sits there. A refused call has told no bytes.
#![tactic(auto)]

mod desk;
mod mutators;
mod numbered;
mod opening;
mod texts;

pub use client_desk::{CallFault, HostRuns, Hosted, Outcome};
pub use desk::Desk;
pub use mutators::{HostMutators, NamesMutators};
pub use numbered::Numbered;
pub use opening::{GroupOpening, close_places, open_places};
