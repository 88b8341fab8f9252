//! A client with what it keeps: the calls that hosts make.
//!
//! A place is at a group. A client sits down there, makes its calls and leaves; another one may sit there then. What
//! it keeps from call to call, tickets and watches, has numbers. `place` has what each call does that is no change,
//! `queries` those that ask, `readings` how a reading begins and ends, `changes` the others, `waiting` changes that
//! wait for others; `reading` and `drafts` what queries tell, at a commit and by a run, `printing` and `rows` the texts
//! of rows, `kept` what is kept under numbers.
//!
//! What each call may tell, and how it leaves the place, is `specs/Answers.antt`: the client's own call of `rebase` is
//! made, and its reply is told. No call waits but those of `waiting`: one begins anew 1,000,000 times where others are
//! in its way.
//!
//! While a place has a reading open, queries are answered as of its moment, and no other call is made but that it ends,
//! or that the client leaves, which ends it too.
//!
//! For a run of a mutator that the group hasn't a change asks its caller, which does it on the run's map (`drafts`,
//! `specs/Drafts.antt`); the place has the change in place of its client meanwhile. That the caller's runs are what
//! the mutators mean is a premise of the call that tells of one, and of no other: where the group has all mutators,
//! none is asked for.
//!
//! Decisions. Whether a run is asked for comes first: it says which calls there are. Then it is looked who sits there.
//! A refused call has told no bytes, and a poll keeps its rows only once they are told, so a refused one may be made
//! again. What changed is told from the rows that a watch told last, whichever poll that was. Of writes in one call
//! those before a refused one are written. What is kept under a number that a call says is given up before the call is
//! made. A place has a handle on its group, which is let go with the last of them. A client that leaves takes its
//! tickets and watches along. A place may have a change that asks for a run, so it can't be dropped: it is closed, by
//! which such a change is given up, and its seat is answered (`specs/Closing.antt`).
#![tactic(auto)]

mod calls;
mod changes;
mod drafts;
mod faults;
mod kept;
mod learning;
mod mutators;
mod outcomes;
mod place;
mod printing;
mod queries;
mod reading;
mod readings;
mod rows;
mod sitting;
mod tickets;
mod waiting;
mod watches;

pub use calls::{DeskCall, Keep};
pub use faults::CallFault;
pub use mutators::{HostRuns, Hosted, Whole};
pub use outcomes::Outcome;
pub use place::Place;
pub use pull_patch::Write;
pub use rebase::Mutate;
