//! When a call of a client is answered rightly, whatever other clients do at the same time: calls are linearizable.
//!
//! Each call has one point between its beginning and its end where it takes effect: the state of the group there is the
//! one that its reply is right for, and the change that the reply stands for, where it stands for one, is the next
//! change of the record, and the only one that the caller's seat made. `IsLinearized` in `specs/Answered.antt` says
//! this, and each public call of a shared group has it as its clause.
//!
//! A refusal may stand for a change: the server's answer that it does not know the group closes it. So the change is
//! named by the whole reply; a reply of its own would change that. A refusal for lack of memory, slots, stamps or tries
//! (`is_resource_refusal`) says nothing of the state.
//!
//! `points` has the two steps that such a call is made of, a look at the head and a move of it, with the points that
//! they have, and `trying` how one try of a move ended. The crate stands on `group_history` and `head_word` alone and
//! is the first thing to read of a shared group.
#![tactic(auto)]

mod laws;
mod points;
mod trying;

pub use laws::{answered_examples, at_once, change_laws};
pub use points::{look, publish_at};
pub use trying::Published;
