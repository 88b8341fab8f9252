//! Where the nodes of a group lie, and how readers and publishers reach them: a trait of stores (allocators), and two
//! stores. `store` tells what a store promises, and `counted` the protocol of a slot (cell of an arena) that is used
//! again.
//!
//! A reader may come with a `Ref` whose slot holds another node by then. Three checks prevent a stale read. *The
//! stamp*: each node lies beside its stamp, and `show` answers Gone where the slot has no node of the stamp looked for.
//! *The mark*: each slot keeps ghost evidence that the book assigned this stamp to this node (`Sight`, which has no
//! bytes), so what is shown is the content of the stamp, whatever the slot held before. *The count*: a reader is
//! counted in the slot's word while it reads, and nobody writes there meanwhile. What `show` answers can't be dropped
//! and is handed to `leave`, so no reader stays counted on any way out.
//!
//! `Arena` uses its slots again. Which slot is free says the claims table; the calls on slots and pins are its steps. A
//! slot has 72 bytes: a word, and in place a stamp and the node. Slots are made in blocks, each when a node is first
//! placed there (`blocks`). `place` is Busy where, as often as it tries, somebody reads or writes in the slot, or is
//! putting its block there. `Append` never uses a slot again: a table that only grows, in which a node stands at the
//! index of its stamp. It is Full where the stamp is no slot number, which its contract tells, and placing a node may
//! wait. `take_slot` answers slot 0, which means nothing, and the clauses on claims are empty (`reused` is false).
//!
//! Only `open` and `place` take memory. Calls that always return stand in `Slots`, the other three in `Store`.
//!
//! Decisions. Two traits, since a trait says nothing of waiting and a method of a block with the bound `R: Wait` counts
//! as one that may wait. A store's seat is tied to it by an equation (`serves` of the store, `home` of the seat), which
//! a generic client can keep. A node lies in its slot and not behind a pointer: a look finds stamp and node side by
//! side, and placing one takes memory only where it makes a block; it costs 72 bytes in a free slot of a block too. An
//! opening writes the claims, of which 8 bytes a slot stay, and the blocks of its two nodes. So a look loads where its
//! block lies, one step more than slots in one piece would take; those would be written at the opening, 40 ms and 75
//! MB for a million. An arena's opening may be Busy or Full by its contract, though neither comes: that a put into an
//! empty slot is won is no clause.
//!
//! Not said by any clause, and tested: that a call succeeds; that a node which was placed is shown, as no clause tells
//! what a slot's word holds; so also that a reader who holds a pin never meets Gone (five threads on 64 slots). The
//! head and the table as one machine never take such a slot (`joined_law`); this store doesn't rest on that. `place`
//! asks for a taken slot and answers its number; that the node then lies there is no clause, nor why a slot is Busy or
//! Gone. A count of readers ends at 2^30 - 1: one more is Busy.
#![tactic(auto)]

mod append;
mod arena;
mod arena_seat;
mod blocks;
mod counted;
mod dealt;
mod missed;
mod opening;
mod placed;
mod shown;
mod store;

pub use append::{Append, NoClaims};
pub use arena::Arena;
pub use arena_seat::ArenaSeat;
pub use missed::{Busy, StoreStop};
pub use placed::Placed;
pub use shown::Shown;
pub use store::{Slots, Store};
