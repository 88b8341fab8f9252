//! What the claims table and the head promise together. It is a machine of definitions alone: its steps on the table
//! are those by which the calls of `reader_claims` are specified, its steps on the book add the entries of `head_word`.
//! Nothing here runs. `specs/Worlds.antt` has what the machine has, `Events.antt` what a seat does, `Joined.antt` when
//! it may and what that changes. What follows is the contract of [`joined_law`](crate::joined_law).
//!
//! A commit is here a reference and the slots that it reaches. A world has the words and views of the table, the book,
//! the slots that the head reaches, and for each seat the commits that it loaded under its pin and its try. A try is
//! under way, with the slots that it settled and the stamps that it drew, or has ended, with the slots that are left to
//! be retired. There are no loops: any seat may do any step that it may, in any order. The machine has more ways than
//! the code.
//!
//! The law: no slot that the head reaches, or that a commit loaded under a pin still held reaches, is ever given,
//! withdrawn or taken (`joined`). So the head's slots are live (`head`), a seat holds the slots of its loaded commits
//! (`hold`), and what lies there is what the commit looks for (`stamps`). At the last epoch nothing is retired
//! (`highest`). The events lead to no table to which the table's own steps don't lead (`table`), the machine can open
//! (`opening`), and slots that were dropped, or settled in a lost try, can come back (`turn`, `lost_turn`): the law
//! doesn't hold for want of steps.
//!
//! Why it holds. Take a reader that holds the pin e and loaded a commit under it. As it did, the commit was the head,
//! and a head's slots are live. From then on each is live, or retired above e. For only a seat that has a slot left to
//! retire may retire it. If it is left from a lost try, no head ever reached it. If it is left from a won one, it was
//! the old head's and is no later head's: a head is made of slots of the one before and of slots just settled, and
//! those were Taken. So whoever loaded a commit with that slot did so before the exchange, under a pin that was held
//! then. The seat loaded the epoch as n after the exchange; a held pin is at most the epoch, which never falls; so e is
//! at most n, and the slot is retired at n + 1. Now some seat gives a slot of our commit, retired at r, above e. It
//! read our reader's pin after it had read the epoch as at least r. Either it read e, and then r is at most e; or the
//! pin was held only later, and then e is at least r. Neither can be. If the head word is unchanged, so are its slots:
//! a stamp is drawn once.
//!
//! What it is not. That the claims table and the book of the running code are one machine is not proved: each of the
//! two has its own steps in its own order, no clause ties the two orders, and none says that a publisher loads the
//! epoch after it has moved the head; that stands in the code alone. Tests catch a publisher that raises it before, and
//! not one that only loads it before. No contract rests on the law: each node is checked against the stamp that is
//! looked for, a compare at each look. The law is why no Gone is to be expected.
//!
//! It is a crate of its own since it is checked in seconds; `commits` hands its law on. A lost try and a won one are
//! not told apart: each leaves a list of slots.
#![tactic(auto)]

mod laws;

pub use laws::joined_law;
