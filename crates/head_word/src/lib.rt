//! The shared head of a group (its root pointer, moved by compare-exchange): threads draw stamps (version numbers) for
//! new nodes, and move the head from commit to commit (version to version) by changes of one legal record (sequential
//! history). `head` tells the protocol.
//!
//! The head word is the `Ref` of the commit where the last change led. The draft word is the first stamp that nobody
//! drew. In definitions the two stand for one list that only grows, the *book*: an entry is a draft (its first stamp,
//! its nodes) or a move (where to, by which change), each with the seat that added it. The content at place p of a
//! draft with first stamp f has the stamp f + p. A book opens with a draft of an empty leaf and the opening snapshot,
//! and a move to that snapshot, which tells for how many seats it is opened. No seat added these two, and one of its
//! seats each entry behind them.
//!
//! Of every book is true (`IsBook`): stamps are drawn in order, and at most 2^40; children have smaller stamps than
//! their parents; the record, which is the changes of the moves, is legal; the commit where the last move went spells
//! the state after that record.
//!
//! A *mark* is a prefix of the book that its owner has seen. It has no bytes for that: only contracts see it. A seat's
//! mark bears its tally too, the count of the entries that the seat added. Each step hands the tally over and takes it
//! back, so a call proves what it added and that it added nothing else. A copied mark has no seat: others can learn
//! from it, but it can't publish. Any two marks of a book are ordered: one is a prefix of the other.
//!
//! `publish` asks, by what the mark has seen, that `new` spells the state that `base` spells after the change, which is
//! accepted there (`IsChangeFrom`). A stamp's content never changes, so this still holds when the exchange is won. If
//! the head word is unchanged, so are its slots: a stamp is drawn once. A won exchange says that no change came
//! between.
//!
//! Decisions. A head names what its mutators mean by a type parameter, since whether a record is legal depends on it;
//! nothing here runs a mutator. A tally counts all entries of a seat together, since `own` lists them. `draft` is told
//! where the draft's own numbers begin, so a node may name a child by its place in the same draft.
//!
//! Not proved: that an exchange is ever won.
#![tactic(auto)]

mod asks;
mod entry;
mod head;
mod law;
mod laws;
mod lost;
mod mark;
mod opening;
mod steps;
mod tally;

pub use entry::{DraftEntry, Entry, MoveEntry, OpeningEntry};
pub use group_history::Ref;
pub use head::Head;
pub use laws::{book_laws, one_record};
pub use lost::{Lost, Moved};
pub use mark::{Mark, Sight};
