//! The plain record of a client group: its words, its types, and the group of one thread that all other layers are
//! measured by.
//!
//! A client group shares one pulled map, one cookie and one list of pending mutations. What is shown is the pulled map
//! with the pending mutations replayed on it, oldest first. The definitions are in `specs/`, which every layer's
//! contracts cite; [`record_laws`](crate::record_laws) has what is proved of them, and `docs/RECORD.md` says them in
//! English.
//!
//! Nodes: a map is kept in chunks, the history in commits. A node is named by a *stamp*, a number that is never used
//! again, so its content never changes; a `Ref` has a stamp (40 bits) and a slot (24 bits). A leaf has at most 16 keys
//! in strict order with values, an inner chunk 1 to 16 children under their first keys, a commit the root of its map
//! and what it is: a snapshot (cookie, confirmed ids, pulled map) or one over a basis, which names the snapshot of its
//! chain too and adds a mutation or the closing. So cookie, confirmed ids and pulled map are two looks away, whatever
//! is pending. What stamps spell is `specs/Spelling.antt`: one fold from the left, so a child of the same or a greater
//! stamp spells nothing. `Node<R>` names children by `Ref` in a slot, by `Child` in a draft, by stamps in definitions.
//!
//! Decisions. A `Text` of at most 22 bytes lies in the value, one of 23 to 71 in one shared block, a longer one is a
//! shared `String`: a clone copies at most 22 bytes, and it costs an `unsafe` call with its proof (`Packed::as_str`). A
//! cookie is its text and its order, so a comparison reads no JSON; texts are compared themselves and not by their
//! compact forms, by which U+0001 would sort above `A`. It is no `Json`, since it may nest 126 deep. A change carries
//! its ticket. A reason belongs to the pending mutation, not to the run. `PullOk` has ids up to 2^52 by its type, so a
//! client's next id always fits. A closed commit has no commit over it, so whether it is closed is told by itself. The
//! plain group keeps its view beside its parts, and makes all new parts of a pull before it writes them. `apply_patch`
//! and `cookie_cmp` stand here since the plain group needs them. A chunk's keys are one shared block, so a copy of an
//! inner chunk costs one count and its children. A `TextMap` is one vector of rows sorted by key, so a copy is one
//! block and a look-up halves; what is put in or taken out moves the rows behind it. It is searched by `&Text`, not by
//! `&str`, so a text is made for a look-up. A stop of a view is a `Stop`; a plain view stops for want of memory alone.
//!
//! Tested and not proved: that calls succeed with ample memory; compact texts and orders of cookies against values from
//! outside.
#![tactic(auto)]

mod changes;
mod confirmed;
mod cookies;
mod id_table;
mod json;
mod laws;
mod mutations;
mod mutators;
mod nodes;
mod plain;
mod plain_view;
mod refs;
mod refusals;
mod renaming;
mod responses;
mod scans;
mod steps;
mod text_map;
mod texts;

pub use changes::{Change, Reply};
pub use confirmed::ConfirmedIds;
pub use cookies::{Cookie, Order, cookie_cmp};
pub use json::{Json, is_whole, nests_within, read_value};
pub use laws::{record_laws, worked_examples};
pub use mutations::{Mutation, MutationFields, Reason};
pub use mutators::{Means, Mutators, Ran, Stop, Update, WriteView};
pub use nodes::{
    BoxedCommit, Child, Chunk, Commit, CommitChange, CommitKind, Inner, Keys, Leaf, Node, Snapshot,
    Successor,
};
pub use plain::PlainGroup;
pub use refs::{MAX_SEATS, MAX_SLOTS, Ref, STAMP_BITS, STAMPS};
pub use refusals::Refusal;
pub use responses::{Confirmed, Ended, Patch, PullOk, Response, VersionKind};
pub use scans::{Scan, Start};
pub use steps::{apply_patch, is_saying_nothing, keep_unconfirmed};
pub use text_map::TextMap;
pub use texts::{SearchKey, Text, is_word};
