//! Chunks that were placed, and what is read from them.
//!
//! A chunk (a node of a B+ tree of 16, copied on write) is a leaf of keys and values, or an inner one of first keys and
//! children that were placed before it. It never changes once it is placed. `Chunks` shows placed chunks by stamp, by a
//! token that has to be handed to `leave`: a store may count its readers by it. `VecChunks` keeps them in a vector,
//! behind which a `Draft` has the nodes that are placed next. The modules go down from a placed chunk: `placed` to a
//! key's value, `seeking` to whether a key is there, `seconds` to the second key, and `ends` past chunks with one
//! child, each by `look_at`, which shows a closure one chunk; `scanning` along the leaves, whose rows go into what
//! `sinks` is about, while the chunks above are shown; `covers` to the few topmost chunks in which a scan's rows lie.
//! `keys`, `entries` and `search` are what a changed chunk's keys need, whoever owns the chunk: up to 16 entries stay
//! together; of 17 the first 8 stay and the last 9 are handed out (`insert_entry`).
//!
//! Every call asks that the chunk spells rows. A stamp doesn't determine its slot, so each store has a relation
//! `places`: the references that may be dereferenced. `show` asks it of its reference and says it of each child, and
//! every call is proved for every such relation, which refuses a body that looks at another slot. A vector takes the
//! trivial one. Slots that are named by stamps would need no such relation.
//!
//! Decisions. Order is said once of a tree, of all rows of a root; sizes, depths and first keys are part of what a
//! chunk spells. A draft's nodes stand behind their children (`Draft::push`), since the head's book asks the same, and
//! what appends nodes says for which references they are needed (`AddsNeeded`). A draft has at most 2^32 nodes, so that
//! want of stamps says how many are drawn; one more would be told NoMemory, though no growth was refused, and no
//! machine holds so many. A scan hands each row to a sink where it lies; keys of a scan stand together, so of a leaf
//! whose first and last key are in it no other is looked at.
#![tactic(auto)]

mod chunks;
pub mod covers;
mod drafts;
pub mod ends;
pub mod entries;
pub mod keys;
pub mod looks;
pub mod placed;
pub mod scanning;
pub mod search;
pub mod seconds;
pub mod seeking;
mod shelf;
mod sinks;

pub use chunks::{Chunks, ShowsChunk};
pub use drafts::Draft;
pub use shelf::{Lent, Shelf, VecChunks};
pub use sinks::TakesRows;
