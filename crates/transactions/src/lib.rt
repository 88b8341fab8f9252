//! Maps under a reader's or a writer's hands.
//!
//! A `WriteTx` is the view that a mutator reads and writes: a tree of chunks, of which those that are written are its
//! own until they are placed. A `ReadTx` answers queries at one commit. Each shows one map all along, though what is
//! known to be placed may grow while it looks.
//!
//! `Staged` shows what is placed and a draft's nodes behind it as one, so a tree builds on nodes that are not placed
//! yet. A view hands back only what it shows, so after a run of a mutator nothing would be known of the chunks that
//! were read: where they can't change, a type parameter names their contents (`Fixed`, `NamesContents`). `RowDiff`
//! takes the rows of a scan beside those of before, where they lie, and copies them from the first one on that differs.
//! A scan that is made again reads only chunks that it didn't meet before: of the others `Spans` tell the rows; what it
//! has taken so far is a `Rescan`.
#![tactic(auto)]

mod again;
mod beside;
mod fixed;
mod reading;
mod rescan;
mod spans;
mod staged;
mod writing;

pub use again::Rescanned;
pub use fixed::{Fixed, NamesContents};
pub use map_tree::TakesRows;
pub use reading::ReadTx;
pub use spans::Spans;
pub use staged::{HeldStaged, Staged};
pub use writing::WriteTx;
