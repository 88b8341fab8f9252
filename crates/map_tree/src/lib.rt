//! A map as a tree of chunks: a B+ tree, copied on write.
//!
//! `Tree` is the map: its root is a chunk that was placed, or one of the draft's own. What shows placed chunks is
//! handed on from `map_chunks`; `map_nodes` has the draft's own chunks. Trees stand in three crates, since a crate is
//! proved again whole before its edits and for its tests.
//!
//! What a put makes of a tree is one word, `IsPut` of `specs/Puts.antt`. In a tree d deep, a value replaced makes at
//! most d chunks new, a new key at most 2 d + 1 (`replaced`, `few`). On each level new chunks stand in the place of one
//! chunk at most, and all others are the same, placed ones under their stamps (`levels`): it has the keys that it had,
//! or one more; or it got a 17th entry, and the first 8 and the last 9 stand in its place. In chunks of the tree's own
//! all pieces are the same but one at most, be it a row or a placed chunk with all that is below it: what stands in its
//! place shows its rows and the value (`others`). So the chunks on the way to the key are made new, and no other. A
//! value replaced changes no key (`kept`), and a value that is there already makes nothing new (`same`).
//!
//! A key removed changes one chunk at most on each level, too (`levels` of `del`): a new one stands in its place, with
//! the keys that it had, one fewer, or another one between two children; or it had one row, or one child, and is gone.
//! So at most d chunks are new (`few`). A root that would keep one child gives way to it (`wide`), and the levels above
//! go; no chunk is made new for that.
//!
//! `freeze` appends the own chunks to a `Draft` as they are, children before parents; a placed child keeps its
//! reference (`named`), and of new references nothing is said until they are placed.
//!
//! A put and an `update` go down once. Each placed chunk on the way is held while the way goes on below it, and new
//! ones are made on the way up, only where the value changes; the tree's own chunks are changed in place. What a split
//! of these needs is taken on the way down, above a chunk that is full: where its key is there already, or a chunk
//! below it has room, in vain.
//!
//! Not proved: that no fewer chunks would do, and that a put on chunks of the tree's own copies none. The first change
//! after a first put that split no chunk copies what that put made new; those after it copy none of the tree's own. A
//! tree 2^64 - 1 deep would answer NoMemory to a put that splits its root, though no growth was refused; no machine
//! holds one.
#![tactic(auto)]

mod tree;

pub use map_chunks::{Chunks, Draft, Lent, Shelf, ShowsChunk, TakesRows, VecChunks};
pub use tree::Tree;
