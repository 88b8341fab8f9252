//! The chunks that a draft owns: read, changed in place, and written down as nodes.
//!
//! `OwnNode` is such a chunk with all that it owns below it. Chunks that were placed stand in it as references, and are
//! copied before they change. Contracts see an own chunk as the list of its pieces: rows, and the placed chunks below
//! it. Each call asks that what the chunk shows is in order, and says what it shows afterwards.
//!
//! `OwnRoot` is the root of a map. What is put is a `ValueChange`: what a closure makes of the value at the key, or a
//! value. It is taken down to the leaf, so an update goes down once, as a put does.
//!
//! From a placed chunk on, each chunk is held while the way goes on below it (`nodes/trails/laying.rt`), and new ones
//! are made on the way up, only where the value changes. Where the root is placed and no chunk is split,
//! they are a trail (`nodes/trails.rt`): they lie in one list, and a freeze makes a node of each as it is. Contracts
//! see a trail as the own chunk that it stands for. What is put or removed next makes that chunk of it: a mutator that
//! told what it will put would spare that. Otherwise they are own chunks (`nodes/growing.rt`).
//!
//! Own chunks are changed in place, on the way up (`nodes/putting.rt`); all memory is taken before that, so a put that
//! stops leaves the tree. A chunk above a full child, which may be split, makes room in a key list of its own before
//! the way goes on below it, and where it is full itself takes what its own split needs. So a put rebuilds the key
//! lists of chunks above a full child, that of its leaf where the key is new, and those whose first key it becomes; no
//! other. A removal looks at the child before anything changes: one that would be empty leaves its parent and is not
//! copied. Half-empty chunks are not merged, so a fill in order leaves its leaves half full.
#![tactic(auto)]

mod changes;
mod nodes;
mod roots;

pub use changes::ValueChange;
pub use roots::{OwnRoot, Updated, frozen};
