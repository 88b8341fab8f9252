//! A node that was named by another one.
use group_history::Ref;

/// A node that a shown one names, by its kind.
#[derive(Clone, Copy)]
pub enum NamedNode {
    Chunk(Ref),
    Commit(Ref),
}
