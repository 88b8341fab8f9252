//! How a key is removed, and what becomes of the chunks on the way to it.
//!
//! A child whose only row is removed leaves its parent as it is, and is neither copied nor entered. Another
//! child stays, and its parent's key for it changes where its first row is removed. So no chunk is ever
//! empty but a root that is a leaf, and half-empty chunks stay as they are. A root that would have fewer
//! than two children gives way to what its last child ends in. Whatever may be refused is done before
//! anything changes.
mod fates;
mod paths;
mod roots;

use super::OwnNode;
use group_history::{Ref, Text};

/// What becomes of the child to which a key belongs, once the key is removed.
#[derive(Drop)]
enum ChildAfter {
    /// Its only row had the key.
    Leaves,
    /// It has other rows. Its first key is another one then, if there is one here.
    Stays(Option<Text>),
}

/// What is done at an inner chunk: the key, the place of the child to which it belongs, and this child's fate.
#[derive(Drop)]
struct Removal<'a> {
    key: &'a str,
    place: usize,
    fate: ChildAfter,
}

/// What stands in the place of a root with fewer than two children.
#[derive(Drop)]
enum NewRoot {
    Placed(Ref),
    Own(OwnNode),
}
