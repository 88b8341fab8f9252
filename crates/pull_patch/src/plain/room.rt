//! What is kept from value to value of a body.
use std::alloc::Global;

/// How the names stood in the values so far. A server writes its values all in one way, so this tells how the next one
/// is best read: the text of its tokens is its compact text only where its names ascend.
#[derive(Clone, Copy)]
pub(crate) enum NameOrder {
    Unseen,
    Ascend,
    /// They stood otherwise in one value at least.
    Vary,
}

impl NameOrder {
    /// The same behind a value more, whose names ascend or don't.
    pub(crate) fn with(self, ascends: bool) -> NameOrder {
        match self {
            NameOrder::Vary => NameOrder::Vary,
            NameOrder::Unseen | NameOrder::Ascend => if ascends {
                NameOrder::Ascend
            } else {
                NameOrder::Vary
            },
        }
    }
}

/// What is kept from value to value. No clause speaks of it: each value is read right whatever it holds.
#[derive(Drop)]
pub(crate) struct Room {
    /// The text of the last value that was copied.
    pub(crate) text: Vec<u8>,
    pub(crate) names: NameOrder,
}

impl Room {
    pub(crate) fn new(alloc: Global) -> Room {
        Room {
            text: Vec::new(alloc),
            names: NameOrder::Unseen,
        }
    }
}
