//! Why a body isn't read the plain way.
use json::Invalid;
use std::alloc::{AllocError, AllocFailed};

/// Memory was wanting, or something isn't plain: then the body has to be read as a whole tree.
#[derive(Clone, Copy, Drop)]
pub(crate) enum PlainStop {
    NoMemory,
    NotPlain,
}

impl From<AllocError> for PlainStop {
    fn from(_refused: AllocError) -> PlainStop {
        PlainStop::NoMemory
    }
}

impl<T: Drop> From<AllocFailed<T>> for PlainStop {
    fn from(_refused: AllocFailed<T>) -> PlainStop {
        PlainStop::NoMemory
    }
}

impl From<Invalid> for PlainStop {
    fn from(_invalid: Invalid) -> PlainStop {
        PlainStop::NotPlain
    }
}
