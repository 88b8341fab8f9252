//! What a put takes and makes.
//!
//! A value put at a key that is there takes the place of the old one, unless it is the same. What is put is what a
//! change makes of the value there, and it sees that at the leaf.
//! A chunk with 17 entries is split: the first 8 stay, the last 9 become its upper half, which its parent
//! puts behind it. All memory is taken before anything changes: above a child that is full, a chunk takes what
//! the child's upper half needs before it goes on below: a key list of its own, and where it is full itself,
//! room for a split. The first key of an upper half is copied for each chunk above.
ghost use Rattle.std.specs.Prelude.{◌≡◌};
ghost use Rattle.group_history.specs.declared.mutators.Stop.TheVariants.{NoMemory};
ghost use Rattle.map_nodes.specs.declared.nodes.putting.PutRefused.TheVariants.{Stopped};

mod below;
mod leaves;
mod middles;
mod paths;
mod roots;
mod splits;

use super::OwnNode;
pub(crate) use below::{PutBuffers, lower_key};
use group_history::{Json, SearchKey, Stop, Text};
pub(crate) use leaves::{insert_row, value_found};
pub(crate) use middles::{ChildSplit, finish, lower_first};
pub(crate) use roots::topped;
use std::alloc::{AllocError, Global};

/// A put in a chunk: its key, of which the first bytes are read once, and how many copies of an upper half's first key
/// are wanted.
#[derive(Clone, Copy)]
pub(crate) struct Put<'a> {
    pub(crate) alloc: Global,
    pub(crate) key: &'a Text,
    pub(crate) searched: &'a SearchKey<'a>,
    pub(crate) copies: usize,
    ghost same: { searched.now ≡ key.now },
}

/// The upper half of a chunk that was split, and copies of its first key.
#[derive(Drop)]
pub(crate) struct Half {
    pub(crate) firsts: Vec<Text>,
    pub(crate) node: Box<OwnNode>,
}

/// Why a row isn't put.
#[derive(Drop)]
pub(crate) enum PutRefused {
    Stopped(Stop),
    /// The key has the very value that is to be put.
    Same,
    /// The change refuses, with a code.
    Refused(u32),
}

impl From<AllocError> for PutRefused {
    ghost from_gives = { λ _ e. e ≡ Stopped NoMemory };

    fn from(_refused: AllocError) -> PutRefused {
        PutRefused::Stopped(Stop::NoMemory)
    }
}

impl From<Stop> for PutRefused {
    ghost from_gives = { λ stop e. e ≡ Stopped stop };

    fn from(stop: Stop) -> PutRefused {
        PutRefused::Stopped(stop)
    }
}
