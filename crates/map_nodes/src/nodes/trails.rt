//! A trail: what a first put makes new where no chunk is split, by one way down (`laying`).
//!
//! Its chunks are those on the way to the key. Each but the leaf has placed children, and the next chunk in the place
//! of one of them, so no chunk lies behind a pointer, and each is written down as it is. Contracts see a trail as the
//! own chunk that stands on top. What else is changed is changed in an own chunk with the same pieces (`thawing`).
mod freezing;
mod laying;
mod reading;
mod scanning;
mod thawing;

use group_history::{Json, Keys, Ref};
pub(crate) use laying::{Laying, Reached, change_at};
use std::marker::Model;
use std::sync::Arc;

/// A chunk above another one of the trail.
#[derive(Drop)]
pub(crate) struct Step {
    keys: Arc<Keys>,
    children: Vec<Ref>,
    place: usize,
}

/// The leaf.
#[derive(Drop)]
pub(crate) struct End {
    keys: Arc<Keys>,
    values: Vec<Json>,
}

/// The chunks on the way to one key, the lowest step first.
#[derive(Drop)]
pub struct Trail {
    steps: Vec<Step>,
    end: End,
}

impl Model for Trail {
    ghost use Rattle.map_chunks.specs.Shown.{Seen};

    ghost Value = { Seen };

    ghost use Rattle.map_nodes.specs.Trails.{steps_seen, AreSteps};

    ghost view = { λ t. steps_seen t.steps.items t.end };

    ghost invariant = { λ t. AreSteps t.steps.items t.end };
}
