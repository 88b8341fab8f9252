//! The chunks of a draft that it owns, and changes in place.
//!
//! An own chunk holds its children, each an own chunk behind a pointer or a reference to a placed one, so
//! a child takes two words. Contracts see an own chunk as the list of its pieces: rows, and the placed
//! chunks below it, in the order of their keys.
mod building;
mod copies;
mod counting;
mod freezing;
mod growing;
mod homes;
mod putting;
mod reading;
mod removing;
mod scanning;
mod trails;
mod writing;

use group_history::{Json, Ref};
pub(crate) use growing::Down;
use map_chunks::keys::NodeKeys;
pub(crate) use putting::topped;
use std::marker::Model;
pub use trails::Trail;
pub(crate) use trails::{Laying, Reached, change_at};

/// A chunk that a draft owns. A leaf is 1 deep.
#[cycle(node)]
#[derive(Drop)]
pub struct OwnNode {
    depth: u64,
    keys: NodeKeys,
    body: Body,
}

#[cycle(node)]
#[derive(Drop)]
enum Body {
    Leaf(Vec<Json>),
    Inner(Vec<OwnChild>),
}

#[cycle(node)]
#[derive(Drop)]
enum OwnChild {
    Placed(Ref),
    Own(Box<OwnNode>),
}

impl Model for OwnNode {
    ghost use Rattle.map_chunks.specs.Shown.{Seen};

    ghost Value = { Seen };

    ghost use Rattle.std.specs.Prelude.{length};
    ghost use Rattle.map_nodes.specs.Nodes.{body_pieces, body_height, body_marks, IsNode};

    ghost view = { λ n. record {
      depth = n.depth;
      entries = length n.keys.texts;
      pieces = body_pieces n.depth n.keys.texts n.body;
      height = body_height n.body;
      marks = body_marks n.depth n.keys.texts n.body;
    } };

    ghost invariant = { λ n. IsNode n.depth n.keys.texts n.body };

    ghost size = { λ s. s.height };

    ghost use Rattle.map_nodes.specs.Inside.Falls.{deep-body};

    ghost size_decreases = { λ a h. deep-body a.body };
}
