//! How many chunks a draft owns.
ghost use Rattle.std.specs.Prelude.{◌≡◌, ◌-◌, ◌^◌, min};
ghost use Rattle.map_chunks.specs.Shown.{fresh};
ghost use Rattle.map_nodes.specs.Nodes.{child_fresh, kids_fresh};

use super::{Body, OwnChild, OwnNode};

impl OwnNode {
    /// How many own chunks there are, from this one down. No machine has so many that the count stops at
    /// the largest number.
    #[cycle(counting)]
    pub fn new_chunks(&self) -> u64
        ensures { result ≡ min (fresh self.now) (2 ^ 64 - 1) }
    {
        match &self.body {
            Body::Leaf(_) => 1,
            Body::Inner(kids) => new_of_kids(kids).saturating_add(1),
        }
    }
}

#[cycle(counting)]
fn new_of_kids(kids: &[OwnChild]) -> u64
    ensures { result ≡ min (kids_fresh kids.now) (2 ^ 64 - 1) }
{
    let mut count = 0u64;
    for kid in kids {
        count = count.saturating_add(new_of_kid(kid));
    }
    count
}

#[cycle(counting)]
fn new_of_kid(kid: &OwnChild) -> u64
    ensures { result ≡ min (child_fresh kid.now) (2 ^ 64 - 1) }
{
    match kid {
        OwnChild::Placed(_) => 0,
        OwnChild::Own(node) => node.new_chunks(),
    }
}
