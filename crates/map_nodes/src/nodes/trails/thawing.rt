//! An own chunk with a trail's pieces, to be changed.
ghost use Rattle.std.specs.Prelude.{◌≡◌, ◌<◌, [], length, slice_set, IfOk};
ghost use Rattle.map_nodes.specs.Inside.Nodes.{Kid};
ghost use Rattle.map_nodes.specs.Trails.{placed_kids, steps_seen, trail_seen, AreSteps, IsTrail};
ghost use Rattle.map_nodes.specs.declared.nodes.OwnChild.TheVariants.{Own};

use super::super::copies::{copied_values, placed_children};
use super::super::homes::boxed;
use super::super::{Body, OwnChild, OwnNode};
use super::{End, Step, Trail};
use group_history::Ref;
use map_chunks::keys::NodeKeys;
use std::alloc::{AllocError, Global};

// Placed children, and an own chunk in the place of one.
fn kids_over(
    alloc: Global,
    children: &[Ref],
    place: usize,
    below: OwnNode,
) -> Result<Vec<OwnChild>, AllocError>
    requires { place < length children.now }
    ensures { IfOk result (λ kids. (n : Kid) × (n.value ≡ below)
        × (kids.items ≡ slice_set (placed_kids children.now) place (Own n))) }
{
    let mut kids = placed_children(alloc, children, 0)?;
    let home = boxed(alloc, below)?;
    kids[place] = OwnChild::Own(home);
    Ok(kids)
}

fn leaf_node(alloc: Global, end: &End) -> Result<OwnNode, AllocError>
    requires { IsTrail [] end.now }
    ensures { IfOk result (λ node. node ≡ trail_seen [] end.now) }
{
    let keys = NodeKeys::shared(end.keys.clone()?);
    let values = copied_values(alloc, &end.values, 0)?;
    Ok(OwnNode {
        depth: 1,
        keys,
        body: Body::Leaf(values),
    })
}

fn thawed(alloc: Global, steps: &[Step], end: &End) -> Result<OwnNode, AllocError>
    requires { AreSteps steps.now end.now }
    ensures { IfOk result (λ node. node ≡ steps_seen steps.now end.now) }
{
    let Some((step, rest)) = steps.split_last() else {
        return leaf_node(alloc, end);
    };
    let below = thawed(alloc, rest, end)?;
    let kids = kids_over(alloc, &step.children, step.place, below)?;
    let keys = NodeKeys::shared(step.keys.clone()?);
    Ok(OwnNode {
        depth: steps.len() as u64 + 1,
        keys,
        body: Body::Inner(kids),
    })
}

impl Trail {
    /// An own chunk like the trail.
    pub fn thawed(&self, alloc: Global) -> Result<OwnNode, AllocError>
        ensures { IfOk result (λ node. node ≡ self.now) }
    {
        thawed(alloc, &self.steps, &self.end)
    }
}
