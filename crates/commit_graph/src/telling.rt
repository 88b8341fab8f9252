//! What a commit may tell of each client's last id, so that a walk ends there.
//!
//! It is found by a walk too: up to a commit that tells it, or to the snapshot.
ghost use Rattle.std.specs.Prelude.{◌≡◌, ◌⊎◌, ◌++◌, Some, IfOk, IfErr, OnOk, IsSome};
ghost use Rattle.group_history.specs.Refs.{stamp_of};
ghost use Rattle.group_history.specs.Spelling.{Version, last_ids, version_at};
ghost use Rattle.group_history.specs.declared.mutators.Stop.TheVariants.{NoMemory};
ghost use Rattle.map_chunks.specs.Places.{Grows};
ghost use Rattle.commit_graph.specs.Inside.Chains.{listed, said_of};
ghost use Rattle.commit_graph.specs.Inside.Telling.{SaysIds};

use crate::chains::{look_at_commit, said_in};
use crate::nodes::Nodes;
use group_history::{Confirmed, ConfirmedIds, Ref, Stop};
use std::alloc::{AllocError, Global};

fn add(ids: &mut Vec<Confirmed>, said: Option<Confirmed>) -> Result<(), AllocError>
    ensures { OnOk result (ids.new.items ≡ ids.old.items ++ listed said) }
{
    if let Some(said) = said {
        ids.push(said)?;
    }
    Ok(())
}

/// Each client's last id at a commit, where ids follow. Stops where the nodes stop, or for want of memory.
pub fn last_ids_at<N: Nodes>(alloc: Global, nodes: &mut N, head: Ref) -> Result<ConfirmedIds, Stop>
    requires known { IsSome (version_at (N.contents nodes.old) (stamp_of head)) }
    requires place { N.places nodes.old head }
    ensures grown { Grows N.contents N.places nodes.old nodes.new }
    ensures ids { (v : Version) → version_at (N.contents nodes.old) (stamp_of head) ≡ Some v
        → IfOk result (λ ids. ids ≡ last_ids v.state) }
    ensures stopped { IfErr result (λ stop. (stop ≡ NoMemory) ⊎ N.stops stop) }
{
    let mut newer = Vec::new(alloc);
    let mut told = None;
    let mut next = Some(head);
    while let Some(at) = next {
        let before = newer.as_slice();
        let found = look_at_commit(
            nodes,
            at,
            &mut |commit|
                ensures { IfOk result (SaysIds before.entry.now (said_of commit.now)) }
            { said_in(alloc, commit, before) },
        )??;
        add(&mut newer, found.said)?;
        told = found.told;
        next = found.next;
    }
    let Some(told) = told else {
        unreachable!();
    };
    if newer.is_empty() {
        return Ok(told);
    }
    newer.reverse();
    Ok(told.overwritten(alloc, &newer)?)
}
