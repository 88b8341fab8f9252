//! The body of a push at a commit: what is pending there is written where it stands, and not copied. What is skipped is
//! walked past.
//!
//! A taker is known by what it has taken alone. So which push it writes is named by its type: `W` stands for the
//! identity, and for how many mutations are skipped.
ghost use Rattle.std.specs.Prelude.{ℕ, ◌≡◌, ◌⊎◌, ◌-◌, [], drop, length, Some, IsSome, IfOk, IfErr};
ghost use Rattle.group_history.specs.Refs.{stamp_of};
ghost use Rattle.group_history.specs.Spelling.{Version, version_at};
ghost use Rattle.group_history.specs.declared.mutators.Stop.TheVariants as stopping;
ghost use Rattle.push_body.specs.declared.identities.Identity.{Identity as Identified};
ghost use Rattle.push_body.specs.Bodies.{push_text};
ghost use Rattle.push_body.specs.Written.{HasWritten};
ghost use Rattle.change_tries.specs.Missing.{IsStoreOrMemory};
ghost use Rattle.change_tries.specs.Places.{state_at};

use crate::places::At;
use chunk_slots::Slots;
use commit_graph::{Nodes, StoreNodes, TakesMutations, hand_pending};
use group_history::{Means, Mutation, Ref, Refusal, Stop};
use push_body::{Identity, PushWriter};
use std::alloc::{AllocError, Global};
use std::marker::{Brand, PhantomData};

/// Names a push: whose it is, and how many of the oldest mutations it skips.
trait WhichPush {
    ghost whose: { Identified };

    ghost skipped: { ℕ };
}

impl WhichPush for Brand {
    ghost whose = { record { group = []; profile = []; schema = [] } };

    ghost skipped = { 0 };
}

/// The push that `W` names, to which mutations are handed.
#[derive(Drop)]
struct Pushed<'i, W: WhichPush> {
    // How many are still to be skipped.
    left: usize,
    writer: PushWriter<'i>,
    of: PhantomData<W>,
}

impl<'i, W: WhichPush> TakesMutations for Pushed<'i, W> {
    ghost has = { λ pushed xs. (pushed.left ≡ W.skipped - length xs)
        × HasWritten W.whose (drop W.skipped xs) pushed.writer };

    fn take(&mut self, mutation: &Mutation) -> Result<(), AllocError> {
        if self.left > 0 {
            self.left -= 1;
            return Ok(());
        }
        self.writer.add(mutation)
    }
}

fn written<N: Nodes, W: WhichPush>(
    alloc: Global,
    nodes: &mut N,
    at: Ref,
    identity: &Identity,
    skip: usize,
) -> Result<Vec<u8>, Stop>
    requires whose { identity.now ≡ W.whose }
    requires skipped { skip ≡ W.skipped }
    requires known { IsSome (version_at (N.contents nodes.old) (stamp_of at)) }
    requires place { N.places nodes.old at }
    ensures body { (v : Version) → version_at (N.contents nodes.old) (stamp_of at) ≡ Some v
        → IfOk result (λ body. body.items ≡ push_text W.whose (drop W.skipped v.state.pending)) }
    ensures stopped { IfErr result (λ stop. (stop ≡ stopping.NoMemory) ⊎ N.stops stop) }
{
    let writer = PushWriter::new(alloc, identity)?;
    let mut pushed = Pushed::<W> {
        left: skip,
        writer,
        of: PhantomData,
    };
    hand_pending(alloc, nodes, at, &mut pushed)?;
    Ok(pushed.writer.into_bytes()?)
}

/// The body of a push of what is pending at the commit, but for the oldest so many.
pub fn body_at<'a, M: Means, S: Slots<M>>(
    at: &At<'a, M, S>,
    skip: usize,
) -> Result<Vec<u8>, Refusal>
    ensures body { IfOk result (λ body. body.items ≡ push_text at.now.identity (drop skip (state_at at.now).pending)) }
    ensures err { IfErr result (IsStoreOrMemory S.reused) }
{
    let group = at.group;
    let mut nodes = at.nodes();
    Ok(written::<StoreNodes<'a, M, S>, Brand>(
        group.shared.alloc,
        &mut nodes,
        at.commit,
        &group.identity,
        skip,
    )?)
}
