//! Pending mutations handed over one by one, and not copied.
//!
//! The chain of a head is gone down once, and of each commit over a basis only the reference is kept. Then it is gone
//! up again: each commit is shown, its mutation is handed over where it stands, and the commit is left. So at most
//! one commit is held, and a taker gets the oldest mutation first.
ghost use Rattle.std.specs.Prelude.{◌≡◌, ◌⊎◌, [], ◌∷◌, ◌++◌, List, reverse, Option, Some, IfOk, IfErr, OnOk, IsSome};
ghost use Rattle.group_history.specs.Refs.{stamp_of};
ghost use Rattle.group_history.specs.Spelling.{Version, version_at};
ghost use Rattle.group_history.specs.declared.mutations.MutationFields.{MutationFields as Mutated};
ghost use Rattle.group_history.specs.declared.mutators.Stop.TheVariants.{NoMemory};
ghost use Rattle.map_chunks.specs.Places.{Grows};
ghost use Rattle.commit_graph.specs.Inside.Chains.{added_by, listed};
ghost use Rattle.commit_graph.specs.Inside.Handing.{AddUp, IsAdded, added_in};

use crate::chains::{basis_in, look_at_commit};
use crate::nodes::Nodes;
use group_history::{Commit, CommitChange, CommitKind, Mutation, Ref, Stop};
use std::alloc::{AllocError, Global};

/// Who takes mutations, one after another.
pub trait TakesMutations {
    /// It has taken these, in order.
    ghost has: { Self → List Mutated → Type 0 };

    /// Takes one more. What the taker has after an error is not told.
    fn take(&mut self, mutation: &Mutation) -> Result<(), AllocError>
        ensures { (xs : List Mutated) → has self.old xs → OnOk result (has self.new (xs ++ mutation.now ∷ [])) };
}

fn hand_step<T: TakesMutations>(step: &CommitChange, taker: &mut T) -> Result<(), AllocError>
    ensures { (xs : List Mutated) → T.has taker.old xs
        → OnOk result (T.has taker.new (xs ++ listed (added_by step.now))) }
{
    match step {
        CommitChange::Local(mutation) => taker.take(mutation),
        CommitChange::Closed => Ok(()),
    }
}

fn hand_commit<T: TakesMutations>(commit: &Commit<Ref>, taker: &mut T) -> Result<(), AllocError>
    ensures { (xs : List Mutated) → T.has taker.old xs
        → OnOk result (T.has taker.new (xs ++ listed (added_in commit.now.kind))) }
{
    match &commit.kind {
        CommitKind::Snapshot(_) => Ok(()),
        CommitKind::Over(over) => hand_step(&over.step, taker),
    }
}

// Hands over what one commit adds.
fn hand_one<N: Nodes, T: TakesMutations>(nodes: &mut N, at: Ref, taker: &mut T) -> Result<(), Stop>
    requires known { IsSome (version_at (N.contents nodes.old) (stamp_of at)) }
    requires place { N.places nodes.old at }
    ensures grown { Grows N.contents N.places nodes.old nodes.new }
    ensures handed { (xs : List Mutated) (o : Option Mutated) → T.has taker.old xs
        → IsAdded (N.contents nodes.old) (stamp_of at) o → OnOk result (T.has taker.new (xs ++ listed o)) }
    ensures stopped { IfErr result (λ stop. (stop ≡ NoMemory) ⊎ N.stops stop) }
{
    Ok(look_at_commit(nodes, at, &mut |commit| hand_commit(commit, taker))??)
}

fn keep(chain: &mut Vec<Ref>, at: Ref) -> Result<(), AllocError>
    ensures { OnOk result (chain.new.items ≡ chain.old.items ++ at ∷ []) }
{
    Ok(chain.push(at)?)
}

// The commits over a basis from a head down, the newest first.
fn chain_of<N: Nodes>(alloc: Global, nodes: &mut N, head: Ref) -> Result<Vec<Ref>, Stop>
    requires known { IsSome (version_at (N.contents nodes.old) (stamp_of head)) }
    requires place { N.places nodes.old head }
    ensures grown { Grows N.contents N.places nodes.old nodes.new }
    ensures chain { (v : Version) → version_at (N.contents nodes.old) (stamp_of head) ≡ Some v
        → IfOk result (λ chain. AddUp (N.places nodes.new) (N.contents nodes.new) (reverse chain.items)
        v.state.pending) }
    ensures stopped { IfErr result (λ stop. (stop ≡ NoMemory) ⊎ N.stops stop) }
{
    let mut chain = Vec::new(alloc);
    let mut at = head;
    while let Some(basis) = look_at_commit(nodes, at, &mut basis_in)? {
        keep(&mut chain, at)?;
        at = basis;
    }
    Ok(chain)
}

// Hands over what the commits of a chain add, the last of the chain first.
fn hand_up<N: Nodes, T: TakesMutations>(
    nodes: &mut N,
    chain: Vec<Ref>,
    taker: &mut T,
) -> Result<(), Stop>
    requires chain { (ms : List Mutated) × AddUp (N.places nodes.old) (N.contents nodes.old) (reverse chain.items) ms }
    ensures grown { Grows N.contents N.places nodes.old nodes.new }
    ensures handed { (xs ms : List Mutated) → T.has taker.old xs
        → AddUp (N.places nodes.old) (N.contents nodes.old) (reverse chain.items) ms
        → OnOk result (T.has taker.new (xs ++ ms)) }
    ensures stopped { IfErr result (λ stop. (stop ≡ NoMemory) ⊎ N.stops stop) }
{
    let mut chain = chain;
    while let Some(at) = chain.pop() {
        hand_one(nodes, at, taker)?;
    }
    Ok(())
}

/// Hands over the pending mutations of a commit, the oldest first: afterwards the taker has them behind what it had.
/// Takes memory for a reference for each commit above the snapshot.
pub fn hand_pending<N: Nodes, T: TakesMutations>(
    alloc: Global,
    nodes: &mut N,
    head: Ref,
    taker: &mut T,
) -> Result<(), Stop>
    requires known { IsSome (version_at (N.contents nodes.old) (stamp_of head)) }
    requires place { N.places nodes.old head }
    ensures grown { Grows N.contents N.places nodes.old nodes.new }
    ensures pending { (v : Version) (xs : List Mutated) → version_at (N.contents nodes.old) (stamp_of head) ≡ Some v
        → T.has taker.old xs → OnOk result (T.has taker.new (xs ++ v.state.pending)) }
    ensures stopped { IfErr result (λ stop. (stop ≡ NoMemory) ⊎ N.stops stop) }
{
    let chain = chain_of(alloc, nodes, head)?;
    hand_up(nodes, chain, taker)
}
