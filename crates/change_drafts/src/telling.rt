//! What the last commit of a rebase tells.
//!
//! A client's last id is sought from the head down, up to the first commit that tells each client's last id. So where
//! many mutations stay pending the last of their commits tells them: the next mutation of any client then looks at one
//! commit, and not at all of them.
ghost use Rattle.std.specs.Prelude.{◌≡◌, ◌++◌, List, [], ◌∷◌, true, map, IfOk};
ghost use Rattle.group_history.specs.Pulling.{overwritten};
ghost use Rattle.group_history.specs.Spelling.{said_id, tells_right};
ghost use Rattle.group_history.specs.State.{Ids, State};
ghost use Rattle.group_history.specs.declared.mutations.MutationFields.{MutationFields as Mutated};
ghost use Rattle.change_drafts.specs.Pending.{with_more};

use commit_graph::NEAR_COMMITS;
use group_history::{Confirmed, ConfirmedIds, Mutation, Text};
use std::alloc::{AllocError, Global};

// Whether the first of the mutations is of this client.
fn begins_with(mutations: &[Mutation], client: &Text) -> bool
    ensures { result ≡ true → (first : Mutated) × (rest : List Mutated) × (mutations.now ≡ first ∷ rest)
        × (first.client ≡ client.now) }
{
    match mutations.split_first() {
        Some((first, _)) => first.fields().client == *client,
        None => false,
    }
}

// The client and the id of each of the mutations, in order. One before another of its client is passed over.
fn said_ids(alloc: Global, mutations: &[Mutation]) -> Result<Vec<Confirmed>, AllocError>
    ensures { (ids : Ids)
        → IfOk result (λ said. overwritten ids said.items ≡ overwritten ids (map said_id mutations.now)) }
{
    let mut said = Vec::new(alloc);
    let mut left = mutations;
    while let Some((mutation, behind)) = left.split_first() {
        if !begins_with(behind, &mutation.fields().client) {
            let fields = mutation.fields();
            let client = fields.client.clone()?;
            said.push(Confirmed {
                client,
                id: fields.id,
            })?;
        }
        left = behind;
    }
    Ok(said)
}

/// Each client's last id before the last of these mutations, where the walk to it would be far; all stay pending over
/// these confirmed ids.
pub fn told_before_last(
    alloc: Global,
    confirmed: &ConfirmedIds,
    pending: &[Mutation],
) -> Result<Option<ConfirmedIds>, AllocError>
    ensures told { (s : State) (before : List Mutated) (last : Mutated) → IfOk result (λ told.
        s.confirmed ≡ confirmed.now → s.pending ≡ [] → pending.now ≡ before ++ last ∷ []
        → tells_right told (with_more s before) ≡ true) }
{
    let Some((_, before)) = pending.split_last() else {
        return Ok(None);
    };
    if before.len() < NEAR_COMMITS as usize {
        return Ok(None);
    }
    let said = said_ids(alloc, before)?;
    let told = confirmed.overwritten(alloc, &said)?;
    Ok(Some(told))
}
