//! What leads to a change, drafted at the commit where a call stands.
//!
//! The commit is looked at once: that tells whether the group is closed, the root of its map, and its chain's snapshot.
//! Nothing is placed yet, and the head is not touched: a refusal has changed nothing.
ghost use Rattle.std.specs.Prelude.{ℕ, ◌≡◌, ◌⊎◌, ◌<◌, false, Err, Some, List, length, IfOk, IfErr, OnOk};
ghost use Rattle.group_history.specs.Mutating.{mutate_reply};
ghost use Rattle.group_history.specs.Refs.{stamp_of};
ghost use Rattle.group_history.specs.State.{last_id};
ghost use Rattle.group_history.specs.declared.changes.Change.TheVariants as changed;
ghost use Rattle.group_history.specs.declared.mutations.MutationFields.{MutationFields as Mutated};
ghost use Rattle.group_history.specs.declared.refusals.Refusal.TheVariants as refusal;
ghost use Rattle.head_word.specs.Books.{drawn};
ghost use Rattle.map_chunks.specs.Drafts.{IsLate};
ghost use Rattle.commit_graph.specs.LastIds.{last_at};
ghost use Rattle.linearized.specs.Trying.{IsUnproposed};
ghost use Rattle.change_tries.specs.Missing.{IsStoreRefusal, IsStop};
ghost use Rattle.change_tries.specs.Places.{state_at};
ghost use Rattle.change_tries.specs.Proposing.{IsDraftSpot, MayPropose, asked_reply, change_asked, kind_left};

use crate::places::At;
use crate::views::last_known;
use change_drafts::{Tip, add_closing};
use chunk_slots::Slots;
use commit_graph::LastId;
use group_history::{Change, Means, Mutation, Ref, Refusal};
use map_chunks::Draft;
use reader_claims::Kind;

/// A call that asks for a change, and how often it tries what is lost to others.
#[derive(Clone, Copy)]
pub struct ChangeCall<'a> {
    pub change: &'a Change,
    pub tries: u32,
}

/// What a client asks for by a call, and where its last id was found.
#[derive(Clone, Copy)]
pub struct Request<'a> {
    pub call: ChangeCall<'a>,
    pub before: LastId,
}

/// Where new commits are drafted: behind the tip of a chain, under stamps from the first one on; and whether a new
/// mutation's is to tell each client's last id.
#[derive(Clone, Copy)]
pub struct DraftSpot {
    pub tip: Tip,
    pub first: u64,
    pub tells: bool,
}

/// The draft that leads from a commit to a change, its commit of the state after the change, and which slots it may
/// take.
#[derive(Drop)]
pub struct Proposal {
    pub base: Ref,
    pub draft: Draft,
    pub at: Ref,
    pub kind: Kind,
}

/// Whether the mutation is its client's next one at an open group. It is Stale where it is not.
pub fn check_next<M: Means, S: Slots<M>>(
    at: &At<'_, M, S>,
    mutation: &Mutation,
    before: LastId,
) -> Result<(), Refusal>
    requires open { (state_at at.now).closed ≡ false }
    requires before { last_at (drawn at.now.mark.log) (stamp_of before.at) mutation.now.client ≡ Some before.id }
    ensures ok { OnOk result (last_id (state_at at.now) mutation.now.client ≡ before.id) }
    ensures err { IfErr result (λ e. IsStoreRefusal S.reused e ⊎ ((e ≡ refusal.Stale)
        × (mutate_reply M.means (state_at at.now) before.id mutation.now ≡ Err refusal.Stale))) }
{
    let last = last_known(at, &mutation.fields().client, Some(before))?;
    if last.id != before.id {
        return Err(Refusal::Stale);
    }
    Ok(())
}

/// The slots that an end of a pull may take which leaves so many mutations pending.
pub fn kind_at_end(left: usize) -> Kind
    ensures { (xs : List Mutated) → left ≡ length xs → result ≡ kind_left xs }
{
    if left == 0 {
        return Kind::PullEnd;
    }
    Kind::Ordinary
}

/// What leads to the closing of an open group.
pub fn propose_closing<M: Means, S: Slots<M>>(
    at: &At<'_, M, S>,
    spot: DraftSpot,
) -> Result<Option<Proposal>, Refusal>
    requires spot { IsDraftSpot M.means at.now spot.tip spot.first }
    ensures proposed { (last : ℕ) → IfOk result (MayPropose M.means (drawn at.now.mark.log) at.now.commit
        (state_at at.now) last changed.Closed) }
    ensures err { (last : ℕ) → IfErr result (IsUnproposed (IsStop S.reused) (change_asked changed.Closed)
        (asked_reply M.means (state_at at.now) last changed.Closed)) }
    ensures late { IfErr result (λ e. e ≡ refusal.Stamps → IsLate spot.first) }
{
    let (group, base) = (at.group, at.commit);
    let mut draft = Draft::new(group.shared.alloc, spot.first);
    let at = add_closing(&mut draft, spot.tip)?;
    let kind = Kind::PullEnd;
    Ok(Some(Proposal {
        base,
        draft,
        at,
        kind,
    }))
}
