//! What a request asks for first: the change that a client asks for, at the commit where its call stands.
ghost use Rattle.std.specs.Prelude.{ℕ, ◌≡◌, Ok, Some, IfOk, IfErr};
ghost use Rattle.group_history.specs.declared.changes.Change.TheVariants as changed;
ghost use Rattle.group_history.specs.declared.refusals.Refusal.TheVariants as refusal;
ghost use Rattle.head_word.specs.Books.{drawn, next_stamp};
ghost use Rattle.map_chunks.specs.Drafts.{IsLate};
ghost use Rattle.linearized.specs.Trying.{IsUnproposed};
ghost use Rattle.change_tries.specs.Missing.{IsStop};
ghost use Rattle.change_tries.specs.Places.{state_at};
ghost use Rattle.change_tries.specs.Proposing.{IsDraftSpot, IsOther, MayAsk, StaysFound, asked_reply, change_asked};
ghost use Rattle.change_tries.specs.Runs.{IsFirstStep, MayStep};

use crate::beginning::{begin_mutation, begin_outcome, catch_up};
use crate::places::At;
use crate::proposing::{DraftSpot, propose_closing};
use crate::runs::NextStep;
use change_drafts::{Runs, base_at, look_at};
use chunk_slots::Slots;
use commit_graph::{LastId, StoreNodes};
use group_history::{Change, Cookie, Mutation, PullOk, Refusal};
use std::marker::Brand;

// What the pull asks for first, at an open group.
fn begin_pull<'a, M: Runs, S: Slots<M>>(
    at: &At<'a, M, S>,
    spot: DraftSpot,
    ticket: &Cookie,
    pull: &PullOk,
) -> Result<NextStep, Refusal>
    requires spot { IsDraftSpot M.means at.now spot.tip spot.first }
    ensures step { (last : ℕ) → IfOk result
        (MayStep M.has M.means (drawn at.now.mark.log) at.now.commit (state_at at.now) last
        (changed.Pulled ticket.now pull.now)) }
    ensures err { (last : ℕ) → IfErr result
        (IsUnproposed (IsStop S.reused) (change_asked (changed.Pulled ticket.now pull.now))
        (asked_reply M.means (state_at at.now) last (changed.Pulled ticket.now pull.now))) }
    ensures first { IfOk result (IsFirstStep M.has (state_at at.now) (changed.Pulled ticket.now pull.now)) }
    ensures late { IfErr result (λ e. e ≡ refusal.Stamps → IsLate spot.first) }
{
    let before = base_at::<StoreNodes<'a, M, S>, Brand>(at.nodes(), spot.tip)?;
    begin_outcome(at, spot, &before, ticket, pull)
}

// The closing of an open group asks for no run.
fn begin_closing<M: Runs, S: Slots<M>>(
    at: &At<'_, M, S>,
    spot: DraftSpot,
) -> Result<NextStep, Refusal>
    requires spot { IsDraftSpot M.means at.now spot.tip spot.first }
    ensures step { (last : ℕ) → IfOk result
        (MayStep M.has M.means (drawn at.now.mark.log) at.now.commit (state_at at.now) last
        changed.Closed) }
    ensures err { (last : ℕ) → IfErr result (IsUnproposed (IsStop S.reused) (change_asked changed.Closed)
        (asked_reply M.means (state_at at.now) last changed.Closed)) }
    ensures first { IfOk result (IsFirstStep M.has (state_at at.now) changed.Closed) }
    ensures late { IfErr result (λ e. e ≡ refusal.Stamps → IsLate spot.first) }
{
    match propose_closing(at, spot) {
        Ok(Some(proposal)) => {
            return Ok(NextStep::Move(proposal));
        }
        Ok(None) => {
            return Ok(NextStep::Same);
        }
        Err(e) => {
            return Err(e);
        }
    }
}

// What a change asks for first that is no mutation, at an open group.
fn begin_other_there<M: Runs, S: Slots<M>>(
    at: &At<'_, M, S>,
    spot: DraftSpot,
    change: &Change,
) -> Result<NextStep, Refusal>
    requires other { IsOther change.now }
    requires spot { IsDraftSpot M.means at.now spot.tip spot.first }
    ensures step { (last : ℕ) → IfOk result
        (MayStep M.has M.means (drawn at.now.mark.log) at.now.commit (state_at at.now) last change.now) }
    ensures err { (last : ℕ) → IfErr result (IsUnproposed (IsStop S.reused) (change_asked change.now)
        (asked_reply M.means (state_at at.now) last change.now)) }
    ensures first { IfOk result (IsFirstStep M.has (state_at at.now) change.now) }
    ensures late { IfErr result (λ e. e ≡ refusal.Stamps → IsLate spot.first) }
{
    match change {
        Change::Mutated(_) => unreachable!(),
        Change::Pulled(ticket, pull) => {
            return begin_pull(at, spot, ticket, pull);
        }
        Change::Closed => {
            return begin_closing(at, spot);
        }
    }
}

// What a change asks for first that is no mutation, drafted under stamps from `first` on. It is a function of its own,
// so a mutation has none of its temporaries.
#[inline(never)]
fn begin_other<'a, M: Runs, S: Slots<M>>(
    at: &At<'a, M, S>,
    first: u64,
    change: &Change,
) -> Result<NextStep, Refusal>
    requires other { IsOther change.now }
    requires first { first ≡ next_stamp at.now.mark.log }
    ensures step { (last : ℕ) → IfOk result
        (MayStep M.has M.means (drawn at.now.mark.log) at.now.commit (state_at at.now) last change.now) }
    ensures err { (last : ℕ) → IfErr result (IsUnproposed (IsStop S.reused) (change_asked change.now)
        (asked_reply M.means (state_at at.now) last change.now)) }
    ensures first { IfOk result (IsFirstStep M.has (state_at at.now) change.now) }
    ensures late { IfErr result (λ e. e ≡ refusal.Stamps → IsLate first) }
{
    let look = look_at::<StoreNodes<'a, M, S>, Brand>(at.nodes(), at.commit)?;
    if look.closed {
        return Err(Refusal::Closed);
    }
    let tip = look.tip;
    let tells = false;
    begin_other_there(at, DraftSpot { tip, first, tells }, change)
}

// What a mutation asks for first, drafted under stamps from `first` on.
fn begin_mutated_there<'a, M: Runs, S: Slots<M>>(
    at: &At<'a, M, S>,
    first: u64,
    mutation: &Mutation,
    before: LastId,
    tells: bool,
) -> Result<NextStep, Refusal>
    requires asks { MayAsk (drawn at.now.mark.log) before (changed.Mutated mutation.now) }
    requires first { first ≡ next_stamp at.now.mark.log }
    ensures step { IfOk result (MayStep M.has M.means (drawn at.now.mark.log) at.now.commit (state_at at.now) before.id
        (changed.Mutated mutation.now)) }
    ensures err { IfErr result (IsUnproposed (IsStop S.reused) (change_asked (changed.Mutated mutation.now))
        (asked_reply M.means (state_at at.now) before.id (changed.Mutated mutation.now))) }
    ensures first { IfOk result (IsFirstStep M.has (state_at at.now) (changed.Mutated mutation.now)) }
    ensures late { IfErr result (λ e. e ≡ refusal.Stamps → IsLate first) }
{
    let look = look_at::<StoreNodes<'a, M, S>, Brand>(at.nodes(), at.commit)?;
    if look.closed {
        return Err(Refusal::Closed);
    }
    let tip = look.tip;
    begin_mutation(at, DraftSpot { tip, first, tells }, mutation, before)
}

// The same, where its client's last id was found before. Where it was found by the way stays known, also where the
// mutation is refused.
fn begin_mutated<M: Runs, S: Slots<M>>(
    at: &At<'_, M, S>,
    first: u64,
    mutation: &Mutation,
    found: &mut LastId,
) -> Result<NextStep, Refusal>
    requires asks { MayAsk (drawn at.now.mark.log) found.old (changed.Mutated mutation.now) }
    requires first { first ≡ next_stamp at.now.mark.log }
    ensures step { IfOk result (MayStep M.has M.means (drawn at.now.mark.log) at.now.commit (state_at at.now)
        found.old.id (changed.Mutated mutation.now)) }
    ensures err { IfErr result (IsUnproposed (IsStop S.reused) (change_asked (changed.Mutated mutation.now))
        (asked_reply M.means (state_at at.now) found.old.id (changed.Mutated mutation.now))) }
    ensures first { IfOk result (IsFirstStep M.has (state_at at.now) (changed.Mutated mutation.now)) }
    ensures late { IfErr result (λ e. e ≡ refusal.Stamps → IsLate first) }
    ensures kept { StaysFound (drawn at.now.mark.log) found.old found.new (changed.Mutated mutation.now) }
{
    let LastId { id, .. } = *found;
    let there = catch_up(at, mutation, *found)?;
    let before = LastId { at: there.at, id };
    *found = before;
    begin_mutated_there(at, first, mutation, before, there.is_far)
}

/// What the change asks for first, drafted under stamps from `first` on. Where its client's last id was found by the
/// way stays known, also where the change is refused.
pub(crate) fn begin<M: Runs, S: Slots<M>>(
    at: &At<'_, M, S>,
    first: u64,
    change: &Change,
    found: &mut LastId,
) -> Result<NextStep, Refusal>
    requires asks { MayAsk (drawn at.now.mark.log) found.old change.now }
    requires first { first ≡ next_stamp at.now.mark.log }
    ensures step { IfOk result (MayStep M.has M.means (drawn at.now.mark.log) at.now.commit (state_at at.now)
        found.old.id change.now) }
    ensures err { IfErr result (IsUnproposed (IsStop S.reused) (change_asked change.now)
        (asked_reply M.means (state_at at.now) found.old.id change.now)) }
    ensures first { IfOk result (IsFirstStep M.has (state_at at.now) change.now) }
    ensures late { IfErr result (λ e. e ≡ refusal.Stamps → IsLate first) }
    ensures kept { StaysFound (drawn at.now.mark.log) found.old found.new change.now }
{
    match change {
        Change::Mutated(mutation) => begin_mutated(at, first, mutation, found),
        Change::Pulled(_, _) | Change::Closed => Ok(begin_other(at, first, change)?),
    }
}
