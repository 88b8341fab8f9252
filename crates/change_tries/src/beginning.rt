//! What a change asks for first, at the commit where a call stands.
ghost use Rattle.std.specs.Prelude.{ℕ, ◌≡◌, ◌++◌, List, [], ◌∷◌, true, false, Ok, Some, IfOk, IfErr, IfSome, length};
ghost use Rattle.group_history.specs.Cookies.{Cookie as Cookied};
ghost use Rattle.group_history.specs.declared.changes.Change.TheVariants as changed;
ghost use Rattle.group_history.specs.declared.mutations.MutationFields.{MutationFields as Mutated};
ghost use Rattle.group_history.specs.declared.refusals.Refusal.TheVariants as refusal;
ghost use Rattle.group_history.specs.declared.responses.Ended.TheVariants as ended;
ghost use Rattle.group_history.specs.Map.{patched};
ghost use Rattle.group_history.specs.Meaning.{meaning_of};
ghost use Rattle.group_history.specs.Pull.{AreInRange, Pull};
ghost use Rattle.group_history.specs.Pulling.{after_pull, end_at, left_pending, overwritten};
ghost use Rattle.group_history.specs.Record.{IsAccepted};
ghost use Rattle.group_history.specs.Spelling.{tells_right};
ghost use Rattle.group_history.specs.State.{State, pulled_state, replayed, view_of};
ghost use Rattle.head_word.specs.Books.{drawn};
ghost use Rattle.map_chunks.specs.Drafts.{AreNeeded, IsLate};
ghost use Rattle.map_tree.specs.Trees.{tree_map};
ghost use Rattle.commit_graph.specs.Chains.{IsBaseOf};
ghost use Rattle.linearized.specs.Trying.{IsUnproposed};
ghost use Rattle.change_drafts.specs.Chaining.{HasTip, IsTip};
ghost use Rattle.change_drafts.specs.Running.{MayRun};
ghost use Rattle.change_tries.specs.Missing.{IsStoreOrMemory, IsStoreRefusal, IsStop};
ghost use Rattle.change_tries.specs.Places.{state_at};
ghost use Rattle.change_tries.specs.Proposing.{IsDraftSpot, MayAsk, StaysFound, asked_reply, change_asked};
ghost use Rattle.change_tries.specs.Runs.{AsksNew, HasNew, IsFirstStep, IsNext, IsOnLeft, MayStep};
ghost use Rattle.change_tries.specs.Runs.{with_draft, with_more};

use crate::ending::{end_new, finish, go_on};
use crate::places::At;
use crate::proposing::{DraftSpot, check_next};
use crate::runs::{AskedRun, BoxedRun, Chain, NextStep, Replaying};
use crate::views::last_known;
use change_drafts::{
    OwnRun, RunMap, Runs, Setting, Tip, add_patched, confirmed_after, left_at, pull_outcome,
    run_known, run_pending, told_before_last,
};
use chunk_slots::Slots;
use commit_graph::{Base, LastId, SoughtId, StoreNodes};
use group_history::{Change, ConfirmedIds, Cookie, Ended, Means, Mutation, PullOk, Ref, Refusal};
use map_chunks::Draft;
use map_tree::Tree;
use std::alloc::{AllocError, Global};
use std::marker::Brand;

/// Where a client's last id was found, and whether the way there was long.
#[derive(Clone, Copy)]
pub(crate) struct CaughtUp {
    pub(crate) at: Ref,
    pub(crate) is_far: bool,
}

// The commit at which a mutation's client's last id is found, which it has to follow: the one where the call stands,
// unless it is another id there.
pub(crate) fn catch_up<M: Means, S: Slots<M>>(
    at: &At<'_, M, S>,
    mutation: &Mutation,
    found: LastId,
) -> Result<CaughtUp, Refusal>
    requires asks { MayAsk (drawn at.now.mark.log) found (changed.Mutated mutation.now) }
    ensures kept { IfOk result (λ caught. StaysFound (drawn at.now.mark.log) found
        (record { at = caught.at; id = found.id }) (changed.Mutated mutation.now)) }
    ensures err { IfErr result (IsStoreRefusal S.reused) }
{
    let SoughtId { id, is_far } = last_known(at, &mutation.fields().client, Some(found))?;
    if id != found.id {
        return Ok(CaughtUp {
            at: found.at,
            is_far: false,
        });
    }
    let there = at.commit;
    Ok(CaughtUp { at: there, is_far })
}

// The group's run of a new mutation on the map that is read at the tip, if it has the mutator.
fn run_new<'a, M: Runs, S: Slots<M>>(
    at: &At<'a, M, S>,
    tip: Tip,
    mutation: &Mutation,
) -> Result<OwnRun, Refusal>
    requires tip { IsTip M.means (drawn at.now.mark.log) tip (state_at at.now) }
    ensures ran { IfOk result (MayRun (drawn at.now.mark.log) (M.has mutation.now.name)
        (meaning_of M.means mutation.now (view_of M.means (state_at at.now))) (view_of M.means (state_at at.now))) }
    ensures err { IfErr result (IsStoreOrMemory S.reused) }
{
    let group = at.group;
    let tree = Tree::at(tip.root);
    run_known::<StoreNodes<'a, M, S>, Brand, M>(
        group.shared.alloc,
        at.nodes(),
        tree,
        &group.mutators,
        mutation,
    )
}

// The run of a new mutation on a map, which is asked for.
#[inline(never)]
fn asked_new(
    alloc: Global,
    chain: Chain,
    mutation: &Mutation,
    tree: Tree,
) -> Result<NextStep, AllocError>
    ensures step { IfOk result (AsksNew chain mutation.now tree) }
{
    let run = AskedRun {
        chain,
        ran: Vec::new(alloc),
        mutation: mutation.clone()?,
        map: RunMap::new(alloc, tree),
        behind: Vec::new(alloc),
    };
    Ok(NextStep::Run(BoxedRun::new(alloc, run)?))
}

// A mutation that is its client's next one: it is run by the group, or its run is asked for. It has a frame of its own,
// since its temporaries would be cleared in each turn of the loop of tries.
#[inline(never)]
fn begin_next<M: Runs, S: Slots<M>>(
    at: &At<'_, M, S>,
    spot: DraftSpot,
    mutation: &Mutation,
    last: u64,
) -> Result<NextStep, Refusal>
    requires spot { IsDraftSpot M.means at.now spot.tip spot.first }
    requires next { IsNext (state_at at.now) last mutation.now }
    ensures step { IfOk result (MayStep M.has M.means (drawn at.now.mark.log) at.now.commit (state_at at.now) last
        (changed.Mutated mutation.now)) }
    ensures err { IfErr result (IsUnproposed (IsStop S.reused) (change_asked (changed.Mutated mutation.now))
        (asked_reply M.means (state_at at.now) last (changed.Mutated mutation.now))) }
    ensures late { IfErr result (λ e. e ≡ refusal.Stamps → IsLate spot.first) }
{
    let DraftSpot { tip, first, tells } = spot;
    let group = at.group;
    let alloc = group.shared.alloc;
    let own = run_new(at, tip, mutation)?;
    let draft = Draft::new(alloc, first);
    let chain = Chain { draft, tip, tells };
    match own {
        OwnRun::Ran(run) => end_new(at, chain, mutation.clone()?, last, run),
        OwnRun::Lacks(tree) => Ok(asked_new(alloc, chain, mutation, tree)?),
    }
}

// What a mutation asks for, where it is its client's next one.
pub(crate) fn begin_mutation<M: Runs, S: Slots<M>>(
    at: &At<'_, M, S>,
    spot: DraftSpot,
    mutation: &Mutation,
    before: LastId,
) -> Result<NextStep, Refusal>
    requires spot { IsDraftSpot M.means at.now spot.tip spot.first }
    requires asks { MayAsk (drawn at.now.mark.log) before (changed.Mutated mutation.now) }
    ensures step { IfOk result (MayStep M.has M.means (drawn at.now.mark.log) at.now.commit (state_at at.now) before.id
        (changed.Mutated mutation.now)) }
    ensures err { IfErr result (IsUnproposed (IsStop S.reused) (change_asked (changed.Mutated mutation.now))
        (asked_reply M.means (state_at at.now) before.id (changed.Mutated mutation.now))) }
    ensures first { IfOk result (IsFirstStep M.has (state_at at.now) (changed.Mutated mutation.now)) }
    ensures late { IfErr result (λ e. e ≡ refusal.Stamps → IsLate spot.first) }
{
    check_next(at, mutation, before)?;
    begin_next(at, spot, mutation, before.id)
}

// The pulled map after the patch, drafted with its snapshot.
fn draft_patched<'a, M: Runs, S: Slots<M>>(
    at: &At<'a, M, S>,
    spot: DraftSpot,
    before: &Base,
    pull: &PullOk,
    confirmed: ConfirmedIds,
) -> Result<Chain, Refusal>
    requires spot { IsDraftSpot M.means at.now spot.tip spot.first }
    requires before { IsBaseOf (drawn at.now.mark.log) (state_at at.now) before.now }
    ensures tip { IfOk result (λ chain. HasTip (with_draft (drawn at.now.mark.log) chain) chain.tip (record {
      state = pulled_state (patched (state_at at.now).pulled pull.now.patch) pull.now.cookie confirmed;
      read = patched (state_at at.now).pulled pull.now.patch;
    })) }
    ensures first { IfOk result (λ chain. chain.draft.first ≡ spot.first) }
    ensures new { IfOk result HasNew }
    ensures needed { IfOk result (λ chain. AreNeeded chain.draft.first chain.draft.nodes (chain.tip.commit ∷ [])) }
    ensures err { IfErr result (IsStop S.reused) }
    ensures late { IfErr result (λ e. e ≡ refusal.Stamps → IsLate spot.first) }
{
    let group = at.group;
    let alloc = group.shared.alloc;
    let mut draft = Draft::new(alloc, spot.first);
    let setting = Setting {
        alloc,
        chunks: at.nodes(),
        mutators: &group.mutators,
    };
    let tip = add_patched::<StoreNodes<'a, M, S>, Brand, M>(
        &setting,
        &mut draft,
        before.pulled,
        pull,
        confirmed,
    )?;
    let tells = false;
    Ok(Chain { draft, tip, tells })
}

// The map that mutations leave which stay pending, if the group has their mutators.
fn run_left<'a, M: Runs, S: Slots<M>>(
    at: &At<'a, M, S>,
    chain: &Chain,
    left: &[Mutation],
) -> Result<Option<Tree>, Refusal>
    requires behind { chain.now.draft.first ≡ length (drawn at.now.mark.log) }
    requires tip { (s : State) × IsTip M.means (with_draft (drawn at.now.mark.log) chain.now) chain.now.tip s }
    ensures map { (s : State) → IsTip M.means (with_draft (drawn at.now.mark.log) chain.now) chain.now.tip s
        → IfOk result (λ found. IfSome found (λ tree. tree_map (with_draft (drawn at.now.mark.log) chain.now) tree
        ≡ Some (replayed M.means (view_of M.means s) left.now))) }
    ensures err { IfErr result (IsStoreOrMemory S.reused) }
{
    let group = at.group;
    let setting = Setting {
        alloc: group.shared.alloc,
        chunks: at.nodes(),
        mutators: &group.mutators,
    };
    run_pending::<StoreNodes<'a, M, S>, Brand, M>(&setting, &chain.draft, chain.tip.root, left)
}

// What is next for a pull of which these mutations stay pending: all are run by the group, or, with notes, up to the
// first whose run is to be asked for. The last one's commit may tell each client's last id before it.
fn begin_left<M: Runs, S: Slots<M>>(
    at: &At<'_, M, S>,
    chain: Chain,
    left: Vec<Mutation>,
    told: Option<ConfirmedIds>,
) -> Result<NextStep, Refusal>
    requires behind { chain.draft.first ≡ length (drawn at.now.mark.log) }
    requires new { HasNew chain }
    requires tip { (s : State) × IsTip M.means (with_draft (drawn at.now.mark.log) chain) chain.tip s
        × (s.closed ≡ false)
        × (s.pending ≡ []) }
    requires needed { AreNeeded chain.draft.first chain.draft.nodes (chain.tip.commit ∷ []) }
    requires told { (s : State) (before : List Mutated) (newest : Mutated)
        → IsTip M.means (with_draft (drawn at.now.mark.log) chain) chain.tip s → left.items ≡ before ++ newest ∷ []
        → tells_right told (with_more s before) ≡ true }
    ensures step { (s : State) (last : ℕ) (ticket : Cookied) (r : Pull)
        → IsTip M.means (with_draft (drawn at.now.mark.log) chain) chain.tip s → s.closed ≡ false → s.pending ≡ []
        → IsAccepted M.means (state_at at.now) (changed.Pulled ticket r)
        → with_more s left.items ≡ after_pull (state_at at.now) r
        → IfOk result (MayStep M.has M.means (drawn at.now.mark.log) at.now.commit (state_at at.now) last
        (changed.Pulled ticket r)) }
    ensures first { IfOk result (IsOnLeft M.has left.items) }
    ensures err { IfErr result (IsStop S.reused) }
    ensures late { IfErr result (λ e. e ≡ refusal.Stamps → IsLate chain.draft.first) }
{
    let group = at.group;
    let alloc = group.shared.alloc;
    match run_left(at, &chain, &left)? {
        Some(tree) => finish(at, chain, left, tree, told),
        None => {
            let tree = Tree::at(chain.tip.root);
            let mut behind = left;
            behind.reverse();
            let ran = Vec::new(alloc);
            go_on(
                at,
                Replaying {
                    chain,
                    ran,
                    tree,
                    behind,
                },
            )
        }
    }
}

// What a pull confirms, and the mutations that stay pending.
#[derive(Drop)]
struct Rebased {
    confirmed: ConfirmedIds,
    left: Vec<Mutation>,
}

// The pulled map after the patch, and what is next where these mutations stay pending.
fn begin_replayed<M: Runs, S: Slots<M>>(
    at: &At<'_, M, S>,
    spot: DraftSpot,
    before: &Base,
    rebased: Rebased,
    pull: &PullOk,
) -> Result<NextStep, Refusal>
    requires spot { IsDraftSpot M.means at.now spot.tip spot.first }
    requires before { IsBaseOf (drawn at.now.mark.log) (state_at at.now) before.now }
    requires confirmed { rebased.confirmed ≡ overwritten before.now.confirmed pull.now.changes }
    requires left { rebased.left.items ≡ left_pending rebased.confirmed (state_at at.now).pending }
    requires in_range { AreInRange pull.now.changes }
    ensures step { (last : ℕ) (ticket : Cookied) → end_at (state_at at.now) ticket.text pull.now ≡ Ok ended.Applied
        → IfOk result (MayStep M.has M.means (drawn at.now.mark.log) at.now.commit (state_at at.now) last
        (changed.Pulled ticket pull.now)) }
    ensures err { IfErr result (IsStop S.reused) }
    ensures first { (ticket : Cookied)
        → IfOk result (IsFirstStep M.has (state_at at.now) (changed.Pulled ticket pull.now)) }
    ensures late { IfErr result (λ e. e ≡ refusal.Stamps → IsLate spot.first) }
{
    let Rebased { confirmed, left } = rebased;
    let group = at.group;
    let told = told_before_last(group.shared.alloc, &confirmed, &left)?;
    let chain = draft_patched(at, spot, before, pull, confirmed)?;
    begin_left(at, chain, left, told)
}

// The pulled map after the patch, and the first run of what stays pending.
fn begin_rebase<'a, M: Runs, S: Slots<M>>(
    at: &At<'a, M, S>,
    spot: DraftSpot,
    before: &Base,
    pull: &PullOk,
) -> Result<NextStep, Refusal>
    requires spot { IsDraftSpot M.means at.now spot.tip spot.first }
    requires before { IsBaseOf (drawn at.now.mark.log) (state_at at.now) before.now }
    ensures step { (last : ℕ) (ticket : Cookied) → end_at (state_at at.now) ticket.text pull.now ≡ Ok ended.Applied
        → IfOk result (MayStep M.has M.means (drawn at.now.mark.log) at.now.commit (state_at at.now) last
        (changed.Pulled ticket pull.now)) }
    ensures err { IfErr result (IsStop S.reused) }
    ensures first { (ticket : Cookied)
        → IfOk result (IsFirstStep M.has (state_at at.now) (changed.Pulled ticket pull.now)) }
    ensures late { IfErr result (λ e. e ≡ refusal.Stamps → IsLate spot.first) }
{
    let group = at.group;
    let alloc = group.shared.alloc;
    let confirmed = confirmed_after(alloc, before, pull)?;
    let left = left_at::<StoreNodes<'a, M, S>, Brand>(alloc, at.nodes(), at.commit, &confirmed)?;
    begin_replayed(at, spot, before, Rebased { confirmed, left }, pull)
}

// What the pull asks for first, at an open group of this basis.
pub(crate) fn begin_outcome<M: Runs, S: Slots<M>>(
    at: &At<'_, M, S>,
    spot: DraftSpot,
    before: &Base,
    ticket: &Cookie,
    pull: &PullOk,
) -> Result<NextStep, Refusal>
    requires spot { IsDraftSpot M.means at.now spot.tip spot.first }
    requires before { IsBaseOf (drawn at.now.mark.log) (state_at at.now) before.now }
    ensures step { (last : ℕ) → IfOk result
        (MayStep M.has M.means (drawn at.now.mark.log) at.now.commit (state_at at.now) last
        (changed.Pulled ticket.now pull.now)) }
    ensures err { (last : ℕ) → IfErr result
        (IsUnproposed (IsStop S.reused) (change_asked (changed.Pulled ticket.now pull.now))
        (asked_reply M.means (state_at at.now) last (changed.Pulled ticket.now pull.now))) }
    ensures first { IfOk result (IsFirstStep M.has (state_at at.now) (changed.Pulled ticket.now pull.now)) }
    ensures late { IfErr result (λ e. e ≡ refusal.Stamps → IsLate spot.first) }
{
    match pull_outcome(before, ticket, pull) {
        Ok(Ended::Same) => {
            return Ok(NextStep::Same);
        }
        Ok(Ended::Applied) => {
            return begin_rebase(at, spot, before, pull);
        }
        Err(e) => {
            return Err(e);
        }
    }
}
