//! What is next for a change once a run has ended.
ghost use Rattle.std.specs.Prelude.{ℕ, ◌≡◌, ◌++◌, List, [], ◌∷◌, Some, IsSome, IfOk, IfErr, true, false, length};
ghost use Rattle.std.specs.Prelude.{reverse};
ghost use Rattle.group_history.specs.Cookies.{Cookie as Cookied};
ghost use Rattle.group_history.specs.declared.changes.Change.TheVariants as changed;
ghost use Rattle.group_history.specs.declared.mutations.MutationFields.{MutationFields as Mutated};
ghost use Rattle.group_history.specs.declared.refusals.Refusal.TheVariants as refusal;
ghost use Rattle.group_history.specs.Map.{Entries};
ghost use Rattle.group_history.specs.Meaning.{Meaning, meaning_of, left_by};
ghost use Rattle.group_history.specs.Pull.{Pull};
ghost use Rattle.group_history.specs.Pulling.{after_pull};
ghost use Rattle.group_history.specs.Ran.{RunsAs};
ghost use Rattle.group_history.specs.Record.{IsAccepted};
ghost use Rattle.group_history.specs.Spelling.{tells_right};
ghost use Rattle.group_history.specs.State.{State, replayed, view_of};
ghost use Rattle.head_word.specs.Books.{drawn};
ghost use Rattle.map_chunks.specs.Drafts.{IsLate};
ghost use Rattle.map_tree.specs.Trees.{tree_map};
ghost use Rattle.linearized.specs.Trying.{IsUnproposed};
ghost use Rattle.change_drafts.specs.Chaining.{IsTip};
ghost use Rattle.change_drafts.specs.Running.{HasRun, MayReplay, map_now, map_then};
ghost use Rattle.change_tries.specs.Going.{HasGone};
ghost use Rattle.change_tries.specs.Missing.{IsStoreOrMemory, IsStop};
ghost use Rattle.change_tries.specs.Places.{state_at};
ghost use Rattle.change_tries.specs.Proposing.{asked_reply, change_asked};
ghost use Rattle.change_tries.specs.Runs.{HasNew, IsAskedRun, IsBehind, IsNewMutation, IsOn, IsRunOf, Leads, MayStep};
ghost use Rattle.change_tries.specs.Runs.{NeedsNoRun, with_draft, with_more};

use crate::places::At;
use crate::proposing::{Proposal, Request, kind_at_end};
use crate::runs::{AskedRun, BoxedRun, Chain, EndedRun, NextStep, Replaying};
use crate::views::told_if;
use change_drafts::{
    LastCommit, Left, NewLocal, Replayed, Run, RunMap, Runs, Setting, add_local, add_replayed,
    replay_on, tree_if_done,
};
use chunk_slots::Slots;
use commit_graph::StoreNodes;
use group_history::{Change, ConfirmedIds, Means, Mutation, Ran, Refusal};
use map_tree::Tree;
use reader_claims::Kind;
use std::marker::Brand;

/// The end of the run of a new mutation: refused where it wasn't done, and else drafted whole.
#[inline(always)]
pub(crate) fn end_new<M: Runs, S: Slots<M>>(
    at: &At<'_, M, S>,
    chain: Chain,
    mutation: Mutation,
    last: u64,
    run: Run,
) -> Result<NextStep, Refusal>
    requires new { IsNewMutation M.means (drawn at.now.mark.log) (state_at at.now) last mutation chain }
    requires ran { HasRun (with_draft (drawn at.now.mark.log) chain)
        (meaning_of M.means mutation (view_of M.means (state_at at.now))) run }
    ensures step { IfOk result (MayStep M.has M.means (drawn at.now.mark.log) at.now.commit (state_at at.now) last
        (changed.Mutated mutation)) }
    ensures none { IfOk result NeedsNoRun }
    ensures err { IfErr result (IsUnproposed (IsStop S.reused) (change_asked (changed.Mutated mutation))
        (asked_reply M.means (state_at at.now) last (changed.Mutated mutation))) }
    ensures late { IfErr result (λ e. e ≡ refusal.Stamps → IsLate chain.draft.first) }
{
    let Chain {
        mut draft,
        tip,
        tells,
    } = chain;
    let group = at.group;
    let tree = tree_if_done(run)?;
    let told = told_if(at, tells)?;
    let new = NewLocal { mutation, told };
    let after = add_local(group.shared.alloc, &mut draft, tree, tip, new)?;
    Ok(NextStep::Move(Proposal {
        base: at.commit,
        draft,
        at: after.commit,
        kind: Kind::Ordinary,
    }))
}

/// The end of a pull whose mutations that stay pending were all run, and left this map: it is drafted whole. The last
/// one's commit may tell each client's last id before it.
pub(crate) fn finish<'a, M: Runs, S: Slots<M>>(
    at: &At<'a, M, S>,
    chain: Chain,
    ran: Vec<Mutation>,
    tree: Tree,
    told: Option<ConfirmedIds>,
) -> Result<NextStep, Refusal>
    requires behind { chain.draft.first ≡ length (drawn at.now.mark.log) }
    requires tip { (s : State) × IsTip M.means (with_draft (drawn at.now.mark.log) chain) chain.tip s
        × (s.closed ≡ false)
        × (tree_map (with_draft (drawn at.now.mark.log) chain) tree
        ≡ Some (replayed M.means (view_of M.means s) ran.items)) }
    requires told { (s : State) (before : List Mutated) (newest : Mutated)
        → IsTip M.means (with_draft (drawn at.now.mark.log) chain) chain.tip s → ran.items ≡ before ++ newest ∷ []
        → tells_right told (with_more s before) ≡ true }
    ensures step { (last : ℕ) (ticket : Cookied) (r : Pull) (map : Entries)
        → IsAccepted M.means (state_at at.now) (changed.Pulled ticket r)
        → Leads M.means (drawn at.now.mark.log) (after_pull (state_at at.now) r) chain ran.items [] map → HasNew chain
        → tree_map (with_draft (drawn at.now.mark.log) chain) tree ≡ Some map
        → IfOk result (MayStep M.has M.means (drawn at.now.mark.log) at.now.commit (state_at at.now) last
        (changed.Pulled ticket r)) }
    ensures none { IfOk result NeedsNoRun }
    ensures err { IfErr result (IsStop S.reused) }
    ensures late { IfErr result (λ e. e ≡ refusal.Stamps → IsLate chain.draft.first) }
{
    let Chain { mut draft, tip, .. } = chain;
    let group = at.group;
    let kind = kind_at_end(ran.len());
    let setting = Setting {
        alloc: group.shared.alloc,
        chunks: at.nodes(),
        mutators: &group.mutators,
    };
    let last = LastCommit { tree, told };
    let after = add_replayed::<StoreNodes<'a, M, S>, Brand, M>(
        &setting, &mut draft, tip, &ran, last,
    )?;
    Ok(NextStep::Move(Proposal {
        base: at.commit,
        draft,
        at: after.commit,
        kind,
    }))
}

// How the replay went on with the next mutation.
#[derive(Drop)]
pub(crate) enum Went {
    /// The group ran it.
    On(Replaying),

    /// Its run is to be asked for.
    Asked(BoxedRun),
}

// Replays the next mutation, if the group has its mutator.
fn replay_next<'a, M: Runs, S: Slots<M>>(
    at: &At<'a, M, S>,
    chain: &Chain,
    tree: Tree,
    mutation: &Mutation,
) -> Result<Replayed, Refusal>
    requires behind { chain.now.draft.first ≡ length (drawn at.now.mark.log) }
    requires map { IsSome (tree_map (with_draft (drawn at.now.mark.log) chain.now) tree) }
    ensures left { (map : Entries) → tree_map (with_draft (drawn at.now.mark.log) chain.now) tree ≡ Some map
        → IfOk result (MayReplay (with_draft (drawn at.now.mark.log) chain.now) (M.has mutation.now.name) M.means map
        mutation.now) }
    ensures err { IfErr result (IsStoreOrMemory S.reused) }
{
    let group = at.group;
    let setting = Setting {
        alloc: group.shared.alloc,
        chunks: at.nodes(),
        mutators: &group.mutators,
    };
    replay_on::<StoreNodes<'a, M, S>, Brand, M>(&setting, &chain.draft, tree, mutation)
}

// The run of the next mutation, if the group has its mutator; else it is asked for.
fn run_next<M: Runs, S: Slots<M>>(
    at: &At<'_, M, S>,
    replaying: Replaying,
    mutation: Mutation,
) -> Result<Went, Refusal>
    requires behind { replaying.chain.draft.first ≡ length (drawn at.now.mark.log) }
    requires map { IsSome (tree_map (with_draft (drawn at.now.mark.log) replaying.chain) replaying.tree) }
    ensures went { (map : Entries)
        → tree_map (with_draft (drawn at.now.mark.log) replaying.chain) replaying.tree ≡ Some map
        → IfOk result (HasGone M.has M.means (drawn at.now.mark.log) replaying mutation map) }
    ensures err { IfErr result (IsStoreOrMemory S.reused) }
{
    let Replaying {
        chain,
        mut ran,
        tree,
        behind,
    } = replaying;
    let group = at.group;
    match replay_next(at, &chain, tree, &mutation)? {
        Replayed::Ran(Left { tree, .. }) => {
            ran.push(mutation)?;
            Ok(Went::On(Replaying {
                chain,
                ran,
                tree,
                behind,
            }))
        }
        Replayed::Lacks(tree) => {
            let map = RunMap::new(group.shared.alloc, tree);
            let run = AskedRun {
                chain,
                ran,
                mutation,
                map,
                behind,
            };
            Ok(Went::Asked(BoxedRun::new(group.shared.alloc, run)?))
        }
    }
}

/// Goes on with a pull: the group runs the mutations of which it has the mutators, up to the first that it has not,
/// which is asked for. Where none is left, the pull is drafted whole.
pub(crate) fn go_on<M: Runs, S: Slots<M>>(
    at: &At<'_, M, S>,
    replaying: Replaying,
) -> Result<NextStep, Refusal>
    requires leads { (after : State) × (map : Entries) × Leads M.means (drawn at.now.mark.log) after replaying.chain
        replaying.ran.items (reverse replaying.behind.items) map
        × (tree_map (with_draft (drawn at.now.mark.log) replaying.chain) replaying.tree ≡ Some map) }
    ensures step { (last : ℕ) (ticket : Cookied) (r : Pull) (map : Entries)
        → IsAccepted M.means (state_at at.now) (changed.Pulled ticket r)
        → Leads M.means (drawn at.now.mark.log) (after_pull (state_at at.now) r) replaying.chain replaying.ran.items
        (reverse replaying.behind.items) map → HasNew replaying.chain
        → tree_map (with_draft (drawn at.now.mark.log) replaying.chain) replaying.tree ≡ Some map
        → IfOk result (MayStep M.has M.means (drawn at.now.mark.log) at.now.commit (state_at at.now) last
        (changed.Pulled ticket r)) }
    ensures next { (map : Entries)
        → tree_map (with_draft (drawn at.now.mark.log) replaying.chain) replaying.tree ≡ Some map
        → IfOk result (IsOn M.has M.means (drawn at.now.mark.log) (reverse replaying.behind.items) map) }
    ensures err { IfErr result (IsStop S.reused) }
    ensures late { IfErr result (λ e. e ≡ refusal.Stamps → IsLate replaying.chain.draft.first) }
{
    let mut now = replaying;
    while let Some(mutation) = now.behind.pop() {
        match run_next(at, now, mutation)? {
            Went::On(next) => {
                now = next;
            }
            Went::Asked(run) => {
                return Ok(NextStep::Run(run));
            }
        }
    }
    let Replaying {
        chain,
        ran,
        tree,
        behind,
    } = now;
    drop(behind);
    finish(at, chain, ran, tree, None)
}

// The end of a run of the caller's for a new mutation.
fn end_asked<M: Runs, S: Slots<M>>(
    at: &At<'_, M, S>,
    next: &Mutation,
    last: u64,
    run: AskedRun,
    ran: Ran,
) -> Result<NextStep, Refusal>
    requires run { IsAskedRun M.means (drawn at.now.mark.log) (state_at at.now) last (changed.Mutated next.now) run }
    requires ran { IsRunOf M.means (drawn at.now.mark.log) run ran }
    ensures step { IfOk result (MayStep M.has M.means (drawn at.now.mark.log) at.now.commit (state_at at.now) last
        (changed.Mutated next.now)) }
    ensures none { IfOk result NeedsNoRun }
    ensures err { IfErr result (IsUnproposed (IsStop S.reused) (change_asked (changed.Mutated next.now))
        (asked_reply M.means (state_at at.now) last (changed.Mutated next.now))) }
    ensures late { IfErr result (λ e. e ≡ refusal.Stamps → IsLate run.chain.draft.first) }
{
    let _next = next;
    let AskedRun {
        chain,
        ran: before,
        mutation,
        map,
        behind,
    } = run;
    drop(before);
    drop(behind);
    let tree = map.into_tree();
    end_new(at, chain, mutation, last, Run { ran, tree })
}

// The map that a run of the caller's leaves, which ended so.
fn left_by_run<'a, M: Means, S: Slots<M>>(
    at: &At<'a, M, S>,
    chain: &Chain,
    map: RunMap,
    ran: Ran,
) -> Result<Tree, Refusal>
    requires behind { chain.now.draft.first ≡ length (drawn at.now.mark.log) }
    requires map { IsSome (tree_map (with_draft (drawn at.now.mark.log) chain.now) map.tree) }
    ensures left { (meaning : Meaning) → RunsAs meaning ran (map_now (with_draft (drawn at.now.mark.log) chain.now) map)
        → IfOk result (λ tree. tree_map (with_draft (drawn at.now.mark.log) chain.now) tree
        ≡ Some (left_by meaning (map_then (with_draft (drawn at.now.mark.log) chain.now) map))) }
    ensures err { IfErr result (IsStoreOrMemory S.reused) }
{
    let group = at.group;
    let alloc = group.shared.alloc;
    map.ended_on::<StoreNodes<'a, M, S>, Brand>(alloc, at.nodes(), &chain.draft, ran)
}

// The end of a run of the caller's for a mutation that stays pending.
fn end_rebased<M: Runs, S: Slots<M>>(
    at: &At<'_, M, S>,
    run: AskedRun,
    ran: Ran,
) -> Result<NextStep, Refusal>
    requires run { (last : ℕ) × (ticket : Cookied) × (r : Pull)
        × IsAskedRun M.means (drawn at.now.mark.log) (state_at at.now) last (changed.Pulled ticket r) run }
    requires ran { IsRunOf M.means (drawn at.now.mark.log) run ran }
    ensures step { (last : ℕ) (ticket : Cookied) (r : Pull)
        → IsAskedRun M.means (drawn at.now.mark.log) (state_at at.now) last (changed.Pulled ticket r) run
        → IfOk result (MayStep M.has M.means (drawn at.now.mark.log) at.now.commit (state_at at.now) last
        (changed.Pulled ticket r)) }
    ensures err { IfErr result (IsStop S.reused) }
    ensures behind { IfOk result (IsBehind M.has M.means (drawn at.now.mark.log) run ran) }
    ensures late { IfErr result (λ e. e ≡ refusal.Stamps → IsLate run.chain.draft.first) }
{
    let AskedRun {
        chain,
        ran: before,
        mutation,
        map,
        behind,
    } = run;
    let tree = left_by_run(at, &chain, map, ran)?;
    let mut ran = before;
    ran.push(mutation)?;
    go_on(
        at,
        Replaying {
            chain,
            ran,
            tree,
            behind,
        },
    )
}

/// What is next for the change where the run that it asked for ended so.
pub(crate) fn end_run<M: Runs, S: Slots<M>>(
    at: &At<'_, M, S>,
    request: &Request<'_>,
    ended: EndedRun,
) -> Result<NextStep, Refusal>
    requires run { IsAskedRun M.means (drawn at.now.mark.log) (state_at at.now) request.now.before.id
        request.now.call.change.now ended.run }
    requires ran { IsRunOf M.means (drawn at.now.mark.log) ended.run ended.ran }
    ensures step { IfOk result (MayStep M.has M.means (drawn at.now.mark.log) at.now.commit (state_at at.now)
        request.now.before.id request.now.call.change.now) }
    ensures err { IfErr result (IsUnproposed (IsStop S.reused) (change_asked request.now.call.change.now)
        (asked_reply M.means (state_at at.now) request.now.before.id request.now.call.change.now)) }
    ensures behind { IfOk result (IsBehind M.has M.means (drawn at.now.mark.log) ended.run ended.ran) }
    ensures late { IfErr result (λ e. e ≡ refusal.Stamps → IsLate ended.run.chain.draft.first) }
{
    let Request { call, before } = *request;
    let EndedRun { run, ran } = ended;
    let run = run.into_run();
    match call.change {
        Change::Mutated(mutation) => {
            return end_asked(at, mutation, before.id, run, ran);
        }
        Change::Pulled(_, _) => {
            return end_rebased(at, run, ran);
        }
        Change::Closed => { unreachable!() }
    }
}
