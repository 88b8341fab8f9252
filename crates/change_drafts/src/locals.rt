//! Mutations that are replayed: the map that they leave, and a commit for each.
ghost use Rattle.std.specs.Prelude.{Bool, ◌≡◌, ◌≢◌, ◌⊎◌, ◌<◌, ◌≤◌, List, [], ◌∷◌, true, false, length, Some, Ok, Err};
ghost use Rattle.std.specs.Prelude.{IfOk, IfErr, IfSome, IfNone, ◌++◌, OnOk};
ghost use mathlib.Core.List.{IsPrefix};
ghost use Rattle.group_history.specs.Map.{Entries};
ghost use Rattle.group_history.specs.Meaning.{Meaning, left_by, meaning_of};
ghost use Rattle.group_history.specs.Mutating.{after_mutate, by_meaning, map_if_done};
ghost use Rattle.group_history.specs.Refs.{stamp_of};
ghost use Rattle.group_history.specs.Spelling.{Contents, Version, map_at, Spells, tells_right};
ghost use Rattle.group_history.specs.State.{State, view_of, replayed as map_after};
ghost use Rattle.group_history.specs.declared.mutations.MutationFields.{MutationFields as Mutated};
ghost use Rattle.group_history.specs.declared.refs.Ref.{Ref as Reference};
ghost use Rattle.group_history.specs.declared.refusals.Refusal.TheVariants.{NoMemory, Stamps};
ghost use Rattle.map_chunks.specs.Drafts.{AddsNeeded, IsLate};
ghost use Rattle.map_chunks.specs.Places.{with_nodes};
ghost use Rattle.map_tree.specs.Trees.{tree_map};
ghost use Rattle.change_drafts.specs.Chaining.{HasTip, IsTip};
ghost use Rattle.change_drafts.specs.Pending.{with_more};
ghost use Rattle.change_drafts.specs.Running.{HasRun, LacksOne, MayRun};
ghost use Rattle.change_drafts.specs.Undoing.{if_done};
ghost use Rattle.change_drafts.specs.Refusing.{RefusesFor, StopsAs};

use crate::mutators::Runs;
use crate::runs::{OwnRun, Replayed, Run, Setting, replay_on, run_on};
use crate::tips::{NewLocal, Tip, add_over};
use group_history::{CommitChange, ConfirmedIds, Means, Mutation, Ran, Ref, Refusal};
use map_tree::{Chunks, Draft, Tree};
use std::alloc::AllocError;
use transactions::NamesContents;

/// The tree that a run left, if it was done; else why its mutation is refused.
pub fn tree_if_done(run: Run) -> Result<Tree, Refusal>
    ensures ok { (contents : Contents) (meaning : Meaning) → HasRun contents meaning run
        → IfOk result (λ tree. (m : Entries) × (tree_map contents tree ≡ Some m) × (map_if_done meaning ≡ Ok m)) }
    ensures err { (contents : Contents) (meaning : Meaning) → HasRun contents meaning run
        → IfErr result (λ e. map_if_done meaning ≡ Err e) }
    ensures other { IfErr result (λ e. e ≢ Stamps) }
{
    let Run { ran, tree } = run;
    match ran {
        Ran::Unknown => Err(Refusal::NoMutator),
        Ran::Refused(code) => Err(Refusal::Refused(code)),
        Ran::Done => Ok(tree),
    }
}

// The tree that a run left, if the group has the mutator and it was done.
fn tree_if_ran(run: OwnRun) -> Option<Tree>
    ensures { (contents : Contents) (has : Bool) (meaning : Meaning) (m : Entries)
        → MayRun contents has meaning m run → IfSome result (λ tree. (n : Entries) × (tree_map contents tree ≡ Some n)
        × (map_if_done meaning ≡ Ok n)) }
{
    let OwnRun::Ran(run) = run else { return None };
    match tree_if_done(run) {
        Ok(tree) => Some(tree),
        Err(_) => None,
    }
}

// The map that the mutations leave, run in order on the map of a root; none where a mutator of them isn't done, or the
// group has it not.
fn run_all<C: Chunks + Copy, K: NamesContents, M: Runs>(
    setting: &Setting<'_, C, M>,
    draft: &Draft,
    root: Ref,
    pending: &[Mutation],
) -> Result<Option<Tree>, Refusal>
    requires known { C.contents setting.now.chunks ≡ K.known }
    requires places { (at : Reference) → C.places setting.now.chunks at }
    requires behind { draft.now.first ≡ length K.known }
    requires map { (m : Entries) × (map_at (with_nodes K.known draft.now.nodes) (stamp_of root) ≡ Some m) }
    ensures left { (m : Entries) → map_at (with_nodes K.known draft.now.nodes) (stamp_of root) ≡ Some m
        → IfOk result (λ found. IfSome found (λ tree. tree_map (with_nodes K.known draft.now.nodes) tree
        ≡ Some (map_after M.means m pending.now))) }
    ensures err { IfErr result (λ e. (e ≡ NoMemory) ⊎ StopsAs C.stops e) }
{
    let mut tree = Tree::at(root);
    for mutation in pending {
        let run = run_on::<C, K, M>(setting, draft, tree, mutation)?;
        let Some(left) = tree_if_ran(run) else {
            return Ok(None);
        };
        tree = left;
    }
    Ok(Some(tree))
}

// A tree with the map that mutations leave, those of them that were done, and whether one that wasn't had written.
#[derive(Drop)]
struct Undone {
    tree: Tree,
    done: Vec<Mutation>,
    wrote: bool,
}

fn add_if(done: &mut Vec<Mutation>, is_done: bool, mutation: &Mutation) -> Result<(), AllocError>
    ensures { OnOk result (done.new.items ≡ done.old.items ++ if_done is_done mutation.now) }
{
    if is_done {
        let mutation = mutation.clone()?;
        done.push(mutation)?;
    }
    Ok(())
}

// The map that the mutations leave, run in order on the map of a root. What one that isn't done wrote is undone. None
// where the group hasn't a mutator.
fn run_undoing<C: Chunks + Copy, K: NamesContents, M: Runs>(
    setting: &Setting<'_, C, M>,
    draft: &Draft,
    root: Ref,
    pending: &[Mutation],
) -> Result<Option<Undone>, Refusal>
    requires known { C.contents setting.now.chunks ≡ K.known }
    requires places { (at : Reference) → C.places setting.now.chunks at }
    requires behind { draft.now.first ≡ length K.known }
    requires map { (m : Entries) × (map_at (with_nodes K.known draft.now.nodes) (stamp_of root) ≡ Some m) }
    ensures left { (m : Entries) → map_at (with_nodes K.known draft.now.nodes) (stamp_of root) ≡ Some m
        → IfOk result (λ found. IfSome found (λ undone. tree_map (with_nodes K.known draft.now.nodes) undone.tree
        ≡ Some (map_after M.means m pending.now))) }
    ensures done { (m : Entries) → map_at (with_nodes K.known draft.now.nodes) (stamp_of root) ≡ Some m
        → IfOk result (λ found. IfSome found (λ undone. map_after M.means m undone.done.items
        ≡ map_after M.means m pending.now)) }
    ensures lacks { IfOk result (λ found. IfNone found (LacksOne M.has pending.now)) }
    ensures err { IfErr result (λ e. (e ≡ NoMemory) ⊎ StopsAs C.stops e) }
{
    let mut tree = Tree::at(root);
    let mut done = Vec::new(setting.alloc);
    let mut wrote = false;
    for mutation in pending {
        let Replayed::Ran(left) = replay_on::<C, K, M>(setting, draft, tree, mutation)? else {
            return Ok(None);
        };
        add_if(&mut done, left.done, mutation)?;
        wrote |= left.wrote;
        tree = left.tree;
    }
    Ok(Some(Undone { tree, done, wrote }))
}

// The same map, in new chunks only where one that was done wrote: these are run once more, if another one wrote too.
fn run_done<C: Chunks + Copy, K: NamesContents, M: Runs>(
    setting: &Setting<'_, C, M>,
    draft: &Draft,
    root: Ref,
    undone: Undone,
) -> Result<Tree, Refusal>
    requires known { C.contents setting.now.chunks ≡ K.known }
    requires places { (at : Reference) → C.places setting.now.chunks at }
    requires behind { draft.now.first ≡ length K.known }
    requires map { (m : Entries) × (map_at (with_nodes K.known draft.now.nodes) (stamp_of root) ≡ Some m) }
    requires left { (m : Entries) → map_at (with_nodes K.known draft.now.nodes) (stamp_of root) ≡ Some m
        → tree_map (with_nodes K.known draft.now.nodes) undone.tree ≡ Some (map_after M.means m undone.done.items) }
    ensures left { (m : Entries) → map_at (with_nodes K.known draft.now.nodes) (stamp_of root) ≡ Some m
        → IfOk result (λ tree. tree_map (with_nodes K.known draft.now.nodes) tree
        ≡ Some (map_after M.means m undone.done.items)) }
    ensures err { IfErr result (λ e. (e ≡ NoMemory) ⊎ StopsAs C.stops e) }
{
    let Undone { tree, done, wrote } = undone;
    if !wrote {
        return Ok(tree);
    }
    match run_all::<C, K, M>(setting, draft, root, &done)? {
        Some(clean) => Ok(clean),
        None => Ok(tree),
    }
}

/// The map that the mutations leave, run in order on the map of a root; none where the group hasn't a mutator. A note
/// costs half as much as a run of a small mutator: none is taken at first, and where one isn't done all are run once
/// more, with notes. Chunks that are put back are new ones. So where something was put back, those that were done are
/// run a third time, alone.
pub fn run_pending<C: Chunks + Copy, K: NamesContents, M: Runs>(
    setting: &Setting<'_, C, M>,
    draft: &Draft,
    root: Ref,
    pending: &[Mutation],
) -> Result<Option<Tree>, Refusal>
    requires known { C.contents setting.now.chunks ≡ K.known }
    requires places { (at : Reference) → C.places setting.now.chunks at }
    requires behind { draft.now.first ≡ length K.known }
    requires map { (m : Entries) × (map_at (with_nodes K.known draft.now.nodes) (stamp_of root) ≡ Some m) }
    ensures left { (m : Entries) → map_at (with_nodes K.known draft.now.nodes) (stamp_of root) ≡ Some m
        → IfOk result (λ found. IfSome found (λ tree. tree_map (with_nodes K.known draft.now.nodes) tree
        ≡ Some (map_after M.means m pending.now))) }
    ensures lacks { IfOk result (λ found. IfNone found (LacksOne M.has pending.now)) }
    ensures err { IfErr result (λ e. (e ≡ NoMemory) ⊎ StopsAs C.stops e) }
{
    if let Some(tree) = run_all::<C, K, M>(setting, draft, root, pending)? {
        return Ok(Some(tree));
    }
    match run_undoing::<C, K, M>(setting, draft, root, pending)? {
        Some(undone) => Ok(Some(run_done::<C, K, M>(setting, draft, root, undone)?)),
        None => Ok(None),
    }
}

// A commit for each of the mutations, in order, all with the map of the basis: no head is at any of them.
fn add_unread<K: NamesContents>(
    draft: &mut Draft,
    basis: Tip,
    before: &[Mutation],
) -> Result<Tip, Refusal>
    requires behind { draft.old.first ≡ length K.known }
    requires tip { (v : Version) × HasTip (with_nodes K.known draft.old.nodes) basis v × (v.state.closed ≡ false) }
    ensures tip { (v : Version) → HasTip (with_nodes K.known draft.old.nodes) basis v → v.state.closed ≡ false
        → IfOk result (λ after. HasTip (with_nodes K.known draft.new.nodes) after
        (record { state = with_more v.state before.now; read = v.read })) }
    ensures needed { IfOk result (λ tip. AddsNeeded (basis.commit ∷ []) (tip.commit ∷ []) draft.old draft.new) }
    ensures grown { IsPrefix draft.old.nodes draft.new.nodes }
    ensures first { draft.new.first ≡ draft.old.first }
    ensures new { draft.old.first ≤ stamp_of basis.commit
        → IfOk result (λ tip. draft.old.first ≤ stamp_of tip.commit) }
    ensures why { IfErr result (λ e. (e ≡ NoMemory) ⊎ (e ≡ Stamps)) }
    ensures late { IfErr result (λ e. e ≡ Stamps → IsLate draft.old.first) }
{
    let mut tip = basis;
    for mutation in before {
        let mutation = mutation.clone()?;
        tip = add_over(draft, tip, tip.root, CommitChange::Local(mutation), None)?;
    }
    Ok(tip)
}

// A commit for each of the mutations, in order, and for the last one, which has the map of the root; the others have
// that of the basis.
fn add_all<K: NamesContents>(
    draft: &mut Draft,
    basis: Tip,
    before: &[Mutation],
    last: NewLocal,
    root: Ref,
) -> Result<Tip, Refusal>
    requires behind { draft.old.first ≡ length K.known }
    requires tip { (v : Version) × HasTip (with_nodes K.known draft.old.nodes) basis v × (v.state.closed ≡ false) }
    requires map { (m : Entries) × (map_at (with_nodes K.known draft.old.nodes) (stamp_of root) ≡ Some m) }
    requires told { (v : Version) → HasTip (with_nodes K.known draft.old.nodes) basis v
        → tells_right last.told (with_more v.state before.now) ≡ true }
    ensures tip { (v : Version) (m : Entries) → HasTip (with_nodes K.known draft.old.nodes) basis v
        → v.state.closed ≡ false → map_at (with_nodes K.known draft.old.nodes) (stamp_of root) ≡ Some m
        → IfOk result (λ after. HasTip (with_nodes K.known draft.new.nodes) after
        (record { state = after_mutate (with_more v.state before.now) last.mutation; read = m })) }
    ensures needed { IfOk result (λ tip. AddsNeeded (root ∷ basis.commit ∷ []) (tip.commit ∷ []) draft.old draft.new) }
    ensures some { IfOk result (λ _. 0 < length draft.new.nodes) }
    ensures first { draft.new.first ≡ draft.old.first }
    ensures new { IfOk result (λ tip. draft.old.first ≤ stamp_of tip.commit) }
    ensures why { IfErr result (λ e. (e ≡ NoMemory) ⊎ (e ≡ Stamps)) }
    ensures late { IfErr result (λ e. e ≡ Stamps → IsLate draft.old.first) }
{
    let tip = add_unread::<K>(draft, basis, before)?;
    let NewLocal { mutation, told } = last;
    add_over(draft, tip, root, CommitChange::Local(mutation), told)
}

/// What the last commit of a replay has: the map that all mutations left, and each client's last id before the last of
/// them, where it is to tell them.
#[derive(Drop)]
pub struct LastCommit {
    pub tree: Tree,
    pub told: Option<ConfirmedIds>,
}

/// Drafts a commit for each of the mutations, in order. The last one alone has the map that they left, and may tell
/// each client's last id: queries read at heads, and no other of these commits is one.
pub fn add_replayed<C: Chunks + Copy, K: NamesContents, M: Means>(
    setting: &Setting<'_, C, M>,
    draft: &mut Draft,
    basis: Tip,
    pending: &[Mutation],
    last: LastCommit,
) -> Result<Tip, Refusal>
    requires known { C.contents setting.now.chunks ≡ K.known }
    requires behind { draft.old.first ≡ length K.known }
    requires tip { (s : State) × IsTip M.means (with_nodes K.known draft.old.nodes) basis s × (s.closed ≡ false)
        × (tree_map (with_nodes K.known draft.old.nodes) last.tree
        ≡ Some (map_after M.means (view_of M.means s) pending.now)) }
    requires told { (s : State) (before : List Mutated) (newest : Mutated)
        → IsTip M.means (with_nodes K.known draft.old.nodes) basis s → pending.now ≡ before ++ newest ∷ []
        → tells_right last.told (with_more s before) ≡ true }
    ensures tip { (s : State) → IsTip M.means (with_nodes K.known draft.old.nodes) basis s → s.closed ≡ false
        → tree_map (with_nodes K.known draft.old.nodes) last.tree
        ≡ Some (map_after M.means (view_of M.means s) pending.now)
        → IfOk result (λ after. IsTip M.means (with_nodes K.known draft.new.nodes) after (with_more s pending.now)) }
    ensures needed { IfOk result (λ tip. AddsNeeded (basis.commit ∷ []) (tip.commit ∷ []) draft.old draft.new) }
    ensures some { 0 < length draft.old.nodes → OnOk result (0 < length draft.new.nodes) }
    ensures first { draft.new.first ≡ draft.old.first }
    ensures new { draft.old.first ≤ stamp_of basis.commit
        → IfOk result (λ tip. draft.old.first ≤ stamp_of tip.commit) }
    ensures why { IfErr result (λ e. (e ≡ NoMemory) ⊎ (e ≡ Stamps)) }
    ensures late { IfErr result (λ e. e ≡ Stamps → IsLate draft.old.first) }
{
    let Some((newest, before)) = pending.split_last() else {
        return Ok(basis);
    };
    let LastCommit { tree, told } = last;
    let root = tree.freeze(setting.alloc, draft)?;
    let mutation = newest.clone()?;
    add_all::<K>(draft, basis, before, NewLocal { mutation, told }, root)
}
