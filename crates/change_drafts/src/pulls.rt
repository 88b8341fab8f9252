//! The end of a pull.
ghost use Rattle.std.specs.Prelude.{◌≡◌, ◌≢◌, ◌⊎◌, ◌+◌, ◌<◌, ◌≤◌, [], ◌∷◌, false, length, Some, IsSome, IfOk, IfErr};
ghost use Rattle.group_history.specs.Map.{Entries, patched};
ghost use Rattle.group_history.specs.Pull.{AreInRange};
ghost use Rattle.group_history.specs.Pulling.{end_at, overwritten};
ghost use Rattle.group_history.specs.Refs.{stamp_of};
ghost use Rattle.group_history.specs.Spelling.{Contents, map_at, Spells};
ghost use Rattle.group_history.specs.State.{State, pulled_state};
ghost use Rattle.group_history.specs.declared.refs.Ref.{Ref as Reference};
ghost use Rattle.group_history.specs.declared.refusals.Refusal.TheVariants.{NoMemory, Stamps};
ghost use Rattle.map_chunks.specs.Drafts.{AddsNeeded, AreBelow, IsLate};
ghost use Rattle.map_chunks.specs.Places.{with_nodes};
ghost use Rattle.map_tree.specs.Trees.{tree_map, tree_places};
ghost use Rattle.change_drafts.specs.Chaining.{HasTip};
ghost use Rattle.change_drafts.specs.Refusing.{StopsAs};

use crate::patches::patched_map;
use crate::runs::Setting;
use crate::tips::{Tip, add_snapshot};
use commit_graph::Base;
use group_history::{
    ConfirmedIds, Cookie, Ended, Mutators, PullOk, Ref, Refusal, cookie_cmp, is_saying_nothing,
};
use map_tree::{Chunks, Draft, Tree};
use std::alloc::{AllocError, Global};
use std::cmp::Ordering;
use transactions::NamesContents;

/// How a pull ends that brought no error, by the state's cookie and confirmed ids.
pub fn pull_outcome(base: &Base, ticket: &Cookie, pull: &PullOk) -> Result<Ended, Refusal>
    ensures reply { (s : State) → s.cookie ≡ base.now.cookie → s.confirmed ≡ base.now.confirmed
        → result ≡ end_at s ticket.now.text pull.now }
    ensures other { IfErr result (λ e. e ≢ Stamps) }
{
    if base.cookie.text() != ticket.text() {
        return Err(Refusal::Overtaken);
    }
    match cookie_cmp(pull.cookie(), &base.cookie) {
        Ordering::Less => Err(Refusal::CookieWentBack),
        Ordering::Equal => {
            if is_saying_nothing(&base.cookie, pull) {
                Ok(Ended::Same)
            } else {
                Err(Refusal::CookieNotNew)
            }
        }
        Ordering::Greater => {
            if base.confirmed.is_above_some(pull.changes()) {
                Err(Refusal::IdWentBack)
            } else {
                Ok(Ended::Applied)
            }
        }
    }
}

// Drafts what a tree has new, and the snapshot of its map under the response's cookie.
fn add_answered(
    alloc: Global,
    draft: &mut Draft,
    tree: Tree,
    pull: &PullOk,
    confirmed: ConfirmedIds,
) -> Result<Tip, Refusal>
    requires map { AreBelow (draft.old.first + length draft.old.nodes) (tree_places tree) }
    ensures tip { (contents : Contents) (m : Entries) → length contents ≡ draft.old.first
        → tree_map (with_nodes contents draft.old.nodes) tree ≡ Some m
        → IfOk result (λ tip. HasTip (with_nodes contents draft.new.nodes) tip
        (record { state = pulled_state m pull.now.cookie confirmed; read = m })) }
    ensures needed { IfOk result (λ tip. AddsNeeded [] (tip.commit ∷ []) draft.old draft.new) }
    ensures some { IfOk result (λ _. 0 < length draft.new.nodes) }
    ensures first { draft.new.first ≡ draft.old.first }
    ensures new { IfOk result (λ tip. draft.old.first ≤ stamp_of tip.commit) }
    ensures why { IfErr result (λ e. (e ≡ NoMemory) ⊎ (e ≡ Stamps)) }
    ensures late { IfErr result (λ e. e ≡ Stamps → IsLate draft.old.first) }
{
    let cookie = pull.cookie().clone()?;
    add_snapshot(alloc, draft, tree, cookie, confirmed)
}

/// Drafts the snapshot after a pull: the patched map, under the response's cookie and the ids confirmed then.
pub fn add_patched<C: Chunks + Copy, K: NamesContents, M>(
    setting: &Setting<'_, C, M>,
    draft: &mut Draft,
    root: Ref,
    pull: &PullOk,
    confirmed: ConfirmedIds,
) -> Result<Tip, Refusal>
    requires known { C.contents setting.now.chunks ≡ K.known }
    requires places { (at : Reference) → C.places setting.now.chunks at }
    requires behind { draft.old.first ≡ length K.known }
    requires map { IsSome (map_at (with_nodes K.known draft.old.nodes) (stamp_of root)) }
    ensures tip { (m : Entries) → map_at (with_nodes K.known draft.old.nodes) (stamp_of root) ≡ Some m
        → IfOk result (λ tip. HasTip (with_nodes K.known draft.new.nodes) tip
        (record {
          state = pulled_state (patched m pull.now.patch) pull.now.cookie confirmed;
          read = patched m pull.now.patch;
        })) }
    ensures needed { IfOk result (λ tip. AddsNeeded [] (tip.commit ∷ []) draft.old draft.new) }
    ensures some { IfOk result (λ _. 0 < length draft.new.nodes) }
    ensures first { draft.new.first ≡ draft.old.first }
    ensures new { IfOk result (λ tip. draft.old.first ≤ stamp_of tip.commit) }
    ensures err { IfErr result (λ e. (e ≡ NoMemory) ⊎ (e ≡ Stamps) ⊎ StopsAs C.stops e) }
    ensures late { IfErr result (λ e. e ≡ Stamps → IsLate draft.old.first) }
{
    let tree = patched_map::<C, K>(setting.alloc, setting.chunks, draft, root, pull.patch())?;
    let tip = add_answered(setting.alloc, draft, tree, pull, confirmed)?;
    Ok(tip)
}

/// The ids that are confirmed after a pull.
pub fn confirmed_after(
    alloc: Global,
    base: &Base,
    pull: &PullOk,
) -> Result<ConfirmedIds, AllocError>
    ensures confirmed { IfOk result (λ ids. ids ≡ overwritten base.now.confirmed pull.now.changes) }
    ensures in_range { AreInRange pull.now.changes }
{
    let confirmed = base.confirmed.overwritten(alloc, pull.changes())?;
    Ok(confirmed)
}
