//! A pulled map after a patch.
//!
//! A patch is written as a mutator writes: through a transaction, operation by operation.
ghost use Rattle.std.specs.Prelude.{◌≡◌, ◌⊎◌, Some, IsSome, IfOk, IfErr, OnOk, length};
ghost use Rattle.group_history.specs.declared.mutators.Stop.TheVariants as stop;
ghost use Rattle.group_history.specs.declared.refs.Ref.{Ref as Reference};
ghost use Rattle.group_history.specs.declared.refusals.Refusal.TheVariants.{NoMemory};
ghost use Rattle.group_history.specs.Map.{Entries, patched, patched_once};
ghost use Rattle.group_history.specs.Refs.{stamp_of};
ghost use Rattle.group_history.specs.Spelling.{map_at};
ghost use Rattle.map_chunks.specs.Places.{with_nodes};
ghost use Rattle.map_tree.specs.Trees.{tree_map};
ghost use Rattle.transactions.specs.Maps.{shown_map};
ghost use Rattle.change_drafts.specs.Refusing.{StopsAs};

use crate::runs::tree_of;
use group_history::{Patch, Ref, Refusal, Stop, WriteView};
use map_tree::{Chunks, Draft, Tree};
use std::alloc::Global;
use std::marker::Brand;
use transactions::{Fixed, NamesContents, Staged, WriteTx};

// One operation.
fn operate<C: Chunks>(view: &mut WriteTx<C>, op: &Patch) -> Result<(), Stop>
    ensures ok { OnOk result (shown_map (C.contents view.new.chunks) view.new.tree
        ≡ patched_once (shown_map (C.contents view.old.chunks) view.old.tree) op.now) }
    ensures stopped { IfErr result (λ s. (s ≡ stop.NoMemory) ⊎ C.stops s) }
{
    match op {
        Patch::Put(key, value) => {
            return view.put(key.as_str(), value);
        }
        Patch::Del(key) => {
            return view.del(key.as_str());
        }
        Patch::Clear => {
            view.clear();
            return Ok(());
        }
    }
}

// The operations, in order.
fn operate_all<C: Chunks>(view: &mut WriteTx<C>, patch: &[Patch]) -> Result<(), Stop>
    ensures ok { OnOk result (shown_map (C.contents view.new.chunks) view.new.tree
        ≡ patched (shown_map (C.contents view.old.chunks) view.old.tree) patch.now) }
    ensures stopped { IfErr result (λ s. (s ≡ stop.NoMemory) ⊎ C.stops s) }
{
    for op in patch {
        operate(view, op)?;
    }
    Ok(())
}

fn patched_known<C: Chunks + Drop, K: NamesContents>(
    alloc: Global,
    chunks: C,
    root: Ref,
    patch: &[Patch],
) -> Result<Tree, Refusal>
    requires known { C.contents chunks ≡ K.known }
    requires map { IsSome (map_at K.known (stamp_of root)) }
    requires place { C.places chunks root }
    ensures map { (m : Entries) → map_at K.known (stamp_of root) ≡ Some m
        → IfOk result (λ tree. tree_map K.known tree ≡ Some (patched m patch.now)) }
    ensures err { IfErr result (λ e. (e ≡ NoMemory) ⊎ StopsAs C.stops e) }
{
    let mut view = WriteTx::new(alloc, Fixed::<C, K>::new(chunks), Tree::at(root));
    operate_all(&mut view, patch)?;
    Ok(tree_of(view))
}

/// The map of a root after a patch's operations, in order. An empty patch keeps the root itself.
pub fn patched_map<'a, C: Chunks + Copy, K: NamesContents>(
    alloc: Global,
    chunks: C,
    draft: &'a Draft,
    root: Ref,
    patch: &[Patch],
) -> Result<Tree, Refusal>
    requires known { C.contents chunks ≡ K.known }
    requires places { (at : Reference) → C.places chunks at }
    requires behind { draft.now.first ≡ length K.known }
    requires map { IsSome (map_at (with_nodes K.known draft.now.nodes) (stamp_of root)) }
    ensures map { (m : Entries) → map_at (with_nodes K.known draft.now.nodes) (stamp_of root) ≡ Some m
        → IfOk result (λ tree. tree_map (with_nodes K.known draft.now.nodes) tree ≡ Some (patched m patch.now)) }
    ensures err { IfErr result (λ e. (e ≡ NoMemory) ⊎ StopsAs C.stops e) }
{
    let staged = Staged::<'a, C, K>::new(chunks, draft);
    patched_known::<Staged<'a, C, K>, Brand>(alloc, staged, root, patch)
}
