//! A run of a mutator on a tree over nodes that are placed or drafted.
ghost use Rattle.std.specs.Prelude.{◌≡◌, ◌⊎◌, Some, IsSome, IfOk, IfErr, IfSome, IfNone, length, true, false, is_some};
ghost use Rattle.group_history.specs.declared.mutators.Stop.TheVariants as stop;
ghost use Rattle.group_history.specs.Ran.{RunsAs};
ghost use Rattle.group_history.specs.declared.refs.Ref.{Ref as Reference};
ghost use Rattle.group_history.specs.declared.refusals.Refusal.TheVariants.{NoMemory};
ghost use Rattle.group_history.specs.Map.{Entries};
ghost use Rattle.group_history.specs.Meaning.{meaning_of};
ghost use Rattle.group_history.specs.State.{replayed_once};
ghost use Rattle.map_chunks.specs.Places.{AreAll, with_nodes};
ghost use Rattle.map_tree.specs.Trees.{tree_map, tree_places};
ghost use Rattle.transactions.specs.Maps.{shown_map};
ghost use Rattle.change_drafts.specs.Running.{MayReplay, MayRun};
ghost use Rattle.change_drafts.specs.Refusing.{StopsAs};

use crate::mutators::Runs;
use crate::undoing::{NamesMap, Undoing};
use group_history::{Mutation, Ran, Refusal, Stop, WriteView};
use map_tree::{Chunks, Draft, Tree};
use std::alloc::Global;
use std::marker::Brand;
use transactions::{Fixed, NamesContents, Staged, WriteTx};

/// What new commits are made with: where memory is taken from, what shows the nodes that are placed, and the mutators.
#[derive(Drop)]
pub struct Setting<'a, C, M> {
    pub alloc: Global,
    pub chunks: C,
    pub mutators: &'a M,
}

/// How a run ended, and the map that it left; what a refusing mutator wrote is in it.
#[derive(Drop)]
pub struct Run {
    pub ran: Ran,
    pub tree: Tree,
}

/// A run of a mutator that the group may have.
#[derive(Drop)]
pub enum OwnRun {
    /// It has the mutator, and ran it.
    Ran(Run),

    /// It has none of this name. The map is as it was.
    Lacks(Tree),
}

/// The tree of the map that a transaction shows at its end.
pub(crate) fn tree_of<C: Chunks + Drop>(view: WriteTx<C>) -> Tree
    ensures { tree_map (C.contents view.chunks) result ≡ Some (shown_map (C.contents view.chunks) view.tree) }
{
    let (_, tree) = view.into_parts();
    tree
}

// Runs a mutation's mutator over a view, for the mutation's reason, if the group has it.
fn run_over<V: WriteView, M: Runs>(
    alloc: Global,
    mutators: &M,
    mutation: &Mutation,
    view: &mut V,
) -> Result<Option<Ran>, Stop>
    ensures had { IfOk result (λ found. is_some found ≡ M.has mutation.now.name) }
    ensures ran { IfOk result (λ found. IfSome found (λ ran. RunsAs (meaning_of M.means mutation.now
        (V.contents view.old)) ran (V.contents view.new))) }
    ensures left { IfOk result (λ found. IfNone found (V.contents view.new ≡ V.contents view.old)) }
    ensures stopped { IfErr result (λ s. (s ≡ stop.NoMemory) ⊎ V.stops s) }
{
    let said = mutation.fields();
    let name = said.name.as_str();
    mutators.run_if_any(alloc, name, &said.args, said.reason, view)
}

/// Runs a mutation's mutator on a tree over nodes that are placed, for the mutation's reason, if the group has it.
pub fn run_known<C: Chunks + Drop, K: NamesContents, M: Runs>(
    alloc: Global,
    chunks: C,
    tree: Tree,
    mutators: &M,
    mutation: &Mutation,
) -> Result<OwnRun, Refusal>
    requires known { C.contents chunks ≡ K.known }
    requires map { IsSome (tree_map K.known tree) }
    requires places { AreAll (C.places chunks) (tree_places tree) }
    ensures ran { IfOk result (MayRun K.known (M.has mutation.now.name)
        (meaning_of M.means mutation.now (shown_map K.known tree)) (shown_map K.known tree)) }
    ensures err { IfErr result (λ e. (e ≡ NoMemory) ⊎ StopsAs C.stops e) }
{
    let mut view = WriteTx::new(alloc, Fixed::<C, K>::new(chunks), tree);
    let found = run_over(alloc, mutators, mutation, &mut view)?;
    let tree = tree_of(view);
    match found {
        Some(ran) => Ok(OwnRun::Ran(Run { ran, tree })),
        None => Ok(OwnRun::Lacks(tree)),
    }
}

/// Runs a mutation's mutator on a tree, for the mutation's reason, if the group has it.
pub(crate) fn run_on<'a, C: Chunks + Copy, K: NamesContents, M: Runs>(
    setting: &Setting<'_, C, M>,
    draft: &'a Draft,
    tree: Tree,
    mutation: &Mutation,
) -> Result<OwnRun, Refusal>
    requires known { C.contents setting.now.chunks ≡ K.known }
    requires places { (at : Reference) → C.places setting.now.chunks at }
    requires behind { draft.now.first ≡ length K.known }
    requires map { IsSome (tree_map (with_nodes K.known draft.now.nodes) tree) }
    ensures ran { (m : Entries) → tree_map (with_nodes K.known draft.now.nodes) tree ≡ Some m
        → IfOk result (MayRun (with_nodes K.known draft.now.nodes) (M.has mutation.now.name)
        (meaning_of M.means mutation.now m) m) }
    ensures err { IfErr result (λ e. (e ≡ NoMemory) ⊎ StopsAs C.stops e) }
{
    let staged = Staged::<'a, C, K>::new(setting.chunks, draft);
    run_known::<Staged<'a, C, K>, Brand, M>(setting.alloc, staged, tree, setting.mutators, mutation)
}

/// A tree after a replay: whether the mutator was done, and if not, whether it had written before.
#[derive(Drop)]
pub struct Left {
    pub tree: Tree,
    pub done: bool,
    pub wrote: bool,
}

/// A replay of a mutation whose mutator the group may have.
#[derive(Drop)]
pub enum Replayed {
    /// It has the mutator, and ran it.
    Ran(Left),

    /// It has none of this name. The map is as it was.
    Lacks(Tree),
}

fn kept(tree: Tree) -> Left
    ensures { (result.tree ≡ tree) × (result.done ≡ true) }
{
    Left {
        tree,
        done: true,
        wrote: false,
    }
}

// The tree with what a mutator that wasn't done wrote undone.
fn undone<C: Chunks + Drop, K: NamesContents, S: NamesMap>(
    view: Undoing<WriteTx<Fixed<C, K>>, S>,
) -> Result<Left, Refusal>
    ensures left { IfOk result (λ left. (tree_map K.known left.tree ≡ Some S.start) × (left.done ≡ false)) }
    ensures err { IfErr result (λ e. (e ≡ NoMemory) ⊎ StopsAs C.stops e) }
{
    let wrote = view.has_notes();
    Ok(Left {
        tree: tree_of(view.undo()?),
        done: false,
        wrote,
    })
}

// Runs a mutation's mutator on a tree, if the group has it. What one that isn't done wrote is undone.
fn replay_known<C: Chunks + Drop, K: NamesContents, S: NamesMap, M: Runs>(
    alloc: Global,
    chunks: C,
    tree: Tree,
    mutators: &M,
    mutation: &Mutation,
) -> Result<Replayed, Refusal>
    requires known { C.contents chunks ≡ K.known }
    requires map { tree_map K.known tree ≡ Some S.start }
    requires places { AreAll (C.places chunks) (tree_places tree) }
    ensures left { IfOk result (MayReplay K.known (M.has mutation.now.name) M.means S.start mutation.now) }
    ensures err { IfErr result (λ e. (e ≡ NoMemory) ⊎ StopsAs C.stops e) }
{
    let view = WriteTx::new(alloc, Fixed::<C, K>::new(chunks), tree);
    let mut view = Undoing::<WriteTx<Fixed<C, K>>, S>::new(alloc, view);
    match run_over(alloc, mutators, mutation, &mut view)? {
        Some(Ran::Done) => Ok(Replayed::Ran(kept(tree_of(view.into_view())))),
        Some(Ran::Unknown | Ran::Refused(_)) => Ok(Replayed::Ran(undone(view)?)),
        None => Ok(Replayed::Lacks(tree_of(view.into_view()))),
    }
}

/// Replays a mutation on a tree, for the mutation's reason, if the group has its mutator. Where that isn't done, the
/// map is as it was.
pub fn replay_on<'a, C: Chunks + Copy, K: NamesContents, M: Runs>(
    setting: &Setting<'_, C, M>,
    draft: &'a Draft,
    tree: Tree,
    mutation: &Mutation,
) -> Result<Replayed, Refusal>
    requires known { C.contents setting.now.chunks ≡ K.known }
    requires places { (at : Reference) → C.places setting.now.chunks at }
    requires behind { draft.now.first ≡ length K.known }
    requires map { IsSome (tree_map (with_nodes K.known draft.now.nodes) tree) }
    ensures left { (m : Entries) → tree_map (with_nodes K.known draft.now.nodes) tree ≡ Some m
        → IfOk result (MayReplay (with_nodes K.known draft.now.nodes) (M.has mutation.now.name)
        M.means m mutation.now) }
    ensures err { IfErr result (λ e. (e ≡ NoMemory) ⊎ StopsAs C.stops e) }
{
    let staged = Staged::<'a, C, K>::new(setting.chunks, draft);
    replay_known::<Staged<'a, C, K>, Brand, Brand, M>(
        setting.alloc,
        staged,
        tree,
        setting.mutators,
        mutation,
    )
}
