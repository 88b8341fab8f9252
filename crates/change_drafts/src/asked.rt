//! The map of a run of the caller's.
//!
//! What was at a key is noted before the key is written, as `Undoing` does: so a run that isn't done can be taken back.
ghost use Rattle.std.specs.Prelude.{◌≡◌, ◌⊎◌, [], ◌++◌, ◌∷◌, Some, IsSome, IfOk, IfErr, OnOk, OnErr, length};
ghost use Rattle.std.specs.FinMap as finite;
ghost use Rattle.group_history.specs.Meaning.{Meaning, left_by};
ghost use Rattle.group_history.specs.Ran.{RunsAs};
ghost use Rattle.group_history.specs.Scans.{rows_of};
ghost use Rattle.group_history.specs.declared.refs.Ref.{Ref as Reference};
ghost use Rattle.group_history.specs.declared.refusals.Refusal.TheVariants.{NoMemory};
ghost use Rattle.map_chunks.specs.Places.{AreAll, with_nodes};
ghost use Rattle.map_tree.specs.Trees.{tree_map, tree_places};
ghost use Rattle.change_drafts.specs.Refusing.{StopsAs};
ghost use Rattle.change_drafts.specs.Running.{map_now, map_then};

use crate::runs::tree_of;
use crate::undoing::{add_note, put_all_back};
use group_history::{Json, Ran, Refusal, Scan, Text};
use map_tree::{Chunks, Draft, Tree};
use std::alloc::Global;
use std::marker::Brand;
use transactions::{Fixed, NamesContents, Staged, WriteTx};

/// The map of a run, and what the keys had that it wrote, the newest last; none where a key wasn't there.
#[derive(Drop)]
pub struct RunMap {
    pub tree: Tree,
    pub before: Vec<(Text, Option<Json>)>,
}

/// A key that is looked for.
#[derive(Clone, Copy)]
pub struct Key<'a> {
    pub text: &'a str,
}

// The map with all that was noted put back.
fn undo<C: Chunks + Drop, K: NamesContents>(
    alloc: Global,
    chunks: C,
    map: RunMap,
) -> Result<Tree, Refusal>
    requires known { C.contents chunks ≡ K.known }
    requires map { IsSome (tree_map K.known map.tree) }
    requires places { AreAll (C.places chunks) (tree_places map.tree) }
    ensures left { IfOk result (λ tree. tree_map K.known tree ≡ Some (map_then K.known map)) }
    ensures err { IfErr result (λ e. (e ≡ NoMemory) ⊎ StopsAs C.stops e) }
{
    let RunMap { tree, before } = map;
    let view = WriteTx::new(alloc, Fixed::<C, K>::new(chunks), tree);
    Ok(tree_of(put_all_back(view, before)?))
}

// Notes what is at a key of a tree.
fn note<C: Chunks + Drop, K: NamesContents>(
    alloc: Global,
    chunks: &mut Fixed<C, K>,
    map: &mut RunMap,
    key: &str,
) -> Result<(), Refusal>
    requires map { IsSome (tree_map K.known map.old.tree) }
    requires places { AreAll (C.places chunks.old.chunks) (tree_places map.old.tree) }
    ensures tree { map.new.tree ≡ map.old.tree }
    ensures places { AreAll (C.places chunks.new.chunks) (tree_places map.old.tree) }
    ensures noted { OnOk result (map.new.before.items ≡ map.old.before.items
        ++ (key.now, finite.get (map_now K.known map.old) key.now) ∷ []) }
    ensures then { map_then K.known map.new ≡ map_then K.known map.old }
    ensures err { IfErr result (λ e. (e ≡ NoMemory) ⊎ StopsAs C.stops e) }
{
    let there = map.tree.get(chunks, key)?;
    let key = Text::new(alloc, key)?;
    Ok(add_note(&mut map.before, key, there)?)
}

impl RunMap {
    /// The map where a run begins.
    pub fn new(alloc: Global, tree: Tree) -> RunMap
        ensures { (result.tree ≡ tree) × (result.before.items ≡ []) }
    {
        let before = Vec::new(alloc);
        RunMap { tree, before }
    }

    /// The map as it is.
    pub fn into_tree(self) -> Tree
        ensures { result ≡ self.tree }
    {
        let RunMap { tree, before: _ } = self;
        tree
    }

    // The value at a key; none where the key is not there.
    fn get<C: Chunks + Drop, K: NamesContents>(
        &self,
        chunks: C,
        key: Key<'_>,
    ) -> Result<Option<Json>, Refusal>
        requires known { C.contents chunks ≡ K.known }
        requires map { IsSome (tree_map K.known self.now.tree) }
        requires places { AreAll (C.places chunks) (tree_places self.now.tree) }
        ensures value { IfOk result (λ found. found ≡ finite.get (map_now K.known self.now) key.entry.text.now) }
        ensures err { IfErr result (λ e. (e ≡ NoMemory) ⊎ StopsAs C.stops e) }
    {
        let mut fixed = Fixed::<C, K>::new(chunks);
        Ok(self.tree.get(&mut fixed, key.text)?)
    }

    // The pairs that the scan asks for, in the order of their keys.
    fn scan<C: Chunks + Drop, K: NamesContents>(
        &self,
        alloc: Global,
        chunks: C,
        scan: &Scan,
    ) -> Result<Vec<(Text, Json)>, Refusal>
        requires known { C.contents chunks ≡ K.known }
        requires map { IsSome (tree_map K.known self.now.tree) }
        requires places { AreAll (C.places chunks) (tree_places self.now.tree) }
        ensures value { IfOk result (λ rows. rows.items ≡ rows_of scan.now (map_now K.known self.now)) }
        ensures err { IfErr result (λ e. (e ≡ NoMemory) ⊎ StopsAs C.stops e) }
    {
        let mut fixed = Fixed::<C, K>::new(chunks);
        Ok(self.tree.scan(alloc, &mut fixed, scan)?)
    }

    // Afterwards the key has the value. A refused put leaves the map.
    fn put<C: Chunks + Drop, K: NamesContents>(
        &mut self,
        alloc: Global,
        chunks: C,
        key: Key<'_>,
        value: &Json,
    ) -> Result<(), Refusal>
        requires known { C.contents chunks ≡ K.known }
        requires map { IsSome (tree_map K.known self.old.tree) }
        requires places { AreAll (C.places chunks) (tree_places self.old.tree) }
        ensures map { IsSome (tree_map K.known self.new.tree) }
        ensures ok { OnOk result (map_now K.known self.new
            ≡ finite.insert (map_now K.known self.old) key.entry.text.now value.now) }
        ensures left { OnErr result (self.new.tree ≡ self.old.tree) }
        ensures then { map_then K.known self.new ≡ map_then K.known self.old }
        ensures err { IfErr result (λ e. (e ≡ NoMemory) ⊎ StopsAs C.stops e) }
    {
        let mut fixed = Fixed::<C, K>::new(chunks);
        note(alloc, &mut fixed, self, key.text)?;
        Ok(self.tree.put(alloc, &mut fixed, key.text, value)?)
    }

    // Afterwards the key is not there, whether or not it was. A refused one leaves the map.
    fn del<C: Chunks + Drop, K: NamesContents>(
        &mut self,
        alloc: Global,
        chunks: C,
        key: Key<'_>,
    ) -> Result<(), Refusal>
        requires known { C.contents chunks ≡ K.known }
        requires map { IsSome (tree_map K.known self.old.tree) }
        requires places { AreAll (C.places chunks) (tree_places self.old.tree) }
        ensures map { IsSome (tree_map K.known self.new.tree) }
        ensures ok { OnOk result (map_now K.known self.new
            ≡ finite.remove (map_now K.known self.old) key.entry.text.now) }
        ensures left { OnErr result (self.new.tree ≡ self.old.tree) }
        ensures then { map_then K.known self.new ≡ map_then K.known self.old }
        ensures err { IfErr result (λ e. (e ≡ NoMemory) ⊎ StopsAs C.stops e) }
    {
        let mut fixed = Fixed::<C, K>::new(chunks);
        note(alloc, &mut fixed, self, key.text)?;
        Ok(self.tree.del(alloc, &mut fixed, key.text)?)
    }

    // The map that the run leaves, which ended so. Where it isn't done, what it wrote is taken back.
    fn ended<C: Chunks + Drop, K: NamesContents>(
        self,
        alloc: Global,
        chunks: C,
        ran: Ran,
    ) -> Result<Tree, Refusal>
        requires known { C.contents chunks ≡ K.known }
        requires map { IsSome (tree_map K.known self.tree) }
        requires places { AreAll (C.places chunks) (tree_places self.tree) }
        ensures left { (meaning : Meaning) → RunsAs meaning ran (map_now K.known self)
            → IfOk result (λ tree. tree_map K.known tree ≡ Some (left_by meaning (map_then K.known self))) }
        ensures err { IfErr result (λ e. (e ≡ NoMemory) ⊎ StopsAs C.stops e) }
    {
        match ran {
            Ran::Done => Ok(self.tree),
            Ran::Unknown | Ran::Refused(_) => undo::<C, K>(alloc, chunks, self),
        }
    }
}

// The same over a draft: what the run reads is placed, or of the draft behind that.
impl RunMap {
    /// The value at a key of a tree over a draft; none where the key is not there.
    pub fn get_on<'a, C: Chunks + Copy, K: NamesContents>(
        &self,
        chunks: C,
        draft: &'a Draft,
        key: Key<'_>,
    ) -> Result<Option<Json>, Refusal>
        requires known { C.contents chunks ≡ K.known }
        requires places { (at : Reference) → C.places chunks at }
        requires behind { draft.now.first ≡ length K.known }
        requires map { IsSome (tree_map (with_nodes K.known draft.now.nodes) self.now.tree) }
        ensures value { IfOk result (λ found. found
            ≡ finite.get (map_now (with_nodes K.known draft.now.nodes) self.now) key.entry.text.now) }
        ensures err { IfErr result (λ e. (e ≡ NoMemory) ⊎ StopsAs C.stops e) }
    {
        let staged = Staged::<'a, C, K>::new(chunks, draft);
        self.get::<Staged<'a, C, K>, Brand>(staged, key)
    }

    /// The pairs that the scan asks for, in the order of their keys.
    pub fn scan_on<'a, C: Chunks + Copy, K: NamesContents>(
        &self,
        alloc: Global,
        chunks: C,
        draft: &'a Draft,
        scan: &Scan,
    ) -> Result<Vec<(Text, Json)>, Refusal>
        requires known { C.contents chunks ≡ K.known }
        requires places { (at : Reference) → C.places chunks at }
        requires behind { draft.now.first ≡ length K.known }
        requires map { IsSome (tree_map (with_nodes K.known draft.now.nodes) self.now.tree) }
        ensures value { IfOk result (λ rows. rows.items
            ≡ rows_of scan.now (map_now (with_nodes K.known draft.now.nodes) self.now)) }
        ensures err { IfErr result (λ e. (e ≡ NoMemory) ⊎ StopsAs C.stops e) }
    {
        let staged = Staged::<'a, C, K>::new(chunks, draft);
        self.scan::<Staged<'a, C, K>, Brand>(alloc, staged, scan)
    }

    /// Afterwards the key has the value. A refused put leaves the map.
    pub fn put_on<'a, C: Chunks + Copy, K: NamesContents>(
        &mut self,
        alloc: Global,
        chunks: C,
        draft: &'a Draft,
        key: Key<'_>,
        value: &Json,
    ) -> Result<(), Refusal>
        requires known { C.contents chunks ≡ K.known }
        requires places { (at : Reference) → C.places chunks at }
        requires behind { draft.now.first ≡ length K.known }
        requires map { IsSome (tree_map (with_nodes K.known draft.now.nodes) self.old.tree) }
        ensures map { IsSome (tree_map (with_nodes K.known draft.now.nodes) self.new.tree) }
        ensures ok { OnOk result (map_now (with_nodes K.known draft.now.nodes) self.new
            ≡ finite.insert (map_now (with_nodes K.known draft.now.nodes) self.old) key.entry.text.now value.now) }
        ensures left { OnErr result (self.new.tree ≡ self.old.tree) }
        ensures then { map_then (with_nodes K.known draft.now.nodes) self.new
            ≡ map_then (with_nodes K.known draft.now.nodes) self.old }
        ensures err { IfErr result (λ e. (e ≡ NoMemory) ⊎ StopsAs C.stops e) }
    {
        let staged = Staged::<'a, C, K>::new(chunks, draft);
        self.put::<Staged<'a, C, K>, Brand>(alloc, staged, key, value)
    }

    /// Afterwards the key is not there, whether or not it was. A refused one leaves the map.
    pub fn del_on<'a, C: Chunks + Copy, K: NamesContents>(
        &mut self,
        alloc: Global,
        chunks: C,
        draft: &'a Draft,
        key: Key<'_>,
    ) -> Result<(), Refusal>
        requires known { C.contents chunks ≡ K.known }
        requires places { (at : Reference) → C.places chunks at }
        requires behind { draft.now.first ≡ length K.known }
        requires map { IsSome (tree_map (with_nodes K.known draft.now.nodes) self.old.tree) }
        ensures map { IsSome (tree_map (with_nodes K.known draft.now.nodes) self.new.tree) }
        ensures ok { OnOk result (map_now (with_nodes K.known draft.now.nodes) self.new
            ≡ finite.remove (map_now (with_nodes K.known draft.now.nodes) self.old) key.entry.text.now) }
        ensures left { OnErr result (self.new.tree ≡ self.old.tree) }
        ensures then { map_then (with_nodes K.known draft.now.nodes) self.new
            ≡ map_then (with_nodes K.known draft.now.nodes) self.old }
        ensures err { IfErr result (λ e. (e ≡ NoMemory) ⊎ StopsAs C.stops e) }
    {
        let staged = Staged::<'a, C, K>::new(chunks, draft);
        self.del::<Staged<'a, C, K>, Brand>(alloc, staged, key)
    }

    /// The map that the run leaves, which ended so. Where it isn't done, what it wrote is taken back.
    pub fn ended_on<'a, C: Chunks + Copy, K: NamesContents>(
        self,
        alloc: Global,
        chunks: C,
        draft: &'a Draft,
        ran: Ran,
    ) -> Result<Tree, Refusal>
        requires known { C.contents chunks ≡ K.known }
        requires places { (at : Reference) → C.places chunks at }
        requires behind { draft.now.first ≡ length K.known }
        requires map { IsSome (tree_map (with_nodes K.known draft.now.nodes) self.tree) }
        ensures left { (meaning : Meaning) → RunsAs meaning ran (map_now (with_nodes K.known draft.now.nodes) self)
            → IfOk result (λ tree. tree_map (with_nodes K.known draft.now.nodes) tree
            ≡ Some (left_by meaning (map_then (with_nodes K.known draft.now.nodes) self))) }
        ensures err { IfErr result (λ e. (e ≡ NoMemory) ⊎ StopsAs C.stops e) }
    {
        let staged = Staged::<'a, C, K>::new(chunks, draft);
        self.ended::<Staged<'a, C, K>, Brand>(alloc, staged, ran)
    }
}
