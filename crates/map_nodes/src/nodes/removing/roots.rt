//! A removal in a whole map: a root with fewer than two children gives way to what its last child ends in.
ghost use Rattle.std.specs.Prelude.{◌≡◌, ◌⊎◌, ◌<◌, ◌≤◌, [], ℕ, length, None, Some, IsSome, IfOk, IfErr, OnOk, OnErr};
ghost use Rattle.std.specs.Prelude.{vec_items};
ghost use Rattle.std.specs.List.{remove};
ghost use Rattle.group_history.specs.Rows.{AreKeys, paired};
ghost use Rattle.group_history.specs.declared.mutators.Stop.TheVariants.{NoMemory};
ghost use Rattle.map_nodes.specs.Inside.Ends as ends;
ghost use Rattle.map_nodes.specs.Inside.Ends.{end_of_pieces, IsEndBelow, IsKidBelow, IsKidEnd, IsEndTaken, IfEndsAt};
ghost use Rattle.map_nodes.specs.Inside.Ends.{NarrowsLater};
ghost use Rattle.map_nodes.specs.Levels.{seen_levels};
ghost use Rattle.map_nodes.specs.Nodes.{IsNode, body_levels, body_pieces, child_levels};
ghost use Rattle.map_nodes.specs.Inside.Nodes.{child_rows};
ghost use Rattle.map_chunks.specs.Places.{Grows, AreAll, AreKept, places_of};
ghost use Rattle.map_nodes.specs.Inside.Freezing.{child_places, kids_places};
ghost use Rattle.map_chunks.specs.Wide.{IsWideChunk};
ghost use Rattle.map_nodes.specs.declared.nodes.Body.TheVariants as body;
ghost use Rattle.map_nodes.specs.declared.nodes.removing.NewRoot.TheVariants as heirs;
ghost use Rattle.group_history.specs.declared.refs.Ref.{Ref as Reference};
ghost use Rattle.map_nodes.specs.Inside.Removing as removals;
ghost use Rattle.map_nodes.specs.Removing.{root_left, without_key, root_rows, IsRootRemoved, IsWideRoot};
ghost use Rattle.map_nodes.specs.Inside.Removing.{end_places, heir_places, left_places, left_rows, one_shown};
ghost use Rattle.map_nodes.specs.Inside.Removing.{CanRemoveAt, IsHeir, KeptBy, IsWideLeft, IsFirstShown, HeirNarrows};
ghost use Rattle.map_nodes.specs.Inside.Removing.{IsLeafLeft, IsRootLeft};
ghost use Rattle.map_nodes.specs.Inside.Halves.{HasDepth};
ghost use Rattle.map_nodes.specs.Inside.Scanning.{kid_shown};
ghost use Rattle.map_chunks.specs.Shown.{shown, IsTree, rows_or};

use super::super::{Body, OwnChild, OwnNode};
use super::fates::fate_of;
use super::paths::{remove_at, remove_row};
use super::{ChildAfter, NewRoot, Removal};
use group_history::{Json, Ref, Stop};
use map_chunks::Chunks;
use map_chunks::ends::end_placed;
use map_chunks::keys::NodeKeys;
use map_chunks::search::place_of;
use std::alloc::Global;

impl OwnNode {
    // The placed chunk that is all there is below the chunk, if this is so.
    fn placed_end(&self) -> Option<Ref>
        ensures end { result ≡ end_of_pieces self.now.pieces }
        ensures below { IsEndBelow self.now.depth (seen_levels self.now) self.now.pieces }
    {
        match &self.body {
            Body::Leaf(_) => None,
            Body::Inner(kids) => {
                if kids.len() != 1 {
                    return None;
                }
                match &kids[0] {
                    OwnChild::Placed(at) => Some(*at),
                    OwnChild::Own(node) => node.placed_end(),
                }
            }
        }
    }

    // The chunk itself, or the first below it that is a leaf or has two children.
    #[cycle(taken)]
    fn narrowed(self, alloc: Global) -> OwnNode
        requires { end_of_pieces self.pieces ≡ None }
        ensures pieces { result.pieces ≡ self.pieces }
        ensures wide { IsWideChunk result }
        ensures levels { NarrowsLater [] self.depth result.depth (seen_levels self) (seen_levels result) }
    {
        let OwnNode { depth, keys, body } = self;
        match body {
            Body::Leaf(values) => {
                return OwnNode {
                    depth,
                    keys,
                    body: Body::Leaf(values),
                };
            }
            Body::Inner(kids) => {
                if kids.len() != 1 {
                    return OwnNode {
                        depth,
                        keys,
                        body: Body::Inner(kids),
                    };
                }
                let mut kids = kids;
                return taken(kids.swap_remove(0), alloc);
            }
        }
    }
}

// What a child ends in that ends in one of the draft's own.
#[cycle(taken)]
fn taken(kid: OwnChild, alloc: Global) -> OwnNode
    requires { ends.end_of kid ≡ None }
    ensures { IsEndTaken kid result }
{
    match kid {
        OwnChild::Own(node) => return Box::into_inner(node).narrowed(alloc),
        OwnChild::Placed(_) => return OwnNode::empty(alloc),
    }
}

fn end_of(kid: &OwnChild) -> Option<Ref>
    ensures end { result ≡ ends.end_of kid.now }
    ensures below { IsKidBelow kid.now }
{
    match kid {
        OwnChild::Placed(at) => Some(*at),
        OwnChild::Own(node) => node.placed_end(),
    }
}

// The placed chunk that a child ends in, if it ends in none of the draft's own.
fn kid_end<C: Chunks>(kid: &OwnChild, chunks: &mut C) -> Result<Option<Ref>, Stop>
    requires places { AreAll (C.places chunks.old) (child_places kid.now) }
    requires tree { IsSome (kid_shown (C.contents chunks.old) kid.now) }
    ensures grown { Grows C.contents C.places chunks.old chunks.new }
    ensures places { IfOk result (λ end. AreKept (C.places chunks.new) (child_places kid.now) (end_places end)) }
    ensures end { IfOk result (IsKidEnd (C.contents chunks.new) (kid_shown (C.contents chunks.old) kid.now) kid.now) }
    ensures levels { (below : ℕ) → HasDepth below kid.now → IsSome (child_rows (C.contents chunks.old) below kid.now)
        → IfOk result (IfEndsAt (C.contents chunks.new) below (child_levels below kid.now)) }
    ensures stopped { IfErr result (λ s. (s ≡ NoMemory) ⊎ C.stops s) }
{
    match end_of(kid) {
        None => return Ok(None),
        Some(at) => {
            let end = end_placed(chunks, at)?;
            return Ok(Some(end));
        }
    }
}

// Whether fewer than two children stay.
fn gives_way(fate: &ChildAfter, entries: usize) -> bool
    ensures { result ≡ removals.gives_way fate.now entries }
{
    match fate {
        ChildAfter::Leaves => entries <= 2,
        ChildAfter::Stays(_) => false,
    }
}

// What stands in the root's place, once the child at the place has left it.
fn heir<C: Chunks>(
    kids: &mut Vec<OwnChild>,
    place: usize,
    alloc: Global,
    chunks: &mut C,
) -> Result<NewRoot, Stop>
    requires places { AreAll (C.places chunks.old) (kids_places kids.old.items) }
    requires within { place < length kids.old.items }
    requires few { length kids.old.items ≤ 2 }
    requires tree { IsSome (one_shown (C.contents chunks.old) (remove kids.old.items place)) }
    ensures grown { Grows C.contents C.places chunks.old chunks.new }
    ensures heir { IfOk result (IsHeir (C.contents chunks.old) (C.contents chunks.new) (remove kids.old.items place)) }
    ensures levels { (below : ℕ) → IsFirstShown (C.contents chunks.old) below (remove kids.old.items place)
        → IfOk result (HeirNarrows (C.contents chunks.new) below (remove kids.old.items place)) }
    ensures places { IfOk result (λ heir. AreKept (C.places chunks.new) (kids_places kids.old.items)
        (heir_places heir)) }
    ensures kept { IfOk result (KeptBy kids.old.items kids.new.items) }
    ensures err { OnErr result (kids.new.items ≡ kids.old.items) }
    ensures stopped { IfErr result (λ s. (s ≡ NoMemory) ⊎ C.stops s) }
{
    if kids.len() == 1 {
        return Ok(NewRoot::Own(OwnNode::empty(alloc)));
    }
    let other = 1 - place;
    match kid_end(&kids[other], chunks)? {
        Some(at) => return Ok(NewRoot::Placed(at)),
        None => return Ok(NewRoot::Own(taken(kids.swap_remove(other), alloc))),
    }
}

// Removes a key below a root with these keys and children. Answers the root's heir where fewer than two
// children would stay.
fn remove_inner<C: Chunks>(
    keys: &mut NodeKeys,
    kids: &mut Vec<OwnChild>,
    depth: u64,
    chunks: &mut C,
    key: &str,
) -> Result<Option<NewRoot>, Stop>
    requires places { AreAll (C.places chunks.old) (kids_places kids.old.items) }
    requires node { IsNode depth keys.old.texts (body.Inner kids.old) }
    requires tree { IsTree (shown (C.contents chunks.old) (body_pieces depth keys.old.texts (body.Inner kids.old))) }
    ensures grown { Grows C.contents C.places chunks.old chunks.new }
    ensures node { IfOk result (λ heir. heir ≡ None → IsNode depth keys.new.texts (body.Inner kids.new)) }
    ensures done { IfOk result (λ heir. left_rows (C.contents chunks.new) depth keys.new.texts kids.new.items heir
        ≡ Some (without_key key.now (rows_or (shown (C.contents chunks.old)
        (body_pieces depth keys.old.texts (body.Inner kids.old)))))) }
    ensures levels { IfOk result (IsRootLeft (C.contents chunks.new) depth
        (body_levels depth keys.old.texts (body.Inner kids.old)) keys.new.texts kids.new.items) }
    ensures wide { IfOk result (IsWideLeft (C.contents chunks.new) (length keys.old.texts) (length keys.new.texts)) }
    ensures places { IfOk result (λ heir. AreKept (C.places chunks.new) (kids_places kids.old.items)
        (left_places kids.new.items heir)) }
    ensures kept { IfOk result (λ heir. (at : Reference) → heir ≡ Some (heirs.Placed at)
        → (keys.new.texts ≡ keys.old.texts) × (kids.new.items ≡ kids.old.items)) }
    ensures err { OnErr result ((keys.new.texts ≡ keys.old.texts) × (kids.new.items ≡ kids.old.items)) }
    ensures stopped { IfErr result (λ s. (s ≡ NoMemory) ⊎ C.stops s) }
{
    let texts = keys.as_slice();
    let place = place_of(texts, key);
    let fate = fate_of(chunks, &texts[place], &kids[place], key)?;
    remove_fated(keys, kids, depth, chunks, Removal { key, place, fate })
}

// Removes a key below the child at the place, whose fate is known.
fn remove_fated<C: Chunks>(
    keys: &mut NodeKeys,
    kids: &mut Vec<OwnChild>,
    depth: u64,
    chunks: &mut C,
    removal: Removal<'_>,
) -> Result<Option<NewRoot>, Stop>
    requires places { AreAll (C.places chunks.old) (kids_places kids.old.items) }
    requires can { CanRemoveAt (C.contents chunks.old) depth keys.old.texts kids.old removal.key.now removal.place
        removal.fate }
    ensures grown { Grows C.contents C.places chunks.old chunks.new }
    ensures node { IfOk result (λ heir. heir ≡ None → IsNode depth keys.new.texts (body.Inner kids.new)) }
    ensures done { IfOk result (λ heir. left_rows (C.contents chunks.new) depth keys.new.texts kids.new.items heir
        ≡ Some (without_key removal.entry.key.now (rows_or (shown (C.contents chunks.old)
        (body_pieces depth keys.old.texts (body.Inner kids.old)))))) }
    ensures levels { IfOk result (IsRootLeft (C.contents chunks.new) depth
        (body_levels depth keys.old.texts (body.Inner kids.old)) keys.new.texts kids.new.items) }
    ensures wide { IfOk result (IsWideLeft (C.contents chunks.new) (length keys.old.texts) (length keys.new.texts)) }
    ensures places { IfOk result (λ heir. AreKept (C.places chunks.new) (kids_places kids.old.items)
        (left_places kids.new.items heir)) }
    ensures kept { IfOk result (λ heir. (at : Reference) → heir ≡ Some (heirs.Placed at)
        → (keys.new.texts ≡ keys.old.texts) × (kids.new.items ≡ kids.old.items)) }
    ensures err { OnErr result ((keys.new.texts ≡ keys.old.texts) × (kids.new.items ≡ kids.old.items)) }
    ensures stopped { IfErr result (λ s. (s ≡ NoMemory) ⊎ C.stops s) }
{
    if gives_way(&removal.fate, kids.len()) {
        let alloc = *kids.allocator();
        let heir = heir(kids, removal.place, alloc, chunks)?;
        return Ok(Some(heir));
    }
    remove_at(keys, kids, depth, chunks, removal)?;
    Ok(None)
}

// Removes a row of a root that is a leaf. It stays the root.
fn remove_in_root(
    keys: &mut NodeKeys,
    values: &mut Vec<Json>,
    alloc: Global,
    key: &str,
) -> Result<Option<Ref>, Stop>
    requires keys { AreKeys keys.old.texts }
    requires pairs { length values.old.items ≡ length keys.old.texts }
    ensures root { IfOk result (λ root. root ≡ None) }
    ensures rows { IfOk result (λ root. (root ≡ None) × (paired keys.new.texts values.new.items
        ≡ without_key key.now (paired keys.old.texts values.old.items))) }
    ensures keys { AreKeys keys.new.texts }
    ensures left { IfOk result (λ root. (root ≡ None) × IsLeafLeft keys.old.texts keys.new.texts) }
    ensures pairs { length values.new.items ≡ length keys.new.texts }
    ensures err { OnErr result ((keys.new.texts ≡ keys.old.texts) × (values.new.items ≡ values.old.items)) }
    ensures stopped { IfErr result (λ s. s ≡ NoMemory) }
{
    remove_row(keys, values, alloc, key)?;
    Ok(None)
}

impl OwnNode {
    /// Removes a key, if it is there, from the map whose root the chunk is. Answers a placed chunk where
    /// that is the root from now on. Stops for want of memory, or as the store does, and the chunk is as it
    /// was then.
    pub fn remove_root<C: Chunks>(
        &mut self,
        alloc: Global,
        chunks: &mut C,
        key: &str,
    ) -> Result<Option<Ref>, Stop>
        requires places { AreAll (C.places chunks.old) (places_of self.old.pieces) }
        requires tree { IsTree (shown (C.contents chunks.old) self.old.pieces) }
        ensures grown { Grows C.contents C.places chunks.old chunks.new }
        ensures done { IfOk result (λ root. root_rows (C.contents chunks.new) self.new root
            ≡ Some (without_key key.now (rows_or (shown (C.contents chunks.old) self.old.pieces)))) }
        ensures places { IfOk result (λ root. AreKept (C.places chunks.new) (places_of self.old.pieces)
            (root_left self.new root)) }
        ensures levels { IfOk result (IsRootRemoved (C.contents chunks.new) self.old.depth (seen_levels self.old)
            self.new) }
        ensures wide { IsWideChunk self.old → IfOk result (IsWideRoot (C.contents chunks.new) self.new) }
        ensures err { OnErr result (self.new ≡ self.old) }
        ensures stopped { IfErr result (λ s. (s ≡ NoMemory) ⊎ C.stops s) }
    {
        match &mut self.body {
            Body::Leaf(values) => {
                return remove_in_root(&mut self.keys, values, alloc, key);
            }
            Body::Inner(kids) => {
                match remove_inner(&mut self.keys, kids, self.depth, chunks, key)? {
                    None => return Ok(None),
                    Some(NewRoot::Placed(at)) => return Ok(Some(at)),
                    Some(NewRoot::Own(node)) => {
                        *self = node;
                        return Ok(None);
                    }
                }
            }
        }
    }
}
