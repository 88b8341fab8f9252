//! How trees are shaped, and how many chunks a change makes new.
ghost use Rattle.std.specs.Prelude.{◌≡◌, length, map, IfOk, IsSome};
ghost use Rattle.group_history.specs.Naming.{content_of};
ghost use Rattle.group_history.specs.Refs.{stamp_of};
ghost use Rattle.group_history.specs.Spelling.{map_at};
ghost use Rattle.group_history.specs.declared.refs.Ref.{Ref as Reference};
ghost use Rattle.map_chunks.specs.Places.{Grows, with_nodes};
ghost use Rattle.map_tree.specs.Trees.{tree_map};

use super::maps::{grown, json, key_of, placed};
use group_history::{Chunk, Json, Node, Ref, Refusal, Scan, Start, Text};
use map_tree::{Chunks, Draft, Shelf, Tree, VecChunks};
use std::alloc::Global;
use std::marker::Brand;
use std::prelude::*;
use transactions::{NamesContents, Staged};

/// How many leaves there are, how many inner chunks, and how many keys the first two leaves have.
type Kinds = (usize, usize, [usize; 2]);

fn kinds(nodes: &[Node<Ref>]) -> Kinds {
    let mut leaves = 0usize;
    let mut inners = 0usize;
    for node in nodes {
        match node {
            Node::Chunk(Chunk::Leaf(_)) => leaves = leaves.saturating_add(1),
            Node::Chunk(Chunk::Inner(_)) => inners = inners.saturating_add(1),
            Node::Commit(_) => {}
        }
    }
    (leaves, inners, [keys_at(nodes, 0), keys_at(nodes, 1)])
}

/// How many keys the leaf at a place has.
fn keys_at(nodes: &[Node<Ref>], place: usize) -> usize {
    match nodes.get(place) {
        Some(Node::Chunk(Chunk::Leaf(leaf))) => leaf.keys().as_slice().len(),
        _ => 0,
    }
}

/// Those of a tree that is frozen.
fn frozen_kinds(alloc: Global, nodes: &VecChunks, tree: Tree) -> Result<Kinds, Refusal>
    requires { IsSome (tree_map (map content_of nodes.now) tree) }
{
    let mut draft = nodes.draft(alloc);
    let _ = tree.freeze(alloc, &mut draft)?;
    Ok(kinds(draft.nodes()))
}

/// How deep the map of the first so many keys is, how many new chunks it has, and which.
fn shape(alloc: Global, digits: usize, count: u64) -> Result<(u64, u64, Kinds), Refusal> {
    let nodes = VecChunks::new(alloc);
    let mut chunks = nodes.shelf();
    let tree = grown(alloc, &mut chunks, digits, count)?;
    let depth = tree.depth(&mut chunks)?;
    let fresh = tree.new_chunks();
    let kinds = frozen_kinds(alloc, chunks.nodes, tree)?;
    Ok((depth, fresh, kinds))
}

/// The digits of the keys, how many there are, and the shape of their map.
static SHAPES: [(usize, u64, (u64, u64, Kinds)); 6] = [
    (2, 0, (1, 1, (1, 0, [0, 0]))),
    (2, 1, (1, 1, (1, 0, [1, 0]))),
    (2, 16, (1, 1, (1, 0, [16, 0]))),
    (2, 17, (2, 3, (2, 1, [8, 9]))),
    (3, 136, (2, 17, (16, 1, [8, 8]))),
    (3, 137, (3, 20, (17, 3, [8, 8]))),
];

/// How many keys the first of these maps has that is of another shape.
fn other_shape(alloc: Global) -> Result<Option<u64>, Refusal> {
    for (digits, count, want) in &SHAPES {
        if shape(alloc, *digits, *count)? != *want {
            return Ok(Some(*count));
        }
    }
    Ok(None)
}

#[test]
fn maps_of_more_keys_have_more_chunks(rt: HostRuntime) -> Result<(), Refusal> {
    assert_eq!(rt; other_shape(rt.alloc())?, None);
    Ok(())
}

/// Whether these are the keys of the rows, one after another.
fn are_keys(alloc: Global, rows: &[(Text, Json)], keys: &str) -> Result<bool, Refusal> {
    let mut told = String::new(alloc);
    for (key, _) in rows {
        told.push_str(key.as_str())?;
    }
    Ok(told.as_str() == keys)
}

/// Removes the keys of the first so many numbers, in this order.
fn thinned(
    alloc: Global,
    chunks: &mut Shelf<'_>,
    mut tree: Tree,
    count: u32,
) -> Result<Tree, Refusal>
    requires { IsSome (tree_map (map content_of chunks.old.nodes.now) tree) }
    ensures { IfOk result (λ tree. IsSome (tree_map (map content_of chunks.new.nodes.now) tree)) }
{
    for number in 1..u64::from(count) + 1 {
        let key = key_of(alloc, 2, number)?;
        tree.del(alloc, chunks, key.as_str())?;
    }
    Ok(tree)
}

/// How deep a map is, whether it is empty, and whether these are its keys, one after another.
fn seen(
    alloc: Global,
    chunks: &mut Shelf<'_>,
    tree: &Tree,
    keys: &str,
) -> Result<(u64, bool, bool), Refusal>
    requires { IsSome (tree_map (map content_of chunks.old.nodes.now) tree.now) }
{
    let all = scan_all(alloc)?;
    let depth = tree.depth(chunks)?;
    let empty = tree.is_empty(chunks)?;
    let rows = tree.scan(alloc, chunks, &all)?;
    Ok((depth, empty, are_keys(alloc, &rows, keys)?))
}

/// A scan of all.
fn scan_all(alloc: Global) -> Result<Scan, Refusal> {
    Ok(Scan {
        prefix: Text::new(alloc, "")?,
        start: Start::Any,
        limit: None,
    })
}

/// What is seen of a map with the keys of the first 17 numbers, once the first so many are removed.
fn left(alloc: Global, count: u32, keys: &str) -> Result<(u64, bool, bool), Refusal> {
    let nodes = VecChunks::new(alloc);
    let mut chunks = nodes.shelf();
    let tree = grown(alloc, &mut chunks, 2, 17)?;
    let tree = thinned(alloc, &mut chunks, tree, count)?;
    seen(alloc, &mut chunks, &tree, keys)
}

/// How many keys are removed, how deep the map is then, whether it is empty, and its keys.
static REMOVALS: [(u32, u64, bool, &str); 5] = [
    (
        0,
        2,
        false,
        "k01k02k03k04k05k06k07k08k09k10k11k12k13k14k15k16k17",
    ),
    (7, 2, false, "k08k09k10k11k12k13k14k15k16k17"),
    (8, 1, false, "k09k10k11k12k13k14k15k16k17"),
    (16, 1, false, "k17"),
    (17, 1, true, ""),
];

/// How many keys are removed where something else is left.
fn other_left(alloc: Global) -> Result<Option<u32>, Refusal> {
    for (count, depth, empty, keys) in &REMOVALS {
        if left(alloc, *count, keys)? != (*depth, *empty, true) {
            return Ok(Some(*count));
        }
    }
    Ok(None)
}

#[test]
fn removals_leave_the_other_keys(rt: HostRuntime) -> Result<(), Refusal> {
    assert_eq!(rt; other_left(rt.alloc())?, None);
    Ok(())
}

/// How many chunks are new once the value is put at a key of a placed map, or the key is removed where there is none.
fn new_after<C: Chunks>(
    alloc: Global,
    chunks: &mut C,
    root: Ref,
    key: &str,
    value: Option<&Json>,
) -> Result<u64, Refusal>
    requires known { IsSome (map_at (C.contents chunks.old) (stamp_of root)) }
    requires place { C.places chunks.old root }
    ensures { Grows C.contents C.places chunks.old chunks.new }
{
    match value {
        Some(value) => new_after_put(alloc, chunks, root, key, value),
        None => new_after_del(alloc, chunks, root, key),
    }
}

fn new_after_put<C: Chunks>(
    alloc: Global,
    chunks: &mut C,
    root: Ref,
    key: &str,
    value: &Json,
) -> Result<u64, Refusal>
    requires known { IsSome (map_at (C.contents chunks.old) (stamp_of root)) }
    requires place { C.places chunks.old root }
    ensures { Grows C.contents C.places chunks.old chunks.new }
{
    let mut tree = Tree::at(root);
    tree.put(alloc, chunks, key, value)?;
    Ok(tree.new_chunks())
}

fn new_after_del<C: Chunks>(
    alloc: Global,
    chunks: &mut C,
    root: Ref,
    key: &str,
) -> Result<u64, Refusal>
    requires known { IsSome (map_at (C.contents chunks.old) (stamp_of root)) }
    requires place { C.places chunks.old root }
    ensures { Grows C.contents C.places chunks.old chunks.new }
{
    let mut tree = Tree::at(root);
    tree.del(alloc, chunks, key)?;
    Ok(tree.new_chunks())
}

/// Whether a placed map has the key.
fn has<C: Chunks>(chunks: &mut C, root: Ref, key: &str) -> Result<bool, Refusal>
    requires known { IsSome (map_at (C.contents chunks.old) (stamp_of root)) }
    requires place { C.places chunks.old root }
{
    Ok(Tree::at(root).has(chunks, key)?)
}

/// The first key of a map, at which key it is changed, and the value that is put there; none where it is removed.
#[derive(Clone, Copy)]
struct TreeEdit<'a> {
    first: &'a str,
    key: &'a str,
    value: Option<&'a Json>,
}

/// How many chunks are new once that is done, and whether the placed map still has its first key.
fn changed_in<C: Chunks>(
    alloc: Global,
    chunks: &mut C,
    root: Ref,
    edit: TreeEdit<'_>,
) -> Result<(u64, bool), Refusal>
    requires known { IsSome (map_at (C.contents chunks.old) (stamp_of root)) }
    requires place { C.places chunks.old root }
{
    let fresh = new_after(alloc, chunks, root, edit.key, edit.value)?;
    let has = has(chunks, root, edit.first)?;
    Ok((fresh, has))
}

/// The same of a map of the draft.
fn changed_staged<'a, C: Chunks + Copy, K: NamesContents>(
    alloc: Global,
    chunks: C,
    draft: &'a Draft,
    root: Ref,
    edit: TreeEdit<'_>,
) -> Result<(u64, bool), Refusal>
    requires known { C.contents chunks ≡ K.known }
    requires places { (at : Reference) → C.places chunks at }
    requires behind { draft.now.first ≡ length K.known }
    requires map { IsSome (map_at (with_nodes K.known draft.now.nodes) (stamp_of root)) }
{
    let mut staged = Staged::<'a, C, K>::new(chunks, draft);
    changed_in::<Staged<'a, C, K>>(alloc, &mut staged, root, edit)
}

/// The same of the placed map of the first so many keys.
fn changed(
    alloc: Global,
    digits: usize,
    count: u64,
    number: u64,
    value: Option<&Json>,
) -> Result<(u64, bool), Refusal> {
    let first = key_of(alloc, digits, 1)?;
    let key = key_of(alloc, digits, number)?;
    let nodes = VecChunks::new(alloc);
    let placed = placed(alloc, &nodes, digits, count)?;
    let shelf = placed.nodes.shelf();
    let edit = TreeEdit {
        first: first.as_str(),
        key: key.as_str(),
        value,
    };
    changed_staged::<Shelf<'_>, Brand>(alloc, shelf, &placed.draft, placed.root, edit)
}

/// The digits of the keys, how many there are, at which one something is changed, the value that is put there, or none
/// where it is removed, and how many chunks are new then.
type TreeChange = (usize, u64, u64, Option<&'static str>, u64);

static CHANGES: [TreeChange; 13] = [
    (2, 1, 1, Some("2"), 1),
    (2, 1, 1, Some("1"), 0),
    (2, 17, 9, Some("2"), 2),
    (2, 17, 9, Some("1"), 0),
    (2, 17, 18, Some("1"), 2),
    (3, 136, 137, Some("1"), 5),
    (3, 137, 1, Some("2"), 3),
    (3, 137, 137, Some("1"), 0),
    (2, 17, 0, None, 0),
    (2, 17, 18, None, 0),
    (2, 17, 1, None, 2),
    (2, 17, 9, None, 2),
    (2, 17, 17, None, 2),
];

fn changed_by(alloc: Global, change: &TreeChange) -> Result<(u64, bool), Refusal> {
    let (digits, count, number, text, _) = change;
    match text {
        Some(text) => {
            let value = json(alloc, text)?;
            changed(alloc, *digits, *count, *number, Some(&value))
        }
        None => changed(alloc, *digits, *count, *number, None),
    }
}

/// The first of these that makes another number of chunks, or changes the placed map.
fn other_change(alloc: Global) -> Result<Option<usize>, Refusal> {
    for (place, change) in CHANGES.iter().enumerate() {
        if changed_by(alloc, change)? != (change.4, true) {
            return Ok(Some(place));
        }
    }
    Ok(None)
}

#[test]
fn changes_copy_a_path_and_placed_maps_stay(rt: HostRuntime) -> Result<(), Refusal> {
    assert_eq!(rt; other_change(rt.alloc())?, None);
    Ok(())
}
