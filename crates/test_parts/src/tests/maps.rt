//! Maps of numbered keys.
ghost use Rattle.std.specs.Prelude.{◌≡◌, length, map, IfOk, OnOk, IsSome};
ghost use Rattle.group_history.specs.Naming.{content_of};
ghost use Rattle.group_history.specs.Refs.{stamp_of};
ghost use Rattle.group_history.specs.Spelling.{map_at};
ghost use Rattle.map_chunks.specs.Places.{with_nodes};
ghost use Rattle.map_tree.specs.Trees.{tree_map};

use group_history::{Json, Ref, Refusal};
use map_tree::{Draft, Shelf, Tree, VecChunks};
use std::alloc::{AllocError, Global};
use std::prelude::*;

/// A text of `k` and a number, with so many digits.
pub(super) fn key_of(alloc: Global, digits: usize, number: u64) -> Result<String, AllocError> {
    if digits == 2 {
        format!(in alloc; "k{number:02}")
    } else {
        format!(in alloc; "k{number:03}")
    }
}

pub(super) fn json(alloc: Global, text: &str) -> Result<Json, Refusal> {
    Ok(Json::read(alloc, text.as_bytes())?)
}

/// The map of the first so many keys, put in this order, each with 1.
pub(super) fn grown(
    alloc: Global,
    chunks: &mut Shelf<'_>,
    digits: usize,
    count: u64,
) -> Result<Tree, Refusal>
    ensures { IfOk result (λ tree. IsSome (tree_map (map content_of chunks.new.nodes.now) tree)) }
{
    let mut tree = Tree::empty(alloc);
    let one = json(alloc, "1")?;
    for before in 0..count {
        let key = key_of(alloc, digits, before + 1)?;
        put_at(alloc, chunks, &mut tree, key.as_str(), &one)?;
    }
    Ok(tree)
}

/// Puts a value at a key.
fn put_at(
    alloc: Global,
    chunks: &mut Shelf<'_>,
    tree: &mut Tree,
    key: &str,
    value: &Json,
) -> Result<(), Refusal>
    requires { IsSome (tree_map (map content_of chunks.old.nodes.now) tree.old) }
    ensures { OnOk result (IsSome (tree_map (map content_of chunks.new.nodes.now) tree.new)) }
{
    tree.put(alloc, chunks, key, value)?;
    Ok(())
}

/// Nodes, a draft of more, and the root of a map in the draft.
#[derive(Drop)]
pub(super) struct PlacedMap<'a> {
    pub(super) nodes: &'a VecChunks,
    pub(super) draft: Draft,
    pub(super) root: Ref,
    ghost behind: { draft.first ≡ length nodes.now },
    ghost spelled: { IsSome (map_at (with_nodes (map content_of nodes.now) draft.nodes) (stamp_of root)) },
}

/// The same map, frozen.
pub(super) fn placed<'a>(
    alloc: Global,
    nodes: &'a VecChunks,
    digits: usize,
    count: u64,
) -> Result<PlacedMap<'a>, Refusal> {
    let mut chunks = nodes.shelf();
    let tree = grown(alloc, &mut chunks, digits, count)?;
    let mut draft = chunks.nodes.draft(alloc);
    let root = tree.freeze(alloc, &mut draft)?;
    Ok(PlacedMap {
        nodes: chunks.nodes,
        draft,
        root,
    })
}
