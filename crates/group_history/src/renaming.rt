//! The parts of nodes that were drafted, with their children named as they were placed.
//!
//! A draft's nodes have numbers for stamps, from a first one on; when they are placed, each gets a
//! reference of its own, and its parents must name it by that.
ghost use Rattle.std.specs.Prelude.{◌≡◌, map};
ghost use Rattle.group_history.specs.Naming.{placed_ref, renamed_chunk, renamed_commit, renamed_kind};

use crate::nodes::{BoxedCommit, Chunk, Commit, CommitKind, Inner};
use crate::refs::Ref;

// The reference of a child.
fn renamed_ref(at: Ref, from: u64, refs: &[Ref]) -> Ref
    ensures { result ≡ placed_ref from refs.now at }
{
    let stamp = at.stamp();
    if stamp < from {
        return at;
    }
    match refs.get((stamp - from) as usize) {
        Some(placed) => *placed,
        None => at,
    }
}

// Most children were placed before, and stay as they are.
fn rename_all(mut children: Vec<Ref>, from: u64, refs: &[Ref]) -> Vec<Ref>
    ensures { result.items ≡ map (placed_ref from refs.now) children.items }
{
    let first = Ref::first_of(from);
    for place in 0..children.len() {
        if !children[place].is_before(first) {
            children[place] = renamed_ref(children[place], from, refs);
        }
    }
    children
}

pub(crate) fn renamed_chunk(chunk: Chunk<Ref>, from: u64, refs: &[Ref]) -> Chunk<Ref>
    ensures { result ≡ renamed_chunk (placed_ref from refs.now) chunk }
{
    match chunk {
        Chunk::Leaf(leaf) => Chunk::Leaf(leaf),
        Chunk::Inner(inner) => {
            let (firsts, children) = inner.into_parts();
            Chunk::Inner(Inner::new(firsts, rename_all(children, from, refs)))
        }
    }
}

fn rename_kind(kind: &mut CommitKind<Ref>, from: u64, refs: &[Ref])
    ensures { kind.new ≡ renamed_kind (placed_ref from refs.now) kind.old }
{
    match kind {
        CommitKind::Snapshot(_) => {}
        CommitKind::Over(over) => {
            over.basis = renamed_ref(over.basis, from, refs);
            over.snapshot = renamed_ref(over.snapshot, from, refs);
        }
    }
}

fn rename_commit(commit: &mut Commit<Ref>, from: u64, refs: &[Ref])
    ensures { commit.new ≡ renamed_commit (placed_ref from refs.now) commit.old }
{
    commit.root = renamed_ref(commit.root, from, refs);
    rename_kind(&mut commit.kind, from, refs);
}

pub(crate) fn renamed_commit(commit: BoxedCommit<Ref>, from: u64, refs: &[Ref]) -> BoxedCommit<Ref>
    ensures { result ≡ renamed_commit (placed_ref from refs.now) commit }
{
    let mut commit = commit;
    rename_commit(&mut commit.inner, from, refs);
    commit
}
