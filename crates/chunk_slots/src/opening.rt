//! The two nodes that a group opens with: an empty leaf under the stamp 0, and the opening snapshot over
//! it under the stamp 1.
ghost use Rattle.std.specs.Prelude.{ℕ, ◌≡◌, ◌<◌, List, IfOk, IfErr, length};
ghost use Rattle.std.specs.List.{All};
ghost use Rattle.logbook.specs.Pages.{Book};
ghost use Rattle.group_history.specs.Naming.{content_of, drafted_content};
ghost use Rattle.group_history.specs.Refs.{max_slots};
ghost use Rattle.group_history.specs.declared.refs.Ref.{Ref as Reference};
ghost use Rattle.group_history.specs.declared.refusals.Refusal.TheVariants.{NoMemory};
ghost use Rattle.head_word.specs.Books.{empty_leaf, book_opening, opening_snapshot};
ghost use Rattle.head_word.specs.declared.entry.Entry.{Entry};
ghost use Rattle.chunk_slots.specs.Inside.Openings.{Knows};

use crate::placed::Placed;
use group_history::{
    BoxedCommit, Chunk, Commit, CommitKind, ConfirmedIds, Cookie, Keys, Leaf, Means, Node, Ref,
    Refusal, Snapshot, TextMap,
};
use head_word::Mark;
use std::alloc::Global;
use std::sync::Arc;

fn empty_leaf(alloc: Global) -> Result<Node<Ref>, Refusal>
    ensures node { IfOk result (λ node. content_of node ≡ drafted_content 0 empty_leaf) }
    ensures err { IfErr result (λ e. e ≡ NoMemory) }
{
    let keys = Arc::new(alloc, Keys::new(Vec::new(alloc)))?;
    Ok(Node::Chunk(Chunk::Leaf(Leaf::new(keys, Vec::new(alloc)))))
}

fn opening_snapshot(alloc: Global, leaf: u32) -> Result<Node<Ref>, Refusal>
    requires { leaf < max_slots }
    ensures node { IfOk result (λ node. content_of node ≡ drafted_content 0 opening_snapshot) }
    ensures err { IfErr result (λ e. e ≡ NoMemory) }
{
    let cookie = Cookie::null(alloc)?;
    let confirmed = ConfirmedIds::new(alloc, TextMap::new(alloc))?;
    let commit = Commit {
        root: Ref::new(0, leaf),
        kind: CommitKind::Snapshot(Snapshot { cookie, confirmed }),
    };
    Ok(Node::Commit(BoxedCommit::new(alloc, commit)?))
}

/// The empty leaf, by a mark of a book that is new.
pub(crate) fn placed_leaf<M: Means>(alloc: Global, mark: &Mark<M>) -> Result<Placed<M>, Refusal>
    requires { (seats : ℕ) × (at : Reference) × (mark.now.log ≡ book_opening seats at) }
    ensures book { IfOk result (λ placed. placed.mark.book ≡ mark.now.book) }
    ensures stamp { IfOk result (λ placed. placed.stamp ≡ 0) }
    ensures err { IfErr result (λ e. e ≡ NoMemory) }
{
    let node = empty_leaf(alloc)?;
    Ok(Placed::new(0, node, mark))
}

/// The snapshot over the leaf, which lies in the slot.
pub(crate) fn placed_snapshot<M: Means>(
    alloc: Global,
    leaf: u32,
    mark: &Mark<M>,
) -> Result<Placed<M>, Refusal>
    requires leaf { leaf < max_slots }
    requires opened { (seats : ℕ) × (at : Reference) × (mark.now.log ≡ book_opening seats at) }
    ensures book { IfOk result (λ placed. placed.mark.book ≡ mark.now.book) }
    ensures stamp { IfOk result (λ placed. placed.stamp ≡ 1) }
    ensures err { IfErr result (λ e. e ≡ NoMemory) }
{
    let node = opening_snapshot(alloc, leaf)?;
    Ok(Placed::new(1, node, mark))
}

/// The first of the marks.
pub(crate) fn first<M: Means>(marks: &Vec<Mark<M>>) -> &Mark<M>
    requires { 0 < length marks.now.items }
    ensures { (book : Book) (log : List Entry) → All (Knows book log) marks.now.items → Knows book log result.now }
{
    &marks[0]
}
