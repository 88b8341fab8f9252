//! The nodes that a group is made of: chunks of a map, and commits.
//!
//! A node names its children by an `R`: by their `Ref`s where it lies in a slot, by places while it is
//! drafted. What nodes spell together is in `specs/Spelling.antt`.
ghost use Rattle.std.specs.Prelude.{◌≡◌, ◌≤◌, IfOk, length, take};
ghost use Rattle.std.specs.Arc.{arc_value};

use crate::confirmed::ConfirmedIds;
use crate::cookies::Cookie;
use crate::json::Json;
use crate::mutations::Mutation;
use crate::refs::Ref;
use crate::renaming::{renamed_chunk, renamed_commit};
use crate::texts::Text;
use std::alloc::{AllocError, Global};
use std::marker::Model;
use std::sync::Arc;

/// How many keys a chunk has at most.
const MOST: usize = 16;

/// The keys of a chunk: at most 16, in strict order of their bytes. They lie in the value itself, behind their
/// number, and the places behind them hold empty texts.
pub struct Keys {
    len: usize,
    texts: [Text; MOST],
}

impl Drop for Keys {
    fn drop(self) {
        let Keys { len: _, texts } = self;
        drop(texts);
    }
}

impl Model for Keys {
    ghost use Rattle.std.specs.Prelude.{◌≤◌, List, take};
    ghost use Rattle.group_history.specs.Map.{Bytes};
    ghost use Rattle.group_history.specs.Rows.{AreKeys};

    ghost Value = { List Bytes };

    ghost view = { λ k. take k.len k.texts };

    ghost invariant = { λ k. (k.len ≤ 16) × AreKeys (take k.len k.texts) };
}

impl Keys {
    ghost use Rattle.group_history.specs.Rows.{AreKeys};

    /// Keys that are at most 16, in strict order of their bytes. Takes no memory.
    pub fn new(texts: Vec<Text>) -> Keys
        requires { AreKeys texts.items }
        ensures { result ≡ texts.items }
    {
        let mut given = texts;
        let len = given.len();
        let mut texts: [Text; MOST] = Default::default();
        move_in(&mut texts, &mut given);
        Keys { len, texts }
    }

    /// The keys, in order.
    pub fn as_slice(&self) -> &[Text]
        ensures keys { result.now ≡ self.now }
        ensures order { AreKeys result.now }
    {
        &self.texts[..self.len]
    }
}

/// Moves the texts to the first places, for what stands there.
fn move_in(places: &mut [Text], texts: &mut [Text])
    requires { length texts.old ≤ length places.old }
    ensures front { take (length texts.old) places.new ≡ texts.old }
    ensures len { length places.new ≡ length places.old }
{
    places[..texts.len()].swap_with_slice(texts);
}

/// A leaf of a map: at most 16 keys, and a value for each. Its keys may be shared with other leaves.
#[derive(Drop)]
pub struct Leaf {
    keys: Arc<Keys>,
    values: Vec<Json>,
}

impl Model for Leaf {
    ghost use Rattle.std.specs.Prelude.{◌≡◌, length};
    ghost use Rattle.std.specs.Arc.{arc_value};
    ghost use Rattle.group_history.specs.Rows.{Rows, AreKeys, paired};

    ghost Value = { Rows };

    ghost view = { λ l. paired (arc_value l.keys) l.values.items };

    ghost invariant = { λ l. AreKeys (arc_value l.keys) × (length l.values.items ≡ length (arc_value l.keys)) };
}

impl Leaf {
    ghost use Rattle.group_history.specs.Rows.{AreKeys, paired, keys_of, values_of};

    /// A leaf of keys and as many values, each for the key at its place.
    pub fn new(keys: Arc<Keys>, values: Vec<Json>) -> Leaf
        requires keys { AreKeys (arc_value keys) }
        requires values { length values.items ≡ length (arc_value keys) }
        ensures { result ≡ paired (arc_value keys) values.items }
    {
        Leaf { keys, values }
    }

    /// Its keys.
    pub fn keys(&self) -> &Arc<Keys>
        ensures keys { arc_value result.now ≡ keys_of self.now }
        ensures order { AreKeys (arc_value result.now) }
    {
        &self.keys
    }

    /// The values, each at the place of its key.
    pub fn values(&self) -> &[Json]
        ensures { result.now ≡ values_of self.now }
    {
        &self.values
    }
}

/// An inner chunk of a map: 1 to 16 children, each under its first key. The keys may be shared with
/// other chunks.
#[derive(Drop)]
pub struct Inner<R> {
    firsts: Arc<Keys>,
    children: Vec<R>,
}

impl<R> Model for Inner<R> {
    ghost use Rattle.std.specs.Prelude.{◌≡◌, ℕ, List, length};
    ghost use Rattle.std.specs.Coded.{coded_ℕ, coded_list, coded×};
    ghost use Rattle.std.specs.Arc.{arc_value};
    ghost use Rattle.group_history.specs.Map.{Bytes};
    ghost use Rattle.group_history.specs.Rows.{AreKeys, paired};

    ghost Value = { List (Bytes × R) };

    ghost coded = { coded_list (coded× (coded_list coded_ℕ) R.code) };

    ghost view = { λ i. paired (arc_value i.firsts) i.children.items };

    ghost invariant = { λ i. AreKeys (arc_value i.firsts) × (length i.children.items ≡ length (arc_value i.firsts)) };
}

impl<R> Inner<R> {
    ghost use Rattle.group_history.specs.Rows.{AreKeys, paired, keys_of, values_of};

    /// An inner chunk of first keys and as many children, each for the key at its place.
    pub fn new(firsts: Arc<Keys>, children: Vec<R>) -> Inner<R>
        requires firsts { AreKeys (arc_value firsts) }
        requires children { length children.items ≡ length (arc_value firsts) }
        ensures { result ≡ paired (arc_value firsts) children.items }
    {
        Inner { firsts, children }
    }

    /// The first key of each child.
    pub fn firsts(&self) -> &Arc<Keys>
        ensures keys { arc_value result.now ≡ keys_of self.now }
        ensures order { AreKeys (arc_value result.now) }
    {
        &self.firsts
    }

    /// The children, each at the place of its first key.
    pub fn children(&self) -> &[R]
        ensures { result.now ≡ values_of self.now }
    {
        &self.children
    }

    // The first keys and the children, by value.
    pub(crate) fn into_parts(self) -> (Arc<Keys>, Vec<R>)
        ensures firsts { arc_value result.0 ≡ keys_of self }
        ensures children { result.1.items ≡ values_of self }
        ensures order { AreKeys (arc_value result.0) }
    {
        (self.firsts, self.children)
    }
}

/// A chunk of a map: the rows of a leaf, or the children of an inner one, named by `R`.
#[derive(Drop)]
pub enum Chunk<R> {
    Leaf(Leaf),
    Inner(Inner<R>),
}

/// A snapshot: what the server last sent, beside the pulled map.
#[derive(Drop)]
pub struct Snapshot {
    /// The response's cookie; null where the group opened.
    pub cookie: Cookie,
    /// The last id that the server confirmed, for each client.
    pub confirmed: ConfirmedIds,
}

/// What a commit adds to its basis.
#[derive(Drop)]
pub enum CommitChange {
    /// A mutation, which is pending at it.
    Local(Mutation),

    /// The end of a pull that closed the group. What queries read stays as it was.
    Closed,
}

/// A commit over another one.
#[derive(Drop)]
pub struct Successor<R> {
    /// The commit before it.
    pub basis: R,
    /// The snapshot at which its chain begins: the basis's own, or the basis where that is one.
    pub snapshot: R,
    /// What it adds to the basis.
    pub step: CommitChange,
    /// Each client's last id at the basis, where the commit tells them.
    pub told: Option<ConfirmedIds>,
}

/// What a commit is: a snapshot, or one over a basis.
#[derive(Drop)]
pub enum CommitKind<R> {
    Snapshot(Snapshot),
    Over(Successor<R>),
}

/// A commit: the root of the map that queries read at it, and what it is.
#[derive(Drop)]
pub struct Commit<R> {
    /// The root of the map that queries read.
    pub root: R,
    /// A snapshot, or one over a basis.
    pub kind: CommitKind<R>,
}

/// A commit behind a pointer: so a node takes no more room than a chunk needs, 48 bytes.
pub struct BoxedCommit<R> {
    pub(crate) inner: Box<Commit<R>>,
}

impl<R: Drop> Drop for BoxedCommit<R> {
    // Of the nodes that a change lets go one is a commit: the others are dropped without a call.
    #[inline(never)]
    fn drop(self) {
        let BoxedCommit { inner } = self;
        drop(inner);
    }
}

impl<R> Model for BoxedCommit<R> {
    ghost use Rattle.std.specs.Coded.{codes};
    ghost use Rattle.group_history.specs.State.{ids_coded};
    ghost use Rattle.group_history.specs.declared.nodes.Commit.{Commit as Committed};

    ghost Value = { Committed R };

    ghost coded = { Prim.hlevel (codes, ids_coded) };

    ghost view = { λ boxed. boxed.inner.value };
}

impl<R> BoxedCommit<R> {
    /// The commit, in memory of its own.
    #[inline(always)]
    pub fn new(alloc: Global, commit: Commit<R>) -> Result<BoxedCommit<R>, AllocError>
    where
        R: Drop,
        ensures { IfOk result (λ boxed. boxed ≡ commit) }
    {
        let inner = Box::new(alloc, commit)?;
        Ok(BoxedCommit { inner })
    }

    /// The commit.
    pub fn as_commit(&self) -> &Commit<R>
        ensures { result.now ≡ self.now }
    {
        &self.inner
    }
}

/// What lies in a slot, or is drafted to lie there. It names its children by `R`.
pub enum Node<R> {
    Chunk(Chunk<R>),
    Commit(BoxedCommit<R>),
}

impl<R: Drop> Drop for Node<R> {
    #[inline]
    fn drop(self) {
        match self {
            Node::Chunk(chunk) => drop(chunk),
            Node::Commit(commit) => drop(commit),
        }
    }
}

impl Node<Ref> {
    ghost use Rattle.group_history.specs.Naming.{placed_ref, renamed};

    /// The node with each child that has a stamp of at least `from` named anew: by the reference that
    /// stands at the place `stamp - from` of `refs`, where there is one. The others keep their names.
    /// Takes no memory.
    pub fn renamed(self, from: u64, refs: &[Ref]) -> Node<Ref>
        ensures { result ≡ renamed (placed_ref from refs.now) self }
    {
        match self {
            Node::Chunk(chunk) => Node::Chunk(renamed_chunk(chunk, from, refs)),
            Node::Commit(commit) => Node::Commit(renamed_commit(commit, from, refs)),
        }
    }
}

/// How a drafted node names a child.
#[derive(Clone, Copy)]
pub enum Child {
    /// A node that was placed before.
    Placed(Ref),
    /// The node at this place of the same draft, counted from 0. It stands before its parent.
    Drafted(u64),
}
