//! Nodes by their stamps, of which the greatest is taken.
//!
//! The newest stand in a row, beside a tree of the others. Where the row is at its end, it begins anew a few stamps
//! below the next one that is put in; so what a chunk names is mostly near, and the tree has what is far.
ghost use Rattle.std.specs.Prelude.{◌≡◌, ◌<◌, ◌++◌, [], ◌∷◌, ℕ, true, false, map, IfOk, IfSome, IfNone, IsTrue, OnOk};
ghost use Rattle.std.specs.BTreeMap.{keys};
ghost use Rattle.std.specs.List.{Contains};
ghost use Rattle.commit_graph.specs.Inside.Reach.{stamp_in, AreKeyed, AreUnder, HasStampIn, Joins};
ghost use Rattle.commit_graph.specs.declared.founds.NamedNode.{NamedNode as Finding};

use crate::founds::NamedNode;
use crate::near::Near;
use std::alloc::{AllocError, Global};
use std::collections::BTreeMap;
use std::marker::Model;

// How many stamps lower than the next one a row begins.
const BEFORE: u64 = 16;

/// Nodes, one for each stamp.
#[derive(Drop)]
pub struct Ahead {
    // Those whose stamps are below the lowest one of the row.
    tree: BTreeMap<u64, NamedNode>,
    near: Near,
}

impl Model for Ahead {
    ghost use Rattle.std.specs.Prelude.{List, map, ◌++◌};
    ghost use Rattle.commit_graph.specs.declared.founds.NamedNode.{NamedNode as Finding};
    ghost use Rattle.commit_graph.specs.Inside.Reach.{AreKeyed, AreUnder};

    ghost Value = { List Finding };

    ghost view = { λ a. map (λ e. e.1) a.tree.entries ++ a.near.nodes };

    ghost invariant = { λ a. AreKeyed a.tree.entries × AreUnder a.near.low (map (λ e. e.1) a.tree.entries) };
}

/// The stamp of a node that was found.
pub fn stamp_in(found: NamedNode) -> u64
    ensures { result ≡ stamp_in found }
{
    match found {
        NamedNode::Chunk(at) => at.stamp(),
        NamedNode::Commit(at) => at.stamp(),
    }
}

// Whether all in a tree stand under smaller stamps.
fn is_above(tree: &BTreeMap<u64, NamedNode>, stamp: u64) -> bool
    ensures { IsTrue result → (k : ℕ) → Contains (keys tree.now) k → k < stamp }
{
    match tree.last_key_value() {
        Some((last, _)) => *last < stamp,
        None => true,
    }
}

// Begins a row anew at its end, some stamps lower than this one, or at it, if all in the tree are below.
fn begin(near: &mut Near, tree: &BTreeMap<u64, NamedNode>, stamp: u64)
    requires none { near.old.nodes ≡ [] }
    requires keyed { AreKeyed tree.now.entries }
    requires under { AreUnder near.old.low (map (λ e. e.1) tree.now.entries) }
    ensures none { near.new.nodes ≡ [] }
    ensures under { AreUnder near.new.low (map (λ e. e.1) tree.now.entries) }
{
    let low = stamp.saturating_sub(BEFORE);
    if is_above(tree, low) {
        near.begin(low);
    } else if is_above(tree, stamp) {
        near.begin(stamp);
    }
}

impl Ahead {
    /// None, with so many places for the stamps from a lowest one on.
    pub fn new(alloc: Global, low: u64, places: usize) -> Result<Ahead, AllocError>
        ensures { IfOk result (λ ahead. ahead ≡ []) }
    {
        let near = Near::new(alloc, low, places)?;
        Ok(Ahead {
            tree: BTreeMap::new(alloc),
            near,
        })
    }

    // Begins the row anew where it is at its end.
    fn renew(&mut self, stamp: u64)
        ensures { self.new ≡ self.old }
    {
        if self.near.is_empty() {
            begin(&mut self.near, &self.tree, stamp);
        }
    }

    /// Puts a node into the row where it has a place there; whether it has one.
    #[inline(always)]
    pub fn puts_near(&mut self, found: NamedNode) -> bool
        ensures put { result ≡ true → Joins self.old (found ∷ []) self.new }
        ensures none { result ≡ false → self.new ≡ self.old }
    {
        self.near.puts(found)
    }

    /// Puts a node in. Of two of one stamp one stays.
    pub fn put(&mut self, found: NamedNode) -> Result<(), AllocError>
        ensures { OnOk result (Joins self.old (found ∷ []) self.new) }
    {
        let stamp = stamp_in(found);
        self.renew(stamp);
        if stamp < self.near.low() {
            self.tree.insert(stamp, found)?;
            return Ok(());
        }
        self.near.put(found)
    }

    /// Whether the row has a node of the stamp.
    pub fn is_near(&self, stamp: u64) -> bool
        ensures { IsTrue result → HasStampIn self.now stamp }
    {
        self.near.has(stamp)
    }

    /// Takes the node of the greatest stamp.
    pub fn pop(&mut self) -> Option<NamedNode>
        ensures none { IfNone result (self.old ≡ []) }
        ensures some { IfSome result (λ found. self.old ≡ self.new ++ found ∷ []) }
        ensures greatest { IfSome result (λ found. (other : Finding) → Contains self.new other
            → stamp_in other < stamp_in found) }
    {
        if let Some(found) = self.near.pop() {
            return Some(found);
        }
        let (_, found) = self.tree.pop_last()?;
        Some(found)
    }
}
