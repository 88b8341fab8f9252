//! The newest of what is ahead: a row with a place for each stamp from a lowest one on.
//!
//! The nodes of a draft bear stamps one behind the other, and a walk comes to most of them. So each is put at the place
//! of its stamp, and the next one to be taken stands a few places before the last.
ghost use Rattle.std.specs.Prelude.{◌≡◌, ◌<◌, ◌≤◌, ◌++◌, [], ◌∷◌, true, false, IfOk, OnOk, IsTrue, IfSome, IfNone};
ghost use Rattle.std.specs.List.{Contains};
ghost use Rattle.commit_graph.specs.Inside.Reach.{HasStampIn, Joins, stamp_in};
ghost use Rattle.commit_graph.specs.declared.founds.NamedNode.{NamedNode as Finding};

use crate::ahead::stamp_in;
use crate::founds::NamedNode;
use std::alloc::{AllocError, Global};
use std::marker::Model;

/// Nodes, one for each stamp from the lowest one on.
#[derive(Drop)]
pub struct Near {
    low: u64,
    row: Vec<Option<NamedNode>>,
}

impl Model for Near {
    ghost use Rattle.commit_graph.specs.Inside.Reach.{FromLow, StandFrom, row_nodes};

    ghost Value = { FromLow };

    ghost view = { λ n. record { low = n.low; nodes = row_nodes n.row.items } };

    ghost invariant = { λ n. StandFrom n.low n.row.items };
}

impl Near {
    /// None, with so many places.
    pub fn new(alloc: Global, low: u64, places: usize) -> Result<Near, AllocError>
        ensures { IfOk result (λ near. near ≡ record { low = low; nodes = [] }) }
    {
        let mut row = Vec::new(alloc);
        row.resize(places, None)?;
        Ok(Near { low, row })
    }

    /// The lowest stamp.
    pub fn low(&self) -> u64
        ensures { result ≡ self.now.low }
    {
        self.low
    }

    /// Whether it has no place left.
    pub fn is_empty(&self) -> bool
        ensures { IsTrue result → self.now.nodes ≡ [] }
    {
        self.row.is_empty()
    }

    /// Begins anew at another lowest stamp.
    pub fn begin(&mut self, low: u64)
        ensures { self.new ≡ record { low = low; nodes = [] } }
    {
        self.row.clear();
        self.low = low;
    }

    /// Whether it has a node of the stamp.
    pub fn has(&self, stamp: u64) -> bool
        ensures { IsTrue result → HasStampIn self.now.nodes stamp }
    {
        if stamp < self.low {
            return false;
        }
        let place = (stamp - self.low) as usize;
        place < self.row.len() && self.row[place].is_some()
    }

    /// Puts a node in where there is a place of its stamp; whether there is one.
    #[inline(always)]
    pub fn puts(&mut self, found: NamedNode) -> bool
        ensures low { self.new.low ≡ self.old.low }
        ensures put { result ≡ true → Joins self.old.nodes (found ∷ []) self.new.nodes }
        ensures none { result ≡ false → self.new ≡ self.old }
    {
        let stamp = stamp_in(found);
        if stamp < self.low {
            return false;
        }
        let place = (stamp - self.low) as usize;
        if place >= self.row.len() {
            return false;
        }
        self.row[place] = Some(found);
        true
    }

    /// Puts a node in. Of two of one stamp one stays.
    pub fn put(&mut self, found: NamedNode) -> Result<(), AllocError>
        requires { self.old.low ≤ stamp_in found }
        ensures low { self.new.low ≡ self.old.low }
        ensures joins { OnOk result (Joins self.old.nodes (found ∷ []) self.new.nodes) }
    {
        let place = (stamp_in(found) - self.low) as usize;
        if place < self.row.len() {
            self.row[place] = Some(found);
            return Ok(());
        }
        self.row.resize(place, None)?;
        self.row.push(Some(found))?;
        Ok(())
    }

    /// Takes the node of the greatest stamp.
    pub fn pop(&mut self) -> Option<NamedNode>
        ensures low { self.new.low ≡ self.old.low }
        ensures none { IfNone result (self.old.nodes ≡ []) }
        ensures left { IfNone result (self.new.nodes ≡ []) }
        ensures some { IfSome result (λ found. self.old.nodes ≡ self.new.nodes ++ found ∷ []) }
        ensures above { IfSome result (λ found. self.old.low ≤ stamp_in found) }
        ensures greatest { IfSome result (λ found. (other : Finding) → Contains self.new.nodes other
            → stamp_in other < stamp_in found) }
    {
        while let Some(last) = self.row.pop() {
            if let Some(found) = last {
                return Some(found);
            }
        }
        None
    }
}
