//! What a walk still has to look at, the greatest stamp first.
//!
//! Children have smaller stamps than their parents. So a walk that always takes the greatest stamp meets
//! no node twice, and needs no set of all that it has met. What it knows of that only spares it to add a node once
//! more. What is near tells that itself, so only what is far, and what a root keeps, is noted.
ghost use Rattle.std.specs.Prelude.{◌≡◌, ◌⊎◌, ◌<◌, ◌++◌, [], ◌∷◌, ℕ, IfOk, IsTrue, OnOk, IfSome, IfNone};
ghost use Rattle.std.specs.List.{Contains};
ghost use Rattle.commit_graph.specs.Inside.Reach.{stamp_in, Adds, HasStampIn, Notes};
ghost use Rattle.commit_graph.specs.declared.founds.NamedNode.{NamedNode as Finding};

use crate::ahead::{Ahead, stamp_in};
use crate::founds::NamedNode;
use crate::met::Met;
use group_history::Ref;
use std::alloc::{AllocError, Global};
use std::marker::Model;

/// Nodes to be looked at, one for each stamp.
#[derive(Drop)]
pub struct Frontier {
    ahead: Ahead,
    met: Met,
}

impl Model for Frontier {
    ghost use Rattle.commit_graph.specs.Inside.Reach.{Walked};

    ghost Value = { Walked };

    ghost view = { λ f. record { ahead = f.ahead; met = f.met } };
}

impl Frontier {
    /// Of a walk that has met one stamp and looks at nothing yet, with so many places for the stamps from a lowest one
    /// on.
    pub fn new(alloc: Global, stamp: u64, low: u64, places: usize) -> Result<Frontier, AllocError>
        ensures ahead { IfOk result (λ frontier. frontier.ahead ≡ []) }
        ensures met { IfOk result (λ frontier. (x : ℕ) → Contains frontier.met x → x ≡ stamp) }
    {
        let met = Met::new(alloc, stamp)?;
        let ahead = Ahead::new(alloc, low, places)?;
        Ok(Frontier { ahead, met })
    }

    /// Adds a node, unless it is known to be ahead or met.
    #[inline(always)]
    pub fn add(&mut self, found: NamedNode) -> Result<(), AllocError>
        ensures { OnOk result (Adds self.old (found ∷ []) self.new) }
    {
        if self.knows(stamp_in(found)) {
            return Ok(());
        }
        self.add_new(found)
    }

    /// Adds a node that isn't known.
    #[inline(always)]
    pub fn add_new(&mut self, found: NamedNode) -> Result<(), AllocError>
        ensures { OnOk result (Adds self.old (found ∷ []) self.new) }
    {
        if self.ahead.puts_near(found) {
            return Ok(());
        }
        self.add_far(found)
    }

    // Adds a node that has no place in the row. Few are, so this stays out of the loops that add.
    #[inline(never)]
    fn add_far(&mut self, found: NamedNode) -> Result<(), AllocError>
        ensures { OnOk result (Adds self.old (found ∷ []) self.new) }
    {
        let stamp = stamp_in(found);
        self.ahead.put(found)?;
        if !self.ahead.is_near(stamp) {
            self.met.note(stamp);
        }
        Ok(())
    }

    /// Whether a stamp is known to be ahead or met. Not all that were met are known.
    pub fn knows(&self, stamp: u64) -> bool
        ensures { IsTrue result → HasStampIn self.now.ahead stamp ⊎ Contains self.now.met stamp }
    {
        self.ahead.is_near(stamp) || self.met.has(stamp)
    }

    /// Notes a stamp as met, so that its node is not added.
    pub fn note(&mut self, stamp: u64)
        ensures { Notes (λ x. x ≡ stamp) self.old self.new }
    {
        self.met.note(stamp);
    }

    /// Takes the node of the greatest stamp.
    pub fn pop(&mut self) -> Option<NamedNode>
        ensures none { IfNone result (self.old.ahead ≡ []) }
        ensures some { IfSome result (λ found. self.old.ahead ≡ self.new.ahead ++ found ∷ []) }
        ensures greatest { IfSome result (λ found. (other : Finding) → Contains self.new.ahead other
            → stamp_in other < stamp_in found) }
        ensures met { self.new.met ≡ self.old.met }
    {
        self.ahead.pop()
    }
}
