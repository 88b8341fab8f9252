//! What shows a placed node.
ghost use Rattle.std.specs.Prelude.{◌≡◌, Some};
ghost use Rattle.chunk_slots.specs.Contents.{Content, IsDrawn};

use crate::placed::Placed;
use counted_slot::Claim;
use group_history::{Means, Node, Ref};
use head_word::Mark;
use std::marker::Model;

// How the value is kept in place: a reader is counted at its slot, or nothing is ever taken away.
pub(crate) enum Holds<'a, M: Means> {
    Claimed(Claim<'a, Option<Placed<M>>>),
    Lent(&'a Placed<M>),
}

/// A placed node that is shown. It can't be dropped: it is given back by `leave`, so that a claim is given
/// back on every way out. None of its calls takes memory.
pub struct Shown<'a, M: Means> {
    holds: Holds<'a, M>,
    mark: Mark<M>,
}

impl<'a, M: Means> Model for Shown<'a, M> {
    ghost use Rattle.std.specs.Coded.{codes};
    ghost use Rattle.group_history.specs.State.{ids_coded};
    ghost use Rattle.head_word.specs.contracts.entry.Entry as entry;
    ghost use Rattle.chunk_slots.specs.Contents.{Content};

    ghost Value = { Content };

    ghost coded = { Prim.hlevel (codes, ids_coded, entry.the_row.coded) };

    ghost use Rattle.chunk_slots.specs.Inside.Showing.{showing, IsShowing};

    ghost view = { λ s. showing s.holds };

    ghost invariant = { λ s. IsShowing s.holds s.mark };
}

impl<'a, M: Means> Shown<'a, M> {
    pub(crate) fn lent(placed: &'a Placed<M>) -> Shown<'a, M>
        ensures { result ≡ placed.now }
    {
        let _ = placed.stamp();
        Shown {
            mark: placed.mark(),
            holds: Holds::Lent(placed),
        }
    }

    pub(crate) fn claimed(claim: Claim<'a, Option<Placed<M>>>, mark: Mark<M>) -> Shown<'a, M>
        requires right { claim.right ≡ 1 }
        requires filled { (c : Content) × (claim.value ≡ Some (Some c)) × IsDrawn c × (mark ≡ c.mark) }
        ensures { claim.entry.value ≡ Some (Some result) }
    {
        Shown {
            holds: Holds::Claimed(claim),
            mark,
        }
    }

    /// The node.
    pub fn value(&self) -> &Node<Ref>
        ensures node { result.now ≡ self.now.node }
        ensures drawn { IsDrawn self.now }
    {
        let placed = match &self.holds {
            Holds::Lent(placed) => placed,
            Holds::Claimed(claim) => match claim.get() {
                Some(placed) => placed,
                None => unreachable!(),
            },
        };
        placed.node()
    }

    /// A copy of the mark with which it was placed. Who learns it knows the node's content.
    pub fn mark(&self) -> &Mark<M>
        ensures { result.now ≡ self.now.mark }
    {
        &self.mark
    }

    /// Gives the slot back.
    pub fn leave(self) {
        let Shown { holds, mark: _ } = self;
        match holds {
            Holds::Claimed(claim) => {
                let _ = claim.leave();
            }
            Holds::Lent(_) => {}
        }
    }
}
