//! What lies in a slot.
ghost use Rattle.std.specs.Prelude.{◌≡◌};
ghost use Rattle.chunk_slots.specs.Contents.{Content, IsContent, IsDrawn};

use counted_slot::Fits;
use group_history::{Means, Node, Ref};
use head_word::{Mark, Sight};
use std::marker::Model;

/// A node under its stamp, and what a mark has seen whose book has the draft that drew the stamp for it.
/// It has 56 bytes: the stamp, and the node in place. What the mark has seen has none.
#[derive(Drop)]
pub struct Placed<M: Means> {
    stamp: u64,
    node: Node<Ref>,
    seen: Sight<M>,
}

impl<M: Means> Model for Placed<M> {
    ghost use Rattle.std.specs.Coded.{codes};
    ghost use Rattle.group_history.specs.State.{ids_coded};
    ghost use Rattle.head_word.specs.contracts.entry.Entry as entry;
    ghost use Rattle.chunk_slots.specs.Contents.{Content, IsContent};

    ghost Value = { Content };

    ghost coded = { Prim.hlevel (codes, ids_coded, entry.the_row.coded) };

    ghost view = { λ p. record { stamp = p.stamp; node = p.node; mark = p.seen } };

    ghost invariant = { λ p. IsContent p.seen.log p.stamp p.node };
}

impl<M: Means> Fits for Placed<M> {
    type Tag = Sight<M>;

    ghost fits = { λ tag placed. placed.mark.book ≡ tag.book };
}

impl<M: Means> Placed<M> {
    pub(crate) fn new(stamp: u64, node: Node<Ref>, mark: &Mark<M>) -> Placed<M>
        requires { IsContent mark.now.log stamp node }
        ensures stamp { result.stamp ≡ stamp }
        ensures node { result.node ≡ node }
        ensures log { result.mark.log ≡ mark.now.log }
        ensures book { result.mark.book ≡ mark.now.book }
    {
        Placed {
            stamp,
            node,
            seen: mark.sight(),
        }
    }

    pub fn stamp(&self) -> u64
        ensures stamp { result ≡ self.now.stamp }
        ensures drawn { IsDrawn self.now }
    {
        self.stamp
    }

    pub fn node(&self) -> &Node<Ref>
        ensures { result.now ≡ self.now.node }
    {
        &self.node
    }

    pub fn mark(&self) -> Mark<M>
        ensures { result ≡ self.now.mark }
    {
        self.seen.mark()
    }
}
