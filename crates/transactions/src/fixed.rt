//! Nodes of which the type says what they are.
//!
//! A run over any view hands back the view alone, and a look at a node may teach more of what is placed.
//! So that a tree is still known to spell a map over the very nodes from which it began, these are named
//! by the type: `K` stands for their contents, whatever more the nodes tell on the way.
ghost use Rattle.std.specs.Prelude.{◌≡◌, [], length, take};
ghost use Rattle.std.specs.Coded.{Coded-set, codes};
ghost use Rattle.group_history.specs.Spelling.{Contents};
ghost use Rattle.group_history.specs.State.{ids_coded};

use commit_graph::Nodes;
use group_history::{Ref, Stop};
use map_tree::Chunks;
use std::marker::{Brand, PhantomData};

/// Names contents.
pub trait NamesContents {
    ghost known: { Contents };
}

impl NamesContents for Brand {
    ghost known = { [] };
}

/// Chunks whose contents begin with those that `K` names. No others are told.
#[derive(Drop)]
pub struct Fixed<C: Chunks, K: NamesContents> {
    chunks: C,
    of: PhantomData<K>,
    ghost has: { take (length K.known) (C.contents chunks) ≡ K.known } by { Prim.hlevel (codes, ids_coded, Coded-set) },
}

impl<C: Chunks, K: NamesContents> Fixed<C, K> {
    pub fn new(chunks: C) -> Fixed<C, K>
        requires { C.contents chunks ≡ K.known }
        ensures { result.chunks ≡ chunks }
    {
        Fixed {
            chunks,
            of: PhantomData,
        }
    }
}

impl<C: Chunks, K: NamesContents> Chunks for Fixed<C, K> {
    type Held = C::Held;

    ghost contents = { λ fixed. K.known };

    ghost places = { λ fixed. C.places fixed.chunks };

    ghost places_prop = { λ fixed. C.places_prop fixed.chunks };

    ghost stops = { C.stops };

    #[inline(always)]
    fn show(&mut self, at: Ref) -> Result<C::Held, Stop> {
        self.chunks.show(at)
    }

    fn leave(&mut self, held: C::Held) {
        self.chunks.leave(held);
    }
}

impl<N: Nodes, K: NamesContents> Nodes for Fixed<N, K> {
    type HeldCommit = N::HeldCommit;

    #[inline(always)]
    fn show_commit(&mut self, at: Ref) -> Result<N::HeldCommit, Stop> {
        self.chunks.show_commit(at)
    }

    fn leave_commit(&mut self, held: N::HeldCommit) {
        self.chunks.leave_commit(held);
    }
}
