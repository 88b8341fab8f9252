//! Nodes in a vector, by stamp: the simplest place where chunks are placed.
//!
//! A node's place in the vector is its stamp, and the slot that a reference names is not looked at.
ghost use Rattle.std.specs.Prelude.{◌≡◌, ◌++◌, [], ◌∷◌, map, length, slice_get, OnOk, OnErr};
ghost use Rattle.std.specs.Coded.{Unit-prop};
ghost use Rattle.std.specs.Option.{option_copied};
ghost use Rattle.group_history.specs.Naming.{content_of};

use crate::chunks::{Chunks, ShowsChunk};
use crate::drafts::Draft;
use group_history::{Chunk, Node, Ref, Stop};
use std::alloc::{AllocError, Global};
use std::marker::Model;

/// A vector of chunks, and of the other nodes that were drafted beside them.
#[derive(Drop)]
pub struct VecChunks {
    nodes: Vec<Node<Ref>>,
}

impl Model for VecChunks {
    ghost use Rattle.std.specs.Prelude.{List};
    ghost use Rattle.group_history.specs.declared.nodes.Node.{Node as Noded};
    ghost use Rattle.group_history.specs.declared.refs.Ref.{Ref as Reference};
    ghost use Rattle.group_history.specs.State.{ids_coded};
    ghost use Rattle.std.specs.Coded.{codes};

    ghost Value = { List (Noded Reference) };

    ghost coded = { Prim.hlevel (codes, ids_coded) };

    ghost view = { λ v. v.nodes.items };
}

impl VecChunks {
    /// A vector without nodes.
    pub fn new(alloc: Global) -> VecChunks
        ensures { result ≡ [] }
    {
        VecChunks {
            nodes: Vec::new(alloc),
        }
    }

    /// How many nodes there are: the next stamp.
    pub fn len(&self) -> u64
        ensures { result ≡ length self.now }
    {
        self.nodes.len() as u64
    }

    /// A draft for the nodes behind these.
    pub fn draft(&self, alloc: Global) -> Draft
        ensures { result ≡ record { first = length self.now; nodes = [] } }
    {
        Draft::new(alloc, self.len())
    }

    /// Appends a draft's nodes, all or none.
    pub fn append(&mut self, draft: Draft) -> Result<(), AllocError>
        requires { draft.first ≡ length self.old }
        ensures ok { OnOk result (self.new ≡ self.old ++ draft.nodes) }
        ensures err { OnErr result (self.new ≡ self.old) }
    {
        let mut nodes = draft.into_nodes();
        self.nodes.append(&mut nodes)?;
        Ok(())
    }

    /// The node with this stamp.
    pub fn at(&self, stamp: u64) -> Option<&Node<Ref>>
        ensures { option_copied result ≡ slice_get self.now stamp }
    {
        self.nodes.get(stamp as usize)
    }

    /// What shows the nodes.
    pub fn shelf(&self) -> Shelf<'_>
        ensures { result.nodes.now ≡ self.now }
    {
        Shelf { nodes: self }
    }
}

/// Shows the nodes of a vector. No node that is there is ever refused.
#[derive(Clone, Copy)]
pub struct Shelf<'a> {
    pub nodes: &'a VecChunks,
}

/// A chunk of a vector.
#[derive(Clone, Copy)]
pub struct Lent<'a> {
    pub(crate) chunk: &'a Chunk<Ref>,
}

impl<'a> ShowsChunk for Lent<'a> {
    ghost shown = { λ lent. lent.chunk.now };

    fn chunk(&self) -> &Chunk<Ref> {
        self.chunk
    }
}

impl<'a> Chunks for Shelf<'a> {
    type Held = Lent<'a>;

    ghost contents = { λ shelf. map content_of shelf.nodes.now };

    ghost places = { λ shelf at. Unit {0} };

    ghost places_prop = { λ _ at. Unit-prop };

    ghost stops = { λ stop. ⊥ };

    fn show(&mut self, at: Ref) -> Result<Lent<'a>, Stop> {
        match self.nodes.at(at.stamp()) {
            Some(Node::Chunk(chunk)) => Ok(Lent { chunk }),
            Some(Node::Commit(_)) => Err(Stop::Gone),
            None => Err(Stop::Gone),
        }
    }

    fn leave(&mut self, held: Lent<'a>) {
        let _ = held;
    }
}
