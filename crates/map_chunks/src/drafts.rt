//! Nodes that are to be placed together.
//!
//! A draft's nodes have the stamps from its first one on, children before parents, so that they can be
//! placed in their order. The references that a draft gives name stamps; a slot is not chosen yet, and
//! each bears the slot 0.
ghost use Rattle.std.specs.Prelude.{◌≡◌, ◌+◌, ◌⊎◌, ◌≤◌, ◌++◌, [], ◌∷◌, length, IfOk, IfErr, OnOk, OnErr, IfSome};
ghost use Rattle.std.specs.Prelude.{IfNone, take, ◌<◌};
ghost use Rattle.group_history.specs.Naming.{children, commit_children};
ghost use Rattle.group_history.specs.Refs.{stamps, stamp_of, slot_of};
ghost use Rattle.group_history.specs.declared.nodes.Node.TheVariants as node;
ghost use Rattle.group_history.specs.declared.refusals.Refusal.TheVariants as refusal;
ghost use Rattle.map_chunks.specs.Drafts.{AreBelow, AreChildrenBelow, IsLate, longest};

use group_history::{BoxedCommit, Commit, Node, Ref, Refusal, STAMPS};
use std::alloc::{AllocError, Global};
use std::marker::Model;

/// So many nodes the draft of a usual mutation has at most.
const USUAL: usize = 8;

/// So many nodes any draft has at most. They would take 192 GiB, and no group has slots for them.
const LONGEST: u64 = 1 << 32;

/// Nodes in the order of their stamps, and the first stamp. Each stands behind its children.
#[derive(Drop)]
pub struct Draft {
    first: u64,
    nodes: Vec<Node<Ref>>,
}

impl Model for Draft {
    ghost use Rattle.std.specs.Prelude.{◌≤◌, length};
    ghost use Rattle.map_chunks.specs.Drafts.{Drafted, AreChildrenBelow, longest};
    ghost use Rattle.group_history.specs.State.{ids_coded};
    ghost use Rattle.std.specs.Coded.{codes};

    ghost Value = { Drafted };

    ghost coded = { Prim.hlevel (codes, ids_coded) };

    ghost view = { λ d. record { first = d.first; nodes = d.nodes.items } };

    ghost invariant = { λ d. AreChildrenBelow d.first d.nodes.items × (length d.nodes.items ≤ longest) };
}

impl Draft {
    /// An empty draft, whose first node will have this stamp.
    pub fn new(alloc: Global, first: u64) -> Draft
        ensures { result ≡ record { first = first; nodes = [] } }
    {
        Draft {
            first,
            nodes: Vec::new(alloc),
        }
    }

    /// The stamp of its first node.
    pub fn first(&self) -> u64
        ensures { result ≡ self.now.first }
    {
        self.first
    }

    /// How many nodes it has.
    pub fn len(&self) -> u64
        ensures { result ≡ length self.now.nodes }
    {
        self.nodes.len() as u64
    }

    /// Appends a node, whose children have stamps below its own, and answers how it is named. Refused with
    /// Stamps where its stamp would be `STAMPS`, which is never so where more than 2^32 stamps are left.
    #[inline(always)]
    pub fn push(&mut self, node: Node<Ref>) -> Result<Ref, Refusal>
        requires children { AreBelow (self.old.first + length self.old.nodes) (children node) }
        ensures stamp { IfOk result (λ at. (stamp_of at ≡ self.old.first + length self.old.nodes) × (slot_of at ≡ 0)) }
        ensures ok { OnOk result (self.new ≡ record { first = self.old.first; nodes = self.old.nodes ++ node ∷ [] }) }
        ensures err { OnErr result (self.new ≡ self.old) }
        ensures why { IfErr result (λ e. (e ≡ refusal.NoMemory)
            ⊎ ((e ≡ refusal.Stamps) × (stamps ≤ self.old.first + length self.old.nodes))) }
        ensures late { IfErr result (λ e. e ≡ refusal.Stamps → IsLate self.old.first) }
    {
        let Some(stamp) = self.next() else {
            return Err(Refusal::Stamps);
        };
        if self.len() == LONGEST {
            return Err(Refusal::NoMemory);
        }
        make_room(&mut self.nodes)?;
        self.nodes.push(node)?;
        Ok(Ref::new(stamp, 0))
    }

    /// Appends a commit, as `push` does.
    #[inline(always)]
    pub fn push_commit(&mut self, commit: Commit<Ref>) -> Result<Ref, Refusal>
        requires children { AreBelow (self.old.first + length self.old.nodes) (commit_children commit) }
        ensures stamp { IfOk result (λ at. (stamp_of at ≡ self.old.first + length self.old.nodes) × (slot_of at ≡ 0)) }
        ensures ok { OnOk result (self.new ≡ record {
          first = self.old.first;
          nodes = self.old.nodes
              ++ node.Commit commit ∷ [];
        }) }
        ensures err { OnErr result (self.new ≡ self.old) }
        ensures why { IfErr result (λ e. (e ≡ refusal.NoMemory)
            ⊎ ((e ≡ refusal.Stamps) × (stamps ≤ self.old.first + length self.old.nodes))) }
        ensures late { IfErr result (λ e. e ≡ refusal.Stamps → IsLate self.old.first) }
    {
        let commit = BoxedCommit::new(*self.nodes.allocator(), commit)?;
        self.push(Node::Commit(commit))
    }

    /// Forgets the nodes from the place `len` on.
    pub fn truncate(&mut self, len: u64)
        ensures { self.new ≡ record { first = self.old.first; nodes = take len self.old.nodes } }
    {
        self.nodes.truncate(len as usize);
    }

    /// The nodes, in the order of their stamps.
    pub fn nodes(&self) -> &[Node<Ref>]
        ensures nodes { result.now ≡ self.now.nodes }
        ensures order { AreChildrenBelow self.now.first self.now.nodes }
        ensures len { length result.now ≤ longest }
    {
        &self.nodes
    }

    /// The same, by value.
    pub fn into_nodes(self) -> Vec<Node<Ref>>
        ensures nodes { result.items ≡ self.nodes }
        ensures order { AreChildrenBelow self.first self.nodes }
        ensures len { length result.items ≤ longest }
    {
        self.nodes
    }

    // The next stamp, if it is below `STAMPS`.
    fn next(&self) -> Option<u64>
        ensures some { IfSome result (λ stamp. (stamp ≡ self.now.first + length self.now.nodes) × (stamp < stamps)) }
        ensures none { IfNone result (stamps ≤ self.now.first + length self.now.nodes) }
    {
        let len = self.nodes.len() as u64;
        if self.first < STAMPS && len < STAMPS - self.first {
            Some(self.first + len)
        } else {
            None
        }
    }
}

// Makes room for the nodes of a usual mutation, before the first of them.
fn make_room(nodes: &mut Vec<Node<Ref>>) -> Result<(), AllocError>
    ensures { nodes.new.items ≡ nodes.old.items }
{
    if nodes.is_empty() {
        nodes.reserve_exact(USUAL)?;
    }
    Ok(())
}
