//! The commits of a vector of nodes.
ghost use Rattle.group_history.specs.declared.nodes.Commit.{Commit as Committed};
ghost use Rattle.commit_graph.specs.Inside.Kinds.{lent_commit};

use crate::nodes::{Nodes, ShowsCommit};
use group_history::{Commit, Node, Ref, Stop};
use map_chunks::Shelf;

/// A commit of a vector.
#[derive(Clone, Copy)]
pub struct LentCommit<'a> {
    commit: &'a Commit<Ref>,
}

impl<'a> ShowsCommit for LentCommit<'a> {
    ghost shown = { lent_commit };

    fn commit(&self) -> &Commit<Ref> {
        self.commit
    }
}

impl<'a> Nodes for Shelf<'a> {
    type HeldCommit = LentCommit<'a>;

    fn show_commit(&mut self, at: Ref) -> Result<LentCommit<'a>, Stop> {
        match self.nodes.at(at.stamp()) {
            Some(Node::Commit(commit)) => Ok(LentCommit {
                commit: commit.as_commit(),
            }),
            Some(Node::Chunk(_)) => Err(Stop::Gone),
            None => Err(Stop::Gone),
        }
    }

    fn leave_commit(&mut self, held: LentCommit<'a>) {
        let _ = held;
    }
}
