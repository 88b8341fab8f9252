//! What shows the nodes that were placed: chunks, and commits.
ghost use Rattle.std.specs.Prelude.{◌≡◌, Some, IfOk, IfErr, IsSome, slice_get};
ghost use Rattle.group_history.specs.Refs.{stamp_of};
ghost use Rattle.group_history.specs.Naming.{commit_content, commit_children};
ghost use Rattle.map_chunks.specs.Places.{Grows, AreAll};
ghost use Rattle.group_history.specs.Spelling.{version_at};
ghost use Rattle.group_history.specs.declared.nodes.Commit.{Commit as Committed};
ghost use Rattle.group_history.specs.declared.refs.Ref.{Ref as Reference};

use group_history::{Commit, Ref, Stop};
use map_chunks::Chunks;

/// A commit that is being shown.
pub trait ShowsCommit {
    ghost shown: { Self → Committed Reference };

    /// The commit.
    fn commit(&self) -> &Commit<Ref>
        ensures { result.now ≡ shown self.now };
}

/// Where placed nodes are read. A node never changes once it is placed.
pub trait Nodes: Chunks {
    /// A commit that is being shown, until it is given back.
    type HeldCommit: ShowsCommit;

    /// Shows the commit of the reference's stamp, which is left again by `leave_commit`.
    fn show_commit(&mut self, at: Ref) -> Result<Self::HeldCommit, Stop>
        requires known { IsSome (version_at (Self.contents self.old) (stamp_of at)) }
        requires place { Self.places self.old at }
        ensures grown { Grows Self.contents Self.places self.old self.new }
        ensures content { IfOk result (λ held. slice_get (Self.contents self.new) (stamp_of at)
            ≡ Some (commit_content (Self.HeldCommit.shown held))) }
        ensures children { IfOk result (λ held. AreAll (Self.places self.new)
            (commit_children (Self.HeldCommit.shown held))) }
        ensures stopped { IfErr result Self.stops };

    /// Gives back what `show_commit` answered.
    fn leave_commit(&mut self, held: Self::HeldCommit)
        ensures { self.new ≡ self.old };
}
