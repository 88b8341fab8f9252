//! What shows the chunks that were placed.
ghost use Rattle.std.specs.Prelude.{◌≡◌, Some, IfOk, IfErr, IsSome, slice_get};
ghost use Rattle.group_history.specs.Refs.{stamp_of};
ghost use Rattle.group_history.specs.Naming.{chunk_content, chunk_children};
ghost use Rattle.group_history.specs.Spelling.{Contents, segment_at};
ghost use Rattle.group_history.specs.declared.nodes.Chunk.{Chunk as Chunked};
ghost use Rattle.group_history.specs.declared.refs.Ref.{Ref as Reference};
ghost use Rattle.group_history.specs.declared.mutators.Stop.{Stop as Stopped};
ghost use Rattle.map_chunks.specs.Places.{Grows, AreAll};

use group_history::{Chunk, Ref, Stop};

/// A chunk that is being shown.
pub trait ShowsChunk {
    ghost shown: { Self → Chunked Reference };

    /// The chunk.
    fn chunk(&self) -> &Chunk<Ref>
        ensures { result.now ≡ shown self.now };
}

/// Where placed chunks are read. A chunk never changes once it is placed.
pub trait Chunks {
    /// A chunk that is being shown, until it is given back.
    type Held: ShowsChunk;

    /// What is known to be placed, by stamp. It only grows.
    ghost contents: { Self → Contents };

    /// At which references a chunk may be looked for, their slots too. What was one stays one.
    ghost places: { Self → Reference → Type 0 };

    /// That this is a proposition, so that a type can keep it.
    ghost places_prop: { (s : Self) (at : Reference) → IsProp (places s at) };

    /// For which reasons a chunk may not be shown.
    ghost stops: { Stopped → Type 0 };

    /// Shows the chunk of the reference's stamp, which is left again by `leave`.
    fn show(&mut self, at: Ref) -> Result<Self::Held, Stop>
        requires known { IsSome (segment_at (contents self.old) (stamp_of at)) }
        requires place { places self.old at }
        ensures grown { Grows contents places self.old self.new }
        ensures content { IfOk result (λ held. slice_get (contents self.new) (stamp_of at)
            ≡ Some (chunk_content (Self.Held.shown held))) }
        ensures children { IfOk result (λ held. AreAll (places self.new) (chunk_children (Self.Held.shown held))) }
        ensures stopped { IfErr result stops };

    /// Gives back what `show` answered.
    fn leave(&mut self, held: Self::Held)
        ensures { self.new ≡ self.old };
}
