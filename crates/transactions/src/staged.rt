//! What is placed, and the nodes of a draft that will stand behind it, shown as one.
//!
//! A stamp below the draft's first is looked for among what is placed, which `K` names, and every other one
//! in the draft. So a run goes on over what an earlier one drafted. A drafted chunk is never refused, and
//! a placed one only as the chunks below stop.
ghost use Rattle.std.specs.Prelude.{◌≡◌, ◌-◌, length, slice_get};
ghost use Rattle.std.specs.Coded.{Unit-prop, Π_prop};
ghost use Rattle.std.specs.Option.{option_copied};
ghost use Rattle.group_history.specs.declared.refs.Ref.{Ref as Reference};
ghost use Rattle.map_chunks.specs.Places.{with_nodes};

use crate::fixed::{Fixed, NamesContents};
use group_history::{Chunk, Node, Ref, Stop};
use map_tree::{Chunks, Draft, ShowsChunk};

/// A chunk that is placed, or one of the draft.
pub enum HeldStaged<'a, H> {
    Placed(H),
    Drafted(&'a Chunk<Ref>),
}

impl<'a, H: ShowsChunk> ShowsChunk for HeldStaged<'a, H> {
    ghost use Rattle.transactions.specs.Staging.{shown_in};

    ghost shown = { shown_in H.shown };

    fn chunk(&self) -> &Chunk<Ref> {
        match self {
            HeldStaged::Placed(held) => held.chunk(),
            HeldStaged::Drafted(chunk) => chunk,
        }
    }
}

/// Shows chunks that `K` names, and those of a draft behind them. Any reference may be looked for.
#[derive(Drop)]
pub struct Staged<'a, C: Chunks, K: NamesContents> {
    chunks: Fixed<C, K>,
    draft: &'a Draft,
    ghost behind: { draft.now.first ≡ length K.known },
    ghost everywhere: { (at : Reference) → C.places chunks.chunks at } by { Π_prop (C.places_prop chunks.chunks) },
}

impl<'a, C: Chunks, K: NamesContents> Staged<'a, C, K> {
    /// The draft's first node has the stamp behind the last that `K` names.
    pub fn new(chunks: C, draft: &'a Draft) -> Staged<'a, C, K>
        requires known { C.contents chunks ≡ K.known }
        requires behind { draft.now.first ≡ length K.known }
        requires places { (at : Reference) → C.places chunks at }
        ensures { result.draft.now ≡ draft.now }
    {
        Staged {
            chunks: Fixed::<C, K>::new(chunks),
            draft,
        }
    }

    // The draft's node with this stamp.
    fn drafted(&self, stamp: u64) -> Option<&'a Node<Ref>>
        ensures { option_copied result ≡ slice_get self.now.draft.now.nodes (stamp - self.now.draft.now.first) }
    {
        let first = self.draft.first();
        self.draft.nodes().get(stamp.saturating_sub(first) as usize)
    }
}

impl<'a, C: Chunks, K: NamesContents> Chunks for Staged<'a, C, K> {
    type Held = HeldStaged<'a, C::Held>;

    ghost contents = { λ staged. with_nodes K.known staged.draft.now.nodes };

    ghost places = { λ staged at. Unit {0} };

    ghost places_prop = { λ _ at. Unit-prop };

    ghost stops = { C.stops };

    #[inline(always)]
    fn show(&mut self, at: Ref) -> Result<HeldStaged<'a, C::Held>, Stop> {
        let stamp = at.stamp();
        if stamp < self.draft.first() {
            let held = self.chunks.show(at)?;
            return Ok(HeldStaged::Placed(held));
        }
        match self.drafted(stamp) {
            Some(Node::Chunk(chunk)) => {
                return Ok(HeldStaged::Drafted(chunk));
            }
            Some(Node::Commit(_)) => unreachable!(),
            None => unreachable!(),
        }
    }

    fn leave(&mut self, held: HeldStaged<'a, C::Held>) {
        match held {
            HeldStaged::Placed(held) => {
                self.chunks.leave(held);
            }
            HeldStaged::Drafted(_) => {}
        }
    }
}
