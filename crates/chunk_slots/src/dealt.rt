//! What an arena is opened with: the claims table and its seats, one of which places the opening's nodes.
ghost use Rattle.std.specs.Prelude.{ℕ, ◌≡◌, ◌⊎◌, ◌+◌, ◌<◌, ◌≤◌, IfOk, IfErr, length, map};
ghost use Rattle.std.specs.List.{All};
ghost use Rattle.group_history.specs.Refs.{max_slots, max_seats};
ghost use Rattle.group_history.specs.declared.refs.Ref.{Ref as Reference};
ghost use Rattle.group_history.specs.declared.refusals.Refusal.TheVariants.{NoMemory, Busy, Full};
ghost use Rattle.head_word.specs.Books.{book_opening};
ghost use Rattle.reader_claims.specs.Seats.{IsNew};
ghost use Rattle.chunk_slots.specs.Seats.{IsOpening};
ghost use Rattle.chunk_slots.specs.Inside.Openings.{HasBoth, IsSeatReady};

use crate::arena::Arena;
use crate::arena_seat::{ArenaSeat, seat_all};
use group_history::{Means, Refusal};
use head_word::Mark;
use reader_claims::Claims;
use std::alloc::Global;

/// A new claims table and its seats. The opener has taken the slots that the opening's nodes are for; the
/// others have taken none.
#[derive(Drop)]
pub(crate) struct Dealt {
    claims: Claims,
    others: Vec<ArenaSeat>,
    opener: ArenaSeat,
    leaf: u32,
    pub(crate) commit: u32,
    ghost unused: { All (IsNew claims) others.items },
    ghost both: { HasBoth claims leaf commit opener },
}

impl Dealt {
    pub(crate) fn new(alloc: Global, slots: u32, seats: u32) -> Result<Dealt, Refusal>
        requires slots { (16 ≤ slots) × (slots ≤ max_slots) }
        requires seats { (1 ≤ seats) × (seats ≤ max_seats) }
        ensures sizes { IfOk result (λ dealt. dealt.claims.sizes ≡ record { readers = seats; slots = slots }) }
        ensures seats { IfOk result (λ dealt. length dealt.others.items + 1 ≡ seats) }
        ensures err { IfErr result (λ e. (e ≡ NoMemory) ⊎ (e ≡ Full)) }
    {
        let (claims, seats) = Claims::new(alloc, slots, seats)?;
        let mut others = seat_all(alloc, &claims, seats)?;
        let Some(mut opener) = others.pop() else {
            unreachable!()
        };
        let Some((leaf, commit)) = opener.take_two(&claims) else {
            return Err(Refusal::Full);
        };
        Ok(Dealt {
            claims,
            others,
            opener,
            leaf,
            commit,
        })
    }

    /// The arena with the opening's nodes, and its seats, which are all idle. The opener's is the last.
    pub(crate) fn into_arena<M: Means>(
        self,
        alloc: Global,
        slots: u32,
        mark: &Mark<M>,
    ) -> Result<(Arena<M>, Vec<ArenaSeat>), Refusal>
        requires slots { (self.claims.sizes.slots ≡ slots) × (slots ≤ max_slots) }
        requires log { (seats : ℕ) × (at : Reference) × (mark.now.log ≡ book_opening seats at) }
        ensures claims { IfOk result (λ made. made.0.claims ≡ self.claims) }
        ensures book { IfOk result (λ made. made.0.book ≡ mark.now.book) }
        ensures count { IfOk result (λ made. length made.1.items ≡ length self.others.items + 1) }
        ensures seats { IfOk result (λ made. All (IsSeatReady made.0.claims) made.1.items) }
        ensures opening { IfOk result (λ made.
            IsOpening made.0.claims.sizes (map (λ seat. seat.view) made.1.items) self.commit) }
        ensures err { IfErr result (λ e. (e ≡ NoMemory) ⊎ (e ≡ Busy)) }
    {
        let Dealt {
            claims,
            mut others,
            mut opener,
            leaf,
            commit,
        } = self;
        let arena = Arena::new(alloc, claims, slots, mark)?;
        arena.fill_opening(alloc, mark, leaf, commit)?;
        opener.settle_both(&arena.claims, leaf, commit);
        others.push(opener)?;
        Ok((arena, others))
    }
}
