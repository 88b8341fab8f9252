//! The rule that every step on the two words keeps, and what each kind of step tells.
use crate::entry::{Answer, Entry};
use group_history::Means;
use logbook::{Gain, Play, Rule};
use std::marker::PhantomData;

/// The rule of the book. Which records are legal depends on what the mutators mean.
pub struct Law<M: Means> {
    of: PhantomData<M>,
}

impl<M: Means> Rule<Entry, Answer> for Law<M> {
    ghost use Rattle.std.specs.Prelude.{[]};
    ghost use Rattle.head_word.specs.Rules.{IsKept};
    ghost use Rattle.head_word.specs.Inside.Parts.{kept_tallies, Trades};

    ghost holds = { λ cells log. IsKept M.means cells log };

    ghost first = { [] };

    ghost hinted = { λ n log. Unit {0} };

    ghost shows = { λ log. log };

    ghost keeps = { λ names log. kept_tallies names log };

    ghost moves = { λ ask before after answer. Trades ask before after answer };
}

/// Callers trade nothing.
pub struct Nothing;

impl Gain<Entry, Answer> for Nothing {
    ghost use base.Fml.{ftrue};

    ghost after = { λ names about answer. ftrue };
}

/// A seat's tally comes back.
pub struct Traded;

impl Gain<Entry, Answer> for Traded {
    ghost use Rattle.head_word.specs.Inside.Parts.{traded};

    ghost after = { λ names about answer. traded names about answer };
}

/// The opening move.
pub struct Opens;

impl Play<Entry, Answer> for Opens {
    ghost use Rattle.head_word.specs.Inside.Steps.{step_tells, OpensBook};

    ghost then = { step_tells OpensBook };
}

/// A look at the head word by no seat.
pub struct LooksAtHead<M: Means> {
    of: PhantomData<M>,
}

impl<M: Means> Play<Entry, Answer> for LooksAtHead<M> {
    ghost use Rattle.head_word.specs.Rules.{head_says};
    ghost use Rattle.head_word.specs.Inside.Steps.{step_tells, LooksAtBook};

    ghost then = { step_tells (LooksAtBook head_says M.means) };
}

/// A seat's look at the head word.
pub struct CountsAtHead<M: Means> {
    of: PhantomData<M>,
}

impl<M: Means> Play<Entry, Answer> for CountsAtHead<M> {
    ghost use Rattle.head_word.specs.Rules.{head_says};
    ghost use Rattle.head_word.specs.Inside.Steps.{step_tells, CountsEntries};

    ghost then = { step_tells (CountsEntries head_says M.means) };
}

/// A seat's look at the draft word.
pub struct CountsAtDrafts<M: Means> {
    of: PhantomData<M>,
}

impl<M: Means> Play<Entry, Answer> for CountsAtDrafts<M> {
    ghost use Rattle.head_word.specs.Rules.{drafts_say};
    ghost use Rattle.head_word.specs.Inside.Steps.{step_tells, CountsEntries};

    ghost then = { step_tells (CountsEntries drafts_say M.means) };
}

/// An exchange of the draft word.
pub struct AddsDraft<M: Means> {
    of: PhantomData<M>,
}

impl<M: Means> Play<Entry, Answer> for AddsDraft<M> {
    ghost use Rattle.head_word.specs.Rules.{drafts_say};
    ghost use Rattle.head_word.specs.Inside.Steps.{step_tells, Exchanges};

    ghost then = { step_tells (Exchanges drafts_say M.means) };
}

/// An exchange of the head word.
pub struct AddsMove<M: Means> {
    of: PhantomData<M>,
}

impl<M: Means> Play<Entry, Answer> for AddsMove<M> {
    ghost use Rattle.head_word.specs.Rules.{head_says};
    ghost use Rattle.head_word.specs.Inside.Steps.{step_tells, Exchanges};

    ghost then = { step_tells (Exchanges head_says M.means) };
}
