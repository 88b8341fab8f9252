//! The tally of a seat: how many entries of its own the book has. It has no bytes.
//!
//! The count of each key is cut in two parts, of which the book keeps one and the seat the other; it can
//! be set only where both meet, and that is inside a step. So a `Tally` goes into a step's `Offer` and comes
//! back at the book's count, and says that the count before the step was the one that it had. These four
//! functions do nothing when they run; the proofs beside them are by hand.
ghost use Rattle.std.specs.Prelude.{◌≡◌, ℕ, suc, ◌+◌, ◌-◌, ◌<◌, List, [], ◌∷◌, Some, None, replicate};
ghost use Rattle.logbook.specs.Kept.{pens_own};
ghost use Rattle.head_word.specs.Tallies.{key_of};
ghost use Rattle.head_word.specs.Inside.Parts.{tally_name, key_end, tally_owns, told_key, told_count};
ghost use Rattle.head_word.specs.declared.entry.Answer.{Answer};

use crate::entry::{Answer, Entry};
use crate::law::{Law, Traded};
use group_history::Means;
use logbook::{Gained, Offer, Plain, Start};
use std::marker::{Model, PhantomData};

/// A part of the tally of one key. It has no bytes.
pub struct Tally {
    marker: PhantomData<()>,
    pub ghost names: { List ℕ },
    pub ghost key: { ℕ },
    pub ghost count: { ℕ },
}

impl Model for Tally {
    ghost also_owns = { λ t. tally_owns t.names t.key t.count };
}

/// The tallies of the keys from `next` on, which have added nothing.
pub struct Tallies {
    marker: PhantomData<()>,
    pub ghost names: { List ℕ },
    pub ghost next: { ℕ },
    pub ghost left: { ℕ },
}

impl Model for Tallies {
    ghost also_owns = { λ t. pens_own (tally_name t.names) t.next t.left };
}

impl Tallies {
    /// What clients of a new book keep, and the tallies of so many keys.
    pub fn open<M: Means>(keys: u64) -> (Start<Entry, Answer, Law<M>>, Tallies)
        ensures { (result.0.shown ≡ []) × (result.0.names ≡ result.1.names) × (key_end result.1.names ≡ keys)
            × (result.1.next ≡ 0) × (result.1.left ≡ keys) }
    {
        let _ = keys;
        (
            Start {
                marker: PhantomData,
            },
            Tallies {
                marker: PhantomData,
            },
        )
    }

    pub fn take(&mut self) -> Tally
        requires { 0 < self.old.left }
        ensures tally { (result.names ≡ self.old.names) × (result.key ≡ self.old.next) × (result.count ≡ 0) }
        ensures rest { (self.new.names ≡ self.old.names) × (self.new.next ≡ self.old.next + 1)
            × (self.new.left ≡ self.old.left - 1) }
    {
        Tally {
            marker: PhantomData,
        }
    }
}

impl Tally {
    /// The tally goes into an offer, for one step.
    pub fn offered<M: Means, X, P: Plain<X, Entry, Answer>>(
        self,
        about: &X,
    ) -> Offer<Entry, Answer, Law<M>, Traded>
        requires { (key_of (P.ask about.now) ≡ self.key) × (self.key < key_end self.names) }
        ensures { (result.names ≡ self.names) × (result.ask ≡ P.ask about.now)
            × (result.about ≡ P.ask about.now ∷ replicate self.count (P.ask about.now)) × (result.state ≡ None) }
    {
        let Self { marker: _ } = self;
        Offer {
            marker: PhantomData,
        }
    }

    /// And comes back.
    pub fn regained(gained: Gained<Entry, Answer, Traded>) -> Tally
        ensures { (result.names ≡ gained.names) × (result.key ≡ told_key gained.about)
            × (result.count ≡ gained.answer.after) × (gained.answer.before ≡ told_count gained.about) }
    {
        let Gained { marker: _ } = gained;
        Tally {
            marker: PhantomData,
        }
    }
}

impl Drop for Tally {
    fn drop(self) {
        let Self { marker: _ } = self;
    }
}

impl Drop for Tallies {
    fn drop(self) {
        let Self { marker: _ } = self;
    }
}

unsafe impl Send for Tally {}

unsafe impl Sync for Tally {}

unsafe impl Send for Tallies {}
