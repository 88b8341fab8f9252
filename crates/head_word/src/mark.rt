//! What a caller knows of the book.
//!
//! A `Mark` is a beginning of the book that was seen. It has no bytes but its seat's number: what it
//! knows stands in its model alone, where contracts read it. A seat's `Mark` bears the seat's tally as
//! well, which says how many entries of the seat the book has; so at each step of the seat the proofs
//! know which of the entries that came in meanwhile are its own: none but those that this very step added.
ghost use Rattle.std.specs.Prelude.{◌≡◌, ◌<◌, None, IfSome};
ghost use Rattle.head_word.specs.Books.{seats_of, IsOpened};
ghost use Rattle.head_word.specs.Marks.{known};

use crate::entry::{Answer, Entry};
use crate::law::Law;
use crate::tally::Tally;
use group_history::Means;
use logbook::Seen;
use std::marker::Model;

/// A seat's number, and its tally.
#[derive(Drop)]
pub struct MarkSeat {
    pub(crate) number: u64,
    pub(crate) tally: Tally,
}

/// What a mark has seen, without a seat. It has no bytes, so a store keeps one beside each node.
pub struct Sight<M: Means> {
    seen: Seen<Entry, Answer, Law<M>>,
}

impl<M: Means> Drop for Sight<M> {
    fn drop(self) {
        let Sight { seen } = self;
        drop(seen);
    }
}

impl<M: Means> Model for Sight<M> {
    ghost use Rattle.std.specs.Prelude.{None};
    ghost use Rattle.head_word.specs.Books.{IsOpened};
    ghost use Rattle.head_word.specs.Marks.{Known, known};
    ghost use Rattle.head_word.specs.contracts.entry.Entry as entry;
    ghost use Rattle.std.specs.Coded.{codes};

    ghost Value = { Known };

    ghost coded = { Prim.hlevel (codes, entry.the_row.coded) };

    ghost view = { λ s. known s.seen.book s.seen.log None };

    ghost invariant = { λ s. IsOpened M.means s.seen.log };
}

impl<M: Means> Sight<M> {
    /// A mark that has seen this, and has no seat.
    pub fn mark(&self) -> Mark<M>
        ensures { result ≡ self.now }
    {
        let seen = self.seen.again();
        Mark { seen, seat: None }
    }
}

/// A beginning of the book that was seen, and a seat, where the mark has one.
pub struct Mark<M: Means> {
    pub(crate) seen: Seen<Entry, Answer, Law<M>>,
    pub(crate) seat: Option<MarkSeat>,
}

impl<M: Means> Drop for Mark<M> {
    fn drop(self) {
        let Mark { seen, seat } = self;
        drop(seen);
        drop(seat);
    }
}

impl<M: Means> Model for Mark<M> {
    ghost use Rattle.head_word.specs.Books.{IsOpened};
    ghost use Rattle.head_word.specs.Marks.{Known, known};
    ghost use Rattle.head_word.specs.Inside.Seats.{number_of_seat, IfHasTally};
    ghost use Rattle.head_word.specs.contracts.entry.Entry as entry;
    ghost use Rattle.std.specs.Coded.{codes};

    ghost Value = { Known };

    ghost coded = { Prim.hlevel (codes, entry.the_row.coded) };

    ghost view = { λ m. known m.seen.book m.seen.log (number_of_seat m.seat) };

    ghost invariant = { λ m. IsOpened M.means m.seen.log × IfHasTally m.seen.names m.seen.log m.seat };
}

impl<M: Means> Mark<M> {
    /// What the mark has seen, with no seat: a copy can be learnt from, and adds nothing.
    pub fn copy(&self) -> Mark<M>
        ensures { result ≡ known self.now.book self.now.log None }
    {
        Mark {
            seen: self.seen.again(),
            seat: None,
        }
    }

    /// What the mark has seen, with no seat and no bytes.
    pub fn sight(&self) -> Sight<M>
        ensures { result ≡ known self.now.book self.now.log None }
    {
        let seen = self.seen.again();
        Sight { seen }
    }

    /// The number of its seat, where it has one.
    pub fn seat(&self) -> Option<u64>
        ensures { result ≡ self.now.seat }
    {
        match &self.seat {
            Some(seat) => Some(seat.number),
            None => None,
        }
    }

    /// What every mark has seen is a legal book, and its seat is one of the book's.
    pub fn legal(&self)
        ensures opened { IsOpened M.means self.now.log }
        ensures seat { IfSome self.now.seat (λ j. j < seats_of self.now.log) }
    {
        let _seen = &self.seen;
    }
}
