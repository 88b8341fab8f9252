//! The steps of a seat on the two words, one for each function. The tally goes into the step's offer and
//! comes back, also where the step is a look or an exchange that is lost.
ghost use Rattle.std.specs.Prelude.{◌≡◌, ◌≢◌, ◌+◌, ◌≤◌, ◌++◌, ◌∷◌, [], List, Some, IsSome, MatchBool, if◌then◌else◌};
ghost use Rattle.std.specs.Prelude.{length};
ghost use mathlib.Core.List.{IsPrefix};
ghost use Rattle.group_history.specs.declared.nodes.Child.{Child};
ghost use Rattle.group_history.specs.declared.nodes.Node.{Node};
ghost use Rattle.group_history.specs.Refs.{stamps};
ghost use Rattle.head_word.specs.declared.entry.Entry.{Entry};
ghost use Rattle.head_word.specs.Books.{last_move, next_stamp, drawn, drafted, moved, AreAfter, IsChangeFrom, IsOpened};
ghost use Rattle.head_word.specs.Marks.{own};

use crate::asks::{Asks, LookAsk, Proposed};
use crate::entry::{Answer, Entry};
use crate::head::Head;
use crate::law::{AddsDraft, AddsMove, CountsAtDrafts, Traded};
use crate::mark::{Mark, MarkSeat};
use crate::tally::Tally;
use group_history::{Change, Means, Ref};
use logbook::Plain;

impl<M: Means> Head<M> {
    /// The first stamp not drawn.
    pub fn next(&self, mark: &mut Mark<M>) -> u64
        requires book { mark.old.book ≡ self.now }
        requires seat { IsSome mark.old.seat }
        ensures book { mark.new.book ≡ mark.old.book }
        ensures seat { mark.new.seat ≡ mark.old.seat }
        ensures seen { IsPrefix mark.old.log mark.new.log }
        ensures next { result ≡ next_stamp mark.new.log }
        ensures own { own mark.new ≡ own mark.old }
    {
        let Some(seat) = mark.seat.take() else {
            return 0;
        };
        let MarkSeat { number, tally } = seat;
        let mut offer = tally.offered::<M, LookAsk, Asks>(&LookAsk { by: Some(number) });
        let next = self
            .draft_word
            .load::<CountsAtDrafts<M>, Traded>(&mut mark.seen, &mut offer);
        mark.seat = Some(MarkSeat {
            number,
            tally: Tally::regained(offer.into_gain()),
        });
        next
    }

    /// The exchange of the draft word, for so many contents. It says whether it added the draft.
    pub(crate) fn add_draft<X, P: Plain<X, Entry, Answer>>(
        &self,
        mark: &mut Mark<M>,
        first: u64,
        count: u64,
        about: &X,
    ) -> bool
        requires book { mark.old.book ≡ self.now }
        requires seat { IsSome mark.old.seat }
        requires room { first + count ≤ stamps }
        requires asked { (contents : List (Node Child)) × (P.ask about.now ≡ drafted mark.old.seat first contents)
            × (length contents ≡ count) × AreAfter (next_stamp mark.old.log) 0 contents }
        ensures book { mark.new.book ≡ mark.old.book }
        ensures seat { mark.new.seat ≡ mark.old.seat }
        ensures seen { IsPrefix mark.old.log mark.new.log }
        ensures added { MatchBool result ((log : List Entry) × IsPrefix mark.old.log log × (next_stamp log ≡ first)
            × (mark.new.log ≡ log ++ P.ask about.now ∷ [])) (next_stamp mark.new.log ≢ first) }
        ensures own { own mark.new ≡ own mark.old ++ (if result then P.ask about.now ∷ [] else []) }
    {
        let Some(seat) = mark.seat.take() else {
            return false;
        };
        let MarkSeat { number, tally } = seat;
        let mut offer = tally.offered::<M, X, P>(about);
        let mut pen = mark.seen.no_pen();
        let found = self
            .draft_word
            .compare_exchange::<AddsDraft<M>, Traded>(
                first,
                first + count,
                &mut mark.seen,
                &mut offer,
                &mut pen,
            );
        mark.seat = Some(MarkSeat {
            number,
            tally: Tally::regained(offer.into_gain()),
        });
        found == first
    }

    /// The exchange of the head word. It says whether it added the move.
    pub(crate) fn add_move(&self, mark: &mut Mark<M>, base: Ref, new: Ref, change: &Change) -> bool
        requires book { mark.old.book ≡ self.now }
        requires seat { IsSome mark.old.seat }
        requires follows { IsChangeFrom M.means (drawn mark.old.log) base new change.now }
        ensures book { mark.new.book ≡ mark.old.book }
        ensures seat { mark.new.seat ≡ mark.old.seat }
        ensures seen { IsPrefix mark.old.log mark.new.log }
        ensures added { MatchBool result ((log : List Entry) × IsPrefix mark.old.log log × IsOpened M.means log
            × (last_move log ≡ base) × (mark.new.log ≡ log ++ moved mark.old.seat new change.now ∷ []))
            (last_move mark.new.log ≢ base) }
        ensures own { own mark.new ≡ own mark.old
            ++ (if result then moved mark.old.seat new change.now ∷ [] else []) }
    {
        let Some(seat) = mark.seat.take() else {
            return false;
        };
        let MarkSeat { number, tally } = seat;
        let mut offer = tally.offered::<M, Proposed, Asks>(&Proposed {
            by: Some(number),
            to: new,
            change,
        });
        let mut pen = mark.seen.no_pen();
        let from = base.bits();
        let to = new.bits();
        let found = self
            .head_word
            .compare_exchange::<AddsMove<M>, Traded>(
                from,
                to,
                &mut mark.seen,
                &mut offer,
                &mut pen,
            );
        mark.seat = Some(MarkSeat {
            number,
            tally: Tally::regained(offer.into_gain()),
        });
        found == from
    }
}
