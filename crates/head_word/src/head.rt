//! The shared head of a group: its present commit, and the stamps that are drawn.
//!
//! Threads share two words. The head word is the `Ref` of the commit where the last change led; the draft
//! word is the first stamp that nobody drew. There are four kinds of step, and each is one load or one
//! exchange: a load of either word; an exchange of the draft word from `n` to `n + k`, which draws the
//! stamps from `n` on for `k` new nodes; and an exchange of the head word from `base` to `new`, by the
//! change that leads from the one's state to the other's.
//!
//! In the proofs the two words stand for one list, the book, which only grows: a draw adds the draft with
//! its nodes, a move of the head adds the move with its change. So the words say everything about the
//! book that a step needs: the head word is the last move's, and the draft word counts the nodes. Since
//! a stamp is never drawn again, a commit's state never changes, and a publisher who finds its base in
//! the head word knows that no change came between: the change that it checked at `base` still fits.
//!
//! What a caller knows of the book is its `Mark`: a beginning of it. A seat's `Mark` bears the seat's tally
//! as well, the count of its own entries. The other half of each count lies with the book, so only the
//! seat itself can raise it. Each step of a seat, also a look or an exchange that was lost, hands the tally
//! over and takes it back at the book's own count; so a call proves not just what it added, but that it
//! added nothing else, and an exchange that is lost leaves the tally as it was.
ghost use Rattle.std.specs.Prelude.{◌≡◌, ◌≢◌, ◌+◌, ◌<◌, ◌≤◌, ◌++◌, ◌∷◌, [], List, Some, IsSome, IfOk, IfErr, length};
ghost use mathlib.Core.List.{IsPrefix};
ghost use Rattle.group_history.specs.Refs.{stamps};
ghost use Rattle.head_word.specs.declared.entry.Entry.{Entry};
ghost use Rattle.head_word.specs.Books.{last_move, next_stamp, drawn, drafted, moved, AreAfter, IsChangeFrom, IsOpened};
ghost use Rattle.head_word.specs.Books.{drafted_from};
ghost use Rattle.head_word.specs.Marks.{own, others};

use crate::asks::{Asks, Idle, LookAsk, Wanted};
use crate::entry::{Answer, Entry};
use crate::law::{CountsAtHead, Law, LooksAtHead, Nothing, Traded};
use crate::lost::{Lost, Moved};
use crate::mark::{Mark, MarkSeat};
use crate::tally::Tally;
use group_history::{Change, Means, Node, Ref, STAMPS};
use logbook::{Offer, Word};
use std::marker::Model;

/// The two words that all threads share. Contracts see which book they are of.
#[derive(Drop)]
pub struct Head<M: Means> {
    pub(crate) head_word: Word<Entry, Answer, Law<M>>,
    pub(crate) draft_word: Word<Entry, Answer, Law<M>>,
}

impl<M: Means> Model for Head<M> {
    ghost use Rattle.std.specs.Prelude.{◌≡◌};
    ghost use Rattle.logbook.specs.Pages.{Book, book_coded};
    ghost use Rattle.head_word.specs.Rules.{head_key, drafts_key, word_of};

    ghost Value = { Book };

    ghost coded = { book_coded };

    ghost view = { λ h. h.head_word.book };

    ghost invariant = { λ h. (h.head_word ≡ word_of head_key h.head_word.book)
        × (h.draft_word ≡ word_of drafts_key h.head_word.book) };
}

impl<M: Means> Head<M> {
    /// Where the last move of the book went. A mark without a seat may look as well.
    pub fn load(&self, mark: &mut Mark<M>) -> Ref
        requires book { mark.old.book ≡ self.now }
        ensures book { mark.new.book ≡ mark.old.book }
        ensures seat { mark.new.seat ≡ mark.old.seat }
        ensures seen { IsPrefix mark.old.log mark.new.log }
        ensures last { result ≡ last_move mark.new.log }
        ensures own { own mark.new ≡ own mark.old }
    {
        match mark.seat.take() {
            Some(seat) => {
                let MarkSeat { number, tally } = seat;
                let mut offer = tally.offered::<M, LookAsk, Asks>(&LookAsk { by: Some(number) });
                let bits = self
                    .head_word
                    .load::<CountsAtHead<M>, Traded>(&mut mark.seen, &mut offer);
                mark.seat = Some(MarkSeat {
                    number,
                    tally: Tally::regained(offer.into_gain()),
                });
                Ref::from_bits(bits)
            }
            None => {
                let mut offer: Offer<Entry, Answer, Law<M>, Nothing> = mark
                    .seen
                    .plain::<Nothing, LookAsk, Idle>(&LookAsk { by: None });
                Ref::from_bits(
                    self.head_word
                        .load::<LooksAtHead<M>, Nothing>(&mut mark.seen, &mut offer),
                )
            }
        }
    }

    /// Draws a stamp for each of the nodes, in order, and answers the first. Among themselves the nodes are
    /// numbered from `from` on: a node names a child whose stamp is lower by its `Ref`, which was drawn
    /// before, and one that is drawn with it by its number, and that one stands earlier. It is `Moved` where
    /// another seat drew stamps meanwhile, and `Stamps` where the group would have drawn all of its `STAMPS`.
    pub fn draft(&self, mark: &mut Mark<M>, from: u64, nodes: &[Node<Ref>]) -> Result<u64, Lost>
        requires book { mark.old.book ≡ self.now }
        requires seat { IsSome mark.old.seat }
        requires some { 0 < length nodes.now }
        requires children { AreAfter (next_stamp mark.old.log) 0 (drafted_from from nodes.now) }
        ensures book { mark.new.book ≡ mark.old.book }
        ensures seat { mark.new.seat ≡ mark.old.seat }
        ensures seen { IsPrefix mark.old.log mark.new.log }
        ensures drawn { IfOk result (λ first. (log : List Entry) × IsPrefix mark.old.log log × (next_stamp log ≡ first)
            × (mark.new.log ≡ log ++ drafted mark.old.seat first (drafted_from from nodes.now) ∷ [])) }
        ensures room { IfOk result (λ first. first + length nodes.now < stamps) }
        ensures once { IfOk result (λ first. own mark.new
            ≡ own mark.old ++ drafted mark.old.seat first (drafted_from from nodes.now) ∷ []) }
        ensures nothing { IfErr result (λ _. own mark.new ≡ own mark.old) }
        ensures moved { IfErr result (λ e. e ≡ Lost.Moved → length mark.old.log < length mark.new.log) }
        ensures others { IfErr result (λ e. e ≡ Lost.Moved → others mark.old < others mark.new) }
        ensures stamps { IfErr result (λ e. e ≡ Lost.Stamps → stamps ≤ next_stamp mark.new.log + length nodes.now) }
    {
        let first = self.next(mark);
        if nodes.len() as u64 >= STAMPS.saturating_sub(first) {
            return Err(Lost::Stamps);
        }
        let wanted = Wanted {
            by: mark.seat(),
            first,
            from,
            nodes,
        };
        if self.add_draft::<Wanted, Asks>(mark, first, nodes.len() as u64, &wanted) {
            Ok(first)
        } else {
            Err(Lost::Moved)
        }
    }

    /// Moves the head from `base` to `new`, by the change that leads from the one's state to the other's.
    pub fn publish(
        &self,
        mark: &mut Mark<M>,
        base: Ref,
        new: Ref,
        change: &Change,
    ) -> Result<(), Moved>
        requires book { mark.old.book ≡ self.now }
        requires seat { IsSome mark.old.seat }
        requires follows { IsChangeFrom M.means (drawn mark.old.log) base new change.now }
        ensures book { mark.new.book ≡ mark.old.book }
        ensures seat { mark.new.seat ≡ mark.old.seat }
        ensures seen { IsPrefix mark.old.log mark.new.log }
        ensures won { IfOk result (λ _. (log : List Entry) × IsPrefix mark.old.log log × IsOpened M.means log
            × (last_move log ≡ base) × (mark.new.log ≡ log ++ moved mark.old.seat new change.now ∷ [])) }
        ensures once { IfOk result (λ _. own mark.new
            ≡ own mark.old ++ moved mark.old.seat new change.now ∷ []) }
        ensures nothing { IfErr result (λ _. own mark.new ≡ own mark.old) }
        ensures moved { IfErr result (λ _. last_move mark.new.log ≢ base) }
    {
        if self.add_move(mark, base, new, change) {
            Ok(())
        } else {
            Err(Moved)
        }
    }

    /// Afterwards the mark knows what both knew. A mark with a seat loads the head as well.
    pub fn learn(&self, mark: &mut Mark<M>, other: &Mark<M>)
        requires book { mark.old.book ≡ self.now }
        requires other { other.now.book ≡ self.now }
        ensures book { mark.new.book ≡ mark.old.book }
        ensures seat { mark.new.seat ≡ mark.old.seat }
        ensures seen { IsPrefix mark.old.log mark.new.log }
        ensures other { IsPrefix other.now.log mark.new.log }
        ensures own { own mark.new ≡ own mark.old }
    {
        let Some(seat) = mark.seat.take() else {
            mark.seen.learn(&other.seen);
            return;
        };
        let MarkSeat { number, tally } = seat;
        mark.seen.learn(&other.seen);
        let mut offer = tally.offered::<M, LookAsk, Asks>(&LookAsk { by: Some(number) });
        let _ = self
            .head_word
            .load::<CountsAtHead<M>, Traded>(&mut mark.seen, &mut offer);
        mark.seat = Some(MarkSeat {
            number,
            tally: Tally::regained(offer.into_gain()),
        });
    }
}
