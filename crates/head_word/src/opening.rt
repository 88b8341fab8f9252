//! How a book is opened: it begins with no entry and the head word 0, and one exchange by no seat adds the
//! opening draft and the opening move together. Nobody else has the words yet, so it is never lost; the
//! contract knows that from the tally of no seat, which says that nothing was added before.
ghost use Rattle.std.specs.Prelude.{◌≡◌, ◌+◌, ◌<◌, ◌≤◌, List, IfOk};
ghost use Rattle.group_history.specs.declared.refs.Ref.{Ref};
ghost use Rattle.group_history.specs.Refs.{stamp_of, max_slots, max_seats};
ghost use Rattle.head_word.specs.Books.{IsOpened, book_opening, opening_ref};
ghost use Rattle.head_word.specs.Marks.{seated};
ghost use Rattle.head_word.specs.Inside.Parts.{key_end};

use crate::asks::{Asks, OpeningMove};
use crate::entry::{Answer, Entry};
use crate::head::Head;
use crate::law::{Law, Opens, Traded};
use crate::mark::{Mark, MarkSeat};
use crate::tally::{Tallies, Tally};
use group_history::{Means, Ref};
use logbook::{Seen, Word};
use std::alloc::{AllocError, Global};

impl<M: Means> Head<M> {
    /// A new book for 1 to `MAX_SEATS` seats, which opens with an empty map, and one mark for each seat.
    /// The opening snapshot has the stamp 1 and lies in the slot, which is below `MAX_SLOTS`. No other
    /// call takes memory.
    pub fn open(alloc: Global, seats: u32, slot: u32) -> Result<(Head<M>, Vec<Mark<M>>), AllocError>
        requires seats { (1 ≤ seats) × (seats ≤ max_seats) }
        requires slot { slot < max_slots }
        ensures marks { IfOk result (λ made. made.1.items ≡ seated made.0 (book_opening seats
            (opening_ref slot)) seats) }
    {
        let (start, mut tallies) = Tallies::open::<M>(seats as u64 + 1);
        let none = tallies.take();
        let (mut seen, mut first, mut second) = Seen::open(start, 0, 2);
        let head = Head {
            head_word: Word::tracked(0, &mut first),
            draft_word: Word::tracked(2, &mut second),
        };
        head.add_opening(&mut seen, none, seats as u64, Ref::new(1, slot));
        let marks = seat_all(alloc, &seen, tallies, seats)?;
        Ok((head, marks))
    }

    /// The exchange that opens the book.
    fn add_opening(&self, seen: &mut Seen<Entry, Answer, Law<M>>, none: Tally, seats: u64, to: Ref)
        requires book { seen.old.book ≡ self.now }
        requires tally { (none.names ≡ seen.old.names) × (none.key ≡ 0) × (none.count ≡ 0) × (0 < key_end none.names) }
        requires stamp { stamp_of to ≡ 1 }
        ensures book { seen.new.book ≡ seen.old.book }
        ensures names { seen.new.names ≡ seen.old.names }
        ensures opened { seen.new.log ≡ book_opening seats to }
    {
        let mut offer = none.offered::<M, OpeningMove, Asks>(&OpeningMove { seats, to });
        let mut pen = seen.no_pen();
        let bits = to.bits();
        let _ = self
            .head_word
            .compare_exchange::<Opens, Traded>(0, bits, seen, &mut offer, &mut pen);
        let _ = Tally::regained(offer.into_gain());
    }
}

// A mark for each seat, at a new book.
fn seat_all<M: Means>(
    alloc: Global,
    seen: &Seen<Entry, Answer, Law<M>>,
    mut tallies: Tallies,
    seats: u32,
) -> Result<Vec<Mark<M>>, AllocError>
    requires opened { (at : Ref) × (seen.now.log ≡ book_opening seats at) × IsOpened M.means (book_opening seats at) }
    requires tallies { (tallies.names ≡ seen.now.names) × (tallies.next ≡ 1) × (tallies.left ≡ seats)
        × (key_end tallies.names ≡ seats + 1) }
    ensures marks { IfOk result (λ marks. marks.items ≡ seated seen.now.book seen.now.log seats) }
{
    let mut marks = Vec::with_capacity(alloc, seats as usize)?;
    for number in 0..seats {
        let tally = tallies.take();
        marks.push(Mark {
            seen: seen.again(),
            seat: Some(MarkSeat {
                number: number as u64,
                tally,
            }),
        })?;
    }
    Ok(marks)
}
