//! Moments of a group: numbers by which its states are told apart, and which of two came later.
//!
//! A moment is the stamp of the commit where the head is. Stamps are drawn once and moves go to ever greater ones, so
//! the head never comes back to a commit. Clause `rises` carries that.
ghost use Rattle.std.specs.Prelude.{◌≡◌, ◌≤◌, List, None};
ghost use mathlib.Core.List.{IsPrefix};
ghost use Rattle.head_word.specs.declared.entry.Entry.{Entry};
ghost use Rattle.head_word.specs.Books.{last_move, record_of, IsOpened};
ghost use Rattle.head_word.specs.Laws.{moment};
ghost use Rattle.commit_graph.specs.Seats.{HasLooked, IsSeatOf};
ghost use Rattle.linearized.specs.Answered.{IsPoint};
ghost use Rattle.rebase.specs.Clients.{IsSameClient};

use crate::client::Client;
use change_tries::SharedGroup;
use chunk_slots::Slots;
use commit_graph::{ClientSeat, Shared};
use group_history::{Means, Ref};
use head_word::book_laws;
use linearized::look;

impl<M: Means, S: Slots<M>> Client<M, S> {
    /// The moment of the group, below 2^40: two equal numbers are one state, and where the head was moved later the
    /// number is greater. One look at the head, without a pin. It refuses nothing, and takes no memory. A rule of this
    /// project's own.
    pub fn moment(&mut self) -> u64
        ensures point { IsPoint M.means self.old.seat.mark self.new.seat.mark None self.new.seat.mark.log }
        ensures moment { result ≡ moment self.new.seat.mark.log }
        ensures rises { (log : List Entry) → IsPrefix log self.new.seat.mark.log → (moment log ≤ result)
            × (moment log ≡ result → record_of log ≡ record_of self.new.seat.mark.log) }
        ensures view { self.new.seat.view ≡ self.old.seat.view }
        ensures looked { HasLooked S.reused self.old.seat self.new.seat }
        ensures same { IsSameClient self.old self.new × (self.new.last ≡ self.old.last) }
    {
        book_laws();
        let group: &SharedGroup<M, S> = &self.group;
        let at = look_on(&group.shared, &mut self.seat);
        at.stamp()
    }
}

// A seat looks where the head is, without a pin.
fn look_on<M: Means, S: Slots<M>>(shared: &Shared<M, S>, seat: &mut ClientSeat<M, S>) -> Ref
    requires home { IsSeatOf shared.now seat.old }
    ensures point { IsPoint M.means seat.old.mark seat.new.mark None seat.new.mark.log }
    ensures last { result ≡ last_move seat.new.mark.log }
    ensures opened { IsOpened M.means seat.new.mark.log }
    ensures looked { HasLooked S.reused seat.old seat.new }
    ensures view { seat.new.view ≡ seat.old.view }
{
    let at = look(&shared.head, &mut seat.mark);
    seat.mark.legal();
    at
}
