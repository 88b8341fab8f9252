//! Readings of a group: a reader, and what one reading answers.
ghost use Rattle.std.specs.Prelude.{◌≡◌, Ok, None, IfOk, IfErr, OnErr, OnOk};
ghost use Rattle.std.specs.Borrow.{sem, RestsIfErr};
ghost use Rattle.group_history.specs.Queries.{view_rows};
ghost use Rattle.group_history.specs.Rows.{Rows};
ghost use Rattle.map_chunks.specs.Sinks.{HasMore};
ghost use Rattle.linearized.specs.Answered.{IsLinearized, IsPoint, no_change};
ghost use Rattle.change_tries.specs.Missing.{IsStoreRefusal, IsStoreOrMemory};
ghost use Rattle.rebase.specs.Clients.{AfterRead, AfterQuery};
ghost use Rattle.rebase.specs.Queries.{GaveSome, gave};
ghost use Rattle.rebase.specs.Readers.{lent, seen_by};
ghost use Rattle.rebase.specs.contracts.client.Client.{the_row};

use crate::client::Client;
use crate::reading::ReadTx;
use chunk_slots::Slots;
use group_history::{Means, Refusal, Scan};
use transactions::TakesRows;

impl<M: Means, S: Slots<M>> Client<M, S> {
    /// Reads the group as it is at one moment of the call, and not before what the client has seen (Replicache,
    /// `ReadTransaction`). Refused with `Gone`, and over slots that are used again `Busy`; then the client has no pin.
    /// Takes no memory.
    pub fn read(&mut self, tries: u32) -> Result<ReadTx<'_, M, S>, Refusal>
        ensures* rests { sem 𝓛 (RestsIfErr (the_row M.row S.row S.Seat.row M.Means S.Slots) self.entry
            (λ tx. (lent tx).ghost_name) result (λ client. AfterQuery S.reused self.old client)) }
        ensures same_reference { IfOk result (λ tx. (lent tx).ghost_name ≡ self.entry.ghost_name) }
        ensures point { IfOk result (λ tx. IsPoint M.means self.old.seat.mark (lent tx).now.seat.mark None
            (seen_by tx).log) }
        ensures seen { IfOk result (λ tx. (seen_by tx).log ≡ (lent tx).now.seat.mark.log) }
        ensures reads { IfOk result (λ tx. AfterRead S.reused tries self.old (lent tx).now) }
        ensures missed { IfErr result (IsStoreRefusal S.reused) }
    {
        let at = self.point(tries)?;
        Ok(ReadTx::new(self, at, tries))
    }

    /// Gives the pairs that the scan asks for to the sink, in the order of their keys, each by reference. Refused with
    /// `NoMemory`, also where the sink stops, `Gone`, and over slots that are used again `Busy`; then the sink may have
    /// some of them, the first ones.
    pub fn scan_into<T: TakesRows>(
        &mut self,
        scan: &Scan,
        sink: &mut T,
        tries: u32,
    ) -> Result<(), Refusal>
        ensures answer { (rows : Rows) × IsLinearized M.means tries self.old.seat.mark self.new.seat.mark
            (gave rows result) no_change (λ s. Ok (view_rows M.means s scan.now))
            × OnOk result (HasMore T.has sink.old sink.new rows) }
        ensures begun { OnErr result (GaveSome M.means T.has self.old.seat.mark self.new.seat.mark scan.now sink.old
            sink.new) }
        ensures err { IfErr result (IsStoreOrMemory S.reused) }
        ensures stays { AfterQuery S.reused self.old self.new }
    {
        let tx = self.read(tries)?;
        let given = tx.scan_into(scan, sink);
        tx.close();
        given
    }
}
