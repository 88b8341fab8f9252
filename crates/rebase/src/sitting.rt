//! Clients that sit down on a seat of their group.
ghost use Rattle.std.specs.Prelude.{◌≡◌, ◌<◌, ◌≤◌, ◌^◌, [], ◌∷◌, ◌++◌, None, Some, IfOk, IfErr, length};
ghost use Rattle.group_history.specs.declared.refusals.Refusal.TheVariants.{NoMemory};
ghost use Rattle.group_history.specs.Refs.{stamp_of};
ghost use Rattle.group_history.specs.State.{last_id};
ghost use Rattle.head_word.specs.Books.{drawn};
ghost use Rattle.chunk_slots.specs.Seats.{IsIdle};
ghost use Rattle.commit_graph.specs.LastIds.{last_at};
ghost use Rattle.commit_graph.specs.Seats.{HasLooked, IsSeatOf, SeatState};
ghost use Rattle.linearized.specs.Answered.{IsAnswered, IsLeft};
ghost use Rattle.change_tries.specs.Missing.{IsStoreOrMemory};
ghost use Rattle.rebase.specs.Clients.{AreSeatsOf, NoneSat, HoldsNothing, SitsOn};
ghost use Rattle.uuid.specs.Text.{hyphenated_text, lower};

use crate::client::Client;
use crate::group::Group;
use crate::seats::{Seat, Seats};
use change_tries::{SharedGroup, find_last};
use chunk_slots::Slots;
use commit_graph::{ClientSeat, LastId};
use group_history::{Means, Refusal, Text};
use std::alloc::{AllocError, Global};
use std::sync::Arc;
use uuid::Uuid;

fn client_id(alloc: Global, id: &Uuid) -> Result<Text, AllocError>
    ensures { IfOk result (λ text. text ≡ hyphenated_text lower id.now) }
{
    let mut buffer = Uuid::encode_buffer();
    Text::new(alloc, id.hyphenated().encode_lower(&mut buffer))
}

// A client whose last id was found.
fn seated<M: Means, S: Slots<M>>(
    group: &Group<M, S>,
    seat: ClientSeat<M, S>,
    id: Text,
    found: LastId,
) -> Result<Client<M, S>, (Seat<M, S>, Refusal)>
    requires home { IsSeatOf group.now.group seat }
    requires idle { S.reused → IsIdle seat.view }
    requires found { last_at (drawn seat.mark.log) (stamp_of found.at) id ≡ Some found.id }
    requires low { found.id < 2 ^ 53 }
    ensures ok { IfOk result (λ client. client
        ≡ record { group = group.now; seat = seat; id = id; last = found.id }) }
    ensures err { IfErr result (λ e. (e.0 ≡ seat) × (e.1 ≡ NoMemory)) }
{
    match Arc::try_clone(&group.shared) {
        Ok(group) => Ok(Client {
            group,
            seat,
            id,
            last: found.id,
            found: found.at,
            latest: None,
            pinned: false,
        }),
        Err(e) => Err((Seat { seat }, Refusal::from(e))),
    }
}

impl<M: Means, S: Slots<M>> Group<M, S> {
    /// A client of this ID on a seat of the group. It begins from what the seat has seen, and its own last id is the
    /// one that the group has: 0 where it has none. Refused with `NoMemory`, `Gone`, and over slots that are used again
    /// `Busy`; then the seat is handed back. Takes memory for the ID alone.
    pub fn client(
        &self,
        seat: Seat<M, S>,
        id: Uuid,
        tries: u32,
    ) -> Result<Client<M, S>, (Seat<M, S>, Refusal)>
        requires seat { IsSeatOf self.now.group seat }
        ensures group { IfOk result (λ client. client.group ≡ self.now) }
        ensures id { IfOk result (λ client. client.id ≡ hyphenated_text lower id) }
        ensures answer { IfOk result (λ client. IsAnswered M.means seat.mark client.seat.mark None
            (λ s. last_id s client.id ≡ client.last)) }
        ensures looked { IfOk result (λ client. HasLooked S.reused seat client.seat × HoldsNothing S.reused client) }
        ensures back { IfErr result (λ e. HasLooked S.reused seat e.0) }
        ensures err { IfErr result (λ e. IsStoreOrMemory S.reused e.1 × IsLeft tries seat.mark e.0.mark e.1) }
    {
        let group: &SharedGroup<M, S> = &self.shared;
        let id = match client_id(group.shared.alloc, &id) {
            Ok(id) => id,
            Err(e) => {
                return Err((seat, Refusal::from(e)));
            }
        };
        let Seat { seat } = seat;
        let mut seat = seat;
        match find_last(group, &mut seat, &id, None, tries) {
            Ok(found) => {
                return seated(self, seat, id, found);
            }
            Err(e) => {
                return Err((Seat { seat }, e));
            }
        }
    }

    /// A client of this ID on the next of the free seats, as `client` has it. Where it is refused its seat is free
    /// again. It is `NoSeat` where none is free. Takes memory for the ID alone.
    pub fn next_client(
        &self,
        seats: &mut Seats<M, S>,
        id: Uuid,
        tries: u32,
    ) -> Result<Client<M, S>, Refusal>
        requires seats { AreSeatsOf self.now.group seats.old.free }
        ensures seats { AreSeatsOf self.now.group seats.new.free }
        ensures capacity { seats.old.room ≤ seats.new.room }
        ensures room { IfOk result (λ _. length seats.new.free < seats.new.room) }
        ensures ok { IfOk result (λ client. (seat : SeatState) × (seats.old.free ≡ seats.new.free ++ seat ∷ [])
            × SitsOn S.reused M.means self.now (hyphenated_text lower id) seat client) }
        ensures err { IfErr result (NoneSat S.reused tries seats.old.free seats.new.free) }
    {
        let seat = seats.take()?;
        match self.client(seat, id, tries) {
            Ok(client) => Ok(client),
            Err((seat, e)) => {
                seats.back(seat);
                Err(e)
            }
        }
    }
}
