//! Seats of a group at its store, below the clients.
ghost use Rattle.std.specs.Prelude.{◌≡◌, ◌<◌, ◌≤◌, [], length, IfOk, OnOk};
ghost use Rattle.std.specs.List.{All};
ghost use Rattle.group_history.specs.Refs.{max_seats, max_slots};
ghost use Rattle.head_word.specs.Books.{IsOpened};
ghost use Rattle.head_word.specs.Marks.{HasSeat};
ghost use Rattle.chunk_slots.specs.Seats.{IsIdle};
ghost use Rattle.commit_graph.specs.Seats.{IsSeatOf};
ghost use Rattle.test_group.specs.Trials.{AreFreeSeatsOf, no_mutators};

use crate::bare::{Nobody, empty_leaf};
use chunk_slots::{Store, StoreStop};
use commit_graph::{ClientSeat, Shared};
use commit_publishing::place_draft;
use group_history::{Chunk, Node, Ref, Refusal};
use head_word::Mark;
use map_chunks::Draft;
use reader_claims::Kind;
use std::alloc::Global;

// Adds the next seat, with its mark.
fn add_seat<S: Store<Nobody>>(
    shared: &Shared<Nobody, S>,
    claimed: &mut Vec<S::Seat>,
    marks: &mut Vec<Mark<Nobody>>,
    seats: &mut Vec<ClientSeat<Nobody, S>>,
) -> Result<(), Refusal>
    requires claimed { All (λ seat. (S.home seat ≡ shared.now.table) × (S.reused → IsIdle (S.view seat)))
        claimed.old.items }
    requires marks { All (HasSeat shared.now.book) marks.old.items }
    requires seats { AreFreeSeatsOf S.reused shared.now seats.old.items }
    ensures claimed { All (λ seat. (S.home seat ≡ shared.now.table) × (S.reused → IsIdle (S.view seat)))
        claimed.new.items }
    ensures marks { All (HasSeat shared.now.book) marks.new.items }
    ensures seats { AreFreeSeatsOf S.reused shared.now seats.new.items }
{
    let slots = claimed.pop().ok_or(Refusal::NoSeat)?;
    let mark = marks.pop().ok_or(Refusal::NoSeat)?;
    seats.push(ClientSeat { slots, mark })?;
    Ok(())
}

// The seats, each with its mark.
fn seats_of<S: Store<Nobody>>(
    shared: &Shared<Nobody, S>,
    claimed: Vec<S::Seat>,
    marks: Vec<Mark<Nobody>>,
) -> Result<Vec<ClientSeat<Nobody, S>>, Refusal>
    requires claimed { All (λ seat. (S.home seat ≡ shared.now.table) × (S.reused → IsIdle (S.view seat)))
        claimed.items }
    requires marks { All (HasSeat shared.now.book) marks.items }
    ensures { IfOk result (λ seats. AreFreeSeatsOf S.reused shared.now seats.items) }
{
    let (mut claimed, mut marks) = (claimed, marks);
    let mut seats = Vec::new(shared.alloc);
    for _ in 0..marks.len() {
        add_seat(shared, &mut claimed, &mut marks, &mut seats)?;
    }
    Ok(seats)
}

/// A new store of so many slots with its head, and its seats.
pub fn opened_store<S: Store<Nobody> + Drop>(
    alloc: Global,
    parts: S::Parts,
    slots: u32,
    seats: u32,
) -> Result<(Shared<Nobody, S>, Vec<ClientSeat<Nobody, S>>), Refusal>
    requires slots { (16 ≤ slots) × (slots ≤ max_slots) }
    requires seats { (1 ≤ seats) × (seats ≤ max_seats) }
    ensures { IfOk result (λ made. AreFreeSeatsOf S.reused made.0 made.1.items) }
{
    let (store, claimed, head, marks) = S::open(alloc, parts, slots, seats)?;
    let shared = Shared { alloc, store, head };
    let seats = seats_of(&shared, claimed, marks)?;
    Ok((shared, seats))
}

/// A seat of a group, between its calls.
#[derive(Drop)]
pub struct SeatPlace<'a, S: Store<Nobody>> {
    pub shared: &'a Shared<Nobody, S>,
    pub seat: ClientSeat<Nobody, S>,
    ghost home: { IsSeatOf shared.now seat },
    ghost idle: { S.reused → seat.view.taken ≡ [] },
}

/// A place for the next seat.
pub fn next_place<'a, S: Store<Nobody>>(
    shared: &'a Shared<Nobody, S>,
    seats: &mut Vec<ClientSeat<Nobody, S>>,
) -> Result<SeatPlace<'a, S>, Refusal>
    requires { AreFreeSeatsOf S.reused shared.now seats.old.items }
    ensures { AreFreeSeatsOf S.reused shared.now seats.new.items }
{
    let seat = seats.pop().ok_or(Refusal::NoSeat)?;
    Ok(SeatPlace { shared, seat })
}

// Adds a place for the next seat.
fn add_place<'a, S: Store<Nobody>>(
    shared: &'a Shared<Nobody, S>,
    seats: &mut Vec<ClientSeat<Nobody, S>>,
    places: &mut Vec<SeatPlace<'a, S>>,
) -> Result<(), Refusal>
    requires { AreFreeSeatsOf S.reused shared.now seats.old.items }
    ensures { AreFreeSeatsOf S.reused shared.now seats.new.items }
{
    let place = next_place(shared, seats)?;
    places.push(place)?;
    Ok(())
}

/// A place for each seat.
pub fn places_of<'a, S: Store<Nobody>>(
    alloc: Global,
    shared: &'a Shared<Nobody, S>,
    seats: &mut Vec<ClientSeat<Nobody, S>>,
) -> Result<Vec<SeatPlace<'a, S>>, Refusal>
    requires { AreFreeSeatsOf S.reused shared.now seats.old.items }
{
    let mut places = Vec::new(alloc);
    for _ in 0..seats.len() {
        add_place(shared, seats, &mut places)?;
    }
    Ok(places)
}

fn add_leaf(alloc: Global, draft: &mut Draft) -> Result<(), Refusal>
    ensures first { draft.new.first ≡ draft.old.first }
    ensures some { OnOk result (0 < length draft.new.nodes) }
{
    let leaf = empty_leaf(alloc)?;
    draft.push(Node::Chunk(Chunk::Leaf(leaf)))?;
    Ok(())
}

// A draft of an empty leaf.
fn leaf_draft(alloc: Global) -> Result<Draft, Refusal>
    ensures first { IfOk result (λ draft. draft.first ≡ 2) }
    ensures some { IfOk result (λ draft. 0 < length draft.nodes) }
{
    let mut draft = Draft::new(alloc, 2);
    add_leaf(alloc, &mut draft)?;
    Ok(draft)
}

impl<S: Store<Nobody>> SeatPlace<'_, S> {
    // What the seat has seen is a legal book.
    fn legal(&self)
        ensures { IsOpened no_mutators self.now.seat.mark.log }
    {
        self.seat.mark.legal();
    }

    fn puts_leaf(&mut self, alloc: Global) -> Result<Vec<Ref>, Refusal> {
        let draft = leaf_draft(alloc)?;
        self.legal();
        place_draft::<Nobody, S>(self.shared, &mut self.seat, draft, Kind::Ordinary, 3)
    }

    /// Places an empty leaf: where it lies.
    pub fn puts(&mut self, alloc: Global) -> Result<Ref, Refusal> {
        let refs = self.puts_leaf(alloc)?;
        refs.first().copied().ok_or(Refusal::Gone)
    }

    /// Whether it retired the slot.
    pub fn retires(&mut self, slot: u32) -> bool {
        let shared = self.shared;
        match shared.store.raise(&mut self.seat.slots) {
            Some(r) => {
                shared.store.retire(&mut self.seat.slots, slot, r);
                true
            }
            None => false,
        }
    }

    pub fn pins(&mut self) -> bool {
        let shared = self.shared;
        shared.store.pin(&mut self.seat.slots, 100).is_ok()
    }
}

/// Whether an empty leaf, or else something else, is shown.
pub fn shows<S: Store<Nobody>>(store: &S, slot: u32, stamp: u64) -> Result<bool, StoreStop> {
    let shown = store.show(slot, stamp, 100)?;
    let is_leaf = match shown.value() {
        Node::Chunk(Chunk::Leaf(leaf)) => leaf.values().is_empty(),
        _ => false,
    };
    shown.leave();
    Ok(is_leaf)
}
