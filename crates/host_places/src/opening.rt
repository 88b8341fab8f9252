//! A group that is opened, and its places.
ghost use Rattle.std.specs.Prelude.{◌≡◌, ◌⊎◌, [], ℕ, Err, IfErr, IfOk, Ok, OnOk, length, map};
ghost use Rattle.std.specs.List.{All};
ghost use Rattle.std.specs.Arc.{arc_value};
ghost use Rattle.commit_graph.specs.Seats.{IsSeatOf};
ghost use Rattle.rebase.specs.Clients.{AreSeatsOf};
ghost use Rattle.rebase.specs.Configs.{Layout};
ghost use Rattle.host_places.specs.Asking.{IsSaid};
ghost use Rattle.host_places.specs.Inside.Filling.{IsDeskAdded};
ghost use Rattle.host_places.specs.Opening.{AreOpened, IsFreshPlace, IsWantToOpen, SawOpening};
ghost use Rattle.host_places.specs.Opening.{id_said, identity_said, layout_for};
ghost use Rattle.client_desk.specs.Places.{free_place};

use crate::desk::Desk;
use crate::texts::{text_of, uuid_of};
use client_desk::{CallFault, Hosted, Outcome, Place};
use group_history::{Refusal, Text};
use rebase::{Arena, Config, Group, Identity, Seat, Seats, Uuid};
use std::alloc::{AllocError, AllocFailed, Global};
use std::sync::Arc;

/// What a group is opened with: its ID, a UUID; two texts, which its requests have; how many slots and places it has.
#[derive(Clone, Copy)]
pub struct GroupOpening<'a> {
    pub id: &'a [u8],
    pub profile: &'a [u8],
    pub schema: &'a [u8],
    pub slots: u32,
    pub places: u32,
}

fn id_text(alloc: Global, id: &[u8]) -> Result<Text, Outcome>
    ensures { IsSaid result (id_said id.now) }
{
    let id = uuid_of(id)?;
    let mut buffer = Uuid::encode_buffer();
    match Text::new(alloc, id.hyphenated().encode_lower(&mut buffer)) {
        Ok(text) => Ok(text),
        Err(_) => Err(Outcome::Refused(Refusal::NoMemory)),
    }
}

fn identity_of(alloc: Global, with: GroupOpening<'_>) -> Result<Identity, Outcome>
    ensures { IsSaid result (identity_said with.entry.id.now with.entry.profile.now with.entry.schema.now) }
{
    let group = id_text(alloc, with.id)?;
    let profile = text_of(alloc, with.profile)?;
    let schema = text_of(alloc, with.schema)?;
    Ok(Identity {
        group,
        profile,
        schema,
    })
}

fn config_of(alloc: Global, with: GroupOpening<'_>) -> Result<Config, Outcome>
    ensures { IsSaid result (layout_for with.entry) }
{
    let identity = identity_of(alloc, with)?;
    match Config::new(identity, with.slots, with.places) {
        Ok(config) => Ok(config),
        Err(_) => Err(Outcome::Faulty(CallFault::OutOfRange)),
    }
}

// A place with this seat.
fn desk_at<M: Hosted>(
    alloc: Global,
    group: &Arc<Group<M, Arena<M>>, Global>,
    seat: Seat<M, Arena<M>>,
) -> Result<Desk<M>, AllocError>
    requires { IsSeatOf (arc_value group.now).group seat }
    ensures { IfOk result (λ desk. desk.place ≡ free_place (arc_value group.now) seat) }
{
    let group = Arc::try_clone(group)?;
    Ok(Desk::new(alloc, Place::new(alloc, group, seat)))
}

/// Closes places, the last one first: who sits at them leaves, and changes that ask for runs are given up.
pub fn close_places<M: Hosted>(desks: Vec<Desk<M>>) {
    let mut desks = desks;
    while let Some(desk) = desks.pop() {
        drop(desk.close());
    }
    desks.destroy_empty();
}

// One more place, with this seat.
fn add_desk<M: Hosted>(
    alloc: Global,
    group: &Arc<Group<M, Arena<M>>, Global>,
    seat: Seat<M, Arena<M>>,
    desks: &mut Vec<Desk<M>>,
) -> Result<(), AllocError>
    requires { IsSeatOf (arc_value group.now).group seat }
    ensures { OnOk result (IsDeskAdded (arc_value group.now) seat desks.old.items desks.new.items) }
{
    match desks.push(desk_at(alloc, group, seat)?) {
        Ok(()) => Ok(()),
        Err(refused) => {
            let AllocFailed { value: desk } = refused;
            drop(desk.close());
            return Err(AllocError);
        }
    }
}

// A place for each seat, the last one first.
fn fill_desks<M: Hosted + Sync>(
    alloc: Global,
    group: &Arc<Group<M, Arena<M>>, Global>,
    seats: &mut Seats<M, Arena<M>>,
    desks: &mut Vec<Desk<M>>,
) -> Result<(), AllocError>
    requires home { AreSeatsOf (arc_value group.now).group seats.old.free }
    requires none { desks.old.items ≡ [] }
    ensures count { OnOk result (length desks.new.items ≡ length seats.old.free) }
    ensures new { (commit : ℕ) → All (SawOpening (arc_value group.now) commit) seats.old.free
        → OnOk result (All (λ d. IsFreshPlace (arc_value group.now) commit d.place) desks.new.items) }
{
    while let Ok(seat) = seats.take() {
        add_desk(alloc, group, seat, desks)?;
    }
    Ok(())
}

// A place for each seat of the group.
fn desks_of<M: Hosted + Sync>(
    alloc: Global,
    group: Arc<Group<M, Arena<M>>, Global>,
    seats: Seats<M, Arena<M>>,
) -> Result<Vec<Desk<M>>, AllocError>
    requires { AreSeatsOf (arc_value group).group seats.free }
    ensures count { IfOk result (λ desks. length desks.items ≡ length seats.free) }
    ensures new { (commit : ℕ) → All (SawOpening (arc_value group) commit) seats.free
        → IfOk result (λ desks. All (λ d. IsFreshPlace (arc_value group) commit d.place) desks.items) }
{
    let mut seats = seats;
    let mut desks = Vec::new(alloc);
    let filled = fill_desks(alloc, &group, &mut seats, &mut desks);
    drop(seats);
    drop(group);
    match filled {
        Ok(()) => Ok(desks),
        Err(e) => {
            close_places(desks);
            return Err(e);
        }
    }
}

fn desks_at<M: Hosted + Sync>(
    alloc: Global,
    group: Group<M, Arena<M>>,
    seats: Seats<M, Arena<M>>,
) -> Result<Vec<Desk<M>>, AllocError>
    requires { AreSeatsOf group.group seats.free }
    ensures count { IfOk result (λ desks. length desks.items ≡ length seats.free) }
    ensures new { (commit : ℕ) → All (SawOpening group commit) seats.free
        → IfOk result (λ desks. All (λ d. IsFreshPlace group commit d.place) desks.items) }
{
    let group = Arc::new(alloc, group)?;
    desks_of(alloc, group, seats)
}

/// Opens a group, and answers its places. Refused where an argument says nothing, and for want of memory; `Busy` and
/// `Full` do not come.
pub fn open_places<M: Hosted + Sync>(
    alloc: Global,
    with: GroupOpening<'_>,
    mutators: M,
) -> Result<Vec<Desk<M>>, Outcome>
    ensures opened { IfOk result (λ desks. (layout : Layout)
        × (layout_for with.entry ≡ Ok layout)
        × AreOpened layout (map (λ d. d.place) desks.items)) }
    ensures err { IfErr result (λ e. IsWantToOpen e
        ⊎ (layout_for with.entry ≡ Err e)) }
{
    let config = config_of(alloc, with)?;
    let opened = Group::open(alloc, config, mutators, ());
    match opened {
        Ok((group, seats)) => match desks_at(alloc, group, seats) {
            Ok(desks) => Ok(desks),
            Err(_) => Err(Outcome::Refused(Refusal::NoMemory)),
        },
        Err(refusal) => Err(Outcome::Refused(refusal)),
    }
}
