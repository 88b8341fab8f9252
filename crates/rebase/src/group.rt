//! A group of clients.
ghost use Rattle.std.specs.Prelude.{◌≡◌, ◌⊎◌, ◌≤◌, length, IfOk, IfErr};
ghost use Rattle.std.specs.Arc.{arc_value};
ghost use Rattle.group_history.specs.declared.refusals.Refusal.TheVariants as refusal;
ghost use Rattle.group_history.specs.Refs.{max_seats, max_slots};
ghost use Rattle.rebase.specs.Clients.{AreOpening, AreSeatsOf, grouped};

use crate::config::Config;
use crate::seats::{Seats, seat_all};
use change_tries::SharedGroup;
use chunk_slots::{Slots, Store};
use commit_graph::Shared;
use group_history::{Means, Refusal};
use push_body::Identity;
use std::alloc::{AllocError, Global};
use std::marker::Model;
use std::sync::Arc;

/// A group: a handle on what its clients share. Each client has one of its own, and what is shared is let go with the
/// last of them.
#[derive(Drop)]
pub struct Group<M: Means, S: Slots<M>> {
    pub(crate) shared: Arc<SharedGroup<M, S>>,
}

impl<M: Means, S: Slots<M>> Model for Group<M, S> {
    ghost use Rattle.std.specs.Arc.{arc_value};
    ghost use Rattle.rebase.specs.Clients.{Grouped, grouped};

    ghost Value = { Grouped };

    ghost view = { λ group. grouped (arc_value group.shared).shared (arc_value group.shared).identity };
}

// A new store and its head, and a seat for each of so many clients.
fn open_shared<M: Means, S: Store<M> + Drop>(
    alloc: Global,
    parts: S::Parts,
    slots: u32,
    seats: u32,
) -> Result<(Shared<M, S>, Seats<M, S>), Refusal>
    requires slots { (16 ≤ slots) × (slots ≤ max_slots) }
    requires seats { (1 ≤ seats) × (seats ≤ max_seats) }
    ensures count { IfOk result (λ made. length made.1.free ≡ seats) }
    ensures seats { IfOk result (λ made. AreSeatsOf made.0 made.1.free) }
    ensures sizes { S.reused → IfOk result
        (λ made. made.0.table.sizes ≡ record { readers = seats; slots = slots }) }
    ensures opening { IfOk result (λ made. AreOpening S.reused seats made.0 made.1.free) }
    ensures err { IfErr result (λ e. (e ≡ refusal.NoMemory) ⊎ (S.reused × ((e ≡ refusal.Busy) ⊎ (e ≡ refusal.Full)))) }
{
    let (store, claimed, head, marks) = S::open(alloc, parts, slots, seats)?;
    let shared = Shared { alloc, store, head };
    let seats = seat_all(&shared, claimed, marks)?;
    Ok((shared, seats))
}

fn share<M: Means + Drop, S: Slots<M> + Drop>(
    alloc: Global,
    group: SharedGroup<M, S>,
) -> Result<Group<M, S>, AllocError>
    ensures { IfOk result (λ made. made ≡ grouped group.shared group.identity) }
{
    let shared = Arc::new(alloc, group)?;
    Ok(Group { shared })
}

impl<M: Means + Drop, S: Store<M> + Drop> Group<M, S> {
    /// A new group and its seats, as many as the config says. Nothing is pulled and nothing is pending, the cookie is
    /// null, and two of its slots are taken. `parts` is what the store is made of: `()` for an `Arena`, a handle with
    /// `Wait` for an `Append`. Refused with `NoMemory`; over slots that are used again the contract allows `Busy` and
    /// `Full` too, though neither comes.
    pub fn open(
        alloc: Global,
        config: Config,
        mutators: M,
        parts: S::Parts,
    ) -> Result<(Group<M, S>, Seats<M, S>), Refusal>
        ensures identity { IfOk result (λ made. made.0.identity ≡ config.identity) }
        ensures count { IfOk result (λ made. length made.1.free ≡ config.seats) }
        ensures seats { IfOk result (λ made. AreSeatsOf made.0.group made.1.free) }
        ensures sizes { S.reused → IfOk result
            (λ made. made.0.group.table.sizes ≡ record { readers = config.seats; slots = config.slots }) }
        ensures opening { IfOk result (λ made. AreOpening S.reused config.seats made.0.group made.1.free) }
        ensures err { IfErr result (λ e. (e ≡ refusal.NoMemory)
            ⊎ (S.reused × ((e ≡ refusal.Busy) ⊎ (e ≡ refusal.Full)))) }
    {
        let (shared, seats) = open_shared::<M, S>(alloc, parts, config.slots(), config.seats())?;
        let identity = config.into_identity();
        let group = share(
            alloc,
            SharedGroup {
                shared,
                mutators,
                identity,
            },
        )?;
        Ok((group, seats))
    }
}
