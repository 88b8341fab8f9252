//! How tests open a group: whose it is, how it is laid out, and its clients.
ghost use Rattle.std.specs.Prelude.{◌≡◌, ◌<◌, IfOk, length};
ghost use Rattle.rebase.specs.Clients.{AreSeatsOf};

use chunk_slots::Store;
use group_history::{Means, Refusal};
use push_body::Identity;
use rebase::{Client, Config, Group, Seats};
use script_mutators::ScriptMutators;
use std::alloc::Global;
use uuid::Uuid;

const GROUP: &str = "00000000-0000-4000-8000-000000000001";

/// Ids of clients.
pub const A: &str = "00000000-0000-4000-8000-00000000000a";

pub const B: &str = "00000000-0000-4000-8000-00000000000b";

pub const C: &str = "00000000-0000-4000-8000-00000000000c";

pub const D: &str = "00000000-0000-4000-8000-00000000000d";

pub const E: &str = "00000000-0000-4000-8000-00000000000e";

// A group of so many slots, with a seat for each of its clients.
fn config_of(alloc: Global, slots: u32, clients: u32) -> Result<Config, Refusal> {
    let identity = Identity::new(alloc, GROUP, "p1", "s1")?;
    match Config::new(identity, slots, clients) {
        Ok(config) => Ok(config),
        Err(_) => Err(Refusal::Full),
    }
}

fn id(text: &str) -> Result<Uuid, Refusal> {
    match Uuid::parse_str(text) {
        Ok(id) => Ok(id),
        Err(_) => Err(Refusal::BadShape),
    }
}

// A new group of so many slots, and a seat for each of its clients.
fn opened<S: Store<ScriptMutators> + Drop>(
    alloc: Global,
    parts: S::Parts,
    slots: u32,
    clients: u32,
) -> Result<(Group<ScriptMutators, S>, Seats<ScriptMutators, S>), Refusal>
where
    S::Parts: Drop,
    ensures { IfOk result (λ made. AreSeatsOf made.0.group made.1.free) }
{
    let config = config_of(alloc, slots, clients)?;
    Group::<ScriptMutators, S>::open(alloc, config, ScriptMutators, parts)
}

/// A client of this ID on the next seat.
pub fn next_client<M: Means, S: Store<M>>(
    group: &Group<M, S>,
    seats: &mut Seats<M, S>,
    text: &str,
) -> Result<Client<M, S>, Refusal>
    requires { AreSeatsOf group.now.group seats.old.free }
    ensures seats { AreSeatsOf group.now.group seats.new.free }
    ensures room { IfOk result (λ _. length seats.new.free < seats.new.room) }
    ensures group { IfOk result (λ client. client.group ≡ group.now) }
{
    let id = id(text)?;
    group.next_client(seats, id, 9)
}

/// A client that may be lent to a thread, and its number among those of its group, from 0 on. That is the number by
/// which a gate knows its seat.
#[derive(Drop)]
pub struct NumberedClient<S: Store<ScriptMutators>> {
    pub number: usize,
    pub client: Client<ScriptMutators, S>,
}

// Adds a client of this ID, on the next seat.
fn add_player<S: Store<ScriptMutators> + Drop>(
    group: &Group<ScriptMutators, S>,
    seats: &mut Seats<ScriptMutators, S>,
    text: &str,
    players: &mut Vec<NumberedClient<S>>,
) -> Result<(), Refusal>
    requires { AreSeatsOf group.now.group seats.old.free }
    ensures { AreSeatsOf group.now.group seats.new.free }
{
    let client = next_client(group, seats, text)?;
    let number = players.len();
    players.push(NumberedClient { number, client })?;
    Ok(())
}

// Clients of these IDs on the next seats.
fn players_of<S: Store<ScriptMutators> + Drop>(
    alloc: Global,
    group: &Group<ScriptMutators, S>,
    seats: &mut Seats<ScriptMutators, S>,
    ids: &[&str],
) -> Result<Vec<NumberedClient<S>>, Refusal>
    requires { AreSeatsOf group.now.group seats.old.free }
{
    let mut players = Vec::new(alloc);
    for id in ids {
        add_player(group, seats, id, &mut players)?;
    }
    Ok(players)
}

/// Clients of these IDs in a new group of so many slots, with a seat for each of them.
pub fn new_players<S: Store<ScriptMutators> + Drop>(
    alloc: Global,
    parts: S::Parts,
    slots: u32,
    ids: &[&str],
) -> Result<Vec<NumberedClient<S>>, Refusal>
where
    S::Parts: Drop,
{
    let clients = u32::try_from(ids.len()).unwrap_or(u32::MAX);
    let (group, mut seats) = opened::<S>(alloc, parts, slots, clients)?;
    players_of(alloc, &group, &mut seats, ids)
}
