//! The group of the list, and its users.
ghost use Rattle.rebase.specs.Clients.{AreSeatsOf};

use crate::server::Server;
use crate::user::{TRIES, User};
use rebase::{Arena, Config, Group, Identity, Refusal, Seats, Uuid};
use std::alloc::Global;
use todo_mutators::Todos;

const SLOTS: u32 = 64;

const SEATS: u32 = 3;

/// The group of the list, and those of its seats that no user has.
#[derive(Drop)]
pub(crate) struct List {
    group: Group<Todos, Arena<Todos>>,
    seats: Seats<Todos, Arena<Todos>>,
    ghost home: { AreSeatsOf group.group seats.free },
}

impl List {
    pub(crate) fn open(alloc: Global) -> Result<List, Refusal> {
        let identity = Identity::new(alloc, "00000000-0000-4000-8000-000000000001", "p1", "s1")?;
        let Ok(config) = Config::new(identity, SLOTS, SEATS) else {
            unreachable!()
        };
        let (group, seats) = Group::open(alloc, config, Todos, ())?;
        Ok(List { group, seats })
    }

    /// A user by this ID on the next seat, and what the server sends to it.
    pub(crate) fn user(
        &mut self,
        alloc: Global,
        id: u128,
        responses: &'static [&'static str],
    ) -> Result<User, Refusal> {
        let id = Uuid::from_u128(id);
        let client = self.group.next_client(&mut self.seats, id, TRIES)?;
        User::new(alloc, client, Server::new(responses))
    }
}
