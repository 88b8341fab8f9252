//! A user of the list: a client, a watch of the list, a connection to the server, and what to do about each refusal.
//!
//! A watch is polled by clients of its own group alone; that it is one of the client's is kept by the type.
ghost use Rattle.std.specs.Prelude.{◌≡◌};

use crate::server::Server;
use rebase::{Arena, Client, Ended, Json, Polled, Refusal, Scan, Start, Text, Watch};
use std::alloc::Global;
use todo_mutators::Todos;

/// How often a call begins anew that others are in the way of.
pub(crate) const TRIES: u32 = 1000;

/// How often a user mends what a call was refused for.
const ATTEMPTS: u32 = 10;

/// A user of the list.
#[derive(Drop)]
pub(crate) struct User {
    alloc: Global,
    pub(crate) client: Client<Todos, Arena<Todos>>,
    watch: Watch<Todos>,
    pub(crate) server: Server,
    ghost watched: { watch.book ≡ client.seat.mark.book },
}

impl User {
    pub(crate) fn new(
        alloc: Global,
        client: Client<Todos, Arena<Todos>>,
        server: Server,
    ) -> Result<User, Refusal> {
        let watch = client.watch(Scan {
            prefix: Text::new(alloc, "todo/")?,
            start: Start::Any,
            limit: None,
        });
        Ok(User {
            alloc,
            client,
            watch,
            server,
        })
    }

    /// The items, where they are others than those that were told last.
    pub(crate) fn poll(&mut self) -> Result<Polled, Refusal> {
        self.client.poll(&mut self.watch, TRIES)
    }

    /// Makes a mutation, and mends what it is refused for.
    pub(crate) fn change(&mut self, name: &str, args: &str) -> Result<u64, Refusal> {
        let name = Text::new(self.alloc, name)?;
        let args = Json::read(self.alloc, args.as_bytes())?;
        for _ in 0..ATTEMPTS {
            match self
                .client
                .try_mutate(&name, &args, 1_700_000_000_000, TRIES)
            {
                Ok(id) => return Ok(id),
                Err(e) => self.mend(e)?,
            }
        }
        Err(Refusal::Moved)
    }

    /// Does what helps a mutation that was refused, so that it can be called again; else hands the refusal on.
    fn mend(&mut self, refusal: Refusal) -> Result<(), Refusal> {
        match refusal {
            Refusal::Moved | Refusal::Busy | Refusal::Gone => Ok(()),
            Refusal::Stale => self.client.refresh(TRIES).map(drop),
            Refusal::Full => {
                self.push()?;
                self.pull().map(drop)
            }
            other => Err(other),
        }
    }

    /// Pushes all that is pending in the group. It is pending still, until a pull confirms it.
    pub(crate) fn push(&mut self) -> Result<usize, Refusal> {
        let body = self.client.push_body(0, TRIES)?;
        self.server.take(body.as_slice());
        Ok(body.len())
    }

    /// Pulls, and begins a new pull where another one was applied since it began.
    pub(crate) fn pull(&mut self) -> Result<Ended, Refusal> {
        for _ in 0..ATTEMPTS {
            let ticket = self.client.begin_pull(TRIES)?;
            let response = self.server.response_to(ticket.body.as_slice());
            match self.client.try_end_pull(&ticket, response, TRIES) {
                Err(Refusal::Overtaken | Refusal::Moved | Refusal::Busy | Refusal::Gone) => {}
                ended => return ended,
            }
        }
        Err(Refusal::Overtaken)
    }
}
