//! The tickets of a client.
ghost use Rattle.std.specs.Prelude.{◌≡◌, []};
ghost use Rattle.client_desk.specs.Told.{told};
ghost use Rattle.client_desk.specs.Inside.Keeping.{Keeps, KeepsOne};

use crate::calls::Keep;
use crate::kept::keep;
use crate::outcomes::Outcome;
use group_history::Refusal;
use rebase::Ticket;
use std::alloc::Global;

// Keeps a ticket, and tells its request and the number. Where memory is refused it is not kept.
fn keep_ticket(
    alloc: Global,
    tickets: &mut Vec<Option<Ticket>>,
    at: Keep,
    ticket: Ticket,
    bytes: &mut Vec<u8>,
) -> Outcome
    requires { bytes.old.items ≡ [] }
    ensures { KeepsOne at ticket (told result bytes.new.items) tickets.old.items tickets.new.items }
{
    let Ticket { body, cookie } = ticket;
    let kept = Ticket {
        body: Vec::new(alloc),
        cookie,
    };
    match keep(tickets, at, kept) {
        Ok(number) => {
            *bytes = body;
            Outcome::Number(number as u64)
        }
        Err(_) => Outcome::Refused(Refusal::NoMemory),
    }
}

/// Keeps the ticket of a pull that was begun.
pub(crate) fn keep_reply(
    alloc: Global,
    tickets: &mut Vec<Option<Ticket>>,
    at: Keep,
    reply: Result<Ticket, Refusal>,
    bytes: &mut Vec<u8>,
) -> Outcome
    requires { bytes.old.items ≡ [] }
    ensures { Keeps at reply (told result bytes.new.items) tickets.old.items tickets.new.items }
{
    match reply {
        Ok(ticket) => keep_ticket(alloc, tickets, at, ticket, bytes),
        Err(refusal) => Outcome::Refused(refusal),
    }
}
