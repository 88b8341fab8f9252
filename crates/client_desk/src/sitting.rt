//! Who sits at a place.
ghost use Rattle.std.specs.Prelude.{◌≡◌, IfSome};
ghost use Rattle.client_desk.specs.Answers.{HasLeft, absent};
ghost use Rattle.client_desk.specs.Closing.{IsBack};
ghost use Rattle.client_desk.specs.Drafts.{HasLeftAsked};
ghost use Rattle.client_desk.specs.Sitting.{asking_of, client_of, reading_of, seat_of};

use crate::faults::CallFault;
use crate::mutators::Hosted;
use rebase::{Arena, Asking, Client, Reader, Seat};

/// Who sits at a place: nobody, at a seat; a client; a client whose change asks for a run; or one that has a reading
/// open. So it can't be dropped.
pub(crate) enum Sitting<M: Hosted> {
    Nobody(Seat<M, Arena<M>>),
    Client(Client<M, Arena<M>>),
    Asking(Asking<M, Arena<M>>),
    Reading(Reader<M, Arena<M>>),
    /// In the middle of a call, between who sat there and who sits there then.
    Moving,
}

impl<M: Hosted> Sitting<M> {
    // Why no client can be called.
    pub(crate) fn absent(&self) -> CallFault
        ensures { result ≡ absent (reading_of self.now) }
    {
        match self {
            Sitting::Reading(_) => CallFault::Reads,
            _ => CallFault::NoClient,
        }
    }

    // Who sits there leaves, and the seat is answered. A change that asks for a run is given up first. As what calls
    // it, it asks for no bound that other threads rely on, so that a drop can close places.
    pub(crate) fn close(self) -> Option<Seat<M, Arena<M>>>
        ensures free { IfSome (seat_of self) (λ was. IsBack (λ s. s ≡ was) result) }
        ensures left { IfSome (client_of self) (λ client. IsBack (HasLeft client) result) }
        ensures read { IfSome (reading_of self) (λ client. IsBack (HasLeft client) result) }
        ensures gave { IfSome (asking_of self) (λ asking. IsBack (HasLeftAsked M.means asking) result) }
    {
        match self {
            Sitting::Nobody(seat) => Some(seat),
            Sitting::Client(client) => Some(client.leave()),
            Sitting::Asking(asking) => Some(asking.abandon().leave()),
            Sitting::Reading(reader) => Some(reader.leave()),
            Sitting::Moving => None,
        }
    }
}
