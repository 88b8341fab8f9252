//! A reading that a place has open: it begins with the client, and its end gives the client back.
ghost use Rattle.std.specs.Prelude.{◌≡◌};
ghost use Rattle.client_desk.specs.Answers.{ByClient, ByReader, EndsReading, MayBeginReading};
ghost use Rattle.client_desk.specs.Told.{told_alone};

use crate::faults::CallFault;
use crate::mutators::Hosted;
use crate::outcomes::Outcome;
use crate::place::{Place, TRIES};
use crate::sitting::Sitting;

impl<M: Hosted + Sync> Place<M> {
    pub(crate) fn begin_read(&mut self) -> Outcome
        ensures { ByClient (MayBeginReading M.means) self.old (told_alone result) self.new }
    {
        let client = match self.take() {
            Sitting::Client(client) => client,
            other => {
                let absent = other.absent();
                self.put(other);
                return Outcome::Faulty(absent);
            }
        };
        match client.begin_read(TRIES) {
            Ok(reader) => {
                self.put(Sitting::Reading(reader));
                return Outcome::Done;
            }
            Err((client, refusal)) => {
                self.put(Sitting::Client(client));
                return Outcome::Refused(refusal);
            }
        }
    }

    pub(crate) fn end_read(&mut self) -> Outcome
        ensures { ByReader EndsReading self.old (told_alone result) self.new }
    {
        match self.take() {
            Sitting::Reading(reader) => {
                self.put(Sitting::Client(reader.end()));
                return Outcome::Done;
            }
            other => {
                self.put(other);
                return Outcome::Faulty(CallFault::NotRead);
            }
        }
    }
}
