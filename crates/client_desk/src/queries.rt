//! The queries of a place: by the client that sits there, or by the reading that it has open.
ghost use Rattle.std.specs.Prelude.{◌≡◌, ◌⊎◌, [], drop, true};
ghost use Rattle.push_body.specs.Bodies.{push_text};
ghost use Rattle.client_desk.specs.Answers.{AnswersReading, AnswersQuery, AnswersLack, TellsMomentAs, made_room};
ghost use Rattle.client_desk.specs.Calls.{MayLack};
ghost use Rattle.client_desk.specs.Inside.Reading.{is_of_one_commit};
ghost use Rattle.client_desk.specs.Told.{bytes_told, told, told_alone};

use crate::calls::DeskCall;
use crate::faults::CallFault;
use crate::mutators::Hosted;
use crate::outcomes::Outcome;
use crate::place::Place;
use crate::reading::{tell_by_client, tell_by_reading, tell_push, tell_push_as_of};
use crate::sitting::Sitting;

impl<M: Hosted + Sync> Place<M> {
    // Makes a query that one commit answers.
    fn ask(&mut self, call: DeskCall<'_>, bytes: &mut Vec<u8>) -> Outcome
        requires query { is_of_one_commit call ≡ true }
        requires empty { bytes.old.items ≡ [] }
        ensures { AnswersReading M.means call.entry self.old (told result bytes.new.items) self.new }
    {
        match &mut self.sitting {
            Sitting::Client(client) => {
                return tell_by_client(self.alloc, client, call, &mut self.moment, bytes);
            }
            Sitting::Reading(reader) => {
                return tell_by_reading(self.alloc, reader, call, &mut self.moment, bytes);
            }
            other => {
                return Outcome::Faulty(other.absent());
            }
        }
    }

    fn push(&mut self, skip: usize, bytes: &mut Vec<u8>) -> Outcome
        requires { bytes.old.items ≡ [] }
        ensures { AnswersQuery bytes_told (λ c s. push_text c.group.identity (drop skip s.pending)) M.means self.old
            (told result bytes.new.items) self.new }
    {
        match &mut self.sitting {
            Sitting::Client(client) => {
                return tell_push(client, skip, &mut self.moment, bytes);
            }
            Sitting::Reading(reader) => {
                return tell_push_as_of(reader, skip, &mut self.moment, bytes);
            }
            other => {
                return Outcome::Faulty(other.absent());
            }
        }
    }

    fn moment(&mut self) -> Outcome
        ensures { TellsMomentAs M.means self.old.reading self.old (told_alone result) self.new }
    {
        match &mut self.sitting {
            Sitting::Client(client) => {
                return Outcome::Number(client.moment());
            }
            Sitting::Reading(reader) => {
                return Outcome::Number(reader.moment());
            }
            other => {
                return Outcome::Faulty(other.absent());
            }
        }
    }

    // Makes a query, where no change asks for a run.
    pub(crate) fn call_reading(&mut self, call: DeskCall<'_>, bytes: &mut Vec<u8>) -> Outcome
        requires { bytes.old.items ≡ [] }
        ensures { (MayLack call.entry
            × AnswersLack (made_room call.entry self.old) (told result bytes.new.items) self.new)
            ⊎ AnswersReading M.means call.entry self.old (told result bytes.new.items) self.new }
    {
        match call {
            DeskCall::Get(_) => self.ask(call, bytes),
            DeskCall::Has(_) => self.ask(call, bytes),
            DeskCall::Scan(_) => self.ask(call, bytes),
            DeskCall::PulledGet(_) => self.ask(call, bytes),
            DeskCall::PulledScan(_) => self.ask(call, bytes),
            DeskCall::Empty => self.ask(call, bytes),
            DeskCall::Pending => self.ask(call, bytes),
            DeskCall::Cookie => self.ask(call, bytes),
            DeskCall::Closed => self.ask(call, bytes),
            DeskCall::Push(skip) => self.push(skip, bytes),
            DeskCall::Moment => self.moment(),
            _ => Outcome::Faulty(CallFault::NotAsked),
        }
    }
}
