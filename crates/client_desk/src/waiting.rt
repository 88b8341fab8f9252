//! Changes that wait for others, at a place of a group that has all mutators.
ghost use Rattle.std.specs.Prelude.{◌≡◌, [], None};
ghost use Rattle.rebase.specs.declared.calls.Call.TheVariants as changing;
ghost use Rattle.client_desk.specs.declared.faults.CallFault.TheVariants as fault;
ghost use Rattle.client_desk.specs.Answers.{At, ByClient};
ghost use Rattle.client_desk.specs.Kept.{kept_at};
ghost use Rattle.client_desk.specs.Told.{told, told_alone};
ghost use Rattle.client_desk.specs.Waiting.{IsEndOf, MayAnswerWaiting, Waits};

use crate::calls::DeskCall;
use crate::faults::CallFault;
use crate::kept::kept_at;
use crate::mutators::Whole;
use crate::outcomes::{Outcome, ended_outcome, id_outcome};
use crate::place::Place;
use crate::sitting::Sitting;
use group_history::Mutators;
use rebase::Mutate;
use std::sync::Wait;

impl<M: Mutators + Drop> Place<Whole<M>> {
    fn mutate_waiting<R: Wait>(&mut self, rt: &R, asked: Mutate<'_>) -> Outcome
        ensures { ByClient (Waits M.means (λ x. x ≡ changing.Mutate asked.entry)) self.old (told_alone result)
            self.new }
    {
        let Sitting::Client(client) = &mut self.sitting else {
            return Outcome::Faulty(self.sitting.absent());
        };
        id_outcome(client.mutate(rt, asked.name, asked.args, asked.time))
    }

    fn end_waiting<R: Wait>(&mut self, rt: &R, number: usize, body: &[u8]) -> Outcome
        ensures { ByClient (λ c b. At (kept_at b.tickets number) fault.NoTicket
            (λ kept. Waits M.means (IsEndOf kept body.now) c) b) self.old (told_alone result) self.new }
    {
        let Sitting::Client(client) = &mut self.sitting else {
            return Outcome::Faulty(self.sitting.absent());
        };
        match kept_at(&self.tickets, number) {
            Some(ticket) => {
                return ended_outcome(client.end_pull(rt, ticket, body));
            }
            None => {
                return Outcome::Faulty(CallFault::NoTicket);
            }
        }
    }

    // The group has all mutators, so no change of the place asks for a run.
    fn is_calm(&self)
        ensures { self.now.asking ≡ None }
    {
        let _sitting = &self.sitting;
    }

    fn tell_waiting<R: Wait>(&mut self, rt: &R, call: DeskCall<'_>, bytes: &mut Vec<u8>) -> Outcome
        requires { bytes.old.items ≡ [] }
        ensures { MayAnswerWaiting M.means call.entry self.old (told result bytes.new.items) self.new }
    {
        match call {
            DeskCall::Mutate(asked) => self.mutate_waiting(rt, asked),
            DeskCall::End(number, body) => self.end_waiting(rt, number, body),
            other => self.call(other, bytes),
        }
    }

    /// Makes a call, of which a change waits for others. What it tells as bytes is written, none where it was refused.
    /// The place stays at its group.
    pub fn call_waiting<R: Wait>(
        &mut self,
        rt: &R,
        call: DeskCall<'_>,
        bytes: &mut Vec<u8>,
    ) -> Outcome
        requires { bytes.old.items ≡ [] }
        ensures told { MayAnswerWaiting M.means call.entry self.old (told result bytes.new.items) self.new }
        ensures group { self.new.group ≡ self.old.group }
    {
        self.is_calm();
        self.tell_waiting(rt, call, bytes)
    }
}
