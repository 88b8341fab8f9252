//! What a place of a host has: a desk, and the desks of its group that are not given out yet.
ghost use Rattle.std.specs.Prelude.{◌≡◌, ◌++◌, ◌∷◌, ◌<◌, [], length, IfErr, IfNone, IfOk, IfSome, Ok};
ghost use Rattle.rule_mutators.specs.Views.{rules_of};
ghost use Rattle.giqaymu_c.specs.Inside.{IsBoxed};
ghost use Rattle.giqaymu_c.specs.Jobs.{Acts, Calls, Gives, HasCalled, HasGiven, HasOpened, IsFit, IsMeantBy};
ghost use Rattle.giqaymu_c.specs.Jobs.{IsOpeningRefusal, IsRulesRefusal, IsToldAsMeant};
ghost use Rattle.giqaymu_c.specs.Jobs.{OpensPlaces, RepliesAt, rules_given};

use crate::held::MaybeBox;
use crate::jobs::{Grounds, Job, JobReply};
use group_history::Refusal;
use host_places::{
    CallFault, Desk, HostMutators, NamesMutators, Numbered, Outcome, close_places, open_places,
};
use rule_mutators::{RuleFault, Rules};
use std::alloc::Global;
use std::marker::Model;

/// What a place of a host has: a desk, and the desks of its group that are not given out yet.
pub(crate) struct OpenPlace<B: NamesMutators> {
    desk: Desk<HostMutators<B>>,
    spare: Vec<Desk<HostMutators<B>>>,
}

impl<B: NamesMutators> Model for OpenPlace<B> {
    ghost use Rattle.giqaymu_c.specs.Codes.{state_coded};
    ghost use Rattle.giqaymu_c.specs.Spots.{SpotState};

    ghost Value = { SpotState };

    ghost coded = { state_coded };

    ghost view = { λ s. record { desk = s.desk; spare = s.spare.items } };
}

// A box can be made a pointer only where its value may be dropped. A desk can't be: this closes each.
impl<B: NamesMutators> Drop for OpenPlace<B> {
    fn drop(self) {
        let OpenPlace { desk, spare } = self;
        drop(desk.close());
        close_places(spare);
    }
}

/// The rules of a text; no bytes are no rules.
fn rules_of_text(alloc: Global, text: &[u8]) -> Result<Rules, Outcome>
    ensures ok { IfOk result (λ rules. rules_given text.now ≡ Ok (rules_of rules)) }
    ensures err { IfErr result (λ e. IsRulesRefusal text.now e) }
{
    match Rules::read_or_none(alloc, text) {
        Ok(rules) => Ok(rules),
        Err(RuleFault::NoMemory) => Err(Outcome::Refused(Refusal::NoMemory)),
        Err(_) => Err(Outcome::Faulty(CallFault::BadRules)),
    }
}

impl<B: NamesMutators> OpenPlace<B> {
    // The desks of a group that was opened.
    fn of(desks: Vec<Desk<HostMutators<B>>>) -> OpenPlace<B>
        requires { 0 < length desks.items }
        ensures { desks.items ≡ result.spare ++ result.desk ∷ [] }
    {
        let mut spare = desks;
        let desk = spare.pop().unwrap();
        OpenPlace { desk, spare }
    }

    // What the call of this number came to, and where the bytes lie that it told.
    fn reply(&self, what: u32, outcome: Outcome) -> JobReply
        ensures { RepliesAt what outcome self.now.desk result }
    {
        JobReply {
            number: outcome.number(),
            value: self.desk.number_beside(what, outcome),
            code: outcome.code(),
            at: self.desk.start(),
            len: self.desk.bytes().len(),
        }
    }

    // A spot of the next desk that isn't given out yet.
    fn next(&mut self, alloc: Global) -> Option<OpenPlace<B>>
        ensures desk { self.new.desk ≡ self.old.desk }
        ensures some { IfSome result (λ spot. (self.old.spare ≡ self.new.spare ++ spot.desk ∷ [])
            × (spot.spare ≡ [])) }
        ensures none { IfNone result ((self.old.spare ≡ []) × (self.new.spare ≡ [])) }
    {
        match self.spare.pop() {
            Some(desk) => Some(OpenPlace {
                desk,
                spare: Vec::new(alloc),
            }),
            None => None,
        }
    }

    // In a box.
    fn boxed(self, alloc: Global) -> (MaybeBox<OpenPlace<B>>, JobReply)
        ensures { IsBoxed self result.1 result.0.value }
    {
        match Box::new(alloc, self) {
            Ok(spot) => (MaybeBox::of(spot), JobReply::bare(Outcome::Done)),
            Err(_) => (
                MaybeBox::none(),
                JobReply::bare(Outcome::Refused(Refusal::NoMemory)),
            ),
        }
    }

    fn give(&mut self, alloc: Global) -> (MaybeBox<OpenPlace<B>>, JobReply)
        ensures { Gives self.old result.1 self.new result.0.value }
    {
        match self.next(alloc) {
            Some(spot) => spot.boxed(alloc),
            None => (
                MaybeBox::none(),
                JobReply::bare(Outcome::Refused(Refusal::NoSeat)),
            ),
        }
    }
}

impl<B: NamesMutators + Sync> OpenPlace<B> {
    fn open(alloc: Global, grounds: Grounds<'_>) -> Result<OpenPlace<B>, Outcome>
        requires { IsMeantBy grounds B.meant }
        ensures opened { IfOk result (λ spot. OpensPlaces grounds.entry spot) }
        ensures err { IfErr result (IsOpeningRefusal grounds.entry) }
    {
        if grounds.own > 1 {
            return Err(Outcome::Faulty(CallFault::OutOfRange));
        }
        let rules = rules_of_text(alloc, grounds.rules)?;
        let mutators = HostMutators::<B>::new(rules, grounds.own == 1);
        let desks = open_places(alloc, grounds.with, mutators)?;
        Ok(OpenPlace::of(desks))
    }

    fn call(&mut self, call: Numbered<'_>) -> JobReply
        requires { IsToldAsMeant B.meant call self.old }
        ensures { Calls B.meant call.entry self.old result self.new }
    {
        let outcome = self.desk.call_numbered(call);
        self.reply(call.what, outcome)
    }
}

fn open_held<B: NamesMutators + Sync>(
    alloc: Global,
    grounds: Grounds<'_>,
) -> (MaybeBox<OpenPlace<B>>, JobReply)
    requires { IsMeantBy grounds B.meant }
    ensures { HasOpened grounds.entry result.1 result.0.value }
{
    match OpenPlace::<B>::open(alloc, grounds) {
        Ok(spot) => spot.boxed(alloc),
        Err(outcome) => (MaybeBox::none(), JobReply::bare(outcome)),
    }
}

fn call_held<B: NamesMutators + Sync>(
    held: MaybeBox<OpenPlace<B>>,
    alloc: Global,
    call: Numbered<'_>,
) -> (MaybeBox<OpenPlace<B>>, JobReply)
    requires { IfSome held.value (IsToldAsMeant B.meant call) }
    ensures { HasCalled B.meant call.entry held.value result.1 result.0.value }
{
    let Some(mut spot) = held.into_box(alloc) else {
        return (
            MaybeBox::none(),
            JobReply::bare(Outcome::Faulty(CallFault::NoPlace)),
        );
    };
    let reply = spot.call(call);
    (MaybeBox::of(spot), reply)
}

fn give_held<B: NamesMutators + Sync>(
    held: MaybeBox<OpenPlace<B>>,
    alloc: Global,
) -> (MaybeBox<OpenPlace<B>>, MaybeBox<OpenPlace<B>>, JobReply)
    ensures { HasGiven held.value result.2 result.0.value result.1.value }
{
    let Some(mut spot) = held.into_box(alloc) else {
        let reply = JobReply::bare(Outcome::Faulty(CallFault::NoPlace));
        return (MaybeBox::none(), MaybeBox::none(), reply);
    };
    let (given, reply) = spot.give(alloc);
    (MaybeBox::of(spot), given, reply)
}

/// Does a job at a place. What comes second is the place that is given.
#[inline(always)]
pub(crate) fn act_held<B: NamesMutators + Sync>(
    held: MaybeBox<OpenPlace<B>>,
    alloc: Global,
    job: Job<'_>,
) -> (MaybeBox<OpenPlace<B>>, MaybeBox<OpenPlace<B>>, JobReply)
    requires { IsFit job B.meant held.value }
    ensures { Acts job.entry B.meant held.value result.2 result.0.value result.1.value }
{
    match job {
        Job::Open(grounds) => {
            drop(held.into_box(alloc));
            let (held, reply) = open_held::<B>(alloc, grounds);
            (held, MaybeBox::none(), reply)
        }
        Job::Give => give_held(held, alloc),
        Job::Call(call) => {
            let (held, reply) = call_held(held, alloc, call);
            (held, MaybeBox::none(), reply)
        }
        Job::Close => {
            drop(held.into_box(alloc));
            (
                MaybeBox::none(),
                MaybeBox::none(),
                JobReply::bare(Outcome::Done),
            )
        }
    }
}
