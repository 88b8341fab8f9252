//! The tries of a change.
//!
//! Each try pins the seat anew, looks where the head is, drafts the change at the state there, and moves the head from
//! there. Where the group hasn't a mutator, the try stops and asks for its run; a group that has all makes a change in
//! one call (`make_change`).
//!
//! What a call has done since it began is said of any seat `before` from which its tries were counted (`IsSince`): so
//! what was known when the call began need not be kept while the caller runs the mutators.
ghost use Rattle.std.specs.Prelude.{ℕ, ◌≡◌, ◌<◌, [], Some, IfOk, IfErr};
ghost use Rattle.group_history.specs.Record.{after};
ghost use Rattle.head_word.specs.Books.{drawn, next_stamp, record_of};
ghost use Rattle.map_chunks.specs.Drafts.{IsLate};
ghost use Rattle.commit_graph.specs.Seats.{IsReading, IsSameSeat, IsSeatOf, SeatState};
ghost use Rattle.linearized.specs.Trying.{IsUnproposed};
ghost use Rattle.group_history.specs.declared.refusals.Refusal.TheVariants as refusal;
ghost use Rattle.change_tries.specs.Causes.{HasCauseAt};
ghost use Rattle.change_tries.specs.Changing.{EndsAt, EndsTry, FreesTry};
ghost use Rattle.change_tries.specs.Missing.{IsStop};
ghost use Rattle.change_tries.specs.Proposing.{IsUnmade, MayAsk, MayPropose, StaysFound, asked_reply, change_asked};
ghost use Rattle.change_tries.specs.Runs.{IsAskedRun, IsRunOf, MayStep};
ghost use Rattle.change_tries.specs.Tries.{BeginsFirst, GoesBehind, IsPassed, NeedsNone, StartsIfAny, IsArrivedSince};
ghost use Rattle.change_tries.specs.Tries.{IsGoing, IsSince, IsTurn, StandsOn, TellsGoing, TellsTurn, turn_of};

use crate::ending::end_run;
use crate::group::SharedGroup;
use crate::moving::move_head;
use crate::places::At;
use crate::proposing::{ChangeCall, Proposal, Request};
use crate::requests::begin;
use crate::runs::{BoxedRun, EndedRun, NextStep};
use crate::steps::{Arrival, pin_and_load_both, unpin};
use change_drafts::Runs;
use chunk_slots::Store;
use commit_graph::{ClientSeat, LastId};
use group_history::{Means, Ran, Ref, Refusal};

/// How a try of a change ended.
#[derive(Clone, Copy)]
pub enum Tried {
    /// The change was made, and its commit is there.
    Made(Ref),

    /// There is nothing to change.
    Same,

    /// Others moved the head first.
    Lost,
}

/// A change that is under way: where the call arrived, the run that is asked for, and how many tries were lost before.
#[derive(Drop)]
pub struct Attempt<M: Means> {
    pub arrival: Arrival<M>,
    pub run: BoxedRun,
    pub lost: u32,
}

/// A change that is under way, and how the run ended that it asked for.
#[derive(Drop)]
pub struct EndedAttempt<M: Means> {
    pub attempt: Attempt<M>,
    pub ran: Ran,
}

/// What a change asks for, or what it came to: the commit where it stands, none where there is nothing to change.
#[derive(Drop)]
pub enum Progress<M: Means> {
    /// A run.
    Run(Attempt<M>),

    /// The end of the call.
    Ended(Result<Option<Ref>, Refusal>),
}

/// How a try went on.
#[derive(Drop)]
pub(crate) enum TryOutcome {
    /// It asks for a run.
    Run(BoxedRun),

    /// The call ends.
    Ended(Result<Option<Ref>, Refusal>),

    /// Others moved the head first.
    Lost,
}

// How a try went on that needed no run more.
fn turn_of(tried: Result<Tried, Refusal>) -> TryOutcome
    ensures { result ≡ turn_of tried }
{
    match tried {
        Ok(Tried::Made(at)) => TryOutcome::Ended(Ok(Some(at))),
        Ok(Tried::Same) => TryOutcome::Ended(Ok(None)),
        Ok(Tried::Lost) => TryOutcome::Lost,
        Err(e) => TryOutcome::Ended(Err(e)),
    }
}

// Moves the head from where the call arrived to what was proposed there.
fn move_there<M: Means, S: Store<M>>(
    group: &SharedGroup<M, S>,
    seat: &mut ClientSeat<M, S>,
    arrival: &Arrival<M>,
    request: &Request<'_>,
    proposal: Proposal,
) -> Result<Tried, Refusal>
    requires reading { IsReading S.reused group.now.shared seat.old }
    requires none { S.reused → seat.old.view.taken ≡ [] }
    requires asks { MayAsk (drawn seat.old.mark.log) request.now.before request.now.call.change.now }
    requires stands { StandsOn M.means seat.old arrival.now.seen.log arrival.now.base }
    requires proposed { MayPropose M.means (drawn seat.old.mark.log) arrival.now.base
        (after (record_of arrival.now.seen.log)) request.now.before.id request.now.call.change.now (Some proposal) }
    ensures seat { IsSameSeat seat.old seat.new }
    ensures none { S.reused → seat.new.view.taken ≡ [] }
    ensures tried { IfOk result (EndsTry M.means seat.old.mark seat.new.mark arrival.now.base
        (after (record_of arrival.now.seen.log)) request.now.before.id request.now.call.change.now) }
    ensures err { IfErr result (IsUnmade (IsStop S.reused) (change_asked request.now.call.change.now)
        (asked_reply M.means (after (record_of arrival.now.seen.log)) request.now.before.id request.now.call.change.now)
        request.now.call.tries seat.old.mark seat.new.mark) }
    ensures cause { IfErr result (HasCauseAt M.means S.reused (after (record_of arrival.now.seen.log))
        request.now.before.id request.now.call.change.now seat.old seat.new) }
    ensures frees { S.reused → FreesTry (EndsAt group.now.shared.table.sizes (after (record_of arrival.now.seen.log))
        request.now.call.change.now) request.now.call.change.now seat.old seat.new result }
{
    arrival.seen.legal();
    let ChangeCall { change, tries } = request.call;
    match move_head::<M, S>(&group.shared, seat, change, proposal, tries) {
        Ok(Some(at)) => Ok(Tried::Made(at)),
        Ok(None) => Ok(Tried::Lost),
        Err(e) => Err(e),
    }
}

// What the try comes to, by what was proposed where the call arrived.
fn make_there<M: Means, S: Store<M>>(
    group: &SharedGroup<M, S>,
    seat: &mut ClientSeat<M, S>,
    arrival: &Arrival<M>,
    request: &Request<'_>,
    proposed: Result<Option<Proposal>, Refusal>,
) -> Result<Tried, Refusal>
    requires reading { IsReading S.reused group.now.shared seat.old }
    requires none { S.reused → seat.old.view.taken ≡ [] }
    requires asks { MayAsk (drawn seat.old.mark.log) request.now.before request.now.call.change.now }
    requires stands { StandsOn M.means seat.old arrival.now.seen.log arrival.now.base }
    requires proposed { IfOk proposed (MayPropose M.means (drawn seat.old.mark.log) arrival.now.base
        (after (record_of arrival.now.seen.log)) request.now.before.id request.now.call.change.now) }
    requires unproposed { IfErr proposed (IsUnproposed (IsStop S.reused) (change_asked request.now.call.change.now)
        (asked_reply M.means (after (record_of arrival.now.seen.log)) request.now.before.id
        request.now.call.change.now)) }
    requires late { IfErr proposed (λ e. e ≡ refusal.Stamps → IsLate (next_stamp seat.old.mark.log)) }
    ensures seat { IsSameSeat seat.old seat.new }
    ensures none { S.reused → seat.new.view.taken ≡ [] }
    ensures tried { IfOk result (EndsTry M.means seat.old.mark seat.new.mark arrival.now.base
        (after (record_of arrival.now.seen.log)) request.now.before.id request.now.call.change.now) }
    ensures err { IfErr result (IsUnmade (IsStop S.reused) (change_asked request.now.call.change.now)
        (asked_reply M.means (after (record_of arrival.now.seen.log)) request.now.before.id request.now.call.change.now)
        request.now.call.tries seat.old.mark seat.new.mark) }
    ensures cause { IfErr result (HasCauseAt M.means S.reused (after (record_of arrival.now.seen.log))
        request.now.before.id request.now.call.change.now seat.old seat.new) }
    ensures frees { S.reused → FreesTry (EndsAt group.now.shared.table.sizes (after (record_of arrival.now.seen.log))
        request.now.call.change.now) request.now.call.change.now seat.old seat.new result }
{
    match proposed {
        Ok(Some(proposal)) => move_there::<M, S>(group, seat, arrival, request, proposal),
        Ok(None) => Ok(Tried::Same),
        Err(e) => Err(e),
    }
}

// The end of a try, by what was proposed. The pin is taken away.
fn end_try<M: Runs, S: Store<M>>(
    group: &SharedGroup<M, S>,
    seat: &mut ClientSeat<M, S>,
    arrival: &Arrival<M>,
    request: &Request<'_>,
    proposed: Result<Option<Proposal>, Refusal>,
) -> TryOutcome
    requires reading { IsReading S.reused group.now.shared seat.old }
    requires none { S.reused → seat.old.view.taken ≡ [] }
    requires asks { MayAsk (drawn seat.old.mark.log) request.now.before request.now.call.change.now }
    requires stands { StandsOn M.means seat.old arrival.now.seen.log arrival.now.base }
    requires proposed { IfOk proposed (MayPropose M.means (drawn seat.old.mark.log) arrival.now.base
        (after (record_of arrival.now.seen.log)) request.now.before.id request.now.call.change.now) }
    requires unproposed { IfErr proposed (IsUnproposed (IsStop S.reused) (change_asked request.now.call.change.now)
        (asked_reply M.means (after (record_of arrival.now.seen.log)) request.now.before.id
        request.now.call.change.now)) }
    requires late { IfErr proposed (λ e. e ≡ refusal.Stamps → IsLate (next_stamp seat.old.mark.log)) }
    ensures seat { IsSameSeat seat.old seat.new }
    ensures turn { IsTurn M.has M.means S.reused seat.old seat.new (after (record_of arrival.now.seen.log))
        request.now.before.id request.now.call.change.now result }
    ensures none { NeedsNone result }
    ensures told { (before : SeatState) (lost : ℕ)
        → IsArrivedSince M.means S.reused before lost request.now.call.change.now arrival.now.seen.log seat.old
        → TellsTurn M.means S.reused request.now.call.tries before lost seat.new request.now.before.id
        request.now.call.change.now result }
{
    let tried = make_there::<M, S>(group, seat, arrival, request, proposed);
    unpin(&group.shared, seat);
    turn_of(tried)
}

// The try goes on: a run is asked for, or it ends.
fn step_on<M: Runs, S: Store<M>>(
    group: &SharedGroup<M, S>,
    seat: &mut ClientSeat<M, S>,
    arrival: &Arrival<M>,
    request: &Request<'_>,
    step: Result<NextStep, Refusal>,
) -> TryOutcome
    requires reading { IsReading S.reused group.now.shared seat.old }
    requires none { S.reused → seat.old.view.taken ≡ [] }
    requires asks { MayAsk (drawn seat.old.mark.log) request.now.before request.now.call.change.now }
    requires stands { StandsOn M.means seat.old arrival.now.seen.log arrival.now.base }
    requires step { IfOk step (MayStep M.has M.means (drawn seat.old.mark.log) arrival.now.base
        (after (record_of arrival.now.seen.log)) request.now.before.id request.now.call.change.now) }
    requires unproposed { IfErr step (IsUnproposed (IsStop S.reused) (change_asked request.now.call.change.now)
        (asked_reply M.means (after (record_of arrival.now.seen.log)) request.now.before.id
        request.now.call.change.now)) }
    requires late { IfErr step (λ e. e ≡ refusal.Stamps → IsLate (next_stamp seat.old.mark.log)) }
    ensures seat { IsSameSeat seat.old seat.new }
    ensures turn { IsTurn M.has M.means S.reused seat.old seat.new (after (record_of arrival.now.seen.log))
        request.now.before.id request.now.call.change.now result }
    ensures passed { IsPassed step result }
    ensures told { (before : SeatState) (lost : ℕ)
        → IsArrivedSince M.means S.reused before lost request.now.call.change.now arrival.now.seen.log seat.old
        → TellsTurn M.means S.reused request.now.call.tries before lost seat.new request.now.before.id
        request.now.call.change.now result }
{
    match step {
        Ok(NextStep::Run(run)) => {
            return TryOutcome::Run(run);
        }
        Ok(NextStep::Move(proposal)) => {
            return end_try::<M, S>(group, seat, arrival, request, Ok(Some(proposal)));
        }
        Ok(NextStep::Same) => {
            return end_try::<M, S>(group, seat, arrival, request, Ok(None));
        }
        Err(e) => {
            return end_try::<M, S>(group, seat, arrival, request, Err(e));
        }
    }
}

// Begins a try where the call arrived.
fn begin_there<M: Runs, S: Store<M>>(
    group: &SharedGroup<M, S>,
    seat: &mut ClientSeat<M, S>,
    arrival: &Arrival<M>,
    call: &ChangeCall<'_>,
    found: &mut LastId,
) -> TryOutcome
    requires reading { IsReading S.reused group.now.shared seat.old }
    requires none { S.reused → seat.old.view.taken ≡ [] }
    requires asks { MayAsk (drawn seat.old.mark.log) found.old call.now.change.now }
    requires stands { StandsOn M.means seat.old arrival.now.seen.log arrival.now.base }
    requires first { arrival.now.first ≡ next_stamp seat.old.mark.log }
    ensures seat { IsSameSeat seat.old seat.new }
    ensures turn { IsTurn M.has M.means S.reused seat.old seat.new (after (record_of arrival.now.seen.log))
        found.old.id call.now.change.now result }
    ensures first { BeginsFirst M.has (after (record_of arrival.now.seen.log)) call.now.change.now result }
    ensures kept { StaysFound (drawn seat.new.mark.log) found.old found.new call.now.change.now }
    ensures told { (before : SeatState) (lost : ℕ)
        → IsArrivedSince M.means S.reused before lost call.now.change.now arrival.now.seen.log seat.old
        → TellsTurn M.means S.reused call.now.tries before lost seat.new found.old.id call.now.change.now result }
{
    let LastId { id, .. } = *found;
    let at = At::new(group, seat, &arrival.seen, arrival.base, call.tries);
    let step = begin(&at, arrival.first, call.change, found);
    drop(at);
    let before = LastId { at: found.at, id };
    let request = Request {
        call: *call,
        before,
    };
    step_on::<M, S>(group, seat, arrival, &request, step)
}

// Goes on with a try where the run that it asked for ended so.
pub(crate) fn ran_there<M: Runs, S: Store<M>>(
    group: &SharedGroup<M, S>,
    seat: &mut ClientSeat<M, S>,
    arrival: &Arrival<M>,
    request: &Request<'_>,
    ended: EndedRun,
) -> TryOutcome
    requires reading { IsReading S.reused group.now.shared seat.old }
    requires none { S.reused → seat.old.view.taken ≡ [] }
    requires asks { MayAsk (drawn seat.old.mark.log) request.now.before request.now.call.change.now }
    requires stands { StandsOn M.means seat.old arrival.now.seen.log arrival.now.base }
    requires run { IsAskedRun M.means (drawn seat.old.mark.log) (after (record_of arrival.now.seen.log))
        request.now.before.id request.now.call.change.now ended.run }
    requires ran { IsRunOf M.means (drawn seat.old.mark.log) ended.run ended.ran }
    ensures seat { IsSameSeat seat.old seat.new }
    ensures turn { IsTurn M.has M.means S.reused seat.old seat.new (after (record_of arrival.now.seen.log))
        request.now.before.id request.now.call.change.now result }
    ensures behind { GoesBehind M.has M.means (drawn seat.old.mark.log) ended.run ended.ran result }
    ensures told { (before : SeatState) (lost : ℕ)
        → IsArrivedSince M.means S.reused before lost request.now.call.change.now arrival.now.seen.log seat.old
        → TellsTurn M.means S.reused request.now.call.tries before lost seat.new request.now.before.id
        request.now.call.change.now result }
{
    let at = At::new(group, seat, &arrival.seen, arrival.base, request.call.tries);
    let step = end_run(&at, request, ended);
    drop(at);
    step_on::<M, S>(group, seat, arrival, request, step)
}

// Begins a try after so many that were lost: it asks for a run, or ends the call, or is lost itself.
pub(crate) fn begin_try<M: Runs, S: Store<M>>(
    group: &SharedGroup<M, S>,
    seat: &mut ClientSeat<M, S>,
    call: &ChangeCall<'_>,
    found: &mut LastId,
    lost: u32,
) -> Option<Progress<M>>
    requires home { IsSeatOf group.now.shared seat.old }
    requires none { S.reused → seat.old.view.taken ≡ [] }
    requires asks { MayAsk (drawn seat.old.mark.log) found.old call.now.change.now }
    ensures seat { IsSameSeat seat.old seat.new }
    ensures going { IsGoing M.has M.means S.reused group.now.shared seat.new lost found.old.id call.now.change.now
        result }
    ensures first { StartsIfAny M.has lost call.now.change.now result }
    ensures kept { StaysFound (drawn seat.new.mark.log) found.old found.new call.now.change.now }
    ensures told { (before : SeatState) → IsSince S.reused before lost call.now.change.now seat.old
        → TellsGoing M.means S.reused call.now.tries before lost seat.new found.old.id call.now.change.now result }
{
    let arrival = match pin_and_load_both(&group.shared, seat, call.tries) {
        Ok(arrival) => arrival,
        Err(e) => {
            return Some(Progress::Ended(Err(e)));
        }
    };
    match begin_there::<M, S>(group, seat, &arrival, call, found) {
        TryOutcome::Run(run) => Some(Progress::Run(Attempt { arrival, run, lost })),
        TryOutcome::Ended(made) => Some(Progress::Ended(made)),
        TryOutcome::Lost => None,
    }
}
