//! Changes: their tries, one after the other.
ghost use Rattle.std.specs.Prelude.{◌≡◌, ◌<◌, ◌≤◌, [], max, Some, IfOk, IfErr, IfSome};
ghost use Rattle.head_word.specs.Books.{drawn};
ghost use Rattle.chunk_slots.specs.Seats.{IsIdle};
ghost use Rattle.commit_graph.specs.Seats.{IsSameSeat, IsSeatOf, SeatState};
ghost use Rattle.linearized.specs.Answered.{IsLinearized};
ghost use Rattle.change_tries.specs.Causes.{HasCause};
ghost use Rattle.change_tries.specs.Changing.{is_made};
ghost use Rattle.change_tries.specs.Leaving.{Frees, spared};
ghost use Rattle.change_tries.specs.Missing.{map_ok};
ghost use Rattle.change_tries.specs.Proposing.{HasLast, MayAsk, StaysFound, asked_reply, change_asked};
ghost use Rattle.change_tries.specs.Runs.{IsRunOf};
ghost use Rattle.change_tries.specs.Tries.{FollowsRun, StartsAnew, IsArrivedSince, IsAttempt, IsProgress, IsSince};
ghost use Rattle.change_tries.specs.Tries.{TellsProgress};

use crate::group::SharedGroup;
use crate::proposing::{ChangeCall, Request};
use crate::runs::EndedRun;
use crate::trying::{Attempt, EndedAttempt, Progress, TryOutcome, begin_try, ran_there};
use change_drafts::Runs;
use chunk_slots::Store;
use commit_graph::{ClientSeat, LastId};
use group_history::{Change, Mutators, Ref, Refusal};

// How long a call rests behind its first lost try, in turns of a loop, and how often that is doubled at most.
const REST: u32 = 16;

const DOUBLINGS: u32 = 9;

// Rests behind a lost try, longer each time: who tries again at once slows down who is ahead.
fn rest(lost: u32) {
    for _ in 0..REST << lost.min(DOUBLINGS) {
        std::hint::spin_loop();
    }
}

/// Asks for the first run of a change, which lost so many tries to others before; or ends it, where it needs none. It
/// is tried anew where others moved the head first, `tries` times in all and once at least.
pub fn ask_from<M: Runs, S: Store<M>>(
    group: &SharedGroup<M, S>,
    seat: &mut ClientSeat<M, S>,
    call: &ChangeCall<'_>,
    found: &mut LastId,
    lost: u32,
) -> Progress<M>
    requires home { IsSeatOf group.now.shared seat.old }
    requires none { S.reused → seat.old.view.taken ≡ [] }
    requires asks { MayAsk (drawn seat.old.mark.log) found.old call.now.change.now }
    requires few { lost ≤ max 1 call.now.tries }
    requires idle { 0 < lost → S.reused → IsIdle seat.old.view }
    ensures seat { IsSameSeat seat.old seat.new }
    ensures stands { IsProgress M.has M.means S.reused group.now.shared seat.new call.now.tries found.old.id
        call.now.change.now result }
    ensures first { StartsAnew M.has lost call.now.change.now result }
    ensures kept { StaysFound (drawn seat.new.mark.log) found.old found.new call.now.change.now }
    ensures told { (before : SeatState) → IsSince S.reused before lost call.now.change.now seat.old
        → TellsProgress M.means S.reused call.now.tries before seat.new found.old.id call.now.change.now result }
{
    for tried in lost..call.tries.max(1) {
        match begin_try::<M, S>(group, seat, call, found, tried) {
            Some(progress) => {
                return progress;
            }
            None => rest(tried),
        }
    }
    Progress::Ended(Err(Refusal::Moved))
}

/// Goes on with the change where the run that it asked for ended so: the next run is asked for, or the call ends. Where
/// others moved the head first, all runs are asked for anew.
pub fn ran_from<M: Runs, S: Store<M>>(
    group: &SharedGroup<M, S>,
    seat: &mut ClientSeat<M, S>,
    ended: EndedAttempt<M>,
    call: &ChangeCall<'_>,
    found: &mut LastId,
) -> Progress<M>
    requires attempt { IsAttempt M.means S.reused group.now.shared seat.old found.old.id
        call.now.change.now ended.attempt }
    requires few { ended.attempt.lost < max 1 call.now.tries }
    requires asks { MayAsk (drawn seat.old.mark.log) found.old call.now.change.now }
    requires ran { IsRunOf M.means (drawn seat.old.mark.log) ended.attempt.run ended.ran }
    ensures seat { IsSameSeat seat.old seat.new }
    ensures stands { IsProgress M.has M.means S.reused group.now.shared seat.new call.now.tries found.old.id
        call.now.change.now result }
    ensures next { FollowsRun M.has M.means seat.old seat.new ended.attempt ended.ran call.now.change.now result }
    ensures kept { StaysFound (drawn seat.new.mark.log) found.old found.new call.now.change.now }
    ensures told { (before : SeatState) → IsArrivedSince M.means S.reused before ended.attempt.lost call.now.change.now
        ended.attempt.arrival.seen.log seat.old
        → TellsProgress M.means S.reused call.now.tries before seat.new found.old.id call.now.change.now result }
{
    let EndedAttempt { attempt, ran } = ended;
    let Attempt { arrival, run, lost } = attempt;
    let before = *found;
    let request = Request {
        call: *call,
        before,
    };
    match ran_there::<M, S>(group, seat, &arrival, &request, EndedRun { run, ran }) {
        TryOutcome::Run(run) => Progress::Run(Attempt { arrival, run, lost }),
        TryOutcome::Ended(made) => Progress::Ended(made),
        TryOutcome::Lost => ask_from::<M, S>(group, seat, call, found, lost + 1),
    }
}

/// Makes a change that a client asks for, of a group that has all mutators, and answers the commit where it stands:
/// none where there is nothing to change. It is tried anew where others moved the head first, `tries` times and once at
/// least. Where its client's last id was found by the way stays known, also where the change is refused.
pub fn make_change<M: Mutators, S: Store<M>>(
    group: &SharedGroup<M, S>,
    seat: &mut ClientSeat<M, S>,
    change: &Change,
    found: &mut LastId,
    tries: u32,
) -> Result<Option<Ref>, Refusal>
    requires home { IsSeatOf group.now.shared seat.old }
    requires none { S.reused → seat.old.view.taken ≡ [] }
    requires asks { MayAsk (drawn seat.old.mark.log) found.old change.now }
    ensures seat { IsSameSeat seat.old seat.new }
    ensures idle { S.reused → IsIdle seat.new.view }
    ensures answer { IsLinearized M.means tries seat.old.mark seat.new.mark (map_ok is_made result)
        (change_asked change.now) (λ s. asked_reply M.means s found.old.id change.now) }
    ensures found { IfOk result (λ made. IfSome made (λ at. HasLast (drawn seat.new.mark.log) at change.now)) }
    ensures cause { IfErr result (HasCause M.means S.reused found.old.id (Some change.now)
        seat.old seat.new) }
    ensures frees { S.reused → Frees (Some change.now) (spared result) seat.old seat.new
        (change_asked change.now (map_ok is_made result)) }
    ensures kept { StaysFound (drawn seat.new.mark.log) found.old found.new change.now }
{
    match ask_from::<M, S>(group, seat, &ChangeCall { change, tries }, found, 0) {
        Progress::Ended(made) => made,
        Progress::Run(_) => unreachable!(),
    }
}
