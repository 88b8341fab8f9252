//! What a client sees of the group: all of it as one text.
ghost use Rattle.commit_graph.specs.Seats.{IsSameSeat};

use crate::replies::{CallResult, Said};
use chunk_slots::Store;
use group_history::{Scan, Start, Text};
use rebase::{Call, Client};
use script_mutators::ScriptMutators;
use std::alloc::{AllocError, Global};

/// Nobody else calls, so no try is lost.
const TRIES: u32 = 1;

/// The scan of all rows.
pub(crate) fn all_rows(alloc: Global) -> Result<Scan, AllocError> {
    Ok(Scan {
        prefix: Text::new(alloc, "")?,
        start: Start::Any,
        limit: None,
    })
}

/// Says what is seen, and a line feed. What is refused is not seen.
pub(crate) fn say_seen(seen: &mut Said, answer: &CallResult) {
    seen.say_answer("last ", answer);
    seen.say("\n");
    if answer.is_err() {
        seen.cut();
    }
}

fn add_look<S: Store<ScriptMutators>>(
    seen: &mut Said,
    looker: &mut Client<ScriptMutators, S>,
    call: Call<'_>,
)
    ensures { IsSameSeat looker.old.seat looker.new.seat }
{
    let answer = looker.make_call(call, TRIES);
    say_seen(seen, &answer);
}

/// The client's last id, what is pending, the cookie, whether the group is closed, and all rows.
pub(crate) fn look<S: Store<ScriptMutators>>(
    looker: &mut Client<ScriptMutators, S>,
    all: &Scan,
    alloc: Global,
) -> Said
    ensures { IsSameSeat looker.old.seat looker.new.seat }
{
    let mut seen = Said::nothing(alloc);
    add_look(&mut seen, looker, Call::Refresh);
    add_look(&mut seen, looker, Call::PushBody);
    add_look(&mut seen, looker, Call::Cookie);
    add_look(&mut seen, looker, Call::Closed);
    add_look(&mut seen, looker, Call::Scan(all));
    seen
}

/// Says where a call changed what is seen and should not have, or the other way round.
pub(crate) fn say_change(out: &mut Said, before: &Said, after: &Said, is_change: bool) {
    let is_right = match (before.whole(), after.whole()) {
        (Ok(before), Ok(after)) => (before == after) != is_change,
        _ => false,
    };
    if !is_right {
        out.say(", but its looker sees something else");
    }
}
