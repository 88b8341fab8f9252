//! Of threads whose steps fall as a gate says.
//!
//! A schedule says what is done by whom, on which of two threads, and where the gate holds them. Each act has its
//! answer.

use super::gated::{Gated, StoreCall};
use super::gates::{GateWord, Hold, Moment, StepSide, Turns};
use chunk_slots::{Arena, Store};
use group_history::{Ended, Refusal};
use rebase::Client;
use script_mutators::ScriptMutators;
use std::alloc::Global;
use std::thread::{Threads, join};
use test_group::{
    A, B, C, CallTold, NumberedClient, ToldResult, answered, call_of, mutates, n_in, new_players,
    pulls,
};

// What a client does, with one try each time, and what it is told.
#[derive(Clone, Copy)]
enum Act {
    Rests,
    // It waits until the word shows the number.
    Hears(GateWord, u64),
    // It ends a pull that brings this cookie and this number at `n`. That is applied.
    Pulls(u64, u64),
    // Before each of so many pulls, which are applied, it waits for the number of the round, and says it after it.
    Serves(u64),
    // It sets `k` so often. Each time others move the head first.
    Loses(u64),
    // It adds 1 to `n` so often, each time with the next id. Once more, and it is Full.
    Fills(u64),
    // It opens a reader, says the first word, and reads this number at `n`; waits for the second, and reads the same.
    Reads(i64, (GateWord, u64), (GateWord, u64)),
}

// The number of the player, and what it does.
type SeatAct = (usize, Act);

// The three clients of a group of 32 slots, of which A has the number 0, C 1, and B 2. First what is done before there
// are threads; then what B does on a thread of its own, and the others beside it; then what is done when both have
// ended.
#[derive(Clone, Copy)]
struct Schedule {
    holds: [Hold; 2],
    before: [SeatAct; 1],
    others: [SeatAct; 2],
    last: [SeatAct; 3],
    after: [SeatAct; 1],
}

// The first answer that is another than it should be.
type Other = Option<ToldResult>;

fn other_than(answer: ToldResult, want: ToldResult) -> Result<Other, Refusal> {
    let answer = answered(answer)?;
    Ok(if answer == want { None } else { Some(answer) })
}

fn pull_other<S: Store<ScriptMutators>>(
    alloc: Global,
    client: &mut Client<ScriptMutators, S>,
    cookie: u64,
    n: u64,
) -> Result<Other, Refusal> {
    let body = format!(in alloc;
        r#"{{"cookie":{cookie},"lastMutationIDChanges":{{}},"patch":[{{"op":"put","key":"n","value":{n}}}]}}"#
    )?;
    other_than(pulls(client, &body, 1), Ok(CallTold::Ended(Ended::Applied)))
}

fn serve_other<S: Store<ScriptMutators>>(
    alloc: Global,
    client: &mut Client<ScriptMutators, S>,
    turns: &Turns<'_>,
    rounds: u64,
) -> Result<Other, Refusal> {
    for before in 0..rounds {
        let round = before.wrapping_add(1);
        turns.hears(GateWord::Go, round);
        let other = pull_other(alloc, client, round, round)?;
        if other.is_some() {
            return Ok(other);
        }
        turns.says(GateWord::Done, round);
    }
    Ok(None)
}

fn lose_other<S: Store<ScriptMutators>>(
    alloc: Global,
    client: &mut Client<ScriptMutators, S>,
    times: u64,
) -> Result<Other, Refusal> {
    let set = call_of(alloc, "set", r#"["k",1]"#)?;
    for _ in 0..times {
        let other = other_than(mutates(client, &set, 1), Err(Refusal::Moved))?;
        if other.is_some() {
            return Ok(other);
        }
    }
    Ok(None)
}

fn fill_other<S: Store<ScriptMutators>>(
    alloc: Global,
    client: &mut Client<ScriptMutators, S>,
    times: u64,
) -> Result<Other, Refusal> {
    let incr = call_of(alloc, "incr", r#"["n",1]"#)?;
    for before in 0..times {
        let next = Ok(CallTold::Id(before.wrapping_add(1)));
        let other = other_than(mutates(client, &incr, 1), next)?;
        if other.is_some() {
            return Ok(other);
        }
    }
    other_than(mutates(client, &incr, 1), Err(Refusal::Full))
}

fn read_other<S: Store<ScriptMutators>>(
    client: &mut Client<ScriptMutators, S>,
    turns: &Turns<'_>,
    n: i64,
    says: (GateWord, u64),
    hears: (GateWord, u64),
) -> Result<Other, Refusal> {
    let tx = client.read(1)?;
    turns.says(says.0, says.1);
    let first = n_in(&tx, "n");
    turns.hears(hears.0, hears.1);
    let second = n_in(&tx, "n");
    tx.close();
    other_of_two(first.map(CallTold::Value), second.map(CallTold::Value), n)
}

// The first of two answers that is not this number.
fn other_of_two(first: ToldResult, second: ToldResult, n: i64) -> Result<Other, Refusal> {
    let want = Ok(CallTold::Value(Some(n)));
    match other_than(first, want)? {
        None => other_than(second, want),
        other => Ok(other),
    }
}

impl Act {
    fn other<S: Store<ScriptMutators>>(
        self,
        alloc: Global,
        client: &mut Client<ScriptMutators, S>,
        turns: &Turns<'_>,
    ) -> Result<Other, Refusal> {
        match self {
            Act::Rests => Ok(None),
            Act::Hears(word, number) => {
                turns.hears(word, number);
                Ok(None)
            }
            Act::Pulls(cookie, n) => pull_other(alloc, client, cookie, n),
            Act::Serves(rounds) => serve_other(alloc, client, turns, rounds),
            Act::Loses(times) => lose_other(alloc, client, times),
            Act::Fills(times) => fill_other(alloc, client, times),
            Act::Reads(n, says, hears) => read_other(client, turns, n, says, hears),
        }
    }
}

fn first_other<S: Store<ScriptMutators>>(
    alloc: Global,
    players: &mut [NumberedClient<S>],
    turns: &Turns<'_>,
    deeds: &[SeatAct],
) -> Result<Other, Refusal> {
    for (number, act) in deeds {
        for player in players.iter_mut() {
            if player.number == *number {
                let other = act.other(alloc, &mut player.client, turns)?;
                if other.is_some() {
                    return Ok(other);
                }
            }
        }
    }
    Ok(None)
}

// The same on a thread, which says when it has ended.
fn first_on_thread<S: Store<ScriptMutators>>(
    alloc: Global,
    players: &mut [NumberedClient<S>],
    turns: &Turns<'_>,
    deeds: &[SeatAct],
) -> Result<Other, Refusal> {
    let other = first_other(alloc, players, turns, deeds);
    turns.ends();
    other
}

// What the threads of the last one and of the others tell.
fn both_other<R: Threads + Sync, S: Store<ScriptMutators> + Send>(
    rt: &R,
    alloc: Global,
    players: &mut [NumberedClient<S>],
    turns: &Turns<'_>,
    schedule: &Schedule,
) -> (Result<Other, Refusal>, Result<Other, Refusal>) {
    let (others, last) = players.split_at_mut(players.len().saturating_sub(1));
    join(
        rt,
        || first_on_thread(alloc, others, turns, &schedule.others),
        || first_on_thread(alloc, last, turns, &schedule.last),
    )
}

// What is told before, by the others, by the last one, and after.
fn others_of<R: Threads + Sync, S: Store<ScriptMutators> + Send>(
    rt: &R,
    alloc: Global,
    players: &mut [NumberedClient<S>],
    turns: &Turns<'_>,
    schedule: &Schedule,
) -> Result<[Other; 4], Refusal> {
    let before = first_other(alloc, players, turns, &schedule.before)?;
    let (others, last) = both_other(rt, alloc, players, turns, schedule);
    let after = first_other(alloc, players, turns, &schedule.after)?;
    Ok([before, others?, last?, after])
}

fn others_in_new<R: Threads + Sync, S: Store<ScriptMutators> + Drop + Send>(
    rt: &R,
    alloc: Global,
    parts: S::Parts,
    turns: &Turns<'_>,
    schedule: &Schedule,
) -> Result<[Other; 4], Refusal>
where
    S::Parts: Drop,
{
    let mut players = new_players::<S>(alloc, parts, 32, &[A, C, B])?;
    others_of(rt, alloc, players.as_mut_slice(), turns, schedule)
}

fn others_by<R: Threads + Sync>(
    rt: &R,
    alloc: Global,
    schedule: Schedule,
) -> Result<[Other; 4], Refusal> {
    let turns = Turns::new(&schedule.holds);
    others_in_new::<R, Gated<Arena<ScriptMutators>, &Turns<'_>>>(
        rt,
        alloc,
        ((), &turns),
        &turns,
        &schedule,
    )
}

const AS_SAID: [Other; 4] = [None, None, None, None];

const REST: SeatAct = (0, Act::Rests);

const NEVER: Hold = Hold {
    moment: Moment {
        seat: 0,
        step: StoreCall::Place,
        side: StepSide::Before,
    },
    every: 1,
    rounds: 0,
    says: GateWord::Go,
    above: 0,
};

// A's mutation places a leaf and a commit. When both are placed A is held, and B ends a pull, so that A has placed them
// in vain. Of 32 slots 24 are ordinary ones, of which the last pull has two. So eleven mutations find room then, if
// none was lost.
static LOST: Schedule = Schedule {
    holds: [
        Hold {
            moment: Moment {
                seat: 0,
                step: StoreCall::Place,
                side: StepSide::After,
            },
            every: 2,
            rounds: 1_000,
            says: GateWord::Go,
            above: 0,
        },
        NEVER,
    ],
    before: [REST],
    others: [(0, Act::Loses(1_000)), REST],
    last: [(2, Act::Serves(1_000)), REST, REST],
    after: [(0, Act::Fills(11))],
};

#[test]
fn a_thousand_lost_mutations_lose_no_slot(rt: HostRuntime) -> Result<(), Refusal> {
    assert_eq!(rt; others_by(&rt, rt.alloc(), LOST)?, AS_SAID);
    Ok(())
}

// B's two pulls settle two slots each. Before the last of them A opens a reader, which keeps the two slots of the first
// pull; so ten mutations find room, of the twenty slots that are left.
static KEPT: Schedule = Schedule {
    holds: [
        Hold {
            moment: Moment {
                seat: 2,
                step: StoreCall::Settle,
                side: StepSide::Before,
            },
            every: 4,
            rounds: 1,
            says: GateWord::Go,
            above: 0,
        },
        NEVER,
    ],
    before: [(2, Act::Pulls(1, 5))],
    others: [
        (0, Act::Hears(GateWord::Go, 1)),
        (0, Act::Reads(5, (GateWord::Done, 1), (GateWord::Go, 2))),
    ],
    last: [(2, Act::Pulls(2, 6)), (2, Act::Fills(10)), REST],
    after: [REST],
};

#[test]
fn a_reader_keeps_what_is_dropped_after_it_came(rt: HostRuntime) -> Result<(), Refusal> {
    assert_eq!(rt; others_by(&rt, rt.alloc(), KEPT)?, AS_SAID);
    Ok(())
}

// Each of B's two pulls raises the epoch once, when its commit is at the head already. A reader that comes after the
// second raise reads that commit, and keeps no slot of the one before.
static DROPPED: Schedule = Schedule {
    holds: [
        Hold {
            moment: Moment {
                seat: 2,
                step: StoreCall::Raise,
                side: StepSide::After,
            },
            every: 2,
            rounds: 1,
            says: GateWord::Go,
            above: 0,
        },
        NEVER,
    ],
    before: [(2, Act::Pulls(1, 5))],
    others: [
        (0, Act::Hears(GateWord::Go, 1)),
        (0, Act::Reads(6, (GateWord::Done, 1), (GateWord::Go, 2))),
    ],
    last: [(2, Act::Pulls(2, 6)), (2, Act::Fills(11)), REST],
    after: [REST],
};

#[test]
fn a_reader_keeps_nothing_that_was_dropped_before_it_came(rt: HostRuntime) -> Result<(), Refusal> {
    assert_eq!(rt; others_by(&rt, rt.alloc(), DROPPED)?, AS_SAID);
    Ok(())
}

// C's second pull is at the head, and has not raised the epoch yet: there C is held until B is held. B has pinned the
// epoch of then, and is held before it settles the second slot of its pull. C raises the epoch, and its pull ends. A
// reader of A that comes now pins the raised one, and reads C's commit. Then B goes on. It may not retire that commit
// by the epoch that it pinned: the reader would not keep its two slots.
static RELAYED: Schedule = Schedule {
    holds: [
        Hold {
            moment: Moment {
                seat: 1,
                step: StoreCall::Raise,
                side: StepSide::Before,
            },
            every: 2,
            rounds: 1,
            says: GateWord::Go,
            above: 0,
        },
        Hold {
            moment: Moment {
                seat: 2,
                step: StoreCall::Settle,
                side: StepSide::Before,
            },
            every: 2,
            rounds: 1,
            says: GateWord::Done,
            above: 1,
        },
    ],
    before: [(1, Act::Pulls(1, 5))],
    others: [
        (1, Act::Pulls(2, 6)),
        (0, Act::Reads(6, (GateWord::Go, 2), (GateWord::Done, 2))),
    ],
    last: [
        (2, Act::Hears(GateWord::Go, 1)),
        (2, Act::Pulls(3, 7)),
        (2, Act::Fills(10)),
    ],
    after: [REST],
};

#[test]
fn a_reader_keeps_what_is_dropped_at_a_later_epoch(rt: HostRuntime) -> Result<(), Refusal> {
    assert_eq!(rt; others_by(&rt, rt.alloc(), RELAYED)?, AS_SAID);
    Ok(())
}
