//! Of five threads in a group with few slots. Four clients mutate as fast as they can, and the fifth has a server count
//! what is pending and pulls what it counted.
//!
//! Slots come back by the pulls alone. So the storm ends only if none is lost for good, if none that a reader still
//! needs is used again, and if nobody is kept away for ever; and the server's count is right only if each mutation is
//! pending until it is confirmed, and then no more.

use chunk_slots::{Arena, Store};
use group_history::{Ended, Refusal, read_value};
use rebase::{Client, ReadTx};
use script_mutators::ScriptMutators;
use serde_json::Value;
use std::alloc::Global;
use std::sync::atomic::AtomicU64;
use std::sync::atomic::Ordering::SeqCst;
use std::thread::{Threads, map_vec};
use test_group::{
    A, B, C, CallTold, D, E, NumberedClient, ToldResult, call_of, mutates, n_in, new_players, pulls,
};

const TRIES: u32 = 100;

// So many mutations each of the four clients makes.
const MUTATIONS: u64 = 1_000;

// So many calls the five clients may make together.
const MOST_CALLS: u64 = 10_000_000;

// How many calls were made together.
#[derive(Drop)]
struct Budget {
    made: AtomicU64,
}

impl Budget {
    // Whether so many calls more may be made.
    fn allows(&self, calls: u64) -> bool {
        self.made.fetch_add(calls, SeqCst) < MOST_CALLS
    }

    // Nobody calls any more.
    fn ends(&self) {
        self.made.store(MOST_CALLS, SeqCst);
    }
}

// What is read when all is over: `n`, and how many mutations are pending.
type LeftThere = (Option<i64>, usize);

// How often answers were given. Those that have no number here are left out.
#[derive(Clone, Copy, PartialEq, Eq, Debug)]
struct Answers {
    // Ids that were the client's next ones, and ids that were not.
    ids: u64,
    odd: u64,
    same: u64,
    busy: u64,
    gone: u64,
    left: Option<LeftThere>,
}

const NONE: Answers = Answers {
    ids: 0,
    odd: 0,
    same: 0,
    busy: 0,
    gone: 0,
    left: None,
};

impl Answers {
    fn add_id(&mut self, id: u64) {
        if id == self.ids.wrapping_add(1) {
            self.ids = id;
        } else {
            self.odd = self.odd.wrapping_add(1);
        }
    }

    // Any other refusal ends the storm.
    fn add_refusal(&mut self, refusal: Refusal) -> Result<(), Refusal> {
        match refusal {
            Refusal::Busy => self.busy = self.busy.wrapping_add(1),
            Refusal::Gone => self.gone = self.gone.wrapping_add(1),
            Refusal::Moved | Refusal::Full => {}
            other => return Err(other),
        }
        Ok(())
    }

    fn add(&mut self, answer: ToldResult) -> Result<(), Refusal> {
        match answer {
            Ok(CallTold::Id(id)) => self.add_id(id),
            Ok(CallTold::Ended(Ended::Same)) => self.same = self.same.wrapping_add(1),
            Ok(_) => {}
            Err(refusal) => return self.add_refusal(refusal),
        }
        Ok(())
    }

    fn add_all(&mut self, other: &Answers) {
        self.ids = self.ids.wrapping_add(other.ids);
        self.odd = self.odd.wrapping_add(other.odd);
        self.same = self.same.wrapping_add(other.same);
        self.busy = self.busy.wrapping_add(other.busy);
        self.gone = self.gone.wrapping_add(other.gone);
        if other.left.is_some() {
            self.left = other.left;
        }
    }
}

// What a client was answered.
type Given = Result<Answers, Refusal>;

// Mutates until the client has all its ids, or nobody may call any more.
fn mutates_all<S: Store<ScriptMutators>>(
    alloc: Global,
    client: &mut Client<ScriptMutators, S>,
    budget: &Budget,
) -> Given {
    let incr = call_of(alloc, "incr", r#"["n",1]"#)?;
    let mut answers = NONE;
    for _ in 0..MOST_CALLS {
        if answers.ids >= MUTATIONS || !budget.allows(1) {
            break;
        }
        answers.add(mutates(client, &incr, TRIES))?;
    }
    Ok(answers)
}

const MUTATING: [&str; 4] = [A, B, C, D];

// The server's side: it adds one to `n` for each mutation that it sees the first time.
#[derive(Clone, Copy)]
struct StormServer {
    // The greatest id that it saw of each client.
    greatest: [u64; 4],
    n: u64,
    // The cookie of the pull that was applied last, and `n` in it.
    cookie: u64,
    confirmed: u64,
}

impl StormServer {
    fn counts_id(&mut self, client: &str, id: u64) -> Option<()> {
        let place = MUTATING.iter().position(|known| *known == client)?;
        if id > self.greatest[place] {
            self.greatest[place] = id;
            self.n = self.n.wrapping_add(1);
        }
        Some(())
    }

    fn counts(&mut self, mutation: &Value) -> Option<()> {
        let client = mutation.get("clientID")?.as_str()?;
        let id = mutation.get("id")?.as_u64()?;
        self.counts_id(client, id)
    }

    fn counts_each(&mut self, push: &Value) -> Result<(), Refusal> {
        let Some(mutations) = push.get("mutations").and_then(Value::as_array) else {
            return Err(Refusal::BadShape);
        };
        for mutation in mutations {
            if self.counts(mutation).is_none() {
                return Err(Refusal::BadShape);
            }
        }
        Ok(())
    }

    // Counts the mutations of a push.
    fn counts_all(&mut self, alloc: Global, push: &[u8]) -> Result<(), Refusal> {
        let push = read_value(alloc, push)?;
        self.counts_each(&push)
    }

    // What a pull brings next.
    fn responds(&self, alloc: Global) -> Result<String, Refusal> {
        let cookie = self.cookie.wrapping_add(1);
        let [a, b, c, d] = self.greatest;
        let n = self.n;
        let ids = format!(in alloc; r#"{{"{A}":{a},"{B}":{b},"{C}":{c},"{D}":{d}}}"#)?;
        let patch = format!(in alloc; r#"[{{"op":"put","key":"n","value":{n}}}]"#)?;
        Ok(format!(in alloc;
            r#"{{"cookie":{cookie},"lastMutationIDChanges":{ids},"patch":{patch}}}"#
        )?)
    }

    // Has the client pull what was counted.
    fn serves<S: Store<ScriptMutators>>(
        &mut self,
        alloc: Global,
        client: &mut Client<ScriptMutators, S>,
    ) -> ToldResult {
        let body = self.responds(alloc)?;
        let answer = pulls(client, &body, TRIES);
        if answer.is_ok() {
            self.cookie = self.cookie.wrapping_add(1);
            self.confirmed = self.n;
        }
        answer
    }

    // Counts what is pending, and has the client pull that: three calls where none is refused.
    fn counts_and_serves<S: Store<ScriptMutators>>(
        &mut self,
        alloc: Global,
        client: &mut Client<ScriptMutators, S>,
    ) -> ToldResult {
        let push = client.push_body(0, TRIES)?;
        self.counts_all(alloc, &push)?;
        self.serves(alloc, client)
    }
}

// Pulls until all mutations are confirmed, or nobody may call any more.
fn pulls_all<S: Store<ScriptMutators>>(
    alloc: Global,
    client: &mut Client<ScriptMutators, S>,
    budget: &Budget,
) -> Given {
    let mut server = StormServer {
        greatest: [0; 4],
        n: 0,
        cookie: 1,
        confirmed: 0,
    };
    let mut answers = NONE;
    for _ in 0..MOST_CALLS {
        if server.confirmed >= 4 * MUTATIONS || !budget.allows(3) {
            break;
        }
        answers.add(server.counts_and_serves(alloc, client))?;
    }
    answers.left = Some(reads(client)?);
    Ok(answers)
}

fn left_in<S: Store<ScriptMutators>>(
    tx: &ReadTx<'_, ScriptMutators, S>,
) -> Result<LeftThere, Refusal> {
    let n = n_in(tx, "n")?;
    let pending = tx.pending()?;
    Ok((n, pending.len()))
}

fn reads<S: Store<ScriptMutators>>(
    client: &mut Client<ScriptMutators, S>,
) -> Result<LeftThere, Refusal> {
    let tx = client.read(TRIES)?;
    let left = left_in(&tx);
    tx.close();
    left
}

// What one of the five is given, of whom the first one pulls. Where it is refused what it can't go on without, nobody
// calls any more.
fn storms<S: Store<ScriptMutators> + Drop>(
    alloc: Global,
    player: NumberedClient<S>,
    budget: &Budget,
) -> Given {
    let NumberedClient { number, mut client } = player;
    let given = if number == 0 {
        pulls_all(alloc, &mut client, budget)
    } else {
        mutates_all(alloc, &mut client, budget)
    };
    if given.is_err() {
        budget.ends();
    }
    given
}

// What is pulled before the storm.
const N_IS_0: &str =
    r#"{"cookie":1,"lastMutationIDChanges":{},"patch":[{"op":"put","key":"n","value":0}]}"#;

fn first_pulls<S: Store<ScriptMutators>>(players: &mut [NumberedClient<S>]) -> ToldResult {
    match players.first_mut() {
        Some(player) => pulls(&mut player.client, N_IS_0, 1),
        None => Err(Refusal::NoSeat),
    }
}

// The fewest ids that one of the four has, and all answers together.
fn sum_of(given: &[Given]) -> Result<(u64, Answers), Refusal> {
    let mut fewest = u64::MAX;
    let mut all = NONE;
    for answers in given {
        let answers = (*answers)?;
        if answers.left.is_none() {
            fewest = fewest.min(answers.ids);
        }
        all.add_all(&answers);
    }
    Ok((fewest, all))
}

// What five players are given, once the first one has pulled.
fn storm_of<R: Threads + Sync, S: Store<ScriptMutators> + Drop + Send>(
    rt: &R,
    alloc: Global,
    players: Vec<NumberedClient<S>>,
) -> Result<(u64, Answers), Refusal> {
    let budget = Budget {
        made: AtomicU64::new(0),
    };
    let given = map_vec(rt, players, &|player| storms(alloc, player, &budget))?;
    sum_of(&given)
}

fn storm_in_new<R: Threads + Sync, S: Store<ScriptMutators> + Drop + Send>(
    rt: &R,
    alloc: Global,
    parts: S::Parts,
) -> Result<(u64, Answers), Refusal>
where
    S::Parts: Drop,
{
    let mut players = new_players::<S>(alloc, parts, 64, &[E, A, B, C, D])?;
    first_pulls(players.as_mut_slice())?;
    storm_of(rt, alloc, players)
}

// Full is answered often, since the slots are few. Busy is not: it says that a hundred steps were lost in a row. None
// is ever Gone, since each call looks at what it pins.
fn is_through(fewest: u64, answers: &Answers) -> bool {
    answers.gone == 0
        && answers.odd == 0
        && answers.same == 0
        && answers.busy <= MUTATIONS
        && fewest == MUTATIONS
        && answers.ids == 4 * MUTATIONS
        && answers.left == Some((Some(4_000), 0))
}

#[test]
fn five_threads_get_through_with_few_slots(rt: HostRuntime) -> Result<(), Refusal> {
    let (fewest, answers) = storm_in_new::<HostRuntime, Arena<ScriptMutators>>(
        &rt,
        rt.alloc(),
        (),
    )?;
    assert!(rt; is_through(fewest, &answers), "{fewest} {answers:?}");
    Ok(())
}
