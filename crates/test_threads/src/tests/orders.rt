//! Of two clients that make short lists of calls at once. What each was answered has to be what a group of one thread
//! answers in some order of the calls in which each client's own ones keep theirs.
ghost use Rattle.std.specs.Prelude.{IfOk};
ghost use Rattle.group_history.specs.Pull.{AreInRange};

use chunk_slots::{Append, Arena, Store};
use group_history::{Confirmed, Cookie, Json, Patch, PlainGroup, PullOk, Refusal, Response, Text};
use rebase::{Client, ReadTx, Ticket};
use script_mutators::ScriptMutators;
use serde_json::Value;
use std::alloc::{AllocGlobal, Global};
use std::sync::atomic::AtomicU64;
use std::sync::atomic::Ordering::SeqCst;
use std::thread::{Threads, join};
use test_group::{
    A, B, CallTold, NumberedClient, ToldResult, answered, call_of, cookie_of, ends, gets, mutates,
    new_players, number_in, number_of, refreshes, two_of,
};

// More than there are other calls to be lost to.
const TRIES: u32 = 1_000;

// What a pull's response says: its cookie, A's last id, and the number at `n`.
#[derive(Clone, Copy)]
struct Pull {
    cookie: u8,
    confirms: u8,
    n: u8,
}

#[derive(Clone, Copy)]
enum PlayedCall {
    // Of this mutator, with these arguments.
    Mutate(&'static str, &'static str),
    Get(&'static str),
    // How many mutations are pending.
    Pending,
    Refresh,
    // To begin a pull, whose ticket is kept.
    Begin,
    // To end the pull that was begun last.
    End(Pull),
}

static CALLS: [PlayedCall; 16] = [
    PlayedCall::Mutate("incr", r#"["n",1]"#),
    PlayedCall::Mutate("incr", r#"["n",1]"#),
    PlayedCall::Mutate("incr", r#"["n",10]"#),
    PlayedCall::Mutate("set", r#"["n",100]"#),
    PlayedCall::Mutate("set", r#"["n",7]"#),
    PlayedCall::Mutate("set", r#"["k",1]"#),
    PlayedCall::Get("n"),
    PlayedCall::Get("n"),
    PlayedCall::Get("k"),
    PlayedCall::Pending,
    PlayedCall::Refresh,
    PlayedCall::Refresh,
    PlayedCall::Begin,
    PlayedCall::End(Pull {
        cookie: 1,
        confirms: 0,
        n: 5,
    }),
    PlayedCall::End(Pull {
        cookie: 2,
        confirms: 1,
        n: 20,
    }),
    PlayedCall::End(Pull {
        cookie: 3,
        confirms: 2,
        n: 40,
    }),
];

// A call, and what it was answered once it was made.
#[derive(Clone, Copy)]
struct PlayedStep {
    call: PlayedCall,
    answer: Option<ToldResult>,
}

fn unmade(call: PlayedCall) -> PlayedStep {
    PlayedStep { call, answer: None }
}

// What is asked when two threads have ended.
fn last_steps() -> [PlayedStep; 5] {
    [
        unmade(PlayedCall::Get("n")),
        unmade(PlayedCall::Get("k")),
        unmade(PlayedCall::Pending),
        unmade(PlayedCall::Begin),
        unmade(PlayedCall::Refresh),
    ]
}

fn body_of(alloc: Global, pull: Pull) -> Result<String, Refusal> {
    let Pull {
        cookie,
        confirms,
        n,
    } = pull;
    let ids = format!(in alloc; r#"{{"{A}":{confirms}}}"#)?;
    let patch = format!(in alloc; r#"[{{"op":"put","key":"n","value":{n}}}]"#)?;
    Ok(format!(in alloc; r#"{{"cookie":{cookie},"lastMutationIDChanges":{ids},"patch":{patch}}}"#)?)
}

// The pulls of a client: the first one of all, and the one that it began last since.
#[derive(Drop)]
struct BegunTogether<'a> {
    first: &'a Ticket,
    last: Option<Ticket>,
}

impl BegunTogether<'_> {
    fn ticket(&self) -> &Ticket {
        match &self.last {
            Some(ticket) => ticket,
            None => self.first,
        }
    }

    fn begins<S: Store<ScriptMutators>>(
        &mut self,
        client: &mut Client<ScriptMutators, S>,
    ) -> ToldResult {
        let ticket = client.begin_pull(TRIES)?;
        let told = CallTold::Value(number_in(ticket.cookie.text()));
        self.last = Some(ticket);
        Ok(told)
    }

    fn ends<S: Store<ScriptMutators>>(
        &self,
        alloc: Global,
        client: &mut Client<ScriptMutators, S>,
        pull: Pull,
    ) -> ToldResult {
        let body = body_of(alloc, pull)?;
        ends(client, self.ticket(), &body, TRIES)
    }

    fn makes<S: Store<ScriptMutators>>(
        &mut self,
        alloc: Global,
        client: &mut Client<ScriptMutators, S>,
        call: PlayedCall,
    ) -> ToldResult {
        match call {
            PlayedCall::Mutate(name, args) => mutates(client, &call_of(alloc, name, args)?, TRIES),
            PlayedCall::Get(key) => gets(client, key, TRIES),
            PlayedCall::Pending => counts(client),
            PlayedCall::Refresh => refreshes(client, TRIES),
            PlayedCall::Begin => self.begins(client),
            PlayedCall::End(pull) => self.ends(alloc, client, pull),
        }
    }
}

fn count_in<S: Store<ScriptMutators>>(tx: &ReadTx<'_, ScriptMutators, S>) -> ToldResult {
    let pending = tx.pending()?;
    Ok(CallTold::Last(pending.len() as u64))
}

fn counts<S: Store<ScriptMutators>>(client: &mut Client<ScriptMutators, S>) -> ToldResult {
    let tx = client.read(TRIES)?;
    let count = count_in(&tx);
    tx.close();
    count
}

fn makes_all<S: Store<ScriptMutators>>(
    alloc: Global,
    client: &mut Client<ScriptMutators, S>,
    first: &Ticket,
    steps: &mut [PlayedStep],
) -> Result<(), Refusal> {
    let mut begun = BegunTogether { first, last: None };
    for step in steps.iter_mut() {
        step.answer = Some(answered(begun.makes(alloc, client, step.call))?);
    }
    Ok(())
}

// The same, once the other thread has come here too.
fn makes_beside<S: Store<ScriptMutators>>(
    alloc: Global,
    player: &mut NumberedClient<S>,
    first: &Ticket,
    steps: &mut [PlayedStep],
    come: &AtomicU64,
) -> Result<(), Refusal> {
    come.fetch_add(1, SeqCst);
    for _ in 0..100_000 {
        if come.load(SeqCst) >= 2 {
            break;
        }
    }
    makes_all(alloc, &mut player.client, first, steps)
}

// A client of the group of one thread, and what is to be explained of its calls.
#[derive(Drop)]
struct PlayedSide<'a> {
    client: Text,
    last: u64,
    ticket: Cookie,
    steps: &'a [PlayedStep],
}

fn side_of<'a>(
    alloc: Global,
    client: &str,
    steps: &'a [PlayedStep],
) -> Result<PlayedSide<'a>, Refusal> {
    let client = Text::new(alloc, client)?;
    let ticket = Cookie::null(alloc)?;
    Ok(PlayedSide {
        client,
        last: 0,
        ticket,
        steps,
    })
}

// A is the one client whose mutations are confirmed.
fn confirms(alloc: Global, pull: Pull) -> Result<Vec<Confirmed>, Refusal>
    ensures { IfOk result (λ changes. AreInRange changes.items) }
{
    let mut changes = Vec::new(alloc);
    changes.push(Confirmed {
        client: Text::new(alloc, A)?,
        id: u64::from(pull.confirms),
    })?;
    Ok(changes)
}

fn puts(alloc: Global, pull: Pull) -> Result<Vec<Patch>, Refusal> {
    let n = Patch::Put(
        Text::new(alloc, "n")?,
        Json::of(alloc, &Value::from(pull.n))?,
    );
    let mut patch = Vec::new(alloc);
    patch.push(n)?;
    Ok(patch)
}

fn response_of(alloc: Global, pull: Pull) -> Result<Response, Refusal> {
    let cookie = cookie_of(alloc, &Value::from(pull.cookie))?;
    let changes = confirms(alloc, pull)?;
    let patch = puts(alloc, pull)?;
    Ok(Response::Ok(PullOk::new(cookie, changes, patch)))
}

type PlainScripted = PlainGroup<ScriptMutators>;

impl PlayedSide<'_> {
    fn mutates(
        &mut self,
        alloc: Global,
        group: &mut PlainScripted,
        name: &str,
        args: &str,
    ) -> ToldResult {
        let call = call_of(alloc, name, args)?;
        let id = group.mutate(
            &ScriptMutators,
            &self.client,
            self.last,
            &call.name,
            &call.args,
            1000,
        )?;
        self.last = id;
        Ok(CallTold::Id(id))
    }

    fn refreshes(&mut self, group: &PlainScripted) -> ToldResult {
        self.last = group.last(&self.client);
        Ok(CallTold::Last(self.last))
    }

    fn begins(&mut self, group: &PlainScripted) -> ToldResult {
        self.ticket = group.cookie().clone()?;
        Ok(CallTold::Value(number_in(self.ticket.text())))
    }

    fn ends(&mut self, alloc: Global, group: &mut PlainScripted, pull: Pull) -> ToldResult {
        let response = response_of(alloc, pull)?;
        let ended = group.end_pull(&ScriptMutators, &self.ticket, &response)?;
        Ok(CallTold::Ended(ended))
    }

    fn makes(&mut self, alloc: Global, group: &mut PlainScripted, call: PlayedCall) -> ToldResult {
        match call {
            PlayedCall::Mutate(name, args) => self.mutates(alloc, group, name, args),
            PlayedCall::Get(key) => Ok(CallTold::Value(number_of(group.get(&Text::new(
                alloc, key,
            )?)))),
            PlayedCall::Pending => Ok(CallTold::Last(group.pending().len() as u64)),
            PlayedCall::Refresh => self.refreshes(group),
            PlayedCall::Begin => self.begins(group),
            PlayedCall::End(pull) => self.ends(alloc, group, pull),
        }
    }

    // Makes the next call. False where it is answered otherwise, or where there is none.
    fn fits(&mut self, alloc: Global, group: &mut PlainScripted) -> Result<bool, Refusal> {
        let Some((step, rest)) = self.steps.split_first() else {
            return Ok(false);
        };
        self.steps = rest;
        Ok(Some(answered(self.makes(alloc, group, step.call))?) == step.answer)
    }
}

// What two clients made at once, of which the first one was A, and what A made then.
#[derive(Clone, Copy)]
struct Game {
    by_a: [PlayedStep; 4],
    by_b: [PlayedStep; 4],
    last: [PlayedStep; 5],
}

// Of two clients with four calls each.
const TURNS: u32 = 8;

// How an order explains a game: the first turn that it does not, or all.
#[derive(Clone, Copy, PartialEq, Eq)]
enum Explained {
    Until(u32),
    All,
}

// The first turn that is answered otherwise in the order in which the turns of A are the bits of a number, the highest
// one first.
fn other_turn(
    alloc: Global,
    group: &mut PlainScripted,
    a: &mut PlayedSide<'_>,
    b: &mut PlayedSide<'_>,
    turns: u32,
) -> Result<Option<u32>, Refusal> {
    for turn in 0..TURNS {
        let is_of_a = (turns >> (TURNS - 1 - turn)) & 1 == 1;
        let fits = if is_of_a {
            a.fits(alloc, group)?
        } else {
            b.fits(alloc, group)?
        };
        if !fits {
            return Ok(Some(turn));
        }
    }
    Ok(None)
}

fn ended_by(
    alloc: Global,
    group: &mut PlainScripted,
    side: &mut PlayedSide<'_>,
) -> Result<Explained, Refusal> {
    for _ in 0..side.steps.len() {
        if !side.fits(alloc, group)? {
            return Ok(Explained::Until(TURNS));
        }
    }
    Ok(Explained::All)
}

// How a game is explained by that order, in a group of one thread. What A made afterwards counts as one turn more.
fn explained_in<'a>(
    alloc: Global,
    a: &mut PlayedSide<'a>,
    b: &mut PlayedSide<'_>,
    last: &'a [PlayedStep],
    turns: u32,
) -> Result<Explained, Refusal> {
    let mut group = PlainScripted::new(alloc)?;
    if let Some(turn) = other_turn(alloc, &mut group, a, b, turns)? {
        return Ok(Explained::Until(turn));
    }
    a.steps = last;
    ended_by(alloc, &mut group, a)
}

fn explained_by(alloc: Global, game: &Game, turns: u32) -> Result<Explained, Refusal> {
    let mut a = side_of(alloc, A, &game.by_a)?;
    let mut b = side_of(alloc, B, &game.by_b)?;
    explained_in(alloc, &mut a, &mut b, &game.last, turns)
}

// The first number above this one whose bits differ in this turn or before.
fn next_order(turns: u32, turn: u32) -> u32 {
    let after = if turn < TURNS { TURNS - 1 - turn } else { 0 };
    (turns >> after).wrapping_add(1) << after
}

// The first order that explains all. Those that begin as one that does not are passed over.
fn order_of(alloc: Global, game: &Game) -> Result<Option<u32>, Refusal> {
    let mut next = 0;
    for turns in 0u32..1 << TURNS {
        if turns < next {
            continue;
        }
        match explained_by(alloc, game, turns)? {
            Explained::All => return Ok(Some(turns)),
            Explained::Until(turn) => next = next_order(turns, turn),
        }
    }
    Ok(None)
}

// What calls are drawn by: the next number follows from the last one.
#[derive(Drop)]
struct Dice {
    number: u64,
}

impl Dice {
    fn draws(&mut self) -> PlayedCall {
        self.number ^= self.number << 13;
        self.number ^= self.number >> 7;
        self.number ^= self.number << 17;
        CALLS[(self.number % 16) as usize]
    }

    fn draws_four(&mut self) -> [PlayedStep; 4] {
        [
            unmade(self.draws()),
            unmade(self.draws()),
            unmade(self.draws()),
            unmade(self.draws()),
        ]
    }

    fn draws_game(&mut self) -> Game {
        let by_a = self.draws_four();
        let by_b = self.draws_four();
        Game {
            by_a,
            by_b,
            last: last_steps(),
        }
    }
}

// The game with what both were answered.
fn both_make<R: AllocGlobal + Threads + Sync, S: Store<ScriptMutators> + Send>(
    rt: &R,
    a: &mut NumberedClient<S>,
    b: &mut NumberedClient<S>,
    first: &Ticket,
    game: &mut Game,
) -> Result<(), Refusal> {
    let alloc = rt.alloc();
    let (mut by_a, mut by_b) = (game.by_a, game.by_b);
    let come = AtomicU64::new(0);
    let (of_a, of_b) = join(
        rt,
        || makes_beside(alloc, a, first, &mut by_a, &come),
        || makes_beside(alloc, b, first, &mut by_b, &come),
    );
    game.by_a = by_a;
    game.by_b = by_b;
    of_a?;
    of_b
}

// Both make their calls, once A has begun the first pull of both; and then A makes the last ones.
fn played_by<R: AllocGlobal + Threads + Sync, S: Store<ScriptMutators> + Send>(
    rt: &R,
    alloc: Global,
    a: &mut NumberedClient<S>,
    b: &mut NumberedClient<S>,
    game: &mut Game,
) -> Result<(), Refusal> {
    let first = a.client.begin_pull(TRIES)?;
    both_make(rt, a, b, &first, game)?;
    makes_all(alloc, &mut a.client, &first, &mut game.last)
}

// The game with all answers.
fn played<R: AllocGlobal + Threads + Sync, S: Store<ScriptMutators> + Send>(
    rt: &R,
    alloc: Global,
    players: &mut [NumberedClient<S>],
    drawn: Game,
) -> Result<Game, Refusal> {
    let mut game = drawn;
    let (a, b) = two_of(players)?;
    played_by(rt, alloc, a, b, &mut game)?;
    Ok(game)
}

fn game_in_new<R: AllocGlobal + Threads + Sync, S: Store<ScriptMutators> + Drop + Send>(
    rt: &R,
    alloc: Global,
    parts: S::Parts,
    drawn: Game,
) -> Result<Game, Refusal>
where
    S::Parts: Drop,
{
    let mut players = new_players::<S>(alloc, parts, 256, &[A, B])?;
    played(rt, alloc, players.as_mut_slice(), drawn)
}

const ROUNDS: u32 = 100;

// How many rounds there are before one whose answers no order explains.
fn rounds_explained<R: AllocGlobal + Threads + Sync, S: Store<ScriptMutators> + Drop + Send>(
    rt: &R,
    alloc: Global,
    parts: S::Parts,
) -> Result<u32, Refusal>
where
    S::Parts: Copy,
{
    let mut dice = Dice {
        number: 0x2545_f491_4f6c_dd1d,
    };
    for round in 0..ROUNDS {
        let game = game_in_new::<R, S>(rt, alloc, parts, dice.draws_game())?;
        if order_of(alloc, &game)?.is_none() {
            return Ok(round);
        }
    }
    Ok(ROUNDS)
}

#[test]
fn answers_over_an_arena_have_an_order(rt: HostRuntime) -> Result<(), Refusal> {
    let rounds = rounds_explained::<HostRuntime, Arena<ScriptMutators>>(&rt, rt.alloc(), ())?;
    assert_eq!(rt; rounds, ROUNDS);
    Ok(())
}

#[test]
fn answers_over_a_vector_have_an_order(rt: HostRuntime) -> Result<(), Refusal> {
    let rounds = rounds_explained::<HostRuntime, Append<&HostRuntime, ScriptMutators>>(
        &rt,
        rt.alloc(),
        &rt,
    )?;
    assert_eq!(rt; rounds, ROUNDS);
    Ok(())
}
