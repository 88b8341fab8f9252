//! Of four threads that close one group at once: one of them does.

use chunk_slots::{Append, Arena, Store};
use group_history::Refusal;
use script_mutators::ScriptMutators;
use std::alloc::Global;
use std::thread::{Threads, map_vec};
use test_group::{A, B, NumberedClient, ToldResult, new_players, pulls};

// The response by which a client state is not found any more.
const CLOSING: &str = r#"{"error":"ClientStateNotFound"}"#;

// More than there are other calls to be lost to.
const TRIES: u32 = 1_000;

fn closes<S: Store<ScriptMutators> + Drop>(player: NumberedClient<S>) -> ToldResult {
    let mut player = player;
    pulls(&mut player.client, CLOSING, TRIES)
}

// How often four clients that close a group at once are answered so.
#[derive(Clone, Copy, PartialEq, Eq, Debug)]
struct Closings {
    not_found: usize,
    closed: usize,
}

// A lack of memory is no answer.
fn count(endings: &[ToldResult]) -> Result<Closings, Refusal> {
    let mut closings = Closings {
        not_found: 0,
        closed: 0,
    };
    for ending in endings {
        match ending {
            Err(Refusal::NoMemory) => return Err(Refusal::NoMemory),
            Err(Refusal::StateNotFound) => closings.not_found = closings.not_found.wrapping_add(1),
            Err(Refusal::Closed) => closings.closed = closings.closed.wrapping_add(1),
            _ => {}
        }
    }
    Ok(closings)
}

fn closings_of<R: Threads + Sync, S: Store<ScriptMutators> + Drop + Send>(
    rt: &R,
    players: Vec<NumberedClient<S>>,
) -> Result<Closings, Refusal> {
    let endings = map_vec(rt, players, &|player| closes(player))?;
    count(&endings)
}

fn closings_in_new<R: Threads + Sync, S: Store<ScriptMutators> + Drop + Send>(
    rt: &R,
    alloc: Global,
    parts: S::Parts,
) -> Result<Closings, Refusal>
where
    S::Parts: Drop,
{
    let players = new_players::<S>(alloc, parts, 32, &[A, B, A, B])?;
    closings_of(rt, players)
}

const ONE_CLOSES: Closings = Closings {
    not_found: 1,
    closed: 3,
};

// The first answers of a hundred groups that are others than those.
fn other_closings<R: Threads + Sync, S: Store<ScriptMutators> + Drop + Send>(
    rt: &R,
    alloc: Global,
    parts: S::Parts,
) -> Result<Option<Closings>, Refusal>
where
    S::Parts: Copy,
{
    for _ in 0..100 {
        let closings = closings_in_new::<R, S>(rt, alloc, parts)?;
        if closings != ONE_CLOSES {
            return Ok(Some(closings));
        }
    }
    Ok(None)
}

#[test]
fn one_of_four_threads_closes_an_arena(rt: HostRuntime) -> Result<(), Refusal> {
    let other = other_closings::<HostRuntime, Arena<ScriptMutators>>(&rt, rt.alloc(), ())?;
    assert_eq!(rt; other, None);
    Ok(())
}

#[test]
fn one_of_four_threads_closes_a_vector(rt: HostRuntime) -> Result<(), Refusal> {
    let other = other_closings::<HostRuntime, Append<&HostRuntime, ScriptMutators>>(
        &rt,
        rt.alloc(),
        &rt,
    )?;
    assert_eq!(rt; other, None);
    Ok(())
}
