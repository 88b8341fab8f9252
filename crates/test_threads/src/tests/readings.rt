//! Of a reader that is kept while another client writes, and of the moments of a group.
use chunk_slots::Arena;
use group_history::{Refusal, Scan, Start, Text};
use rebase::{Client, ReadTx, Reader};
use script_mutators::ScriptMutators;
use std::alloc::Global;
use std::thread::{Threads, join};
use test_group::{
    A, B, CallTold, NumberedClient, ToldResult, call_of, gets, mutates, n_in, new_players,
    number_of, pulls,
};

type Caller = Client<ScriptMutators, Arena<ScriptMutators>>;

type KeptReader = Reader<ScriptMutators, Arena<ScriptMutators>>;

const TRIES: u32 = 1_000;

// How often the other client writes, and how often is read meanwhile.
const TIMES: u32 = 200;

/// The server sends n = 5.
const FIVE: &str =
    r#"{"cookie":1,"lastMutationIDChanges":{},"patch":[{"op":"put","key":"n","value":5}]}"#;

/// What a reader told, and the moments then and behind it.
#[derive(Drop)]
struct Seen {
    wrong: u32,
    written: u32,
    pulled: Option<i64>,
    body: Vec<u8>,
    moments: [u64; 3],
    n: ToldResult,
}

fn n_of(reader: &KeptReader) -> Result<Option<i64>, Refusal> {
    let mut tx = reader.tx();
    let value = tx.get("n")?;
    Ok(number_of(value.as_ref()))
}

fn pulled_n_of(reader: &KeptReader) -> Result<Option<i64>, Refusal> {
    let mut tx = reader.pulled()?;
    let value = tx.get("n")?;
    Ok(number_of(value.as_ref()))
}

// How often the reader tells another n than 6.
fn wrong_reads(reader: &mut KeptReader) -> u32 {
    let mut wrong = 0u32;
    for _ in 0..TIMES {
        if n_of(reader) != Ok(Some(6)) {
            wrong = wrong.wrapping_add(1);
        }
    }
    wrong
}

// How often n was raised.
fn raises(client: &mut Caller, alloc: Global, times: u32) -> Result<u32, Refusal> {
    let raise = call_of(alloc, "incr", r#"["n",1]"#)?;
    let mut done = 0u32;
    for _ in 0..times {
        if mutates(client, &raise, TRIES).is_ok() {
            done = done.wrapping_add(1);
        }
    }
    Ok(done)
}

// What a reader tells on a thread of its own while the other client writes. It is ended whatever happens.
fn kept_beside<R: Threads + Sync>(
    rt: &R,
    alloc: Global,
    reader: KeptReader,
    other: &mut Caller,
) -> Result<Seen, Refusal> {
    let mut reader = reader;
    let (wrong, written) = join(
        rt,
        || wrong_reads(&mut reader),
        || raises(other, alloc, TIMES),
    );
    let pulled = pulled_n_of(&reader);
    let body = reader.push_body(0);
    let first = reader.moment();
    let mut client = reader.end();
    let moments = [first, client.moment(), other.moment()];
    Ok(Seen {
        wrong,
        written: written?,
        pulled: pulled?,
        body: body?,
        moments,
        n: gets(&mut client, "n", TRIES),
    })
}

fn read_beside_a_writer<R: Threads + Sync>(rt: &R, alloc: Global) -> Result<Seen, Refusal> {
    let mut players = new_players::<Arena<ScriptMutators>>(alloc, (), 4_096, &[A, B])?;
    let (Some(b), Some(a)) = (players.pop(), players.pop()) else {
        return Err(Refusal::NoSeat);
    };
    let (
        NumberedClient { client, .. },
        NumberedClient {
            client: mut other,
            ..
        },
    ) = (a, b);
    pulls(&mut other, FIVE, TRIES)?;
    raises(&mut other, alloc, 1)?;
    match client.begin_read(TRIES) {
        Ok(reader) => kept_beside(rt, alloc, reader, &mut other),
        Err((_, refusal)) => Err(refusal),
    }
}

// What a borrowed reader tells of n: in the view, and of what the server last sent.
fn both_n(client: &mut Caller) -> Result<(Option<i64>, Option<i64>), Refusal> {
    let tx = client.read(TRIES)?;
    let view = n_in(&tx, "n");
    let pulled = borrowed_pulled_n(&tx);
    tx.close();
    Ok((view?, pulled?))
}

fn borrowed_pulled_n(
    tx: &ReadTx<'_, ScriptMutators, Arena<ScriptMutators>>,
) -> Result<Option<i64>, Refusal> {
    let mut pulled = tx.pulled()?;
    let value = pulled.get("n")?;
    Ok(number_of(value.as_ref()))
}

// What a borrowed reader's commit tells of n, and whether the reader's moment is the group's.
fn committed_n(client: &mut Caller) -> Result<(Option<i64>, bool), Refusal> {
    let tx = client.read(TRIES)?;
    let moment = tx.moment();
    let n = commit_n(&tx);
    tx.close();
    Ok((n?, moment == client.moment()))
}

fn commit_n(
    tx: &ReadTx<'_, ScriptMutators, Arena<ScriptMutators>>,
) -> Result<Option<i64>, Refusal> {
    let mut commit = tx.commit()?;
    let value = commit.get("n")?;
    Ok(number_of(value.as_ref()))
}

// How many rows a watch keeps before its first poll, and behind it.
fn rows_kept(
    client: &mut Caller,
    alloc: Global,
) -> Result<(Option<usize>, Option<usize>), Refusal> {
    let mut watch = client.watch(Scan {
        prefix: Text::new(alloc, "")?,
        start: Start::Any,
        limit: None,
    });
    let before = watch.rows().map(|rows| rows.as_slice().len());
    drop(client.poll(&mut watch, TRIES)?);
    let behind = watch.rows().map(|rows| rows.as_slice().len());
    Ok((before, behind))
}

#[test]
fn what_the_server_sent_is_read_beside_what_is_pending(rt: HostRuntime) -> Result<(), Refusal> {
    let alloc = rt.alloc();
    let mut players = new_players::<Arena<ScriptMutators>>(alloc, (), 256, &[A])?;
    let Some(NumberedClient { client, .. }) = players.pop() else {
        return Err(Refusal::NoSeat);
    };
    let mut client = client;
    pulls(&mut client, FIVE, TRIES)?;
    raises(&mut client, alloc, 1)?;
    assert!(rt; both_n(&mut client)? == (Some(6), Some(5)));
    assert!(rt; committed_n(&mut client)? == (Some(6), true));
    assert!(rt; rows_kept(&mut client, alloc)? == (None, Some(1)));
    match client.begin_read(TRIES) {
        Ok(reader) => drop(reader.leave()),
        Err((_, refusal)) => return Err(refusal),
    }
    Ok(())
}

#[test]
fn a_kept_reader_reads_one_moment(rt: HostRuntime) -> Result<(), Refusal> {
    let seen = read_beside_a_writer(&rt, rt.alloc())?;
    assert!(rt; seen.wrong == 0 && seen.written == TIMES);
    assert!(rt; seen.pulled == Some(5));
    let [then, now, other] = seen.moments;
    assert!(rt; then < now && now == other);
    assert!(rt; seen.n == Ok(CallTold::Value(Some(206))) && !seen.body.is_empty());
    Ok(())
}
