//! A to-do list that two users keep, each on a thread of its own. What it prints is the same whatever their schedule.
#![tactic(auto)]

mod opening;
mod server;
mod user;

use opening::List;
use rebase::{Polled, Refusal};
use server::{TO_A, TO_B};
use std::alloc::Global;
use std::io;
use std::thread::{Threads, join};
use user::{TRIES, User};

/// What A and B do on the first day, each on a thread of its own.
const OF_A: [(&str, &str); 2] = [
    ("add", r#"{"id":"2","text":"milk"}"#),
    ("toggle", r#"{"id":"1"}"#),
];

const OF_B: [(&str, &str); 2] = [
    ("add", r#"{"id":"3","text":"tea"}"#),
    ("rename", r#"{"id":"3","text":"green tea"}"#),
];

/// Tells the items, where they are others than those that the user was told last.
fn tell(out: &mut String, user: &mut User) -> Result<(), Refusal> {
    let Polled::New(rows) = user.poll()? else {
        writeln!(out, "  unchanged")?;
        return Ok(());
    };
    for (key, item) in rows.as_slice() {
        writeln!(out, "  {key} {item}")?;
    }
    Ok(())
}

fn pull(out: &mut String, user: &mut User) -> Result<(), Refusal> {
    let ended = user.pull()?;
    writeln!(out, "pull: {ended:?}")?;
    tell(out, user)
}

fn work(user: &mut User, changes: &[(&str, &str)]) -> Result<(), Refusal> {
    for (name, args) in changes {
        user.change(name, args)?;
    }
    Ok(())
}

fn both_work<R: Threads + Sync>(rt: &R, a: &mut User, b: &mut User) -> Result<(), Refusal> {
    let (of_a, of_b) = join(rt, || work(a, &OF_A), || work(b, &OF_B));
    of_a?;
    of_b
}

/// A reader tells what is pending and whether there is tea, both as of one moment.
fn read(out: &mut String, user: &mut User) -> Result<(), Refusal> {
    let tx = user.client.read(TRIES)?;
    let pending = tx.pending()?;
    let has_tea = tx.has("todo/3")?;
    tx.close();
    writeln!(out, "{} pending, tea: {has_tea}", pending.len())?;
    Ok(())
}

/// A begins a pull, but B's is applied first: so A begins a new one.
fn overtake(out: &mut String, a: &mut User, b: &mut User) -> Result<(), Refusal> {
    let ticket = a.client.begin_pull(TRIES)?;
    pull(out, b)?;
    let response = a.server.response_to(ticket.body.as_slice());
    if let Err(e) = a.client.try_end_pull(&ticket, response, TRIES) {
        writeln!(out, "pull: {e}")?;
    }
    pull(out, a)
}

fn first_day<R: Threads + Sync>(
    rt: &R,
    out: &mut String,
    a: &mut User,
    b: &mut User,
) -> Result<(), Refusal> {
    pull(out, a)?;
    both_work(rt, a, b)?;
    tell(out, a)?;
    read(out, a)?;
    let length = a.push()?;
    writeln!(out, "push: {length} bytes")?;
    pull(out, a)?;
    overtake(out, a, b)
}

/// A toggles an item so often that no slot is free in between: a pull then confirms what is pending.
fn fill(out: &mut String, a: &mut User) -> Result<(), Refusal> {
    for _ in 0..29 {
        a.change("toggle", r#"{"id":"1"}"#)?;
    }
    read(out, a)?;
    tell(out, a)
}

/// Another client makes a mutation by A's ID: so A's last id is not the group's, and A refreshes it.
fn impersonate(out: &mut String, a: &mut User, other: &mut User) -> Result<(), Refusal> {
    let id = other.change("add", r#"{"id":"5","text":"salt"}"#)?;
    let next = a.change("rename", r#"{"id":"5","text":"pepper"}"#)?;
    writeln!(out, "mutations {id} and {next}")?;
    tell(out, a)
}

/// The server does not know the group any more: the users have to open a new one.
fn forget(out: &mut String, a: &mut User) -> Result<(), Refusal> {
    if let Err(e) = a.pull() {
        writeln!(out, "pull: {e}")?;
    }
    if let Err(e) = a.change("toggle", r#"{"id":"1"}"#) {
        writeln!(out, "toggle: {e}")?;
    }
    Ok(())
}

fn second_day(out: &mut String, a: &mut User, other: &mut User) -> Result<(), Refusal> {
    fill(out, a)?;
    impersonate(out, a, other)?;
    forget(out, a)
}

fn story<R: Threads + Sync>(rt: &R, alloc: Global, out: &mut String) -> Result<(), Refusal> {
    let mut list = List::open(alloc)?;
    let mut a = list.user(alloc, 0xa, TO_A)?;
    let mut b = list.user(alloc, 0xb, TO_B)?;
    first_day(rt, out, &mut a, &mut b)?;
    let mut other = list.user(alloc, 0xa, &[])?;
    second_day(out, &mut a, &mut other)
}

fn main(rt: HostRuntime) -> io::Result<()> {
    let alloc = rt.alloc();
    let mut out = String::new(alloc);
    let end = story(&rt, alloc, &mut out);
    print!(rt; "{out}")?;
    if let Err(e) = end {
        println!(rt; "refused: {e}")?;
    }
    Ok(())
}
