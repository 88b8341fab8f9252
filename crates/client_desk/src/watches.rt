//! Watches that are polled.
ghost use Rattle.std.specs.Prelude.{◌≡◌, ◌⊎◌, ⊤, T, [], IfErr, IfOk, OnOk, unwrap_or};
ghost use Rattle.group_history.specs.Rows.{Rows, keys_of, rises};
ghost use Rattle.rebase.specs.Clients.{AfterQuery};
ghost use Rattle.rebase.specs.Watching.{watch_after};
ghost use Rattle.rebase.specs.declared.watching.Polled.TheVariants as polled;
ghost use Rattle.client_desk.specs.Answers.{TellsChanges};
ghost use Rattle.client_desk.specs.declared.outcomes.Outcome.TheVariants.{Done};
ghost use Rattle.client_desk.specs.Told.{dry, told, told_alone};
ghost use Rattle.client_desk.specs.Inside.Keeping.{IsPolled, KeepsWatch, telling_of};

use crate::calls::Keep;
use crate::kept::keep;
use crate::outcomes::Outcome;
use crate::place::TRIES;
use crate::printing::print_rows;
use group_history::{Json, Means, Refusal, Text};
use rebase::{Arena, Client, Polled, Watch};
use row_changes::{changes_of, print_changes};
use std::alloc::AllocError;
use std::mem::replace;

/// What a poll tells where rows are new.
#[derive(Clone, Copy)]
pub(crate) enum Tells {
    /// The rows.
    Rows,
    /// What changed from those that were told last.
    Changes,
}

// The rows that a watch told last; none before the first poll.
fn last_rows<M: Means>(watch: &Watch<M>) -> &[(Text, Json)]
    ensures last { result.now ≡ unwrap_or watch.now.last [] }
    ensures rising { T (rises (keys_of result.now)) }
{
    match watch.rows() {
        Some(rows) => rows.as_slice(),
        None => &[],
    }
}

// Writes what changed from the rows that a watch told last to those that its copy told since.
fn print_changed<M: Means>(
    old: &Watch<M>,
    new: &Watch<M>,
    bytes: &mut Vec<u8>,
) -> Result<(), AllocError>
    requires { bytes.old.items ≡ [] }
    ensures { (rows : Rows) → new.now.last ≡ Some rows
        → OnOk result (TellsChanges old.now (Ok (polled.New rows)) (told Done bytes.new.items)) }
{
    let alloc = bytes.allocator().clone()?;
    let changes = changes_of(alloc, last_rows(old), last_rows(new))?;
    print_changes(&changes, bytes)
}

// Writes what is told of the rows that a watch's copy told since.
fn print_new<M: Means>(
    tells: Tells,
    old: &Watch<M>,
    new: &Watch<M>,
    bytes: &mut Vec<u8>,
) -> Result<(), AllocError>
    requires { bytes.old.items ≡ [] }
    ensures { (rows : Rows) → new.now.last ≡ Some rows
        → OnOk result (telling_of tells old.now (Ok (polled.New rows)) (told Done bytes.new.items)) }
{
    match tells {
        Tells::Rows => print_rows(last_rows(new), bytes),
        Tells::Changes => print_changed(old, new, bytes),
    }
}

// Tells what a watch's copy was polled for; nothing where memory is refused.
fn tell_polled<M: Means>(
    tells: Tells,
    old: &Watch<M>,
    new: &Watch<M>,
    reply: Result<Polled, Refusal>,
    bytes: &mut Vec<u8>,
) -> Result<Outcome, AllocError>
    requires kept { new.now ≡ watch_after old.now reply }
    requires empty { bytes.old.items ≡ [] }
    ensures told { IfOk result (λ outcome. telling_of tells old.now reply (told outcome bytes.new.items)) }
    ensures lack { IfErr result (λ _. bytes.new.items ≡ []) }
{
    match reply {
        Ok(Polled::New(_)) => {
            if let Err(e) = print_new(tells, old, new, bytes) {
                bytes.clear();
                return Err(e);
            }
            Ok(Outcome::Done)
        }
        Ok(Polled::Unchanged) => Ok(Outcome::Nothing),
        Err(refusal) => Ok(Outcome::Refused(refusal)),
    }
}

// Polls a copy of a watch, which is kept where what is new is told.
fn poll_copy<M: Means + Sync>(
    client: &mut Client<M, Arena<M>>,
    watch: &mut Watch<M>,
    copy: Watch<M>,
    tells: Tells,
    bytes: &mut Vec<u8>,
) -> Outcome
    requires book { watch.old.book ≡ client.old.seat.mark.book }
    requires copy { copy ≡ watch.old }
    requires empty { bytes.old.items ≡ [] }
    ensures polled { IsPolled (telling_of tells) M.means client.old client.new watch.old watch.new
        (told result bytes.new.items) }
    ensures looked { AfterQuery ⊤ client.old client.new }
{
    let mut copy = copy;
    let reply = client.poll(&mut copy, TRIES);
    match tell_polled(tells, watch, &copy, reply, bytes) {
        Ok(outcome) => {
            drop(replace(watch, copy));
            outcome
        }
        Err(_) => {
            drop(copy);
            Outcome::Refused(Refusal::NoMemory)
        }
    }
}

/// Polls a watch, and tells what is new. Where memory is refused the watch is as it was.
pub(crate) fn poll_watch<M: Means + Sync>(
    client: &mut Client<M, Arena<M>>,
    watch: &mut Watch<M>,
    tells: Tells,
    bytes: &mut Vec<u8>,
) -> Outcome
    requires book { watch.old.book ≡ client.old.seat.mark.book }
    requires empty { bytes.old.items ≡ [] }
    ensures polled { IsPolled (telling_of tells) M.means client.old client.new watch.old watch.new
        (told result bytes.new.items) }
    ensures looked { AfterQuery ⊤ client.old client.new
        ⊎ ((client.new ≡ client.old) × (told result bytes.new.items ≡ dry) × (watch.new ≡ watch.old)) }
{
    match watch.clone() {
        Ok(copy) => poll_copy(client, watch, copy, tells, bytes),
        Err(_) => Outcome::Refused(Refusal::NoMemory),
    }
}

/// Keeps a watch. Where memory is refused it is not kept.
pub(crate) fn keep_watch<M: Means + Sync>(
    watches: &mut Vec<Option<Watch<M>>>,
    at: Keep,
    watch: Watch<M>,
) -> Outcome
    ensures { KeepsWatch at watch (told_alone result) watches.old.items watches.new.items }
{
    match keep(watches, at, watch) {
        Ok(number) => Outcome::Number(number as u64),
        Err(_) => Outcome::Refused(Refusal::NoMemory),
    }
}
