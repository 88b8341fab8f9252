//! What a query is answered at a commit, and how it is told: by a reading that is open, or by a client that reads once.
ghost use Rattle.std.specs.Prelude.{◌≡◌, ⊤, [], map, true, None, Ok, IfErr, IfOk};
ghost use Rattle.std.specs.FinMap as finite;
ghost use Rattle.group_history.specs.Record.{after};
ghost use Rattle.group_history.specs.Scans.{rows_of};
ghost use Rattle.group_history.specs.Spelling.{version_of};
ghost use Rattle.linearized.specs.Answered.{IsLinearized, IsPoint, no_change};
ghost use Rattle.change_tries.specs.Missing.{IsStoreOrMemory, map_ok};
ghost use Rattle.head_word.specs.Books.{record_of};
ghost use Rattle.push_body.specs.Rows.{array_text, row_text};
ghost use Rattle.rebase.specs.Clients.{AfterQuery};
ghost use Rattle.rebase.specs.Readers.{lent, read_by, seen_by};
ghost use Rattle.client_desk.specs.Answers.{CountsBy, moment_by, read_by_client as known_by};
ghost use Rattle.client_desk.specs.Told.{cookie_told, dry, pending_told, rows_told, tells, told};
ghost use Rattle.client_desk.specs.Told.{value_told};
ghost use Rattle.client_desk.specs.Inside.Reading.{PushedBy, PushedKept, ToldBy, ToldKept, is_pulled, is_of_one_commit};
ghost use Rattle.client_desk.specs.Inside.Reading.{reading_told};
ghost use Rattle.client_desk.specs.declared.outcomes.Outcome.TheVariants.{Done};

use crate::calls::DeskCall;
use crate::outcomes::Outcome;
use crate::place::TRIES;
use crate::printing::{print_pending, print_slots};
use crate::rows::RowList;
use commit_graph::StoreNodes;
use group_history::{Cookie, Json, Means, Mutation, Refusal, Scan};
use rebase::{Arena, Client, CommitTx, ReadTx, Reader};
use std::alloc::{AllocError, Global};
use std::mem::replace;

// What was written, or that memory was refused: then nothing.
pub(crate) fn wrote(written: Result<(), AllocError>, bytes: &mut Vec<u8>) -> Outcome
    ensures ok { IfOk written (λ _. told result bytes.new.items ≡ told Done bytes.old.items) }
    ensures err { IfErr written (λ _. told result bytes.new.items ≡ dry) }
{
    if written.is_err() {
        bytes.clear();
        return Outcome::Refused(Refusal::NoMemory);
    }
    Outcome::Done
}

// The rows of a scan of what is read, as a JSON array that is written to bytes of which there are none yet.
pub(crate) fn rows_in<'a, M: Means + Sync>(
    tx: &mut CommitTx<StoreNodes<'a, M, Arena<M>>>,
    scan: &Scan,
    bytes: Vec<u8>,
) -> Result<Vec<u8>, Refusal>
    requires { bytes.items ≡ [] }
    ensures rows { IfOk result (λ text. text.items
        ≡ array_text (map row_text (rows_of scan.now tx.old.version.read))) }
    ensures refused { IfErr result (IsStoreOrMemory ⊤) }
{
    let mut list = RowList::new(bytes);
    if let Err(stop) = tx.scan_into(scan, &mut list) {
        drop(list);
        return Err(Refusal::from(stop));
    }
    Ok(list.end()?)
}

// The value at a key, if there is one.
fn tell_value(found: Option<Json>, bytes: &mut Vec<u8>) -> Result<Outcome, AllocError>
    requires { bytes.old.items ≡ [] }
    ensures { IfOk result (λ outcome. told outcome bytes.new.items ≡ value_told found) }
{
    let Some(json) = found else {
        return Ok(Outcome::Nothing);
    };
    bytes.extend_from_slice(json.text().as_bytes())?;
    Ok(Outcome::Done)
}

fn tell_pending(found: &[Mutation], bytes: &mut Vec<u8>) -> Result<Outcome, AllocError>
    requires { bytes.old.items ≡ [] }
    ensures { IfOk result (λ outcome. told outcome bytes.new.items ≡ pending_told found.now) }
{
    print_pending(found, bytes)?;
    Ok(Outcome::Done)
}

fn tell_cookie(found: &Cookie, bytes: &mut Vec<u8>) -> Result<Outcome, AllocError>
    requires { bytes.old.items ≡ [] }
    ensures { IfOk result (λ outcome. told outcome bytes.new.items ≡ cookie_told found.now) }
{
    bytes.extend_from_slice(found.text().as_bytes())?;
    Ok(Outcome::Done)
}

fn tell_rows<'a, M: Means + Sync>(
    alloc: Global,
    tx: &mut CommitTx<StoreNodes<'a, M, Arena<M>>>,
    scan: &Scan,
    bytes: &mut Vec<u8>,
) -> Result<Outcome, Refusal>
    requires { bytes.old.items ≡ [] }
    ensures told { IfOk result (λ outcome. told outcome bytes.new.items
        ≡ rows_told (rows_of scan.now tx.old.version.read)) }
    ensures refused { IfErr result (IsStoreOrMemory ⊤) }
{
    *bytes = rows_in(tx, scan, replace(bytes, Vec::new(alloc)))?;
    Ok(Outcome::Done)
}

// Tells what the server last sent: the value at a key, or the rows of a scan.
fn tell_pulled<'a, M: Means + Sync>(
    alloc: Global,
    tx: CommitTx<StoreNodes<'a, M, Arena<M>>>,
    call: DeskCall<'_>,
    bytes: &mut Vec<u8>,
) -> Result<Outcome, Refusal>
    requires query { is_pulled call ≡ true }
    requires empty { bytes.old.items ≡ [] }
    ensures told { IfOk result (λ outcome. told outcome bytes.new.items ≡ reading_told tx.entry.version call.entry) }
    ensures refused { IfErr result (IsStoreOrMemory ⊤) }
{
    let mut pulled = tx.pulled()?;
    match call {
        DeskCall::PulledGet(key) => {
            return Ok(tell_value(pulled.get(key)?, bytes)?);
        }
        DeskCall::PulledScan(scan) => {
            return tell_rows(alloc, &mut pulled, scan, bytes);
        }
        _ => unreachable!(),
    }
}

// Tells what a query is answered at a commit.
fn tell_query<'a, M: Means + Sync>(
    alloc: Global,
    tx: CommitTx<StoreNodes<'a, M, Arena<M>>>,
    call: DeskCall<'_>,
    bytes: &mut Vec<u8>,
) -> Result<Outcome, Refusal>
    requires query { is_of_one_commit call ≡ true }
    requires empty { bytes.old.items ≡ [] }
    ensures told { IfOk result (λ outcome. told outcome bytes.new.items ≡ reading_told tx.entry.version call.entry) }
    ensures refused { IfErr result (IsStoreOrMemory ⊤) }
{
    let mut tx = tx;
    match call {
        DeskCall::Get(key) => {
            return Ok(tell_value(tx.get(key)?, bytes)?);
        }
        DeskCall::Has(key) => {
            return Ok(Outcome::Is(tx.has(key)?));
        }
        DeskCall::Scan(scan) => {
            return tell_rows(alloc, &mut tx, scan, bytes);
        }
        DeskCall::Empty => {
            return Ok(Outcome::Is(tx.is_empty()?));
        }
        DeskCall::Pending => {
            return Ok(tell_pending(&tx.pending()?, bytes)?);
        }
        DeskCall::Cookie => {
            return Ok(tell_cookie(&tx.cookie()?, bytes)?);
        }
        DeskCall::Closed => {
            return Ok(Outcome::Is(tx.closed()?));
        }
        other => {
            return tell_pulled(alloc, tx, other, bytes);
        }
    }
}

// Tells what a query is answered by a reader.
fn ask_reader<M: Means + Sync>(
    alloc: Global,
    tx: &ReadTx<'_, M, Arena<M>>,
    call: DeskCall<'_>,
    bytes: &mut Vec<u8>,
) -> Result<Outcome, Refusal>
    requires query { is_of_one_commit call ≡ true }
    requires empty { bytes.old.items ≡ [] }
    ensures told { IfOk result (λ outcome. told outcome bytes.new.items
        ≡ reading_told (version_of M.means (read_by tx.now)) call.entry) }
    ensures refused { IfErr result (IsStoreOrMemory ⊤) }
{
    tell_query(alloc, tx.commit()?, call, bytes)
}

// Tells what a query is answered by a client, which reads once, and notes its moment.
fn ask_client<M: Means + Sync>(
    alloc: Global,
    client: &mut Client<M, Arena<M>>,
    call: DeskCall<'_>,
    moment: &mut u64,
    bytes: &mut Vec<u8>,
) -> Result<Outcome, Refusal>
    requires query { is_of_one_commit call ≡ true }
    requires empty { bytes.old.items ≡ [] }
    ensures answer { IsLinearized M.means TRIES client.old.seat.mark client.new.seat.mark
        (map_ok (λ outcome. told outcome bytes.new.items) result) no_change
        (λ s. Ok (reading_told (version_of M.means s) call.entry)) }
    ensures point { IfOk result (λ _. IsPoint M.means client.old.seat.mark client.new.seat.mark None
        client.new.seat.mark.log) }
    ensures now { IfOk result (λ outcome. told outcome bytes.new.items
        ≡ reading_told (version_of M.means (after (record_of client.new.seat.mark.log))) call.entry) }
    ensures refused { IfErr result (IsStoreOrMemory ⊤) }
    ensures moment { moment.new ≡ moment_by result client.new moment.old }
    ensures stays { AfterQuery ⊤ client.old client.new }
{
    let tx = client.read(TRIES)?;
    let reply = ask_reader(alloc, &tx, call, bytes);
    if reply.is_ok() {
        *moment = tx.moment();
    }
    tx.close();
    reply
}

// What was told, or why it was refused: then nothing is written.
fn read_outcome(reply: Result<Outcome, Refusal>, bytes: &mut Vec<u8>) -> Outcome
    ensures { told result bytes.new.items ≡ tells (λ t. t) (map_ok (λ outcome. told outcome bytes.old.items) reply) }
{
    match reply {
        Ok(outcome) => outcome,
        Err(refusal) => {
            bytes.clear();
            Outcome::Refused(refusal)
        }
    }
}

/// Tells what a query is answered by a client, which reads once. What is told as bytes is written, none where it was
/// refused; where it was answered its moment is noted.
pub(crate) fn tell_by_client<M: Means + Sync>(
    alloc: Global,
    client: &mut Client<M, Arena<M>>,
    call: DeskCall<'_>,
    moment: &mut u64,
    bytes: &mut Vec<u8>,
) -> Outcome
    requires query { is_of_one_commit call ≡ true }
    requires empty { bytes.old.items ≡ [] }
    ensures { ToldBy M.means client.old client.new moment.old moment.new (told result bytes.new.items)
        (λ s. reading_told (version_of M.means s) call.entry) }
{
    let reply = ask_client(alloc, client, call, moment, bytes);
    read_outcome(reply, bytes)
}

// Tells what a query is answered by a reading that is open, and notes its moment.
fn ask_reading<M: Means + Sync>(
    alloc: Global,
    reader: &Reader<M, Arena<M>>,
    call: DeskCall<'_>,
    moment: &mut u64,
    bytes: &mut Vec<u8>,
) -> Result<Outcome, Refusal>
    requires query { is_of_one_commit call ≡ true }
    requires empty { bytes.old.items ≡ [] }
    ensures told { IfOk result (λ outcome. told outcome bytes.new.items
        ≡ reading_told (version_of M.means (known_by reader.now)) call.entry) }
    ensures refused { IfErr result (IsStoreOrMemory ⊤) }
    ensures moment { moment.new ≡ moment_by result reader.now moment.old }
{
    let reply = tell_query(alloc, reader.tx(), call, bytes);
    if reply.is_ok() {
        *moment = reader.moment();
    }
    reply
}

/// The same by a reading that is open.
pub(crate) fn tell_by_reading<M: Means + Sync>(
    alloc: Global,
    reader: &Reader<M, Arena<M>>,
    call: DeskCall<'_>,
    moment: &mut u64,
    bytes: &mut Vec<u8>,
) -> Outcome
    requires query { is_of_one_commit call ≡ true }
    requires empty { bytes.old.items ≡ [] }
    ensures { ToldKept reader.now moment.old moment.new (told result bytes.new.items)
        (λ s. reading_told (version_of M.means s) call.entry) }
{
    let reply = ask_reading(alloc, reader, call, moment, bytes);
    read_outcome(reply, bytes)
}

/// Tells the body of a push of what is pending, but for the oldest so many, and notes its moment.
pub(crate) fn tell_push<M: Means + Sync>(
    client: &mut Client<M, Arena<M>>,
    skip: usize,
    moment: &mut u64,
    bytes: &mut Vec<u8>,
) -> Outcome
    requires { bytes.old.items ≡ [] }
    ensures { PushedBy skip M.means client.old client.new moment.old moment.new (told result bytes.new.items) }
{
    match client.push_with_moment(skip, TRIES) {
        Ok((body, at)) => {
            *bytes = body;
            *moment = at;
            Outcome::Done
        }
        Err(refusal) => Outcome::Refused(refusal),
    }
}

/// Tells how many slots are free.
pub(crate) fn tell_slots<M: Means>(client: &mut Client<M, Arena<M>>, bytes: &mut Vec<u8>) -> Outcome
    requires { bytes.old.items ≡ [] }
    ensures { CountsBy client.old (told result bytes.new.items) client.new }
{
    let counts = client.slots();
    wrote(print_slots(&counts, bytes), bytes)
}

/// The same by a reading that is open.
pub(crate) fn tell_push_as_of<M: Means + Sync>(
    reader: &Reader<M, Arena<M>>,
    skip: usize,
    moment: &mut u64,
    bytes: &mut Vec<u8>,
) -> Outcome
    requires { bytes.old.items ≡ [] }
    ensures { PushedKept skip reader.now moment.old moment.new (told result bytes.new.items) }
{
    match reader.push_body(skip) {
        Ok(body) => {
            *bytes = body;
            *moment = reader.moment();
            Outcome::Done
        }
        Err(refusal) => Outcome::Refused(refusal),
    }
}
