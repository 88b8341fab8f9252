//! The run that a change asks for, and the map that it reads and writes.
ghost use Rattle.std.specs.Prelude.{◌≡◌, ⊤, [], IfErr, OnErr, OnOk};
ghost use Rattle.std.specs.FinMap as finite;
ghost use Rattle.group_history.specs.Scans.{rows_of};
ghost use Rattle.change_tries.specs.Missing.{IsStoreOrMemory, map_ok};
ghost use Rattle.pull_patch.specs.Writes.{wrote};
ghost use Rattle.rebase.specs.Replies.{reply_seen};
ghost use Rattle.client_desk.specs.Drafts.{ReadsMap, WritesAll, WritesMap};
ghost use Rattle.client_desk.specs.declared.outcomes.Outcome.TheVariants.{Done, Number};
ghost use Rattle.client_desk.specs.Told.{bytes_told, is_told, named_told, reason_number, replied_told, rows_told};
ghost use Rattle.client_desk.specs.Told.{run_told, tells, told, told_alone, value_told};
ghost use Rattle.client_desk.specs.Inside.Drafting.{IsThisOrDry};

use crate::outcomes::Outcome;
use crate::printing::print_rows;
use crate::reading::wrote;
use group_history::{Ended, Json, Means, Mutation, Reason, Refusal, Scan};
use pull_patch::Write;
use push_body::mutation_bytes;
use rebase::{Arena, Asking, CallReply};
use std::alloc::Global;

/// Tells the name of the mutator that is to be run, and for which reason.
pub(crate) fn tell_name<M: Means + Sync>(
    asking: &Asking<M, Arena<M>>,
    bytes: &mut Vec<u8>,
) -> Outcome
    requires { bytes.old.items ≡ [] }
    ensures { IsThisOrDry (named_told asking.now.mutation) (told result bytes.new.items) }
{
    let mutation = asking.mutation();
    if bytes
        .extend_from_slice(mutation.fields().name.as_str().as_bytes())
        .is_err()
    {
        bytes.clear();
        return Outcome::Refused(Refusal::NoMemory);
    }
    reason_outcome(mutation)
}

/// Tells the run in one: the mutation as a push lists it, and the reason.
pub(crate) fn tell_run<M: Means + Sync>(
    alloc: Global,
    asking: &Asking<M, Arena<M>>,
    bytes: &mut Vec<u8>,
) -> Outcome
    requires { bytes.old.items ≡ [] }
    ensures { IsThisOrDry (run_told asking.now.mutation) (told result bytes.new.items) }
{
    let mutation = asking.mutation();
    match mutation_bytes(alloc, mutation) {
        Ok(text) => {
            *bytes = text;
            reason_outcome(mutation)
        }
        Err(_) => Outcome::Refused(Refusal::NoMemory),
    }
}

// For which reason a run is asked for.
fn reason_outcome(mutation: &Mutation) -> Outcome
    ensures { result ≡ Number (reason_number mutation.now.reason) }
{
    match mutation.fields().reason {
        Reason::Initial => Outcome::Number(0),
        Reason::Rebase => Outcome::Number(1),
    }
}

/// Tells the arguments on which it is to be run.
pub(crate) fn tell_args<M: Means + Sync>(
    asking: &Asking<M, Arena<M>>,
    bytes: &mut Vec<u8>,
) -> Outcome
    requires { bytes.old.items ≡ [] }
    ensures { IsThisOrDry (bytes_told asking.now.mutation.args) (told result bytes.new.items) }
{
    let mutation = asking.mutation();
    wrote(
        bytes.extend_from_slice(mutation.fields().args.text().as_bytes()),
        bytes,
    )
}

/// Tells the value at a key of the run's map.
pub(crate) fn tell_drafted<M: Means + Sync>(
    asking: &Asking<M, Arena<M>>,
    key: &str,
    bytes: &mut Vec<u8>,
) -> Outcome
    requires { bytes.old.items ≡ [] }
    ensures { ReadsMap value_told (λ m. finite.get m key.now) asking.now (told result bytes.new.items) }
{
    match asking.get(key) {
        Ok(Some(json)) => wrote(bytes.extend_from_slice(json.text().as_bytes()), bytes),
        Ok(None) => Outcome::Nothing,
        Err(refusal) => Outcome::Refused(refusal),
    }
}

/// Tells whether the key is there in the run's map.
pub(crate) fn tell_is_drafted<M: Means + Sync>(asking: &Asking<M, Arena<M>>, key: &str) -> Outcome
    ensures { ReadsMap is_told (λ m. finite.contains_key m key.now) asking.now (told_alone result) }
{
    match asking.get(key) {
        Ok(found) => Outcome::Is(found.is_some()),
        Err(refusal) => Outcome::Refused(refusal),
    }
}

/// Tells the rows of a scan of the run's map.
pub(crate) fn tell_drafted_rows<M: Means + Sync>(
    asking: &Asking<M, Arena<M>>,
    scan: &Scan,
    bytes: &mut Vec<u8>,
) -> Outcome
    requires { bytes.old.items ≡ [] }
    ensures { ReadsMap rows_told (rows_of scan.now) asking.now (told result bytes.new.items) }
{
    match asking.scan(scan) {
        Ok(rows) => wrote(print_rows(&rows, bytes), bytes),
        Err(refusal) => Outcome::Refused(refusal),
    }
}

/// Puts a value into the run's map.
pub(crate) fn put_drafted<M: Means + Sync>(
    asking: &mut Asking<M, Arena<M>>,
    key: &str,
    value: &Json,
) -> Outcome
    ensures { WritesMap (λ m. finite.insert m key.now value.now) asking.old (told_alone result) asking.new }
{
    written(asking.put(key, value))
}

/// Takes a key out of the run's map.
pub(crate) fn del_drafted<M: Means + Sync>(asking: &mut Asking<M, Arena<M>>, key: &str) -> Outcome
    ensures { WritesMap (λ m. finite.remove m key.now) asking.old (told_alone result) asking.new }
{
    written(asking.del(key))
}

// Does a write on the run's map.
fn do_write<M: Means + Sync>(asking: &mut Asking<M, Arena<M>>, write: &Write) -> Result<(), Refusal>
    ensures done { OnOk result (asking.new ≡ record asking.old { map = wrote write.now asking.old.map }) }
    ensures left { OnErr result (asking.new ≡ asking.old) }
    ensures err { IfErr result (IsStoreOrMemory ⊤) }
{
    match write {
        Write::Put(key, value) => asking.put(key.as_str(), value),
        Write::Del(key) => asking.del(key.as_str()),
    }
}

/// Does writes on the run's map, the first one first. Where one is refused, those before it are done.
pub(crate) fn write_drafted<M: Means + Sync>(
    asking: &mut Asking<M, Arena<M>>,
    writes: &[Write],
) -> Outcome
    ensures { WritesAll writes.now asking.old (told_alone result) asking.new }
{
    for write in writes {
        if let Err(refusal) = do_write(asking, write) {
            return Outcome::Refused(refusal);
        }
    }
    Outcome::Done
}

fn written(reply: Result<(), Refusal>) -> Outcome
    ensures { told_alone result ≡ tells (λ _. told_alone Done) reply }
{
    match reply {
        Ok(()) => Outcome::Done,
        Err(refusal) => Outcome::Refused(refusal),
    }
}

fn reply_outcome(reply: &CallReply) -> Outcome
    ensures { told_alone result ≡ replied_told (reply_seen reply.now) }
{
    match reply {
        CallReply::Id(id) => Outcome::Number(*id),
        CallReply::Ended(Ended::Applied) => Outcome::Done,
        CallReply::Ended(Ended::Same) => Outcome::Nothing,
        _ => Outcome::Done,
    }
}

/// What a change came to that asks for no run more.
pub(crate) fn replied_outcome(reply: Result<CallReply, Refusal>) -> Outcome
    ensures { told_alone result ≡ tells replied_told (map_ok reply_seen reply) }
{
    match reply {
        Ok(reply) => {
            let outcome = reply_outcome(&reply);
            drop(reply);
            outcome
        }
        Err(refusal) => Outcome::Refused(refusal),
    }
}
