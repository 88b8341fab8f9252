//! Readers that a trial keeps: each is opened, asked and closed under its name.
ghost use Rattle.commit_graph.specs.Seats.{IsSameSeat};

use crate::calls::Turn;
use crate::marks::{begins, ends};
use crate::players::Written;
use crate::replies::{CallResult, Said};
use crate::rows::{CallWay, Manner};
use chunk_slots::Store;
use group_history::{Refusal, Scan, Text};
use rebase::{CallReply, Client, ReadTx};
use script_mutators::ScriptMutators;
use script_parser::Query;
use std::alloc::Global;
use std::slice::IterMut;

/// A reader under its name.
#[derive(Drop)]
struct NamedReader<'p, S: Store<ScriptMutators>> {
    name: &'p str,
    tx: ReadTx<'p, ScriptMutators, S>,
}

/// The readers that are open, and clients that have not read yet: each reads once.
#[derive(Drop)]
pub(crate) struct Readers<'p, S: Store<ScriptMutators>> {
    pub(crate) free: IterMut<'p, Client<ScriptMutators, S>>,
    open: Vec<NamedReader<'p, S>>,
}

impl<'p, S: Store<ScriptMutators>> Readers<'p, S> {
    /// No reader yet, and clients that may read.
    pub(crate) fn new(
        alloc: Global,
        clients: &'p mut [Client<ScriptMutators, S>],
    ) -> Readers<'p, S> {
        Readers {
            free: clients.iter_mut(),
            open: Vec::new(alloc),
        }
    }

    /// Opens a reader.
    pub(crate) fn opens<R>(&mut self, it: &Turn<'_, R>, name: &'p str, out: &mut Said) {
        let Some(client) = self.free.next() else {
            return out.say("no client");
        };
        begins(it.rt, it.is_marked);
        let read = client.read(1);
        ends(it.rt, it.is_marked);
        match read {
            Ok(tx) => self.keep(NamedReader { name, tx }, out),
            Err(refusal) => out.say_refusal(refusal),
        }
    }

    /// Keeps a reader that is open.
    fn keep(&mut self, open: NamedReader<'p, S>, out: &mut Said) {
        match self.open.push(open) {
            Ok(()) => out.say("reading"),
            Err(_) => out.cut(),
        }
    }

    /// Asks a reader a query.
    pub(crate) fn asks<R>(
        &self,
        it: &Turn<'_, R>,
        name: &str,
        query: &Query,
        way: CallWay<'_>,
        out: &mut Said,
    ) {
        match self.open.iter().find(|open| open.name == name) {
            Some(open) => say_asked(it, &open.tx, query, way, out),
            None => out.say("no reader"),
        }
    }

    /// Closes a reader. One that is not open is none.
    pub(crate) fn closes<R>(&mut self, it: &Turn<'_, R>, name: &str, out: &mut Said) {
        let Some(at) = self.open.iter().position(|open| open.name == name) else {
            return out.say("no reader");
        };
        let NamedReader { name: _, tx } = self.open.remove(at);
        begins(it.rt, it.is_marked);
        tx.close();
        ends(it.rt, it.is_marked);
        out.say("closed")
    }
}

fn say_asked<R, S: Store<ScriptMutators>>(
    it: &Turn<'_, R>,
    tx: &ReadTx<'_, ScriptMutators, S>,
    query: &Query,
    way: CallWay<'_>,
    out: &mut Said,
) {
    if let Query::Scan(scan) = query
        && way.manner == Manner::Into
    {
        say_scanned(it, tx, scan, out);
        return;
    }
    begins(it.rt, it.is_marked);
    let answer = asked(tx, query);
    ends(it.rt, it.is_marked);
    out.say_answer("", &answer)
}

fn say_scanned<R, S: Store<ScriptMutators>>(
    it: &Turn<'_, R>,
    tx: &ReadTx<'_, ScriptMutators, S>,
    scan: &Scan,
    out: &mut Said,
) {
    let mut written = Written::nothing(it.rt.alloc());
    begins(it.rt, it.is_marked);
    let scanned = tx.scan_into(scan, &mut written);
    ends(it.rt, it.is_marked);
    written.say(scanned, out);
}

/// Asks a client what no call asks.
pub(crate) fn asked_by<S: Store<ScriptMutators>>(
    client: &mut Client<ScriptMutators, S>,
    query: &Query,
    tries: u32,
) -> CallResult
    ensures { IsSameSeat client.old.seat client.new.seat }
{
    match query {
        Query::Push(skip) => client.push_body(*skip, tries).map(CallReply::Body),
        query => read_once(client, query, tries),
    }
}

/// Asks a client a query by a reading that lasts as long.
fn read_once<S: Store<ScriptMutators>>(
    client: &mut Client<ScriptMutators, S>,
    query: &Query,
    tries: u32,
) -> CallResult
    ensures { IsSameSeat client.old.seat client.new.seat }
{
    let tx = client.read(tries)?;
    let answer = asked(&tx, query);
    tx.close();
    answer
}

fn pulled_value<S: Store<ScriptMutators>>(
    tx: &ReadTx<'_, ScriptMutators, S>,
    key: &Text,
) -> CallResult {
    let mut pulled = tx.pulled()?;
    Ok(CallReply::Value(pulled.get(key.as_str())?))
}

fn pulled_rows<S: Store<ScriptMutators>>(
    tx: &ReadTx<'_, ScriptMutators, S>,
    scan: &Scan,
) -> CallResult {
    let mut pulled = tx.pulled()?;
    Ok(CallReply::Rows(pulled.scan(scan)?))
}

fn asked<S: Store<ScriptMutators>>(
    tx: &ReadTx<'_, ScriptMutators, S>,
    query: &Query,
) -> CallResult {
    match query {
        Query::Get(key) => tx.get(key.as_str()).map(CallReply::Value),
        Query::Scan(scan) => tx.scan(scan).map(CallReply::Rows),
        Query::PulledGet(key) => pulled_value(tx, key),
        Query::PulledScan(scan) => pulled_rows(tx, scan),
        Query::Pending => tx.pending().map(CallReply::Pending),
        Query::Cookie => tx.cookie().map(CallReply::Cookie),
        query => tells(tx, query).map(CallReply::Is),
    }
}

fn tells<S: Store<ScriptMutators>>(
    tx: &ReadTx<'_, ScriptMutators, S>,
    query: &Query,
) -> Result<bool, Refusal> {
    match query {
        Query::Has(key) => tx.has(key.as_str()),
        Query::Empty => tx.is_empty(),
        Query::Closed => tx.closed(),
        _ => Err(Refusal::BadShape),
    }
}
