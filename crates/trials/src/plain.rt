//! A trial over the group of one thread: a list of calls over a map.
use crate::calls::{Tickets, Turn, body_of, call_of, is_no_call, keep_ticket};
use crate::failed::Failed;
use crate::looks::{all_rows, say_change, say_seen};
use crate::marks::{begins, ends};
use crate::parts::say_text;
use crate::replies::{CallResult, Said, id_word, is_change};
use crate::rows::{CallWay, Deed};
use crate::sheet::{AskedCommand, SheetLine, Trial, is_played};
use crate::tally::{TrialTally, judge};
use crate::trial::TrialHost;
use group_history::{Ended, Mutation, PlainGroup, Refusal, Scan, Text};
use pull_patch::read_response;
use push_body::{Identity, pull_bytes, push_bytes};
use rebase::{Call, CallReply, Mutate, Polled, Rows, Ticket};
use script_mutators::ScriptMutators;
use script_parser::{ClientLine, Command, Query, uuid_text};
use std::alloc::{AllocError, Global};
use std::collections::BTreeMap;

/// A group, and whose requests it writes.
#[derive(Drop)]
struct Plain {
    alloc: Global,
    group: PlainGroup<ScriptMutators>,
    identity: Identity,
}

/// A scan that is polled, and the rows that were answered last.
#[derive(Drop)]
struct PlainWatch {
    scan: Scan,
    last: Option<Rows>,
}

/// A client: its ID, its last id, and what it keeps.
#[derive(Drop)]
struct PlainPlayer {
    id: Text,
    last: u64,
    tickets: Tickets,
    watches: BTreeMap<usize, PlainWatch>,
    all: Scan,
}

impl Plain {
    fn value(&self, key: &Text) -> CallResult {
        match self.group.get(key) {
            Some(value) => Ok(CallReply::Value(Some(value.clone()?))),
            None => Ok(CallReply::Value(None)),
        }
    }

    fn pending(&self) -> Result<Vec<Mutation>, AllocError> {
        let mut copy = Vec::new(self.alloc);
        for mutation in self.group.pending() {
            copy.push(mutation.clone()?)?;
        }
        Ok(copy)
    }

    fn query(&self, call: Call<'_>) -> CallResult {
        match call {
            Call::Get(key) => self.value(key),
            Call::Has(key) => Ok(CallReply::Is(self.group.has(key))),
            Call::Scan(scan) => Ok(CallReply::Rows(self.group.scan(scan)?)),
            Call::IsEmpty => Ok(CallReply::Is(self.group.is_empty())),
            Call::Closed => Ok(CallReply::Is(self.group.closed())),
            Call::Pending => Ok(CallReply::Pending(self.pending()?)),
            _ => Ok(CallReply::Cookie(self.group.cookie().clone()?)),
        }
    }

    /// The body of a push, but for the oldest so many mutations.
    fn push(&self, skip: usize) -> Result<Vec<u8>, Refusal> {
        let pending = self.group.pending();
        let skip = skip.min(pending.len());
        push_bytes(self.alloc, &self.identity, &pending[skip..])
    }

    fn begin(&self) -> Result<Ticket, Refusal> {
        let cookie = self.group.cookie().clone()?;
        let body = pull_bytes(self.alloc, &self.identity, &cookie)?;
        Ok(Ticket { body, cookie })
    }

    fn end(&mut self, ticket: &Ticket, body: &[u8]) -> Result<Ended, Refusal> {
        let response = read_response(self.alloc, body)?;
        self.group
            .end_pull(&ScriptMutators, &ticket.cookie, &response)
    }

    fn mutate(&mut self, id: &Text, last: u64, it: Mutate<'_>) -> Result<u64, Refusal> {
        self.group
            .mutate(&ScriptMutators, id, last, it.name, it.args, it.time)
    }

    /// Makes a call of a client with this ID and this last id.
    fn call(&mut self, id: &Text, last: u64, call: Call<'_>) -> CallResult {
        match call {
            Call::Refresh => Ok(CallReply::Id(self.group.last(id))),
            Call::PushBody => self.push(0).map(CallReply::Body),
            Call::BeginPull => self.begin().map(CallReply::Ticket),
            Call::Mutate(it) => self.mutate(id, last, it).map(CallReply::Id),
            Call::EndPull(ticket, body) => self.end(ticket, body).map(CallReply::Ended),
            query => self.query(query),
        }
    }

    fn add_look(&mut self, seen: &mut Said, id: &Text, call: Call<'_>) {
        let answer = self.call(id, 0, call);
        say_seen(seen, &answer);
    }

    /// All that a client of this ID sees.
    fn look(&mut self, id: &Text, all: &Scan) -> Said {
        let mut seen = Said::nothing(self.alloc);
        self.add_look(&mut seen, id, Call::Refresh);
        self.add_look(&mut seen, id, Call::PushBody);
        self.add_look(&mut seen, id, Call::Cookie);
        self.add_look(&mut seen, id, Call::Closed);
        self.add_look(&mut seen, id, Call::Scan(all));
        seen
    }
}

impl PlainWatch {
    /// The watch once it is polled where these rows are, and what the poll tells.
    fn polled(&self, rows: Rows) -> Result<(PlainWatch, Polled), AllocError> {
        let watch = PlainWatch {
            scan: self.scan.clone()?,
            last: Some(rows.clone()?),
        };
        match &self.last {
            Some(last) if *last == rows => Ok((watch, Polled::Unchanged)),
            _ => Ok((watch, Polled::New(rows))),
        }
    }
}

impl PlainPlayer {
    fn watch(&mut self, number: usize, scan: &Scan) -> Result<(), AllocError> {
        let watch = PlainWatch {
            scan: scan.clone()?,
            last: None,
        };
        self.watches.insert(number, watch)?;
        Ok(())
    }

    /// Polls the watch of a number, where there is one.
    fn poll(&mut self, plain: &Plain, number: usize) -> Result<Option<Polled>, Refusal> {
        let Some(watch) = self.watches.get(&number) else {
            return Ok(None);
        };
        let rows = plain.group.scan(&watch.scan)?;
        let (watch, polled) = watch.polled(Rows::new(plain.alloc, rows)?)?;
        self.watches.insert(number, watch)?;
        Ok(Some(polled))
    }

    fn say_poll(&mut self, plain: &Plain, number: usize, out: &mut Said) {
        match self.poll(plain, number) {
            Ok(Some(polled)) => out.say_polled(&Ok(polled)),
            Ok(None) => out.say("no watch"),
            Err(refusal) => out.say_refusal(refusal),
        }
    }

    fn unwatch(&mut self, number: usize, out: &mut Said) {
        match self.watches.remove(&number) {
            Some(_) => out.say("unwatched"),
            None => out.say("no watch"),
        }
    }

    /// Makes the call that a command is; none where it is none.
    fn answer<R>(
        &mut self,
        it: &Turn<'_, R>,
        plain: &mut Plain,
        command: &Command,
        body: &[u8],
    ) -> Option<CallResult> {
        let call = call_of(&self.tickets, command, body)?;
        begins(it.rt, it.is_marked);
        let answer = plain.call(&self.id, self.last, call);
        ends(it.rt, it.is_marked);
        Some(answer)
    }

    /// Keeps the ticket of a pull that is begun, and the id that is replied.
    fn keep(&mut self, command: &Command, answer: CallResult, out: &mut Said) {
        match (command, answer) {
            (Command::Begin(number), Ok(CallReply::Ticket(ticket))) => {
                if keep_ticket(&mut self.tickets, *number, ticket).is_err() {
                    out.cut();
                }
            }
            (_, Ok(CallReply::Id(id))) => self.last = id,
            (_, answer) => drop(answer),
        }
    }

    /// Says an answer, and keeps what is to be kept of it. Whether it is one that changes the group.
    fn take(&mut self, command: &Command, answer: Option<CallResult>, out: &mut Said) -> bool {
        let Some(answer) = answer else {
            out.say("no ticket");
            return false;
        };
        out.say_answer(id_word(command), &answer);
        let is_change = is_change(command, &answer);
        self.keep(command, answer, out);
        is_change
    }

    fn call<R>(
        &mut self,
        it: &Turn<'_, R>,
        plain: &mut Plain,
        command: &Command,
        way: CallWay<'_>,
        out: &mut Said,
    ) -> bool {
        let Ok(body) = body_of(plain.alloc, command, way) else {
            out.cut();
            return false;
        };
        let answer = self.answer(it, plain, command, &body);
        self.take(command, answer, out)
    }

    fn say_watch(&mut self, number: usize, scan: &Scan, out: &mut Said) {
        match self.watch(number, scan) {
            Ok(()) => out.say("watching"),
            Err(_) => out.cut(),
        }
    }

    /// Does a command, and says the reply. Whether it changes the group.
    fn does<R>(
        &mut self,
        it: &Turn<'_, R>,
        plain: &mut Plain,
        command: &Command,
        way: CallWay<'_>,
        out: &mut Said,
    ) -> bool {
        match command {
            Command::Learn(_) => out.say("learnt"),
            Command::Moment | Command::Slots | Command::Changes(_) => {
                out.say("nothing of a trial");
            }
            Command::BeginRead | Command::EndRead => out.say("nothing of a trial"),
            Command::Watch(number, scan) => self.say_watch(*number, scan, out),
            Command::Poll(number) => self.say_poll(plain, *number, out),
            Command::Unwatch(number) => self.unwatch(*number, out),
            Command::Query(query) if is_no_call(query) => say_asked(plain, query, out),
            command => return self.call(it, plain, command, way, out),
        }
        false
    }

    /// The same; and where what is seen is not what it should be, that is said.
    fn tries<R>(
        &mut self,
        it: &Turn<'_, R>,
        plain: &mut Plain,
        command: &Command,
        way: CallWay<'_>,
        out: &mut Said,
    ) {
        let before = plain.look(&self.id, &self.all);
        let is_change = self.does(it, plain, command, way, out);
        let after = plain.look(&self.id, &self.all);
        say_change(out, &before, &after, is_change);
    }
}

fn player_of(alloc: Global, line: &ClientLine) -> Result<PlainPlayer, AllocError> {
    Ok(PlainPlayer {
        id: uuid_text(alloc, line.id)?,
        last: 0,
        tickets: Tickets::new(alloc),
        watches: BTreeMap::new(alloc),
        all: all_rows(alloc)?,
    })
}

fn players_of(alloc: Global, lines: &[ClientLine]) -> Result<Vec<PlainPlayer>, AllocError> {
    let mut players = Vec::new(alloc);
    for line in lines {
        players.push(player_of(alloc, line)?)?;
    }
    Ok(players)
}

/// Says the answer to what no call asks.
fn say_asked(plain: &Plain, query: &Query, out: &mut Said) {
    match query {
        Query::Push(skip) => out.say_answer("", &plain.push(*skip).map(CallReply::Body)),
        _ => out.say("nothing of a plain group"),
    }
}

/// Does what a line says, and says the reply.
fn does<R>(
    it: &Turn<'_, R>,
    plain: &mut Plain,
    players: &mut [PlainPlayer],
    entry: &SheetLine<'_>,
    out: &mut Said,
) {
    match (entry.row.deed, entry.asked) {
        (Deed::Part(name, given), _) => say_text(it, name, given, out),
        (Deed::Call(way), Some(asked)) => match players.get_mut(asked.place) {
            Some(player) => player.tries(it, plain, asked.command, way, out),
            None => out.say("no client"),
        },
        _ => out.say("nothing of a plain group"),
    }
}

fn play_entry<R>(
    host: &TrialHost<'_, R>,
    plain: &mut Plain,
    players: &mut [PlainPlayer],
    entry: &SheetLine<'_>,
    tally: &mut TrialTally<'_>,
) -> Result<(), Failed> {
    let mut out = Said::nothing(host.rt.alloc());
    does(&host.turn(entry.is_chosen), plain, players, entry, &mut out);
    judge(host, entry, &out, tally)
}

fn play_entries<R>(
    host: &TrialHost<'_, R>,
    plain: &mut Plain,
    players: &mut [PlainPlayer],
    entries: &[SheetLine<'_>],
    tally: &mut TrialTally<'_>,
) -> Result<(), Failed> {
    for entry in entries {
        if !entry.rests() {
            play_entry(host, plain, players, entry, tally)?;
        }
    }
    Ok(())
}

fn play_part<R>(
    host: &TrialHost<'_, R>,
    trial: &Trial<'_>,
    entries: &[SheetLine<'_>],
    tally: &mut TrialTally<'_>,
) -> Result<(), Failed> {
    let mut plain = plain_of(host.rt.alloc(), trial)?;
    play_in(host, trial, &mut plain, entries, tally)
}

fn plain_of(alloc: Global, trial: &Trial<'_>) -> Result<Plain, Refusal> {
    let identity = trial.header.identity(alloc)?;
    Ok(Plain {
        alloc,
        group: PlainGroup::new(alloc)?,
        identity,
    })
}

fn play_in<R>(
    host: &TrialHost<'_, R>,
    trial: &Trial<'_>,
    plain: &mut Plain,
    entries: &[SheetLine<'_>],
    tally: &mut TrialTally<'_>,
) -> Result<(), Failed> {
    let mut players = players_of(host.rt.alloc(), &trial.header.clients)?;
    play_entries(host, plain, &mut players, entries, tally)
}

/// Plays a trial: whole, or the part alone with the chosen line.
pub(crate) fn play<R>(
    host: &TrialHost<'_, R>,
    trial: Trial<'_>,
    chosen: Option<usize>,
    tally: &mut TrialTally<'_>,
) -> Result<(), Failed> {
    let groups = trial.parts(host.rt.alloc())?;
    for group in &groups {
        play_lines(host, &trial, *group, chosen, tally)?;
    }
    Ok(())
}

/// Plays the lines of one group, where they are played.
fn play_lines<R>(
    host: &TrialHost<'_, R>,
    trial: &Trial<'_>,
    group: (usize, usize),
    chosen: Option<usize>,
    tally: &mut TrialTally<'_>,
) -> Result<(), Failed> {
    if !is_played(group, chosen) {
        return Ok(());
    }
    let entries = trial.entries(host.rt.alloc(), group, chosen)?;
    play_part(host, trial, &entries, tally)
}
