//! A client of a trial, with the tickets and the watches that it keeps.
ghost use Rattle.std.specs.Prelude.{◌≡◌, ◌<◌, IfOk, length};
ghost use Rattle.std.specs.Option.{ForSome};
ghost use Rattle.commit_graph.specs.Seats.{IsSameSeat, IsSeatOf};

use crate::calls::{Tickets, Turn, body_of, call_of, is_no_call, keep_ticket};
use crate::counts::Counted;
use crate::looks::{all_rows, look, say_change};
use crate::marks::{begins, ends};
use crate::readers::asked_by;
use crate::replies::{CallResult, Said, id_word, is_change};
use crate::rows::{CallWay, Manner, ONCE};
use chunk_slots::Store;
use group_history::{Json, Refusal, Scan, Text};
use rebase::{Call, CallReply, Client, Group, Polled, Seat, Seats, TakesRows, Watch};
use script_mutators::ScriptMutators;
use script_parser::{Command, Query};
use std::alloc::{AllocError, Global};
use std::sync::Wait;
use uuid::Uuid;

/// A watch under its number.
#[derive(Drop)]
struct NumberedWatch {
    number: usize,
    watch: Watch<ScriptMutators>,
}

/// A client, and what it keeps between its calls: tickets, and two watches. Another client of its ID looks at the
/// group.
#[derive(Drop)]
pub(crate) struct GroupPlayer<'g, S: Store<ScriptMutators>> {
    group: &'g Group<ScriptMutators, S>,
    id: Uuid,
    client: Client<ScriptMutators, S>,
    looker: Client<ScriptMutators, S>,
    tickets: Tickets,
    first: Option<NumberedWatch>,
    second: Option<NumberedWatch>,
    all: Scan,
    ghost client_of: { IsSeatOf group.now.group client.seat },
    ghost looker_of: { IsSeatOf group.now.group looker.seat },
    ghost first_of: { ForSome first (λ named. named.watch.book ≡ group.now.group.book) },
    ghost second_of: { ForSome second (λ named. named.watch.book ≡ group.now.group.book) },
}

/// The seats that are free. One is out at least, so there is room for it.
#[derive(Drop)]
pub(crate) struct Spare<S: Store<ScriptMutators>> {
    seats: Seats<ScriptMutators, S>,
    ghost room: { length seats.free < seats.room },
}

impl<S: Store<ScriptMutators>> Spare<S> {
    pub(crate) fn new(seats: Seats<ScriptMutators, S>) -> Spare<S>
        requires { length seats.free < seats.room }
    {
        Spare { seats }
    }

    /// Why there is no seat, if there is none. One that is there is given up.
    pub(crate) fn ask(&mut self) -> Option<Refusal> {
        match self.seats.take() {
            Ok(_) => None,
            Err(refusal) => Some(refusal),
        }
    }

    /// Takes the seat back, and gives out the next one: this one.
    fn exchange(
        &mut self,
        seat: Seat<ScriptMutators, S>,
    ) -> Result<Seat<ScriptMutators, S>, Refusal>
        ensures { IfOk result (λ again. again ≡ seat) }
    {
        self.seats.back(seat);
        self.seats.take()
    }
}

/// A sink that writes rows as a scan's reply has them.
#[derive(Drop)]
pub(crate) struct Written {
    rows: Said,
    before: &'static str,
}

impl TakesRows for Written {
    ghost has = { λ written rows. Unit {0} };

    fn take(&mut self, key: &Text, value: &Json) -> Result<(), AllocError> {
        self.rows.say(self.before);
        self.before = ",";
        self.rows.say_row(key, value);
        match self.rows.whole() {
            Ok(_) => Ok(()),
            Err(e) => Err(e),
        }
    }
}

impl Written {
    pub(crate) fn nothing(alloc: Global) -> Written {
        Written {
            rows: Said::nothing(alloc),
            before: "rows [",
        }
    }

    /// Says the reply to a scan that ended so.
    pub(crate) fn say(&self, scanned: Result<(), Refusal>, out: &mut Said) {
        match (scanned, self.rows.whole()) {
            (Ok(()), Ok(rows)) => {
                out.say_bytes(rows);
                out.say(if rows.is_empty() { "rows []" } else { "]" });
            }
            (Err(refusal), _) => out.say_refusal(refusal),
            (Ok(()), Err(_)) => out.cut(),
        }
    }
}

impl<'g, S: Store<ScriptMutators> + Drop> GroupPlayer<'g, S> {
    pub(crate) fn new(
        alloc: Global,
        group: &'g Group<ScriptMutators, S>,
        id: Uuid,
        client: Client<ScriptMutators, S>,
        looker: Client<ScriptMutators, S>,
    ) -> Result<GroupPlayer<'g, S>, AllocError>
        requires client { IsSeatOf group.now.group client.seat }
        requires looker { IsSeatOf group.now.group looker.seat }
    {
        let all = all_rows(alloc)?;
        Ok(GroupPlayer {
            group,
            id,
            client,
            looker,
            tickets: Tickets::new(alloc),
            first: None,
            second: None,
            all,
        })
    }

    /// All that its looker sees.
    fn look(&mut self, alloc: Global) -> Said {
        look(&mut self.looker, &self.all, alloc)
    }

    /// Makes the call that a command is; none where it is none, as an end of a pull whose ticket is not there.
    fn answer<R: Wait>(
        &mut self,
        it: &Turn<'_, R>,
        command: &Command,
        body: &[u8],
        way: CallWay<'_>,
    ) -> Option<CallResult> {
        let call = call_of(&self.tickets, command, body)?;
        begins(it.rt, it.is_marked);
        let answer = made(it.on, &mut self.client, call, way);
        ends(it.rt, it.is_marked);
        Some(answer)
    }

    /// Keeps the ticket of a pull that it began.
    fn keep(&mut self, command: &Command, answer: CallResult, out: &mut Said) {
        if let (Command::Begin(number), Ok(CallReply::Ticket(ticket))) = (command, answer)
            && keep_ticket(&mut self.tickets, *number, ticket).is_err()
        {
            out.cut();
        }
    }

    /// Says an answer, and keeps what is to be kept of it. Whether it is one that changes the group.
    fn take(&mut self, command: &Command, answer: Option<CallResult>, out: &mut Said) -> bool {
        let Some(answer) = answer else {
            out.say("no ticket");
            return false;
        };
        out.say_answer(id_word(command), &answer);
        let is_change = is_change(command, &answer);
        self.keep(command, answer, out);
        is_change
    }

    /// Makes a call, and says the answer. Whether it is one that changes the group.
    fn call<R: Wait>(
        &mut self,
        it: &Turn<'_, R>,
        command: &Command,
        way: CallWay<'_>,
        out: &mut Said,
    ) -> bool {
        let Ok(body) = body_of(it.rt.alloc(), command, way) else {
            out.cut();
            return false;
        };
        let answer = self.answer(it, command, &body, way);
        self.take(command, answer, out)
    }

    /// Scans into a sink.
    fn scan<R>(&mut self, it: &Turn<'_, R>, scan: &Scan, tries: u32, out: &mut Said) {
        let mut written = Written::nothing(it.rt.alloc());
        begins(it.rt, it.is_marked);
        let scanned = self.client.scan_into(scan, &mut written, tries);
        ends(it.rt, it.is_marked);
        written.say(scanned, out);
    }

    /// A watch of a scan.
    fn watched(&mut self, number: usize, scan: &Scan) -> Result<NumberedWatch, AllocError>
        ensures watch { IfOk result (λ named. named.watch.book ≡ self.old.group.now.group.book) }
        ensures group { self.new.group.now ≡ self.old.group.now }
    {
        let watch = self.client.watch(scan.clone()?);
        Ok(NumberedWatch { number, watch })
    }

    /// Watches a scan. A third watch takes the second one's place.
    fn watch(&mut self, number: usize, scan: &Scan, out: &mut Said) {
        let Ok(named) = self.watched(number, scan) else {
            return out.cut();
        };
        if self.first.is_none() || has_number(&self.first, number) {
            self.first = Some(named);
        } else {
            self.second = Some(named);
        }
        out.say("watching");
    }

    fn poll_first<R>(&mut self, it: &Turn<'_, R>, tries: u32) -> Option<Result<Polled, Refusal>> {
        let mut named = self.first.take()?;
        let polled = polled_by(it, &mut self.client, &mut named, tries);
        self.first = Some(named);
        Some(polled)
    }

    fn poll_second<R>(&mut self, it: &Turn<'_, R>, tries: u32) -> Option<Result<Polled, Refusal>> {
        let mut named = self.second.take()?;
        let polled = polled_by(it, &mut self.client, &mut named, tries);
        self.second = Some(named);
        Some(polled)
    }

    /// Polls the watch of a number, where there is one.
    fn poll<R>(&mut self, it: &Turn<'_, R>, number: usize, tries: u32, out: &mut Said) {
        let polled = if has_number(&self.first, number) {
            self.poll_first(it, tries)
        } else if has_number(&self.second, number) {
            self.poll_second(it, tries)
        } else {
            None
        };
        match polled {
            Some(polled) => out.say_polled(&polled),
            None => out.say("no watch"),
        }
    }

    /// Gives the watch of a number up, where there is one.
    fn unwatch(&mut self, number: usize, out: &mut Said) {
        let is_first = has_number(&self.first, number);
        if !is_first && !has_number(&self.second, number) {
            return out.say("no watch");
        }
        if is_first {
            self.first = None;
        } else {
            self.second = None;
        }
        out.say("unwatched");
    }

    /// Asks what no call asks.
    fn ask<R>(&mut self, it: &Turn<'_, R>, query: &Query, tries: u32, out: &mut Said) {
        begins(it.rt, it.is_marked);
        let answer = asked_by(&mut self.client, query, tries);
        ends(it.rt, it.is_marked);
        out.say_answer("", &answer);
    }

    /// Learns what its looker has seen: that looked last, so it is all that others have seen.
    fn learn<R>(&mut self, it: &Turn<'_, R>, out: &mut Said) {
        begins(it.rt, it.is_marked);
        let seen = self.looker.mark();
        self.client.learn(&seen);
        ends(it.rt, it.is_marked);
        out.say("learnt");
    }

    /// Does a command that is no call, and says the reply.
    fn does_other<R>(
        &mut self,
        it: &Turn<'_, R>,
        command: &Command,
        way: CallWay<'_>,
        out: &mut Said,
    ) {
        match command {
            Command::Learn(_) => self.learn(it, out),
            Command::Watch(number, scan) => self.watch(*number, scan, out),
            Command::Poll(number) => self.poll(it, *number, way.tries, out),
            Command::Unwatch(number) => self.unwatch(*number, out),
            Command::Moment | Command::Slots | Command::Changes(_) => {
                out.say("nothing of a trial");
            }
            Command::BeginRead | Command::EndRead => out.say("nothing of a trial"),
            Command::Query(Query::Scan(scan)) => self.scan(it, scan, way.tries, out),
            Command::Query(query) => self.ask(it, query, way.tries, out),
            _ => {}
        }
    }

    /// Does a command, and says the reply. Whether it changes the group.
    fn does<R: Wait>(
        &mut self,
        it: &Turn<'_, R>,
        command: &Command,
        way: CallWay<'_>,
        out: &mut Said,
    ) -> bool {
        let is_other = match command {
            Command::Learn(_) | Command::Moment | Command::Slots | Command::Changes(_) => true,
            Command::Watch(..) | Command::Poll(_) | Command::Unwatch(_) => true,
            Command::BeginRead | Command::EndRead => true,
            Command::Query(Query::Scan(_)) => way.manner == Manner::Into,
            Command::Query(query) => is_no_call(query),
            _ => false,
        };
        if is_other {
            self.does_other(it, command, way, out);
            return false;
        }
        self.call(it, command, way, out)
    }

    /// Does a command, and says the reply; and where its looker sees what it should not, that.
    pub(crate) fn tries<R: Wait>(
        &mut self,
        it: &Turn<'_, R>,
        command: &Command,
        way: CallWay<'_>,
        out: &mut Said,
    ) {
        let before = self.look(it.rt.alloc());
        let is_change = self.does(it, command, way, out);
        let after = self.look(it.rt.alloc());
        say_change(out, &before, &after, is_change);
    }

    /// Makes calls as one list, and says each reply and a line feed; and where its looker sees what it should not,
    /// that.
    pub(crate) fn tries_list<R>(
        &mut self,
        it: &Turn<'_, R>,
        commands: &[&Command],
        out: &mut Said,
    ) {
        let before = self.look(it.rt.alloc());
        let is_change = self.lists(it, commands, out);
        let after = self.look(it.rt.alloc());
        say_change(out, &before, &after, is_change);
    }

    /// Makes calls as one list, and says each answer and a line feed. Whether one of them changes the group.
    fn lists<R>(&mut self, it: &Turn<'_, R>, commands: &[&Command], out: &mut Said) -> bool {
        match bodies_of(it.rt.alloc(), commands) {
            Ok(bodies) => self.lists_with(it, commands, &bodies, out),
            Err(_) => {
                out.cut();
                false
            }
        }
    }

    fn lists_with<R>(
        &mut self,
        it: &Turn<'_, R>,
        commands: &[&Command],
        bodies: &[Vec<u8>],
        out: &mut Said,
    ) -> bool {
        match self.answers(it, commands, bodies) {
            Ok(answers) => say_answers(out, commands, &answers),
            Err(AllocError) => {
                out.say_refusal(Refusal::NoMemory);
                false
            }
        }
    }

    fn answers<R>(
        &mut self,
        it: &Turn<'_, R>,
        commands: &[&Command],
        bodies: &[Vec<u8>],
    ) -> Result<Vec<CallResult>, AllocError> {
        let alloc = it.rt.alloc();
        let calls = listed_calls(alloc, &self.tickets, commands, bodies)?;
        begins(it.rt, it.is_marked);
        let answers = self.client.call_all(alloc, &calls, ONCE.tries);
        ends(it.rt, it.is_marked);
        answers
    }

    /// The client is closed, its seat goes back, and a client of its ID takes that seat.
    pub(crate) fn comes_back<R>(
        self,
        it: &Turn<'_, R>,
        spare: &mut Spare<S>,
    ) -> Result<GroupPlayer<'g, S>, Refusal> {
        let GroupPlayer {
            group,
            id,
            client,
            looker,
            tickets,
            first,
            second,
            all,
        } = self;
        begins(it.rt, it.is_marked);
        let client = client_again(group, id, client, spare);
        ends(it.rt, it.is_marked);
        Ok(GroupPlayer {
            group,
            id,
            client: client?,
            looker,
            tickets,
            first,
            second,
            all,
        })
    }
}

/// The calls of a list. A command that is no call is left out.
fn listed_calls<'x>(
    alloc: Global,
    tickets: &'x Tickets,
    commands: &'x [&'x Command],
    bodies: &'x [Vec<u8>],
) -> Result<Vec<Call<'x>>, AllocError> {
    let mut calls = Vec::new(alloc);
    for (command, body) in commands.iter().zip(bodies) {
        if let Some(call) = call_of(tickets, command, body) {
            calls.push(call)?;
        }
    }
    Ok(calls)
}

fn client_again<S: Store<ScriptMutators> + Drop>(
    group: &Group<ScriptMutators, S>,
    id: Uuid,
    client: Client<ScriptMutators, S>,
    spare: &mut Spare<S>,
) -> Result<Client<ScriptMutators, S>, Refusal>
    requires { IsSeatOf group.now.group client.seat }
    ensures { IfOk result (λ again. IsSeatOf group.now.group again.seat) }
{
    let seat = spare.exchange(client.close())?;
    match group.client(seat, id, ONCE.tries) {
        Ok(client) => Ok(client),
        Err((_, refusal)) => Err(refusal),
    }
}

fn has_number(kept: &Option<NumberedWatch>, number: usize) -> bool {
    match kept {
        Some(kept) => kept.number == number,
        None => false,
    }
}

/// Polls a watch of a client's group.
fn polled_by<R, S: Store<ScriptMutators>>(
    it: &Turn<'_, R>,
    client: &mut Client<ScriptMutators, S>,
    named: &mut NumberedWatch,
    tries: u32,
) -> Result<Polled, Refusal>
    requires { named.old.watch.book ≡ client.old.seat.mark.book }
    ensures watch { named.new.watch.book ≡ named.old.watch.book }
    ensures client { IsSameSeat client.old.seat client.new.seat }
{
    begins(it.rt, it.is_marked);
    let polled = client.poll(&mut named.watch, tries);
    ends(it.rt, it.is_marked);
    polled
}

/// Makes a call once, or as the one that begins anew where others were first.
fn made<R: Wait, S: Store<ScriptMutators>>(
    on: &R,
    client: &mut Client<ScriptMutators, S>,
    call: Call<'_>,
    way: CallWay<'_>,
) -> CallResult
    ensures { IsSameSeat client.old.seat client.new.seat }
{
    match (call, way.manner) {
        (Call::Mutate(m), Manner::Waits) => {
            client.mutate(on, m.name, m.args, m.time).map(CallReply::Id)
        }
        (Call::EndPull(ticket, body), Manner::Waits) => {
            client.end_pull(on, ticket, body).map(CallReply::Ended)
        }
        (call, _) => client.make_call(call, way.tries),
    }
}

/// Says each answer and a line feed. Whether one of them changes the group.
fn say_answers(out: &mut Said, commands: &[&Command], answers: &[CallResult]) -> bool {
    let mut changes = false;
    for (command, answer) in commands.iter().zip(answers) {
        out.say_answer(id_word(command), answer);
        out.say("\n");
        changes = changes || is_change(command, answer);
    }
    changes
}

/// The bodies of the responses that commands have.
fn bodies_of(alloc: Global, commands: &[&Command]) -> Result<Vec<Vec<u8>>, AllocError> {
    let mut bodies = Vec::new(alloc);
    for command in commands {
        bodies.push(body_of(alloc, command, ONCE)?)?;
    }
    Ok(bodies)
}

impl<S: Counted> GroupPlayer<'_, S> {
    /// How full the group is, as its looker finds it.
    pub(crate) fn says_counts(&mut self, alloc: Global, out: &mut Said) {
        S::say_counts(alloc, &mut self.looker, out);
    }
}
