//! A trial over a store that threads may share: a group, its clients, and its readers.
ghost use Rattle.std.specs.Prelude.{◌<◌, IfOk, length};
ghost use Rattle.commit_graph.specs.Seats.{IsSeatOf};
ghost use Rattle.rebase.specs.Clients.{AreSeatsOf};

use crate::calls::Turn;
use crate::counts::Counted;
use crate::failed::Failed;
use crate::parts::{say_store, say_text};
use crate::players::{GroupPlayer, Spare};
use crate::readers::Readers;
use crate::replies::Said;
use crate::rows::{CallWay, Deed, ONCE};
use crate::sheet::{AskedCommand, SheetLine, Trial, is_played};
use crate::tally::{TrialTally, judge};
use crate::trial::TrialHost;
use chunk_slots::Store;
use group_history::Refusal;
use rebase::{Client, Config, Group, Seats};
use script_mutators::ScriptMutators;
use script_parser::{ClientLine, Command, Header};
use std::alloc::{AllocError, Global};
use std::io;
use std::sync::Wait;
use uuid::Uuid;

/// How many readers a group may open.
const READERS: u32 = 4;

/// A client of this ID on the next seat.
fn next_client<S: Store<ScriptMutators>>(
    group: &Group<ScriptMutators, S>,
    seats: &mut Seats<ScriptMutators, S>,
    id: Uuid,
) -> Result<Client<ScriptMutators, S>, Refusal>
    requires { AreSeatsOf group.now.group seats.old.free }
    ensures seats { AreSeatsOf group.now.group seats.new.free }
    ensures room { IfOk result (λ _. length seats.new.free < seats.new.room) }
    ensures seat { IfOk result (λ client. IsSeatOf group.now.group client.seat) }
{
    let seat = seats.take()?;
    match group.client(seat, id, ONCE.tries) {
        Ok(client) => Ok(client),
        Err((_, e)) => Err(e),
    }
}

/// A player of this ID on the next two seats.
fn next_player<'g, S: Store<ScriptMutators> + Drop>(
    alloc: Global,
    group: &'g Group<ScriptMutators, S>,
    seats: &mut Seats<ScriptMutators, S>,
    id: Uuid,
) -> Result<GroupPlayer<'g, S>, Refusal>
    requires { AreSeatsOf group.now.group seats.old.free }
    ensures { AreSeatsOf group.now.group seats.new.free }
{
    let client = next_client(group, seats, id)?;
    let looker = next_client(group, seats, id)?;
    Ok(GroupPlayer::new(alloc, group, id, client, looker)?)
}

fn add_player<'g, S: Store<ScriptMutators> + Drop>(
    alloc: Global,
    group: &'g Group<ScriptMutators, S>,
    seats: &mut Seats<ScriptMutators, S>,
    id: Uuid,
    players: &mut Vec<Option<GroupPlayer<'g, S>>>,
) -> Result<(), Refusal>
    requires { AreSeatsOf group.now.group seats.old.free }
    ensures { AreSeatsOf group.now.group seats.new.free }
{
    let player = next_player(alloc, group, seats, id)?;
    players.push(Some(player))?;
    Ok(())
}

fn players_of<'g, S: Store<ScriptMutators> + Drop>(
    alloc: Global,
    group: &'g Group<ScriptMutators, S>,
    seats: &mut Seats<ScriptMutators, S>,
    lines: &[ClientLine],
) -> Result<Vec<Option<GroupPlayer<'g, S>>>, Refusal>
    requires { AreSeatsOf group.now.group seats.old.free }
    ensures { AreSeatsOf group.now.group seats.new.free }
{
    let mut players = Vec::new(alloc);
    for line in lines {
        add_player(alloc, group, seats, line.id, &mut players)?;
    }
    Ok(players)
}

fn add_reader<S: Store<ScriptMutators> + Drop>(
    group: &Group<ScriptMutators, S>,
    seats: &mut Seats<ScriptMutators, S>,
    readers: &mut Vec<Client<ScriptMutators, S>>,
) -> Result<(), Refusal>
    requires { AreSeatsOf group.now.group seats.old.free }
    ensures seats { AreSeatsOf group.now.group seats.new.free }
    ensures room { IfOk result (λ _. length seats.new.free < seats.new.room) }
{
    let client = next_client(group, seats, Uuid::nil())?;
    readers.push(client)?;
    Ok(())
}

fn readers_of<S: Store<ScriptMutators> + Drop>(
    alloc: Global,
    group: &Group<ScriptMutators, S>,
    seats: &mut Seats<ScriptMutators, S>,
) -> Result<Vec<Client<ScriptMutators, S>>, Refusal>
    requires { AreSeatsOf group.now.group seats.old.free }
    ensures { AreSeatsOf group.now.group seats.new.free }
{
    let mut readers = Vec::new(alloc);
    for _ in 1..READERS {
        add_reader(group, seats, &mut readers)?;
    }
    Ok(readers)
}

/// What a trial is played with: its group, what another store is made of, and the group's seats and clients.
#[derive(Drop)]
struct Stage<'g, S: Store<ScriptMutators>>
where
    S::Parts: Drop,
{
    trial: Trial<'g>,
    group: &'g Group<ScriptMutators, S>,
    parts: S::Parts,
    spare: Spare<S>,
    players: Vec<Option<GroupPlayer<'g, S>>>,
}

/// The clients of a trial's group, and those that may read.
fn cast_of<'g, S: Store<ScriptMutators> + Drop>(
    alloc: Global,
    trial: Trial<'g>,
    group: &'g Group<ScriptMutators, S>,
    seats: Seats<ScriptMutators, S>,
    parts: S::Parts,
) -> Result<(Stage<'g, S>, Vec<Client<ScriptMutators, S>>), Refusal>
where
    S::Parts: Drop,
    requires { AreSeatsOf group.now.group seats.free }
{
    let mut seats = seats;
    let players = players_of(alloc, group, &mut seats, &trial.header.clients)?;
    let mut readers = readers_of(alloc, group, &mut seats)?;
    add_reader(group, &mut seats, &mut readers)?;
    let stage = Stage {
        trial,
        group,
        parts,
        spare: Spare::new(seats),
        players,
    };
    Ok((stage, readers))
}

/// A part of a trial that is played in one group.
#[derive(Clone, Copy)]
struct Part<'a> {
    trial: Trial<'a>,
    entries: &'a [SheetLine<'a>],
}

/// How many slots a header's group has, and as many seats as its clients, their lookers and readers take.
fn layout_of(header: &Header) -> Option<(u32, u32)> {
    let slots = u32::try_from(header.slots_or_default()).ok()?;
    let clients = u32::try_from(header.clients.len()).ok()?;
    Some((slots, clients.saturating_mul(2).saturating_add(READERS)))
}

fn config_of(alloc: Global, header: &Header) -> Result<Config, Refusal> {
    let Some((slots, seats)) = layout_of(header) else {
        return Err(Refusal::NoSeat);
    };
    match Config::new(header.identity(alloc)?, slots, seats) {
        Ok(config) => Ok(config),
        Err(_) => Err(Refusal::NoSeat),
    }
}

/// The place of the client of a list, and its commands.
fn commands_in<'a>(
    alloc: Global,
    entries: &[SheetLine<'a>],
) -> Result<(usize, Vec<&'a Command>), AllocError> {
    let mut place = 0;
    let mut commands = Vec::new(alloc);
    for entry in entries {
        if let Some(asked) = entry.asked {
            place = asked.place;
            commands.push(asked.command)?;
        }
    }
    Ok((place, commands))
}

impl<'g, S: Counted> Stage<'g, S>
where
    S::Parts: Copy + Drop,
{
    /// A client does a command, and says the reply; and where its looker sees another group than it should, that.
    fn calls<R: Wait>(
        &mut self,
        it: &Turn<'_, R>,
        asked: AskedCommand<'_>,
        way: CallWay<'_>,
        out: &mut Said,
    ) {
        match self.players.get_mut(asked.place) {
            Some(Some(player)) => player.tries(it, asked.command, way, out),
            _ => out.say("no client"),
        }
    }

    /// The client of a place, which is left empty.
    fn leaves(&mut self, place: usize) -> Option<GroupPlayer<'g, S>> {
        self.players.get_mut(place)?.take()
    }

    fn enters(&mut self, place: usize, player: GroupPlayer<'g, S>) {
        if let Some(empty) = self.players.get_mut(place) {
            drop(empty.replace(player));
        }
    }

    /// The client of this place is closed, and comes back on its seat.
    fn comes_back<R>(&mut self, it: &Turn<'_, R>, place: usize, out: &mut Said) {
        let Some(player) = self.leaves(place) else {
            return out.say("no client");
        };
        match player.comes_back(it, &mut self.spare) {
            Ok(player) => {
                self.enters(place, player);
                out.say("back");
            }
            Err(refusal) => out.say_refusal(refusal),
        }
    }

    /// A client makes the calls of a list, and says each reply and a line feed.
    fn lists<R>(&mut self, it: &Turn<'_, R>, place: usize, commands: &[&Command], out: &mut Said) {
        match self.players.get_mut(place) {
            Some(Some(player)) => player.tries_list(it, commands, out),
            _ => out.say("no client"),
        }
    }

    /// How full the group is, as the first client finds it.
    fn says_counts<R>(&mut self, it: &Turn<'_, R>, out: &mut Said) {
        match self.players.get_mut(0) {
            Some(Some(player)) => player.says_counts(it.rt.alloc(), out),
            _ => out.say("no client"),
        }
    }

    fn asks_for_seat(&mut self, out: &mut Said) {
        match self.spare.ask() {
            Some(refusal) => out.say_refusal(refusal),
            None => out.say("seat"),
        }
    }
}

/// Does what a line that is no call says.
fn does_other<R, S: Counted>(
    it: &Turn<'_, R>,
    stage: &mut Stage<'_, S>,
    deed: Deed<'_>,
    out: &mut Said,
)
where
    S::Parts: Copy + Drop,
{
    match deed {
        Deed::ComeBack(who) => {
            let trial = stage.trial;
            stage.comes_back(it, trial.place_of(who), out)
        }
        Deed::Seat => stage.asks_for_seat(out),
        Deed::Counts => stage.says_counts(it, out),
        Deed::Part(name, given) => say_part(it, stage, name, given, out),
        _ => {}
    }
}

fn say_part<R, S: Counted>(
    it: &Turn<'_, R>,
    stage: &Stage<'_, S>,
    name: &str,
    given: &str,
    out: &mut Said,
)
where
    S::Parts: Copy + Drop,
{
    if !matches!(name, "open" | "steps") {
        return say_text(it, name, given, out);
    }
    match config_of(it.rt.alloc(), stage.trial.header) {
        Ok(config) => say_store::<R, S>(it, config, stage.parts, name, out),
        Err(refusal) => out.say_refusal(refusal),
    }
}

/// Does what a line with a reader says.
fn does_reading<'p, R, S: Counted>(
    it: &Turn<'_, R>,
    readers: &mut Readers<'p, S>,
    entry: &SheetLine<'p>,
    out: &mut Said,
) {
    match entry.row.deed {
        Deed::Open(name) => readers.opens(it, name, out),
        Deed::Close(name) => readers.closes(it, name, out),
        Deed::Ask(name, way) => match entry.asked {
            Some(
                AskedCommand {
                    place: _,
                    command: Command::Query(query),
                },
            ) => readers.asks(it, name, query, way, out),
            _ => out.say("no query"),
        },
        _ => {}
    }
}

/// Does what a line says, and says the reply.
fn does<'p, R: Wait, S: Counted>(
    it: &Turn<'_, R>,
    stage: &mut Stage<'_, S>,
    readers: &mut Readers<'p, S>,
    entry: &SheetLine<'p>,
    out: &mut Said,
)
where
    S::Parts: Copy + Drop,
{
    match (entry.row.deed, entry.asked) {
        (Deed::Call(way), Some(asked)) => stage.calls(it, asked, way, out),
        (Deed::Open(_) | Deed::Close(_) | Deed::Ask(..), _) => does_reading(
            it, readers, entry, out,
        ),
        (deed, _) => does_other(it, stage, deed, out),
    }
}

/// Plays a line, and judges the reply.
fn play_line<'p, R: Wait, S: Counted>(
    host: &TrialHost<'_, R>,
    stage: &mut Stage<'_, S>,
    readers: &mut Readers<'p, S>,
    entry: &SheetLine<'p>,
    tally: &mut TrialTally<'_>,
) -> Result<(), Failed>
where
    S::Parts: Copy + Drop,
{
    let mut out = Said::nothing(host.rt.alloc());
    does(&host.turn(entry.is_chosen), stage, readers, entry, &mut out);
    judge(host, entry, &out, tally)
}

/// How many calls of one list stand first.
fn listed(entries: &[SheetLine<'_>]) -> usize {
    entries
        .iter()
        .position(|entry| !entry.is_listed())
        .unwrap_or(entries.len())
}

/// Plays a list of calls, and judges each reply.
fn play_list<R: Wait, S: Counted>(
    host: &TrialHost<'_, R>,
    stage: &mut Stage<'_, S>,
    entries: &[SheetLine<'_>],
    tally: &mut TrialTally<'_>,
) -> Result<(), Failed>
where
    S::Parts: Copy + Drop,
{
    let is_chosen = entries.iter().any(|entry| entry.is_chosen);
    let mut out = Said::nothing(host.rt.alloc());
    list_said(&host.turn(is_chosen), stage, entries, &mut out)?;
    tally.shows = tally.shows || is_chosen;
    judge_list(host, entries, &out, tally)
}

fn list_said<R, S: Counted>(
    it: &Turn<'_, R>,
    stage: &mut Stage<'_, S>,
    entries: &[SheetLine<'_>],
    out: &mut Said,
) -> Result<(), AllocError>
where
    S::Parts: Copy + Drop,
{
    let (place, commands) = commands_in(it.rt.alloc(), entries)?;
    stage.lists(it, place, &commands, out);
    Ok(())
}

/// Judges each reply of a list, or shows one of them.
fn judge_list<R>(
    host: &TrialHost<'_, R>,
    entries: &[SheetLine<'_>],
    out: &Said,
    tally: &mut TrialTally<'_>,
) -> Result<(), Failed> {
    let said = str::from_utf8(out.whole()?).unwrap_or("");
    if tally.shows {
        return Ok(tally.show(host.rt, one_of(said))?);
    }
    Ok(judge_each(host.rt, entries, said, tally)?)
}

fn judge_each(
    rt: &HostRuntime,
    entries: &[SheetLine<'_>],
    said: &str,
    tally: &mut TrialTally<'_>,
) -> io::Result<()> {
    let mut replies = said.lines();
    for entry in entries {
        let reply = replies.next().unwrap_or("no reply");
        tally.judge(rt, entry, reply.as_bytes())?;
    }
    match (replies.next(), entries.last()) {
        (Some(more), Some(entry)) => tally.judge(rt, entry, more.as_bytes()),
        _ => Ok(()),
    }
}

/// The first refusal of a list's replies, or else the first reply.
fn one_of(said: &str) -> &str {
    let refusal = said.lines().find(|reply| reply.starts_with("refused "));
    refusal.or(said.lines().next()).unwrap_or("")
}

/// The calls of the list that begins at a place; none where none begins there.
fn list_at<'e>(entries: &'e [SheetLine<'e>], at: usize) -> &'e [SheetLine<'e>] {
    let follows = at > 0 && entries.get(at - 1).is_some_and(|entry| entry.is_listed());
    let rest = entries.get(at..).unwrap_or(&[]);
    if follows {
        return &[];
    }
    rest.get(..listed(rest)).unwrap_or(&[])
}

/// A place among the lines of a group.
#[derive(Clone, Copy)]
struct LinePlace<'p> {
    entries: &'p [SheetLine<'p>],
    at: usize,
}

/// Plays the line at a place, or the list that begins there.
fn play_at<'p, R: Wait, S: Counted>(
    host: &TrialHost<'_, R>,
    stage: &mut Stage<'_, S>,
    readers: &mut Readers<'p, S>,
    line: LinePlace<'p>,
    tally: &mut TrialTally<'_>,
) -> Result<(), Failed>
where
    S::Parts: Copy + Drop,
{
    let LinePlace { entries, at } = line;
    let list = list_at(entries, at);
    if !list.is_empty() {
        return play_list(host, stage, list, tally);
    }
    match entries.get(at) {
        Some(entry) if !entry.rests() && !entry.is_listed() => {
            play_line(host, stage, readers, entry, tally)
        }
        _ => Ok(()),
    }
}

/// Plays the lines of a group.
fn play_entries<'p, R: Wait, S: Counted>(
    host: &TrialHost<'_, R>,
    stage: &mut Stage<'_, S>,
    readers: &mut Readers<'p, S>,
    entries: &'p [SheetLine<'p>],
    tally: &mut TrialTally<'_>,
) -> Result<(), Failed>
where
    S::Parts: Copy + Drop,
{
    for at in 0..entries.len() {
        play_at(host, stage, readers, LinePlace { entries, at }, tally)?;
    }
    Ok(())
}

fn play_with<R: Wait, S: Counted>(
    host: &TrialHost<'_, R>,
    part: Part<'_>,
    stage: &mut Stage<'_, S>,
    clients: &mut [Client<ScriptMutators, S>],
    tally: &mut TrialTally<'_>,
) -> Result<(), Failed>
where
    S::Parts: Copy + Drop,
{
    let mut readers = Readers::new(host.rt.alloc(), clients);
    play_entries(host, stage, &mut readers, part.entries, tally)
}

/// Plays a part of a trial in a group of its own.
fn play_part<R: Wait, S: Counted>(
    host: &TrialHost<'_, R>,
    part: Part<'_>,
    parts: S::Parts,
    tally: &mut TrialTally<'_>,
) -> Result<(), Failed>
where
    S::Parts: Copy + Drop,
{
    let alloc = host.rt.alloc();
    let config = config_of(alloc, part.trial.header)?;
    play_laid_out::<R, S>(host, part, config, parts, tally)
}

fn play_laid_out<R: Wait, S: Counted>(
    host: &TrialHost<'_, R>,
    part: Part<'_>,
    config: Config,
    parts: S::Parts,
    tally: &mut TrialTally<'_>,
) -> Result<(), Failed>
where
    S::Parts: Copy + Drop,
{
    let alloc = host.rt.alloc();
    let (group, seats) = Group::<ScriptMutators, S>::open(alloc, config, ScriptMutators, parts)?;
    let (mut stage, mut clients) = cast_of(alloc, part.trial, &group, seats, parts)?;
    play_with(host, part, &mut stage, clients.as_mut_slice(), tally)
}

/// Plays a trial over a store: whole, or the part alone with the chosen line.
pub(crate) fn play<R: Wait, S: Counted>(
    host: &TrialHost<'_, R>,
    trial: Trial<'_>,
    chosen: Option<usize>,
    parts: S::Parts,
    tally: &mut TrialTally<'_>,
) -> Result<(), Failed>
where
    S::Parts: Copy + Drop,
{
    let groups = trial.parts(host.rt.alloc())?;
    for group in &groups {
        if is_played(*group, chosen) {
            let entries = trial.entries(host.rt.alloc(), *group, chosen)?;
            let part = Part {
                trial,
                entries: &entries,
            };
            play_part::<R, S>(host, part, parts, tally)?;
        }
    }
    Ok(())
}
