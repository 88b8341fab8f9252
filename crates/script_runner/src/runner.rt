//! Runs a script: its phases one after the other, on clients of one group.
ghost use Rattle.std.specs.Prelude.{ℕ, ◌≡◌, ◌≤◌, ◌+◌, ◌-◌, IfOk, Ok, OnOk, length, map, vec_len};
ghost use Rattle.std.specs.Arc.{arc_value};
ghost use Rattle.std.specs.Io.KnownBytes.{Appends, Keeps};
ghost use Rattle.std.specs.List.{All, concat};
ghost use Rattle.commit_graph.specs.Seats.{SeatState};
ghost use Rattle.rebase.specs.Clients.{AreSeatsOf};
ghost use Rattle.client_desk.specs.Places.{free_place};
ghost use Rattle.uuid.specs.Text.{hyphenated_text, lower};
ghost use Rattle.script_parser.specs.Faults.{Checks, first_fault, script_said};
ghost use Rattle.script_parser.specs.Context.{Context};
ghost use Rattle.script_parser.specs.Kept.{IsInRange};
ghost use Rattle.script_parser.specs.Scripts.{IsChecked, IsScript, client_said, phase_said};
ghost use Rattle.script_runner.specs.Phases.{HasWhole, HasWrittenPhases, IsPhase};
ghost use Rattle.script_runner.specs.Runs.{AreNewPlayers, BlamesNoScript, HasRunScript, HasStoppedScript, IsRunWant};
ghost use Rattle.script_runner.specs.Runs.{KeepsIfFaulty, header_identity, mark_at, seats_for};
ghost use Rattle.script_runner.specs.Inside.Players.{AreLeftOf, AreNewIn, IsNewIn, line_of, players_of};
ghost use Rattle.script_runner.specs.Inside.Runs.{IsRun};
ghost use Rattle.script_runner.specs.Inside.Turns.{AreOfOneGroup, IsPrinted, StayInGroup, turn_texts};

use crate::client::ScriptClient;
use crate::phase::{ClientTurn, Gate, Host, run_phase};
use crate::record::gather;
use client_desk::{DeskCall, Outcome, Place, Whole};
use group_history::Mutators;
use rebase::{Arena, Config, Group, Seats, Uuid};
use script_mutators::ScriptMutators;
use script_parser::{ClientLine, Fault, Header, Phase, Script, read_script};
use std::alloc::{AllocError, Global};
use std::io;
use std::sync::{Arc, Wait};
use std::thread::Threads;

/// A group that runs all mutators of its scripts itself.
pub(crate) type ScriptGroup<M> = Group<Whole<M>, Arena<Whole<M>>>;

pub(crate) type ScriptSeats<M> = Seats<Whole<M>, Arena<Whole<M>>>;

/// What a phase prints, client by client.
fn text_of<M: Mutators + Drop>(
    alloc: Global,
    turns: &[ClientTurn<M>],
) -> Result<Vec<u8>, AllocError>
    ensures text { IfOk result (λ v. v.items ≡ concat (turn_texts turns.now)) }
    ensures all { OnOk result (All IsPrinted turns.now) }
{
    let mut text = Vec::new(alloc);
    for turn in turns {
        match &turn.printed {
            Ok(printed) => text.extend_from_slice(printed)?,
            Err(_) => return Err(AllocError),
        }
    }
    Ok(text)
}

/// Runs a phase, and writes what it prints when it has ended.
fn write_phase<R: Threads + Wait + Sync, G: Gate, M: Mutators + Send + Drop, W: io::Write>(
    host: &Host<'_, R, G>,
    turns: &mut [ClientTurn<M>],
    phase: &Phase,
    out: &mut W,
) -> Result<(), Fault>
    requires lines { length turns.old ≡ phase.now.clients }
    requires one { AreOfOneGroup turns.old }
    ensures phase { OnOk result (IsPhase M.means (phase_said phase.now) (players_of turns.old)
        (turn_texts turns.new) (players_of turns.new)) }
    ensures text { OnOk result (Appends (W.contents out.old) (W.contents out.new) (concat (turn_texts turns.new))) }
    ensures group { StayInGroup turns.old turns.new }
    ensures count { length turns.new ≡ length turns.old }
    ensures want { IsRunWant result → Keeps (W.contents out.old) (W.contents out.new) }
    ensures fault { BlamesNoScript result }
{
    run_phase(host, turns, phase)?;
    let text = text_of(host.alloc, turns)?;
    if out.write_all(&text).is_err() {
        return Err(Fault::Write);
    }
    Ok(())
}

/// Runs the phases of a script, and writes what each prints when it has ended.
fn run_phases<R: Threads + Wait + Sync, G: Gate, M: Mutators + Send + Drop, W: io::Write>(
    host: &Host<'_, R, G>,
    turns: &mut [ClientTurn<M>],
    phases: &[Phase],
    out: &mut W,
) -> Result<(), Fault>
    requires lines { All (λ p. p.clients ≡ length turns.old) phases.now }
    requires one { AreOfOneGroup turns.old }
    ensures written { OnOk result (HasWrittenPhases M.means (players_of turns.old) (map phase_said phases.now)
        (W.contents out.old) (W.contents out.new) (players_of turns.new)) }
    ensures want { IsRunWant result → HasWhole M.means (players_of turns.old) (map phase_said phases.now)
        (W.contents out.old) (W.contents out.new) }
    ensures group { StayInGroup turns.old turns.new }
    ensures fault { BlamesNoScript result }
{
    for phase in phases {
        write_phase(host, turns, phase, out)?;
    }
    Ok(())
}

// How many seats a group has for so many clients.
fn seats_for(clients: usize) -> usize
    ensures { result ≡ seats_for clients }
{
    match clients {
        0 => 1,
        some => some,
    }
}

/// How a script lays its group out: a seat for each client, and one where there are none.
fn config_of(alloc: Global, header: &Header) -> Result<Config, AllocError>
    requires { IsInRange header.now }
    ensures identity { IfOk result (λ config. config.identity ≡ header_identity header.now) }
    ensures seats { IfOk result (λ config. config.seats ≡ seats_for (vec_len header.now.clients)) }
{
    let identity = header.identity(alloc)?;
    let seats = seats_for(header.clients.len()) as u32;
    let slots = header.slots_or_default() as u32;
    let Ok(config) = Config::new(identity, slots, seats) else {
        unreachable!()
    };
    Ok(config)
}

/// Opens the group of a script.
pub(crate) fn open_group<M: Mutators + Drop>(
    alloc: Global,
    header: &Header,
    mutators: M,
) -> Result<(Arc<ScriptGroup<M>, Global>, ScriptSeats<M>), Fault>
    requires { IsInRange header.now }
    ensures identity { IfOk result (λ made. (arc_value made.0).identity ≡ header_identity header.now) }
    ensures free { IfOk result (λ made. length made.1.free ≡ seats_for (vec_len header.now.clients)) }
    ensures seats { IfOk result (λ made. AreSeatsOf (arc_value made.0).group made.1.free) }
    ensures opening { IfOk result (λ made. (commit : ℕ)
        × AreLeftOf (arc_value made.0) (seats_for (vec_len header.now.clients)) commit made.1.free) }
    ensures fault { BlamesNoScript result }
{
    let config = config_of(alloc, header)?;
    let Ok((group, seats)) = Group::<Whole<M>, Arena<Whole<M>>>::open(
        alloc,
        config,
        Whole { mutators },
        (),
    ) else {
        return Err(Fault::NoMemory);
    };
    let group = Arc::new(alloc, group)?;
    Ok((group, seats))
}

/// A client sits down by an ID, at a new place.
fn sit<M: Mutators + Drop>(
    alloc: Global,
    id: &Uuid,
    client: ScriptClient<M>,
) -> Result<ClientTurn<M>, AllocError>
    requires { (seat : SeatState) × (client.place ≡ free_place client.place.group seat) }
    ensures name { IfOk result (λ turn. line_of turn ≡ (client.name, hyphenated_text lower id.now)) }
    ensures new { (seat : SeatState) (count commit number : ℕ) → client.place ≡ free_place client.place.group seat
        → seat.mark ≡ mark_at client.place.group count commit number
        → IfOk result (IsNewIn M.means client.place.group count commit number) }
{
    let mut client = client;
    let mut bytes = Vec::new(alloc);
    // In a new group, in one thread, want of memory alone refuses a client.
    let Outcome::Done = client.place.call(DeskCall::Sit(id), &mut bytes) else {
        return Err(AllocError);
    };
    Ok(ClientTurn {
        client,
        printed: Ok(bytes),
    })
}

/// Opens a client on a seat of a group.
fn open_client<M: Mutators + Drop>(
    alloc: Global,
    line: &ClientLine,
    group: &Arc<ScriptGroup<M>, Global>,
    seats: &mut ScriptSeats<M>,
) -> Result<ClientTurn<M>, AllocError>
    requires free { 1 ≤ length seats.old.free }
    requires seats { AreSeatsOf (arc_value group.now).group seats.old.free }
    ensures left { IfOk result (λ _. length seats.old.free ≡ length seats.new.free + 1) }
    ensures seats { IfOk result (λ _. AreSeatsOf (arc_value group.now).group seats.new.free) }
    ensures name { IfOk result (λ turn. line_of turn ≡ client_said line.now) }
    ensures new { (count commit : ℕ) → AreLeftOf (arc_value group.now) count commit seats.old.free → IfOk result
        (λ turn. IsNewIn M.means (arc_value group.now) count commit (count - length seats.old.free) turn
        × AreLeftOf (arc_value group.now) count commit seats.new.free) }
{
    let name = line.name.clone()?;
    let group = Arc::try_clone(group)?;
    let Ok(seat) = seats.take() else {
        unreachable!()
    };
    let place = Place::new(alloc, group, seat);
    sit(alloc, &line.id, ScriptClient { name, place })
}

/// Opens the clients of a script on the seats of a group, in the order of their lines.
pub(crate) fn open_clients<M: Mutators + Drop>(
    alloc: Global,
    lines: &[ClientLine],
    group: &Arc<ScriptGroup<M>, Global>,
    seats: ScriptSeats<M>,
) -> Result<Vec<ClientTurn<M>>, AllocError>
    requires free { length lines.now ≤ length seats.free }
    requires seats { AreSeatsOf (arc_value group.now).group seats.free }
    ensures lines { IfOk result (λ turns. map line_of turns.items ≡ map client_said lines.now) }
    ensures new { (commit : ℕ) → AreLeftOf (arc_value group.now) (length seats.free) commit seats.free
        → IfOk result (λ turns. AreNewIn M.means (arc_value group.now) (length seats.free) commit turns.items) }
{
    let mut seats = seats;
    let mut turns = Vec::with_capacity(alloc, lines.len())?;
    for line in lines {
        let turn = open_client(alloc, line, group, &mut seats)?;
        turns.push(turn)?;
    }
    Ok(turns)
}

/// Opens a new group for a script, and a client for each of its client lines. The clients hold the group.
fn open_script<M: Mutators + Drop>(
    alloc: Global,
    header: &Header,
    mutators: M,
) -> Result<Vec<ClientTurn<M>>, Fault>
    requires { IsInRange header.now }
    ensures new { IfOk result (λ turns. AreNewPlayers M.means (header_identity header.now)
        (map client_said header.now.clients.items) (players_of turns.items)) }
    ensures fault { BlamesNoScript result }
{
    let (group, seats) = open_group(alloc, header, mutators)?;
    let turns = open_clients(alloc, &header.clients, &group, seats)?;
    Ok(turns)
}

/// Runs a script that was read, on a group of its own.
fn run_shared<R: AllocGlobal + Threads + Wait + Sync, G: Gate, W: io::Write>(
    rt: &R,
    script: &Script,
    gate: &G,
    out: &mut W,
) -> Result<(), Fault>
    requires { IsChecked script.now }
    ensures { IsRun script.now (W.contents out.old) (W.contents out.new) result }
{
    let alloc = rt.alloc();
    let mut turns = open_script(alloc, &script.header, ScriptMutators)?;
    let turns: &mut [ClientTurn<ScriptMutators>] = &mut turns;
    run_phases(&Host { rt, alloc, gate }, turns, &script.phases, out)?;
    gather(alloc, turns);
    Ok(())
}

/// Runs a script (`docs/SCRIPT.md`), each client of a phase on a thread of its own, and writes the replies of each
/// phase when it has ended. A faulty script is told with its first fault before anything runs or is written. After
/// `NoMemory` the writer has the output of whole phases; after `Write` no later phase runs.
pub fn run<R: AllocGlobal + Threads + Wait + Sync, G: Gate, W: io::Write>(
    rt: &R,
    script: &[u8],
    gate: &G,
    out: &mut W,
) -> Result<(), Fault>
    ensures first { Checks (first_fault script.now) result }
    ensures nothing_written { KeepsIfFaulty result (W.contents out.old) (W.contents out.new) }
    ensures written { OnOk result (HasRunScript script.now (W.contents out.old) (W.contents out.new)) }
    ensures want { IsRunWant result → HasStoppedScript script.now (W.contents out.old) (W.contents out.new) }
{
    let checked = read_script(rt.alloc(), script)?;
    run_shared(rt, &checked, gate, out)
}

/// The script that the bytes are, which are let go.
fn read_owned(alloc: Global, bytes: Vec<u8>) -> Result<Script, Fault>
    ensures first { Checks (first_fault bytes.items) result }
    ensures said { IfOk result (λ script. (said : Context) × (script_said bytes.items ≡ Ok said)
        × IsScript said script) }
    ensures checked { IfOk result (λ script. IsChecked script) }
{
    let read = read_script(alloc, &bytes);
    drop(bytes);
    read
}

/// The same of bytes that are let go once they were read.
pub(crate) fn run_owned<R: AllocGlobal + Threads + Wait + Sync, G: Gate, W: io::Write>(
    rt: &R,
    script: Vec<u8>,
    gate: &G,
    out: &mut W,
) -> Result<(), Fault>
    ensures first { Checks (first_fault script.items) result }
    ensures nothing_written { KeepsIfFaulty result (W.contents out.old) (W.contents out.new) }
    ensures written { OnOk result (HasRunScript script.items (W.contents out.old) (W.contents out.new)) }
    ensures want { IsRunWant result → HasStoppedScript script.items (W.contents out.old) (W.contents out.new) }
{
    let checked = read_owned(rt.alloc(), script)?;
    run_shared(rt, &checked, gate, out)
}
