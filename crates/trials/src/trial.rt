//! Trials, read from their files and played.
use crate::calls::Turn;
use crate::expansion::{expanded, with_replies};
use crate::failed::Failed;
use crate::rows::{Row, rows_of, stores_of};
use crate::sheet::{Trial, commands_of, marked_place, script_of};
use crate::tally::TrialTally;
use crate::{group, plain};
use chunk_slots::{Append, Arena};
use group_history::Refusal;
use script_mutators::ScriptMutators;
use script_parser::{Script, read_script};
use std::fs;
use std::io::{self, Input};
use std::sync::Wait;

/// What a trial is played with: the runtime, and what may wait.
#[derive(Drop)]
pub(crate) struct TrialHost<'a, R> {
    pub(crate) rt: &'a HostRuntime,
    pub(crate) on: &'a R,
}

impl<R> TrialHost<'_, R> {
    /// What a call is made with.
    pub(crate) fn turn(&self, is_marked: bool) -> Turn<'_, R> {
        Turn {
            rt: self.rt,
            on: self.on,
            is_marked,
        }
    }
}

/// The marked call that is played alone: over which store, and its number among the marked ones, from 1 on.
#[derive(Clone, Copy)]
struct Chosen<'a> {
    store: &'a str,
    number: usize,
}

/// Plays what standard input names, or else all trials.
pub(crate) fn play_all<R: Wait + Sync>(rt: &HostRuntime, on: &R) -> Result<(), Failed> {
    let host = TrialHost { rt, on };
    let mut line = String::new(rt.alloc());
    rt.read_line(&mut line)?;
    if line.is_empty() {
        return play_each(&host);
    }
    play_chosen(&host, line.trim_end())
}

fn play_each<R: Wait + Sync>(host: &TrialHost<'_, R>) -> Result<(), Failed> {
    let names = fs::read_to_string(host.rt, "trials")?;
    for name in names.as_str().lines() {
        play_file(host, name, None)?;
    }
    Ok(())
}

/// The line is `TRIAL STORE NUMBER`.
fn play_chosen<R: Wait + Sync>(host: &TrialHost<'_, R>, line: &str) -> Result<(), Failed> {
    let (name, rest) = line.split_once(' ').unwrap_or((line, ""));
    let (store, number) = rest.split_once(' ').unwrap_or((rest, ""));
    let number = number.parse::<usize>().unwrap_or(0);
    play_file(host, name, Some(Chosen { store, number }))
}

fn play_file<R: Wait + Sync>(
    host: &TrialHost<'_, R>,
    named: &str,
    chosen: Option<Chosen<'_>>,
) -> Result<(), Failed> {
    let (name, stores) = named.split_once(' ').unwrap_or((named, ""));
    let text = if stores.is_empty() {
        read(host.rt, name, "trial")?
    } else {
        script_trial(host.rt, name, stores)?
    };
    let text = expanded(host.rt.alloc(), text.as_str())?;
    play_text(host, name, text.as_str(), chosen)
}

fn read(rt: &HostRuntime, name: &str, ending: &str) -> io::Result<String> {
    let path = format!(in rt.alloc(); "{name}.{ending}")?;
    fs::read_to_string(rt, path.as_str())
}

/// The trial that a script is, with what it prints.
fn script_trial(rt: &HostRuntime, name: &str, stores: &str) -> Result<String, Failed> {
    let script = read(rt, name, "script")?;
    let printed = read(rt, name, "script.stdout")?;
    Ok(with_replies(rt.alloc(), stores, script.as_str(), printed.as_str())?)
}

fn play_text<R: Wait + Sync>(
    host: &TrialHost<'_, R>,
    name: &str,
    text: &str,
    chosen: Option<Chosen<'_>>,
) -> Result<(), Failed> {
    let rows = rows_of(host.rt.alloc(), text)?;
    play_rows(host, name, stores_of(text), &rows, chosen)
}

fn play_rows<R: Wait + Sync>(
    host: &TrialHost<'_, R>,
    name: &str,
    stores: &str,
    rows: &[Row<'_>],
    chosen: Option<Chosen<'_>>,
) -> Result<(), Failed> {
    let script = script_read(host.rt, name, rows)?;
    let commands = commands_of(host.rt.alloc(), &script, rows.len())?;
    let trial = Trial {
        name,
        header: &script.header,
        rows,
        commands: &commands,
    };
    match chosen {
        Some(chosen) => play_one(host, trial, chosen),
        None => play_stores(host, trial, stores),
    }
}

/// The script that the lines are. A fault is printed with the trial's name.
fn script_read(rt: &HostRuntime, name: &str, rows: &[Row<'_>]) -> Result<Script, Failed> {
    let text = script_of(rt.alloc(), rows)?;
    match read_script(rt.alloc(), text.as_bytes()) {
        Ok(script) => Ok(script),
        Err(fault) => {
            println!(rt; "{name}: {fault}")?;
            Err(Failed::Script(fault))
        }
    }
}

fn play_one<R: Wait + Sync>(
    host: &TrialHost<'_, R>,
    trial: Trial<'_>,
    chosen: Chosen<'_>,
) -> Result<(), Failed> {
    match marked_place(trial.rows, chosen.number) {
        Some(at) => play_over(host, trial, chosen.store, Some(at)),
        None => Err(Failed::Refused(Refusal::BadShape)),
    }
}

fn play_stores<R: Wait + Sync>(
    host: &TrialHost<'_, R>,
    trial: Trial<'_>,
    stores: &str,
) -> Result<(), Failed> {
    for store in stores.split(' ') {
        play_over(host, trial, store, None)?;
    }
    Ok(())
}

fn play_over<R: Wait + Sync>(
    host: &TrialHost<'_, R>,
    trial: Trial<'_>,
    store: &str,
    chosen: Option<usize>,
) -> Result<(), Failed> {
    let mut tally = TrialTally {
        name: trial.name,
        store,
        told: 0,
        others: 0,
        shows: false,
    };
    play_in_store(host, trial, chosen, &mut tally)?;
    Ok(tally.end(host.rt)?)
}

fn play_in_store<R: Wait + Sync>(
    host: &TrialHost<'_, R>,
    trial: Trial<'_>,
    chosen: Option<usize>,
    tally: &mut TrialTally<'_>,
) -> Result<(), Failed> {
    match tally.store {
        "arena" => group::play::<R, Arena<ScriptMutators>>(host, trial, chosen, (), tally),
        "append" => {
            group::play::<R, Append<&R, ScriptMutators>>(host, trial, chosen, host.on, tally)
        }
        _ => plain::play(host, trial, chosen, tally),
    }
}
