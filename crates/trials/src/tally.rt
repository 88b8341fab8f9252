//! How many replies of a trial are as told.
use crate::failed::Failed;
use crate::replies::Said;
use crate::rows::Row;
use crate::sheet::SheetLine;
use crate::trial::TrialHost;
use std::io::{self, Write};

/// The replies of a trial over a store.
#[derive(Drop)]
pub(crate) struct TrialTally<'a> {
    /// The trial and the store.
    pub(crate) name: &'a str,
    pub(crate) store: &'a str,
    pub(crate) told: u64,
    pub(crate) others: u64,
    /// Whether replies are printed, and not judged.
    pub(crate) shows: bool,
}

/// Whether a reply is as told: `*` tells any. Where none is told it is to be no refusal.
fn is_told(row: &Row<'_>, said: &[u8]) -> bool {
    match row.reply {
        Some("*") => true,
        Some(reply) => said == reply.as_bytes(),
        None => !said.starts_with(b"refused "),
    }
}

impl TrialTally<'_> {
    /// Judges the reply to a line, or prints it. Nothing is judged where there is none.
    pub(crate) fn judge(
        &mut self,
        rt: &HostRuntime,
        entry: &SheetLine<'_>,
        said: &[u8],
    ) -> io::Result<()> {
        if self.shows || said.is_empty() {
            return print(rt, said);
        }
        if is_told(&entry.row, said) {
            self.told = self.told.saturating_add(1);
            return Ok(());
        }
        self.others = self.others.saturating_add(1);
        print!(rt; "{} {}: line {}: ", self.name, self.store, entry.number)?;
        print(rt, said)
    }

    /// Prints a reply.
    pub(crate) fn show(&self, rt: &HostRuntime, said: &str) -> io::Result<()> {
        println!(rt; "{said}")
    }

    /// Prints how many there were.
    pub(crate) fn end(&self, rt: &HostRuntime) -> io::Result<()> {
        let (name, store, told, others) = (self.name, self.store, self.told, self.others);
        if self.shows {
            return Ok(());
        }
        if others == 0 {
            return println!(rt; "{name} {store}: {told} replies as told");
        }
        println!(rt; "{name} {store}: {told} replies as told, {others} not")
    }
}

fn print(rt: &HostRuntime, said: &[u8]) -> io::Result<()> {
    if said.is_empty() {
        return Ok(());
    }
    io::writer(rt).write_all(said)?;
    println!(rt; "")
}

/// Judges what is said to a line, or prints it.
pub(crate) fn judge<R>(
    host: &TrialHost<'_, R>,
    entry: &SheetLine<'_>,
    out: &Said,
    tally: &mut TrialTally<'_>,
) -> Result<(), Failed> {
    tally.shows = tally.shows || entry.is_chosen;
    Ok(tally.judge(host.rt, entry, out.whole()?)?)
}
