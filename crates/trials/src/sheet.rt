//! A trial that is read: its lines, and the script that they are.
use crate::failed::Failed;
use crate::rows::{Deed, Manner, Row};
use script_parser::{Command, Header, Line, Phase, Script};
use std::alloc::{AllocError, Global};

/// The script that the lines are: each in its place, so that lines have the numbers that they have here.
pub(crate) fn script_of(alloc: Global, rows: &[Row<'_>]) -> Result<String, AllocError> {
    let first = first_client(rows);
    let mut script = String::new(alloc);
    for row in rows {
        add_line(&mut script, row, first)?;
    }
    Ok(script)
}

/// The name of the first client, by whom readers ask.
fn first_client<'a>(rows: &[Row<'a>]) -> &'a str {
    rows.iter()
        .find_map(|row| row.command.strip_prefix("client "))
        .and_then(|rest| rest.split(' ').next())
        .unwrap_or("")
}

fn add_line(script: &mut String, row: &Row<'_>, first: &str) -> Result<(), AllocError> {
    let who = match row.deed {
        Deed::Ask(..) => first,
        _ => row.who,
    };
    script.push_str(who)?;
    if !who.is_empty() {
        script.push(' ')?;
    }
    script.push_str(row.command)?;
    script.push('\n')
}

/// A command, and the place of its client among the `client` lines.
#[derive(Clone, Copy)]
pub(crate) struct AskedCommand<'a> {
    pub(crate) place: usize,
    pub(crate) command: &'a Command,
}

/// The commands of a script by the numbers of their lines, from 0 on.
pub(crate) fn commands_of<'a>(
    alloc: Global,
    script: &'a Script,
    lines: usize,
) -> Result<Vec<Option<AskedCommand<'a>>>, AllocError> {
    let mut commands = Vec::with_capacity(alloc, lines)?;
    for _ in 0..lines {
        commands.push(None)?;
    }
    for phase in &script.phases {
        set_phase(&mut commands, phase, script.header.clients.len());
    }
    Ok(commands)
}

fn set_phase<'a>(commands: &mut [Option<AskedCommand<'a>>], phase: &'a Phase, clients: usize) {
    for place in 0..clients {
        set_lines(commands, place, phase.lines_of(place));
    }
}

fn set_lines<'a>(commands: &mut [Option<AskedCommand<'a>>], place: usize, lines: &'a [Line]) {
    for line in lines {
        let at = line.number.saturating_sub(1) as usize;
        if at < commands.len() {
            commands[at] = Some(AskedCommand {
                place,
                command: &line.command,
            });
        }
    }
}

/// A trial: its name, what its header says, its lines, and their commands.
#[derive(Clone, Copy)]
pub(crate) struct Trial<'a> {
    pub(crate) name: &'a str,
    pub(crate) header: &'a Header,
    pub(crate) rows: &'a [Row<'a>],
    pub(crate) commands: &'a [Option<AskedCommand<'a>>],
}

/// A line, what the script has in its place, and its number, from 1 on.
#[derive(Clone, Copy)]
pub(crate) struct SheetLine<'a> {
    pub(crate) row: Row<'a>,
    pub(crate) asked: Option<AskedCommand<'a>>,
    pub(crate) number: usize,
    /// Whether it is the marked call that is played alone.
    pub(crate) is_chosen: bool,
}

impl<'a> Trial<'a> {
    /// The place of a client among the `client` lines.
    pub(crate) fn place_of(&self, name: &str) -> usize {
        let clients = &self.header.clients;
        clients
            .iter()
            .position(|client| client.name.as_str() == name)
            .unwrap_or(clients.len())
    }

    /// The lines from a place on, before another one, in one group.
    pub(crate) fn entries(
        &self,
        alloc: Global,
        part: (usize, usize),
        chosen: Option<usize>,
    ) -> Result<Vec<SheetLine<'a>>, AllocError> {
        let mut entries = Vec::new(alloc);
        for at in part.0..part.1 {
            if let (Some(row), Some(asked)) = (self.rows.get(at), self.commands.get(at)) {
                entries.push(SheetLine {
                    row: *row,
                    asked: *asked,
                    number: at.saturating_add(1),
                    is_chosen: chosen == Some(at),
                })?;
            }
        }
        Ok(entries)
    }

    /// Where each group begins, and the end.
    pub(crate) fn parts(&self, alloc: Global) -> Result<Vec<(usize, usize)>, AllocError> {
        let mut parts = Vec::new(alloc);
        let mut from = 0;
        for (at, row) in self.rows.iter().enumerate() {
            if matches!(row.deed, Deed::New) {
                parts.push((from, at))?;
                from = at;
            }
        }
        parts.push((from, self.rows.len()))?;
        Ok(parts)
    }
}

impl SheetLine<'_> {
    /// Whether it is a call of a list.
    pub(crate) fn is_listed(&self) -> bool {
        matches!(self.row.deed, Deed::Call(way) if way.manner == Manner::Listed)
    }

    /// Whether nothing is done.
    pub(crate) fn rests(&self) -> bool {
        matches!(self.row.deed, Deed::Rest | Deed::New)
    }
}

/// The place of the marked line of this number, counted from 1.
pub(crate) fn marked_place(rows: &[Row<'_>], number: usize) -> Option<usize> {
    let mut count = 0usize;
    for at in 0..rows.len() {
        if rows[at].is_marked {
            count = count.saturating_add(1);
            if count == number {
                return Some(at);
            }
        }
    }
    None
}

/// Whether a part is played, where one line is chosen or none.
pub(crate) fn is_played(part: (usize, usize), chosen: Option<usize>) -> bool {
    match chosen {
        Some(at) => part.0 <= at && at < part.1,
        None => true,
    }
}
