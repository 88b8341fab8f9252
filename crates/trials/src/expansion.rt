//! Lines that stand for many: texts that are repeated, rounds, and forms.
use std::alloc::{AllocError, Global};

/// Appends a text, with `№` for the number and `№+1` for the next one.
fn push_numbered(out: &mut String, text: &str, number: u64) -> Result<(), AllocError> {
    let mut pieces = text.split('№');
    out.push_str(pieces.next().unwrap_or(""))?;
    for piece in pieces {
        push_behind_number(out, piece, number)?;
    }
    Ok(())
}

/// Appends the number, or where `+1` stands behind it the next one, and what stands behind that.
fn push_behind_number(out: &mut String, piece: &str, number: u64) -> Result<(), AllocError> {
    match piece.strip_prefix("+1") {
        Some(piece) => push_number(out, number.saturating_add(1), piece),
        None => push_number(out, number, piece),
    }
}

fn push_number(out: &mut String, number: u64, piece: &str) -> Result<(), AllocError> {
    let text = format!(in out.allocator().clone()?; "{number}{piece}")?;
    out.push_str(text.as_str())
}

/// Appends `N TEXT` as N texts, the first one with 1 for its number.
fn push_times(out: &mut String, repeated: &str) -> Result<(), AllocError> {
    let (times, text) = repeated.split_once(' ').unwrap_or(("0", ""));
    for number in 0..times.parse::<u64>().unwrap_or(0) {
        push_numbered(out, text, number.saturating_add(1))?;
    }
    Ok(())
}

/// Appends a line, in which `⟨N TEXT⟩` stands for N texts.
fn push_line(out: &mut String, line: &str) -> Result<(), AllocError> {
    let mut pieces = line.split('⟨');
    out.push_str(pieces.next().unwrap_or(""))?;
    for piece in pieces {
        let (repeated, rest) = piece.split_once('⟩').unwrap_or(("", piece));
        push_times(out, repeated)?;
        out.push_str(rest)?;
    }
    out.push('\n')
}

/// The lines so far, and those that wait for what follows them.
#[derive(Drop)]
struct Expansion<'a> {
    out: String,
    /// The lines of a form.
    form: Vec<&'a str>,
    /// How often the lines of a round come, while they are read.
    times: Option<u64>,
    round: Vec<&'a str>,
}

impl<'a> Expansion<'a> {
    fn end_rounds(&mut self) -> Result<(), AllocError> {
        let times = self.times.take().unwrap_or(0);
        for number in 0..times {
            self.push_round(number.saturating_add(1))?;
        }
        self.round.clear();
        Ok(())
    }

    fn push_round(&mut self, number: u64) -> Result<(), AllocError> {
        for line in &self.round {
            push_numbered(&mut self.out, line, number)?;
            self.out.push('\n')?;
        }
        Ok(())
    }

    /// A new group, and the lines of the form with the input in them.
    fn fill_form(&mut self, line: &str) -> Result<(), AllocError> {
        let (input, mut replies) = line.split_once(" => ").unwrap_or((line, ""));
        self.out.push_str("new\n")?;
        for line in &self.form {
            replies = fill_line(&mut self.out, line, input, replies)?;
        }
        if replies.is_empty() {
            return Ok(());
        }
        self.out.push_str("more replies than lines\n")
    }

    fn take_outside(&mut self, line: &'a str) -> Result<(), AllocError> {
        if let Some(line) = line.strip_prefix("form ") {
            self.form.push(line)?;
            return Ok(());
        }
        if let Some(times) = line.strip_prefix("times ") {
            self.times = Some(times.parse::<u64>().unwrap_or(0));
            return Ok(());
        }
        if self.form.is_empty() || line.is_empty() || line.starts_with('#') {
            return push_line(&mut self.out, line);
        }
        self.fill_form(line)
    }

    fn take(&mut self, line: &'a str) -> Result<(), AllocError> {
        if line == "done" {
            return self.end_rounds();
        }
        if self.times.is_some() {
            self.round.push(line)?;
            return Ok(());
        }
        self.take_outside(line)
    }
}

/// Appends a line of a form, and answers the replies behind its own. Where it ends with `=>` it has the next one.
fn fill_line<'r>(
    out: &mut String,
    line: &str,
    input: &str,
    replies: &'r str,
) -> Result<&'r str, AllocError> {
    let mut filled = with_input(out.allocator().clone()?, line, input)?;
    if !line.ends_with(" =>") {
        push_line(out, filled.as_str())?;
        return Ok(replies);
    }
    let (reply, rest) = replies.split_once("; ").unwrap_or((replies, ""));
    push_filled(out, &mut filled, reply)?;
    Ok(rest)
}

fn push_filled(out: &mut String, filled: &mut String, reply: &str) -> Result<(), AllocError> {
    filled.push(' ')?;
    filled.push_str(reply)?;
    push_line(out, filled.as_str())
}

/// A line of a form with the input for `%`.
fn with_input(alloc: Global, line: &str, input: &str) -> Result<String, AllocError> {
    let mut pieces = line.split('%');
    let mut filled = String::from_str(alloc, pieces.next().unwrap_or(""))?;
    for piece in pieces {
        filled.push_str(input)?;
        filled.push_str(piece)?;
    }
    Ok(filled)
}

/// The lines of a trial, each written out.
pub(crate) fn expanded(alloc: Global, text: &str) -> Result<String, AllocError> {
    let mut expansion = Expansion {
        out: String::new(alloc),
        form: Vec::new(alloc),
        times: None,
        round: Vec::new(alloc),
    };
    for line in text.lines() {
        expansion.take(line)?;
    }
    Ok(expansion.out)
}

/// The reply that is printed of the line of a number.
fn reply_in<'a>(printed: &'a str, number: usize) -> Option<&'a str> {
    printed.lines().find_map(|line| reply_of(line, number))
}

/// The reply of a printed line, where it is of that number: behind the number stand the client's name and the reply.
fn reply_of(line: &str, number: usize) -> Option<&str> {
    let (of, rest) = line.split_once(' ')?;
    if of.parse::<usize>().ok()? != number {
        return None;
    }
    Some(rest.split_once(' ')?.1)
}

/// A script as a trial over these stores, with what it prints.
pub(crate) fn with_replies(
    alloc: Global,
    stores: &str,
    script: &str,
    printed: &str,
) -> Result<String, AllocError> {
    let mut trial = format!(in alloc; "stores {stores}")?;
    for (at, line) in script.lines().enumerate() {
        push_replied(&mut trial, line, reply_in(printed, at.saturating_add(1)))?;
    }
    Ok(trial)
}

/// Appends a line feed, and a line with its reply.
fn push_replied(trial: &mut String, line: &str, reply: Option<&str>) -> Result<(), AllocError> {
    trial.push('\n')?;
    trial.push_str(line)?;
    match reply {
        Some(reply) => push_reply(trial, reply),
        None => Ok(()),
    }
}

fn push_reply(trial: &mut String, reply: &str) -> Result<(), AllocError> {
    trial.push_str(" => ")?;
    trial.push_str(reply)
}
