//! The lines of a trial, each with the reply that it should have.
use std::alloc::{AllocError, Global};

/// How a client's call is made.
#[derive(Clone, Copy, PartialEq, Eq)]
pub(crate) enum Manner {
    Once,
    /// With those of its kind that follow, as one list.
    Listed,
    /// A scan into a sink, row by row.
    Into,
    /// As the call that begins anew where others were first.
    Waits,
}

/// A call's way: how often it may try, how it is made, and the bytes of a body that is no text, in hexadecimal.
#[derive(Clone, Copy)]
pub(crate) struct CallWay<'a> {
    pub(crate) tries: u32,
    pub(crate) manner: Manner,
    pub(crate) bytes: Option<&'a str>,
}

/// What is done.
#[derive(Clone, Copy)]
pub(crate) enum Deed<'a> {
    /// Nothing, as at a comment.
    Rest,
    /// A new group.
    New,
    /// The command of that line of the script.
    Call(CallWay<'a>),
    /// The client is closed, its seat goes back, and a client of its ID takes it.
    ComeBack(&'a str),
    /// A seat is asked for.
    Seat,
    /// The slots are counted.
    Counts,
    /// A reader of this name is opened.
    Open(&'a str),
    /// It is asked the query of that line of the script.
    Ask(&'a str, CallWay<'a>),
    Close(&'a str),
    /// Something of no group: its name, and what it is given.
    Part(&'a str, &'a str),
}

/// A line: what is done, what the script has in its place, the reply that is told, and whether it is marked.
#[derive(Clone, Copy)]
pub(crate) struct Row<'a> {
    pub(crate) deed: Deed<'a>,
    pub(crate) who: &'a str,
    pub(crate) command: &'a str,
    pub(crate) reply: Option<&'a str>,
    pub(crate) is_marked: bool,
}

/// More than any call loses.
const TRIES: u32 = 1_000;

/// One call, with many tries.
pub(crate) const ONCE: CallWay<'static> = CallWay {
    tries: TRIES,
    manner: Manner::Once,
    bytes: None,
};

/// Names of what is done in no group.
const PARTS: [&str; 19] = [
    "nothing",
    "open",
    "steps",
    "claims",
    "head",
    "text",
    "json",
    "response",
    "hexresponse",
    "applied",
    "is",
    "order",
    "push",
    "pull",
    "limits",
    "reference",
    "message",
    "changed",
    "laws",
];

fn first_word(line: &str) -> (&str, &str) {
    line.split_once(' ').unwrap_or((line, ""))
}

/// The way that the words before a command tell, and the command.
fn way_of<'a>(words: &'a str) -> (CallWay<'a>, &'a str) {
    let (word, rest) = first_word(words);
    match word {
        "+" => (
            CallWay {
                manner: Manner::Listed,
                ..ONCE
            },
            rest,
        ),
        "into" => (
            CallWay {
                manner: Manner::Into,
                ..ONCE
            },
            rest,
        ),
        "waits" => (
            CallWay {
                manner: Manner::Waits,
                ..ONCE
            },
            rest,
        ),
        "tries" => tries_of(rest),
        "hex" => bytes_of(rest),
        _ => (ONCE, words),
    }
}

fn tries_of<'a>(words: &'a str) -> (CallWay<'a>, &'a str) {
    let (tries, command) = first_word(words);
    let tries = tries.parse::<u32>().unwrap_or(0);
    (CallWay { tries, ..ONCE }, command)
}

/// Of `end T BYTES` the script has `end T ` alone.
fn bytes_of<'a>(command: &'a str) -> (CallWay<'a>, &'a str) {
    let Some((head, bytes)) = command.rsplit_once(' ') else {
        return (ONCE, command);
    };
    let way = CallWay {
        bytes: Some(bytes),
        ..ONCE
    };
    (
        way,
        command.get(..head.len().saturating_add(1)).unwrap_or(head),
    )
}

/// The deed of a line behind the first phase, by whom it is done, and the command that the script has.
fn deed_of<'a>(line: &'a str) -> (Deed<'a>, &'a str, &'a str) {
    let (word, rest) = first_word(line);
    match word {
        "" | "phase" | "#" => (Deed::Rest, "", line),
        "new" => (Deed::New, "", ""),
        "seat" => (Deed::Seat, "", ""),
        "counts" => (Deed::Counts, "", ""),
        "reader" => (Deed::Open(rest), "", ""),
        "closes" => (Deed::Close(rest), "", ""),
        word => done_by(word, rest),
    }
}

/// The deed of a reader, of something of no group, or of a client.
fn done_by<'a>(word: &'a str, rest: &'a str) -> (Deed<'a>, &'a str, &'a str) {
    if word == "asks" {
        return asked_of(rest);
    }
    if PARTS.contains(&word) {
        return (Deed::Part(word, rest), "", "");
    }
    called_of(word, rest)
}

fn asked_of<'a>(rest: &'a str) -> (Deed<'a>, &'a str, &'a str) {
    let (reader, words) = first_word(rest);
    let (way, command) = way_of(words);
    (Deed::Ask(reader, way), "", command)
}

fn called_of<'a>(who: &'a str, rest: &'a str) -> (Deed<'a>, &'a str, &'a str) {
    if rest == "comes back" {
        return (Deed::ComeBack(who), "", "");
    }
    let (way, command) = way_of(rest);
    (Deed::Call(way), who, command)
}

/// A line behind the first phase.
fn row_of<'a>(line: &'a str) -> Row<'a> {
    let (is_marked, line) = match line.strip_prefix("! ") {
        Some(line) => (true, line),
        None => (false, line),
    };
    let (call, reply) = match line.split_once(" => ") {
        Some((call, reply)) => (call, Some(reply)),
        None => (line, None),
    };
    let (deed, who, command) = deed_of(call);
    Row {
        deed,
        who,
        command,
        reply,
        is_marked,
    }
}

fn header_row<'a>(line: &'a str) -> Row<'a> {
    Row {
        deed: Deed::Rest,
        who: "",
        command: if line.starts_with("stores ") {
            ""
        } else {
            line
        },
        reply: None,
        is_marked: false,
    }
}

/// The lines, in order.
pub(crate) fn rows_of<'a>(alloc: Global, text: &'a str) -> Result<Vec<Row<'a>>, AllocError> {
    let mut rows = Vec::new(alloc);
    let mut is_header = true;
    for line in text.lines() {
        is_header = is_header && line != "phase";
        rows.push(if is_header {
            header_row(line)
        } else {
            row_of(line)
        })?;
    }
    Ok(rows)
}

/// The stores of the first line.
pub(crate) fn stores_of(text: &str) -> &str {
    match text.lines().next() {
        Some(line) => line.strip_prefix("stores ").unwrap_or(""),
        None => "",
    }
}
