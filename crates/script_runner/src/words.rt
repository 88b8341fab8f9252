//! What is printed of a line: its number, the client's name, and what the command came to. The texts are those of
//! `specs/Printing`.
ghost use Rattle.std.specs.Prelude.{◌≡◌, ◌++◌, decimal, OnOk};
ghost use Rattle.group_history.specs.Refusals.{refusal_name};
ghost use Rattle.client_desk.specs.Told.{told};
ghost use Rattle.script_runner.specs.Printing.{done_word, call_fault_text, line_text, nothing_word, number_text};
ghost use Rattle.script_runner.specs.Printing.{outcome_text, query_word, refusal_detail, refused_text, told_text};

use client_desk::{CallFault, Outcome};
use group_history::Refusal;
use script_parser::{Command, Line, Query};
use std::alloc::AllocError;

// The word of a query that was done.
fn query_word(query: &Query) -> &'static str
    ensures { result.now ≡ query_word query.now }
{
    match query {
        Query::Get(_) | Query::PulledGet(_) => "value ",
        Query::Scan(_) | Query::PulledScan(_) => "rows ",
        Query::Pending => "pending ",
        Query::Cookie => "cookie ",
        Query::Push(_) => "push ",
        Query::Has(_) | Query::Empty | Query::Closed => "",
    }
}

// The word of a command that was done.
fn done_word(command: &Command) -> &'static str
    ensures { result.now ≡ done_word command.now }
{
    match command {
        Command::Query(query) => query_word(query),
        Command::Begin(_) => "pull ",
        Command::End(_, _) => "applied",
        Command::Mutate(_) => "id ",
        Command::Refresh => "last ",
        Command::Moment => "moment ",
        Command::Slots => "slots ",
        Command::BeginRead => "reading",
        Command::EndRead => "read",
        Command::Learn(_) => "learnt",
        Command::Watch(_, _) => "watching",
        Command::Poll(_) => "new ",
        Command::Changes(_) => "changes ",
        Command::Unwatch(_) => "unwatched",
    }
}

// The word of one for which there is nothing.
fn nothing_word(command: &Command) -> &'static str
    ensures { result.now ≡ nothing_word command.now }
{
    match command {
        Command::End(_, _) => "same",
        Command::Poll(_) | Command::Changes(_) => "unchanged",
        _ => "none",
    }
}

fn print_number(out: &mut Vec<u8>, number: u64) -> Result<(), AllocError>
    ensures { OnOk result (out.new.items ≡ out.old.items ++ decimal number) }
{
    let text = format!(in out.allocator().clone()?; "{number}")?;
    out.extend_from_slice(text.as_bytes())
}

// The number that a command told, where it is an id or a moment's.
fn print_id(command: &Command, number: u64, out: &mut Vec<u8>) -> Result<(), AllocError>
    ensures { OnOk result (out.new.items ≡ out.old.items ++ number_text command.now number) }
{
    match command {
        Command::Mutate(_) | Command::Refresh | Command::Moment => print_number(out, number),
        _ => Ok(()),
    }
}

fn print_done(command: &Command, number: u64, out: &mut Vec<u8>) -> Result<(), AllocError>
    ensures { OnOk result (out.new.items ≡ out.old.items ++ done_word command.now ++ number_text command.now number) }
{
    out.extend_from_slice(done_word(command).as_bytes())?;
    print_id(command, number, out)
}

fn print_detail(refusal: Refusal, out: &mut Vec<u8>) -> Result<(), AllocError>
    ensures { OnOk result (out.new.items ≡ out.old.items ++ refusal_detail refusal) }
{
    match refusal {
        Refusal::Refused(code) => {
            out.push(b' ')?;
            print_number(out, u64::from(code))
        }
        Refusal::VersionNotSupported(kind) => {
            let kind = format!(in out.allocator().clone()?; " {kind}")?;
            out.extend_from_slice(kind.as_bytes())
        }
        _ => Ok(()),
    }
}

fn print_refusal(refusal: Refusal, out: &mut Vec<u8>) -> Result<(), AllocError>
    ensures { OnOk result (out.new.items ≡ out.old.items ++ refused_text refusal) }
{
    out.extend_from_slice(b"refused ")?;
    out.extend_from_slice(refusal.name().as_bytes())?;
    print_detail(refusal, out)
}

// What a place lacks, or has open.
fn fault_text(fault: CallFault) -> &'static str
    ensures { result.now ≡ call_fault_text fault }
{
    match fault {
        CallFault::NoWatch => "no watch",
        CallFault::Reads => "reads",
        CallFault::NotRead => "no reading",
        _ => "no ticket",
    }
}

// What a command came to.
fn print_outcome(command: &Command, outcome: Outcome, out: &mut Vec<u8>) -> Result<(), AllocError>
    ensures { OnOk result (out.new.items ≡ out.old.items ++ outcome_text command.now outcome) }
{
    match outcome {
        Outcome::Done => out.extend_from_slice(done_word(command).as_bytes()),
        Outcome::Number(number) => print_done(command, number, out),
        Outcome::Nothing => out.extend_from_slice(nothing_word(command).as_bytes()),
        Outcome::Is(true) => out.extend_from_slice(b"yes"),
        Outcome::Is(false) => out.extend_from_slice(b"no"),
        Outcome::Refused(refusal) => print_refusal(refusal, out),
        Outcome::Faulty(fault) => out.extend_from_slice(fault_text(fault).as_bytes()),
        Outcome::Asked => Ok(()),
    }
}

/// Appends a line of output: its number in the script, the client's name, what its command came to and told.
#[tactic(auto, unfolding(crate::specs::Printing::line_text))]
pub(crate) fn print_line(
    out: &mut Vec<u8>,
    line: &Line,
    name: &str,
    outcome: Outcome,
    bytes: &[u8],
) -> Result<(), AllocError>
    ensures { OnOk result (out.new.items ≡ out.old.items
        ++ line_text line.now.number name.now (told_text line.now.command (told outcome bytes.now))) }
{
    let head = format!(in out.allocator().clone()?; "{} {name} ", line.number)?;
    out.extend_from_slice(head.as_bytes())?;
    print_outcome(&line.command, outcome, out)?;
    out.extend_from_slice(bytes)?;
    out.push(b'\n')?;
    Ok(())
}
