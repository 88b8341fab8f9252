//! The texts of rows, of pending mutations and of counts, as JSON.
ghost use Rattle.std.specs.Prelude.{◌≡◌, ◌++◌, map, decimal, OnErr, OnOk};
ghost use mathlib.Core.List.{IsPrefix};
ghost use Rattle.std.specs.List.{join_with_byte};
ghost use Rattle.push_body.specs.Bodies.{quoted};
ghost use Rattle.push_body.specs.Rows.{array_text, pending_row, row_text};
ghost use Rattle.client_desk.specs.Told.{free_slots};

use group_history::{Json, Mutation, Text};
use push_body::push_quoted;
use rebase::SlotCounts;
use std::alloc::AllocError;

fn said(out: &mut Vec<u8>, word: &str, text: &[u8]) -> Result<(), AllocError>
    ensures all { OnOk result (out.new.items ≡ out.old.items ++ word.now ++ text.now) }
    ensures kept { OnErr result (IsPrefix out.old.items out.new.items) }
{
    out.extend_from_slice(word.as_bytes())?;
    out.extend_from_slice(text)
}

fn print_number(out: &mut Vec<u8>, word: &str, number: u64) -> Result<(), AllocError>
    ensures { OnOk result (out.new.items ≡ out.old.items ++ word.now ++ decimal number) }
{
    let text = format!(in out.allocator().clone()?; "{word}{number}")?;
    out.extend_from_slice(text.as_bytes())
}

// A word, and a text as compact JSON behind it.
fn print_quoted(out: &mut Vec<u8>, word: &str, text: &str) -> Result<(), AllocError>
    ensures all { OnOk result (out.new.items ≡ out.old.items ++ word.now ++ quoted text.now) }
    ensures kept { OnErr result (IsPrefix out.old.items out.new.items) }
{
    out.extend_from_slice(word.as_bytes())?;
    push_quoted(out, text)
}

/// Appends a row, as a JSON array of its key and value. Where that is refused what was there stays.
#[tactic(auto, unfolding(push_body::specs::Rows::row_text))]
pub(crate) fn print_row(key: &Text, value: &Json, out: &mut Vec<u8>) -> Result<(), AllocError>
    ensures all { OnOk result (out.new.items ≡ out.old.items ++ row_text (key.now, value.now)) }
    ensures kept { OnErr result (IsPrefix out.old.items out.new.items) }
{
    print_quoted(out, "[", key.as_str())?;
    said(out, ",", value.text().as_bytes())?;
    said(out, "]", &[])
}

// Rows with commas between them.
fn print_row_list(rows: &[(Text, Json)], out: &mut Vec<u8>) -> Result<(), AllocError>
    ensures { OnOk result (out.new.items ≡ out.old.items ++ join_with_byte 44 (map row_text rows.now)) }
{
    let Some((first, rest)) = rows.split_first() else {
        return Ok(());
    };
    print_row(&first.0, &first.1, out)?;
    for row in rest {
        out.push(b',')?;
        print_row(&row.0, &row.1, out)?;
    }
    Ok(())
}

/// Appends rows as a JSON array.
pub(crate) fn print_rows(rows: &[(Text, Json)], out: &mut Vec<u8>) -> Result<(), AllocError>
    ensures { OnOk result (out.new.items ≡ out.old.items ++ array_text (map row_text rows.now)) }
{
    said(out, "[", &[])?;
    print_row_list(rows, out)?;
    said(out, "]", &[])
}

#[tactic(auto, unfolding(push_body::specs::Rows::pending_row))]
fn print_pending_row(mutation: &Mutation, out: &mut Vec<u8>) -> Result<(), AllocError>
    ensures { OnOk result (out.new.items ≡ out.old.items ++ pending_row mutation.now) }
{
    let fields = mutation.fields();
    print_quoted(out, "[", fields.client.as_str())?;
    print_number(out, ",", fields.id)?;
    print_quoted(out, ",", fields.name.as_str())?;
    said(out, "]", &[])
}

// Pending mutations with commas between them.
fn print_pending_list(pending: &[Mutation], out: &mut Vec<u8>) -> Result<(), AllocError>
    ensures { OnOk result (out.new.items ≡ out.old.items ++ join_with_byte 44 (map pending_row pending.now)) }
{
    let Some((first, rest)) = pending.split_first() else {
        return Ok(());
    };
    print_pending_row(first, out)?;
    for mutation in rest {
        out.push(b',')?;
        print_pending_row(mutation, out)?;
    }
    Ok(())
}

/// Appends pending mutations as a JSON array.
pub(crate) fn print_pending(pending: &[Mutation], out: &mut Vec<u8>) -> Result<(), AllocError>
    ensures { OnOk result (out.new.items ≡ out.old.items ++ array_text (map pending_row pending.now)) }
{
    said(out, "[", &[])?;
    print_pending_list(pending, out)?;
    said(out, "]", &[])
}

/// Appends how many slots are free, as a JSON array: those for a mutation, those for a pull, and those that were let
/// go and may become free.
pub(crate) fn print_slots(counts: &SlotCounts, out: &mut Vec<u8>) -> Result<(), AllocError>
    ensures { OnOk result (out.new.items ≡ out.old.items ++ array_text (map decimal (free_slots counts.now))) }
{
    let ordinary = u64::from(counts.ordinary_free);
    print_number(out, "[", ordinary)?;
    print_number(out, ",", ordinary + u64::from(counts.reserved_free))?;
    print_number(out, ",", u64::from(counts.retired))?;
    said(out, "]", &[])
}
