//! The texts of changes, as JSON.
ghost use Rattle.std.specs.Prelude.{◌≡◌, ◌++◌, map, OnOk};
ghost use Rattle.std.specs.List.{join_with_byte};
ghost use Rattle.push_body.specs.Bodies.{quoted};
ghost use Rattle.push_body.specs.Rows.{array_text};
ghost use Rattle.row_changes.specs.Texts.{change_text, operation, value_field};

use crate::changes::RowChange;
use group_history::Json;
use push_body::push_quoted;
use std::alloc::AllocError;

fn said(out: &mut Vec<u8>, word: &str) -> Result<(), AllocError>
    ensures { OnOk result (out.new.items ≡ out.old.items ++ word.now) }
{
    out.extend_from_slice(word.as_bytes())
}

fn operation_of(change: &RowChange) -> &'static str
    ensures { result.now ≡ operation change.now.old change.now.new }
{
    match (&change.old, &change.new) {
        (None, _) => "add",
        (Some(_), None) => "del",
        (Some(_), Some(_)) => "change",
    }
}

// A field with a value, where there is one.
fn print_field(out: &mut Vec<u8>, head: &str, value: &Option<Json>) -> Result<(), AllocError>
    ensures { OnOk result (out.new.items ≡ out.old.items ++ value_field head.now value.now) }
{
    let Some(value) = value else {
        return Ok(());
    };
    said(out, head)?;
    said(out, value.text())
}

#[tactic(auto, unfolding(crate::specs::Texts::change_text))]
fn print_change(change: &RowChange, out: &mut Vec<u8>) -> Result<(), AllocError>
    ensures { OnOk result (out.new.items ≡ out.old.items ++ change_text change.now) }
{
    said(out, "{\"key\":")?;
    push_quoted(out, change.key.as_str())?;
    print_field(out, ",\"newValue\":", &change.new)?;
    print_field(out, ",\"oldValue\":", &change.old)?;
    said(out, ",\"op\":\"")?;
    said(out, operation_of(change))?;
    said(out, "\"}")
}

// Changes with commas between them.
fn print_change_list(changes: &[RowChange], out: &mut Vec<u8>) -> Result<(), AllocError>
    ensures { OnOk result (out.new.items ≡ out.old.items ++ join_with_byte 44 (map change_text changes.now)) }
{
    let Some((first, rest)) = changes.split_first() else {
        return Ok(());
    };
    print_change(first, out)?;
    for change in rest {
        out.push(b',')?;
        print_change(change, out)?;
    }
    Ok(())
}

/// Appends changes as a JSON array of operations: each an object, compact, its fields in the order of their names. What
/// `out` has after a refusal is not told.
pub fn print_changes(changes: &[RowChange], out: &mut Vec<u8>) -> Result<(), AllocError>
    ensures { OnOk result (out.new.items ≡ out.old.items ++ array_text (map change_text changes.now)) }
{
    said(out, "[")?;
    print_change_list(changes, out)?;
    said(out, "]")
}
