//! Values that are copied from token to token, with no tree in between.
ghost use Rattle.std.specs.Prelude.{◌≡◌, ◌<◌, [], ◌∷◌, length, IsTrue, OnOk, IfOk};
ghost use Rattle.std.specs.Ordering.{is_lt, nat_cmp};
ghost use Rattle.std.specs.Cmp.Lexicographic.{slice_cmp};
ghost use Rattle.std.specs.Str.{IsUtf8};
ghost use Rattle.json.specs.Json.{value, items, members};
ghost use Rattle.json.specs.Token.{begin_array, begin_object};
ghost use Rattle.pull_patch.specs.Inside.Copies.{IsPlainNumber, CopiesValue, CopiesItems, CopiesMembers};
ghost use Rattle.pull_patch.specs.Inside.Copies.{CopiesText};

use super::numbers::plain_number;
use super::stops::PlainStop;
use super::words::is_before;
use json::{Reader, Token, Writer};
use std::alloc::Global;
use std::mem::replace;

// Whether a number's text is the one that is written for it.
fn is_plain_number(text: &str) -> bool
    ensures { IsTrue result → IsPlainNumber text.now }
{
    plain_number(text).is_some()
}

// The tokens of the next value are written again. Told is whether the text of them is its compact text.
#[cycle(copy)]
pub(crate) fn copy_value(
    reader: &mut Reader<'_>,
    depth: usize,
    out: &mut Writer,
) -> Result<bool, PlainStop>
    ensures copied { IfOk result (λ plain. CopiesValue plain
        (value depth reader.old) reader.new out.old.tokens out.new.tokens) }
    ensures shorter { OnOk result (length reader.new < length reader.old) }
    ensures before { out.new.before ≡ out.old.before }
{
    let token = reader.next().ok_or(PlainStop::NotPlain)?;
    match token {
        Token::String(text) => {
            out.string(text)?;
            Ok(true)
        }
        Token::Number(text) => {
            out.number(text)?;
            Ok(is_plain_number(text))
        }
        Token::Bool(b) => {
            out.boolean(b)?;
            Ok(true)
        }
        Token::Null => {
            out.null()?;
            Ok(true)
        }
        Token::EndObject | Token::EndArray | Token::Key(_) | Token::Bad => Err(PlainStop::NotPlain),
        Token::BeginArray => copy_array(reader, depth, out),
        Token::BeginObject => copy_object(reader, depth, out),
    }
}

// An array behind its opening bracket.
#[cycle(copy)]
fn copy_array(reader: &mut Reader<'_>, depth: usize, out: &mut Writer) -> Result<bool, PlainStop>
    ensures copied { IfOk result (λ plain. CopiesValue plain
        (value depth (begin_array ∷ reader.old)) reader.new out.old.tokens out.new.tokens) }
    ensures shorter { OnOk result (length reader.new < length reader.old) }
    ensures before { out.new.before ≡ out.old.before }
{
    if depth == 0 {
        return Err(PlainStop::NotPlain);
    }
    out.begin_array()?;
    copy_items(reader, depth - 1, out)
}

// An object behind its opening brace.
#[cycle(copy)]
fn copy_object(reader: &mut Reader<'_>, depth: usize, out: &mut Writer) -> Result<bool, PlainStop>
    ensures copied { IfOk result (λ plain. CopiesValue plain
        (value depth (begin_object ∷ reader.old)) reader.new out.old.tokens out.new.tokens) }
    ensures shorter { OnOk result (length reader.new < length reader.old) }
    ensures before { out.new.before ≡ out.old.before }
{
    if depth == 0 {
        return Err(PlainStop::NotPlain);
    }
    out.begin_object()?;
    copy_members(reader, depth - 1, out)
}

#[cycle(copy)]
fn copy_items(reader: &mut Reader<'_>, depth: usize, out: &mut Writer) -> Result<bool, PlainStop>
    ensures copied { IfOk result (λ plain. CopiesItems plain
        (items (value depth) (length reader.old) reader.old) reader.new out.old.tokens out.new.tokens) }
    ensures shorter { OnOk result (length reader.new < length reader.old) }
    ensures before { out.new.before ≡ out.old.before }
{
    let mut plain = true;
    'items: while !reader.take_end_array() {
        let item = copy_value(reader, depth, out)?;
        plain = plain & item;
    }
    out.end_array()?;
    Ok(plain)
}

#[cycle(copy)]
fn copy_members<'a>(
    reader: &mut Reader<'a>,
    depth: usize,
    out: &mut Writer,
) -> Result<bool, PlainStop>
    ensures copied { IfOk result (λ plain. CopiesMembers plain
        (members (value depth) (length reader.old) reader.old) reader.new out.old.tokens out.new.tokens) }
    ensures shorter { OnOk result (length reader.new < length reader.old) }
    ensures before { out.new.before ≡ out.old.before }
{
    let mut plain = true;
    let mut last = "";
    'members: while let Some(name) = reader.next_key()? {
        out.key(name)?;
        let member = copy_value(reader, depth, out)?;
        plain = plain & member & is_before(last, name);
        last = name;
    }
    out.end_object()?;
    Ok(plain)
}

// The text of the next value, in place of what `text` holds.
pub(crate) fn copy_text(
    alloc: Global,
    reader: &mut Reader<'_>,
    depth: usize,
    text: &mut Vec<u8>,
) -> Result<bool, PlainStop>
    ensures copied { IfOk result (λ plain. CopiesText plain (value depth reader.old) reader.new text.new.items) }
    ensures shorter { OnOk result (length reader.new < length reader.old) }
    ensures utf8 { OnOk result (IsUtf8 text.new.items) }
{
    let mut buffer = replace(text, Vec::new(alloc));
    buffer.clear();
    let mut out = Writer::new(buffer);
    let plain = copy_value(reader, depth, &mut out)?;
    *text = out.into_inner();
    Ok(plain)
}
