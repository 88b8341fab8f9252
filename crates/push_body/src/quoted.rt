//! A text as JSON: in quotes, and escaped.
ghost use Rattle.std.specs.Prelude.{◌≡◌, [], ◌∷◌, ◌++◌, IfOk, OnErr, OnOk};
ghost use mathlib.Core.List.{IsPrefix};
ghost use Rattle.json.specs.Print.{print};
ghost use Rattle.json.specs.Token.{string};
ghost use Rattle.push_body.specs.Bodies.{quoted};

use crate::plain::is_plain;
use json::Writer;
use std::alloc::{AllocError, Global};

/// Appends a text as JSON, in quotes and escaped (RFC 8259, section 7). A text without a quote, a backslash or a
/// control character is copied as it stands. After an error the buffer begins with what it had.
#[inline(always)]
pub fn push_quoted(out: &mut Vec<u8>, text: &str) -> Result<(), AllocError>
    ensures all { OnOk result (out.new.items ≡ out.old.items ++ quoted text.now) }
    ensures kept { OnErr result (IsPrefix out.old.items out.new.items) }
{
    if !is_plain(text.as_bytes()) {
        let token = escaped(*out.allocator(), text)?;
        return out.extend_from_slice(&token);
    }
    out.extend_from_slice(b"\"")?;
    out.extend_from_slice(text.as_bytes())?;
    out.extend_from_slice(b"\"")
}

/// A text as JSON, written by a writer of its own, which fills its buffer ahead with zeros.
#[cold]
#[inline(never)]
fn escaped(alloc: Global, text: &str) -> Result<Vec<u8>, AllocError>
    ensures { IfOk result (λ v. v.items ≡ quoted text.now) }
{
    let mut writer = Writer::new(Vec::new(alloc));
    writer.string(text)?;
    Ok(writer.into_inner())
}
