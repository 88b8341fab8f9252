//! Plain JSON texts, read without a tree of values: a short whole number, and a text without escapes.
//!
//! A function that answers `None` has not refused the text: it is then read with care. Where it answers,
//! its contract says that the text is just what is written for the answer.
ghost use Rattle.std.specs.Prelude.{◌≡◌, ◌<◌, ◌≤◌, ◌+◌, ◌^◌, ◌∷◌, ◌++◌, [], length, IfSome, decimal};
ghost use lib.Signed.{mag};
ghost use Rattle.std.specs.Bool.{OnTrue};
ghost use Rattle.std.specs.Fmt.{signed_decimal};
ghost use Rattle.json.specs.Print.{escape, quoted};
ghost use Rattle.json.specs.Written.{PlainBetween};

use std::simd::prelude::*;

/// The least number of eighteen digits, which takes no further one.
const EIGHTEEN_DIGITS: u64 = 100_000_000_000_000_000;

/// The whole number below 10^18 that these digits are.
fn plain_digits(text: &[u8]) -> Option<u64>
    ensures { IfSome result (λ n. (text.now ≡ decimal n) × (n < 10 ^ 18)) }
{
    if text.is_empty() || (text[0] == b'0' && text.len() > 1) {
        return None;
    }
    let mut number: u64 = 0;
    for &byte in text {
        if !byte.is_ascii_digit() || number >= EIGHTEEN_DIGITS {
            return None;
        }
        number = number * 10 + (byte - b'0') as u64;
    }
    Some(number)
}

/// The whole number between -10^18 and 10^18 that a text is.
pub(crate) fn plain_number(text: &str) -> Option<i64>
    ensures { IfSome result (λ z. (text.now ≡ signed_decimal z) × (mag z < 10 ^ 18)) }
{
    let bytes = text.as_bytes();
    if bytes.is_empty() || bytes[0] != b'-' {
        return Some(plain_digits(bytes)? as i64);
    }
    let number = plain_digits(&bytes[1..])?;
    if number == 0 {
        return None;
    }
    Some(-(number as i64))
}

/// Whether none of the sixteen bytes is a quote, a backslash or below 0x20.
#[inline(always)]
fn plain_16(text: &[u8], at: usize) -> bool
    requires { at + 16 ≤ length text.now }
    ensures { OnTrue result (PlainBetween text.now at (at + 16)) }
{
    let v = u8x16::from_slice(&text[at..]);
    (v.simd_eq(u8x16::splat(b'"'))
        | v.simd_eq(u8x16::splat(b'\\'))
        | v.simd_lt(u8x16::splat(0x20))).to_bitmask()
        == 0
}

/// How many bytes stand in the blocks of sixteen before the first with such a byte.
fn plain_blocks(text: &[u8]) -> usize
    ensures bound { result ≤ length text.now }
    ensures plain { PlainBetween text.now 0 result }
{
    let mut at = 0;
    while text.len() - at >= 16 {
        if !plain_16(text, at) {
            return at;
        }
        at += 16;
    }
    at
}

/// How many bytes stand before the first quote, backslash or byte below 0x20.
fn plain_length(text: &[u8]) -> usize
    ensures bound { result ≤ length text.now }
    ensures plain { PlainBetween text.now 0 result }
{
    let mut at = plain_blocks(text);
    while at < text.len() && text[at] != b'"' && text[at] != b'\\' && text[at] >= 0x20 {
        at += 1;
    }
    at
}

/// What stands before the first quote, where nothing of it is escaped, and what follows the quote.
pub(crate) fn before_quote(text: &str) -> Option<(&str, &str)>
    ensures { IfSome result (λ both. (text.now ≡ both.0.now ++ 34 ∷ both.1.now) × (escape both.0.now ≡ both.0.now)) }
{
    let bytes = text.as_bytes();
    let at = plain_length(bytes);
    if at == bytes.len() || bytes[at] != b'"' {
        return None;
    }
    Some((&text[..at], &text[at + 1..]))
}

/// The text without escapes that a JSON text is.
pub(crate) fn plain_text(text: &str) -> Option<&str>
    ensures { IfSome result (λ s. text.now ≡ quoted s.now) }
{
    let bytes = text.as_bytes();
    if bytes.is_empty() || bytes[0] != b'"' {
        return None;
    }
    let (inside, rest) = before_quote(&text[1..])?;
    if rest.is_empty() { Some(inside) } else { None }
}
