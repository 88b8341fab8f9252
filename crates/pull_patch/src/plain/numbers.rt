//! Numbers whose text is the one that is written for them.
ghost use Rattle.std.specs.Prelude.{◌≡◌, slice_index, IfSome};
ghost use Rattle.serde_json.specs.View.{number_view};
ghost use Rattle.pull_patch.specs.Inside.Copies.{IsNumberText};

use group_history::is_word;
use serde_json::Number;

/// The number that a text is, where the text is the one that is written for it: digits that fit 64 bits, or a minus and
/// such digits, with no 0 before other digits.
pub(crate) fn plain_number(text: &str) -> Option<Number>
    ensures { IfSome result (λ n. IsNumberText text.now (number_view n)) }
{
    if is_word(text, b"0") {
        return Some(Number::from(0u64));
    }
    let bytes = text.as_bytes();
    if bytes.len() > 1 && bytes[0] == b'-' {
        return plain_below_zero(text);
    }
    if bytes.is_empty() || bytes[0] < b'1' {
        return None;
    }
    match u64::from_str_radix(text, 10) {
        Ok(number) => Some(Number::from(number)),
        Err(_) => None,
    }
}

fn plain_below_zero(text: &str) -> Option<Number>
    requires { slice_index text.now 0 ≡ 45 }
    ensures { IfSome result (λ n. IsNumberText text.now (number_view n)) }
{
    let bytes = text.as_bytes();
    if bytes.len() < 2 || bytes[1] < b'1' {
        return None;
    }
    match i64::from_str_radix(text, 10) {
        Ok(number) => Some(Number::from(number)),
        Err(_) => None,
    }
}
