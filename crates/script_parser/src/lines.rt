//! The words of a line.
ghost use Rattle.std.specs.Prelude.{◌≡◌, IfOk, is_some, is_none};
ghost use Rattle.std.specs.Option.{option_copied};
ghost use Rattle.std.specs.Str.Parse.{digits_value};
ghost use Rattle.script_parser.specs.Words.{word, more, text, is_word, begins_with_word, is_ticket_name};
ghost use Rattle.script_parser.specs.Words.{is_client_name, is_decimal, is_number};
ghost use Rattle.script_parser.specs.Inside.Faults.{Tests};
ghost use Rattle.script_parser.specs.declared.faults.ScriptFault.TheVariants as script_fault;

use crate::faults::ScriptFault;

/// The first word, and the rest of the line after one space, where there is one.
#[tactic(auto, unfolding(crate::specs::Words::word, crate::specs::Words::more))]
pub(crate) fn first_word(line: &str) -> (&str, Option<&str>)
    ensures first { result.0.now ≡ word line.now }
    ensures rest { option_copied result.1 ≡ more line.now }
{
    match line.split_once(' ') {
        Some((word, rest)) => (word, Some(rest)),
        None => (line, None),
    }
}

/// The rest of a line that is there; it may be empty.
#[tactic(auto, unfolding(crate::specs::Words::text))]
pub(crate) fn rest(rest: Option<&str>) -> Result<&str, ScriptFault>
    ensures there { Tests (is_some (option_copied rest.entry)) script_fault.BadWords result }
    ensures value { IfOk result (λ t. t.now ≡ text (option_copied rest.entry)) }
{
    rest.ok_or(ScriptFault::BadWords)
}

/// The rest of a line that is one word.
#[tactic(auto, unfolding(crate::specs::Words::text, crate::specs::Words::is_word))]
pub(crate) fn one_word(rest: Option<&str>) -> Result<&str, ScriptFault>
    ensures one { Tests (is_word (text (option_copied rest.entry))) script_fault.BadWords result }
    ensures value { IfOk result (λ t. t.now ≡ text (option_copied rest.entry)) }
{
    match rest {
        Some(word) if is_word(word) => Ok(word),
        _ => Err(ScriptFault::BadWords),
    }
}

#[tactic(auto, unfolding(crate::specs::Words::is_word))]
pub(crate) fn is_word(text: &str) -> bool
    ensures { result ≡ is_word text.now }
{
    !text.is_empty() && !text.as_bytes().contains(&b' ')
}

/// That a command takes no words.
pub(crate) fn no_words(rest: Option<&str>) -> Result<(), ScriptFault>
    ensures { Tests (is_none (option_copied rest.entry)) script_fault.BadWords result }
{
    match rest {
        None => Ok(()),
        Some(_) => Err(ScriptFault::BadWords),
    }
}

/// The first word of a rest, which isn't empty, and what follows after one space.
#[tactic(auto, unfolding(crate::specs::Words::text, crate::specs::Words::word, crate::specs::Words::begins_with_word))]
pub(crate) fn word_of(rest: Option<&str>) -> Result<(&str, Option<&str>), ScriptFault>
    ensures begins { Tests (begins_with_word (text (option_copied rest.entry))) script_fault.BadWords result }
    ensures first { IfOk result (λ t. t.0.now ≡ word (text (option_copied rest.entry))) }
    ensures rest { IfOk result (λ t. option_copied t.1 ≡ more (text (option_copied rest.entry))) }
{
    let Some(rest) = rest else {
        return Err(ScriptFault::BadWords);
    };
    let (word, rest) = first_word(rest);
    if word.is_empty() {
        return Err(ScriptFault::BadWords);
    }
    Ok((word, rest))
}

/// The longest name of a client, a ticket or a watch.
const LONGEST_NAME: usize = 16;

/// Whether a text may name a ticket: 1 to 16 ASCII letters or digits.
#[tactic(auto, unfolding(crate::specs::Words::is_ticket_name))]
pub(crate) fn is_ticket_name(text: &str) -> bool
    ensures { result ≡ is_ticket_name text.now }
{
    let bytes = text.as_bytes();
    !bytes.is_empty()
        && bytes.len() <= LONGEST_NAME
        && bytes.iter().all(|byte| byte.is_ascii_alphanumeric())
}

/// Whether a text may name a client: as a ticket's name, the first a letter, and not `phase`.
#[tactic(auto, unfolding(crate::specs::Words::is_client_name))]
pub(crate) fn is_client_name(text: &str) -> bool
    ensures { result ≡ is_client_name text.now }
{
    let starts_with_letter = match text.as_bytes().first() {
        Some(byte) => byte.is_ascii_alphabetic(),
        None => false,
    };
    starts_with_letter && is_ticket_name(text) && text != "phase"
}

/// Whether a text is decimal digits, one or more.
#[tactic(auto, unfolding(crate::specs::Words::is_decimal))]
fn is_decimal(text: &str) -> bool
    ensures { result ≡ is_decimal text.now }
{
    !text.is_empty() && text.as_bytes().iter().all(|byte| byte.is_ascii_digit())
}

/// A number in decimal digits, from `low` to `high`.
#[tactic(auto, unfolding(crate::specs::Words::is_number))]
pub(crate) fn number(word: &str, low: u64, high: u64) -> Result<u64, ScriptFault>
    ensures form { Tests (is_number low high word.now) script_fault.BadNumber result }
    ensures value { IfOk result (λ n. n ≡ digits_value 10 word.now) }
{
    if !is_decimal(word) {
        return Err(ScriptFault::BadNumber);
    }
    let Ok(number) = word.parse::<u64>() else {
        return Err(ScriptFault::BadNumber);
    };
    if number < low || high < number {
        return Err(ScriptFault::BadNumber);
    }
    Ok(number)
}
