//! What words say beside names and numbers: a UUID, a scan, JSON.
ghost use Rattle.std.specs.Prelude.{◌≡◌, IfOk};
ghost use Rattle.std.specs.Option.{option_copied};
ghost use Rattle.uuid.specs.Text.{hyphenated_text, lower};
ghost use Rattle.script_parser.specs.Commands.{scan_words};
ghost use Rattle.script_parser.specs.Inside.Commands.{scan_said};
ghost use Rattle.script_parser.specs.Inside.Faults.{Tests, TestsLine, Reads};
ghost use Rattle.script_parser.specs.Words.{is_uuid, uuid_said, is_start, start_said, is_limit, limit_said, is_json};
ghost use Rattle.script_parser.specs.Words.{json_said};
ghost use Rattle.script_parser.specs.declared.faults.ScriptFault.TheVariants as script_fault;

use crate::faults::{LineFault, ScriptFault};
use crate::lines::{number, one_word, word_of};
use group_history::{Json, Refusal, Scan, Start, Text};
use std::alloc::Global;
use uuid::Uuid;

/// The UUID that a word is, in any of its text forms (RFC 9562).
#[tactic(auto, unfolding(crate::specs::Words::is_uuid, crate::specs::Words::uuid_said))]
pub(crate) fn uuid_of(word: &str) -> Result<Uuid, ScriptFault>
    ensures form { Tests (is_uuid word.now) script_fault.BadUuid result }
    ensures value { IfOk result (λ id. hyphenated_text lower id ≡ uuid_said word.now) }
{
    let Ok(id) = Uuid::parse_str(word) else {
        return Err(ScriptFault::BadUuid);
    };
    Ok(id)
}

/// The scan that the rest of a line is.
#[tactic(auto, unfolding(crate::specs::Commands::scan_words))]
pub(crate) fn scan_words(alloc: Global, rest: Option<&str>) -> Result<Scan, LineFault>
    ensures { Reads (scan_words (option_copied rest.entry)) result }
{
    let (prefix, rest) = word_of(rest)?;
    let (start, rest) = word_of(rest)?;
    scan_of(alloc, prefix, start, one_word(rest)?)
}

/// The scan of three words: its prefix, its start and its limit.
#[tactic(auto, unfolding(crate::specs::Words::prefix_said))]
fn scan_of(alloc: Global, prefix: &str, start: &str, limit: &str) -> Result<Scan, LineFault>
    ensures { Reads (scan_said prefix.now start.now limit.now) result }
{
    let start = start_of(alloc, start)?;
    let limit = limit_of(limit)?;
    let prefix = if prefix == "-" { "" } else { prefix };
    let prefix = Text::new(alloc, prefix)?;
    Ok(Scan {
        prefix,
        start,
        limit,
    })
}

/// The start of a scan: `-`, `=KEY` or `>KEY`.
#[tactic(auto, unfolding(crate::specs::Words::is_start))]
fn start_of(alloc: Global, word: &str) -> Result<Start, LineFault>
    ensures form { TestsLine (is_start word.now) script_fault.BadWords result }
    ensures value { IfOk result (λ start. start ≡ start_said word.now) }
{
    if word == "-" {
        return Ok(Start::Any);
    }
    if let Some(key) = word.strip_prefix('=') {
        return Ok(Start::At(Text::new(alloc, key)?));
    }
    if let Some(key) = word.strip_prefix('>') {
        return Ok(Start::After(Text::new(alloc, key)?));
    }
    Err(LineFault::Script(ScriptFault::BadWords))
}

/// The limit of a scan: `-` or a number.
#[tactic(auto, unfolding(crate::specs::Words::is_limit, crate::specs::Words::limit_said))]
fn limit_of(word: &str) -> Result<Option<u64>, ScriptFault>
    ensures form { Tests (is_limit word.now) script_fault.BadNumber result }
    ensures value { IfOk result (λ limit. limit ≡ limit_said word.now) }
{
    if word == "-" {
        return Ok(None);
    }
    Ok(Some(number(word, 0, u64::MAX)?))
}

/// The arguments of a mutator.
#[tactic(auto, unfolding(crate::specs::Words::is_json, crate::specs::Words::json_said))]
pub(crate) fn json(alloc: Global, text: &str) -> Result<Json, LineFault>
    ensures form { TestsLine (is_json text.now) script_fault.BadJson result }
    ensures value { IfOk result (λ json. json ≡ json_said text.now) }
{
    match Json::read(alloc, text.as_bytes()) {
        Ok(json) => Ok(json),
        Err(Refusal::NoMemory) => Err(LineFault::NoMemory),
        Err(_unread) => Err(LineFault::Script(ScriptFault::BadJson)),
    }
}
