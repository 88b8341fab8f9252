//! The commands that make no ticket or watch and need none.
ghost use Rattle.std.specs.Prelude.{◌≡◌};
ghost use Rattle.std.specs.Option.{option_copied};
ghost use Rattle.script_parser.specs.Commands.{bare_command, reading_command, skip_word};
ghost use Rattle.script_parser.specs.Inside.Parsing.{context_of};

use crate::faults::{LineFault, ScriptFault};
use crate::lines::{first_word, is_client_name, is_word, no_words, number, rest, word_of};
use crate::parser::Parser;
use crate::script::{Command, MutatorCall, Query};
use crate::words::{json, scan_words};
use group_history::Text;

const LATEST_TIME: u64 = 9_007_199_254_740_991;

impl Parser {
    ghost use Rattle.script_parser.specs.Commands.{get_line, has_line, scan_line, mutate_line, learn_line, bare_line};
    ghost use Rattle.script_parser.specs.Commands.{look_line, sent_line, push_line, pulled_line, pulled_command};
    ghost use Rattle.script_parser.specs.Commands.{pulled_get, pulled_scan};
    ghost use Rattle.script_parser.specs.Inside.Faults.{TellsCommand};

    #[tactic(auto, unfolding(crate::specs::Commands::look_line))]
    pub(crate) fn look(&self, name: &str, rest: Option<&str>) -> Result<Command, LineFault>
        ensures { TellsCommand (look_line (context_of self.now) name.now (option_copied rest.entry))
            (context_of self.now) (context_of self.now) result }
    {
        if name == "get" {
            return self.get(rest);
        }
        if name == "has" {
            return self.has(rest);
        }
        if name == "scan" {
            return self.scan(rest);
        }
        if name == "learn" {
            return self.learn(rest);
        }
        if name == "mutate" {
            return self.mutate(rest);
        }
        self.sent(name, rest)
    }

    /// What the server sent, and what it is to be sent; or a command that takes no words.
    #[tactic(auto, unfolding(crate::specs::Commands::sent_line))]
    fn sent(&self, name: &str, rest: Option<&str>) -> Result<Command, LineFault>
        ensures { TellsCommand (sent_line (context_of self.now) name.now (option_copied rest.entry))
            (context_of self.now) (context_of self.now) result }
    {
        if name == "push" {
            return self.push(rest);
        }
        if name == "pulled" {
            return self.pulled(rest);
        }
        self.bare(name, rest)
    }

    #[tactic(auto, unfolding(crate::specs::Commands::get_line))]
    fn get(&self, rest: Option<&str>) -> Result<Command, LineFault>
        ensures { TellsCommand (get_line (context_of self.now) (option_copied rest.entry))
            (context_of self.now) (context_of self.now) result }
    {
        let key = Text::new(self.alloc, self::rest(rest)?)?;
        Ok(Command::Query(Query::Get(key)))
    }

    #[tactic(auto, unfolding(crate::specs::Commands::has_line))]
    fn has(&self, rest: Option<&str>) -> Result<Command, LineFault>
        ensures { TellsCommand (has_line (context_of self.now) (option_copied rest.entry))
            (context_of self.now) (context_of self.now) result }
    {
        let key = Text::new(self.alloc, self::rest(rest)?)?;
        Ok(Command::Query(Query::Has(key)))
    }

    #[tactic(auto, unfolding(crate::specs::Commands::scan_line))]
    fn scan(&self, rest: Option<&str>) -> Result<Command, LineFault>
        ensures { TellsCommand (scan_line (context_of self.now) (option_copied rest.entry))
            (context_of self.now) (context_of self.now) result }
    {
        let scan = scan_words(self.alloc, rest)?;
        Ok(Command::Query(Query::Scan(scan)))
    }

    fn push(&self, rest: Option<&str>) -> Result<Command, LineFault>
        ensures { TellsCommand (push_line (context_of self.now) (option_copied rest.entry))
            (context_of self.now) (context_of self.now) result }
    {
        let Some(rest) = rest else {
            return Ok(Command::Query(Query::Push(0)));
        };
        Ok(Command::Query(Query::Push(skip_of(rest)?)))
    }

    #[tactic(auto, unfolding(crate::specs::Commands::pulled_line))]
    fn pulled(&self, rest: Option<&str>) -> Result<Command, LineFault>
        ensures { TellsCommand (pulled_line (context_of self.now) (option_copied rest.entry))
            (context_of self.now) (context_of self.now) result }
    {
        let Some(rest) = rest else {
            return Err(LineFault::Script(ScriptFault::UnknownCommand));
        };
        let (name, rest) = first_word(rest);
        self.pulled_command(name, rest)
    }

    #[tactic(auto, unfolding(crate::specs::Commands::pulled_command))]
    fn pulled_command(&self, name: &str, rest: Option<&str>) -> Result<Command, LineFault>
        ensures { TellsCommand (pulled_command (context_of self.now) name.now (option_copied rest.entry))
            (context_of self.now) (context_of self.now) result }
    {
        if name == "get" {
            return self.pulled_get(rest);
        }
        if name == "scan" {
            return self.pulled_scan(rest);
        }
        Err(LineFault::Script(ScriptFault::UnknownCommand))
    }

    #[tactic(auto, unfolding(crate::specs::Commands::pulled_get))]
    fn pulled_get(&self, rest: Option<&str>) -> Result<Command, LineFault>
        ensures { TellsCommand (pulled_get (context_of self.now) (option_copied rest.entry))
            (context_of self.now) (context_of self.now) result }
    {
        let key = Text::new(self.alloc, self::rest(rest)?)?;
        Ok(Command::Query(Query::PulledGet(key)))
    }

    #[tactic(auto, unfolding(crate::specs::Commands::pulled_scan))]
    fn pulled_scan(&self, rest: Option<&str>) -> Result<Command, LineFault>
        ensures { TellsCommand (pulled_scan (context_of self.now) (option_copied rest.entry))
            (context_of self.now) (context_of self.now) result }
    {
        let scan = scan_words(self.alloc, rest)?;
        Ok(Command::Query(Query::PulledScan(scan)))
    }

    #[tactic(auto, unfolding(crate::specs::Commands::mutate_line))]
    fn mutate(&self, rest: Option<&str>) -> Result<Command, LineFault>
        ensures { TellsCommand (mutate_line (context_of self.now) (option_copied rest.entry))
            (context_of self.now) (context_of self.now) result }
    {
        let (time, rest) = word_of(rest)?;
        let (mutator, rest) = word_of(rest)?;
        let args = self::rest(rest)?;
        let time = number(time, 0, LATEST_TIME)?;
        let args = json(self.alloc, args)?;
        let mutator = Text::new(self.alloc, mutator)?;
        Ok(Command::Mutate(MutatorCall {
            time,
            mutator,
            args,
        }))
    }

    #[tactic(auto, unfolding(crate::specs::Commands::learn_line))]
    fn learn(&self, rest: Option<&str>) -> Result<Command, LineFault>
        ensures { TellsCommand (learn_line (context_of self.now) (option_copied rest.entry))
            (context_of self.now) (context_of self.now) result }
    {
        let name = self::rest(rest)?;
        if !is_client_name(name) {
            return Err(LineFault::Script(ScriptFault::BadWords));
        }
        let Some(place) = self.header.place_of(name) else {
            return Err(LineFault::Script(ScriptFault::UnknownName));
        };
        Ok(Command::Learn(place))
    }

    #[tactic(auto, unfolding(crate::specs::Commands::bare_line))]
    fn bare(&self, name: &str, rest: Option<&str>) -> Result<Command, LineFault>
        ensures { TellsCommand (bare_line (context_of self.now) name.now (option_copied rest.entry))
            (context_of self.now) (context_of self.now) result }
    {
        let Some(command) = bare_command(name) else {
            return Err(LineFault::Script(ScriptFault::UnknownCommand));
        };
        if let Err(fault) = no_words(rest) {
            drop(command);
            return Err(LineFault::Script(fault));
        }
        Ok(command)
    }
}

/// How many mutations a push leaves out.
#[tactic(auto, unfolding(crate::specs::Commands::skip_word))]
fn skip_of(word: &str) -> Result<usize, ScriptFault>
    ensures { result ≡ skip_word word.now }
{
    if !is_word(word) {
        return Err(ScriptFault::BadWords);
    }
    let skip = number(word, 0, u64::MAX)?;
    Ok(skip as usize)
}

/// A command that takes no words.
#[tactic(auto, unfolding(crate::specs::Commands::bare_command))]
fn bare_command(name: &str) -> Option<Command>
    ensures { result ≡ bare_command name.now }
{
    if name == "empty" {
        return Some(Command::Query(Query::Empty));
    }
    if name == "closed" {
        return Some(Command::Query(Query::Closed));
    }
    if name == "pending" {
        return Some(Command::Query(Query::Pending));
    }
    if name == "cookie" {
        return Some(Command::Query(Query::Cookie));
    }
    if name == "refresh" {
        return Some(Command::Refresh);
    }
    if name == "moment" {
        return Some(Command::Moment);
    }
    if name == "slots" {
        return Some(Command::Slots);
    }
    reading_command(name)
}

/// One that begins or ends a reading.
#[tactic(auto, unfolding(crate::specs::Commands::reading_command))]
fn reading_command(name: &str) -> Option<Command>
    ensures { result ≡ reading_command name.now }
{
    if name == "read" {
        return Some(Command::BeginRead);
    }
    if name == "unread" {
        return Some(Command::EndRead);
    }
    None
}
