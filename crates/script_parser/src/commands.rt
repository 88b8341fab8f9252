//! The lines from the first phase on, and those of tickets and watches.
ghost use Rattle.std.specs.Prelude.{◌≡◌, ◌<◌, length, IfOk, OnErr, OnOk};
ghost use Rattle.std.specs.Option.{option_copied};
ghost use Rattle.script_parser.specs.Inside.Parsing.{context_of};

use crate::faults::{LineFault, ScriptFault};
use crate::lines::{first_word, is_ticket_name, rest};
use crate::parser::Parser;
use crate::script::{Command, Line, LineKind};
use crate::words::scan_words;
use group_history::Text;
use std::alloc::AllocError;

impl Parser {
    ghost use Rattle.script_parser.specs.Commands.{command_line, command_of, named_command};
    ghost use Rattle.script_parser.specs.Commands.{begin_line, end_line, watch_line, watched_line, watch_word};
    ghost use Rattle.script_parser.specs.Inside.Faults.{Asks, TellsCommand};
    ghost use Rattle.script_parser.specs.Names.{noted, number_made};

    #[tactic(auto, unfolding(crate::specs::Commands::command_line, crate::specs::Commands::command_at))]
    pub(crate) fn command_line(
        &mut self,
        number: u64,
        word: &str,
        rest: Option<&str>,
    ) -> Result<LineKind, LineFault>
        requires { 0 < length (context_of self.old).phases }
        ensures { Asks number (command_line (context_of self.old) number word.now (option_copied rest.entry))
            (context_of self.old) (context_of self.new) result }
    {
        let Some(client) = self.header.place_of(word) else {
            return Err(LineFault::Script(ScriptFault::UnknownClient));
        };
        let command = self.command_of(client, rest)?;
        Ok(LineKind::Command(client, Line { number, command }))
    }

    #[tactic(auto, unfolding(crate::specs::Commands::command_of))]
    fn command_of(&mut self, client: usize, rest: Option<&str>) -> Result<Command, LineFault>
        ensures { TellsCommand (command_of (context_of self.old) client (option_copied rest.entry))
            (context_of self.old) (context_of self.new) result }
    {
        let Some(rest) = rest else {
            return Err(LineFault::Script(ScriptFault::UnknownCommand));
        };
        let (name, rest) = first_word(rest);
        self.command(client, name, rest)
    }

    #[tactic(auto, unfolding(crate::specs::Commands::named_command))]
    fn command(
        &mut self,
        client: usize,
        name: &str,
        rest: Option<&str>,
    ) -> Result<Command, LineFault>
        ensures { TellsCommand (named_command (context_of self.old) client name.now (option_copied rest.entry))
            (context_of self.old) (context_of self.new) result }
    {
        if name == "begin" {
            return self.begin(client, rest);
        }
        if name == "end" {
            return self.end(client, rest);
        }
        if name == "watch" {
            return self.watch(client, rest);
        }
        self.watched(client, name, rest)
    }

    #[tactic(auto, unfolding(crate::specs::Commands::begin_line))]
    fn begin(&mut self, client: usize, rest: Option<&str>) -> Result<Command, LineFault>
        ensures { TellsCommand (begin_line (context_of self.old) client (option_copied rest.entry))
            (context_of self.old) (context_of self.new) result }
    {
        let name = self::rest(rest)?;
        if !is_ticket_name(name) {
            return Err(LineFault::Script(ScriptFault::BadWords));
        }
        Ok(Command::Begin(self.make_ticket(client, name)?))
    }

    /// Notes that a line of a client makes a ticket, and answers the number of its name.
    fn make_ticket(&mut self, client: usize, name: &str) -> Result<usize, AllocError>
        ensures number { IfOk result (λ n. n ≡ number_made client name.now (context_of self.old).tickets) }
        ensures made { OnOk result (context_of self.new ≡ record (context_of self.old) {
          tickets = noted client name.now (context_of self.old).tickets;
        }) }
        ensures left { OnErr result (context_of self.new ≡ context_of self.old) }
    {
        self.tickets.note(self.alloc, client, name)
    }

    #[tactic(auto, unfolding(crate::specs::Commands::end_line))]
    fn end(&self, client: usize, rest: Option<&str>) -> Result<Command, LineFault>
        ensures { TellsCommand (end_line (context_of self.now) client (option_copied rest.entry))
            (context_of self.now) (context_of self.now) result }
    {
        let (name, body) = first_word(self::rest(rest)?);
        if !is_ticket_name(name) {
            return Err(LineFault::Script(ScriptFault::BadWords));
        }
        let body = self::rest(body)?;
        let Some(number) = self.tickets.number_of(client, name) else {
            return Err(LineFault::Script(ScriptFault::UnknownName));
        };
        Ok(Command::End(number, Text::new(self.alloc, body)?))
    }

    #[tactic(auto, unfolding(crate::specs::Commands::watch_line))]
    fn watch(&mut self, client: usize, rest: Option<&str>) -> Result<Command, LineFault>
        ensures { TellsCommand (watch_line (context_of self.old) client (option_copied rest.entry))
            (context_of self.old) (context_of self.new) result }
    {
        let (name, rest) = first_word(self::rest(rest)?);
        if !is_ticket_name(name) {
            return Err(LineFault::Script(ScriptFault::BadWords));
        }
        let scan = scan_words(self.alloc, rest)?;
        let number = self.make_watch(client, name)?;
        Ok(Command::Watch(number, scan))
    }

    /// Notes that a line of a client makes a watch, and answers the number of its name.
    fn make_watch(&mut self, client: usize, name: &str) -> Result<usize, AllocError>
        ensures number { IfOk result (λ n. n ≡ number_made client name.now (context_of self.old).watches) }
        ensures made { OnOk result (context_of self.new ≡ record (context_of self.old) {
          watches = noted client name.now (context_of self.old).watches;
        }) }
        ensures left { OnErr result (context_of self.new ≡ context_of self.old) }
    {
        self.watches.note(self.alloc, client, name)
    }

    /// What is done with a watch that an earlier line made; or another command.
    #[tactic(auto, unfolding(crate::specs::Commands::watched_line))]
    fn watched(&self, client: usize, name: &str, rest: Option<&str>) -> Result<Command, LineFault>
        ensures { TellsCommand (watched_line (context_of self.now) client name.now (option_copied rest.entry))
            (context_of self.now) (context_of self.now) result }
    {
        if name == "poll" {
            return Ok(Command::Poll(self.watch_of(client, rest)?));
        }
        if name == "changes" {
            return Ok(Command::Changes(self.watch_of(client, rest)?));
        }
        if name == "unwatch" {
            return Ok(Command::Unwatch(self.watch_of(client, rest)?));
        }
        self.look(name, rest)
    }

    /// The number of the watch that an earlier line of the client made.
    #[tactic(auto, unfolding(crate::specs::Commands::watch_word))]
    fn watch_of(&self, client: usize, rest: Option<&str>) -> Result<usize, ScriptFault>
        ensures { result ≡ watch_word (context_of self.now) client (option_copied rest.entry) }
    {
        let name = self::rest(rest)?;
        if !is_ticket_name(name) {
            return Err(ScriptFault::BadWords);
        }
        let Some(number) = self.watches.number_of(client, name) else {
            return Err(ScriptFault::UnknownName);
        };
        Ok(number)
    }
}
