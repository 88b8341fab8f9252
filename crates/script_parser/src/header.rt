//! The lines before the first phase.
ghost use Rattle.std.specs.Prelude.{◌≡◌, is_none, OnErr, OnOk, Some};
ghost use Rattle.std.specs.Option.{option_copied};
ghost use Rattle.uuid.specs.Text.{hyphenated_text, lower};
ghost use Rattle.script_parser.specs.Inside.Faults.{TestsLine};
ghost use Rattle.script_parser.specs.Inside.Parsing.{context_of};
ghost use Rattle.script_parser.specs.declared.faults.ScriptFault.TheVariants as script_fault;

use crate::faults::{LineFault, ScriptFault};
use crate::lines::{first_word, is_client_name, number, one_word, rest};
use crate::parser::Parser;
use crate::script::{ClientLine, uuid_text};
use crate::words::uuid_of;
use group_history::{MAX_SEATS, MAX_SLOTS, Text};
use std::alloc::AllocError;
use uuid::Uuid;

const FEWEST_SLOTS: u64 = 16;

impl Parser {
    ghost use Rattle.script_parser.specs.Header.{group_line, profile_line, schema_line, slots_line, client_line};
    ghost use Rattle.script_parser.specs.Header.{header_line, with_new_client};
    ghost use Rattle.script_parser.specs.Inside.Faults.{Heads};
    ghost use Rattle.script_parser.specs.Inside.Header.{admitted};

    #[tactic(auto, unfolding(crate::specs::Header::header_line))]
    pub(crate) fn header_line(&mut self, word: &str, rest: Option<&str>) -> Result<(), LineFault>
        ensures { Heads (header_line (context_of self.old) word.now (option_copied rest.entry))
            (context_of self.old) (context_of self.new) result }
    {
        if word == "client" {
            return self.client(rest);
        }
        if word == "slots" {
            return self.slots(rest);
        }
        if word == "group" {
            return self.group(rest);
        }
        if word == "profile" {
            return self.profile(rest);
        }
        if word == "schema" {
            return self.schema(rest);
        }
        Err(LineFault::Script(ScriptFault::UnknownLine))
    }

    #[tactic(auto, unfolding(crate::specs::Header::group_line))]
    fn group(&mut self, rest: Option<&str>) -> Result<(), LineFault>
        ensures { Heads (group_line (context_of self.old) (option_copied rest.entry))
            (context_of self.old) (context_of self.new) result }
    {
        let id = uuid_of(one_word(rest)?)?;
        let group = uuid_text(self.alloc, id)?;
        say(&mut self.header.group, group)
    }

    #[tactic(auto, unfolding(crate::specs::Header::profile_line))]
    fn profile(&mut self, rest: Option<&str>) -> Result<(), LineFault>
        ensures { Heads (profile_line (context_of self.old) (option_copied rest.entry))
            (context_of self.old) (context_of self.new) result }
    {
        let profile = Text::new(self.alloc, self::rest(rest)?)?;
        say(&mut self.header.profile, profile)
    }

    #[tactic(auto, unfolding(crate::specs::Header::schema_line))]
    fn schema(&mut self, rest: Option<&str>) -> Result<(), LineFault>
        ensures { Heads (schema_line (context_of self.old) (option_copied rest.entry))
            (context_of self.old) (context_of self.new) result }
    {
        let schema = Text::new(self.alloc, self::rest(rest)?)?;
        say(&mut self.header.schema, schema)
    }

    #[tactic(auto, unfolding(crate::specs::Header::slots_line))]
    fn slots(&mut self, rest: Option<&str>) -> Result<(), LineFault>
        ensures { Heads (slots_line (context_of self.old) (option_copied rest.entry))
            (context_of self.old) (context_of self.new) result }
    {
        let slots = number(one_word(rest)?, FEWEST_SLOTS, MAX_SLOTS)?;
        if self.header.slots.is_some() {
            return Err(LineFault::Script(ScriptFault::SaidTwice));
        }
        self.header.slots = Some(slots);
        Ok(())
    }

    #[tactic(auto, unfolding(crate::specs::Header::client_line))]
    fn client(&mut self, rest: Option<&str>) -> Result<(), LineFault>
        ensures { Heads (client_line (context_of self.old) (option_copied rest.entry))
            (context_of self.old) (context_of self.new) result }
    {
        let (name, id) = first_word(self::rest(rest)?);
        if !is_client_name(name) {
            return Err(LineFault::Script(ScriptFault::BadWords));
        }
        let id = uuid_of(one_word(id)?)?;
        self.admit(name, id)
    }

    /// Adds a client of a new name, if there is room for one.
    fn admit(&mut self, name: &str, id: Uuid) -> Result<(), LineFault>
        ensures { Heads (admitted (context_of self.old) name.now (hyphenated_text lower id))
            (context_of self.old) (context_of self.new) result }
    {
        if self.header.place_of(name).is_some() {
            return Err(LineFault::Script(ScriptFault::SaidTwice));
        }
        if self.header.clients.len() as u64 >= MAX_SEATS {
            return Err(LineFault::Script(ScriptFault::TooManyClients));
        }
        let name = Text::new(self.alloc, name)?;
        self.add_client(ClientLine { name, id })?;
        Ok(())
    }

    /// Adds a client. Where memory is refused nothing has changed: what is pushed behind the client has room by then.
    fn add_client(&mut self, client: ClientLine) -> Result<(), AllocError>
        ensures added { OnOk result (context_of self.new
            ≡ with_new_client client.name (hyphenated_text lower client.id) (context_of self.old)) }
        ensures left { OnErr result (context_of self.new ≡ context_of self.old) }
    {
        self.tickets.reserve()?;
        self.watches.reserve()?;
        self.header.clients.push(client)?;
        self.tickets.add_client(self.alloc)?;
        self.watches.add_client(self.alloc)
    }
}

/// Notes what a header line says that may stand once.
fn say(said: &mut Option<Text>, text: Text) -> Result<(), LineFault>
    ensures once { TestsLine (is_none said.old) script_fault.SaidTwice result }
    ensures said { OnOk result (said.new ≡ Some text) }
    ensures left { OnErr result (said.new ≡ said.old) }
{
    if said.is_some() {
        return Err(LineFault::Script(ScriptFault::SaidTwice));
    }
    *said = Some(text);
    Ok(())
}
