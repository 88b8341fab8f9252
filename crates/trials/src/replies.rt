//! What calls are answered, as scripts print it.
use group_history::{Ended, Json, Mutation, Refusal, Text};
use push_body::push_quoted;
use rebase::{CallReply, Polled};
use script_parser::Command;
use std::alloc::{AllocError, Global};

/// What is said of a call. Where memory is refused for it, that is told once it is asked for.
#[derive(Drop)]
pub(crate) struct Said {
    text: Vec<u8>,
    is_cut: bool,
}

impl Said {
    pub(crate) fn nothing(alloc: Global) -> Said {
        Said {
            text: Vec::new(alloc),
            is_cut: false,
        }
    }

    /// All that was said.
    pub(crate) fn whole(&self) -> Result<&[u8], AllocError> {
        if self.is_cut {
            return Err(AllocError);
        }
        Ok(&self.text)
    }

    /// What was said is not whole.
    pub(crate) fn cut(&mut self) {
        self.is_cut = true;
    }

    fn note(&mut self, said: Result<(), AllocError>) {
        self.is_cut = self.is_cut || said.is_err();
    }

    pub(crate) fn say(&mut self, text: &str) {
        self.say_bytes(text.as_bytes());
    }

    pub(crate) fn say_bytes(&mut self, bytes: &[u8]) {
        let said = self.text.extend_from_slice(bytes);
        self.note(said);
    }

    fn say_quoted(&mut self, text: &str) {
        let said = push_quoted(&mut self.text, text);
        self.note(said);
    }

    /// Says a text that is made for it.
    pub(crate) fn say_made(&mut self, text: Result<String, AllocError>) {
        match text {
            Ok(text) => self.say(text.as_str()),
            Err(AllocError) => self.is_cut = true,
        }
    }

    fn say_number(&mut self, word: &str, number: u64) {
        let alloc = *self.text.allocator();
        self.say_made(format!(in alloc; "{word}{number}"));
    }

    /// Says a row of a scan.
    pub(crate) fn say_row(&mut self, key: &Text, value: &Json) {
        self.say("[");
        self.say_quoted(key.as_str());
        self.say(",");
        self.say(value.text());
        self.say("]");
    }

    /// Says rows behind a word.
    pub(crate) fn say_rows(&mut self, word: &str, rows: &[(Text, Json)]) {
        let mut before = "[";
        self.say(word);
        for row in rows {
            self.say(before);
            self.say_row(&row.0, &row.1);
            before = ",";
        }
        self.say(if rows.is_empty() { "[]" } else { "]" });
    }

    fn say_mutation(&mut self, mutation: &Mutation) {
        let said = mutation.fields();
        self.say("[");
        self.say_quoted(said.client.as_str());
        self.say_number(",", said.id);
        self.say(",");
        self.say_quoted(said.name.as_str());
        self.say("]");
    }

    fn say_pending(&mut self, pending: &[Mutation]) {
        let mut before = "[";
        self.say("pending ");
        for mutation in pending {
            self.say(before);
            self.say_mutation(mutation);
            before = ",";
        }
        self.say(if pending.is_empty() { "[]" } else { "]" });
    }

    fn say_behind(&mut self, word: &str, bytes: &[u8]) {
        self.say(word);
        self.say_bytes(bytes);
    }

    fn say_value(&mut self, value: Option<&Json>) {
        match value {
            Some(value) => self.say_behind("value ", value.text().as_bytes()),
            None => self.say("none"),
        }
    }

    /// Says the name of a refusal, and what it tells.
    pub(crate) fn say_refusal(&mut self, refusal: Refusal) {
        match refusal {
            Refusal::Refused(code) => self.say_number("refused Refused ", u64::from(code)),
            refusal => self.say_name(refusal),
        }
    }

    /// Says the name of a refusal without a code, and the kind that it tells.
    fn say_name(&mut self, refusal: Refusal) {
        let alloc = *self.text.allocator();
        let name = match refusal {
            Refusal::VersionNotSupported(kind) => {
                format!(in alloc; "refused VersionNotSupported {kind}")
            }
            refusal => format!(in alloc; "refused {refusal:?}"),
        };
        self.say_made(name);
    }

    /// Says a reply; before an id stands that word.
    fn say_reply(&mut self, id_word: &str, reply: &CallReply) {
        match reply {
            CallReply::Value(value) => self.say_value(value.as_ref()),
            CallReply::Is(is) => self.say(if *is { "yes" } else { "no" }),
            CallReply::Rows(rows) => self.say_rows("rows ", rows),
            CallReply::Pending(pending) => self.say_pending(pending),
            CallReply::Cookie(cookie) => self.say_behind("cookie ", cookie.text().as_bytes()),
            CallReply::Id(id) => self.say_number(id_word, *id),
            CallReply::Body(body) => self.say_behind("push ", body),
            CallReply::Ticket(ticket) => self.say_behind("pull ", &ticket.body),
            CallReply::Ended(Ended::Applied) => self.say("applied"),
            CallReply::Ended(Ended::Same) => self.say("same"),
        }
    }

    /// Says an answer; before an id stands that word.
    pub(crate) fn say_answer(&mut self, id_word: &str, answer: &CallResult) {
        match answer {
            Ok(reply) => self.say_reply(id_word, reply),
            Err(refusal) => self.say_refusal(*refusal),
        }
    }

    /// Says what a poll tells.
    pub(crate) fn say_polled(&mut self, polled: &Result<Polled, Refusal>) {
        match polled {
            Ok(Polled::New(rows)) => self.say_rows("new ", rows.as_slice()),
            Ok(Polled::Unchanged) => self.say("unchanged"),
            Err(refusal) => self.say_refusal(*refusal),
        }
    }
}

/// What is answered to a call.
pub(crate) type CallResult = Result<CallReply, Refusal>;

/// What stands before the id that a command is answered.
pub(crate) fn id_word(command: &Command) -> &'static str {
    match command {
        Command::Refresh => "last ",
        _ => "id ",
    }
}

/// Whether a call that is answered so changes the group.
pub(crate) fn is_change(command: &Command, answer: &CallResult) -> bool {
    match command {
        Command::Mutate(_) => answer.is_ok(),
        Command::End(..) => matches!(
            answer,
            Ok(CallReply::Ended(Ended::Applied)) | Err(Refusal::StateNotFound)
        ),
        _ => false,
    }
}
