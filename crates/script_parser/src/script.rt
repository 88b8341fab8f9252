//! A script as values: its header, and the commands of its phases.
ghost use Rattle.std.specs.Prelude.{◌≡◌, ◌==◌, codes, [], ◌∷◌, ◌++◌, map, replicate, position, vec_len};
ghost use Rattle.std.specs.Prelude.{unwrap_or, IfOk, OnOk, None};
ghost use Rattle.uuid.specs.Text.{hyphenated_text, lower};
ghost use Rattle.script_parser.specs.Context.{place_of};
ghost use Rattle.script_parser.specs.Scripts.{client_said, line_said, lines_at, phase_said};

use group_history::{Json, Scan, Text};
use push_body::Identity;
use std::alloc::{AllocError, Global};
use uuid::Uuid;

/// A `client` line: a name of 1 to 16 ASCII letters or digits, and the client's ID.
#[derive(Drop)]
pub struct ClientLine {
    pub name: Text,
    pub id: Uuid,
}

/// What the lines before the first phase say.
#[derive(Drop)]
pub struct Header {
    pub(crate) group: Option<Text>,
    pub(crate) profile: Option<Text>,
    pub(crate) schema: Option<Text>,
    /// From 16 to `MAX_SLOTS`.
    pub(crate) slots: Option<u64>,
    /// The `client` lines, in order: at most 256, each of another name.
    pub clients: Vec<ClientLine>,
}

/// A command that changes nothing.
#[derive(Drop)]
pub enum Query {
    /// The value at this key.
    Get(Text),
    /// Whether the key is there.
    Has(Text),
    /// The rows of a scan.
    Scan(Scan),
    /// Whether no key is there.
    Empty,
    /// Whether the group is closed.
    Closed,
    /// The pending mutations of the group.
    Pending,
    /// The group's cookie.
    Cookie,
    /// The body of a push, but for the oldest so many pending mutations.
    Push(usize),
    /// What the server last sent at this key.
    PulledGet(Text),
    /// The rows of a scan of what the server last sent.
    PulledScan(Scan),
}

/// What a client is to do.
#[derive(Drop)]
pub enum Command {
    /// Ask the group.
    Query(Query),
    /// Begin a pull, and keep its ticket under this number. The names of a client's tickets are numbered from 0 on, in
    /// the order in which its lines first made them; a name that was made before has its old number.
    Begin(usize),
    /// End the pull of the ticket of this number, with this body.
    End(usize, Text),
    /// Make a mutation.
    Mutate(MutatorCall),
    /// Read the client's last id anew.
    Refresh,
    /// Tell the number of the moment.
    Moment,
    /// Count the slots that are free.
    Slots,
    /// Begin a reading: until it ends, queries are answered as of its moment.
    BeginRead,
    /// End it.
    EndRead,
    /// Learn what another client has seen, the one at this place.
    Learn(usize),
    /// Watch a scan, and keep the watch under this number. Watches are numbered as tickets are, apart from them.
    Watch(usize, Scan),
    /// Poll the watch of this number.
    Poll(usize),
    /// Poll it for what changed.
    Changes(usize),
    /// Give the watch of this number up.
    Unwatch(usize),
}

/// A call of a mutator.
#[derive(Drop)]
pub struct MutatorCall {
    /// In milliseconds, below 2^53.
    pub time: u64,
    /// The mutator's name, not empty.
    pub mutator: Text,
    /// What it is given.
    pub args: Json,
}

/// A line of a phase.
#[derive(Drop)]
pub struct Line {
    /// Counted from 1.
    pub number: u64,
    /// What the client is to do.
    pub command: Command,
}

/// What a line asks.
#[derive(Drop)]
pub enum LineKind {
    /// Nothing: it stands before the first phase, is empty or begins with `#`.
    Nothing,
    /// A new phase.
    Phase,
    /// A command of the client at this place among the `client` lines.
    Command(usize, Line),
}

/// The lines of one client in a phase.
#[derive(Drop)]
pub(crate) struct ClientPart {
    /// Its place among the `client` lines.
    client: usize,
    lines: Vec<Line>,
}

/// A phase: the parts of the clients that have lines in it, in the order of their first lines. A client without a part
/// has no line.
#[derive(Drop)]
pub struct Phase {
    /// How many clients the script has.
    clients: usize,
    parts: Vec<ClientPart>,
}

/// A script, checked whole.
#[derive(Drop)]
pub struct Script {
    pub header: Header,
    pub phases: Vec<Phase>,
}

const DEFAULT_SLOTS: u64 = 4096;

impl Header {
    /// Whose requests the group writes. What the header doesn't say is the nil UUID, the profile `p1` and the schema
    /// `s1`.
    pub fn identity(&self, alloc: Global) -> Result<Identity, AllocError>
        ensures { IfOk result (λ identity. identity ≡ record {
          group = unwrap_or self.now.group (codes "00000000-0000-0000-0000-000000000000");
          profile = unwrap_or self.now.profile (codes "p1");
          schema = unwrap_or self.now.schema (codes "s1");
        }) }
    {
        Ok(Identity {
            group: text_or(alloc, &self.group, "00000000-0000-0000-0000-000000000000")?,
            profile: text_or(alloc, &self.profile, "p1")?,
            schema: text_or(alloc, &self.schema, "s1")?,
        })
    }

    /// How many slots the group has, from 16 to `MAX_SLOTS`; 4096 where the header doesn't say it.
    pub fn slots_or_default(&self) -> u64
        ensures { result ≡ unwrap_or self.now.slots 4096 }
    {
        self.slots.unwrap_or(DEFAULT_SLOTS)
    }

    #[tactic(auto, unfolding(crate::specs::Context::place_of))]
    pub(crate) fn place_of(&self, name: &str) -> Option<usize>
        ensures { result ≡ place_of name.now (map client_said self.now.clients.items) }
    {
        self.clients
            .iter()
            .position(|client| client.name.as_str() == name)
    }
}

fn text_or(alloc: Global, said: &Option<Text>, default: &str) -> Result<Text, AllocError>
    ensures { IfOk result (λ text. text ≡ unwrap_or said.now default.now) }
{
    match said {
        Some(text) => text.clone(),
        None => Text::new(alloc, default),
    }
}

/// The lower-case hyphenated form of a UUID.
pub fn uuid_text(alloc: Global, id: Uuid) -> Result<Text, AllocError>
    ensures { IfOk result (λ text. text ≡ hyphenated_text lower id) }
{
    let mut buffer = Uuid::encode_buffer();
    Text::new(alloc, id.hyphenated().encode_lower(&mut buffer))
}

impl Phase {
    ghost use Rattle.script_parser.specs.Names.{changed_at};

    /// A phase of no lines yet, of so many clients.
    pub(crate) fn new(alloc: Global, clients: usize) -> Phase
        ensures { phase_said result ≡ replicate clients [] }
    {
        Phase {
            clients,
            parts: Vec::new(alloc),
        }
    }

    /// How many clients have lines.
    pub fn busy(&self) -> usize
        ensures { result ≡ vec_len self.now.parts }
    {
        self.parts.len()
    }

    /// Where the part of a client is.
    fn part_of(&self, client: usize) -> Option<usize>
        ensures { result ≡ position (λ part. part.client == client) self.now.parts.items }
    {
        self.parts.iter().position(|part| part.client == client)
    }

    /// The lines of the client at this place among the `client` lines, in order; none where it has no line in the
    /// phase.
    pub fn lines_of(&self, client: usize) -> &[Line]
        ensures { map line_said result.now ≡ lines_at self.now.parts.items client }
    {
        match self.part_of(client) {
            Some(place) => &self.parts[place].lines,
            None => &[],
        }
    }

    /// Adds a line at the end of those of a client.
    pub(crate) fn keep(
        &mut self,
        alloc: Global,
        client: usize,
        line: Line,
    ) -> Result<(), AllocError>
        ensures { OnOk result (phase_said self.new
            ≡ changed_at client (λ lines. lines ++ line_said line ∷ []) (phase_said self.old)) }
    {
        let Some(place) = self.part_of(client) else {
            return self.keep_first(alloc, client, line);
        };
        self.parts[place].lines.push(line)?;
        Ok(())
    }

    /// Adds the first line of a client.
    fn keep_first(&mut self, alloc: Global, client: usize, line: Line) -> Result<(), AllocError>
        requires { position (λ part. part.client == client) self.old.parts.items ≡ None }
        ensures { OnOk result (phase_said self.new
            ≡ changed_at client (λ lines. lines ++ line_said line ∷ []) (phase_said self.old)) }
    {
        let mut lines = Vec::with_capacity(alloc, 1)?;
        lines.push(line)?;
        self.parts.push(ClientPart { client, lines })?;
        Ok(())
    }
}
