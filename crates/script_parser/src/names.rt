//! The names under which the lines of a script make tickets, or watches.
//!
//! Names are numbered client by client: 0 is the first that a line of the client made, 1 the next other one. Each is
//! kept once, in a tree that leads from a name to its number: so a name is found without a walk over all, and a line of
//! an old name takes no memory. What is found for a name is its place among those of its client, which the model's
//! invariant says (`IsNumbering`).
ghost use Rattle.std.specs.Prelude.{◌≡◌, ◌≤◌, ◌<◌, [], ◌∷◌, ◌++◌, length, None, unwrap_or, vec_len, vec_capacity};
ghost use Rattle.std.specs.Prelude.{IfOk, OnErr, OnOk};
ghost use Rattle.script_parser.specs.Names.{number_among, with_name, name_number, noted, number_made};

use std::alloc::{AllocError, Global};
use std::collections::BTreeMap;
use std::marker::Model;

/// The names that the lines of one client made.
#[derive(Drop)]
pub(crate) struct ClientNames {
    numbers: BTreeMap<String, usize>,
}

impl Model for ClientNames {
    ghost use Rattle.std.specs.Prelude.{ℕ, List};

    ghost Value = { List (List ℕ) };

    ghost use Rattle.script_parser.specs.Inside.Names.{names_in, IsNumbering};

    ghost view = { λ n. names_in n.numbers.entries };

    ghost invariant = { λ n. IsNumbering n.numbers };
}

impl ClientNames {
    fn new(alloc: Global) -> ClientNames
        ensures { result ≡ [] }
    {
        ClientNames {
            numbers: BTreeMap::new(alloc),
        }
    }

    /// The number of a name; none where no line made it.
    fn number_of(&self, name: &str) -> Option<usize>
        ensures { result ≡ number_among name.now self.now }
    {
        self.numbers.get(name).copied()
    }

    /// Keeps a new name, under the next number.
    fn add(&mut self, alloc: Global, name: &str) -> Result<usize, AllocError>
        requires { number_among name.now self.old ≡ None }
        ensures number { IfOk result (λ number. number ≡ length self.old) }
        ensures added { OnOk result (self.new ≡ self.old ++ name.now ∷ []) }
        ensures left { OnErr result (self.new ≡ self.old) }
    {
        let number = self.numbers.len();
        let name = String::from_str(alloc, name)?;
        self.numbers.insert(name, number)?;
        Ok(number)
    }

    /// Notes that a line made this name, and answers its number.
    #[tactic(auto, unfolding(crate::specs::Names::with_name))]
    fn note(&mut self, alloc: Global, name: &str) -> Result<usize, AllocError>
        ensures number { IfOk result (λ number. number ≡ unwrap_or (number_among name.now self.old) (length self.old)) }
        ensures noted { OnOk result (self.new ≡ with_name name.now self.old) }
        ensures left { OnErr result (self.new ≡ self.old) }
    {
        match self.number_of(name) {
            Some(number) => Ok(number),
            None => self.add(alloc, name),
        }
    }
}

/// The names of each client.
#[derive(Drop)]
pub(crate) struct Names {
    clients: Vec<ClientNames>,
}

impl Names {
    pub(crate) fn new(alloc: Global) -> Names
        ensures { result.clients.items ≡ [] }
    {
        Names {
            clients: Vec::new(alloc),
        }
    }

    /// Makes room for a client more.
    pub(crate) fn reserve(&mut self) -> Result<(), AllocError>
        ensures same { self.new.clients.items ≡ self.old.clients.items }
        ensures room { OnOk result (vec_len self.new.clients < vec_capacity self.new.clients) }
    {
        self.clients.reserve(1)
    }

    /// Adds a client that has no names. It is refused only where there is no room for it.
    pub(crate) fn add_client(&mut self, alloc: Global) -> Result<(), AllocError>
        ensures added { OnOk result (self.new.clients.items ≡ self.old.clients.items ++ [] ∷ []) }
        ensures left { OnErr result (self.new.clients.items ≡ self.old.clients.items) }
        ensures full { OnErr result (vec_capacity self.old.clients ≤ vec_len self.old.clients) }
    {
        self.clients.push(ClientNames::new(alloc))?;
        Ok(())
    }

    /// The number of a name of the client at a place; none where no line of the client made it.
    #[tactic(auto, unfolding(crate::specs::Names::name_number))]
    pub(crate) fn number_of(&self, client: usize, name: &str) -> Option<usize>
        ensures { result ≡ name_number client name.now self.now.clients.items }
    {
        self.clients.get(client)?.number_of(name)
    }

    /// Notes that a line of the client at a place made this name, and answers its number.
    #[tactic(auto, unfolding(crate::specs::Names::number_made, crate::specs::Names::name_number))]
    pub(crate) fn note(
        &mut self,
        alloc: Global,
        client: usize,
        name: &str,
    ) -> Result<usize, AllocError>
        ensures number { IfOk result (λ number. number ≡ number_made client name.now self.old.clients.items) }
        ensures noted { OnOk result (self.new.clients.items ≡ noted client name.now self.old.clients.items) }
        ensures left { OnErr result (self.new.clients.items ≡ self.old.clients.items) }
    {
        match self.clients.get_mut(client) {
            Some(names) => names.note(alloc, name),
            None => Ok(0),
        }
    }
}
