//! A mutation as it waits for the server, and why its mutator is run.
ghost use Rattle.std.specs.Prelude.{◌≡◌, IfOk};
ghost use Rattle.group_history.specs.State.{made, rebased};

use crate::json::Json;
use crate::texts::Text;
use std::alloc::{AllocError, Global};
use std::marker::Model;
use std::sync::Arc;

/// Why a mutator is run (Replicache, `WriteTransaction`, "reason").
#[derive(Clone, Copy, Debug, PartialEq, Eq)]
pub enum Reason {
    /// The client makes the mutation.
    Initial,

    /// A pull was applied under the mutation, which is replayed on what was pulled.
    Rebase,
}

/// What a mutation says: the fields of the Push Endpoint Reference, version 1, and the reason with which it is replayed,
/// which no request shows.
pub struct MutationFields {
    /// The client's ID.
    pub client: Text,
    /// Sequential per client; the first is 1.
    pub id: u64,
    /// The mutator's name.
    pub name: Text,
    /// What the mutator is given.
    pub args: Json,
    /// Milliseconds since the epoch, as the caller handed it in.
    pub timestamp: u64,
    /// Initial until a pull is applied under it.
    pub reason: Reason,
}

impl Drop for MutationFields {
    fn drop(self) {
        let MutationFields {
            client,
            id: _,
            name,
            args,
            timestamp: _,
            reason: _,
        } = self;
        drop(client);
        drop(name);
        drop(args);
    }
}

impl MutationFields {
    // These fields, with copies of the texts.
    fn copied(&self, reason: Reason) -> Result<MutationFields, AllocError>
        ensures { IfOk result (λ x. x ≡ record {
          client = self.now.client;
          id = self.now.id;
          name = self.now.name;
          args = self.now.args;
          timestamp = self.now.timestamp;
          reason = reason;
        }) }
    {
        let client = self.client.clone()?;
        let name = self.name.clone()?;
        let args = self.args.clone()?;
        Ok(MutationFields {
            client,
            id: self.id,
            name,
            args,
            timestamp: self.timestamp,
            reason,
        })
    }
}

/// A mutation that a client made and the server has not confirmed. A clone shares what it says.
pub struct Mutation {
    fields: Arc<MutationFields>,
}

impl Drop for Mutation {
    fn drop(self) {
        let Mutation { fields } = self;
        drop(fields);
    }
}

impl Model for Mutation {
    ghost use Rattle.std.specs.Arc.{arc_value};
    ghost use Rattle.group_history.specs.declared.mutations.MutationFields.{MutationFields};

    ghost Value = { MutationFields };

    ghost view = { λ m. arc_value m.fields };
}

impl Clone for Mutation {
    ghost is_clone = { λ m copy. copy ≡ m };

    fn clone(&self) -> Result<Mutation, AllocError> {
        let fields = self.fields.clone()?;
        Ok(Mutation { fields })
    }
}

impl Mutation {
    /// A mutation that its client makes, so for the reason Initial.
    pub fn new(
        alloc: Global,
        client: &Text,
        id: u64,
        name: &Text,
        args: &Json,
        timestamp: u64,
    ) -> Result<Mutation, AllocError>
        ensures { IfOk result (λ x. x ≡ made client.now id name.now args.now timestamp) }
    {
        let client = client.clone()?;
        let name = name.clone()?;
        let args = args.clone()?;
        let fields = MutationFields {
            client,
            id,
            name,
            args,
            timestamp,
            reason: Reason::Initial,
        };
        let fields = Arc::new(alloc, fields)?;
        Ok(Mutation { fields })
    }

    /// What the mutation says.
    #[inline(always)]
    pub fn fields(&self) -> &MutationFields
        ensures { result.now ≡ self.now }
    {
        &self.fields
    }

    /// The mutation as an applied pull leaves it: to be replayed for the reason Rebase. One that is so already is shared.
    pub fn rebased(&self, alloc: Global) -> Result<Mutation, AllocError>
        ensures { IfOk result (λ x. x ≡ rebased self.now) }
    {
        let fields = self.fields();
        match fields.reason {
            Reason::Rebase => self.clone(),
            Reason::Initial => {
                let again = fields.copied(Reason::Rebase)?;
                let fields = Arc::new(alloc, again)?;
                Ok(Mutation { fields })
            }
        }
    }
}
