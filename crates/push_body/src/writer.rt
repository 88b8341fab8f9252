//! The body of a push, written mutation by mutation.
//!
//! A writer begins with the head of the body and appends the mutations that it is given, so that nobody has to keep a
//! list of them. `HasWritten` says whose body it is and which mutations stand in it, and each call says what becomes
//! of that. What a writer has after an error is not told: one that met an error is let go.
ghost use Rattle.std.specs.Prelude.{◌≡◌, [], ◌∷◌, ◌++◌, List, IfOk, OnOk};
ghost use Rattle.group_history.specs.declared.mutations.MutationFields.{MutationFields as Mutated};
ghost use Rattle.push_body.specs.declared.identities.Identity.{Identity as Identified};
ghost use Rattle.push_body.specs.Bodies.{mutation_text, push_text};
ghost use Rattle.push_body.specs.Written.{HasWritten, comma_text, head_text, tail_text};

use crate::body::BodyText;
use crate::identities::Identity;
use group_history::Mutation;
use std::alloc::{AllocError, Global};

/// Bytes of a mutation beside its texts: names, quotes and commas, and numbers of usual length.
const BYTES_AROUND: usize = 80;

/// Bytes of a request beside its mutations, with an identity of usual length.
const BYTES_OF_REQUEST: usize = 256;

/// A push that is being written (Replicache, Push Endpoint Reference, version 1). After an error nothing is known of
/// what was written.
#[derive(Drop)]
pub struct PushWriter<'i> {
    identity: &'i Identity,
    body: BodyText,
    // Whether a mutation stands in the body.
    any: bool,
}

impl<'i> PushWriter<'i> {
    /// A push of no mutations yet.
    pub fn new(alloc: Global, identity: &'i Identity) -> Result<PushWriter<'i>, AllocError>
        ensures { IfOk result (HasWritten identity.now []) }
    {
        let mut body = BodyText::new(alloc, BYTES_OF_REQUEST)?;
        push_head(&mut body, identity)?;
        Ok(PushWriter {
            identity,
            body,
            any: false,
        })
    }

    /// Appends a mutation behind those that the push has.
    pub fn add(&mut self, mutation: &Mutation) -> Result<(), AllocError>
        ensures { (i : Identified) (ms : List Mutated) → HasWritten i ms self.old
            → OnOk result (HasWritten i (ms ++ mutation.now ∷ []) self.new) }
    {
        self.body.reserve(room_for(mutation))?;
        push_comma(&mut self.body, self.any)?;
        self.any = true;
        push_mutation(&mut self.body, mutation)
    }

    /// The whole body: what `push_bytes` answers of the same mutations.
    pub fn into_bytes(self) -> Result<Vec<u8>, AllocError>
        ensures { (i : Identified) (ms : List Mutated) → HasWritten i ms self.entry
            → IfOk result (λ v. v.items ≡ push_text i ms) }
    {
        let PushWriter {
            identity,
            mut body,
            any: _,
        } = self;
        push_tail(&mut body, identity)?;
        Ok(body.into_bytes())
    }
}

/// A mutation as a push lists it, a JSON object (Replicache, Push Endpoint Reference, version 1).
pub fn mutation_bytes(alloc: Global, mutation: &Mutation) -> Result<Vec<u8>, AllocError>
    ensures { IfOk result (λ v. v.items ≡ mutation_text mutation.now) }
{
    let mut body = BodyText::new(alloc, room_for(mutation))?;
    push_mutation(&mut body, mutation)?;
    Ok(body.into_bytes())
}

// About how many bytes a mutation takes: room that is taken at once. What doesn't fit makes the body grow.
fn room_for(mutation: &Mutation) -> usize {
    let said = mutation.fields();
    BYTES_AROUND
        .saturating_add(said.args.text().len())
        .saturating_add(said.client.as_str().len())
        .saturating_add(said.name.as_str().len())
}

fn push_head(body: &mut BodyText, identity: &Identity) -> Result<(), AllocError>
    ensures { OnOk result (body.new ≡ body.old ++ head_text identity.now) }
{
    body.text_field(r#"{"clientGroupID":"#, identity.group.as_str())?;
    body.raw(r#","mutations":["#)
}

// What goes before one more mutation.
fn push_comma(body: &mut BodyText, any: bool) -> Result<(), AllocError>
    ensures { OnOk result (body.new ≡ body.old ++ comma_text any) }
{
    if any { body.raw(",") } else { Ok(()) }
}

fn push_mutation(body: &mut BodyText, mutation: &Mutation) -> Result<(), AllocError>
    ensures { OnOk result (body.new ≡ body.old ++ mutation_text mutation.now) }
{
    let said = mutation.fields();
    body.raw(r#"{"args":"#)?;
    body.raw(said.args.text())?;
    body.text_field(r#","clientID":"#, said.client.as_str())?;
    body.number_field(r#","id":"#, said.id)?;
    body.text_field(r#","name":"#, said.name.as_str())?;
    body.number_field(r#","timestamp":"#, said.timestamp)?;
    body.raw("}")
}

fn push_tail(body: &mut BodyText, identity: &Identity) -> Result<(), AllocError>
    ensures { OnOk result (body.new ≡ body.old ++ tail_text identity.now) }
{
    body.text_field(r#"],"profileID":"#, identity.profile.as_str())?;
    body.text_field(
        r#","pushVersion":1,"schemaVersion":"#,
        identity.schema.as_str(),
    )?;
    body.raw("}")
}
