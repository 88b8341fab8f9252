//! The body of a push: all that is pending, in order.
ghost use Rattle.std.specs.Prelude.{◌≡◌, IfOk, IsOkUnless};
ghost use Rattle.group_history.specs.declared.refusals.Refusal.TheVariants as refusal;
ghost use Rattle.push_body.specs.Bodies.{push_text};
ghost use Rattle.push_body.specs.Written.{HasWritten};

use crate::identities::Identity;
use crate::writer::PushWriter;
use group_history::{Mutation, Refusal};
use std::alloc::{AllocError, Global};

fn written<'i>(
    alloc: Global,
    identity: &'i Identity,
    pending: &[Mutation],
) -> Result<PushWriter<'i>, AllocError>
    ensures { IfOk result (HasWritten identity.now pending.now) }
{
    let mut writer = PushWriter::new(alloc, identity)?;
    for mutation in pending {
        writer.add(mutation)?;
    }
    Ok(writer)
}

/// The body of a push of all pending mutations, the oldest first (Replicache, Push Endpoint Reference, version 1):
/// compact JSON, also where there are none. Refused with NoMemory alone.
pub fn push_bytes(
    alloc: Global,
    identity: &Identity,
    pending: &[Mutation],
) -> Result<Vec<u8>, Refusal>
    ensures text { IfOk result (λ v. v.items ≡ push_text identity.now pending.now) }
    ensures err { IsOkUnless result refusal.NoMemory }
{
    let writer = written(alloc, identity, pending)?;
    Ok(writer.into_bytes()?)
}
