//! The body of a pull: the cookie that the client has.
ghost use Rattle.std.specs.Prelude.{◌≡◌, ◌++◌, IfOk, OnOk, IsOkUnless};
ghost use Rattle.group_history.specs.declared.refusals.Refusal.TheVariants as refusal;
ghost use Rattle.push_body.specs.Bodies.{pull_text};

use crate::body::BodyText;
use crate::identities::Identity;
use group_history::{Cookie, Refusal};
use std::alloc::{AllocError, Global};

/// Bytes of a request beside its cookie, with an identity of usual length.
const BYTES_OF_REQUEST: usize = 256;

fn pull_all(body: &mut BodyText, identity: &Identity, cookie: &Cookie) -> Result<(), AllocError>
    ensures { OnOk result (body.new ≡ body.old ++ pull_text identity.now cookie.now) }
{
    body.text_field(r#"{"clientGroupID":"#, identity.group.as_str())?;
    body.raw(r#","cookie":"#)?;
    body.raw(cookie.text())?;
    body.text_field(r#","profileID":"#, identity.profile.as_str())?;
    body.text_field(
        r#","pullVersion":1,"schemaVersion":"#,
        identity.schema.as_str(),
    )?;
    body.raw("}")
}

fn pull_body(alloc: Global, identity: &Identity, cookie: &Cookie) -> Result<BodyText, AllocError>
    ensures { IfOk result (λ b. b ≡ pull_text identity.now cookie.now) }
{
    let mut body = BodyText::new(alloc, BYTES_OF_REQUEST.saturating_add(cookie.text().len()))?;
    pull_all(&mut body, identity, cookie)?;
    Ok(body)
}

/// The body of a pull from a cookie on (Replicache, Pull Endpoint Reference, version 1): compact JSON. Refused with
/// NoMemory alone.
pub fn pull_bytes(alloc: Global, identity: &Identity, cookie: &Cookie) -> Result<Vec<u8>, Refusal>
    ensures text { IfOk result (λ v. v.items ≡ pull_text identity.now cookie.now) }
    ensures err { IsOkUnless result refusal.NoMemory }
{
    Ok(pull_body(alloc, identity, cookie)?.into_bytes())
}
