//! What a pull's response says, and how its end is answered.
ghost use Rattle.std.specs.Prelude.{◌≡◌};

use crate::cookies::Cookie;
use crate::json::Json;
use crate::texts::Text;
use std::fmt;
use std::marker::Model;

/// One operation on the pulled map (Pull Endpoint Reference, "patch").
#[derive(Drop)]
pub enum Patch {
    /// The key has the value.
    Put(Text, Json),
    /// The key is not there, whether or not it was.
    Del(Text),
    /// The map is empty.
    Clear,
}

/// Up to which id a client's mutations are confirmed (Pull Endpoint Reference, "lastMutationIDChanges").
pub struct Confirmed {
    /// The client's ID.
    pub client: Text,
    /// From 0 to 2^52.
    pub id: u64,
}

impl Drop for Confirmed {
    fn drop(self) {
        let Confirmed { client, id: _ } = self;
        drop(client);
    }
}

/// A response without an error. Each of its ids is from 0 to 2^52.
pub struct PullOk {
    cookie: Cookie,
    changes: Vec<Confirmed>,
    patch: Vec<Patch>,
}

impl Drop for PullOk {
    fn drop(self) {
        let PullOk {
            cookie,
            changes,
            patch,
        } = self;
        drop(cookie);
        drop(changes);
        drop(patch);
    }
}

impl Model for PullOk {
    ghost use Rattle.group_history.specs.Pull.{Pull, AreInRange};

    ghost Value = { Pull };

    ghost view = { λ p. record { cookie = p.cookie; changes = p.changes.items; patch = p.patch.items } };

    ghost invariant = { λ p. AreInRange p.changes.items };
}

impl PullOk {
    ghost use Rattle.group_history.specs.Pull.{AreInRange};

    /// The response that has these. Each id of the changes is from 0 to 2^52.
    pub fn new(cookie: Cookie, changes: Vec<Confirmed>, patch: Vec<Patch>) -> PullOk
        requires { AreInRange changes.items }
        ensures { result ≡ record { cookie = cookie; changes = changes.items; patch = patch.items } }
    {
        PullOk {
            cookie,
            changes,
            patch,
        }
    }

    /// The cookie that the group has once the response is applied.
    pub fn cookie(&self) -> &Cookie
        ensures { result.now ≡ self.now.cookie }
    {
        &self.cookie
    }

    /// The confirmed ids that it names, in order; of two for one client the last counts.
    pub fn changes(&self) -> &[Confirmed]
        ensures changes { result.now ≡ self.now.changes }
        ensures in_range { AreInRange result.now }
    {
        &self.changes
    }

    /// The operations on the pulled map, to be done in order.
    pub fn patch(&self) -> &[Patch]
        ensures { result.now ≡ self.now.patch }
    {
        &self.patch
    }
}

/// Which version the server doesn't support.
#[derive(Clone, Copy, Debug, PartialEq, Eq)]
pub enum VersionKind {
    /// The request's `pushVersion`.
    Push,
    /// The request's `pullVersion`.
    Pull,
    /// The request's `schemaVersion`.
    Schema,
    /// The response doesn't say, or says something else.
    Unknown,
}

impl fmt::Display for VersionKind {
    ghost use Rattle.std.specs.Prelude.{Some};
    ghost use Rattle.group_history.specs.Pull.{kind_text};

    ghost output = { λ kind. Some (kind_text kind) };

    fn fmt<W: fmt::Write>(&self, f: &mut fmt::Formatter<W>) -> fmt::Result {
        f.write_str(match self {
            VersionKind::Push => "push",
            VersionKind::Pull => "pull",
            VersionKind::Schema => "schema",
            VersionKind::Unknown => "unknown",
        })
    }
}

/// A response to a pull (Pull Endpoint Reference, version 1).
#[derive(Drop)]
pub enum Response {
    /// A response without an error.
    Ok(PullOk),
    /// The server doesn't know the client group, which is closed by this.
    StateNotFound,
    /// The server doesn't support this version. Nothing is changed.
    VersionNotSupported(VersionKind),
}

/// How an end of a pull was answered.
#[derive(Clone, Copy, Debug, PartialEq, Eq)]
pub enum Ended {
    /// The response's patch, cookie and ids are the group's now.
    Applied,
    /// The response says what the group has, and nothing else: nothing was changed.
    Same,
}
