//! Whose requests these are.
ghost use Rattle.std.specs.Prelude.{◌≡◌, IfOk};

use group_history::Text;
use std::alloc::{AllocError, Global};

/// What every request of a client group bears (Push and Pull Endpoint Reference: `clientGroupID`, `profileID`,
/// `schemaVersion`). Any text serves: it is escaped as a JSON text.
#[derive(Clone)]
pub struct Identity {
    /// The client group's ID.
    pub group: Text,
    /// The profile's ID.
    pub profile: Text,
    /// The version of the application's schema.
    pub schema: Text,
}

impl Drop for Identity {
    fn drop(self) {
        let Identity {
            group,
            profile,
            schema,
        } = self;
        drop(group);
        drop(profile);
        drop(schema);
    }
}

impl Identity {
    /// An identity of these three texts. Only want of memory refuses it.
    pub fn new(
        alloc: Global,
        group: &str,
        profile: &str,
        schema: &str,
    ) -> Result<Identity, AllocError>
        ensures { IfOk result (λ made. made
            ≡ record { group = group.now; profile = profile.now; schema = schema.now }) }
    {
        let group = Text::new(alloc, group)?;
        let profile = Text::new(alloc, profile)?;
        let schema = Text::new(alloc, schema)?;
        Ok(Identity {
            group,
            profile,
            schema,
        })
    }
}
