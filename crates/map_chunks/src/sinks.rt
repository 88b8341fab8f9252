//! What the rows of a scan are given to.
//!
//! A scan visits its rows where they lie, and hands each to a sink by reference. What a sink keeps of them
//! is its own: the rows themselves, a text of them, or a sum.
ghost use Rattle.std.specs.Prelude.{◌≡◌, [], ◌∷◌, OnErr, OnOk};
ghost use Rattle.group_history.specs.Rows.{Rows};
ghost use Rattle.map_chunks.specs.Sinks.{HasMore, HasStill};

use group_history::{Json, Text};
use std::alloc::AllocError;

/// Takes rows, one behind another, each by reference. It copies what it keeps.
pub trait TakesRows {
    /// What a sink is that has these rows.
    ghost has: { Self → Rows → Type 0 };

    /// Takes a row behind those that it has. Stops for want of memory, and has then the rows that it had.
    fn take(&mut self, key: &Text, value: &Json) -> Result<(), AllocError>
        ensures more { OnOk result (HasMore has self.old self.new ((key.now, value.now) ∷ [])) }
        ensures still { OnErr result (HasStill has self.old self.new) };
}

/// The rows themselves, copied.
impl TakesRows for Vec<(Text, Json)> {
    ghost has = { λ rows taken. rows.items ≡ taken };

    fn take(&mut self, key: &Text, value: &Json) -> Result<(), AllocError> {
        let key = key.clone()?;
        let value = value.clone()?;
        self.push((key, value))?;
        Ok(())
    }
}
