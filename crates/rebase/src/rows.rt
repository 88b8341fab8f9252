//! Rows that a watch answered, which it shares with whoever was told them.
ghost use Rattle.std.specs.Cmp as laws;
ghost use Rattle.std.specs.Prelude.{◌≡◌, IfOk};
ghost use Rattle.rebase.specs.Watching.{same_rows, same_rows-equiv};

use group_history::{Json, Text};
use std::alloc::{AllocError, Global};
use std::marker::Model;
use std::sync::Arc;

/// Rows that were answered, in the order of their keys. They are shared: a clone copies none.
#[derive(Drop)]
pub struct Rows {
    shared: Arc<Vec<(Text, Json)>, Global>,
}

impl Model for Rows {
    ghost use Rattle.std.specs.Prelude.{List};
    ghost use Rattle.std.specs.Arc.{arc_value};
    ghost use Rattle.group_history.specs.Map.{Bytes};

    ghost Value = { List (Bytes × Bytes) };

    ghost view = { λ rows. (arc_value rows.shared).items };
}

impl Rows {
    /// The rows, from now on shared; none is copied.
    pub fn new(alloc: Global, rows: Vec<(Text, Json)>) -> Result<Rows, AllocError>
        ensures { IfOk result (λ shared. shared ≡ rows.items) }
    {
        let shared = Arc::new(alloc, rows)?;
        Ok(Rows { shared })
    }

    /// The rows, in the order of their keys.
    pub fn as_slice(&self) -> &[(Text, Json)]
        ensures { result.now ≡ self.now }
    {
        self.shared.as_slice()
    }
}

impl Clone for Rows {
    ghost is_clone = { λ rows copy. copy ≡ rows };

    fn clone(&self) -> Result<Rows, AllocError> {
        let shared = Arc::try_clone(&self.shared)?;
        Ok(Rows { shared })
    }
}

/// They are equal where their keys and the compact texts of their values are.
impl PartialEq for Rows {
    ghost eq = { same_rows };

    ghost laws = { laws.partial_equiv_from_equiv same_rows-equiv };

    fn eq(&self, other: &Self) -> bool {
        *self.shared == *other.shared
    }
}
