//! A `Json` of a text that is known to be compact.
ghost use Rattle.std.specs.Prelude.{◌≡◌, IfOk, Ok};
ghost use Rattle.group_history.specs.Json.{json_text};

use super::Json;
use crate::texts::Text;
use std::alloc::{AllocError, Global};

impl Json {
    /// A copy of a text that is its own compact text. The text isn't read for this.
    pub fn of_compact(alloc: Global, text: &str) -> Result<Json, AllocError>
        requires { json_text text.now ≡ Ok text.now }
        ensures { IfOk result (λ j. j ≡ text.now) }
    {
        let compact = Text::new(alloc, text)?;
        Ok(Json { compact })
    }
}
