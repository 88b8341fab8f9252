//! The keys of a draft's chunk, to be shared from now on.
ghost use Rattle.std.specs.Prelude.{◌≡◌, IfOk};
ghost use Rattle.std.specs.Arc.{arc_value};
ghost use Rattle.group_history.specs.Rows.{AreKeys};

use super::{NodeKeys, Texts};
use group_history::{Keys, Text};
use std::alloc::{AllocError, Global};
use std::sync::Arc;

impl NodeKeys {
    /// The list that is shared already, or the chunk's own.
    pub fn into_keys(self, alloc: Global) -> Result<Arc<Keys>, AllocError>
        requires { AreKeys self.texts }
        ensures { IfOk result (λ keys. arc_value keys ≡ self.texts) }
    {
        match self.texts {
            Texts::Shared(keys) => Ok(keys),
            Texts::Own(texts) => shared(alloc, texts),
        }
    }
}

// Makes the list one that is shared. Room for its keys is made here alone.
fn shared(alloc: Global, texts: Vec<Text>) -> Result<Arc<Keys>, AllocError>
    requires { AreKeys texts.items }
    ensures { IfOk result (λ keys. arc_value keys ≡ texts.items) }
{
    Ok(Arc::new(alloc, Keys::new(texts))?)
}
