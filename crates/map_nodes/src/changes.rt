//! What is put at a key.
ghost use Rattle.std.specs.Prelude.{◌≡◌, ◌⊎◌, Ok, Err, IfOk, IfErr, option_copied};
ghost use Rattle.group_history.specs.declared.mutators.Stop.TheVariants.{NoMemory};
ghost use Rattle.map_nodes.specs.Changes.{CanMake, Makes};

use group_history::{Json, Stop, Update};
use std::alloc::AllocError;

/// What is put at a key: what a closure makes of the value there (none where the key isn't there), or a value.
#[derive(Drop)]
pub enum ValueChange<F> {
    Ask(F),
    Value(Json),
}

impl<F: FnOnce(Option<Json>) -> Result<Update, Stop>> ValueChange<F> {
    /// What it makes of this value. Stops for want of memory, or as the closure does.
    pub(crate) fn of(self, there: Option<&Json>) -> Result<Update, Stop>
        requires callable { CanMake (λ f. F.IsAlwaysCallable f) self }
        ensures made { IfOk result (λ u. Makes (λ f x r. F.post f x r) self (option_copied there.entry) (Ok u)) }
        ensures stopped { IfErr result (λ e. (e ≡ NoMemory)
            ⊎ Makes (λ f x r. F.post f x r) self (option_copied there.entry) (Err e)) }
    {
        match self {
            ValueChange::Value(value) => Ok(Update::Put(value)),
            ValueChange::Ask(ask) => {
                let there = copied(there)?;
                ask(there)
            }
        }
    }
}

fn copied(value: Option<&Json>) -> Result<Option<Json>, AllocError>
    ensures { IfOk result (λ copy. copy ≡ option_copied value.entry) }
{
    match value {
        Some(value) => Ok(Some(value.clone()?)),
        None => Ok(None),
    }
}
