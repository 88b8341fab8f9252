//! A map as a view, over a tree in memory.
ghost use Rattle.std.specs.Prelude.{◌≡◌};
ghost use Rattle.group_history.specs.declared.mutators.Stop.TheVariants.{NoMemory};

use crate::json::Json;
use crate::mutations::Mutation;
use crate::mutators::{Mutators, Ran, Stop, Update, WriteView};
use crate::scans::Scan;
use crate::text_map::TextMap;
use crate::texts::Text;
use std::alloc::Global;

#[derive(Drop)]
pub(crate) struct PlainView {
    pub(crate) alloc: Global,
    pub(crate) map: TextMap<Json>,
}

impl PlainView {
    ghost use Rattle.std.specs.Prelude.{IfOk, IfErr};
    ghost use Rattle.group_history.specs.Meaning.{meaning_of};
    ghost use Rattle.group_history.specs.Ran.{RunsAs};

    /// Runs a mutation's mutator on the map, for the mutation's reason.
    pub(crate) fn run<M: Mutators>(
        &mut self,
        mutators: &M,
        mutation: &Mutation,
    ) -> Result<Ran, Stop>
        ensures ran { IfOk result (λ ran. RunsAs (meaning_of M.means mutation.now self.old.map) ran self.new.map) }
        ensures stopped { IfErr result (λ stop. stop ≡ NoMemory) }
    {
        let name = mutation.fields().name.as_str();
        mutators.run(
            self.alloc,
            name,
            &mutation.fields().args,
            mutation.fields().reason,
            self,
        )
    }
}

impl WriteView for PlainView {
    ghost contents = { λ v. v.map };

    ghost stops = { λ stop. stop ≡ NoMemory };

    fn get(&mut self, key: &str) -> Result<Option<Json>, Stop> {
        let key = Text::new(self.alloc, key)?;
        match self.map.get(&key) {
            Some(value) => Ok(Some(value.clone()?)),
            None => Ok(None),
        }
    }

    fn has(&mut self, key: &str) -> Result<bool, Stop> {
        let key = Text::new(self.alloc, key)?;
        Ok(self.map.has(&key))
    }

    fn scan(&mut self, scan: &Scan) -> Result<Vec<(Text, Json)>, Stop> {
        Ok(self.map.rows(self.alloc, scan)?)
    }

    fn put(&mut self, key: &str, value: &Json) -> Result<(), Stop> {
        let key = Text::new(self.alloc, key)?;
        let value = value.clone()?;
        self.map.insert(key, value)?;
        Ok(())
    }

    fn del(&mut self, key: &str) -> Result<(), Stop> {
        let key = Text::new(self.alloc, key)?;
        self.map.remove(&key);
        Ok(())
    }

    fn update<F: FnOnce(Option<Json>) -> Result<Update, Stop>>(
        &mut self,
        key: &str,
        change: F,
    ) -> Result<Ran, Stop> {
        match change(self.get(key)?)? {
            Update::Put(value) => {
                self.put(key, &value)?;
                Ok(Ran::Done)
            }
            Update::Refuse(code) => Ok(Ran::Refused(code)),
        }
    }
}
