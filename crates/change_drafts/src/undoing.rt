//! A view that can go back to the map that it showed first.
//!
//! What was at a key is noted before the key is written, the newest note last. The type's invariant is that the notes,
//! put back the newest first, make the map of the start again. A run of a mutator hands back the view alone, so that
//! map is named by the type: `K` stands for it.
ghost use Rattle.std.specs.Prelude.{◌≡◌, ◌⊎◌, [], ◌∷◌, ◌++◌, false, IfOk, IfErr, OnOk, OnErr};
ghost use Rattle.std.specs.Coded.{codes};
ghost use Rattle.std.specs.FinMap as finite;
ghost use Rattle.group_history.specs.declared.mutators.Stop.TheVariants.{NoMemory};
ghost use Rattle.group_history.specs.Map.{Entries};
ghost use Rattle.group_history.specs.State.{entries_coded};
ghost use Rattle.change_drafts.specs.Undoing.{undone, with_there};

use group_history::{Json, Ran, Scan, Stop, Text, Update, WriteView};
use std::alloc::{AllocError, Global};
use std::marker::{Brand, PhantomData};

/// Names the map at the start. A call picks it.
pub(crate) trait NamesMap {
    ghost start: { Entries };
}

impl NamesMap for Brand {
    ghost start = { finite.empty };
}

/// A view, and what the keys had that were written since the start, the newest last; none where a key wasn't there.
#[derive(Drop)]
pub(crate) struct Undoing<V: WriteView, K: NamesMap> {
    alloc: Global,
    view: V,
    before: Vec<(Text, Option<Json>)>,
    of: PhantomData<K>,
    ghost kept: { undone before.items (V.contents view) ≡ K.start } by { Prim.hlevel (codes, entries_coded) },
}

/// Adds a note of what was at a key.
pub(crate) fn add_note(
    before: &mut Vec<(Text, Option<Json>)>,
    key: Text,
    there: Option<Json>,
) -> Result<(), AllocError>
    ensures ok { OnOk result (before.new.items ≡ before.old.items ++ (key, there) ∷ []) }
    ensures err { OnErr result (before.new.items ≡ before.old.items) }
{
    before.push((key, there))?;
    Ok(())
}

// Puts back what was at a key.
fn put_back<V: WriteView>(view: &mut V, key: &Text, there: Option<Json>) -> Result<(), Stop>
    ensures ok { OnOk result (V.contents view.new ≡ with_there (V.contents view.old) key.now there) }
    ensures stopped { IfErr result V.stops }
{
    match there {
        Some(value) => view.put(key.as_str(), &value),
        None => view.del(key.as_str()),
    }
}

/// Puts back all that was noted, the newest note first.
pub(crate) fn put_all_back<V: WriteView + Drop>(
    view: V,
    before: Vec<(Text, Option<Json>)>,
) -> Result<V, Stop>
    ensures ok { IfOk result (λ left. V.contents left ≡ undone before.items (V.contents view)) }
    ensures stopped { IfErr result V.stops }
{
    let (mut view, mut before) = (view, before);
    while let Some((key, there)) = before.pop() {
        put_back(&mut view, &key, there)?;
    }
    Ok(view)
}

impl<V: WriteView + Drop, K: NamesMap> Undoing<V, K> {
    pub(crate) fn new(alloc: Global, view: V) -> Undoing<V, K>
        requires { V.contents view ≡ K.start }
        ensures { result.view ≡ view }
    {
        Undoing {
            alloc,
            view,
            before: Vec::new(alloc),
            of: PhantomData,
        }
    }

    // Notes what is at a key.
    fn note(&mut self, key: &str) -> Result<(), Stop>
        ensures noted { OnOk result (self.new.before.items ≡ self.old.before.items
            ++ (key.now, finite.get (V.contents self.old.view) key.now) ∷ []) }
        ensures same { V.contents self.new.view ≡ V.contents self.old.view }
        ensures stopped { IfErr result (λ stop. (stop ≡ NoMemory) ⊎ V.stops stop) }
    {
        let there = self.view.get(key)?;
        let key = Text::new(self.alloc, key)?;
        Ok(add_note(&mut self.before, key, there)?)
    }

    /// Whether anything was noted.
    pub(crate) fn has_notes(&self) -> bool
        ensures { result ≡ false → self.now.before.items ≡ [] }
    {
        !self.before.is_empty()
    }

    /// The view as it is.
    pub(crate) fn into_view(self) -> V
        ensures { result ≡ self.view }
    {
        let Undoing {
            alloc: _,
            view,
            before: _,
            of: _,
        } = self;
        view
    }

    /// The view, with the map of the start again.
    pub(crate) fn undo(self) -> Result<V, Stop>
        ensures ok { IfOk result (λ view. V.contents view ≡ K.start) }
        ensures stopped { IfErr result V.stops }
    {
        let Undoing {
            alloc: _,
            view,
            before,
            of: _,
        } = self;
        put_all_back(view, before)
    }
}

impl<V: WriteView + Drop, K: NamesMap> WriteView for Undoing<V, K> {
    ghost contents = { λ u. V.contents u.view };

    ghost stops = { λ stop. (stop ≡ NoMemory) ⊎ V.stops stop };

    fn get(&mut self, key: &str) -> Result<Option<Json>, Stop> {
        self.view.get(key)
    }

    fn has(&mut self, key: &str) -> Result<bool, Stop> {
        self.view.has(key)
    }

    fn scan(&mut self, scan: &Scan) -> Result<Vec<(Text, Json)>, Stop> {
        self.view.scan(scan)
    }

    fn put(&mut self, key: &str, value: &Json) -> Result<(), Stop> {
        self.note(key)?;
        self.view.put(key, value)
    }

    fn del(&mut self, key: &str) -> Result<(), Stop> {
        self.note(key)?;
        self.view.del(key)
    }

    fn update<F: FnOnce(Option<Json>) -> Result<Update, Stop>>(
        &mut self,
        key: &str,
        change: F,
    ) -> Result<Ran, Stop> {
        self.note(key)?;
        self.view.update(key, change)
    }
}
