//! Rows that are taken beside others, and copied from the first one on that differs.
ghost use Rattle.std.specs.Prelude.{◌≡◌, ◌<◌, ◌+◌, ◌++◌, ◌∷◌, [], length, take, drop, true, false, IfNone};
ghost use Rattle.std.specs.Prelude.{IfOk, IfSome, IsTrue, OnErr, OnOk};
ghost use Rattle.group_history.specs.Rows.{Rows};
ghost use Rattle.transactions.specs.Taking.{taken_rows};

use group_history::{Json, Text};
use map_tree::TakesRows;
use std::alloc::{AllocError, Global};
use std::marker::{Brand, PhantomData};

/// Rows that were taken.
#[derive(Drop)]
pub(crate) enum CollectedRows {
    /// The same as so many of the first ones before. None is copied.
    First(usize),
    Own(Vec<(Text, Json)>),
}

/// Names the rows of before. A call picks them.
pub(crate) trait PreviousRows {
    ghost rows: { Rows };
}

impl PreviousRows for Brand {
    ghost rows = { [] };
}

/// Takes rows beside those of before, which `B` names.
#[derive(Drop)]
pub(crate) struct RowDiff<'a, B: PreviousRows> {
    alloc: Global,
    before: &'a [(Text, Json)],
    taken: CollectedRows,
    of: PhantomData<B>,
    ghost named: { before.now ≡ B.rows },
}

impl<'a, B: PreviousRows> RowDiff<'a, B> {
    // No row was taken yet.
    pub(crate) fn new(alloc: Global, before: &'a [(Text, Json)]) -> RowDiff<'a, B>
        requires { before.now ≡ B.rows }
        ensures { ⟦<RowDiff<'a, B> as TakesRows>⟧.has result [] }
    {
        RowDiff {
            alloc,
            before,
            taken: CollectedRows::First(0),
            of: PhantomData,
        }
    }

    fn add(&mut self, key: &Text, value: &Json) -> Result<(), AllocError>
        ensures more { OnOk result (taken_rows B.rows self.new.taken
            ≡ taken_rows B.rows self.old.taken ++ (key.now, value.now) ∷ []) }
        ensures still { OnErr result (taken_rows B.rows self.new.taken ≡ taken_rows B.rows self.old.taken) }
    {
        match &mut self.taken {
            CollectedRows::Own(rows) => return add_row(rows, key, value),
            CollectedRows::First(count) => {
                if is_at(self.before, *count, key, value) {
                    *count += 1;
                    return Ok(());
                }
                let rows = first_and(self.alloc, self.before, *count, key, value)?;
                self.taken = CollectedRows::Own(rows);
                return Ok(());
            }
        }
    }

    // The rows of before.
    pub(crate) fn before(&self) -> &'a [(Text, Json)]
        ensures { result.now ≡ B.rows }
    {
        self.before
    }

    // How many rows were taken.
    pub(crate) fn count(&self) -> usize
        ensures { result ≡ length (taken_rows B.rows self.now.taken) }
    {
        match &self.taken {
            CollectedRows::First(count) => (*count).min(self.before.len()),
            CollectedRows::Own(rows) => rows.len(),
        }
    }

    // Takes so many of the rows of before, where all that were taken are those in front of them.
    fn pass_over(&mut self, from: usize, count: usize) -> bool
        ensures more { result ≡ true → taken_rows B.rows self.new.taken
            ≡ taken_rows B.rows self.old.taken ++ take count (drop from B.rows) }
        ensures still { result ≡ false → taken_rows B.rows self.new.taken ≡ taken_rows B.rows self.old.taken }
    {
        match &mut self.taken {
            CollectedRows::Own(_) => return false,
            CollectedRows::First(taken) => {
                if *taken != from || from > self.before.len() || count > self.before.len() - from {
                    return false;
                }
                *taken = from + count;
                return true;
            }
        }
    }

    // Takes so many of the rows of before, from a place on, or as many as there are.
    pub(crate) fn take_again(&mut self, from: usize, count: usize) -> Result<(), AllocError>
        ensures { OnOk result (taken_rows B.rows self.new.taken
            ≡ taken_rows B.rows self.old.taken ++ take count (drop from B.rows)) }
    {
        if self.pass_over(from, count) {
            return Ok(());
        }
        let before = self.before;
        for row in first(behind(before, from), count) {
            self.add(&row.0, &row.1)?;
        }
        Ok(())
    }

    // The rows that were taken, if they aren't those of before.
    pub(crate) fn into_others(self) -> Result<Option<Vec<(Text, Json)>>, AllocError>
        ensures others { (taken : Rows) → ⟦<RowDiff<'a, B> as TakesRows>⟧.has self.entry taken
            → IfOk result (λ found. IfSome found (λ rows. rows.items ≡ taken)) }
        ensures same { (taken : Rows) → ⟦<RowDiff<'a, B> as TakesRows>⟧.has self.entry taken
            → IfOk result (λ found. IfNone found (taken ≡ B.rows)) }
    {
        let RowDiff {
            alloc,
            before,
            taken,
            of: _,
        } = self;
        match taken {
            CollectedRows::Own(rows) => Ok(Some(rows)),
            CollectedRows::First(count) => first_unless_all(alloc, before, count),
        }
    }
}

impl<'a, B: PreviousRows> TakesRows for RowDiff<'a, B> {
    ghost has = { λ beside rows. taken_rows B.rows beside.taken ≡ rows };

    fn take(&mut self, key: &Text, value: &Json) -> Result<(), AllocError> {
        self.add(key, value)
    }
}

// Whether the row stands at the place.
fn is_at(rows: &[(Text, Json)], place: usize, key: &Text, value: &Json) -> bool
    ensures within { IsTrue result → place < length rows.now }
    ensures row { IsTrue result → take (place + 1) rows.now ≡ take place rows.now ++ (key.now, value.now) ∷ [] }
{
    if place >= rows.len() {
        return false;
    }
    let row = &rows[place];
    row.0 == *key && row.1 == *value
}

fn add_row(rows: &mut Vec<(Text, Json)>, key: &Text, value: &Json) -> Result<(), AllocError>
    ensures more { OnOk result (rows.new.items ≡ rows.old.items ++ (key.now, value.now) ∷ []) }
    ensures still { OnErr result (rows.new.items ≡ rows.old.items) }
{
    let key = key.clone()?;
    let value = value.clone()?;
    rows.push((key, value))?;
    Ok(())
}

fn copied(alloc: Global, rows: &[(Text, Json)]) -> Result<Vec<(Text, Json)>, AllocError>
    ensures { IfOk result (λ copy. copy.items ≡ rows.now) }
{
    let mut copy = Vec::new(alloc);
    for row in rows {
        add_row(&mut copy, &row.0, &row.1)?;
    }
    Ok(copy)
}

// So many of the first rows, or all.
fn first(rows: &[(Text, Json)], count: usize) -> &[(Text, Json)]
    ensures { result.now ≡ take count rows.now }
{
    if count < rows.len() {
        return &rows[..count];
    }
    rows
}

// The rows behind so many, or none.
fn behind(rows: &[(Text, Json)], count: usize) -> &[(Text, Json)]
    ensures { result.now ≡ drop count rows.now }
{
    if count < rows.len() {
        return &rows[count..];
    }
    &[]
}

// So many of the first rows, and one more.
fn first_and(
    alloc: Global,
    rows: &[(Text, Json)],
    count: usize,
    key: &Text,
    value: &Json,
) -> Result<Vec<(Text, Json)>, AllocError>
    ensures { IfOk result (λ copy. copy.items ≡ take count rows.now ++ (key.now, value.now) ∷ []) }
{
    let mut copy = copied(alloc, first(rows, count))?;
    add_row(&mut copy, key, value)?;
    Ok(copy)
}

// So many of the first rows, if they aren't all.
fn first_unless_all(
    alloc: Global,
    rows: &[(Text, Json)],
    count: usize,
) -> Result<Option<Vec<(Text, Json)>>, AllocError>
    ensures some { IfOk result (λ found. IfSome found (λ copy. copy.items ≡ take count rows.now)) }
    ensures all { IfOk result (λ found. IfNone found (take count rows.now ≡ rows.now)) }
{
    if count == rows.len() {
        return Ok(None);
    }
    let copy = copied(alloc, first(rows, count))?;
    Ok(Some(copy))
}
