//! Scans of placed chunks.
//!
//! A scan goes down once to the lowest key that it may have, and from there along the leaves. It ends at
//! its limit, or at a key behind which none begins with the prefix. A chunk is shown while the chunks
//! below it are scanned, so at most as many are shown at a time as the map is deep. Each row goes to a
//! sink by reference. The keys that are in a scan stand together: so where the first and the last key of a
//! leaf are in it, no other of its keys is looked at.
ghost use Rattle.std.specs.Prelude.{◌≡◌, ◌⊎◌, ◌<◌, ◌≤◌, length, T, true, false, take, drop, ◌∷◌, [], IfErr};
ghost use Rattle.group_history.specs.Naming.{chunk_children};
ghost use Rattle.group_history.specs.Refs.{stamp_of};
ghost use Rattle.group_history.specs.Rows.{Rows, rises, paired};
ghost use Rattle.group_history.specs.Scans.{limited};
ghost use Rattle.group_history.specs.declared.mutators.Stop.TheVariants.{NoMemory};
ghost use Rattle.map_chunks.specs.Places.{Grows, AreAll};
ghost use Rattle.map_chunks.specs.Shown.{chunk_rows, IsTree, rows_or};
ghost use Rattle.map_chunks.specs.Scanning as scans;
ghost use Rattle.map_chunks.specs.Scanning.{scanned, taken, left, Gave, IsLow};
ghost use Rattle.map_chunks.specs.Inside.Scanning as inside;
ghost use Rattle.map_chunks.specs.Inside.Scanning.{children_rows, opened_rows, CanTake, AreIn};

use crate::chunks::{Chunks, ShowsChunk};
use crate::search::place_of;
use crate::sinks::TakesRows;
use group_history::{Chunk, Json, Ref, Scan, Start, Stop, Text};
use std::alloc::AllocError;

// Children of a chunk, and their first keys.
#[derive(Clone, Copy)]
pub(crate) struct Below<'a> {
    pub(crate) firsts: &'a [Text],
    pub(crate) children: &'a [Ref],
}

/// A key below which the scan has none.
pub fn lowest(scan: &Scan) -> &Text
    ensures { IsLow scan.now result.now }
{
    match &scan.start {
        Start::Any => &scan.prefix,
        Start::At(start) => greater(start, &scan.prefix),
        Start::After(start) => greater(start, &scan.prefix),
    }
}

fn greater<'a>(x: &'a Text, y: &'a Text) -> &'a Text
    ensures { result.now ≡ inside.greater x.now y.now }
{
    if x.cmp(y).is_gt() { x } else { y }
}

/// Whether nothing from this key on is taken, where there is so much room.
pub fn is_over(scan: &Scan, room: Option<u64>, key: &Text) -> bool
    ensures { result ≡ scans.is_over scan.now room key.now }
{
    is_full(room) || is_past(scan, key)
}

fn is_full(room: Option<u64>) -> bool
    ensures { result ≡ scans.is_full room }
{
    match room {
        None => false,
        Some(room) => room == 0,
    }
}

fn is_past(scan: &Scan, key: &Text) -> bool
    ensures { result ≡ scans.is_past scan.now key.now }
{
    let key = key.as_str();
    let prefix = scan.prefix.as_str();
    !key.as_bytes().starts_with(prefix.as_bytes()) && key.cmp(prefix).is_gt()
}

// The room that is left where so many rows were taken.
fn lessened(room: Option<u64>, taken: usize) -> Option<u64>
    requires { CanTake room taken }
    ensures { result ≡ left room taken }
{
    match room {
        None => None,
        Some(room) => Some(room - taken as u64),
    }
}

// How many of so many rows there is room for.
fn fitting(room: Option<u64>, rows: usize) -> usize
    ensures few { result ≤ rows }
    ensures room { CanTake room result }
    ensures all { (xs : Rows) → length xs ≡ rows → limited room xs ≡ take result xs }
{
    match room {
        None => rows,
        Some(room) => {
            if room < rows as u64 {
                return room as usize;
            }
            return rows;
        }
    }
}

// Takes the row, if its key is in the scan.
fn take_row<S: TakesRows>(
    scan: &Scan,
    key: &Text,
    value: &Json,
    room: Option<u64>,
    sink: &mut S,
) -> Result<Option<u64>, AllocError>
    requires { scans.is_full room ≡ false }
    ensures { Gave S.has sink.old sink.new room result (taken scan.now room ((key.now, value.now) ∷ [])) }
{
    if !scan.has(key) {
        return Ok(room);
    }
    sink.take(key, value)?;
    Ok(lessened(room, 1))
}

// Takes the scan's rows of a leaf, each by its key.
fn take_rows<S: TakesRows>(
    keys: &[Text],
    values: &[Json],
    scan: &Scan,
    room: Option<u64>,
    sink: &mut S,
) -> Result<Option<u64>, AllocError>
    requires order { T (rises keys.now) }
    requires values { length values.now ≡ length keys.now }
    ensures { Gave S.has sink.old sink.new room result (taken scan.now room (paired keys.now values.now)) }
{
    let mut left = room;
    for place in 0..keys.len() {
        if is_over(scan, left, &keys[place]) {
            return Ok(left);
        }
        left = take_row(scan, &keys[place], &values[place], left, sink)?;
    }
    Ok(left)
}

// Takes as many rows as there is room for.
fn take_all<S: TakesRows>(
    keys: &[Text],
    values: &[Json],
    room: Option<u64>,
    sink: &mut S,
) -> Result<Option<u64>, AllocError>
    requires { length values.now ≡ length keys.now }
    ensures { Gave S.has sink.old sink.new room result (limited room (paired keys.now values.now)) }
{
    let end = fitting(room, keys.len());
    for place in 0..end {
        sink.take(&keys[place], &values[place])?;
    }
    Ok(lessened(room, end))
}

// Whether the scan has the first key from this place on, and the last one: then it has each between them.
fn has_ends(scan: &Scan, keys: &[Text], first: usize) -> bool
    requires order { T (rises keys.now) }
    requires first { first < length keys.now }
    ensures { result ≡ true → AreIn scan.now (drop first keys.now) }
{
    scan.has(&keys[first]) && scan.has(&keys[keys.len() - 1])
}

/// Takes the scan's rows of a leaf, and answers the room that is left. Where that stops the sink has a
/// beginning of these rows.
pub fn scan_rows<S: TakesRows>(
    keys: &[Text],
    values: &[Json],
    scan: &Scan,
    room: Option<u64>,
    sink: &mut S,
) -> Result<Option<u64>, AllocError>
    requires order { T (rises keys.now) }
    requires values { length values.now ≡ length keys.now }
    ensures { Gave S.has sink.old sink.new room result (taken scan.now room (paired keys.now values.now)) }
{
    if keys.is_empty() {
        return Ok(room);
    }
    let first = place_of(keys, lowest(scan).as_str());
    if has_ends(scan, keys, first) {
        return take_all(&keys[first..], &values[first..], room, sink);
    }
    take_rows(&keys[first..], &values[first..], scan, room, sink)
}

/// Takes the scan's rows of the chunk, and answers the room that is left. Stops for want of memory, or as
/// the store does; the sink has then a beginning of these rows.
#[cycle(placed)]
pub fn scan_placed<C: Chunks, S: TakesRows>(
    chunks: &mut C,
    at: Ref,
    scan: &Scan,
    room: Option<u64>,
    sink: &mut S,
) -> Result<Option<u64>, Stop>
    requires place { C.places chunks.old at }
    requires tree { IsTree (chunk_rows (C.contents chunks.old) (stamp_of at)) }
    ensures grown { Grows C.contents C.places chunks.old chunks.new }
    ensures rows { Gave S.has sink.old sink.new room result
        (taken scan.now room (rows_or (chunk_rows (C.contents chunks.old) (stamp_of at)))) }
    ensures stopped { IfErr result (λ s. (s ≡ NoMemory) ⊎ C.stops s) }
{
    let held = chunks.show(at)?;
    let answer = scan_chunk(chunks, held.chunk(), scan, room, sink);
    chunks.leave(held);
    answer
}

#[cycle(placed)]
fn scan_chunk<C: Chunks, S: TakesRows>(
    chunks: &mut C,
    chunk: &Chunk<Ref>,
    scan: &Scan,
    room: Option<u64>,
    sink: &mut S,
) -> Result<Option<u64>, Stop>
    requires places { AreAll (C.places chunks.old) (chunk_children chunk.now) }
    requires tree { IsTree (opened_rows (C.contents chunks.old) chunk.now) }
    ensures grown { Grows C.contents C.places chunks.old chunks.new }
    ensures rows { Gave S.has sink.old sink.new room result
        (taken scan.now room (rows_or (opened_rows (C.contents chunks.old) chunk.now))) }
    ensures stopped { IfErr result (λ s. (s ≡ NoMemory) ⊎ C.stops s) }
{
    match chunk {
        Chunk::Leaf(leaf) => {
            let left = scan_rows(leaf.keys().as_slice(), leaf.values(), scan, room, sink)?;
            return Ok(left);
        }
        Chunk::Inner(inner) => {
            let below = Below {
                firsts: inner.firsts().as_slice(),
                children: inner.children(),
            };
            return scan_children(chunks, below, scan, room, sink);
        }
    }
}

#[cycle(placed)]
fn scan_children<C: Chunks, S: TakesRows>(
    chunks: &mut C,
    below: Below<'_>,
    scan: &Scan,
    room: Option<u64>,
    sink: &mut S,
) -> Result<Option<u64>, Stop>
    requires places { AreAll (C.places chunks.old) below.children.now }
    requires order { T (rises below.firsts.now) }
    requires children { length below.children.now ≡ length below.firsts.now }
    requires tree { IsTree (children_rows (C.contents chunks.old) (paired below.firsts.now below.children.now)) }
    ensures grown { Grows C.contents C.places chunks.old chunks.new }
    ensures rows { Gave S.has sink.old sink.new room result
        (taken scan.now room (rows_or (children_rows (C.contents chunks.old)
        (paired below.entry.firsts.now below.entry.children.now)))) }
    ensures stopped { IfErr result (λ s. (s ≡ NoMemory) ⊎ C.stops s) }
{
    if below.firsts.is_empty() {
        return Ok(room);
    }
    let mut left = room;
    for place in place_of(below.firsts, lowest(scan).as_str())..below.firsts.len() {
        if is_over(scan, left, &below.firsts[place]) {
            return Ok(left);
        }
        left = scan_placed(chunks, below.children[place], scan, left, sink)?;
    }
    Ok(left)
}
