//! Scans that are made again: only chunks that are new are read.
//!
//! Of a chunk that the scan met before, its rows are among those of before, and its span says which they are. So they
//! are taken from there, and neither the chunk nor one below it is shown. A chunk whose span isn't found is shown, and
//! its rows or the chunks below it are taken as a scan takes them.
//!
//! Where the scan's limit is reached within a chunk, its span is of the first rows that the scan has of it, and so are
//! those of the chunks above. Such a chunk is taken from before where there is room for no more rows than these. Where
//! there is room for more, since rows in front of them went away, it is shown: rows enter that were never told. And of
//! a chunk that has more rows than there is room for the first ones are taken from before.
ghost use Rattle.std.specs.Prelude.{◌≡◌, ◌⊎◌, length, T, IfErr, IfOk, OnOk};
ghost use mathlib.Core.List.{IsPrefix};
ghost use Rattle.group_history.specs.Refs.{stamp_of};
ghost use Rattle.group_history.specs.Rows.{rises, paired};
ghost use Rattle.group_history.specs.Spelling.{Contents};
ghost use Rattle.group_history.specs.declared.mutators.Stop.TheVariants.{NoMemory};
ghost use Rattle.map_chunks.specs.Inside.Scanning.{children_rows};
ghost use Rattle.map_chunks.specs.Places.{Grows, AreAll, IsShown};
ghost use Rattle.map_chunks.specs.Scanning.{taken};
ghost use Rattle.map_chunks.specs.Shown.{chunk_rows, IsTree, rows_or};
ghost use Rattle.transactions.specs.Rescans.{IsRescanned, TakesMore};
ghost use Rattle.transactions.specs.Spans.{AreSpans};

use crate::beside::PreviousRows;
use crate::rescan::Rescan;
use crate::spans::{Span, Spans};
use group_history::{Chunk, Json, Ref, Scan, Stop, Text};
use map_chunks::scanning::{is_over, lowest};
use map_chunks::search::place_of as child_of;
use map_chunks::{Chunks, ShowsChunk};
use std::alloc::Global;
use std::marker::Brand;

/// The rows that a scan found before, and spans that are known of them.
#[derive(Clone, Copy)]
pub(crate) struct Before<'a> {
    pub(crate) rows: &'a [(Text, Json)],
    pub(crate) spans: &'a Spans,
}

/// What a scan that is made again finds: its rows, if they are others than those of before, and their spans.
#[derive(Drop)]
pub struct Rescanned {
    pub others: Option<Vec<(Text, Json)>>,
    pub spans: Spans,
}

/// What is scanned again: a scan, of which these spans are known.
#[derive(Clone, Copy)]
struct KnownScan<'a> {
    scan: &'a Scan,
    known: &'a [Span],
}

/// Takes the scan's rows of the chunk beside those of before. Stops for want of memory, or as the store does.
pub(crate) fn scan_again<C: Chunks>(
    alloc: Global,
    chunks: &mut C,
    at: Ref,
    scan: &Scan,
    before: Before<'_>,
) -> Result<Rescanned, Stop>
    requires place { C.places chunks.old at }
    requires tree { IsTree (chunk_rows (C.contents chunks.old) (stamp_of at)) }
    ensures grown { Grows C.contents C.places chunks.old chunks.new }
    ensures found { IfOk result (λ found. (all : Contents) → IsPrefix (C.contents chunks.old) all
        → AreSpans scan.now all before.entry.rows.now before.entry.spans.now
        → IsRescanned scan.now all before.entry.rows.now
        (taken scan.now scan.now.limit (rows_or (chunk_rows (C.contents chunks.old) (stamp_of at)))) found) }
    ensures stopped { IfErr result (λ s. (s ≡ NoMemory) ⊎ C.stops s) }
{
    scan_beside::<Brand, C>(alloc, chunks, at, scan, before)
}

fn scan_beside<B: PreviousRows, C: Chunks>(
    alloc: Global,
    chunks: &mut C,
    at: Ref,
    scan: &Scan,
    before: Before<'_>,
) -> Result<Rescanned, Stop>
    requires before { before.rows.now ≡ B.rows }
    requires place { C.places chunks.old at }
    requires tree { IsTree (chunk_rows (C.contents chunks.old) (stamp_of at)) }
    ensures grown { Grows C.contents C.places chunks.old chunks.new }
    ensures found { IfOk result (λ found. (all : Contents) → IsPrefix (C.contents chunks.old) all
        → AreSpans scan.now all before.entry.rows.now before.entry.spans.now
        → IsRescanned scan.now all before.entry.rows.now
        (taken scan.now scan.now.limit (rows_or (chunk_rows (C.contents chunks.old) (stamp_of at)))) found) }
    ensures stopped { IfErr result (λ s. (s ≡ NoMemory) ⊎ C.stops s) }
{
    let asked = KnownScan {
        scan,
        known: before.spans.as_slice(),
    };
    let mut again = Rescan::<'_, B>::new(alloc, before.rows, scan.limit);
    take_child(chunks, at, lowest(scan).as_str(), asked, &mut again)?;
    Ok(again.into_rescanned(alloc)?)
}

// Takes the scan's rows of a chunk whose first key is this one: from those of before, if the scan met it then.
#[cycle(again)]
fn take_child<B: PreviousRows, C: Chunks>(
    chunks: &mut C,
    at: Ref,
    first: &str,
    asked: KnownScan<'_>,
    again: &mut Rescan<'_, B>,
) -> Result<(), Stop>
    requires place { C.places chunks.old at }
    requires tree { IsTree (chunk_rows (C.contents chunks.old) (stamp_of at)) }
    ensures grown { Grows C.contents C.places chunks.old chunks.new }
    ensures more { OnOk result (TakesMore asked.entry.scan.now B.rows asked.entry.known.now (C.contents chunks.old)
        (λ contents. chunk_rows contents (stamp_of at)) again.old again.new) }
    ensures stopped { IfErr result (λ s. (s ≡ NoMemory) ⊎ C.stops s) }
{
    if let Some(kept) = again.find(asked.known, at.stamp(), first) {
        again.keep(kept)?;
        return Ok(());
    }
    take_shown(chunks, at, asked, again)
}

#[cycle(again)]
fn take_shown<B: PreviousRows, C: Chunks>(
    chunks: &mut C,
    at: Ref,
    asked: KnownScan<'_>,
    again: &mut Rescan<'_, B>,
) -> Result<(), Stop>
    requires place { C.places chunks.old at }
    requires tree { IsTree (chunk_rows (C.contents chunks.old) (stamp_of at)) }
    ensures grown { Grows C.contents C.places chunks.old chunks.new }
    ensures more { OnOk result (TakesMore asked.entry.scan.now B.rows asked.entry.known.now (C.contents chunks.old)
        (λ contents. chunk_rows contents (stamp_of at)) again.old again.new) }
    ensures stopped { IfErr result (λ s. (s ≡ NoMemory) ⊎ C.stops s) }
{
    let begun = again.begin()?;
    let held = chunks.show(at)?;
    let answer = take_chunk(chunks, at, held.chunk(), asked, again);
    chunks.leave(held);
    answer?;
    again.end(begun, at.stamp());
    Ok(())
}

#[cycle(again)]
fn take_chunk<B: PreviousRows, C: Chunks>(
    chunks: &mut C,
    at: Ref,
    chunk: &Chunk<Ref>,
    asked: KnownScan<'_>,
    again: &mut Rescan<'_, B>,
) -> Result<(), Stop>
    requires shown { IsShown (C.places chunks.old) (C.contents chunks.old) (stamp_of at) chunk.now }
    requires tree { IsTree (chunk_rows (C.contents chunks.old) (stamp_of at)) }
    ensures grown { Grows C.contents C.places chunks.old chunks.new }
    ensures more { OnOk result (TakesMore asked.entry.scan.now B.rows asked.entry.known.now (C.contents chunks.old)
        (λ contents. chunk_rows contents (stamp_of at)) again.old again.new) }
    ensures stopped { IfErr result (λ s. (s ≡ NoMemory) ⊎ C.stops s) }
{
    match chunk {
        Chunk::Leaf(leaf) => {
            again.take_leaf(leaf, asked.scan)?;
            return Ok(());
        }
        Chunk::Inner(inner) => {
            let below = ChildRefs {
                firsts: inner.firsts().as_slice(),
                children: inner.children(),
            };
            return take_children(chunks, below, asked, again);
        }
    }
}

// Children of a chunk, and their first keys.
#[derive(Clone, Copy)]
struct ChildRefs<'a> {
    firsts: &'a [Text],
    children: &'a [Ref],
}

#[cycle(again)]
fn take_children<B: PreviousRows, C: Chunks>(
    chunks: &mut C,
    below: ChildRefs<'_>,
    asked: KnownScan<'_>,
    again: &mut Rescan<'_, B>,
) -> Result<(), Stop>
    requires places { AreAll (C.places chunks.old) below.children.now }
    requires order { T (rises below.firsts.now) }
    requires children { length below.children.now ≡ length below.firsts.now }
    requires tree { IsTree (children_rows (C.contents chunks.old) (paired below.firsts.now below.children.now)) }
    ensures grown { Grows C.contents C.places chunks.old chunks.new }
    ensures more { OnOk result (TakesMore asked.entry.scan.now B.rows asked.entry.known.now (C.contents chunks.old)
        (λ contents. children_rows contents (paired below.entry.firsts.now below.entry.children.now))
        again.old again.new) }
    ensures stopped { IfErr result (λ s. (s ≡ NoMemory) ⊎ C.stops s) }
{
    if below.firsts.is_empty() {
        return Ok(());
    }
    for place in child_of(below.firsts, lowest(asked.scan).as_str())..below.firsts.len() {
        let first = &below.firsts[place];
        if is_over(asked.scan, again.room(), first) {
            return Ok(());
        }
        take_child(chunks, below.children[place], first.as_str(), asked, again)?;
    }
    Ok(())
}
