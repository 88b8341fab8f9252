//! Which placed chunks have a scan's rows.
//!
//! A chunk never changes. So where a scan's rows lie in chunks of the same stamps as before, they are the same rows,
//! and none has to be read. The chunks are as high in the tree as may be: a child is taken whole where its first key is
//! in the scan and the first key behind it too, and nothing below it is looked at. So only chunks on the ways to the
//! two ends of the scan are shown. Which are taken whole is a matter of cost alone, and no clause says it.
ghost use Rattle.std.specs.Cmp as laws;
ghost use Rattle.std.specs.Cmp.Lexicographic.{nat_list_eq_equiv, pointwise};
ghost use Rattle.std.specs.Prelude.{◌≡◌, ◌⊎◌, ◌<◌, ◌++◌, ◌∷◌, [], length, nat_eq, T, IfOk, IfErr, OnOk};
ghost use Rattle.group_history.specs.Refs.{stamp_of};
ghost use Rattle.group_history.specs.Rows.{rises, paired};
ghost use Rattle.group_history.specs.declared.mutators.Stop.TheVariants.{NoMemory};
ghost use Rattle.map_chunks.specs.Covers.{Covers};
ghost use Rattle.map_chunks.specs.Inside.Covers.{CoversMore};
ghost use Rattle.map_chunks.specs.Inside.Scanning.{children_rows};
ghost use Rattle.map_chunks.specs.Places.{Grows, AreAll, IsShown};
ghost use Rattle.map_chunks.specs.Scanning.{scanned};
ghost use Rattle.map_chunks.specs.Shown.{chunk_rows, IsTree, rows_or};

use crate::chunks::{Chunks, ShowsChunk};
use crate::scanning::{Below, is_over, lowest};
use crate::search::place_of;
use group_history::{Chunk, Ref, Scan, Stop, Text};
use std::alloc::{AllocError, Global};
use std::marker::Model;

/// Stamps of chunks in which rows lie, one chunk after another.
#[derive(Drop)]
pub struct Cover {
    stamps: Vec<u64>,
}

impl Model for Cover {
    ghost use Rattle.std.specs.Prelude.{ℕ, List};

    ghost Value = { List ℕ };

    ghost view = { λ cover. cover.stamps.items };
}

impl Clone for Cover {
    ghost is_clone = { λ cover copy. copy ≡ cover };

    fn clone(&self) -> Result<Cover, AllocError> {
        let stamps = self.stamps.clone()?;
        Ok(Cover { stamps })
    }
}

/// They are equal where the stamps are.
impl PartialEq for Cover {
    ghost eq = { pointwise nat_eq };

    ghost laws = { laws.partial_equiv_from_equiv nat_list_eq_equiv };

    fn eq(&self, other: &Self) -> bool {
        self.stamps == other.stamps
    }
}

// A scan of a chunk, and whether it goes on behind the chunk.
#[derive(Clone, Copy)]
struct CoverScan<'a> {
    scan: &'a Scan,
    goes_on: bool,
}

// Whether the scan goes on behind a child: it has the first key there. Behind the last child it is as behind the chunk.
fn goes_on_behind(asked: CoverScan<'_>, firsts: &[Text], place: usize) -> bool
    requires { place < length firsts.now }
{
    if place + 1 < firsts.len() {
        return asked.scan.has(&firsts[place + 1]);
    }
    asked.goes_on
}

// Adds a chunk behind others.
fn add(stamps: &mut Vec<u64>, at: Ref) -> Result<(), AllocError>
    ensures { OnOk result (stamps.new.items ≡ stamps.old.items ++ stamp_of at ∷ []) }
{
    stamps.push(at.stamp())?;
    Ok(())
}

/// The few topmost chunks in which the scan's rows of this chunk lie, in the keys' order. The scan's limit is left
/// aside. Stops for want of memory, or as the store does.
pub fn cover_placed<C: Chunks>(
    alloc: Global,
    chunks: &mut C,
    at: Ref,
    scan: &Scan,
) -> Result<Cover, Stop>
    requires place { C.places chunks.old at }
    requires tree { IsTree (chunk_rows (C.contents chunks.old) (stamp_of at)) }
    ensures grown { Grows C.contents C.places chunks.old chunks.new }
    ensures cover { IfOk result (λ cover. Covers scan.now (C.contents chunks.old) cover
        (scanned scan.now (rows_or (chunk_rows (C.contents chunks.old) (stamp_of at))))) }
    ensures stopped { IfErr result (λ s. (s ≡ NoMemory) ⊎ C.stops s) }
{
    let mut stamps = Vec::new(alloc);
    let asked = CoverScan {
        scan,
        goes_on: false,
    };
    add_shown(chunks, at, asked, &mut stamps)?;
    Ok(Cover { stamps })
}

// Adds a child whole, where its first key is in the scan and the scan goes on behind it, and else what is below it.
#[cycle(covering)]
fn add_child<C: Chunks>(
    chunks: &mut C,
    at: Ref,
    first: &Text,
    asked: CoverScan<'_>,
    stamps: &mut Vec<u64>,
) -> Result<(), Stop>
    requires place { C.places chunks.old at }
    requires tree { IsTree (chunk_rows (C.contents chunks.old) (stamp_of at)) }
    ensures grown { Grows C.contents C.places chunks.old chunks.new }
    ensures cover { OnOk result (CoversMore asked.entry.scan.now (C.contents chunks.old)
        (λ known. chunk_rows known (stamp_of at)) stamps.old.items stamps.new.items) }
    ensures stopped { IfErr result (λ s. (s ≡ NoMemory) ⊎ C.stops s) }
{
    if asked.goes_on && asked.scan.has(first) {
        add(stamps, at)?;
        return Ok(());
    }
    add_shown(chunks, at, asked, stamps)
}

// Adds what covers the scan's rows of a chunk that may have others.
#[cycle(covering)]
fn add_shown<C: Chunks>(
    chunks: &mut C,
    at: Ref,
    asked: CoverScan<'_>,
    stamps: &mut Vec<u64>,
) -> Result<(), Stop>
    requires place { C.places chunks.old at }
    requires tree { IsTree (chunk_rows (C.contents chunks.old) (stamp_of at)) }
    ensures grown { Grows C.contents C.places chunks.old chunks.new }
    ensures cover { OnOk result (CoversMore asked.entry.scan.now (C.contents chunks.old)
        (λ known. chunk_rows known (stamp_of at)) stamps.old.items stamps.new.items) }
    ensures stopped { IfErr result (λ s. (s ≡ NoMemory) ⊎ C.stops s) }
{
    let held = chunks.show(at)?;
    let answer = add_chunk(chunks, at, held.chunk(), asked, stamps);
    chunks.leave(held);
    answer
}

#[cycle(covering)]
fn add_chunk<C: Chunks>(
    chunks: &mut C,
    at: Ref,
    chunk: &Chunk<Ref>,
    asked: CoverScan<'_>,
    stamps: &mut Vec<u64>,
) -> Result<(), Stop>
    requires shown { IsShown (C.places chunks.old) (C.contents chunks.old) (stamp_of at) chunk.now }
    requires tree { IsTree (chunk_rows (C.contents chunks.old) (stamp_of at)) }
    ensures grown { Grows C.contents C.places chunks.old chunks.new }
    ensures cover { OnOk result (CoversMore asked.entry.scan.now (C.contents chunks.old)
        (λ known. chunk_rows known (stamp_of at)) stamps.old.items stamps.new.items) }
    ensures stopped { IfErr result (λ s. (s ≡ NoMemory) ⊎ C.stops s) }
{
    match chunk {
        Chunk::Leaf(_) => {
            add(stamps, at)?;
            return Ok(());
        }
        Chunk::Inner(inner) => {
            let below = Below {
                firsts: inner.firsts().as_slice(),
                children: inner.children(),
            };
            return add_children(chunks, below, asked, stamps);
        }
    }
}

#[cycle(covering)]
fn add_children<C: Chunks>(
    chunks: &mut C,
    below: Below<'_>,
    asked: CoverScan<'_>,
    stamps: &mut Vec<u64>,
) -> Result<(), Stop>
    requires places { AreAll (C.places chunks.old) below.children.now }
    requires order { T (rises below.firsts.now) }
    requires children { length below.children.now ≡ length below.firsts.now }
    requires tree { IsTree (children_rows (C.contents chunks.old) (paired below.firsts.now below.children.now)) }
    ensures grown { Grows C.contents C.places chunks.old chunks.new }
    ensures cover { OnOk result (CoversMore asked.entry.scan.now (C.contents chunks.old)
        (λ known. children_rows known (paired below.entry.firsts.now below.entry.children.now))
        stamps.old.items stamps.new.items) }
    ensures stopped { IfErr result (λ s. (s ≡ NoMemory) ⊎ C.stops s) }
{
    if below.firsts.is_empty() {
        return Ok(());
    }
    for place in place_of(below.firsts, lowest(asked.scan).as_str())..below.firsts.len() {
        let first = &below.firsts[place];
        if is_over(asked.scan, None, first) {
            return Ok(());
        }
        let goes_on = goes_on_behind(asked, below.firsts, place);
        let child = CoverScan {
            scan: asked.scan,
            goes_on,
        };
        add_child(chunks, below.children[place], first, child, stamps)?;
    }
    Ok(())
}
