//! What a scan that is made again has taken so far: rows, of the chunks that were met before those of then, their
//! spans, and the room that is left.
ghost use Rattle.std.specs.Prelude.{◌≡◌, ◌⊎◌, ◌-◌, ◌++◌, [], length, take, drop, Some, None, true};
ghost use Rattle.std.specs.Prelude.{IfNone, IfOk, IfSome, OnOk};
ghost use Rattle.std.specs.List.{Contains};
ghost use Rattle.map_chunks.specs.Inside.Scanning.{CanTake};
ghost use Rattle.map_chunks.specs.Scanning.{left, taken};
ghost use Rattle.transactions.specs.Spans as spans;
ghost use Rattle.transactions.specs.Spans.{IsOneMoved, Tells, fitting};
ghost use Rattle.transactions.specs.declared.spans.Span.{Span as Spanned};

use crate::again::Rescanned;
use crate::beside::{PreviousRows, RowDiff};
use crate::spans::{MovedRows, Span, Spans, add_moved, place_of};
use group_history::{Json, Leaf, Scan, Text};
use map_chunks::scanning::scan_rows;
use std::alloc::{AllocError, Global};
use std::marker::Model;

/// A span of before, with those of the chunks below its own.
#[derive(Clone, Copy)]
pub(crate) struct KeptSpan<'a> {
    span: Span,
    all: &'a [Span],
}

/// Where the span of a chunk stands that is being taken, and its first row.
#[derive(Clone, Copy)]
pub(crate) struct Begun {
    place: usize,
    from: usize,
}
/// The rows that are taken beside those of before, their spans, and how many more there is room for.
#[derive(Drop)]
pub(crate) struct Rescan<'a, B: PreviousRows> {
    beside: RowDiff<'a, B>,
    spans: Vec<Span>,
    room: Option<u64>,
    // Where among the spans of before the next chunk's is looked for first.
    next: usize,
}

impl<'a, B: PreviousRows> Model for Rescan<'a, B> {
    ghost use Rattle.transactions.specs.Rescans.{SoFar};
    ghost use Rattle.transactions.specs.Taking.{taken_rows};

    ghost Value = { SoFar };

    ghost view = { λ again. record {
      rows = taken_rows B.rows again.beside.taken;
      spans = again.spans.items;
      room = again.room;
    } };
}

impl<'a, B: PreviousRows> Rescan<'a, B> {
    pub(crate) fn new(alloc: Global, before: &'a [(Text, Json)], room: Option<u64>) -> Rescan<'a, B>
        requires { before.now ≡ B.rows }
        ensures { result ≡ record { rows = []; spans = []; room = room } }
    {
        Rescan {
            beside: RowDiff::new(alloc, before),
            spans: Vec::new(alloc),
            room,
            next: 0,
        }
    }

    pub(crate) fn room(&self) -> Option<u64>
        ensures { result ≡ self.now.room }
    {
        self.room
    }

    // The span of a chunk whose first key is this one, if there is one, and it tells all rows for which there is room.
    pub(crate) fn find<'k>(
        &mut self,
        known: &'k [Span],
        stamp: u64,
        first: &str,
    ) -> Option<KeptSpan<'k>>
        ensures same { self.new ≡ self.old }
        ensures span { IfSome result (λ kept. Contains known.now kept.span × (kept.span.stamp ≡ Some stamp)) }
        ensures all { IfSome result (λ kept. (s : Spanned) → Contains kept.all.now s → Contains known.now s) }
        ensures tells { IfSome result (λ kept. Tells kept.span self.old.room) }
    {
        let place = place_of(self.beside.before(), known, self.next, stamp, first);
        if place >= known.len() || !known[place].is_of(stamp) {
            self.next = self.next.saturating_add(1);
            return None;
        }
        let span = known[place];
        if !span.tells(self.room) {
            self.next = place + 1;
            return None;
        }
        let end = (place + 1).saturating_add(span.below).min(known.len());
        self.next = end;
        Some(KeptSpan {
            span,
            all: &known[place..end],
        })
    }

    // Takes the rows of a chunk that was met before, as many as there is room for.
    pub(crate) fn keep(&mut self, kept: KeptSpan<'_>) -> Result<(), AllocError>
        ensures rows { OnOk result (self.new.rows ≡ self.old.rows
            ++ take (fitting self.old.room kept.entry.span.count) (drop kept.entry.span.from B.rows)) }
        ensures room { OnOk result (self.new.room
            ≡ left self.old.room (fitting self.old.room kept.entry.span.count)) }
        ensures spans { OnOk result ((s : Spanned) → Contains self.new.spans s → Contains self.old.spans s
            ⊎ IsOneMoved kept.entry.span.from (fitting self.old.room kept.entry.span.count) (length self.new.rows)
            kept.entry.all.now s) }
    {
        let from = kept.span.from;
        let count = fitting(self.room, kept.span.count);
        self.beside.take_again(from, count)?;
        self.room = lessened(self.room, count);
        let end = self.beside.count();
        add_moved(&mut self.spans, kept.all, MovedRows { from, count, end })
    }

    pub(crate) fn take_leaf(&mut self, leaf: &Leaf, scan: &Scan) -> Result<(), AllocError>
        ensures rows { OnOk result (self.new.rows ≡ self.old.rows ++ taken scan.now self.old.room leaf.now) }
        ensures room { OnOk result (self.new.room
            ≡ left self.old.room (length (taken scan.now self.old.room leaf.now))) }
        ensures spans { self.new.spans ≡ self.old.spans }
    {
        let left = scan_rows(
            leaf.keys().as_slice(),
            leaf.values(),
            scan,
            self.room,
            &mut self.beside,
        )?;
        self.room = left;
        Ok(())
    }

    // Begins the span of a chunk: a span of no chunk keeps its place.
    pub(crate) fn begin(&mut self) -> Result<Begun, AllocError>
        ensures from { IfOk result (λ begun. begun.from ≡ length self.old.rows) }
        ensures rows { OnOk result (self.new.rows ≡ self.old.rows) }
        ensures room { OnOk result (self.new.room ≡ self.old.room) }
        ensures spans { OnOk result ((s : Spanned) → Contains self.new.spans s
            → Contains self.old.spans s ⊎ (s.stamp ≡ None)) }
    {
        let begun = Begun {
            place: self.spans.len(),
            from: self.beside.count(),
        };
        self.spans.push(Span {
            stamp: None,
            from: begun.from,
            count: 0,
            whole: false,
            below: 0,
        })?;
        Ok(begun)
    }

    // Ends the span of a chunk, whose rows are those that were taken since. Where there is room for more, they are all.
    pub(crate) fn end(&mut self, begun: Begun, stamp: u64)
        ensures rows { self.new.rows ≡ self.old.rows }
        ensures room { self.new.room ≡ self.old.room }
        ensures spans { (s : Spanned) → Contains self.new.spans s → Contains self.old.spans s
            ⊎ ((s.stamp ≡ Some stamp) × (s.from ≡ begun.from) × (s.count ≡ length self.old.rows - begun.from)
            × (s.whole ≡ true → CanTake self.old.room 1)) }
    {
        if begun.place < self.spans.len() {
            let below = self.spans.len() - begun.place - 1;
            let count = self.beside.count().saturating_sub(begun.from);
            self.spans[begun.place] = Span {
                stamp: Some(stamp),
                from: begun.from,
                count,
                whole: has_room(self.room),
                below,
            };
        }
    }

    pub(crate) fn into_rescanned(self, alloc: Global) -> Result<Rescanned, AllocError>
        ensures some { IfOk result (λ found. IfSome found.others (λ rows. rows.items ≡ self.entry.rows)) }
        ensures same { IfOk result (λ found. IfNone found.others (self.entry.rows ≡ B.rows)) }
        ensures spans { IfOk result (λ found. found.spans ≡ self.entry.spans) }
    {
        let Rescan {
            beside,
            spans,
            room: _,
            next: _,
        } = self;
        let others = beside.into_others()?;
        let spans = Spans::new(alloc, spans)?;
        Ok(Rescanned { others, spans })
    }
}

// Whether there is room for one more row.
fn has_room(room: Option<u64>) -> bool
    ensures { result ≡ true → CanTake room 1 }
{
    match room {
        None => true,
        Some(room) => room > 0,
    }
}

// How many of so many rows there is room for.
fn fitting(room: Option<u64>, rows: usize) -> usize
    ensures { result ≡ spans.fitting room rows }
{
    match room {
        None => rows,
        Some(room) => {
            if room < rows as u64 {
                return room as usize;
            }
            return rows;
        }
    }
}

// The room that is left where so many rows were taken.
fn lessened(room: Option<u64>, rows: usize) -> Option<u64>
    ensures { result ≡ left room rows }
{
    match room {
        None => None,
        Some(room) => Some(room.saturating_sub(rows as u64)),
    }
}
