//! Which rows of a scan are those of which chunk.
//!
//! A chunk never changes, and neither does a scan. So which rows a scan has of a chunk is told by the chunk's stamp. A
//! span says of a chunk that a scan met which of the scan's rows are the chunk's: so many from a place on. They are the
//! first rows that the scan has of the chunk, and all where the span is whole. It isn't where the scan's limit was
//! reached in the chunk, since there may be more. Spans are of leaves and of inner chunks, and each stands before those
//! below its chunk. Which spans there are, and which is found, is a matter of cost alone, and no clause says it; what
//! each says is right (`AreSpans`).
ghost use Rattle.std.specs.Prelude.{◌≡◌, ◌⊎◌, [], Some, true, IfOk, IfSome, OnOk};
ghost use Rattle.std.specs.List.{Contains};
ghost use Rattle.transactions.specs.Spans.{IsMoved, IsOneMoved, Tells};
ghost use Rattle.transactions.specs.declared.spans.Span.{Span as Spanned};

use group_history::{Json, Text};
use std::alloc::{AllocError, Global};
use std::marker::Model;
use std::sync::Arc;

/// A chunk, and the first of its rows among those of a scan.
#[derive(Clone, Copy)]
pub(crate) struct Span {
    // The chunk's stamp; none while its rows are still being taken.
    pub(crate) stamp: Option<u64>,
    pub(crate) from: usize,
    pub(crate) count: usize,
    // Whether these are all rows that the scan has of the chunk, its limit aside.
    pub(crate) whole: bool,
    // How many of the spans behind it are of chunks below its own. Where the span isn't whole there may be fewer.
    pub(crate) below: usize,
}

/// Rows of before that are taken again: so many from a place on. They are now the last ones of `end`.
#[derive(Clone, Copy)]
pub(crate) struct MovedRows {
    pub(crate) from: usize,
    pub(crate) count: usize,
    pub(crate) end: usize,
}

impl Span {
    // Whether it is of the chunk of this stamp.
    pub(crate) fn is_of(&self, stamp: u64) -> bool
        ensures { result ≡ true → self.now.stamp ≡ Some stamp }
    {
        match self.stamp {
            Some(own) => own == stamp,
            None => false,
        }
    }

    // Whether it tells all rows of its chunk for which there is so much room.
    pub(crate) fn tells(&self, room: Option<u64>) -> bool
        ensures { result ≡ true → Tells self.now room }
    {
        match room {
            None => self.whole,
            Some(room) => self.whole || room <= self.count as u64,
        }
    }

    // What it tells of the moved rows, where it begins among them. It stays whole where all of its rows are.
    fn moved(&self, rows: MovedRows) -> Option<Span>
        ensures { IfSome result (IsMoved rows.from rows.count rows.end self.now) }
    {
        if self.from < rows.from || self.from - rows.from > rows.count {
            return None;
        }
        let rest = rows.count - (self.from - rows.from);
        let count = self.count.min(rest);
        if count == 0 && self.count > 0 {
            return None;
        }
        Some(Span {
            from: rows.end.saturating_sub(rest),
            count,
            whole: self.whole && count == self.count,
            ..*self
        })
    }
}

/// Spans of the rows of a scan. They are shared: a clone copies none.
#[derive(Drop)]
pub struct Spans {
    shared: Arc<Vec<Span>, Global>,
}

impl Model for Spans {
    ghost use Rattle.std.specs.Prelude.{List};
    ghost use Rattle.std.specs.Arc.{arc_value};
    ghost use Rattle.transactions.specs.declared.spans.Span.{Span as Spanned};

    ghost Value = { List Spanned };

    ghost view = { λ spans. (arc_value spans.shared).items };
}

impl Spans {
    /// No spans.
    pub fn none(alloc: Global) -> Result<Spans, AllocError>
        ensures { IfOk result (λ spans. spans ≡ []) }
    {
        Spans::new(alloc, Vec::new(alloc))
    }

    pub(crate) fn new(alloc: Global, list: Vec<Span>) -> Result<Spans, AllocError>
        ensures { IfOk result (λ spans. spans ≡ list.items) }
    {
        let shared = Arc::new(alloc, list)?;
        Ok(Spans { shared })
    }

    pub(crate) fn as_slice(&self) -> &[Span]
        ensures { result.now ≡ self.now }
    {
        self.shared.as_slice()
    }
}

impl Clone for Spans {
    ghost is_clone = { λ spans copy. copy ≡ spans };

    fn clone(&self) -> Result<Spans, AllocError> {
        let shared = Arc::try_clone(&self.shared)?;
        Ok(Spans { shared })
    }
}

// Adds what the spans tell of the moved rows.
pub(crate) fn add_moved(
    spans: &mut Vec<Span>,
    kept: &[Span],
    rows: MovedRows,
) -> Result<(), AllocError>
    ensures { OnOk result ((s : Spanned) → Contains spans.new.items s
        → Contains spans.old.items s ⊎ IsOneMoved rows.from rows.count rows.end kept.now s) }
{
    for one in kept {
        if let Some(moved) = one.moved(rows) {
            spans.push(moved)?;
        }
    }
    Ok(())
}

// How many of the rows have keys below this one.
fn rows_below(rows: &[(Text, Json)], key: &str) -> usize {
    let mut low = 0;
    let mut high = rows.len();
    while low < high {
        let middle = low + (high - low) / 2;
        if rows[middle].0.as_str().cmp(key).is_lt() {
            low = middle + 1;
        } else {
            high = middle;
        }
    }
    low
}

// How many of the spans begin before this row.
fn spans_below(spans: &[Span], row: usize) -> usize {
    let mut low = 0;
    let mut high = spans.len();
    while low < high {
        let middle = low + (high - low) / 2;
        if spans[middle].from < row {
            low = middle + 1;
        } else {
            high = middle;
        }
    }
    low
}

// Where the span of the chunk stands among those that begin at this row, or the first place behind these.
fn place_among(spans: &[Span], row: usize, stamp: u64) -> usize {
    for place in spans_below(spans, row)..spans.len() {
        if spans[place].from != row || spans[place].is_of(stamp) {
            return place;
        }
    }
    spans.len()
}

// Whether the chunk was placed behind all of which there are spans: a chunk is placed behind those below it.
fn is_newer(spans: &[Span], stamp: u64) -> bool {
    if spans.is_empty() {
        return true;
    }
    match spans[0].stamp {
        Some(top) => top < stamp,
        None => false,
    }
}

// Where to look for the span of a chunk whose first key is this one. At this place it stands, or nowhere.
pub(crate) fn place_of(
    rows: &[(Text, Json)],
    spans: &[Span],
    next: usize,
    stamp: u64,
    first: &str,
) -> usize {
    if next < spans.len() && spans[next].is_of(stamp) {
        return next;
    }
    if is_newer(spans, stamp) {
        return spans.len();
    }
    place_among(spans, rows_below(rows, first), stamp)
}
