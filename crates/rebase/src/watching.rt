//! Queries that are asked again and again, and answered where their rows are new.
//!
//! A watch keeps the rows that it answered last, the root of the map that they were read from, and the few topmost
//! chunks in which the rows of its scan lie there (`Cover`). What a stamp spells never changes. So at a commit of the
//! same root the rows are the same; and where other keys changed the root is another, but the chunks are the same, and
//! so the rows are. In both cases none is read. Else a poll reads only chunks that the last one didn't meet, and those
//! of which it wants rows that the scan's limit cut off: the watch keeps which rows are which chunk's (`Spans`). The
//! type keeps that the rows are those of the root, lie in the chunks and have the spans (`AreRead`), in what was seen
//! of the book when they were read; of that and what a client has seen one begins the other, and the watch keeps what
//! both have seen.
ghost use Rattle.std.specs.Option.{option_copied};
ghost use Rattle.std.specs.Prelude.{◌≡◌, ◌⊎◌, T, Some, None, Ok, true, IfOk, IfErr, IfNone, IfSome, IsSome};
ghost use mathlib.Core.List.{IsPrefix};
ghost use Rattle.group_history.specs.Queries.{view_rows};
ghost use Rattle.group_history.specs.Record.{after};
ghost use Rattle.group_history.specs.Rows.{keys_of, rises};
ghost use Rattle.head_word.specs.Books.{drawn, record_of};
ghost use Rattle.head_word.specs.Marks.{known};
ghost use Rattle.linearized.specs.Answered.{IsLinearized, no_change};
ghost use Rattle.change_tries.specs.Missing.{IsStoreOrMemory};
ghost use Rattle.transactions.specs.Spans.{AreSpans};
ghost use Rattle.rebase.specs.Clients.{AfterQuery};
ghost use Rattle.rebase.specs.Inside.Watching.{CoversView};
ghost use Rattle.rebase.specs.Readers.{read_by, seen_by};
ghost use Rattle.rebase.specs.Watching.{Watched, poll_at, poll_reply, was_told, watch_after};

use crate::client::Client;
use crate::reading::{Point, ReadTx};
use crate::rows::Rows;
use chunk_slots::Slots;
use group_history::{Json, Means, Ref, Refusal, Scan, Text};
use head_word::Mark;
use map_chunks::covers::Cover;
use std::alloc::{AllocError, Global};
use std::marker::Model;
use transactions::{Rescanned, Spans};

/// What a poll tells.
#[derive(Drop)]
pub enum Polled {
    /// The rows, which are others than those that were answered last, or the first ones.
    New(Rows),
    /// The rows are those that were answered last.
    Unchanged,
}

/// The rows that were answered last, the root of the map that they were read from, the chunks in which they lie, and
/// which of them are which chunk's.
#[derive(Drop)]
pub(crate) struct LastAnswer {
    root: Ref,
    cover: Cover,
    spans: Spans,
    rows: Rows,
}

// What a poll finds: the rows, if they are others than those that were answered last, or the first ones; their spans;
// and what has been seen by then.
#[derive(Drop)]
struct PollFound<M: Means> {
    others: Option<Vec<(Text, Json)>>,
    spans: Spans,
    mark: Mark<M>,
}

fn copy_of(last: &Option<LastAnswer>) -> Result<Option<LastAnswer>, AllocError>
    ensures { IfOk result (λ copy. copy ≡ last.now) }
{
    match last {
        Some(told) => Ok(Some(LastAnswer {
            root: told.root,
            cover: told.cover.clone()?,
            spans: told.spans.clone()?,
            rows: told.rows.clone()?,
        })),
        None => Ok(None),
    }
}

// The first rows of a scan, and their spans.
fn read_first<M: Means, S: Slots<M>>(
    tx: &ReadTx<'_, M, S>,
    scan: &Scan,
) -> Result<PollFound<M>, Refusal>
    ensures rows { IfOk result (λ found. IfSome found.others
        (λ rows. rows.items ≡ view_rows M.means (read_by tx.now) scan.now)) }
    ensures first { IfOk result (λ found. IsSome found.others) }
    ensures spans { IfOk result (λ found. AreSpans scan.now (drawn found.mark.log)
        (view_rows M.means (read_by tx.now) scan.now) found.spans) }
    ensures mark { IfOk result (λ found. found.mark ≡ known (seen_by tx.now).book (seen_by tx.now).log None) }
    ensures err { IfErr result (IsStoreOrMemory S.reused) }
{
    let none = Spans::none(tx.alloc())?;
    let before = Vec::new(tx.alloc());
    let Rescanned { others, spans } = tx.scan_again(scan, before.as_slice(), &none)?;
    Ok(PollFound {
        others: Some(others.unwrap_or(before)),
        spans,
        mark: tx.point().mark(),
    })
}

/// A scan that is polled. It keeps the rows that it answered last, in memory and in no slot. It may be polled by any
/// client of its group.
#[derive(Drop)]
pub struct Watch<M: Means> {
    scan: Scan,
    // What was seen when the rows were read.
    mark: Mark<M>,
    last: Option<LastAnswer>,
}

impl<M: Means> Model for Watch<M> {
    ghost use Rattle.head_word.specs.Books.{drawn};
    ghost use Rattle.rebase.specs.Watching.{Watched};
    ghost use Rattle.rebase.specs.Inside.Watching.{AreRead, rows_last_told};

    ghost Value = { Watched };

    ghost view = { λ w. record { book = w.mark.book; scan = w.scan; last = rows_last_told w.last } };

    ghost invariant = { λ w. AreRead (drawn w.mark.log) w.scan w.last };
}

impl<M: Means> Watch<M> {
    fn new(scan: Scan, seen: &Mark<M>) -> Watch<M>
        ensures { result ≡ record { book = seen.now.book; scan = scan; last = None } }
    {
        Watch {
            scan,
            mark: seen.copy(),
            last: None,
        }
    }

    /// The rows that it answered last, in the strict order of their keys; none before the first poll.
    pub fn rows(&self) -> Option<&Rows>
        ensures told { option_copied result ≡ self.now.last }
        ensures rising { IfSome result (λ rows. T (rises (keys_of rows.now))) }
    {
        match &self.last {
            Some(told) => Some(&told.rows),
            None => None,
        }
    }

    // Whether the map there is the one that was read last.
    fn has_read(&self, at: &Point<M>) -> bool
        requires { self.now.book ≡ at.now.book }
        ensures { result ≡ true → self.now.last ≡ Some (view_rows M.means (after
            (record_of at.now.log)) self.now.scan) }
    {
        at.begins_or_follows(&self.mark);
        match &self.last {
            Some(told) => told.root.stamp() == at.root().stamp(),
            None => false,
        }
    }

    // Whether the rows lie in the chunks in which they lay when they were read last.
    fn has_covered(&self, at: &Point<M>, cover: &Cover) -> bool
        requires book { self.now.book ≡ at.now.book }
        requires cover { CoversView M.means at.now.log self.now.scan cover.now }
        ensures { result ≡ true → self.now.last ≡ Some (view_rows M.means (after
            (record_of at.now.log)) self.now.scan) }
    {
        at.begins_or_follows(&self.mark);
        match &self.last {
            Some(told) => told.cover == *cover,
            None => false,
        }
    }

    fn has_told(&self, rows: &Rows) -> bool
        ensures { result ≡ was_told self.now.last rows.now }
    {
        match &self.last {
            Some(told) => told.rows == *rows,
            None => false,
        }
    }

    // Keeps the rows that were read there as the last ones.
    fn keep(&mut self, at: &Point<M>, mark: Mark<M>, cover: Cover, spans: Spans, rows: Rows)
        requires book { mark.book ≡ self.old.book }
        requires seen { IsPrefix at.now.log mark.log }
        requires cover { CoversView M.means at.now.log self.old.scan cover }
        requires spans { AreSpans self.old.scan (drawn mark.log) rows spans }
        requires rows { rows ≡ view_rows M.means (after (record_of at.now.log)) self.old.scan }
        ensures { self.new ≡ record self.old { last = Some rows } }
    {
        self.last = Some(LastAnswer {
            root: at.root(),
            cover,
            spans,
            rows,
        });
        self.mark = mark;
    }

    // Answers by the rows that were read there.
    fn tell(
        &mut self,
        at: &Point<M>,
        mark: Mark<M>,
        cover: Cover,
        spans: Spans,
        rows: Rows,
    ) -> Result<Polled, AllocError>
        requires book { mark.book ≡ self.old.book }
        requires seen { IsPrefix at.now.log mark.log }
        requires cover { CoversView M.means at.now.log self.old.scan cover }
        requires spans { AreSpans self.old.scan (drawn mark.log) rows spans }
        requires rows { rows ≡ view_rows M.means (after (record_of at.now.log)) self.old.scan }
        ensures value { IfOk result (λ polled. polled ≡ poll_reply self.old.last rows) }
        ensures kept { IfOk result (λ polled. self.new ≡ watch_after self.old (Ok polled)) }
        ensures left { IfErr result (λ _. self.new ≡ self.old) }
    {
        if self.has_told(&rows) {
            self.keep(at, mark, cover, spans, rows);
            return Ok(Polled::Unchanged);
        }
        let kept = rows.clone()?;
        self.keep(at, mark, cover, spans, kept);
        Ok(Polled::New(rows))
    }

    // Stays as it is, where the rows are those that were told last: so are their spans.
    fn stay<S: Slots<M>>(&mut self, tx: &ReadTx<'_, M, S>, cover: Cover)
        requires book { self.old.book ≡ (seen_by tx.now).book }
        requires cover { CoversView M.means (seen_by tx.now).log self.old.scan cover }
        requires rows { self.old.last ≡ Some (view_rows M.means (read_by tx.now) self.old.scan) }
        ensures { self.new ≡ self.old }
    {
        let seen = tx.mark_with(&self.mark);
        if let Some(told) = self.last.take() {
            self.keep(tx.point(), seen, cover, told.spans, told.rows);
        }
    }

    // Keeps the rows that were told last, with the spans that were found of them.
    fn keep_told(&mut self, at: &Point<M>, mark: Mark<M>, cover: Cover, spans: Spans)
        requires book { mark.book ≡ self.old.book }
        requires seen { IsPrefix at.now.log mark.log }
        requires cover { CoversView M.means at.now.log self.old.scan cover }
        requires spans { AreSpans self.old.scan (drawn mark.log)
            (view_rows M.means (after (record_of at.now.log)) self.old.scan) spans }
        requires rows { self.old.last ≡ Some (view_rows M.means (after (record_of at.now.log)) self.old.scan) }
        ensures { self.new ≡ self.old }
    {
        if let Some(told) = self.last.take() {
            self.keep(at, mark, cover, spans, told.rows);
        }
    }

    // What a poll finds. A chunk that was met when the rows were told is read only for rows that the limit cut off.
    fn read_new<S: Slots<M>>(&self, tx: &ReadTx<'_, M, S>) -> Result<PollFound<M>, Refusal>
        requires { self.now.book ≡ (seen_by tx.now).book }
        ensures some { IfOk result (λ found. IfSome found.others
            (λ rows. rows.items ≡ view_rows M.means (read_by tx.now) self.now.scan)) }
        ensures same { IfOk result (λ found. IfNone found.others
            (self.now.last ≡ Some (view_rows M.means (read_by tx.now) self.now.scan))) }
        ensures spans { IfOk result (λ found. AreSpans self.now.scan (drawn found.mark.log)
            (view_rows M.means (read_by tx.now) self.now.scan) found.spans) }
        ensures book { IfOk result (λ found. found.mark.book ≡ self.now.book) }
        ensures seen { IfOk result (λ found. IsPrefix (seen_by tx.now).log found.mark.log) }
        ensures err { IfErr result (IsStoreOrMemory S.reused) }
    {
        let Some(told) = &self.last else {
            return read_first(tx, &self.scan);
        };
        let mark = tx.mark_with(&self.mark);
        let Rescanned { others, spans } = tx.scan_again(
            &self.scan,
            told.rows.as_slice(),
            &told.spans,
        )?;
        Ok(PollFound {
            others,
            spans,
            mark,
        })
    }

    // Answers by the rows at a reader's point, which lie in these chunks.
    fn compare<S: Slots<M>>(
        &mut self,
        tx: &ReadTx<'_, M, S>,
        cover: Cover,
    ) -> Result<Polled, Refusal>
        requires book { self.old.book ≡ (seen_by tx.now).book }
        requires cover { CoversView M.means (seen_by tx.now).log self.old.scan cover }
        ensures value { IfOk result (λ polled. polled ≡ poll_at M.means self.old (read_by tx.now)) }
        ensures kept { IfOk result (λ polled. self.new ≡ watch_after self.old (Ok polled)) }
        ensures left { IfErr result (λ _. self.new ≡ self.old) }
        ensures err { IfErr result (IsStoreOrMemory S.reused) }
    {
        let at = tx.point();
        let PollFound {
            others,
            spans,
            mark,
        } = self.read_new(tx)?;
        let Some(rows) = others else {
            self.keep_told(at, mark, cover, spans);
            return Ok(Polled::Unchanged);
        };
        let rows = Rows::new(tx.alloc(), rows)?;
        Ok(self.tell(at, mark, cover, spans, rows)?)
    }

    // Asks a reader. Where it is refused the watch is as it was.
    fn ask<S: Slots<M>>(&mut self, tx: &ReadTx<'_, M, S>) -> Result<Polled, Refusal>
        requires book { self.old.book ≡ (seen_by tx.now).book }
        ensures value { IfOk result (λ polled. polled ≡ poll_at M.means self.old (read_by tx.now)) }
        ensures kept { IfOk result (λ polled. self.new ≡ watch_after self.old (Ok polled)) }
        ensures left { IfErr result (λ _. self.new ≡ self.old) }
        ensures err { IfErr result (IsStoreOrMemory S.reused) }
    {
        let at = tx.point();
        if self.has_read(at) {
            return Ok(Polled::Unchanged);
        }
        let cover = tx.cover(&self.scan)?;
        if self.has_covered(at, &cover) {
            self.stay(tx, cover);
            return Ok(Polled::Unchanged);
        }
        self.compare(tx, cover)
    }
}

impl<M: Means> Clone for Watch<M> {
    ghost is_clone = { λ watch copy. copy ≡ watch };

    fn clone(&self) -> Result<Watch<M>, AllocError> {
        let scan = self.scan.clone()?;
        let last = copy_of(&self.last)?;
        Ok(Watch {
            scan,
            mark: self.mark.copy(),
            last,
        })
    }
}

impl<M: Means, S: Slots<M>> Client<M, S> {
    /// A watch of a scan, which has answered nothing yet. Nothing is read. Takes no memory.
    pub fn watch(&self, scan: Scan) -> Watch<M>
        ensures { result ≡ record { book = self.now.seat.mark.book; scan = scan; last = None } }
    {
        Watch::new(scan, &self.seat.mark)
    }

    /// The rows of the watch's scan, where they are others than those that it answered last, or the first ones; else
    /// `Unchanged`. They are compared by their keys and compact texts. The watch is one of the client's group. Refused
    /// with `NoMemory`, `Gone`, and over slots that are used again `Busy`; then the watch is as it was.
    pub fn poll(&mut self, watch: &mut Watch<M>, tries: u32) -> Result<Polled, Refusal>
        requires book { watch.old.book ≡ self.old.seat.mark.book }
        ensures answer { IsLinearized M.means tries self.old.seat.mark self.new.seat.mark result no_change
            (λ s. Ok (poll_at M.means watch.old s)) }
        ensures err { IfErr result (IsStoreOrMemory S.reused) }
        ensures kept { watch.new ≡ watch_after watch.old result }
        ensures stays { AfterQuery S.reused self.old self.new }
    {
        let tx = self.read(tries)?;
        let polled = watch.ask(&tx);
        tx.close();
        polled
    }
}
