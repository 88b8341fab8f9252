//! A store whose slots are never used again: the nodes of a group in a table that only grows.
//!
//! A node stands at the index of its stamp: its slot number is its stamp, and where the stamp is no slot number it is
//! Full. A stamp has one content for good, so a node that stands at the index already is the one that was to be
//! placed. What places nodes may wait for a thread that places the same node or makes the room for it; the table is
//! looked into without waiting. There is nothing to claim, so `take_slot` answers slot 0, which means nothing, and
//! what else is done with slots does nothing.
ghost use Rattle.std.specs.Prelude.{ℕ, ◌≡◌, ◌<◌, IfOk, IfErr, length};
ghost use Rattle.group_history.specs.Refs.{max_slots};
ghost use Rattle.group_history.specs.declared.refs.Ref.{Ref as Reference};
ghost use Rattle.group_history.specs.declared.refusals.Refusal.TheVariants.{NoMemory};
ghost use Rattle.head_word.specs.Books.{book_opening};
ghost use Rattle.chunk_slots.specs.Inside.Appended.{numbers};

use crate::missed::{Busy, StoreStop};
use crate::opening::{first, placed_leaf, placed_snapshot};
use crate::placed::Placed;
use crate::shown::Shown;
use crate::store::{Slots, Store};
use boxcar::Keeps;
use boxcar::table::Table;
use boxcar::tag::{Names, Tag};
use group_history::{MAX_SLOTS, Means, Node, Ref, Refusal};
use head_word::{Head, Mark, Sight};
use reader_claims::Kind;
use std::alloc::Global;
use std::marker::Model;
use std::sync::Wait;

// Each node's mark is of the tag's book, and the node stands at the index of its stamp.
struct InBook;

impl<M: Means> Keeps<Placed<M>> for InBook {
    ghost use Rattle.std.specs.Prelude.{◌≡◌};
    ghost use Rattle.chunk_slots.specs.Inside.Appended.{numbers};

    ghost holds = { λ tag i placed. (numbers placed.mark.book ≡ tag) × (placed.stamp ≡ i) };
}

struct BookOfMark;

impl<M: Means> Names<Mark<M>> for BookOfMark {
    ghost use Rattle.chunk_slots.specs.Inside.Appended.{numbers};

    ghost numbers = { λ mark. numbers mark.book };
}

/// The nodes of a group, by their stamps. No slot is used again, so a group over it grows until memory or
/// the first 2^24 stamps end; what places a node may wait for another thread.
#[derive(Drop)]
pub struct Append<R, M: Means> {
    rt: R,
    nodes: Table<Placed<M>, InBook, Global>,
    seen: Sight<M>,
}

impl<R, M: Means> Model for Append<R, M> {
    ghost use Rattle.std.specs.Prelude.{◌≡◌};
    ghost use Rattle.logbook.specs.Pages.{Book, book_coded};
    ghost use Rattle.chunk_slots.specs.Inside.Appended.{numbers};

    ghost Value = { Book };

    ghost coded = { book_coded };

    ghost view = { λ a. a.seen.book };

    ghost invariant = { λ a. a.nodes.tag ≡ numbers a.seen.book };
}

/// A seat of a store that claims nothing.
#[derive(Drop)]
pub struct NoClaims;

fn no_claims(alloc: Global, seats: u32) -> Result<Vec<NoClaims>, Refusal>
    ensures count { IfOk result (λ all. length all.items ≡ seats) }
    ensures err { IfErr result (λ e. e ≡ NoMemory) }
{
    let mut all = Vec::with_capacity(alloc, seats as usize)?;
    for _ in 0..seats {
        all.push(NoClaims)?;
    }
    Ok(all)
}

// Puts a node of the table's book at the index of its stamp, unless it stands there. It goes round while another
// thread is putting it there, or is making the room.
fn put<R: Wait, M: Means>(
    rt: &R,
    nodes: &Table<Placed<M>, InBook, Global>,
    placed: Placed<M>,
) -> Result<(), Refusal>
    requires tag { numbers placed.mark.book ≡ nodes.now.tag }
    requires stamp { placed.stamp < max_slots }
    ensures err { IfErr result (λ e. e ≡ NoMemory) }
{
    let index = placed.stamp() as usize;
    let mut placed = placed;
    for _ in rt.forever() {
        // Room is made first, since `set_placed` doesn't tell a refused growth from an index that is in use.
        nodes.reserve_at(index)?;
        match nodes.set_placed(rt, index, placed) {
            Ok(_) => return Ok(()),
            Err(back) => placed = back,
        }
        if nodes.get(index).is_some() {
            return Ok(());
        }
        std::hint::spin_loop();
    }
    unreachable!()
}

// The opening's nodes have the first two stamps.
fn put_opening<R: Wait, M: Means>(
    alloc: Global,
    rt: &R,
    nodes: &Table<Placed<M>, InBook, Global>,
    mark: &Mark<M>,
) -> Result<(), Refusal>
    requires tag { nodes.now.tag ≡ numbers mark.now.book }
    requires log { (seats : ℕ) × (at : Reference) × (mark.now.log ≡ book_opening seats at) }
    ensures err { IfErr result (λ e. e ≡ NoMemory) }
{
    put(rt, nodes, placed_leaf(alloc, mark)?)?;
    put(rt, nodes, placed_snapshot(alloc, 0, mark)?)
}

impl<R, M: Means> Append<R, M> {
    ghost use Rattle.std.specs.Prelude.{◌≡◌, IfOk, IfErr};
    ghost use Rattle.chunk_slots.specs.Contents.{IsContent};
    ghost use Rattle.chunk_slots.specs.declared.missed.StoreStop.TheVariants.{Gone};

    fn look(&self, slot: u32, stamp: u64) -> Result<Shown<'_, M>, StoreStop>
        ensures book { IfOk result (λ shown. shown.mark.book ≡ self.now) }
        ensures content { IfOk result (λ shown. IsContent shown.mark.log stamp shown.node) }
        ensures stamp { IfOk result (λ shown. shown.stamp ≡ stamp) }
        ensures err { IfErr result (λ e. e ≡ Gone) }
    {
        if slot as u64 != stamp {
            return Err(StoreStop::Gone);
        }
        match self.nodes.get(slot as usize) {
            Some(placed) => Ok(Shown::lent(placed)),
            None => Err(StoreStop::Gone),
        }
    }
}

impl<R: Wait + Drop, M: Means> Append<R, M> {
    // With the opening's nodes.
    fn with_opening(alloc: Global, rt: R, mark: &Mark<M>) -> Result<Append<R, M>, Refusal>
        requires { (seats : ℕ) × (at : Reference) × (mark.now.log ≡ book_opening seats at) }
        ensures book { IfOk result (λ store. store ≡ mark.now.book) }
        ensures err { IfErr result (λ e. e ≡ NoMemory) }
    {
        let tag = Tag::of::<Mark<M>, BookOfMark>(mark);
        let nodes = Table::new(alloc, tag)?;
        put_opening(alloc, &rt, &nodes, mark)?;
        let seen = mark.sight();
        Ok(Append { rt, nodes, seen })
    }
}

impl<R: Sync + Drop, M: Means> Slots<M> for Append<R, M> {
    ghost use Rattle.std.specs.Prelude.{◌≡◌, None, IfErr};
    ghost use Rattle.chunk_slots.specs.Seats.{no_table, no_view};

    type Seat = NoClaims;

    ghost book = { λ a. a };

    ghost serves = { λ a. no_table };

    ghost home = { λ seat. no_table };

    ghost reused = { ⊥ };

    ghost view = { λ seat. no_view };

    fn show(&self, slot: u32, stamp: u64, _tries: u32) -> Result<Shown<'_, M>, StoreStop> {
        self.look(slot, stamp)
    }

    fn settle(&self, _seat: &mut NoClaims, _slot: u32) {}

    fn withdraw(&self, _seat: &mut NoClaims, _slot: u32) {}

    fn raise(&self, _seat: &mut NoClaims) -> Option<u64>
        ensures none { result ≡ None }
    {
        None
    }

    fn retire(&self, _seat: &mut NoClaims, _slot: u32, _r: u64) {}

    fn pin(&self, _seat: &mut NoClaims, _tries: u32) -> Result<(), Busy>
        ensures ok { IfErr result (λ _. ⊥) }
    {
        Ok(())
    }

    fn unpin(&self, _seat: &mut NoClaims) {}
}

impl<R: Wait + Sync + Drop, M: Means> Store<M> for Append<R, M> {
    ghost use Rattle.std.specs.Prelude.{◌≡◌, Some};

    type Parts = R;

    fn open(
        alloc: Global,
        parts: R,
        _slots: u32,
        seats: u32,
    ) -> Result<(Self, Vec<NoClaims>, Head<M>, Vec<Mark<M>>), Refusal> {
        let claims = no_claims(alloc, seats)?;
        let (head, marks) = Head::open(alloc, seats, 1)?;
        let store = Append::with_opening(alloc, parts, first(&marks))?;
        Ok((store, claims, head, marks))
    }

    fn place(
        &self,
        _seat: &mut NoClaims,
        mark: &Mark<M>,
        _slot: u32,
        stamp: u64,
        node: Node<Ref>,
        _tries: u32,
    ) -> Result<u32, Refusal> {
        if stamp >= MAX_SLOTS {
            return Err(Refusal::Full);
        }
        put(&self.rt, &self.nodes, Placed::new(stamp, node, mark))?;
        Ok(stamp as u32)
    }

    fn begin_at(&self, _seat: &mut NoClaims, _slot: u32) {}

    fn take_slot(&self, _seat: &mut NoClaims, _kind: Kind) -> Option<u32>
        ensures zero { result ≡ Some 0 }
    {
        Some(0)
    }
}
