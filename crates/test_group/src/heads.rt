//! Seats at a head, each with the mark of what it has seen.
ghost use Rattle.std.specs.Prelude.{◌≡◌, ◌<◌, IsSome, IfOk, IfSome};
ghost use Rattle.std.specs.List.{All};
ghost use Rattle.group_history.specs.Refs.{stamp_of, stamps, max_slots};
ghost use Rattle.head_word.specs.Marks.{HasSeat};
ghost use Rattle.test_group.specs.Trials.{bare_commit, SpellsBare};

use crate::bare::{Nobody, bare_change, bare_snapshot, first_cookie};
use group_history::{Cookie, Node, Ref, Refusal};
use head_word::{Head, Lost, Mark};
use std::alloc::Global;

/// A seat at its head.
#[derive(Drop)]
pub struct HeadPlace<'a> {
    pub head: &'a Head<Nobody>,
    pub mark: Mark<Nobody>,
    ghost same: { mark.book ≡ head.now },
    ghost seat: { IsSome mark.seat },
}

/// A place for the next seat.
pub fn next_head<'a>(
    head: &'a Head<Nobody>,
    marks: &mut Vec<Mark<Nobody>>,
) -> Result<HeadPlace<'a>, Refusal>
    requires { All (HasSeat head.now) marks.old.items }
    ensures marks { All (HasSeat head.now) marks.new.items }
    ensures head { IfOk result (λ place. place.head.now ≡ head.now) }
{
    match marks.pop() {
        Some(mark) => Ok(HeadPlace { head, mark }),
        None => Err(Refusal::NoSeat),
    }
}

/// Places for the next two seats.
pub fn two_heads<'a>(
    head: &'a Head<Nobody>,
    marks: &mut Vec<Mark<Nobody>>,
) -> Result<(HeadPlace<'a>, HeadPlace<'a>), Refusal>
    requires { All (HasSeat head.now) marks.old.items }
    ensures marks { All (HasSeat head.now) marks.new.items }
    ensures heads { IfOk result (λ places. (places.0.head.now ≡ head.now) × (places.1.head.now ≡ head.now)) }
{
    let one = next_head(head, marks)?;
    let two = next_head(head, marks)?;
    Ok((one, two))
}

// The snapshot of an empty map under the cookie, over the opening's leaf.
fn snapshot_at_first(alloc: Global, cookie: &Cookie) -> Result<Node<Ref>, Refusal>
    ensures { IfOk result (λ node. node ≡ bare_commit cookie.now (record { bits = 7 })) }
{
    bare_snapshot(alloc, cookie, Ref::new(0, 7))
}

// Drafts the snapshot of a pull that brings this cookie alone, over the opening's leaf.
fn drafts(
    head: &Head<Nobody>,
    mark: &mut Mark<Nobody>,
    alloc: Global,
    cookie: &Cookie,
) -> Result<Result<u64, Lost>, Refusal>
    requires book { mark.old.book ≡ head.now }
    requires seat { IsSome mark.old.seat }
    ensures book { mark.new.book ≡ mark.old.book }
    ensures seat { mark.new.seat ≡ mark.old.seat }
    ensures drawn { IfOk result (λ drew. IfOk drew
        (λ first. (1 < first) × (first < stamps) × SpellsBare mark.new.log first cookie.now)) }
{
    let nodes = [snapshot_at_first(alloc, cookie)?];
    mark.legal();
    Ok(head.draft(mark, 2, &nodes))
}

// Publishes the snapshot over the opening commit, wherever that lies.
fn publishes(
    head: &Head<Nobody>,
    mark: &mut Mark<Nobody>,
    alloc: Global,
    new: Ref,
    cookie: &Cookie,
) -> Result<bool, Refusal>
    requires book { mark.old.book ≡ head.now }
    requires seat { IsSome mark.old.seat }
    requires later { 1 < stamp_of new }
    requires drawn { SpellsBare mark.old.log (stamp_of new) cookie.now }
    ensures book { mark.new.book ≡ mark.old.book }
    ensures seat { mark.new.seat ≡ mark.old.seat }
{
    let change = bare_change(alloc, cookie)?;
    mark.legal();
    Ok(head.publish(mark, Ref::new(1, 5), new, &change).is_ok())
}

impl HeadPlace<'_> {
    /// The stamp and the slot of the commit at the head.
    pub fn looks(&mut self) -> (u64, u32)
        ensures { self.new.head ≡ self.old.head }
    {
        let at = self.head.load(&mut self.mark);
        (at.stamp(), at.slot())
    }

    /// Drafts the snapshot of a first pull: its stamp.
    pub fn draws(&mut self, alloc: Global) -> Result<Result<u64, Lost>, Refusal>
        ensures { self.new.head ≡ self.old.head }
    {
        let cookie = first_cookie(alloc)?;
        drafts(self.head, &mut self.mark, alloc, &cookie)
    }

    // Drafts the snapshot of a first pull and publishes it in this slot. The stamp, where it won.
    fn pulls_to(
        &mut self,
        alloc: Global,
        slot: u32,
        cookie: &Cookie,
    ) -> Result<Option<u64>, Refusal>
        requires { slot < max_slots }
        ensures { self.new.head ≡ self.old.head }
    {
        let Ok(first) = drafts(self.head, &mut self.mark, alloc, cookie)? else {
            return Ok(None);
        };
        let new = Ref::new(first, slot);
        let won = publishes(self.head, &mut self.mark, alloc, new, cookie)?;
        Ok(if won { Some(first) } else { None })
    }

    /// Makes a first pull, whose snapshot lies in this slot. The stamp, where it won.
    pub fn pulls(&mut self, alloc: Global, slot: u32) -> Result<Option<u64>, Refusal>
        requires { slot < max_slots }
        ensures { self.new.head ≡ self.old.head }
    {
        let cookie = first_cookie(alloc)?;
        self.pulls_to(alloc, slot, &cookie)
    }
}
