//! The steps of a seat at its store, and of a mark at its head, one after the other. They take no memory.
ghost use Rattle.std.specs.Prelude.{◌≡◌, IsSome, IfOk};

use crate::calls::Turn;
use crate::counts::Counted;
use crate::marks::{begins, ends};
use group_history::{Chunk, Keys, Leaf, Node, Ref, Refusal};
use head_word::{Head, Mark};
use reader_claims::Kind;
use script_mutators::ScriptMutators;
use std::alloc::Global;
use std::sync::Arc;

const TRIES: u32 = 9;

// What a mark draws stamps for.
fn empty_leaf(alloc: Global) -> Result<Leaf, Refusal> {
    let keys = Arc::new(alloc, Keys::new(Vec::new(alloc)))?;
    Ok(Leaf::new(keys, Vec::new(alloc)))
}

// Takes a slot, and retires it.
fn retires<S: Counted>(store: &S, seat: &mut S::Seat) -> bool
    requires { S.home seat.old ≡ S.serves store.now }
    ensures { S.home seat.new ≡ S.serves store.now }
{
    let Some(slot) = store.take_slot(seat, Kind::Ordinary) else {
        return false;
    };
    store.settle(seat, slot);
    if let Some(r) = store.raise(seat) {
        store.retire(seat, slot, r);
    }
    true
}

// Takes a slot, and gives it back.
fn withdraws<S: Counted>(store: &S, seat: &mut S::Seat) -> bool
    requires { S.home seat.old ≡ S.serves store.now }
    ensures { S.home seat.new ≡ S.serves store.now }
{
    let Some(slot) = store.take_slot(seat, Kind::PullEnd) else {
        return false;
    };
    store.withdraw(seat, slot);
    true
}

// What the head shows is looked at under a pin.
fn looks<S: Counted>(store: &S, at: Ref) -> bool {
    let Ok(shown) = store.show(at.slot(), at.stamp(), TRIES) else {
        return false;
    };
    let is_commit = matches!(shown.value(), Node::Commit(_));
    shown.leave();
    is_commit
}

// All that a seat does at its store.
fn claims<S: Counted>(store: &S, seat: &mut S::Seat, at: Ref) -> bool
    requires { S.home seat.old ≡ S.serves store.now }
{
    let pinned = store.pin(seat, TRIES).is_ok();
    let looked = looks(store, at);
    let retired = retires(store, seat);
    let withdrawn = withdraws(store, seat);
    store.unpin(seat);
    pinned && looked && retired && withdrawn
}

// A copy of the mark is learnt from, and stamps are drawn.
fn draws(head: &Head<ScriptMutators>, mark: &mut Mark<ScriptMutators>, leaf: Leaf) -> bool
    requires book { mark.old.book ≡ head.now }
    requires seat { IsSome mark.old.seat }
{
    let copy = mark.copy();
    head.learn(mark, &copy);
    let nodes = [Node::<Ref>::Chunk(Chunk::Leaf(leaf))];
    head.draft(mark, 2, &nodes).is_ok()
}

// A store, its head, and one of its seats and marks.
fn open_one<S: Counted>(
    alloc: Global,
    parts: S::Parts,
) -> Result<(S, S::Seat, Head<ScriptMutators>, Mark<ScriptMutators>), Refusal>
where
    S::Parts: Drop,
    ensures home { IfOk result (λ made. S.home made.1 ≡ S.serves made.0) }
    ensures book { IfOk result (λ made. made.3.book ≡ made.2) }
    ensures seat { IfOk result (λ made. IsSome made.3.seat) }
{
    let (store, mut seats, head, mut marks) = S::open(alloc, parts, 32, 3)?;
    let Some((seat, mark)) = seats.pop().zip(marks.pop()) else {
        return Err(Refusal::NoSeat);
    };
    Ok((store, seat, head, mark))
}

/// Opens a store, and makes each step once. Whether all are made.
pub(crate) fn steps<R, S: Counted>(it: &Turn<'_, R>, parts: S::Parts) -> Result<bool, Refusal>
where
    S::Parts: Drop,
{
    let alloc = it.rt.alloc();
    let leaf = empty_leaf(alloc)?;
    let (store, mut seat, head, mut mark) = open_one::<S>(alloc, parts)?;
    begins(it.rt, it.is_marked);
    let at = head.load(&mut mark);
    let claimed = claims(&store, &mut seat, at);
    let drew = draws(&head, &mut mark, leaf);
    ends(it.rt, it.is_marked);
    Ok(claimed && drew)
}
