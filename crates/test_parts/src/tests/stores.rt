//! Of the stores: that calls succeed, and which slots they find.
use chunk_slots::{Append, Arena, Placed, Store, StoreStop};
use counted_slot::Counted;
use group_history::{Commit, CommitKind, Node, Ref, Refusal};
use std::alloc::Global;
use std::mem::size_of;
use test_group::{Nobody, SeatPlace, next_place, opened_store, shows};

const _: () = prove!(size_of::<Counted<Option<Placed<Nobody>>>>() == 72);

// A commit lies behind a pointer, so that a node is as small as a chunk.
const _: () = prove!(size_of::<Node<Ref>>() == 48);

fn snapshot_root(commit: &Commit<Ref>) -> Option<Ref> {
    match &commit.kind {
        CommitKind::Snapshot(_) => Some(commit.root),
        CommitKind::Over(_) => None,
    }
}

// The root of the snapshot that is shown.
fn shows_root<S: Store<Nobody>>(store: &S, at: Ref) -> Result<Option<Ref>, StoreStop> {
    let shown = store.show(at.slot(), at.stamp(), 100)?;
    let root = match shown.value() {
        Node::Commit(commit) => snapshot_root(commit.as_commit()),
        Node::Chunk(_) => None,
    };
    shown.leave();
    Ok(root)
}

// What a store shows when it is opened: where the leaf and the snapshot lie, and whether nothing else is shown.
#[derive(Clone, Copy)]
struct Opening {
    leaf: Ref,
    snapshot: Ref,
    shows: [Result<bool, StoreStop>; 6],
}

fn look_around<S: Store<Nobody>>(place: &mut SeatPlace<'_, S>) -> Result<Opening, Refusal> {
    let shared = place.shared;
    let at = shared.head.load(&mut place.seat.mark);
    let store = &shared.store;
    let Ok(Some(root)) = shows_root(store, at) else {
        return Err(Refusal::Gone);
    };
    Ok(Opening {
        leaf: root,
        snapshot: at,
        shows: [
            shows(store, root.slot(), 0),
            shows(store, root.slot(), 1),
            shows(store, at.slot(), 1),
            shows(store, at.slot(), 0),
            shows(store, 15, 5),
            shows(store, 999, 5),
        ],
    })
}

const SHOWN_AT_FIRST: [Result<bool, StoreStop>; 6] = [
    Ok(true),
    Err(StoreStop::Gone),
    Ok(false),
    Err(StoreStop::Gone),
    Err(StoreStop::Gone),
    Err(StoreStop::Gone),
];

fn may_cross<T: Send + Sync>(_value: &T) {}

// Whether a copy of the mark learns what is shown.
fn learns<S: Store<Nobody>>(place: &SeatPlace<'_, S>, at: Ref) -> bool {
    let shared = place.shared;
    may_cross(&shared.head);
    may_cross(&place.seat.mark);
    let Ok(shown) = shared.store.show(at.slot(), at.stamp(), 100) else {
        return false;
    };
    let mut copy = place.seat.mark.copy();
    shared.head.learn(&mut copy, shown.mark());
    shown.leave();
    copy.seat().is_none()
}

// A node's life: where it lies, whether it is shown, and under the next stamp; whether a copy of the mark learns it;
// whether a pin is held, a slot is retired, and the node still shown then.
#[derive(Clone, Copy)]
struct Life {
    at: Ref,
    shown: [Result<bool, StoreStop>; 2],
    learnt: bool,
    pinned: bool,
    retired: bool,
    still: Result<bool, StoreStop>,
}

fn life_of<S: Store<Nobody>>(place: &mut SeatPlace<'_, S>, alloc: Global) -> Result<Life, Refusal> {
    let at = place.puts(alloc)?;
    let shared = place.shared;
    let store = &shared.store;
    let shown = [
        shows(store, at.slot(), at.stamp()),
        shows(store, at.slot(), at.stamp().wrapping_add(1)),
    ];
    let learnt = learns(place, at);
    let pinned = place.pins();
    let retired = place.retires(at.slot());
    Ok(Life {
        at,
        shown,
        learnt,
        pinned,
        retired,
        still: shows(store, at.slot(), at.stamp()),
    })
}

// What a new store shows, and a node's life there.
fn seen_in_new<S: Store<Nobody> + Drop>(
    alloc: Global,
    parts: S::Parts,
) -> Result<(Opening, Life), Refusal> {
    let (shared, mut seats) = opened_store::<S>(alloc, parts, 16, 1)?;
    let mut place = next_place(&shared, &mut seats)?;
    let opening = look_around(&mut place)?;
    let life = life_of(&mut place, alloc)?;
    Ok((opening, life))
}

// Whether the opening's two nodes and one that was placed are shown, each in its slot and under its stamp alone, and
// the placed one is shown once it is retired under a pin.
fn shows_each(opening: &Opening, life: &Life) -> bool {
    opening.shows == SHOWN_AT_FIRST
        && life.shown == [Ok(true), Err(StoreStop::Gone)]
        && life.learnt
        && life.pinned
        && life.still == Ok(true)
}

#[test]
fn an_arena_shows_what_it_has(rt: HostRuntime) -> Result<(), Refusal> {
    let (opening, life) = seen_in_new::<Arena<Nobody>>(rt.alloc(), ())?;
    let (leaf, snapshot) = (opening.leaf, opening.snapshot);
    assert!(rt; shows_each(&opening, &life) && life.retired);
    assert!(rt; leaf.stamp() == 0 && snapshot.stamp() == 1 && leaf.slot() != snapshot.slot());
    Ok(())
}

#[test]
fn a_vector_shows_what_it_has(rt: HostRuntime) -> Result<(), Refusal> {
    let (opening, life) = seen_in_new::<Append<&HostRuntime, Nobody>>(rt.alloc(), &rt)?;
    assert!(rt; shows_each(&opening, &life) && !life.retired && life.at.slot() == 2);
    assert!(rt; opening.leaf == Ref::new(0, 0) && opening.snapshot == Ref::new(1, 1));
    Ok(())
}

// A slot that is retired under a reader: what a place there answers, and whether the reader's node is still shown;
// then, without the reader, whether the same slot is used, and what it shows under the old stamp and the new one.
#[derive(Clone, Copy)]
struct Reuse {
    lost: Option<Refusal>,
    still: Result<bool, StoreStop>,
    same: bool,
    old: Result<bool, StoreStop>,
    new: Result<bool, StoreStop>,
}

// Retires the slot under a reader: what a place there answers, and whether the reader's node is still shown.
fn retires_under_reader<S: Store<Nobody>>(
    place: &mut SeatPlace<'_, S>,
    alloc: Global,
    at: Ref,
) -> Result<(Option<Refusal>, Result<bool, StoreStop>), Refusal> {
    let shared = place.shared;
    let store = &shared.store;
    let Ok(held) = store.show(at.slot(), at.stamp(), 1) else {
        return Err(Refusal::Gone);
    };
    place.retires(at.slot());
    let lost = place.puts(alloc).err();
    let still = shows(store, at.slot(), at.stamp());
    held.leave();
    Ok((lost, still))
}

fn reuse_of<S: Store<Nobody>>(
    place: &mut SeatPlace<'_, S>,
    alloc: Global,
) -> Result<Reuse, Refusal> {
    let first = place.puts(alloc)?;
    let (lost, still) = retires_under_reader(place, alloc, first)?;
    let again = place.puts(alloc)?;
    let shared = place.shared;
    let store = &shared.store;
    Ok(Reuse {
        lost,
        still,
        same: again.slot() == first.slot(),
        old: shows(store, first.slot(), first.stamp()),
        new: shows(store, first.slot(), again.stamp()),
    })
}

fn reuse_in_new<S: Store<Nobody> + Drop>(alloc: Global, parts: S::Parts) -> Result<Reuse, Refusal> {
    let (shared, mut seats) = opened_store::<S>(alloc, parts, 16, 1)?;
    let mut place = next_place(&shared, &mut seats)?;
    reuse_of(&mut place, alloc)
}

#[test]
fn a_slot_used_again_shows_the_new_stamp_alone(rt: HostRuntime) -> Result<(), Refusal> {
    let seen = reuse_in_new::<Arena<Nobody>>(rt.alloc(), ())?;
    let memory = seen.lost == Some(Refusal::NoMemory);
    assert!(rt; memory || seen.lost == Some(Refusal::Busy) && seen.still == Ok(true));
    assert!(rt; memory || seen.same && seen.old == Err(StoreStop::Gone) && seen.new == Ok(true));
    Ok(())
}
