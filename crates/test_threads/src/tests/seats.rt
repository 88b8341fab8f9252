//! Of threads at one store, one head and one claims table, below the clients of a group.
ghost use Rattle.std.specs.Prelude.{◌<◌};
ghost use Rattle.group_history.specs.Refs.{max_slots};

use chunk_slots::{Arena, Store};
use group_history::Refusal;
use head_word::Head;
use reader_claims::{Claims, Kind};
use std::alloc::Global;
use std::sync::atomic::AtomicU64;
use std::sync::atomic::Ordering::SeqCst;
use std::thread::{Threads, join, map_vec};
use test_group::{
    ClaimPlace, HeadPlace, Nobody, SeatPlace, claim_places, next_head, opened_store, places_of,
    shows, two_heads,
};

const LAST_EPOCH: u64 = 1 << 60;

// How many nodes it placed and was then shown, and how many it was not.
fn storms<S: Store<Nobody>>(place: SeatPlace<'_, S>, alloc: Global) -> (u32, u32) {
    let (mut place, mut good, mut bad) = (place, 0u32, 0u32);
    for _ in 0..1_000 {
        let Ok(at) = place.puts(alloc) else {
            continue;
        };
        let shared = place.shared;
        if shows(&shared.store, at.slot(), at.stamp()) == Ok(true) {
            good = good.wrapping_add(1);
        } else {
            bad = bad.wrapping_add(1);
        }
        place.retires(at.slot());
    }
    (good, bad)
}

// The least number that one of four threads was shown, and how many they were not shown in all.
fn four_storm<R: Threads + Sync, S: Store<Nobody> + Drop>(
    rt: &R,
    alloc: Global,
    parts: S::Parts,
) -> Result<(u32, u32), Refusal> {
    let (shared, mut seats) = opened_store::<S>(alloc, parts, 16, 4)?;
    let places = places_of(alloc, &shared, &mut seats)?;
    let seen = map_vec(rt, places, &|place| storms(place, alloc))?;
    Ok(least_and_sum(&seen))
}

fn least_and_sum(seen: &[(u32, u32)]) -> (u32, u32) {
    let (mut least, mut sum) = (u32::MAX, 0u32);
    for (good, bad) in seen {
        least = least.min(*good);
        sum = sum.wrapping_add(*bad);
    }
    (least, sum)
}

#[test]
fn four_threads_share_the_slots(rt: HostRuntime) -> Result<(), Refusal> {
    let (good, bad) = four_storm::<HostRuntime, Arena<Nobody>>(&rt, rt.alloc(), ())?;
    assert!(rt; good > 0 && bad == 0);
    Ok(())
}

// How many stamps it drew of 500 tries.
fn draws_often(place: HeadPlace<'_>, alloc: Global) -> u32 {
    let (mut place, mut drew) = (place, 0u32);
    for _ in 0..500 {
        if let Ok(Ok(_)) = place.draws(alloc) {
            drew = drew.wrapping_add(1);
        }
    }
    drew
}

// How many stamps two threads drew, and the stamp that is drawn then.
fn drawn_by_two<R: Threads + Sync>(rt: &R, alloc: Global) -> Result<(u32, u64), Refusal> {
    let (head, mut marks) = Head::<Nobody>::open(alloc, 3, 5)?;
    let (one, two) = two_heads(&head, &mut marks)?;
    let (one, two) = join(rt, || draws_often(one, alloc), || draws_often(two, alloc));
    let next = next_head(&head, &mut marks)?.draws(alloc)?;
    Ok((one.wrapping_add(two), next.map_err(Refusal::from)?))
}

#[test]
fn two_threads_draw_each_stamp_once(rt: HostRuntime) -> Result<(), Refusal> {
    let (drew, next) = drawn_by_two(&rt, rt.alloc())?;
    assert!(rt; drew > 0);
    assert!(rt; next == drew as u64 + 2);
    Ok(())
}

// Whether it moved the head to this slot.
fn wins(place: HeadPlace<'_>, alloc: Global, slot: u32) -> bool
    requires { slot < max_slots }
{
    let mut place = place;
    match place.pulls(alloc, slot) {
        Ok(won) => won.is_some(),
        Err(_) => false,
    }
}

// Whether each of two threads moved the head, and in which slot it is then.
fn moved_by_two<R: Threads + Sync>(rt: &R, alloc: Global) -> Result<((bool, bool), u32), Refusal> {
    let (head, mut marks) = Head::<Nobody>::open(alloc, 3, 5)?;
    let (one, two) = two_heads(&head, &mut marks)?;
    let moved = join(rt, || wins(one, alloc, 6), || wins(two, alloc, 7));
    let mut next = next_head(&head, &mut marks)?;
    Ok((moved, next.looks().1))
}

#[test]
fn of_two_threads_one_moves_the_head(rt: HostRuntime) -> Result<(), Refusal> {
    let moved = moved_by_two(&rt, rt.alloc())?;
    assert!(rt; moved == ((true, false), 6) || moved == ((false, true), 7));
    Ok(())
}

fn pins_once(place: &mut ClaimPlace<'_>) -> bool {
    place.claims.pin(&mut place.seat).is_ok()
}

fn unpins(place: &mut ClaimPlace<'_>) {
    place.claims.unpin(&mut place.seat);
}

fn raises(place: &mut ClaimPlace<'_>) {
    let (claims, seat) = (place.claims, &mut place.seat);
    let e = claims.epoch(seat);
    if e < LAST_EPOCH {
        claims.raise(seat, e);
    }
}

// How many pins were held of ten thousand, after each of which it raises the epoch.
fn pins(place: ClaimPlace<'_>) -> u32 {
    let (mut place, mut held) = (place, 0u32);
    for _ in 0..10_000 {
        if pins_once(&mut place) {
            held = held.wrapping_add(1);
        }
        unpins(&mut place);
        raises(&mut place);
    }
    held
}

// How many pins four threads held.
fn four_pin<R: Threads + Sync>(rt: &R, alloc: Global) -> Result<u32, Refusal> {
    let (claims, seats) = Claims::new(alloc, 16, 4)?;
    let places = claim_places(alloc, &claims, seats)?;
    let held = map_vec(rt, places, &|place| pins(place))?;
    Ok(sum_of(&held))
}

fn sum_of(numbers: &[u32]) -> u32 {
    let mut sum = 0u32;
    for number in numbers {
        sum = sum.wrapping_add(*number);
    }
    sum
}

#[test]
fn four_threads_pin_and_raise(rt: HostRuntime) -> Result<(), Refusal> {
    assert!(rt; four_pin(&rt, rt.alloc())? > 0);
    Ok(())
}

// Whether the word shows the number as soon as it is stored there.
fn is_own(word: &AtomicU64, number: u64) -> bool {
    word.store(number, SeqCst);
    word.load(SeqCst) == number
}

// Takes a slot, writes its number beside it while it has it, and settles and retires it, or withdraws it. False where
// it finds another's number, and none where it gets no slot.
fn churn(place: &mut ClaimPlace<'_>, beside: &[AtomicU64], settles: bool) -> Option<bool> {
    let (claims, seat) = (place.claims, &mut place.seat);
    let slot = claims.take_slot(seat, Kind::PullEnd)?;
    let own = match beside.get(slot.number() as usize) {
        Some(word) => is_own(word, place.number),
        None => false,
    };
    if !settles {
        claims.withdraw(seat, slot);
        return Some(own);
    }
    claims.settle(seat, slot);
    let e = claims.epoch(seat);
    if e < LAST_EPOCH {
        claims.raise(seat, e);
        claims.retire(seat, slot, e + 1);
    }
    Some(own)
}

// How many slots it took, and how many foreign numbers it found: in ten thousand rounds, and in more as long as it got
// no slot. In some a pin keeps slots from being given.
fn churns(place: ClaimPlace<'_>, beside: &[AtomicU64]) -> (u32, u32) {
    let (mut place, mut taken, mut foreign) = (place, 0u32, 0u32);
    for round in 0..1_000_000u32 {
        if round >= 10_000 && taken > 0 {
            break;
        }
        if round % 8 == 0 {
            pins_once(&mut place);
        }
        match churn(&mut place, beside, round % 3 != 0) {
            Some(true) => taken = taken.wrapping_add(1),
            Some(false) => foreign = foreign.wrapping_add(1),
            None => {}
        }
        if round % 8 == 5 {
            unpins(&mut place);
        }
    }
    unpins(&mut place);
    (taken, foreign)
}

// A zero beside each of 16 slots.
fn zeros(alloc: Global) -> Result<Vec<AtomicU64>, Refusal> {
    let mut zeros = Vec::new(alloc);
    for _ in 0..16 {
        zeros.push(AtomicU64::new(0))?;
    }
    Ok(zeros)
}

// How many slots the thread took that took fewest, and how many foreign numbers all four found.
fn four_churn<R: Threads + Sync>(
    rt: &R,
    alloc: Global,
    beside: &[AtomicU64],
) -> Result<(u32, u32), Refusal> {
    let (claims, seats) = Claims::new(alloc, 16, 4)?;
    let places = claim_places(alloc, &claims, seats)?;
    let met = map_vec(rt, places, &|place| churns(place, beside))?;
    Ok(least_and_sum(&met))
}

#[test]
fn four_threads_find_no_foreign_number(rt: HostRuntime) -> Result<(), Refusal> {
    let beside = zeros(rt.alloc())?;
    let (fewest, foreign) = four_churn(&rt, rt.alloc(), &beside)?;
    assert!(rt; fewest > 0 && foreign == 0);
    Ok(())
}
