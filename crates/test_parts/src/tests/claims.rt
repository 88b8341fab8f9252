//! Of the claims table: that slots are found and pins held.
use group_history::Refusal;
use reader_claims::{Claims, Kind, Slot};
use std::alloc::Global;
use test_group::{ClaimPlace, claim_places, two_of};

const LAST_EPOCH: u64 = 1 << 60;

fn takes(place: &mut ClaimPlace<'_>, kind: Kind) -> Option<Slot> {
    place.claims.take_slot(&mut place.seat, kind)
}

// How many slots of a kind it takes in 13 tries, and by how much their numbers, each a bit, add up.
fn takes_all(place: &mut ClaimPlace<'_>, kind: Kind) -> (u32, u64) {
    let mut taken = 0u32;
    let mut bits = 0u64;
    for _ in 0..13 {
        if let Some(slot) = takes(place, kind) {
            taken = taken.wrapping_add(1);
            bits |= 1u64.wrapping_shl(slot.number());
        }
    }
    (taken, bits)
}

// What a seat of a new table takes of the ordinary slots, and then of all.
fn taken_of_new(alloc: Global) -> Result<[(u32, u64); 2], Refusal> {
    let (claims, seats) = Claims::new(alloc, 16, 2)?;
    let mut places = claim_places(alloc, &claims, seats)?;
    let (one, _) = two_of(places.as_mut_slice())?;
    Ok([
        takes_all(one, Kind::Ordinary),
        takes_all(one, Kind::PullEnd),
    ])
}

// So many slots were taken as there are bits: none was taken twice.
#[test]
fn slots_are_taken_once_and_the_reserve_last(rt: HostRuntime) -> Result<(), Refusal> {
    let [(ordinary, some), (reserve, rest)] = taken_of_new(rt.alloc())?;
    assert!(rt; ordinary == 12 && reserve == 4);
    assert!(rt; some.count_ones() == 12 && some | rest == 0xffff);
    Ok(())
}

// A slot that S settled and retired can't be had while T has its pin, and is given once T has none.
fn retires_under(s: &mut ClaimPlace<'_>, t: &mut ClaimPlace<'_>) -> bool {
    let (claims, s) = (s.claims, &mut s.seat);
    let Some(slot) = claims.take_slot(s, Kind::Ordinary) else {
        return false;
    };
    claims.settle(s, slot);
    let held = t.claims.pin(&mut t.seat).is_ok();
    let e = claims.epoch(s);
    if !held || e >= LAST_EPOCH {
        return false;
    }
    claims.raise(s, e);
    claims.retire(s, slot, e + 1);
    let given_early = claims.give(s, slot);
    let taken_early = claims.take_slot(s, Kind::Ordinary);
    t.claims.unpin(&mut t.seat);
    let given = claims.give(s, slot);
    let taken = claims.take_slot(s, Kind::Ordinary);
    !given_early && taken_early.is_none() && given && taken == Some(slot)
}

fn takes_eleven(place: &mut ClaimPlace<'_>) -> bool {
    for _ in 0..11 {
        if takes(place, Kind::Ordinary).is_none() {
            return false;
        }
    }
    true
}

// Whether the last ordinary slot of a new table waits so. S has taken the other ones.
fn waits_in_new(alloc: Global) -> Result<bool, Refusal> {
    let (claims, seats) = Claims::new(alloc, 16, 2)?;
    let mut places = claim_places(alloc, &claims, seats)?;
    let (t, s) = two_of(places.as_mut_slice())?;
    Ok(takes_eleven(s) && retires_under(s, t))
}

#[test]
fn a_retired_slot_is_given_once_no_pin_holds_it(rt: HostRuntime) -> Result<(), Refusal> {
    assert!(rt; waits_in_new(rt.alloc())?);
    Ok(())
}
