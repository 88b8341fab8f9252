//! A gate for two threads: one of them comes to a certain moment, lets the other one go, and waits for it.
use super::gated::{Steps, StoreCall};
use std::sync::atomic::AtomicU64;
use std::sync::atomic::Ordering::SeqCst;

// How often a thread looks whether the other one has come. A turn is one load of an atomic word.
const TURNS: u64 = 1_000_000_000;

// Waits until the word shows the number, or a greater one; or for so many turns.
fn waits(word: &AtomicU64, number: u64) {
    for _ in 0..TURNS {
        if word.load(SeqCst) >= number {
            break;
        }
    }
}

// The side of a step on which the gate acts.
#[derive(Clone, Copy, PartialEq, Eq)]
pub(super) enum StepSide {
    Before,
    After,
}

// The moment of a step at which its thread is held.
#[derive(Clone, Copy, PartialEq, Eq)]
pub(super) struct Moment {
    pub(super) seat: usize,
    pub(super) step: StoreCall,
    pub(super) side: StepSide,
}

// What the threads tell each other: how far the second one may go, and how far it has come.
#[derive(Clone, Copy)]
pub(super) enum GateWord {
    Go,
    Done,
}

// The moments at which a thread is held: those whose number, counted from the first, is a multiple of `every`, and so
// often. In each round it says its word with the round's number, and waits for the other word.
#[derive(Clone, Copy)]
pub(super) struct Hold {
    pub(super) moment: Moment,
    pub(super) every: u64,
    pub(super) rounds: u64,
    pub(super) says: GateWord,
    // How far above the round the number is that it waits for.
    pub(super) above: u64,
}

#[derive(Drop)]
pub(super) struct Turns<'a> {
    holds: &'a [Hold],
    // How many of its moments each of the first two holds had.
    moments: [AtomicU64; 2],
    go: AtomicU64,
    done: AtomicU64,
}

impl<'a> Turns<'a> {
    pub(super) fn new(holds: &'a [Hold]) -> Turns<'a> {
        Turns {
            holds,
            moments: [AtomicU64::new(0), AtomicU64::new(0)],
            go: AtomicU64::new(0),
            done: AtomicU64::new(0),
        }
    }
}

impl Turns<'_> {
    pub(super) fn says(&self, word: GateWord, number: u64) {
        match word {
            GateWord::Go => self.go.store(number, SeqCst),
            GateWord::Done => self.done.store(number, SeqCst),
        }
    }

    pub(super) fn hears(&self, word: GateWord, number: u64) {
        match word {
            GateWord::Go => waits(&self.go, number),
            GateWord::Done => waits(&self.done, number),
        }
    }

    // A thread has ended: nobody need wait for it any more.
    pub(super) fn ends(&self) {
        self.go.store(u64::MAX, SeqCst);
        self.done.store(u64::MAX, SeqCst);
    }

    // The thread is held, where this is one of the moments of the hold.
    fn holds_at(&self, hold: &Hold, moments: &AtomicU64, moment: Moment) {
        if moment != hold.moment {
            return;
        }
        let every = hold.every.max(1);
        let number = moments.fetch_add(1, SeqCst).wrapping_add(1);
        let round = number / every;
        if number % every == 0 && round <= hold.rounds {
            self.says(hold.says, round);
            let other = match hold.says {
                GateWord::Go => GateWord::Done,
                GateWord::Done => GateWord::Go,
            };
            self.hears(other, round.wrapping_add(hold.above));
        }
    }

    fn reaches(&self, seat: usize, step: StoreCall, side: StepSide) {
        let moment = Moment { seat, step, side };
        for (hold, moments) in self.holds.iter().zip(self.moments.iter()) {
            self.holds_at(hold, moments, moment);
        }
    }
}

impl Steps for &Turns<'_> {
    fn before(&self, seat: usize, step: StoreCall) {
        self.reaches(seat, step, StepSide::Before);
    }

    fn after(&self, seat: usize, step: StoreCall) {
        self.reaches(seat, step, StepSide::After);
    }
}
