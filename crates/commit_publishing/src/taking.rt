//! Slots that are taken for a draft, and given back.
//!
//! They are kept as a stack: the slot taken last is used or given back first. So it is always the first of
//! those that the seat knows as taken.
ghost use Rattle.std.specs.Prelude.{ℕ, ◌≡◌, ◌⊎◌, ◌+◌, ◌<◌, ◌≤◌, ◌++◌, List, [], ◌∷◌, length, IfOk, IfErr, OnOk, OnErr};
ghost use Rattle.group_history.specs.declared.refusals.Refusal.TheVariants as refusal;
ghost use Rattle.reader_claims.specs.declared.view.View.{View};
ghost use Rattle.reader_claims.specs.Passes.{FindsNone, OnlyTakes};
ghost use Rattle.reader_claims.specs.Seats.{kind_end};
ghost use Rattle.commit_publishing.specs.Placed.{FoundNoneFor};
ghost use Rattle.commit_publishing.specs.Retiring.{draft_deeds};
ghost use Rattle.commit_publishing.specs.Inside.Stacks.{AreLower, HasTaken, IsButWithdrawn, PassedOver, Uses};
ghost use Rattle.commit_publishing.specs.Inside.Steps.{StepsOn};

use chunk_slots::{Slots, Store};
use group_history::{Means, Refusal};
use reader_claims::Kind;
use std::alloc::Global;

/// Gives taken slots back, the last one first.
pub(crate) fn withdraw_all<M: Means, S: Slots<M>>(store: &S, seat: &mut S::Seat, slots: Vec<u32>)
    requires home { S.home seat.old ≡ S.serves store.now }
    requires taken { S.reused → HasTaken (S.view seat.old) slots.items }
    ensures home { S.home seat.new ≡ S.serves store.now }
    ensures none { S.reused → (S.view seat.new).taken ≡ [] }
    ensures used { S.reused → Uses (S.view seat.old) [] (S.view seat.old).taken (S.view seat.new) }
    ensures kept { S.reused → IsButWithdrawn (S.view seat.old) (S.view seat.new) }
    ensures steps { S.reused → StepsOn (S.view seat.old) (S.view seat.new) }
{
    let mut slots = slots;
    while let Some(slot) = slots.pop() {
        store.withdraw(seat, slot);
    }
}

/// The slot that was taken last.
pub(crate) fn pop(slots: &mut Vec<u32>) -> u32
    requires { 0 < length slots.old.items }
    ensures { slots.old.items ≡ slots.new.items ++ result ∷ [] }
{
    match slots.pop() {
        Some(slot) => slot,
        None => unreachable!(),
    }
}

// Takes one more slot. Where it is refused, the seat has the slots that it had.
fn take_next<M: Means, S: Store<M>>(
    store: &S,
    seat: &mut S::Seat,
    kind: Kind,
    slots: &mut Vec<u32>,
) -> Result<(), Refusal>
    requires home { S.home seat.old ≡ S.serves store.now }
    requires taken { S.reused → HasTaken (S.view seat.old) slots.old.items }
    ensures home { S.home seat.new ≡ S.serves store.now }
    ensures taken { S.reused → HasTaken (S.view seat.new) slots.new.items }
    ensures more { OnOk result (length slots.new.items ≡ length slots.old.items + 1) }
    ensures same { OnErr result (slots.new.items ≡ slots.old.items) }
    ensures within { S.reused → AreLower (kind_end (S.serves store.now).sizes kind) slots.old.items
        → AreLower (kind_end (S.serves store.now).sizes kind) slots.new.items }
    ensures took { S.reused → OnOk result ((x : ℕ) × OnlyTakes (S.view seat.old) (S.view seat.new) (x ∷ [])) }
    ensures used { S.reused → OnErr result ((w : View) × (back : List ℕ) × (length back ≤ 1)
        × AreLower (kind_end (S.serves store.now).sizes kind) back
        × OnlyTakes (S.view seat.old) w back × Uses w [] back (S.view seat.new)) }
    ensures steps { S.reused → StepsOn (S.view seat.old) (S.view seat.new) }
    ensures full { S.reused → IfErr result
        (λ e. e ≡ refusal.Full → FindsNone (S.view seat.old) (S.view seat.new)
        (kind_end (S.serves store.now).sizes kind)) }
    ensures none { S.reused → IfErr result
        (λ e. e ≡ refusal.Full → OnlyTakes (S.view seat.old) (S.view seat.new) []) }
    ensures reused { IfErr result (λ e. e ≡ refusal.Full → S.reused) }
    ensures err { IfErr result (λ e. (e ≡ refusal.NoMemory) ⊎ (e ≡ refusal.Full)) }
{
    let Some(slot) = store.take_slot(seat, kind) else {
        return Err(Refusal::Full);
    };
    if slots.push(slot).is_err() {
        store.withdraw(seat, slot);
        return Err(Refusal::NoMemory);
    }
    Ok(())
}

// Takes so many slots more. Where it is refused, the seat has those that it took so far.
fn take_more<M: Means, S: Store<M>>(
    store: &S,
    seat: &mut S::Seat,
    kind: Kind,
    count: usize,
    slots: &mut Vec<u32>,
) -> Result<(), Refusal>
    requires home { S.home seat.old ≡ S.serves store.now }
    requires taken { S.reused → HasTaken (S.view seat.old) slots.old.items }
    ensures home { S.home seat.new ≡ S.serves store.now }
    ensures taken { S.reused → HasTaken (S.view seat.new) slots.new.items }
    ensures more { OnOk result (length slots.new.items ≡ length slots.old.items + count) }
    ensures few { OnErr result (length slots.new.items < length slots.old.items + count) }
    ensures within { S.reused → AreLower (kind_end (S.serves store.now).sizes kind) slots.old.items
        → AreLower (kind_end (S.serves store.now).sizes kind) slots.new.items }
    ensures took { S.reused → OnOk result ((taken : List ℕ) × OnlyTakes (S.view seat.old) (S.view seat.new) taken) }
    ensures used { S.reused → OnErr result ((w : View) × (taken back : List ℕ) × (length back ≤ 1)
        × AreLower (kind_end (S.serves store.now).sizes kind) back
        × OnlyTakes (S.view seat.old) w taken × Uses w [] back (S.view seat.new)) }
    ensures steps { S.reused → StepsOn (S.view seat.old) (S.view seat.new) }
    ensures full { S.reused → IfErr result
        (λ e. e ≡ refusal.Full → PassedOver (S.view seat.old) (S.view seat.new)
        (kind_end (S.serves store.now).sizes kind)) }
    ensures none { S.reused → IfErr result
        (λ e. e ≡ refusal.Full → (taken : List ℕ) × OnlyTakes (S.view seat.old) (S.view seat.new) taken) }
    ensures reused { IfErr result (λ e. e ≡ refusal.Full → S.reused) }
    ensures err { IfErr result (λ e. (e ≡ refusal.NoMemory) ⊎ (e ≡ refusal.Full)) }
{
    for held in 0..count {
        let _ = held;
        take_next::<M, S>(store, seat, kind, slots)?;
    }
    Ok(())
}

/// Takes so many slots, all or none.
pub(crate) fn take_all<M: Means, S: Store<M>>(
    alloc: Global,
    store: &S,
    seat: &mut S::Seat,
    kind: Kind,
    count: usize,
) -> Result<Vec<u32>, Refusal>
    requires home { S.home seat.old ≡ S.serves store.now }
    requires none { S.reused → (S.view seat.old).taken ≡ [] }
    ensures home { S.home seat.new ≡ S.serves store.now }
    ensures count { IfOk result (λ slots. length slots.items ≡ count) }
    ensures taken { S.reused → IfOk result (λ slots. HasTaken (S.view seat.new) slots.items) }
    ensures within { S.reused → IfOk result (λ slots. AreLower (kind_end (S.serves store.now).sizes kind) slots.items) }
    ensures none { S.reused → OnErr result ((S.view seat.new).taken ≡ []) }
    ensures took { S.reused → OnOk result (OnlyTakes (S.view seat.old) (S.view seat.new) (S.view seat.new).taken) }
    ensures given { S.reused → OnErr result ((back : List ℕ) × (length back ≤ count)
        × AreLower (kind_end (S.serves store.now).sizes kind) back
        × ((S.view seat.new).deeds ≡ draft_deeds [] back (S.view seat.old).deeds)) }
    ensures steps { S.reused → StepsOn (S.view seat.old) (S.view seat.new) }
    ensures full { S.reused → IfErr result
        (λ e. e ≡ refusal.Full → FoundNoneFor (S.view seat.old) (S.view seat.new)
        (kind_end (S.serves store.now).sizes kind) count) }
    ensures reused { IfErr result (λ e. e ≡ refusal.Full → S.reused) }
    ensures err { IfErr result (λ e. (e ≡ refusal.NoMemory) ⊎ (e ≡ refusal.Full)) }
{
    let mut slots = Vec::with_capacity(alloc, count)?;
    match take_more::<M, S>(store, seat, kind, count, &mut slots) {
        Ok(()) => {
            return Ok(slots);
        }
        Err(refused) => {
            withdraw_all::<M, S>(store, seat, slots);
            return Err(refused);
        }
    }
}
