//! A draft's nodes in their slots.
ghost use Rattle.std.specs.Prelude.{ℕ, ◌≡◌, ◌⊎◌, ◌+◌, ◌<◌, ◌≤◌, ◌++◌, ◌∷◌, List, [], map, max, reverse, true, IfOk};
ghost use Rattle.std.specs.Prelude.{IfErr, OnOk, OnErr, length};
ghost use Rattle.group_history.specs.Refs.{max_slots, stamp_of, slot_of, stamps};
ghost use Rattle.group_history.specs.declared.refs.Ref.{Ref as Reference};
ghost use Rattle.group_history.specs.declared.refusals.Refusal.TheVariants as refusal;
ghost use Rattle.head_word.specs.Books.{next_stamp, drawn};
ghost use Rattle.head_word.specs.Marks.{others};
ghost use Rattle.map_chunks.specs.Drafts.{AreChildrenBelow, IsLate};
ghost use Rattle.chunk_slots.specs.Contents.{IsContent};
ghost use Rattle.reader_claims.specs.declared.view.View.{View};
ghost use Rattle.reader_claims.specs.Lists.{In};
ghost use Rattle.reader_claims.specs.Deeds as deed;
ghost use Rattle.reader_claims.specs.Deeds.{Deed};
ghost use Rattle.reader_claims.specs.Seats.{kind_end};
ghost use Rattle.reader_claims.specs.Views.{with_settled};
ghost use Rattle.group_history.specs.Naming.{renamed, placed_ref};
ghost use Rattle.linearized.specs.Answered.{own_moves, is_resource_refusal};
ghost use Rattle.commit_graph.specs.Seats.{IsSeatOf, IsSameSeat, StaysHeld};
ghost use Rattle.commit_publishing.specs.Stamped.{AreFrom};
ghost use Rattle.commit_publishing.specs.Placed.{AreDrawnBy, IsPlaced, FoundNoneFor, LieBelow};
ghost use Rattle.commit_publishing.specs.Retiring.{AreFreed, GivesOneUp, draft_deeds};
ghost use Rattle.commit_publishing.specs.Inside.Stacks.{AreLower, HasTaken, StayBelow, Uses, UsesMore};
ghost use Rattle.commit_publishing.specs.Inside.Steps.{AreDrawn, AddsOne, MayRefusePlace, StepsOn};

use crate::drawing::draw;
use crate::retiring::retire_all;
use crate::taking::{pop, take_all, withdraw_all};
use chunk_slots::{Slots, Store};
use commit_graph::{ClientSeat, Shared};
use group_history::{CommitKind, Means, Node, Ref, Refusal};
use head_word::Mark;
use map_chunks::Draft;
use reader_claims::Kind;
use std::alloc::Global;

// How nodes are placed that have drawn their stamps: in which store, by what a mark of its book knows, from which
// numbers to which stamps, and with how many tries.
#[derive(Drop)]
struct Placing<'a, M: Means, S: Slots<M>> {
    store: &'a S,
    mark: &'a Mark<M>,
    from: u64,
    first: u64,
    tries: u32,
    ghost same: { mark.now.book ≡ S.book store.now },
}

// Places a node in a taken slot, under the next stamp, and settles the slot. Where it is refused, the seat and the
// references stay as they are.
fn place_one<M: Means, S: Store<M>>(
    to: &Placing<'_, M, S>,
    seat: &mut S::Seat,
    slot: u32,
    node: Node<Ref>,
    refs: &mut Vec<Ref>,
) -> Result<(), Refusal>
    requires home { S.home seat.old ≡ S.serves to.now.store.now }
    requires taken { S.reused → In (S.view seat.old).taken slot }
    requires stamp { to.now.first + length refs.old.items < stamps }
    requires drawn { IsContent to.now.mark.now.log (to.now.first + length refs.old.items) node }
    ensures home { S.home seat.new ≡ S.serves to.now.store.now }
    ensures placed { OnOk result ((at : Reference) × (refs.new.items ≡ refs.old.items ++ at ∷ [])
        × (stamp_of at ≡ to.now.first + length refs.old.items) × (S.reused → slot_of at ≡ slot)) }
    ensures settled { S.reused → OnOk result (S.view seat.new ≡ with_settled (S.view seat.old) slot) }
    ensures steps { S.reused → StepsOn (S.view seat.old) (S.view seat.new) }
    ensures same { OnErr result ((refs.new.items ≡ refs.old.items) × (seat.new ≡ seat.old)) }
    ensures err { IfErr result (MayRefusePlace S.reused) }
    ensures past { IfErr result (λ e. e ≡ refusal.Full → max_slots ≤ to.now.first + length refs.old.items) }
{
    let stamp = to.first + refs.len() as u64;
    let at = to.store.place(seat, to.mark, slot, stamp, node, to.tries)?;
    refs.push(Ref::new(stamp, at))?;
    to.store.settle(seat, slot);
    Ok(())
}

// Places a node, whose children are named as they were placed, in the slot that was taken last. Where it is refused,
// that slot is withdrawn.
fn place_next<M: Means, S: Store<M>>(
    to: &Placing<'_, M, S>,
    seat: &mut S::Seat,
    node: Node<Ref>,
    slots: &mut Vec<u32>,
    refs: &mut Vec<Ref>,
) -> Result<(), Refusal>
    requires home { S.home seat.old ≡ S.serves to.now.store.now }
    requires some { 0 < length slots.old.items }
    requires taken { S.reused → HasTaken (S.view seat.old) slots.old.items }
    requires stamp { to.now.first + length refs.old.items < stamps }
    requires drawn { IsContent to.now.mark.now.log (to.now.first + length refs.old.items)
        (renamed (placed_ref to.now.from refs.old.items) node) }
    ensures home { S.home seat.new ≡ S.serves to.now.store.now }
    ensures taken { S.reused → HasTaken (S.view seat.new) slots.new.items }
    ensures less { length slots.old.items ≡ length slots.new.items + 1 }
    ensures placed { OnOk result (AddsOne (to.now.first + length refs.old.items) refs.old.items refs.new.items) }
    ensures same { OnErr result (refs.new.items ≡ refs.old.items) }
    ensures used { S.reused → OnOk result
        (UsesMore (S.view seat.old) refs.old.items (S.view seat.new) refs.new.items []) }
    ensures back { S.reused → OnErr result ((back : List ℕ)
        × UsesMore (S.view seat.old) refs.old.items (S.view seat.new) refs.new.items back) }
    ensures within { S.reused → StayBelow slots.old.items refs.old.items slots.new.items refs.new.items }
    ensures steps { S.reused → StepsOn (S.view seat.old) (S.view seat.new) }
    ensures err { IfErr result (MayRefusePlace S.reused) }
    ensures past { IfErr result (λ e. e ≡ refusal.Full → max_slots ≤ to.now.first + length refs.old.items) }
{
    let slot = pop(slots);
    let node = node.renamed(to.from, refs);
    let placed = place_one::<M, S>(to, seat, slot, node, refs);
    if placed.is_err() {
        to.store.withdraw(seat, slot);
    }
    placed
}

// Places the nodes, each in the slot that was taken last.
fn place_each<M: Means, S: Store<M>>(
    to: &Placing<'_, M, S>,
    seat: &mut S::Seat,
    nodes: Vec<Node<Ref>>,
    slots: &mut Vec<u32>,
    refs: &mut Vec<Ref>,
) -> Result<(), Refusal>
    requires home { S.home seat.old ≡ S.serves to.now.store.now }
    requires slots { length slots.old.items ≡ length nodes.items }
    requires taken { S.reused → HasTaken (S.view seat.old) slots.old.items }
    requires refs { refs.old.items ≡ [] }
    requires room { to.now.first + length nodes.items < stamps }
    requires order { AreChildrenBelow to.now.from nodes.items }
    requires drawn { AreDrawn to.now.from to.now.first nodes.items (drawn to.now.mark.now.log) }
    ensures home { S.home seat.new ≡ S.serves to.now.store.now }
    ensures stamps { AreFrom to.now.first refs.new.items }
    ensures all { OnOk result (length refs.new.items ≡ length nodes.items) }
    ensures empty { OnOk result (slots.new.items ≡ []) }
    ensures taken { S.reused → HasTaken (S.view seat.new) slots.new.items }
    ensures used { S.reused → OnOk result (Uses (S.view seat.old) (map slot_of refs.new.items) [] (S.view seat.new)) }
    ensures back { S.reused → OnErr result ((back : List ℕ)
        × Uses (S.view seat.old) (map slot_of refs.new.items) back (S.view seat.new)) }
    ensures within { S.reused → (end : ℕ) → AreLower end slots.old.items → LieBelow end refs.new.items }
    ensures steps { S.reused → StepsOn (S.view seat.old) (S.view seat.new) }
    ensures err { IfErr result (MayRefusePlace S.reused) }
    ensures past { IfErr result (λ e. e ≡ refusal.Full → max_slots ≤ to.now.first + length nodes.items) }
{
    for node in nodes {
        place_next::<M, S>(to, seat, node, slots, refs)?;
    }
    Ok(())
}

// The same, with room made for all references at once.
fn place_all<M: Means, S: Store<M>>(
    to: &Placing<'_, M, S>,
    seat: &mut S::Seat,
    nodes: Vec<Node<Ref>>,
    slots: &mut Vec<u32>,
    refs: &mut Vec<Ref>,
) -> Result<(), Refusal>
    requires home { S.home seat.old ≡ S.serves to.now.store.now }
    requires slots { length slots.old.items ≡ length nodes.items }
    requires taken { S.reused → HasTaken (S.view seat.old) slots.old.items }
    requires refs { refs.old.items ≡ [] }
    requires room { to.now.first + length nodes.items < stamps }
    requires order { AreChildrenBelow to.now.from nodes.items }
    requires drawn { AreDrawn to.now.from to.now.first nodes.items (drawn to.now.mark.now.log) }
    ensures home { S.home seat.new ≡ S.serves to.now.store.now }
    ensures stamps { AreFrom to.now.first refs.new.items }
    ensures all { OnOk result (length refs.new.items ≡ length nodes.items) }
    ensures empty { OnOk result (slots.new.items ≡ []) }
    ensures taken { S.reused → HasTaken (S.view seat.new) slots.new.items }
    ensures used { S.reused → OnOk result (Uses (S.view seat.old) (map slot_of refs.new.items) [] (S.view seat.new)) }
    ensures back { S.reused → OnErr result ((back : List ℕ)
        × Uses (S.view seat.old) (map slot_of refs.new.items) back (S.view seat.new)) }
    ensures within { S.reused → (end : ℕ) → AreLower end slots.old.items → LieBelow end refs.new.items }
    ensures steps { S.reused → StepsOn (S.view seat.old) (S.view seat.new) }
    ensures err { IfErr result (MayRefusePlace S.reused) }
    ensures past { IfErr result (λ e. e ≡ refusal.Full → max_slots ≤ to.now.first + length nodes.items) }
{
    refs.reserve_exact(nodes.len())?;
    place_each::<M, S>(to, seat, nodes, slots, refs)
}

// Gives up what was placed so far: withdraws the slots that are left, and retires those of the references.
fn give_up<M: Means, S: Slots<M>>(store: &S, seat: &mut S::Seat, slots: Vec<u32>, refs: Vec<Ref>)
    requires home { S.home seat.old ≡ S.serves store.now }
    requires taken { S.reused → HasTaken (S.view seat.old) slots.items }
    ensures home { S.home seat.new ≡ S.serves store.now }
    ensures none { S.reused → (S.view seat.new).taken ≡ [] }
    ensures freed { S.reused → (v : View) (back : List ℕ) → Uses v (map slot_of refs.items) back (S.view seat.old)
        → (withdrawn : List ℕ) × (v.taken ≡ map slot_of refs.items ++ withdrawn)
        × AreFreed (S.serves store.now).sizes.slots (S.view seat.new).reached (map slot_of refs.items)
        (map deed.withdrew (reverse withdrawn) ++ (map deed.settled (reverse (map slot_of refs.items)) ++ v.deeds))
        (S.view seat.new).deeds }
    ensures steps { S.reused → StepsOn (S.view seat.old) (S.view seat.new) }
{
    withdraw_all::<M, S>(store, seat, slots);
    retire_all::<M, S>(store, seat, &refs);
}

// Places the nodes of a draft in the slots that were taken for them.
fn place_drawn<M: Means, S: Store<M>>(
    alloc: Global,
    to: &Placing<'_, M, S>,
    seat: &mut S::Seat,
    nodes: Vec<Node<Ref>>,
    slots: Vec<u32>,
) -> Result<Vec<Ref>, Refusal>
    requires home { S.home seat.old ≡ S.serves to.now.store.now }
    requires slots { length slots.items ≡ length nodes.items }
    requires taken { S.reused → HasTaken (S.view seat.old) slots.items }
    requires room { to.now.first + length nodes.items < stamps }
    requires order { AreChildrenBelow to.now.from nodes.items }
    requires drawn { AreDrawn to.now.from to.now.first nodes.items (drawn to.now.mark.now.log) }
    ensures home { S.home seat.new ≡ S.serves to.now.store.now }
    ensures stamps { IfOk result (λ refs. AreFrom to.now.first refs.items) }
    ensures count { IfOk result (λ refs. length refs.items ≡ length nodes.items) }
    ensures none { S.reused → (S.view seat.new).taken ≡ [] }
    ensures used { S.reused → (xs : List Deed) → (S.view seat.old).deeds ≡ map deed.took (S.view seat.old).taken ++ xs
        → IfOk result (λ refs. (S.view seat.new).deeds ≡ draft_deeds (map slot_of refs.items) [] xs) }
    ensures within { S.reused → (end : ℕ) → AreLower end slots.items
        → IfOk result (λ refs. LieBelow end refs.items) }
    ensures given { S.reused → (xs : List Deed) → (S.view seat.old).deeds ≡ map deed.took (S.view seat.old).taken ++ xs
        → OnErr result ((settled withdrawn : List ℕ) × ((S.view seat.old).taken ≡ settled ++ withdrawn)
        × AreFreed (S.serves to.now.store.now).sizes.slots (S.view seat.new).reached settled
        (draft_deeds settled withdrawn xs) (S.view seat.new).deeds) }
    ensures steps { S.reused → StepsOn (S.view seat.old) (S.view seat.new) }
    ensures err { IfErr result (MayRefusePlace S.reused) }
    ensures past { IfErr result (λ e. e ≡ refusal.Full → max_slots ≤ to.now.first + length nodes.items) }
{
    let mut slots = slots;
    let mut refs = Vec::new(alloc);
    match place_all::<M, S>(to, seat, nodes, &mut slots, &mut refs) {
        Ok(()) => {
            return Ok(refs);
        }
        Err(refused) => {
            give_up::<M, S>(to.store, seat, slots, refs);
            return Err(refused);
        }
    }
}

// Draws the stamps of a draft, and places it in the slots that were taken for it.
fn place_taken<M: Means, S: Store<M>>(
    shared: &Shared<M, S>,
    seat: &mut ClientSeat<M, S>,
    draft: Draft,
    slots: Vec<u32>,
    tries: u32,
) -> Result<Vec<Ref>, Refusal>
    requires home { IsSeatOf shared.now seat.old }
    requires slots { length slots.items ≡ length draft.nodes }
    requires taken { S.reused → HasTaken seat.old.view slots.items }
    requires some { 0 < length draft.nodes }
    requires first { draft.first ≤ next_stamp seat.old.mark.log }
    ensures seat { IsSameSeat seat.old seat.new }
    ensures own { own_moves seat.new.mark ≡ own_moves seat.old.mark }
    ensures placed { IfOk result
        (λ refs. IsPlaced (drawn seat.old.mark.log) (drawn seat.new.mark.log) draft refs.items) }
    ensures drawn { IfOk result (λ refs. AreDrawnBy seat.old.mark seat.new.mark refs.items) }
    ensures none { S.reused → seat.new.view.taken ≡ [] }
    ensures used { S.reused → (xs : List Deed) → seat.old.view.deeds ≡ map deed.took seat.old.view.taken ++ xs
        → IfOk result (λ refs. seat.new.view.deeds ≡ draft_deeds (map slot_of refs.items) [] xs) }
    ensures within { S.reused → (end : ℕ) → AreLower end slots.items
        → IfOk result (λ refs. LieBelow end refs.items) }
    ensures given { S.reused → (xs : List Deed) (end : ℕ)
        → seat.old.view.deeds ≡ map deed.took seat.old.view.taken ++ xs
        → AreLower end slots.items → OnErr result (GivesOneUp shared.now.table.sizes.slots end (length draft.nodes) xs
        seat.old seat.new) }
    ensures steps { S.reused → StepsOn seat.old.view seat.new.view }
    ensures moved { IfErr result
        (λ e. e ≡ refusal.Moved → others seat.old.mark + max 1 tries ≤ others seat.new.mark) }
    ensures stamps { IfErr result
        (λ e. e ≡ refusal.Stamps → stamps ≤ next_stamp seat.new.mark.log + length draft.nodes) }
    ensures late { IfErr result (λ e. e ≡ refusal.Stamps → IsLate (next_stamp seat.new.mark.log)) }
    ensures past { IfErr result (λ e. e ≡ refusal.Full → max_slots ≤ next_stamp seat.new.mark.log) }
    ensures err { IfErr result
        (λ e. (e ≡ refusal.Moved) ⊎ ((e ≡ refusal.Stamps) ⊎ MayRefusePlace S.reused e)) }
{
    let from = draft.first();
    match draw(&shared.head, &mut seat.mark, from, draft.nodes(), tries) {
        Ok(first) => {
            let to = Placing {
                store: &shared.store,
                mark: &seat.mark,
                from,
                first,
                tries,
            };
            let nodes = draft.into_nodes();
            return place_drawn::<M, S>(shared.alloc, &to, &mut seat.slots, nodes, slots);
        }
        Err(refused) => {
            withdraw_all::<M, S>(&shared.store, &mut seat.slots, slots);
            return Err(refused);
        }
    }
}

// Slots are sought from that of the placed commit below the draft's on: it was placed last, by whichever seat, so what
// lies there is in the processors' caches.
fn begin_at_basis<M: Means, S: Store<M>>(store: &S, seat: &mut S::Seat, draft: &Draft)
    ensures seat { seat.new ≡ seat.old }
{
    if let Some(Node::Commit(commit)) = draft.nodes().last() {
        if let CommitKind::Over(over) = &commit.as_commit().kind {
            if over.basis.stamp() < draft.first() {
                store.begin_at(seat, over.basis.slot());
            }
        }
    }
}

/// Places a draft: takes a slot for each of its nodes, draws their stamps, and puts each node into a slot, which is
/// settled then, children before parents. Answers the references under which the nodes lie, in order. Where other seats
/// draw stamps meanwhile it draws again, `tries` times and once at least.
///
/// Refused with `Full` where a slot is not found, `Moved` where others drew stamps each time, `Stamps` where fewer are
/// left than the draft has nodes, `Busy` where a reader stayed in a slot or another thread puts its block there, and
/// `NoMemory`. Then what was settled is retired, and what was taken is withdrawn.
pub fn place_draft<M: Means, S: Store<M>>(
    shared: &Shared<M, S>,
    seat: &mut ClientSeat<M, S>,
    draft: Draft,
    kind: Kind,
    tries: u32,
) -> Result<Vec<Ref>, Refusal>
    requires home { IsSeatOf shared.now seat.old }
    requires none { S.reused → seat.old.view.taken ≡ [] }
    requires some { 0 < length draft.nodes }
    requires first { draft.first ≤ next_stamp seat.old.mark.log }
    ensures seat { IsSameSeat seat.old seat.new }
    ensures own { own_moves seat.new.mark ≡ own_moves seat.old.mark }
    ensures placed { IfOk result
        (λ refs. IsPlaced (drawn seat.old.mark.log) (drawn seat.new.mark.log) draft refs.items) }
    ensures drawn { IfOk result (λ refs. AreDrawnBy seat.old.mark seat.new.mark refs.items) }
    ensures none { S.reused → seat.new.view.taken ≡ [] }
    ensures held { S.reused → StaysHeld seat.old.view seat.new.view }
    ensures drafted { S.reused → IfOk result
        (λ refs. seat.new.view.deeds ≡ draft_deeds (map slot_of refs.items) [] seat.old.view.deeds) }
    ensures within { S.reused → IfOk result (λ refs. LieBelow (kind_end shared.now.table.sizes kind) refs.items) }
    ensures given { S.reused → OnErr result (GivesOneUp shared.now.table.sizes.slots
        (kind_end shared.now.table.sizes kind) (length draft.nodes) seat.old.view.deeds seat.old seat.new) }
    ensures loads { S.reused → seat.old.view.epoch_loads ≤ seat.new.view.epoch_loads }
    ensures reached { S.reused → seat.old.view.reached ≤ seat.new.view.reached }
    ensures want { IfErr result (λ e. is_resource_refusal e ≡ true) }
    ensures moved { IfErr result
        (λ e. e ≡ refusal.Moved → others seat.old.mark + max 1 tries ≤ others seat.new.mark) }
    ensures stamps { IfErr result
        (λ e. e ≡ refusal.Stamps → stamps ≤ next_stamp seat.new.mark.log + length draft.nodes) }
    ensures late { IfErr result (λ e. e ≡ refusal.Stamps → IsLate (next_stamp seat.new.mark.log)) }
    ensures full { S.reused → IfErr result
        (λ e. e ≡ refusal.Full → FoundNoneFor seat.old.view seat.new.view (kind_end shared.now.table.sizes kind)
        (length draft.nodes)) }
    ensures past { (S.reused → ⊥) → IfErr result (λ e. e ≡ refusal.Full → max_slots ≤ next_stamp seat.new.mark.log) }
    ensures err { IfErr result (λ e. (e ≡ refusal.NoMemory)
        ⊎ ((e ≡ refusal.Moved) ⊎ ((e ≡ refusal.Stamps) ⊎ ((e ≡ refusal.Full) ⊎ (S.reused × (e ≡ refusal.Busy)))))) }
{
    let count = draft.nodes().len();
    begin_at_basis::<M, S>(&shared.store, &mut seat.slots, &draft);
    let slots = take_all::<M, S>(shared.alloc, &shared.store, &mut seat.slots, kind, count)?;
    place_taken::<M, S>(shared, seat, draft, slots, tries)
}
