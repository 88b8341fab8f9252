//! A change that was proposed: what leads to it is placed, and the head is moved there.
ghost use Rattle.std.specs.List.{Contains};
ghost use Rattle.group_history.specs.declared.refusals.Refusal.TheVariants as refusal;
ghost use Rattle.std.specs.Prelude.{◌≡◌, ◌≤◌, ◌++◌, List, [], length, map, true, IfOk, IfErr, IfSome, IfNone, OnErr};
ghost use Rattle.group_history.specs.Record.{after_change};
ghost use Rattle.group_history.specs.Refs.{max_slots, slot_of, stamp_of};
ghost use Rattle.group_history.specs.Spelling.{Spells};
ghost use Rattle.group_history.specs.State.{State};
ghost use Rattle.head_word.specs.Books.{IsChangeFrom, drawn, next_stamp};
ghost use Rattle.reader_claims.specs.Deeds.{Deed};
ghost use Rattle.reader_claims.specs.Seats.{kind_end};
ghost use Rattle.map_chunks.specs.Drafts.{IsLate};
ghost use Rattle.commit_graph.specs.Seats.{IsReading, IsSameSeat};
ghost use Rattle.linearized.specs.Answered.{IsLeft, is_resource_refusal};
ghost use Rattle.head_word.specs.Marks.{own};
ghost use Rattle.linearized.specs.Trying.{Ends, IsBase, IsLost, IsMove, IsWon, added};
ghost use Rattle.linearized.specs.declared.trying.Published.TheVariants.{Won};
ghost use Rattle.commit_publishing.specs.Placed.{FoundNoneFor};
ghost use Rattle.commit_publishing.specs.Retiring.{AreFreed, draft_deeds};
ghost use Rattle.change_tries.specs.Leaving.{AreLeft, FreesWhatIsLeft};
ghost use Rattle.change_tries.specs.Changing.{FreesMove};
ghost use Rattle.change_tries.specs.Missing.{IsStoreOrMemory};
ghost use Rattle.change_tries.specs.Proposing.{MayMove};

use crate::proposing::Proposal;
use chunk_slots::Store;
use commit_graph::{ClientSeat, Shared, StoreNodes, dropped};
use commit_publishing::{Move, abandon_draft, place_draft, place_of, publish_draft};
use group_history::{Change, Means, Ref, Refusal};
use linearized::Published;

// What the old head alone reaches. Only a pull lets anything go.
fn left_behind<M: Means, S: Store<M>>(
    shared: &Shared<M, S>,
    seat: &ClientSeat<M, S>,
    to: &Move<'_>,
    tries: u32,
) -> Result<Vec<Ref>, Refusal>
    requires reading { IsReading S.reused shared.now seat.now }
    requires old { (s : State) × IsBase M.means seat.now.mark to.now.base s }
    requires new { (s : State) × IsBase M.means seat.now.mark to.now.new s }
    ensures exact { IfOk result (λ left. AreLeft (drawn seat.now.mark.log) to.now.base to.now.new
        to.now.change.now left.items) }
    ensures err { IfErr result (IsStoreOrMemory S.reused) }
{
    match to.change {
        Change::Pulled(_, _) => {
            let mut nodes = StoreNodes::new(shared, seat, &seat.mark, tries);
            Ok(dropped(shared.alloc, &mut nodes, to.base, to.new)?)
        }
        Change::Mutated(_) | Change::Closed => Ok(Vec::new(shared.alloc)),
    }
}

// Moves the head to a commit of a draft that was placed, and retires what is needed no more. What the old head alone
// reaches is listed before the exchange.
fn exchange<M: Means, S: Store<M>>(
    shared: &Shared<M, S>,
    seat: &mut ClientSeat<M, S>,
    to: &Move<'_>,
    tries: u32,
) -> Result<Published, Refusal>
    requires reading { IsReading S.reused shared.now seat.old }
    requires none { S.reused → seat.old.view.taken ≡ [] }
    requires drafted { S.reused → (before : List Deed)
        × (seat.old.view.deeds ≡ draft_deeds (map slot_of to.now.refs.now) [] before) }
    requires among { Contains to.now.refs.now to.now.new }
    requires follows { IsChangeFrom M.means (drawn seat.old.mark.log) to.now.base to.now.new to.now.change.now }
    ensures seat { IsSameSeat seat.old seat.new }
    ensures none { S.reused → seat.new.view.taken ≡ [] }
    ensures loads { S.reused → seat.old.view.epoch_loads ≤ seat.new.view.epoch_loads }
    ensures reached { S.reused → seat.old.view.reached ≤ seat.new.view.reached }
    ensures own { IfOk result (λ published. own seat.new.mark
        ≡ own seat.old.mark ++ added seat.old.mark.seat to.now.new to.now.change.now published) }
    ensures ends { IfOk result (Ends M.means seat.old.mark seat.new.mark to.now.base to.now.change.now) }
    ensures goes { IfOk result (λ published. published ≡ Won
        → IsMove seat.old.mark seat.new.mark to.now.base to.now.new to.now.change.now) }
    ensures freed { S.reused → IfOk result (λ published. FreesWhatIsLeft shared.now.table.sizes.slots
        (drawn seat.old.mark.log) to.now.base to.now.new to.now.change.now to.now.refs.now seat.old.view
        seat.new.view published) }
    ensures given { S.reused → OnErr result (AreFreed shared.now.table.sizes.slots seat.new.view.reached
        (map slot_of to.now.refs.now) seat.old.view.deeds seat.new.view.deeds) }
    ensures err { IfErr result (λ e. IsStoreOrMemory S.reused e × (seat.new.mark ≡ seat.old.mark)) }
{
    match left_behind::<M, S>(shared, seat, to, tries) {
        Ok(left) => {
            return Ok(publish_draft::<M, S>(shared, seat, to, &left));
        }
        Err(e) => {
            abandon_draft::<M, S>(shared, seat, to.refs);
            return Err(e);
        }
    }
}

/// Places what was proposed, and moves the head from its base to its commit, which is answered: none where others moved
/// the head first. Refused with `NoMemory`, `Moved`, `Busy`, `Gone`, `Full` or `Stamps`.
pub fn move_head<M: Means, S: Store<M>>(
    shared: &Shared<M, S>,
    seat: &mut ClientSeat<M, S>,
    change: &Change,
    proposal: Proposal,
    tries: u32,
) -> Result<Option<Ref>, Refusal>
    requires reading { IsReading S.reused shared.now seat.old }
    requires none { S.reused → seat.old.view.taken ≡ [] }
    requires leads { MayMove M.means seat.old.mark change.now proposal }
    ensures seat { IsSameSeat seat.old seat.new }
    ensures none { S.reused → seat.new.view.taken ≡ [] }
    ensures won { (s : State) → IsBase M.means seat.old.mark proposal.base s
        → IfOk result (λ new. IfSome new (λ at. IsWon M.means seat.old.mark seat.new.mark change.now s
        × Spells M.means (drawn seat.new.mark.log) (stamp_of at) (after_change s change.now))) }
    ensures lost { IfOk result (λ new. IfNone new (IsLost seat.old.mark seat.new.mark proposal.base)) }
    ensures err { IfErr result (λ e. (is_resource_refusal e ≡ true) × IsLeft tries seat.old.mark seat.new.mark e) }
    ensures frees { S.reused → FreesMove (λ end. end ≡ kind_end shared.now.table.sizes proposal.kind) change.now
        seat.old seat.new result }
    ensures full { S.reused → IfErr result (λ e. e ≡ refusal.Full
        → FoundNoneFor seat.old.view seat.new.view (kind_end shared.now.table.sizes proposal.kind)
        (length proposal.draft.nodes)) }
    ensures past { (S.reused → ⊥) → IfErr result (λ e. e ≡ refusal.Full → max_slots ≤ next_stamp seat.new.mark.log) }
    ensures busy { IfErr result (λ e. e ≡ refusal.Busy → S.reused) }
    ensures late { IfErr result (λ e. e ≡ refusal.Stamps → IsLate (next_stamp seat.new.mark.log)) }
{
    let Proposal {
        base,
        draft,
        at,
        kind,
    } = proposal;
    let from = draft.first();
    let refs = place_draft::<M, S>(shared, seat, draft, kind, tries)?;
    let new = place_of(at, from, &refs);
    let to = Move {
        base,
        new,
        change,
        refs: &refs,
    };
    match exchange::<M, S>(shared, seat, &to, tries) {
        Ok(Published::Won) => Ok(Some(new)),
        Ok(Published::Lost) => Ok(None),
        Err(e) => Err(e),
    }
}
