//! Stamps that are drawn for a draft.
ghost use Rattle.std.specs.Prelude.{◌≡◌, ◌⊎◌, ◌+◌, ◌<◌, ◌≤◌, ◌++◌, ◌∷◌, [], List, max, IsSome, IfOk, IfErr, length};
ghost use mathlib.Core.List.{IsPrefix};
ghost use Rattle.group_history.specs.Refs.{stamps};
ghost use Rattle.group_history.specs.declared.refusals.Refusal.TheVariants as refusal;
ghost use Rattle.head_word.specs.declared.entry.Entry.{Entry};
ghost use Rattle.head_word.specs.Books.{next_stamp, drafted, drafted_from};
ghost use Rattle.head_word.specs.Marks.{others, own};
ghost use Rattle.linearized.specs.Answered.{own_moves};
ghost use Rattle.map_chunks.specs.Drafts.{AreChildrenBelow};
ghost use Rattle.commit_graph.specs.Seats.{IsLater};

use group_history::{Means, Node, Ref, Refusal};
use head_word::{Head, Lost, Mark};

/// Draws a stamp for each of the nodes, and answers the first. Tries again where another seat drew some
/// first: the nodes need not change for that.
pub(crate) fn draw<M: Means>(
    head: &Head<M>,
    mark: &mut Mark<M>,
    from: u64,
    nodes: &[Node<Ref>],
    tries: u32,
) -> Result<u64, Refusal>
    requires book { mark.old.book ≡ head.now }
    requires number { IsSome mark.old.seat }
    requires some { 0 < length nodes.now }
    requires from { from ≤ next_stamp mark.old.log }
    requires order { AreChildrenBelow from nodes.now }
    ensures later { IsLater mark.old mark.new }
    ensures own { own_moves mark.new ≡ own_moves mark.old }
    ensures once { IfOk result (λ first. own mark.new
        ≡ own mark.old ++ drafted mark.old.seat first (drafted_from from nodes.now) ∷ []) }
    ensures nothing { IfErr result (λ _. own mark.new ≡ own mark.old) }
    ensures drawn { IfOk result (λ first. (log : List Entry) × IsPrefix mark.old.log log × (next_stamp log ≡ first)
        × (mark.new.log ≡ log ++ drafted mark.old.seat first (drafted_from from nodes.now) ∷ [])) }
    ensures room { IfOk result (λ first. first + length nodes.now < stamps) }
    ensures moved { IfErr result (λ e. e ≡ refusal.Moved → others mark.old + max 1 tries ≤ others mark.new) }
    ensures stamps { IfErr result (λ e. e ≡ refusal.Stamps → stamps ≤ next_stamp mark.new.log + length nodes.now) }
    ensures err { IfErr result (λ e. (e ≡ refusal.Moved) ⊎ (e ≡ refusal.Stamps)) }
{
    for tried in 0..tries.max(1) {
        let _ = tried;
        match head.draft(mark, from, nodes) {
            Ok(first) => {
                return Ok(first);
            }
            Err(Lost::Stamps) => {
                return Err(Refusal::Stamps);
            }
            Err(Lost::Moved) => {}
        }
    }
    Err(Refusal::Moved)
}
