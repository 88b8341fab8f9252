//! The two steps of a call that have a point: a look at the head, and a move of it that is won.
ghost use Rattle.std.specs.Prelude.{◌≡◌, ◌≢◌, ◌≤◌, ◌++◌, ◌∷◌, [], None, IsSome, IfOk, IfErr};
ghost use mathlib.Core.List.{IsPrefix};
ghost use Rattle.group_history.specs.Record.{after};
ghost use Rattle.group_history.specs.State.{State};
ghost use Rattle.head_word.specs.Books.{drawn, moved, record_of, last_move, IsChangeFrom};
ghost use Rattle.head_word.specs.Marks.{others, own};
ghost use Rattle.linearized.specs.Answered.{IsPoint, own_moves};
ghost use Rattle.linearized.specs.Trying.{IsBase, IsMove, IsWon};

use group_history::{Change, Means, Ref};
use head_word::{Head, Mark, Moved};

/// Looks where the head is. A call that changes nothing has its point here.
pub fn look<M: Means>(head: &Head<M>, mark: &mut Mark<M>) -> Ref
    requires book { mark.old.book ≡ head.now }
    ensures book { mark.new.book ≡ mark.old.book }
    ensures seat { mark.new.seat ≡ mark.old.seat }
    ensures seen { IsPrefix mark.old.log mark.new.log }
    ensures point { IsPoint M.means mark.old mark.new None mark.new.log }
    ensures base { IsBase M.means mark.new result (after (record_of mark.new.log)) }
    ensures last { result ≡ last_move mark.new.log }
    ensures own { own mark.new ≡ own mark.old }
    ensures moves { own_moves mark.new ≡ own_moves mark.old }
    ensures others { others mark.old ≤ others mark.new }
{
    let at = head.load(mark);
    mark.legal();
    at
}

/// Moves the head from `base` to `new`, by a change that follows on the state of `base`. A call that makes
/// this change has its point directly before the move, and the state there is that of `base`.
pub fn publish_at<M: Means>(
    head: &Head<M>,
    mark: &mut Mark<M>,
    base: Ref,
    new: Ref,
    change: &Change,
) -> Result<(), Moved>
    requires book { mark.old.book ≡ head.now }
    requires seat { IsSome mark.old.seat }
    requires follows { IsChangeFrom M.means (drawn mark.old.log) base new change.now }
    ensures book { mark.new.book ≡ mark.old.book }
    ensures seat { mark.new.seat ≡ mark.old.seat }
    ensures seen { IsPrefix mark.old.log mark.new.log }
    ensures won { (s : State) → IsBase M.means mark.old base s
        → IfOk result (λ _. IsWon M.means mark.old mark.new change.now s) }
    ensures goes { IfOk result (λ _. IsMove mark.old mark.new base new change.now) }
    ensures once { IfOk result (λ _. own mark.new ≡ own mark.old ++ moved mark.old.seat new change.now ∷ []) }
    ensures nothing { IfErr result (λ _. own mark.new ≡ own mark.old) }
    ensures own { IfErr result (λ _. own_moves mark.new ≡ own_moves mark.old) }
    ensures moved { IfErr result (λ _. last_move mark.new.log ≢ base) }
{
    head.publish(mark, base, new, change)?;
    mark.legal();
    Ok(())
}
