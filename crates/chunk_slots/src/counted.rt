//! One slot of an arena: a look at it, and a node put into it.
//!
//! **The word.** Each slot has a node in place, or none, beside one word, which says who may reach it. The low two
//! bits are the state: empty, shown, or being written. The next 30 bits count the readers. Every step is
//! a load or a compare-exchange of this one word, and all of them have one order that every thread sees.
//!
//! **A reader** loads the word. If it says shown, and fewer readers are counted than fit, the reader
//! exchanges it for the same word with one reader more. Who wins this may read the node until it counts
//! one reader less. It then compares the stamp of the node with the one that it looks for, and where
//! they differ it leaves at once and answers Gone. Where the word says that nothing is shown it is Gone
//! as well; where the exchange is lost, or no more readers can be counted, it is Busy.
//!
//! **A writer** loads the word. If nobody writes and no reader is counted, it exchanges it for the word of a
//! slot that is being written. Who wins this has the node alone: it puts the new one there, drops the
//! old one, and stores the word of a slot that is shown with no reader. Else it is Busy. The readers'
//! claims do not keep writers away for good: it is the claims table that says when a slot may be used
//! again, and a writer who meets a reader that lags behind tries again.
//!
//! **Which clause carries it.** That a node is never read while it is written is the rule of the slot. No
//! clause says what its word holds. What is shown is right all the same, since each node lies beside its
//! stamp and beside what a mark has seen whose book has this node for the stamp: this is the invariant of
//! [`Placed`], and it comes back with the value whatever the slot held before.
ghost use Rattle.std.specs.Prelude.{◌≡◌, ◌≢◌, ◌%◌, ◌+◌, ◌-◌, ◌^◌, ◌<◌, Some, IfOk, IfErr, IfSome};
ghost use Rattle.counted_slot.specs.Counting.{readers};
ghost use Rattle.chunk_slots.specs.declared.missed.StoreStop.TheVariants as missed;
ghost use Rattle.chunk_slots.specs.Contents.{Content, IsContent, IsDrawn};

use crate::missed::StoreStop;
use crate::placed::Placed;
use crate::shown::Shown;
use counted_slot::{Claim, Counted, MOST_READERS, ONE_READER, PRESENT, TAKEN};
use group_history::Means;
use head_word::Mark;

/// A slot has 72 bytes: 8 of the word, 8 that say whether there is a node, and 56 of the node: its stamp, and the node
/// in place.
pub(crate) type NodeSlot<M> = Counted<Option<Placed<M>>>;

fn state_of(word: u64) -> u64
    ensures { result ≡ word % 4 }
{
    word % 4
}

fn reader_count(word: u64) -> u64
    ensures { result ≡ readers word }
{
    word % 0x1_0000_0000 / 4
}

// The word with one reader more: Gone where nothing is shown, Busy where no more can be counted.
fn joined(word: u64) -> Result<u64, StoreStop>
    ensures ok { IfOk result (λ more. (word % 4 ≡ 1) × (readers word < 2 ^ 30 - 1) × (more ≡ word + 4)) }
    ensures err { IfErr result (λ e. (e ≡ missed.Gone → word % 4 ≢ 1) × (e ≡ missed.Busy → readers word ≡ 2 ^ 30 - 1)) }
{
    if state_of(word) != PRESENT {
        return Err(StoreStop::Gone);
    }
    if reader_count(word) == MOST_READERS {
        return Err(StoreStop::Busy);
    }
    Ok(word + ONE_READER)
}

// The mark beside the node under the claim, where that has the stamp.
fn mark_at<M: Means>(claim: &Claim<'_, Option<Placed<M>>>, stamp: u64) -> Option<Mark<M>>
    requires { claim.now.right ≡ 1 }
    ensures { IfSome result (λ mark. (c : Content) × (claim.now.value ≡ Some (Some c)) × (c.stamp ≡ stamp)
        × (c.mark.book ≡ claim.now.tag.book) × IsDrawn c × (mark ≡ c.mark)) }
{
    match claim.get() {
        Some(placed) if placed.stamp() == stamp => Some(placed.mark()),
        _ => None,
    }
}

/// Shows the node of the stamp, in one try.
pub(crate) fn look<M: Means>(slot: &NodeSlot<M>, stamp: u64) -> Result<Shown<'_, M>, StoreStop>
    ensures book { IfOk result (λ shown. shown.mark.book ≡ slot.now.book) }
    ensures content { IfOk result (λ shown. IsContent shown.mark.log stamp shown.node) }
    ensures stamp { IfOk result (λ shown. shown.stamp ≡ stamp) }
{
    let word = slot.load();
    let (found, claim) = slot.turn(word, joined(word)?);
    if found != word {
        claim.done();
        return Err(StoreStop::Busy);
    }
    match mark_at(&claim, stamp) {
        Some(mark) => Ok(Shown::claimed(claim, mark)),
        None => {
            let _ = claim.leave();
            Err(StoreStop::Gone)
        }
    }
}

/// Puts the node into the slot where nobody reads, in one try. It comes back where that was lost.
pub(crate) fn put<M: Means>(slot: &NodeSlot<M>, placed: Placed<M>) -> Result<(), Placed<M>>
    requires { placed.mark.book ≡ slot.now.book }
    ensures { IfErr result (λ back. back ≡ placed) }
{
    let word = slot.load();
    if state_of(word) == TAKEN || reader_count(word) != 0 {
        return Err(placed);
    }
    let (found, claim) = slot.turn(word, TAKEN);
    if found != word {
        claim.done();
        return Err(placed);
    }
    let _ = claim.put(Some(placed), PRESENT);
    Ok(())
}
