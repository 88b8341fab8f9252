//! Two lists of references by falling stamps, gone through side by side.
ghost use Rattle.std.specs.Prelude.{◌≡◌, ◌≢◌, ◌<◌, ◌≤◌, ◌++◌, ◌∷◌, [], ℕ, true, false, length, slice_index};
ghost use Rattle.std.specs.Prelude.{IfOk, IsTrue, OnOk};
ghost use Rattle.std.specs.Bool.{Decides};
ghost use Rattle.group_history.specs.Refs.{stamp_of};
ghost use Rattle.commit_graph.specs.Reach.{Falls, stamps_of};
ghost use Rattle.commit_graph.specs.Inside.Reach.{Omits};

use group_history::Ref;
use std::alloc::{AllocError, Global};

/// Appends a reference.
pub fn add(listed: &mut Vec<Ref>, at: Ref) -> Result<(), AllocError>
    ensures { OnOk result (listed.new.items ≡ listed.old.items ++ at ∷ []) }
{
    listed.push(at)?;
    Ok(())
}

// The first place from here on whose stamp isn't above this one.
fn skip_above(kept: &[Ref], from: usize, stamp: u64) -> usize
    requires { from ≤ length kept.now }
    ensures from { from ≤ result }
    ensures within { result ≤ length kept.now }
    ensures skipped { (j : ℕ) → from ≤ j → j < result → stamp < slice_index (stamps_of kept.now) j }
    ensures stands { result < length kept.now → slice_index (stamps_of kept.now) result ≤ stamp }
{
    let mut place = from;
    while place < kept.len() && kept[place].stamp() > stamp {
        place += 1;
    }
    place
}

fn is_at(kept: &[Ref], place: usize, stamp: u64) -> bool
    requires { place ≤ length kept.now }
    ensures there { result ≡ true → (place < length kept.now) × (slice_index (stamps_of kept.now) place ≡ stamp) }
    ensures not { result ≡ false → place < length kept.now → slice_index (stamps_of kept.now) place ≢ stamp }
{
    place < kept.len() && kept[place].stamp() == stamp
}

// Whether all of one list are above all of the other, as where a new head made all its nodes anew.
fn is_above(kept: &[Ref], before: &[Ref]) -> bool
    requires kept { Falls (stamps_of kept.now) }
    requires before { Falls (stamps_of before.now) }
    ensures { IsTrue result → Omits before.now kept.now before.now }
{
    if kept.is_empty() || before.is_empty() {
        return true;
    }
    kept[kept.len() - 1].stamp() > before[0].stamp()
}

/// What stands in one list and has no stamp of the other. Both fall, and so does the result.
pub fn without(alloc: Global, before: Vec<Ref>, kept: &[Ref]) -> Result<Vec<Ref>, AllocError>
    requires before { Falls (stamps_of before.items) }
    requires kept { Falls (stamps_of kept.now) }
    ensures exact { IfOk result (λ left. Omits before.items kept.now left.items) }
    ensures once { IfOk result (λ left. Falls (stamps_of left.items)) }
{
    if is_above(kept, &before) {
        return Ok(before);
    }
    among(alloc, &before, kept)
}

// The same, by a pass over both.
fn among(alloc: Global, before: &[Ref], kept: &[Ref]) -> Result<Vec<Ref>, AllocError>
    requires before { Falls (stamps_of before.now) }
    requires kept { Falls (stamps_of kept.now) }
    ensures exact { IfOk result (λ left. Omits before.now kept.now left.items) }
    ensures once { IfOk result (λ left. Falls (stamps_of left.items)) }
{
    let mut left = Vec::new(alloc);
    let mut place = 0;
    for at in before {
        place = skip_above(kept, place, at.stamp());
        if !is_at(kept, place, at.stamp()) {
            add(&mut left, *at)?;
        }
    }
    Ok(left)
}
