//! What is kept under numbers: tickets, and watches.
ghost use Rattle.std.specs.Prelude.{ℕ, ◌≡◌, ◌<◌, IfOk, None, OnErr, OnOk, length};
ghost use Rattle.std.specs.Option.{option_copied};
ghost use Rattle.client_desk.specs.Kept.{IsFirstFree, IsNumberFor, kept_at, room_for};
ghost use Rattle.client_desk.specs.Inside.Keeping.{GivesUpKept, KeepsAt};

use crate::calls::Keep;
use std::alloc::AllocError;

/// What is kept under a number, where something is.
pub(crate) fn kept_at<T>(all: &[Option<T>], number: usize) -> Option<&T>
    ensures { option_copied result ≡ kept_at all.now number }
{
    if number >= all.len() {
        return None;
    }
    all[number].as_ref()
}

/// Gives up what is kept under a number. It says whether something was.
pub(crate) fn give_up<T: Drop>(all: &mut Vec<Option<T>>, number: usize) -> bool
    ensures { GivesUpKept result number all.old.items all.new.items }
{
    if kept_at(all, number).is_none() {
        return false;
    }
    all[number] = None;
    true
}

/// Where a number is said, what is kept under it is given up.
pub(crate) fn make_room<T: Drop>(all: &mut Vec<Option<T>>, keep: Keep)
    ensures { all.new.items ≡ room_for keep all.old.items }
{
    if let Keep::At(number) = keep {
        if number < all.len() {
            all[number] = None;
        }
    }
}

// The first number under which nothing is kept.
fn free_number<T>(all: &[Option<T>]) -> usize
    ensures { IsFirstFree result all.now }
{
    for number in 0..all.len() {
        if all[number].is_none() {
            return number;
        }
    }
    all.len()
}

fn number_for<T>(all: &[Option<T>], keep: Keep) -> usize
    ensures { IsNumberFor keep result all.now }
{
    match keep {
        Keep::At(number) => number,
        Keep::AtNext => free_number(all),
    }
}

// Makes place for a number. Where memory is refused nothing is changed.
fn widen<T: Drop>(all: &mut Vec<Option<T>>, number: usize) -> Result<(), AllocError>
    ensures within { OnOk result (number < length all.new.items) }
    ensures same { OnOk result ((k : ℕ) → kept_at all.new.items k ≡ kept_at all.old.items k) }
    ensures left { OnErr result (all.new.items ≡ all.old.items) }
{
    let count = all.len();
    while all.len() <= number {
        if all.push(None).is_err() {
            all.truncate(count);
            return Err(AllocError);
        }
    }
    Ok(())
}

/// Keeps something, under the number that is said or the first free one, which it answers. Where memory is refused
/// nothing is changed.
pub(crate) fn keep<T: Drop>(
    all: &mut Vec<Option<T>>,
    keep: Keep,
    kept: T,
) -> Result<usize, AllocError>
    ensures kept { IfOk result (λ number. KeepsAt keep number kept all.old.items all.new.items) }
    ensures left { OnErr result (all.new.items ≡ all.old.items) }
{
    let number = number_for(all, keep);
    widen(all, number)?;
    all[number] = Some(kept);
    Ok(number)
}
