//! The one record of a run: at its end open readings end, one client learns what all have seen, and then each other one
//! learns that these are all changes.
ghost use Rattle.std.specs.Prelude.{ℕ, ◌≡◌, ◌<◌, List, length};
ghost use Rattle.std.specs.List.{All};
ghost use Rattle.head_word.specs.declared.entry.Entry.{Entry};
ghost use Rattle.head_word.specs.Books.{IsOpened};
ghost use Rattle.script_runner.specs.Commanding.{LearnsFirst};
ghost use Rattle.script_runner.specs.Records.{IsRecordOf};
ghost use Rattle.script_runner.specs.Sights.{sight_at};
ghost use Rattle.script_runner.specs.Inside.Players.{players_of};
ghost use Rattle.script_runner.specs.Inside.Records.{AreConfirmed, AreSeated, HasSeen, HasLearnt, HasReadThrough};
ghost use Rattle.script_runner.specs.Inside.Records.{HaveReadThrough, IsManned, IsSitting, log_at};
ghost use Rattle.script_runner.specs.Inside.Turns.{AreOf, AreOfOneGroup};

use crate::phase::ClientTurn;
use client_desk::DeskCall;
use group_history::Mutators;
use std::alloc::Global;

/// A client learns what another one of its group has seen.
fn hear<M: Mutators + Drop>(turn: &mut ClientTurn<M>, other: &ClientTurn<M>)
    requires group { other.now.client.place.group ≡ turn.old.client.place.group }
    ensures { LearnsFirst (sight_at other.now.client.place) turn.old.client.place turn.new.client.place }
{
    if let Some(seen) = other.client.place.sight() {
        turn.client.place.learn(&seen);
    }
}

/// A client learns what all others have seen.
fn hear_all<M: Mutators + Drop>(turn: &mut ClientTurn<M>, others: &[ClientTurn<M>])
    requires group { AreOf turn.old.client.place.group others.now }
    requires sits { IsSitting turn.old }
    requires all { All IsSitting others.now }
    ensures learnt { HasLearnt turn.old turn.new }
    ensures seen { All (HasSeen turn.new) others.now }
{
    for other in others {
        hear(turn, other);
    }
}

/// Each client learns what another one has seen.
fn confirm_all<M: Mutators + Drop>(turns: &mut [ClientTurn<M>], other: &ClientTurn<M>)
    requires group { AreOf other.now.client.place.group turns.old }
    requires sits { IsSitting other.now }
    requires all { All IsSitting turns.old }
    ensures { AreConfirmed (length turns.old) other.now turns.old turns.new }
{
    for i in 0..turns.len() {
        hear(&mut turns[i], other);
    }
}

/// What the client of a turn has seen is a legal book.
fn is_legal<M: Mutators + Drop>(turn: &ClientTurn<M>)
    requires { IsSitting turn.now }
    ensures { IsOpened M.means (log_at turn.now) }
{
    if let Some(seen) = turn.client.place.sight() {
        seen.legal();
    }
}

/// The client of a turn sits at its place: a reading that it has open ends.
fn read_through<M: Mutators + Drop>(alloc: Global, turn: &mut ClientTurn<M>)
    requires { IsManned turn.old }
    ensures { HasReadThrough turn.old turn.new }
{
    let mut bytes = Vec::new(alloc);
    let _ = turn.client.place.call(DeskCall::EndRead, &mut bytes);
}

/// So do the clients of all turns.
fn read_all_through<M: Mutators + Drop>(alloc: Global, turns: &mut [ClientTurn<M>])
    requires { All IsManned turns.old }
    ensures { HaveReadThrough (length turns.old) turns.old turns.new }
{
    for i in 0..turns.len() {
        read_through(alloc, &mut turns[i]);
    }
}

/// One client learns what all others have seen, and the others learn that from it.
fn unite<M: Mutators + Drop>(turns: &mut [ClientTurn<M>])
    requires one { AreOfOneGroup turns.old }
    requires all { All IsSitting turns.old }
    ensures { (count commit : ℕ) → AreSeated count commit (players_of turns.old) → count ≡ length turns.old
        → 0 < length turns.old → (book : List Entry) × IsRecordOf M.means (players_of turns.old) book }
{
    if let Some((first, others)) = turns.split_first_mut() {
        hear_all(first, others);
        confirm_all(others, first);
        is_legal(first);
    }
}

/// At the end of a run open readings end, and the clients learn of each other what they have seen. Takes no memory.
pub(crate) fn gather<M: Mutators + Drop>(alloc: Global, turns: &mut [ClientTurn<M>])
    requires one { AreOfOneGroup turns.old }
    requires all { All IsManned turns.old }
    ensures { (count commit : ℕ) → AreSeated count commit (players_of turns.old) → count ≡ length turns.old
        → 0 < length turns.old → (book : List Entry) × IsRecordOf M.means (players_of turns.old) book }
{
    read_all_through(alloc, turns);
    unite(turns);
}
