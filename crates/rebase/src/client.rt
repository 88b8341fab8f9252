//! A client of a group.
//!
//! Its queries have their point where they look at the head: each pins the seat first, and takes the pin
//! away before it returns.
ghost use Rattle.std.specs.Prelude.{◌≡◌, ◌<◌, ◌^◌, true, Ok, Err, Some, None, IfOk, IfErr, drop};
ghost use Rattle.std.specs.Arc.{arc_value};
ghost use mathlib.Core.List.{IsPrefix};
ghost use Rattle.group_history.specs.declared.refusals.Refusal.TheVariants.{NoMemory, Busy};
ghost use Rattle.group_history.specs.Record.{after};
ghost use Rattle.group_history.specs.Refs.{stamp_of};
ghost use Rattle.group_history.specs.Spelling.{map_at};
ghost use Rattle.group_history.specs.State.{last_id, view_of};
ghost use Rattle.head_word.specs.Books.{drawn, last_move, record_of};
ghost use Rattle.head_word.specs.Laws.{moment};
ghost use Rattle.head_word.specs.Marks.{known};
ghost use Rattle.chunk_slots.specs.Seats.{IsIdle};
ghost use Rattle.commit_graph.specs.LastIds.{last_at};
ghost use Rattle.commit_graph.specs.Seats.{HasLooked, IsSeatOf, is_held};
ghost use Rattle.push_body.specs.Bodies.{pull_text, push_text};
ghost use Rattle.linearized.specs.Answered.{IsLinearized, IsPoint, no_change};
ghost use Rattle.linearized.specs.Trying.{IsBase};
ghost use Rattle.change_tries.specs.Missing.{IsStoreRefusal, IsStoreOrMemory, map_ok};
ghost use Rattle.change_tries.specs.Places.{place};
ghost use Rattle.rebase.specs.Clients.{IsSameClient, AfterLook, AfterRead, AfterQuery};
ghost use Rattle.rebase.specs.Queries.{asked, asked_at};

use crate::reading::Point;
use crate::seats::Seat;
use crate::tickets::Ticket;
use change_tries::{
    At, Rooted, SharedGroup, body_at, cookie_at, find_last, pin_and_load, root_at, unpin,
};
use chunk_slots::{Arena, Slots};
use commit_graph::{ClientSeat, LastId, Shared};
use group_history::{Cookie, Means, Ref, Refusal, Text};
use head_word::Mark;
use push_body::{Identity, pull_bytes};
use reader_claims::SlotCounts;
use std::alloc::Global;
use std::marker::Model;
use std::sync::Arc;

/// A client: a handle on its group, its seat there, its ID, and its own last id. One thread at a time uses it.
///
/// A call with `tries` begins anew, or does a step anew, where others were first: so often, and once at least. After it
/// the client is on its seat, knows no less than before, and has no pin and no taken slot, also where it was refused;
/// only an open reader keeps its pin.
#[derive(Drop)]
pub struct Client<M: Means, S: Slots<M>> {
    pub(crate) group: Arc<SharedGroup<M, S>>,
    pub(crate) seat: ClientSeat<M, S>,
    pub(crate) id: Text,
    pub(crate) last: u64,
    // Where the last id was found.
    pub(crate) found: Ref,
    // What was read last.
    pub(crate) latest: Option<Rooted>,
    // Whether its seat's pin is held, as far as it knows.
    pub(crate) pinned: bool,
}

impl<M: Means, S: Slots<M>> Model for Client<M, S> {
    ghost use Rattle.std.specs.Arc.{arc_value};
    ghost use Rattle.std.specs.Coded.{codes};
    ghost use Rattle.head_word.specs.contracts.entry.Entry as entry;
    ghost use Rattle.std.specs.Prelude.{◌≡◌, true};
    ghost use Rattle.commit_graph.specs.Seats.{is_held};
    ghost use Rattle.rebase.specs.Clients.{ClientState, grouped};
    ghost use Rattle.rebase.specs.Inside.Keeping.{KeepsClient};

    ghost Value = { ClientState };

    ghost coded = { Prim.hlevel (codes, entry.the_row.coded) };

    ghost view = { λ c. record {
      group = grouped (arc_value c.group).shared (arc_value c.group).identity;
      seat = c.seat;
      id = c.id;
      last = c.last;
    } };

    ghost invariant = { λ c. KeepsClient S.reused (arc_value c.group).shared c.seat c.id c.last c.found c.latest
        × (S.reused → c.pinned ≡ true → is_held c.seat.view.pin ≡ true) };
}

impl<M: Means, S: Slots<M>> Client<M, S> {
    // Pins the seat, and looks where the head is.
    pub(crate) fn pin_and_load(&mut self, tries: u32) -> Result<Ref, Refusal>
        ensures reads { IfOk result (λ _. AfterRead S.reused tries self.old self.new) }
        ensures point { IfOk result (λ _. IsPoint M.means self.old.seat.mark self.new.seat.mark None
            self.new.seat.mark.log) }
        ensures base { IfOk result (λ at. IsBase M.means self.new.seat.mark at
            (after (record_of self.new.seat.mark.log))) }
        ensures last { IfOk result (λ at. at ≡ last_move self.new.seat.mark.log) }
        ensures busy { IfErr result (λ e. (e ≡ Busy) × S.reused × (self.new.seat.mark ≡ self.old.seat.mark)) }
        ensures stays { IfErr result (λ _. AfterQuery S.reused self.old self.new) }
    {
        let group: &SharedGroup<M, S> = &self.group;
        let at = pin_and_load(&group.shared, &mut self.seat, tries);
        self.pinned = at.is_ok();
        at
    }

    // Takes the pin away.
    pub(crate) fn unpin(&mut self)
        ensures stays { AfterQuery S.reused self.old self.new }
        ensures mark { self.new.seat.mark ≡ self.old.seat.mark }
    {
        let group: &SharedGroup<M, S> = &self.group;
        self.pinned = false;
        unpin(&group.shared, &mut self.seat);
    }

    // The commit where the head was just seen, to be read.
    pub(crate) fn here(&self, at: Ref, tries: u32) -> At<'_, M, S>
        requires base { IsBase M.means self.now.seat.mark at (after (record_of self.now.seat.mark.log)) }
        requires held { S.reused → is_held self.now.seat.view.pin ≡ true }
        ensures { result ≡ place self.now.group.identity self.now.seat.mark.log self.now.seat.mark at }
    {
        At::new(&self.group, &self.seat, &self.seat.mark, at, tries)
    }

    // Takes the pin away, if there is one, where a call is refused before it did anything.
    pub(crate) fn refuse<T>(&mut self, e: Refusal) -> Result<T, Refusal>
        ensures err { result ≡ Err e }
        ensures stays { AfterQuery S.reused self.old self.new }
        ensures mark { self.new.seat.mark ≡ self.old.seat.mark }
    {
        self.unpin();
        Err(e)
    }

    // Finds the client's last id in the group.
    fn find(&mut self, tries: u32) -> Result<LastId, Refusal>
        ensures answer { IsLinearized M.means tries self.old.seat.mark self.new.seat.mark (map_ok
            (λ found. found.id) result)
            no_change (λ s. Ok (last_id s self.old.id)) }
        ensures found { IfOk result (λ found. last_at (drawn self.new.seat.mark.log) (stamp_of found.at) self.old.id
            ≡ Some found.id) }
        ensures low { IfOk result (λ found. found.id < 2 ^ 53) }
        ensures missed { IfErr result (IsStoreRefusal S.reused) }
        ensures stays { AfterQuery S.reused self.old self.new }
    {
        let before = LastId {
            at: self.found,
            id: self.last,
        };
        self.pinned = false;
        find_last(&self.group, &mut self.seat, &self.id, Some(before), tries)
    }

    /// The body of a push of what is pending in the group, whichever client made it, the oldest first (Replicache, Push
    /// Endpoint Reference, version 1), but for the oldest `skip` of them: with 0 of all. There is one also where none
    /// is left, or where the group is closed. Refused with `NoMemory`, `Gone`, and over slots that are used again
    /// `Busy`. Nothing is changed.
    pub fn push_body(&mut self, skip: usize, tries: u32) -> Result<Vec<u8>, Refusal>
        ensures answer { IsLinearized M.means tries self.old.seat.mark self.new.seat.mark (map_ok
            (λ body. body.items) result)
            no_change (λ s. Ok (push_text self.old.group.identity (drop skip s.pending))) }
        ensures point { IfOk result (λ _. IsPoint M.means self.old.seat.mark self.new.seat.mark None
            self.new.seat.mark.log) }
        ensures now { IfOk result (λ body. body.items ≡ push_text self.old.group.identity
            (drop skip (after (record_of self.new.seat.mark.log)).pending)) }
        ensures err { IfErr result (IsStoreOrMemory S.reused) }
        ensures stays { AfterQuery S.reused self.old self.new }
    {
        let (body, _) = self.push_with_moment(skip, tries)?;
        Ok(body)
    }

    /// The same, with the moment at which it is the body, as `Client::moment` counts them.
    pub fn push_with_moment(&mut self, skip: usize, tries: u32) -> Result<(Vec<u8>, u64), Refusal>
        ensures answer { IsLinearized M.means tries self.old.seat.mark self.new.seat.mark (map_ok
            (λ pushed. pushed.0.items) result)
            no_change (λ s. Ok (push_text self.old.group.identity (drop skip s.pending))) }
        ensures point { IfOk result (λ _. IsPoint M.means self.old.seat.mark self.new.seat.mark None
            self.new.seat.mark.log) }
        ensures now { IfOk result (λ pushed. pushed.0.items ≡ push_text self.old.group.identity
            (drop skip (after (record_of self.new.seat.mark.log)).pending)) }
        ensures moment { IfOk result (λ pushed. pushed.1 ≡ moment self.new.seat.mark.log) }
        ensures err { IfErr result (IsStoreOrMemory S.reused) }
        ensures stays { AfterQuery S.reused self.old self.new }
    {
        let at = self.pin_and_load(tries)?;
        let body = body_at(&self.here(at, tries), skip);
        self.unpin();
        Ok((body?, at.stamp()))
    }

    /// The ticket of a pull: the body of its request, and the group's cookie, at which it begins (Replicache, Pull
    /// Endpoint Reference, version 1). The group notes nothing, so many pulls may be under way. Refused with
    /// `NoMemory`, `Gone`, and over slots that are used again `Busy`.
    pub fn begin_pull(&mut self, tries: u32) -> Result<Ticket, Refusal>
        ensures answer { IsLinearized M.means tries self.old.seat.mark self.new.seat.mark
            (map_ok asked result) no_change
            (λ s. Ok (asked_at self.old.group.identity s)) }
        ensures err { IfErr result (IsStoreOrMemory S.reused) }
        ensures stays { AfterQuery S.reused self.old self.new }
    {
        let at = self.pin_and_load(tries)?;
        let cookie = cookie_at(&self.here(at, tries));
        self.unpin();
        let group: &SharedGroup<M, S> = &self.group;
        ticket_of(group.shared.alloc, &group.identity, cookie?)
    }

    /// Finds the client's last id in the group, which is then its own: the greatest of its confirmed id and its pending
    /// ids. The remedy for `Stale`. Refused with `Gone`, and over slots that are used again `Busy`; then its own last
    /// id is as it was. Takes no memory.
    pub fn refresh(&mut self, tries: u32) -> Result<u64, Refusal>
        ensures answer { IsLinearized M.means tries self.old.seat.mark self.new.seat.mark result no_change
            (λ s. Ok (last_id s self.old.id)) }
        ensures last { IfOk result (λ id. self.new.last ≡ id) }
        ensures left { IfErr result (λ _. self.new.last ≡ self.old.last) }
        ensures missed { IfErr result (IsStoreRefusal S.reused) }
        ensures looks { AfterLook S.reused self.old self.new }
    {
        let found = self.find(tries)?;
        self.last = found.id;
        self.found = found.at;
        Ok(found.id)
    }

    // The root of the map at the commit of the head, which is looked at unless it is what was read last.
    fn root_of(&self, at: Ref, tries: u32) -> Result<Ref, Refusal>
        requires base { IsBase M.means self.now.seat.mark at (after (record_of self.now.seat.mark.log)) }
        requires held { S.reused → is_held self.now.seat.view.pin ≡ true }
        ensures root { IfOk result (λ root. map_at (drawn self.now.seat.mark.log) (stamp_of root)
            ≡ Some (view_of M.means (after (record_of self.now.seat.mark.log)))) }
        ensures missed { IfErr result (IsStoreRefusal S.reused) }
    {
        match &self.latest {
            Some(latest) if latest.commit == at => Ok(latest.root),
            _ => root_at(&self.here(at, tries)),
        }
    }

    // Pins the seat, and finds the commit at the head and its root. The pin is taken away where that is refused.
    pub(crate) fn point(&mut self, tries: u32) -> Result<Point<M>, Refusal>
        ensures reads { IfOk result (λ _. AfterRead S.reused tries self.old self.new) }
        ensures point { IfOk result (λ at. IsPoint M.means self.old.seat.mark self.new.seat.mark None at.log
            × (at.book ≡ self.new.seat.mark.book)) }
        ensures seen { IfOk result (λ at. at ≡ known self.new.seat.mark.book self.new.seat.mark.log None) }
        ensures missed { IfErr result (IsStoreRefusal S.reused) }
        ensures stays { IfErr result (λ _. AfterQuery S.reused self.old self.new) }
    {
        let at = self.pin_and_load(tries)?;
        match self.root_of(at, tries) {
            Ok(root) => {
                self.latest = Some(Rooted { commit: at, root });
                return Ok(Point::new(&self.seat.mark, at, root));
            }
            Err(e) => {
                self.unpin();
                return Err(e);
            }
        }
    }

    /// Gives the client up, and hands its seat back, with what was seen on it. What it made stays pending. Takes no
    /// memory.
    pub fn close(self) -> Seat<M, S>
    where
        M: Drop,
        S: Drop,
        ensures looked { HasLooked S.reused self.seat result }
        ensures mark { result.mark ≡ self.seat.mark }
        ensures rests { S.reused → IsIdle result.view }
    {
        let mut client = self;
        client.unpin();
        let Client {
            group: _,
            seat,
            id: _,
            last: _,
            found: _,
            latest: _,
            pinned: _,
        } = client;
        Seat { seat }
    }

    /// What the client has seen of the group: a copy, from which others can learn. Takes no memory.
    pub fn mark(&self) -> Mark<M>
        ensures { result ≡ known self.now.seat.mark.book self.now.seat.mark.log None }
    {
        self.seat.mark.copy()
    }

    /// Afterwards the client has seen what the mark has, so no later answer of its calls is of a time before. It is a
    /// mark of the same group. The client's last id and its pin stay. Takes no memory.
    pub fn learn(&mut self, other: &Mark<M>)
        requires book { other.now.book ≡ self.old.seat.mark.book }
        ensures other { IsPrefix other.now.log self.new.seat.mark.log }
        ensures looked { HasLooked S.reused self.old.seat self.new.seat }
        ensures view { self.new.seat.view ≡ self.old.seat.view }
        ensures same { IsSameClient self.old self.new × (self.new.last ≡ self.old.last) }
    {
        let group: &SharedGroup<M, S> = &self.group;
        learn_on(&group.shared, &mut self.seat, other);
    }
}

impl<M: Means> Client<M, Arena<M>> {
    ghost use Rattle.std.specs.Prelude.{⊤, ◌-◌, ◌≤◌};
    ghost use Rattle.reader_claims.specs.Counts.{Counts, Found, HasOldest, all_slots};
    ghost use Rattle.reader_claims.specs.Seats.{first_reserved};

    /// How many of the group's slots are in each state, and how many of its seats are pinned: one look at
    /// each word, one after the other, so each was so at some time in the call, and no two need have been so
    /// at once. Nothing is changed, nobody is waited for, and no memory is taken.
    pub fn slots(&mut self) -> SlotCounts
        ensures counts { Counts (Found self.old.seat.view self.new.seat.view) self.old.group.group.table.sizes result }
        ensures all { all_slots result ≡ self.old.group.group.table.sizes.slots }
        ensures ordinary { result.ordinary_free ≤ first_reserved self.old.group.group.table.sizes }
        ensures reserved { result.reserved_free ≤ self.old.group.group.table.sizes.slots
            - first_reserved self.old.group.group.table.sizes }
        ensures pins { result.pinned_seats ≤ self.old.group.group.table.sizes.readers }
        ensures oldest { HasOldest result }
        ensures looked { HasLooked ⊤ self.old.seat self.new.seat }
        ensures pin { self.new.seat.view.pin ≡ self.old.seat.view.pin }
        ensures same { IsSameClient self.old self.new × (self.new.last ≡ self.old.last) }
    {
        let group: &SharedGroup<M, Arena<M>> = &self.group;
        group.shared.store.count(&mut self.seat.slots)
    }

    // Takes the pin away, as `unpin` does.
    pub(crate) fn unpin_arena(&mut self)
        ensures stays { AfterQuery ⊤ self.old self.new }
        ensures mark { self.new.seat.mark ≡ self.old.seat.mark }
    {
        let group: &SharedGroup<M, Arena<M>> = &self.group;
        self.pinned = false;
        group.shared.store.unpin(&mut self.seat.slots);
    }

    /// Gives the client up, as `close` does. It asks for no bound that other threads rely on, so a drop can call it.
    pub fn leave(self) -> Seat<M, Arena<M>>
    where
        M: Drop,
        ensures looked { HasLooked ⊤ self.seat result }
        ensures mark { result.mark ≡ self.seat.mark }
        ensures rests { IsIdle result.view }
    {
        let mut client = self;
        client.unpin_arena();
        let Client {
            group: _,
            seat,
            id: _,
            last: _,
            found: _,
            latest: _,
            pinned: _,
        } = client;
        Seat { seat }
    }
}

// A seat learns what a mark of its group has seen.
fn learn_on<M: Means, S: Slots<M>>(
    shared: &Shared<M, S>,
    seat: &mut ClientSeat<M, S>,
    other: &Mark<M>,
)
    requires home { IsSeatOf shared.now seat.old }
    requires book { other.now.book ≡ shared.now.book }
    ensures other { IsPrefix other.now.log seat.new.mark.log }
    ensures looked { HasLooked S.reused seat.old seat.new }
    ensures view { seat.new.view ≡ seat.old.view }
{
    shared.head.learn(&mut seat.mark, other);
}

// The ticket of a pull at a cookie.
fn ticket_of(alloc: Global, identity: &Identity, cookie: Cookie) -> Result<Ticket, Refusal>
    ensures ok { IfOk result (λ ticket. asked ticket
        ≡ record { cookie = cookie; body = pull_text identity.now cookie }) }
    ensures err { IfErr result (λ e. e ≡ NoMemory) }
{
    let body = pull_bytes(alloc, identity, &cookie)?;
    Ok(Ticket { body, cookie })
}
