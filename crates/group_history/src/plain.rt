//! A group of one thread, by the definitions.
//!
//! It keeps the pulled map, the cookie, the confirmed ids and the pending mutations, and beside them the
//! view, so that a query is one look-up. Its invariant (`IsSound`) says that the view is the replay of what
//! is pending, and that each client's pending ids are the numbers that follow its confirmed id. So the next
//! id fits 64 bits with no bound asked of the caller.
ghost use Rattle.std.specs.Prelude.{◌≡◌, ◌+◌, false, Ok, IfOk, IfErr, OnOk, OnErr};
ghost use Rattle.std.specs.Option.{option_copied};
ghost use Rattle.group_history.specs.declared.refusals.Refusal.TheVariants.{NoMemory};
ghost use Rattle.group_history.specs.Answers.{AnswersOrNoMemory, Refuses};
ghost use Rattle.group_history.specs.Meaning.{meaning_of};
ghost use Rattle.group_history.specs.State.{opening, made, last_id, view_of};
ghost use Rattle.group_history.specs.Queries.{get_at, has_at, view_rows, is_empty_at};
ghost use Rattle.group_history.specs.Mutating.{mutate_reply, after_mutate, left_by_mutate, map_if_done};
ghost use Rattle.group_history.specs.Pulling.{after_pull, end_at, end_reply, left_at_end, left_by_end, goes_back};

use crate::cookies::{Cookie, cookie_cmp};
use crate::json::Json;
use crate::mutations::Mutation;
use crate::mutators::{Mutators, Ran};
use crate::plain_view::PlainView;
use crate::refusals::Refusal;
use crate::responses::{Ended, PullOk, Response};
use crate::scans::Scan;
use crate::steps;
use crate::text_map::TextMap;
use crate::texts::Text;
use std::alloc::{AllocError, Global};
use std::cmp::Ordering;
use std::marker::{Model, PhantomData};

/// A client group of one thread: what is pulled, what is pending, and the view of both.
#[derive(Drop)]
pub struct PlainGroup<M: Mutators> {
    alloc: Global,
    pulled: TextMap<Json>,
    cookie: Cookie,
    confirmed: TextMap<u64>,
    pending: Vec<Mutation>,
    closed: bool,
    view: TextMap<Json>,
    mutators: PhantomData<M>,
}

impl<M: Mutators> Model for PlainGroup<M> {
    ghost use Rattle.group_history.specs.State.{State, state};
    ghost use Rattle.group_history.specs.Inside.Plain.{IsSound};
    ghost use Rattle.std.specs.Ordering.{nat_cmp};
    ghost use Rattle.std.specs.Cmp.Lexicographic.{slice_cmp};
    ghost use Rattle.std.specs.Coded.{codes, coded_ℕ, coded_list};
    ghost use Rattle.std.specs.FinMap as finite;

    ghost Value = { State };

    ghost coded = { Prim.hlevel (
      codes,
      finite.code {R = slice_cmp nat_cmp} (coded_list coded_ℕ) (coded_list coded_ℕ),
      finite.code {R = slice_cmp nat_cmp} (coded_list coded_ℕ) coded_ℕ,
    ) };

    ghost view = { λ g. state g.pulled g.cookie g.confirmed g.pending.items g.closed };

    ghost invariant = { λ g. IsSound M.means g.view g.pulled g.confirmed g.pending.items };
}

impl<M: Mutators> PlainGroup<M> {
    /// A new group: nothing is pulled, nothing is pending, the cookie is null, and it is open. Refused with NoMemory.
    pub fn new(alloc: Global) -> Result<PlainGroup<M>, Refusal>
        ensures ok { IfOk result (λ g. g ≡ opening) }
        ensures err { IfErr result (λ e. e ≡ NoMemory) }
    {
        Ok(PlainGroup {
            alloc,
            pulled: TextMap::new(alloc),
            cookie: Cookie::null(alloc)?,
            confirmed: TextMap::new(alloc),
            pending: Vec::new(alloc),
            closed: false,
            view: TextMap::new(alloc),
            mutators: PhantomData,
        })
    }

    /// The value at a key of the view; none where the key is not there.
    pub fn get(&self, key: &Text) -> Option<&Json>
        ensures { option_copied result ≡ get_at M.means self.now key.now }
    {
        self.view.get(key)
    }

    /// Whether the view has the key.
    pub fn has(&self, key: &Text) -> bool
        ensures { result ≡ has_at M.means self.now key.now }
    {
        self.view.has(key)
    }

    /// The rows of a scan of the view. Refused with NoMemory.
    pub fn scan(&self, scan: &Scan) -> Result<Vec<(Text, Json)>, Refusal>
        ensures rows { IfOk result (λ rows. rows.items ≡ view_rows M.means self.now scan.now) }
        ensures err { IfErr result (λ e. e ≡ NoMemory) }
    {
        Ok(self.view.rows(self.alloc, scan)?)
    }

    /// Whether the view has no key.
    pub fn is_empty(&self) -> bool
        ensures { result ≡ is_empty_at M.means self.now }
    {
        self.view.is_empty()
    }

    /// The cookie of the last pull that was applied; null before the first.
    pub fn cookie(&self) -> &Cookie
        ensures { result.now ≡ self.now.cookie }
    {
        &self.cookie
    }

    /// The mutations that are not confirmed, the oldest first.
    pub fn pending(&self) -> &[Mutation]
        ensures { result.now ≡ self.now.pending }
    {
        self.pending.as_slice()
    }

    /// The client's last id: the greatest of its confirmed id and its pending ids.
    pub fn last(&self, client: &Text) -> u64
        ensures { result ≡ last_id self.now client.now }
    {
        let confirmed = steps::confirmed_id_of(&self.confirmed, client);
        steps::greatest_id(confirmed, client, &self.pending)
    }

    /// Whether the server answered a pull with StateNotFound: then no change is accepted any more.
    pub fn closed(&self) -> bool
        ensures { result ≡ self.now.closed }
    {
        self.closed
    }

    /// Ends a pull that was begun at the cookie `ticket` (Pull Endpoint Reference; How It Works, "Pull" and "Rebase").
    /// Refused, in this order, with Closed, what an error response says, Overtaken, CookieWentBack, CookieNotNew,
    /// IdWentBack; NoMemory may come in place of any answer. StateNotFound closes the group, whatever the ticket; any
    /// other refusal, and Same, leaves it as it was.
    pub fn end_pull(
        &mut self,
        mutators: &M,
        ticket: &Cookie,
        response: &Response,
    ) -> Result<Ended, Refusal>
        ensures answer { AnswersOrNoMemory result (end_reply self.old ticket.now.text response.now) }
        ensures left { self.new ≡ left_by_end result self.old response.now }
    {
        if self.closed() {
            return Err(Refusal::Closed);
        }
        match response {
            Response::Ok(pull) => self.end_with(mutators, ticket, pull),
            Response::StateNotFound => {
                self.closed = true;
                Err(Refusal::StateNotFound)
            }
            Response::VersionNotSupported(kind) => Err(Refusal::VersionNotSupported(*kind)),
        }
    }

    // Ends a pull of an open group by a response without an error.
    fn end_with(&mut self, mutators: &M, ticket: &Cookie, pull: &PullOk) -> Result<Ended, Refusal>
        ensures answer { AnswersOrNoMemory result (end_at self.old ticket.now.text pull.now) }
        ensures left { self.new ≡ left_at_end result self.old pull.now }
    {
        if self.cookie.text() != ticket.text() {
            return Err(Refusal::Overtaken);
        }
        match cookie_cmp(pull.cookie(), &self.cookie) {
            Ordering::Less => Err(Refusal::CookieWentBack),
            Ordering::Equal => {
                if steps::is_saying_nothing(&self.cookie, pull) {
                    Ok(Ended::Same)
                } else {
                    Err(Refusal::CookieNotNew)
                }
            }
            Ordering::Greater => {
                if steps::is_going_back(&self.confirmed, pull.changes()) {
                    return Err(Refusal::IdWentBack);
                }
                self.apply(mutators, pull)?;
                Ok(Ended::Applied)
            }
        }
    }

    fn apply(&mut self, mutators: &M, pull: &PullOk) -> Result<(), AllocError>
        requires { goes_back self.old.confirmed pull.now.changes ≡ false }
        ensures ok { OnOk result (self.new ≡ after_pull self.old pull.now) }
        ensures err { OnErr result (self.new ≡ self.old) }
    {
        let rebased = self.rebased(mutators, pull)?;
        *self = rebased;
        Ok(())
    }

    // The group after a pull: its patch is applied, and what stays pending is replayed on that.
    fn rebased(&self, mutators: &M, pull: &PullOk) -> Result<PlainGroup<M>, AllocError>
        requires { goes_back self.now.confirmed pull.now.changes ≡ false }
        ensures { IfOk result (λ g. g ≡ after_pull self.now pull.now) }
    {
        let alloc = self.alloc;
        let left = steps::confirm(alloc, &self.confirmed, pull.changes(), &self.pending)?;
        let shown = steps::patch_and_replay(
            alloc,
            mutators,
            &self.pulled,
            pull.patch(),
            &left.pending,
        )?;
        let cookie = pull.cookie().clone()?;
        Ok(PlainGroup {
            alloc,
            pulled: shown.pulled,
            cookie,
            confirmed: left.confirmed,
            pending: left.pending,
            closed: self.closed,
            view: shown.view,
            mutators: PhantomData,
        })
    }

    /// Makes a mutation, by a client whose own last id is `last`, and answers its id, `last + 1` (How It Works,
    /// "Mutations"). `time` is in milliseconds. Refused, in this order, with Closed, Stale, NoMutator, Refused;
    /// NoMemory may come in place of any answer. A refused call leaves the group as it was.
    pub fn mutate(
        &mut self,
        mutators: &M,
        client: &Text,
        last: u64,
        name: &Text,
        args: &Json,
        time: u64,
    ) -> Result<u64, Refusal>
        ensures answer { AnswersOrNoMemory result (mutate_reply M.means self.old last
            (made client.now (last + 1) name.now args.now time)) }
        ensures left { self.new ≡ left_by_mutate result self.old (made client.now (last + 1) name.now args.now time) }
    {
        if self.closed {
            return Err(Refusal::Closed);
        }
        if self.last(client) != last {
            return Err(Refusal::Stale);
        }
        let id = last + 1;
        let mutation = Mutation::new(self.alloc, client, id, name, args, time)?;
        self.accept(mutators, mutation)?;
        Ok(id)
    }

    // Adds the client's next mutation, unless its mutator refuses or isn't known.
    fn accept(&mut self, mutators: &M, mutation: Mutation) -> Result<(), Refusal>
        requires { mutation.id ≡ last_id self.old mutation.client + 1 }
        ensures done { OnOk result (map_if_done (meaning_of M.means mutation (view_of M.means self.old))
            ≡ Ok (view_of M.means self.new)) }
        ensures ok { OnOk result (self.new ≡ after_mutate self.old mutation) }
        ensures err { OnErr result (self.new ≡ self.old) }
        ensures why { IfErr result (λ e. Refuses e (map_if_done (meaning_of M.means mutation
            (view_of M.means self.old)))) }
    {
        let view = self.shown_after(mutators, &mutation)?;
        self.pending.push(mutation)?;
        self.view = view;
        Ok(())
    }

    // The view after one run of a mutation on it, unless its mutator refuses or isn't known.
    fn shown_after(&self, mutators: &M, mutation: &Mutation) -> Result<TextMap<Json>, Refusal>
        ensures { AnswersOrNoMemory result (map_if_done (meaning_of M.means mutation.now (view_of M.means self.now))) }
    {
        let mut view = PlainView {
            alloc: self.alloc,
            map: self.view.copied()?,
        };
        match view.run(mutators, mutation) {
            Ok(Ran::Done) => Ok(view.map),
            Ok(Ran::Unknown) => Err(Refusal::NoMutator),
            Ok(Ran::Refused(code)) => Err(Refusal::Refused(code)),
            Err(_stop) => Err(Refusal::NoMemory),
        }
    }
}
