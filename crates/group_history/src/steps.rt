//! The parts of the two changes of a group, each a function of plain values.
ghost use Rattle.std.specs.Prelude.{◌≡◌, IfOk, fold, max};
ghost use Rattle.group_history.specs.Map.{patched};
ghost use Rattle.group_history.specs.State.{confirmed_id, replayed, ids_of};
ghost use Rattle.group_history.specs.Pulling.{goes_back, overwritten, left_pending, says_nothing};

use crate::cookies::Cookie;
use crate::json::Json;
use crate::mutations::Mutation;
use crate::mutators::{Mutators, Ran};
use crate::plain_view::PlainView;
use crate::responses::{Confirmed, Patch, PullOk};
use crate::text_map::TextMap;
use crate::texts::Text;
use std::alloc::{AllocError, Global};

/// The map after a patch's operations, in order (Pull Endpoint Reference, "patch").
pub fn apply_patch(map: &TextMap<Json>, patch: &[Patch]) -> Result<TextMap<Json>, AllocError>
    ensures { IfOk result (λ m. m ≡ patched map.now patch.now) }
{
    let mut patched = map.copied()?;
    for op in patch {
        match op {
            Patch::Put(key, value) => patched.insert(key.clone()?, value.clone()?)?,
            Patch::Del(key) => patched.remove(key),
            Patch::Clear => patched.clear(),
        }
    }
    Ok(patched)
}

/// A client's confirmed id, 0 where there is none.
pub(crate) fn confirmed_id_of(ids: &TextMap<u64>, client: &Text) -> u64
    ensures { result ≡ confirmed_id ids.now client.now }
{
    ids.get(client).copied().unwrap_or(0)
}

/// The greatest of a number and the ids of a client's mutations.
pub(crate) fn greatest_id(first: u64, client: &Text, pending: &[Mutation]) -> u64
    ensures { result ≡ fold max first (ids_of client.now pending.now) }
{
    pending
        .iter()
        .filter(|m| m.fields().client == *client)
        .map(|m| m.fields().id)
        .fold(first, |greatest, id| greatest.max(id))
}

/// Whether some change is below the confirmed id of its client.
pub(crate) fn is_going_back(ids: &TextMap<u64>, changes: &[Confirmed]) -> bool
    ensures { result ≡ goes_back ids.now changes.now }
{
    changes
        .iter()
        .any(|c| c.id < confirmed_id_of(ids, &c.client))
}

/// The confirmed ids after the changes, in order.
pub(crate) fn overwrite(
    ids: TextMap<u64>,
    changes: &[Confirmed],
) -> Result<TextMap<u64>, AllocError>
    ensures { IfOk result (λ m. m ≡ overwritten ids changes.now) }
{
    let mut after = ids;
    for change in changes {
        after.insert(change.client.clone()?, change.id)?;
    }
    Ok(after)
}

/// The mutations that are not confirmed, in order, each to be replayed for the reason Rebase.
pub fn keep_unconfirmed(
    alloc: Global,
    ids: &TextMap<u64>,
    pending: &[Mutation],
) -> Result<Vec<Mutation>, AllocError>
    ensures { IfOk result (λ v. v.items ≡ left_pending ids.now pending.now) }
{
    let mut kept = Vec::new(alloc);
    for mutation in pending {
        if confirmed_id_of(ids, &mutation.fields().client) < mutation.fields().id {
            kept.push(mutation.rebased(alloc)?)?;
        }
    }
    Ok(kept)
}

/// The map after the mutations are replayed on it, in order, each for its own reason.
pub(crate) fn replay<M: Mutators>(
    alloc: Global,
    mutators: &M,
    map: &TextMap<Json>,
    pending: &[Mutation],
) -> Result<TextMap<Json>, AllocError>
    ensures { IfOk result (λ m. m ≡ replayed M.means map.now pending.now) }
{
    let mut shown = map.copied()?;
    for mutation in pending {
        let mut view = PlainView {
            alloc,
            map: shown.copied()?,
        };
        match view.run(mutators, mutation) {
            Ok(Ran::Done) => shown = view.map,
            // What a refusing mutator wrote is thrown away with the view.
            Ok(Ran::Unknown | Ran::Refused(_)) => {}
            // A plain view stops for want of memory alone.
            Err(_stop) => return Err(AllocError),
        }
    }
    Ok(shown)
}

/// What a pull leaves confirmed and pending.
#[derive(Drop)]
pub(crate) struct Unconfirmed {
    pub(crate) confirmed: TextMap<u64>,
    pub(crate) pending: Vec<Mutation>,
}

/// The confirmed ids after a response's changes, and the mutations that stay pending under them.
pub(crate) fn confirm(
    alloc: Global,
    ids: &TextMap<u64>,
    changes: &[Confirmed],
    pending: &[Mutation],
) -> Result<Unconfirmed, AllocError>
    ensures confirmed { IfOk result (λ u. u.confirmed ≡ overwritten ids.now changes.now) }
    ensures pending { IfOk result (λ u. u.pending.items ≡ left_pending u.confirmed pending.now) }
{
    let confirmed = overwrite(ids.copied()?, changes)?;
    let pending = keep_unconfirmed(alloc, &confirmed, pending)?;
    Ok(Unconfirmed { confirmed, pending })
}

/// A pulled map, and what it shows.
#[derive(Drop)]
pub(crate) struct ShownMap {
    pub(crate) pulled: TextMap<Json>,
    pub(crate) view: TextMap<Json>,
}

/// The pulled map after a patch, and what that shows once the mutations are replayed on it.
pub(crate) fn patch_and_replay<M: Mutators>(
    alloc: Global,
    mutators: &M,
    pulled: &TextMap<Json>,
    patch: &[Patch],
    pending: &[Mutation],
) -> Result<ShownMap, AllocError>
    ensures pulled { IfOk result (λ s. s.pulled ≡ patched pulled.now patch.now) }
    ensures view { IfOk result (λ s. s.view ≡ replayed M.means s.pulled pending.now) }
{
    let pulled = apply_patch(pulled, patch)?;
    let view = replay(alloc, mutators, &pulled, pending)?;
    Ok(ShownMap { pulled, view })
}

/// Whether the response has the group's cookie, and nothing else.
pub fn is_saying_nothing(cookie: &Cookie, pull: &PullOk) -> bool
    ensures { result ≡ says_nothing cookie.now pull.now }
{
    pull.cookie().text() == cookie.text() && pull.patch().is_empty() && pull.changes().is_empty()
}
