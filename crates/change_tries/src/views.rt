//! What is read at a commit of the shared group.
ghost use Rattle.std.specs.Prelude.{◌≡◌, ◌<◌, ◌^◌, true, Some, IsSome, IfOk, IfErr};
ghost use Rattle.group_history.specs.Refs.{stamp_of};
ghost use Rattle.group_history.specs.Spelling.{Version, map_at, tells_right, version_at};
ghost use Rattle.group_history.specs.State.{last_id, view_of};
ghost use Rattle.head_word.specs.Books.{drawn};
ghost use Rattle.commit_graph.specs.LastIds.{last_at};
ghost use Rattle.commit_graph.specs.declared.states.LastId.{LastId as Found};
ghost use Rattle.change_tries.specs.Missing.{IsStoreRefusal, IsStoreOrMemory};
ghost use Rattle.change_tries.specs.Places.{state_at};

use crate::places::At;
use chunk_slots::Slots;
use commit_graph::{
    LastId, Nodes, SoughtId, StoreNodes, closed_of, cookie_of, last_id_since, last_ids_at,
    read_root,
};
use group_history::{ConfirmedIds, Cookie, Means, Ref, Refusal, Stop, Text};
use std::marker::Brand;
use transactions::{Fixed, NamesContents};

/// A commit, and the root of the map that queries read at it.
#[derive(Clone, Copy)]
pub struct Rooted {
    pub commit: Ref,
    pub root: Ref,
}

fn root_known<N: Nodes + Copy, K: NamesContents>(nodes: N, at: Ref) -> Result<Ref, Stop>
    requires known { N.contents nodes ≡ K.known }
    requires version { IsSome (version_at K.known (stamp_of at)) }
    requires place { N.places nodes at }
    ensures root { (v : Version) → version_at K.known (stamp_of at) ≡ Some v
        → IfOk result (λ root. map_at K.known (stamp_of root) ≡ Some v.read) }
    ensures stopped { IfErr result N.stops }
{
    let mut fixed = Fixed::<N, K>::new(nodes);
    read_root(&mut fixed, at)
}

/// The root of the map that queries read at the commit.
pub fn root_at<'a, M: Means, S: Slots<M>>(at: &At<'a, M, S>) -> Result<Ref, Refusal>
    ensures root { IfOk result (λ root. map_at (drawn at.now.mark.log) (stamp_of root)
        ≡ Some (view_of M.means (state_at at.now))) }
    ensures err { IfErr result (IsStoreRefusal S.reused) }
{
    Ok(root_known::<StoreNodes<'a, M, S>, Brand>(at.nodes(), at.commit)?)
}

/// The cookie of the commit's state.
pub fn cookie_at<M: Means, S: Slots<M>>(at: &At<'_, M, S>) -> Result<Cookie, Refusal>
    ensures cookie { IfOk result (λ cookie. cookie ≡ (state_at at.now).cookie) }
    ensures err { IfErr result (IsStoreOrMemory S.reused) }
{
    let mut nodes = at.nodes();
    Ok(cookie_of(&mut nodes, at.commit)?)
}

/// Whether the group is closed at the commit.
pub fn closed_at<M: Means, S: Slots<M>>(at: &At<'_, M, S>) -> Result<bool, Refusal>
    ensures closed { IfOk result (λ closed. closed ≡ (state_at at.now).closed) }
    ensures err { IfErr result (IsStoreRefusal S.reused) }
{
    let mut nodes = at.nodes();
    Ok(closed_of(&mut nodes, at.commit)?)
}

/// A client's last id at the commit, where it was found at another one before or never.
#[inline(always)]
pub(crate) fn last_known<M: Means, S: Slots<M>>(
    at: &At<'_, M, S>,
    client: &Text,
    before: Option<LastId>,
) -> Result<SoughtId, Refusal>
    requires before { (found : Found) → before ≡ Some found
        → last_at (drawn at.now.mark.log) (stamp_of found.at) client.now ≡ Some found.id }
    ensures id { IfOk result (λ sought. sought.id ≡ last_id (state_at at.now) client.now) }
    ensures low { IfOk result (λ sought. sought.id < 2 ^ 53) }
    ensures err { IfErr result (IsStoreRefusal S.reused) }
{
    let mut nodes = at.nodes();
    Ok(last_id_since(&mut nodes, at.commit, client, before)?)
}

/// Each client's last id at the commit, if the next one is to tell them.
pub(crate) fn told_if<M: Means, S: Slots<M>>(
    at: &At<'_, M, S>,
    tells: bool,
) -> Result<Option<ConfirmedIds>, Refusal>
    ensures right { IfOk result (λ told. tells_right told (state_at at.now) ≡ true) }
    ensures err { IfErr result (IsStoreOrMemory S.reused) }
{
    if !tells {
        return Ok(None);
    }
    let group = at.group;
    let alloc = group.shared.alloc;
    let mut nodes = at.nodes();
    Ok(Some(last_ids_at(alloc, &mut nodes, at.commit)?))
}
