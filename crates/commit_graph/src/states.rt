//! What a commit's state is.
//!
//! What the server last sent lies at the snapshot that the head names: two looks, however much is
//! pending. The pending mutations are met on the way down the chain, the newest first. Every clause speaks
//! of the one version that the head spells.
ghost use Rattle.std.specs.Prelude.{◌≡◌, ◌⊎◌, ℕ, Some, IfOk, IfErr, OnOk, OnErr, IsSome, ◌++◌, [], ◌∷◌, IfSome};
ghost use Rattle.group_history.specs.Ids.{IdsFollow};
ghost use Rattle.group_history.specs.Refs.{stamp_of};
ghost use Rattle.group_history.specs.State.{last_id};
ghost use Rattle.group_history.specs.Spelling.{Version, version_at, snapshot_at, map_at};
ghost use Rattle.group_history.specs.declared.mutators.Stop.TheVariants.{NoMemory};
ghost use Rattle.map_chunks.specs.Places.{Grows};
ghost use Rattle.commit_graph.specs.Chains.{IsBaseOf};
ghost use Rattle.commit_graph.specs.Inside.Chains as seen;
ghost use Rattle.commit_graph.specs.Inside.Chains.{IsBasis, IsSnapshotAt, listed, next_of, own_id};
ghost use Rattle.commit_graph.specs.LastIds.{last_at};
ghost use Rattle.commit_graph.specs.Reach.{Reaches};
ghost use Rattle.commit_graph.specs.declared.states.LastId.{LastId as Ids};

use crate::chains::{
    Base, OwnId, Top, base_in, cookie_in, link_in, look_at_commit, own_id_in, top_in,
};
use crate::nodes::Nodes;
use group_history::{ConfirmedIds, Cookie, Mutation, Ref, Stop, Text};
use std::alloc::{AllocError, Global};

/// The state of a commit. The pulled map is named by its root.
pub struct CommitState {
    pub cookie: Cookie,
    /// Each client's confirmed id.
    pub confirmed: ConfirmedIds,
    /// The root of the map as the server last sent it.
    pub pulled: Ref,
    /// The mutations that are not confirmed, the oldest first.
    pub pending: Vec<Mutation>,
    /// Whether the server said that it doesn't know the group.
    pub closed: bool,
}

impl Drop for CommitState {
    fn drop(self) {
        let CommitState {
            cookie,
            confirmed,
            pulled: _,
            pending,
            closed: _,
        } = self;
        drop(cookie);
        drop(confirmed);
        drop(pending);
    }
}

fn add(mutations: &mut Vec<Mutation>, mutation: Option<Mutation>) -> Result<(), AllocError>
    ensures { OnOk result (mutations.new.items ≡ mutations.old.items ++ listed mutation) }
{
    if let Some(mutation) = mutation {
        mutations.push(mutation)?;
    }
    Ok(())
}

/// The pending mutations of a commit, the oldest first. Stops where the nodes stop, or for want of memory.
pub fn walk<N: Nodes>(alloc: Global, nodes: &mut N, head: Ref) -> Result<Vec<Mutation>, Stop>
    requires known { IsSome (version_at (N.contents nodes.old) (stamp_of head)) }
    requires place { N.places nodes.old head }
    ensures grown { Grows N.contents N.places nodes.old nodes.new }
    ensures pending { (v : Version) → version_at (N.contents nodes.old) (stamp_of head) ≡ Some v
        → IfOk result (λ xs. xs.items ≡ v.state.pending) }
    ensures stopped { IfErr result (λ stop. (stop ≡ NoMemory) ⊎ N.stops stop) }
{
    let mut pending = Vec::new(alloc);
    let mut at = head;
    while let Some(link) = look_at_commit(nodes, at, &mut link_in)?? {
        add(&mut pending, link.added)?;
        at = link.basis;
    }
    pending.reverse();
    Ok(pending)
}

/// The snapshot of a commit's chain.
pub(crate) fn snapshot_of<N: Nodes>(nodes: &mut N, head: Ref) -> Result<Ref, Stop>
    requires known { IsSome (version_at (N.contents nodes.old) (stamp_of head)) }
    requires place { N.places nodes.old head }
    ensures grown { Grows N.contents N.places nodes.old nodes.new }
    ensures place { IfOk result (N.places nodes.new) }
    ensures lies { IfOk result (λ at. IsSnapshotAt (N.contents nodes.new) (stamp_of at)) }
    ensures reached { IfOk result (λ at. Reaches (N.contents nodes.new) (stamp_of head) (stamp_of at)) }
    ensures state { (v : Version) → version_at (N.contents nodes.old) (stamp_of head) ≡ Some v
        → IfOk result (λ at. IsBasis (N.contents nodes.new) (stamp_of at) v.state) }
    ensures stopped { IfErr result N.stops }
{
    let top = top_of(nodes, head)?;
    Ok(top.snapshot)
}

/// What a commit tells by one look: the root of its map, the snapshot of its chain, and whether the group is closed at
/// it. Stops where the nodes stop.
pub fn top_of<N: Nodes>(nodes: &mut N, head: Ref) -> Result<Top, Stop>
    requires known { IsSome (version_at (N.contents nodes.old) (stamp_of head)) }
    requires place { N.places nodes.old head }
    ensures grown { Grows N.contents N.places nodes.old nodes.new }
    ensures root { (v : Version) → version_at (N.contents nodes.old) (stamp_of head) ≡ Some v
        → IfOk result (λ top. map_at (N.contents nodes.new) (stamp_of top.root) ≡ Some v.read) }
    ensures snapshot { IfOk result (λ top. snapshot_at (N.contents nodes.new) (stamp_of head)
        ≡ Some (stamp_of top.snapshot)) }
    ensures closed { (v : Version) → version_at (N.contents nodes.old) (stamp_of head) ≡ Some v
        → IfOk result (λ top. top.closed ≡ v.state.closed) }
    ensures places { IfOk result (λ top. N.places nodes.new top.root × N.places nodes.new top.snapshot) }
    ensures stopped { IfErr result N.stops }
{
    let top = look_at_commit(
        nodes,
        head,
        &mut |commit|
            ensures { result ≡ seen.top_of head commit.now }
        { top_in(commit, head) },
    )?;
    Ok(top)
}

/// Whether the group is closed at a commit. Stops where the nodes stop.
pub fn closed_of<N: Nodes>(nodes: &mut N, head: Ref) -> Result<bool, Stop>
    requires known { IsSome (version_at (N.contents nodes.old) (stamp_of head)) }
    requires place { N.places nodes.old head }
    ensures grown { Grows N.contents N.places nodes.old nodes.new }
    ensures closed { (v : Version) → version_at (N.contents nodes.old) (stamp_of head) ≡ Some v
        → IfOk result (λ closed. closed ≡ v.state.closed) }
    ensures stopped { IfErr result N.stops }
{
    let top = top_of(nodes, head)?;
    Ok(top.closed)
}

/// What the server last sent, as a commit's state has it: two looks, however much is pending. Stops where the nodes
/// stop, or for want of memory.
pub fn base_of<N: Nodes>(nodes: &mut N, head: Ref) -> Result<Base, Stop>
    requires known { IsSome (version_at (N.contents nodes.old) (stamp_of head)) }
    requires place { N.places nodes.old head }
    ensures grown { Grows N.contents N.places nodes.old nodes.new }
    ensures state { (v : Version) → version_at (N.contents nodes.old) (stamp_of head) ≡ Some v
        → IfOk result (IsBaseOf (N.contents nodes.new) v.state) }
    ensures place { IfOk result (λ b. N.places nodes.new b.pulled) }
    ensures stopped { IfErr result (λ stop. (stop ≡ NoMemory) ⊎ N.stops stop) }
{
    let snapshot = snapshot_of(nodes, head)?;
    let base = look_at_commit(nodes, snapshot, &mut base_in)??;
    Ok(base)
}

/// What the server last sent, by one look at the snapshot of a chain, where one of its commits told which that is.
pub fn base_at<N: Nodes>(nodes: &mut N, snapshot: Ref) -> Result<Base, Stop>
    requires snapshot { (k : ℕ) × IsSome (version_at (N.contents nodes.old) k)
        × (snapshot_at (N.contents nodes.old) k ≡ Some (stamp_of snapshot)) }
    requires place { N.places nodes.old snapshot }
    ensures grown { Grows N.contents N.places nodes.old nodes.new }
    ensures state { (k : ℕ) (v : Version) → version_at (N.contents nodes.old) k ≡ Some v
        → snapshot_at (N.contents nodes.old) k ≡ Some (stamp_of snapshot)
        → IfOk result (IsBaseOf (N.contents nodes.new) v.state) }
    ensures place { IfOk result (λ b. N.places nodes.new b.pulled) }
    ensures stopped { IfErr result (λ stop. (stop ≡ NoMemory) ⊎ N.stops stop) }
{
    let base = look_at_commit(nodes, snapshot, &mut base_in)??;
    Ok(base)
}

/// The state of a commit. The pulled map's root is the reference that the snapshot names. Stops where the nodes stop,
/// or for want of memory.
pub fn state_of<N: Nodes>(alloc: Global, nodes: &mut N, head: Ref) -> Result<CommitState, Stop>
    requires known { IsSome (version_at (N.contents nodes.old) (stamp_of head)) }
    requires place { N.places nodes.old head }
    ensures grown { Grows N.contents N.places nodes.old nodes.new }
    ensures cookie { (v : Version) → version_at (N.contents nodes.old) (stamp_of head) ≡ Some v
        → IfOk result (λ s. s.cookie ≡ v.state.cookie) }
    ensures confirmed { (v : Version) → version_at (N.contents nodes.old) (stamp_of head) ≡ Some v
        → IfOk result (λ s. s.confirmed ≡ v.state.confirmed) }
    ensures pulled { (v : Version) → version_at (N.contents nodes.old) (stamp_of head) ≡ Some v
        → IfOk result (λ s. map_at (N.contents nodes.new) (stamp_of s.pulled) ≡ Some v.state.pulled) }
    ensures place { IfOk result (λ s. N.places nodes.new s.pulled) }
    ensures pending { (v : Version) → version_at (N.contents nodes.old) (stamp_of head) ≡ Some v
        → IfOk result (λ s. s.pending.items ≡ v.state.pending) }
    ensures closed { (v : Version) → version_at (N.contents nodes.old) (stamp_of head) ≡ Some v
        → IfOk result (λ s. s.closed ≡ v.state.closed) }
    ensures stopped { IfErr result (λ stop. (stop ≡ NoMemory) ⊎ N.stops stop) }
{
    let closed = closed_of(nodes, head)?;
    let pending = walk(alloc, nodes, head)?;
    let Base {
        cookie,
        confirmed,
        pulled,
    } = base_of(nodes, head)?;
    Ok(CommitState {
        cookie,
        confirmed,
        pulled,
        pending,
        closed,
    })
}

/// The cookie of a commit's state: two looks. Stops where the nodes stop, or for want of memory.
pub fn cookie_of<N: Nodes>(nodes: &mut N, head: Ref) -> Result<Cookie, Stop>
    requires known { IsSome (version_at (N.contents nodes.old) (stamp_of head)) }
    requires place { N.places nodes.old head }
    ensures grown { Grows N.contents N.places nodes.old nodes.new }
    ensures cookie { (v : Version) → version_at (N.contents nodes.old) (stamp_of head) ≡ Some v
        → IfOk result (λ cookie. cookie ≡ v.state.cookie) }
    ensures stopped { IfErr result (λ stop. (stop ≡ NoMemory) ⊎ N.stops stop) }
{
    let snapshot = snapshot_of(nodes, head)?;
    let cookie = look_at_commit(nodes, snapshot, &mut cookie_in)??;
    Ok(cookie)
}

/// A client's last id, and a commit at which it was found.
#[derive(Clone, Copy)]
pub struct LastId {
    pub at: Ref,
    pub id: u64,
}

/// A client's last id, as it was found by a walk.
#[derive(Clone, Copy)]
pub struct SoughtId {
    pub id: u64,
    /// Whether so many commits were looked at that the next one had better tell each client's last id.
    pub is_far: bool,
}

/// How many commits a walk for a last id may look at that isn't far.
pub const NEAR_COMMITS: u32 = 16;

/// How many stamps a head may be ahead of the client's own last commit that isn't far: some of each commit's nodes.
const NEAR_STAMPS: u64 = 64;

// Whether an id was found where ids are told, and others made many commits since the one at which it was found before.
fn is_told_far(own: OwnId, before: Option<LastId>, head: Ref) -> bool {
    if own.next.is_some() {
        return false;
    }
    match before {
        Some(found) => head.stamp().saturating_sub(found.at.stamp()) > NEAR_STAMPS,
        None => true,
    }
}

// The id that was found before, at the commit where it was found.
fn found_at(before: Option<LastId>, at: Ref) -> Option<u64>
    ensures { IfSome result (λ id. (found : Ids) × (before ≡ Some found) × (stamp_of found.at ≡ stamp_of at)
        × (found.id ≡ id)) }
{
    let Some(found) = before else {
        return None;
    };
    if found.at.stamp() == at.stamp() {
        return Some(found.id);
    }
    None
}

/// A client's last id, where the ids follow: that of its newest commit, or else what the snapshot has confirmed, 0 for
/// a client that is in neither. The walk ends there, at a commit that tells each client's last id, and where it meets
/// the commit at which the id was found before. Stops where the nodes stop.
#[inline(always)]
pub fn last_id_since<N: Nodes>(
    nodes: &mut N,
    head: Ref,
    client: &Text,
    before: Option<LastId>,
) -> Result<SoughtId, Stop>
    requires head { IsSome (version_at (N.contents nodes.old) (stamp_of head)) }
    requires place { N.places nodes.old head }
    requires ids { (v : Version) → version_at (N.contents nodes.old) (stamp_of head) ≡ Some v
        → IdsFollow v.state.confirmed v.state.pending }
    requires before { (found : Ids) → before ≡ Some found
        → last_at (N.contents nodes.old) (stamp_of found.at) client.now ≡ Some found.id }
    ensures grown { Grows N.contents N.places nodes.old nodes.new }
    ensures id { (v : Version) → version_at (N.contents nodes.old) (stamp_of head) ≡ Some v
        → IfOk result (λ sought. sought.id ≡ last_id v.state client.now) }
    ensures stopped { IfErr result N.stops }
{
    if let Some(id) = found_at(before, head) {
        return Ok(SoughtId { id, is_far: false });
    }
    last_id_from(nodes, head, client, before)
}

// The same, by the walk alone.
#[inline(never)]
fn last_id_from<N: Nodes>(
    nodes: &mut N,
    head: Ref,
    client: &Text,
    before: Option<LastId>,
) -> Result<SoughtId, Stop>
    requires head { IsSome (version_at (N.contents nodes.old) (stamp_of head)) }
    requires place { N.places nodes.old head }
    requires ids { (v : Version) → version_at (N.contents nodes.old) (stamp_of head) ≡ Some v
        → IdsFollow v.state.confirmed v.state.pending }
    requires before { (found : Ids) → before ≡ Some found
        → last_at (N.contents nodes.old) (stamp_of found.at) client.now ≡ Some found.id }
    ensures grown { Grows N.contents N.places nodes.old nodes.new }
    ensures id { (v : Version) → version_at (N.contents nodes.old) (stamp_of head) ≡ Some v
        → IfOk result (λ sought. sought.id ≡ last_id v.state client.now) }
    ensures stopped { IfErr result N.stops }
{
    let mut next = Some(head);
    let mut left = NEAR_COMMITS;
    while let Some(at) = next {
        let is_far = left == 0;
        if let Some(id) = found_at(before, at) {
            return Ok(SoughtId { id, is_far });
        }
        left = left.saturating_sub(1);
        let own = look_at_commit(
            nodes,
            at,
            &mut |commit|
                ensures id { result.id ≡ own_id client.entry.now commit.now }
                ensures next { result.next ≡ next_of commit.now }
            { own_id_in(commit, client) },
        )?;
        if own.id > 0 {
            let is_far = is_far | is_told_far(own, before, head);
            return Ok(SoughtId { id: own.id, is_far });
        }
        next = own.next;
    }
    let is_far = left == 0;
    Ok(SoughtId { id: 0, is_far })
}

/// The root of the map that queries read at a commit: the reference that the commit names.
pub fn read_root<N: Nodes>(nodes: &mut N, head: Ref) -> Result<Ref, Stop>
    requires known { IsSome (version_at (N.contents nodes.old) (stamp_of head)) }
    requires place { N.places nodes.old head }
    ensures grown { Grows N.contents N.places nodes.old nodes.new }
    ensures root { (v : Version) → version_at (N.contents nodes.old) (stamp_of head) ≡ Some v
        → IfOk result (λ root. map_at (N.contents nodes.new) (stamp_of root) ≡ Some v.read) }
    ensures place { IfOk result (N.places nodes.new) }
    ensures stopped { IfErr result N.stops }
{
    let top = top_of(nodes, head)?;
    Ok(top.root)
}
