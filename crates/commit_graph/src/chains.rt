//! A commit's chain: from a head by the bases down to a snapshot.
//!
//! Each look (`look_at_commit`) shows one commit to a closure, which tells what is wanted of it, and leaves it again.
ghost use Rattle.std.specs.Prelude.{◌≡◌, [], ◌∷◌, ◌++◌, true, IfOk, IfErr, IsSome, Some, None, option_map};
ghost use Rattle.group_history.specs.Pulling.{overwritten};
ghost use Rattle.group_history.specs.Refs.{stamp_of};
ghost use Rattle.group_history.specs.Spelling.{said_id, version_at};
ghost use Rattle.map_chunks.specs.Places.{Grows};
ghost use Rattle.commit_graph.specs.Inside.Chains.{added_by, link_of, top_of, id_alone, own_or_told, own_id, basis_of};
ghost use Rattle.commit_graph.specs.Inside.Chains.{listed, next_of, next_told, said_of};
ghost use Rattle.commit_graph.specs.Inside.Telling.{IsLastOf, IsOlder, SaysIds};
ghost use Rattle.commit_graph.specs.Inside.Chains.{IsSnapshot, HasBase, HasCookie, IsShownAt, LiesAt};

use crate::nodes::{Nodes, ShowsCommit};
use group_history::{
    Commit, CommitChange, CommitKind, Confirmed, ConfirmedIds, Cookie, Mutation, Ref, Stop,
    Successor, Text,
};
use std::alloc::{AllocError, Global};

/// A commit over a basis, as a link of its chain.
#[derive(Drop)]
pub struct Link {
    /// The mutation that it adds; none where it closes the group.
    pub added: Option<Mutation>,
    pub basis: Ref,
}

/// What a commit tells of its map, and of the whole chain below it.
#[derive(Clone, Copy)]
pub struct Top {
    /// The root of the map that queries read.
    pub root: Ref,
    /// The snapshot at which the chain begins; the commit itself, where it is one.
    pub snapshot: Ref,
    /// Whether the group is closed at the commit.
    pub closed: bool,
}

/// What the server last sent, its map by the root.
#[derive(Drop)]
pub struct Base {
    pub cookie: Cookie,
    pub confirmed: ConfirmedIds,
    pub pulled: Ref,
}

/// The id that one commit knows of a client, and the commit where it is sought next.
#[derive(Clone, Copy)]
pub struct OwnId {
    pub id: u64,
    pub next: Option<Ref>,
}

/// What one commit says of clients' last ids.
#[derive(Drop)]
pub struct SaidIds {
    /// The id of its own mutation, where the commit tells no others, and this isn't known to be an old one.
    pub said: Option<Confirmed>,
    /// Each client's last id at it, where it tells them; at a snapshot, each client's confirmed one.
    pub told: Option<ConfirmedIds>,
    /// The commit where they are sought next, where it doesn't.
    pub next: Option<Ref>,
}

impl SaidIds {
    // All that is to be said.
    fn told(ids: ConfirmedIds) -> SaidIds
        ensures { result ≡ record { said = None; told = Some ids; next = None } }
    {
        SaidIds {
            said: None,
            told: Some(ids),
            next: None,
        }
    }
}

fn added_by(step: &CommitChange) -> Result<Option<Mutation>, AllocError>
    ensures { IfOk result (λ added. added ≡ added_by step.now) }
{
    match step {
        CommitChange::Local(mutation) => Ok(Some(mutation.clone()?)),
        CommitChange::Closed => Ok(None),
    }
}

/// The link that a commit is; none for a snapshot.
pub fn link_in(commit: &Commit<Ref>) -> Result<Option<Link>, AllocError>
    ensures { IfOk result (λ link. link ≡ link_of commit.now) }
{
    match &commit.kind {
        CommitKind::Snapshot(_) => Ok(None),
        CommitKind::Over(over) => Ok(Some(Link {
            added: added_by(&over.step)?,
            basis: over.basis,
        })),
    }
}

/// What a commit at a reference tells by one look.
pub fn top_in(commit: &Commit<Ref>, at: Ref) -> Top
    ensures { result ≡ top_of at commit.now }
{
    match &commit.kind {
        CommitKind::Snapshot(_) => Top {
            root: commit.root,
            snapshot: at,
            closed: false,
        },
        CommitKind::Over(over) => Top {
            root: commit.root,
            snapshot: over.snapshot,
            closed: matches!(over.step, CommitChange::Closed),
        },
    }
}

/// The commit before a commit; none for a snapshot.
pub fn basis_in(commit: &Commit<Ref>) -> Option<Ref>
    ensures { result ≡ basis_of commit.now }
{
    match &commit.kind {
        CommitKind::Snapshot(_) => None,
        CommitKind::Over(over) => Some(over.basis),
    }
}

fn id_in(step: &CommitChange, client: &Text) -> u64
    ensures { result ≡ id_alone client.now step.now }
{
    match step {
        CommitChange::Local(mutation) => {
            if mutation.fields().client == *client {
                mutation.fields().id
            } else {
                0
            }
        }
        CommitChange::Closed => 0,
    }
}

// Where ids are sought behind a commit over a basis.
fn next_told(over: &Successor<Ref>) -> Option<Ref>
    ensures { result ≡ next_told over.now.basis over.now.told }
{
    match &over.told {
        Some(_) => None,
        None => Some(over.basis),
    }
}

// A client's id at a commit over a basis whose own mutation has this one of the client's.
fn id_told(over: &Successor<Ref>, own: u64, client: &Text) -> u64
    ensures { result ≡ own_or_told client.now own over.now.told }
{
    match &over.told {
        Some(ids) if own == 0 => ids.of(client),
        _ => own,
    }
}

/// The id that a commit alone knows of a client, and the commit where it is sought next.
pub fn own_id_in(commit: &Commit<Ref>, client: &Text) -> OwnId
    ensures id { result.id ≡ own_id client.now commit.now }
    ensures next { result.next ≡ next_of commit.now }
{
    match &commit.kind {
        CommitKind::Snapshot(snapshot) => OwnId {
            id: snapshot.confirmed.of(client),
            next: None,
        },
        CommitKind::Over(over) => OwnId {
            id: id_told(over, id_in(&over.step, client), client),
            next: next_told(over),
        },
    }
}

// Whether the last id is of this client.
fn ends_with(ids: &[Confirmed], client: &Text) -> bool
    ensures { result ≡ true → IsLastOf client.now ids.now }
{
    match ids.split_last() {
        Some((last, _)) => last.client == *client,
        None => false,
    }
}

// The id of a mutation, which is older than these ids, the newest of which stands first; none where the last of them is
// its client's.
fn said_by(mutation: &Mutation, newer: &[Confirmed]) -> Result<Option<Confirmed>, AllocError>
    ensures { IfOk result (λ said. IsOlder newer.now (said_id mutation.now ∷ []) (newer.now ++ listed said)) }
{
    if ends_with(newer, &mutation.fields().client) {
        return Ok(None);
    }
    Ok(Some(Confirmed {
        client: mutation.fields().client.clone()?,
        id: mutation.fields().id,
    }))
}

fn said_of_step(step: &CommitChange, newer: &[Confirmed]) -> Result<Option<Confirmed>, AllocError>
    ensures { IfOk result (λ said. IsOlder newer.now (listed (option_map said_id (added_by step.now)))
        (newer.now ++ listed said)) }
{
    match step {
        CommitChange::Local(mutation) => said_by(mutation, newer),
        CommitChange::Closed => Ok(None),
    }
}

// What a commit tells, overwritten by the id of its own mutation.
fn told_by(
    alloc: Global,
    ids: &ConfirmedIds,
    step: &CommitChange,
) -> Result<ConfirmedIds, AllocError>
    ensures { IfOk result (λ told. told ≡ overwritten ids.now (listed (option_map said_id (added_by step.now)))) }
{
    match step {
        CommitChange::Local(mutation) => {
            let own = Confirmed {
                client: mutation.fields().client.clone()?,
                id: mutation.fields().id,
            };
            ids.overwritten(alloc, &[own])
        }
        CommitChange::Closed => ids.clone(),
    }
}

/// What a commit says of clients' last ids that isn't known from these newer ones, of which the newest stands first.
pub fn said_in(
    alloc: Global,
    commit: &Commit<Ref>,
    newer: &[Confirmed],
) -> Result<SaidIds, AllocError>
    ensures { IfOk result (SaysIds newer.now (said_of commit.now)) }
{
    let over = match &commit.kind {
        CommitKind::Snapshot(snapshot) => {
            return Ok(SaidIds::told(snapshot.confirmed.clone()?));
        }
        CommitKind::Over(over) => over,
    };
    match &over.told {
        Some(ids) => Ok(SaidIds::told(told_by(alloc, ids, &over.step)?)),
        None => Ok(SaidIds {
            said: said_of_step(&over.step, newer)?,
            told: None,
            next: Some(over.basis),
        }),
    }
}

/// The cookie of a snapshot.
pub fn cookie_in(commit: &Commit<Ref>) -> Result<Cookie, AllocError>
    requires { IsSnapshot commit.now }
    ensures { IfOk result (λ cookie. HasCookie commit.now cookie) }
{
    let CommitKind::Snapshot(snapshot) = &commit.kind else {
        unreachable!();
    };
    snapshot.cookie.clone()
}

/// What a snapshot has from the server.
pub fn base_in(commit: &Commit<Ref>) -> Result<Base, AllocError>
    requires { IsSnapshot commit.now }
    ensures { IfOk result (λ base. HasBase commit.now base) }
{
    let CommitKind::Snapshot(snapshot) = &commit.kind else {
        unreachable!();
    };
    Ok(Base {
        cookie: snapshot.cookie.clone()?,
        confirmed: snapshot.confirmed.clone()?,
        pulled: commit.root,
    })
}

/// What a closure tells of a placed commit, which is shown to it, and left again. Stops as the store does alone.
pub fn look_at_commit<N: Nodes, R, F: FnMut(&Commit<Ref>) -> R>(
    nodes: &mut N,
    at: Ref,
    tell: &mut F,
) -> Result<R, Stop>
    requires known { IsSome (version_at (N.contents nodes.old) (stamp_of at)) }
    requires place { N.places nodes.old at }
    requires callable { (commit : _) → LiesAt (N.contents nodes.old) (stamp_of at) commit.now
        → F.pre tell.old commit }
    ensures grown { Grows N.contents N.places nodes.old nodes.new }
    ensures told { IfOk result (λ told. (commit : _)
        × IsShownAt (N.places nodes.new) (N.contents nodes.new) (stamp_of at) commit.now
        × F.FnMut.steps tell.old (commit, tt) told tell.new) }
    ensures stopped { IfErr result N.stops }
{
    let held = nodes.show_commit(at)?;
    let told = tell(held.commit());
    nodes.leave_commit(held);
    Ok(told)
}
