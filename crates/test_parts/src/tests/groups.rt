//! What a pull shares with the maps before it.
ghost use Rattle.std.specs.Prelude.{◌≡◌, ◌<◌, ◌^◌, IsSome, IfOk, map};
ghost use Rattle.std.specs.Coded.{Unit-prop};
ghost use Rattle.group_history.specs.Naming.{content_of};
ghost use Rattle.group_history.specs.Refs.{stamp_of};
ghost use Rattle.group_history.specs.Spelling.{map_at, version_at};

use change_drafts::{
    LastCommit, Setting, add_opening, add_patched, add_replayed, base_at, confirmed_after, look_at,
    run_pending, told_before_last,
};
use commit_graph::{
    CommitState, LentCommit, Nodes, VecNodes, cookie_of, dropped, last_ids_at, state_of,
};
use group_history::{Json, Mutation, PullOk, Ref, Refusal, Response, Stop, Text, keep_unconfirmed};
use map_tree::{Chunks, Lent, Shelf};
use pull_patch::read_response;
use script_mutators::ScriptMutators;
use std::alloc::Global;
use std::marker::Brand;
use std::prelude::*;

/// Adds the operation that puts a number at its key, behind so many others.
fn add_put(alloc: Global, body: &mut String, before: u64) -> Result<(), Refusal>
    requires { before < 2 ^ 32 }
{
    if before > 0 {
        body.push(',')?;
    }
    let number = before + 1;
    let op = format!(in alloc; r#"{{"op":"put","key":"k{number:02}","value":{number}}}"#)?;
    body.push_str(op.as_str())?;
    Ok(())
}

/// The body of a pull with the keys of the first so many numbers, each with its number.
fn numbered(alloc: Global, count: u32) -> Result<String, Refusal> {
    let mut body = String::new(alloc);
    body.push_str(r#"{"cookie":1,"lastMutationIDChanges":{},"patch":["#)?;
    for before in 0..u64::from(count) {
        add_put(alloc, &mut body, before)?;
    }
    body.push_str("]}")?;
    Ok(body)
}

/// Counts how often a node is shown.
#[derive(Drop)]
pub(super) struct CountedNodes<'a> {
    pub(super) shelf: Shelf<'a>,
    pub(super) shown: u64,
}

impl<'a> Chunks for CountedNodes<'a> {
    type Held = Lent<'a>;

    ghost contents = { λ counted. map content_of counted.shelf.nodes.now };

    ghost places = { λ counted at. Unit {0} };

    ghost places_prop = { λ _ at. Unit-prop };

    ghost stops = { λ stop. ⊥ };

    fn show(&mut self, at: Ref) -> Result<Lent<'a>, Stop> {
        self.shown = self.shown.saturating_add(1);
        self.shelf.show(at)
    }

    fn leave(&mut self, held: Lent<'a>) {
        self.shelf.leave(held);
    }
}

impl<'a> Nodes for CountedNodes<'a> {
    type HeldCommit = LentCommit<'a>;

    fn show_commit(&mut self, at: Ref) -> Result<LentCommit<'a>, Stop> {
        self.shown = self.shown.saturating_add(1);
        self.shelf.show_commit(at)
    }

    fn leave_commit(&mut self, held: LentCommit<'a>) {
        self.shelf.leave_commit(held);
    }
}

/// Adds the nodes of a pull over this head, with these mutations pending, and answers the new head.
pub(super) fn add_rebased(
    alloc: Global,
    nodes: &mut VecNodes,
    head: Ref,
    pending: &[Mutation],
    pull: &PullOk,
) -> Result<Ref, Refusal>
    requires { IsSome (version_at (map content_of nodes.old) (stamp_of head)) }
    ensures old { IfOk result (λ _. IsSome (version_at (map content_of nodes.new) (stamp_of head))) }
    ensures new { IfOk result (λ new. IsSome (version_at (map content_of nodes.new) (stamp_of new))) }
{
    let shelf = nodes.shelf();
    let look = look_at::<Shelf<'_>, Brand>(shelf, head)?;
    let base = base_at::<Shelf<'_>, Brand>(shelf, look.tip)?;
    let mut draft = nodes.draft(alloc);
    let setting = Setting {
        alloc,
        chunks: shelf,
        mutators: &ScriptMutators,
    };
    let confirmed = confirmed_after(alloc, &base, pull)?;
    let kept = keep_unconfirmed(alloc, &confirmed.to_map()?, pending)?;
    let left = kept.as_slice();
    let told = told_before_last(alloc, &confirmed, left)?;
    let basis = add_patched::<Shelf<'_>, Brand, ScriptMutators>(
        &setting,
        &mut draft,
        base.pulled,
        pull,
        confirmed,
    )?;
    let found = run_pending::<Shelf<'_>, Brand, ScriptMutators>(
        &setting, &draft, basis.root, left,
    )?;
    let Some(tree) = found else {
        return Err(Refusal::NoMutator);
    };
    let last = LastCommit { tree, told };
    let tip = add_replayed::<Shelf<'_>, Brand, ScriptMutators>(
        &setting, &mut draft, basis, left, last,
    )?;
    nodes.append(draft)?;
    Ok(tip.commit)
}

/// How many nodes one head leaves behind for another, and how many are shown until that is known.
fn count_dropped(
    alloc: Global,
    nodes: &VecNodes,
    old: Ref,
    new: Ref,
) -> Result<(usize, u64), Refusal>
    requires old { IsSome (version_at (map content_of nodes.now) (stamp_of old)) }
    requires new { IsSome (version_at (map content_of nodes.now) (stamp_of new)) }
{
    let mut counted = CountedNodes {
        shelf: nodes.shelf(),
        shown: 0,
    };
    let left = dropped(alloc, &mut counted, old, new)?;
    Ok((left.len(), counted.shown))
}

/// The nodes and the head of a new group.
fn opened(alloc: Global) -> Result<(VecNodes, Ref), Refusal>
    ensures { IfOk result (λ made. IsSome (version_at (map content_of made.0) (stamp_of made.1))) }
{
    let mut nodes = VecNodes::new(alloc);
    let mut draft = nodes.draft(alloc);
    let head = add_opening(alloc, &mut draft)?;
    nodes.append(draft)?;
    Ok((nodes, head))
}

/// What the body of a response tells.
pub(super) fn pulled(alloc: Global, body: &str) -> Result<PullOk, Refusal> {
    match read_response(alloc, body.as_bytes())? {
        Response::Ok(pull) => Ok(pull),
        _ => Err(Refusal::BadShape),
    }
}

/// The nodes and the head of a group that pulled so many keys, with these mutations pending.
pub(super) fn with_keys(
    alloc: Global,
    pending: &[Mutation],
    count: u32,
) -> Result<(VecNodes, Ref), Refusal>
    ensures { IfOk result (λ made. IsSome (version_at (map content_of made.0) (stamp_of made.1))) }
{
    let body = numbered(alloc, count)?;
    let pull = pulled(alloc, body.as_str())?;
    let (mut nodes, opening) = opened(alloc)?;
    let head = add_rebased(alloc, &mut nodes, opening, pending, &pull)?;
    Ok((nodes, head))
}

/// A mutation of `a` with this id.
fn mutation(alloc: Global, id: u64, name: &str, args: &str) -> Result<Mutation, Refusal> {
    let client = Text::new(alloc, "a")?;
    let name = Text::new(alloc, name)?;
    let args = Json::read(alloc, args.as_bytes())?;
    Ok(Mutation::new(alloc, &client, id, &name, &args, 0)?)
}

/// The nodes and the head of a group that pulled one key, with three mutations pending.
fn with_three(alloc: Global) -> Result<(VecNodes, Ref), Refusal>
    ensures { IfOk result (λ made. IsSome (version_at (map content_of made.0) (stamp_of made.1))) }
{
    let pending = [
        mutation(alloc, 1, "set", r#"["k01",0]"#)?,
        mutation(alloc, 2, "set", r#"["k02",0]"#)?,
        mutation(alloc, 3, "del", r#"["k02"]"#)?,
    ];
    with_keys(alloc, &pending, 1)
}

/// How many nodes are shown until the cookie of the third local commit is known.
fn looks_for_cookie(alloc: Global) -> Result<u64, Refusal> {
    let (nodes, head) = with_three(alloc)?;
    let mut counted = CountedNodes {
        shelf: nodes.shelf(),
        shown: 0,
    };
    cookie_of(&mut counted, head)?;
    Ok(counted.shown)
}

#[test]
fn a_cookie_is_two_looks_away(rt: HostRuntime) -> Result<(), Refusal> {
    assert_eq!(rt; looks_for_cookie(rt.alloc())?, 2);
    Ok(())
}

/// How many nodes are shown until each client's last id is known, where so many mutations of `a` stay pending, and the
/// id of `a`.
fn looks_for_ids(alloc: Global, count: u64) -> Result<(u64, u64), Refusal> {
    let mut pending = Vec::new(alloc);
    for before in 0..count {
        let again = mutation(alloc, before + 1, "set", r#"["k01",0]"#)?;
        pending.push(again)?;
    }
    let (nodes, head) = with_keys(alloc, &pending, 1)?;
    let mut counted = CountedNodes {
        shelf: nodes.shelf(),
        shown: 0,
    };
    let ids = last_ids_at(alloc, &mut counted, head)?;
    let client = Text::new(alloc, "a")?;
    Ok((counted.shown, ids.of(&client)))
}

#[test]
fn the_last_of_many_replayed_commits_tells_ids(rt: HostRuntime) -> Result<(), Refusal> {
    // Each commit and the snapshot; the newest one.
    assert_eq!(rt; looks_for_ids(rt.alloc(), 16)?, (17, 16));
    assert_eq!(rt; looks_for_ids(rt.alloc(), 17)?, (1, 17));
    Ok(())
}

/// Whether a state has the cookie 1, how many mutations are pending, what is confirmed of `a`, and whether the group is
/// closed.
fn facts(alloc: Global, state: &CommitState) -> Result<(bool, usize, u64, bool), Refusal> {
    let client = Text::new(alloc, "a")?;
    Ok((
        state.cookie.text() == "1",
        state.pending.len(),
        state.confirmed.of(&client),
        state.closed,
    ))
}

fn facts_of_three(alloc: Global) -> Result<(bool, usize, u64, bool), Refusal> {
    let (nodes, head) = with_three(alloc)?;
    let mut shelf = nodes.shelf();
    let state = state_of(alloc, &mut shelf, head)?;
    facts(alloc, &state)
}

#[test]
fn a_state_is_told(rt: HostRuntime) -> Result<(), Refusal> {
    assert_eq!(rt; facts_of_three(rt.alloc())?, (true, 3, 0, false));
    Ok(())
}

/// How many nodes a pull that brings nothing new leaves behind in such a group, where the first of the keys is set, and
/// how many are shown until that is known.
fn left_behind(alloc: Global, count: u32) -> Result<(usize, u64), Refusal> {
    let pending = [mutation(alloc, 1, "set", r#"["k01",0]"#)?];
    let pull = pulled(
        alloc,
        r#"{"cookie":2,"lastMutationIDChanges":{},"patch":[]}"#,
    )?;
    let (mut nodes, head) = with_keys(alloc, &pending, count)?;
    let new = add_rebased(alloc, &mut nodes, head, &pending, &pull)?;
    count_dropped(alloc, &nodes, head, new)
}

// So many keys fill 625 leaves at least. The set copied one of them, and the replay another; to show each
// that is shared would show more than 600.
#[test]
fn a_pull_shares_the_pulled_map_and_does_not_walk_it(rt: HostRuntime) -> Result<(), Refusal> {
    let (few, _) = left_behind(rt.alloc(), 17)?;
    assert_eq!(rt; few, 4);
    let (left, shown) = left_behind(rt.alloc(), 10_000)?;
    assert!(rt; left < 10, "{left} left");
    assert!(rt; shown < 600, "{shown} shown");
    Ok(())
}
