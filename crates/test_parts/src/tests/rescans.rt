//! How many nodes are shown where a scan is made again.
ghost use Rattle.std.specs.Prelude.{IfOk, IsSome, map};
ghost use Rattle.group_history.specs.Naming.{content_of};
ghost use Rattle.group_history.specs.Refs.{stamp_of};
ghost use Rattle.group_history.specs.Spelling.{version_at};

use super::groups::{CountedNodes, add_rebased, pulled, with_keys};
use commit_graph::VecNodes;
use group_history::{Json, Ref, Refusal, Scan, Start, Text};
use std::alloc::Global;
use std::prelude::*;
use transactions::{ReadTx, Rescanned, Spans};

/// The rows of a scan that were told last, their spans, and how many nodes were shown for them.
#[derive(Drop)]
struct ToldRows {
    rows: Vec<(Text, Json)>,
    spans: Spans,
    shown: u64,
}

/// Nothing was told yet.
fn untold(alloc: Global) -> Result<ToldRows, Refusal> {
    Ok(ToldRows {
        rows: Vec::new(alloc),
        spans: Spans::none(alloc)?,
        shown: 0,
    })
}

/// What is told at a commit behind what was told before.
fn told_behind(
    alloc: Global,
    nodes: &VecNodes,
    head: Ref,
    scan: &Scan,
    before: ToldRows,
) -> Result<ToldRows, Refusal>
    requires { IsSome (version_at (map content_of nodes.now) (stamp_of head)) }
{
    let counted = CountedNodes {
        shelf: nodes.shelf(),
        shown: 0,
    };
    let mut tx = match ReadTx::open(alloc, counted, head) {
        Ok(tx) => tx,
        Err((_, stop)) => return Err(Refusal::from(stop)),
    };
    let ToldRows {
        rows,
        spans: known,
        shown: _,
    } = before;
    let Rescanned { others, spans } = tx.scan_again(scan, rows.as_slice(), &known)?;
    Ok(ToldRows {
        rows: others.unwrap_or(rows),
        spans,
        shown: tx.close().shown,
    })
}

/// How many nodes are shown for the rows of a map of 1,000 keys, or so many of them: at first, behind a change of one
/// of them, back where they were, and there again. And how many rows there are.
fn shown_behind(
    alloc: Global,
    limit: Option<u64>,
    change: &str,
) -> Result<([u64; 4], usize), Refusal> {
    let scan = Scan {
        prefix: Text::new(alloc, "k")?,
        start: Start::Any,
        limit,
    };
    let (mut nodes, old) = with_keys(alloc, &[], 1_000)?;
    let first = told_behind(alloc, &nodes, old, &scan, untold(alloc)?)?;
    let at_first = first.shown;
    let pull = pulled(alloc, change)?;
    let new = add_rebased(alloc, &mut nodes, old, &[], &pull)?;
    let second = told_behind(alloc, &nodes, new, &scan, first)?;
    let behind = second.shown;
    let third = told_behind(alloc, &nodes, old, &scan, second)?;
    let back = third.shown;
    let last = told_behind(alloc, &nodes, old, &scan, third)?;
    Ok(([at_first, behind, back, last.shown], last.rows.len()))
}

/// A pull that puts 0 at a key.
fn change_of(alloc: Global, key: &str) -> Result<String, Refusal> {
    Ok(format!(in alloc;
        r#"{{"cookie":2,"lastMutationIDChanges":{{}},"patch":[{{"op":"put","key":"{key}","value":0}}]}}"#
    )?)
}

/// A pull that removes a key.
fn removal_of(alloc: Global, key: &str) -> Result<String, Refusal> {
    Ok(format!(in alloc;
        r#"{{"cookie":2,"lastMutationIDChanges":{{}},"patch":[{{"op":"del","key":"{key}"}}]}}"#
    )?)
}

// The map has 128 chunks, on three levels; and each time the commit is shown.
#[test]
fn a_scan_made_again_shows_new_chunks_alone(rt: HostRuntime) -> Result<(), Refusal> {
    let change = change_of(rt.alloc(), "k500")?;
    let (shown, rows) = shown_behind(rt.alloc(), None, change.as_str())?;
    assert_eq!(rt; shown, [129, 4, 4, 1]);
    assert_eq!(rt; rows, 1_000);
    Ok(())
}

// The first 100 rows lie in 12 leaves, below two chunks and the root. The limit cuts the last of these leaves, and the
// chunk above it. Their first rows were told, and no more are wanted behind a change that leaves the keys as they are.
#[test]
fn a_scan_with_a_limit_shows_new_chunks_alone(rt: HostRuntime) -> Result<(), Refusal> {
    let inside = change_of(rt.alloc(), "k05")?;
    let (shown, rows) = shown_behind(rt.alloc(), Some(100), inside.as_str())?;
    assert_eq!(rt; shown, [16, 4, 4, 1]);
    assert_eq!(rt; rows, 100);
    let behind = change_of(rt.alloc(), "k500")?;
    let (shown, rows) = shown_behind(rt.alloc(), Some(100), behind.as_str())?;
    assert_eq!(rt; shown, [16, 2, 2, 1]);
    assert_eq!(rt; rows, 100);
    Ok(())
}

// Where a row goes away in front of the cut, one enters that was never told. So the leaf that is cut is shown, and the
// chunk above it.
#[test]
fn a_row_that_enters_at_the_limit_is_read(rt: HostRuntime) -> Result<(), Refusal> {
    let removal = removal_of(rt.alloc(), "k05")?;
    let (shown, rows) = shown_behind(rt.alloc(), Some(100), removal.as_str())?;
    assert_eq!(rt; shown, [16, 6, 4, 1]);
    assert_eq!(rt; rows, 100);
    let addition = change_of(rt.alloc(), "k050")?;
    let (shown, rows) = shown_behind(rt.alloc(), Some(100), addition.as_str())?;
    assert_eq!(rt; shown, [16, 4, 6, 1]);
    assert_eq!(rt; rows, 100);
    Ok(())
}

// A limit that isn't reached cuts nothing.
#[test]
fn a_scan_below_its_limit_shows_new_chunks_alone(rt: HostRuntime) -> Result<(), Refusal> {
    let change = change_of(rt.alloc(), "k500")?;
    let (shown, rows) = shown_behind(rt.alloc(), Some(2_000), change.as_str())?;
    assert_eq!(rt; shown, [129, 4, 4, 1]);
    assert_eq!(rt; rows, 1_000);
    Ok(())
}
