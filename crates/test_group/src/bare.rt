//! A group without mutators, whose first pull brings a cookie and nothing else.
ghost use Rattle.std.specs.Prelude.{◌≡◌, [], IfOk};
ghost use Rattle.std.specs.declared.cmp.Ordering.TheVariants.{Greater};
ghost use Rattle.group_history.specs.Cookies.{order_cmp};
ghost use Rattle.group_history.specs.declared.cookies.Order.TheVariants as order;
ghost use Rattle.test_group.specs.Trials.{bare_commit, bare_pull};

use group_history::{
    BoxedCommit, Change, Commit, CommitKind, ConfirmedIds, Cookie, Keys, Leaf, Means, Node, PullOk,
    Ref, Refusal, Snapshot, TextMap, cookie_cmp, nests_within, read_value,
};
use serde_json::Value;
use std::alloc::Global;
use std::cmp::Ordering;
use std::sync::Arc;

/// An application without mutators.
#[derive(Drop)]
pub struct Nobody;

impl Means for Nobody {
    ghost use Rattle.test_group.specs.Trials.{no_mutators};

    ghost means = { no_mutators };
}

/// The cookie that a value is.
pub fn cookie_of(alloc: Global, value: &Value) -> Result<Cookie, Refusal> {
    if !nests_within(value, 126) {
        return Err(Refusal::NotJson);
    }
    Cookie::of(alloc, value)?.ok_or(Refusal::BadShape)
}

/// The cookie 1.
pub fn first_cookie(alloc: Global) -> Result<Cookie, Refusal> {
    let value = read_value(alloc, "1".as_bytes())?;
    cookie_of(alloc, &value)
}

pub fn empty_leaf(alloc: Global) -> Result<Leaf, Refusal>
    ensures { IfOk result (λ leaf. leaf ≡ []) }
{
    let keys = Arc::new(alloc, Keys::new(Vec::new(alloc)))?;
    Ok(Leaf::new(keys, Vec::new(alloc)))
}

/// The snapshot of an empty map under the cookie, over the leaf at `root`.
pub fn bare_snapshot(alloc: Global, cookie: &Cookie, root: Ref) -> Result<Node<Ref>, Refusal>
    ensures { IfOk result (λ node. node ≡ bare_commit cookie.now root) }
{
    let commit = Commit {
        root,
        kind: CommitKind::Snapshot(Snapshot {
            cookie: cookie.clone()?,
            confirmed: ConfirmedIds::new(alloc, TextMap::new(alloc))?,
        }),
    };
    Ok(Node::Commit(BoxedCommit::new(alloc, commit)?))
}

/// The change by a first pull that brings this cookie alone.
pub fn bare_change(alloc: Global, cookie: &Cookie) -> Result<Change, Refusal>
    ensures change { IfOk result (λ change. change ≡ bare_pull cookie.now) }
    ensures above { IfOk result (λ _. order_cmp cookie.now.order order.Null ≡ Greater) }
{
    let null = Cookie::null(alloc)?;
    if cookie_cmp(cookie, &null) != Ordering::Greater {
        return Err(Refusal::CookieWentBack);
    }
    let pull = PullOk::new(cookie.clone()?, Vec::new(alloc), Vec::new(alloc));
    Ok(Change::Pulled(null, pull))
}
