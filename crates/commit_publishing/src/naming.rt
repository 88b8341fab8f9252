//! How a draft's own references are told, once it is placed.
ghost use Rattle.std.specs.Prelude.{◌≡◌};
ghost use Rattle.group_history.specs.Naming.{placed_ref};

use group_history::Ref;

/// What a reference of a draft has become, whose nodes were numbered from `from` on and placed at `refs`. One
/// of a lower stamp, which names a node that was placed before, stays as it is.
pub fn place_of(at: Ref, from: u64, refs: &[Ref]) -> Ref
    ensures { result ≡ placed_ref from refs.now at }
{
    let stamp = at.stamp();
    if stamp < from {
        return at;
    }
    match refs.get((stamp - from) as usize) {
        Some(placed) => *placed,
        None => at,
    }
}
