//! Short texts, compared in place: a call for each comparison would take longer than the comparison.
ghost use Rattle.std.specs.Prelude.{◌≡◌};
ghost use Rattle.std.specs.Ordering.{is_lt, nat_cmp};
ghost use Rattle.std.specs.Cmp.Lexicographic.{slice_cmp};

use std::cmp::Ordering;

/// Whether one text is below another.
pub(crate) fn is_before(last: &str, name: &str) -> bool
    ensures { result ≡ is_lt (slice_cmp nat_cmp last.now name.now) }
{
    let (a, b) = (last.as_bytes(), name.as_bytes());
    if a.is_empty() || b.is_empty() || a[0] == b[0] {
        return matches!(last.cmp(name), Ordering::Less);
    }
    a[0] < b[0]
}
