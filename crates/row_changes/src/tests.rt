//! What is told of two lists of rows, as it is printed.
ghost use Rattle.std.specs.Prelude.{T, IfOk};
ghost use Rattle.group_history.specs.Rows.{keys_of, rises};

use crate::changes::changes_of;
use crate::printing::print_changes;
use group_history::{Json, Refusal, Scan, Start, Text, TextMap};
use std::alloc::Global;
use std::prelude::*;
use std::test::Fail;

/// Rows as a poll has them, of keys and values in any order.
fn rows_of(alloc: Global, pairs: &[(&str, &str)]) -> Result<Vec<(Text, Json)>, Refusal>
    ensures { IfOk result (λ rows. T (rises (keys_of rows.items))) }
{
    let mut map = TextMap::new(alloc);
    for (key, value) in pairs {
        let key = Text::new(alloc, key)?;
        let value = Json::read(alloc, value.as_bytes())?;
        map.insert(key, value)?;
    }
    let scan = Scan {
        prefix: Text::default(),
        start: Start::Any,
        limit: None,
    };
    Ok(map.rows(alloc, &scan)?)
}

/// Whether this is printed of rows of these keys and values.
fn tells(
    alloc: Global,
    old: &[(&str, &str)],
    new: &[(&str, &str)],
    text: &str,
) -> Result<bool, Refusal> {
    let old = rows_of(alloc, old)?;
    let new = rows_of(alloc, new)?;
    let changes = changes_of(alloc, &old, &new)?;
    let mut out = Vec::new(alloc);
    print_changes(&changes, &mut out)?;
    Ok(out.as_slice() == text.as_bytes())
}

#[test]
fn tells_nothing_of_the_same_rows(rt: HostRuntime) -> Result<(), Fail> {
    let alloc = rt.alloc();
    let rows = [("a", "1"), ("b", "{\"x\":[]}")];
    let spaced = [("b", " { \"x\" : [ ] } "), ("a", "1")];
    assert!(rt; tells(alloc, &[], &[], "[]")?, "no rows");
    assert!(rt; tells(alloc, &rows, &rows, "[]")?, "the same rows");
    assert!(rt;
        tells(alloc, &rows, &spaced, "[]")?,
        "the same compact texts"
    );
    Ok(())
}

#[test]
fn tells_each_difference(rt: HostRuntime) -> Result<(), Fail> {
    let alloc = rt.alloc();
    let one = [("b", "1")];
    let before = [("a", "0"), ("b", "1")];
    let behind = [("b", "1"), ("c", "[2]")];
    let other = [("b", "null")];
    let text = "[{\"key\":\"a\",\"newValue\":0,\"op\":\"add\"}]";
    assert!(rt;
        tells(alloc, &one, &before, text)?,
        "a row more at the front"
    );
    let text = "[{\"key\":\"c\",\"newValue\":[2],\"op\":\"add\"}]";
    assert!(rt; tells(alloc, &one, &behind, text)?, "a row more at the end");
    let text = "[{\"key\":\"a\",\"oldValue\":0,\"op\":\"del\"}]";
    assert!(rt;
        tells(alloc, &before, &one, text)?,
        "a row less at the front"
    );
    let text = "[{\"key\":\"c\",\"oldValue\":[2],\"op\":\"del\"}]";
    assert!(rt; tells(alloc, &behind, &one, text)?, "a row less at the end");
    let text = "[{\"key\":\"b\",\"newValue\":null,\"oldValue\":1,\"op\":\"change\"}]";
    assert!(rt; tells(alloc, &one, &other, text)?, "another value");
    let text = "[{\"key\":\"b\",\"newValue\":1,\"op\":\"add\"}]";
    assert!(rt; tells(alloc, &[], &one, text)?, "from no rows");
    let text = "[{\"key\":\"b\",\"oldValue\":1,\"op\":\"del\"}]";
    assert!(rt; tells(alloc, &one, &[], text)?, "to no rows");
    Ok(())
}

#[test]
fn tells_in_the_order_of_keys(rt: HostRuntime) -> Result<(), Fail> {
    let old = [("", "0"), ("a", "1"), ("b", "2"), ("d", "4")];
    let new = [("a", "1"), ("b", "[2]"), ("c\"", "3"), ("é", "5")];
    let text = "[{\"key\":\"\",\"oldValue\":0,\"op\":\"del\"},\
        {\"key\":\"b\",\"newValue\":[2],\"oldValue\":2,\"op\":\"change\"},\
        {\"key\":\"c\\\"\",\"newValue\":3,\"op\":\"add\"},\
        {\"key\":\"d\",\"oldValue\":4,\"op\":\"del\"},\
        {\"key\":\"é\",\"newValue\":5,\"op\":\"add\"}]";
    assert!(rt; tells(rt.alloc(), &old, &new, text)?);
    Ok(())
}
