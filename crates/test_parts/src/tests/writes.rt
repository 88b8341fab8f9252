//! Lists of writes, as their bytes say them.
use group_history::Refusal;
use pull_patch::{Write, read_writes};
use std::alloc::{AllocError, Global};
use std::prelude::*;

/// The writes in a line: a key and its value of a put, a key alone of a del.
fn line_of(alloc: Global, writes: &[Write]) -> Result<String, AllocError> {
    let mut line = String::new(alloc);
    for write in writes {
        match write {
            Write::Put(key, value) => {
                let text = value.text();
                line.push_str(format!(in alloc; "{key}={text};")?.as_str())?;
            }
            Write::Del(key) => line.push_str(format!(in alloc; "{key};")?.as_str())?,
        }
    }
    Ok(line)
}

#[test]
fn writes_are_read_in_their_order(rt: HostRuntime) -> Result<(), Refusal> {
    let bytes =
        r#" [{"op":"put","key":"b","value":{"y": 2,"x":[1]},"by":1.5}, {"key":"a","op":"del"},
        {"op":"put","key":"","value":null},{"op":"put","key":"b","value":"é"}]"#;
    let writes = read_writes(rt.alloc(), bytes.as_bytes())?;
    let line = line_of(rt.alloc(), &writes)?;
    assert_eq!(rt; line.as_str(), r#"b={"x":[1],"y":2};a;=null;b="é";"#);
    let none = read_writes(rt.alloc(), b"[]")?;
    assert_eq!(rt; none.len(), 0);
    Ok(())
}

fn refused(alloc: Global, text: &str) -> Option<Refusal> {
    match read_writes(alloc, text.as_bytes()) {
        Ok(_) => None,
        Err(refusal) => Some(refusal),
    }
}

/// So many arrays, each in the next.
fn nested(alloc: Global, depth: u32) -> Result<String, AllocError> {
    let mut text = String::new(alloc);
    for _ in 0..depth {
        text.push('[')?;
    }
    for _ in 0..depth {
        text.push(']')?;
    }
    Ok(text)
}

#[test]
fn a_list_is_refused_for_its_first_reason(rt: HostRuntime) -> Result<(), Refusal> {
    for text in ["", r#"[{"op":"del","key":"a"}"#, r#"[{"op":"clear"}],"#] {
        assert_eq!(rt; refused(rt.alloc(), text), Some(Refusal::NotJson), "{text}");
    }
    for text in [
        "{}",
        r#"[{"op":"put","key":"a","value":1.5},{"op":"clear"}]"#,
        r#"[{"op":"put","key":"a","value":1.5},{"op":"put","key":"b"}]"#,
        r#"[{"op":"del","key":1}]"#,
    ] {
        assert_eq!(rt;
            refused(rt.alloc(), text),
            Some(Refusal::BadShape),
            "{text}"
        );
    }
    let text = r#"[{"op":"put","key":"a","value":[1.5]},{"op":"del","key":"b"}]"#;
    assert_eq!(rt; refused(rt.alloc(), text), Some(Refusal::NotWhole));
    let (deep, deeper) = (nested(rt.alloc(), 126)?, nested(rt.alloc(), 127)?);
    assert_eq!(rt; refused(rt.alloc(), deep.as_str()), Some(Refusal::BadShape));
    assert_eq!(rt;
        refused(rt.alloc(), deeper.as_str()),
        Some(Refusal::NotJson)
    );
    Ok(())
}
