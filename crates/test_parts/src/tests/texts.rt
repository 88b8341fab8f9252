//! Texts of each way in which one is kept: by their lengths in bytes, up to 22, up to 71, and above.
use group_history::{Refusal, Text};
use std::alloc::{AllocError, Global};
use std::cmp::Ordering;
use std::mem::size_of;
use std::prelude::*;

const _: () = prove!(size_of::<Text>() == 24);

// Lengths on both sides of each limit.
const LENGTHS: [usize; 9] = [0, 1, 21, 22, 23, 70, 71, 72, 200];

/// A text of so many bytes: units of one character, the shorter rest filled with `a`.
fn sample(alloc: Global, unit: &str, len: usize) -> Result<String, AllocError> {
    let mut text = String::new(alloc);
    for _ in 0..len {
        if text.len().saturating_add(unit.len()) > len {
            text.push('a')?;
        } else {
            text.push_str(unit)?;
        }
        if text.len() >= len {
            break;
        }
    }
    Ok(text)
}

/// Samples of every length, with characters of one to four bytes, which lie across the limits.
fn samples(alloc: Global) -> Result<Vec<String>, AllocError> {
    let mut all = Vec::new(alloc);
    for len in LENGTHS {
        for unit in ["k", "é", "€", "😀"] {
            all.push(sample(alloc, unit, len)?)?;
        }
    }
    Ok(all)
}

/// Whether the text answers these bytes.
fn reads(text: &Text, bytes: &[u8]) -> bool {
    text.as_str().as_bytes() == bytes
}

/// Whether a text of the sample answers its bytes, and one that holds a copy of it is the same.
fn both_answer_bytes(alloc: Global, sample: &String) -> Result<bool, AllocError> {
    let text = Text::new(alloc, sample.as_str())?;
    let held = Text::from_string(sample.clone()?)?;
    Ok(reads(&text, sample.as_bytes()) && reads(&held, sample.as_bytes()) && text == held)
}

/// A clone of a text of the sample. The text is dropped first.
fn clone_of_dropped(alloc: Global, sample: &str) -> Result<Text, AllocError> {
    let text = Text::new(alloc, sample)?;
    let copy = text.clone()?;
    drop(text);
    Ok(copy)
}

/// Whether the clone of a text that is dropped answers the sample's bytes, and equals a clone of its own.
fn clone_stays(alloc: Global, sample: &str) -> Result<bool, AllocError> {
    let copy = clone_of_dropped(alloc, sample)?;
    let again = copy.clone()?;
    Ok(reads(&copy, sample.as_bytes()) && again == copy)
}

/// Whether a text of the sample is printed as the sample.
fn is_printed(alloc: Global, sample: &str) -> Result<bool, AllocError> {
    let text = Text::new(alloc, sample)?;
    let printed = format!(in alloc; "{text}")?;
    Ok(printed.as_str() == sample)
}

fn is_kept(alloc: Global, sample: &String) -> Result<bool, AllocError> {
    Ok(
        both_answer_bytes(alloc, sample)?
            && clone_stays(alloc, sample.as_str())?
            && is_printed(alloc, sample.as_str())?,
    )
}

#[test]
fn texts_and_their_clones_are_kept_and_printed(rt: HostRuntime) -> Result<(), Refusal> {
    for sample in samples(rt.alloc())? {
        assert!(rt; is_kept(rt.alloc(), &sample)?, "{sample}");
    }
    Ok(())
}

/// Whether texts of the two samples stand to each other as their bytes do.
fn stand_alike(alloc: Global, one: &str, other: &str) -> Result<bool, AllocError> {
    let (a, b) = (Text::new(alloc, one)?, Text::new(alloc, other)?);
    let order = one.cmp(other);
    Ok(a.cmp(&b) == order && (a == b) == (order == Ordering::Equal))
}

#[test]
fn texts_are_ordered_by_their_bytes(rt: HostRuntime) -> Result<(), Refusal> {
    let all = samples(rt.alloc())?;
    for one in &all {
        for other in &all {
            assert!(rt; stand_alike(rt.alloc(), one.as_str(), other.as_str())?);
        }
    }
    Ok(())
}
