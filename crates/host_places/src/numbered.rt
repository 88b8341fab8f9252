//! The calls of a host, by numbers.
ghost use Rattle.std.specs.Prelude.{ℕ, ◌≡◌, Ok};
ghost use Rattle.group_history.specs.Map.{Bytes};
ghost use Rattle.host_places.specs.Asking.{scan_given, text_said};
ghost use Rattle.host_places.specs.Numbers.{HasKey, HasScan, IsCall, is_query_number};

use client_desk::{DeskCall, Keep};
use group_history::Scan;

/// A call by its number, with two numbers and two byte strings of which each call uses those that it needs.
#[derive(Clone, Copy)]
pub struct Numbered<'a> {
    pub what: u32,
    pub m: u32,
    pub n: u64,
    pub a: &'a [u8],
    pub b: &'a [u8],
}

/// Whether it is the number of a query, which one commit answers.
pub(crate) fn is_query(what: u32) -> bool
    ensures { result ≡ is_query_number what }
{
    matches!(what, 2 | 3 | 4 | 5 | 6 | 7 | 9 | 29 | 30)
}

/// The call of a number that has a key.
pub(crate) fn key_call<'a>(what: u32, key: &'a str) -> DeskCall<'a>
    requires { HasKey what }
    ensures { (m n : ℕ) (a b : Bytes) → text_said a ≡ Ok key.now → IsCall result what m n a b }
{
    match what {
        2 => DeskCall::Get(key),
        3 => DeskCall::Has(key),
        18 => DeskCall::DraftGet(key),
        19 => DeskCall::DraftHas(key),
        22 => DeskCall::DraftDel(key),
        29 => DeskCall::PulledGet(key),
        _ => unreachable!(),
    }
}

/// The call of a number that has a scan.
pub(crate) fn scan_call<'a>(what: u32, scan: &'a Scan) -> DeskCall<'a>
    requires { HasScan what }
    ensures { (m n : ℕ) (a b : Bytes) → scan_given a m b n ≡ Ok scan.now → IsCall result what m n a b }
{
    match what {
        4 => DeskCall::Scan(scan),
        14 => DeskCall::Watch(Keep::AtNext, scan),
        20 => DeskCall::DraftScan(scan),
        30 => DeskCall::PulledScan(scan),
        _ => unreachable!(),
    }
}
