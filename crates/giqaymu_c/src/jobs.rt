//! What is done to a place of a host.
ghost use Rattle.std.specs.Prelude.{◌≡◌};
ghost use Rattle.client_desk.specs.Numbers.{outcome_code, outcome_number, outcome_value};

use host_places::{GroupOpening, Numbered, Outcome};

/// A group that is opened, with its rules: a JSON text, or no bytes.
#[derive(Clone, Copy)]
pub struct Grounds<'a> {
    pub with: GroupOpening<'a>,
    pub rules: &'a [u8],
    /// 1: names without a rule are those of the host's own mutators; 0: those of scripts.
    pub own: u32,
}

/// What is done to a place.
#[derive(Clone, Copy)]
pub enum Job<'a> {
    /// A group is opened. The place has all of its places.
    Open(Grounds<'a>),
    /// One of these is given to another place.
    Give,
    /// A call is made.
    Call(Numbered<'a>),
    Close,
}

/// What it came to, as numbers, and where the bytes lie that it told.
#[derive(Clone, Copy)]
pub struct JobReply {
    pub number: i32,
    pub value: u64,
    pub code: u32,
    pub at: *const u8,
    pub len: usize,
}

impl JobReply {
    /// Without bytes, at an address at which nothing is read.
    pub(crate) fn bare(outcome: Outcome) -> JobReply
        ensures number { result.number ≡ outcome_number outcome }
        ensures value { result.value ≡ outcome_value outcome }
        ensures code { result.code ≡ outcome_code outcome }
        ensures len { result.len ≡ 0 }
    {
        JobReply {
            number: outcome.number(),
            value: outcome.value(),
            code: outcome.code(),
            at: std::ptr::null(),
            len: 0,
        }
    }
}
