//! Calls of a client, and what they reply.
//!
//! What is right to reply is said by the group's state alone (`reply_to`), and so is the change that a
//! reply stands for (`change_of`).
use crate::tickets::Ticket;
use group_history::{Cookie, Ended, Json, Mutation, Scan, Text};

/// A mutation that is asked for.
#[derive(Clone, Copy)]
pub struct Mutate<'a> {
    /// The mutator's name.
    pub name: &'a Text,
    /// What it is given.
    pub args: &'a Json,
    /// In milliseconds.
    pub time: u64,
}

/// A call with what it is given. Each says how it is answered where it isn't refused.
#[derive(Clone, Copy)]
pub enum Call<'a> {
    /// The value at a key: `Reply::Value`.
    Get(&'a Text),
    /// Whether the key is there: `Reply::Is`.
    Has(&'a Text),
    /// The pairs of a scan: `Reply::Rows`.
    Scan(&'a Scan),
    /// Whether no key is there: `Reply::Is`.
    IsEmpty,
    /// Whether the group is closed: `Reply::Is`.
    Closed,
    /// The mutations that are not confirmed: `Reply::Pending`.
    Pending,
    /// The cookie of the last pull that was applied: `Reply::Cookie`.
    Cookie,
    /// `Client::refresh`: `Reply::Id`.
    Refresh,
    /// `Client::push_body` of all that is pending: `Reply::Body`.
    PushBody,
    /// `Client::begin_pull`: `Reply::Ticket`.
    BeginPull,
    /// `Client::try_mutate`: `Reply::Id`.
    Mutate(Mutate<'a>),
    /// `Client::try_end_pull`, with the ticket and the bytes of the response: `Reply::Ended`.
    EndPull(&'a Ticket, &'a [u8]),
}

/// What a call replies.
#[derive(Drop)]
pub enum CallReply {
    /// None where the key is not there.
    Value(Option<Json>),
    /// The answer to whether something is so.
    Is(bool),
    /// In the order of their keys.
    Rows(Vec<(Text, Json)>),
    /// The oldest first.
    Pending(Vec<Mutation>),
    /// The group's cookie.
    Cookie(Cookie),
    /// An id, which is then the client's last one: the one that was found, or that of a mutation.
    Id(u64),
    /// The bytes for the push endpoint.
    Body(Vec<u8>),
    /// With the bytes for the pull endpoint.
    Ticket(Ticket),
    /// How an end of a pull was answered.
    Ended(Ended),
}
