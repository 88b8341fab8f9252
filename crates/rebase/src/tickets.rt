//! A pull that was begun.
use group_history::Cookie;

/// A pull that was begun. It is good until another pull is applied, and may be ended more than once.
#[derive(Drop)]
pub struct Ticket {
    /// The request's bytes, for the pull endpoint.
    pub body: Vec<u8>,
    /// The group's cookie, at which it was begun.
    pub cookie: Cookie,
}
