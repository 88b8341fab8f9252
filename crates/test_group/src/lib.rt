//! What the tests of several crates share: groups that are opened over any store and their clients, calls with their
//! answers, and below them the seats of a store, of a head and of a claims table.
#![tactic(auto)]

mod bare;
mod calls;
mod claims;
mod heads;
mod opening;
mod stores;

pub use bare::{Nobody, cookie_of};
pub use calls::{
    CallTold, NamedCall, ToldResult, answered, call_of, ends, gets, mutates, n_in, number_in,
    number_of, pulls, refreshes,
};
pub use claims::{ClaimPlace, claim_places};
use group_history::Refusal;
pub use heads::{HeadPlace, next_head, two_heads};
pub use opening::{A, B, C, D, E, NumberedClient, new_players, next_client};
pub use stores::{SeatPlace, next_place, opened_store, places_of, shows};

/// The first two of these.
pub fn two_of<T>(all: &mut [T]) -> Result<(&mut T, &mut T), Refusal> {
    let Some((first, rest)) = all.split_first_mut() else {
        return Err(Refusal::NoSeat);
    };
    match rest.first_mut() {
        Some(second) => Ok((first, second)),
        None => Err(Refusal::NoSeat),
    }
}
