//! Seats at a claims table.
ghost use Rattle.std.specs.Prelude.{◌≡◌};
ghost use Rattle.std.specs.List.{All};
ghost use Rattle.reader_claims.specs.Seats.{IsNew};

use group_history::Refusal;
use reader_claims::{ClaimSeat, Claims};
use std::alloc::Global;

/// A seat at its table, and its number among the seats there, from 0 on.
#[derive(Drop)]
pub struct ClaimPlace<'a> {
    pub number: u64,
    pub claims: &'a Claims,
    pub seat: ClaimSeat,
    ghost same: { seat.table ≡ claims.now },
}

/// A place for each seat.
pub fn claim_places<'a>(
    alloc: Global,
    claims: &'a Claims,
    mut seats: Vec<ClaimSeat>,
) -> Result<Vec<ClaimPlace<'a>>, Refusal>
    requires { All (IsNew claims.now) seats.items }
{
    let mut places = Vec::new(alloc);
    for number in 0..seats.len() as u64 {
        let Some(seat) = seats.pop() else {
            break;
        };
        places.push(ClaimPlace {
            number,
            claims,
            seat,
        })?;
    }
    Ok(places)
}
