//! Which slot (cell of an arena) is free: epoch-based reclamation, with the states of the slots beside the epoch and
//! the pins (guards).
//!
//! The epoch is a number that never falls, at most 2^60. The pin of a seat (a handle at the collector) is absent or an
//! epoch. A slot is Free, Taken by a seat, Live, or Retired at an epoch, which defers its free. `claims` tells the
//! protocol and why it is safe.
//!
//! A pin is *held* where the epoch was loaded with its number after it was stored. A seat that holds a pin e *holds*
//! each slot that is Live, or Retired above e. No slot is given while a seat holds it: that is
//! [`claims_law`](crate::claims_law), over every list of steps. A raise that another seat was first with serves as
//! well: a seat retires at one above the epoch that it loaded, once it has seen the epoch past that number.
//!
//! What a seat knows is its view (`view`): its pin, the epochs that it loaded, the pins that it read since, the slots
//! that it has, settled, withdrew and retired, and notes of lost exchanges and of looks. One list has all that it did
//! to slots and to the epoch (`Deed`), but for slots that it gave. Each call says which steps (`Move`) it made and how
//! the view changed.
//!
//! A call may report contention only if other seats caused it. `pin` answers `Raised` only where its second load read
//! more than its first and the seat raised nothing. `take_slot` answers none only after a pass that loaded the epoch
//! once and every pin, and found each slot taken, live, shut by the epoch or a pin, or changed by another seat between
//! our read and our exchange. A pass looks at a slot before it exchanges its word, since a look disturbs nobody; the
//! look is noted as a take that found that word. In the pass the seat stores no pin, raises nothing, and settles,
//! withdraws and retires no slot: its view would record a slot that it took back, or a pin of its own. The seat that
//! makes the others takes no slot.
//!
//! Of N slots the last N / 4 are reserved for ends of pulls that leave nothing pending (`Kind::PullEnd`), which take
//! one only where no ordinary slot can be had; so a full group can be emptied. What a pass read of the pins counts
//! until its seat loads or raises the epoch again: a seat keeps the greatest number at which that reading leaves a slot
//! open. So the takes of one draft read each pin once, however many nodes it has. Nor do they look at all ordinary
//! slots more than once: that a pass found none of them stands while its seat does nothing but take slots, and the next
//! reserved one is had behind the last. In a table of 16 seats or more a pass that finds a slot gives up to 64 slots
//! behind it as well, so the next takes need no reading of the pins.
//!
//! A count looks at each word once, by loads that disturb nobody. Each number was so at some time in the call; no two
//! need have been so at once. A retired slot counts as retired until somebody who looks for a slot gives it.
//!
//! Decisions. The rule of the table is reachability by its steps, not an invariant: a wrong step that happens to keep
//! an invariant is refused; it costs proofs by induction. The epoch and each pin have a cache line to themselves, and
//! slots begin behind `MAX_SEATS` pins, so the layout is the same however many seats there are; it costs 16 kB.
//!
//! Not said: the contract doesn't explain a false `give` that attempted no exchange, as a plain load proves nothing
//! that lasts. That a held slot stays held where somebody retires it too early: `retire` asks that its number is above
//! the epoch loaded, and that nobody can find the slot any more is for the layers above (`reclamation_law`). That a
//! call ever finds a slot. That a slot is given is no deed: it is noted, and notes go where the epoch is loaded again.
#![tactic(auto)]

mod claims;
mod counts;
mod laws;
mod passes;
mod plays;
mod quick;
mod slot;
mod steps;
mod view;
mod words;

pub use claims::{ClaimSeat, Claims, Raised};
pub use counts::SlotCounts;
pub use laws::claims_law;
pub use slot::{Kind, Slot};
pub use view::{Sizes, View};
pub use words::{Pin, SlotState};
