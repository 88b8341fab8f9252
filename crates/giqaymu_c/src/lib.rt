//! Places at a group for C: five functions over `host_places`. `include/giqaymu.h` is the header.
//!
//! A place of a host is a pointer and a flag (`Handle`); a zeroed one is closed. `exports` has what C calls, in safe
//! code. Raw pointers are in `parts`, `held` and `handle` alone, each function of which is a few moves, proved by hand.
//!
//! Decisions. A meaning belongs to a type, and rules are given when a group is opened: so what a place has is of a type
//! that is named by a marker, and a handle keeps as ghost data by which rules, and whether the host has mutators of its
//! own. The runs of these are ghost data too, a list (`specs/Own.antt`), which a closed place has as the host likes:
//! the one premise is said of them, at `giq_call`. One function, `act`, goes from a handle to that type and back: it
//! calls `act_held` at the marker, whose proof picks what the handle keeps. All that is done to a place is a `Job` of
//! it. A box is made a pointer only if its value may be dropped. A desk can't be, so a spot's own drop closes each of
//! them.
//!
//! No clause says that C hands a place over as the library left it, to one call at a time: the header asks for that.
//! None says of a closed place what became of its seat: there is no value left to say it of. `Desk::close`, by which
//! alone a desk can end, says it where the seat is answered.
#![tactic(auto)]

mod exports;
mod handle;
mod held;
mod jobs;
mod parts;
mod spots;

pub use exports::{
    CallAnswer, VERSION, giq_call, giq_close, giq_open, giq_rules_fault, giq_version,
};
pub use handle::Handle;
