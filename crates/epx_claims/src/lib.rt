//! Claims: threads draw pieces of work from one shared counter, each piece once. A parallel map is
//! built on them. `specs/` defines the state of the claims and its steps.
#![tactic(auto)]

mod claims;
mod first_call;
mod gate;
mod map;
mod parts;
mod rule;
mod seat;
mod seat_state;
mod seats;
mod values_by_number;
mod work;

pub use claims::Claims;
pub use gate::{FreeGate, Gate};
pub use map::{claimed_map, claimed_map_after};
pub use parts::append_parts;
pub use seat::ClaimSeat;
