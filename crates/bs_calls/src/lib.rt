//! The rules on records: each call reads the record of a board, and writes that of another. Snakes
//! are named by their seats.
#![tactic(auto)]

mod cells;
mod fault;
mod front;
mod orders;
mod records;
mod setups;
mod turns;

pub use fault::Fault;
pub use orders::SeatOrders;
pub use records::{is_legal, is_over, start, turn, turn_in_place};
pub use setups::{SeatSetup, setup_by_seat};
pub use turns::turn_by_seat;
