//! A tally counts the missing parts of a turn, by atomic steps and without a lock.
#![tactic(auto)]

mod finish;
mod key;
mod law;
mod name;
mod parted;
mod plays;
mod steps;
mod tally;
mod views;

pub use finish::{Finish, Spent};
pub use key::PartKey;
pub use law::tally_law;
pub use name::TallyName;
pub use parted::Parted;
pub use tally::Tally;
#[doc(hidden)]
pub use views::{SeatView, TallyRule};
