//! A pool of blocks. Each of its block numbers is free or owned by one tag, and a tag owns at most
//! as many as it reserved.
#![tactic(auto)]

mod assembly;
mod free_numbers;
mod owned;
mod pool;
mod reservation;
mod slot;
mod words;

pub use assembly::Assembly;
pub use owned::Owned;
pub use pool::Pool;
pub use reservation::{Reservation, Reserve};
// A crate can name a pool in a contract only if the types of its fields are exported.
#[doc(hidden)]
pub use reservation::Account;
#[doc(hidden)]
pub use slot::{Slot, Whereabouts};
