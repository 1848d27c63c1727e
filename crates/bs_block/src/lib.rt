//! Blocks of `CAP` raw bytes, each seen by every contract as the list of its bytes in use.
#![tactic(auto)]

mod block;
mod group;
mod raw;
mod rounding;

pub use block::{Block, MOST_BLOCKS, MOST_CAPACITY};
// A crate can name a block in a contract only if the types of its fields are exported.
#[doc(hidden)]
pub use block::Origin;
#[doc(hidden)]
pub use group::{Group, Layout, Member, ReturnRule, Spare};
#[doc(hidden)]
pub use raw::{Base, Deed, Region};
pub use rounding::{UNIT, round_up};
