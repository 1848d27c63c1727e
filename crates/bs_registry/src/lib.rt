//! Which stays are open, and which rows may be admitted: one list, one order of refusals.
#![tactic(auto)]

mod blocks;
mod plan_rows;
mod refusal;
mod registry;

pub use blocks::{FRAME_BLOCKS, MOST_STAYS, blocks_of, blocks_of_all, record_blocks};
pub use plan_rows::open_rows;
pub use refusal::Refusal;
pub use registry::{Listed, Registry};
