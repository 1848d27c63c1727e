//! Where food appears: a function of the board and of a move's words, and of nothing else.
#![tactic(auto)]

mod free;
mod given;
mod marks;
mod spawning;

pub use free::free_cells;
pub use given::give;
pub use spawning::spawn;
