//! The rules that depend on a game's mode: its first board, when it is over, and how snakes grow in
//! constrictor.
#![tactic(auto)]

mod ending;
mod growth;
mod opening;

pub use ending::over;
pub use growth::grow;
pub use opening::start;
