//! Plays the games of a core on one thread or several, until every command is answered.
#![tactic(auto)]

mod acceptable;
mod act;
mod ahead;
mod alone;
mod apart;
mod boxed;
mod crew;
mod fault;
mod gate;
mod law;
mod places;
mod player;
mod request;
mod runs;
mod sharing;
mod stays;
mod stop;
mod team;
mod together;
mod turns;

pub use act::Act;
pub use ahead::take_ahead;
pub use fault::Run;
pub use gate::{Gate, OpenGate};
pub use law::acts_law;
pub use runs::{run, run_any};
pub use sharing::is_shared;
