//! One turn of a game, step by step: snakes move, are hurt by hazards, eat,
//! starve or leave the board, and collide.
#![tactic(auto)]

mod collision;
mod feeding;
mod hurting;
mod law;
mod motion;
mod parts;
mod starved_or_outside;
mod turns;
mod verdict;

pub use collision::collide;
pub use feeding::feed;
pub use hurting::{hazards_after, hurt};
pub use law::collision_law;
pub use motion::{move_snake, move_snakes, next_head};
pub use starved_or_outside::first_out;
pub use turns::{finish_turn, turn};
