//! Boards: cells, snakes, and when a board is legal.

pub(crate) mod area;
pub mod board;
pub mod body;
pub mod cells;
pub mod hazards;
pub mod legal;
pub mod point;
pub mod snake;
pub mod snakes;
