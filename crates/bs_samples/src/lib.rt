//! What the tests of several crates share: two checks, and builders of boards, commands and plans.
#![tactic(auto)]

mod boards;
mod check;
mod commands;
mod plans;

pub use boards::{Parts, board, cells, snake, solo, solo_after};
pub use check::{holds, same};
pub use commands::{
    Places, new_of_three, new_solo, no_orders, orders, setup, starts, straight_on, third_goes,
};
pub use plans::{plan_of, row};
