//! Many games in the caller's memory. A game is one struct of numbers without a pointer, so a copy
//! of the struct is a copy of the game. A turn allocates nothing. Every call is safe for all
//! contents of the memory that it is passed.
#![tactic(auto)]

mod collisions;
mod crossing;
mod food;
mod hazards;
mod large;
mod law;
mod layout;
mod lists;
mod loading;
mod many;
mod motion;
mod planes;
mod saving;
mod seats;
mod showing;
mod small;
mod starting;
mod turns;

pub use hazards::Hazards;
pub use large::{
    advance_large, body_large, food_large, load_large, save_large, show_large, start_large,
    step_large,
};
pub use law::first_law;
pub use layout::{Cell, Head, LargeGame, Place, Seat, Settings, SmallGame};
pub use loading::Misfit;
pub use many::{ManyOrders, ManyStarts, orders_of};
pub use small::{
    advance_small, body_small, food_small, load_small, save_small, show_small, start_small,
    step_small,
};
pub use turns::Orders;
