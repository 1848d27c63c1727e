//! A stay of a live host: a row, its game as the kept records, and the number of its replies. A
//! command is answered by value: nothing is queued, and nothing but the records is kept.
#![tactic(auto)]

mod kept_game;
mod live_stay;
mod room;

// A crate can name a stay in a contract only if the types of its fields are exported.
#[doc(hidden)]
pub use kept_game::KeptGame;
pub use live_stay::LiveStay;
pub use room::make_room;
