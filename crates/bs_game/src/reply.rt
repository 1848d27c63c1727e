//! An answer: a reply, and its effect on the records.
use bs_board::{Record, Reply};

/// The change that an answer makes to a game's records.
#[derive(Debug, Drop)]
pub enum Effect {
    /// No change.
    Keep,
    /// Adds the record as the newest.
    Add(Record),
    /// Drops all but the newest.
    Trim,
    /// Drops all: the game has ended.
    Drop,
}

/// The reply to a command, and its effect.
#[derive(Debug, Drop)]
pub struct Answer {
    /// The reply to the command.
    pub reply: Reply,
    /// The change of the game's records.
    pub effect: Effect,
}
