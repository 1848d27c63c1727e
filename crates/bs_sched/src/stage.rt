//! The stage of a game's current command.

/// The largest number of parts of a move.
pub(crate) const MOST_PARTS: usize = 4;

/// The stage of a lane. A worker is named by its number.
#[derive(Clone, Copy, Debug, PartialEq, Eq)]
pub enum Stage {
    /// No command is being answered.
    Idle,
    /// That worker has the Begin out.
    Begin(usize),
    /// Some part of the move is not completed.
    Parts,
    /// All parts are completed; that worker has the Join out, or none has taken it yet.
    Join(Option<usize>),
}
